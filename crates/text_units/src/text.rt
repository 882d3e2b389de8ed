//! `mtpbank units`: the octets of a line as hexadecimal digits, and what a signalling terminal sees.
ghost use Rattle.std.specs.Prelude.{◌≤◌, ◌^◌, length, IfSome, OnOk};
ghost use Rattle.text_base.specs.Printing.{Prints, FailsByDevices};
ghost use Rattle.text_units.specs.UnitsText.{IsUnitsText};

use super::fault::UnreadableOctet;
use super::units_reading::UnitsReader;
use std::alloc::Global;
use text_base::{Fault, LONGEST_READ, Sink, Source, print_all};

/// Reads the hexadecimal digits that the source gives, and writes a line for each mark of their bits.
///
/// Ends with the first fault; what was printed before it stays printed. [`UnreadableOctet`] tells a
/// character that is neither a digit nor skipped, or the end of the input where a digit is left
/// over. An input of more than 2^60 octets ends with [`Fault::Long`],
/// unless another fault comes before: nothing of it is kept.
pub fn units<S: Source, W: Sink>(
    alloc: Global,
    source: &mut S,
    sink: &mut W,
) -> Result<(), Fault<UnreadableOctet>>
    ensures text { IfSome (S.left source.old)
        (λ input. Prints result (IsUnitsText input) (W.written sink.old) (W.written sink.new)) }
    ensures bounded { IfSome (S.left source.old) (λ input. OnOk result (length input ≤ 2 ^ 60)) }
    ensures devices { IfSome (S.left source.old)
        (FailsByDevices (2 ^ 60) result (S.failures source.old) (S.failures source.new)
        (W.failures sink.old) (W.failures sink.new)) }
{
    print_all(alloc, UnitsReader::new(alloc), LONGEST_READ, source, sink)
}
