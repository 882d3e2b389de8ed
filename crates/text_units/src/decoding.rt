//! `mtpbank decode`: octets of units, a unit a line, and what they say.
ghost use Rattle.std.specs.Prelude.{◌≤◌, ◌^◌, length, IfSome, OnOk};
ghost use Rattle.text_base.specs.Printing.{Prints, FailsByDevices};
ghost use Rattle.text_units.specs.Decoding.{IsDecodeText};

use super::decode_fault::UnreadableUnit;
use super::decoder::{Decoder, OfNarrow, OfWide};
use l2_units::Profile;
use std::alloc::Global;
use text_base::{Fault, LONGEST_READ, Sink, Source};
use text_lines::print_talk;

/// Reads the units of this profile that the source gives, and writes what they say.
///
/// Ends with the first fault; what was printed before it stays printed. An input of more than 2^60 octets ends with
/// [`Fault::Long`], unless another fault comes before: nothing of it is kept.
pub fn decode<S: Source, W: Sink>(
    alloc: Global,
    profile: Profile,
    source: &mut S,
    sink: &mut W,
) -> Result<(), Fault<UnreadableUnit>>
    ensures text { IfSome (S.left source.old)
        (λ input. Prints result (IsDecodeText profile input) (W.written sink.old) (W.written sink.new)) }
    ensures bounded { IfSome (S.left source.old) (λ input. OnOk result (length input ≤ 2 ^ 60)) }
    ensures devices { IfSome (S.left source.old)
        (FailsByDevices (2 ^ 60) result (S.failures source.old) (S.failures source.new)
        (W.failures sink.old) (W.failures sink.new)) }
{
    match profile {
        Profile::Narrow => print_talk(
            alloc,
            Decoder::<OfNarrow>::new(),
            LONGEST_READ,
            source,
            sink,
        ),
        Profile::Wide => print_talk(alloc, Decoder::<OfWide>::new(), LONGEST_READ, source, sink),
    }
}
