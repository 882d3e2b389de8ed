//! What is said of a line of `decode` that ends it with a fault.
ghost use Rattle.std.specs.Prelude.{◌≡◌, ◌≤◌, ◌^◌, length, IfOk, IfSome, OnOk, string_bytes};
ghost use Rattle.std.specs.Option.{option_map};
ghost use Rattle.text_base.specs.Printing.{Prints, FailsByDevices};
ghost use Rattle.text_lines.specs.Explaining.{fault_alone};
ghost use Rattle.text_units.specs.Decoding.{IsDecodeText};
ghost use Rattle.text_units.specs.DecodeExplaining.{EachFaultIsExplained, IsExplainedDecodeText, said_of};

use super::decode_fault::UnreadableUnit;
use super::decoder::{Decoder, NamesProfile, OfNarrow, OfWide};
use l2_units::Profile;
use std::alloc::{AllocError, Global};
use text_base::{Fault, LONGEST_READ, Sink, Source};
use text_forms::{blame_octets, explain};
use text_lines::{Explained, Explains, print_explained};

impl<P: NamesProfile> Explains for Decoder<P> {
    /// No line leaves anything for the next.
    type Before = ();

    ghost use Rattle.text_units.specs.DecodeExplaining.{said};

    ghost said = { λ state. said };

    ghost said_by = { λ state. said };

    fn before(&self) {}

    fn explain(
        alloc: Global,
        _before: &(),
        text: &[u8],
        fault: &UnreadableUnit,
    ) -> Result<Option<String>, AllocError> {
        explain_line(alloc, fault.line, text)
    }
}

/// The lines that explain why the line of this number can't be read.
fn explain_line(alloc: Global, line: u64, text: &[u8]) -> Result<Option<String>, AllocError>
    ensures { IfOk result (λ told. option_map string_bytes told ≡ said_of line text.now) }
{
    match blame_octets(alloc, text)? {
        Some(blame) => Ok(Some(explain(alloc, line, blame, text)?)),
        None => Ok(None),
    }
}

/// Reads the units, writes what they say, and explains the line that ends them with a fault.
///
/// What is written is what [`crate::decode`] writes. The same fault ends it, and brings the explanation of its line along:
/// the word at fault, as [`text_forms::blame_octets`] tells it.
pub fn decode_explained<S: Source, W: Sink>(
    alloc: Global,
    profile: Profile,
    source: &mut S,
    sink: &mut W,
) -> Result<(), Fault<Explained<UnreadableUnit>>>
    ensures text { IfSome (S.left source.old) (λ input. Prints result (IsExplainedDecodeText profile input)
        (W.written sink.old) (W.written sink.new)) }
    ensures same { IfSome (S.left source.old) (λ input. Prints (fault_alone result) (IsDecodeText profile input)
        (W.written sink.old) (W.written sink.new)) }
    ensures bounded { IfSome (S.left source.old) (λ input. OnOk result (length input ≤ 2 ^ 60)) }
    ensures devices { IfSome (S.left source.old)
        (FailsByDevices (2 ^ 60) result (S.failures source.old) (S.failures source.new)
        (W.failures sink.old) (W.failures sink.new)) }
{
    match profile {
        Profile::Narrow => print_explained(
            alloc,
            Decoder::<OfNarrow>::new(),
            LONGEST_READ,
            source,
            sink,
        ),
        Profile::Wide => {
            print_explained(alloc, Decoder::<OfWide>::new(), LONGEST_READ, source, sink)
        }
    }
}

/// Of each line that `decode` can't read, but for one that is too long, there is an explanation.
pub fn each_unreadable_unit_is_explained()
    ensures { EachFaultIsExplained }
{}
