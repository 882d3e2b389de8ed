//! The whole text of a source.
ghost use Rattle.std.specs.Prelude.{◌≡◌, ◌≤◌, ◌^◌, [], length, IfSome, OnOk};
ghost use Rattle.text_base.specs.Printing.{Prints, FailsByDevices};
ghost use Rattle.text_lines.specs.Talks.{IsTalkText};
ghost use Rattle.text_lines.specs.Under.{text_by};

use super::line_reader::LineReader;
use super::line_text::LineText;
use super::talk_text::TalkText;
use super::talking::Talking;
use std::alloc::Global;
use text_base::{Fault, Sink, Source, print_all};

/// Reads the lines that the source gives, at most `longest` octets, and writes what they print.
///
/// Ends with the first fault; what was printed before it stays printed. An input of more than `longest` octets ends
/// with [`Fault::Long`], unless another fault comes before. The last line may lack its LF. What is kept is the line that is
/// being read, and `lines`.
pub fn print_lines<L: LineText + Drop, S: Source, W: Sink>(
    alloc: Global,
    lines: L,
    longest: usize,
    source: &mut S,
    sink: &mut W,
) -> Result<(), Fault<L::Fault>>
    requires start { L.has_read lines [] [] }
    requires longest { longest ≤ 2 ^ 60 }
    ensures text { IfSome (S.left source.old)
        (λ input. Prints result (text_by L.is_text input)
        (W.written sink.old) (W.written sink.new)) }
    ensures bounded { IfSome (S.left source.old) (λ input. OnOk result (length input ≤ longest)) }
    ensures devices { IfSome (S.left source.old)
        (FailsByDevices longest result (S.failures source.old) (S.failures source.new)
        (W.failures sink.old) (W.failures sink.new)) }
{
    print_all(alloc, LineReader::new(alloc, lines), longest, source, sink)
}

/// Reads the lines that the source gives, at most `longest` octets, and writes what they may print.
///
/// Ends with the first fault; what was printed before it stays printed. An input of more than `longest` octets ends
/// with [`Fault::Long`], unless another fault comes before.
pub fn print_talk<L: TalkText + Drop, S: Source, W: Sink>(
    alloc: Global,
    lines: L,
    longest: usize,
    source: &mut S,
    sink: &mut W,
) -> Result<(), Fault<L::Fault>>
    requires start { lines ≡ L.rules.start }
    requires longest { longest ≤ 2 ^ 60 }
    ensures text { IfSome (S.left source.old)
        (λ input. Prints result (IsTalkText L.rules input)
        (W.written sink.old) (W.written sink.new)) }
    ensures bounded { IfSome (S.left source.old) (λ input. OnOk result (length input ≤ longest)) }
    ensures devices { IfSome (S.left source.old)
        (FailsByDevices longest result (S.failures source.old) (S.failures source.new)
        (W.failures sink.old) (W.failures sink.new)) }
{
    print_lines(alloc, Talking { text: lines }, longest, source, sink)
}
