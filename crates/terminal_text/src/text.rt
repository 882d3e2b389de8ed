//! `mtpbank terminal`: the text of an input.
ghost use Rattle.std.specs.Prelude.{◌≤◌, ◌^◌, length, IfSome, OnOk};
ghost use Rattle.text_base.specs.Printing.{Prints, FailsByDevices};
ghost use Rattle.text_lines.specs.Explaining.{fault_alone};
ghost use Rattle.terminal_text.specs.Explaining.{IsExplainedTerminalText};
ghost use Rattle.terminal_text.specs.Kept.{IsKeptNamedText, IsKeptTerminalText};
ghost use Rattle.terminal_text.specs.Named.{IsNamedTerminalText};
ghost use Rattle.terminal_text.specs.Text.{IsTerminalText};

use super::fault::TerminalFault;
use super::kept::{KeptNamed, KeptTerminal};
use super::named::NamedTerminal;
use super::open_end::Terminal;
use std::alloc::Global;
use text_base::{Fault, Sink, Source};
use text_lines::{Explained, print_explained, print_talk};

/// The most octets of an input, 2^60.
const LONGEST: usize = 1 << 60;

/// Opens an end of a set by the first line that the source gives, does what each further line asks for, and writes what
/// they print.
///
/// All that the whole lines of a piece of the input print is written before more is read. Ends with the first fault;
/// what was printed before it stays printed. An input of more than 2^60 octets ends with [`Fault::Long`], unless another
/// fault comes before. [`Fault::Memory`] tells, too, that a count is full: 2^48 turns of a link, or 2^48 entries of the
/// set.
pub fn terminal<S: Source, W: Sink>(
    alloc: Global,
    source: &mut S,
    sink: &mut W,
) -> Result<(), Fault<TerminalFault>>
    ensures text { IfSome (S.left source.old)
        (λ input. Prints result (IsTerminalText input) (W.written sink.old) (W.written sink.new)) }
    ensures bounded { IfSome (S.left source.old) (λ input. OnOk result (length input ≤ 2 ^ 60)) }
    ensures devices { IfSome (S.left source.old)
        (FailsByDevices (2 ^ 60) result (S.failures source.old) (S.failures source.new)
        (W.failures sink.old) (W.failures sink.new)) }
{
    print_talk(alloc, Terminal::new(), LONGEST, source, sink)
}

/// Drives an end so, but a line that can't be read or can't be done is answered `fault line N ..`, as the fault would be told,
/// and leaves the end as it was; the lines behind it are read on. Only a line of over 4,096 octets ends the input.
pub fn terminal_kept<S: Source, W: Sink>(
    alloc: Global,
    source: &mut S,
    sink: &mut W,
) -> Result<(), Fault<TerminalFault>>
    ensures text { IfSome (S.left source.old)
        (λ input. Prints result (IsKeptTerminalText input) (W.written sink.old) (W.written sink.new)) }
    ensures bounded { IfSome (S.left source.old) (λ input. OnOk result (length input ≤ 2 ^ 60)) }
    ensures devices { IfSome (S.left source.old)
        (FailsByDevices (2 ^ 60) result (S.failures source.old) (S.failures source.new)
        (W.failures sink.old) (W.failures sink.new)) }
{
    print_talk(alloc, KeptTerminal::new(), LONGEST, source, sink)
}

/// Drives an end as [`terminal_kept`] does, in the words of [`terminal_explained`]: behind the fault of a line stand the lines
/// that explain it.
pub fn terminal_kept_explained<S: Source, W: Sink>(
    alloc: Global,
    source: &mut S,
    sink: &mut W,
) -> Result<(), Fault<TerminalFault>>
    ensures text { IfSome (S.left source.old)
        (λ input. Prints result (IsKeptNamedText input) (W.written sink.old) (W.written sink.new)) }
    ensures bounded { IfSome (S.left source.old) (λ input. OnOk result (length input ≤ 2 ^ 60)) }
    ensures devices { IfSome (S.left source.old)
        (FailsByDevices (2 ^ 60) result (S.failures source.old) (S.failures source.new)
        (W.failures sink.old) (W.failures sink.new)) }
{
    print_talk(alloc, KeptNamed::new(), LONGEST, source, sink)
}

/// Drives an end so in words: a number that tells why something was refused or given up has its words behind it, as in
/// `refused 5 (not up)`, and a fault of a line brings its explanation.
pub fn terminal_explained<S: Source, W: Sink>(
    alloc: Global,
    source: &mut S,
    sink: &mut W,
) -> Result<(), Fault<Explained<TerminalFault>>>
    ensures text { IfSome (S.left source.old)
        (λ input. Prints result (IsExplainedTerminalText input)
        (W.written sink.old) (W.written sink.new)) }
    ensures same { IfSome (S.left source.old)
        (λ input. Prints (fault_alone result) (IsNamedTerminalText input)
        (W.written sink.old) (W.written sink.new)) }
    ensures bounded { IfSome (S.left source.old) (λ input. OnOk result (length input ≤ 2 ^ 60)) }
    ensures devices { IfSome (S.left source.old)
        (FailsByDevices (2 ^ 60) result (S.failures source.old) (S.failures source.new)
        (W.failures sink.old) (W.failures sink.new)) }
{
    print_explained(alloc, NamedTerminal::new(), LONGEST, source, sink)
}
