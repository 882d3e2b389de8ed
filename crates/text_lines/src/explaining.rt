//! The whole text of a source, with an explanation of its fault.
ghost use Rattle.std.specs.Prelude.{◌≡◌, ◌≤◌, ◌^◌, length, IfSome, OnOk, IfOk, string_bytes};
ghost use Rattle.std.specs.Option.{option_map};
ghost use Rattle.text_base.specs.Printing.{Prints, FailsByDevices};
ghost use Rattle.text_lines.specs.Explaining.{IsExplained, explained_rules, fault_alone};
ghost use Rattle.text_lines.specs.Talks.{IsTalkText};

use super::explained::Explained;
use super::talk_text::TalkText;
use super::text::print_talk;
use std::alloc::{AllocError, Global};
use std::marker::Model;
use text_base::{Fault, Sink, Source, Stop};

/// Lines whose faults can be explained, each by what the lines before it leave.
pub trait Explains: TalkText {
    ghost use Rattle.std.specs.Prelude.{◌≡◌, ℕ, List, Option, IfOk, string_bytes};
    ghost use Rattle.std.specs.Option.{option_map};
    ghost use Rattle.text_lines.specs.Explaining.{Said};

    /// What an explanation has to know of what the lines before leave.
    type Before: Drop;

    /// What is said of a fault of a line.
    ghost said: { Said Self Self.Fault };

    /// What it is, by what an explanation knows.
    ghost said_by: { Self.Before → List ℕ → Self.Fault → Option (List ℕ) };

    /// What is known before a line.
    fn before(&self) -> Self::Before
        ensures { (text : List ℕ) (fault : Self.Fault) → said self.now text fault ≡ said_by result text fault };

    /// The lines that explain this fault of a line, each but the last ended by LF. It fails only where memory is wanted.
    fn explain(
        alloc: Global,
        before: &Self::Before,
        text: &[u8],
        fault: &Self::Fault,
    ) -> Result<Option<String>, AllocError>
        ensures { IfOk result (λ told. option_map string_bytes told ≡ said_by before.now text.now fault.now) };
}

/// Lines under way, whose faults are explained.
#[derive(Drop)]
struct Explaining<T> {
    text: T,
}

impl<T> Model for Explaining<T> {
    ghost Value = { T };

    ghost view = { λ e. e.text };
}

impl<T: Explains> TalkText for Explaining<T> {
    type Fault = Explained<T::Fault>;

    ghost use Rattle.text_lines.specs.Explaining.{explained_rules, one_explained};

    ghost rules = { explained_rules T.rules T.said };

    ghost one_outcome = { one_explained T.rules T.said T.one_outcome };

    fn unreadable(number: u64) -> Explained<T::Fault> {
        Explained {
            fault: T::unreadable(number),
            told: None,
        }
    }

    fn line(
        &mut self,
        alloc: Global,
        number: u64,
        text: &[u8],
        out: &mut Vec<u8>,
    ) -> Result<(), Stop<Explained<T::Fault>>> {
        let before = self.text.before();
        match self.text.line(alloc, number, text, out) {
            Ok(()) => Ok(()),
            Err(Stop::Input(fault)) => Err(explained::<T>(alloc, &before, text, fault)),
            Err(Stop::Memory) => Err(Stop::Memory),
        }
    }

    fn end(&self, alloc: Global, out: &mut Vec<u8>) -> Result<(), Stop<Explained<T::Fault>>> {
        match self.text.end(alloc, out) {
            Ok(()) => Ok(()),
            Err(Stop::Memory) => Err(Stop::Memory),
            Err(Stop::Input(_)) => unreachable!(),
        }
    }
}

/// The fault of this line with its explanation, or want of memory for that.
fn explained<T: Explains>(
    alloc: Global,
    before: &T::Before,
    text: &[u8],
    fault: T::Fault,
) -> Stop<Explained<T::Fault>>
    ensures { IsExplained result fault (T.said_by before.now text.now fault) }
{
    match T::explain(alloc, before, text, &fault) {
        Ok(told) => Stop::Input(Explained { fault, told }),
        Err(want) => Stop::from(want),
    }
}

/// Reads the lines that the source gives, at most `longest` octets, and writes what they print, as [`print_talk`] does; a fault
/// of a line brings its explanation.
///
/// Ends with the first fault; what was printed before it stays printed.
pub fn print_explained<T: Explains + Drop, S: Source, W: Sink>(
    alloc: Global,
    lines: T,
    longest: usize,
    source: &mut S,
    sink: &mut W,
) -> Result<(), Fault<Explained<T::Fault>>>
    requires start { lines ≡ T.rules.start }
    requires longest { longest ≤ 2 ^ 60 }
    ensures text { IfSome (S.left source.old)
        (λ input. Prints result (IsTalkText (explained_rules T.rules T.said) input)
        (W.written sink.old) (W.written sink.new)) }
    ensures same { IfSome (S.left source.old)
        (λ input. Prints (fault_alone result) (IsTalkText T.rules input)
        (W.written sink.old) (W.written sink.new)) }
    ensures bounded { IfSome (S.left source.old) (λ input. OnOk result (length input ≤ longest)) }
    ensures devices { IfSome (S.left source.old)
        (FailsByDevices longest result (S.failures source.old) (S.failures source.new)
        (W.failures sink.old) (W.failures sink.new)) }
{
    print_talk(alloc, Explaining { text: lines }, longest, source, sink)
}
