//! How what was asked for ends: well, or with a fault, which is told unless nobody reads any more what is printed.
ghost use Rattle.std.specs.Prelude.{◌≡◌, IfSome};
ghost use Rattle.mtpbank.specs.Ending.{EndsRunning, EndsText, end_of, run_end_of};
ghost use Rattle.text_calls.specs.Running.{ReadsInput};

use mtpbank_words::{RunWords, Words};
use run_text::{Missing, RunFault};
use std::alloc::Global;
use std::io::{Eprint, Write};
use std::sync::Wait;
use std::thread::Threads;
use std::time::Clock;
use text_base::{Fault, Sink, Source, Writer};
use text_calls::{TextFault, run};
use thiserror::Error;

/// How it ended.
#[derive(Debug, Drop)]
pub enum Ended<T> {
    /// All was printed, and nothing is at fault.
    Well,
    /// This is to be told.
    Told(T),
    /// A fault that nobody is told, since nobody reads any more what is printed.
    Untold,
}

/// What is told of a run.
#[derive(Debug, Drop, Error)]
pub enum RunTold {
    /// The first message that is missing.
    #[error("{0}")]
    Missing(Missing),
    /// A fault.
    #[error("{0}")]
    Fault(Fault<RunFault>),
}

/// What is printed to, which knows whether anybody reads it.
pub trait Page {
    ghost use Rattle.std.specs.Prelude.{◌≡◌, Bool, Option, None, IfSome};

    /// Whether a write failed since nobody reads any more what is written, where that is known.
    ghost unread: { Self → Option Bool } = { λ _. None };

    /// Whether a write failed since nobody reads any more what is written.
    fn is_unread(&self) -> bool
        ensures { IfSome (unread self.now) (λ unread. result ≡ unread) };
}

impl<W: Write> Page for Writer<W> {
    fn is_unread(&self) -> bool {
        self.is_closed()
    }
}

/// Reads what the source gives, writes what the subcommand makes of it, and tells how that ended.
pub fn carry_out<S: Source, W: Sink + Page>(
    alloc: Global,
    words: Words,
    source: &mut S,
    sink: &mut W,
) -> Ended<Fault<TextFault>>
    requires reads { ReadsInput words }
    ensures { IfSome (S.left source.old) (λ input. EndsText words input
        (W.written sink.old) (W.written sink.new) (S.failures source.old) (S.failures source.new)
        (W.failures sink.old) (W.failures sink.new) (W.unread sink.new) result) }
{
    let ran = run(alloc, words, source, sink);
    end_of(ran, sink.is_unread())
}

/// Runs what the words ask for, writes what came of it, and tells how that ended; with `shows` it's shown meanwhile how far
/// it is.
pub fn carry_out_run<
    R: Threads + Wait + Clock + Eprint + Copy + Send + Sync + 'static,
    W: Sink + Page,
>(threads: &R, alloc: Global, words: &RunWords, shows: bool, sink: &mut W) -> Ended<RunTold>
    ensures { EndsRunning words.now (W.written sink.old) (W.written sink.new)
        (W.failures sink.old) (W.failures sink.new) (W.unread sink.new) result }
{
    let ran = run_text::run(threads, alloc, words, shows, sink);
    run_end_of(ran, sink.is_unread())
}

/// How a text ended.
fn end_of<T: Drop>(ran: Result<(), Fault<T>>, unread: bool) -> Ended<Fault<T>>
    ensures { result ≡ end_of ran unread }
{
    match ran {
        Ok(()) => Ended::Well,
        Err(_) if unread => Ended::Untold,
        Err(fault) => Ended::Told(fault),
    }
}

/// How a run ended.
fn run_end_of(ran: Result<Option<Missing>, Fault<RunFault>>, unread: bool) -> Ended<RunTold>
    ensures { result ≡ run_end_of ran unread }
{
    match ran {
        Ok(None) => Ended::Well,
        Ok(Some(missing)) => Ended::Told(RunTold::Missing(missing)),
        Err(_) if unread => Ended::Untold,
        Err(fault) => Ended::Told(RunTold::Fault(fault)),
    }
}
