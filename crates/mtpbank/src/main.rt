//! `mtpbank`: a bank of signalling terminals for Signalling System No. 7.
//!
//! The program is a thin edge: it reads its words and its input, hands them to functions over
//! values, and prints what they give. `units` tells what a signalling terminal sees of a line's octets;
//! `play` walks two ends of a link set through a script; `capture` writes what they send there as a file for network
//! analysers, `ladder` draws it as a chart, and `history` prints what one of those ends was asked and answered;
//! `audit` tells whether such a history is legal, and `decode` what the octets of units say. `terminal` drives one end of a
//! link set, whose lines are elsewhere. `run` reads nothing: it runs two banks in threads, and prints what they came to.
#![tactic(auto)]

ghost use Rattle.std.specs.Prelude.{◌≡◌, ◌≢◌, IfErr, IfOk, IfSome, IsErr, IsOk, MatchOption, codes};
ghost use Rattle.std.specs.IoError.{error_kind};
ghost use Rattle.std.specs.Process.{exit_status};
ghost use Rattle.std.specs.Vec.Iter.{into_iter_items};
ghost use Rattle.clap.specs.Values.{kind_of};
ghost use Rattle.mtpbank_words.specs.CommandLine.{IsAsked, Refuses, words_in};
ghost use Rattle.mtpbank.specs.Ending.{EndsAsAsked, EndsReading, EndsRun, EndsSaid, EndsWrong, IsDone, IsShown, Tells, status_of};
ghost use Rattle.text_calls.specs.Running.{ReadsInput};

mod ending;
mod telling;

use ending::{Ended, Page, carry_out, carry_out_run};
use mtpbank_words::{RunWords, Words, WordsFault, asked_by, not_unicode, say_linkless};
use std::alloc::Global;
use std::env::Args;
use std::fmt::Display;
use std::io;
use std::io::{Eprint, ErrorKind, IsTerminal, Print};
use std::process::ExitCode;
use std::sync::Wait;
use std::thread::Threads;
use std::time::Clock;
use telling::say_line;
use text_base::{Reader, Sink, Source, Writer};

/// The status of a fault of input, memory, reading or writing.
const FAULT: u8 = 1;

/// The status of wrong words.
const WRONG: u8 = 2;

fn main(rt: HostRuntime) -> ExitCode {
    let asked = asked(rt.alloc(), std::env::args(&rt));
    let mut source = Reader::new(rt.reader());
    let mut sink = Writer::new(io::writer(&rt));
    answered(&rt, &rt, asked, &mut source, &mut sink)
}

/// Does what the words ask for, or tells what is wrong with them. What starts threads is the same runtime.
fn answered<
    R: Threads + Wait + Clock + Eprint + Copy + Send + Sync + 'static,
    S: Source,
    W: Sink + Page,
>(
    rt: &HostRuntime,
    threads: &R,
    asked: Result<Words, WordsFault>,
    source: &mut S,
    sink: &mut W,
) -> ExitCode
    ensures { EndsAsAsked asked (S.left source.old) (W.written sink.old) (W.written sink.new)
        (S.failures source.old) (S.failures source.new) (W.failures sink.old) (W.failures sink.new)
        (W.unread sink.new) (exit_status result) }
{
    match asked {
        Ok(Words::Run(words)) => ran(rt, threads, &words, sink),
        Ok(words) => done(rt, words, source, sink),
        Err(WordsFault::Words(error)) => said(rt, &error),
        Err(WordsFault::Link { fail, links }) => linkless(rt, fail, links),
        Err(WordsFault::Said(text)) => advised(&mut Writer::new(rt.stderr()), &text),
        Err(WordsFault::NoMemory) => told(rt, "fault memory"),
    }
}

/// What the arguments of the command line ask for, the first of which is the program's own name, where they can be had.
fn asked(alloc: Global, args: io::Result<Args>) -> Result<Words, WordsFault>
    ensures asked { IfOk args (λ all. IfOk result (λ found. IsAsked found (words_in (into_iter_items all)))) }
    ensures refused { IfOk args (λ all. IfErr result (λ fault. Refuses fault (words_in (into_iter_items all)))) }
{
    let all = match args {
        Ok(all) => all,
        Err(error) if error.kind() == ErrorKind::InvalidData => return Err(not_unicode(alloc)),
        Err(_) => return Err(WordsFault::NoMemory),
    };
    let mut given: Vec<String> = Vec::new(alloc);
    for word in all {
        if given.push(word).is_err() {
            return Err(WordsFault::NoMemory);
        }
    }
    asked_by(alloc, &given)
}

/// Says what is wrong with the words, on standard error and with status 2, or what they ask to be shown.
fn said(rt: &HostRuntime, error: &clap::Error) -> ExitCode
    ensures wrong { EndsWrong (kind_of error.now) (exit_status result) }
    ensures shown { IsShown (kind_of error.now) → IsDone (exit_status result) }
{
    let printed = error.print(rt);
    after(rt, error, printed)
}

/// Ends where what the library says was printed, or couldn't be: with 2 for wrong words, which are told by that; with 0 for
/// what was asked to be shown, or with 1 and a line on standard error.
fn after(rt: &HostRuntime, error: &clap::Error, printed: io::Result<()>) -> ExitCode
    ensures { EndsSaid (kind_of error.now) (IsOk printed) (IsErr printed) (exit_status result) }
{
    match printed {
        Err(why) if !error.use_stderr() => unshown(rt, &why),
        _ => status_of(error),
    }
}

/// What was asked to be shown couldn't be: status 1, and a line on standard error, if one is told.
fn unshown(rt: &HostRuntime, why: &io::Error) -> ExitCode
    ensures { exit_status result ≡ 1 }
{
    match told_of_unshown(why) {
        Some(line) => told(rt, line),
        None => ExitCode::from(FAULT),
    }
}

/// The line that tells why a text couldn't be shown; none where nobody reads any more what is printed.
fn told_of_unshown(why: &io::Error) -> Option<&'static str>
    ensures { MatchOption result (error_kind why.now ≡ ErrorKind.BrokenPipe)
        (λ line. (error_kind why.now ≢ ErrorKind.BrokenPipe) × (line.now ≡ codes "fault write")) }
{
    if why.kind() == ErrorKind::BrokenPipe {
        None
    } else {
        Some("fault write")
    }
}

/// Says what is wrong with the words, with status 2.
fn advised<W: Sink>(errors: &mut W, text: &[u8]) -> ExitCode
    ensures status { exit_status result ≡ 2 }
    ensures told { Tells text.now (W.written errors.old) (W.written errors.new) (W.failures errors.old) (W.failures errors.new) }
{
    // where nobody hears it, the status still tells it
    let _ = say_line(errors, text);
    ExitCode::from(WRONG)
}

/// 2 for wrong words, 0 for what was asked to be shown.
fn status_of(error: &clap::Error) -> ExitCode
    ensures wrong { EndsWrong (kind_of error.now) (exit_status result) }
    ensures shown { IsShown (kind_of error.now) → exit_status result ≡ 0 }
{
    ExitCode::from(error.exit_code() as u8)
}

/// Tells on standard error, with status 2, that the link that is to fail isn't one of so many.
fn linkless(rt: &HostRuntime, fail: u8, links: u8) -> ExitCode
    ensures { exit_status result ≡ 2 }
{
    match say_linkless(rt.alloc(), fail, links) {
        Ok(text) => advised(&mut Writer::new(rt.stderr()), &text),
        Err(_) => advised(&mut Writer::new(rt.stderr()), b"fault link"),
    }
}

/// Does what the words ask for, with this input and output.
fn done<S: Source, W: Sink + Page>(
    rt: &HostRuntime,
    words: Words,
    source: &mut S,
    sink: &mut W,
) -> ExitCode
    requires reads { ReadsInput words }
    ensures done { IsDone (exit_status result) }
    ensures text { IfSome (S.left source.old) (λ input. EndsReading words input
        (W.written sink.old) (W.written sink.new) (S.failures source.old) (S.failures source.new)
        (W.failures sink.old) (W.failures sink.new) (W.unread sink.new) (exit_status result)) }
{
    let end = carry_out(rt.alloc(), words, source, sink);
    ended(rt, end)
}

/// Runs two banks in threads, and prints what they came to; meanwhile it shows how far they are, where somebody looks.
fn ran<R: Threads + Wait + Clock + Eprint + Copy + Send + Sync + 'static, W: Sink + Page>(
    rt: &HostRuntime,
    threads: &R,
    words: &RunWords,
    sink: &mut W,
) -> ExitCode
    ensures { EndsRun words.now (W.written sink.old) (W.written sink.new)
        (W.failures sink.old) (W.failures sink.new) (W.unread sink.new) (exit_status result) }
{
    let shows = rt.stderr().is_terminal();
    let end = carry_out_run(threads, rt.alloc(), words, shows, sink);
    ended(rt, end)
}

/// Ends with status 0, or with 1 and what is told in a line on standard error.
fn ended<T: Display + Drop>(rt: &HostRuntime, end: Ended<T>) -> ExitCode
    ensures status { exit_status result ≡ status_of end }
    ensures done { IsDone (exit_status result) }
{
    match end {
        Ended::Well => ExitCode::SUCCESS,
        Ended::Told(it) => told(rt, it),
        Ended::Untold => ExitCode::from(FAULT),
    }
}

/// Tells a fault in one line on standard error, and ends with status 1.
fn told<D: Display + Drop>(rt: &HostRuntime, fault: D) -> ExitCode
    ensures { exit_status result ≡ 1 }
{
    let _ = rt.eprintln(fault);
    ExitCode::from(FAULT)
}
