//! A run as its words ask for it.
ghost use Rattle.std.specs.Prelude.{◌≡◌, IfErr};
ghost use Rattle.run_text.specs.Asked.{IsFaultOfAsked, IsTrafficOf, RunsAsked};
ghost use Rattle.run_text.specs.Running.{FailsByWrites};

use super::fault::RunFault;
use super::progress::Progress;
use super::running::write_run;
use super::verdict::Missing;
use bank_traffic::{PaceGate, Traffic, gates_of};
use mtpbank_words::RunWords;
use std::alloc::Global;
use std::io::Eprint;
use std::sync::Wait;
use std::thread::Threads;
use std::time::{Clock, Duration, Instant};
use text_base::{Fault, Sink};

/// Runs what these words ask for, and writes what its sets came to; with `shows`, standard error tells meanwhile how far
/// it is, and at the end how many messages were delivered, where no report does. Where the words ask for a report the answer
/// is the first message that is missing, if one is.
///
/// Faults, in which nothing was written but before [`Fault::Write`]: [`RunFault::Thread`], [`RunFault::Close`],
/// [`RunFault::User`], [`RunFault::Terminal`], [`Fault::Memory`], [`Fault::Write`], as [`write_run`] has them.
pub fn run<R: Threads + Wait + Clock + Eprint + Copy + Send + Sync + 'static, W: Sink>(
    rt: &R,
    alloc: Global,
    words: &RunWords,
    shows: bool,
    sink: &mut W,
) -> Result<Option<Missing>, Fault<RunFault>>
    ensures text { RunsAsked words.now result (W.written sink.old) (W.written sink.new) }
    ensures fault { IfErr result (IsFaultOfAsked words.now) }
    ensures failed { FailsByWrites result (W.failures sink.old) (W.failures sink.new) }
{
    let traffic = traffic_of(words);
    let Ok((near, far)) = gates_of(alloc, &traffic) else {
        return Err(Fault::Memory);
    };
    let progress = if shows {
        shown(rt, alloc, words, &near)
    } else {
        None
    };
    let since = Instant::now(rt).ok();
    write_run(
        rt,
        alloc,
        &traffic,
        (near, far),
        words.report,
        sink,
        |delivered| {
            let elapsed = elapsed_since(rt, since);
            if let Some(progress) = progress {
                progress.end(rt);
            }
            if shows && !words.report {
                tell_delivered(rt, words, delivered);
            }
            elapsed
        },
    )
}

/// Tells on standard error how many of a run's messages were delivered when its turns were over.
fn tell_delivered<R: Eprint>(rt: &R, words: &RunWords, delivered: Option<u64>) {
    if let Some(delivered) = delivered {
        let offered = u64::from(words.sets) * u64::from(words.users) * u64::from(words.messages);
        let turns = words.turns;
        let _ = eprintln!(rt;
            "mtpbank run: {delivered} of {offered} messages delivered within {turns} turns; --report goes on until all are"
        );
    }
}

/// How much time went by since then, if a clock tells it.
fn elapsed_since<R: Clock>(rt: &R, since: Option<Instant>) -> Option<Duration> {
    since?.elapsed(rt).ok()
}

/// Begins to tell how far a run of these words is.
fn shown<R: Threads + Wait + Clock + Eprint + Copy + Send + Sync + 'static>(
    rt: &R,
    alloc: Global,
    words: &RunWords,
    near: &PaceGate,
) -> Option<Progress> {
    let turns = u64::from(words.sets) * u64::from(words.links) * u64::from(words.turns);
    let messages = u64::from(words.sets) * u64::from(words.users) * u64::from(words.messages);
    Progress::start(rt, alloc, near, turns, messages)
}

/// The traffic that these words ask for.
fn traffic_of(words: &RunWords) -> Traffic
    ensures { IsTrafficOf words.now result }
{
    Traffic {
        sets: words.sets,
        links: words.links,
        users: words.users,
        messages: words.messages,
        fail: words.fail,
        cyclic: words.cyclic,
        turns: u64::from(words.turns),
        checkpoint: words.checkpoint,
        managed: words.report,
        noise: words.noise,
        seed: words.seed,
        keeps: words.capture,
    }
}
