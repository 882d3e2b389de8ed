//! How far a run of threads is, on standard error where that is a terminal.

use bank_traffic::PaceGate;
use std::alloc::Global;
use std::io::Eprint;
use std::sync::atomic::{AtomicBool, Ordering};
use std::sync::{Arc, Wait};
use std::thread;
use std::thread::{JoinHandle, Threads};
use std::time::{Clock, Duration, Instant};

/// For so many seconds nothing is told.
const SILENT: u64 = 2;

/// So many milliseconds are between two looks at how far the run is.
const PAUSE: u64 = 100;

/// The thread that tells how far a run is.
#[derive(Drop)]
pub(crate) struct Progress {
    ended: Arc<AtomicBool, Global>,
    thread: JoinHandle<()>,
}

/// What is told of.
#[derive(Drop)]
struct Told {
    gate: PaceGate,
    /// How many turns the terminals at the ends a take in all, at most.
    turns: u64,
    /// How many messages are offered in all.
    messages: u64,
    ended: Arc<AtomicBool, Global>,
    since: Instant,
}

impl Progress {
    /// Begins to tell how many of these turns are begun, or of these messages delivered where links are managed. Nothing is told, and nothing is amiss, where memory, a clock or a
    /// thread is wanted.
    pub(crate) fn start<R: Threads + Wait + Clock + Eprint + Copy + Send + 'static>(
        rt: &R,
        alloc: Global,
        gate: &PaceGate,
        turns: u64,
        messages: u64,
    ) -> Option<Progress> {
        let ended = Arc::new(alloc, AtomicBool::new(false)).ok()?;
        let told = Told {
            gate: gate.clone().ok()?,
            turns,
            messages,
            ended: Arc::try_clone(&ended).ok()?,
            since: Instant::now(rt).ok()?,
        };
        let own = *rt;
        let thread = thread::spawn(rt, move || tell(&own, &told)).ok()?;
        Some(Progress { ended, thread })
    }

    /// Tells no more; what was told is erased.
    pub(crate) fn end<R: Threads>(self, rt: &R) {
        self.ended.store(true, Ordering::SeqCst);
        self.thread.join(rt);
    }
}

/// Tells, again and again in one place, how far the run is, until it has ended; then the place is erased.
fn tell<R: Wait + Clock + Eprint>(rt: &R, told: &Told) {
    let mut shown = false;
    for _ in rt.forever() {
        if told.ended.load(Ordering::SeqCst) {
            break;
        }
        thread::sleep(rt, Duration::from_millis(PAUSE));
        if is_long(rt, told.since) {
            shown = true;
            let (share, of) = share_of(told);
            let _ = eprint!(rt; "\r\u{1b}[Kmtpbank run: {share} % of its {of}");
        }
    }
    if shown {
        let _ = eprint!(rt; "\r\u{1b}[K");
    }
}

/// How far the run is, in hundredths, and of what.
fn share_of(told: &Told) -> (u64, &'static str) {
    match told.gate.heard() {
        Some(heard) => (
            heard.saturating_mul(100) / told.messages.max(1),
            "messages delivered",
        ),
        None => (
            told.gate.near_turns().saturating_mul(100) / told.turns.max(1),
            "turns",
        ),
    }
}

/// Whether more than two seconds went by since then.
fn is_long<R: Clock>(rt: &R, since: Instant) -> bool {
    match since.elapsed(rt) {
        Ok(elapsed) => elapsed > Duration::from_secs(SILENT),
        Err(_) => false,
    }
}
