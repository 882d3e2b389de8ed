//! Runs of two banks, as they're told.

use super::holds;
use bank_traffic::{Traffic, gates_of};
use run_text::{End, RunFault, TermFault, UserFault, run, write_run};
use std::alloc::Global;
use std::sync::Wait;
use std::sync::atomic::{AtomicU64, Ordering};
use std::test::Fail;
use std::thread::Threads;
use std::time::Clock;
use text_base::{Fault, Writer};

/// What is printed of one set of two links, whose two users offer 50 messages each, and whose link 0 fails half way.
fn printed<R: Threads + Wait + Clock + Copy + Send + Sync + 'static>(
    rt: &R,
    alloc: Global,
    checkpoint: Option<u16>,
) -> Result<(String, u64), Fail> {
    let traffic = Traffic {
        sets: 1,
        links: 2,
        users: 2,
        messages: 50,
        fail: Some(0),
        cyclic: false,
        turns: 50_000,
        checkpoint,
        managed: false,
        noise: None,
        seed: 0,
        keeps: false,
    };
    let gates = gates_of(alloc, &traffic)?;
    let mut sink = Writer::new(Vec::new(alloc));
    let delivered = AtomicU64::new(0);
    let well = write_run(rt, alloc, &traffic, gates, false, &mut sink, |many| {
        delivered.store(many.unwrap_or(u64::MAX), Ordering::SeqCst);
        None
    })
    .is_ok();
    match String::from_utf8(sink.into_inner()) {
        Ok(text) if well => Ok((text, delivered.load(Ordering::SeqCst))),
        _ => Err(Fail::from("no text, or the run failed")),
    }
}

/// The set's lines, and in one of ten runs all was delivered that was offered, and nothing more, though the link that was told
/// to stop carries nothing in the second half: threads that come very late have too few turns left.
#[test]
fn what_was_delivered_is_told_when_a_run_ends(rt: HostRuntime) -> Result<(), Fail> {
    one_is_delivered(&rt, rt.alloc(), None)
}

/// So it is of all the run, though each user takes a checkpoint after each ten of its messages.
#[test]
fn a_checkpoint_takes_nothing_from_what_was_delivered(rt: HostRuntime) -> Result<(), Fail> {
    one_is_delivered(&rt, rt.alloc(), Some(10))
}

fn one_is_delivered<R: Threads + Wait + Clock + Copy + Send + Sync + 'static>(
    rt: &R,
    alloc: Global,
    checkpoint: Option<u16>,
) -> Result<(), Fail> {
    for _run in 0..10u8 {
        let (text, delivered) = printed(rt, alloc, checkpoint)?;
        holds(text.lines().count() == 3 && delivered <= 100)?;
        holds(text.starts_with("set=0 end=a accepted=100 placed=100 legal=yes\n"))?;
        if delivered == 100 {
            return Ok(());
        }
    }
    Err(Fail::from("not all was delivered"))
}

#[test]
fn a_fault_of_a_run_shows_its_line(rt: HostRuntime) -> Result<(), Fail> {
    let thread = shows(rt.alloc(), RunFault::Thread, "fault thread");
    let user = RunFault::User {
        set: 3,
        end: End::A,
        user: 2,
        fault: UserFault::NotFound,
    };
    let terminal = RunFault::Terminal {
        set: 0,
        end: End::B,
        link: 1,
        fault: TermFault::Exhausted,
    };
    holds(
        thread
            && shows(rt.alloc(), RunFault::Close, "fault close")
            && shows(rt.alloc(), user, "fault user set=3 end=a user=2 fault=3")
            && shows(
                rt.alloc(),
                terminal,
                "fault terminal set=0 end=b link=1 fault=3",
            ),
    )
}

/// The fault of a run shows this line.
fn shows(alloc: Global, fault: RunFault, line: &str) -> bool {
    match Fault::Input(fault).to_string(alloc) {
        Ok(text) => text.as_str() == line,
        Err(_) => false,
    }
}
