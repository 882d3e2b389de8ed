//! A bank of one set: a link that is joined to itself, and a user that asks twice for a message.
use super::texts::are_whole;
use super::words::are_told;
use super::{Came, holds, is_right};
use bank_core::{Bank, BankFault, Job, Plan, Running, SetEnd, UserFault};
use line_ring::LossyLine;
use link_term::{OpenGate, TermFault, Timers};
use set_events::{Method, SetConfig};
use std::alloc::Global;
use std::sync::Wait;
use std::test::Fail;
use std::thread::Threads;
use std::time::Clock;

const TIMERS: Timers = Timers {
    t1: 100_000,
    t2: 100_000,
    t3: 100_000,
    t5: 800,
    t6: 100_000,
    t7: 100_000,
};

fn plan() -> Plan {
    Plan {
        timers: TIMERS,
        turns: 40,
        fail: None,
        checkpoint: None,
        managed: None,
        keeps: false,
    }
}

fn lines(alloc: Global) -> Option<Vec<Vec<LossyLine>>> {
    let mut of_set = Vec::with_capacity(alloc, 1).ok()?;
    of_set.push(LossyLine::new(0)).ok()?;
    let mut all = Vec::with_capacity(alloc, 1).ok()?;
    all.push(of_set).ok()?;
    Some(all)
}

fn jobs(alloc: Global) -> Option<Vec<Vec<Job>>> {
    let mut of_set = Vec::with_capacity(alloc, 1).ok()?;
    of_set.push(Job::Take { times: 2 }).ok()?;
    let mut all = Vec::with_capacity(alloc, 1).ok()?;
    all.push(of_set).ok()?;
    Some(all)
}

/// Whether a bank tells that memory is wanted: of a thread the system doesn't tell for want of what it wasn't started.
fn told(fault: BankFault) -> Came {
    match fault {
        BankFault::NoMemory | BankFault::NoThread => Came::Refused,
        _ => Came::Wrong,
    }
}

fn run<R: Threads + Wait + Clock + Copy + Send + Sync + 'static>(rt: &R, alloc: Global) -> Came {
    let (Some(lines), Some(jobs)) = (lines(alloc), jobs(alloc)) else {
        return Came::Refused;
    };
    let Ok(config) = SetConfig::new(0, 1, 2, 1, 0x80, Method::Basic) else {
        return Came::Wrong;
    };
    match Bank::create(alloc, &[config], 1) {
        Ok(bank) => match bank.start(rt, lines, jobs, OpenGate, plan()) {
            Ok(running) => joined(rt, running),
            Err(fault) => told(fault),
        },
        Err(fault) => told(fault),
    }
}

fn joined<R: Threads + Wait>(rt: &R, running: Running<LossyLine>) -> Came {
    match running.join(rt) {
        Ok(ends) => match ends.first() {
            Some(end) => came(end),
            None => Came::Wrong,
        },
        Err(fault) => told(fault),
    }
}

/// The user made both calls and the terminal all its turns, or one of them wanted memory.
fn came(end: &SetEnd) -> Came {
    let (Some(user), Some(terminal)) = (end.users.first(), end.reports.first()) else {
        return Came::Wrong;
    };
    match (user, terminal) {
        (Ok(_), Ok(_)) if end.closed.books.user_calls[0] == 2 => Came::Whole,
        (Err(UserFault::NoMemory), _) | (_, Err(TermFault::NoMemory)) => Came::Refused,
        _ => Came::Wrong,
    }
}

#[test]
fn a_refused_allocation_ends_a_bank(rt: HostRuntime) -> Result<(), Fail> {
    let (first, second) = (run(&rt, rt.alloc()), run(&rt, rt.alloc()));
    holds(is_right(first, second))
}

/// All texts, words and a bank, twice, with nothing refused. Where this passes, the tool has refused all that a test here asks
/// for.
#[test]
fn all_is_whole_with_nothing_refused(rt: HostRuntime) -> Result<(), Fail> {
    for _ in 0..2u8 {
        holds(are_whole(rt.alloc()) && are_told(rt.alloc()))?;
        holds(run(&rt, rt.alloc()) == Came::Whole)?;
    }
    Ok(())
}
