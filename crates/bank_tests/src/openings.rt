//! What the tests open banks with.
ghost use Rattle.std.specs.Prelude.{◌≡◌};

use bank_core::{Bank, Job, LinkManager, Plan, SetEnd};
use line_ring::{Line, LossyLine, RingLine, ring_pair};
use link_term::Timers;
use set_core::audit_history_from;
use set_events::{Method, SetConfig};
use std::alloc::Global;
use std::sync::Wait;
use std::test::Fail;
use std::thread::Threads;
use std::time::Clock;

/// So it is.
pub(crate) fn holds(fact: bool) -> Result<(), Fail> {
    if fact {
        Ok(())
    } else {
        Err(Fail::from("it isn't so"))
    }
}

/// Timers that are long beside the time that a link takes to come up.
pub(crate) const LONG: Timers = Timers {
    t1: 100_000,
    t2: 100_000,
    t3: 100_000,
    t5: 800,
    t6: 100_000,
    t7: 100_000,
};

/// So many turns, and the link that is to fail.
pub(crate) fn plan_of(turns: u32, fail: Option<u8>) -> Plan {
    plan_with(turns, fail, None)
}

/// The same, and after how many of its accepted offers a user takes a checkpoint.
pub(crate) fn plan_with(turns: u32, fail: Option<u8>, checkpoint: Option<u16>) -> Plan {
    Plan {
        timers: LONG,
        turns: u64::from(turns),
        fail,
        checkpoint,
        managed: None,
        keeps: false,
    }
}

/// The sets 0, 1, .., each of so many links, between these point codes.
pub(crate) fn configs_of(
    alloc: Global,
    sets: u16,
    links: u8,
    method: Method,
    near: u16,
    far: u16,
) -> Result<Vec<SetConfig>, Fail> {
    let mut configs = Vec::new(alloc);
    for set in 0..sets {
        let Ok(config) = SetConfig::new(set, links, near, far, 0x80, method) else {
            return Err(Fail::from("refused"));
        };
        configs.reserve(1)?;
        configs.push_reserved(config);
    }
    Ok(configs)
}

/// A line for each link of each set, each joined to itself.
pub(crate) fn loops_of(alloc: Global, sets: u16, links: u8) -> Result<Vec<Vec<LossyLine>>, Fail> {
    let mut all = Vec::new(alloc);
    for _set in 0..sets {
        let lines = loops_of_one(alloc, links)?;
        all.reserve(1)?;
        all.push_reserved(lines);
    }
    Ok(all)
}

/// A line for each link of one set, each joined to itself.
fn loops_of_one(alloc: Global, links: u8) -> Result<Vec<LossyLine>, Fail> {
    let mut lines = Vec::new(alloc);
    for _link in 0..links {
        lines.reserve(1)?;
        lines.push_reserved(LossyLine::new(0));
    }
    Ok(lines)
}

/// The lines of two ends: a pair of rings for each link of each set.
#[derive(Drop)]
pub(crate) struct Lines {
    pub(crate) near: Vec<Vec<RingLine>>,
    pub(crate) far: Vec<Vec<RingLine>>,
}

/// A pair of rings, of 4,096 places each way, for each link of each set.
pub(crate) fn rings_of(alloc: Global, sets: u16, links: u8) -> Result<Lines, Fail> {
    let mut near = Vec::new(alloc);
    let mut far = Vec::new(alloc);
    for _set in 0..sets {
        let (near_lines, far_lines) = rings_of_one(alloc, links)?;
        near.reserve(1)?;
        far.reserve(1)?;
        near.push_reserved(near_lines);
        far.push_reserved(far_lines);
    }
    Ok(Lines { near, far })
}

/// A pair of rings for each link of one set.
fn rings_of_one(alloc: Global, links: u8) -> Result<(Vec<RingLine>, Vec<RingLine>), Fail> {
    let mut near = Vec::new(alloc);
    let mut far = Vec::new(alloc);
    for _link in 0..links {
        near.reserve(1)?;
        far.reserve(1)?;
        let (near_line, far_line) = ring_pair(alloc, 4_096)?;
        near.push_reserved(near_line);
        far.push_reserved(far_line);
    }
    Ok((near, far))
}

/// The octets of a user's message of this number: SIO, a label whose SLS is the user's number (Q.704 2.2), and the
/// number, the high octet first.
pub(crate) fn message_of(user: u8, number: u16) -> [u8; 7] {
    [
        0x85,
        1,
        0x80,
        0,
        (user % 16) * 16,
        (number / 256) as u8,
        (number % 256) as u8,
    ]
}

/// A job for a user: to offer so many messages.
fn offer_of(alloc: Global, user: u8, messages: u16) -> Result<Job, Fail> {
    let mut bodies = Vec::new(alloc);
    for number in 0..messages {
        let body = Vec::from_slice(alloc, &message_of(user, number))?;
        bodies.reserve(1)?;
        bodies.push_reserved(body);
    }
    Ok(Job::Offer { bodies })
}

/// The jobs of the users of one set: each offers so many messages.
pub(crate) fn offers_of_one(alloc: Global, users: u8, messages: u16) -> Result<Vec<Job>, Fail> {
    let mut jobs = Vec::new(alloc);
    for user in 0..users {
        let job = offer_of(alloc, user, messages)?;
        jobs.reserve(1)?;
        jobs.push_reserved(job);
    }
    Ok(jobs)
}

/// The jobs of all users: each offers so many messages.
pub(crate) fn offers_of(
    alloc: Global,
    sets: u16,
    users: u8,
    messages: u16,
) -> Result<Vec<Vec<Job>>, Fail> {
    let mut all = Vec::new(alloc);
    for _set in 0..sets {
        let jobs = offers_of_one(alloc, users, messages)?;
        all.reserve(1)?;
        all.push_reserved(jobs);
    }
    Ok(all)
}

/// The jobs of one user for each set, which asks so often for a message that was heard.
pub(crate) fn takes_of(alloc: Global, sets: u16, times: u32) -> Result<Vec<Vec<Job>>, Fail> {
    let mut all = Vec::new(alloc);
    for _set in 0..sets {
        let mut jobs = Vec::new(alloc);
        jobs.reserve(1)?;
        jobs.push_reserved(Job::Take { times });
        all.reserve(1)?;
        all.push_reserved(jobs);
    }
    Ok(all)
}

/// What the sets of a bank come to.
pub(crate) fn ends_of<
    L: Line + Drop + Send + 'static,
    G: LinkManager + Clone + Drop + Send + Sync + 'static,
    R: Threads + Wait + Clock + Copy + Send + Sync + 'static,
>(
    rt: &R,
    bank: Bank,
    lines: Vec<Vec<L>>,
    jobs: Vec<Vec<Job>>,
    gate: G,
    plan: Plan,
) -> Result<Vec<SetEnd>, Fail> {
    let Ok(running) = bank.start(rt, lines, jobs, gate, plan) else {
        return Err(Fail::from("not started"));
    };
    match running.join(rt) {
        Ok(ends) => Ok(ends),
        Err(_) => Err(Fail::from("not ended")),
    }
}

/// A bank of these sets.
pub(crate) fn bank_of(alloc: Global, configs: &[SetConfig], users: u16) -> Result<Bank, Fail> {
    match Bank::create(alloc, configs, users) {
        Ok(bank) => Ok(bank),
        Err(_) => Err(Fail::from("no bank")),
    }
}

/// Each end is that of the set in its place, and its history is legal from its base.
pub(crate) fn are_legal(alloc: Global, configs: &[SetConfig], ends: &[SetEnd]) -> Result<(), Fail> {
    holds(configs.len() == ends.len())?;
    for (config, end) in configs.iter().zip(ends) {
        holds(end.closed.config == *config)?;
        match audit_history_from(&end.closed.base, end.closed.history.reader()) {
            Ok(legal) => holds(legal)?,
            Err(_) => return Err(Fail::from("no memory")),
        }
    }
    Ok(())
}

/// How many messages stand in some place at the end of a set.
pub(crate) fn placed(end: &SetEnd) -> u64 {
    let counts = end.closed.counts;
    [
        counts.waiting,
        counts.unacked,
        counts.acked,
        counts.held,
        counts.parked,
        counts.back,
        counts.discarded,
    ]
    .iter()
    .fold(0, |sum: u64, count| sum.saturating_add(*count))
}
