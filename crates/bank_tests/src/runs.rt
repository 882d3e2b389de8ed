//! Banks that run to their end.

use super::openings::{
    are_legal, bank_of, configs_of, ends_of, holds, loops_of, offers_of, offers_of_one, placed,
    plan_of, plan_with, rings_of, takes_of,
};
use bank_core::SetEnd;
use link_term::OpenGate;
use set_events::Method;
use std::alloc::Global;
use std::sync::Wait;
use std::test::Fail;
use std::thread::Threads;
use std::time::Clock;

/// The cause of a link that was told Stop (Q.703 12): the ninth.
const STOPPED: u8 = 9;

/// All terminals of the set took so many turns, and the link of this number alone failed, by Stop.
fn turned(end: &SetEnd, links: usize, turns: u64, fail: Option<usize>) -> Result<(), Fail> {
    holds(end.reports.len() == links)?;
    for (link, report) in end.reports.iter().enumerate() {
        match report {
            Ok(report) => {
                let cause = if fail == Some(link) { STOPPED } else { 0 };
                holds(report.turns.turns == turns && report.turns.cause == cause)?;
            }
            Err(_) => return Err(Fail::from("a terminal failed")),
        }
    }
    Ok(())
}

/// Each user did its job, and each of their messages was accepted and stands in one place.
fn accepted(end: &SetEnd, users: usize, messages: u64) -> Result<(), Fail> {
    holds(end.users.len() == users && end.users.iter().all(|user| user.is_ok()))?;
    holds(end.closed.books.messages == messages && placed(end) == messages)
}

/// Four sets of four links that are joined to themselves, of which one fails half way, and two users each.
fn four_sets<R: Threads + Wait + Clock + Copy + Send + Sync + 'static>(
    rt: &R,
    alloc: Global,
    method: Method,
) -> Result<(), Fail> {
    let configs = configs_of(alloc, 4, 4, method, 2, 1)?;
    let ends = ends_of(
        rt,
        bank_of(alloc, &configs, 2)?,
        loops_of(alloc, 4, 4)?,
        offers_of(alloc, 4, 2, 50)?,
        OpenGate,
        plan_of(12_000, Some(2)),
    )?;
    are_legal(alloc, &configs, &ends)?;
    for end in ends.iter() {
        turned(end, 4, 12_000, Some(2))?;
        accepted(end, 2, 100)?;
    }
    Ok(())
}

#[test]
fn four_sets_of_four_links(rt: HostRuntime) -> Result<(), Fail> {
    four_sets(&rt, rt.alloc(), Method::Basic)
}

#[test]
fn four_sets_of_four_links_by_cycles(rt: HostRuntime) -> Result<(), Fail> {
    let method = Method::Cyclic { n1: 127, n2: 8_000 };
    four_sets(&rt, rt.alloc(), method)
}

/// The base lies behind the opening, and the history is what came since: the books count both.
fn is_since_a_checkpoint(end: &SetEnd) -> Result<(), Fail> {
    let base = &end.closed.base;
    let books = &end.closed.books;
    let calls = books
        .user_calls
        .iter()
        .chain(&books.term_calls)
        .fold(0, |sum: u64, calls| sum.saturating_add(*calls));
    let since = end.closed.history.len() as u64;
    holds(base.books().messages > 0 && base.entries().saturating_add(since) == calls)
}

/// Two sets of two links, each with two users, which take a checkpoint after each ten of their messages. In so few turns no
/// terminal makes the 640 steps after which it would take one.
fn sets_with_checkpoints<R: Threads + Wait + Clock + Copy + Send + Sync + 'static>(
    rt: &R,
    alloc: Global,
) -> Result<(), Fail> {
    let configs = configs_of(alloc, 2, 2, Method::Basic, 2, 1)?;
    let ends = ends_of(
        rt,
        bank_of(alloc, &configs, 2)?,
        loops_of(alloc, 2, 2)?,
        offers_of(alloc, 2, 2, 50)?,
        OpenGate,
        plan_with(5_000, None, Some(10)),
    )?;
    are_legal(alloc, &configs, &ends)?;
    for end in ends.iter() {
        turned(end, 2, 5_000, None)?;
        accepted(end, 2, 100)?;
        is_since_a_checkpoint(end)?;
    }
    Ok(())
}

#[test]
fn users_take_checkpoints(rt: HostRuntime) -> Result<(), Fail> {
    sets_with_checkpoints(&rt, rt.alloc())
}

/// A set of two links, at which no user calls: each of its terminals takes a checkpoint after each 64 of its steps.
fn set_without_calls_of_users<R: Threads + Wait + Clock + Copy + Send + Sync + 'static>(
    rt: &R,
    alloc: Global,
) -> Result<(), Fail> {
    let configs = configs_of(alloc, 1, 2, Method::Basic, 2, 1)?;
    let ends = ends_of(
        rt,
        bank_of(alloc, &configs, 1)?,
        loops_of(alloc, 1, 2)?,
        Vec::new(alloc),
        OpenGate,
        plan_with(12_000, None, Some(1)),
    )?;
    are_legal(alloc, &configs, &ends)?;
    for end in ends.iter() {
        holds(end.closed.base.entries() > 0)?;
    }
    Ok(())
}

#[test]
fn terminals_take_checkpoints(rt: HostRuntime) -> Result<(), Fail> {
    set_without_calls_of_users(&rt, rt.alloc())
}

/// Two sets of one link, whose users have different jobs: two users offer 3 messages each, one of two offers 5.
fn each_has_its_own_jobs<R: Threads + Wait + Clock + Copy + Send + Sync + 'static>(
    rt: &R,
    alloc: Global,
) -> Result<(), Fail> {
    let configs = configs_of(alloc, 2, 1, Method::Basic, 2, 1)?;
    let mut jobs = Vec::new(alloc);
    jobs.push(offers_of_one(alloc, 2, 3)?)?;
    jobs.push(offers_of_one(alloc, 1, 5)?)?;
    let ends = ends_of(
        rt,
        bank_of(alloc, &configs, 2)?,
        loops_of(alloc, 2, 1)?,
        jobs,
        OpenGate,
        plan_of(100, None),
    )?;
    are_legal(alloc, &configs, &ends)?;
    let [first, second] = ends.as_slice() else {
        return Err(Fail::from("not two"));
    };
    accepted(first, 2, 6)?;
    accepted(second, 2, 5)
}

#[test]
fn each_set_does_its_own_jobs(rt: HostRuntime) -> Result<(), Fail> {
    each_has_its_own_jobs(&rt, rt.alloc())
}

/// The two ends of one set of two links, each in a bank of its own: four users at the one, one at the other.
fn two_ends<R: Threads + Wait + Clock + Copy + Send + Sync + 'static>(
    rt: &R,
    alloc: Global,
) -> Result<(), Fail> {
    let near = configs_of(alloc, 1, 2, Method::Basic, 2, 1)?;
    let far = configs_of(alloc, 1, 2, Method::Basic, 1, 2)?;
    let lines = rings_of(alloc, 1, 2)?;
    let near_jobs = offers_of(alloc, 1, 4, 250)?;
    let far_jobs = takes_of(alloc, 1, 1_000)?;
    let near_bank = bank_of(alloc, &near, 4)?;
    let far_bank = bank_of(alloc, &far, 1)?;
    let near_plan = plan_of(20_000, Some(0));
    let Ok(near_running) = near_bank.start(rt, lines.near, near_jobs, OpenGate, near_plan) else {
        return Err(Fail::from("not started"));
    };
    let far_plan = plan_of(20_000, None);
    let Ok(far_running) = far_bank.start(rt, lines.far, far_jobs, OpenGate, far_plan) else {
        return Err(Fail::from("not started"));
    };
    let (Ok(near_ends), Ok(far_ends)) = (near_running.join(rt), far_running.join(rt)) else {
        return Err(Fail::from("not ended"));
    };
    are_legal(alloc, &near, &near_ends)?;
    are_legal(alloc, &far, &far_ends)?;
    for end in near_ends.iter() {
        accepted(end, 4, 1_000)?;
    }
    for end in far_ends.iter() {
        accepted(end, 1, 0)?;
    }
    Ok(())
}

#[test]
fn two_ends_in_two_banks(rt: HostRuntime) -> Result<(), Fail> {
    two_ends(&rt, rt.alloc())
}

/// A set of two links and three users, with one line and one job.
fn some_are_idle<R: Threads + Wait + Clock + Copy + Send + Sync + 'static>(
    rt: &R,
    alloc: Global,
) -> Result<(), Fail> {
    let configs = configs_of(alloc, 2, 2, Method::Basic, 2, 1)?;
    let ends = ends_of(
        rt,
        bank_of(alloc, &configs, 3)?,
        loops_of(alloc, 1, 1)?,
        offers_of(alloc, 1, 1, 5)?,
        OpenGate,
        plan_of(100, None),
    )?;
    are_legal(alloc, &configs, &ends)?;
    let [first, second] = ends.as_slice() else {
        return Err(Fail::from("not two"));
    };
    turned(first, 1, 100, None)?;
    accepted(first, 3, 5)?;
    turned(second, 0, 100, None)?;
    accepted(second, 3, 0)
}

#[test]
fn seats_without_a_line_or_a_job_come_back(rt: HostRuntime) -> Result<(), Fail> {
    some_are_idle(&rt, rt.alloc())
}
