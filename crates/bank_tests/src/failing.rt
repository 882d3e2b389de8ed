//! Traffic between two banks of whose sets a link fails, while its messages are under way.

use super::gates::{Meeting, MeetingGate};
use super::openings::{bank_of, configs_of, offers_of, plan_of, rings_of, takes_of};
use super::traffic::came_through;
use bank_core::{Running, SetEnd};
use bank_traffic::TrafficEnds;
use line_ring::RingLine;
use set_events::{AnswerRef, EventRef, Method, Took};
use set_history::EntryRef;
use std::alloc::Global;
use std::sync::Wait;
use std::test::Fail;
use std::thread::Threads;
use std::time::Clock;

/// How many turns each terminal takes: what was offered by turn 5,500 on two links has been sent on one of them by then.
const TURNS: u32 = 14_000;

/// The ends a of two sets of two links: four users offer a hundred messages each, and find each of them, and link 0 is told to
/// stop half way.
fn started_near<R: Threads + Wait + Clock + Copy + Send + Sync + 'static>(
    rt: &R,
    alloc: Global,
    lines: Vec<Vec<RingLine>>,
    gate: MeetingGate,
) -> Result<Running<RingLine>, Fail> {
    let configs = configs_of(alloc, 2, 2, Method::Basic, 2, 1)?;
    let jobs = offers_of(alloc, 2, 4, 100)?;
    let bank = bank_of(alloc, &configs, 4)?;
    match bank.start(rt, lines, jobs, gate, plan_of(TURNS, Some(0))) {
        Ok(running) => Ok(running),
        Err(_) => Err(Fail::from("not started")),
    }
}

/// The ends b of these sets, each with a user who takes messages.
fn started_far<R: Threads + Wait + Clock + Copy + Send + Sync + 'static>(
    rt: &R,
    alloc: Global,
    lines: Vec<Vec<RingLine>>,
    gate: MeetingGate,
) -> Result<Running<RingLine>, Fail> {
    let configs = configs_of(alloc, 2, 2, Method::Basic, 1, 2)?;
    let jobs = takes_of(alloc, 2, 1_000)?;
    let bank = bank_of(alloc, &configs, 1)?;
    match bank.start(rt, lines, jobs, gate, plan_of(TURNS, None)) {
        Ok(running) => Ok(running),
        Err(_) => Err(Fail::from("not started")),
    }
}

/// What both banks come to.
fn ends_of_both<R: Threads + Wait + Clock + Copy + Send + Sync + 'static>(
    rt: &R,
    alloc: Global,
) -> Result<TrafficEnds, Fail> {
    let near_gate = MeetingGate::new(alloc, Meeting::Offers { calls: 800 })?;
    let far_gate = near_gate.far()?;
    let lines = rings_of(alloc, 2, 2)?;
    let near = started_near(rt, alloc, lines.near, near_gate)?;
    let far = started_far(rt, alloc, lines.far, far_gate);
    joined(rt, near, far)
}

/// Waits for both banks, or where the far one wasn't started for the near one.
pub(crate) fn joined<R: Threads + Wait>(
    rt: &R,
    near: Running<RingLine>,
    far: Result<Running<RingLine>, Fail>,
) -> Result<TrafficEnds, Fail> {
    let near_ends = near.join(rt);
    let far_ends = far?.join(rt);
    match (near_ends, far_ends) {
        (Ok(near), Ok(far)) => Ok(TrafficEnds { near, far }),
        _ => Err(Fail::from("not ended")),
    }
}

/// The link on which a unit was heard, and what it brought, if this entry is one.
fn took(told: &EntryRef<'_>) -> Option<(u8, Took)> {
    match (told.asked(), told.answered()) {
        (EventRef::Heard { link, .. }, AnswerRef::Heard { report }) => Some((link, report.took)),
        _ => None,
    }
}

/// Messages were heard at this end on the link, then an order, and then messages again: so it was left in the midst of them.
fn was_left_in_the_midst(end: &SetEnd, link: u8) -> bool {
    let mut left = end.closed.history.reader();
    let mut has_begun = false;
    let mut is_left = false;
    for _entry in 0..left.len() {
        let Some(told) = left.next() else {
            return false;
        };
        match took(&told) {
            Some((_, Took::Message)) if is_left => return true,
            Some((on, Took::Message)) => has_begun = has_begun || on == link,
            Some((_, Took::Order)) => is_left = has_begun,
            _ => {}
        }
    }
    false
}

/// The terminal of this link ended with the cause of one that was told to stop.
fn was_told_to_stop(end: &SetEnd, link: u8) -> bool {
    match end.reports.get(usize::from(link)) {
        Some(Ok(report)) => report.turns.cause == 9,
        _ => false,
    }
}

/// So it is; if it isn't, the test says this.
pub(crate) fn is_so(fact: bool, otherwise: &'static str) -> Result<(), Fail> {
    if fact {
        Ok(())
    } else {
        Err(Fail::from(otherwise))
    }
}

#[test]
fn all_messages_go_through_where_a_link_fails(rt: HostRuntime) -> Result<(), Fail> {
    let ends = ends_of_both(&rt, rt.alloc())?;
    let near = &ends.near;
    let far = &ends.far;
    let all = came_through(rt.alloc(), &ends)?;
    is_so(all, "not all went through")?;
    is_so(
        near.iter().all(|end| was_told_to_stop(end, 0)),
        "not told to stop",
    )?;
    is_so(
        far.iter().all(|end| was_left_in_the_midst(end, 0)),
        "not left in the midst of messages",
    )
}
