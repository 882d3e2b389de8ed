//! Traffic between two banks whose terminals are kept beside one another: it really goes through.
ghost use Rattle.std.specs.Prelude.{◌≤◌};

use super::openings::{holds, message_of, placed};
use bank_core::SetEnd;
use bank_traffic::{Traffic, TrafficEnds, run_traffic};
use l2_units::UnitRef;
use set_core::audit_history_from;
use set_events::{AnswerRef, EventRef, Took};
use set_history::EntryRef;
use std::alloc::Global;
use std::sync::Wait;
use std::test::Fail;
use std::thread::Threads;
use std::time::Clock;

/// The next message of each of four users.
#[derive(Clone, Copy, Debug, PartialEq, Eq)]
struct Next {
    numbers: [u16; 4],
}

impl Next {
    /// This body is the next message of its user.
    fn is(&mut self, body: &[u8]) -> bool {
        for user in 0..4u8 {
            let number = self.numbers[usize::from(user)];
            if body == message_of(user, number).as_slice() {
                self.numbers[usize::from(user)] = number.saturating_add(1);
                return true;
            }
        }
        false
    }
}

/// The body of a message that was accepted from the line, if this entry is one.
fn heard<'a>(told: &EntryRef<'a>) -> Option<&'a [u8]> {
    match (told.asked(), told.answered()) {
        (
            EventRef::Heard {
                unit: UnitRef::Msu { body, .. },
                ..
            },
            AnswerRef::Heard { report },
        ) => {
            if report.took == Took::Message {
                Some(body)
            } else {
                None
            }
        }
        _ => None,
    }
}

/// The body of a message that was taken by a user, if this entry is one.
fn taken<'a>(told: &EntryRef<'a>) -> Option<&'a [u8]> {
    match told.answered() {
        AnswerRef::Taken { body } => Some(body),
        _ => None,
    }
}

/// Where this entry is a message that was heard or taken, it's its user's next one.
fn is_next(told: &EntryRef<'_>, next_heard: &mut Next, next_taken: &mut Next) -> bool {
    if let Some(body) = heard(told) {
        return next_heard.is(body);
    }
    match taken(told) {
        Some(body) => next_taken.is(body),
        None => true,
    }
}

/// Each user's messages were heard at this end in order, and were taken in order. Whether so many of each were heard.
fn heard_all(end: &SetEnd, messages: u16) -> Result<bool, Fail> {
    let mut next_heard = Next { numbers: [0; 4] };
    let mut next_taken = Next { numbers: [0; 4] };
    let mut left = end.closed.history.reader();
    for _entry in 0..left.len() {
        match left.next() {
            Some(told) => holds(is_next(&told, &mut next_heard, &mut next_taken))?,
            None => return Err(Fail::from("an entry is missing")),
        }
    }
    Ok(next_heard.numbers == [messages; 4])
}

/// A legal history from the opening, with so many messages accepted, each in one place.
fn is_sound(alloc: Global, end: &SetEnd, messages: u64) -> Result<(), Fail> {
    match audit_history_from(&end.closed.base, end.closed.history.reader()) {
        Ok(legal) => holds(legal && end.closed.base.entries() == 0)?,
        Err(_) => return Err(Fail::from("no memory")),
    }
    holds(end.closed.books.messages == messages && placed(end) == messages)
}

/// What came of sets of two links, four users of which at end a offered a hundred messages each. Whether all are acknowledged,
/// and the far end has them; whatever came through is in order, and stands in one place.
pub(crate) fn came_through(alloc: Global, ends: &TrafficEnds) -> Result<bool, Fail> {
    let mut all = true;
    for end in ends.near.iter() {
        is_sound(alloc, end, 400)?;
        holds(end.users.iter().all(|user| user.is_ok()))?;
        all = all && end.closed.counts.acked == 400;
    }
    for end in ends.far.iter() {
        is_sound(alloc, end, 0)?;
        let heard = heard_all(end, 100)?;
        all = all && heard;
    }
    Ok(all)
}

/// So many such sets, of which no link fails.
fn goes_through<R: Threads + Wait + Clock + Copy + Send + Sync + 'static>(
    rt: &R,
    alloc: Global,
    sets: u16,
    cyclic: bool,
) -> Result<bool, Fail>
    requires { (1 ≤ sets) × (sets ≤ 16) }
{
    let traffic = Traffic {
        sets,
        links: 2,
        users: 4,
        messages: 100,
        fail: None,
        cyclic,
        turns: 100_000,
        checkpoint: None,
        managed: false,
        noise: None,
        seed: 0,
        keeps: false,
    };
    let Ok(ends) = run_traffic(rt, alloc, &traffic) else {
        return Err(Fail::from("not run"));
    };
    let many = usize::from(sets);
    holds(ends.near.len() == many && ends.far.len() == many)?;
    came_through(alloc, &ends)
}

/// One of ten runs goes through: a user whose thread comes very late has too few turns left, and the ends of a link don't wait
/// for each other for ever.
fn one_goes_through<R: Threads + Wait + Clock + Copy + Send + Sync + 'static>(
    rt: &R,
    alloc: Global,
    sets: u16,
    cyclic: bool,
) -> Result<(), Fail>
    requires { (1 ≤ sets) × (sets ≤ 16) }
{
    for _run in 0..10u8 {
        if goes_through(rt, alloc, sets, cyclic)? {
            return Ok(());
        }
    }
    Err(Fail::from("not all went through"))
}

#[test]
fn all_messages_go_through(rt: HostRuntime) -> Result<(), Fail> {
    one_goes_through(&rt, rt.alloc(), 1, false)
}

#[test]
fn all_messages_go_through_by_cycles(rt: HostRuntime) -> Result<(), Fail> {
    one_goes_through(&rt, rt.alloc(), 2, true)
}
