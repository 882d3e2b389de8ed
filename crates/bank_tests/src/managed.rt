//! What the gates of two banks order of a link that they manage.
use super::openings::holds;
use bank_crew::{Instruction, LinkManager, Sight};
use bank_traffic::{PaceGate, Traffic, gates_of};
use link_term::Gate;
use set_events::{AnswerRef, Counts, EventRef, Refusal};
use std::test::Fail;

/// A rest before a link is started again, T17.
const REST: u32 = 6_400;

/// A settled link of a set that holds no message.
const SETTLED: Sight = Sight {
    counts: Counts {
        waiting: 0,
        unacked: 0,
        acked: 0,
        held: 0,
        parked: 0,
        back: 0,
        discarded: 0,
    },
    settled: true,
    late: false,
};

/// One set of one link, which is managed.
fn traffic() -> Traffic {
    Traffic {
        sets: 1,
        links: 1,
        users: 1,
        messages: 1,
        fail: None,
        cyclic: false,
        turns: 100_000,
        checkpoint: None,
        managed: true,
        noise: None,
        seed: 0,
        keeps: false,
    }
}

/// So many turns at both ends of the link.
fn pass(near: &PaceGate, far: &PaceGate, turns: u32) {
    for _turn in 0..turns {
        near.outside(0, 0);
        far.outside(0, 0);
    }
}

/// Whether a link at an end b that was up, and of which that was answered to this event, runs on and is started behind a rest.
fn is_started_again(
    near: &PaceGate,
    far: &PaceGate,
    event: &EventRef<'_>,
    answer: &AnswerRef<'_>,
) -> bool {
    far.answered(0, 0, &EventRef::Up { link: 0 }, &AnswerRef::Done);
    pass(near, far, REST);
    let runs = far.instruct(0, 0, &SETTLED) == Instruction::Run;
    far.answered(0, 0, event, answer);
    let rests = far.instruct(0, 0, &SETTLED) == Instruction::Run;
    pass(near, far, REST);
    runs && rests && far.instruct(0, 0, &SETTLED) == Instruction::Start
}

#[test]
fn a_link_that_failed_is_started_again(rt: HostRuntime) -> Result<(), Fail> {
    let (near, far) = gates_of(rt.alloc(), &traffic())?;
    holds(is_started_again(&near, &far, &EventRef::Down { link: 0 }, &AnswerRef::Done))
}

#[test]
fn a_link_that_its_set_left_is_started_again(rt: HostRuntime) -> Result<(), Fail> {
    let (near, far) = gates_of(rt.alloc(), &traffic())?;
    let why = Refusal::NotUp;
    holds(is_started_again(
        &near,
        &far,
        &EventRef::Next { link: 0 },
        &AnswerRef::Refused { why },
    ))
}

#[test]
fn a_link_about_which_an_order_came_late_rests(rt: HostRuntime) -> Result<(), Fail> {
    let (near, far) = gates_of(rt.alloc(), &traffic())?;
    pass(&near, &far, REST);
    let late = Sight {
        late: true,
        ..SETTLED
    };
    let starts = far.instruct(0, 0, &SETTLED) == Instruction::Start;
    let is_stopped = far.instruct(0, 0, &late) == Instruction::Run;
    pass(&near, &far, REST - 1);
    let rests = far.instruct(0, 0, &SETTLED) == Instruction::Run;
    pass(&near, &far, 1);
    holds(starts && is_stopped && rests && far.instruct(0, 0, &SETTLED) == Instruction::Start)
}
