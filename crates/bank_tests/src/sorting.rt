//! What `join` makes of the answers of the sets' threads.

use super::openings::{bank_of, configs_of, ends_of, holds, loops_of, plan_of, takes_of};
use bank_core::{BankFault, CrewFault, SetEnd, sort_out};
use bank_crew::why_unstarted;
use link_term::OpenGate;
use set_events::Method;
use std::alloc::{AllocError, Global};
use std::sync::Wait;
use std::test::Fail;
use std::thread::Threads;
use std::time::Clock;

/// The answers of sets' threads.
type Answers = Vec<Result<SetEnd, CrewFault>>;

/// What is told of these answers: the fault, or `None` where there are so many ends.
fn told(alloc: Global, answers: Answers, ends: usize) -> Result<Option<BankFault>, Fail> {
    let room = Vec::with_capacity(alloc, answers.len())?;
    match sort_out(answers, room) {
        Ok(found) if found.len() == ends => Ok(None),
        Ok(_) => Err(Fail::from("an end is missing")),
        Err(fault) => Ok(Some(fault)),
    }
}

/// The ends of two sets that did little.
fn two_ends<R: Threads + Wait + Clock + Copy + Send + Sync + 'static>(
    rt: &R,
    alloc: Global,
) -> Result<Vec<SetEnd>, Fail> {
    let configs = configs_of(alloc, 2, 1, Method::Basic, 2, 1)?;
    let lines = loops_of(alloc, 2, 1)?;
    let jobs = takes_of(alloc, 2, 1)?;
    let bank = bank_of(alloc, &configs, 1)?;
    ends_of(rt, bank, lines, jobs, OpenGate, plan_of(10, None))
}

/// These ends as answers, and then these faults.
fn answers_of(alloc: Global, ends: Vec<SetEnd>, faults: &[CrewFault]) -> Result<Answers, Fail> {
    let mut answers = Vec::new(alloc);
    for end in ends {
        answers.reserve(1)?;
        answers.push_reserved(Ok(end));
    }
    for fault in faults {
        answers.reserve(1)?;
        answers.push_reserved(Err(*fault));
    }
    Ok(answers)
}

/// The first of these faults is told, of this number.
fn first_is(
    alloc: Global,
    ends: Vec<SetEnd>,
    faults: &[CrewFault],
    first: BankFault,
    number: u8,
) -> Result<(), Fail> {
    let answers = answers_of(alloc, ends, faults)?;
    let found = told(alloc, answers, 0)?;
    holds(found == Some(first) && first.number() == number)
}

#[test]
fn the_first_set_that_came_to_no_end_is_told(rt: HostRuntime) -> Result<(), Fail> {
    let alloc = rt.alloc();
    let memory_last = [CrewFault::NoThread, CrewFault::NoMemory];
    let memory_first = [CrewFault::NoMemory, CrewFault::Unclosed];
    let unclosed = [CrewFault::Unclosed, CrewFault::NoThread];
    first_is(alloc, Vec::new(alloc), &memory_last, BankFault::NoThread, 4)?;
    first_is(
        alloc,
        Vec::new(alloc),
        &memory_first,
        BankFault::NoMemory,
        1,
    )?;
    first_is(
        alloc,
        two_ends(&rt, alloc)?,
        &unclosed,
        BankFault::Unclosed,
        5,
    )
}

#[test]
fn where_all_came_to_their_end_all_are_told(rt: HostRuntime) -> Result<(), Fail> {
    let alloc = rt.alloc();
    let answers = answers_of(alloc, two_ends(&rt, alloc)?, &[])?;
    holds(told(alloc, answers, 2)?.is_none())
}

#[test]
fn a_refused_thread_is_want_of_memory_where_a_stack_is_refused_too(
    rt: HostRuntime,
) -> Result<(), Fail> {
    holds(why_unstarted(&Err(AllocError)) == CrewFault::NoMemory)?;
    holds(why_unstarted(&Ok(Vec::new(rt.alloc()))) == CrewFault::NoThread)
}
