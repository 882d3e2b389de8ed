//! A terminal that is joined to itself by its line.

use super::core_door::{
    CoreDoor, LONG, asked_up, downs, holds, holds_of, is_legal, looked_at, started, started_at,
    timers_of, ups,
};
use super::test_lines::{FadingLine, FullLine};
use line_ring::{Line, LossyLine};
use link_term::{Command, Door, Gate, Terminal, Timers};
use set_events::{EventRef, Reply};
use std::alloc::Global;
use std::test::Fail;

/// A terminal with timers of these lengths isn't up after so many turns, for this cause.
fn fails_for(alloc: Global, lengths: Timers, cause: u8) -> bool {
    holds_of(
        started(alloc, LossyLine::new(0), lengths),
        |terminal| runs_to(terminal, cause),
    )
}

/// So many turns end with this cause of the last failure.
fn runs_to<D: Door, L: Line, G: Gate>(terminal: &mut Terminal<D, L, G>, cause: u8) -> bool {
    match terminal.run(20_000) {
        Ok(report) => report.cause == cause && report.turns == 20_000,
        Err(_) => false,
    }
}

/// It never failed, and heard more than 2,000 marks, each of them good.
fn stays_good<D: Door, L: Line, G: Gate>(terminal: &mut Terminal<D, L, G>) -> bool {
    match terminal.run(20_000) {
        Ok(report) => {
            report.cause == 0 && report.bad == 0 && report.sixteen == 0 && report.good > 2_000
        }
        Err(_) => false,
    }
}

#[test]
fn a_link_comes_up(rt: HostRuntime) -> Result<(), Fail> {
    holds(comes_up(rt.alloc()))
}

fn comes_up(alloc: Global) -> bool {
    match started(alloc, LossyLine::new(0), LONG) {
        Some(mut terminal) => {
            let good = stays_good(&mut terminal);
            let legal = looked_at(terminal, |door, _line| is_legal_with(alloc, door, 1, 0));
            good && legal
        }
        None => false,
    }
}

/// The set was told so often that the link is up, and that it's down; its history is legal.
fn is_legal_with(alloc: Global, door: &CoreDoor, up: usize, down: usize) -> bool {
    ups(door.core.history()) == up && downs(door.core.history()) == down && is_legal(alloc, door)
}

#[test]
fn t1_is_too_short(rt: HostRuntime) -> Result<(), Fail> {
    holds(fails_for(
        rt.alloc(),
        timers_of(1, 100_000, 100_000, 100_000, 100_000),
        4,
    ))
}

#[test]
fn t2_is_too_short(rt: HostRuntime) -> Result<(), Fail> {
    holds(fails_for(
        rt.alloc(),
        timers_of(100_000, 1, 100_000, 100_000, 100_000),
        8,
    ))
}

#[test]
fn t3_is_too_short(rt: HostRuntime) -> Result<(), Fail> {
    holds(fails_for(
        rt.alloc(),
        timers_of(100_000, 100_000, 1, 100_000, 100_000),
        8,
    ))
}

#[test]
fn the_first_octet_waits_where_the_line_is_full(rt: HostRuntime) -> Result<(), Fail> {
    holds(waits_for_the_line(rt.alloc()))
}

fn waits_for_the_line(alloc: Global) -> bool {
    match started(alloc, FullLine::new(), LONG) {
        Some(mut terminal) => {
            let nothing = sends_nothing(&mut terminal);
            let is_asked = looked_at(
                terminal,
                |_door, line| line.asked == 100 && line.always_the_flag,
            );
            nothing && is_asked
        }
        None => false,
    }
}

/// A hundred turns send nothing.
fn sends_nothing<D: Door, L: Line, G: Gate>(terminal: &mut Terminal<D, L, G>) -> bool {
    match terminal.run(100) {
        Ok(report) => report.sent == 0,
        Err(_) => false,
    }
}

/// 110,000 turns, in each thousand of which the link is told to start in an emergency; whether they went well.
fn goes_on<D: Door, L: Line, G: Gate>(terminal: &mut Terminal<D, L, G>) -> bool {
    for _thousand in 0..110u8 {
        terminal.command(Command::Emergency);
        terminal.command(Command::Start);
        if terminal.run(1_000).is_err() {
            return false;
        }
    }
    true
}

/// On a good line, after its far end didn't answer its changeover, it comes up. It's started once, since its own order of
/// changeover, which comes back to it, takes it out of service again.
fn comes_up_again(alloc: Global, door: CoreDoor, line: FadingLine) -> bool {
    let mut door = door;
    let link = door.link();
    let settled = door
        .step(&EventRef::NoAnswer { link }, &mut Reply::new())
        .is_ok();
    let mut terminal = started_at(door, line, LONG);
    let well = terminal.run(20_000).is_ok();
    let again = looked_at(terminal, |door, _line| {
        ups(door.core.history()) == 2 && is_legal(alloc, door)
    });
    settled && well && again
}

/// In service on a good line, which then loses each 50th octet for 100,000 turns. The link goes down. An emergency proving
/// is broken off at its first error (Tie = 1, Q.703 10.3), and lasts 4,096 octets (7.4), of which some eighty are lost: so
/// the set isn't asked for another Up until the line is good again.
#[test]
fn a_link_that_loses_octets_fails_and_comes_up_again(rt: HostRuntime) -> Result<(), Fail> {
    holds(fails_and_comes_up_again(rt.alloc()))
}

fn fails_and_comes_up_again(alloc: Global) -> bool {
    match started(alloc, FadingLine::new(10_000, 110_000), LONG) {
        Some(mut terminal) => {
            let well = goes_on(&mut terminal);
            let (door, line, _gate) = terminal.into_parts();
            let failed = has_failed_once(&door);
            let again = comes_up_again(alloc, door, line);
            well && failed && again
        }
        None => false,
    }
}

/// The set was asked for one Up, which was done, and then told of one Down.
fn has_failed_once(door: &CoreDoor) -> bool {
    asked_up(door.core.history()) == 1
        && ups(door.core.history()) == 1
        && downs(door.core.history()) == 1
}
