//! An end whose links level 3 manages, octet by octet: each call once, and what it's asked when, by hand from the tables.

use super::core_door::{holds, holds_of};
use l3_link::{Ask, Times};
use link_term::{Command, NoTap, Timers};
use set_events::{Actor, Answer, Body, Event, Method, Refusal, SetConfig};
use std::alloc::Global;
use std::test::Fail;
use term_bench::LinkWord;
use term_managed::{Deed, ManageFault, ManagedBench};

/// Short timers: a link whose far end is silent goes out 10 turns after its start (T2 of Q.703).
const TIMERS: Timers = Timers {
    t1: 100,
    t2: 10,
    t3: 100,
    t5: 100,
    t6: 100,
    t7: 100,
};

/// T17 is 3 turns, and T1 is 5.
const TIMES: Times = Times {
    t1: 5,
    t2: 8,
    t4: 6,
    t5: 6,
    t17: 3,
    k1: 4,
    k2: 20,
};

const RISE: Deed = Deed {
    ask: Ask::Rise { emergency: true },
    refused: None,
};

const STOP: Deed = Deed {
    ask: Ask::Stop,
    refused: None,
};

fn end_of(alloc: Global) -> Option<ManagedBench> {
    let config = SetConfig::new(0, 2, 2, 1, 0x80, Method::Basic).ok()?;
    ManagedBench::new(alloc, &config, TIMERS, TIMES).ok()
}

/// What became of asking that link 0 is activated; `None` where there is no link.
fn activated(end: &mut ManagedBench) -> Option<Result<Vec<Deed>, ManageFault>> {
    if end.bench().links() == 0 {
        return None;
    }
    Some(end.activate(0))
}

/// The same, of asking that it's deactivated.
fn deactivated(end: &mut ManagedBench) -> Option<Result<Vec<Deed>, ManageFault>> {
    if end.bench().links() == 0 {
        return None;
    }
    Some(end.deactivate(0))
}

/// Whether link 0 is activated, and link 1 isn't.
fn is_alone(end: &ManagedBench) -> bool {
    if end.bench().links() < 2 {
        return false;
    }
    end.is_activated(0) && !end.is_activated(1)
}

fn is_out(end: &ManagedBench) -> bool {
    if end.bench().links() == 0 {
        return false;
    }
    end.bench().word(0) == LinkWord::Out
}

/// Whether link 0 is told to start.
fn is_started(end: &mut ManagedBench) -> bool {
    if end.bench().links() == 0 {
        return false;
    }
    end.command(0, Command::Start).is_ok()
}

/// Whether so much was asked.
fn is_asked(deeds: Option<Result<Vec<Deed>, ManageFault>>, what: Deed) -> bool {
    match deeds {
        Some(Ok(deeds)) => matches!(deeds.as_slice(), [one] if *one == what),
        Some(Err(_)) | None => false,
    }
}

fn is_so_already(deeds: Option<Result<Vec<Deed>, ManageFault>>) -> bool {
    matches!(deeds, Some(Err(ManageFault::AlreadySo)))
}

/// A turn of link 0 by a flag: what was asked behind it; `None` where that was nothing.
fn turn(end: &mut ManagedBench) -> Option<Deed> {
    if end.bench().links() == 0 {
        return None;
    }
    let heard = end.hear_octet(0, 0x7E, &mut NoTap).ok()?;
    heard.deeds().first().copied()
}

/// The number of the first turn behind which something is asked, and what.
fn asked_by(end: &mut ManagedBench, turns: u32) -> Option<(u32, Deed)> {
    for number in 1..=turns {
        if let Some(deed) = turn(end) {
            return Some((number, deed));
        }
    }
    None
}

/// Whether this holds of a new end of two links.
fn of_end<F: FnOnce(&mut ManagedBench) -> bool>(alloc: Global, case: F) -> Result<(), Fail>
    requires { F.IsAlwaysCallable case }
{
    holds(holds_of(end_of(alloc), case))
}

#[test]
fn a_link_is_activated_once_and_starts_again_behind_t17(rt: HostRuntime) -> Result<(), Fail> {
    of_end(rt.alloc(), |end| starts_again(end))
}

/// Out behind turn 10, and T17 is lessened there too.
fn starts_again(end: &mut ManagedBench) -> bool {
    let first = is_asked(activated(end), RISE);
    let twice = is_so_already(activated(end));
    let alone = is_alone(end);
    let again = asked_by(end, 20) == Some((12, RISE));
    first && twice && alone && again && is_out(end)
}

#[test]
fn a_link_that_is_not_activated_is_left_alone(rt: HostRuntime) -> Result<(), Fail> {
    of_end(rt.alloc(), |end| stays_alone(end))
}

fn stays_alone(end: &mut ManagedBench) -> bool {
    let started = is_started(end);
    let none = asked_by(end, 40).is_none();
    started && none && is_so_already(deactivated(end))
}

#[test]
fn a_link_is_deactivated_once_and_stops(rt: HostRuntime) -> Result<(), Fail> {
    of_end(rt.alloc(), |end| stops_once(end))
}

fn stops_once(end: &mut ManagedBench) -> bool {
    let rises = is_asked(activated(end), RISE);
    let none = turn(end).is_none();
    let stops = is_asked(deactivated(end), STOP);
    let twice = is_so_already(deactivated(end));
    rises && none && stops && twice && asked_by(end, 40).is_none()
}

#[test]
fn eight_bits_are_a_turn(rt: HostRuntime) -> Result<(), Fail> {
    of_end(rt.alloc(), |end| turns_of_16_bits(end) == Some(2))
}

/// How many turns 16 bits make, behind which nothing is asked.
fn turns_of_16_bits(end: &mut ManagedBench) -> Option<u32> {
    let mut turns = 0u32;
    for place in 0..16u32 {
        if end.bench().links() == 0 {
            return None;
        }
        if let Some(heard) = end.hear_bit(0, place % 8 != 0, &mut NoTap).ok()? {
            turns = turns.wrapping_add(u32::from(heard.deeds().is_empty()));
        }
    }
    Some(turns)
}

#[test]
fn users_and_terminals_ask_beside_level_3(rt: HostRuntime) -> Result<(), Fail> {
    let alloc = rt.alloc();
    of_end(alloc, |end| are_answered(alloc, end))
}

fn are_answered(alloc: Global, end: &mut ManagedBench) -> bool {
    let Ok(body) = Body::from_slice(alloc, &[0x85, 1, 0x80, 0, 0x30]) else {
        return false;
    };
    let offered = end.ask(Actor::User(0), &Event::Offer { body });
    let settled = end.ask(Actor::Terminal(0), &Event::Timed { link: 0 });
    let asked = matches!(offered, Ok(Answer::Accepted { number: 0 }))
        && matches!(
            settled,
            Ok(Answer::Refused {
                why: Refusal::Nothing
            })
        );
    let entries = end.bench().set().history().len() == 2;
    let gone = end.checkpoint().is_ok() && end.bench().set().history().len() == 0;
    let anew = end.set_times(alloc, Times::USUAL).is_ok() && end.bench().links() == 2;
    asked && entries && gone && anew
}
