//! The history as text, and the units of turns.

use super::settings::{NEAR, holds, holds_at};
use end_calls::{
    CallFault, HeardValues, ToldValues, TurnedValues, hear, history, offer, take, turn,
};
use set_events::Refusal;
use std::alloc::Global;
use std::test::Fail;
use term_managed::ManagedBench;

/// What is told of a text before it's asked for.
const NONE: ToldValues = ToldValues {
    octets: 7,
    lines: 7,
};

/// What the end was opened with.
const FIRST: &[u8] = b"set links=2 method=basic a=2 b=1 sio=80\n";

/// What a user offered, and another one wanted to take.
const ENTRIES: &[u8] = b"user 9 offer 8501800030 -> accepted 0\nuser 7 take -> refused 9\n";

/// Whether the history has this text, of so many lines, from this line on; what is behind it stays.
fn reads(alloc: Global, end: &ManagedBench, from: usize, text: &[u8], lines: usize) -> bool {
    let mut room = [7; 200];
    let mut told = NONE;
    let done = history(alloc, end, from, &mut room, &mut told) == Ok(());
    let is_text = told.octets == text.len() && room.starts_with(text);
    done && is_text && told.lines == lines && room.get(text.len()) == Some(&7)
}

#[test]
fn a_history_is_told_line_by_line(rt: HostRuntime) -> Result<(), Fail> {
    let alloc = rt.alloc();
    holds(holds_at(alloc, &NEAR, |end| tells(alloc, end)))
}

fn tells(alloc: Global, end: &mut ManagedBench) -> bool {
    let opened = reads(alloc, end, 0, FIRST, 1) && reads(alloc, end, 1, b"", 0);
    let mut room = [0; 273];
    let none = CallFault::Refused {
        why: Refusal::Nothing,
    };
    let asked = offer(alloc, end, 9, &[0x85, 0x01, 0x80, 0x00, 0x30]) == Ok(0)
        && take(end, 7, &mut room) == Err(none);
    let entries = reads(alloc, end, 1, ENTRIES, 2) && reads(alloc, end, 2, LAST, 1);
    opened
        && asked
        && entries
        && reads(alloc, end, 3, b"", 0)
        && reads(alloc, end, usize::MAX, b"", 0)
}

/// The last entry of these.
const LAST: &[u8] = b"user 7 take -> refused 9\n";

#[test]
fn a_history_without_room(rt: HostRuntime) -> Result<(), Fail> {
    let alloc = rt.alloc();
    holds(holds_at(alloc, &NEAR, |end| wants_room(alloc, end)))
}

/// It tells how much is wanted, which fits then.
fn wants_room(alloc: Global, end: &mut ManagedBench) -> bool {
    let mut few = [7; 39];
    let mut told = NONE;
    let refused = history(alloc, end, 0, &mut few, &mut told) == Err(CallFault::NoRoom);
    let mut enough = [7; 40];
    let done = history(alloc, end, 0, &mut enough, &mut told) == Ok(());
    refused && done && few == [7; 39] && told.octets == 40 && enough.starts_with(FIRST)
}

#[test]
fn a_turn_tells_its_unit(rt: HostRuntime) -> Result<(), Fail> {
    let alloc = rt.alloc();
    holds(holds_at(alloc, &NEAR, |end| sends(alloc, end)))
}

/// A link that is out of service sends that it is, "out of service" (Q.703 11.1.3), and puts what its twin puts.
fn sends(alloc: Global, end: &mut ManagedBench) -> bool {
    holds_at(alloc, &NEAR, |twin| sends_as(end, twin) == Some(true))
}

fn sends_as(end: &mut ManagedBench, twin: &mut ManagedBench) -> Option<bool> {
    let mut put = [0; 16];
    let mut heard = HeardValues {
        octets: 0,
        messages: 0,
    };
    hear(twin, 0, &[0x7E; 16], &mut put, &mut heard).ok()?;
    let mut same = true;
    for octet in &put {
        same = same && puts(end, *octet)?;
    }
    Some(same)
}

/// Whether a turn puts this octet, and its unit is the one that is sent, if it has one.
fn puts(end: &mut ManagedBench, octet: u8) -> Option<bool> {
    let mut unit = [7; 276];
    let mut turned = TurnedValues {
        unit: 7,
        put: 0,
        message: 7,
    };
    turn(end, 0, 0x7E, &mut unit, &mut turned).ok()?;
    let is_unit = turned.unit == 0 && unit == [7; 276]
        || turned.unit == 4 && unit.starts_with(&[0xFF, 0xFF, 0x01, 0x03, 7]);
    Some(is_unit && turned.put == octet && turned.message == 0)
}

#[test]
fn a_turn_that_is_refused(rt: HostRuntime) -> Result<(), Fail> {
    let alloc = rt.alloc();
    holds(holds_at(alloc, &NEAR, |end| takes_none(end)))
}

fn takes_none(end: &mut ManagedBench) -> bool {
    let none = TurnedValues {
        unit: 7,
        put: 7,
        message: 7,
    };
    let mut turned = none;
    let mut unit = [7; 276];
    let link = Err(CallFault::Refused {
        why: Refusal::NoSuchLink,
    });
    let no_link = turn(end, 2, 0x7E, &mut unit, &mut turned) == link;
    let mut few = [7; 275];
    let no_room = turn(end, 0, 0x7E, &mut few, &mut turned) == Err(CallFault::NoRoom);
    no_link && no_room && turned == none && unit == [7; 276] && end.bench().counts(0).turns == 0
}
