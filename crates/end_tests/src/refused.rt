//! What isn't there, and rooms that are too small: nothing is done.

use super::settings::{NEAR, TIMERS, TIMES, holds, holds_at};
use end_calls::{
    CallFault, HeardValues, SetValues, TimeValues, TimerValues, activate, command, deactivate,
    find, hear, look, offer, open, take,
};
use set_events::{ConfigFault, Refusal};
use std::alloc::Global;
use std::test::Fail;
use term_managed::ManagedBench;

const NO_LINK: CallFault = CallFault::Refused {
    why: Refusal::NoSuchLink,
};

/// The number that a call tells: 0 where it was done.
fn number<T: Drop>(told: Result<T, CallFault>) -> u8 {
    match told {
        Ok(_) => 0,
        Err(fault) => fault.number(),
    }
}

#[test]
fn a_link_that_is_not_there(rt: HostRuntime) -> Result<(), Fail> {
    let alloc = rt.alloc();
    holds(holds_at(alloc, &NEAR, |end| no_link(end)))
}

fn no_link(end: &mut ManagedBench) -> bool {
    let mut put = [7; 1];
    let mut heard = HeardValues {
        octets: 7,
        messages: 7,
    };
    let hears = hear(end, 2, &[0x7E], &mut put, &mut heard) == Err(NO_LINK);
    let told = command(end, 2, 0) == Err(NO_LINK)
        && activate(end, 2) == Err(NO_LINK)
        && deactivate(end, 255) == Err(NO_LINK)
        && matches!(look(end, 2), Err(fault) if fault == NO_LINK);
    hears && told && put == [7] && heard.octets == 0 && end.bench().set().history().len() == 0
}

#[test]
fn too_little_room(rt: HostRuntime) -> Result<(), Fail> {
    let alloc = rt.alloc();
    holds(holds_at(alloc, &NEAR, |end| no_room(end)))
}

fn no_room(end: &mut ManagedBench) -> bool {
    let mut put = [7; 2];
    let mut heard = HeardValues {
        octets: 7,
        messages: 7,
    };
    let hears = hear(end, 0, &[0x7E; 3], &mut put, &mut heard) == Err(CallFault::NoRoom);
    let turns = matches!(look(end, 0), Ok(values) if values.turns == 0);
    let mut room = [7; 272];
    let takes = take(end, 0, &mut room) == Err(CallFault::NoRoom);
    hears && turns && takes && put == [7; 2] && end.bench().set().history().len() == 0
}

#[test]
fn a_user_or_a_command_that_is_not_there(rt: HostRuntime) -> Result<(), Fail> {
    let alloc = rt.alloc();
    holds(holds_at(alloc, &NEAR, |end| no_user(alloc, end)))
}

fn no_user(alloc: Global, end: &mut ManagedBench) -> bool {
    let mut room = [0; 273];
    let users = number(offer(alloc, end, 64, &[0x85; 6])) == 48
        && number(take(end, 64, &mut room)) == 48
        && number(find(end, 64, 0)) == 48;
    let commands = number(command(end, 0, 9)) == 49 && number(command(end, 1, 8)) == 0;
    let refused = number(offer(alloc, end, 63, &[0x85; 4])) == 1
        && number(offer(alloc, end, 0, &[0x85; 274])) == 2
        && number(offer(alloc, end, 0, &[0x80; 6])) == 3
        && number(find(end, 0, 0)) == 8
        && number(take(end, 0, &mut room)) == 9;
    users && commands && refused && end.bench().set().history().len() == 5
}

#[test]
fn activation_twice(rt: HostRuntime) -> Result<(), Fail> {
    let alloc = rt.alloc();
    holds(holds_at(alloc, &NEAR, |end| twice(end)))
}

fn twice(end: &mut ManagedBench) -> bool {
    let off = number(deactivate(end, 1)) == 9;
    let on = number(activate(end, 1)) == 0 && number(activate(end, 1)) == 9;
    let looks = is_activated(end, 1) == Some(true) && is_activated(end, 0) == Some(false);
    off && on && looks && number(deactivate(end, 1)) == 0
}

/// Whether level 3 manages the link, where it's there.
fn is_activated(end: &ManagedBench, link: u8) -> Option<bool> {
    match look(end, link) {
        Ok(values) => Some(values.activated == 1),
        Err(_) => None,
    }
}

#[test]
fn settings_that_are_refused(rt: HostRuntime) -> Result<(), Fail> {
    holds(are_refused(rt.alloc()))
}

/// In the order of the numbers.
fn are_refused(alloc: Global) -> bool {
    let no_timer = TimerValues { t7: 0, ..TIMERS };
    let no_time = TimeValues { t17: 0, ..TIMES };
    let links = SetValues {
        links: 17,
        opc: 16_384,
        ..NEAR
    };
    let codes = SetValues {
        dpc: 16_384,
        sio: 1,
        ..NEAR
    };
    let sio = SetValues {
        sio: 1,
        n1: 128,
        ..NEAR
    };
    let cyclic = SetValues {
        n1: 128,
        n2: 1,
        ..NEAR
    };
    opens(alloc, &links, &no_timer, &TIMES) == 33
        && opens(alloc, &codes, &TIMERS, &TIMES) == 34
        && opens(alloc, &sio, &TIMERS, &TIMES) == 35
        && opens(alloc, &cyclic, &no_timer, &TIMES) == 36
        && opens(alloc, &NEAR, &no_timer, &no_time) == 37
        && opens(alloc, &NEAR, &TIMERS, &no_time) == 38
        && opens(alloc, &NEAR, &TIMERS, &TIMES) == 0
}

/// The number that opening tells.
fn opens(alloc: Global, set: &SetValues, timers: &TimerValues, times: &TimeValues) -> u8 {
    number(open(alloc, set, timers, times))
}
