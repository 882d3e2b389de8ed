//! A run that `pair_wires` carries out: it comes to its end, and carries what was offered.

use super::pairs::{config, holds, message_of, takes_all};
use link_term::Command;
use pair_octets::{LineLengths, WireStep, Wires};
use pair_steps::End;
use pair_wires::run;
use set_events::{Actor, Body, Event, Method};
use std::alloc::Global;
use std::test::Fail;

/// Link 1, which isn't started, has no octets under way.
const LENGTHS: [LineLengths; 2] = [
    LineLengths { to_a: 40, to_b: 90 },
    LineLengths { to_a: 0, to_b: 0 },
];

const STARTS: [(End, Command); 4] = [
    (End::A, Command::Emergency),
    (End::A, Command::Start),
    (End::B, Command::Emergency),
    (End::B, Command::Start),
];

/// Link 0 is started at both ends.
fn add_starts(steps: &mut Vec<WireStep>) -> bool {
    for (end, command) in STARTS {
        let step = WireStep::Command {
            end,
            link: 0,
            command,
        };
        if steps.push(step).is_err() {
            return false;
        }
    }
    true
}

/// So many times both ends take a turn of link 0.
fn add_turns(steps: &mut Vec<WireStep>, times: u32) -> bool {
    for _ in 0..times {
        let a = steps
            .push(WireStep::Turn {
                end: End::A,
                link: 0,
            })
            .is_ok();
        let b = steps
            .push(WireStep::Turn {
                end: End::B,
                link: 0,
            })
            .is_ok();
        if !a || !b {
            return false;
        }
    }
    true
}

/// A user of end A offers the messages 0, 1, .. below this number.
fn add_offers(alloc: Global, steps: &mut Vec<WireStep>, count: u16) -> bool {
    for number in 0..count {
        let Ok(body) = Body::from_slice(alloc, message_of(End::A, number).as_slice()) else {
            return false;
        };
        let step = WireStep::Ask {
            end: End::A,
            who: Actor::User(0),
            event: Event::Offer { body },
        };
        if steps.push(step).is_err() {
            return false;
        }
    }
    true
}

/// So often octets under way to end B on link 0 come as others, some units apart; a flag and seven ones are among them.
fn add_noise(steps: &mut Vec<WireStep>, times: u8) -> bool {
    for number in 0..times {
        let octet = if number % 3 == 0 { 0x7e } else { 0xff - number };
        let damage = WireStep::Damage {
            end: End::B,
            link: 0,
            place: u64::from(number),
            octet,
        };
        if steps.push(damage).is_err() || !add_turns(steps, 400) {
            return false;
        }
    }
    true
}

/// Two new ends after these steps.
fn after(alloc: Global, steps: &[WireStep]) -> Option<Wires> {
    let a = config(2, 1, Method::Basic)?;
    let b = config(1, 2, Method::Basic)?;
    run(alloc, &a, &b, LENGTHS.as_slice(), steps).ok()
}

fn takes_so(found: Option<Wires>, count: u16) -> bool {
    match found {
        Some(mut wires) => takes_all(&mut wires, End::B, count),
        None => false,
    }
}

/// The link comes up in the turns of two emergency provings and more (Q.703 7.4), and the messages come.
#[test]
fn a_run_carries_what_was_offered(rt: HostRuntime) -> Result<(), Fail> {
    let alloc = rt.alloc();
    let mut steps = Vec::new(alloc);
    let started = add_starts(&mut steps) && add_turns(&mut steps, 8_000);
    let offered = add_offers(alloc, &mut steps, 20) && add_turns(&mut steps, 1_000);
    holds(started && offered && takes_so(after(alloc, &steps), 20))
}

/// Where octets are damaged each message comes once still, and in order: units that don't check are sent again (Q.703 5.3).
#[test]
fn a_run_through_noise_carries_what_was_offered(rt: HostRuntime) -> Result<(), Fail> {
    let alloc = rt.alloc();
    let mut steps = Vec::new(alloc);
    let started = add_starts(&mut steps) && add_turns(&mut steps, 8_000);
    let first = add_offers(alloc, &mut steps, 20) && add_noise(&mut steps, 12);
    let quiet = add_turns(&mut steps, 2_000);
    holds(started && first && quiet && takes_so(after(alloc, &steps), 20))
}
