//! Steps that can't be done.

use super::pairs::{config, holds};
use pair_octets::{LineLengths, RunFault, StepFault, WireStep, Wires};
use pair_steps::End;
use set_events::{Actor, Event, Method};
use std::alloc::Global;
use std::test::Fail;

/// Link 1 has no octet under way to end A.
const LENGTHS: [LineLengths; 2] = [
    LineLengths { to_a: 3, to_b: 3 },
    LineLengths { to_a: 0, to_b: 3 },
];

/// The fault of a run of these steps at two new ends; none where it goes through.
fn fault_of(alloc: Global, lengths: &[LineLengths], steps: &[WireStep]) -> Option<RunFault> {
    let a = config(2, 1, Method::Basic)?;
    let b = config(1, 2, Method::Basic)?;
    match Wires::run(alloc, &a, &b, lengths, steps) {
        Ok(_wires) => None,
        Err(fault) => Some(fault),
    }
}

fn is_impossible_at(fault: Option<RunFault>, step: u64) -> bool {
    match fault {
        Some(RunFault::AtStep { place, fault }) => place == step && fault == StepFault::Impossible,
        _ => false,
    }
}

fn turn(end: End, link: u8) -> WireStep {
    WireStep::Turn { end, link }
}

/// No octet has come at end A on link 1 before end B took a turn of it.
#[test]
fn a_turn_wants_an_octet(rt: HostRuntime) -> Result<(), Fail> {
    let steps = [turn(End::B, 1), turn(End::A, 1), turn(End::A, 1)];
    holds(is_impossible_at(
        fault_of(rt.alloc(), LENGTHS.as_slice(), steps.as_slice()),
        2,
    ))
}

#[test]
fn a_turn_wants_a_link(rt: HostRuntime) -> Result<(), Fail> {
    let steps = [turn(End::A, 2)];
    holds(is_impossible_at(
        fault_of(rt.alloc(), LENGTHS.as_slice(), steps.as_slice()),
        0,
    ))
}

#[test]
fn there_are_64_users(rt: HostRuntime) -> Result<(), Fail> {
    let steps = [WireStep::Ask {
        end: End::A,
        who: Actor::User(64),
        event: Event::Take,
    }];
    holds(is_impossible_at(
        fault_of(rt.alloc(), LENGTHS.as_slice(), steps.as_slice()),
        0,
    ))
}

#[test]
fn each_link_has_two_lengths(rt: HostRuntime) -> Result<(), Fail> {
    let too_few = [LineLengths { to_a: 3, to_b: 3 }];
    let steps = [turn(End::A, 0)];
    let fault = fault_of(rt.alloc(), too_few.as_slice(), steps.as_slice());
    holds(matches!(fault, Some(RunFault::Links)))
}
