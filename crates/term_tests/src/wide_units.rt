//! Terminals whose set gives units with numbers of more than seven bits: they end there, and the entry stays in the door.
ghost use Rattle.std.specs.Prelude.{◌≡◌, [], ◌∷◌, ◌++◌, ◌<◌, ◌^◌};

use super::core_door::{LONG, holds, looked_at, started_at};
use super::failing_doors::{first_fault, stays_failed};
use l2_units::Header;
use line_ring::LossyLine;
use link_term::{Door, Faults, OpenGate, SetFault, TermFault, Terminal};
use set_events::{Actor, AnswerRef, EventRef, Reply};
use set_history::History;
use std::alloc::Global;
use std::test::Fail;

/// A door that answers Next with a FISU of these numbers, and all else with Done. It keeps its entries itself.
#[derive(Drop)]
struct GivingDoor {
    entries: History,
    bsn: u16,
    fsn: u16,
    faults: Faults,
    ghost bsn_in_range: { bsn < 2 ^ 12 },
    ghost fsn_in_range: { fsn < 2 ^ 12 },
}

impl GivingDoor {
    /// What it answers to this event.
    fn answer_to(&self, event: &EventRef<'_>, reply: &mut Reply) {
        match event {
            EventRef::Next { .. } => reply.set_fill_in(Header {
                bsn: self.bsn,
                bib: true,
                fsn: self.fsn,
                fib: true,
            }),
            _ => reply.set_done(),
        }
    }
}

impl Door for GivingDoor {
    ghost use Rattle.std.specs.Prelude.{⊤};

    ghost number = { λ door. 0 };

    ghost made = { λ door. door.entries.items };

    ghost faults = { λ door. door.faults };

    ghost is_same = { λ a b. ⊤ };

    ghost same_self = { λ door. tt };

    ghost same_on = { λ first second third a b. tt };

    fn link(&self) -> u8 {
        0
    }

    fn step(&mut self, event: &EventRef<'_>, reply: &mut Reply) -> Result<(), SetFault> {
        match self.entries.reserve(event) {
            Ok(()) => {
                self.answer_to(event, reply);
                self.entries.push(Actor::Terminal(0), event, &reply.get());
                Ok(())
            }
            Err(_) => {
                self.faults.note(SetFault::NoMemory);
                Err(SetFault::NoMemory)
            }
        }
    }
}

/// A terminal at a door that gives FISUs of these numbers.
fn given(alloc: Global, bsn: u16, fsn: u16) -> Terminal<GivingDoor, LossyLine, OpenGate>
    requires { (bsn < 2 ^ 12) × (fsn < 2 ^ 12) }
{
    let door = GivingDoor {
        entries: History::new(alloc),
        bsn,
        fsn,
        faults: Faults::new(),
    };
    started_at(door, LossyLine::new(0), LONG)
}

/// The last entry of the door is a Next that was answered by a unit.
fn keeps_its_entry(door: &GivingDoor) -> bool {
    let mut left = door.entries.reader();
    let mut is_kept = false;
    for _entry in 0..left.len() {
        if let Some(told) = left.next() {
            let asked = matches!(told.asked(), EventRef::Next { .. });
            is_kept = asked && matches!(told.answered(), AnswerRef::Sent { .. });
        }
    }
    is_kept
}

/// The terminal ends with fault 4 at the first unit with these numbers.
fn ends_it(alloc: Global, bsn: u16, fsn: u16) -> bool
    requires { (bsn < 2 ^ 12) × (fsn < 2 ^ 12) }
{
    let mut terminal = given(alloc, bsn, fsn);
    let fault = first_fault(&mut terminal, 20_000);
    let ended = fault == Some(TermFault::Profile) && stays_failed(&mut terminal);
    let is_kept = looked_at(terminal, |door, _line| keeps_its_entry(door));
    ended && is_kept
}

#[test]
fn a_number_of_128_ends_the_terminal(rt: HostRuntime) -> Result<(), Fail> {
    let fsn = ends_it(rt.alloc(), 127, 128);
    let bsn = ends_it(rt.alloc(), 128, 127);
    holds(fsn && bsn && ends_it(rt.alloc(), 4_095, 4_095))
}

#[test]
fn a_number_of_127_does_not(rt: HostRuntime) -> Result<(), Fail> {
    let mut terminal = given(rt.alloc(), 127, 127);
    let fault = first_fault(&mut terminal, 20_000);
    let many = looked_at(terminal, |door, _line| door.entries.len() > 1_000);
    holds(fault.is_none() && many)
}

#[test]
fn the_fault_has_its_number() -> Result<(), Fail> {
    holds(TermFault::Profile.number() == 4)
}
