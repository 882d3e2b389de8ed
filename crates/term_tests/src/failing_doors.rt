//! Terminals whose door fails: each later call answers Failed.
ghost use Rattle.std.specs.Prelude.{◌≡◌, [], ◌∷◌, ◌++◌, ◌<◌};

use super::core_door::{CoreDoor, LONG, door_of, holds, holds_of, looked_at, started_at};
use line_ring::{Line, LossyLine};
use link_term::{Command, Door, Faults, Gate, OpenGate, SetFault, TermFault, Terminal};
use set_events::{EventRef, Reply};
use std::alloc::Global;
use std::test::Fail;

/// A door that does so many steps, and then answers a fault.
#[derive(Drop)]
struct FailingDoor {
    door: CoreDoor,
    left: u32,
    fault: SetFault,
    faults: Faults,
}

impl Door for FailingDoor {
    ghost use Rattle.std.specs.Prelude.{⊤};

    ghost number = { λ door. door.door.link };

    ghost made = { λ door. door.door.core.history };

    ghost faults = { λ door. door.faults };

    ghost is_same = { λ a b. ⊤ };

    ghost same_self = { λ door. tt };

    ghost same_on = { λ first second third a b. tt };

    fn link(&self) -> u8 {
        self.door.link()
    }

    fn step(&mut self, event: &EventRef<'_>, reply: &mut Reply) -> Result<(), SetFault> {
        if self.left == 0 {
            self.faults.note(self.fault);
            return Err(self.fault);
        }
        self.left -= 1;
        match self.door.step(event, reply) {
            Ok(()) => Ok(()),
            Err(fault) => {
                self.faults.note(fault);
                Err(fault)
            }
        }
    }
}

/// A terminal whose door does so many steps and then answers this fault.
fn failing(
    alloc: Global,
    steps: u32,
    fault: SetFault,
) -> Option<Terminal<FailingDoor, LossyLine, OpenGate>> {
    let door = FailingDoor {
        door: door_of(alloc)?,
        left: steps,
        fault,
        faults: Faults::new(),
    };
    Some(started_at(door, LossyLine::new(0), LONG))
}

/// The fault that ends one of so many turns.
pub(crate) fn first_fault<D: Door, L: Line, G: Gate>(
    terminal: &mut Terminal<D, L, G>,
    turns: u16,
) -> Option<TermFault> {
    for _turn in 0..turns {
        if let Err(fault) = terminal.turn() {
            return Some(fault);
        }
    }
    None
}

/// Whatever is called then, it answers Failed.
pub(crate) fn stays_failed<D: Door, L: Line, G: Gate>(terminal: &mut Terminal<D, L, G>) -> bool {
    terminal.command(Command::Start);
    terminal.turn() == Err(TermFault::Failed)
        && terminal.run(1_000).is_err()
        && terminal.run(0).is_err()
        && terminal.turn() == Err(TermFault::Failed)
}

/// The step of this number fails: that fault is told, once.
fn fails_at(alloc: Global, steps: u32, fault: SetFault, told: TermFault) -> bool {
    match failing(alloc, steps, fault) {
        Some(mut terminal) => {
            let is_told = first_fault(&mut terminal, 20_000) == Some(told);
            let stays = stays_failed(&mut terminal);
            let stepped = looked_at(terminal, |door, _line| has_stepped(door, steps));
            is_told && stays && stepped
        }
        None => false,
    }
}

/// The door did all its steps, and each is in the history.
fn has_stepped(door: &FailingDoor, steps: u32) -> bool {
    door.left == 0 && door.door.core.history().len() == steps as usize
}

/// Each of the first steps fails: an Up, the first Heard, the first Next.
fn fails_at_first(alloc: Global) -> bool {
    for steps in 0..6u32 {
        if !fails_at(alloc, steps, SetFault::NoMemory, TermFault::NoMemory) {
            return false;
        }
    }
    true
}

#[test]
fn a_fault_is_told_once_and_then_failed(rt: HostRuntime) -> Result<(), Fail> {
    let first = fails_at_first(rt.alloc());
    // steps in the midst of service
    let memory = fails_at(rt.alloc(), 100, SetFault::NoMemory, TermFault::NoMemory);
    let full = fails_at(rt.alloc(), 101, SetFault::Exhausted, TermFault::Exhausted);
    holds(first && memory && full)
}

/// A run ends with this fault, and the terminal has failed then.
fn run_fails<D: Door, L: Line, G: Gate>(terminal: &mut Terminal<D, L, G>, told: TermFault) -> bool {
    match terminal.run(20_000) {
        Ok(_) => false,
        Err(fault) => fault == told && stays_failed(terminal),
    }
}

#[test]
fn a_run_that_fails_tells_the_fault(rt: HostRuntime) -> Result<(), Fail> {
    holds(is_told_by_a_run(rt.alloc()))
}

fn is_told_by_a_run(alloc: Global) -> bool {
    holds_of(failing(alloc, 7, SetFault::Exhausted), |terminal| {
        run_fails(terminal, TermFault::Exhausted)
    })
}
