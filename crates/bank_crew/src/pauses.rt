//! When users and terminals take checkpoints of their set.
ghost use Rattle.std.specs.Prelude.{◌≡◌};

use super::caller::Caller;
use set_shared::{LinkSet, Opening, Seat};
use std::sync::Wait;

/// When a user or a terminal takes checkpoints: each time that so much more was done.
#[derive(Drop)]
pub(crate) struct Pauses {
    every: Option<u64>,
    /// How much had been done at the last one.
    last: u64,
}

impl Pauses {
    /// After so much each.
    pub(crate) fn of(every: Option<u64>) -> Pauses {
        Pauses { every, last: 0 }
    }

    /// A checkpoint, where one is due when so much is done. Where memory is refused all stays, and the next one makes up
    /// for it.
    pub(crate) fn pause<O: Opening, S: Seat<O> + Drop, R: Wait>(
        &mut self,
        rt: &R,
        set: &LinkSet<O>,
        caller: &mut Caller<O, S>,
        done: u64,
    )
        ensures who { caller.new.seat.who ≡ caller.old.seat.who }
        ensures all { caller.new.all ≡ caller.old.all }
        ensures full { caller.new.seat.full ≡ caller.old.seat.full }
    {
        if self.are_due(done) {
            caller.checkpoint(rt, set);
        }
    }

    /// Whether so much is enough for the next one, from which it's counted anew.
    fn are_due(&mut self, done: u64) -> bool {
        match self.every {
            Some(every) if done.saturating_sub(self.last) >= every => {
                self.last = done;
                true
            }
            _ => false,
        }
    }
}
