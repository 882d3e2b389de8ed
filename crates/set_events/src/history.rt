//! The entries of a set's history.
ghost use Rattle.std.specs.Prelude.{◌≡◌, ◌↔◌, IfOk, IsTrue};

use super::answer::Answer;
use super::event::{Actor, Event};
use std::alloc::AllocError;

/// One event of a set with the answer that it got.
#[derive(Debug, Drop)]
pub struct Entry {
    /// Who asked.
    pub who: Actor,
    /// What was asked.
    pub event: Event,
    /// What was answered.
    pub answer: Answer,
}

impl Entry {
    /// An equal entry; it fails only where memory is wanted.
    pub fn try_copy(&self) -> Result<Entry, AllocError>
        ensures { IfOk result (λ copy. copy ≡ self.now) }
    {
        Ok(Entry {
            who: self.who,
            event: self.event.try_copy()?,
            answer: self.answer.copy(),
        })
    }

    /// Whether both entries are the same, octet by octet.
    pub fn same(&self, other: &Entry) -> bool
        ensures { IsTrue result ↔ (self.now ≡ other.now) }
    {
        self.who.same(other.who) && self.event.same(&other.event) && self.answer.same(&other.answer)
    }
}
