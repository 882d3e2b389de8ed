//! What a turn did, and level 3 behind it.

use l3_link::Ask;
use set_events::Refusal;
use std::marker::Model;
use term_bench::Turn;

/// What level 3 asked for a link, and whether it was done.
#[derive(Clone, Copy, Debug, PartialEq, Eq)]
pub struct Deed {
    /// What was asked.
    pub ask: Ask,
    /// Why it was refused; `None`: it was done.
    pub refused: Option<Refusal>,
}

/// What a turn of a link did, and what level 3 asked behind it.
#[derive(Debug, Drop)]
pub struct ManagedTurn {
    turn: Turn,
    deeds: Vec<Deed>,
}

impl Model for ManagedTurn {
    ghost use Rattle.term_managed.specs.Turns.{TurnAndDeeds};

    ghost Value = { TurnAndDeeds };

    ghost view = { λ m. record { turn = m.turn; deeds = m.deeds.items } };
}

impl ManagedTurn {
    ghost use Rattle.std.specs.Prelude.{◌≡◌};

    /// This turn, and what was asked behind it.
    pub(crate) fn new(turn: Turn, deeds: Vec<Deed>) -> ManagedTurn
        ensures { result ≡ record { turn = turn; deeds = deeds.items } }
    {
        ManagedTurn { turn, deeds }
    }

    /// What the turn did.
    pub fn turn(&self) -> &Turn
        ensures { result.now ≡ self.now.turn }
    {
        &self.turn
    }

    /// What was asked behind it, the first one first.
    pub fn deeds(&self) -> &[Deed]
        ensures { result.now ≡ self.now.deeds }
    {
        &self.deeds
    }
}
