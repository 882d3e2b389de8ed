//! Octets under way on one link to one end.
ghost use Rattle.std.specs.Prelude.{◌≡◌, ◌==◌, ◌<◌, [], ◌∷◌, ◌++◌, length, slice_set, IfOk, IfNone, IfSome, OnOk, OnErr};
ghost use Rattle.pair_octets.specs.Wires.{idle_line};

use std::alloc::{AllocError, Global};
use std::collections::VecDeque;
use std::marker::Model;

/// A flag (Q.703 3.1), which fills an idle line.
const FLAG: u8 = 0x7E;

/// Octets under way on one link to one end, the next to come in front. Contracts see the list.
#[derive(Drop)]
pub struct Line {
    octets: VecDeque<u8>,
}

impl Model for Line {
    ghost use Rattle.std.specs.Prelude.{ℕ, List};

    ghost Value = { List ℕ };

    ghost view = { λ l. l.octets.items };
}

impl Line {
    /// An idle line, with so many octets under way; it fails only where memory is wanted.
    pub(crate) fn idle(alloc: Global, octets: u16) -> Result<Line, AllocError>
        ensures { IfOk result (λ line. line ≡ idle_line octets) }
    {
        let mut line = VecDeque::with_capacity(alloc, usize::from(octets))?;
        for _ in 0..octets {
            line.push_back(FLAG)?;
        }
        Ok(Line { octets: line })
    }

    /// How many octets are under way.
    pub fn len(&self) -> usize
        ensures { result ≡ length self.now }
    {
        self.octets.len()
    }

    /// Whether none is.
    pub fn is_empty(&self) -> bool
        ensures { result ≡ (length self.now == 0) }
    {
        self.octets.is_empty()
    }

    /// The octet in front comes.
    pub(crate) fn take_front(&mut self) -> Option<u8>
        ensures front { IfSome result (λ octet. self.old ≡ octet ∷ self.new) }
        ensures none { IfNone result ((self.old ≡ []) × (self.new ≡ self.old)) }
    {
        self.octets.pop_front()
    }

    /// An octet joins the line; where memory is wanted, nothing has changed.
    pub(crate) fn join(&mut self, octet: u8) -> Result<(), AllocError>
        ensures ok { OnOk result (self.new ≡ self.old ++ octet ∷ []) }
        ensures err { OnErr result (self.new ≡ self.old) }
    {
        match self.octets.push_back(octet) {
            Ok(()) => Ok(()),
            Err(_) => Err(AllocError),
        }
    }

    /// Another octet comes in the place of the one at this place, counted from 0. Condition: there is one.
    pub(crate) fn change(&mut self, place: usize, octet: u8)
        requires { place < length self.old }
        ensures { self.new ≡ slice_set self.old place octet }
    {
        self.octets[place] = octet;
    }
}
