//! Units under way on one link.
ghost use Rattle.std.specs.Prelude.{◌≡◌, ◌==◌, ◌≤◌, [], ◌∷◌, ◌++◌, IfSome, OnOk, OnErr, length, slice_get};
ghost use Rattle.l2_units.specs.Lent.{body_in, unit_in};
ghost use Rattle.pair_steps.specs.Lines.{IsTakenFrom};
ghost use Rattle.pair_steps.specs.Lent.{IsUnitAt};

use super::block::Block;
use super::chain::Chain;
use super::stretch::Stretch;
use super::under_way::UnderWay;
use l2_units::{Unit, UnitRef};
use std::alloc::{AllocError, Allocator, Global};
use std::marker::Model;

/// Units under way on one link, oldest first, each in as much memory as it has octets. Contracts see the list.
///
/// A unit joins the line, is read or leaves it, from whatever place, by at most 16 counts on each of five levels and 16 moves,
/// while fewer than 2^24 units joined the line since it was empty.
#[derive(Drop)]
pub struct Line<A: Allocator = Global> {
    units: Chain<A, Chain<A, Chain<A, Chain<A, Chain<A, Block<A>>>>>>,
    /// What a message's octets are kept by.
    alloc: A,
}

impl<A: Allocator> Model for Line<A> {
    ghost use Rattle.std.specs.Prelude.{List};
    ghost use Rattle.l2_units.specs.declared.unit.Unit.{Unit as SignalUnit};

    ghost Value = { List SignalUnit };

    ghost view = { λ l. l.units };
}

impl<A: Allocator + Copy> Line<A> {
    /// Nothing is under way.
    pub(crate) fn new(alloc: A) -> Line<A>
        ensures { result ≡ [] }
    {
        Line {
            units: Chain::new(alloc),
            alloc,
        }
    }

    /// A unit joins the line; where memory is wanted, nothing has changed. Condition: a body of at most 273 octets.
    pub(crate) fn join(&mut self, unit: &UnitRef<'_>) -> Result<(), AllocError>
        requires { length (body_in unit.now) ≤ 273 }
        ensures ok { OnOk result (self.new ≡ self.old ++ unit_in unit.now ∷ []) }
        ensures err { OnErr result (self.new ≡ self.old) }
    {
        self.units.join(self.alloc, unit)
    }

    /// How many units are under way.
    pub fn len(&self) -> usize
        ensures { result ≡ length self.now }
    {
        self.units.len()
    }

    /// Whether none is.
    pub fn is_empty(&self) -> bool
        ensures { result ≡ (length self.now == 0) }
    {
        self.len() == 0
    }

    /// The unit at this place, the oldest at 0, with its body left in the line.
    pub fn unit_ref(&self, place: u64) -> Option<UnitRef<'_>>
        ensures value { IsUnitAt self.now place result }
        ensures few { IfSome result (λ unit. length (body_in unit) ≤ 273) }
    {
        self.units.unit_ref(place as usize)
    }

    /// The unit at this place, the oldest at 0.
    pub fn unit(&self, place: u64) -> Option<Unit>
        ensures { result ≡ slice_get self.now place }
    {
        match self.unit_ref(place) {
            Some(unit) => Some(unit.unit()),
            None => None,
        }
    }

    /// Takes the unit at this place out of the line, if there is one.
    pub(crate) fn take_out(&mut self, place: u64) -> Option<UnderWay<A>>
        ensures { IsTakenFrom result self.old place self.new }
    {
        self.units.take_out(place as usize)
    }

    /// Nothing is under way any more.
    pub(crate) fn clear(&mut self)
        ensures { self.new ≡ [] }
    {
        self.units = Chain::new(self.alloc);
    }
}
