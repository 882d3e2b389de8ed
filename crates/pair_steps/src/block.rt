//! The units of a line that stand in one piece of memory.
use super::stretch::{HasUnits, Stretch};
use super::under_way::UnderWay;
use l2_units::UnitRef;
use std::alloc::{AllocError, Allocator};
use std::collections::VecDeque;
use std::marker::Model;

/// How many units fill a piece of memory: so many move up at most where one in front of them leaves.
const MOST: usize = 16;

/// Units in one piece of memory, each in as much memory of its own as it has octets. Contracts see the list.
#[derive(Drop)]
pub struct Block<A: Allocator> {
    units: VecDeque<UnderWay<A>, A>,
}

impl<A: Allocator> Model for Block<A> {
    ghost use Rattle.std.specs.Prelude.{List};
    ghost use Rattle.l2_units.specs.declared.unit.Unit.{Unit as SignalUnit};

    ghost Value = { List SignalUnit };

    ghost view = { λ b. b.units.items };
}

impl<A: Allocator> HasUnits for Block<A> {
    ghost units = { λ b. b };
}

impl<A: Allocator + Copy> Stretch<A> for Block<A> {
    fn new(alloc: A) -> Block<A> {
        Block {
            units: VecDeque::new(alloc),
        }
    }

    fn len(&self) -> usize {
        self.units.len()
    }

    fn is_full(&self) -> bool {
        self.units.len() >= MOST
    }

    fn join(&mut self, alloc: A, unit: &UnitRef<'_>) -> Result<(), AllocError> {
        let under_way = UnderWay::of(alloc, unit)?;
        self.units.push_back(under_way)?;
        Ok(())
    }

    fn unit_ref(&self, place: usize) -> Option<UnitRef<'_>> {
        match self.units.get(place) {
            Some(under_way) => Some(under_way.unit_ref()),
            None => None,
        }
    }

    fn take_out(&mut self, place: usize) -> Option<UnderWay<A>> {
        if place == 0 {
            return self.units.pop_front();
        }
        self.units.remove(place)
    }
}
