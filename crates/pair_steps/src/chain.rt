//! Stretches of a line, one behind another.
ghost use Rattle.std.specs.Prelude.{◌≡◌, ◌<◌, ◌≤◌, [], ◌∷◌, ◌++◌, OnOk, OnErr, length, true};
ghost use Rattle.l2_units.specs.Lent.{body_in, unit_in};
ghost use Rattle.pair_steps.specs.Nests.{IsFound, joined};

use super::stretch::{HasUnits, Stretch};
use super::under_way::UnderWay;
use l2_units::UnitRef;
use std::alloc::{AllocError, Allocator};
use std::marker::Model;

/// How many stretches fill a chain.
const MOST: usize = 16;

/// Stretches of units, one behind another. Contracts see the list of all their units.
///
/// Units join the last stretch, and another is put behind it where that is full. One from which the last unit leaves is
/// taken out, unless it's the last one.
#[derive(Drop)]
pub struct Chain<A: Allocator, S: HasUnits> {
    parts: Vec<S, A>,
    /// How many units there are in all.
    count: usize,
}

impl<A: Allocator, S: HasUnits> Model for Chain<A, S> {
    ghost use Rattle.std.specs.Prelude.{◌≡◌, List, length};
    ghost use Rattle.l2_units.specs.declared.unit.Unit.{Unit as SignalUnit};
    ghost use Rattle.pair_steps.specs.Nests.{joined};

    ghost Value = { List SignalUnit };

    ghost view = { λ c. joined S.units c.parts.items };

    ghost invariant = { λ c. c.count ≡ length (joined S.units c.parts.items) };
}

impl<A: Allocator, S: HasUnits> HasUnits for Chain<A, S> {
    ghost units = { λ c. c };
}

impl<A: Allocator + Copy, S: Stretch<A>> Stretch<A> for Chain<A, S> {
    fn new(alloc: A) -> Chain<A, S> {
        Chain {
            parts: Vec::new(alloc),
            count: 0,
        }
    }

    fn len(&self) -> usize {
        self.count
    }

    fn is_full(&self) -> bool {
        self.parts.len() >= MOST && !has_room(&self.parts)
    }

    fn join(&mut self, alloc: A, unit: &UnitRef<'_>) -> Result<(), AllocError> {
        let count = self.count.checked_add(1).ok_or(AllocError)?;
        join_last(&mut self.parts, alloc, unit)?;
        self.count = count;
        Ok(())
    }

    fn unit_ref(&self, place: usize) -> Option<UnitRef<'_>> {
        let (index, rest) = find(&self.parts, place)?;
        self.parts[index].unit_ref(rest)
    }

    fn take_out(&mut self, place: usize) -> Option<UnderWay<A>> {
        let (index, rest) = find(&self.parts, place)?;
        let unit = self.parts[index].take_out(rest)?;
        self.count -= 1;
        drop_empty(&mut self.parts, index);
        Some(unit)
    }
}

/// Whether there is a last stretch, and it isn't full.
fn has_room<A: Allocator, S: Stretch<A>>(parts: &[S]) -> bool
    ensures { result ≡ true → 0 < length parts.now }
{
    match parts.last() {
        Some(part) => !part.is_full(),
        None => false,
    }
}

/// A unit joins the last stretch, or another behind it where that is full; where memory is wanted, there are the same
/// units. Condition: a body of at most 273 octets.
fn join_last<A: Allocator + Copy, S: Stretch<A>>(
    parts: &mut Vec<S, A>,
    alloc: A,
    unit: &UnitRef<'_>,
) -> Result<(), AllocError>
    requires { length (body_in unit.now) ≤ 273 }
    ensures ok { OnOk result (joined S.units parts.new.items
        ≡ joined S.units parts.old.items ++ unit_in unit.now ∷ []) }
    ensures err { OnErr result (joined S.units parts.new.items ≡ joined S.units parts.old.items) }
{
    make_room(parts, alloc)?;
    let last = parts.len() - 1;
    parts[last].join(alloc, unit)
}

/// There is a last stretch that isn't full; where memory is wanted, nothing has changed.
fn make_room<A: Allocator + Copy, S: Stretch<A>>(
    parts: &mut Vec<S, A>,
    alloc: A,
) -> Result<(), AllocError>
    ensures some { OnOk result (0 < length parts.new.items) }
    ensures same { joined S.units parts.new.items ≡ joined S.units parts.old.items }
{
    if !has_room(parts) {
        parts.push(S::new(alloc))?;
    }
    Ok(())
}

/// Which stretch has the unit at this place, and at which place of it.
fn find<A: Allocator, S: Stretch<A>>(parts: &[S], place: usize) -> Option<(usize, usize)>
    ensures { IsFound S.units parts.now place result }
{
    let mut rest = place;
    for (index, part) in parts.iter().enumerate() {
        let count = part.len();
        if rest < count {
            return Some((index, rest));
        }
        rest -= count;
    }
    None
}

/// Takes this stretch out if it has no units and isn't the last one.
fn drop_empty<A: Allocator, S: Stretch<A>>(parts: &mut Vec<S, A>, index: usize)
    requires { index < length parts.old.items }
    ensures { joined S.units parts.new.items ≡ joined S.units parts.old.items }
{
    if index + 1 < parts.len() && parts[index].len() == 0 {
        parts.remove(index);
    }
}
