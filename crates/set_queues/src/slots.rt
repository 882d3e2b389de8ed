//! Which number each item of a table has: the older ones by a list, all later ones by their places.
ghost use Rattle.std.specs.Prelude.{◌≡◌, ◌<◌, ◌≤◌, ◌↔◌, ◌^◌, [], IfOk, IsOk, length};
ghost use Rattle.set_queues.specs.Slots.{AreSlots, place_within, number_at, given_to, room_for};

use std::alloc::{AllocError, Allocator};

/// At most so many numbers are given out.
const MOST: u64 = (1 << 63) - 1;

/// The numbers of a table's items, in the order of their places.
///
/// A number that was given out since the numbers were last looked through is found by a comparison, an older one by
/// a search among those that are left.
#[derive(Drop)]
pub(crate) struct Numbers<A: Allocator> {
    /// Those of the first items, ascending.
    pub(crate) older: Vec<u64, A>,
    /// That of the item behind those. Each further item has the next number.
    pub(crate) first: u64,
}

impl<A: Allocator + Copy> Numbers<A> {
    /// From 0 on.
    pub(crate) fn new(alloc: A) -> Numbers<A>
        ensures { (result.first ≡ 0) × (result.older.items ≡ []) }
    {
        Numbers {
            older: Vec::new(alloc),
            first: 0,
        }
    }

    /// The same numbers.
    pub(crate) fn copied(&self) -> Result<Numbers<A>, AllocError>
        ensures { IfOk result (λ copy. (copy.older.items ≡ self.now.older.items) × (copy.first ≡ self.now.first)) }
    {
        Ok(Numbers {
            older: Vec::from_slice(*self.older.allocator(), &self.older)?,
            first: self.first,
        })
    }

    /// How many numbers were given out, with so many items.
    pub(crate) fn given(&self, items: usize) -> u64
        requires slots { AreSlots self.now.older.items self.now.first items }
        ensures value { result ≡ given_to self.now.older.items self.now.first items }
        ensures few { result < 2 ^ 63 }
    {
        self.first + (items - self.older.len()) as u64
    }

    /// Whether there are numbers for so many more.
    pub(crate) fn reserve(&self, items: usize, more: usize) -> Result<(), AllocError>
        requires slots { AreSlots self.now.older.items self.now.first items }
        ensures { IsOk result ↔ (more ≤ room_for self.now.older.items self.now.first items) }
    {
        if more as u64 > MOST - self.given(items) {
            return Err(AllocError);
        }
        Ok(())
    }

    /// The place of this number among so many items, if it has one.
    pub(crate) fn place(&self, items: usize, number: u64) -> Option<usize>
        requires slots { AreSlots self.now.older.items self.now.first items }
        ensures { result ≡ place_within number self.now.older.items self.now.first items }
    {
        if number < self.first {
            return self.older.binary_search(&number).ok();
        }
        let since = number - self.first;
        let older = self.older.len();
        if since >= (items - older) as u64 {
            return None;
        }
        Some(older + since as usize)
    }

    /// The number of the item at this place, of so many.
    pub(crate) fn number_at(&self, items: usize, place: usize) -> u64
        requires slots { AreSlots self.now.older.items self.now.first items }
        requires within { place < items }
        ensures { result ≡ number_at place self.now.older.items self.now.first }
    {
        let older = self.older.len();
        if place < older {
            return self.older[place];
        }
        self.first + (place - older) as u64
    }
}
