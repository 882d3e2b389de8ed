//! An allocator for tests, which refuses one allocation and passes all others on.
//!
//! [`Refusing`] counts the allocations that are asked of it, and refuses the one that it was made for: a growth is one
//! too, since it asks for a new block. What is over any allocator takes a `&Refusing`, which is copied freely: so a
//! test keeps the count, and asks [`Refusing::refuses_no_more`] whether the number was reached, and
//! [`Refusing::blocks`] how many blocks are out.
#![tactic(auto)]

ghost use Rattle.std.specs.Prelude.{◌≡◌, ◌<◌, ◌≤◌, ◌+◌, ◌-◌, ◌^◌, ◌↔◌, IsTrue};

use std::alloc::{AllocError, Allocator};
use std::cell::Cell;

/// An allocator that refuses one allocation alone.
pub struct Refusing<B: Allocator> {
    inner: B,
    /// The number of the one to refuse among those to come, counted from 1; 0 where none of them is refused.
    left: Cell<u64>,
    /// How many blocks were handed out.
    handed: Cell<u64>,
    /// How many of them came back.
    returned: Cell<u64>,
}

impl<B: Allocator> Refusing<B> {
    /// Refuses its allocation of this number, counted from 1, and passes all others on to `inner`. With the number 0 none
    /// is refused.
    pub fn new(inner: B, number: u64) -> Refusing<B> {
        Refusing {
            inner,
            left: Cell::new(number),
            handed: Cell::new(0),
            returned: Cell::new(0),
        }
    }

    /// Refuses, of the allocations from here on, that of this number, counted from 1; with the number 0 none.
    pub fn refuse(&self, number: u64) {
        self.left.set(number);
    }

    /// Whether all that is still to come is passed on: the one to refuse has been, or there was none.
    pub fn refuses_no_more(&self) -> bool {
        self.left.get() == 0
    }

    /// How many blocks are out: those that were handed out and didn't come back. A growth hands one out and takes one
    /// back.
    pub fn blocks(&self) -> u64 {
        blocks_out(self.handed.get(), self.returned.get())
    }
}

impl<B: Allocator> Drop for Refusing<B> {
    fn drop(self) {
        let Self {
            inner: _,
            left: _,
            handed: _,
            returned: _,
        } = self;
    }
}

/// Whether the next allocation is the one to refuse; counts it.
fn refuses(left: &Cell<u64>) -> bool {
    let (refused, number) = next_of(left.get());
    left.set(number);
    refused
}

/// Where of the allocations to come the one of this number is refused, counted from 1, and with the number 0 none:
/// whether the next one is, and the number of the one to refuse among those behind it.
fn next_of(number: u64) -> (bool, u64)
    ensures refused { IsTrue result.0 ↔ (number ≡ 1) }
    ensures left { result.1 ≡ number - 1 }
{
    (number == 1, number.saturating_sub(1))
}

/// One more.
fn count(blocks: &Cell<u64>) {
    blocks.set(one_more(blocks.get()));
}

/// One more than so many.
fn one_more(blocks: u64) -> u64
    ensures { blocks + 1 < 2 ^ 64 → result ≡ blocks + 1 }
{
    blocks.wrapping_add(1)
}

/// How many are out, where so many were handed out and so many of them came back.
fn blocks_out(handed: u64, returned: u64) -> u64
    ensures { returned ≤ handed → result + returned ≡ handed }
{
    handed.wrapping_sub(returned)
}

unsafe impl<B: Allocator> Allocator for Refusing<B> {
    ghost dealloc_token = { λ heap ty ptr. B.dealloc_token heap.inner ty ptr };

    fn allocate(&self, size: usize, align: usize) -> Result<*mut u8, AllocError> {
        if refuses(&self.left) {
            return Err(AllocError);
        }
        match self.inner.allocate(size, align) {
            Ok(block) => {
                count(&self.handed);
                Ok(block)
            }
            Err(refused) => Err(refused),
        }
    }

    unsafe fn deallocate(&self, ptr: *mut u8, size: usize, align: usize) {
        count(&self.returned);
        self.inner.deallocate(ptr, size, align);
    }
}
