//! A queue that wants no memory while there is room.
ghost use Rattle.std.specs.Prelude.{◌≡◌, ◌≤◌, IfOk, length};

use circular_buffer::HeapCircularBuffer;
use std::alloc::{AllocError, Allocator, Global};
use std::marker::Model;

/// Messages one after another, each a number of the caller's, in a ring that grows.
///
/// Contracts see the messages, oldest first, and a room: so many pushes can't fail. A push, and the
/// taking of the oldest, cost the same however many messages there are; a growth moves them all, and
/// at least doubles the ring.
#[derive(Debug, Drop)]
pub struct Queue<A: Allocator = Global> {
    ring: HeapCircularBuffer<u64, A>,
}

impl<A: Allocator> Model for Queue<A> {
    ghost use Rattle.std.specs.Prelude.{◌-◌, length};
    ghost use Rattle.l2_window.specs.Queue.{QueueState};

    ghost Value = { QueueState };

    ghost view = { λ q. record { messages = q.ring.items; room = q.ring.capacity - length q.ring.items } };
}

impl<A: Allocator + Copy> Queue<A> {
    ghost use Rattle.std.specs.Prelude.{◌≡◌, ◌+◌, ◌-◌, ◌<◌, ◌≤◌, ◌^◌, ◌==◌, ◌++◌, [], ◌∷◌, IfOk, IfSome, OnOk, OnErr, IsNone, length, take, drop, slice_get};
    ghost use Rattle.l2_window.specs.Queue.{QueueState, SameQueue};

    /// No messages, and no room.
    pub fn new(alloc: A) -> Result<Queue<A>, AllocError>
        ensures { IfOk result (λ queue. queue.messages ≡ []) }
    {
        Ok(Queue {
            ring: HeapCircularBuffer::with_capacity(alloc, 0)?,
        })
    }

    /// A queue of the same messages, with no room.
    pub fn copied(&self) -> Result<Queue<A>, AllocError>
        ensures { IfOk result (λ queue. queue.messages ≡ self.now.messages) }
    {
        Ok(Queue {
            ring: copy_of(&self.ring, self.ring.len())?,
        })
    }

    /// How many messages there are.
    pub fn len(&self) -> usize
        ensures value { result ≡ length self.now.messages }
        ensures few { result < 2 ^ 63 }
    {
        self.ring.len()
    }

    /// Whether there is no message.
    pub fn is_empty(&self) -> bool
        ensures { result ≡ (length self.now.messages == 0) }
    {
        self.ring.is_empty()
    }

    /// The message at this place, the oldest at 0.
    pub fn at(&self, place: usize) -> Option<u64>
        ensures { result ≡ slice_get self.now.messages place }
    {
        self.ring.get(place).copied()
    }

    /// Makes room for `pushes` more pushes, which then can't fail. The messages stay as they are.
    pub fn reserve(&mut self, pushes: usize) -> Result<(), AllocError>
        ensures room { OnOk result (pushes ≤ self.new.room) }
        ensures same { SameQueue self.old self.new }
        ensures fails { OnErr result (self.old.room < pushes) }
    {
        let (len, capacity) = (self.ring.len(), self.ring.capacity());
        if pushes <= capacity - len {
            return Ok(());
        }
        let Some(wanted) = len.checked_add(pushes) else {
            return Err(AllocError);
        };
        self.ring.resize(wanted.max(2 * capacity))
    }

    /// Puts the message last. It takes at most one of the room, and can't fail while there is room.
    pub fn push(&mut self, message: u64) -> Result<(), AllocError>
        ensures ok { OnOk result (self.new.messages ≡ self.old.messages ++ message ∷ []) }
        ensures room { OnOk result (self.old.room ≤ self.new.room + 1) }
        ensures err { OnErr result (SameQueue self.old self.new) }
        ensures fails { OnErr result (self.old.room ≡ 0) }
    {
        self.reserve(1)?;
        self.push_reserved(message);
        Ok(())
    }

    /// Puts the message last, in reserved room.
    pub fn push_reserved(&mut self, message: u64)
        requires { 0 < self.old.room }
        ensures messages { self.new.messages ≡ self.old.messages ++ message ∷ [] }
        ensures room { self.old.room ≡ self.new.room + 1 }
    {
        match self.ring.try_push_back(message) {
            Ok(()) => (),
            Err(_) => unreachable!(),
        }
    }

    /// Puts the message behind the `place` oldest ones, in reserved room: so many steps, however many stand behind it.
    pub fn insert_reserved(&mut self, place: usize, message: u64)
        requires room { 0 < self.old.room }
        requires place { place ≤ length self.old.messages }
        ensures messages { self.new.messages ≡ take place self.old.messages ++ message
            ∷ drop place self.old.messages }
        ensures room { self.old.room ≡ self.new.room + 1 }
    {
        match self.ring.try_push_front(message) {
            Ok(()) => (),
            Err(_) => unreachable!(),
        }
        // one after another goes ahead of it
        for behind in 0..place {
            let next = *self.ring.get(behind + 1).unwrap();
            *self.ring.get_mut(behind).unwrap() = next;
            *self.ring.get_mut(behind + 1).unwrap() = message;
        }
    }

    /// Takes out the oldest message.
    pub fn pop(&mut self) -> Option<u64>
        ensures value { result ≡ slice_get self.old.messages 0 }
        ensures messages { self.new.messages ≡ drop 1 self.old.messages }
        ensures room { self.old.room ≤ self.new.room }
        ensures freed { IfSome result (λ _. self.old.room + 1 ≤ self.new.room) }
        ensures none { IsNone result → self.new ≡ self.old }
    {
        // it holds no more than it has room for, so one that leaves makes room for one
        self.ring.len();
        self.ring.pop_front()
    }

    /// All messages leave.
    pub fn clear(&mut self)
        ensures messages { self.new.messages ≡ [] }
        ensures room { self.old.room ≤ self.new.room }
    {
        self.ring.clear();
    }

    /// The ring itself.
    pub fn into_ring(self) -> HeapCircularBuffer<u64, A>
        ensures messages { result.items ≡ self.messages }
        ensures room { result.capacity - length result.items ≡ self.room }
    {
        let Queue { ring } = self;
        ring
    }
}

/// A ring of this capacity, with the same messages.
pub(crate) fn copy_of<A: Allocator + Copy>(
    ring: &HeapCircularBuffer<u64, A>,
    capacity: usize,
) -> Result<HeapCircularBuffer<u64, A>, AllocError>
    requires { length ring.now.items ≤ capacity }
    ensures { IfOk result (λ copy. (copy.items ≡ ring.now.items) × (copy.capacity ≡ capacity)) }
{
    let mut copy = HeapCircularBuffer::with_capacity(*ring.allocator(), capacity)?;
    let (first, rest) = ring.as_slices();
    copy.extend_from_slice(first);
    copy.extend_from_slice(rest);
    Ok(copy)
}
