//! The window: what was sent and isn't acknowledged, and what waits to be sent.
ghost use Rattle.std.specs.Prelude.{◌≡◌, ◌+◌, ◌%◌};
ghost use Rattle.l2_window.specs.Window.{Profile, fsn_count, most_unacked};

use super::fault::WindowFault;
use super::queue::{Queue, copy_of};
use circular_buffer::HeapCircularBuffer;
use l2_units::Profile;
use std::alloc::{AllocError, Allocator, Global};
use std::marker::Model;

/// Memory was refused.
pub type NoMemory = AllocError;

/// The messages of one link, oldest first, each a number of the caller's.
///
/// Contracts see the FSN last acknowledged, the list of unacknowledged messages, the list of unsent
/// ones, and a room: so many pushes can't fail. After a refusal the window is unchanged.
#[derive(Debug, Drop)]
pub struct Window<A: Allocator = Global> {
    profile: Profile,
    /// The most that can be unacknowledged, and the greatest number: 127, or 4,095. All its bits are ones, so a
    /// number's place in the cycle is what it has in common with it.
    most: u16,
    last: u16,
    unacked: HeapCircularBuffer<u64, A>,
    unsent: Queue<A>,
}

impl<A: Allocator> Model for Window<A> {
    ghost use Rattle.l2_window.specs.Window.{WindowState};

    ghost Value = { WindowState };

    ghost view = { λ w. record {
      profile = w.profile;
      last = w.last;
      unacked = w.unacked.items;
      unsent = w.unsent.messages;
      room = w.unsent.room;
    } };

    ghost use Rattle.l2_window.specs.Stored.{IsStored};

    ghost invariant = { IsStored };
}

impl<A: Allocator + Copy> Window<A> {
    ghost use Rattle.std.specs.Prelude.{◌≡◌, ◌≢◌, ◌↔◌, ◌-◌, ◌<◌, ◌≤◌, ◌++◌, true, [], length, drop, slice_get, IsOk, IfOk, OnOk, OnErr, IfSome, IsNone, MatchOption};
    ghost use Rattle.std.specs.Option.{SomeIff};
    ghost use Rattle.std.specs.Result.{OkIff};
    ghost use Rattle.l2_window.specs.Control.{has_new, bsn_of, fsn_after};
    ghost use Rattle.l2_window.specs.Window.{IsWindow, IsEmpty, IsReasonable, SameMessages, Pushes, Inserts, Sends, Withdraws, Pops};
    ghost use Rattle.l2_window.specs.Window.{Narrow, Wide, fsn_at, last_fsn, distance_to, fsn_count, most_unacked, fsn_before_first};

    /// A window with no messages. It takes the storage of all unacknowledged messages, so that
    /// [`Window::send`] takes none.
    pub fn new(alloc: A) -> Result<Window<A>, NoMemory>
        ensures { IfOk result (IsEmpty Narrow) }
    {
        Window::of(alloc, Profile::Narrow)
    }

    /// A window with no messages whose numbers count from 0 to 4,095 (own).
    pub fn new_wide(alloc: A) -> Result<Window<A>, NoMemory>
        ensures { IfOk result (IsEmpty Wide) }
    {
        Window::of(alloc, Profile::Wide)
    }

    /// A window with no messages, of this profile.
    pub fn of(alloc: A, profile: Profile) -> Result<Window<A>, NoMemory>
        ensures { IfOk result (IsEmpty profile) }
    {
        let most = profile.most_unacked();
        Ok(Window {
            profile,
            most,
            last: most,
            unacked: HeapCircularBuffer::with_capacity(alloc, usize::from(most))?,
            unsent: Queue::new(alloc)?,
        })
    }

    /// A window of the same messages, with no room.
    pub fn copied(&self) -> Result<Window<A>, NoMemory>
        ensures { IfOk result (λ window. window ≡ record self.now { room = window.room }) }
    {
        let most = usize::from(self.most);
        Ok(Window {
            profile: self.profile,
            most: self.most,
            last: self.last,
            unacked: copy_of(&self.unacked, most)?,
            unsent: self.unsent.copied()?,
        })
    }

    /// The profile: how many numbers there are.
    pub fn profile(&self) -> Profile
        ensures { result ≡ self.now.profile }
    {
        self.profile
    }

    /// The FSN last acknowledged, 0 to 127 (wide: 4,095); the greatest at the start.
    pub fn last(&self) -> u16
        ensures value { result ≡ self.now.last }
        ensures sound { IsWindow self.now }
    {
        self.last
    }

    /// The number after this one, cyclically.
    pub fn number_after(&self, number: u16) -> u16
        requires { number < 4096 }
        ensures value { result ≡ fsn_after number self.now }
        ensures in_range { result < fsn_count self.now.profile }
    {
        in_cycle(self.most, number + 1)
    }

    /// The number before this one, cyclically.
    pub fn number_before(&self, number: u16) -> u16
        requires { number < 4096 }
        ensures value { result ≡ bsn_of number self.now }
        ensures in_range { result < fsn_count self.now.profile }
    {
        in_cycle(self.most, number + self.most)
    }

    /// The FSN of the message at this place of the unacknowledged ones, the oldest at 0; of the first unsent one at the
    /// place behind the last (Q.703 5.2.1).
    pub fn fsn_at(&self, place: usize) -> u16
        ensures value { result ≡ fsn_at self.now place }
        ensures in_range { result < fsn_count self.now.profile }
    {
        behind(self.most, self.last, place)
    }

    /// The FSN of the last message sent, which a FISU carries too (Q.703 5.2.1).
    pub fn last_fsn(&self) -> u16
        ensures value { result ≡ last_fsn self.now }
        ensures in_range { result < fsn_count self.now.profile }
    {
        in_cycle(self.most, self.last + self.unacked.len() as u16)
    }

    /// How many messages are unacknowledged, at most 127 (wide: 4,095).
    pub fn unacked_len(&self) -> usize
        ensures value { result ≡ length self.now.unacked }
        ensures sound { IsWindow self.now }
    {
        self.unacked.len()
    }

    /// How many messages are unsent.
    pub fn unsent_len(&self) -> usize
        ensures { result ≡ length self.now.unsent }
    {
        self.unsent.len()
    }

    /// The unacknowledged message at this place, the oldest at 0.
    pub fn unacked_at(&self, place: usize) -> Option<u64>
        ensures { result ≡ slice_get self.now.unacked place }
    {
        self.unacked.get(place).copied()
    }

    /// The unsent message at this place, the oldest at 0.
    pub fn unsent_at(&self, place: usize) -> Option<u64>
        ensures { result ≡ slice_get self.now.unsent place }
    {
        self.unsent.at(place)
    }

    /// Whether a message can be sent for the first time: one is unsent, and fewer than 127 are
    /// unacknowledged (Q.703 5.2.2).
    pub fn has_new(&self) -> bool
        ensures { result ≡ has_new self.now }
    {
        !self.unsent.is_empty() && self.unacked.len() < usize::from(self.most)
    }

    /// Makes room for `pushes` more pushes, which then can't fail. The messages stay as they are.
    pub fn reserve(&mut self, pushes: usize) -> Result<(), NoMemory>
        ensures room { OnOk result (pushes ≤ self.new.room) }
        ensures same { SameMessages self.old self.new }
        ensures fails { OnErr result (self.old.room < pushes) }
    {
        self.unsent.reserve(pushes)
    }

    /// Puts the message last among the unsent ones. It takes at most one of the room, and can't
    /// fail while there is room.
    pub fn push(&mut self, message: u64) -> Result<(), NoMemory>
        ensures ok { OnOk result (Pushes message self.old self.new) }
        ensures err { OnErr result (SameMessages self.old self.new) }
        ensures fails { OnErr result (self.old.room ≡ 0) }
    {
        self.unsent.push(message)
    }

    /// Puts the message behind the `place` oldest of the unsent ones, in reserved room: so many steps, however many
    /// stand behind it.
    pub fn insert_reserved(&mut self, place: usize, message: u64)
        requires room { 0 < self.old.room }
        requires place { place ≤ length self.old.unsent }
        ensures { Inserts place message self.old self.new }
    {
        self.unsent.insert_reserved(place, message);
    }

    /// Sends the first unsent message: the message and its FSN. It is then the last of the
    /// unacknowledged ones.
    ///
    /// Refusals, in this order: 1 [`WindowFault::Empty`] with nothing unsent, 2
    /// [`WindowFault::Full`] with 127 unacknowledged.
    pub fn send(&mut self) -> Result<(u64, u16), WindowFault>
        ensures empty { (result ≡ Err WindowFault.Empty) ↔ (self.old.unsent ≡ []) }
        ensures full { (result ≡ Err WindowFault.Full)
            ↔ ((self.old.unsent ≢ []) × (most_unacked self.old.profile ≤ length self.old.unacked)) }
        ensures succeeds { self.old.unsent ≢ [] → length self.old.unacked < most_unacked self.old.profile → IsOk result }
        ensures sent { IfOk result (λ sent. Sends sent.0 self.old self.new) }
        ensures fsn { IfOk result (λ sent. sent.1 ≡ fsn_at self.old (length self.old.unacked)) }
        ensures err { OnErr result (self.new ≡ self.old) }
    {
        if self.unsent.is_empty() {
            return Err(WindowFault::Empty);
        }
        let place = self.unacked.len();
        if place >= usize::from(self.most) {
            return Err(WindowFault::Full);
        }
        let message = self.send_new();
        Ok((message, self.fsn_at(place)))
    }

    /// Sends the first unsent message where there is one that can be sent ([`Window::has_new`]). It is then the last of the
    /// unacknowledged ones.
    pub fn send_new(&mut self) -> u64
        requires { has_new self.old ≡ true }
        ensures { Sends result self.old self.new }
    {
        let Some(message) = self.unsent.pop() else {
            unreachable!();
        };
        match self.unacked.try_push_back(message) {
            Ok(()) => message,
            Err(_) => unreachable!(),
        }
    }

    /// How many messages an acknowledgement of this number acknowledges, or nothing where the
    /// number is unreasonable: neither that last acknowledged nor that of an unacknowledged message.
    pub fn distance(&self, number: u16) -> Option<u16>
        requires { number < fsn_count self.now.profile }
        ensures value { SomeIff result (IsReasonable self.now number) (distance_to self.now number) }
        ensures sound { IsWindow self.now }
    {
        let distance = in_cycle(self.most, number + self.most + 1 - self.last);
        (usize::from(distance) <= self.unacked.len()).then_some(distance)
    }

    /// Acknowledges the messages up to this number, and answers how many. It is then the number
    /// last acknowledged.
    ///
    /// Refusal: 3 [`WindowFault::Unreasonable`].
    pub fn ack(&mut self, number: u16) -> Result<u16, WindowFault>
        requires { number < fsn_count self.old.profile }
        ensures acked { OkIff result (IsReasonable self.old number) (distance_to self.old number) }
        ensures ok { OnOk result (self.new ≡ record self.old {
          last = number;
          unacked = drop (distance_to self.old number) self.old.unacked;
        }) }
        ensures unreasonable { OnErr result (result ≡ Err WindowFault.Unreasonable) }
        ensures err { OnErr result (self.new ≡ self.old) }
    {
        let distance = self.distance(number).ok_or(WindowFault::Unreasonable)?;
        let left = self.unacked.len() - usize::from(distance);
        self.unacked.truncate_front(left);
        self.last = number;
        Ok(distance)
    }

    /// Takes out the first unacknowledged message, or with none the first unsent one. The number
    /// last acknowledged stays.
    pub fn pop(&mut self) -> Option<u64>
        ensures none { IsNone result ↔ (self.old.unacked ++ self.old.unsent ≡ []) }
        ensures some { IfSome result (λ message. Pops message self.old self.new) }
        ensures unchanged { IsNone result → self.new ≡ self.old }
    {
        if let Some(message) = self.unacked.pop_front() {
            return Some(message);
        }
        self.unsent.pop()
    }

    /// Takes out the first unsent message: what becomes of it is the caller's to know.
    pub fn withdraw(&mut self) -> Option<u64>
        ensures value { result ≡ slice_get self.old.unsent 0 }
        ensures rest { Withdraws self.old self.new }
        ensures freed { IfSome result (λ _. self.old.room + 1 ≤ self.new.room) }
        ensures none { IsNone result → self.new ≡ self.old }
    {
        self.unsent.pop()
    }

    /// The unacknowledged messages leave the window, and the number last acknowledged stays: what
    /// becomes of them is the caller's to know.
    pub fn clear_unacked(&mut self)
        ensures { self.new ≡ record self.old { unacked = [] } }
    {
        self.unacked.clear();
    }

    /// The unsent messages leave the window: what becomes of them is the caller's to know.
    pub fn clear_unsent(&mut self)
        ensures profile { self.new.profile ≡ self.old.profile }
        ensures last { self.new.last ≡ self.old.last }
        ensures unacked { self.new.unacked ≡ self.old.unacked }
        ensures unsent { self.new.unsent ≡ [] }
        ensures room { self.old.room ≤ self.new.room }
    {
        self.unsent.clear();
    }

    /// Counts FSN 127 as acknowledged again, for a new life of the link.
    pub fn reset(&mut self)
        requires unacked { self.old.unacked ≡ [] }
        requires unsent { self.old.unsent ≡ [] }
        ensures { self.new ≡ record self.old { last = fsn_before_first self.old.profile } }
    {
        self.last = self.most;
    }

    /// The two rings themselves, that of the unacknowledged messages first.
    pub fn into_rings(self) -> (HeapCircularBuffer<u64, A>, HeapCircularBuffer<u64, A>)
        ensures unacked { result.0.items ≡ self.unacked }
        ensures capacity { result.0.capacity ≡ most_unacked self.profile }
        ensures unsent { result.1.items ≡ self.unsent }
        ensures room { result.1.capacity - length result.1.items ≡ self.room }
    {
        let Window {
            unacked,
            unsent,
            ..
        } = self;
        (unacked, unsent.into_ring())
    }
}

/// This number of the cycle that `most` is the greatest of: modulo 128, or modulo 4,096.
#[tactic(auto, using(crate::proofs::Cycles::low_bits))]
fn in_cycle(most: u16, number: u16) -> u16
    ensures value { (profile : Profile) → most ≡ most_unacked profile → result ≡ number % fsn_count profile }
{
    number & most
}

/// The number that stands so many places and one behind this one, cyclically.
#[tactic(auto, using(crate::proofs::Cycles::low_bits, crate::proofs::Cycles::places_round))]
fn behind(most: u16, number: u16, place: usize) -> u16
    ensures value { (profile : Profile) → most ≡ most_unacked profile
        → result ≡ (number + 1 + place) % fsn_count profile }
{
    let place = (place % 65536) as u16;
    in_cycle(most, place.wrapping_add(number).wrapping_add(1))
}
