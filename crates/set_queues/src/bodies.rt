//! The bodies of the messages.
ghost use Rattle.std.specs.Prelude.{◌≡◌, ◌<◌, ◌∷◌, length, slice_index, ◌+◌, ◌≤◌, ◌++◌, ℕ, [], slice_get, Some, IfOk, IfSome, IsSome, OnOk};
ghost use Rattle.set_queues.specs.Bodies.{bodies_in, kept_bodies, standing_flags, AreAll, AreHeld, CanHold};
ghost use Rattle.set_queues.specs.Messages.{is_unfinished};
ghost use Rattle.set_queues.specs.Slots.{slot_at, given_to, AreKept, AreSlots};

use super::queues::Queues;
use super::slots::Numbers;
use boxcar::tag::{Names, Tag};
use l2_units::LONGEST_BODY;
use std::alloc::{AllocError, Allocator, Global};
use std::marker::Model;

/// The bodies of a set's messages by their numbers 0, 1, .., one behind another.
///
/// Contracts see a slot for each number, and the room that is left; the slot of one whose message was forgotten is
/// empty. A body takes 8 octets of memory and its own, and 8 more once it outlived a copy ([`Bodies::lean`]); each
/// call but a copy costs the same however many bodies there are.
#[derive(Drop)]
pub struct Bodies<A: Allocator = Global> {
    numbers: Numbers<A>,
    /// Where each ends.
    ends: Vec<usize, A>,
    /// The octets of all.
    octets: Vec<u8, A>,
    /// Of each number whether its body was there, 1 or 0, when others were forgotten last: contracts alone see them.
    there: Tag,
}

impl<A: Allocator> Model for Bodies<A> {
    ghost use Rattle.std.specs.Prelude.{◌-◌, ◌≤◌, length, min, vec_len, vec_capacity};
    ghost use Rattle.set_queues.specs.Bodies.{BodiesState, bodies_in, flagged, AreAll};
    ghost use Rattle.set_queues.specs.Slots.{AreSlots, given_to, slots_of, room_for};

    ghost Value = { BodiesState };

    ghost view = { λ b. record {
      items = flagged b.there.numbers
          (slots_of b.numbers.older.items b.numbers.first (bodies_in 0 b.ends.items b.octets.items));
      places = min (vec_capacity b.ends - vec_len b.ends)
          (room_for b.numbers.older.items b.numbers.first (length b.ends.items));
      octets = vec_capacity b.octets - vec_len b.octets;
    } };

    ghost invariant = { λ b. (AreSlots b.numbers.older.items b.numbers.first (length b.ends.items))
        × (AreAll 0 b.ends.items b.octets.items)
        × (length b.there.numbers ≤ given_to b.numbers.older.items b.numbers.first (length b.ends.items)) };
}

/// The numbers of the messages that aren't finished, as flags.
struct Standing;

impl<A: Allocator> Names<Queues<A>> for Standing {
    ghost numbers = { λ queues. standing_flags queues.messages };
}

/// The same numbers again.
struct Same;

impl Names<Tag> for Same {
    ghost numbers = { λ tag. tag.numbers };
}

impl<A: Allocator + Copy> Bodies<A> {
    /// No bodies, and no room.
    pub fn new(alloc: A) -> Bodies<A>
        ensures { result.items ≡ [] }
    {
        Bodies {
            numbers: Numbers::new(alloc),
            ends: Vec::new(alloc),
            octets: Vec::new(alloc),
            there: Tag::empty(),
        }
    }

    /// Makes room for so many more bodies, which then want no memory; it fails only where memory is wanted, or a number
    /// past 2^63 - 1. The bodies stay either way.
    pub fn reserve(&mut self, bodies: usize) -> Result<(), AllocError>
        ensures room { OnOk result (CanHold bodies self.new) }
        ensures same { self.new.items ≡ self.old.items }
    {
        let octets = bodies.checked_mul(LONGEST_BODY).ok_or(AllocError)?;
        self.numbers.reserve(self.ends.len(), bodies)?;
        self.ends.reserve(bodies)?;
        self.octets.reserve(octets)
    }

    /// The body of the next message: these octets. There is room for it, so it takes no memory.
    #[tactic(auto, using(crate::proofs::Storing::bodies_more, crate::proofs::Storing::all_more))]
    pub fn add(&mut self, body: &[u8])
        requires room { CanHold 1 self.old }
        requires fits { length body.now ≤ 273 }
        ensures items { self.new.items ≡ self.old.items ++ Some body.now ∷ [] }
        ensures room { (more : ℕ) → CanHold (more + 1) self.old → CanHold more self.new }
    {
        self.octets.extend_from_slice(body).unwrap();
        self.ends.push_reserved(self.octets.len());
    }

    /// The body of the message of this number, which has one.
    pub fn body(&self, number: u64) -> &[u8]
        requires { IsSome (slot_at number self.now.items) }
        ensures { slot_at number self.now.items ≡ Some result.now }
    {
        let place = self.numbers.place(self.ends.len(), number).unwrap();
        body_in(&self.ends, &self.octets, place)
    }

    /// The same bodies, with no room.
    pub fn copied(&self) -> Result<Bodies<A>, AllocError>
        ensures { IfOk result (λ copy. copy.items ≡ self.now.items) }
    {
        Ok(Bodies {
            numbers: self.numbers.copied()?,
            ends: Vec::from_slice(*self.ends.allocator(), &self.ends)?,
            octets: Vec::from_slice(*self.octets.allocator(), &self.octets)?,
            there: Tag::of::<Tag, Same>(&self.there),
        })
    }

    /// The bodies of those messages that aren't finished, under their numbers, with no room, where [`Queues::forget`]
    /// makes a copy next; else `None`, and [`Bodies::forget`] serves.
    ///
    /// Condition: each of these messages has its body.
    pub fn lean(&self, queues: &Queues<A>) -> Result<Option<Bodies<A>>, AllocError>
        requires { AreHeld queues.now.messages self.now.items }
        ensures { IfOk result (λ lean. IfSome lean
            (λ bodies. bodies.items ≡ kept_bodies queues.now.messages self.now.items)) }
    {
        if queues.is_sparse() {
            return Ok(Some(self.kept(queues)?));
        }
        Ok(None)
    }

    /// The bodies of the messages that are finished leave. It takes no memory, and costs the same however many there
    /// are.
    ///
    /// Conditions: each message that isn't finished has its body; a number has a slot here if it has one among the
    /// queues.
    pub fn forget(&mut self, queues: &Queues<A>)
        requires held { AreHeld queues.now.messages self.old.items }
        requires as_many { length queues.now.messages ≡ length self.old.items }
        ensures { self.new.items ≡ kept_bodies queues.now.messages self.old.items }
    {
        self.there = Tag::of::<Queues<A>, Standing>(queues);
    }

    /// The bodies of those messages that aren't finished, under their numbers, with no room.
    ///
    /// Condition: each of these messages has its body.
    pub fn kept(&self, queues: &Queues<A>) -> Result<Bodies<A>, AllocError>
        requires { AreHeld queues.now.messages self.now.items }
        ensures { IfOk result (λ kept. kept.items ≡ kept_bodies queues.now.messages self.now.items) }
    {
        let first = self.numbers.given(self.ends.len());
        let alloc = *self.ends.allocator();
        let (older, ends, octets) = keep(alloc, &self.numbers, &self.ends, &self.octets, queues)?;
        Ok(Bodies {
            numbers: Numbers { older, first },
            ends,
            octets,
            there: Tag::empty(),
        })
    }
}

/// Those of the bodies whose messages aren't finished: their numbers, where each ends, and the octets.
fn keep<A: Allocator + Copy>(
    alloc: A,
    numbers: &Numbers<A>,
    ends: &[usize],
    octets: &[u8],
    queues: &Queues<A>,
) -> Result<(Vec<u64, A>, Vec<usize, A>, Vec<u8, A>), AllocError>
    requires slots { AreSlots numbers.now.older.items numbers.now.first (length ends.now) }
    requires all { AreAll 0 ends.now octets.now }
    ensures kept { IfOk result (λ kept. AreKept (λ number. is_unfinished (slot_at number queues.now.messages))
        (given_to numbers.now.older.items numbers.now.first (length ends.now))
        numbers.now.older.items numbers.now.first (bodies_in 0 ends.now octets.now)
        kept.0.items (bodies_in 0 kept.1.items kept.2.items)) }
    ensures all { IfOk result (λ kept. AreAll 0 kept.1.items kept.2.items) }
{
    let mut older = Vec::new(alloc);
    let mut kept_ends = Vec::new(alloc);
    let mut kept_octets = Vec::new(alloc);
    for place in 0..ends.len() {
        let number = numbers.number_at(ends.len(), place);
        if !queues.is_unfinished(number) {
            continue;
        }
        older.push(number)?;
        kept_octets.extend_from_slice(body_in(ends, octets, place))?;
        kept_ends.push(kept_octets.len())?;
    }
    Ok((older, kept_ends, kept_octets))
}

/// The body at this place.
#[tactic(auto, using(crate::proofs::Storing::found))]
fn body_in<'a>(ends: &[usize], octets: &'a [u8], place: usize) -> &'a [u8]
    requires all { AreAll 0 ends.now octets.now }
    requires within { place < length ends.now }
    ensures { slice_get (bodies_in 0 ends.now octets.now) place ≡ Some result.now }
{
    let start = start_of(ends, place);
    &octets[start..ends[place]]
}

/// Where the body at this place starts: where the one before it ends.
fn start_of(ends: &[usize], place: usize) -> usize
    requires { place < length ends.now }
    ensures { result ≡ slice_index (0 ∷ ends.now) place }
{
    if place == 0 {
        return 0;
    }
    ends[place - 1]
}
