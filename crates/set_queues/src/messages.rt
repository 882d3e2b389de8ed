//! Where each message stands, with the counts of all of them, and what is done with the first of a queue.
ghost use Rattle.std.specs.Prelude.{◌≡◌, ◌*◌, ◌≤◌, ◌<◌, ◌+◌, ◌-◌, ◌/◌, ◌^◌, ◌++◌, ◌∷◌, ◌==◌, ◌||◌, [], false, true, nat_lt, Some, IfOk, OnOk, length, sum_by, take};
ghost use Rattle.set_queues.specs.Messages.{restood, restood_one, slot_at, counts_of, unsent_of, octets_on, finished_in, unfinished, is_order_at, IsFit};
ghost use Rattle.set_queues.specs.Buffers.{IsKnown, IsQueued, CanTake, KeepsRoom, TakesRoom, queue_at, with_queue, same_fate};
ghost use Rattle.set_queues.specs.Queues.{KeepsSent, orders_in, others_in, without};
ghost use Rattle.set_queues.specs.Slots.{AreSlots, AreKept, item_at, given_to};
ghost use Rattle.set_queues.specs.Stored.{AreStanding, shown_in, stays_on};

use super::buffers::Buffers;
use super::message::{Kind, Message, Stored};
use super::slots::Numbers;
use super::tally::{Tally, enter, forget_finished, is_standing, leave};
use l2_window::Window;
use set_events::{Counts, Fate, Finished};
use std::alloc::{AllocError, Allocator};
use std::marker::Model;

/// The messages of a set by their numbers, and how many of the users' stand in each place.
///
/// Contracts see a slot for each number that was given out, and the room; the slot of one that was forgotten is empty.
/// A number that is kept takes 8 octets, and 8 more once it outlived a copy ([`Messages::kept`]).
#[derive(Drop)]
pub(crate) struct Messages<A: Allocator> {
    numbers: Numbers<A>,
    all: Vec<Stored, A>,
    tally: Tally,
    /// How often what is finished was forgotten since the last copy.
    period: u16,
    /// How many of those that are kept were forgotten.
    forgotten: u64,
}

impl<A: Allocator> Model for Messages<A> {
    ghost use Rattle.std.specs.Prelude.{◌≡◌, ◌≤◌, ◌-◌, length, min, vec_len, vec_capacity};
    ghost use Rattle.set_queues.specs.Messages.{MessagesState, IsTally};
    ghost use Rattle.set_queues.specs.Slots.{AreSlots, room_for};
    ghost use Rattle.set_queues.specs.Stored.{AreBefore, seen_in};

    ghost Value = { MessagesState };

    ghost view = { λ m. record {
      items = seen_in m.period m.numbers.older.items m.numbers.first m.all.items;
      room = min (vec_capacity m.all - vec_len m.all)
          (room_for m.numbers.older.items m.numbers.first (length m.all.items));
    } };

    ghost invariant = { λ m. (AreSlots m.numbers.older.items m.numbers.first (length m.all.items))
        × (IsTally m.tally (seen_in m.period m.numbers.older.items m.numbers.first m.all.items))
        × (AreBefore m.period m.all.items) };
}

impl<A: Allocator + Copy> Messages<A> {
    /// No message, and no room.
    pub(crate) fn new(alloc: A) -> Messages<A>
        ensures { result.items ≡ [] }
    {
        Messages {
            numbers: Numbers::new(alloc),
            all: Vec::new(alloc),
            tally: Tally {
                counts: [0; 9],
                unsent: [0; 16],
                octets: [0; 16],
                orders: 0,
            },
            period: 0,
            forgotten: 0,
        }
    }

    /// How many numbers were given out.
    pub(crate) fn given(&self) -> u64
        ensures value { result ≡ length self.now.items }
        ensures few { result < 2 ^ 63 }
    {
        self.numbers.given(self.all.len())
    }

    /// The message of this number, if it has one.
    pub(crate) fn at(&self, number: u64) -> Option<Message>
        ensures { result ≡ slot_at number self.now.items }
    {
        let place = self.numbers.place(self.all.len(), number)?;
        shown(self.all[place], self.period)
    }

    /// How many of the users' messages stand in each place.
    pub(crate) fn counts(&self) -> Counts
        ensures { result ≡ counts_of self.now.items }
    {
        // each message is counted once
        self.given();
        let [
            waiting,
            unacked,
            acked,
            held,
            parked,
            back,
            emergency,
            unreasonable,
            no_answer,
        ] = self.tally.counts;
        Counts {
            waiting,
            unacked,
            acked,
            held,
            parked,
            back,
            discarded: emergency + unreasonable + no_answer,
        }
    }

    /// How many messages are finished: the users' by how they ended, and orders.
    pub(crate) fn finished(&self) -> Finished
        ensures { result ≡ finished_in self.now.items }
    {
        let [_, _, acked, _, _, _, emergency, unreasonable, no_answer] = self.tally.counts;
        Finished {
            acked,
            emergency,
            unreasonable,
            no_answer,
            orders: self.tally.orders,
        }
    }

    /// How many of the users' messages of this stream aren't sent yet.
    pub(crate) fn unsent(&self, stream: u8) -> u64
        requires { stream < 16 }
        ensures { result ≡ unsent_of stream self.now.items }
    {
        self.tally.unsent[usize::from(stream)]
    }

    /// The octets of the unacknowledged bodies of the link.
    pub(crate) fn octets(&self, link: u8) -> u128
        requires { link < 16 }
        ensures { result ≡ sum_by (octets_on link) self.now.items }
    {
        self.tally.octets[usize::from(link)]
    }

    /// Whether there is a message of this number, and it's an order.
    pub(crate) fn is_order(&self, number: u64) -> bool
        ensures { result ≡ is_order_at self.now.items number }
    {
        self.at(number)
            .is_some_and(|message| message.kind == Kind::Order)
    }

    /// Makes room for so many more; it fails only where memory is wanted, or a number past 2^63 - 1.
    pub(crate) fn reserve(&mut self, messages: usize) -> Result<(), AllocError>
        ensures room { OnOk result (messages ≤ self.new.room) }
        ensures same { self.new.items ≡ self.old.items }
        ensures kept { self.old.room ≤ self.new.room }
    {
        self.numbers.reserve(self.all.len(), messages)?;
        self.all.reserve(messages)
    }

    /// A further message, under the next number.
    pub(crate) fn push(&mut self, message: Message)
        requires fit { IsFit message }
        requires room { 0 < self.old.room }
        ensures items { self.new.items ≡ self.old.items ++ Some message ∷ [] }
        ensures room { self.old.room ≤ self.new.room + 1 }
    {
        enter(&mut self.tally, message);
        let period = self.period;
        self.all.push_reserved(Stored { message, period });
    }

    /// The message of this number, if it has one, stands there from now on.
    pub(crate) fn restand(&mut self, number: u64, fate: Fate)
        ensures items { self.new.items ≡ restood_one number fate self.old.items }
        ensures room { self.new.room ≡ self.old.room }
    {
        let Some(place) = self.numbers.place(self.all.len(), number) else {
            return;
        };
        let Some(was) = shown(self.all[place], self.period) else {
            return;
        };
        let now = Message { fate, ..was };
        leave(&mut self.tally, was);
        enter(&mut self.tally, now);
        self.all[place] = Stored {
            message: now,
            period: self.period,
        };
    }

    /// The same messages, with no room.
    pub(crate) fn copied(&self) -> Result<Messages<A>, AllocError>
        ensures { IfOk result (λ copy. copy.items ≡ self.now.items) }
    {
        Ok(Messages {
            numbers: self.numbers.copied()?,
            all: Vec::from_slice(*self.all.allocator(), &self.all)?,
            tally: self.tally,
            period: self.period,
            forgotten: self.forgotten,
        })
    }

    /// Whether a copy without what is finished is better than to forget it where it stands.
    pub(crate) fn is_sparse(&self) -> bool {
        let forgotten = self.forgotten.saturating_add(all_of(self.finished()));
        is_sparse(self.period, forgotten, self.all.len())
    }

    /// Forgets the messages that are finished where they stand, if a copy isn't better: whether it did. It costs the
    /// same however many there are.
    pub(crate) fn forget(&mut self) -> bool
        ensures items { result ≡ true → self.new.items ≡ unfinished self.old.items }
        ensures same { result ≡ false → self.new ≡ self.old }
    {
        let forgotten = self.forgotten.saturating_add(all_of(self.finished()));
        if is_sparse(self.period, forgotten, self.all.len()) {
            return false;
        }
        self.period += 1;
        self.forgotten = forgotten;
        self.tally = forget_finished(&self.tally);
        true
    }

    /// Those of the messages that aren't finished, under their numbers, with no room.
    pub(crate) fn kept(&self) -> Result<Messages<A>, AllocError>
        ensures { IfOk result (λ kept. kept.items ≡ unfinished self.now.items) }
    {
        let first = self.given();
        let (older, all) = keep(*self.all.allocator(), &self.numbers, &self.all)?;
        Ok(Messages {
            numbers: Numbers { older, first },
            all,
            tally: forget_finished(&self.tally),
            period: 0,
            forgotten: 0,
        })
    }
}

/// The message, if it isn't forgotten in this period.
fn shown(stored: Stored, period: u16) -> Option<Message>
    ensures { result ≡ shown_in period (Some stored) }
{
    if is_standing(stored.message.fate) || stored.period == period {
        return Some(stored.message);
    }
    None
}

/// Whether a copy is better: where this period is the last one, or more than half of so many messages were forgotten.
fn is_sparse(period: u16, forgotten: u64, messages: usize) -> bool
    ensures { result ≡ ((period == 65535) || nat_lt (messages / 2) forgotten) }
{
    period == u16::MAX || forgotten > messages as u64 / 2
}

/// How many messages are finished in all.
fn all_of(finished: Finished) -> u64 {
    let given_up = finished
        .emergency
        .saturating_add(finished.unreasonable)
        .saturating_add(finished.no_answer);
    finished
        .acked
        .saturating_add(given_up)
        .saturating_add(finished.orders)
}

/// Those of the messages that aren't finished, and their numbers.
fn keep<A: Allocator + Copy>(
    alloc: A,
    numbers: &Numbers<A>,
    all: &[Stored],
) -> Result<(Vec<u64, A>, Vec<Stored, A>), AllocError>
    requires { AreSlots numbers.now.older.items numbers.now.first (length all.now) }
    ensures kept { IfOk result (λ kept. AreKept
        (λ number. stays_on (item_at number numbers.now.older.items numbers.now.first all.now))
        (given_to numbers.now.older.items numbers.now.first (length all.now))
        numbers.now.older.items numbers.now.first all.now kept.0.items kept.1.items) }
    ensures standing { IfOk result (λ kept. AreStanding kept.1.items) }
{
    let mut older = Vec::new(alloc);
    let mut kept = Vec::new(alloc);
    for place in 0..all.len() {
        let stored = all[place];
        if !is_standing(stored.message.fate) {
            continue;
        }
        older.push(numbers.number_at(all.len(), place))?;
        kept.push(stored)?;
    }
    Ok((older, kept))
}

/// The first `count` that stand in one queue have another fate from now on, and stand last there too, in
/// their order, if it isn't final.
#[tactic(auto, using(crate::proofs::Standing::passing))]
pub(crate) fn pass<A: Allocator + Copy>(
    buffers: &mut Buffers<A>,
    messages: &mut Messages<A>,
    from: Fate,
    count: usize,
    to: Fate,
)
    requires known { IsKnown from buffers.old.lists }
    requires other { IsKnown to buffers.old.lists }
    requires few { count ≤ length (queue_at from buffers.old.lists) }
    requires apart { same_fate to from ≡ false }
    requires room { CanTake to count buffers.old.rooms }
    ensures lists { buffers.new.lists ≡ with_queue to (queue_at to buffers.old.lists
        ++ take count (queue_at from buffers.old.lists)) buffers.old.lists }
    ensures messages { messages.new.items ≡ restood (take count
        (queue_at from buffers.old.lists)) to messages.old.items }
    ensures rooms { TakesRoom to count buffers.old.rooms buffers.new.rooms }
    ensures room { messages.new.room ≡ messages.old.room }
{
    for place in 0..count {
        let number = buffers.at(from, place).unwrap();
        messages.restand(number, to);
        buffers.push(to, number);
    }
}

/// Of so many messages that stand in a queue the one of this number leaves it, and the others stay in their order.
/// Condition: messages come to stand there otherwise than by being sent.
#[tactic(auto, using(crate::proofs::Standing::passing))]
pub(crate) fn omit<A: Allocator + Copy>(
    buffers: &mut Buffers<A>,
    from: Fate,
    count: usize,
    number: u64,
)
    requires known { IsKnown from buffers.old.lists }
    requires queued { IsQueued from }
    requires all { count ≡ length (queue_at from buffers.old.lists) }
    ensures lists { buffers.new.lists ≡ with_queue from (without number (queue_at from buffers.old.lists)) buffers.old.lists }
    ensures rooms { KeepsRoom buffers.old.rooms buffers.new.rooms }
{
    for _ in 0..count {
        let first = buffers.pop(from).unwrap();
        if first != number {
            buffers.push(from, first);
        }
    }
}

/// Of the messages that wait in the window the orders have another fate from now on, a final one, and the others wait on
/// in their order.
pub(crate) fn sift<A: Allocator + Copy>(
    window: &mut Window<A>,
    messages: &mut Messages<A>,
    gone: Fate,
)
    ensures unsent { window.new.unsent ≡ others_in messages.old.items window.old.unsent }
    ensures same { KeepsSent window.old window.new }
    ensures messages { messages.new.items ≡ restood (orders_in messages.old.items window.old.unsent)
        gone messages.old.items }
    ensures room { messages.new.room ≡ messages.old.room }
{
    for _ in 0..window.unsent_len() {
        let number = window.withdraw().unwrap();
        if messages.is_order(number) {
            messages.restand(number, gone);
        } else {
            window.push(number).unwrap();
        }
    }
}
