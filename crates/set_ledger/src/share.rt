//! What a seat has of the totals: plain numbers, and the tokens of the ledgers that say the same.
ghost use Rattle.std.specs.Prelude.{◌≡◌, ◌<◌, ◌≤◌, ◌+◌, ◌^◌, true, false};
ghost use Rattle.set_events.specs.Lent.{answer_in, event_in};
ghost use Rattle.set_ledger.specs.Seats.{Returns, ReturnsFull};
ghost use Rattle.set_model.specs.Step.{messages_in, octets_of};

use set_events::{AnswerRef, EventRef};
use std::sync::ledger::{Blank, Book, Ledger, Share};

/// What a seat's steps added to the totals of its set.
#[derive(Clone, Copy, Debug, PartialEq, Eq)]
pub struct SeatShare {
    /// How many steps it made.
    pub calls: u64,
    /// How many of its messages were accepted; a terminal's seat: 0.
    pub messages: u64,
    /// The octets of their bodies; a terminal's seat: 0.
    pub octets: u64,
    /// How many of the users' messages its steps acknowledged; a user's seat: 0.
    pub acknowledged: u64,
}

/// What the receipts that a seat forgot added up to.
#[derive(Clone, Copy, Debug, PartialEq, Eq)]
pub struct Forgotten {
    /// How many there were.
    pub calls: u64,
    /// How many of them accepted a message.
    pub messages: u64,
    /// The octets of those messages' bodies.
    pub octets: u64,
}

/// Nothing was forgotten yet.
pub(crate) const NOTHING_FORGOTTEN: Forgotten = Forgotten {
    calls: 0,
    messages: 0,
    octets: 0,
};

/// A blank for each ledger of a set that is to be opened, cut into as many parts as seats move it: calls, checkpoints, and what
/// tells of a full history, as many as there are users and links, messages and octets as many as users, acknowledgements as many
/// as links.
#[derive(Drop)]
pub struct Blanks {
    pub calls: Blank,
    pub messages: Blank,
    pub octets: Blank,
    pub acknowledged: Blank,
    pub full: Blank,
    pub checkpoints: Blank,
}

/// A seat's one part of a ledger, and the plain number that tells its amount.
#[derive(Drop)]
pub(crate) struct Stake<L: Ledger> {
    pub(crate) told: u64,
    share: Share<L>,
    ghost is_told: { (share.parts ≡ 1) × (share.amount ≡ told) },
}

impl<L: Ledger> Stake<L> {
    /// One of these parts, with no amount.
    pub(crate) fn cut(from: &mut Share<L>) -> Stake<L>
        requires { (0 < from.old.parts) × (from.old.amount ≡ 0) }
        ensures told { result.told ≡ 0 }
        ensures left { (from.new.amount ≡ 0) × (from.new.parts + 1 ≡ from.old.parts) }
    {
        Stake {
            told: 0,
            share: from.split_off(1, 0),
        }
    }

    /// The part gains so much, and the ledger's book with it.
    pub(crate) fn gain(&mut self, book: &mut Book<L>, more: u64)
        requires { book.old.total + more < 2 ^ 64 }
        ensures told { self.new.told ≡ self.old.told + more }
        ensures total { book.new.total ≡ book.old.total + more }
    {
        book.add(&mut self.share, more);
        book.audit(&mut self.share);
        self.told += more;
    }

    /// The part is one of the whole.
    pub(crate) fn audit(&mut self, book: &mut Book<L>)
        ensures same { (self.new.told ≡ self.old.told) × (book.new.total ≡ book.old.total) }
        ensures part { self.old.told ≤ book.old.total }
    {
        book.audit(&mut self.share);
    }

    /// The part goes back to these.
    pub(crate) fn give_back(self, to: &mut Share<L>)
        ensures { Returns to.old.parts to.old.amount self.told to.new.parts to.new.amount }
    {
        to.merge(self.share);
    }
}

/// A seat's one part of the ledger of a full history, and whether the seat was told that it's full.
#[derive(Drop)]
pub(crate) struct FullMark<L: Ledger> {
    pub(crate) told: bool,
    share: Share<L>,
    ghost is_told: { (share.parts ≡ 1) × (told ≡ true → 0 < share.amount) },
}

impl<L: Ledger> FullMark<L> {
    /// One of these parts, with no amount.
    pub(crate) fn cut(from: &mut Share<L>) -> FullMark<L>
        requires { (0 < from.old.parts) × (from.old.amount ≡ 0) }
        ensures told { result.told ≡ false }
        ensures left { (from.new.amount ≡ 0) × (from.new.parts + 1 ≡ from.old.parts) }
    {
        FullMark {
            told: false,
            share: from.split_off(1, 0),
        }
    }

    /// The history is full: the part has an amount, and the ledger's book with it.
    pub(crate) fn tell(&mut self, book: &mut Book<L>)
        ensures told { self.new.told ≡ true }
        ensures total { 0 < book.new.total }
    {
        book.add(&mut self.share, 1);
        self.told = true;
    }

    /// The part goes back to these.
    pub(crate) fn give_back(self, to: &mut Share<L>)
        ensures { ReturnsFull to.old.parts to.old.amount self.told to.new.parts to.new.amount }
    {
        to.merge(self.share);
    }
}

/// A seat's one part of the ledger of checkpoints: its amount is how many the seat took, which no plain number tells.
#[derive(Drop)]
pub(crate) struct Taken<L: Ledger> {
    pub(crate) share: Share<L>,
    ghost is_part: { share.parts ≡ 1 },
}

impl<L: Ledger> Taken<L> {
    /// One of these parts, with no amount.
    pub(crate) fn cut(from: &mut Share<L>) -> Taken<L>
        requires { (0 < from.old.parts) × (from.old.amount ≡ 0) }
        ensures none { result.share.amount ≡ 0 }
        ensures left { (from.new.amount ≡ 0) × (from.new.parts + 1 ≡ from.old.parts) }
    {
        Taken {
            share: from.split_off(1, 0),
        }
    }

    /// One checkpoint more, in the ledger's book too.
    pub(crate) fn take(&mut self, checkpoints: &mut Book<L>)
        ensures taken { self.new.share.amount ≡ self.old.share.amount + 1 }
        ensures total { checkpoints.new.total ≡ checkpoints.old.total + 1 }
    {
        checkpoints.add(&mut self.share, 1);
    }

    /// The part goes back to these.
    pub(crate) fn give_back(self, to: &mut Share<L>)
        ensures { Returns to.old.parts to.old.amount self.share.amount to.new.parts to.new.amount }
    {
        to.merge(self.share);
    }
}

/// How many messages this answer accepts: 1 or none.
pub(crate) fn count_messages(answer: &AnswerRef<'_>) -> u64
    ensures { result ≡ messages_in (answer_in answer.now) }
{
    match answer {
        AnswerRef::Accepted { .. } => 1,
        _ => 0,
    }
}

/// The octets of the body that this answer to this event accepts.
pub(crate) fn count_octets(event: &EventRef<'_>, answer: &AnswerRef<'_>) -> u64
    ensures { result ≡ octets_of (event_in event.now) (answer_in answer.now) }
{
    match (event, answer) {
        (EventRef::Offer { body }, AnswerRef::Accepted { .. }) => body.len() as u64,
        _ => 0,
    }
}
