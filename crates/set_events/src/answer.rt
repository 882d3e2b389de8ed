//! What a set answers.
ghost use Rattle.std.specs.Prelude.{◌≡◌, ◌↔◌, IsTrue};
ghost use Rattle.set_events.specs.Numbers.{refusal_number, cause_number};
ghost use Rattle.set_events.specs.declared.answer.Answer.TheVariants.{Refused};

use arrayvec::ArrayVec;
use l2_units::{ControlFault, Unit, same_unit};

/// Where a message stands: in exactly one of these places.
#[derive(Clone, Copy, Debug, PartialEq, Eq)]
pub enum Fate {
    /// To be sent on this link for the first time.
    Waiting { link: u8 },
    /// Sent on this link and not acknowledged.
    Unacked { link: u8 },
    /// Acknowledged on this link.
    Acked { link: u8 },
    /// Accepted for this link after it was left, before it's settled what the far end has.
    Held { link: u8 },
    /// No link can take it: it waits for one.
    Parked,
    /// Accepted while its stream is changing back to its home link by this changeback code, 0 to 255: it
    /// waits for the acknowledgement (Q.704 6.3).
    Back { code: u8 },
    /// Given up, for this cause. Whether the far end has it isn't known.
    Discarded { cause: DiscardCause },
}

/// Why messages of a link that failed were given up.
#[derive(Clone, Copy, Debug, PartialEq, Eq)]
pub enum DiscardCause {
    /// 1: sent, and by an emergency changeover the far end can't tell how far it got (Q.704 5.6).
    Emergency,
    /// 2: the far end told a number that can't be (own).
    Unreasonable,
    /// 3: the far end never answered the changeover (own).
    NoAnswer,
}

impl DiscardCause {
    /// The cause's number: 1 emergency, 2 unreasonable, 3 no answer.
    pub fn number(self) -> u8
        ensures { result ≡ cause_number self }
    {
        match self {
            DiscardCause::Emergency => 1,
            DiscardCause::Unreasonable => 2,
            DiscardCause::NoAnswer => 3,
        }
    }
}

/// What became of an accepted body that was heard.
#[derive(Clone, Copy, Debug, PartialEq, Eq)]
pub enum Took {
    /// The unit brought no accepted body.
    Nothing,
    /// A message for users.
    Message,
    /// An order of the signalling network management.
    Order,
    /// A body of the management that is no order known here.
    Ignored,
}

/// What a heard unit did.
#[derive(Clone, Copy, Debug, PartialEq, Eq)]
pub struct Report {
    /// How many messages it acknowledged, 0 to 127.
    pub acked: u16,
    /// What became of its body.
    pub took: Took,
    /// This end now asks for retransmission.
    pub asked: bool,
    /// The far end asks for retransmission.
    pub resend: bool,
    /// The fault that it showed, if any.
    pub fault: Option<ControlFault>,
}

/// Why an event was refused. It has no other effect than its entry.
///
/// An event that names a link answers 10 before anything else; for an offer the order is 1 to 4.
#[derive(Clone, Copy, Debug, PartialEq, Eq)]
pub enum Refusal {
    /// 1: a body of fewer than 5 octets, the SIO and the label (own).
    TooShort,
    /// 2: a body of more than 273 octets.
    TooLong,
    /// 3: service indicator 0, which is the management's.
    Reserved,
    /// 4: 1,024 messages of the stream are still unsent.
    StreamFull,
    /// 5: the link isn't up.
    NotUp,
    /// 6: the link is up.
    NotDown,
    /// 7: the link was left, and it isn't settled yet what the far end has of its messages.
    Unsettled,
    /// 8: no message has this number.
    UnknownNumber,
    /// 9: there is nothing to take, or nothing to do: a link status signal unit was heard while the
    /// link is up, the link waits for no answer (it wasn't left, or has settled), no stream can be
    /// asked back to it, or no changeback code of it is in use.
    Nothing,
    /// 10: the set has no such link.
    NoSuchLink,
    /// 11: the message of this number was finished when a checkpoint was taken, and has no row since.
    Finished,
}

impl Refusal {
    /// The refusal's number, 1 to 11, as beside each case.
    pub fn number(self) -> u8
        ensures { result ≡ refusal_number self }
    {
        match self {
            Refusal::TooShort => 1,
            Refusal::TooLong => 2,
            Refusal::Reserved => 3,
            Refusal::StreamFull => 4,
            Refusal::NotUp => 5,
            Refusal::NotDown => 6,
            Refusal::Unsettled => 7,
            Refusal::UnknownNumber => 8,
            Refusal::Nothing => 9,
            Refusal::NoSuchLink => 10,
            Refusal::Finished => 11,
        }
    }
}

/// What a set answers to an event.
#[derive(Clone, Debug, Drop, PartialEq, Eq)]
pub enum Answer {
    /// The offered message was accepted under this number.
    Accepted { number: u64 },
    /// The message that was taken: SIO and SIF, as it was heard.
    Taken { body: ArrayVec<u8, 273> },
    /// Where the message stands.
    Found { fate: Fate },
    /// The next unit to send.
    Sent { unit: Unit },
    /// What the heard unit did.
    Heard { report: Report },
    /// Done, with nothing to tell.
    Done,
    /// Refused.
    Refused { why: Refusal },
}

impl From<Refusal> for Answer {
    ghost from_gives = { λ why answer. answer ≡ Refused why };

    fn from(why: Refusal) -> Answer {
        Answer::Refused { why }
    }
}

impl Answer {
    /// An equal answer. It takes no memory.
    pub fn copy(&self) -> Answer
        ensures { result ≡ self.now }
    {
        match self.clone() {
            Ok(copy) => copy,
            Err(_) => unreachable!(),
        }
    }

    /// Whether both answers are the same.
    pub fn same(&self, other: &Answer) -> bool
        ensures { IsTrue result ↔ (self.now ≡ other.now) }
    {
        match (self, other) {
            (Answer::Accepted { number: a }, Answer::Accepted { number: b }) => *a == *b,
            (Answer::Taken { body: a }, Answer::Taken { body: b }) => a.as_slice() == b.as_slice(),
            (Answer::Found { fate: a }, Answer::Found { fate: b }) => *a == *b,
            (Answer::Sent { unit: a }, Answer::Sent { unit: b }) => same_unit(a, b),
            (Answer::Heard { report: a }, Answer::Heard { report: b }) => *a == *b,
            (Answer::Done, Answer::Done) => true,
            (Answer::Refused { why: a }, Answer::Refused { why: b }) => *a == *b,
            _ => false,
        }
    }
}

/// How many of the users' messages stand in each place, over all links: a number for each [`Fate`].
#[derive(Clone, Copy, Debug, PartialEq, Eq)]
pub struct Counts {
    pub waiting: u64,
    pub unacked: u64,
    pub acked: u64,
    pub held: u64,
    pub parked: u64,
    /// Those that wait for the acknowledgement of a changeback.
    pub back: u64,
    pub discarded: u64,
}
