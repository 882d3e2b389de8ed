//! What a set answers, where its caller has room for it.
ghost use Rattle.std.specs.Prelude.{◌≡◌, ◌≤◌, length};
ghost use Rattle.set_events.specs.Lent.{answer_in, body_in};

use super::answer::{Answer, Fate, Refusal, Report};
use super::lent::AnswerRef;
use arrayvec::ArrayVec;
use l2_units::{Header, LONGEST_BODY, UnitRef};
use std::marker::Model;

/// What a reply says, but for the octets of its body.
#[derive(Clone, Copy)]
pub(crate) enum Said {
    Accepted { number: u64 },
    Taken,
    Found { fate: Fate },
    FillIn { head: Header },
    Message { head: Header },
    Heard { report: Report },
    Done,
    Refused { why: Refusal },
}

/// The place of an answer, made once and used again: an [`Answer`] by value has room for 273 octets, which are cleared and
/// moved each time one is made. Here only the octets that there are move. Contracts see the answer.
///
/// Each input puts another answer in place of the one that stood there.
#[derive(Drop)]
pub struct Reply {
    said: Said,
    body: ArrayVec<u8, LONGEST_BODY>,
}

impl Model for Reply {
    ghost use Rattle.set_events.specs.declared.answer.Answer.{Answer};
    ghost use Rattle.set_events.specs.Lent.{said_with};

    ghost Value = { Answer };

    ghost view = { λ r. said_with r.said r.body };
}

impl Reply {
    ghost use Rattle.std.specs.Prelude.{◌≡◌, ◌≤◌, length};
    ghost use Rattle.l2_units.specs.declared.unit.Unit.TheVariants.{Fisu, Msu};

    /// A reply that says [`Answer::Done`].
    pub fn new() -> Reply
        ensures { result ≡ Answer.Done }
    {
        Reply {
            said: Said::Done,
            body: ArrayVec::new(),
        }
    }

    /// The offered message was accepted under this number.
    pub fn set_accepted(&mut self, number: u64)
        ensures { self.new ≡ Answer.Accepted number }
    {
        self.said = Said::Accepted { number };
    }

    /// The message that was taken. Condition: at most 273 octets.
    pub fn set_taken(&mut self, body: &[u8])
        requires { length body.now ≤ 273 }
        ensures { self.new ≡ Answer.Taken (record { items = body.now }) }
    {
        put(&mut self.body, body);
        self.said = Said::Taken;
    }

    /// Where the message stands.
    pub fn set_found(&mut self, fate: Fate)
        ensures { self.new ≡ Answer.Found fate }
    {
        self.said = Said::Found { fate };
    }

    /// A fill-in unit is to be sent next.
    pub fn set_fill_in(&mut self, head: Header)
        ensures { self.new ≡ Answer.Sent (Fisu head) }
    {
        self.said = Said::FillIn { head };
    }

    /// A message is to be sent next. Condition: at most 273 octets.
    pub fn set_message(&mut self, head: Header, body: &[u8])
        requires { length body.now ≤ 273 }
        ensures { self.new ≡ Answer.Sent (Msu head (record { items = body.now })) }
    {
        put(&mut self.body, body);
        self.said = Said::Message { head };
    }

    /// What the heard unit did.
    pub fn set_heard(&mut self, report: Report)
        ensures { self.new ≡ Answer.Heard report }
    {
        self.said = Said::Heard { report };
    }

    /// Done, with nothing to tell.
    pub fn set_done(&mut self)
        ensures { self.new ≡ Answer.Done }
    {
        self.said = Said::Done;
    }

    /// Refused.
    pub fn set_refused(&mut self, why: Refusal)
        ensures { self.new ≡ Answer.Refused why }
    {
        self.said = Said::Refused { why };
    }

    /// The answer, with its body left in it.
    pub fn get(&self) -> AnswerRef<'_>
        ensures value { answer_in result ≡ self.now }
        ensures few { length (body_in result) ≤ 273 }
    {
        let octets = self.body.as_slice();
        match self.said {
            Said::Accepted { number } => AnswerRef::Accepted { number },
            Said::Taken => AnswerRef::Taken { body: octets },
            Said::Found { fate } => AnswerRef::Found { fate },
            Said::FillIn { head } => AnswerRef::Sent {
                unit: UnitRef::Fisu { head },
            },
            Said::Message { head } => AnswerRef::Sent {
                unit: UnitRef::Msu { head, body: octets },
            },
            Said::Heard { report } => AnswerRef::Heard { report },
            Said::Done => AnswerRef::Done,
            Said::Refused { why } => AnswerRef::Refused { why },
        }
    }

    /// The answer by itself.
    pub fn answer(&self) -> Answer
        ensures { result ≡ self.now }
    {
        self.get().answer()
    }
}

/// These octets, in place of those that stood there.
fn put(body: &mut ArrayVec<u8, LONGEST_BODY>, octets: &[u8])
    requires { length octets.now ≤ 273 }
    ensures { body.new.items ≡ octets.now }
{
    body.clear();
    match body.try_extend_from_slice(octets) {
        Ok(()) => (),
        Err(_) => unreachable!(),
    }
}
