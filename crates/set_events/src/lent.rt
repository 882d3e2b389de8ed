//! Events and answers whose body stays where it stands: by value each has room for a unit of 273 octets, which are
//! cleared and moved with it.
ghost use Rattle.std.specs.Prelude.{◌≡◌, ◌↔◌, ◌≤◌, IfOk, IsTrue, length};
ghost use Rattle.l2_units.specs.Lent.{body_in as unit_body};
ghost use Rattle.set_events.specs.Lent.{HasFitUnit, answer_in, body_in, event_in, octets_in};

use super::answer::{Answer, Fate, Refusal, Report};
use super::body::Body;
use super::event::Event;
use l2_units::{UnitRef, body_of};
use std::alloc::{AllocError, Global};

/// An [`Event`] but for its body, which stays where it stands.
#[derive(Clone, Copy)]
pub enum EventRef<'a> {
    Offer { body: &'a [u8] },
    Take,
    Find { number: u64 },
    Next { link: u8 },
    Heard { link: u8, unit: UnitRef<'a> },
    Up { link: u8 },
    Down { link: u8 },
    DownBlind { link: u8 },
    NoAnswer { link: u8 },
    Timed { link: u8 },
    Restore { link: u8 },
    Redeclare { link: u8 },
    BackTimeout { link: u8 },
    Test { link: u8 },
}

impl<'a> EventRef<'a> {
    /// The event, with its body left in it.
    pub fn of(event: &'a Event) -> EventRef<'a>
        ensures value { event_in result ≡ event.now }
        ensures fits { HasFitUnit result }
    {
        match event {
            Event::Offer { body } => EventRef::Offer {
                body: body.octets(),
            },
            Event::Take => EventRef::Take,
            Event::Find { number } => EventRef::Find { number: *number },
            Event::Next { link } => EventRef::Next { link: *link },
            Event::Heard { link, unit } => EventRef::Heard {
                link: *link,
                unit: UnitRef::of(unit),
            },
            Event::Up { link } => EventRef::Up { link: *link },
            Event::Down { link } => EventRef::Down { link: *link },
            Event::DownBlind { link } => EventRef::DownBlind { link: *link },
            Event::NoAnswer { link } => EventRef::NoAnswer { link: *link },
            Event::Timed { link } => EventRef::Timed { link: *link },
            Event::Restore { link } => EventRef::Restore { link: *link },
            Event::Redeclare { link } => EventRef::Redeclare { link: *link },
            Event::BackTimeout { link } => EventRef::BackTimeout { link: *link },
            Event::Test { link } => EventRef::Test { link: *link },
        }
    }

    /// The event by itself; it fails only where memory is wanted. Condition: a heard unit has a body of at most 273
    /// octets.
    pub fn event(&self, alloc: Global) -> Result<Event, AllocError>
        requires { HasFitUnit self.now }
        ensures { IfOk result (λ event. event ≡ event_in self.now) }
    {
        match self {
            EventRef::Offer { body } => Ok(Event::Offer {
                body: Body::from_slice(alloc, body)?,
            }),
            EventRef::Take => Ok(Event::Take),
            EventRef::Find { number } => Ok(Event::Find { number: *number }),
            EventRef::Next { link } => Ok(Event::Next { link: *link }),
            EventRef::Heard { link, unit } => Ok(Event::Heard {
                link: *link,
                unit: unit.unit(),
            }),
            EventRef::Up { link } => Ok(Event::Up { link: *link }),
            EventRef::Down { link } => Ok(Event::Down { link: *link }),
            EventRef::DownBlind { link } => Ok(Event::DownBlind { link: *link }),
            EventRef::NoAnswer { link } => Ok(Event::NoAnswer { link: *link }),
            EventRef::Timed { link } => Ok(Event::Timed { link: *link }),
            EventRef::Restore { link } => Ok(Event::Restore { link: *link }),
            EventRef::Redeclare { link } => Ok(Event::Redeclare { link: *link }),
            EventRef::BackTimeout { link } => Ok(Event::BackTimeout { link: *link }),
            EventRef::Test { link } => Ok(Event::Test { link: *link }),
        }
    }

    /// The octets of the body that is offered, or that the heard unit brings; another event has none.
    pub fn body(&self) -> &'a [u8]
        ensures { result.now ≡ octets_in self.now }
    {
        match self {
            EventRef::Offer { body } => body,
            EventRef::Heard { unit, .. } => unit.body(),
            _ => &[],
        }
    }

    /// Whether both are the same event, octet by octet.
    pub fn same(&self, other: &EventRef<'_>) -> bool
        ensures { IsTrue result ↔ (event_in self.now ≡ event_in other.now) }
    {
        match (self, other) {
            (EventRef::Offer { body: a }, EventRef::Offer { body: b }) => *a == *b,
            (EventRef::Take, EventRef::Take) => true,
            (EventRef::Find { number: a }, EventRef::Find { number: b }) => *a == *b,
            (EventRef::Next { link: a }, EventRef::Next { link: b }) => *a == *b,
            (EventRef::Heard { link: a, unit: u }, EventRef::Heard { link: b, unit: v }) => {
                *a == *b && u.same(v)
            }
            (EventRef::Up { link: a }, EventRef::Up { link: b }) => *a == *b,
            (EventRef::Down { link: a }, EventRef::Down { link: b }) => *a == *b,
            (EventRef::DownBlind { link: a }, EventRef::DownBlind { link: b }) => *a == *b,
            (EventRef::NoAnswer { link: a }, EventRef::NoAnswer { link: b }) => *a == *b,
            (EventRef::Timed { link: a }, EventRef::Timed { link: b }) => *a == *b,
            (EventRef::Restore { link: a }, EventRef::Restore { link: b }) => *a == *b,
            (EventRef::Redeclare { link: a }, EventRef::Redeclare { link: b }) => *a == *b,
            (EventRef::BackTimeout { link: a }, EventRef::BackTimeout { link: b }) => *a == *b,
            (EventRef::Test { link: a }, EventRef::Test { link: b }) => *a == *b,
            _ => false,
        }
    }
}

/// An [`Answer`] but for its body, which stays where it stands.
#[derive(Clone, Copy)]
pub enum AnswerRef<'a> {
    Accepted { number: u64 },
    Taken { body: &'a [u8] },
    Found { fate: Fate },
    Sent { unit: UnitRef<'a> },
    Heard { report: Report },
    Done,
    Refused { why: Refusal },
}

impl<'a> AnswerRef<'a> {
    /// The answer, with its body left in it.
    pub fn of(answer: &'a Answer) -> AnswerRef<'a>
        ensures value { answer_in result ≡ answer.now }
        ensures few { length (body_in result) ≤ 273 }
    {
        match answer {
            Answer::Accepted { number } => AnswerRef::Accepted { number: *number },
            Answer::Taken { body } => AnswerRef::Taken {
                body: body.as_slice(),
            },
            Answer::Found { fate } => AnswerRef::Found { fate: *fate },
            Answer::Sent { unit } => AnswerRef::Sent {
                unit: UnitRef::of(unit),
            },
            Answer::Heard { report } => AnswerRef::Heard { report: *report },
            Answer::Done => AnswerRef::Done,
            Answer::Refused { why } => AnswerRef::Refused { why: *why },
        }
    }

    /// The answer by itself. Condition: a body of at most 273 octets.
    pub fn answer(&self) -> Answer
        requires { length (body_in self.now) ≤ 273 }
        ensures { result ≡ answer_in self.now }
    {
        match self {
            AnswerRef::Accepted { number } => Answer::Accepted { number: *number },
            AnswerRef::Taken { body } => Answer::Taken {
                body: body_of(body),
            },
            AnswerRef::Found { fate } => Answer::Found { fate: *fate },
            AnswerRef::Sent { unit } => Answer::Sent { unit: unit.unit() },
            AnswerRef::Heard { report } => Answer::Heard { report: *report },
            AnswerRef::Done => Answer::Done,
            AnswerRef::Refused { why } => Answer::Refused { why: *why },
        }
    }

    /// The octets of the body that was taken, or that the unit brings; another answer has none.
    pub fn body(&self) -> &'a [u8]
        ensures { result.now ≡ body_in self.now }
    {
        match self {
            AnswerRef::Taken { body } => body,
            AnswerRef::Sent { unit } => unit.body(),
            _ => &[],
        }
    }

    /// Whether both are the same answer, octet by octet.
    pub fn same(&self, other: &AnswerRef<'_>) -> bool
        ensures { IsTrue result ↔ (answer_in self.now ≡ answer_in other.now) }
    {
        match (self, other) {
            (AnswerRef::Accepted { number: a }, AnswerRef::Accepted { number: b }) => *a == *b,
            (AnswerRef::Taken { body: a }, AnswerRef::Taken { body: b }) => *a == *b,
            (AnswerRef::Found { fate: a }, AnswerRef::Found { fate: b }) => *a == *b,
            (AnswerRef::Sent { unit: a }, AnswerRef::Sent { unit: b }) => a.same(b),
            (AnswerRef::Heard { report: a }, AnswerRef::Heard { report: b }) => *a == *b,
            (AnswerRef::Done, AnswerRef::Done) => true,
            (AnswerRef::Refused { why: a }, AnswerRef::Refused { why: b }) => *a == *b,
            _ => false,
        }
    }
}
