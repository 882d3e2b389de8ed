//! Who asks something of a set, and what.
ghost use Rattle.std.specs.Prelude.{◌≡◌, ◌↔◌, IfOk, IsTrue};

use super::body::Body;
use l2_units::{Unit, copy_of_unit, same_unit};
use std::alloc::AllocError;

/// Who made an entry of the history.
#[derive(Clone, Copy, Debug, PartialEq, Eq)]
pub enum Actor {
    /// A user of the set, 0 to 63.
    User(u16),
    /// The terminal of a link, 0 to 15.
    Terminal(u8),
}

impl Actor {
    /// Whether both are the same user or the same terminal.
    pub fn same(self, other: Actor) -> bool
        ensures { IsTrue result ↔ (self ≡ other) }
    {
        self == other
    }
}

/// What is asked of a set.
#[derive(Debug, Drop)]
pub enum Event {
    /// A user offers a message.
    Offer { body: Body },
    /// A user takes the oldest message that was heard for users.
    Take,
    /// A user asks where the message of this number stands.
    Find { number: u64 },
    /// A link's terminal asks for the next unit to send.
    Next { link: u8 },
    /// A link's terminal heard this unit.
    Heard { link: u8, unit: Unit },
    /// A link's terminal tells that the link is aligned and in service.
    Up { link: u8 },
    /// A link's terminal tells that the link failed; the FSN that it accepted last is known.
    Down { link: u8 },
    /// A link's terminal tells that the link failed, and that no FSN can be told to the far end.
    DownBlind { link: u8 },
    /// The far end didn't answer the changeover of this link.
    NoAnswer { link: u8 },
    /// The changeover of this link is controlled by time, since its order never was sent (Q.704 5.6.2).
    Timed { link: u8 },
    /// The streams whose home this link is are to come back to it (Q.704 6).
    Restore { link: u8 },
    /// The declarations of this home that are on their way no more are made once more (Q.704 6.3).
    Redeclare { link: u8 },
    /// The far end didn't acknowledge the changeback to this link (own).
    BackTimeout { link: u8 },
    /// A link test of this link is to begin (Q.707 2.2).
    Test { link: u8 },
}

impl Event {
    /// An equal event; it fails only where memory is wanted.
    pub fn try_copy(&self) -> Result<Event, AllocError>
        ensures { IfOk result (λ copy. copy ≡ self.now) }
    {
        match self {
            Event::Offer { body } => Ok(Event::Offer {
                body: body.try_copy()?,
            }),
            Event::Take => Ok(Event::Take),
            Event::Find { number } => Ok(Event::Find { number: *number }),
            Event::Next { link } => Ok(Event::Next { link: *link }),
            Event::Heard { link, unit } => Ok(Event::Heard {
                link: *link,
                unit: copy_of_unit(unit),
            }),
            Event::Up { link } => Ok(Event::Up { link: *link }),
            Event::Down { link } => Ok(Event::Down { link: *link }),
            Event::DownBlind { link } => Ok(Event::DownBlind { link: *link }),
            Event::NoAnswer { link } => Ok(Event::NoAnswer { link: *link }),
            Event::Timed { link } => Ok(Event::Timed { link: *link }),
            Event::Restore { link } => Ok(Event::Restore { link: *link }),
            Event::Redeclare { link } => Ok(Event::Redeclare { link: *link }),
            Event::BackTimeout { link } => Ok(Event::BackTimeout { link: *link }),
            Event::Test { link } => Ok(Event::Test { link: *link }),
        }
    }

    /// Whether both events are the same.
    pub fn same(&self, other: &Event) -> bool
        ensures { IsTrue result ↔ (self.now ≡ other.now) }
    {
        match (self, other) {
            (Event::Offer { body: a }, Event::Offer { body: b }) => a.same(b),
            (Event::Take, Event::Take) => true,
            (Event::Find { number: a }, Event::Find { number: b }) => *a == *b,
            (Event::Next { link: a }, Event::Next { link: b }) => *a == *b,
            (Event::Heard { link: a, unit: u }, Event::Heard { link: b, unit: v }) => {
                *a == *b && same_unit(u, v)
            }
            (Event::Up { link: a }, Event::Up { link: b }) => *a == *b,
            (Event::Down { link: a }, Event::Down { link: b }) => *a == *b,
            (Event::DownBlind { link: a }, Event::DownBlind { link: b }) => *a == *b,
            (Event::NoAnswer { link: a }, Event::NoAnswer { link: b }) => *a == *b,
            (Event::Timed { link: a }, Event::Timed { link: b }) => *a == *b,
            (Event::Restore { link: a }, Event::Restore { link: b }) => *a == *b,
            (Event::Redeclare { link: a }, Event::Redeclare { link: b }) => *a == *b,
            (Event::BackTimeout { link: a }, Event::BackTimeout { link: b }) => *a == *b,
            (Event::Test { link: a }, Event::Test { link: b }) => *a == *b,
            _ => false,
        }
    }
}
