//! What the users and the terminals of a set are to do.
ghost use Rattle.std.specs.Prelude.{◌<◌, ◌≤◌, ◌^◌};

use link_term::Timers;

/// What a user does, as calls of its seat at the set.
#[derive(Drop)]
pub enum Job {
    /// The user offers a message of each of these bodies, in this order, and finds each one that was accepted,
    /// before it offers the next.
    Offer {
        /// The octets of the messages: SIO and SIF (Q.703 2.3.8).
        bodies: Vec<Vec<u8>>,
    },
    /// The user takes messages that were heard.
    Take {
        /// How often it asks; it's no matter that there is none.
        times: u32,
    },
    /// The user takes messages that were heard, and keeps them.
    Collect {
        /// How often it asks; it's no matter that there is none.
        times: u32,
    },
}

/// That the links of sets are managed while they run.
#[derive(Clone, Copy, Debug, PartialEq, Eq)]
pub struct Managed {
    /// How many links each set has, at least 1: the home of a stream is the link of its number modulo that (own).
    pub links: u8,
    pub ghost some_links: { 0 < links },
}

/// What all terminals do.
#[derive(Clone, Copy, Debug, PartialEq, Eq)]
pub struct Plan {
    /// The lengths of their timers, in octet times.
    pub timers: Timers,
    /// How many turns each one takes, in octet times; at most 2^32.
    pub turns: u64,
    /// The link whose terminal, in each set, is told Stop before turn `turns / 2`, where turns count from 0.
    pub fail: Option<u8>,
    /// After how many of its accepted offers a user takes a checkpoint of its set, and after how many of its calls one
    /// that takes messages does; 0 is after each body or call. Where it's refused memory the next one makes up for it.
    /// No contract says when one is taken, since it's no entry: tests do. A terminal takes one too, after 64 times as many
    /// of its steps (of 1 for 0), so that a set whose users are slow or make no calls keeps no more.
    pub checkpoint: Option<u16>,
    /// The links are managed and users are held up by the gate ([`LinkManager`](super::LinkManager)), which tells
    /// terminals what to do and when they have taken turns enough; `turns` are the most then, and `fail` is no matter. What
    /// level 3 asks of a set when time has passed is asked ([`SeatDoor`](super::SeatDoor)).
    pub managed: Option<Managed>,
    /// The octets that terminals put into their lines are kept.
    pub keeps: bool,
    pub ghost few_turns: { turns ≤ 2 ^ 32 },
}

/// How many of its steps a terminal makes where a user takes one message more, between checkpoints.
const STEPS: u64 = 64;

impl Plan {
    ghost use Rattle.std.specs.Prelude.{◌≡◌};
    ghost use Rattle.bank_crew.specs.Shifts.{stop_of};

    /// How many turns are left when the terminal of this link is told Stop, if it's the one that is to fail.
    pub(crate) fn stop_of(&self, link: u8) -> Option<u64>
        ensures { result ≡ stop_of self.now link }
    {
        match self.managed {
            None if self.fail == Some(link) => Some(self.turns - self.turns / 2),
            _ => None,
        }
    }

    /// After how many of its steps a terminal takes a checkpoint of its set.
    pub(crate) fn steps_between(&self) -> Option<u64> {
        self.checkpoint
            .map(|every| u64::from(every).max(1).saturating_mul(STEPS))
    }
}
