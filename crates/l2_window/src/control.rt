//! What the error controls of Q.703 5 and 6 answer.
ghost use Rattle.std.specs.Prelude.{◌≡◌, ◌<◌};
ghost use Rattle.l2_window.specs.Control.{fsn_of};
ghost use Rattle.l2_window.specs.Window.{fsn_count};

use super::window::Window;
use l2_units::{ControlFault, Header};
use std::alloc::Allocator;

/// What an error control chooses to send next.
#[derive(Clone, Copy, Debug, PartialEq, Eq)]
pub enum Choice {
    /// The unacknowledged message at this place, again.
    Again { place: usize },
    /// The first unsent message.
    First,
    /// A FISU.
    Fill,
}

impl Choice {
    /// The FSN of what is sent: the message's own, or in a FISU that of the last message sent
    /// (Q.703 5.2.1).
    pub fn fsn<A: Allocator + Copy>(self, window: &Window<A>) -> u16
        ensures value { result ≡ fsn_of self window.now }
        ensures in_range { result < fsn_count window.now.profile }
    {
        match self {
            Choice::Again { place } => window.fsn_at(place),
            Choice::First => window.fsn_at(window.unacked_len()),
            Choice::Fill => window.last_fsn(),
        }
    }
}

/// What is sent next.
#[derive(Clone, Copy, Debug, PartialEq, Eq)]
pub enum Sending {
    /// An MSU: the message with this number of the caller's, under this header.
    Message { number: u64, head: Header },
    /// A FISU.
    Fill { head: Header },
}

/// What a heard unit means to the end that hears it.
#[derive(Clone, Copy, Debug, PartialEq, Eq)]
pub struct HeardPart {
    /// How many messages it acknowledged, at most 127 (wide: 4,095).
    pub acked: u16,
    /// Whether its message is accepted.
    pub accept: bool,
    /// Whether it makes this end ask for retransmission.
    pub asked: bool,
    /// Whether it asks this end for retransmission.
    pub resend: bool,
    /// The fault of the link that it tells, if any.
    pub fault: Option<ControlFault>,
}
