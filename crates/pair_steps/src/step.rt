//! What can happen in a world, and what it shows.

use l2_units::Unit;
use set_events::{Answer, Event};

/// An end of the world.
#[derive(Clone, Copy, Debug, PartialEq, Eq)]
pub enum End {
    A,
    B,
}

/// What can happen in a world. A link may be one that the world hasn't; such a step is impossible.
#[derive(Debug, Drop)]
pub enum Step {
    /// An event at the end, made by the terminal of the link that it names, or else by user 0. It moves
    /// nothing on the lines. Those with a step of their own are impossible here: a unit is sent by `Emit` and
    /// heard by `Arrive` or `Inject`, and a link comes up by `Together`.
    Act { end: End, event: Event },
    /// The end sends its next unit on the link, which joins the link's line to the other end.
    Emit { end: End, link: u8 },
    /// The front of the link's line to the end arrives: it's heard where the link is up there, else lost.
    Arrive { end: End, link: u8 },
    /// The unit at this place of the link's line to the end, counted from 0, is lost.
    Lose { end: End, link: u8, place: u64 },
    /// The link, settled at both ends, comes up at both, and nothing is under way on it.
    Together { link: u8 },
    /// The end hears this unit on the link, wherever it comes from.
    Inject { end: End, link: u8, unit: Unit },
}

/// What a step shows.
#[derive(Debug, Drop)]
pub enum Shown {
    /// The end answered.
    Answered(Answer),
    /// The link came up, at both ends or at the one that it was to come up at.
    Up,
    /// A unit was lost.
    Lost,
}
