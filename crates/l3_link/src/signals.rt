//! What the management of a link sees and asks.

use thiserror::Error;

/// How level 2 of a link stands (Q.703 12).
#[derive(Clone, Copy, Debug, PartialEq, Eq)]
pub enum Level2 {
    /// Out of service.
    Out,
    /// It aligns, is ready, or is in service.
    Works,
    /// In service, and the far end has a processor outage (Q.703 8).
    Paused,
}

/// Where a link is in its life, seen from its set (Q.704 5).
#[derive(Clone, Copy, Debug, PartialEq, Eq)]
pub enum Phase {
    /// What the far end has of its messages is known; so it is at first.
    Settled,
    /// Up.
    Up,
    /// It failed, and what the far end has isn't known yet.
    Left,
}

/// What is seen of a link and of its set, behind a turn of the link.
#[derive(Clone, Copy, Debug, PartialEq, Eq)]
pub struct Seen {
    /// How its level 2 stands.
    pub level2: Level2,
    /// Where it is in its life.
    pub phase: Phase,
    /// The awaited answer to a test of it came in this turn (Q.707 2.2).
    pub passed: bool,
    /// Another link carries traffic: its level 2 is in service with no processor outage, and it's open at the set.
    pub others: bool,
    /// Another link is settled, on its first way up since, and has heard its far end on that way.
    pub hopes: bool,
}

/// What is asked for a link. A command, the first three, is obeyed in the link's next turn; the set answers an event,
/// which is any other, at once.
#[derive(Clone, Copy, Debug, PartialEq, Eq)]
pub enum Ask {
    /// Its terminal is to start, in an emergency where that is told before (Q.703 7.2).
    Rise { emergency: bool },
    /// Its alignment goes on in an emergency.
    Emergency,
    /// Its terminal is to go out of service.
    Stop,
    /// A test message is to go out on it (Q.707 2.2).
    Test,
    /// Its changeover is to go on without an answer, where no order was sent (Q.704 5.6.2).
    Timed,
    /// No answer came to its changeover order (Q.704 5.7.2).
    NoAnswer,
    /// Streams are to change back to it (Q.704 6.2).
    Restore,
    /// Its changeback is to be declared once more (Q.704 6.3).
    Redeclare,
    /// No answer came to its changeback declarations (Q.704 6.3).
    BackTimeout,
}

/// Refusal 9: a link that is activated can't be activated, nor one that isn't be deactivated. Nothing was done.
#[derive(Clone, Copy, Debug, Drop, PartialEq, Eq, Error)]
#[error("it is so already")]
pub struct AlreadySo;
