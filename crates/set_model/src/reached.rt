//! How far the far end of a link got.

/// What is known, when a link settles, of the messages that reached the far end (Q.704 5.4 to 5.7).
#[derive(Clone, Copy, Debug, Drop, PartialEq, Eq)]
pub enum Reached {
    /// All up to this FSN, 0 to 127 (wide: 4,095): its order or acknowledgement carries the FSN last accepted.
    Upto { number: u16 },
    /// It isn't told: an emergency changeover.
    Unknown,
    /// No answer came.
    Unanswered,
    /// The far end wasn't asked: the order never was sent, and was taken back.
    Unasked,
}
