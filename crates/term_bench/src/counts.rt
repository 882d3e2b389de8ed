//! What is counted on a link.

/// What was counted on a link since the bench was opened.
#[derive(Clone, Copy, Debug, PartialEq, Eq)]
pub struct TurnCounts {
    /// Turns of its terminal that went, which are octet times.
    pub turns: u64,
    /// Units that were appended to what is sent.
    pub sent: u64,
    /// Good signal units that were heard (Q.703 4.2).
    pub good: u64,
    /// Damaged ones.
    pub bad: u64,
    /// Sixteen octets each, in octet counting (Q.703 4.1).
    pub sixteen: u64,
}
