//! What turns count.

/// What some turns of a terminal counted, and why its link failed last.
#[derive(Clone, Copy, Debug, PartialEq, Eq)]
pub struct TermReport {
    /// The turns.
    pub turns: u64,
    /// The units that were appended to what is left to send.
    pub sent: u64,
    /// The marks Good: signal units that check (Q.703 4.2).
    pub good: u64,
    /// The marks Bad.
    pub bad: u64,
    /// The marks Sixteen: sixteen octets more in octet counting (Q.703 4.1).
    pub sixteen: u64,
    /// The number of the cause of the last failure, of any turn before; 0: there was none.
    pub cause: u8,
}
