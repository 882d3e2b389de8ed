//! The messages that a set forgot.

/// The messages that left a set at its checkpoints, since nothing more could become of them: those of users by how they
/// ended, and orders. All of them are counted since the set was opened.
#[derive(Clone, Copy, Debug, PartialEq, Eq)]
pub struct Finished {
    /// The users' messages that were acknowledged.
    pub acked: u64,
    /// Those that were discarded in an emergency changeover, which doesn't tell how far the far end got (Q.704 5.6).
    pub emergency: u64,
    /// Those that were discarded since the far end told a number that can't be (own).
    pub unreasonable: u64,
    /// Those that were discarded since the far end never answered the changeover (own).
    pub no_answer: u64,
    /// The orders, however they ended.
    pub orders: u64,
}
