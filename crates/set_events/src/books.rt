//! What a history adds up to.

/// The books of a set: what its history adds up to. Who holds a copy holds the numbers of the moment
/// when it was made.
#[derive(Clone, Copy, Debug, PartialEq, Eq)]
pub struct Books {
    /// How many entries each user made, by the user's number.
    pub user_calls: [u64; 64],
    /// How many entries the terminal of each link made, by the link's number.
    pub term_calls: [u64; 16],
    /// The users' messages that were accepted.
    pub messages: u64,
    /// The octets of their bodies.
    pub octets: u64,
    /// The users' messages that were acknowledged.
    pub acknowledged: u64,
}
