//! The words behind `run`: how much runs between two banks.
ghost use Rattle.std.specs.Prelude.{◌≤◌};

/// What `run` is asked for.
#[derive(Clone, Copy, Debug, PartialEq, Eq)]
pub struct RunWords {
    /// How many sets, 1 to 16.
    pub sets: u16,
    /// How many links each set has, 1 to 16.
    pub links: u8,
    /// How many users each set has at its end a, 1 to 16.
    pub users: u16,
    /// How many messages each of them offers, 1 to 1,024.
    pub messages: u16,
    /// The link that fails half way, if one does.
    pub fail: Option<u8>,
    /// By preventive cyclic retransmission (Q.703 6), not by the basic method.
    pub cyclic: bool,
    /// How many turns each terminal takes, 1 to 1,000,000.
    pub turns: u32,
    /// After how many of its accepted messages a user takes a checkpoint of its set, 1 to 1,024, if it takes any.
    pub checkpoint: Option<u16>,
    /// Links are managed, and what came of the traffic is reported.
    pub report: bool,
    /// What is sent on each link is captured, and printed in place of all lines; no report is asked for then.
    pub capture: bool,
    /// One of so many octets that are put into a line is damaged or lost, if any is: 1 to 10,000,000.
    pub noise: Option<u32>,
    /// What befalls the octets of each line goes by this number.
    pub seed: u32,
    pub ghost sets_in_range: { (1 ≤ sets) × (sets ≤ 16) },
    pub ghost links_in_range: { (1 ≤ links) × (links ≤ 16) },
    pub ghost users_in_range: { (1 ≤ users) × (users ≤ 16) },
    pub ghost messages_in_range: { (1 ≤ messages) × (messages ≤ 1024) },
    pub ghost turns_in_range: { (1 ≤ turns) × (turns ≤ 1000000) },
}

/// Why words ask for nothing, though the library takes them.
#[derive(Clone, Copy, Debug, Drop)]
pub(crate) enum Unasked {
    /// A value isn't in its range; this says what is.
    Value(&'static str),
    /// The link that is to fail isn't one of the links, of which there are so many.
    Link { fail: u8, links: u8 },
}
