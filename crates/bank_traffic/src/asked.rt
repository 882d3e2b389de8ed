//! What is asked of two banks.
ghost use Rattle.std.specs.Prelude.{◌≤◌, ◌^◌};

/// What runs between the ends a and b of sets.
#[derive(Clone, Copy, Debug, PartialEq, Eq)]
pub struct Traffic {
    /// How many sets, 1 to 16.
    pub sets: u16,
    /// How many links each set has, 1 to 16.
    pub links: u8,
    /// How many users each set has at its end a, 1 to 16.
    pub users: u16,
    /// How many messages each of them offers, 1 to 1,024.
    pub messages: u16,
    /// The link whose terminal at end a is told Stop half way.
    pub fail: Option<u8>,
    /// Messages are kept safe by preventive cyclic retransmission (Q.703 6), with N1 127 and N2 8,000; else by the
    /// basic method.
    pub cyclic: bool,
    /// How many turns each terminal takes, in octet times; at most 2^32.
    pub turns: u64,
    /// After how many of its accepted offers a user at an end a takes a checkpoint of its set, and after how many of its
    /// calls the one at an end b does, as of [`bank_core::Plan`].
    pub checkpoint: Option<u16>,
    /// The gates manage the links and hold users up ([`gates_of`](super::gates_of)), and the users at the ends b keep what
    /// they take; `turns` are the most then.
    pub managed: bool,
    /// One of so many octets that are put into a line is damaged or lost, if any is.
    pub noise: Option<u32>,
    /// What befalls the octets of each line goes by this number.
    pub seed: u32,
    /// The octets that terminals put into their lines are kept.
    pub keeps: bool,
    pub ghost few_sets: { (1 ≤ sets) × (sets ≤ 16) },
    pub ghost few_links: { (1 ≤ links) × (links ≤ 16) },
    pub ghost few_users: { (1 ≤ users) × (users ≤ 16) },
    pub ghost few_turns: { turns ≤ 2 ^ 32 },
}
