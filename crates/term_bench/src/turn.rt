//! What a turn did.

use super::word::LinkWord;
use l2_units::Cause;

/// What a turn of a link's terminal did.
#[derive(Clone, Copy, Debug, PartialEq, Eq)]
pub struct Turn {
    /// Its number among the link's turns, from 1.
    pub number: u64,
    /// The octet that it put.
    pub put: u8,
    /// How many messages for users were heard.
    pub messages: u64,
    /// How many units it appended to what is sent: one, or none.
    pub sent: u64,
    /// How the link stood before it.
    pub before: LinkWord,
    /// How the link stands then.
    pub after: LinkWord,
    /// Why the link failed last, if it did.
    pub cause: Option<Cause>,
}
