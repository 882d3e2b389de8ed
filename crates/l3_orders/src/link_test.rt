//! Signalling link test messages (Q.707 2.2).
use arrayvec::ArrayVec;

/// The most octets of a test pattern: its length has four bits.
pub const LONGEST_PATTERN: usize = 15;

/// A test message and its answer.
#[derive(Clone, Copy, Debug, Drop, PartialEq, Eq)]
pub enum TestKind {
    /// SLTM: the far end is to answer with the same pattern on the same link.
    Message,
    /// SLTA: the answer.
    Acknowledgement,
}

/// A test of one link of the set.
#[derive(Clone, Debug, Drop, PartialEq, Eq)]
pub struct LinkTest {
    /// What it is.
    pub kind: TestKind,
    /// The link that it goes on and tells of, 0 to 15: the SLC of its label.
    pub link: u8,
    /// The test pattern, 1 to 15 octets. An acknowledgement has that of its message.
    pub pattern: ArrayVec<u8, LONGEST_PATTERN>,
}

// The heading codes (Q.707): H0 is 1 in the low four bits, H1 stands in the high four.
pub(crate) const SLTM: u8 = 0x11;

pub(crate) const SLTA: u8 = 0x21;
