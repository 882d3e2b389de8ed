//! The signal units and their header (Q.703 2.1, 2.2).
ghost use Rattle.std.specs.Prelude.{◌<◌, ◌^◌};

use super::status::Status;
use arrayvec::ArrayVec;

/// The fewest octets of an MSU's body: the SIO and two octets of SIF (Q.703 2.3.3).
pub const SHORTEST_BODY: usize = 3;

/// The most octets of an MSU's body: the SIO and 272 octets of SIF (Q.703 2.3.3).
pub const LONGEST_BODY: usize = 273;

/// The most octets of a unit without flags and check octets: three of header and length indicator,
/// and the longest body.
pub const LONGEST_UNIT: usize = 276;

/// The sequence numbers and indicator bits that every unit has (Q.703 2.2).
#[derive(Clone, Copy, Debug, PartialEq, Eq)]
pub struct Header {
    /// Backward sequence number: the last message accepted from the other end, 0 to 127 (wide: 4,095).
    pub bsn: u16,
    /// Backward indicator bit: inverted, it asks for retransmission.
    pub bib: bool,
    /// Forward sequence number: this message's, or in a FISU the last message's, 0 to 127 (wide: 4,095).
    pub fsn: u16,
    /// Forward indicator bit: equal to the BIB last accepted.
    pub fib: bool,
    pub ghost bsn_in_range: { bsn < 2 ^ 12 },
    pub ghost fsn_in_range: { fsn < 2 ^ 12 },
}

/// A signal unit (Q.703 2.1).
#[derive(Clone, Debug, Drop, PartialEq, Eq)]
pub enum Unit {
    /// Fill-in signal unit, sent where there is nothing else to send. LI 0.
    Fisu {
        head: Header,
    },
    /// Link status signal unit: tells how the terminal at its sender stands. LI 1 or 2.
    Lssu {
        head: Header,
        status: Status,
    },
    /// Message signal unit: SIO and SIF, 3 to 273 octets. LI 3 to 63.
    Msu {
        head: Header,
        body: ArrayVec<u8, LONGEST_BODY>,
    },
}
