//! The six orders (Q.704 5.4, 5.6, 6.3).

/// An order about one link of the set. The SLC of its label names the link, 0 to 15.
#[derive(Clone, Copy, Debug, Drop, PartialEq, Eq)]
pub enum Order {
    /// Changeover order: the link is left; up to this FSN, 0 to 127 (wide: 4,095), its messages were accepted.
    Coo { link: u8, number: u16 },
    /// Changeover acknowledgement, with the FSN last accepted at that end, 0 to 127 (wide: 4,095).
    Coa { link: u8, number: u16 },
    /// Changeback declaration: no more messages follow on the alternative that this code names.
    Cbd { link: u8, code: u8 },
    /// Changeback acknowledgement, with the code of its declaration.
    Cba { link: u8, code: u8 },
    /// Emergency changeover order: the link is left, and the FSN last accepted isn't known.
    Eco { link: u8 },
    /// Emergency changeover acknowledgement.
    Eca { link: u8 },
}

// The heading codes (Q.704 15.3): the group H0 in the low four bits, H1 in the high four.
pub(crate) const COO: u8 = 0x11;

pub(crate) const COA: u8 = 0x21;

pub(crate) const CBD: u8 = 0x51;

pub(crate) const CBA: u8 = 0x61;

pub(crate) const ECO: u8 = 0x12;

pub(crate) const ECA: u8 = 0x22;
