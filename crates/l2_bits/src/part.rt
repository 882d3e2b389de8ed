//! The bits at the end of a list of octets.

ghost use Rattle.std.specs.Prelude.{◌≡◌, ◌<◌, ◌^◌};

/// Bits that make no whole octet, the first the lowest.
#[derive(Clone, Copy)]
pub(crate) struct Part {
    pub(crate) bits: u8,
    pub(crate) count: u8,
    pub(crate) ghost few: { count < 8 },
    pub(crate) ghost fits: { bits < 2 ^ count },
}

impl Part {
    /// No bits.
    pub(crate) fn none() -> Part
        ensures { result.count ≡ 0 }
    {
        Part { bits: 0, count: 0 }
    }
}
