//! The phases of a link's life.

/// Where a link stands in its life (Q.704 5).
#[derive(Clone, Copy, Debug, Drop, PartialEq, Eq)]
pub enum Phase {
    /// In service.
    Up,
    /// Left, and it isn't known yet how far the far end got.
    Down,
    /// Out of service with no message on it, as at first.
    Settled,
}
