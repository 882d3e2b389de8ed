//! An item of a history.

use set_events::Entry;

/// What a history tells next.
#[derive(Debug, Drop)]
pub enum Item {
    /// An event, and the answer that it got.
    Entered(Entry),
    /// A checkpoint was taken.
    Checkpoint,
}
