//! What is kept of a message beside its body.
use set_events::Fate;
use std::mem::size_of;

/// Whose a message is.
#[derive(Clone, Copy, Debug, PartialEq, Eq)]
pub enum Kind {
    /// A user's, of this stream, 0 to 15.
    User { stream: u8 },
    /// An order of the signalling network management.
    Order,
}

/// What is kept of a message beside its body.
#[derive(Clone, Copy, Debug, PartialEq, Eq)]
pub struct Message {
    /// Where it stands: in exactly one place.
    pub fate: Fate,
    /// Whose it is.
    pub kind: Kind,
    /// The octets of its body, at most 273.
    pub octets: u16,
}

/// A message with the period in which it came to stand where it stands: periods end when what is finished is
/// forgotten. So one of a final fate is there in this period, and forgotten from the next one on.
#[derive(Clone, Copy, Debug, PartialEq, Eq)]
pub(crate) struct Stored {
    pub(crate) message: Message,
    pub(crate) period: u16,
}

// Every number that is kept takes so many octets, and eight while it stands in a queue.
const _: () = prove!(size_of::<Stored>() <= 8);
