//! What the first line of a script says.

use l2_units::Profile;
use set_events::{Method, SetConfig};

/// The values of the first line, each in the range of its type.
#[derive(Clone, Copy, Debug)]
pub struct Values {
    /// How many links there are.
    pub links: u8,
    /// How both ends keep messages safe.
    pub method: Method,
    /// The point code of end a.
    pub code_a: u16,
    /// The point code of end b.
    pub code_b: u16,
    /// The SIO of both ends' orders.
    pub sio: u8,
    /// How many numbers the messages of a link have.
    pub profile: Profile,
}

/// The configurations of both ends.
#[derive(Clone, Copy, Debug)]
pub struct Opening {
    /// The configuration of end a.
    pub a: SetConfig,
    /// The configuration of end b.
    pub b: SetConfig,
}
