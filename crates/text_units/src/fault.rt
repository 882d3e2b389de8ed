//! How a line's digits can be at fault.

use thiserror::Error;

/// This octet of the input, counted from 0, is neither a hexadecimal digit nor skipped; or the input ends here with a
/// digit left over.
#[derive(Clone, Copy, Debug, Drop, PartialEq, Eq, Error)]
#[error("octet {place}")]
pub struct UnreadableOctet {
    pub place: u64,
}
