//! How an input of `decode` can be at fault.

use text_lines::LineFlaw;
use thiserror::Error;

/// The line of this number, from 1, isn't octets of two hexadecimal digits each, or has more than 4,096 characters.
#[derive(Clone, Copy, Debug, Drop, PartialEq, Eq, Error)]
#[error("line {line} text{flaw}")]
pub struct UnreadableUnit {
    /// The number of the line.
    pub line: u64,
    /// What is wrong with it, if it isn't what it says.
    pub flaw: LineFlaw,
}
