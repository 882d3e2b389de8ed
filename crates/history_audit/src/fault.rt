//! How a history can be at fault.

use text_lines::LineFlaw;
use thiserror::Error;

/// How a text can fail to be a legal history. Lines are counted from 1.
#[derive(Clone, Copy, Debug, Drop, PartialEq, Eq, Error)]
pub enum AuditFault {
    /// The line of this number can't be read, for this flaw if it isn't for its words.
    #[error("line {line} text{flaw}")]
    Text { line: u64, flaw: LineFlaw },
    /// The entry on the line of this number is the first that no set makes.
    #[error("line {line} illegal")]
    Illegal { line: u64 },
    /// There are more than 2^48 entries.
    #[error("exhausted")]
    Exhausted,
}
