//! How an input of `terminal` can be at fault, and what ends it otherwise.

use link_term::TermFault;
use set_events::SetFault;
use std::alloc::{AllocError, AllocFailed};
use std::fmt;
use std::fmt::Display;
use text_lines::LineFlaw;
use thiserror::Error;

/// How an input of `terminal` can be at fault. Lines are counted from 1; `specs/Faults.antt` has the texts.
#[derive(Clone, Copy, Debug, Drop, PartialEq, Eq, Error)]
pub enum TerminalFault {
    /// The line of this number is unreadable, for this flaw if it isn't for its words.
    Text { line: u64, flaw: LineFlaw },
    /// What the line of this number asks for is of a link that isn't there.
    Step { line: u64 },
}

impl Display for TerminalFault {
    ghost use Rattle.std.specs.Prelude.{Some};
    ghost use Rattle.terminal_text.specs.Faults.{fault_text};

    ghost output = { λ fault. Some (fault_text fault) };

    fn fmt<W: fmt::Write>(&self, f: &mut fmt::Formatter<W>) -> fmt::Result {
        match self {
            TerminalFault::Text { line, flaw } => {
                let wrong = flaw.text();
                write!(f, "line {line} text{wrong}")
            }
            TerminalFault::Step { line } => write!(f, "line {line} step"),
        }
    }
}

/// Memory is wanted; or a count is full: 2^48 turns of a link, or 2^48 entries of the set.
#[derive(Clone, Copy, Drop)]
pub(crate) struct Want;

impl From<AllocError> for Want {
    fn from(_error: AllocError) -> Want {
        Want
    }
}

impl<T: Drop> From<AllocFailed<T>> for Want {
    fn from(_error: AllocFailed<T>) -> Want {
        Want
    }
}

impl From<SetFault> for Want {
    fn from(_fault: SetFault) -> Want {
        Want
    }
}

impl From<TermFault> for Want {
    fn from(_fault: TermFault) -> Want {
        Want
    }
}
