//! How a script can be at fault.

use std::fmt;
use std::fmt::Display;
use text_lines::LineFlaw;
use thiserror::Error;

/// How a script can be at fault. Lines are counted from 1; `specs/Faults.antt` has the texts.
#[derive(Clone, Copy, Debug, Drop, PartialEq, Eq, Error)]
pub enum ScriptFault {
    /// The line of this number is unreadable, for this flaw if it isn't for its words.
    Text { line: u64, flaw: LineFlaw },
    /// What the line of this number asks for can't be done.
    Step { line: u64 },
    /// A history is full.
    Exhausted,
}

impl Display for ScriptFault {
    ghost use Rattle.std.specs.Prelude.{Some};
    ghost use Rattle.script_walk.specs.Faults.{fault_text};

    ghost output = { λ fault. Some (fault_text fault) };

    fn fmt<W: fmt::Write>(&self, f: &mut fmt::Formatter<W>) -> fmt::Result {
        match self {
            ScriptFault::Text { line, flaw } => {
                let wrong = flaw.text();
                write!(f, "line {line} text{wrong}")
            }
            ScriptFault::Step { line } => write!(f, "line {line} step"),
            ScriptFault::Exhausted => write!(f, "exhausted"),
        }
    }
}
