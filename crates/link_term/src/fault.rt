//! Why a terminal stopped.
ghost use Rattle.std.specs.Prelude.{◌≡◌};
ghost use Rattle.link_term.specs.Faults.{fault_number, fault_of};

use set_events::SetFault;
use thiserror::Error;

/// Why a turn wasn't finished. Each later one answers [`TermFault::Failed`].
#[derive(Clone, Copy, Debug, Drop, PartialEq, Eq, Error)]
pub enum TermFault {
    /// 1: memory is wanted for a step of the set.
    #[error("out of memory")]
    NoMemory = 1,
    /// 2: a turn before wasn't finished.
    #[error("the terminal has failed")]
    Failed = 2,
    /// 3: the set's history is full.
    #[error("the history is full")]
    Exhausted = 3,
    /// 4: the set gave a unit with a number of more than seven bits.
    #[error("a unit of the wide profile can't be sent")]
    Profile = 4,
}

impl TermFault {
    /// The fault's number: 1 memory is wanted, 2 a turn before wasn't finished, 3 the history is full, 4 a unit of the
    /// wide profile can't be sent.
    pub fn number(self) -> u8
        ensures { result ≡ fault_number self }
    {
        self as u8
    }
}

impl From<SetFault> for TermFault {
    ghost from_gives = { λ fault told. told ≡ fault_of fault };

    fn from(fault: SetFault) -> TermFault {
        match fault {
            SetFault::NoMemory => TermFault::NoMemory,
            SetFault::Exhausted => TermFault::Exhausted,
        }
    }
}
