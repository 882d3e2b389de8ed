//! Why a set ended early, and why a user did.
ghost use Rattle.std.specs.Prelude.{◌≡◌};
ghost use Rattle.bank_crew.specs.Faults.{fault_number, fault_of};

use set_events::SetFault;
use std::alloc::AllocError;
use thiserror::Error;

/// Why a set didn't come to its end.
#[derive(Clone, Copy, Debug, Drop, PartialEq, Eq, Error)]
pub enum CrewFault {
    /// Memory is wanted.
    #[error("out of memory")]
    NoMemory,
    /// A thread couldn't be started.
    #[error("no thread could be started")]
    NoThread,
    /// The set wasn't closed: its seats weren't all there, or had other receipts than its history has entries.
    #[error("a set could not be closed")]
    Unclosed,
}

impl From<AllocError> for CrewFault {
    ghost use Rattle.std.specs.Prelude.{◌≡◌};
    ghost use Rattle.bank_crew.specs.declared.fault.CrewFault.TheVariants.{NoMemory};

    ghost from_gives = { λ _ fault. fault ≡ NoMemory };

    fn from(_error: AllocError) -> CrewFault {
        CrewFault::NoMemory
    }
}

/// Why a user ended before its job was done.
#[derive(Clone, Copy, Debug, Drop, PartialEq, Eq, Error)]
pub enum UserFault {
    /// 1: memory is wanted for a call.
    #[error("out of memory")]
    NoMemory = 1,
    /// 2: the set's history is full.
    #[error("the history is full")]
    Exhausted = 2,
    /// 3: a message that was accepted wasn't found.
    #[error("an accepted message was not found")]
    NotFound = 3,
}

impl UserFault {
    /// The fault's number: 1 memory is wanted, 2 the history is full, 3 an accepted message wasn't found.
    pub fn number(self) -> u8
        ensures { result ≡ fault_number self }
    {
        self as u8
    }
}

impl From<SetFault> for UserFault {
    ghost from_gives = { λ fault told. told ≡ fault_of fault };

    fn from(fault: SetFault) -> UserFault {
        match fault {
            SetFault::NoMemory => UserFault::NoMemory,
            SetFault::Exhausted => UserFault::Exhausted,
        }
    }
}
