//! Why a bank ended early.
ghost use Rattle.std.specs.Prelude.{◌≡◌};
ghost use Rattle.bank_core.specs.Faults.{fault_number};

use bank_crew::CrewFault;
use std::alloc::AllocError;
use thiserror::Error;

/// Why a bank isn't made, or one of its sets didn't come to its end.
#[derive(Clone, Copy, Debug, Drop, PartialEq, Eq, Error)]
pub enum BankFault {
    /// 1: memory is wanted.
    #[error("out of memory")]
    NoMemory = 1,
    /// 2: no user, or more than 64.
    #[error("a set has 1 to 64 users")]
    Users = 2,
    /// 3: no set, or more than 16.
    #[error("a bank has 1 to 16 sets")]
    Sets = 3,
    /// 4: a thread couldn't be started.
    #[error("no thread could be started")]
    NoThread = 4,
    /// 5: a set wasn't closed: its seats weren't all there, or had other receipts than its history has entries.
    #[error("a set could not be closed")]
    Unclosed = 5,
    /// 6: a set is of the wide profile, and terminals aren't.
    #[error("a bank's sets have the narrow profile")]
    Wide = 6,
}

impl BankFault {
    /// The fault's number: 1 memory is wanted, 2 users, 3 sets, 4 no thread, 5 a set isn't closed, 6 a wide set.
    pub fn number(self) -> u8
        ensures { result ≡ fault_number self }
    {
        self as u8
    }
}

impl From<AllocError> for BankFault {
    ghost use Rattle.std.specs.Prelude.{◌≡◌};
    ghost use Rattle.bank_core.specs.declared.fault.BankFault.TheVariants.{NoMemory};

    ghost from_gives = { λ _ fault. fault ≡ NoMemory };

    fn from(_error: AllocError) -> BankFault {
        BankFault::NoMemory
    }
}

impl From<CrewFault> for BankFault {
    ghost use Rattle.std.specs.Prelude.{◌≡◌};
    ghost use Rattle.bank_core.specs.Faults.{fault_of};

    ghost from_gives = { λ crew fault. fault ≡ fault_of crew };

    fn from(fault: CrewFault) -> BankFault {
        match fault {
            CrewFault::NoMemory => BankFault::NoMemory,
            CrewFault::NoThread => BankFault::NoThread,
            CrewFault::Unclosed => BankFault::Unclosed,
        }
    }
}
