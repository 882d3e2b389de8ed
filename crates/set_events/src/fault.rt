//! Why an event couldn't be carried out.
ghost use Rattle.std.specs.Prelude.{◌≡◌};
ghost use Rattle.set_events.specs.declared.fault.SetFault.TheVariants.{NoMemory};

use std::alloc::AllocError;
use thiserror::Error;

/// Why an event couldn't be carried out. The set is then as it was, with no entry made.
#[derive(Clone, Copy, Debug, Drop, PartialEq, Eq, Error)]
pub enum SetFault {
    /// 1: memory is wanted.
    #[error("out of memory")]
    NoMemory = 1,
    /// 2: the history has 2^48 entries. It's tested first.
    #[error("the history is full")]
    Exhausted = 2,
}

impl SetFault {
    ghost use Rattle.set_events.specs.Numbers.{set_fault_number};

    /// The fault's number: 1 memory is wanted, 2 the history is full.
    pub fn number(self) -> u8
        ensures { result ≡ set_fault_number self }
    {
        self as u8
    }
}

impl From<AllocError> for SetFault {
    ghost from_gives = { λ _ fault. fault ≡ NoMemory };

    fn from(_error: AllocError) -> SetFault {
        SetFault::NoMemory
    }
}
