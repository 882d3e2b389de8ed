//! Why a world wasn't made, or a step wasn't carried out.
ghost use Rattle.std.specs.Prelude.{◌≡◌};
ghost use Rattle.pair_world.specs.declared.fault.PlayFault.TheVariants.{NoMemory};

use set_core::SetFault;
use std::alloc::{AllocError, AllocFailed};
use thiserror::Error;

/// Why a world wasn't made, or a step wasn't carried out.
#[derive(Clone, Copy, Debug, Drop, PartialEq, Eq, Error)]
pub enum PlayFault {
    /// 1: memory is wanted.
    #[error("out of memory")]
    NoMemory,
    /// 2: the step (or move) at this place, from 0, can't be done: the world has no such link, the link isn't settled,
    /// no unit is at that place of the line, or the event has a step of its own.
    #[error("the step at place {place} can't be done")]
    Impossible { place: u64 },
    /// 3: a history is full.
    #[error("a history is full")]
    Exhausted,
    /// 4: the two ends haven't as many links.
    #[error("the ends have different links")]
    Links,
    /// 5: the two ends haven't one profile.
    #[error("the ends have different profiles")]
    Profile,
}

impl From<SetFault> for PlayFault {
    ghost use Rattle.pair_world.specs.Carried.{PlayFaultOf};

    ghost from_gives = { PlayFaultOf };

    fn from(fault: SetFault) -> PlayFault {
        match fault {
            SetFault::NoMemory => PlayFault::NoMemory,
            SetFault::Exhausted => PlayFault::Exhausted,
        }
    }
}

impl From<AllocError> for PlayFault {
    ghost from_gives = { λ _ fault. fault ≡ NoMemory };

    fn from(_error: AllocError) -> PlayFault {
        PlayFault::NoMemory
    }
}

impl<T: Drop> From<AllocFailed<T>> for PlayFault {
    ghost from_gives = { λ _ fault. fault ≡ NoMemory };

    fn from(_error: AllocFailed<T>) -> PlayFault {
        PlayFault::NoMemory
    }
}

impl PlayFault {
    ghost use Rattle.pair_world.specs.Carried.{fault_at, fault_number};

    /// The fault's number: 1 memory, 2 impossible, 3 a full history, 4 links, 5 profile.
    pub fn number(self) -> u8
        ensures { result ≡ fault_number self }
    {
        match self {
            PlayFault::NoMemory => 1,
            PlayFault::Impossible { .. } => 2,
            PlayFault::Exhausted => 3,
            PlayFault::Links => 4,
            PlayFault::Profile => 5,
        }
    }

    /// The fault of a step, of the step at this place.
    pub(crate) fn at(self, place: u64) -> PlayFault
        ensures { result ≡ fault_at place self }
    {
        match self {
            PlayFault::Impossible { .. } => PlayFault::Impossible { place },
            other => other,
        }
    }
}
