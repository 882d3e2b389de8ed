//! Why two ends weren't joined, or a step of theirs wasn't done.
ghost use Rattle.std.specs.Prelude.{◌≡◌};

use link_term::TermFault;
use set_events::SetFault;
use std::alloc::{AllocError, AllocFailed};
use thiserror::Error;

/// Why a step wasn't done.
#[derive(Clone, Copy, Debug, Drop, PartialEq, Eq, Error)]
pub enum StepFault {
    /// 1: memory is wanted for an octet under way.
    #[error("out of memory")]
    NoMemory,
    /// 2: it can't be done: there is no such link, no octet is under way to the end or at that place, or the actor is out
    /// of range.
    #[error("the step can't be done")]
    Impossible,
    /// 3: the end's set told this fault in place of an answer.
    #[error("{fault}")]
    OfSet { fault: SetFault },
    /// 4: the turn was broken off.
    #[error("{fault}")]
    OfTurn { fault: TermFault },
}

impl From<AllocError> for StepFault {
    ghost use Rattle.pair_octets.specs.declared.fault.StepFault.TheVariants.{NoMemory};

    ghost from_gives = { λ _ fault. fault ≡ NoMemory };

    fn from(_error: AllocError) -> StepFault {
        StepFault::NoMemory
    }
}

impl<T: Drop> From<AllocFailed<T>> for StepFault {
    ghost use Rattle.pair_octets.specs.declared.fault.StepFault.TheVariants.{NoMemory};

    ghost from_gives = { λ _ fault. fault ≡ NoMemory };

    fn from(_error: AllocFailed<T>) -> StepFault {
        StepFault::NoMemory
    }
}

/// Why two ends weren't joined, or which step of theirs wasn't done.
#[derive(Clone, Copy, Debug, Drop, PartialEq, Eq, Error)]
pub enum RunFault {
    /// 1: memory is wanted for the ends and their lines.
    #[error("out of memory")]
    NoMemory,
    /// 2: the two ends haven't as many links, or not as many lengths of lines were given.
    #[error("the ends have different links")]
    Links,
    /// 3: the step at this place, from 0, wasn't done.
    #[error("the step at place {place}: {fault}")]
    AtStep { place: u64, fault: StepFault },
}

impl From<AllocError> for RunFault {
    ghost use Rattle.pair_octets.specs.declared.fault.RunFault.TheVariants.{NoMemory};

    ghost from_gives = { λ _ fault. fault ≡ NoMemory };

    fn from(_error: AllocError) -> RunFault {
        RunFault::NoMemory
    }
}

impl<T: Drop> From<AllocFailed<T>> for RunFault {
    ghost use Rattle.pair_octets.specs.declared.fault.RunFault.TheVariants.{NoMemory};

    ghost from_gives = { λ _ fault. fault ≡ NoMemory };

    fn from(_error: AllocFailed<T>) -> RunFault {
        RunFault::NoMemory
    }
}
