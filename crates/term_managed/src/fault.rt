//! Why a link wasn't activated or deactivated.

use l3_link::AlreadySo;
use set_events::SetFault;
use thiserror::Error;

/// Why a link wasn't activated or deactivated.
#[derive(Clone, Copy, Debug, Drop, PartialEq, Eq, Error)]
pub enum ManageFault {
    /// Refusal 9: it is so already.
    #[error("it is so already")]
    AlreadySo,
    /// Its management asked what ended with this fault.
    #[error("{fault}")]
    Set { fault: SetFault },
}

impl From<AlreadySo> for ManageFault {
    ghost use Rattle.std.specs.Prelude.{◌≡◌};
    ghost use Rattle.term_managed.specs.declared.fault.ManageFault.TheVariants.{AlreadySo as IsSo};

    ghost from_gives = { λ so fault. fault ≡ IsSo };

    fn from(_so: AlreadySo) -> ManageFault {
        ManageFault::AlreadySo
    }
}

impl From<SetFault> for ManageFault {
    ghost use Rattle.std.specs.Prelude.{◌≡◌};
    ghost use Rattle.term_managed.specs.declared.fault.ManageFault.TheVariants.{Set};

    ghost from_gives = { λ told fault. fault ≡ Set told };

    fn from(fault: SetFault) -> ManageFault {
        ManageFault::Set { fault }
    }
}
