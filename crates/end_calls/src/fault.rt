//! Why a call wasn't carried out.
ghost use Rattle.std.specs.Prelude.{◌≡◌};
ghost use Rattle.end_calls.specs.Codes.{fault_number};

use set_events::{ConfigFault, Refusal};
use thiserror::Error;

/// Why a call wasn't carried out.
#[derive(Clone, Copy, Debug, Drop, PartialEq, Eq, Error)]
pub enum CallFault {
    /// 1 to 11: it was refused, by the number of the refusal; 9 also where a link is activated already, or isn't; 10 where
    /// there is no such link.
    #[error("it was refused")]
    Refused { why: Refusal },
    /// 16: memory is wanted.
    #[error("out of memory")]
    NoMemory,
    /// 17: the set's history is full, or the link took 2^48 turns.
    #[error("the history is full")]
    Exhausted,
    /// 18: a turn of the link wasn't finished before.
    #[error("the terminal has failed")]
    Failed,
    /// 19: the set gave a unit of the wide profile, which no set of [`open`](super::open) does.
    #[error("a unit of the wide profile can't be sent")]
    Profile,
    /// 33 to 36: the configuration, by 32 and the number of its fault.
    #[error("{fault}")]
    Config { fault: ConfigFault },
    /// 37: a timer of level 2 has the length 0.
    #[error("a timer of level 2 is 0")]
    Timers,
    /// 38: a timer of level 3 has the length 0.
    #[error("a timer of level 3 is 0")]
    Times,
    /// 48: users have the numbers 0 to 63.
    #[error("there is no such user")]
    NoSuchUser,
    /// 49: no command has this number.
    #[error("there is no such command")]
    NoSuchCommand,
    /// 50: there is too little room for what is to be written.
    #[error("there is too little room")]
    NoRoom,
}

impl CallFault {
    /// The fault's number, as beside each case.
    pub fn number(self) -> u8
        ensures { result ≡ fault_number self }
    {
        match self {
            CallFault::Refused { why } => why.number(),
            CallFault::NoMemory => 16,
            CallFault::Exhausted => 17,
            CallFault::Failed => 18,
            CallFault::Profile => 19,
            CallFault::Config { fault } => 32 + fault.number(),
            CallFault::Timers => 37,
            CallFault::Times => 38,
            CallFault::NoSuchUser => 48,
            CallFault::NoSuchCommand => 49,
            CallFault::NoRoom => 50,
        }
    }
}
