//! Why a text ended before its end.

ghost use Rattle.std.specs.Prelude.{◌≡◌};
ghost use Rattle.text_base.specs.declared.fault.Stop.TheVariants.{Memory};
ghost use Rattle.text_base.specs.Printing.{fault_of};

use std::alloc::{AllocError, AllocFailed};
use std::fmt::Display;
use thiserror::Error;

/// Why a printer reads no more.
#[derive(Clone, Copy, Debug, Drop, PartialEq, Eq)]
pub enum Stop<T> {
    /// The input is at fault itself, in a way that its text has.
    Input(T),
    /// Memory is wanted.
    Memory,
}

impl<T> From<AllocError> for Stop<T> {
    ghost from_gives = { λ _ stop. stop ≡ Memory };

    fn from(_error: AllocError) -> Stop<T> {
        Stop::Memory
    }
}

impl<T, U: Drop> From<AllocFailed<U>> for Stop<T> {
    ghost from_gives = { λ _ stop. stop ≡ Memory };

    fn from(_error: AllocFailed<U>) -> Stop<T> {
        Stop::Memory
    }
}

/// Why a text was printed no further; each shows the line that the program prints. What was printed before it stays
/// printed.
#[derive(Clone, Copy, Debug, Drop, PartialEq, Eq, Error)]
#[error_bound(T: Display)]
pub enum Fault<T> {
    /// The input is at fault itself, in a way that its text has.
    #[error("fault {0}")]
    Input(T),
    /// Memory is wanted.
    #[error("fault memory")]
    Memory,
    /// The input couldn't be read.
    #[error("fault read")]
    Read,
    /// The input has more octets than are read of it.
    #[error("fault long")]
    Long,
    /// The output couldn't be written.
    #[error("fault write")]
    Write,
}

/// What a printer that reads no more makes of the whole.
pub(crate) fn into_fault<T>(stop: Stop<T>) -> Fault<T>
    ensures { result ≡ fault_of stop }
{
    match stop {
        Stop::Input(fault) => Fault::Input(fault),
        Stop::Memory => Fault::Memory,
    }
}
