//! Why a window refuses a call.
ghost use Rattle.std.specs.Prelude.{◌≡◌};
ghost use Rattle.l2_window.specs.Fault.{number_of};

use thiserror::Error;

/// Why a window refused a call. It is then unchanged.
#[derive(Clone, Copy, Debug, Drop, PartialEq, Eq, Error)]
pub enum WindowFault {
    /// No message waits to be sent.
    #[error("no message is unsent")]
    Empty = 1,
    /// 127 messages are unacknowledged, so no FSN is free (Q.703 5.2.2).
    #[error("127 messages are unacknowledged")]
    Full = 2,
    /// The number is neither that last acknowledged nor that of an unacknowledged message.
    #[error("the number is that of no unacknowledged message")]
    Unreasonable = 3,
}

impl WindowFault {
    /// The refusal's number: 1 empty, 2 full, 3 unreasonable.
    pub fn number(self) -> u8
        ensures { result ≡ number_of self }
    {
        self as u8
    }
}
