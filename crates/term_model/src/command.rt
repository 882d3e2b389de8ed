//! What a terminal is told from above.

/// A command to a terminal, in the order in which a turn obeys them (own).
#[derive(Clone, Copy, Debug, PartialEq, Eq)]
pub enum Command {
    /// Alignment is to be that of emergency (Q.703 7.2).
    Emergency,
    /// It no longer is: the emergency has ceased (Q.703 7.4).
    Calm,
    /// The link is to be taken into service (Q.703 12).
    Start,
    /// This end is busy (Q.703 9.2).
    Busy,
    /// This end is no longer busy (Q.703 9.3).
    Ease,
    /// The next failure is to be told as one after which no FSN can be given to the far end (Q.704 5.6).
    Blind,
    /// This end has a processor outage (Q.703 8.1).
    Outage,
    /// This end's processor outage is over.
    Recover,
    /// The link is to be taken out of service (Q.703 12).
    Stop,
}

/// The commands that wait for the next turn, each once.
#[derive(Clone, Copy, Debug, PartialEq, Eq)]
pub struct Commands {
    /// Emergency was commanded.
    pub emergency: bool,
    /// Calm was commanded.
    pub calm: bool,
    /// Start was commanded.
    pub start: bool,
    /// Busy was commanded.
    pub busy: bool,
    /// Ease was commanded.
    pub ease: bool,
    /// Blind was commanded.
    pub blind: bool,
    /// Outage was commanded.
    pub outage: bool,
    /// Recover was commanded.
    pub recover: bool,
    /// Stop was commanded.
    pub stop: bool,
}

impl Commands {
    /// No command waits.
    pub const NONE: Commands = Commands {
        emergency: false,
        calm: false,
        start: false,
        busy: false,
        ease: false,
        blind: false,
        outage: false,
        recover: false,
        stop: false,
    };
}
