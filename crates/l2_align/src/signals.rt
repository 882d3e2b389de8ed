//! What initial alignment control is told, and what it answers.

use l2_units::{Status, TimerOrder};

/// An input of initial alignment control.
#[derive(Clone, Copy, Debug, PartialEq, Eq)]
pub enum AlignIn {
    /// Link state control starts alignment.
    Start,
    /// Link state control stops alignment.
    Stop,
    /// Emergency is asked for at this end.
    Emergency,
    /// Emergency is asked for no longer at this end.
    Calm,
    /// A unit with this status was heard.
    Heard(Status),
    /// T2 has ended.
    T2,
    /// T3 has ended.
    T3,
    /// T4 has ended.
    T4,
    /// The alignment error rate monitor has tripped (Q.703 10.3).
    Abort,
    /// A correct unit was heard, of any kind.
    Good,
}

/// What becomes of the alignment error rate monitor.
#[derive(Clone, Copy, Debug, PartialEq, Eq)]
pub enum Monitor {
    /// It stays as it is.
    Keep,
    /// None runs from now on.
    Off,
    /// A new one begins, for a normal proving period.
    Normal,
    /// A new one begins, for an emergency proving period.
    Emergency,
}

/// How alignment ends.
#[derive(Clone, Copy, Debug, PartialEq, Eq)]
pub enum Outcome {
    /// A whole proving period went by without an abort.
    Complete,
    /// The link can't be aligned.
    NotPossible,
}

/// What one input leads to. Its timers are those of initial alignment (Q.703 12.3).
#[derive(Clone, Copy, Debug, PartialEq, Eq)]
pub struct AlignOut {
    /// The status to send from now on, O, N or E (Q.703 7.2); `None`: as before.
    pub send: Option<Status>,
    /// T2: how long to wait, not aligned, for the far end to be heard.
    pub t2: TimerOrder,
    /// T3: how long to wait, aligned, for the far end to be aligned.
    pub t3: TimerOrder,
    /// T4, the proving period: it starts for 65,536 octet times, or for 4,096 in an emergency (Q.703 7.4).
    pub t4: TimerOrder,
    /// What becomes of the monitor.
    pub monitor: Monitor,
    /// That alignment is over, and how.
    pub outcome: Option<Outcome>,
}
