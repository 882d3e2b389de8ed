//! What link state control is told, and what it answers.

use l2_units::{Cause, Status, TimerOrder};

/// An input of link state control.
#[derive(Clone, Copy, Debug, PartialEq, Eq)]
pub enum StateIn {
    /// The link is to be taken into service.
    Start,
    /// The link is to be taken out of service.
    Stop,
    /// Initial alignment is complete.
    Complete,
    /// Initial alignment isn't possible.
    NotPossible,
    /// A fill-in signal unit was heard (FISU, Q.703 2.2).
    Fisu,
    /// A message signal unit was heard (MSU).
    Msu,
    /// A link status signal unit with this status was heard (LSSU).
    Heard(Status),
    /// T1 has ended.
    T1,
    /// A part of the terminal says that the link has failed.
    Failure(Cause),
    /// This end has a processor outage from now on (Q.703 8.1).
    Outage,
    /// This end's processor outage is over.
    Recover,
}

/// What to send from now on.
#[derive(Clone, Copy, Debug, PartialEq, Eq)]
pub enum Sending {
    /// The status OS, SIOS.
    OutOfService,
    /// The status that initial alignment names.
    Alignment,
    /// Fill-in units.
    FillIn,
    /// Messages, and fill-in units where there are none.
    Traffic,
    /// The status PO, SIPO, while this end has a processor outage.
    ProcessorOutage,
}

/// A start or a stop of initial alignment.
#[derive(Clone, Copy, Debug, PartialEq, Eq)]
pub enum Switch {
    /// It starts.
    Start,
    /// It stops, if it runs.
    Stop,
}

/// What is told to level 3 (Q.703 12).
#[derive(Clone, Copy, Debug, PartialEq, Eq)]
pub enum Indication {
    /// The link is in service.
    Up,
    /// The link is out of service, for this cause.
    Down(Cause),
}

/// What one input leads to.
#[derive(Clone, Copy, Debug, PartialEq, Eq)]
pub struct StateOut {
    /// What to send from now on; `None`: as before.
    pub send: Option<Sending>,
    /// T1, how long to wait, aligned, for the far end to be ready.
    pub t1: TimerOrder,
    /// Initial alignment starts or stops; `None`: it's left as it is.
    pub alignment: Option<Switch>,
    /// A new signal unit error rate monitor begins (SUERM, Q.703 10.2).
    pub new_suerm: bool,
    /// What level 3 is told.
    pub indication: Option<Indication>,
    /// Whether the far end has a processor outage now, so that no message goes out: the value, not a change of it.
    pub paused: bool,
}
