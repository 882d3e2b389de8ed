//! The machine: its state, and the rows of its table as the arms of one `match`.

ghost use Rattle.std.specs.Prelude.{◌≡◌, true, false};
ghost use Rattle.l2_align.specs.Alignment.{initial};
ghost use Rattle.l2_align.specs.Table.{row, aborted, aligned, asking, calmed, fallen_back, first_proving, idle, nothing, proving, seeking, sending, shortened};

use crate::signals::{AlignIn, AlignOut, Monitor, Outcome};
use l2_units::{Status, TimerOrder};
use std::marker::Model;

/// Where initial alignment stands (Q.703 7.3), as the contracts see it.
#[derive(Clone, Copy, Debug, PartialEq, Eq)]
pub enum State {
    /// No alignment is under way.
    Idle,
    /// Nothing was heard from the far end yet.
    NotAligned,
    /// The far end is heard, and not known to be aligned.
    Aligned,
    /// Both ends are aligned, and the link is tried for errors.
    Proving,
}

/// Initial alignment control of one end of a link: a state and four values. It's a few octets and takes no memory.
#[derive(Debug, Drop)]
pub struct Align {
    state: State,
    local: bool,
    short: bool,
    aborts: u8,
    pending: bool,
}

impl Model for Align {
    ghost use Rattle.l2_align.specs.Alignment.{Alignment};

    ghost Value = { Alignment };

    ghost view = { λ a. record {
      state = a.state;
      local = a.local;
      short = a.short;
      aborts = a.aborts;
      pending = a.pending;
    } };
}

/// A normal proving period, 2^16 octet times: the longer of the two for which T4 runs (Q.703 7.4).
pub const NORMAL_PROVING: u32 = 65_536;

// Q.703 7.4: an emergency proving period, 2^12 octet times.
const EMERGENCY_PROVING: u32 = 4_096;

// Q.703 7.3: the abort at which alignment isn't possible.
const LAST_ABORT: u8 = 5;

// An ignored input's answer, on which the others build.
const NOTHING: AlignOut = AlignOut {
    send: None,
    t2: TimerOrder::Keep,
    t3: TimerOrder::Keep,
    t4: TimerOrder::Keep,
    monitor: Monitor::Keep,
    outcome: None,
};

const STOPS_T2: AlignOut = AlignOut {
    t2: TimerOrder::Stop,
    ..NOTHING
};

const STOPS_T3: AlignOut = AlignOut {
    t3: TimerOrder::Stop,
    ..NOTHING
};

const STOPS_T4: AlignOut = AlignOut {
    t4: TimerOrder::Stop,
    ..NOTHING
};

impl Align {
    /// An idle machine, all values cleared.
    pub fn new() -> Align
        ensures { result ≡ initial }
    {
        Align {
            state: State::Idle,
            local: false,
            short: false,
            aborts: 0,
            pending: false,
        }
    }

    /// Where alignment stands.
    pub fn state(&self) -> State
        ensures { result ≡ self.now.state }
    {
        self.state
    }

    /// Carries out the row of the table for this state and this input, or ignores it where there is none
    /// (Q.703 7.3).
    pub fn input(&mut self, event: AlignIn) -> AlignOut
        ensures out { result ≡ (row self.old event).out }
        ensures next { self.new ≡ (row self.old event).next }
    {
        match (self.state, event) {
            (State::Idle, AlignIn::Emergency) => self.note_emergency(),
            (State::Idle | State::NotAligned, AlignIn::Calm) => self.forget_emergency(),
            (State::Idle, AlignIn::Start) => self.seek(),
            (State::NotAligned, AlignIn::Emergency) => self.note_emergency(),
            (State::NotAligned, AlignIn::Heard(Status::OutOfAlignment | Status::Normal)) => {
                self.align(self.local)
            }
            (State::NotAligned, AlignIn::Heard(Status::Emergency)) => self.align(true),
            (State::NotAligned, AlignIn::T2) => self.go_idle(STOPS_T2, Some(Outcome::NotPossible)),
            (State::Aligned, AlignIn::Emergency) => self.ask_emergency(),
            (State::Aligned, AlignIn::Calm) => self.calm(false),
            (State::Aligned, AlignIn::Heard(Status::Normal)) => self.leave_aligned(self.short),
            (State::Aligned, AlignIn::Heard(Status::Emergency)) => self.leave_aligned(true),
            (State::Aligned, AlignIn::Heard(Status::OutOfService) | AlignIn::T3) => {
                self.go_idle(STOPS_T3, Some(Outcome::NotPossible))
            }
            (State::Proving, AlignIn::Emergency) => self.turn_to_emergency(),
            (State::Proving, AlignIn::Calm) => self.calm(self.short),
            (State::Proving, AlignIn::Heard(Status::Emergency)) => self.shorten(),
            (State::Proving, AlignIn::Heard(Status::OutOfAlignment)) => self.fall_back(),
            (State::Proving, AlignIn::Heard(Status::OutOfService)) => {
                self.go_idle(STOPS_T4, Some(Outcome::NotPossible))
            }
            (State::Proving, AlignIn::Abort) if !self.pending => self.count_abort(),
            (State::Proving, AlignIn::Good) if self.pending => self.prove(),
            (State::Proving, AlignIn::T4) if self.pending => self.prove(),
            (State::Proving, AlignIn::T4) => self.go_idle(STOPS_T4, Some(Outcome::Complete)),
            (State::NotAligned, AlignIn::Stop) => self.go_idle(STOPS_T2, None),
            (State::Aligned, AlignIn::Stop) => self.go_idle(STOPS_T3, None),
            (State::Proving, AlignIn::Stop) => self.go_idle(STOPS_T4, None),
            _ => NOTHING,
        }
    }

    // Emergency was asked for before anything was heard.
    fn note_emergency(&mut self) -> AlignOut
        ensures out { result ≡ nothing }
        ensures next { self.new ≡ record self.old { local = true } }
    {
        self.local = true;
        NOTHING
    }

    // And no longer asked for, before anything was heard.
    fn forget_emergency(&mut self) -> AlignOut
        ensures out { result ≡ nothing }
        ensures next { self.new ≡ record self.old { local = false } }
    {
        self.local = false;
        NOTHING
    }

    // From Idle: SIO goes out until something is heard.
    fn seek(&mut self) -> AlignOut
        ensures out { result ≡ (seeking self.old).out }
        ensures next { self.new ≡ (seeking self.old).next }
    {
        self.state = State::NotAligned;
        AlignOut {
            send: Some(Status::OutOfAlignment),
            t2: TimerOrder::Start,
            ..NOTHING
        }
    }

    // From NotAligned: the far end was heard.
    fn align(&mut self, short: bool) -> AlignOut
        ensures out { result ≡ (aligned (record self.old { short = short })).out }
        ensures next { self.new ≡ (aligned (record self.old { short = short })).next }
    {
        self.state = State::Aligned;
        self.short = short;
        AlignOut {
            send: Some(if self.local {
                Status::Emergency
            } else {
                Status::Normal
            }),
            t2: TimerOrder::Stop,
            t3: TimerOrder::Start,
            ..NOTHING
        }
    }

    // Emergency was asked for while aligned.
    fn ask_emergency(&mut self) -> AlignOut
        ensures out { result ≡ (asking self.old).out }
        ensures next { self.new ≡ (asking self.old).next }
    {
        self.local = true;
        self.short = true;
        AlignOut {
            send: Some(Status::Emergency),
            ..NOTHING
        }
    }

    // Emergency is asked for no longer, while aligned or proving.
    fn calm(&mut self, short: bool) -> AlignOut
        ensures out { result ≡ (calmed short self.old).out }
        ensures next { self.new ≡ (calmed short self.old).next }
    {
        if !self.local {
            return NOTHING;
        }
        self.local = false;
        self.short = short;
        AlignOut {
            send: Some(Status::Normal),
            ..NOTHING
        }
    }

    // From Aligned: the first proving period.
    fn leave_aligned(&mut self, short: bool) -> AlignOut
        ensures out { result ≡ (first_proving (record self.old { short = short })).out }
        ensures next { self.new ≡ (first_proving (record self.old { short = short })).next }
    {
        self.short = short;
        self.aborts = 0;
        AlignOut {
            t3: TimerOrder::Stop,
            ..self.prove()
        }
    }

    // Emergency was asked for while proving.
    fn turn_to_emergency(&mut self) -> AlignOut
        ensures out { result ≡ (sending Status.Emergency (shortened (record self.old { local = true }))).out }
        ensures next { self.new ≡ (shortened (record self.old { local = true })).next }
    {
        self.local = true;
        AlignOut {
            send: Some(Status::Emergency),
            ..self.shorten()
        }
    }

    // The proving period becomes that of emergency, if it isn't yet.
    fn shorten(&mut self) -> AlignOut
        ensures out { result ≡ (shortened self.old).out }
        ensures next { self.new ≡ (shortened self.old).next }
    {
        if self.short {
            return NOTHING;
        }
        self.short = true;
        self.prove()
    }

    // The far end lost its alignment.
    fn fall_back(&mut self) -> AlignOut
        ensures out { result ≡ (fallen_back self.old).out }
        ensures next { self.new ≡ (fallen_back self.old).next }
    {
        self.state = State::Aligned;
        self.pending = false;
        AlignOut {
            t3: TimerOrder::Start,
            t4: TimerOrder::Stop,
            monitor: Monitor::Off,
            ..NOTHING
        }
    }

    // The monitor broke off the proving period.
    fn count_abort(&mut self) -> AlignOut
        ensures out { result ≡ (aborted self.old).out }
        ensures next { self.new ≡ (aborted self.old).next }
    {
        if self.aborts >= LAST_ABORT - 1 {
            return self.go_idle(STOPS_T4, Some(Outcome::NotPossible));
        }
        self.aborts += 1;
        self.pending = true;
        AlignOut {
            monitor: Monitor::Off,
            ..NOTHING
        }
    }

    // A proving period begins, the first or anew.
    fn prove(&mut self) -> AlignOut
        ensures out { result ≡ (proving self.old).out }
        ensures next { self.new ≡ (proving self.old).next }
    {
        self.state = State::Proving;
        self.pending = false;
        let (octet_times, monitor) = if self.short {
            (EMERGENCY_PROVING, Monitor::Emergency)
        } else {
            (NORMAL_PROVING, Monitor::Normal)
        };
        AlignOut {
            t4: TimerOrder::StartFor { octet_times },
            monitor,
            ..NOTHING
        }
    }

    // Every way back to Idle: the state's timer stops, and all values are cleared.
    fn go_idle(&mut self, stops: AlignOut, outcome: Option<Outcome>) -> AlignOut
        ensures out { result ≡ (idle stops outcome).out }
        ensures next { self.new ≡ (idle stops outcome).next }
    {
        *self = Align::new();
        AlignOut {
            monitor: Monitor::Off,
            outcome,
            ..stops
        }
    }
}
