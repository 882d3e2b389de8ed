//! The machine: its state, and the rows of its table as the arms of one `match`.

ghost use Rattle.std.specs.Prelude.{◌≡◌, Some, None, false};
ghost use Rattle.l2_units.specs.declared.cause.Cause.{Cause};
ghost use Rattle.l2_state.specs.Table.{
  row,
  aligning,
  as_sent,
  down,
  link_after,
  out_or_not,
  raised,
  ready,
  silent,
  stopped,
  told_by,
};

use crate::signals::{Indication, Sending, StateIn, StateOut, Switch};
use l2_units::{Cause, Status, TimerOrder};
use std::marker::Model;

/// Where a link stands (Q.703 12), as the contracts see it.
#[derive(Clone, Copy, Debug, PartialEq, Eq)]
pub enum State {
    /// The link is out of service.
    OutOfService,
    /// Initial alignment is under way.
    Aligning,
    /// This end is aligned and waits for the far end to be so.
    Ready,
    /// Messages may pass.
    InService {
        /// The far end has a processor outage.
        paused: bool,
    },
}

/// Link state control of one end of a link. It's a few octets and takes no memory.
#[derive(Debug, Drop)]
pub struct LinkState {
    state: State,
    out: bool,
}

impl Model for LinkState {
    ghost use Rattle.l2_state.specs.Table.{Link};

    ghost Value = { Link };

    ghost view = { λ link. record {
      state = link.state;
      out = link.out;
    } };
}

// An ignored input's answer while nothing pauses the link, on which the others build.
const NOTHING: StateOut = StateOut {
    send: None,
    t1: TimerOrder::Keep,
    alignment: None,
    new_suerm: false,
    indication: None,
    paused: false,
};

// A far end with a processor outage is waited for without T1 (own).
const STOPS_T1: StateOut = StateOut {
    t1: TimerOrder::Stop,
    ..NOTHING
};

impl LinkState {
    /// A link out of service, of an end that has no processor outage.
    pub fn new() -> LinkState
        ensures { result ≡ record { state = State.OutOfService; out = false } }
    {
        LinkState {
            state: State::OutOfService,
            out: false,
        }
    }

    /// Where the link stands.
    pub fn state(&self) -> State
        ensures { result ≡ self.now.state }
    {
        self.state
    }

    /// Whether this end has a processor outage (Q.703 8.1).
    pub fn is_out(&self) -> bool
        ensures { result ≡ self.now.out }
    {
        self.out
    }

    /// Carries out the row of the table for this state and this input, or ignores it where there is none
    /// (Q.703 8, 12).
    pub fn input(&mut self, event: StateIn) -> StateOut
        ensures out { result ≡ told_by (row self.old.state event) self.old }
        ensures next { self.new ≡ link_after (row self.old.state event) self.old }
    {
        match (self.state, event) {
            (State::OutOfService, StateIn::Start) => self.align(),
            (State::Aligning, StateIn::Complete) => self.get_ready(),
            (State::Aligning, StateIn::NotPossible) => self.go_down(Cause::NotPossible),
            (State::Ready, StateIn::Fisu | StateIn::Msu) => self.go_up(),
            (State::Ready, StateIn::Heard(Status::ProcessorOutage)) => STOPS_T1, // (own)
            (State::Ready, StateIn::Heard(Status::OutOfAlignment | Status::OutOfService)) => {
                self.go_down(Cause::Status)
            }
            (State::Ready, StateIn::T1) => self.go_down(Cause::T1),
            (State::InService { .. }, StateIn::Fisu | StateIn::Msu) => self.pause(false), // (own)
            (State::InService { .. }, StateIn::Heard(Status::ProcessorOutage)) => self.pause(true), // (own)
            (
                State::InService { .. },
                StateIn::Heard(
                    Status::OutOfAlignment
                    | Status::Normal
                    | Status::Emergency
                    | Status::OutOfService,
                ),
            ) => self.go_down(Cause::Status),
            (State::Ready, StateIn::Failure(cause)) => self.go_down(cause),
            (State::InService { .. }, StateIn::Failure(cause)) => self.go_down(cause),
            (State::Aligning, StateIn::Stop) => self.stop(),
            (State::Ready, StateIn::Stop) => self.stop(),
            (State::InService { .. }, StateIn::Stop) => self.stop(),
            (_, StateIn::Outage) => self.change_outage(true),
            (_, StateIn::Recover) => self.change_outage(false),
            (State::InService { paused }, _) => StateOut { paused, ..NOTHING },
            _ => NOTHING,
        }
    }

    // From OutOfService: initial alignment begins.
    fn align(&mut self) -> StateOut
        ensures out { result ≡ told_by aligning self.old }
        ensures next { self.new ≡ link_after aligning self.old }
    {
        self.state = State::Aligning;
        StateOut {
            send: Some(Sending::Alignment),
            alignment: Some(Switch::Start),
            ..NOTHING
        }
    }

    // From Aligning: this end is ready.
    fn get_ready(&mut self) -> StateOut
        ensures out { result ≡ told_by ready self.old }
        ensures next { self.new ≡ link_after ready self.old }
    {
        self.state = State::Ready;
        StateOut {
            send: Some(self.sent(Sending::FillIn)),
            t1: TimerOrder::Start,
            new_suerm: true,
            ..NOTHING
        }
    }

    // From Ready: the far end is ready too.
    fn go_up(&mut self) -> StateOut
        ensures out { result ≡ told_by raised self.old }
        ensures next { self.new ≡ link_after raised self.old }
    {
        self.state = State::InService { paused: false };
        StateOut {
            send: Some(self.sent(Sending::Traffic)),
            t1: TimerOrder::Stop,
            indication: Some(Indication::Up),
            ..NOTHING
        }
    }

    // In service: the far end's processor outage begins or is over.
    fn pause(&mut self, paused: bool) -> StateOut
        ensures out { result ≡ told_by (silent (State.InService paused)) self.old }
        ensures next { self.new ≡ link_after (silent (State.InService paused)) self.old }
    {
        self.state = State::InService { paused };
        StateOut { paused, ..NOTHING }
    }

    // The link fails, or is taken out of service.
    fn go_down(&mut self, cause: Cause) -> StateOut
        ensures out { result ≡ told_by (down cause) self.old }
        ensures next { self.new ≡ link_after (down cause) self.old }
    {
        self.state = State::OutOfService;
        self.out = false; // (own)
        StateOut {
            send: Some(Sending::OutOfService),
            t1: TimerOrder::Stop,
            indication: Some(Indication::Down(cause)),
            ..NOTHING
        }
    }

    // The link is taken out of service at this end.
    fn stop(&mut self) -> StateOut
        ensures out { result ≡ told_by stopped self.old }
        ensures next { self.new ≡ link_after stopped self.old }
    {
        StateOut {
            alignment: Some(Switch::Stop),
            ..self.go_down(Cause::Stop)
        }
    }

    // An outage of this end begins or ends: what is sent is told anew.
    fn change_outage(&mut self, out: bool) -> StateOut
        ensures told { result ≡ told_by (out_or_not out self.old.state) self.old }
        ensures next { self.new ≡ record { state = self.old.state; out = out } }
    {
        self.out = out;
        match self.state {
            State::OutOfService | State::Aligning => NOTHING,
            State::Ready => StateOut {
                send: Some(self.sent(Sending::FillIn)),
                ..NOTHING
            },
            State::InService { paused } => StateOut {
                send: Some(self.sent(Sending::Traffic)),
                paused,
                ..NOTHING
            },
        }
    }

    // In an outage of this end SIPO stands for fill-in units and messages.
    fn sent(&self, what: Sending) -> Sending
        ensures { result ≡ as_sent self.now.out what }
    {
        match what {
            Sending::FillIn | Sending::Traffic if self.out => Sending::ProcessorOutage,
            _ => what,
        }
    }
}
