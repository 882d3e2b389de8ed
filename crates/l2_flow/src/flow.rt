ghost use Rattle.std.specs.Prelude.{◌≡◌, if◌then◌else◌};
ghost use Rattle.l2_flow.specs.Values.{cleared};
ghost use Rattle.l2_flow.specs.Table.{row_of};

use crate::input::FlowIn;
use crate::output::FlowOut;
use l2_units::TimerOrder::{Keep, Start, Stop};
use l2_units::{Cause, TimerOrder};
use std::marker::Model;

/// Flow control of one link: which ends are busy, and whether T7 runs.
#[derive(Debug, Drop)]
pub struct Flow {
    busy: bool,
    far_busy: bool,
    t7_runs: bool,
}

impl Model for Flow {
    ghost use Rattle.l2_flow.specs.Values.{Values};

    ghost Value = { Values };

    ghost view = { λ f. record { busy = f.busy; far_busy = f.far_busy; t7_runs = f.t7_runs } };
}

impl Flow {
    /// No end is busy and no timer runs.
    pub fn new() -> Self
        ensures { result ≡ cleared }
    {
        Flow {
            busy: false,
            far_busy: false,
            t7_runs: false,
        }
    }

    /// Whether this end is busy.
    pub fn is_busy(&self) -> bool
        ensures { result ≡ self.now.busy }
    {
        self.busy
    }

    /// Carries out the row of the table at the head of the crate; an input without a row is ignored.
    pub fn input(&mut self, input: FlowIn) -> FlowOut
        ensures tells { result ≡ (row_of self.old input).out }
        ensures leaves { self.new ≡ (row_of self.old input).next }
    {
        match input {
            FlowIn::Busy if !self.busy => {
                self.busy = true;
                FlowOut::SEND_BUSY
            }
            FlowIn::Ease if self.busy => {
                self.busy = false;
                FlowOut::timers(Stop, Keep, Keep)
            }
            FlowIn::T5 if self.busy => FlowOut::SEND_BUSY,
            FlowIn::HeardBusy => {
                // Q.703 9.3: the first B alone starts T6, each starts T7 anew.
                let t6 = started_if(!self.far_busy);
                self.far_busy = true;
                FlowOut::timers(Keep, t6, started_if(self.t7_runs))
            }
            FlowIn::Acked { more } => {
                self.far_busy = false;
                self.t7_runs = more;
                FlowOut::timers(Keep, Stop, if more { Start } else { Stop })
            }
            FlowIn::Sent if !self.t7_runs => {
                self.t7_runs = true;
                FlowOut::timers(Keep, Keep, Start)
            }
            FlowIn::Paused if self.t7_runs => {
                self.t7_runs = false;
                FlowOut::timers(Keep, Keep, Stop)
            }
            FlowIn::Resumed { more: true } if !self.t7_runs => {
                self.t7_runs = true;
                FlowOut::timers(Keep, Keep, Start)
            }
            FlowIn::T6 => FlowOut::failed(Cause::T6),
            FlowIn::T7 => FlowOut::failed(Cause::T7),
            FlowIn::Reset => {
                *self = Flow::new();
                FlowOut::timers(Stop, Stop, Stop)
            }
            FlowIn::Busy
            | FlowIn::Ease
            | FlowIn::T5
            | FlowIn::Sent
            | FlowIn::Paused
            | FlowIn::Resumed { .. } => FlowOut::timers(Keep, Keep, Keep),
        }
    }
}

/// A timer that is started on a condition, and else left alone.
fn started_if(condition: bool) -> TimerOrder
    ensures { result ≡ (if condition then TimerOrder.Start else TimerOrder.Keep) }
{
    if condition { Start } else { Keep }
}
