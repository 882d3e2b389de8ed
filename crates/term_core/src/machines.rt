//! The machines' outputs, carried out as far as the terminal does it by itself (Q.703 12.1).

ghost use Rattle.std.specs.Prelude.{◌≡◌, ◌==◌, not};
ghost use Rattle.l2_align.specs.Table.{row as align_row};
ghost use Rattle.l2_state.specs.Table.{row as state_row};
ghost use Rattle.l2_flow.specs.Table.{row_of as flow_row};
ghost use Rattle.set_events.specs.Lent.{answer_in};
ghost use Rattle.term_model.specs.Machines.{
  aligns,
  controls,
  after_state,
  fallen,
  risen,
  stops_quietly,
  switched,
  ordered,
  status_after,
  aerm_after,
};

use crate::inside::Inside;
use l2_align::{AlignIn, Monitor, NORMAL_PROVING, Outcome};
use l2_flow::FlowIn;
use l2_monitors::{Aerm, Suerm};
use l2_state::{Indication, StateIn, Switch};
use l2_units::{Cause, Status, TimerOrder};
use set_events::AnswerRef;

impl Inside {
    /// An input of initial alignment control: what it makes of the terminal, and how alignment ends, if it does, which
    /// link state control is to be told (Q.703 7.3).
    pub fn align(&mut self, input: AlignIn) -> Option<Outcome>
        ensures next { self.new ≡ aligns input self.old }
        ensures end { result ≡ (align_row self.old.align input).out.outcome }
    {
        let out = self.align.input(input);
        self.status = named_status(out.send, self.status);
        set_aerm(&mut self.aerm, out.monitor);
        self.clocks.t2 = order_clock(out.t2, self.lengths.t2, self.clocks.t2);
        self.clocks.t3 = order_clock(out.t3, self.lengths.t3, self.clocks.t3);
        self.clocks.t4 = order_clock(out.t4, NORMAL_PROVING, self.clocks.t4);
        out.outcome
    }

    /// An input of flow control: what it makes of the terminal, and the failure that it tells, if any (Q.703 9.3).
    pub fn control(&mut self, input: FlowIn) -> Option<Cause>
        ensures next { self.new ≡ controls input self.old }
        ensures failure { result ≡ (flow_row self.old.flow input).out.failure }
    {
        let out = self.flow.input(input);
        self.b_due = self.b_due || out.send_busy;
        self.clocks.t5 = order_clock(out.t5, self.lengths.t5, self.clocks.t5);
        self.clocks.t6 = order_clock(out.t6, self.lengths.t6, self.clocks.t6);
        self.clocks.t7 = order_clock(out.t7, self.lengths.t7, self.clocks.t7);
        out.failure
    }

    /// An input of link state control: what it makes of the terminal, alignment started or stopped with it, and what
    /// level 3 is to be told, if anything (Q.703 12.1).
    pub fn state(&mut self, input: StateIn) -> Option<Indication>
        ensures next { self.new ≡ after_state input self.old }
        ensures told { result ≡ (state_row self.old.state input).out.indication }
    {
        let out = self.state.input(input);
        if out.new_suerm {
            self.suerm = Some(Suerm::new());
        }
        self.clocks.t1 = order_clock(out.t1, self.lengths.t1, self.clocks.t1);
        self.switch(out.alignment);
        out.indication
    }

    /// Link state control starts or stops initial alignment, which doesn't end it (Q.703 12.1).
    fn switch(&mut self, switch: Option<Switch>)
        ensures { self.new ≡ switched switch self.old }
    {
        match switch {
            None => {}
            Some(Switch::Start) => {
                self.align(AlignIn::Start);
            }
            Some(Switch::Stop) => {
                self.align(AlignIn::Stop);
            }
        }
    }

    /// The link has failed, for this cause: no unit is judged, flow control begins anew, no B is due, and the link
    /// isn't up at the set (Q.703 12.1).
    pub fn fall(&mut self, cause: Cause)
        ensures { self.new ≡ fallen cause self.old }
    {
        self.cause = Some(cause);
        self.suerm = None;
        self.up = false;
        self.control(FlowIn::Reset);
        self.b_due = false;
    }

    /// What the set answered to Up: at Done its error control begins anew, from FSN 127; any other answer changes
    /// nothing (own).
    pub fn rise(&mut self, answer: &AnswerRef<'_>)
        ensures { self.new ≡ risen (answer_in answer.now) self.old }
    {
        if let AnswerRef::Done = answer {
            self.up = true;
            self.blind = false;
            self.top = 127;
            self.unacked = false;
        }
    }

    /// The set said that a unit with this BSN acknowledged messages, or asked for retransmission: whether messages are
    /// left, which it is where that isn't the FSN of the last one sent (Q.703 5.3.1).
    pub fn acknowledge(&mut self, bsn: u16) -> bool
        ensures more { result ≡ not (bsn == self.old.top) }
        ensures next { self.new ≡ record self.old { unacked = result } }
    {
        self.unacked = bsn != u16::from(self.top);
        self.unacked
    }

    /// The set said that the link isn't up there: it's stopped here, and the set isn't told (own).
    pub fn stop_quietly(&mut self)
        ensures { self.new ≡ stops_quietly self.old }
    {
        if let Some(Indication::Down(cause)) = self.state(StateIn::Stop) {
            self.fall(cause);
        }
    }
}

/// What an order makes of a timer of this length (Q.703 12.3).
fn order_clock(order: TimerOrder, length: u32, clock: Option<u32>) -> Option<u32>
    ensures { result ≡ ordered order length clock }
{
    match order {
        TimerOrder::Keep => clock,
        TimerOrder::Start => Some(length),
        TimerOrder::StartFor { octet_times } => Some(octet_times),
        TimerOrder::Stop => None,
    }
}

/// The status that is sent, where alignment names another or none (Q.703 7.2).
fn named_status(named: Option<Status>, status: Status) -> Status
    ensures { result ≡ status_after named status }
{
    match named {
        None => status,
        Some(named) => named,
    }
}

/// Each proving has a new monitor, with the threshold of its kind; Off: none runs (Q.703 10.3).
fn set_aerm(aerm: &mut Option<Aerm>, monitor: Monitor)
    ensures { aerm.new ≡ aerm_after monitor aerm.old }
{
    match monitor {
        Monitor::Keep => {}
        Monitor::Off => *aerm = None,
        Monitor::Normal => *aerm = Some(Aerm::new(false)),
        Monitor::Emergency => *aerm = Some(Aerm::new(true)),
    }
}
