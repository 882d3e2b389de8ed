ghost use Rattle.std.specs.Prelude.{◌≡◌};
ghost use Rattle.l2_flow.specs.Table.{quiet};

use l2_units::{Cause, TimerOrder};

/// What flow control answers to one input.
#[derive(Clone, Copy, Debug, PartialEq, Eq)]
pub struct FlowOut {
    /// A status indication B (busy) is to be sent.
    pub send_busy: bool,
    /// T5, the time between two B that are sent ("sending SIB", Q.703 12.3).
    pub t5: TimerOrder,
    /// T6, the longest time that the far end may stay busy ("remote congestion").
    pub t6: TimerOrder,
    /// T7, the longest time that an acknowledgement may take ("excessive delay of acknowledgement"), outages of the
    /// far end's processor left out.
    pub t7: TimerOrder,
    /// The link has failed, for this cause: T6 or T7.
    pub failure: Option<Cause>,
}

impl FlowOut {
    /// B is to be sent, and again when T5 ends.
    pub(crate) const SEND_BUSY: FlowOut = FlowOut {
        send_busy: true,
        t5: TimerOrder::Start,
        t6: TimerOrder::Keep,
        t7: TimerOrder::Keep,
        failure: None,
    };

    /// Nothing but these timers.
    pub(crate) fn timers(t5: TimerOrder, t6: TimerOrder, t7: TimerOrder) -> Self
        ensures { result ≡ record quiet { t5 = t5; t6 = t6; t7 = t7 } }
    {
        FlowOut {
            send_busy: false,
            t5,
            t6,
            t7,
            failure: None,
        }
    }

    /// Nothing but this failure.
    pub(crate) fn failed(cause: Cause) -> Self
        ensures { result ≡ record quiet { failure = Some cause } }
    {
        FlowOut {
            send_busy: false,
            t5: TimerOrder::Keep,
            t6: TimerOrder::Keep,
            t7: TimerOrder::Keep,
            failure: Some(cause),
        }
    }
}
