//! What flow control tells, worked out by hand from Q.703 9.
use super::holds;
use l2_flow::*;
use l2_units::TimerOrder;
use l2_units::TimerOrder::{Keep, Start, Stop};
use std::test::Fail;

/// An input, whether the machine tells then that B is to be sent, and its orders for T5, T6 and T7.
type Row = (FlowIn, bool, TimerOrder, TimerOrder, TimerOrder);

/// The machine tells just this, and that the link has not failed. All tests ask through here or [`fails`], so that the
/// prover meets the contract twice.
fn tells(flow: &mut Flow, rows: &[Row]) -> bool {
    for row in rows {
        let (input, send_busy, t5, t6, t7) = *row;
        let wanted = FlowOut {
            send_busy,
            t5,
            t6,
            t7,
            failure: None,
        };
        if flow.input(input) != wanted {
            return false;
        }
    }
    true
}

/// The machine tells that the link has failed, for the reason of this number.
fn fails(flow: &mut Flow, input: FlowIn, number: u8) -> bool {
    match flow.input(input).failure {
        Some(cause) => cause.number() == number,
        None => false,
    }
}

#[test]
fn busy_end_sends_b_until_it_eases() -> Result<(), Fail> {
    let rows = [
        (FlowIn::Busy, true, Start, Keep, Keep),
        (FlowIn::T5, true, Start, Keep, Keep),
        (FlowIn::Ease, false, Stop, Keep, Keep),
        (FlowIn::T5, false, Keep, Keep, Keep),
    ];
    holds(tells(&mut Flow::new(), &rows))
}

#[test]
fn far_end_holds_back_its_acknowledgements() -> Result<(), Fail> {
    let rows = [
        (FlowIn::Sent, false, Keep, Keep, Start),
        (FlowIn::HeardBusy, false, Keep, Start, Start),
        (FlowIn::Sent, false, Keep, Keep, Keep),
        (FlowIn::HeardBusy, false, Keep, Keep, Start),
        (FlowIn::Acked { more: true }, false, Keep, Stop, Start),
        (FlowIn::Acked { more: false }, false, Keep, Stop, Stop),
        (FlowIn::HeardBusy, false, Keep, Start, Keep),
        (FlowIn::Reset, false, Stop, Stop, Stop),
        (FlowIn::HeardBusy, false, Keep, Start, Keep),
    ];
    holds(tells(&mut Flow::new(), &rows))
}

/// T7 stands still while the far end has a processor outage, T6 doesn't; it starts behind it where messages are
/// unacknowledged, and doesn't start anew where an acknowledgement has started it (Q.703 8, own).
#[test]
fn far_end_has_processor_outages() -> Result<(), Fail> {
    let rows = [
        (FlowIn::Paused, false, Keep, Keep, Keep),
        (FlowIn::Resumed { more: false }, false, Keep, Keep, Keep),
        (FlowIn::Sent, false, Keep, Keep, Start),
        (FlowIn::Paused, false, Keep, Keep, Stop),
        (FlowIn::Paused, false, Keep, Keep, Keep),
        (FlowIn::HeardBusy, false, Keep, Start, Keep),
        (FlowIn::Resumed { more: true }, false, Keep, Keep, Start),
        (FlowIn::Resumed { more: true }, false, Keep, Keep, Keep),
        (FlowIn::HeardBusy, false, Keep, Keep, Start),
        (FlowIn::Paused, false, Keep, Keep, Stop),
        (FlowIn::Acked { more: true }, false, Keep, Stop, Start),
        (FlowIn::Resumed { more: true }, false, Keep, Keep, Keep),
        (FlowIn::Acked { more: false }, false, Keep, Stop, Stop),
        (FlowIn::Resumed { more: false }, false, Keep, Keep, Keep),
    ];
    holds(tells(&mut Flow::new(), &rows))
}

#[test]
fn ends_of_t6_and_t7_are_failures_5_and_6() -> Result<(), Fail> {
    let mut flow = Flow::new();
    let sixth = fails(&mut flow, FlowIn::T6, 5);
    let seventh = fails(&mut flow, FlowIn::T7, 6);
    holds(sixth && seventh)
}
