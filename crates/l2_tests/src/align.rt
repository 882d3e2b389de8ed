//! Whole runs, in the trade's words.
use super::holds;
use l2_align::{Align, AlignIn, AlignOut, Monitor, Outcome};
use l2_units::{Status, TimerOrder};
use std::test::Fail;

/// What the machine answers. All tests ask through here, so that the prover meets the contract once.
fn told(align: &mut Align, event: AlignIn) -> AlignOut {
    align.input(event)
}

// A machine in a normal proving period.
fn proving_normally() -> Align {
    let mut align = Align::new();
    told(&mut align, AlignIn::Start);
    told(&mut align, AlignIn::Heard(Status::OutOfAlignment));
    told(&mut align, AlignIn::Heard(Status::Normal));
    align
}

fn starts(align: &mut Align) -> bool {
    let out = told(align, AlignIn::Start);
    out.send == Some(Status::OutOfAlignment) && out.t2 == TimerOrder::Start
}

fn is_aligned(align: &mut Align) -> bool {
    let out = told(align, AlignIn::Heard(Status::OutOfAlignment));
    let t2_ends = out.t2 == TimerOrder::Stop;
    out.send == Some(Status::Normal) && t2_ends && out.t3 == TimerOrder::Start
}

/// A normal proving period begins with this.
fn is_normal_proving(out: &AlignOut) -> bool {
    let octet_times = 65_536;
    out.t4 == TimerOrder::StartFor { octet_times } && out.monitor == Monitor::Normal
}

fn begins_to_prove(align: &mut Align) -> bool {
    let out = told(align, AlignIn::Heard(Status::Normal));
    out.t3 == TimerOrder::Stop && is_normal_proving(&out)
}

#[test]
fn normal_alignment_completes() -> Result<(), Fail> {
    holds(completes(&mut Align::new()))
}

fn completes(align: &mut Align) -> bool {
    starts(align)
        && is_aligned(align)
        && begins_to_prove(align)
        && told(align, AlignIn::T4).outcome == Some(Outcome::Complete)
}

fn is_aborted(align: &mut Align) -> bool {
    let out = told(align, AlignIn::Abort);
    out.monitor == Monitor::Off && out.outcome.is_none()
}

#[test]
fn fifth_abort_since_aligned_was_left() -> Result<(), Fail> {
    holds(ends_at_the_fifth(&mut proving_normally()))
}

fn ends_at_the_fifth(align: &mut Align) -> bool {
    for _ in 0..4u8 {
        if !is_aborted(align) || !is_normal_proving(&told(align, AlignIn::Good)) {
            return false;
        }
    }
    told(align, AlignIn::Abort).outcome == Some(Outcome::NotPossible)
}

#[test]
fn emergency_heard_in_normal_proving() -> Result<(), Fail> {
    let shortened = AlignOut {
        send: None,
        t2: TimerOrder::Keep,
        t3: TimerOrder::Keep,
        t4: TimerOrder::StartFor { octet_times: 4_096 },
        monitor: Monitor::Emergency,
        outcome: None,
    };
    let mut align = proving_normally();
    holds(told(&mut align, AlignIn::Heard(Status::Emergency)) == shortened)
}

/// Nothing is told but this status to send.
fn only_sends(align: &mut Align, event: AlignIn, send: Option<Status>) -> bool {
    let wanted = AlignOut {
        send,
        t2: TimerOrder::Keep,
        t3: TimerOrder::Keep,
        t4: TimerOrder::Keep,
        monitor: Monitor::Keep,
        outcome: None,
    };
    told(align, event) == wanted
}

/// Emergency ceases in an emergency proving, which goes on, with SIN.
#[test]
fn emergency_ceases_while_proving() -> Result<(), Fail> {
    holds(is_calmed_while_proving(&mut proving_normally()))
}

fn is_calmed_while_proving(align: &mut Align) -> bool {
    told(align, AlignIn::Emergency).send == Some(Status::Emergency)
        && only_sends(align, AlignIn::Calm, Some(Status::Normal))
        && only_sends(align, AlignIn::Calm, None)
        && only_sends(align, AlignIn::Heard(Status::Emergency), None)
        && told(align, AlignIn::T4).outcome == Some(Outcome::Complete)
}

/// It ceases while aligned: the period that begins then is a normal one.
#[test]
fn emergency_ceases_while_aligned() -> Result<(), Fail> {
    holds(is_calmed_while_aligned(&mut Align::new()))
}

fn is_calmed_while_aligned(align: &mut Align) -> bool {
    starts(align)
        && is_aligned(align)
        && only_sends(align, AlignIn::Emergency, Some(Status::Emergency))
        && only_sends(align, AlignIn::Calm, Some(Status::Normal))
        && begins_to_prove(align)
}

/// It ceases before anything is heard: SIN goes out at once.
#[test]
fn emergency_ceases_before_alignment() -> Result<(), Fail> {
    let mut align = Align::new();
    told(&mut align, AlignIn::Emergency);
    holds(
        starts(&mut align)
            && only_sends(&mut align, AlignIn::Calm, None)
            && is_aligned(&mut align)
            && begins_to_prove(&mut align),
    )
}
