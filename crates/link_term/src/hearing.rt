//! What a terminal does with a mark of the line: the monitors, the machines, the set (Q.703 5 to 10).
ghost use Rattle.std.specs.Prelude.{◌≡◌, ◌≤◌, Some, None, length};
ghost use Rattle.l2_bits.specs.Deframing.{marked as mark_of};
ghost use Rattle.l2_units.specs.declared.status.Status.TheVariants.{Busy};
ghost use Rattle.l2_units.specs.Lent.{body_in, unit_in};
ghost use Rattle.link_term.specs.Reading.{brings, status_heard, report_heard, told_heard};
ghost use Rattle.link_term.specs.Talking.{Talks, asked};
ghost use Rattle.set_events.specs.Lent.{answer_in};
ghost use Rattle.term_model.specs.Hearing.{
  marked,
  judged,
  heard,
  all_hear,
  is_held,
  waits,
  machines_hear,
  flow_hears,
  reaches_set,
  reported,
  acks,
  faults,
};

use super::door::Door;
use super::machines::{input_align, input_flow, input_state};
use l2_align::AlignIn;
use l2_bits::MarkKind;
use l2_flow::FlowIn;
use l2_state::StateIn;
use l2_units::{Cause, ControlFault, Status, UnitRef, read_ref};
use set_events::{AnswerRef, EventRef, Refusal, Reply, Report, SetFault};
use term_core::{Inside, Verdict};

/// A mark of this kind, of these octets where it's a good unit: the monitor that runs is told, and then a unit that is
/// readable is heard.
pub(crate) fn mark<D: Door>(
    inside: &mut Inside,
    door: &mut D,
    reply: &mut Reply,
    kind: MarkKind,
    octets: &[u8],
) -> Result<(), SetFault>
    requires { D.number door.old ≡ inside.old.link }
    ensures talks { Talks (marked (mark_of kind octets.now) inside.old) result (asked D.Door door.old)
        (asked D.Door door.new) inside.new }
    ensures at { D.number door.new ≡ inside.new.link }
    ensures number { D.number door.new ≡ D.number door.old }
    ensures door { D.is_same door.old door.new }
{
    match kind {
        MarkKind::Good => match read_ref(octets) {
            Ok(unit) => readable(inside, door, reply, &unit),
            Err(_) => damaged(inside, door),
        },
        MarkKind::Bad | MarkKind::Sixteen => damaged(inside, door),
    }
}

/// A mark that brings no readable unit is an error, and no more.
fn damaged<D: Door>(inside: &mut Inside, door: &mut D) -> Result<(), SetFault>
    requires { D.number door.old ≡ inside.old.link }
    ensures talks { Talks (brings None inside.old) result (asked D.Door door.old) (asked D.Door door.new) inside.new }
    ensures at { D.number door.new ≡ inside.new.link }
    ensures number { D.number door.new ≡ D.number door.old }
    ensures door { D.is_same door.old door.new }
{
    judge(inside, door, true)
}

/// A mark that brings this unit is no error, and the unit is heard.
fn readable<D: Door>(
    inside: &mut Inside,
    door: &mut D,
    reply: &mut Reply,
    unit: &UnitRef<'_>,
) -> Result<(), SetFault>
    requires at { D.number door.old ≡ inside.old.link }
    requires few { length (body_in unit.now) ≤ 273 }
    ensures talks { Talks (brings (Some (unit_in unit.now)) inside.old) result (asked D.Door door.old)
        (asked D.Door door.new) inside.new }
    ensures at { D.number door.new ≡ inside.new.link }
    ensures number { D.number door.new ≡ D.number door.old }
    ensures door { D.is_same door.old door.new }
{
    judge(inside, door, false)?;
    hear(inside, door, reply, unit)
}

/// The monitor that runs is told of a mark, an error or not (Q.703 10).
#[tactic(auto, using(crate::proofs::Links::judged_link))]
fn judge<D: Door>(inside: &mut Inside, door: &mut D, error: bool) -> Result<(), SetFault>
    requires { D.number door.old ≡ inside.old.link }
    ensures talks { Talks (judged error inside.old) result (asked D.Door door.old) (asked D.Door door.new) inside.new }
    ensures at { D.number door.new ≡ inside.new.link }
    ensures number { D.number door.new ≡ D.number door.old }
    ensures door { D.is_same door.old door.new }
{
    match inside.judge(error) {
        Verdict::Fine => Ok(()),
        Verdict::Abort => input_align(inside, door, AlignIn::Abort),
        Verdict::Failed => input_state(inside, door, StateIn::Failure(Cause::Suerm)),
    }
}

/// A unit that is readable, and then what it says of the far end's processor (Q.703 8).
fn hear<D: Door>(
    inside: &mut Inside,
    door: &mut D,
    reply: &mut Reply,
    unit: &UnitRef<'_>,
) -> Result<(), SetFault>
    requires at { D.number door.old ≡ inside.old.link }
    requires few { length (body_in unit.now) ≤ 273 }
    ensures talks { Talks (heard (Some (unit_in unit.now)) inside.old) result (asked D.Door door.old)
        (asked D.Door door.new) inside.new }
    ensures at { D.number door.new ≡ inside.new.link }
    ensures number { D.number door.new ≡ D.number door.old }
    ensures door { D.is_same door.old door.new }
{
    let was_held = inside.is_held();
    tell_all(inside, door, reply, unit)?;
    tell_outage(inside, door, was_held)
}

/// T7 stands still while an end has a processor outage, and starts anew behind it, where messages are unacknowledged
/// (own).
pub(crate) fn tell_outage<D: Door>(
    inside: &mut Inside,
    door: &mut D,
    was_held: bool,
) -> Result<(), SetFault>
    requires { D.number door.old ≡ inside.old.link }
    ensures talks { Talks (waits was_held (is_held inside.old) inside.old) result (asked D.Door door.old)
        (asked D.Door door.new) inside.new }
    ensures at { D.number door.new ≡ inside.new.link }
    ensures number { D.number door.new ≡ D.number door.old }
    ensures door { D.is_same door.old door.new }
{
    if inside.is_held() {
        return input_flow(inside, door, FlowIn::Paused);
    }
    if was_held && inside.is_up() {
        let more = inside.has_unacked();
        return input_flow(inside, door, FlowIn::Resumed { more });
    }
    Ok(())
}

/// A unit that is readable: a proving that was aborted may begin anew before the machines hear it (Q.703 7.3), and the
/// set hears it where the link is up there after that.
fn tell_all<D: Door>(
    inside: &mut Inside,
    door: &mut D,
    reply: &mut Reply,
    unit: &UnitRef<'_>,
) -> Result<(), SetFault>
    requires at { D.number door.old ≡ inside.old.link }
    requires few { length (body_in unit.now) ≤ 273 }
    ensures talks { Talks (all_hear (unit_in unit.now) inside.old) result (asked D.Door door.old)
        (asked D.Door door.new) inside.new }
    ensures at { D.number door.new ≡ inside.new.link }
    ensures number { D.number door.new ≡ D.number door.old }
    ensures door { D.is_same door.old door.new }
{
    input_align(inside, door, AlignIn::Good)?;
    tell_machines(inside, door, unit)?;
    tell_set(inside, door, reply, unit)
}

/// The machines hear a unit (Q.703 7.3, 8.2, 9.3, 11.1).
fn tell_machines<D: Door>(
    inside: &mut Inside,
    door: &mut D,
    unit: &UnitRef<'_>,
) -> Result<(), SetFault>
    requires { D.number door.old ≡ inside.old.link }
    ensures talks { Talks (machines_hear (unit_in unit.now) inside.old) result (asked D.Door door.old)
        (asked D.Door door.new) inside.new }
    ensures at { D.number door.new ≡ inside.new.link }
    ensures number { D.number door.new ≡ D.number door.old }
    ensures door { D.is_same door.old door.new }
{
    match unit {
        UnitRef::Fisu { .. } => input_state(inside, door, StateIn::Fisu),
        UnitRef::Lssu { status, .. } => hear_status(inside, door, *status),
        UnitRef::Msu { .. } => input_state(inside, door, StateIn::Msu),
    }
}

/// A status: alignment hears it, then link state control, then flow control (Q.703 7.3, 8.2, 9.3).
fn hear_status<D: Door>(inside: &mut Inside, door: &mut D, status: Status) -> Result<(), SetFault>
    requires { D.number door.old ≡ inside.old.link }
    ensures talks { Talks (status_heard status inside.old) result (asked D.Door door.old)
        (asked D.Door door.new) inside.new }
    ensures at { D.number door.new ≡ inside.new.link }
    ensures number { D.number door.new ≡ D.number door.old }
    ensures door { D.is_same door.old door.new }
{
    input_align(inside, door, AlignIn::Heard(status))?;
    input_state(inside, door, StateIn::Heard(status))?;
    tell_flow(inside, door, status)
}

/// Busy is flow control's, in every state of the link (Q.703 9.3, own), but for a processor outage of this end (8.1, own).
fn tell_flow<D: Door>(inside: &mut Inside, door: &mut D, status: Status) -> Result<(), SetFault>
    requires { D.number door.old ≡ inside.old.link }
    ensures talks { Talks (flow_hears status inside.old) result (asked D.Door door.old)
        (asked D.Door door.new) inside.new }
    ensures at { D.number door.new ≡ inside.new.link }
    ensures number { D.number door.new ≡ D.number door.old }
    ensures door { D.is_same door.old door.new }
{
    match status {
        Status::Busy => tell_busy(inside, door),
        _ => Ok(()),
    }
}

/// The far end is busy (Q.703 9.3), if this end hears it.
fn tell_busy<D: Door>(inside: &mut Inside, door: &mut D) -> Result<(), SetFault>
    requires { D.number door.old ≡ inside.old.link }
    ensures talks { Talks (flow_hears Busy inside.old) result (asked D.Door door.old) (asked D.Door door.new) inside.new }
    ensures at { D.number door.new ≡ inside.new.link }
    ensures number { D.number door.new ≡ D.number door.old }
    ensures door { D.is_same door.old door.new }
{
    if inside.is_deaf() {
        return Ok(());
    }
    input_flow(inside, door, FlowIn::HeardBusy)
}

/// The set hears a unit of any kind, where the link is up there (Q.703 5, 6), but in a processor outage of this end (8.1).
fn tell_set<D: Door>(
    inside: &mut Inside,
    door: &mut D,
    reply: &mut Reply,
    unit: &UnitRef<'_>,
) -> Result<(), SetFault>
    requires at { D.number door.old ≡ inside.old.link }
    requires few { length (body_in unit.now) ≤ 273 }
    ensures talks { Talks (reaches_set (unit_in unit.now) inside.old) result (asked D.Door door.old)
        (asked D.Door door.new) inside.new }
    ensures at { D.number door.new ≡ inside.new.link }
    ensures number { D.number door.new ≡ D.number door.old }
    ensures door { D.is_same door.old door.new }
{
    if inside.is_out() {
        return Ok(());
    }
    if inside.is_up() {
        return tell_heard(inside, door, reply, unit);
    }
    Ok(())
}

/// The set hears a unit, and its answer is obeyed.
fn tell_heard<D: Door>(
    inside: &mut Inside,
    door: &mut D,
    reply: &mut Reply,
    unit: &UnitRef<'_>,
) -> Result<(), SetFault>
    requires at { D.number door.old ≡ inside.old.link }
    requires few { length (body_in unit.now) ≤ 273 }
    ensures talks { Talks (told_heard (unit_in unit.now) inside.old) result (asked D.Door door.old)
        (asked D.Door door.new) inside.new }
    ensures at { D.number door.new ≡ inside.new.link }
    ensures number { D.number door.new ≡ D.number door.old }
    ensures door { D.is_same door.old door.new }
{
    let event = EventRef::Heard {
        link: inside.link(),
        unit: *unit,
    };
    door.step(&event, reply)?;
    report(inside, door, &reply.get(), unit.head().bsn)
}

/// What the set answers to a unit with this BSN: its report; that the link isn't up there, so that it's stopped here;
/// or anything else, as a report of nothing (own).
#[tactic(auto, using(crate::proofs::Links::quiet_link))]
fn report<D: Door>(
    inside: &mut Inside,
    door: &mut D,
    answer: &AnswerRef<'_>,
    bsn: u16,
) -> Result<(), SetFault>
    requires { D.number door.old ≡ inside.old.link }
    ensures talks { Talks (reported (answer_in answer.now) bsn inside.old) result (asked D.Door door.old)
        (asked D.Door door.new) inside.new }
    ensures at { D.number door.new ≡ inside.new.link }
    ensures number { D.number door.new ≡ D.number door.old }
    ensures door { D.is_same door.old door.new }
{
    match answer {
        AnswerRef::Heard { report } => obey_report(inside, door, *report, bsn),
        AnswerRef::Refused {
            why: Refusal::NotUp,
        } => {
            inside.stop_quietly();
            Ok(())
        }
        _ => Ok(()),
    }
}

/// A report of the set: flow control first, and then the link's failure, if it tells one (Q.703 5.3, 9.3).
fn obey_report<D: Door>(
    inside: &mut Inside,
    door: &mut D,
    report: Report,
    bsn: u16,
) -> Result<(), SetFault>
    requires { D.number door.old ≡ inside.old.link }
    ensures talks { Talks (report_heard report bsn inside.old) result (asked D.Door door.old)
        (asked D.Door door.new) inside.new }
    ensures at { D.number door.new ≡ inside.new.link }
    ensures number { D.number door.new ≡ D.number door.old }
    ensures door { D.is_same door.old door.new }
{
    tell_acks(inside, door, report, bsn)?;
    tell_faults(inside, door, report.fault)
}

/// What acknowledges, or asks for retransmission (own), ends the far end's busy time; T7 goes on where messages are
/// left (Q.703 9.3).
fn tell_acks<D: Door>(
    inside: &mut Inside,
    door: &mut D,
    report: Report,
    bsn: u16,
) -> Result<(), SetFault>
    requires { D.number door.old ≡ inside.old.link }
    ensures talks { Talks (acks report bsn inside.old) result (asked D.Door door.old)
        (asked D.Door door.new) inside.new }
    ensures at { D.number door.new ≡ inside.new.link }
    ensures number { D.number door.new ≡ D.number door.old }
    ensures door { D.is_same door.old door.new }
{
    if report.acked > 0 || report.resend {
        let more = inside.acknowledge(bsn);
        return input_flow(inside, door, FlowIn::Acked { more });
    }
    Ok(())
}

/// Two abnormal BSNs, or FIBs, in three units are a failure of the link (Q.703 5.3.1, 5.3.2).
fn tell_faults<D: Door>(
    inside: &mut Inside,
    door: &mut D,
    fault: Option<ControlFault>,
) -> Result<(), SetFault>
    requires { D.number door.old ≡ inside.old.link }
    ensures talks { Talks (faults fault inside.old) result (asked D.Door door.old) (asked D.Door door.new) inside.new }
    ensures at { D.number door.new ≡ inside.new.link }
    ensures number { D.number door.new ≡ D.number door.old }
    ensures door { D.is_same door.old door.new }
{
    match fault {
        None => Ok(()),
        Some(fault) => input_state(inside, door, StateIn::Failure(fault.cause())),
    }
}
