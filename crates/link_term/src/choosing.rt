//! What a terminal sends next (Q.703 11.2, 12.1).
ghost use Rattle.std.specs.Prelude.{◌≡◌, ◌≤◌, ◌<◌, List, [], length, IfOk, IsTrue};
ghost use Rattle.l2_units.specs.declared.profile.Profile.TheVariants.{Narrow};
ghost use Rattle.l2_units.specs.declared.unit.Unit.TheVariants.{Fisu as FisuUnit};
ghost use Rattle.l2_units.specs.Grammar.{IsHeadOf, head_of};
ghost use Rattle.l2_units.specs.Lent.{body_in, unit_in};
ghost use Rattle.link_term.specs.declared.counts.Filling.TheVariants.{Chosen};
ghost use Rattle.link_term.specs.Filling.{next_asked, served, Fills, FillsBits};
ghost use Rattle.link_term.specs.Talking.{Talks, asked, at_door};
ghost use Rattle.set_events.specs.Lent.{answer_in, body_in as body_of_answer};
ghost use Rattle.set_events.specs.declared.history.Entry.{Entry};
ghost use Rattle.term_model.specs.Choosing.{chosen, counts_sent, filled, given, held_back, is_narrow, sends, sends_fisu, sends_start_fisu, sends_status, sent_by, serves, unless_out, up_first};
ghost use Rattle.term_model.specs.Talk.{done};
ghost use Rattle.term_model.specs.Terminal.{start_head};

use super::counts::Filling;
use super::door::Door;
use super::machines::ask_up;
use super::tap::Tap;
use l2_flow::FlowIn;
use l2_state::State;
use l2_units::{Status, UnitRef};
use set_events::{AnswerRef, EventRef, Refusal, Reply, SetFault};
use term_core::{Inside, first_header};

/// Where fewer than eight bits are left to send, a unit is chosen and appended, unless the set gives one of the wide
/// profile.
pub(crate) fn fill<D: Door, T: Tap>(
    inside: &mut Inside,
    door: &mut D,
    reply: &mut Reply,
    tap: &mut T,
) -> Result<Filling, SetFault>
    requires { D.number door.old ≡ inside.old.link }
    ensures fills { Fills (filled inside.old) result (asked D.Door door.old)
        (at_door D.Door inside.new door.new) T.told tap.old tap.new }
    ensures at { D.number door.new ≡ inside.new.link }
    ensures number { D.number door.new ≡ D.number door.old }
    ensures door { D.is_same door.old door.new }
{
    if !inside.is_short() {
        return Ok(Filling::Enough);
    }
    choose(inside, door, reply, tap)
}

/// A unit is chosen, by where the link stands (Q.703 7.2, 12.1), and appended.
fn choose<D: Door, T: Tap>(
    inside: &mut Inside,
    door: &mut D,
    reply: &mut Reply,
    tap: &mut T,
) -> Result<Filling, SetFault>
    requires at { D.number door.old ≡ inside.old.link }
    requires short { length inside.old.bits < 8 }
    ensures sends { Fills (chosen inside.old.state inside.old) result (asked D.Door door.old)
        (at_door D.Door inside.new door.new) T.told tap.old tap.new }
    ensures at { D.number door.new ≡ inside.new.link }
    ensures number { D.number door.new ≡ D.number door.old }
    ensures door { D.is_same door.old door.new }
{
    match inside.state_now() {
        State::OutOfService => send_status(inside, Status::OutOfService, tap),
        State::Aligning => {
            let status = inside.status();
            send_status(inside, status, tap);
        }
        State::Ready => send_ready(inside, tap),
        State::InService { paused } => return serve(inside, door, reply, paused, tap),
    }
    Ok(Filling::Chosen)
}

/// A link that is ready sends the start FISU (Q.703 12.1), or SIPO in a processor outage of this end (8.1).
fn send_ready<T: Tap>(inside: &mut Inside, tap: &mut T)
    requires { length inside.old.bits < 8 }
    ensures sends { (made : List Entry) → FillsBits (unless_out (sends_start_fisu inside.old) inside.old) Chosen made made
        inside.new T.told tap.old tap.new }
    ensures link { inside.new.link ≡ inside.old.link }
{
    if inside.is_out() {
        send_status(inside, Status::ProcessorOutage, tap);
        return;
    }
    send_own(inside, &start_fisu(), tap);
}

/// A unit that the set wasn't asked for is appended.
fn send_own<T: Tap>(inside: &mut Inside, unit: &UnitRef<'_>, tap: &mut T)
    requires short { length inside.old.bits < 8 }
    requires narrow { IsHeadOf Narrow (head_of (unit_in unit.now)) }
    requires few { length (body_in unit.now) ≤ 273 }
    ensures sends { (made : List Entry) → FillsBits (sends (unit_in unit.now) inside.old) Chosen made made inside.new
        T.told tap.old tap.new }
    ensures link { inside.new.link ≡ inside.old.link }
{
    inside.append(unit);
    tap.sends(unit);
}

/// An LSSU of this status is appended, with the header of the last unit before (own).
fn send_status<T: Tap>(inside: &mut Inside, status: Status, tap: &mut T)
    requires { length inside.old.bits < 8 }
    ensures sends { (made : List Entry) → FillsBits (sends_status status inside.old) Chosen made made inside.new
        T.told tap.old tap.new }
    ensures link { inside.new.link ≡ inside.old.link }
{
    let unit = UnitRef::Lssu {
        head: inside.last_head(),
        status,
    };
    send_own(inside, &unit, tap);
}

/// A FISU is appended, with the header of the last unit before (own).
fn send_fisu<T: Tap>(inside: &mut Inside, tap: &mut T)
    requires { length inside.old.bits < 8 }
    ensures sends { (made : List Entry) → FillsBits (sends_fisu inside.old) Chosen made made inside.new
        T.told tap.old tap.new }
    ensures link { inside.new.link ≡ inside.old.link }
{
    let unit = UnitRef::Fisu {
        head: inside.last_head(),
    };
    send_own(inside, &unit, tap);
}

/// The FISU of a link on which nothing was sent or accepted (Q.703 12.1).
fn start_fisu() -> UnitRef<'static>
    ensures value { unit_in result ≡ FisuUnit start_head }
    ensures narrow { IsHeadOf Narrow (head_of (unit_in result)) }
    ensures empty { body_in result ≡ [] }
{
    UnitRef::Fisu {
        head: first_header(),
    }
}

/// What is sent in service; while the set refuses Up it's asked again before each unit.
fn serve<D: Door, T: Tap>(
    inside: &mut Inside,
    door: &mut D,
    reply: &mut Reply,
    paused: bool,
    tap: &mut T,
) -> Result<Filling, SetFault>
    requires at { D.number door.old ≡ inside.old.link }
    requires short { length inside.old.bits < 8 }
    ensures sends { Fills (served paused inside.old) result (asked D.Door door.old)
        (at_door D.Door inside.new door.new) T.told tap.old tap.new }
    ensures at { D.number door.new ≡ inside.new.link }
    ensures number { D.number door.new ≡ D.number door.old }
    ensures door { D.is_same door.old door.new }
{
    ask_up_first(inside, door)?;
    serve_up(inside, door, reply, paused, tap)
}

/// The set is asked for Up, unless it has said Done.
fn ask_up_first<D: Door>(inside: &mut Inside, door: &mut D) -> Result<(), SetFault>
    requires { D.number door.old ≡ inside.old.link }
    ensures talks { Talks (up_first inside.old) result (asked D.Door door.old) (asked D.Door door.new) inside.new }
    ensures at { D.number door.new ≡ inside.new.link }
    ensures number { D.number door.new ≡ D.number door.old }
    ensures door { D.is_same door.old door.new }
    ensures bits { IfOk result (λ done. inside.new.bits ≡ inside.old.bits) }
{
    if inside.is_up() {
        return Ok(());
    }
    ask_up(inside, door)
}

/// SIPO in a processor outage of this end (Q.703 8.1); else the start FISU while the set refuses Up; else SIB where it's due (Q.703 9.3); else a FISU in a processor outage of the
/// far end (8.2, own); else what the set's error control gives (5, 6).
fn serve_up<D: Door, T: Tap>(
    inside: &mut Inside,
    door: &mut D,
    reply: &mut Reply,
    paused: bool,
    tap: &mut T,
) -> Result<Filling, SetFault>
    requires at { D.number door.old ≡ inside.old.link }
    requires short { length inside.old.bits < 8 }
    ensures sends { Fills (unless_out (serves paused inside.old) inside.old) result (asked D.Door door.old)
        (at_door D.Door inside.new door.new) T.told tap.old tap.new }
    ensures at { D.number door.new ≡ inside.new.link }
    ensures number { D.number door.new ≡ D.number door.old }
    ensures door { D.is_same door.old door.new }
{
    if inside.is_out() {
        send_status(inside, Status::ProcessorOutage, tap);
        return Ok(Filling::Chosen);
    }
    if !inside.is_up() {
        send_own(inside, &start_fisu(), tap);
        return Ok(Filling::Chosen);
    }
    if inside.is_b_due() {
        inside.drop_b();
        send_status(inside, Status::Busy, tap);
        return Ok(Filling::Chosen);
    }
    if paused {
        send_fisu(inside, tap);
        return Ok(Filling::Chosen);
    }
    ask_next(inside, door, reply, tap)
}

/// The set is asked for the next unit.
fn ask_next<D: Door, T: Tap>(
    inside: &mut Inside,
    door: &mut D,
    reply: &mut Reply,
    tap: &mut T,
) -> Result<Filling, SetFault>
    requires at { D.number door.old ≡ inside.old.link }
    requires short { length inside.old.bits < 8 }
    ensures sends { Fills (next_asked inside.old) result (asked D.Door door.old)
        (at_door D.Door inside.new door.new) T.told tap.old tap.new }
    ensures at { D.number door.new ≡ inside.new.link }
    ensures number { D.number door.new ≡ D.number door.old }
    ensures door { D.is_same door.old door.new }
{
    let link = inside.link();
    door.step(&EventRef::Next { link }, reply)?;
    Ok(send(inside, &reply.get(), tap))
}

/// What the set answers to Next: a unit; that the link isn't up there, so that it's stopped here, and SIOS goes out; or
/// anything else, as if paused (own).
#[tactic(auto, using(crate::proofs::Links::quiet_link, crate::proofs::Links::quiet_bits))]
fn send<T: Tap>(inside: &mut Inside, answer: &AnswerRef<'_>, tap: &mut T) -> Filling
    requires short { length inside.old.bits < 8 }
    requires few { length (body_of_answer answer.now) ≤ 273 }
    ensures sends { (made : List Entry) → FillsBits (sent_by (answer_in answer.now) inside.old) result made made inside.new
        T.told tap.old tap.new }
    ensures link { inside.new.link ≡ inside.old.link }
{
    match answer {
        AnswerRef::Sent { unit } => return send_given(inside, unit, tap),
        AnswerRef::Refused {
            why: Refusal::NotUp,
        } => {
            inside.stop_quietly();
            send_status(inside, Status::OutOfService, tap);
        }
        _ => send_fisu(inside, tap),
    }
    Filling::Chosen
}

/// A unit that the set gives, as it's sent (Q.703 5.2, 9.3); one of the wide profile isn't, and changes nothing here.
fn send_given<T: Tap>(inside: &mut Inside, unit: &UnitRef<'_>, tap: &mut T) -> Filling
    requires short { length inside.old.bits < 8 }
    requires few { length (body_in unit.now) ≤ 273 }
    ensures sends { (made : List Entry) → FillsBits (given (unit_in unit.now) inside.old) result made made inside.new
        T.told tap.old tap.new }
    ensures link { inside.new.link ≡ inside.old.link }
{
    if !has_narrow_numbers(unit) {
        return Filling::Wide;
    }
    count_sent(inside, unit);
    send_held(inside, unit, tap);
    Filling::Chosen
}

/// A unit that the set gives is appended: while this end is busy it acknowledges nothing new (Q.703 9.3).
fn send_held<T: Tap>(inside: &mut Inside, unit: &UnitRef<'_>, tap: &mut T)
    requires short { length inside.old.bits < 8 }
    requires narrow { IsHeadOf Narrow (head_of (unit_in unit.now)) }
    requires few { length (body_in unit.now) ≤ 273 }
    ensures sends { (made : List Entry) → FillsBits (sends (held_back inside.old (unit_in unit.now)) inside.old) Chosen
        made made inside.new T.told tap.old tap.new }
    ensures link { inside.new.link ≡ inside.old.link }
{
    if inside.is_busy() {
        send_own(inside, &inside.withholding(unit), tap);
    } else {
        send_own(inside, unit, tap);
    }
}

/// Whether the unit's numbers have seven bits, as those of a terminal's line have.
fn has_narrow_numbers(unit: &UnitRef<'_>) -> bool
    ensures value { result ≡ is_narrow (head_of (unit_in unit.now)) }
    ensures range { IsTrue result → IsHeadOf Narrow (head_of (unit_in unit.now)) }
{
    let head = unit.head();
    head.bsn < 128 && head.fsn < 128
}

/// T7 runs from the first message on that isn't acknowledged (Q.703 9.3). Nothing is asked of the set: that a message is
/// sent is no failure.
#[tactic(auto, using(crate::proofs::Links::sent_asks_nothing))]
fn count_sent(inside: &mut Inside, unit: &UnitRef<'_>)
    ensures counts { counts_sent (unit_in unit.now) inside.old ≡ done inside.new }
    ensures link { inside.new.link ≡ inside.old.link }
    ensures bits { inside.new.bits ≡ inside.old.bits }
{
    if let UnitRef::Msu { head, .. } = unit {
        inside.raise_top(head.fsn);
        inside.control(FlowIn::Sent);
    }
}
