//! The three machines' inputs, with what they ask of the set (Q.703 12.1).
ghost use Rattle.std.specs.Prelude.{◌≡◌, Some, if◌then◌else◌, IfOk};
ghost use Rattle.set_events.specs.Lent.{HasFitUnit, event_in};
ghost use Rattle.set_events.specs.declared.event.Event.TheVariants.{Down, DownBlind};
ghost use Rattle.l2_state.specs.declared.signals.Indication.TheVariants.{Down as ToldDown};
ghost use Rattle.link_term.specs.Talking.{Talks, asked};
ghost use Rattle.term_model.specs.Machines.{asks_up, asks_down, tells, state_in, align_in, flow_in};

use super::door::Door;
use l2_align::{AlignIn, Outcome};
use l2_flow::FlowIn;
use l2_state::{Indication, StateIn};
use l2_units::Cause;
use set_events::{EventRef, Reply, SetFault};
use term_core::Inside;

/// The link is in service here: the set is told. That is seldom, so the answer's place is made for it, in this function's
/// own frame.
#[inline(never)]
#[tactic(auto, using(crate::proofs::Links::risen_link, crate::proofs::Links::risen_bits))]
pub(crate) fn ask_up<D: Door>(inside: &mut Inside, door: &mut D) -> Result<(), SetFault>
    requires { D.number door.old ≡ inside.old.link }
    ensures talks { Talks (asks_up inside.old) result (asked D.Door door.old) (asked D.Door door.new) inside.new }
    ensures at { D.number door.new ≡ inside.new.link }
    ensures number { D.number door.new ≡ D.number door.old }
    ensures door { D.is_same door.old door.new }
    ensures bits { IfOk result (λ done. inside.new.bits ≡ inside.old.bits) }
{
    let link = inside.link();
    let mut reply = Reply::new();
    door.step(&EventRef::Up { link }, &mut reply)?;
    inside.rise(&reply.get());
    Ok(())
}

/// What the set is told of a link that failed: after a Blind, that no FSN can be told to the far end (Q.704 5.6).
fn down_event(inside: &Inside) -> EventRef<'static>
    ensures value { event_in result ≡ (if inside.now.blind then DownBlind inside.now.link else Down
        inside.now.link) }
    ensures fits { HasFitUnit result }
{
    let link = inside.link();
    if inside.is_blind() {
        EventRef::DownBlind { link }
    } else {
        EventRef::Down { link }
    }
}

/// The link is out of service here, and is up at the set: the set is told. Whatever it answers is obeyed.
#[inline(never)]
fn ask_down<D: Door>(inside: &mut Inside, door: &mut D, cause: Cause) -> Result<(), SetFault>
    requires { D.number door.old ≡ inside.old.link }
    ensures talks { Talks (asks_down cause inside.old) result (asked D.Door door.old)
        (asked D.Door door.new) inside.new }
    ensures at { D.number door.new ≡ inside.new.link }
    ensures number { D.number door.new ≡ D.number door.old }
    ensures door { D.is_same door.old door.new }
    ensures bits { IfOk result (λ done. inside.new.bits ≡ inside.old.bits) }
{
    let event = down_event(inside);
    door.step(&event, &mut Reply::new())?;
    inside.fall(cause);
    Ok(())
}

/// The link is out of service here: the set is told where it's up there.
pub(crate) fn leave<D: Door>(
    inside: &mut Inside,
    door: &mut D,
    cause: Cause,
) -> Result<(), SetFault>
    requires { D.number door.old ≡ inside.old.link }
    ensures talks { Talks (tells (Some (ToldDown cause)) inside.old) result (asked D.Door door.old)
        (asked D.Door door.new) inside.new }
    ensures at { D.number door.new ≡ inside.new.link }
    ensures number { D.number door.new ≡ D.number door.old }
    ensures door { D.is_same door.old door.new }
    ensures bits { IfOk result (λ done. inside.new.bits ≡ inside.old.bits) }
{
    if inside.is_up() {
        return ask_down(inside, door, cause);
    }
    inside.fall(cause);
    Ok(())
}

/// An input of link state control.
#[tactic(auto, using(crate::proofs::Links::state_link, crate::proofs::Links::state_bits))]
pub(crate) fn input_state<D: Door>(
    inside: &mut Inside,
    door: &mut D,
    input: StateIn,
) -> Result<(), SetFault>
    requires { D.number door.old ≡ inside.old.link }
    ensures talks { Talks (state_in input inside.old) result (asked D.Door door.old)
        (asked D.Door door.new) inside.new }
    ensures at { D.number door.new ≡ inside.new.link }
    ensures number { D.number door.new ≡ D.number door.old }
    ensures door { D.is_same door.old door.new }
    ensures bits { IfOk result (λ done. inside.new.bits ≡ inside.old.bits) }
{
    match inside.state(input) {
        None => Ok(()),
        Some(Indication::Up) => ask_up(inside, door),
        Some(Indication::Down(cause)) => leave(inside, door, cause),
    }
}

/// An input of initial alignment control.
pub(crate) fn input_align<D: Door>(
    inside: &mut Inside,
    door: &mut D,
    input: AlignIn,
) -> Result<(), SetFault>
    requires { D.number door.old ≡ inside.old.link }
    ensures talks { Talks (align_in input inside.old) result (asked D.Door door.old)
        (asked D.Door door.new) inside.new }
    ensures at { D.number door.new ≡ inside.new.link }
    ensures number { D.number door.new ≡ D.number door.old }
    ensures door { D.is_same door.old door.new }
{
    match inside.align(input) {
        None => Ok(()),
        Some(Outcome::Complete) => input_state(inside, door, StateIn::Complete),
        Some(Outcome::NotPossible) => input_state(inside, door, StateIn::NotPossible),
    }
}

/// An input of flow control.
pub(crate) fn input_flow<D: Door>(
    inside: &mut Inside,
    door: &mut D,
    input: FlowIn,
) -> Result<(), SetFault>
    requires { D.number door.old ≡ inside.old.link }
    ensures talks { Talks (flow_in input inside.old) result (asked D.Door door.old) (asked D.Door door.new) inside.new }
    ensures at { D.number door.new ≡ inside.new.link }
    ensures number { D.number door.new ≡ D.number door.old }
    ensures door { D.is_same door.old door.new }
    ensures bits { IfOk result (λ done. inside.new.bits ≡ inside.old.bits) }
{
    match inside.control(input) {
        None => Ok(()),
        Some(cause) => input_state(inside, door, StateIn::Failure(cause)),
    }
}
