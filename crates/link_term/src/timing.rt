//! An octet time goes by (Q.703 12.3).
ghost use Rattle.std.specs.Prelude.{◌≡◌};
ghost use Rattle.link_term.specs.Orders.{end_told, ends, ends_all};
ghost use Rattle.link_term.specs.Talking.{Talks, asked};
ghost use Rattle.term_model.specs.Timing.{timed};

use super::door::Door;
use super::machines::{input_align, input_flow, input_state};
use l2_align::AlignIn;
use l2_flow::FlowIn;
use l2_state::StateIn;
use set_events::SetFault;
use term_core::{Inside, Timer, no_end_no_talk};

/// The timers, in the order in which their ends are looked at (own).
static TIMERS: [Timer; 7] = [
    Timer::T1,
    Timer::T2,
    Timer::T3,
    Timer::T4,
    Timer::T5,
    Timer::T6,
    Timer::T7,
];

/// All timers that run are lessened, and then each that has nothing left is told where it belongs, T1 to T7.
pub(crate) fn end_timers<D: Door>(inside: &mut Inside, door: &mut D) -> Result<(), SetFault>
    requires { D.number door.old ≡ inside.old.link }
    ensures talks { Talks (timed inside.old) result (asked D.Door door.old) (asked D.Door door.new) inside.new }
    ensures at { D.number door.new ≡ inside.new.link }
    ensures number { D.number door.new ≡ D.number door.old }
    ensures door { D.is_same door.old door.new }
{
    inside.lessen();
    if !inside.has_ended() {
        no_end_no_talk();
        return Ok(());
    }
    end_each(inside, door, &TIMERS)
}

/// The ends of these timers, in order.
fn end_each<D: Door>(inside: &mut Inside, door: &mut D, timers: &[Timer]) -> Result<(), SetFault>
    requires { D.number door.old ≡ inside.old.link }
    ensures talks { Talks (ends_all timers.now inside.old) result (asked D.Door door.old)
        (asked D.Door door.new) inside.new }
    ensures at { D.number door.new ≡ inside.new.link }
    ensures number { D.number door.new ≡ D.number door.old }
    ensures door { D.is_same door.old door.new }
{
    for timer in timers {
        end(inside, door, *timer)?;
    }
    Ok(())
}

/// The end of this timer, where it has nothing left.
fn end<D: Door>(inside: &mut Inside, door: &mut D, timer: Timer) -> Result<(), SetFault>
    requires { D.number door.old ≡ inside.old.link }
    ensures talks { Talks (ends timer inside.old) result (asked D.Door door.old) (asked D.Door door.new) inside.new }
    ensures at { D.number door.new ≡ inside.new.link }
    ensures number { D.number door.new ≡ D.number door.old }
    ensures door { D.is_same door.old door.new }
{
    if inside.ended(timer) {
        return tell_end(inside, door, timer);
    }
    Ok(())
}

/// The machine whose timer it is hears that it has ended.
fn tell_end<D: Door>(inside: &mut Inside, door: &mut D, timer: Timer) -> Result<(), SetFault>
    requires { D.number door.old ≡ inside.old.link }
    ensures talks { Talks (end_told timer inside.old) result (asked D.Door door.old)
        (asked D.Door door.new) inside.new }
    ensures at { D.number door.new ≡ inside.new.link }
    ensures number { D.number door.new ≡ D.number door.old }
    ensures door { D.is_same door.old door.new }
{
    match timer {
        Timer::T1 => input_state(inside, door, StateIn::T1),
        Timer::T2 => input_align(inside, door, AlignIn::T2),
        Timer::T3 => input_align(inside, door, AlignIn::T3),
        Timer::T4 => input_align(inside, door, AlignIn::T4),
        Timer::T5 => input_flow(inside, door, FlowIn::T5),
        Timer::T6 => input_flow(inside, door, FlowIn::T6),
        Timer::T7 => input_flow(inside, door, FlowIn::T7),
    }
}
