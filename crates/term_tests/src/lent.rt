//! Works whose door and line are lent to them, turn by turn, and a tap on what they send.
ghost use Rattle.std.specs.Prelude.{◌≡◌, IfSome};

use super::core_door::{CoreDoor, LONG, door_of, holds};
use l2_units::{Cause, Header, Status, Unit};
use line_ring::{Line, LossyLine};
use link_term::{Command, Door, Filling, LastUnit, TermState, Timers, Works};
use std::alloc::Global;
use std::test::Fail;

/// A turn with a tap: what came of the choice of a unit, where the turn went.
fn turned<D: Door, L: Line>(works: &mut Works, lent: &mut Lent<D, L>) -> Option<Filling>
    requires { D.number lent.old.door ≡ works.old.inside.link }
    ensures { D.number lent.new.door ≡ works.new.inside.link }
{
    lent.tap.clear();
    match works.turn_tapped(&mut lent.door, &mut lent.line, &mut lent.tap) {
        Ok(turned) => Some(turned.filling),
        Err(_) => None,
    }
}

/// What is lent. The door is of any kind, since letting go of a set is dear to prove.
#[derive(Drop)]
struct Lent<D, L> {
    door: D,
    line: L,
    tap: LastUnit,
}

/// SIO, with the header of a link that has sent and accepted nothing (Q.703 7.2, 12.1).
fn is_sio(unit: Option<&Unit>) -> bool {
    let head = Header {
        bsn: 127,
        bib: true,
        fsn: 127,
        fib: true,
    };
    let sio = Unit::Lssu {
        head,
        status: Status::OutOfAlignment,
    };
    match unit {
        Some(unit) => *unit == sio,
        None => false,
    }
}

fn all_lent(alloc: Global) -> Option<Lent<CoreDoor, LossyLine>>
    ensures { IfSome result (λ lent. lent.door.link ≡ 0) }
{
    Some(Lent {
        door: door_of(alloc)?,
        line: LossyLine::new(0),
        tap: LastUnit::new(),
    })
}

/// It starts: a flag goes out, and then SIO, of which the tap is told in that turn alone.
fn starts<D: Door, L: Line>(works: &mut Works, lent: &mut Lent<D, L>) -> bool
    requires { D.number lent.old.door ≡ works.old.inside.link }
    ensures { D.number lent.new.door ≡ works.new.inside.link }
{
    works.command(Command::Start);
    let flag = turned(works, lent) == Some(Filling::Enough) && lent.tap.unit().is_none();
    let sio = turned(works, lent) == Some(Filling::Chosen) && is_sio(lent.tap.unit());
    let rest = turned(works, lent) == Some(Filling::Enough) && lent.tap.unit().is_none();
    flag && sio && rest && works.state() == TermState::NotAligned && works.cause().is_none()
}

/// It stops.
fn stops<D: Door, L: Line>(works: &mut Works, lent: &mut Lent<D, L>) -> bool
    requires { D.number lent.old.door ≡ works.old.inside.link }
{
    works.command(Command::Stop);
    let went = works.turn(&mut lent.door, &mut lent.line).is_ok();
    went && works.state() == TermState::OutOfService && works.cause() == Some(Cause::Stop)
}

#[test]
fn works_take_their_turns_at_what_is_lent(rt: HostRuntime) -> Result<(), Fail> {
    match all_lent(rt.alloc()) {
        Some(lent) => holds(take_their_turns(lent)),
        None => holds(false),
    }
}

/// New works start at what is lent, and stop.
fn take_their_turns<D: Door + Drop, L: Line + Drop>(lent: Lent<D, L>) -> bool
    requires { D.number lent.door ≡ 0 }
{
    let mut lent = lent;
    let mut works = Works::new(0, LONG);
    let is_new = works.link() == 0 && works.state() == TermState::OutOfService;
    let is_down = !works.is_up() && !works.is_paused();
    let started = starts(&mut works, &mut lent);
    is_new && is_down && started && stops(&mut works, &mut lent)
}

#[test]
fn timers_of_no_length_are_none() -> Result<(), Fail> {
    let none = Timers::new(1, 1, 1, 1, 0, 1);
    holds(none.is_none() && Timers::new(1, 1, 1, 1, 1, 1).is_some())
}
