//! Lines as terminals use them: through their trait, in one thread and in two.
ghost use Rattle.std.specs.Prelude.{◌≡◌, ◌^◌, ◌≤◌};
ghost use Rattle.line_ring.specs.Rings.{IsSameEnd};

use super::core_door::{LONG, door_of, holds, started_at};
use line_ring::{Full, Line, LossyLine, RingLine, beside, ring_pair};
use link_term::Door;
use std::sync::Wait;
use std::test::Fail;
use std::thread;

/// The line takes these octets, in order.
fn takes_in<L: Line>(line: &mut L, octets: &[u8]) -> bool {
    for octet in octets {
        if line.put(*octet).is_err() {
            return false;
        }
    }
    true
}

/// The line hands out this octet.
fn gives<L: Line>(line: &mut L, octet: u8) -> bool {
    line.take() == Some(octet)
}

/// The line hands out these octets, in order, and then none.
fn hands_out<L: Line>(line: &mut L, octets: &[u8]) -> bool {
    for octet in octets {
        if !gives(line, *octet) {
            return false;
        }
    }
    line.take().is_none()
}

/// The line is full, and the octet comes back.
fn is_full<L: Line>(line: &mut L, octet: u8) -> bool {
    line.put(octet) == Err(Full { octet })
}

/// A line of a loss of each so many octets takes these in, and hands those out.
fn loses(each: u16, octets: &[u8], left: &[u8]) -> bool {
    let mut line = LossyLine::new(each);
    takes_in(&mut line, octets) && hands_out(&mut line, left)
}

#[test]
fn each_third_octet_is_lost(_rt: HostRuntime) -> Result<(), Fail> {
    LossyLine::new(3).passes();
    holds(loses(3, &[1, 2, 3, 4, 5, 6], &[1, 2, 4, 5]))
}

#[test]
fn no_octet_and_each_octet_is_lost(_rt: HostRuntime) -> Result<(), Fail> {
    holds(loses(0, &[1, 2, 3], &[1, 2, 3]) && loses(1, &[1, 2, 3], &[]))
}

/// Puts the octets of 256 numbers, so often.
fn rounds<L: Line>(line: &mut L, times: u8) -> bool {
    for _time in 0..times {
        for octet in 0..=255u8 {
            if line.put(octet).is_err() {
                return false;
            }
        }
    }
    true
}

#[test]
fn a_full_lossy_line_hands_the_octet_back(_rt: HostRuntime) -> Result<(), Fail> {
    holds(hands_back(&mut LossyLine::new(0)))
}

fn hands_back<L: Line>(line: &mut L) -> bool {
    rounds(line, 16)
        && is_full(line, 9)
        && gives(line, 0)
        && gives(line, 1)
        && takes_in(line, &[7, 8])
        && is_full(line, 9)
        && gives(line, 2)
}

#[test]
fn a_pair_has_its_places_each_way(rt: HostRuntime) -> Result<(), Fail> {
    let (mut near, mut far) = ring_pair(rt.alloc(), 2)?;
    let each_way = has_two_places(&mut near, &mut far);
    let too_many = ring_pair(rt.alloc(), usize::MAX).is_err();
    holds(each_way && too_many)
}

fn has_two_places<L: Line>(near: &mut L, far: &mut L) -> bool {
    takes_in(near, &[7, 8])
        && is_full(near, 9)
        && takes_in(far, &[1])
        && gives(far, 7)
        && takes_in(near, &[9])
        && hands_out(far, &[8, 9])
        && hands_out(near, &[1])
}

#[test]
fn both_ends_look_side_by_side(rt: HostRuntime) -> Result<(), Fail> {
    let (mut near, mut far) = ring_pair(rt.alloc(), 2)?;
    let filled = near.put(7).is_ok() && near.put(8).is_ok() && near.put(9).is_err();
    let taken = far.take() == Some(7) && near.put(9).is_ok();
    beside(&mut near, &mut far);
    let left = hands_out(&mut far, &[8, 9]);
    holds(filled && taken && left)
}

#[test]
fn a_pair_without_places_is_always_full(rt: HostRuntime) -> Result<(), Fail> {
    let (mut near, mut far) = ring_pair(rt.alloc(), 0)?;
    let full = is_full(&mut near, 9) && hands_out(&mut far, &[]) && is_full(&mut near, 9);
    holds(full)
}

#[test]
fn a_lossy_line_goes_to_another_thread(rt: HostRuntime) -> Result<(), Fail> {
    let mut line = LossyLine::new(2);
    let taken = takes_in(&mut line, &[1, 2, 3]);
    let (heard, _) = thread::join(
        &rt,
        move || -> bool {
            let mut line = line;
            line.take() == Some(1) && line.take() == Some(3)
        },
        || (),
    );
    holds(taken && heard)
}

/// How many octets cross between two threads.
const OCTETS: u32 = 5000;

/// The octet of this number.
fn octet_of(number: u32) -> u8 {
    (number % 251) as u8
}

/// Puts the octet once there is a place.
fn put_waiting<L: Line, R: Wait>(rt: &R, line: &mut L, octet: u8)
    ensures { L.is_same line.old line.new }
{
    for _ in rt.forever() {
        if line.put(octet).is_ok() {
            return;
        }
        thread::yield_now();
    }
    unreachable!()
}

/// Takes an octet once there is one.
fn take_waiting<L: Line, R: Wait>(rt: &R, line: &mut L) -> u8
    ensures { L.is_same line.old line.new }
{
    for _ in rt.forever() {
        if let Some(octet) = line.take() {
            return octet;
        }
        thread::yield_now();
    }
    unreachable!()
}

/// Sends all octets, and then takes one.
fn sends<R: Wait>(rt: &R, line: RingLine) -> (RingLine, bool)
    ensures { IsSameEnd line result.0 }
{
    let mut line = line;
    for number in 0..OCTETS {
        put_waiting(rt, &mut line, octet_of(number));
    }
    let answer = take_waiting(rt, &mut line);
    (line, answer == 1)
}

/// Hears all octets, in order, and then puts one.
fn hears<R: Wait>(rt: &R, line: RingLine) -> (RingLine, bool)
    ensures { IsSameEnd line result.0 }
{
    let mut line = line;
    let mut right = true;
    for number in 0..OCTETS {
        right = take_waiting(rt, &mut line) == octet_of(number) && right;
    }
    put_waiting(rt, &mut line, 1);
    (line, right)
}

#[test]
fn octets_cross_between_two_threads(rt: HostRuntime) -> Result<(), Fail> {
    let (near, far) = ring_pair(rt.alloc(), 16)?;
    let ((mut near, answered), (mut far, right)) = thread::join(
        &rt,
        move || -> (RingLine, bool)
            ensures { IsSameEnd near result.0 }
        { sends(&rt, near) },
        move || -> (RingLine, bool)
            ensures { IsSameEnd far result.0 }
        { hears(&rt, far) },
    );
    beside(&mut near, &mut far);
    let empty = hands_out(&mut far, &[]) && hands_out(&mut near, &[]);
    holds(answered && right && empty)
}

/// So many turns of a terminal at this door, over this end of a line: the end then, and whether they went well. The door
/// is of any kind, since letting go of a set is dear to prove.
fn turns_over<D: Door + Drop, L: Line>(door: D, line: L, turns: u64) -> (L, bool)
    requires { turns ≤ 2 ^ 32 }
    ensures { L.is_same line result.0 }
{
    let mut terminal = started_at(door, line, LONG);
    let well = terminal.run(turns).is_ok();
    let (_door, line, _gate) = terminal.into_parts();
    (line, well)
}

/// How many octets wait, of at most 64.
fn waiting_in(line: &mut RingLine) -> u8 {
    let mut many: u8 = 0;
    for _place in 0..64u8 {
        many = many.saturating_add(u8::from(line.take().is_some()));
    }
    many
}

#[test]
fn a_pair_is_looked_at_after_terminals_ran_over_it(rt: HostRuntime) -> Result<(), Fail> {
    let (near, far) = ring_pair(rt.alloc(), 64)?;
    let Some((near_door, far_door)) = door_of(rt.alloc()).zip(door_of(rt.alloc())) else {
        return Err(Fail::from("not opened"));
    };
    let (mut near, near_well) = turns_over(near_door, near, 40);
    let (mut far, far_well) = turns_over(far_door, far, 30);
    beside(&mut near, &mut far);
    let waiting = (waiting_in(&mut near), waiting_in(&mut far));
    holds(near_well && far_well && waiting == (30, 10))
}
