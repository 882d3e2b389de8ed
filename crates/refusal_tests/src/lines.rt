//! A line: the two rings of its ends.
use super::{MOST_GROWTHS, TRIES, holds};
use line_ring::{Full, Line, RingLine, ring_pair};
use std::alloc::{Allocator, Global};
use std::test::Fail;
use test_refusing::Refusing;

/// A line of two places each way is laid.
#[test]
fn a_refused_growth_lays_no_line(rt: HostRuntime) -> Result<(), Fail> {
    holds(each_growth_is_refused(rt.alloc()))
}

fn each_growth_is_refused(alloc: Global) -> bool {
    for number in 1..=MOST_GROWTHS {
        let refusing = Refusing::new(alloc, number);
        if !is_laid(&refusing) || refusing.blocks() != 0 {
            return false;
        }
        if !refusing.refuses_no_more() {
            // one ring each way
            return number > 2;
        }
    }
    false
}

/// The line is laid, again where it was refused; nothing is left of one that was.
fn is_laid(refusing: &Refusing<Global>) -> bool {
    for _ in 0..TRIES {
        if let Ok((mut near, mut far)) = ring_pair(refusing, 2) {
            return holds_two(&mut near, &mut far) && holds_two(&mut far, &mut near);
        }
        if refusing.blocks() != 0 {
            return false;
        }
    }
    false
}

/// What is put at one end is taken at the other, and a third octet has no place.
fn holds_two<A: Allocator + Copy>(from: &mut RingLine<A>, to: &mut RingLine<A>) -> bool {
    from.put(1).is_ok()
        && from.put(2).is_ok()
        && from.put(3) == Err(Full { octet: 3 })
        && to.take() == Some(1)
        && to.take() == Some(2)
        && to.take().is_none()
}
