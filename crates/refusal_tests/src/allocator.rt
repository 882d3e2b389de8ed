//! The allocator that refuses: which growth it refuses, and how many blocks it counts. All other tests stand on both.
//!
//! Each looks again where it isn't so, up to three times: `tools/refuse-memory` refuses one growth more.
use super::{TRIES, holds};
use l2_window::Window;
use std::alloc::Global;
use std::test::Fail;
use test_refusing::Refusing;

/// So many growths are asked for.
const GROWTHS: u64 = 4;

/// Of four growths that of the number is refused and no other, with the number 0 none.
#[test]
fn a_refused_growth_is_that_of_the_number(rt: HostRuntime) -> Result<(), Fail> {
    holds(each_number_is_refused(rt.alloc()))
}

fn each_number_is_refused(alloc: Global) -> bool {
    for number in 0..=GROWTHS {
        if !is_refused_alone(alloc, number) {
            return false;
        }
    }
    true
}

/// It's refused where the allocator is made, and where it's told the number anew.
fn is_refused_alone(alloc: Global, number: u64) -> bool {
    for _ in 0..TRIES {
        let refusing = Refusing::new(alloc, number);
        if refuses(&refusing, number) {
            refusing.refuse(number);
            if refuses(&refusing, number) {
                return true;
            }
        }
    }
    false
}

/// Of the growths from here on that of this number is refused, and no other.
fn refuses(refusing: &Refusing<Global>, number: u64) -> bool {
    for growth in 1..=GROWTHS {
        if is_handed_out(refusing) == (growth == number)
            || refusing.refuses_no_more() != (growth >= number)
        {
            return false;
        }
    }
    true
}

/// A block is handed out. It comes back at once.
fn is_handed_out(refusing: &Refusing<Global>) -> bool {
    match Vec::<u64, &Refusing<Global>>::with_capacity(refusing, 4) {
        Ok(_block) => true,
        Err(_) => false,
    }
}

/// Each block counts while it's out, beside others and where it grows.
#[test]
fn a_block_counts_while_it_is_out(rt: HostRuntime) -> Result<(), Fail> {
    holds(blocks_count(rt.alloc()))
}

fn blocks_count(alloc: Global) -> bool {
    for _ in 0..TRIES {
        let refusing = Refusing::new(alloc, 0);
        if two_count(&refusing) && refusing.blocks() == 0 {
            return true;
        }
    }
    false
}

fn two_count(refusing: &Refusing<Global>) -> bool {
    let none = refusing.blocks() == 0;
    let Ok(mut first) = Vec::<u64, &Refusing<Global>>::with_capacity(refusing, 4) else {
        return false;
    };
    let one = refusing.blocks() == 1;
    let still_one = first.reserve(100).is_ok() && refusing.blocks() == 1;
    let Ok(_second) = Vec::<u64, &Refusing<Global>>::with_capacity(refusing, 4) else {
        return false;
    };
    none && one && still_one && refusing.blocks() == 2
}

/// The first opening of a window is refused, at its first block or at its second, and the next one succeeds.
#[test]
fn a_refused_window_opens_the_next_time(rt: HostRuntime) -> Result<(), Fail> {
    holds(opens_behind(rt.alloc(), 1) && opens_behind(rt.alloc(), 2))
}

fn opens_behind(alloc: Global, number: u64) -> bool {
    for _ in 0..TRIES {
        let refusing = Refusing::new(alloc, number);
        if is_refused(&refusing) && is_open(&refusing) && refusing.blocks() == 0 {
            return true;
        }
    }
    false
}

/// An opening is refused, and nothing is left of it.
fn is_refused(refusing: &Refusing<Global>) -> bool {
    match Window::new(refusing) {
        Ok(_window) => false,
        Err(_) => refusing.refuses_no_more() && refusing.blocks() == 0,
    }
}

/// An opening succeeds, with two rings.
fn is_open(refusing: &Refusing<Global>) -> bool {
    match Window::new(refusing) {
        Ok(_window) => refusing.blocks() == 2,
        Err(_) => false,
    }
}
