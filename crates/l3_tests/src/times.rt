//! Times.
use super::play::holds;
use l3_link::{Times, TimesFault};
use std::test::Fail;

fn refusal(t1: u32, t4: u32, k2: u32) -> Option<u8> {
    match Times::new(t1, 1, t4, 1, 1, 1, k2) {
        Ok(_) => None,
        Err(fault) => Some(fault.number()),
    }
}

#[test]
fn no_timer_is_of_0() -> Result<(), Fail> {
    holds(
        refusal(1, 1, 1).is_none()
            && refusal(0, 0, 0) == Some(1)
            && refusal(1, 0, 0) == Some(3)
            && refusal(1, 1, 0) == Some(7),
    )
}

#[test]
fn a_fault_tells_its_timer() -> Result<(), Fail> {
    let refused = Times::new(1, 1, 1, 1, 0, 0, 0);
    holds(refused == Err(TimesFault::T17))
}

#[test]
fn usual_times_are_those_of_64_kbit_per_second() -> Result<(), Fail> {
    let second = 8_000;
    let Times { t17, k1, k2, .. } = Times::USUAL;
    holds(t17 == second && k1 == 8 * second && k2 == 60 * second)
}
