//! Marks counted by hand, by Q.703 10.
use super::holds;
use l2_monitors::*;
use std::test::Fail;

/// Tells the monitor of `count` marks, and returns whether it has tripped.
fn repeat(monitor: &mut Suerm, error: bool, count: u16) -> bool {
    let mut tripped = false;
    for _ in 0..count {
        tripped = monitor.mark(error);
    }
    tripped
}

#[test]
fn suerm_leaks_one_at_mark_256() -> Result<(), Fail> {
    holds(leaks_one(&mut Suerm::new()))
}

fn leaks_one(monitor: &mut Suerm) -> bool {
    let early = repeat(monitor, true, 63) || repeat(monitor, false, 193);
    // The count is 62: the second error from here makes it 64.
    let next = repeat(monitor, true, 1);
    !early && !next && repeat(monitor, true, 1) && repeat(monitor, false, 1)
}

#[test]
fn suerm_trips_on_the_64th_error() -> Result<(), Fail> {
    let mut monitor = Suerm::new();
    let early = repeat(&mut monitor, true, 63);
    let tripped = repeat(&mut monitor, true, 1);
    holds(!early && tripped)
}

/// Each of these marks, an error or not, leaves the monitor tripped, or not.
fn marks(monitor: &mut Aerm, marks: &[(bool, bool)]) -> bool {
    for mark in marks {
        let (error, tripped) = *mark;
        if monitor.mark(error) != tripped {
            return false;
        }
    }
    true
}

#[test]
fn aerm_trips_on_the_4th_error_of_a_normal_proving() -> Result<(), Fail> {
    let rows = [
        (true, false),
        (true, false),
        (false, false),
        (true, false),
        (true, true),
    ];
    holds(marks(&mut Aerm::new(false), &rows))
}

#[test]
fn aerm_stays_tripped_after_one_error_in_emergency() -> Result<(), Fail> {
    let rows = [
        (false, false),
        (true, true),
        (false, true),
        (true, true),
        (false, true),
    ];
    holds(marks(&mut Aerm::new(true), &rows))
}
