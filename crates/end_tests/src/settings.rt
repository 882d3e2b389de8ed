//! What the tests open ends with.

use end_calls::{SetValues, TimeValues, TimerValues, open};
use std::alloc::Global;
use std::test::Fail;
use term_managed::ManagedBench;

/// Point codes 1 and 2, two links, basic error correction.
pub(crate) const NEAR: SetValues = SetValues {
    set: 0,
    opc: 2,
    dpc: 1,
    n1: 0,
    n2: 0,
    links: 2,
    sio: 0x80,
};

/// The other end.
pub(crate) const FAR: SetValues = SetValues {
    set: 0,
    opc: 1,
    dpc: 2,
    n1: 0,
    n2: 0,
    links: 2,
    sio: 0x80,
};

/// The usual lengths at 64 kbit/s (Q.703 12.3).
pub(crate) const TIMERS: TimerValues = TimerValues {
    t1: 360_000,
    t2: 400_000,
    t3: 12_000,
    t5: 800,
    t6: 32_000,
    t7: 8_000,
};

/// The usual ones of level 3 (Q.704 16.8).
pub(crate) const TIMES: TimeValues = TimeValues {
    t1: 6_400,
    t2: 11_200,
    t4: 6_400,
    t5: 6_400,
    t17: 8_000,
    k1: 64_000,
    k2: 480_000,
};

/// An end of this set with the usual lengths.
fn end_of(alloc: Global, set: &SetValues) -> Option<ManagedBench> {
    open(alloc, set, &TIMERS, &TIMES).ok()
}

/// Whether there is such a value, of which it's so. It owns the value for all tests: a type that isn't known is dropped at
/// once, and a known one is proved to be at each end of a test.
fn holds_of<T: Drop, F: FnOnce(&mut T) -> bool>(value: Option<T>, case: F) -> bool
    requires { F.IsAlwaysCallable case }
{
    match value {
        Some(mut value) => case(&mut value),
        None => false,
    }
}

/// Whether there is an end of these settings, of which it's so.
pub(crate) fn holds_at<F: FnOnce(&mut ManagedBench) -> bool>(
    alloc: Global,
    set: &SetValues,
    case: F,
) -> bool
    requires { F.IsAlwaysCallable case }
{
    holds_of(end_of(alloc, set), case)
}

/// Passes if it's so.
pub(crate) fn holds(fact: bool) -> Result<(), Fail> {
    if fact {
        Ok(())
    } else {
        Err(Fail::from("it isn't so"))
    }
}
