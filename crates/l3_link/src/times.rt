//! The times of level 3.
ghost use Rattle.std.specs.Prelude.{◌≡◌, ◌<◌, ◌↔◌, IsOk, IfOk, IfErr, Some};
ghost use Rattle.l3_link.specs.Lengths.{first_zero, number_of};

use thiserror::Error;

/// The lengths of the timers of level 3, in turns of a link and each at least 1: a turn is one octet time, so there are
/// 8,000 in a second at 64 kbit/s.
#[derive(Clone, Copy, Debug, PartialEq, Eq)]
pub struct Times {
    /// T1 (Q.704 16.8): how long a changeover that no order can tell of waits; and how long a processor outage of the
    /// far end is borne (own).
    pub t1: u32,
    /// T2 (Q.704 16.8): the longest wait for the acknowledgement of a changeover.
    pub t2: u32,
    /// T4 (Q.704 16.8): the wait for the acknowledgement of a changeback, first try.
    pub t4: u32,
    /// T5 (Q.704 16.8): the same, second try.
    pub t5: u32,
    /// T17 (Q.704 16.8): how long a link that failed rests before it's started again.
    pub t17: u32,
    /// T1 of Q.707: the longest wait for the answer to a test.
    pub k1: u32,
    /// T2 of Q.707: the time between two tests.
    pub k2: u32,
    pub ghost t1_set: { 0 < t1 },
    pub ghost t2_set: { 0 < t2 },
    pub ghost t4_set: { 0 < t4 },
    pub ghost t5_set: { 0 < t5 },
    pub ghost t17_set: { 0 < t17 },
    pub ghost k1_set: { 0 < k1 },
    pub ghost k2_set: { 0 < k2 },
}

/// The timer whose length was to be 0.
#[derive(Clone, Copy, Debug, Drop, PartialEq, Eq, Error)]
pub enum TimesFault {
    /// T1 of Q.704.
    #[error("T1 is 0")]
    T1 = 1,
    /// T2 of Q.704.
    #[error("T2 is 0")]
    T2 = 2,
    /// T4 of Q.704.
    #[error("T4 is 0")]
    T4 = 3,
    /// T5 of Q.704.
    #[error("T5 is 0")]
    T5 = 4,
    /// T17 of Q.704.
    #[error("T17 is 0")]
    T17 = 5,
    /// T1 of Q.707.
    #[error("the T1 of tests is 0")]
    K1 = 6,
    /// T2 of Q.707.
    #[error("the T2 of tests is 0")]
    K2 = 7,
}

impl TimesFault {
    /// The refusal's number: 1 T1, 2 T2, 3 T4, 4 T5, 5 T17, and of Q.707 6 T1, 7 T2.
    pub fn number(self) -> u8
        ensures { result ≡ number_of self }
    {
        self as u8
    }
}

impl Times {
    /// The usual times at 64 kbit/s, in the ranges of Q.704 16.8 and of Q.707: 0.8 s, 1.4 s, 0.8 s, 0.8 s, 1 s, 8 s
    /// and 60 s.
    pub const USUAL: Times = Times {
        t1: 6_400,
        t2: 11_200,
        t4: 6_400,
        t5: 6_400,
        t17: 8_000,
        k1: 64_000,
        k2: 480_000,
    };

    /// Times of these lengths, in turns. Refused with the first of them that is 0, in this order.
    pub fn new(
        t1: u32,
        t2: u32,
        t4: u32,
        t5: u32,
        t17: u32,
        k1: u32,
        k2: u32,
    ) -> Result<Times, TimesFault>
        ensures set { IsOk result ↔ ((0 < t1) × (0 < t2) × (0 < t4) × (0 < t5) × (0 < t17) × (0 < k1) × (0 < k2)) }
        ensures lengths { IfOk result (λ times. (times.t1 ≡ t1) × (times.t2 ≡ t2) × (times.t4 ≡ t4)
            × (times.t5 ≡ t5) × (times.t17 ≡ t17) × (times.k1 ≡ k1) × (times.k2 ≡ k2)) }
        ensures refused { IfErr result (λ fault. first_zero t1 t2 t4 t5 t17 k1 k2 ≡ Some fault) }
    {
        match (t1, t2, t4, t5, t17, k1, k2) {
            (0, ..) => Err(TimesFault::T1),
            (_, 0, ..) => Err(TimesFault::T2),
            (_, _, 0, ..) => Err(TimesFault::T4),
            (_, _, _, 0, ..) => Err(TimesFault::T5),
            (_, _, _, _, 0, ..) => Err(TimesFault::T17),
            (_, _, _, _, _, 0, _) => Err(TimesFault::K1),
            (_, _, _, _, _, _, 0) => Err(TimesFault::K2),
            _ => Ok(Times {
                t1,
                t2,
                t4,
                t5,
                t17,
                k1,
                k2,
            }),
        }
    }
}
