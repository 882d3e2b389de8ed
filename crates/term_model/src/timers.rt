//! The timers T1 to T7: their lengths, and what is left of those that run.
ghost use Rattle.std.specs.Prelude.{◌≡◌, ◌<◌, ◌↔◌, IsSome, IfSome};

/// The lengths, in octet times and each at least 1, of the timers whose length is a setting (Q.703 12.3). T4 has
/// none: its two lengths are those of the proving periods (Q.703 7.4).
#[derive(Clone, Copy, Debug, PartialEq, Eq)]
pub struct Timers {
    /// T1, aligned and ready: the longest wait for the far end to be so.
    pub t1: u32,
    /// T2, not aligned: the longest wait for the far end to be heard.
    pub t2: u32,
    /// T3, aligned: the longest wait for the far end to be aligned.
    pub t3: u32,
    /// T5, sending SIB: the time between two of them.
    pub t5: u32,
    /// T6, remote congestion: the longest that the far end may be busy.
    pub t6: u32,
    /// T7, excessive delay of acknowledgement.
    pub t7: u32,
    pub ghost t1_set: { 0 < t1 },
    pub ghost t2_set: { 0 < t2 },
    pub ghost t3_set: { 0 < t3 },
    pub ghost t5_set: { 0 < t5 },
    pub ghost t6_set: { 0 < t6 },
    pub ghost t7_set: { 0 < t7 },
}

impl Timers {
    /// Timers of these lengths, in octet times; `None` where one of them is 0.
    pub fn new(t1: u32, t2: u32, t3: u32, t5: u32, t6: u32, t7: u32) -> Option<Timers>
        ensures set { IsSome result ↔ ((0 < t1) × (0 < t2) × (0 < t3) × (0 < t5) × (0 < t6) × (0 < t7)) }
        ensures lengths { IfSome result (λ timers. (timers.t1 ≡ t1) × (timers.t2 ≡ t2) × (timers.t3 ≡ t3)
            × (timers.t5 ≡ t5) × (timers.t6 ≡ t6) × (timers.t7 ≡ t7)) }
    {
        if t1 == 0 || t2 == 0 || t3 == 0 || t5 == 0 || t6 == 0 || t7 == 0 {
            return None;
        }
        Some(Timers {
            t1,
            t2,
            t3,
            t5,
            t6,
            t7,
        })
    }
}

/// The octet times left of each timer; `None`: it doesn't run.
#[derive(Clone, Copy, Debug, PartialEq, Eq)]
pub struct Clocks {
    /// T1, aligned and ready.
    pub t1: Option<u32>,
    /// T2, not aligned.
    pub t2: Option<u32>,
    /// T3, aligned.
    pub t3: Option<u32>,
    /// T4, the proving period.
    pub t4: Option<u32>,
    /// T5, sending SIB.
    pub t5: Option<u32>,
    /// T6, remote congestion.
    pub t6: Option<u32>,
    /// T7, excessive delay of acknowledgement.
    pub t7: Option<u32>,
}
