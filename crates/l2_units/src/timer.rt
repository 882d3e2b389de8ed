//! Orders to timers.

/// What becomes of one of the timers T1 to T7 (Q.703 12.3).
#[derive(Clone, Copy, Debug, PartialEq, Eq)]
pub enum TimerOrder {
    /// It stays as it is: running, stopped or ended.
    Keep,
    /// It starts, anew if it runs, with the length that is a setting of its owner.
    Start,
    /// It starts, anew if it runs, with this length. T4 alone, the proving period, has it so (Q.703 7.4).
    StartFor {
        /// So many octet times.
        octet_times: u32,
    },
    /// It stops, if it runs.
    Stop,
}
