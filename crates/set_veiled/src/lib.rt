//! A settled link of a set, seen as another that isn't up: laws of a set's step, over definitions alone.
//!
//! A link that comes up at the far end alone is, to all else at this end, one that was left at once and in silence: it's
//! Down, nothing was counted on it, and no order was queued. So what holds of two ends whose links come up at both at once
//! holds of this end as it's seen so (pair_rises).
#![tactic(auto)]

mod laws;

pub use laws::a_link_not_joined_is_one_left_in_silence;
