//! Streams between two ends: whatever fails, the users of each end get what the other's users offered, in order,
//! nothing lost and nothing doubled; and in emergencies some of it, in its order (ITU-T Q.704 5.1.1, 5.6).
//!
//! There is no code in it but the laws. `specs/Streams` has the promises of what users get, `specs/Handed` those of what
//! they take; they need the definitions of a set (`set_model`), of two ends (`pair_model`) and of what is pending
//! (`pair_changeover`).
#![tactic(auto)]

mod laws;

pub use laws::{
    every_history_hands_out_in_order, every_honest_run_hands_out_all,
    every_quiet_run_acks_the_taken, every_quiet_run_hands_out_a_part, every_quiet_run_keeps_order,
    every_quiet_run_tells_numbers, every_sound_run_hands_out_in_order,
    every_sound_run_keeps_streams,
};
