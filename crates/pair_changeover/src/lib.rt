//! Changeover between two ends: whatever fails, when a link settles at an end, exactly the messages past the far
//! end's count are diverted, in order (ITU-T Q.704 5).
//!
//! There is no code in it but the law. `specs/Diverted` has the promise; it needs nothing but the definitions of a
//! set (`set_model`) and of two ends (`pair_model`).
#![tactic(auto)]

mod laws;

pub use laws::every_sound_run_diverts_the_rest;
