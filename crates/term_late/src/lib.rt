//! How long a link needs to come up, at the least: laws of a terminal's turns, over definitions alone (ITU-T Q.703 7.4).
#![tactic(auto)]

mod laws;

pub use laws::an_alignment_takes_its_time;
