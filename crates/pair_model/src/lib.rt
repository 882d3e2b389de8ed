//! The model of two ends: what a step of their world does, what a run of steps leads to and what passed
//! between the ends by then, and laws of all runs, on states alone (ITU-T Q.703 5 and 6, Q.704 5).
//!
//! There is no code in it but the laws. `specs/` has the definitions, in the order to read them: `World` (two
//! sets, the lines between them, and each step), `Run` (lists of steps, the past of each end, and what holds all
//! along) and `Promises` (honest, quiet and sound runs, and what is promised of each link).
#![tactic(auto)]

mod laws;

pub use laws::every_honest_run_keeps_links;
