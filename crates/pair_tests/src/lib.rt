//! Tests of a world of two ends by lists of steps, which are written as the lines of a script: values worked out by hand
//! from Q.703 and Q.704.
//!
//! They stand in a crate of their own, since a crate with tests is proved twice. There is nothing here but tests.
#![tactic(auto)]

#[cfg(test)]
mod rises;
#[cfg(test)]
mod runs;
