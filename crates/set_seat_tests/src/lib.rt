//! Tests of seats, ledgers and the lock, over their public calls.
//!
//! They stand in a crate of their own, since a crate with tests is proved twice. There is nothing here but tests.
#![tactic(auto)]

#[cfg(test)]
mod checkpoints;
#[cfg(test)]
mod ends;
#[cfg(test)]
mod forgetting;
#[cfg(test)]
mod looks;
#[cfg(test)]
mod openings;
#[cfg(test)]
mod steps;
#[cfg(test)]
mod threads;
