//! Tests of banks: sets, terminals and users in threads, over the public calls of `bank_core`.
//!
//! They stand in a crate of their own, since a crate with tests is proved twice. There is nothing here but tests.
#![tactic(auto)]

#[cfg(test)]
mod failing;
#[cfg(test)]
mod gates;
#[cfg(test)]
mod late;
#[cfg(test)]
mod managed;
#[cfg(test)]
mod openings;
#[cfg(test)]
mod refusals;
#[cfg(test)]
mod runs;
#[cfg(test)]
mod sorting;
#[cfg(test)]
mod sums;
#[cfg(test)]
mod traffic;
