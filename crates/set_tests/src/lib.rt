//! Tests of the crates of orders and sets, over their public calls: values worked out by hand from Q.703 and Q.704.
//!
//! They stand in a crate of their own, since a crate with tests is proved twice. There is nothing here but tests.
#![tactic(auto)]

#[cfg(test)]
mod bench;
#[cfg(test)]
mod bodies;
#[cfg(test)]
mod changeback;
#[cfg(test)]
mod changeover;
#[cfg(test)]
mod checkpoints;
#[cfg(test)]
mod coming_back;
#[cfg(test)]
mod events;
#[cfg(test)]
mod lines;
#[cfg(test)]
mod link_tests;
#[cfg(test)]
mod lives;
#[cfg(test)]
mod many;
#[cfg(test)]
mod orders;
#[cfg(test)]
mod queues;
#[cfg(test)]
mod redeclared;
#[cfg(test)]
mod routes;
#[cfg(test)]
mod sets;
#[cfg(test)]
mod timed;
#[cfg(test)]
mod wide;
