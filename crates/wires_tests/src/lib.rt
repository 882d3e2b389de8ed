//! Tests of two benches that are joined by lines of octets, over the public calls of `pair_octets`: long runs over two links of
//! unequal delays, with damage, cuts, changeover and changeback (Q.704 5.1.1, 6).
//!
//! They stand in a crate of their own, since a crate with tests is proved twice. There is nothing here but tests.
#![tactic(auto)]

#[cfg(test)]
mod busy;
#[cfg(test)]
mod carried;
#[cfg(test)]
mod impossible;
#[cfg(test)]
mod long_runs;
#[cfg(test)]
mod pairs;
