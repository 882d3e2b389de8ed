//! Tests of the calls of one end, over the public calls of `end_calls`.
//!
//! They stand in a crate of their own, since a crate with tests is proved twice. There is nothing here but tests.
#![tactic(auto)]

#[cfg(test)]
mod joined;
#[cfg(test)]
mod refused;
#[cfg(test)]
mod settings;
#[cfg(test)]
mod told;
