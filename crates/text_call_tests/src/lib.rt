//! Tests of subcommands over octets in memory, over the public calls of `text_calls`.
//!
//! They stand in a crate of their own, since a crate with tests is proved twice. There is nothing here but tests.
#![tactic(auto)]

#[cfg(test)]
mod rooms;
