//! Tests of histories: the text of their items, and their audit, over public calls.
//!
//! They stand in a crate of their own, since a crate with tests is proved twice. There is nothing here but tests.
#![tactic(auto)]

#[cfg(test)]
mod auditors;
#[cfg(test)]
mod entries;
#[cfg(test)]
mod pieces;
