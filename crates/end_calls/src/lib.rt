//! Calls of one end of a set of links, by numbers, for programs in other languages.
//!
//! Each call takes an end ([`ManagedBench`](term_managed::ManagedBench)), numbers and octets, tests them all, and answers what
//! it did or a [`CallFault`], whose numbers are fixed. Where a link, a user or a command isn't there, or a room is too small,
//! nothing is done. It reads no clock, waits for nothing and does no IO.
//!
//! | call | what it does |
//! |---|---|
//! | [`open`] | makes an end of these settings |
//! | [`command`], [`activate`], [`deactivate`] | tell a link's terminal, or its management |
//! | [`hear`] | hears octets that came on a link's line: as many are put |
//! | [`turn`] | hears one octet, and tells the unit that its turn sends |
//! | [`offer`], [`take`], [`find`] | a user's calls |
//! | [`look`] | tells how a link stands |
//! | [`history`] | tells the history as text |
//! | [`checkpoint`] | lets the history begin anew |
#![tactic(auto)]

mod codes;
mod fault;
mod hearing;
mod links;
mod opening;
mod telling;
mod turning;
mod users;

pub use fault::CallFault;
pub use hearing::{HeardValues, hear};
pub use links::{LookValues, activate, checkpoint, command, deactivate, look};
pub use opening::{SetValues, TimeValues, TimerValues, open};
pub use telling::{ToldValues, history};
pub use turning::{TurnedValues, turn};
pub use users::{FoundValues, find, offer, take};
