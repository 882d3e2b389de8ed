//! Subcommands, and what each makes of an input: over a source and a sink, as the program has them, or over octets in
//! memory, for programs in other languages.
//!
//! | call | what it does |
//! |---|---|
//! | [`run`] | reads a source and writes to a sink what the subcommand prints |
//! | [`tell`] | the same of octets, into two buffers: what is printed, and what is told of a fault |
//! | [`words_of_number`] | the subcommand of a number, which never changes |
//!
//! Nothing is kept from one call to the next.
#![tactic(auto)]

mod numbers;
mod running;
mod telling;

pub use numbers::words_of_number;
pub use running::{TextFault, run};
pub use telling::{TextLengths, TextRefusal, tell};
