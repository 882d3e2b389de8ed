//! A script of two ends, carried out line by line, and whatever is told of it.
//!
//! ```text
//! octets -> lines (text_lines) -> the move of each (text_forms) -> what it shows (pair_world) -> an account of it
//! ```
//!
//! [`tell_script`] reads a source's script and writes what an [`Account`] tells of it: of the world that the first line
//! makes, of each move when it's made, and of both ends at last. The lines' rules and the faults stand here, once,
//! for every account; `script_accounts` has the one of answers. `specs/Scripts.antt` is the text: a function from the octets of
//! the input and from what the account tells.
//!
//! [`tell_explained`] tells as much, and its fault brings an explanation along: which line it is, what is wanted there, the
//! line itself, and a caret under the word at fault (`specs/Explaining.antt`). What it says of a move that can't be made is
//! so in the world (`specs/Reasons.antt`). A line of over 4,096 octets isn't kept, and so not shown.
//!
//! A script that ends without a fault is a run of the moves of its lines ([`every_script_is_a_run`]; `specs/Runs.antt`).
//!
//! Units stand in the profile that the first line tells ([`world_profile`]). This crate knows no account.
#![tactic(auto)]

mod account;
mod explaining;
mod fault;
mod laws;
mod script;
mod text;

pub use account::Account;
pub use explaining::Made;
pub use fault::ScriptFault;
pub use laws::{every_reason_is_so, every_script_is_a_run, rises_lead_alike, steps_lead_alike};
pub use script::{Script, world_profile};
pub use text::{tell_explained, tell_script};
pub use text_lines::{Explained, LineFlaw};
