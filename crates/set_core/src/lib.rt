//! One set of links with its history: all that was asked of it and answered since its base.
//!
//! A [`SetCore`] is what a set keeps (`set_step`) and a history, packed (`set_history`), from its base on ([`Base`]),
//! which at first is the opening. [`SetCore::apply`] is the one call by which an event of an actor comes in and an
//! answer goes back, with one entry at the end of the history ([`SetCore::apply_into`] is the same with the answer put
//! into a place that the caller lends).
//!
//! ```text
//! base --entry 0--> state --entry 1--> state -- .. --entry n-1--> what the set holds
//!        who, event, answer              each answer is that of the step at the state before it
//! ```
//!
//! [`SetCore::checkpoint`] makes what the set holds its base and lets the history begin anew; the messages of which
//! nothing more can become leave it and are counted. Books and counts go on.
//!
//! Whoever has the base and the history can hear it: an [`Auditor`] does item by item. It keeps what a set keeps ([`Core`])
//! and its books, and no entry: what isn't finished, and of what was finished since the last checkpoint the fates and bodies
//! (`specs/Hearing.antt`). [`audit_from`] lets one hear a list of entries, and [`audit_history_from`] a history where it's
//! kept. [`audit`] and [`audit_history`] do from the opening, which the configuration tells.
//!
//! ```text
//! entry entry .. entry checkpoint | entry .. entry checkpoint | entry ..
//!       a piece                         a piece                 since the last checkpoint
//! ```
//!
//! A set that takes a checkpoint forgets the entries before it, so each piece has to be told before. All pieces one behind
//! another are the [`Item`]s of the whole history: entries, and the checkpoints between them. A checkpoint is no entry, but
//! it has to stand there: a finished message is found before it, and is refused as finished behind it. `specs/Items.antt`
//! says which items are legal from a state, what they lead to, and what they add up to; its laws are
//! [`no_checkpoint_changes_nothing`] and [`pieces_run_on`].
//!
//! This crate reads no clock, waits for nothing, takes no lock and does no IO. Links, users and
//! terminals are numbers to it.
#![tactic(auto)]

mod auditing;
mod auditor;
mod base;
mod item;
mod laws;
mod set;
mod tally;

pub use auditing::{audit, audit_from, audit_history, audit_history_from};
pub use auditor::{Auditor, Finding};
pub use base::Base;
pub use item::Item;
pub use laws::{no_checkpoint_changes_nothing, pieces_run_on};
pub use set::SetCore;
pub use set_step::{Core, Numbered, SetFault};
pub use tally::LONGEST_HISTORY;
