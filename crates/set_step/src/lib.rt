//! The rules of a set over its bookkeeping: which event makes which changes (ITU-T Q.703 5, Q.704 5).
//!
//! What a set keeps, [`Core`], is queues of numbers and a fate for each (`set_queues`), the bodies by their numbers,
//! its links, where its streams run, and the messages heard for users. It isn't a function of the state of the model
//! (`set_model`), nor the other way round: it agrees with a state (`crates/set_changeover/specs/Agreement.antt`), and
//! [`Core::apply`] says of every state that it agreed with that it agrees with what the model's step makes of it, and
//! answers as that step does.
//!
//! ```text
//!   what is kept  --- apply --->  what is kept        queues, fates, bodies, links
//!        |                             |              agrees with
//!      state      --- step ---->     state            rows in the order of queueing
//! ```
//!
//! An event costs what it moves, however many messages there ever were (`tools/set-bench`).
//!
//! What is kept, and the moves of changeover and changeback, stand in `set_changeover`; what is offered, sent and heard in
//! `set_traffic`.
//!
//! The files: `step` the case of each event; `forgetting` what a checkpoint keeps; `contents` the whole.
//!
//! This crate reads no clock, waits for nothing, takes no lock and does no IO. A call that may want memory
//! takes it before it changes anything.
#![tactic(auto)]

mod contents;
mod forgetting;
mod step;

pub use contents::Core;
pub use set_events::SetFault;
pub use set_model::Numbered;
