//! What users and terminals bring to a set and take from it: a message that is offered, the unit to send next, and
//! the unit that was heard (ITU-T Q.703 5, 6).
//!
//! [`offer`] puts a message last where its stream runs. [`send_next`] gives the unit that the link's error control
//! chooses of the link's queues, and moves the message that is sent for the first time. [`hear`] acknowledges,
//! counts, and hands on what the unit brings: a message to the users' inbox, an order to the rules of changeover and
//! changeback (`set_changeover`). Both are refused at a link that isn't there, or isn't in service.
//!
//! Contracts say of every state of the model (`set_model`) that the set agreed with that it stands for what the
//! model's step makes of it, and answers as that step does. A unit costs what it moves, however many messages there
//! ever were (`tools/set-bench`).
//!
//! The files: `offering` a message that is offered; `sending` what is sent next, and `clearing` what isn't sent any
//! more; `hearing` what a heard unit does.
//!
//! This crate reads no clock, waits for nothing, takes no lock and does no IO. A call that may want memory takes it
//! before it changes anything.
#![tactic(auto)]

mod clearing;
mod hearing;
mod offering;
mod sending;

pub use hearing::hear;
pub use offering::offer;
pub use sending::send_next;
