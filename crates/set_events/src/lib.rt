//! What is asked of a link set, what it answers, why it can't, and the entries of its history.
//!
//! Plain data: this crate decides nothing, waits for nothing and knows no rule of the standard but
//! the lengths and ranges that its types keep. A body is a list of octets to every contract, so two
//! events, answers or entries are equal exactly where a reader of them sees the same. An [`EventRef`] and an
//! [`AnswerRef`] leave the body where it stands, and a [`Reply`] is the place of an answer.
#![tactic(auto)]

mod answer;
mod body;
mod books;
mod config;
mod event;
mod fault;
mod finished;
mod history;
mod lent;
mod reply;

pub use answer::{Answer, Counts, DiscardCause, Fate, Refusal, Report, Took};
pub use body::Body;
pub use books::Books;
pub use config::{ConfigFault, Method, SetConfig};
pub use event::{Actor, Event};
pub use fault::SetFault;
pub use finished::Finished;
pub use history::Entry;
pub use l2_units::ControlFault;
pub use lent::{AnswerRef, EventRef};
pub use reply::Reply;
