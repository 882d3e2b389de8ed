//! The audit of a history: whether it's legal, item by item, and the text of `audit`.
//!
//! ```text
//! octets -> a line of at most 16,384 octets (text_lines) -> its item (text_entries) -> held against the set
//!     -> at the end legal=yes and the books, or legal=no and what a set answers at the first wrong entry
//! ```
//!
//! [`audit`] reads a source's history and writes one line about it. `specs/Auditing.antt` is the text: `legal=yes`
//! exactly where the items are a legal history, with the books; else the line of the first entry that isn't what a set
//! answers then, and its answer there, which is a fault too. [`one_audit_text`] is the law that an input has one text:
//! in whatever pieces it's read, the same is said of it.
//!
//! [`audit_explained`] does the same, and explains a line that can't be read (`specs/Explaining.antt`).
//!
//! Each item is heard when its line has ended, and nothing is said before the end, since a line that can't be read
//! makes the text no history. Neither lines nor entries are kept: what is kept is the line that is being read, and what the
//! set keeps, which at a checkpoint forgets what is finished. `specs/Reading.antt` says what the lines so far stand
//! for.
#![tactic(auto)]

mod course;
mod explaining;
mod fault;
mod lines;
mod text;
mod verdict;

pub use explaining::audit_explained;
pub use fault::AuditFault;
pub use text::{audit, one_audit_text};
pub use text_lines::LineFlaw;
