//! The text of `run`: traffic between two banks, what their sets came to, and a report of it.
//!
//! ```text
//! Traffic -- run_through (bank_traffic), in threads --> a SetEnd for each set and end
//!     -- audit (set_core), totals (bank_core) --> a line an end, a line in all
//!     -- figures of each end and link --> a line each, for a report
//!     -- what the users at the ends b took --> the first message that is missing, if one is
//!     -- tapes --> a capture (text_pcap), in place of all these
//! ```
//!
//! [`run`] does all of it, as words ask for it. What the threads do is nobody's to say, so the text isn't a function of the
//! traffic: it's one of the ends that the banks hand out (`specs/RunText.antt`, `ReportText.antt`) and of the time that the
//! run took, and those ends are what the contract of [`run_through`] says (`specs/Running.antt`): each history is legal for
//! the configuration that the traffic asks for, and holds the calls and turns that it asks for. So `legal=yes` is promised;
//! that each message stands in one place and is counted once is promised of any legal history. [`write_ends`] says of the
//! ends that it's given that something is written of them only where each user got through and no terminal failed, and else
//! which one did (`specs/Failures.antt`). Whether a message is missing is told of what the users took (`specs/Verdict.antt`).
#![tactic(auto)]

mod absence;
mod asked;
mod capturing;
mod failures;
mod fault;
mod figures;
mod lines;
mod pairs;
mod progress;
mod report;
mod running;
mod summing;
mod texts;
mod verdict;

pub use asked::run;
pub use bank_core::UserFault;
pub use fault::RunFault;
pub use figures::{LinkFigures, SetFigures};
pub use link_term::TermFault;
pub use pair_steps::End;
pub use report::{Report, delivered_to, report_of};
pub use running::{Shown, write_ends, write_run};
pub use verdict::{Absence, Missing, find_missing};
