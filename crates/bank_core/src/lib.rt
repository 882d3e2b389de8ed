//! A bank: up to 16 sets of links, each with its terminals and users in threads of their own.
//!
//! [`Bank::create`] takes the sets' configurations, [`Bank::start`] gives each set a thread, and [`Running::join`]
//! hands out what each set came to. A set's thread opens its set, runs its terminals and users, gathers their seats,
//! and closes it (`bank_crew`): its history is legal for its configuration, whatever the threads did, and in whatever
//! order.
//!
//! ```text
//! bank        start                                                  join: a list of SetEnds, in the sets' order
//!   |                                                                  ^
//!   +-- set 0   create    +-- terminal 0: line 0, all turns --+  close |
//!   |             |  -----+-- terminal 1: line 1, all turns --+---+----+
//!   |             |       +-- user 0: job 0 ------------------+        |
//!   |             |       +-- user 1: job 1 ------------------+        |
//!   +-- set 1   create    ..                                           |
//! ```
//!
//! Each set has a lock of its own (`set_shared`), and nothing is shared between sets but the gate's clones. Nothing is
//! promised of who gets on, or when; that all threads really run at the same time is shown by tests.
#![tactic(auto)]

mod bank;
mod fault;
mod running;
mod summing;

pub use bank::Bank;
pub use bank_crew::{
    Answered, Carried, CrewFault, Instruction, Job, LinkManager, Managed, Plan, SetEnd,
    ShiftReport, Sight, UserFault, UserReport,
};
pub use fault::BankFault;
pub use running::{Running, sort_out};
pub use summing::{SetTotals, totals};
