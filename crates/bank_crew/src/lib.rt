//! The crew of one set: threads that run its terminals and users, from its opening to its closing.
//!
//! [`one_set`] opens a set, starts a thread for each terminal that has a line and for each user, waits for all of
//! them, and closes the set: what it came to is a [`SetEnd`], whose history is legal for the set's configuration,
//! whatever the threads did, and in whatever order. The thread that calls it is the set's own (`bank_core`).
//!
//! ```text
//! Work    create   +-- terminal 0: line 0, all turns --+   close    SetEnd
//!   |       |   ---+-- terminal 1: line 1, all turns --+-----+        ^
//!   +-------+      +-- user 0: job 0 ------------------+     +--------+
//!                  +-- user 1: job 1 ------------------+
//! ```
//!
//! Each thread hands its seat back, and a terminal without a line has none; with all its seats the set is closed. That
//! no seat is missing then is shown by tests (`bank_tests`). Nothing is promised of who gets on, or when.
#![tactic(auto)]

mod assignment;
mod caller;
mod carried;
mod collecting;
mod crew;
mod end;
mod fault;
mod manager;
mod pauses;
mod plan;
mod questions;
mod report;
mod seat_door;
mod set_thread;
mod slices;
mod terminal;
mod user;
mod work;

pub use assignment::Assignment;
pub use carried::Carried;
pub use crew::{ask_for_stack, why_unstarted};
pub use end::SetEnd;
pub use fault::{CrewFault, UserFault};
pub use manager::{Instruction, LinkManager, Sight};
pub use plan::{Job, Managed, Plan};
pub use report::{Answered, ShiftReport, UserReport};
pub use seat_door::SeatDoor;
pub use set_thread::one_set;
pub use work::Work;
