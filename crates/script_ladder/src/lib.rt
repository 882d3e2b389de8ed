//! The ladder of a script: a chart in plain text of what happened at both ends, as an engineer would draw it.
//!
//! ```text
//!  line end a                          |       under way              | end b
//!    12 IAM #0 fsn=0 bsn=127 stream 3  |--1--> 1>0                    |
//!    13                                |                        --1-->| IAM #0 fsn=0 bsn=127 stream 3
//!                                      |                              |  took message, acked 0
//!    30                                |                        --0-->| COO #1 link 1 fsn=127
//!                                      |                              |  took order, acked 0
//!                                      |                              |  link 1 settled
//!                                      |                              |  #0 #1 to link 0
//! ```
//!
//! [`ladder`] reads a source's script and draws a row for each thing that its lines make happen: a unit that is sent,
//! arrives or is lost, a link that comes up, is left or settles, a message that is accepted, which are diverted and where
//! to, and how many are moved aside, taken up again or discarded. Between the ends stands what is under way then. It's one
//! account of a script (`script_walk`); `specs/Ladder.antt` is the chart: a function from the octets of the script.
//! [`ladder_explained`] draws the same, and explains the line that ends the script with a fault.
//!
//! A message has the number under which its sender accepted it, and its name where it's one of the ISDN user part
//! (`specs/Names.antt`); its number is told while its sender has it unacknowledged on the link with the unit's FSN. Which
//! messages are diverted where a link settles, `specs/Diverted.antt` says. What doesn't fit into its columns ends with two
//! dots.
#![tactic(auto)]

mod cells;
mod diverted;
mod effects;
mod fitting;
mod isup;
mod rows;
mod steps;
mod under_way;
mod units;

pub use steps::{ladder, ladder_explained};
