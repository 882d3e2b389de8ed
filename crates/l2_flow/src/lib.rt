//! Level 2 flow control of a signalling link (Q.703 9): what an end that is busy tells the other, and how
//! long an end waits for the other's acknowledgements.
//!
//! [`Flow`] is a pure machine: an input in ([`FlowIn`]), a value of outputs back ([`FlowOut`]). It has no
//! clock (it says which timer starts and stops, and is told of each end), does no IO, takes no lock and no
//! memory, and refuses no input.
//!
//! ```text
//!   THIS END                                            FAR END
//!
//!            Busy:                                               HeardBusy:
//!            send B, start T5                                    start T6
//!   +------+ ----------------> +------+                 +------+ ----------------> +------+
//!   | free |                   | busy |---+ T5:         | free |                   | busy |---> T6: failure 5
//!   +------+ <---------------- +------+   | send B,     +------+ <---------------- +------+
//!            Ease:                ^       | start T5             Acked:
//!            stop T5              +-------+                      stop T6
//!
//!   UNACKNOWLEDGED MESSAGES
//!
//!             Sent, Acked { more },
//!             Resumed { more }: start T7
//!   +-------+ -------------------------------> +---------+---+ HeardBusy, Acked { more }:
//!   | T7    |                                  | T7 runs |<--+ start T7 anew
//!   | stops | <------------------------------- +---------+
//!   +-------+ Acked, none left: stop T7             |
//!             Paused: stop T7                       +--------> T7: failure 6
//! ```
//!
//! The table, in whose order the arms of [`Flow::input`] stand; what has no row is ignored.
//!
//! ```text
//!   input           where            what is told                                   then
//!   --------------  ---------------  ---------------------------------------------  ----------------
//!   Busy            not busy         send B, start T5                               busy
//!   Ease            busy             stop T5                                        not busy
//!   T5              busy             send B, start T5
//!   HeardBusy       far not busy     start T6                                       far busy
//!                   T7 runs          start T7 anew
//!   Acked { more }                   stop T6; start T7 anew if more, else stop it   far not busy
//!   Sent            T7 does not run  start T7
//!   Paused          T7 runs          stop T7 (own)
//!   Resumed {more}  T7 does not run  start T7 if more (own)
//!   T6                               failure 5
//!   T7                               failure 6
//!   Reset                            stop T5, T6 and T7                             as at the start
//! ```
//!
//! In a processor outage of either end (Q.703 8) no acknowledgement is sent, or none is heard, so T7 stands still till
//! it's over; T6 runs on.
//!
//! Causes of failure, by number, and orders to timers are those of `l2_units`.
//!
//! The functions that do nothing are laws of this table, over every run: the contract of each is a theorem.
#![tactic(auto)]

mod flow;
mod input;
mod laws;
mod output;

pub use flow::Flow;
pub use input::FlowIn;
pub use laws::{t5_runs_while_busy, t6_runs_while_far_busy, t7_runs_while_awaiting};
pub use output::FlowOut;
