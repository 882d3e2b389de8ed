//! The management of one link (Q.704 5, 6, 12.2; Q.707 2): once it's activated it's started, tested, given up in time
//! where the far end doesn't answer, and started again.
//!
//! A pure machine: what is seen of the link in, a value of what is asked back. It reads no clock, does no input or
//! output, takes no lock and no memory. Its timers count turns of the link; a turn is one octet time.
//!
//! - Inputs: [`LinkManagement::activate`], [`LinkManagement::deactivate`], and behind each turn of the link
//!   [`LinkManagement::turn`] with a [`Seen`].
//! - Outputs: each gives what is asked first, an [`Ask`]; [`LinkManagement::answered`] says whether it was done, and
//!   gives what is asked next, until nothing is.
//! - Laws over all runs: [`laws`].
//!
//! ```text
//!   +------+  Activate   +--------+  T17 ended, settled:  RISE   +--------+
//!   |      | ----------> |        | ---------------------------> |        | <-----------+
//!   | Off  |             |  Rest  |          out:  start T17     | Rising |             |
//!   |      | <---- any   |        | <---- any but Off            |        |             |
//!   +------+  Deactivate +--------+                              +--------+             |
//!                                                   up:  Test, start K1 |               |
//!                                                                       v               |
//!          +---------+   passed:  start K2, CARRY    +--------+  K1  +--------+  K1:    |
//!          |  Carry  | <---------------------------- | Trial1 | ---> | Trial2 | ------- +
//!          +---------+                               +--------+      +--------+  Stop   |
//!            |     ^  K2:  Test, start K1            +--------+  K1  +--------+  K1:    |
//!            |     +-------------------------------- | Again1 | ---> | Again2 | --------+
//!            +-------------------------------------> +--------+      +--------+  Stop
//!                  passed:  stop K1, start K2
//! ```
//!
//! RISE tells the link to start, in an emergency where no other link carries traffic (*others*). CARRY stops K1, asks
//! Restore, and where that is done starts T4. A link at rest whose T17 doesn't run is *due*. K1 and K2 are T1 and T2
//! of Q.707, P has T1's length. Whole:
//!
//! ```text
//! state           input                      effect                                        next
//! --------------  -------------------------  --------------------------------------------  ---------------
//! Off             Activate                   as Rest, due, behind a turn (own)             as there
//! not Off         Deactivate                 stop all timers; Stop                         Off
//! not Off         level 2 goes out           stop T4, T5, K1, K2, P; start T17             Rest
//! Rising          level 2 is still out       start T17: Start wasn't obeyed                Rest
//! Rest            T17                        due                                           Rest
//! Rest, due       settled                    RISE                                          Rising
//! Rest, Rising    up, with tests             stop T17; Test, start K1                      Trial1
//! Rest, Rising    up, without                stop T17; CARRY                               Carry
//! Rising          others end                 Emergency                                     Rising
//! Trial1, Trial2  passed                     start K2; CARRY                               Carry
//! Trial1          K1                         Test, start K1                                Trial2
//! Again1          K1                         Test, start K1                                Again2
//! Trial2, Again2  K1                         Stop: the link has failed its test            Rising
//! Carry           K2                         Test, start K1                                Again1
//! Again1, Again2  passed                     stop K1, start K2                             Carry
//!
//! not Off         left, neither T1 nor T2    start T2 if others, else T1
//! not Off         left no more               stop T1, T2
//! not Off         T1, with hopes             start T1: one link is given up at a time (own)
//! not Off         T1                         Timed; refused: start T2
//! not Off         T2                         Timed; refused: NoAnswer; refused: start T2
//! not Off         T4                         Redeclare, start T5
//! not Off         T5                         BackTimeout
//! not Off         paused, P doesn't run      start P
//! not Off         paused no more             stop P
//! not Off         P, with others             Stop, so that its messages change over (own)
//! not Off         P, without                 start P
//! ```
//!
//! In a turn the rows by what is seen come first. Then all timers that run are lessened, also those that a row has
//! started; then of T1, T2, T4, T5, K1, K2 and P, in this order, each that has ended asks; what starts at such an end is
//! lessened from the next turn on. At last a link that is due and settled rises, also where the set has settled it in
//! this turn (own). While it's Off a link has no timers, so whoever deactivates it settles it (own).
//!
//! A link that is seen up while it rests was started by another: it's tested like one that rose (own).
#![tactic(auto)]

mod clocks;
pub mod laws;
mod management;
mod signals;
mod times;

pub use management::{LinkManagement, State};
pub use signals::{AlreadySo, Ask, Level2, Phase, Seen};
pub use times::{Times, TimesFault};
