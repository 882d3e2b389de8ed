//! A signalling terminal of one link, turn by turn (ITU-T Q.703 7 to 12).
//!
//! [`Works`] are the inside of a terminal (`term_core`) and the receiver of its line: a turn takes the door of its link's set
//! ([`Door`]) and one end of a line (`line_ring`), and may tell a [`Tap`] of the unit that it sends. A [`Terminal`] has a door,
//! a line and a [`Gate`] of its own. A turn is one octet time, and what it does is what `term_model` defines: for every
//! door, line and gate. It takes no memory, and waits only where its door does.
//!
//! ```text
//!  line ---> octet ---> bits ---> marks ---> units ---> machines <--- timers, commands
//!            take       Deframer             read       |  alignment, link state, flow control
//!                                                       v
//!                                 door: Up, Down, DownBlind, Heard, Next ===== the link's set
//!                                                       |
//!  line <--- octet <--- bits <--- check octets, zeros, flag <--- unit: SIOS, SIB, a FISU, or what the set gives
//!            put
//! ```
//!
//! | input | goes to, in this order | the door is asked |
//! |---|---|---|
//! | Emergency, Start, Busy, Ease, Blind, Stop (12.2, 7.4, 9) | alignment; link state; flow; flow; the next failure; link state | Stop in service and up: Down, or DownBlind |
//! | a mark that is Bad or Sixteen, or good octets that are no unit (4.1, 10) | the running monitor, as an error | a tripped SUERM: Down if up |
//! | FISU, MSU (5, 7, 10) | the monitor; alignment Good; link state; the set if up | in Ready: Up, then Heard if it was Done; in service and up: Heard |
//! | LSSU 0 to 3 (7.3, 12) | the monitor; alignment Good, then the status; link state | in service: Down |
//! | LSSU 4 PO, 5 B (8.2, 9.3) | the same; flow control if 5 | if up: Heard |
//! | AERM tripped (10.3) | alignment Abort | |
//! | T1; T2, T3, T4; T5, T6, T7 (12.3) | link state; alignment; flow | T6, T7 if up: Down |
//! | a report of the set (5.3) | flow Acked, then link state Failure | at a fault: Down |
//! | Heard or Next refused: not up | link state Stop | |
//! | fewer than eight bits are left to send (11.2) | the choice of a unit | Up while refused; Next in service |
//!
//! The code stands in the order of a turn: `obeying`, `octets`, `hearing`, `timing`, `choosing`, over `machines`; and
//! `turning` puts the steps together.
#![tactic(auto)]

mod choosing;
mod counts;
mod door;
mod fault;
mod faults;
mod hearing;
mod laws;
mod machines;
mod obeying;
mod octets;
mod receiver;
mod tap;
mod terminal;
mod timing;
mod turning;
mod works;

pub use counts::{Filling, MarkCounts, Turned};
pub use door::{Door, Gate, OpenGate};
pub use fault::TermFault;
pub use faults::Faults;
pub use laws::a_run_is_its_turns;
pub use set_events::SetFault;
pub use tap::{LastUnit, NoTap, Tap};
pub use term_model::{Command, TermReport, Timers};
pub use terminal::Terminal;
pub use works::{TermState, Works};
