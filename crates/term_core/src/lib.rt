//! What a signalling terminal holds, and what it does by itself (ITU-T Q.703 7 to 12).
//!
//! An [`Inside`] is a terminal without its door, its line and its gate: it asks the set nothing, takes no octet and
//! puts none. Each method is one word of `term_model`'s definition of a turn; the crate that asks the set composes
//! them. It reads no clock, does no IO, takes no lock and no memory, and nothing in it fails.
//!
//! ```text
//!                                    +- Inside ---------------------------------------+
//!   a command       command(..) ---> | Commands, until the next turn                  | ---> take_commands()
//!                                    |                                                |
//!   what is heard,  align(..)   ---> | Align       status to send, T2 T3 T4, AERM     | ---> how alignment ended
//!   a timer's end,  state(..)   ---> | LinkState   T1, SUERM, starts and stops Align  | ---> what level 3 is told
//!   an order        control(..) ---> | Flow        T5 T6 T7, whether a B is due       | ---> a failure
//!   a mark          judge(..)   ---> | AERM or SUERM                                  | ---> Verdict
//!   an octet time   lessen()    ---> | Clocks      T1 to T7                           | ---> ended(..)
//!   the set's word  rise(..)    ---> | up, blind, the FSN last sent, the cause        |
//!                   fall(..)         |                                                |
//!   a unit          append(..)  ---> | bits left   octets, and a part of one          | ---> octet()
//!                                    +------------------------------------------------+
//! ```
//!
//! - Readers: `link`, `state_now`, `is_paused`, `is_out`, `is_held`, `is_deaf`, `alignment`, `status`, `is_up`,
//!   `is_blind`, `is_b_due`, `top`, `has_unacked`, `cause`, `last_head`, `has_ended`, `is_short`, `octet`.
//! - Commands wait in it (`command`) until a turn takes them (`take_commands`, `blind`).
//! - Inputs of the machines: `align`, `control`, `state`; the monitors': `judge`; the timers': `lessen`, `ended`.
//! - What the set said: `rise`, `acknowledge`, `fall`, `stop_quietly`.
//! - What is sent: `drop_b`, `raise_top`, `append`, `is_busy`, `withholding`, `drop_octet`.
//!
//! [`first_header`] is that of a link on which nothing was sent yet. [`judging_is_the_models`] and [`no_end_no_talk`] are
//! laws about definitions.
#![tactic(auto)]

mod clocks;
mod inside;
mod machines;
mod monitors;
mod sending;

pub use clocks::{Timer, no_end_no_talk};
pub use inside::Inside;
pub use monitors::{Verdict, judging_is_the_models};
pub use sending::first_header;
