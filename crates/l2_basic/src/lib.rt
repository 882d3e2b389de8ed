//! The basic error control of one end of a signalling link (ITU-T Q.703 5).
//!
//! [`Basic::choice`] says what is to be sent next, [`Basic::send`] under which header, and
//! [`Basic::hear`] what a heard FISU or MSU means. The messages themselves stand in the link's window
//! (`l2_window`), which these calls only read: the caller moves a message in it as the choice says,
//! and acknowledges as the answer says.
//!
//! ```text
//!  unacknowledged                      unsent
//!  m0   m1   m2 | m3   m4   m5   m6  | m7  m8 ..
//!  need nothing | wait for retransmission, then new ones follow
//!             cursor
//! ```
//!
//! [`one_link`] is a law of two such ends, over all runs.
//!
//! This crate reads no clock, does no IO, takes no lock and no memory, and looks into no message.
#![tactic(auto)]

mod basic;
mod law;

pub use basic::Basic;
pub use law::one_link;
