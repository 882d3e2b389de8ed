//! Error control by preventive cyclic retransmission, of one end of a signalling link (ITU-T
//! Q.703 6).
//!
//! [`Pcr::choice`] says what is to be sent next, [`Pcr::send`] under which header, and [`Pcr::hear`]
//! what a heard FISU or MSU means. The messages themselves stand in the link's window (`l2_window`),
//! which these calls only read: the caller moves a message in it as the choice says, and acknowledges
//! as the answer says.
//!
//! Nothing is ever asked for. What isn't acknowledged is sent again and again while there is nothing
//! new to send (Q.703 6.3.2). Once N1 messages or N2 octets of them are unacknowledged, a forced cycle
//! sends each of them once before anything new (Q.703 6.4.1), from the oldest on (own).
//!
//! ```text
//!  unacknowledged              unsent
//!  m0   m1   m2   m3   m4    | m5  m6 ..
//!            due now           go first, but in a forced cycle
//!            place
//! ```
//!
//! [`one_link`] is a law of two such ends, over all runs.
//!
//! This crate reads no clock, does no IO, takes no lock and no memory, and looks into no message.
#![tactic(auto)]

mod law;
mod pcr;

pub use law::one_link;
pub use pcr::Pcr;
