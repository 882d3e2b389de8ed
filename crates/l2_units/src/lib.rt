//! The signal units of a signalling link, as whole octets (ITU-T Q.703 2).
//!
//! A unit here is the text between two flags without its two check octets: the header with the
//! sequence numbers and indicator bits, the length indicator, and what the length indicator counts.
//! [`read`] takes octets apart, [`write`] puts a unit together; both follow one grammar. [`parts_of`] reads and leaves
//! the body where it stands.
//!
//! What the machines of a terminal tell one another and the far end stands beside it: the statuses of link status signal
//! units ([`Status`], Q.703 11.1), the causes for which a link leaves service ([`Cause`]), and orders to timers
//! ([`TimerOrder`]).
//!
//! | status | number (Q.703 11.1.3) | | cause | number (own) |
//! |---|---|---|---|---|
//! | SIO, out of alignment | 0 | | SUERM tripped | 1 |
//! | SIN, normal | 1 | | abnormal BSNs | 2 |
//! | SIE, emergency | 2 | | abnormal FIBs | 3 |
//! | SIOS, out of service | 3 | | T1 ended | 4 |
//! | SIPO, processor outage | 4 | | T6 ended | 5 |
//! | SIB, busy | 5 | | T7 ended | 6 |
//! | not assigned | 6, 7 | | a status | 7 |
//! | | | | alignment not possible | 8 |
//! | | | | stopped | 9 |
//!
//! A [`UnitRef`] is a unit whose body stays where it stands. The wide profile's header (own) has its codec by itself:
//! [`wide_word`], [`wide_header_of`] and [`wide_form_of`].
//!
//! This crate never looks at flags, inserted zeros or check bits, never acts on what a unit says,
//! and takes no memory.
//!
//! | octet | bits, lowest first | field (Q.703 2.2, 2.3) |
//! |---|---|---|
//! | 0 | 7 | BSN, backward sequence number |
//! |   | 1 | BIB, backward indicator bit |
//! | 1 | 7 | FSN, forward sequence number |
//! |   | 1 | FIB, forward indicator bit |
//! | 2 | 6 | LI, length indicator: the octets that follow, or 63 where they are 63 or more |
//! |   | 2 | spare: sent as 0, not looked at when read (own) |
//! | 3.. |  | a FISU has none; an LSSU has its status field, 1 or 2 octets, the status in the low 3 bits of the first; an MSU has its SIO and SIF, 3 to 273 octets |
#![tactic(auto)]

mod cause;
mod front;
mod grammar;
mod lent;
mod profile;
mod reading;
mod status;
mod timer;
mod unit;
mod wide;
mod writing;

pub use cause::{Cause, ControlFault};
pub use front::front_of;
pub use grammar::{copy_of_unit, header_in, one_text, same_unit};
pub use lent::UnitRef;
pub use profile::Profile;
pub use reading::{UnitFault, body_of, parts_of, read, read_ref, read_wide};
pub use status::Status;
pub use timer::TimerOrder;
pub use unit::{Header, LONGEST_BODY, LONGEST_UNIT, SHORTEST_BODY, Unit};
pub use wide::{wide_form_of, wide_header_of, wide_word};
pub use writing::{write, write_ref, write_wide};
