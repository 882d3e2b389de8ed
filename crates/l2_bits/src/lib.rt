//! The bits of a signalling link (ITU-T Q.703 (07/96)): flags (section 3.1), zero insertion (3.2), check
//! bits (4.2), and octet counting where alignment is lost (4.1), over the order of bits on the line (2.4).
//!
//! The crate is pure: no time, no IO, no lock, and it takes no memory.
//!
//! To the line: `seal` gives the octets of a signal unit with their two check octets behind them (`check_of` gives those
//! alone, and `check_octets_of` those of octets in two places). A `BitsLeft` holds the bits that are left to send, in
//! octets: it appends the text of a unit and a flag, and gives the next octet. `stuff_into` appends such a text to a list
//! of bits, and `flag_into` a flag.
//!
//! From the line: a `Deframer` takes its bits one by one (`feed`) or its octets (`feed_octet`), and gives a mark where a
//! signal unit ends, a good one or a damaged one, or where octet counting tells an error. `step`, `pass`, `feed_rest` and
//! `feed_octets` do so without a copy of a unit's octets, which `unit` lends.
//!
//! ```text
//! octets   BSN BIB | FSN FIB | LI | body, 0 to 273 octets | check bits
//!          \_____________ octets, at most 276 ____________/ \ 2 octets /
//!          \_______________________ sealed text _______________________/
//! line     flag | text: the bits of a sealed text, a zero inserted after each five ones | flag | ..
//! ```
//!
//! The definitions stand in `specs/`: they speak of whole lists of bits, without register, counter or
//! mode. `one_sealed_text`, `one_text`, `one_mark` and `octet_counting` are laws about them.
#![tactic(auto)]

mod bits_left;
mod check;
mod content;
mod deframing;
mod flags;
mod marks;
mod packing;
mod part;
mod rest;
mod sealed_text;
mod shift;
mod stuffing;

pub use bits_left::BitsLeft;
pub use check::check_of;
pub use deframing::Deframer;
pub use flags::flag_into;
pub use marks::{Mark, MarkKind, octet_counting, one_mark};
pub use rest::{Octets, Rest};
pub use sealed_text::{check_octets_of, one_sealed_text, seal};
pub use stuffing::{one_text, stuff_into};
