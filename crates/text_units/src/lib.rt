//! The texts of `units` and `decode`: octets in hexadecimal, of a line or of a signal unit.
//!
//! [`units`] tells what a signalling terminal sees on a line.
//!
//! ```text
//! digits -> octets -> bits -> marks (l2_bits) -> units (l2_units) -> a line each
//! ```
//!
//! It reads a source's digits and writes a line for each mark of their bits, and a last one that
//! counts them. `specs/UnitsText.antt` is the text: which octets stand in the digits, which marks they
//! give, and the lines. It's a relation, since the marks of bits are related and not computed;
//! [`one_units_text`] says that an input has one text at most.
//!
//! A piece of the input is first read to octets, which are then fed at once. What comes in pieces is kept by types of
//! this crate: the digits keep a lone first one and the place in the input, a line keeps its deframer and how many
//! marks it gave.
//!
//! [`decode`] tells what the octets of a signal unit say, a unit a line.
//!
//! ```text
//! octets -> lines (text_lines) -> octets of a unit -> unit (l2_units), check octets (l2_bits) -> label, order (l3_orders)
//! ```
//!
//! It reads a source's lines, of units of the profile that it's told, and writes one for each. [`find_order`] reads
//! a message as an order, [`write_order_words`] has the words of an order, and [`write_both`] puts one text behind another.
//! `specs/Decoding.antt` is the text: which octets count as check octets, and the line of each unit. A unit is read with or
//! without its check octets, as `play` prints sent units and as `hear` takes them; no flags and no inserted zeros.
//! [`decode_explained`] writes the same, and shows the word at fault of a line that can't be read
//! (`specs/DecodeExplaining.antt`).
#![tactic(auto)]

mod body_line;
mod decode_explaining;
mod decode_fault;
mod decoder;
mod decoding;
mod digit;
mod digits;
mod fault;
mod fill_in_line;
mod marked_line;
mod text;
mod unit_line;
mod unit_lines;
mod units_reading;

pub use body_line::{find_order, write_order_words};
pub use decode_explaining::{decode_explained, each_unreadable_unit_is_explained};
pub use decode_fault::UnreadableUnit;
pub use decoding::decode;
pub use fault::UnreadableOctet;
pub use text::units;
pub use text_lines::{Explained, LineFlaw};
pub use unit_line::write_both;
pub use unit_lines::{one_units_text, push_unit_words};
