//! Numbers, octets, and texts that are printed while others are read.
//!
//! | text | is read by | is written by |
//! |---|---|---|
//! | a decimal number below 2^64, without leading zeros | [`read_number`] | [`push_number`] |
//! | a decimal number below 256, or below 65,536, so too | [`read_below_256`], [`read_below_65536`] | [`push_number`] |
//! | a value below 10, as one decimal digit | | [`decimal_digit`] |
//! | an octet: two hexadecimal digits, high one first | [`read_octet`], of either case | [`push_hex`], in lower case |
//! | octets: two digits each, nothing between them | [`read_octets`] | [`push_hex`], in lower case |
//! | yes or no, as 1 or 0 | | [`bit_of`] |
//!
//! A text that is none is answered by `None`. [`is_word`] tells whether a word is some text.
//!
//! ```text
//! Source -- pieces of at most 4,096 octets --> Printer -- what the piece prints --> Sink
//! ```
//!
//! [`print_all`] has the loop, the bound of the input and the failing devices, once for every [`Printer`]: a reader that
//! appends what its input prints, in whatever pieces that comes, and that tells contracts which text an input has.
//! [`Source`] and [`Sink`] are the edge: they tell contracts what is left to read, what was written, and whether the device
//! has failed; [`Reader`] and [`Writer`] are the standard library's as such. [`write_all`] writes a text that is whole.
//!
//! How an input can be at fault is the text's own type. A printer stops for such a fault or for want of memory
//! ([`Stop`]), and the whole also where a device fails or the input is too long ([`Fault`]).
//!
//! This crate knows no lines and no text: which one an input has is the printer's to say. `specs/Figures.antt` and
//! `specs/Printing.antt` are the vocabulary.
#![tactic(auto)]

mod device;
mod fault;
mod figures;
mod printer;
mod printing;
mod words;

pub use device::{DeviceFault, Reader, Sink, Source, Writer};
pub use fault::{Fault, Stop};
pub use figures::{
    bit_of, decimal_digit, push_hex, push_number, read_below_256, read_below_65536, read_number,
    read_octet, read_octets,
};
pub use printer::Printer;
pub use printing::{LONGEST_KEPT, LONGEST_READ, print_all, write_all};
pub use words::is_word;
