//! The history of a set, in as much memory as its entries tell.
//!
//! An entry by itself has room for two units of 273 octets of body. A [`History`] keeps its entries as octets, one
//! behind another, each in as many as it tells:
//!
//! ```text
//!         who | asked                  | answered                        a user's Offer of 5 octets, Accepted as 7
//!    00    03 | 05  85 01 80 00 30     | 07
//!    B3    00 | 00                     | 7F 10 00 06  05  85 01 80 00 30 a terminal's Next, Sent an MSU of 5
//!    22    03 | 07                     | 02                              a user's Find of 7, Found Unacked on link 0
//!    ^ 0 to 11: what was asked, and 16 times 0 to 6: what was answered, and 128 for a terminal
//! ```
//!
//! A link that carries no message repeats two entries all day, and 16 such links in turn repeat 32. A run of entries
//! that repeat the last ones in turn is counted, and not written: it takes the same memory however long it is.
//!
//! Contracts see the list of entries. Whoever reads it goes from the first to the last by a [`Reader`], and sees each
//! entry ([`EntryRef`]) where it's kept, without a copy.
//!
//! This crate decides nothing and waits for nothing; [`History::reserve`] alone takes memory, and what is read may.
#![tactic(auto)]

mod entry_ref;
mod fill_in;
mod forms;
mod history;
mod octets;
mod pushing;
mod reader;
mod run;
mod watch;
mod writing;

pub use entry_ref::EntryRef;
pub use history::History;
pub use reader::Reader;
