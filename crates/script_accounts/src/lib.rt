//! Accounts of a script: what its lines print, what its ends sent, as a capture, and the history of an end.
//!
//! Each is one account of a script (`script_walk`), a function from the octets of the script.
//!
//! [`play`] writes the answer of each line when it's carried out, in the words of `text_entries`, and how both ends stand at
//! last (`specs/PlayText.antt`). [`play_explained`] puts words behind the numbers of what was refused or given up, as in
//! `refused 5 (not up)`, and its fault, the same, brings an explanation along:
//!
//! ```text
//! line 3: offer wants an end, a or b, and octets of two hexadecimal digits
//!   offer
//!        ^
//! ```
//!
//! [`capture`] writes a pcap file of link type 139 (MTP2 with a pseudo-header): its head first, and a record for each unit as
//! it's sent, stamped with one millisecond for each line of the script (`specs/Capture.antt`).
//!
//! ```text
//! octets   0                1                 2, 3                        4 ..
//!          1 sent by a,     1 for wide units, link, the high octet first  the unit, without check octets
//!          0 sent by b      else 0
//! ```
//!
//! A wide unit is translated into the form of Annex A of Q.703, whose header has six octets with numbers of 12 bits:
//! analysers know no other form that has them.
//!
//! The units of both ends and of all links stand in one list, in the order in which they were sent. An analyser shows
//! those of end a as sent and those of end b as received. The check octets aren't in it, which is what analysers take
//! this link type to be unless they are told otherwise.
//!
//! [`history`] writes, when the script has ended, all that one end was asked and answered, in the words of `text_entries`:
//! another program can audit it (`specs/Histories.antt`). A script that ends with a fault prints no history.
//!
//! [`capture_explained`] and [`history_explained`] write the same octets, and explain a fault as [`play_explained`] does.
#![tactic(auto)]

mod answers;
mod captures;
mod ends;
mod histories;
mod plays;
mod records;
mod wordings;

pub use captures::{capture, capture_explained};
pub use histories::{history, history_explained};
pub use pair_world::End;
pub use plays::{play, play_explained};
pub use script_walk::{Explained, LineFlaw, ScriptFault};
