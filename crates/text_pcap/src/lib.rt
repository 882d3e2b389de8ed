//! Captures of signalling units: files that network analysers read.
//!
//! A pcap file of link type 139, MTP2 with a pseudo-header (`specs/PcapFile.antt`), has a head ([`head_of_file`]) and a record
//! for each unit ([`write_record`]). The file of tapes, octets that terminals sent, is made here of what stands on them:
//!
//! ```text
//! octets of a tape -- deframer (l2_bits), octet by octet --> packets: a unit, and the octet time in which its last flag ended
//! packets of all tapes -- in order of time --> records
//! ```
//!
//! A unit stands on a tape where a signalling terminal would find it good; its check octets are left out. An octet time is
//! 125 microseconds, as at 64 kbit/s. `specs/Sent.antt` says which packets a tape has, and `specs/Packets.antt` what
//! the file is.
//!
//! ```text
//! octets   0                1   2    3     4 ..
//!          1 sent by a,     0   set  link  the unit, without check octets
//!          0 sent by b
//! ```
//!
//! This crate knows no script and no bank.
#![tactic(auto)]

mod packets;
mod records;
mod sent;

pub use packets::{put_in_order, write_packets};
pub use records::{head_of_file, write_record};
pub use sent::{Packet, Side, UnitOctets, push_sent};
