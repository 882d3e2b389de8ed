//! Orders and link tests on the wire, as the bodies of messages (ITU-T Q.704 5, 6, 9, 15; Q.707 2.2).
//!
//! An order is a message of the signalling network management: SIO, label, heading code, and what
//! the order carries. [`read_order`] takes a body apart, [`write_order`] puts one together; both
//! follow one grammar. So do [`read_test`] and [`write_test`] for the test messages of a link.
//!
//! The six formats, octet by octet (Q.704 15.2 to 15.6). Octets 0 to 4 are those of every order:
//!
//! | octet | bits, lowest first | field |
//! |---|---|---|
//! | 0 | 4 | service indicator, 0 for the signalling network management |
//! |   | 4 | subservice field, not looked at when read |
//! | 1 | 8 | DPC, the low 8 of its 14 bits |
//! | 2 | 6 | DPC, the high 6 |
//! |   | 2 | OPC, the low 2 of its 14 bits |
//! | 3 | 8 | OPC, the next 8 |
//! | 4 | 4 | OPC, the high 4 |
//! |   | 4 | SLC, the link that the order speaks of |
//!
//! Octet 5 is the heading code, H0 (the group) in its low four bits and H1 in its high four, and
//! octet 6, where there is one, is the field that the order carries:
//!
//! | order | octet 5 | H0 | H1 | octet 6: bits, lowest first | octets |
//! |---|---|---|---|---|---|
//! | COO changeover order | 0x11 | 1 | 1 | 7: the FSN last accepted; 1: spare | 7 |
//! | COA its acknowledgement | 0x21 | 1 | 2 | 7: the FSN last accepted; 1: spare | 7 |
//! | CBD changeback declaration | 0x51 | 1 | 5 | 8: changeback code | 7 |
//! | CBA its acknowledgement | 0x61 | 1 | 6 | 8: changeback code | 7 |
//! | ECO emergency changeover order | 0x12 | 2 | 1 | none | 6 |
//! | ECA its acknowledgement | 0x22 | 2 | 2 | none | 6 |
//!
//! The spare bit is sent as 0; when read, it isn't looked at, nor are the point codes and the subservice field (own).
//!
//! A test message has the service indicator 1 in octet 0, in its label the link that it goes on, and
//! as octet 5 SLTM 0x11 or SLTA 0x21:
//!
//! | octet | bits, lowest first | field |
//! |---|---|---|
//! | 6 | 4 | spare, sent as 0, not looked at when read |
//! |   | 4 | n, the octets of the test pattern, 1 to 15 |
//! | 7 to 6 + n | 8 each | test pattern |
//!
//! A test finds a crossed line: it's read only if its DPC is this end's point code and its OPC the neighbour's. The
//! pattern of test n is n modulo 2^32 in four octets, lowest first ([`pattern_of`], own).
//!
//! Traffic restart allowed (TRA) is octets 0 to 4, with the link that it goes on as SLC (own), and as octet 5 0x17:
//! [`write_restart_allowed`]. It carries nothing, and isn't read.
//!
//! This crate never acts on a message, knows no links, and takes no memory.
#![tactic(auto)]

mod grammar;
mod link_test;
mod order;
mod reading;
mod test_grammar;
mod test_reading;
mod test_writing;
mod writing;

pub use grammar::{one_grammar, one_text};
pub use link_test::{LONGEST_PATTERN, LinkTest, TestKind};
pub use order::Order;
pub use reading::{OrderFault, read_order, read_order_wide};
pub use test_grammar::{a_pattern_tells_its_test, one_test_grammar, one_test_text};
pub use test_reading::{TestFault, read_test};
pub use test_writing::{pattern_of, write_restart_allowed, write_test};
pub use writing::{write_order, write_order_wide};
