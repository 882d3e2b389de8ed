//! Lines of octets between signalling terminals, as a terminal sees the end that it holds.
//!
//! A [`Line`] is one end: octets are put into it, for the far end, and octets that the far end put are taken out of it.
//! No call waits for the other end, takes a lock or takes memory: a line that has no free place answers [`Full`] with
//! the octet in it, and one that has nothing to hand out answers `None`.
//!
//! ```text
//! end a                                                             end b
//!  put  ->  out: Producer  ===  ring of octets  ===>  back: Consumer  ->  take
//!  take <-  back: Consumer <===  ring of octets  ===  out: Producer   <-  put
//! ```
//!
//! - [`RingLine`]: one end of a pair ([`ring_pair`]), over two rings of `rtrb`, and over any allocator. Each end may move
//!   to a thread of its own. An end knows what it did itself; what the other end does meanwhile it sees when it looks, and nothing is
//!   promised of when that is. With both ends in one thread again, [`beside`] tells what the whole line holds.
//! - [`LossyLine`]: an end that is joined to itself, with 4,096 places, and loses each octet whose number is a multiple
//!   of a given one.
#![tactic(auto)]

mod line;
mod lossy;
mod past;
mod places;
mod ring;

pub use line::{Full, Line};
pub use lossy::LossyLine;
pub use past::Past;
pub use ring::{RingLine, beside, ring_pair};
