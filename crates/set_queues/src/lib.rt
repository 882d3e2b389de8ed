//! The bookkeeping of a link set: where every message stands, as numbers in queues (ITU-T Q.703 5.2,
//! Q.704 5).
//!
//! [`Queues`] has of each of 1 to 16 links a window (`l2_window`) and the messages that are held for
//! it, the parked messages, of each of 256 changeback codes those that wait for its acknowledgement, and
//! of the numbers given out each one's [`Message`]: where it stands, whose it is, and the octets of its
//! body. The bodies themselves are [`Bodies`]. [`Queues::forget`] and [`Bodies::forget`] let go of the messages of
//! final fates where they stand, and [`Queues::kept`] and [`Bodies::kept`] are copies without them: their numbers stay
//! given out, and nothing stands under them. A fate that isn't final names a queue; [`fate_on`] is that of what moves
//! to a link, or of what no link takes:
//!
//! ```text
//!     add, add_ahead (Waiting, Held, Parked, Back)
//!                  |
//!   Back(c) -------+-- turn_back, divert -+
//!                  |                      v
//!   Parked --------+---- divert ---> Waiting(l) -- send --> Unacked(l) -- acknowledge --> Acked(l)
//!      ^                               ^   |                   |
//!      |                               |   |  settle(l, t)     |
//!      +-------------------------------+---+---- Held(l) ------+---- discard ---> Discarded(cause)
//! ```
//!
//! [`Queues::settle`] moves all of a link to the target, or parks them: sent, waiting, held; [`Queues::reset`] begins
//! its new life. A message stands last where it comes to stand, but for one that is added ahead: it stands before the
//! first user's message of its queue, behind the orders that stand foremost ([`Queues::add_ahead`]).
//!
//! Only [`Queues::new`], the copies and the calls that reserve take memory, here and in [`Bodies`]: a call that adds
//! or moves needs its room reserved before. Each call costs the same however many messages there ever were; adding
//! ahead is linear in the orders that stand foremost, discarding, diverting and settling in what moves, a copy in
//! what is there, and a number that outlived a copy is searched for among those that did. To forget costs the same
//! however many stand, but for a copy where more of the messages that are kept were forgotten than stand: so, taken
//! together, what is forgotten. A message takes 8 octets, and 8 more while it stands in a queue; a queue of a code
//! takes none for messages until one stands in it. A body takes 8 octets and its own. Each of the two takes 8 more
//! once it outlived a copy.
//!
//! This crate decides nothing: which messages are sent, acknowledged or moved, and when, is the
//! caller's to know. It reads no clock, does no IO and takes no lock.
//!
//! The files: `message` what is kept of one; `messages` all of them with their counts (`tally`), and the
//! first of a queue that go elsewhere; `buffers` the queues; `queues` the whole; `bodies` the bodies; `slots` which
//! number each message and body has. What is forgotten where it stands says `specs/Stored.antt`.
#![tactic(auto)]

mod bodies;
mod buffers;
mod laws;
mod message;
mod messages;
mod queues;
mod slots;
mod tally;

pub use bodies::Bodies;
pub use laws::{each_number_stands_once, fates_move_with_their_numbers, settling_moves_the_queues};
pub use message::{Kind, Message};
pub use queues::{Queues, fate_on};
