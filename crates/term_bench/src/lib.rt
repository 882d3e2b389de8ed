//! One end of a set of links whose lines are elsewhere: a bench to which whatever puts octets can be joined.
//!
//! A [`Bench`] has a set (`set_core`) and the terminals of its links (`link_term`), but no line: a turn of a link's
//! terminal takes an octet from whoever calls, and answers the octet that it puts. It reads no clock, since a turn is
//! an octet time; it waits for nothing and does no IO.
//!
//! ```text
//!  octet ---> turn (link) ---> Works of the link ---> door: Up, Down, Heard, Next ---> SetCore
//!  octet <--- Turn             bits, marks, units                                      history, base
//! ```
//!
//! What comes on a line is bits: they may come octet by octet ([`Bench::hear_octet`]) or bit by bit
//! ([`Bench::hear_bit`]). A turn is taken for each eight of them, and fewer wait.
//!
//! Commands wait for the link's next turn ([`Bench::command`]); what users and terminals ask of the set itself goes to
//! it at once ([`Bench::ask`]). All that the set was ever asked since its base, and answered, is a legal history of it
//! ([`Bench::replays`]).
#![tactic(auto)]

mod bench;
mod counts;
mod door;
mod late;
mod laws;
mod link;
mod timeslot;
mod turn;
mod word;

pub use bench::Bench;
pub use counts::TurnCounts;
pub use laws::{
    as_many_octets_are_put, bits_have_one_hearing, octets_are_whole, turns_are_steps_of_the_set,
};
pub use turn::Turn;
pub use word::{LinkWord, Phase};
