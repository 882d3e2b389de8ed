//! Two ends joined by lines of octets: two benches (`term_bench`), and of each link the octets under way to each end.
//!
//! ```text
//!           to_b: octets, the next to come in front
//!  Bench a ------------------------------------------> Bench b
//!          <------------------------------------------
//!           to_a
//! ```
//!
//! A turn of a link at an end takes the octet in front of the line to it, and puts one behind the line to the other end.
//! Either end takes its turns when it will, so the lines' lengths are the delays: no clock, no rate. [`Wires`] carries
//! steps out ([`WireStep`]): turns, commands, what users and level 3 ask, damage. It does no IO.
//!
//! Laws of definitions alone: of the loop of a link.
#![tactic(auto)]

mod ends;
mod fault;
mod laws;
mod line;
mod lines;
mod step;
mod wires;

pub use fault::{RunFault, StepFault};
pub use laws::{
    a_loop_is_a_ring, a_ready_link_is_flushed, each_status_is_plain, each_unit_is_heard,
};
pub use line::Line;
pub use step::{EndConfig, LineLengths, WireStep};
pub use wires::Wires;
