//! The messages of one signalling link as the error controls of ITU-T Q.703 number them (5.2, 5.3).
//!
//! A [`Window`] has the FSN last acknowledged, the messages sent and not acknowledged, and those
//! not yet sent. Messages are numbers of the caller's; the window gives them FSNs from 0 to 127,
//! cyclically, and keeps no FSN: each follows from the place.
//!
//! ```text
//!   acknowledged |  unacknowledged, at most 127   |  unsent
//!   .. 124 | 125 | 126 | 127 |  0  |  1  |  2  |  |  m4  m5  ..
//!           last   m-1   m0    m1    m2    m3
//!                 place 0 ..          last place
//! ```
//!
//! Readers: [`Window::last`], [`Window::unacked_len`], [`Window::unsent_len`],
//! [`Window::unacked_at`], [`Window::unsent_at`], [`Window::has_new`], [`Window::distance`]. Inputs:
//! [`Window::push`], [`Window::insert_reserved`], [`Window::send`], [`Window::ack`], [`Window::pop`],
//! [`Window::clear_unacked`], [`Window::clear_unsent`], [`Window::reset`].
//!
//! Both error controls read a window and answer the same types, [`Choice`] and [`HeardPart`]: these
//! stand here too, and the law of one link, over any control that gives its rules
//! (`specs/Link.antt`). Its proof is that of one direction, as the counts of its two ends tell it
//! (`proofs/Way.antt`), and wants of the rules what `proofs/Rules.antt` says.
//!
//! Both lists lie in rings: one of 127 places for the unacknowledged, and a [`Queue`], which grows, for
//! the unsent; [`Window::into_rings`] hands them out. Both types are over any allocator; where none is named
//! it's the program's own.
//!
//! This crate reads no clock, does no IO, takes no lock, and knows of a unit its header alone. Only
//! [`Window::new`], [`Window::reserve`] and [`Window::push`], and those of [`Queue`], take memory.
#![tactic(auto)]

mod control;
mod fault;
mod law;
mod queue;
mod window;

pub use control::{Choice, HeardPart, Sending};
pub use fault::WindowFault;
pub use l2_units::{ControlFault, Profile};
pub use law::{numbers_never_mislead, numbers_tell_places};
pub use queue::Queue;
pub use window::{NoMemory, Window};
