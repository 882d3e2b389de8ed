//! What a set of links keeps, and the moves that its rules are made of: changeover and changeback (ITU-T Q.704 5, 6).
//!
//! What is kept, [`Parts`], is queues of numbers, a fate for each and the bodies by their numbers (`set_queues`), the
//! links, where streams run, and the messages heard for users. It isn't a function of the state of the model
//! (`set_model`), nor the other way round: it agrees with a state (`specs/Agreement.antt`). A move says of every
//! state that it agreed with, or stood for, what becomes of it in the model's words:
//!
//! ```text
//!   what is kept  --- leave, queue, settle, .. --->  what is kept        queues, fates, bodies, links
//!        |                                                |              agrees with
//!      state      --- the same in the model ------->    state            rows in the order of queueing
//! ```
//!
//! A new message stands last where it comes to stand, and so does a declaration, behind the messages of its streams. Any
//! other order stands ahead of the users' messages there (own), behind the orders that stand foremost ([`queue`]).
//!
//! A move wants no memory: whoever makes it takes the room before ([`make_room`], [`make_room_beside`],
//! [`make_room_parked`]), and [`restore`], [`redeclare`] and [`time_out`], which are whole events, take their own.
//!
//! The files: `parts` what a set keeps, and what is common to all moves; `link` and `control` one link; `inbox` what
//! was heard for users; `changeover` how a link is left and orders are obeyed; `settling` what becomes of its
//! messages; `turning` and `changeback` how streams and messages come back.
//!
//! Which event makes which moves is the caller's to know (`set_step`). This crate reads no clock, waits for nothing,
//! takes no lock and does no IO.
#![tactic(auto)]

mod changeback;
mod changeover;
mod control;
mod inbox;
mod link;
mod parts;
mod settling;
mod turning;

pub use changeback::{redeclare, restore, time_out};
pub use changeover::{leave, obey, queue};
pub use control::Control;
pub use inbox::{HeardBody, Inbox};
pub use link::Link;
pub use parts::{
    Parts, fate_of_new, make_room, make_room_beside, make_room_parked, phase_of, stand_last,
    target_of, unserved,
};
pub use settling::{settle, take_back, unsent_order};
