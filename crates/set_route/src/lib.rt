//! Where the streams of a link set run (ITU-T Q.704 4, 5.5, 6).
//!
//! The messages of one SLS are a stream, and a set has 16. A stream runs on one link at a time, so
//! that its messages stay in order; changeover and changeback move it. [`Routes`] knows where each
//! stream runs and what became of each changeback code, and no message.
//!
//! Stream s has home `s mod links`, and runs nowhere until a link comes up:
//!
//! | input | what it does |
//! |---|---|
//! | [`Routes::accept`], a message was accepted | from now on an Up of its home leaves its stream where it runs |
//! | [`Routes::raise`], a link is up | streams that run nowhere, and those of its home without a message, run on it |
//! | [`Routes::divert`], a link is left | its streams stay until it settles; those on their way to it don't go there |
//! | [`Routes::settle`], a link that was left settles | its streams run on the target, or nowhere |
//! | [`Routes::ask`], a home asks an alternative | its streams that run there are on their way back, under a code |
//! | [`Routes::ask_again`], it's asked once more | one acknowledgement more is owed |
//! | [`Routes::acknowledge`], a code is acknowledged | its streams run on their home |
//! | [`Routes::clear`], no acknowledgement came | the streams of all codes of a home run on it |
//!
//! A changeback code stands for one home and one alternative (own), so that an acknowledgement, which names
//! the code alone, tells whose streams come back (Q.704 6.3): [`changeback_code`], [`home_of_code`]. Each of
//! the 256 is in one of three states:
//!
//! | state | meaning | what changes it |
//! |---|---|---|
//! | [`Code::Free`] | in no use | `ask` opens it, if streams are away |
//! | [`Code::Asked`] | open: streams are `Changing` | `divert` of its home spends it, and so does `acknowledge` where more is owed |
//! | [`Code::Spent`] | no streams wait for it, and acknowledgements are owed | each `acknowledge` counts, and the last frees it |
//!
//! `give_back` and `clear` free each code.
//!
//! The target of every move is the lowest-numbered link that is up (own), [`target`]. The readers:
//! [`Routes::place`], [`Routes::code`], [`Routes::can_ask`].
//!
//! Which links are up is the caller's to know. This crate holds no messages, sends no orders, does no
//! IO, takes no lock and takes no memory.
#![tactic(auto)]

mod laws;
mod place;
mod routes;
mod stream;
mod target_link;

pub use laws::{each_code_moves_alone, streams_move_alone};
pub use place::{Code, Place, changeback_code, home_of_code};
pub use routes::{MOST_LINKS, Routes, STREAMS};
pub use target_link::target;
