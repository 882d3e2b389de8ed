//! The words of a world of two ends: what can happen in it, a [`Step`], what it shows, [`Shown`] (or [`Showing`], the place
//! of what is shown), and the units under way to one end, [`Lines`].
//!
//! ```text
//! link 0   unit unit unit          oldest first: place 0 is the next to arrive
//! link 1
//! ..
//! link 15  unit                    a line for each link
//! ```
//!
//! A unit joins a line at its end and leaves it from any place, and a line can be emptied; [`Line`] is one of them to
//! read. No call touches the line of another link. Whether a unit that leaves was heard or lost is the caller's to know.
//!
//! This crate knows no set: it serves those who make steps (`text_forms`) or print what they show (`text_entries`)
//! without the world itself; `pair_world` says what a step does.
#![tactic(auto)]

mod block;
mod chain;
mod line;
mod lines;
mod showing;
mod step;
mod stretch;
mod under_way;

pub use line::Line;
pub use lines::Lines;
pub use showing::{Showing, ShownRef};
pub use step::{End, Shown, Step};
pub use under_way::UnderWay;
