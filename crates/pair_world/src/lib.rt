//! A world of two ends with the same links, and the units under way between them.
//!
//! ```text
//!            to_b: a line for each link, units oldest first
//! end a  ------------------------------------------------->  end b
//! (set)  <-------------------------------------------------  (set)
//!            to_a: a line for each link, units oldest first
//! ```
//!
//! A [`World`] carries out one [`Step`] after another: [`World::step`] gives the world after a step and what it shows
//! ([`Shown`]), or why it can't be done ([`PlayFault`]), and [`World::carry_out`] does so in place; [`World::play`]
//! takes a list of steps, and promises what holds all along a sound run. A unit that an end emits joins the line of its
//! link to the other end, from which it arrives in its order or is lost; nothing else happens to it, but that the lines
//! of a link are empty when it comes up at both ends, or first at one (`pair_steps` keeps them).
//!
//! A [`Move`] is a step, or what happens where a link comes up at one end alone: [`World::make_move`] makes one in
//! place, and [`World::play_moves`] a list of them, and promises what holds all along a run, whichever end comes up
//! first.
//!
//! This crate knows no script and no text (`script_walk`, `text_forms`), and decides nothing of its own: each
//! end is a set (`set_core`). The step of the world, case by case, is `specs/World.antt` of `pair_model`, and the move
//! `specs/Rises.antt` of `pair_rises`. The files: `world` the steps, `rising` the moves.
#![tactic(auto)]

mod fault;
mod rising;
mod world;

pub use fault::PlayFault;
pub use pair_rises::Move;
pub use pair_steps::{End, Line, Showing, Shown, ShownRef, Step};
pub use world::World;
