//! Two ends whose links come up one after the other: what can happen there, a [`Move`], and laws of all runs, over
//! definitions alone (ITU-T Q.704 5.1.1, 5.6).
//!
//! A link that is settled at both ends comes up at one, and begins a life of its own: the other end joins it later, or
//! never, or hears first that it's over. Till then the link is at that end, to all else, one that it left at once and
//! in silence (set_veiled), and the laws of streams (pair_streams) hold of the ends as they're seen so. A link that
//! comes up at both ends together is a case of it. `pair_world` carries moves out.
#![tactic(auto)]

mod laws;
mod moves;

pub use laws::{
    every_honest_rising_run_hands_out_all, every_honest_rising_run_keeps_links,
    every_idle_rising_run_accounts_for_all, every_idle_rising_run_hands_out_all,
    every_missed_life_is_counted, every_rising_run_acks_the_taken,
    every_rising_run_diverts_the_rest, every_rising_run_hands_out_a_part,
    every_rising_run_hands_out_in_order, every_rising_run_keeps_order,
    every_rising_run_keeps_streams, every_rising_run_tells_numbers, together_is_two_rises,
};
pub use moves::Move;
