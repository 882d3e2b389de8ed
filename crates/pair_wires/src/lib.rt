//! Two ends on lines of octets (`pair_octets`), and what they carry from users to users: [`run`] carries out a run of two
//! benches, and says what arrives of each stream: the first of what was offered, in order, each message once.
//!
//! The laws lead there step by step: what a turn of a terminal asks its set (`term_asks`) are moves of the world in which
//! links come up one after the other (`pair_rises`), or change nothing there; and of what is under way on a line, unit by
//! unit, that world has just what sets gave in a link's present life.
#![tactic(auto)]

mod laws;
mod runs;

pub use laws::{
    each_end_stands_apart, each_entry_is_a_move, each_link_stands_by_its_set,
    each_turn_keeps_a_links_standing, each_turn_of_a_run_asks_so, each_way_is_under_way,
    every_run_through_noise_carries_streams, every_sound_run_carries_streams,
    intact_lines_show_as_loss, streams_are_read_off,
};
pub use runs::run;
