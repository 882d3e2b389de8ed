//! The model of a set of links: what a set holds, and what each event does to it, as definitions and
//! laws on states alone (ITU-T Q.703 5 and 6, Q.704 5 and 6).
//!
//! There is no code in it but the words that the crates above share, and what a body tells of itself. `specs/` has
//! the definitions, in the order to read them: `Rows` (the messages as one list), `Control` (what a link's error
//! control chooses and hears), `State` (what a set holds), `Changeover` (how a link is left, orders are obeyed, a
//! link settles, and streams come back), `Step` (what is answered to an event, and what is held then), `History`
//! (legal histories and their books), `Sound` (what holds of every set's state), `Frame` (which links an event
//! concerns) and `Laws`.
//!
//! How a set keeps all this, and at what cost, is the affair of the crates above: nothing here speaks
//! of windows in memory, lists of rows or indices.
#![tactic(auto)]

mod body;
mod laws;
mod numbered;
mod phase;
mod reached;

pub use body::{service_indicator, stream_of_body};
pub use laws::{
    a_changeover_diverts_the_rest, a_move_moves_the_links_rows, a_new_set_is_sound,
    a_settled_link_is_empty, a_step_counts, a_step_gains, a_window_moves_as_its_control,
    an_event_leaves_the_rest_alone, every_step_keeps_a_set_sound, no_event_changes_a_message,
    no_message_changes, settling_moves_the_rest, streams_stay_together,
};
pub use numbered::Numbered;
pub use phase::Phase;
pub use reached::Reached;
