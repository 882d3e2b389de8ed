//! What a set of the narrow profile sends is octets, which units say nothing to a set, how a link comes up there, and
//! which orders it counts: laws of a set's step, over definitions alone.
//!
//! Contracts see a message's octets as numbers. Where those that users offer and that are heard are below 256, so are
//! all that the set holds and gives; and each unit that it gives is one that can stand on a line (Q.703 2.2). A
//! terminal that is ready sends FISUs before its set has the link up, which the far end's set may hear: they change
//! nothing there.
#![tactic(auto)]

mod laws;

pub use laws::{
    a_first_fisu_changes_nothing, a_set_gives_octets, an_order_is_counted_once,
    only_up_begins_a_life,
};
