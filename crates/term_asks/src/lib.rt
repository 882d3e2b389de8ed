//! What a terminal asks of its set in a turn, over the definitions of terminals (`term_model`). Its function does
//! nothing: its contract is the law, and no program calls it.
//!
//! A turn asks by where its link stands, out of service, aligning, ready or in service, and by the units that it hears:
//! Up of a link that is ready, Down, Heard and Next of one that is up at the set (Q.703 12).
#![tactic(auto)]

mod laws;

pub use laws::a_turn_asks_by_where_its_link_stands;
