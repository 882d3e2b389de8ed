//! Laws of what a terminal hears of what another sends, over the definitions of lines (`l2_bits`) and terminals
//! (`term_model`). Its functions do nothing; their contracts are the laws, and no program calls them.
//!
//! | law | of |
//! |---|---|
//! | [`what_is_put_is_heard`] | units and flags on a line, intact or damaged, and the marks of its bits (`specs/Carrying.antt`) |
//! | [`damage_only_loses`] | a line that is damaged in any number of places (`specs/Damage.antt`) |
//! | [`terminals_hear_each_other`] | the units that a terminal's turns append, and those that another's turns hear (`specs/HeardLaws.antt`) |
#![tactic(auto)]

mod laws;

pub use laws::{damage_only_loses, terminals_hear_each_other, what_is_put_is_heard};
