//! Tests of terminals, of their insides and of the lines between them, over the public calls of `link_term`, `term_core` and
//! `line_ring` (Q.703 7 to 12).
//!
//! They stand in a crate of their own, since a crate with tests is proved twice. There is nothing here but tests.
#![tactic(auto)]

#[cfg(test)]
mod coming_up;
#[cfg(test)]
mod core_door;
#[cfg(test)]
mod failing_doors;
#[cfg(test)]
mod far_end;
#[cfg(test)]
mod far_ends;
#[cfg(test)]
mod inside;
#[cfg(test)]
mod late_rise;
#[cfg(test)]
mod lent;
#[cfg(test)]
mod lines;
#[cfg(test)]
mod managed;
#[cfg(test)]
mod test_lines;
#[cfg(test)]
mod two_threads;
#[cfg(test)]
mod wide_units;
