//! What a set's thread hands to those of its terminals and users.

use super::manager::LinkManager;
use super::plan::Plan;

/// What holds for all terminals and users of one set.
#[derive(Drop)]
pub struct Assignment<G: LinkManager> {
    /// The number of the set, which is told to the gate alone.
    pub set: u16,
    /// What each terminal and user passes before it asks the set, and after it, and who manages the links of a plan that
    /// has them managed.
    pub gate: G,
    /// What all terminals do.
    pub plan: Plan,
}
