//! What a set came to.

use super::fault::UserFault;
use super::report::{ShiftReport, UserReport};
use link_term::TermFault;
use set_shared::Closed;

/// What a set came to.
#[derive(Drop)]
pub struct SetEnd {
    /// The base and the history since, legal for the set's configuration, with its books and counts.
    pub closed: Closed,
    /// What the turns of each terminal came to, by the links' numbers, or why they ended early.
    pub reports: Vec<Result<ShiftReport, TermFault>>,
    /// What each user reports that did its job, by the users' numbers, or why it ended early.
    pub users: Vec<Result<UserReport, UserFault>>,
}
