//! What the thread of one set is to do.
ghost use Rattle.std.specs.Prelude.{◌<◌, ◌≤◌};

use super::assignment::Assignment;
use super::manager::LinkManager;
use super::plan::Job;
use line_ring::Line;
use set_events::SetConfig;

/// What the thread of one set is to do.
#[derive(Drop)]
pub struct Work<L: Line + Drop, G: LinkManager> {
    /// What the set is opened with.
    pub config: SetConfig,
    /// How many users it has, 1 to 64.
    pub users: u16,
    /// The line of each link, by the links' numbers.
    pub lines: Vec<L>,
    /// The job of each user, by the users' numbers.
    pub jobs: Vec<Job>,
    /// What holds for all its terminals and users.
    pub assignment: Assignment<G>,
    pub ghost users_in_range: { (0 < users) × (users ≤ 64) },
}
