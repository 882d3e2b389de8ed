//! Which user or terminal failed first.
ghost use Rattle.std.specs.Prelude.{◌≡◌};
ghost use Rattle.run_text.specs.Failures.{failed_from, failure_from, failure_in, failure_of, stuck_from};

use super::fault::RunFault;
use bank_core::{SetEnd, ShiftReport, UserFault, UserReport};
use link_term::TermFault;
use pair_steps::End;

/// A user that ended before its job was done.
#[derive(Clone, Copy, Debug, PartialEq, Eq)]
pub(crate) struct Stuck {
    /// The user's number.
    pub(crate) user: u64,
    /// Why it ended.
    pub(crate) fault: UserFault,
}

/// A terminal that stopped early.
#[derive(Clone, Copy, Debug, PartialEq, Eq)]
pub(crate) struct Failed {
    /// The number of its link.
    pub(crate) link: u64,
    /// Why it stopped.
    pub(crate) fault: TermFault,
}

/// The first user that ended early, or terminal that failed: of the ends a before the ends b, set by set, and of a
/// set its users before its terminals.
pub(crate) fn find_failure(near: &[SetEnd], far: &[SetEnd]) -> Option<RunFault>
    ensures { result ≡ failure_of near.now far.now }
{
    match find_at(End::A, near) {
        Some(fault) => Some(fault),
        None => find_at(End::B, far),
    }
}

/// The first failure at this end of these sets.
fn find_at(end: End, sets: &[SetEnd]) -> Option<RunFault>
    ensures { result ≡ failure_from end 0 sets.now }
{
    let mut number: u64 = 0;
    for set in sets {
        if let Some(fault) = find_in(end, number, set) {
            return Some(fault);
        }
        number += 1;
    }
    None
}

/// The first failure at this end of the set of this number.
fn find_in(end: End, number: u64, set: &SetEnd) -> Option<RunFault>
    ensures { result ≡ failure_in end number
        (stuck_from 0 set.now.users.items) (failed_from 0 set.now.reports.items) }
{
    if let Some(Stuck { user, fault }) = first_stuck(&set.users) {
        return Some(RunFault::User {
            set: number,
            end,
            user,
            fault,
        });
    }
    let Failed { link, fault } = first_failed(&set.reports)?;
    Some(RunFault::Terminal {
        set: number,
        end,
        link,
        fault,
    })
}

/// The first of these users that ended before its job was done.
fn first_stuck(users: &[Result<UserReport, UserFault>]) -> Option<Stuck>
    ensures { result ≡ stuck_from 0 users.now }
{
    let mut user: u64 = 0;
    for ended in users {
        if let Err(fault) = ended {
            return Some(Stuck {
                user,
                fault: *fault,
            });
        }
        user += 1;
    }
    None
}

/// The first of the terminals with these reports that failed.
fn first_failed(reports: &[Result<ShiftReport, TermFault>]) -> Option<Failed>
    ensures { result ≡ failed_from 0 reports.now }
{
    let mut link: u64 = 0;
    for report in reports {
        if let Err(fault) = report {
            return Some(Failed {
                link,
                fault: *fault,
            });
        }
        link += 1;
    }
    None
}
