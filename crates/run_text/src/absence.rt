//! Why a message is missing at the end b of a set.
ghost use Rattle.std.specs.Prelude.{◌≡◌, ◌*◌, nat_lt, slice_get};
ghost use Rattle.run_text.specs.Absences.{absence_at, absence_of, first_cause, unfinished};
ghost use Rattle.run_text.specs.Causes.{cause_name};

use super::verdict::{Absence, Missing};
use bank_core::{SetEnd, ShiftReport};
use bank_traffic::Traffic;
use link_term::TermFault;
use set_events::Counts;

/// This message, with why it's missing: by how the messages of its end a stand.
pub(crate) fn explained(traffic: &Traffic, near: &[SetEnd], missing: Missing) -> Missing
    ensures { result ≡ record missing { why = absence_at (traffic.now.users * traffic.now.messages) (slice_get near.now missing.set) } }
{
    let offered = u64::from(traffic.users) * u64::from(traffic.messages);
    let why = match near.get(missing.set as usize) {
        Some(end) => absence_of(offered, end),
        None => Absence::Lost,
    };
    Missing { why, ..missing }
}

/// Why messages are missing of so many that were to be offered at this end.
fn absence_of(offered: u64, end: &SetEnd) -> Absence
    ensures { result ≡ absence_of offered end.now }
{
    let counts = &end.closed.counts;
    if counts.discarded > 0 {
        return Absence::GivenUp {
            cause: first_cause(&end.reports),
        };
    }
    if are_unfinished(counts) || end.closed.books.messages < offered {
        return Absence::Unfinished;
    }
    Absence::Lost
}

/// Whether messages wait, or aren't acknowledged.
fn are_unfinished(counts: &Counts) -> bool
    ensures { result ≡ nat_lt 0 (unfinished counts.now) }
{
    counts.waiting > 0
        || counts.held > 0
        || counts.parked > 0
        || counts.back > 0
        || counts.unacked > 0
}

/// The cause of the last failure of the first link that failed, or 0.
fn first_cause(reports: &[Result<ShiftReport, TermFault>]) -> u8
    ensures { result ≡ first_cause reports.now }
{
    for report in reports {
        if let Ok(report) = report {
            if report.turns.cause != 0 {
                return report.turns.cause;
            }
        }
    }
    0
}

/// The name of a cause of a link's failure (Q.703 12).
pub(crate) fn cause_name(cause: u8) -> &'static str
    ensures { result.now ≡ cause_name cause }
{
    match cause {
        1 => "suerm",
        2 => "bsn",
        3 => "fib",
        4 => "t1",
        5 => "t6",
        6 => "t7",
        7 => "status",
        8 => "alignment",
        9 => "stop",
        _ => "none",
    }
}
