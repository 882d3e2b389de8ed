//! What an end of a set came to, and an end of a link.
ghost use Rattle.std.specs.Prelude.{◌≡◌};
ghost use Rattle.run_text.specs.Figures.{brought, capped, link_figures, set_figures, summed, taken_by, taken_in};

use bank_core::{SetEnd, ShiftReport, UserFault, UserReport};
use link_term::TermFault;

/// What an end of a set came to, in messages of its users. A sum is told up to 2^64 - 1.
#[derive(Clone, Copy, Debug, PartialEq, Eq)]
pub struct SetFigures {
    /// Those that were offered and accepted.
    pub offered: u64,
    /// Those that the other end accepted, on all links.
    pub delivered: u64,
    /// Those that are acknowledged.
    pub acknowledged: u64,
    /// Those that were heard here and that a user took and kept.
    pub taken: u64,
    /// Those that wait: on a link, held or parked, or for a changeback.
    pub waiting: u64,
    /// Those that were sent and aren't acknowledged.
    pub unacked: u64,
    /// Those that were sent on a link that isn't the home of their stream.
    pub diverted: u64,
    /// Those that were given up.
    pub discarded: u64,
    /// Those that were sent again on a link.
    pub retransmitted: u64,
}

/// What an end of a link carried.
#[derive(Clone, Copy, Debug, PartialEq, Eq)]
pub struct LinkFigures {
    /// How often the link came up.
    pub ups: u64,
    /// The number of the cause of its last failure (Q.703 12), or 0.
    pub cause: u8,
    /// Units that were sent.
    pub sent: u64,
    /// Messages among them, and their octets.
    pub sent_messages: u64,
    pub sent_octets: u64,
    /// Messages that were sent again.
    pub again: u64,
    /// Good units that were heard.
    pub heard: u64,
    /// Messages among them that were accepted, and their octets.
    pub heard_messages: u64,
    pub heard_octets: u64,
    /// Bad units that were heard, and sixteen octets each without a good one (Q.703 4.1).
    pub errors: u64,
}

/// What is added up over the links of an end.
#[derive(Clone, Copy, Debug, PartialEq, Eq)]
pub(crate) enum Figure {
    /// Messages that were accepted.
    Heard,
    /// Messages that were sent away from their home.
    Diverted,
    /// Messages that were sent again.
    Again,
    /// The octets of the messages that were accepted.
    HeardOctets,
}

impl SetFigures {
    /// What this end came to, beside the other one.
    pub(crate) fn of(own: &SetEnd, other: &SetEnd) -> SetFigures
        ensures { result ≡ set_figures own.now other.now }
    {
        let counts = &own.closed.counts;
        SetFigures {
            offered: own.closed.books.messages,
            delivered: sum_of(&other.reports, Figure::Heard),
            acknowledged: counts.acked,
            taken: taken_in(&own.users),
            waiting: counts
                .waiting
                .saturating_add(counts.held)
                .saturating_add(counts.parked)
                .saturating_add(counts.back),
            unacked: counts.unacked,
            diverted: sum_of(&own.reports, Figure::Diverted),
            discarded: counts.discarded,
            retransmitted: sum_of(&own.reports, Figure::Again),
        }
    }
}

impl LinkFigures {
    /// What the terminal of a link reports.
    pub(crate) fn of(report: &ShiftReport) -> LinkFigures
        ensures { result ≡ link_figures report.now }
    {
        LinkFigures {
            ups: report.carried.ups,
            cause: report.turns.cause,
            sent: report.turns.sent,
            sent_messages: report.carried.sent,
            sent_octets: report.carried.sent_octets,
            again: report.carried.again,
            heard: report.turns.good,
            heard_messages: report.answered.messages,
            heard_octets: report.carried.heard_octets,
            errors: report.turns.bad.saturating_add(report.turns.sixteen),
        }
    }
}

/// The sum over these links.
pub(crate) fn sum_of(reports: &[Result<ShiftReport, TermFault>], figure: Figure) -> u64
    ensures { result ≡ capped (summed figure reports.now) }
{
    let mut sum: u64 = 0;
    for report in reports {
        sum = sum.saturating_add(brought(report, figure));
    }
    sum
}

/// What a link brings to a sum; nothing where its terminal failed.
fn brought(report: &Result<ShiftReport, TermFault>, figure: Figure) -> u64
    ensures { result ≡ brought figure report.now }
{
    match report {
        Ok(report) => match figure {
            Figure::Heard => report.answered.messages,
            Figure::Diverted => report.carried.diverted,
            Figure::Again => report.carried.again,
            Figure::HeardOctets => report.carried.heard_octets,
        },
        Err(_) => 0,
    }
}

/// How many messages these users took and kept.
fn taken_in(users: &[Result<UserReport, UserFault>]) -> u64
    ensures { result ≡ capped (taken_in users.now) }
{
    let mut sum: u64 = 0;
    for user in users {
        sum = sum.saturating_add(taken_by(user));
    }
    sum
}

/// How many messages a user took and kept.
fn taken_by(user: &Result<UserReport, UserFault>) -> u64
    ensures { result ≡ taken_by user.now }
{
    match user {
        Ok(report) => report.taken.len() as u64,
        Err(_) => 0,
    }
}
