//! The report.
ghost use Rattle.std.specs.Prelude.{◌≡◌, IfOk};
ghost use Rattle.run_text.specs.Figures.{capped};
ghost use Rattle.run_text.specs.ReportText.{in_all, in_both, report_text};
ghost use Rattle.run_text.specs.Absences.{IsExplained};
ghost use Rattle.run_text.specs.Verdict.{IsVerdict};

use super::absence::explained;
use super::figures::{Figure, sum_of};
use super::texts::{write_sets, write_total, write_verdict};
use super::verdict::{Missing, find_missing};
use bank_core::SetEnd;
use bank_traffic::Traffic;
use std::alloc::{AllocError, Global};

/// A report, and the first message that is missing.
#[derive(Drop)]
pub struct Report {
    /// Its lines.
    pub text: Vec<u8>,
    /// None is missing where this is `None`.
    pub missing: Option<Missing>,
}

/// What a run of this traffic came to at its ends, in so many milliseconds, if a clock told them.
pub fn report_of(
    alloc: Global,
    traffic: &Traffic,
    near: &[SetEnd],
    far: &[SetEnd],
    time: Option<u64>,
) -> Result<Report, AllocError>
    ensures text { IfOk result (λ report. report.text.items ≡ report_text time near.now far.now report.missing) }
    ensures verdict { IfOk result (λ report. IsVerdict traffic.now.users traffic.now.messages 0 far.now report.missing) }
    ensures why { IfOk result (λ report. IsExplained traffic.now near.now report.missing) }
{
    let missing = find_explained(traffic, near, far);
    let messages = in_both(Figure::Heard, near, far);
    let octets = in_both(Figure::HeardOctets, near, far);
    let mut text = write_sets(alloc, near, far)?;
    let mut last = write_total(alloc, messages, octets, time)?;
    let verdict = write_verdict(alloc, missing)?;
    last.extend_from_slice(&verdict)?;
    text.extend_from_slice(&last)?;
    Ok(Report { text, missing })
}

/// The first message that is missing, and why.
fn find_explained(traffic: &Traffic, near: &[SetEnd], far: &[SetEnd]) -> Option<Missing>
    ensures verdict { IsVerdict traffic.now.users traffic.now.messages 0 far.now result }
    ensures why { IsExplained traffic.now near.now result }
{
    match find_missing(traffic, far) {
        Some(missing) => Some(explained(traffic, near, missing)),
        None => None,
    }
}

/// How many messages these ends accepted from their far ends.
pub fn delivered_to(ends: &[SetEnd]) -> u64
    ensures { result ≡ capped (in_all Figure.Heard ends.now) }
{
    in_all(Figure::Heard, ends)
}

/// The sum over all links of both banks.
fn in_both(figure: Figure, near: &[SetEnd], far: &[SetEnd]) -> u64
    ensures { result ≡ in_both figure near.now far.now }
{
    in_all(figure, near).saturating_add(in_all(figure, far))
}

/// The sum over all links of a bank.
fn in_all(figure: Figure, ends: &[SetEnd]) -> u64
    ensures { result ≡ capped (in_all figure ends.now) }
{
    let mut sum: u64 = 0;
    for end in ends {
        sum = sum.saturating_add(sum_of(&end.reports, figure));
    }
    sum
}
