//! The lines of a report.
ghost use Rattle.std.specs.Prelude.{◌≡◌, ◌++◌, IfOk, codes};
ghost use Rattle.run_text.specs.Absences.{absence_text};
ghost use Rattle.run_text.specs.ReportText.{came_text, end_text, ends_text, heard_text, left_text, life_text, link_ends_text, link_text, one_text, rate, rates_text, seconds_text, sent_text, set_text, sets_text, time_text, total_text, verdict_text};

use super::absence::cause_name;
use super::figures::{LinkFigures, SetFigures};
use super::pairs::{Paired, write_pairs};
use super::verdict::{Absence, Missing};
use bank_core::{SetEnd, ShiftReport};
use link_term::TermFault;
use std::alloc::{AllocError, Global};

/// The lines about each set: its ends, and then its links.
pub(crate) fn write_sets(
    alloc: Global,
    near: &[SetEnd],
    far: &[SetEnd],
) -> Result<Vec<u8>, AllocError>
    ensures { IfOk result (λ text. text.items ≡ sets_text near.now far.now) }
{
    write_pairs(alloc, (), near, far)
}

impl Paired for SetEnd {
    type Place = ();

    ghost text = { λ place. set_text };

    fn write(
        alloc: Global,
        _place: (),
        set: u64,
        a: &SetEnd,
        b: &SetEnd,
    ) -> Result<Vec<u8>, AllocError> {
        let mut text = write_ends(alloc, set, a, b)?;
        let links = write_pairs(alloc, set, &a.reports, &b.reports)?;
        text.extend_from_slice(&links)?;
        Ok(text)
    }
}

/// The ends of a link, in the set of this number.
impl Paired for Result<ShiftReport, TermFault> {
    type Place = u64;

    ghost text = { link_ends_text };

    fn write(
        alloc: Global,
        set: u64,
        link: u64,
        a: &Result<ShiftReport, TermFault>,
        b: &Result<ShiftReport, TermFault>,
    ) -> Result<Vec<u8>, AllocError> {
        let mut text = write_one(alloc, set, link, "a", a)?;
        let other = write_one(alloc, set, link, "b", b)?;
        text.extend_from_slice(&other)?;
        Ok(text)
    }
}

/// The lines about both ends of a set.
fn write_ends(alloc: Global, set: u64, a: &SetEnd, b: &SetEnd) -> Result<Vec<u8>, AllocError>
    ensures { IfOk result (λ text. text.items ≡ ends_text set a.now b.now) }
{
    let mut text = write_end(alloc, set, "a", &SetFigures::of(a, b))?;
    let other = write_end(alloc, set, "b", &SetFigures::of(b, a))?;
    text.extend_from_slice(&other)?;
    Ok(text)
}

/// The line about an end of a set.
fn write_end(alloc: Global, set: u64, end: &str, f: &SetFigures) -> Result<Vec<u8>, AllocError>
    ensures { IfOk result (λ text. text.items ≡ end_text set end.now f.now) }
{
    let mut text = format!(in alloc; "set={set} end={end}")?.into_bytes();
    let mut figures = write_came(alloc, f)?;
    let left = write_left(alloc, f)?;
    figures.extend_from_slice(&left)?;
    text.extend_from_slice(&figures)?;
    Ok(text)
}

/// What came of the messages of a set.
fn write_came(alloc: Global, f: &SetFigures) -> Result<Vec<u8>, AllocError>
    ensures { IfOk result (λ text. text.items ≡ came_text f.now) }
{
    let offered = f.offered;
    let delivered = f.delivered;
    let acknowledged = f.acknowledged;
    let taken = f.taken;
    Ok(format!(in alloc;
        " offered={offered} delivered={delivered} acknowledged={acknowledged} taken={taken}"
    )?.into_bytes())
}

/// What is left of the messages of a set, and what befell them.
fn write_left(alloc: Global, f: &SetFigures) -> Result<Vec<u8>, AllocError>
    ensures { IfOk result (λ text. text.items ≡ left_text f.now) }
{
    let waiting = f.waiting;
    let unacked = f.unacked;
    let diverted = f.diverted;
    let discarded = f.discarded;
    let retransmitted = f.retransmitted;
    Ok(format!(in alloc;
        " waiting={waiting} unacked={unacked} diverted={diverted} discarded={discarded} retransmitted={retransmitted}\n"
    )?.into_bytes())
}

/// The line about an end of a link; none where its terminal failed.
fn write_one(
    alloc: Global,
    set: u64,
    link: u64,
    end: &str,
    report: &Result<ShiftReport, TermFault>,
) -> Result<Vec<u8>, AllocError>
    ensures { IfOk result (λ text. text.items ≡ one_text set link end.now report.now) }
{
    match report {
        Ok(report) => write_link(alloc, set, link, end, &LinkFigures::of(report)),
        Err(_) => Ok(Vec::new(alloc)),
    }
}

/// The line about an end of a link.
fn write_link(
    alloc: Global,
    set: u64,
    link: u64,
    end: &str,
    f: &LinkFigures,
) -> Result<Vec<u8>, AllocError>
    ensures { IfOk result (λ text. text.items ≡ link_text set link end.now f.now) }
{
    let mut text = format!(in alloc; "set={set} link={link} end={end}")?.into_bytes();
    let mut carried = write_sent(alloc, f)?;
    let mut heard = write_heard(alloc, f)?;
    let life = write_life(alloc, f)?;
    heard.extend_from_slice(&life)?;
    carried.extend_from_slice(&heard)?;
    text.extend_from_slice(&carried)?;
    Ok(text)
}

/// What was sent on a link.
fn write_sent(alloc: Global, f: &LinkFigures) -> Result<Vec<u8>, AllocError>
    ensures { IfOk result (λ text. text.items ≡ sent_text f.now) }
{
    let sent = f.sent;
    let messages = f.sent_messages;
    let octets = f.sent_octets;
    let again = f.again;
    Ok(format!(in alloc;
        " sent={sent} sent_messages={messages} sent_octets={octets} again={again}"
    )?.into_bytes())
}

/// What was heard on a link.
fn write_heard(alloc: Global, f: &LinkFigures) -> Result<Vec<u8>, AllocError>
    ensures { IfOk result (λ text. text.items ≡ heard_text f.now) }
{
    let heard = f.heard;
    let messages = f.heard_messages;
    let octets = f.heard_octets;
    let errors = f.errors;
    Ok(format!(in alloc;
        " heard={heard} heard_messages={messages} heard_octets={octets} errors={errors}"
    )?.into_bytes())
}

/// How often a link came up, and why it failed last.
fn write_life(alloc: Global, f: &LinkFigures) -> Result<Vec<u8>, AllocError>
    ensures { IfOk result (λ text. text.items ≡ life_text f.now) }
{
    let ups = f.ups;
    let cause = cause_name(f.cause);
    Ok(format!(in alloc; " ups={ups} cause={cause}\n")?.into_bytes())
}

/// The line about all sets together.
pub(crate) fn write_total(
    alloc: Global,
    messages: u64,
    octets: u64,
    time: Option<u64>,
) -> Result<Vec<u8>, AllocError>
    ensures { IfOk result (λ text. text.items ≡ total_text messages octets time) }
{
    let mut text = format!(in alloc; "run messages={messages} octets={octets}")?.into_bytes();
    let rates = write_time(alloc, messages, octets, time)?;
    text.extend_from_slice(&rates)?;
    Ok(text)
}

/// How long the run took, and how much went in each second.
fn write_time(
    alloc: Global,
    messages: u64,
    octets: u64,
    time: Option<u64>,
) -> Result<Vec<u8>, AllocError>
    ensures { IfOk result (λ text. text.items ≡ time_text messages octets time) }
{
    let Some(milliseconds) = time else {
        return Ok(format!(in alloc; "\n")?.into_bytes());
    };
    let seconds = write_seconds(alloc, milliseconds)?;
    let mut text = format!(in alloc; " seconds=")?.into_bytes();
    let rates = write_rates(
        alloc,
        rate(messages, milliseconds),
        rate(octets, milliseconds),
    )?;
    text.extend_from_slice(&seconds)?;
    text.extend_from_slice(&rates)?;
    Ok(text)
}

fn write_rates(alloc: Global, messages: u64, octets: u64) -> Result<Vec<u8>, AllocError>
    ensures { IfOk result (λ text. text.items ≡ rates_text messages octets) }
{
    Ok(format!(in alloc; " messages_a_second={messages} octets_a_second={octets}\n")?.into_bytes())
}

/// Seconds, with three decimal places.
fn write_seconds(alloc: Global, milliseconds: u64) -> Result<Vec<u8>, AllocError>
    ensures { IfOk result (λ text. text.items ≡ seconds_text milliseconds) }
{
    let seconds = milliseconds / 1_000;
    let tenths = milliseconds / 100 % 10;
    let hundredths = milliseconds / 10 % 10;
    let thousandths = milliseconds % 10;
    Ok(format!(in alloc; "{seconds}.{tenths}{hundredths}{thousandths}")?.into_bytes())
}

/// So much in so many milliseconds, in each second.
fn rate(n: u64, milliseconds: u64) -> u64
    ensures { result ≡ rate n milliseconds }
{
    let time = if milliseconds == 0 { 1 } else { milliseconds };
    n.saturating_mul(1_000) / time
}

/// The verdict.
pub(crate) fn write_verdict(alloc: Global, missing: Option<Missing>) -> Result<Vec<u8>, AllocError>
    ensures { IfOk result (λ text. text.items ≡ verdict_text missing) }
{
    match missing {
        Some(missing) => write_absence(alloc, missing),
        None => Ok(format!(in alloc; "all delivered in order\n")?.into_bytes()),
    }
}

/// The line about the first message that is missing, and why.
fn write_absence(alloc: Global, missing: Missing) -> Result<Vec<u8>, AllocError>
    ensures { IfOk result (λ text. text.items ≡ absence_text missing ++ codes "\n") }
{
    let set = missing.set;
    let stream = missing.stream;
    let message = missing.message;
    match missing.why {
        Absence::Lost => Ok(format!(in alloc;
            "missing set={set} stream={stream} message={message}\n"
        )?.into_bytes()),
        Absence::GivenUp { cause } => {
            let name = cause_name(cause);
            Ok(format!(in alloc;
                "given-up set={set} stream={stream} message={message} cause={name}\n"
            )?.into_bytes())
        }
        Absence::Unfinished => Ok(format!(in alloc;
            "unfinished set={set} stream={stream} message={message}\n"
        )?.into_bytes()),
    }
}
