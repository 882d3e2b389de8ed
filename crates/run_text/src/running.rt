//! A run, from its traffic to what is written.
ghost use Rattle.std.specs.Prelude.{◌≡◌, ◌≤◌, ℕ, All, IfErr, IfOk, Option, None, length};
ghost use Rattle.bank_core.specs.Faults.{EndsEarly};
ghost use Rattle.std.specs.Option.{option_map};
ghost use Rattle.std.specs.declared.time.Duration.{Duration};
ghost use Rattle.run_text.specs.Failures.{failure_of};
ghost use Rattle.run_text.specs.RunText.{run_text};
ghost use Rattle.run_text.specs.Running.{FailsByWrites, IsAnEnd, IsFaultOfEnds, IsFaultOfRun, Runs, TellsLack, WritesEnds, IsMissing, IsShown, milliseconds, showing, shown_text};

use super::capturing::capture_of;
use super::failures::find_failure;
use super::fault::RunFault;
use super::lines::write_all_sets;
use super::report::{Report, delivered_to, report_of};
use super::summing::totals_of_ends;
use super::verdict::Missing;
use bank_core::{BankFault, SetEnd};
use bank_traffic::{PaceGate, Traffic, TrafficEnds, run_through};
use std::alloc::{AllocError, Global};
use std::sync::Wait;
use std::thread::Threads;
use std::time::{Clock, Duration};
use text_base::{Fault, Sink, write_all};

/// What is written of ends behind what their sets came to.
#[derive(Clone, Copy, Debug, PartialEq, Eq)]
pub struct Shown {
    /// A report, with the verdict on what was taken.
    pub report: bool,
    /// The capture of what was sent on each link, in place of all that.
    pub capture: bool,
    /// How many milliseconds the run took, for the report, if a clock told them.
    pub time: Option<u64>,
}

/// Runs this traffic through these gates, and writes what its sets came to at both ends; with `report` behind that a
/// report, in which case the answer is the first message that is missing, if one is. Where the traffic keeps what is sent,
/// the capture of that is written in place of all these. When all threads have ended, before anything is written, `ended`
/// is told how many messages the ends b accepted, where the sets came to ends, and tells how long they took.
///
/// Faults: [`RunFault::Thread`] and [`RunFault::Close`] as [`run_through`] has them; [`Fault::Memory`] where memory was
/// wanted there or here; [`RunFault::User`] or [`RunFault::Terminal`] of the first user that ended early or terminal
/// that failed. Nothing is written then. [`Fault::Write`] where the sink fails; what was written is a beginning of the text.
pub fn write_run<
    R: Threads + Wait + Clock + Copy + Send + Sync + 'static,
    W: Sink,
    F: FnOnce(Option<u64>) -> Option<Duration>,
>(
    rt: &R,
    alloc: Global,
    traffic: &Traffic,
    gates: (PaceGate, PaceGate),
    report: bool,
    sink: &mut W,
    ended: F,
) -> Result<Option<Missing>, Fault<RunFault>>
    requires callable { F.IsAlwaysCallable ended }
    ensures text { (delivered : Option ℕ) × (elapsed : Option Duration) × F.post ended delivered elapsed
        × Runs traffic.now report (option_map milliseconds elapsed) result (W.written sink.old) (W.written sink.new) }
    ensures fault { IfErr result (IsFaultOfRun traffic.now) }
    ensures failed { FailsByWrites result (W.failures sink.old) (W.failures sink.new) }
{
    let (near_gate, far_gate) = gates;
    let came_to = run_through(rt, alloc, traffic, near_gate, far_gate);
    let delivered = delivered_by(&came_to);
    let time = time_of(ended(delivered));
    let shown = Shown {
        report,
        capture: traffic.keeps,
        time,
    };
    let ends = match came_to {
        Ok(ends) => ends,
        Err(fault) => return Err(fault_of(fault)),
    };
    write_ends(alloc, traffic, &ends.near, &ends.far, shown, sink)
}

/// How many milliseconds this is, if a clock told it.
fn time_of(elapsed: Option<Duration>) -> Option<u64>
    ensures { result ≡ option_map milliseconds elapsed }
{
    match elapsed {
        Some(elapsed) => Some(milliseconds_of(elapsed)),
        None => None,
    }
}

/// How many milliseconds this is, up to 2^64 - 1.
fn milliseconds_of(elapsed: Duration) -> u64
    ensures { result ≡ milliseconds elapsed }
{
    elapsed.as_millis().min(u128::from(u64::MAX)) as u64
}

/// How many messages the ends b accepted, where the sets came to ends.
fn delivered_by(came_to: &Result<TrafficEnds, BankFault>) -> Option<u64> {
    match came_to {
        Ok(ends) => Some(delivered_to(&ends.far)),
        Err(_) => None,
    }
}

/// Why there is nothing to write.
fn fault_of(fault: BankFault) -> Fault<RunFault>
    requires early { EndsEarly fault }
    ensures { TellsLack fault result }
{
    match fault {
        BankFault::NoThread => Fault::Input(RunFault::Thread),
        BankFault::Unclosed => Fault::Input(RunFault::Close),
        _ => Fault::Memory,
    }
}

/// Writes what these ends of a traffic came to, at most 16 of each bank, and behind that what is to be shown; with a report
/// the answer is the first message that is missing, if one is.
///
/// Faults: [`RunFault::User`] or [`RunFault::Terminal`] exactly where a user ended early or a terminal failed, of the
/// first one: the ends a come before the ends b, a set's users before its terminals. [`Fault::Memory`] where memory was
/// wanted here. Nothing is written then. [`Fault::Write`] where the sink fails; what was written is a beginning of the text.
pub fn write_ends<W: Sink>(
    alloc: Global,
    traffic: &Traffic,
    near: &[SetEnd],
    far: &[SetEnd],
    shown: Shown,
    sink: &mut W,
) -> Result<Option<Missing>, Fault<RunFault>>
    requires ends { All IsAnEnd near.now × All IsAnEnd far.now }
    requires few { (length near.now ≤ 16) × (length far.now ≤ 16) }
    ensures text { WritesEnds traffic.now (showing shown) near.now far.now result (W.written sink.old) (W.written sink.new) }
    ensures fault { IfErr result (IsFaultOfEnds near.now far.now) }
    ensures failed { FailsByWrites result (W.failures sink.old) (W.failures sink.new) }
{
    match find_failure(near, far) {
        Some(fault) => Err(Fault::Input(fault)),
        None => write_text(alloc, traffic, near, far, shown, sink),
    }
}

/// Writes what ends came to of which none failed.
fn write_text<W: Sink>(
    alloc: Global,
    traffic: &Traffic,
    near: &[SetEnd],
    far: &[SetEnd],
    shown: Shown,
    sink: &mut W,
) -> Result<Option<Missing>, Fault<RunFault>>
    requires ends { All IsAnEnd near.now × All IsAnEnd far.now }
    requires few { (length near.now ≤ 16) × (length far.now ≤ 16) }
    requires none { failure_of near.now far.now ≡ None }
    ensures text { WritesEnds traffic.now (showing shown) near.now far.now result (W.written sink.old) (W.written sink.new) }
    ensures fault { IfErr result (IsFaultOfEnds near.now far.now) }
    ensures failed { FailsByWrites result (W.failures sink.old) (W.failures sink.new) }
{
    match report_on(alloc, traffic, near, far, shown) {
        Ok(report) => match write_all(sink, &report.text) {
            Ok(()) => Ok(report.missing),
            Err(_) => Err(Fault::Write),
        },
        Err(_) => Err(Fault::Memory),
    }
}

/// What is written about these ends, and the first message that is missing, if a report is asked for.
fn report_on(
    alloc: Global,
    traffic: &Traffic,
    near: &[SetEnd],
    far: &[SetEnd],
    shown: Shown,
) -> Result<Report, AllocError>
    requires ends { All IsAnEnd near.now × All IsAnEnd far.now }
    requires few { (length near.now ≤ 16) × (length far.now ≤ 16) }
    ensures missing { IfOk result (λ report. IsMissing shown.report traffic.now near.now far.now report.missing) }
    ensures text { IfOk result (λ report. IsShown (showing shown) near.now far.now report.missing report.text.items) }
{
    let lines = lines_on(alloc, traffic, near, far, shown)?;
    if !shown.capture {
        return Ok(lines);
    }
    let text = capture_of(alloc, near, far)?;
    Ok(Report {
        text,
        missing: lines.missing,
    })
}

/// The lines about these ends, and the first message that is missing, if a report is asked for.
fn lines_on(
    alloc: Global,
    traffic: &Traffic,
    near: &[SetEnd],
    far: &[SetEnd],
    shown: Shown,
) -> Result<Report, AllocError>
    requires ends { All IsAnEnd near.now × All IsAnEnd far.now }
    requires few { (length near.now ≤ 16) × (length far.now ≤ 16) }
    ensures missing { IfOk result (λ report. IsMissing shown.report traffic.now near.now far.now report.missing) }
    ensures text { IfOk result (λ report. report.text.items
        ≡ shown_text (showing shown) near.now far.now report.missing) }
{
    let mut text = text_of(alloc, near, far)?;
    if !shown.report {
        return Ok(Report {
            text,
            missing: None,
        });
    }
    let report = report_of(alloc, traffic, near, far, shown.time)?;
    text.extend_from_slice(&report.text)?;
    Ok(Report {
        text,
        missing: report.missing,
    })
}

/// The text about these ends.
fn text_of(alloc: Global, near: &[SetEnd], far: &[SetEnd]) -> Result<Vec<u8>, AllocError>
    requires ends { All IsAnEnd near.now × All IsAnEnd far.now }
    requires few { (length near.now ≤ 16) × (length far.now ≤ 16) }
    ensures { IfOk result (λ text. text.items ≡ run_text near.now far.now) }
{
    let near_totals = totals_of_ends(alloc, near)?;
    let far_totals = totals_of_ends(alloc, far)?;
    write_all_sets(alloc, near_totals, &far_totals)
}
