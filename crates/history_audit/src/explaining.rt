//! What is said of a line of a history that ends it with a fault.
ghost use Rattle.std.specs.Prelude.{◌≤◌, ◌^◌, length, IfSome, OnOk};
ghost use Rattle.text_base.specs.Printing.{Prints, FailsByDevices};
ghost use Rattle.text_entries.specs.Blaming.{explained_line};
ghost use Rattle.text_lines.specs.Explaining.{IsExplained, fault_alone};
ghost use Rattle.history_audit.specs.Auditing.{IsAuditText};
ghost use Rattle.history_audit.specs.Explaining.{IsExplainedAuditText};

use super::fault::AuditFault;
use super::lines::HistoryLines;
use l2_units::Profile;
use std::alloc::Global;
use std::marker::Model;
use text_base::{Fault, LONGEST_READ, Sink, Source, Stop};
use text_entries::explain_line;
use text_lines::{Explained, LineFlaw, LineText, print_lines};

/// The lines of a history so far, whose faults are explained.
#[derive(Drop)]
struct ExplainedLines {
    lines: HistoryLines,
}

impl Model for ExplainedLines {
    ghost use Rattle.std.specs.Prelude.{Option};
    ghost use Rattle.history_audit.specs.declared.course.Course.{Course};

    ghost Value = { Option Course };

    ghost view = { λ e. e.lines };
}

impl LineText for ExplainedLines {
    type Fault = Explained<AuditFault>;

    const LONGEST_LINE: usize = 16_384;

    ghost use Rattle.std.specs.Prelude.{None};
    ghost use Rattle.text_lines.specs.declared.flaw.LineFlaw.TheVariants.{VeryLong};
    ghost use Rattle.history_audit.specs.Explaining.{IsExplainedOfLines};
    ghost use Rattle.history_audit.specs.Reading.{HasTold};
    ghost use Rattle.history_audit.specs.declared.fault.AuditFault.TheVariants.{Text};

    ghost LONGEST_LINE = { 16384 };

    ghost is_text = { IsExplainedOfLines };

    ghost has_read = { HasTold };

    ghost very_long = { λ n. record { fault = Text n VeryLong; told = None } };

    fn laws() {}

    fn very_long(number: u64) -> Explained<AuditFault> {
        Explained {
            fault: AuditFault::Text {
                line: number,
                flaw: LineFlaw::VeryLong,
            },
            told: None,
        }
    }

    fn line(
        &mut self,
        alloc: Global,
        number: u64,
        text: &[u8],
        _out: &mut Vec<u8>,
    ) -> Result<(), Stop<Explained<AuditFault>>> {
        let profile = self.lines.profile();
        match self.lines.tell(alloc, number, text) {
            Ok(()) => Ok(()),
            Err(Stop::Input(fault)) => Err(explained(alloc, profile, number, text, fault)),
            Err(Stop::Memory) => Err(Stop::Memory),
        }
    }

    fn end(
        &self,
        alloc: Global,
        number: u64,
        out: &mut Vec<u8>,
    ) -> Result<(), Stop<Explained<AuditFault>>> {
        match self.lines.conclude(alloc, number, out) {
            Ok(()) => Ok(()),
            Err(Stop::Input(fault)) => Err(Stop::Input(Explained { fault, told: None })),
            Err(Stop::Memory) => Err(Stop::Memory),
        }
    }
}

/// The fault of the line of this number with its explanation, or want of memory for that.
fn explained(
    alloc: Global,
    profile: Option<Profile>,
    number: u64,
    text: &[u8],
    fault: AuditFault,
) -> Stop<Explained<AuditFault>>
    ensures { IsExplained result fault (explained_line profile number text.now) }
{
    match explain_line(alloc, profile, number, text) {
        Ok(told) => Stop::Input(Explained { fault, told }),
        Err(want) => Stop::from(want),
    }
}

/// Reads the history that the source gives, writes whether it's legal, and explains a line that can't be read.
///
/// What is written is what [`crate::audit`] writes, and the same fault ends it. That of a line which can't be read, and isn't too
/// long, brings along which word of it is at fault and what is wanted in its place, as [`text_entries::explain_line`] tells
/// it; of an entry that no set makes nothing is said.
pub fn audit_explained<S: Source, W: Sink>(
    alloc: Global,
    source: &mut S,
    sink: &mut W,
) -> Result<(), Fault<Explained<AuditFault>>>
    ensures text { IfSome (S.left source.old)
        (λ input. Prints result (IsExplainedAuditText input) (W.written sink.old) (W.written sink.new)) }
    ensures same { IfSome (S.left source.old)
        (λ input. Prints (fault_alone result) (IsAuditText input) (W.written sink.old) (W.written sink.new)) }
    ensures bounded { IfSome (S.left source.old) (λ input. OnOk result (length input ≤ 2 ^ 60)) }
    ensures devices { IfSome (S.left source.old)
        (FailsByDevices (2 ^ 60) result (S.failures source.old) (S.failures source.new)
        (W.failures sink.old) (W.failures sink.new)) }
{
    let lines = ExplainedLines {
        lines: HistoryLines::new(alloc),
    };
    print_lines(alloc, lines, LONGEST_READ, source, sink)
}
