//! `mtpbank audit`: a history, and whether it's legal.
ghost use Rattle.std.specs.Prelude.{◌≤◌, ◌^◌, length, IfSome, OnOk};
ghost use Rattle.text_base.specs.Printing.{Prints, FailsByDevices};
ghost use Rattle.history_audit.specs.Auditing.{IsAuditText, OneAuditText};

use super::fault::AuditFault;
use super::lines::HistoryLines;
use std::alloc::Global;
use text_base::{Fault, LONGEST_READ, Sink, Source};
use text_lines::print_lines;

/// Reads the history that the source gives, and writes whether it's legal.
///
/// A line that can't be read, as one of more than 16,384 octets, is a fault, and nothing is written then; an entry
/// that no set makes is one too, behind the line that is written about it. What is kept is one line, what the set
/// keeps, and the books: with checkpoints it doesn't grow with the input. An input of more than 2^60 octets ends with
/// [`Fault::Long`], unless another fault comes before.
pub fn audit<S: Source, W: Sink>(
    alloc: Global,
    source: &mut S,
    sink: &mut W,
) -> Result<(), Fault<AuditFault>>
    ensures text { IfSome (S.left source.old)
        (λ input. Prints result (IsAuditText input) (W.written sink.old) (W.written sink.new)) }
    ensures bounded { IfSome (S.left source.old) (λ input. OnOk result (length input ≤ 2 ^ 60)) }
    ensures devices { IfSome (S.left source.old)
        (FailsByDevices (2 ^ 60) result (S.failures source.old) (S.failures source.new)
        (W.failures sink.old) (W.failures sink.new)) }
{
    print_lines(alloc, HistoryLines::new(alloc), LONGEST_READ, source, sink)
}

/// A law over the definitions alone: an input has one text.
pub fn one_audit_text()
    ensures { OneAuditText }
{}
