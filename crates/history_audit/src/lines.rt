//! The lines of a history, as they're read.
ghost use Rattle.std.specs.Prelude.{◌≡◌};
ghost use Rattle.history_audit.specs.Reading.{Concludes};

use super::course::{Course, tell_line};
use super::fault::AuditFault;
use super::verdict::judge;
use l2_units::Profile;
use std::alloc::Global;
use std::marker::Model;
use text_base::Stop;
use text_entries::LinePlace;
use text_lines::{LineFlaw, LineText};

/// The lines of a history so far. It keeps no line: an item's place, and what an auditor keeps.
#[derive(Drop)]
pub(crate) struct HistoryLines {
    /// What they came to; `None` before the configuration.
    course: Option<Course>,
    /// Where a line's item is read into.
    place: LinePlace,
}

impl Model for HistoryLines {
    ghost use Rattle.std.specs.Prelude.{Option};
    ghost use Rattle.history_audit.specs.declared.course.Course.{Course};

    ghost Value = { Option Course };

    ghost view = { λ l. l.course };
}

impl HistoryLines {
    ghost use Rattle.std.specs.Prelude.{◌≡◌, ◌≤◌, None, length};
    ghost use Rattle.std.specs.Option.{option_map};
    ghost use Rattle.text_entries.specs.Telling.{Told, longest_line, with_line};
    ghost use Rattle.history_audit.specs.Reading.{Concludes, IsRead, StandsFor};

    /// Before the first line.
    pub(crate) fn new(alloc: Global) -> HistoryLines
        ensures { result ≡ None }
    {
        HistoryLines {
            course: None,
            place: LinePlace::new(alloc),
        }
    }

    /// The profile of the set, where its configuration was told.
    pub(crate) fn profile(&self) -> Option<Profile>
        ensures { result ≡ option_map (λ course. course.profile) self.now }
    {
        match &self.course {
            Some(course) => Some(course.profile),
            None => None,
        }
    }

    /// Reads the line of this number, which isn't too long.
    pub(crate) fn tell(
        &mut self,
        alloc: Global,
        number: u64,
        line: &[u8],
    ) -> Result<(), Stop<AuditFault>>
        requires { length line.now ≤ longest_line }
        ensures { (told : Told) → StandsFor told self.old
            → IsRead result number line.now (with_line number told line.now) self.new }
    {
        tell_line(alloc, &mut self.course, &mut self.place, number, line)
    }

    /// Appends what is said where no line is left from this number on.
    pub(crate) fn conclude(
        &self,
        alloc: Global,
        number: u64,
        out: &mut Vec<u8>,
    ) -> Result<(), Stop<AuditFault>>
        ensures { Concludes result self.now number out.old.items out.new.items }
    {
        add_verdict(alloc, &self.course, number, out)
    }
}

impl LineText for HistoryLines {
    type Fault = AuditFault;

    const LONGEST_LINE: usize = 16_384;

    ghost use Rattle.text_lines.specs.declared.flaw.LineFlaw.TheVariants.{VeryLong};
    ghost use Rattle.history_audit.specs.Auditing.{IsAuditOfLines};
    ghost use Rattle.history_audit.specs.Reading.{HasTold};
    ghost use Rattle.history_audit.specs.declared.fault.AuditFault.TheVariants.{Text};

    ghost LONGEST_LINE = { 16384 };

    ghost is_text = { IsAuditOfLines };

    ghost has_read = { HasTold };

    ghost very_long = { λ n. Text n VeryLong };

    fn laws() {}

    fn very_long(number: u64) -> AuditFault {
        AuditFault::Text {
            line: number,
            flaw: LineFlaw::VeryLong,
        }
    }

    fn line(
        &mut self,
        alloc: Global,
        number: u64,
        text: &[u8],
        _out: &mut Vec<u8>,
    ) -> Result<(), Stop<AuditFault>> {
        self.tell(alloc, number, text)
    }

    fn end(&self, alloc: Global, number: u64, out: &mut Vec<u8>) -> Result<(), Stop<AuditFault>> {
        self.conclude(alloc, number, out)
    }
}

/// Appends what is said of what the lines before this one came to.
fn add_verdict(
    alloc: Global,
    course: &Option<Course>,
    number: u64,
    out: &mut Vec<u8>,
) -> Result<(), Stop<AuditFault>>
    ensures { Concludes result course.now number out.old.items out.new.items }
{
    let verdict = judge(alloc, course, number)?;
    out.extend_from_slice(&verdict.text)?;
    match verdict.fault {
        None => Ok(()),
        Some(fault) => Err(Stop::Input(fault)),
    }
}
