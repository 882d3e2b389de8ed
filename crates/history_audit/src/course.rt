//! What the lines of a history have come to.
ghost use Rattle.std.specs.Prelude.{◌≡◌, ◌≤◌, Err, None, Some, false, length, true};
ghost use Rattle.text_entries.specs.Telling.{Told, longest_line, told_next, with_item, with_line};
ghost use Rattle.text_lines.specs.Flaws.{flaw_of};
ghost use Rattle.text_base.specs.declared.fault.Stop.TheVariants.{Input};
ghost use Rattle.history_audit.specs.Reading.{IsNoted, IsRead, IsTold, StandsFor, is_legal, opened_by, passed_over};

use super::fault::AuditFault;
use l2_units::Profile;
use set_core::{Auditor, Finding, Item, LONGEST_HISTORY, SetFault};
use set_events::Answer;
use std::alloc::Global;
use text_base::Stop;
use text_entries::{LinePlace, read_config};
use text_lines::{find_flaw, is_passed_over};

/// What the items so far have come to.
#[derive(Drop)]
pub(crate) enum Stand {
    /// A set makes them.
    Legal,
    /// The entry on this line is the first that no set makes: what a set answers there, and how many entries there
    /// are.
    Wrong {
        line: u64,
        answer: Option<Answer>,
        entries: u64,
    },
    /// There are more than 2^48 entries.
    Full,
}

/// A history whose configuration was told.
#[derive(Drop)]
pub(crate) struct Course {
    pub(crate) profile: Profile,
    /// Where they're legal it has heard all items.
    pub(crate) auditor: Auditor,
    pub(crate) stand: Stand,
}

/// Reads the line of this number, which isn't too long, in this place; before the configuration there is no course.
pub(crate) fn tell_line(
    alloc: Global,
    course: &mut Option<Course>,
    place: &mut LinePlace,
    number: u64,
    line: &[u8],
) -> Result<(), Stop<AuditFault>>
    requires { length line.now ≤ longest_line }
    ensures { (told : Told) → StandsFor told course.old
        → IsRead result number line.now (with_line number told line.now) course.new }
{
    if is_passed_over(line) {
        return Ok(());
    }
    match course {
        None => {
            *course = Some(open(alloc, number, line)?);
            Ok(())
        }
        Some(course) => tell_next(alloc, course, place, number, line),
    }
}

/// Reads the configuration.
fn open(alloc: Global, number: u64, line: &[u8]) -> Result<Course, Stop<AuditFault>>
    ensures told { IsTold result number line.now (opened_by line.now) }
    ensures unread { opened_by line.now ≡ None → result ≡ Err (Input (AuditFault.Text number (flaw_of line.now))) }
{
    let Some(config) = read_config(line) else {
        return Err(Stop::Input(unread(number, line)));
    };
    match Auditor::new(alloc, &config) {
        Ok(auditor) => Ok(Course {
            profile: config.profile(),
            auditor,
            stand: Stand::Legal,
        }),
        Err(_) => Err(Stop::Memory),
    }
}

/// Reads an item, in this place.
fn tell_next(
    alloc: Global,
    course: &mut Course,
    place: &mut LinePlace,
    number: u64,
    line: &[u8],
) -> Result<(), Stop<AuditFault>>
    ensures { (told : Told) → StandsFor told (Some course.old)
        → IsRead result number line.now (told_next number course.old.profile told line.now) (Some course.new) }
{
    let is_item = place.read(alloc, course.profile, line)?;
    tell_read(course, place, is_item, number, line)
}

/// The item that was read in this place, if the line of this number is one. That it's none takes no memory to say.
fn tell_read(
    course: &mut Course,
    place: &LinePlace,
    is_item: bool,
    number: u64,
    line: &[u8],
) -> Result<(), Stop<AuditFault>>
    ensures item { is_item ≡ true → (told : Told) → StandsFor told (Some course.old)
        → IsNoted result (with_item number told place.now) (Some course.new) }
    ensures unread { is_item ≡ false → result ≡ Err (Input (AuditFault.Text number (flaw_of line.now))) }
{
    if is_item {
        tell_item(course, number, place.item())
    } else {
        Err(Stop::Input(unread(number, line)))
    }
}

/// This line can't be read.
fn unread(number: u64, line: &[u8]) -> AuditFault
    ensures { result ≡ AuditFault.Text number (flaw_of line.now) }
{
    AuditFault::Text {
        line: number,
        flaw: find_flaw(line),
    }
}

/// An item more, on the line of this number.
fn tell_item(course: &mut Course, number: u64, item: &Item) -> Result<(), Stop<AuditFault>>
    ensures { (told : Told) → StandsFor told (Some course.old)
        → IsNoted result (with_item number told item.now) (Some course.new) }
{
    if is_legal(&course.stand) {
        return hear(course, number, item);
    }
    pass_over(&mut course.stand, item);
    Ok(())
}

/// Whether the items so far are legal.
fn is_legal(stand: &Stand) -> bool
    ensures { result ≡ is_legal stand.now }
{
    match stand {
        Stand::Legal => true,
        _ => false,
    }
}

/// An item more where those before it are legal.
fn hear(course: &mut Course, number: u64, item: &Item) -> Result<(), Stop<AuditFault>>
    requires { is_legal course.old.stand ≡ true }
    ensures { (told : Told) → StandsFor told (Some course.old)
        → IsNoted result (with_item number told item.now) (Some course.new) }
{
    let entries = course.auditor.entries();
    match course.auditor.hear(item) {
        Ok(Finding::Right) => Ok(()),
        Ok(Finding::WrongAnswer) => {
            course.stand = Stand::Wrong {
                line: number,
                answer: Some(course.auditor.answer()),
                entries: entries + 1,
            };
            Ok(())
        }
        Ok(Finding::NoSuchActor) => {
            course.stand = Stand::Wrong {
                line: number,
                answer: None,
                entries: entries + 1,
            };
            Ok(())
        }
        Err(SetFault::Exhausted) => {
            course.stand = Stand::Full;
            Ok(())
        }
        Err(SetFault::NoMemory) => Err(Stop::Memory),
    }
}

/// An item more where those before it aren't legal: entries are only counted.
fn pass_over(stand: &mut Stand, item: &Item)
    ensures { stand.new ≡ passed_over item.now stand.old }
{
    if let Item::Checkpoint = item {
        return;
    }
    if let Stand::Wrong { entries, .. } = stand {
        if *entries >= LONGEST_HISTORY {
            *stand = Stand::Full;
        } else {
            *entries += 1;
        }
    }
}
