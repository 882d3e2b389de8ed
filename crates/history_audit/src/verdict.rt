//! What is said of a history that has ended.
ghost use Rattle.std.specs.Prelude.{◌≡◌, ◌++◌, [], IfOk, None, Some, codes, decimal};
ghost use Rattle.text_entries.specs.Telling.{Told, told_in_all};
ghost use Rattle.history_audit.specs.Auditing.{IsAuditOf, books_text, there_text, told_of, wrong_text};
ghost use Rattle.history_audit.specs.Reading.{IsCourse, IsSaidOf, StandsFor};

use super::course::{Course, Stand};
use super::fault::AuditFault;
use l2_units::Profile;
use set_events::{Answer, Books};
use std::alloc::{AllocError, Global};
use text_entries::write_answer;
use text_lines::LineFlaw;

/// What is said of a history: a text, and how it's at fault, if it is.
#[derive(Drop)]
pub(crate) struct Verdict {
    pub(crate) text: Vec<u8>,
    pub(crate) fault: Option<AuditFault>,
}

/// What is said of what the lines before this one told.
pub(crate) fn judge(
    alloc: Global,
    course: &Option<Course>,
    number: u64,
) -> Result<Verdict, AllocError>
    ensures { (told : Told) → StandsFor told course.now
        → IfOk result (λ verdict. IsAuditOf (told_in_all number told.settings told) (told_of verdict)) }
{
    match course {
        Some(course) => judge_course(alloc, course),
        None => Ok(at_fault(
            alloc,
            AuditFault::Text {
                line: number,
                flaw: LineFlaw::Words,
            },
        )),
    }
}

/// What is said of a history whose configuration was told.
fn judge_course(alloc: Global, course: &Course) -> Result<Verdict, AllocError>
    ensures { (told : Told) → IsCourse told course.now
        → IfOk result (λ verdict. IsSaidOf told (told_of verdict)) }
{
    match &course.stand {
        Stand::Legal => accept(alloc, course.auditor.entries(), &course.auditor.books()),
        Stand::Wrong { line, answer, .. } => refuse(alloc, course.profile, *line, answer),
        Stand::Full => Ok(at_fault(alloc, AuditFault::Exhausted)),
    }
}

/// Nothing but this fault.
fn at_fault(alloc: Global, fault: AuditFault) -> Verdict
    ensures text { result.text.items ≡ [] }
    ensures fault { result.fault ≡ Some fault }
{
    Verdict {
        text: Vec::new(alloc),
        fault: Some(fault),
    }
}

/// What is said of a legal history.
fn accept(alloc: Global, calls: u64, books: &Books) -> Result<Verdict, AllocError>
    ensures text { IfOk result (λ verdict. verdict.text.items ≡ codes "legal=yes" ++ books_text calls books.now) }
    ensures fault { IfOk result (λ verdict. verdict.fault ≡ None) }
{
    Ok(Verdict {
        text: write_legal(alloc, calls, books)?,
        fault: None,
    })
}

/// What is said of a history whose first wrong entry stands on this line.
fn refuse(
    alloc: Global,
    profile: Profile,
    line: u64,
    answer: &Option<Answer>,
) -> Result<Verdict, AllocError>
    ensures text { IfOk result (λ verdict. verdict.text.items ≡ wrong_text profile line answer.now) }
    ensures fault { IfOk result (λ verdict. verdict.fault ≡ Some (AuditFault.Illegal line)) }
{
    Ok(Verdict {
        text: write_wrong(alloc, profile, line, answer)?,
        fault: Some(AuditFault::Illegal { line }),
    })
}

/// Yes, and the books.
fn write_legal(alloc: Global, calls: u64, books: &Books) -> Result<Vec<u8>, AllocError>
    ensures { IfOk result (λ text. text.items ≡ codes "legal=yes" ++ books_text calls books.now) }
{
    let accepted = books.messages;
    let octets = books.octets;
    let acked = books.acknowledged;
    Ok(format!(in alloc;
        "legal=yes calls={calls} accepted={accepted} octets={octets} acked={acked}\n"
    )?.into_bytes())
}

/// No, the line of the first entry that is wrong, and what a set answers there.
fn write_wrong(
    alloc: Global,
    profile: Profile,
    line: u64,
    answer: &Option<Answer>,
) -> Result<Vec<u8>, AllocError>
    ensures { IfOk result (λ text. text.items ≡ wrong_text profile line answer.now) }
{
    let mut text = format!(in alloc; "legal=no line={line} -> ")?.into_bytes();
    text.extend_from_slice(&write_there(alloc, profile, answer)?)?;
    Ok(text)
}

/// What a set answers, in the words of a history.
fn write_there(
    alloc: Global,
    profile: Profile,
    answer: &Option<Answer>,
) -> Result<Vec<u8>, AllocError>
    ensures { IfOk result (λ text. text.items ≡ there_text profile answer.now) }
{
    match answer {
        Some(answer) => write_answer(alloc, profile, answer),
        None => Vec::from_slice(alloc, b"no such user or terminal\n"),
    }
}
