//! The printed texts.
ghost use Rattle.std.specs.Prelude.{◌≡◌, ◌++◌, ◌+◌, ◌<◌, ◌^◌, IfOk, MatchResult, codes, decimal, length};
ghost use Rattle.l2_bits.specs.SealedText.{sealed_text};
ghost use Rattle.l2_units.specs.Lent.{unit_in};
ghost use Rattle.set_events.specs.Lent.{answer_in};
ghost use Rattle.set_model.specs.Rows.{total_of};
ghost use Rattle.text_base.specs.Figures.{hex_text};
ghost use Rattle.text_entries.specs.Texts.{Appends, unit_octets, fate_text, took_text, fault_code, flags_text, report_text, sent_line, answer_text, shown_line, shown_text, end_name, end_text, link_counts, other_counts};

use super::units::unit_octets;
use l2_bits::check_octets_of;
use l2_units::{Profile, UnitRef};
use pair_steps::{End, Showing, ShownRef};
use set_events::{AnswerRef, ControlFault, Counts, Fate, Report, Took};
use std::alloc::{AllocError, Global};
use text_base::{bit_of, decimal_digit, push_hex, push_number};

/// The text of what a step of two sets of this profile shows.
pub fn write_shown(alloc: Global, profile: Profile, shown: &Showing) -> Result<Vec<u8>, AllocError>
    ensures { IfOk result (λ text. text.items ≡ shown_text profile shown.now) }
{
    let mut text = Vec::new(alloc);
    push_shown(&mut text, profile, shown)?;
    Ok(text)
}

/// Appends the text of what a step of two sets of this profile shows.
///
/// Where memory is wanted `out` holds what it held before.
pub fn push_shown(out: &mut Vec<u8>, profile: Profile, shown: &Showing) -> Result<(), AllocError>
    ensures { MatchResult result
        (λ done. out.new.items ≡ out.old.items ++ shown_text profile shown.now)
        (λ want. out.new.items ≡ out.old.items) }
{
    let kept = out.len();
    match push_line(out, profile, shown) {
        Ok(()) => Ok(()),
        Err(want) => {
            // the pieces that had room
            out.truncate(kept);
            Err(want)
        }
    }
}

/// Appends the line of what was shown, case by case.
fn push_line(out: &mut Vec<u8>, profile: Profile, shown: &Showing) -> Result<(), AllocError>
    ensures { Appends result out.old.items (shown_line profile shown.now) out.new.items }
{
    match shown.get() {
        ShownRef::Up => push_piece(out, b"up\n"),
        ShownRef::Lost => push_piece(out, b"lost\n"),
        ShownRef::Answered(answer) => push_answer(out, profile, &answer),
    }
}

/// Appends the text of what a set of this profile answered.
///
/// Where memory is wanted `out` begins with what it held before.
pub fn push_answer(
    out: &mut Vec<u8>,
    profile: Profile,
    answer: &AnswerRef<'_>,
) -> Result<(), AllocError>
    ensures { Appends result out.old.items (answer_text profile (answer_in answer.now)) out.new.items }
{
    match answer {
        AnswerRef::Accepted { number } => push_number_line(out, b"accepted ", *number),
        AnswerRef::Taken { body } => push_hex_line(out, b"taken ", body),
        AnswerRef::Found { fate } => push_fate(out, *fate),
        AnswerRef::Sent { unit } => push_sent(out, profile, unit),
        AnswerRef::Heard { report } => push_report(out, report),
        AnswerRef::Done => push_piece(out, b"done\n"),
        AnswerRef::Refused { why } => push_number_line(out, b"refused ", why.number() as u64),
    }
}

/// Appends the text of where a message stands.
fn push_fate(out: &mut Vec<u8>, fate: Fate) -> Result<(), AllocError>
    ensures { Appends result out.old.items (fate_text fate) out.new.items }
{
    match fate {
        Fate::Waiting { link } => push_number_line(out, b"found waiting ", link as u64),
        Fate::Unacked { link } => push_number_line(out, b"found unacked ", link as u64),
        Fate::Acked { link } => push_number_line(out, b"found acked ", link as u64),
        Fate::Held { link } => push_number_line(out, b"found held ", link as u64),
        Fate::Parked => push_piece(out, b"found parked\n"),
        Fate::Back { code } => push_number_line(out, b"found back ", code as u64),
        Fate::Discarded { cause } => {
            push_number_line(out, b"found discarded ", cause.number() as u64)
        }
    }
}

/// Appends the text of a sent unit, with its check octets.
fn push_sent(out: &mut Vec<u8>, profile: Profile, unit: &UnitRef<'_>) -> Result<(), AllocError>
    ensures { Appends result out.old.items (sent_line (unit_octets profile (unit_in unit.now))) out.new.items }
{
    let octets = unit_octets(profile, unit);
    push_piece(out, b"sent ")?;
    push_sealed(out, octets.front.as_slice(), octets.body)?;
    push_piece(out, b"\n")
}

/// Appends octets that stand in two places, and their check octets.
fn push_sealed(out: &mut Vec<u8>, front: &[u8], rest: &[u8]) -> Result<(), AllocError>
    ensures { Appends result out.old.items (hex_text (sealed_text (front.now ++ rest.now))) out.new.items }
{
    push_hex(out, front)?;
    push_hex(out, rest)?;
    push_hex(out, &check_octets_of(front, rest))
}

/// Appends the text of what a heard unit did.
fn push_report(out: &mut Vec<u8>, report: &Report) -> Result<(), AllocError>
    ensures { Appends result out.old.items (report_text report.now) out.new.items }
{
    push_field(out, b"heard acked=", report.acked as u64)?;
    push_piece(out, took_field(report.took).as_bytes())?;
    push_flags(out, report)
}

/// Appends what a heard unit asked for, and its fault, and ends the line.
fn push_flags(out: &mut Vec<u8>, report: &Report) -> Result<(), AllocError>
    ensures { Appends result out.old.items (flags_text report.now) out.new.items }
{
    // each is one digit, so one piece has them all
    let mut flags = *b" asked=0 resend=0 fault=0\n";
    flags[7] = decimal_digit(bit_of(report.asked));
    flags[16] = decimal_digit(bit_of(report.resend));
    flags[24] = decimal_digit(code_of(report.fault));
    push_piece(out, &flags)
}

/// Appends some words and a number behind them, and ends the line.
fn push_number_line(out: &mut Vec<u8>, words: &[u8], number: u64) -> Result<(), AllocError>
    ensures { Appends result out.old.items (words.now ++ (decimal number ++ codes "\n")) out.new.items }
{
    push_field(out, words, number)?;
    push_piece(out, b"\n")
}

/// Appends some words and octets behind them, two digits each, and ends the line.
fn push_hex_line(out: &mut Vec<u8>, words: &[u8], octets: &[u8]) -> Result<(), AllocError>
    ensures { Appends result out.old.items (words.now ++ (hex_text octets.now ++ codes "\n")) out.new.items }
{
    push_piece(out, words)?;
    push_hex(out, octets)?;
    push_piece(out, b"\n")
}

/// Appends some words and a number behind them.
fn push_field(out: &mut Vec<u8>, words: &[u8], number: u64) -> Result<(), AllocError>
    ensures { Appends result out.old.items (words.now ++ decimal number) out.new.items }
{
    push_piece(out, words)?;
    push_number(out, number)
}

/// Appends some words.
#[inline(always)]
fn push_piece(out: &mut Vec<u8>, words: &[u8]) -> Result<(), AllocError>
    ensures { Appends result out.old.items words.now out.new.items }
{
    out.extend_from_slice(words)
}

/// The words for what became of a body.
fn took_field(took: Took) -> &'static str
    ensures { result.now ≡ codes " took=" ++ took_text took }
{
    match took {
        Took::Nothing => " took=nothing",
        Took::Message => " took=message",
        Took::Order => " took=order",
        Took::Ignored => " took=ignored",
    }
}

/// The number of a fault, 0 for none.
pub fn code_of(fault: Option<ControlFault>) -> u8
    ensures { result ≡ fault_code fault }
{
    match fault {
        Some(fault) => fault.number(),
        None => 0,
    }
}

/// How the users' messages of an end stand.
pub fn write_end(alloc: Global, end: End, counts: Counts) -> Result<Vec<u8>, AllocError>
    requires { total_of counts < 2 ^ 64 }
    ensures { IfOk result (λ text. text.items ≡ end_text end counts) }
{
    let mut text = write_link_counts(alloc, end, counts)?;
    text.extend_from_slice(&write_other_counts(alloc, counts)?)?;
    Ok(text)
}

/// The line's counts that a link has to do with.
fn write_link_counts(alloc: Global, end: End, counts: Counts) -> Result<Vec<u8>, AllocError>
    requires { total_of counts < 2 ^ 64 }
    ensures { IfOk result (λ text. text.items ≡ link_counts end counts) }
{
    let Counts {
        waiting,
        unacked,
        acked,
        held,
        parked,
        back,
        discarded,
    } = counts;
    let name = name_of(end);
    let accepted = waiting + unacked + acked + held + parked + back + discarded;
    let text = format!(in alloc;
        "end {name} accepted={accepted} waiting={waiting} unacked={unacked} acked={acked}"
    )?;
    Ok(text.into_bytes())
}

/// The line's other counts.
fn write_other_counts(alloc: Global, counts: Counts) -> Result<Vec<u8>, AllocError>
    ensures { IfOk result (λ text. text.items ≡ other_counts counts) }
{
    let held = counts.held;
    let parked = counts.parked;
    let back = counts.back;
    let discarded = counts.discarded;
    let text = format!(in alloc;
        " held={held} parked={parked} back={back} discarded={discarded}\n"
    )?;
    Ok(text.into_bytes())
}

/// The name of an end.
fn name_of(end: End) -> &'static str
    ensures { result.now ≡ end_name end }
{
    match end {
        End::A => "a",
        End::B => "b",
    }
}
