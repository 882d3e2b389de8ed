//! The line of a unit.
ghost use Rattle.std.specs.Prelude.{◌≡◌, ◌++◌, IfOk, codes, decimal};
ghost use Rattle.std.specs.Str.{bytes_eq};
ghost use Rattle.l2_units.specs.Grammar.{unit_of};
ghost use Rattle.text_units.specs.Decoding.{check_word, indicator_in, narrow_indicator, wide_indicator, head_text, numbers_text, checks_text, status_word, status_text, unit_text, front_of, is_sealed, line_text};

use super::body_line::write_body;
use l2_bits::seal;
use l2_units::{Header, LONGEST_UNIT, Profile, Status, Unit, read, read_wide};
use std::alloc::{AllocError, Global};
use text_base::bit_of;

/// Whether a unit's check octets are there, and right.
#[derive(Clone, Copy, Debug, PartialEq, Eq)]
pub(crate) enum Check {
    Right,
    Wrong,
    Absent,
}

/// The line of these octets: the unit of this profile that they are, with or without its check octets, if it's one.
pub(crate) fn write_line(
    alloc: Global,
    profile: Profile,
    octets: &[u8],
) -> Result<Vec<u8>, AllocError>
    ensures { IfOk result (λ line. line.items ≡ line_text profile octets.now) }
{
    let indicator = indicator_of(profile, octets);
    match (
        unit_in(profile, cut_check_octets(octets)),
        has_right_check_octets(octets),
        unit_in(profile, octets),
    ) {
        (Some(unit), true, _) => write_unit(alloc, profile, Check::Right, indicator, &unit),
        (_, _, Some(unit)) => write_unit(alloc, profile, Check::Absent, indicator, &unit),
        (Some(unit), false, None) => write_unit(alloc, profile, Check::Wrong, indicator, &unit),
        (None, _, None) => Vec::from_slice(alloc, b"no unit\n"),
    }
}

/// The unit of this profile that octets, without check octets, stand for, if any.
fn unit_in(profile: Profile, octets: &[u8]) -> Option<Unit>
    ensures { result ≡ unit_of profile octets.now }
{
    let unit = match profile {
        Profile::Narrow => read(octets),
        Profile::Wide => read_wide(octets),
    };
    unit.ok()
}

/// All octets but the last two.
fn cut_check_octets(octets: &[u8]) -> &[u8]
    ensures { result.now ≡ front_of octets.now }
{
    &octets[..octets.len().saturating_sub(2)]
}

/// Whether the last two octets are the check octets of those before.
fn has_right_check_octets(octets: &[u8]) -> bool
    ensures { result ≡ is_sealed octets.now }
{
    let front = cut_check_octets(octets);
    front.len() <= LONGEST_UNIT && is_same(octets, seal(front).as_slice())
}

/// Whether these are the same octets.
fn is_same(octets: &[u8], others: &[u8]) -> bool
    ensures { result ≡ bytes_eq octets.now others.now }
{
    octets == others
}

/// The length indicator of these octets, 0 where they end before it.
fn indicator_of(profile: Profile, octets: &[u8]) -> u8
    ensures { result ≡ indicator_in profile octets.now }
{
    match profile {
        Profile::Narrow => narrow_indicator_of(octets),
        Profile::Wide => wide_indicator_of(octets),
    }
}

/// The same of the narrow profile.
fn narrow_indicator_of(octets: &[u8]) -> u8
    ensures { result ≡ narrow_indicator octets.now }
{
    match octets {
        [_, _, third, ..] => *third % 64,
        _ => 0,
    }
}

/// The same of the wide profile.
fn wide_indicator_of(octets: &[u8]) -> u8
    ensures { result ≡ wide_indicator octets.now }
{
    match octets {
        [_, _, _, fourth, ..] => *fourth / 4,
        _ => 0,
    }
}

/// The line of a unit.
fn write_unit(
    alloc: Global,
    profile: Profile,
    check: Check,
    indicator: u8,
    unit: &Unit,
) -> Result<Vec<u8>, AllocError>
    ensures { IfOk result (λ line. line.items ≡ unit_text profile check indicator unit.now) }
{
    match unit {
        Unit::Fisu { head } => write_both(
            write_head(alloc, "fisu", *head, indicator, check)?,
            b"\n",
        ),
        Unit::Lssu { head, status } => write_both(
            write_head(alloc, "lssu", *head, indicator, check)?,
            &write_status(alloc, *status)?,
        ),
        Unit::Msu { head, body } => write_both(
            write_head(alloc, "msu", *head, indicator, check)?,
            &write_body(alloc, profile, body.as_slice())?,
        ),
    }
}

/// A text and one behind it.
pub fn write_both(text: Vec<u8>, more: &[u8]) -> Result<Vec<u8>, AllocError>
    ensures { IfOk result (λ both. both.items ≡ text.items ++ more.now) }
{
    let mut both = text;
    both.extend_from_slice(more)?;
    Ok(both)
}

/// The kind of a unit, its header, and what its check octets are.
fn write_head(
    alloc: Global,
    kind: &str,
    head: Header,
    indicator: u8,
    check: Check,
) -> Result<Vec<u8>, AllocError>
    ensures { IfOk result (λ text. text.items ≡ head_text kind.now head indicator check) }
{
    write_both(
        write_numbers(alloc, kind, head)?,
        &write_checks(alloc, indicator, check)?,
    )
}

/// The kind of a unit, and the numbers and bits of its header.
fn write_numbers(alloc: Global, kind: &str, head: Header) -> Result<Vec<u8>, AllocError>
    ensures { IfOk result (λ text. text.items ≡ numbers_text kind.now head) }
{
    let bsn = head.bsn;
    let bib = bit_of(head.bib);
    let fsn = head.fsn;
    let fib = bit_of(head.fib);
    Ok(format!(in alloc; "{kind} bsn={bsn} bib={bib} fsn={fsn} fib={fib}")?.into_bytes())
}

/// The length indicator, and what the check octets are.
fn write_checks(alloc: Global, indicator: u8, check: Check) -> Result<Vec<u8>, AllocError>
    ensures { IfOk result (λ text. text.items ≡ checks_text indicator check) }
{
    let check = word_of(check);
    Ok(format!(in alloc; " li={indicator} check={check}")?.into_bytes())
}

/// The word for the check octets.
fn word_of(check: Check) -> &'static str
    ensures { result.now ≡ check_word check }
{
    match check {
        Check::Right => "right",
        Check::Wrong => "wrong",
        Check::Absent => "none",
    }
}

/// The status of a link status signal unit.
fn write_status(alloc: Global, status: Status) -> Result<Vec<u8>, AllocError>
    ensures { IfOk result (λ text. text.items ≡ status_text status) }
{
    let name = name_of(status);
    Ok(format!(in alloc; " status={name}\n")?.into_bytes())
}

/// The name of a status indication (Q.703 11.1.3); 6 and 7 have none.
fn name_of(status: Status) -> &'static str
    ensures { result.now ≡ status_word status }
{
    match status {
        Status::OutOfAlignment => "SIO",
        Status::Normal => "SIN",
        Status::Emergency => "SIE",
        Status::OutOfService => "SIOS",
        Status::ProcessorOutage => "SIPO",
        Status::Busy => "SIB",
        Status::Unassigned6 => "6",
        Status::Unassigned7 => "7",
    }
}
