//! The lines that `units` prints.
ghost use Rattle.std.specs.Prelude.{◌≡◌, ◌++◌, [], length, if◌then◌else◌, IfOk, OnOk, codes, decimal};
ghost use Rattle.std.specs.Result.{is_ok};
ghost use Rattle.l2_bits.specs.Deframing.{marked};
ghost use Rattle.l2_units.specs.Grammar.{unit_of, unit_with};
ghost use Rattle.l2_units.specs.declared.unit.Unit.TheVariants.{Lssu, Msu};
ghost use Rattle.text_base.specs.Figures.{bit};
ghost use Rattle.l2_units.specs.declared.profile.Profile.TheVariants.{Narrow};
ghost use Rattle.text_units.specs.UnitsText.{InputHasOneText, good_text, line_head, mark_text, unit_text, unit_words, counts_text};

use super::fill_in_line::add_fill_in;
use l2_bits::MarkKind;
use l2_units::{Header, Status, Unit, parts_of};
use std::alloc::{AllocError, Global};
use text_base::{push_hex, push_number};

/// How many marks of each kind a line has given.
#[derive(Clone, Copy, Debug, PartialEq, Eq)]
pub(crate) struct MarkCounts {
    pub(crate) good: u64,
    pub(crate) bad: u64,
    pub(crate) sixteen: u64,
}

/// Adds the line of a mark of this kind, or nothing where memory is wanted; a good unit has these octets. Where a line is
/// made of pieces it's made in `text` first, whose memory is kept for the next.
pub(crate) fn add_mark(
    kind: MarkKind,
    octets: &[u8],
    text: &mut Vec<u8>,
    out: &mut Vec<u8>,
) -> Result<(), AllocError>
    ensures { out.new.items ≡ out.old.items ++ (if is_ok result then mark_text (marked kind octets.now) else []) }
{
    match kind {
        MarkKind::Good => add_good(octets, text, out),
        MarkKind::Bad => out.extend_from_slice(b"bad\n"),
        MarkKind::Sixteen => out.extend_from_slice(b"sixteen\n"),
    }
}

/// Adds the line of octets that check, or nothing: their unit, or what is wrong with them.
fn add_good(octets: &[u8], text: &mut Vec<u8>, out: &mut Vec<u8>) -> Result<(), AllocError>
    ensures { out.new.items ≡ out.old.items
        ++ (if is_ok result then good_text (unit_of Narrow octets.now) octets.now else []) }
{
    match parts_of(octets) {
        Ok((head, [])) => add_fill_in(head, out),
        _ => add_pieces(octets, text, out),
    }
}

/// [`add_good`] of octets whose line is made of pieces.
fn add_pieces(octets: &[u8], text: &mut Vec<u8>, out: &mut Vec<u8>) -> Result<(), AllocError>
    ensures { out.new.items ≡ out.old.items
        ++ (if is_ok result then good_text (unit_of Narrow octets.now) octets.now else []) }
{
    text.clear();
    push_good(octets, text)?;
    out.extend_from_slice(text)
}

/// Adds the line of octets that check: their unit, or what is wrong with them.
fn push_good(octets: &[u8], text: &mut Vec<u8>) -> Result<(), AllocError>
    ensures { OnOk result (text.new.items
        ≡ text.old.items ++ good_text (unit_of Narrow octets.now) octets.now) }
{
    match parts_of(octets) {
        Ok((head, field)) => push_unit(head, field, text),
        Err(fault) => push_fault(fault.number(), text),
    }
}

/// Adds the line of octets that check and are no unit, by the number of what is wrong with them.
fn push_fault(number: u8, text: &mut Vec<u8>) -> Result<(), AllocError>
    ensures { OnOk result (text.new.items
        ≡ text.old.items ++ (codes "good fault=" ++ (decimal number ++ codes "\n"))) }
{
    text.extend_from_slice(b"good fault=")?;
    push_number(text, u64::from(number))?;
    text.extend_from_slice(b"\n")
}

/// Adds the line of the unit that has this header and this field behind its length indicator.
fn push_unit(head: Header, field: &[u8], text: &mut Vec<u8>) -> Result<(), AllocError>
    ensures { OnOk result (text.new.items ≡ text.old.items ++ unit_text (unit_with head field.now)) }
{
    text.extend_from_slice(b"good ")?;
    push_parts(head, field, text)?;
    text.extend_from_slice(b"\n")
}

/// Adds the words of the unit that has this header and this field behind its length indicator.
fn push_parts(head: Header, field: &[u8], text: &mut Vec<u8>) -> Result<(), AllocError>
    ensures { OnOk result (text.new.items ≡ text.old.items ++ unit_words (unit_with head field.now)) }
{
    match field {
        [] => push_head(b"fisu", head, text),
        [first] | [first, _] => push_lssu(head, Status::of(*first), text),
        _ => push_msu(head, field, text),
    }
}

/// Adds the words of a unit, as they stand on its line behind `good`. It fails only where memory is wanted.
pub fn push_unit_words(unit: &Unit, text: &mut Vec<u8>) -> Result<(), AllocError>
    ensures { OnOk result (text.new.items ≡ text.old.items ++ unit_words unit.now) }
{
    match unit {
        Unit::Fisu { head } => push_head(b"fisu", *head, text),
        Unit::Lssu { head, status } => push_lssu(*head, *status, text),
        Unit::Msu { head, body } => push_msu(*head, body.as_slice(), text),
    }
}

/// Adds the words of a link status unit.
fn push_lssu(head: Header, status: Status, text: &mut Vec<u8>) -> Result<(), AllocError>
    ensures { OnOk result (text.new.items ≡ text.old.items ++ unit_words (Lssu head status)) }
{
    push_head(b"lssu", head, text)?;
    text.extend_from_slice(b" status=")?;
    push_number(text, u64::from(status.number()))
}

/// Adds the words of a message with this body.
fn push_msu(head: Header, body: &[u8], text: &mut Vec<u8>) -> Result<(), AllocError>
    ensures { OnOk result (text.new.items ≡ text.old.items ++ unit_words (Msu head (record { items = body.now }))) }
{
    push_head(b"msu", head, text)?;
    text.extend_from_slice(b" body=")?;
    push_hex(text, body)
}

/// Adds the kind of a unit and its header, without an end of the line.
fn push_head(kind: &[u8], head: Header, text: &mut Vec<u8>) -> Result<(), AllocError>
    ensures { OnOk result (text.new.items ≡ text.old.items ++ line_head kind.now head) }
{
    text.extend_from_slice(kind)?;
    text.extend_from_slice(b" bsn=")?;
    push_number(text, u64::from(head.bsn))?;
    text.extend_from_slice(bib_words(head.bib))?;
    push_number(text, u64::from(head.fsn))?;
    text.extend_from_slice(fib_words(head.fib))
}

/// The words of a BIB, and the one before an FSN.
#[inline(always)]
pub(crate) fn bib_words(bib: bool) -> &'static [u8]
    ensures size { length result.now ≡ 11 }
    ensures value { result.now ≡ codes " bib=" ++ (decimal (bit bib) ++ codes " fsn=") }
{
    if bib { b" bib=1 fsn=" } else { b" bib=0 fsn=" }
}

/// The words of a FIB.
#[inline(always)]
fn fib_words(fib: bool) -> &'static [u8]
    ensures { result.now ≡ codes " fib=" ++ decimal (bit fib) }
{
    if fib { b" fib=1" } else { b" fib=0" }
}

/// The last line.
pub(crate) fn counts_line(alloc: Global, counts: MarkCounts) -> Result<Vec<u8>, AllocError>
    ensures { IfOk result (λ text. text.items ≡ counts_text counts) }
{
    let MarkCounts { good, bad, sixteen } = counts;
    Ok(format!(in alloc; "end good={good} bad={bad} sixteen={sixteen}\n")?.into_bytes())
}

/// An input has one text at most.
pub fn one_units_text()
    ensures { InputHasOneText }
{}
