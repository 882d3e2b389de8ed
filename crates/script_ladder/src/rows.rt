//! The rows of the chart.
ghost use Rattle.std.specs.Prelude.{◌≡◌, ◌++◌, IfOk, decimal, replicate};
ghost use Rattle.script_ladder.specs.Ladder.{at_right, dashed, further, last_cell, padded, row_at, row_text, side_a, side_b, trailed};
ghost use Rattle.script_ladder.specs.Ladder.{arriving, forged, going, losing};

use super::fitting::fit;
use pair_steps::End;
use std::alloc::{AllocError, Global};
use text_units::write_both;

/// The columns of an end's words.
pub(crate) const CELL: usize = 30;

/// The columns of an arrow, and at end a's side of the space behind it.
const ARROW: usize = 6;

/// The columns of what is under way.
pub(crate) const UNDER_WAY: usize = 17;

/// So many of this octet.
fn filled(alloc: Global, octet: u8, columns: usize) -> Result<Vec<u8>, AllocError>
    ensures { IfOk result (λ text. text.items ≡ replicate columns octet) }
{
    let mut text: Vec<u8> = Vec::new(alloc);
    text.resize(columns, octet)?;
    Ok(text)
}

/// A text in so many columns: cut, or filled up with spaces.
fn pad(alloc: Global, text: &[u8], columns: usize) -> Result<Vec<u8>, AllocError>
    ensures { IfOk result (λ cell. cell.items ≡ padded columns text.now) }
{
    let mut cell = Vec::from_slice(alloc, text)?;
    cell.resize(columns, b' ')?;
    Ok(cell)
}

/// The number of a line, at the right of five columns.
fn number_cell(alloc: Global, number: &[u8]) -> Result<Vec<u8>, AllocError>
    ensures { IfOk result (λ cell. cell.items ≡ at_right 5 number.now) }
{
    let mut cell = filled(alloc, b' ', 5usize.saturating_sub(number.len()))?;
    cell.extend_from_slice(number)?;
    Ok(cell)
}

/// A row: the number of the script's line, end a's words, an arrow at its side, what is under way, and so too for end b.
pub(crate) fn write_row(
    alloc: Global,
    number: &[u8],
    a: &[u8],
    at_a: &[u8],
    under_way: &[u8],
    at_b: &[u8],
    b: &[u8],
) -> Result<Vec<u8>, AllocError>
    ensures { IfOk result (λ row. row.items
        ≡ row_text number.now a.now at_a.now under_way.now at_b.now b.now) }
{
    let middle = write_both(
        pad(alloc, under_way, UNDER_WAY)?,
        &write_side_b(alloc, at_b, b)?,
    )?;
    let sides = write_both(write_side_a(alloc, a, at_a)?, &middle)?;
    write_both(
        number_cell(alloc, number)?,
        &write_both(Vec::from_slice(alloc, b" ")?, &sides)?,
    )
}

/// End a's words, and the arrow at its side.
fn write_side_a(alloc: Global, words: &[u8], arrow: &[u8]) -> Result<Vec<u8>, AllocError>
    ensures { IfOk result (λ side. side.items ≡ side_a words.now arrow.now) }
{
    let bar = write_both(
        Vec::from_slice(alloc, b" |")?,
        &pad(alloc, arrow, ARROW + 1)?,
    )?;
    write_both(pad(alloc, &fit(alloc, words, CELL)?, CELL)?, &bar)
}

/// The words that end a row.
fn write_last(alloc: Global, words: &[u8]) -> Result<Vec<u8>, AllocError>
    ensures { IfOk result (λ cell. cell.items ≡ last_cell words.now) }
{
    if words.is_empty() {
        return Vec::from_slice(alloc, b"|\n");
    }
    let words = write_both(fit(alloc, words, CELL)?, b"\n")?;
    write_both(Vec::from_slice(alloc, b"| ")?, &words)
}

/// The arrow at end b's side, and its words.
fn write_side_b(alloc: Global, arrow: &[u8], words: &[u8]) -> Result<Vec<u8>, AllocError>
    ensures { IfOk result (λ side. side.items ≡ side_b arrow.now words.now) }
{
    write_both(pad(alloc, arrow, ARROW)?, &write_last(alloc, words)?)
}

/// A row with the words of one end, and an arrow at its side.
pub(crate) fn write_row_at(
    alloc: Global,
    end: End,
    number: &[u8],
    under_way: &[u8],
    arrow: &[u8],
    words: &[u8],
) -> Result<Vec<u8>, AllocError>
    ensures { IfOk result (λ row. row.items
        ≡ row_at end number.now under_way.now arrow.now words.now) }
{
    match end {
        End::A => write_row(alloc, number, words, arrow, under_way, &[], &[]),
        End::B => write_row(alloc, number, &[], &[], under_way, arrow, words),
    }
}

/// A further row of a line, where there are words for it.
pub(crate) fn write_further(
    alloc: Global,
    end: End,
    under_way: &[u8],
    words: &[u8],
) -> Result<Vec<u8>, AllocError>
    ensures { IfOk result (λ row. row.items ≡ further end under_way.now words.now) }
{
    if words.is_empty() {
        return Ok(Vec::new(alloc));
    }
    write_row_at(alloc, end, &[], under_way, &[], words)
}

/// A link's number behind dashes.
fn dashes(alloc: Global, link: u8) -> Result<Vec<u8>, AllocError>
    ensures { IfOk result (λ text. text.items ≡ dashed (decimal link)) }
{
    let number = format!(in alloc; "{link}")?.into_bytes();
    let mut text = filled(alloc, b'-', 3usize.saturating_sub(number.len()))?;
    text.extend_from_slice(&number)?;
    Ok(text)
}

/// A link's number before dashes.
fn dashes_behind(alloc: Global, link: u8) -> Result<Vec<u8>, AllocError>
    ensures { IfOk result (λ text. text.items ≡ trailed (decimal link)) }
{
    let number = format!(in alloc; "{link}")?.into_bytes();
    let columns = 3usize.saturating_sub(number.len());
    write_both(number, &filled(alloc, b'-', columns)?)
}

/// An arrow whose tip comes first.
fn tip_first(alloc: Global, tip: &[u8], link: u8) -> Result<Vec<u8>, AllocError>
    ensures { IfOk result (λ text. text.items ≡ tip.now ++ trailed (decimal link)) }
{
    write_both(Vec::from_slice(alloc, tip)?, &dashes_behind(alloc, link)?)
}

/// An arrow whose tip comes last.
fn tip_last(alloc: Global, link: u8, tip: &[u8]) -> Result<Vec<u8>, AllocError>
    ensures { IfOk result (λ text. text.items ≡ dashed (decimal link) ++ tip.now) }
{
    let mut text = dashes(alloc, link)?;
    text.extend_from_slice(tip)?;
    Ok(text)
}

/// A unit goes out from the end.
pub(crate) fn draw_going(alloc: Global, end: End, link: u8) -> Result<Vec<u8>, AllocError>
    ensures { IfOk result (λ arrow. arrow.items ≡ going end link) }
{
    match end {
        End::A => tip_last(alloc, link, b"-->"),
        End::B => tip_first(alloc, b"<--", link),
    }
}

/// A unit arrives at the end.
pub(crate) fn draw_arriving(alloc: Global, end: End, link: u8) -> Result<Vec<u8>, AllocError>
    ensures { IfOk result (λ arrow. arrow.items ≡ arriving end link) }
{
    match end {
        End::A => tip_first(alloc, b"<--", link),
        End::B => tip_last(alloc, link, b"-->"),
    }
}

/// A unit is lost on its way to the end.
pub(crate) fn draw_losing(alloc: Global, end: End, link: u8) -> Result<Vec<u8>, AllocError>
    ensures { IfOk result (λ arrow. arrow.items ≡ losing end link) }
{
    match end {
        End::A => tip_first(alloc, b"x--", link),
        End::B => tip_last(alloc, link, b"--x"),
    }
}

/// A unit that nobody sent arrives at the end.
pub(crate) fn draw_forged(alloc: Global, end: End, link: u8) -> Result<Vec<u8>, AllocError>
    ensures { IfOk result (λ arrow. arrow.items ≡ forged end link) }
{
    match end {
        End::A => tip_first(alloc, b"<..", link),
        End::B => tip_last(alloc, link, b"..>"),
    }
}
