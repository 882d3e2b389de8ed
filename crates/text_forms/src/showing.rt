//! A line, shown with a caret under the word at fault.
ghost use Rattle.std.specs.Prelude.{◌≡◌, ◌≤◌, ◌<◌, ◌++◌, ◌∷◌, [], ◌-◌, IfOk, codes, decimal, replicate, string_bytes, take, drop, map, length};
ghost use Rattle.text_forms.specs.Showing.{explanation, front_mark, back_mark, shown, plain, shown_line, caret_line};

use super::words::{Blame, is_printable};
use std::alloc::{AllocError, Global};

/// The most columns that stand before the caret.
const BEFORE: usize = 64;

/// The most columns of a line that are shown.
const SHOWN: usize = 96;

/// The explanation of the line of this number: what is wanted there, the line, and a caret under the word at fault, on
/// three lines of which the last has no LF. It fails only where memory is wanted.
pub fn explain(alloc: Global, number: u64, blame: Blame, text: &[u8]) -> Result<String, AllocError>
    ensures { IfOk result (λ told. string_bytes told ≡ explanation number blame text.now) }
{
    let wanted = blame.mistake.text();
    let shown = line_shown(alloc, blame.column, text)?;
    let caret = caret_under(alloc, blame.column)?;
    format!(in alloc; "line {number}: {wanted}\n{shown}\n{caret}")
}

/// The line around this column, in at most 100 columns.
fn line_shown(alloc: Global, column: usize, text: &[u8]) -> Result<String, AllocError>
    ensures { IfOk result (λ line. string_bytes line ≡ shown_line column text.now) }
{
    let behind = from(column.saturating_sub(BEFORE), text);
    let front = mark_before(column);
    let part = show_octets(alloc, cut(behind))?;
    let back = mark_behind(behind);
    format!(in alloc; "{front}{part}{back}")
}

/// Two columns before a line, where dots say that it begins before.
fn mark_before(column: usize) -> &'static str
    ensures { result.now ≡ front_mark column }
{
    if column <= BEFORE { "  " } else { ".." }
}

/// Dots where more of the line follows.
fn mark_behind(behind: &[u8]) -> &'static str
    ensures { result.now ≡ back_mark behind.now }
{
    if behind.len() <= SHOWN { "" } else { ".." }
}

/// The line from this column on.
fn from(column: usize, text: &[u8]) -> &[u8]
    ensures { result.now ≡ drop column text.now }
{
    let (_, behind) = text.split_at(column.min(text.len()));
    behind
}

/// As much of a line as is shown.
fn cut(text: &[u8]) -> &[u8]
    ensures { result.now ≡ take 96 text.now }
{
    &text[..SHOWN.min(text.len())]
}

/// Octets as they are shown.
fn show_octets(alloc: Global, octets: &[u8]) -> Result<String, AllocError>
    ensures { IfOk result (λ part. string_bytes part ≡ map plain octets.now) }
{
    let mut part = String::new(alloc);
    for octet in octets {
        part.push(show_octet(*octet) as char)?;
    }
    Ok(part)
}

/// The character that an octet is shown as: itself if it's a printable one of ASCII, else a dot.
fn show_octet(octet: u8) -> u8
    ensures shown { result ≡ plain octet }
    ensures ascii { result < 128 }
{
    if is_printable(octet) { octet } else { b'.' }
}

/// A caret under this column of the line that is shown around it.
fn caret_under(alloc: Global, column: usize) -> Result<String, AllocError>
    ensures { IfOk result (λ line. string_bytes line ≡ caret_line column) }
{
    let mut line = spaces(alloc, column.min(BEFORE) + 2)?;
    line.push('^')?;
    Ok(line)
}

/// So many spaces.
fn spaces(alloc: Global, count: usize) -> Result<String, AllocError>
    ensures { IfOk result (λ line. string_bytes line ≡ replicate count 32) }
{
    let mut line = String::new(alloc);
    for _ in 0..count {
        line.push(' ')?;
    }
    Ok(line)
}
