//! What doesn't fit into its columns ends with two dots.
ghost use Rattle.std.specs.Prelude.{◌≡◌, ◌++◌, ◌-◌, IfOk, take};
ghost use Rattle.script_ladder.specs.Ladder.{fitted, shortened, whole_words, without_end};

use std::alloc::{AllocError, Global};

/// What tells that there is more.
const MORE: &[u8] = b"..";

/// Words in so many columns, cut behind a whole one where they don't fit.
pub(crate) fn fit(alloc: Global, text: &[u8], columns: usize) -> Result<Vec<u8>, AllocError>
    ensures { IfOk result (λ short. short.items ≡ fitted columns text.now) }
{
    if text.len() <= columns {
        return Vec::from_slice(alloc, text);
    }
    let mut short = write_whole(alloc, front_of(text, columns.saturating_sub(2)))?;
    short.extend_from_slice(MORE)?;
    Ok(short)
}

/// A text in so many columns, cut anywhere where it doesn't fit.
pub(crate) fn shorten(text: Vec<u8>, columns: usize) -> Result<Vec<u8>, AllocError>
    ensures { IfOk result (λ short. short.items ≡ shortened columns text.items) }
{
    let mut short = text;
    if short.len() > columns {
        short.truncate(columns.saturating_sub(2));
        short.extend_from_slice(MORE)?;
    }
    Ok(short)
}

/// Takes away the last octet, if there is one.
pub(crate) fn cut_end(text: &mut Vec<u8>)
    ensures { text.new.items ≡ without_end text.old.items }
{
    text.truncate(text.len().saturating_sub(1));
}

/// The first octets of a text.
pub(crate) fn front_of(text: &[u8], columns: usize) -> &[u8]
    ensures { result.now ≡ take columns text.now }
{
    &text[..columns.min(text.len())]
}

/// The words of a text that have a space behind them.
fn write_whole(alloc: Global, text: &[u8]) -> Result<Vec<u8>, AllocError>
    ensures { IfOk result (λ whole. whole.items ≡ whole_words text.now) }
{
    let mut whole: Vec<u8> = Vec::new(alloc);
    let mut begun: Vec<u8> = Vec::new(alloc);
    for octet in text {
        begun.push(*octet)?;
        if *octet == b' ' {
            whole.extend_from_slice(&begun)?;
            begun.clear();
        }
    }
    Ok(whole)
}
