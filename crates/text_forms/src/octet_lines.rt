//! A line of octets alone: the word at fault.
ghost use Rattle.std.specs.Prelude.{◌≡◌, IfOk};
ghost use Rattle.text_forms.specs.Words.{IsRead};
ghost use Rattle.text_forms.specs.OctetLines.{NoOctetsAreBlamed, blamed_octets, octets_read};

use super::mistake::Mistake;
use super::words::{Blame, Unread, Words};
use set_events::Body;
use std::alloc::{AllocError, Global};

/// The word at fault of a line that is to be octets of two hexadecimal digits each, in one word, if it can't be read. It
/// fails only where memory is wanted.
pub fn blame_octets(alloc: Global, text: &[u8]) -> Result<Option<Blame>, AllocError>
    ensures { IfOk result (λ blame. blame ≡ blamed_octets text.now) }
{
    match read_line(alloc, text) {
        Ok(_) => Ok(None),
        Err(Unread::At(blame)) => Ok(Some(blame)),
        Err(Unread::Memory) => Err(AllocError),
    }
}

/// `HEX`
fn read_line(alloc: Global, text: &[u8]) -> Result<Body, Unread>
    ensures { IsRead (octets_read text.now) result }
{
    let mut words = Words::new(text.len(), Mistake::NotHexadecimal, Some(text));
    let octets = words.octets(alloc)?;
    words.finish()?;
    Ok(octets)
}

/// A line that isn't octets of two hexadecimal digits each has a word at fault: so [`blame_octets`] tells one of each line that
/// `text_base::read_octets` refuses.
pub fn no_octets_are_blamed()
    ensures { NoOctetsAreBlamed }
{}
