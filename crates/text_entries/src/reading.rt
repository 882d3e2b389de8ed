//! An entry from its text.
ghost use Rattle.std.specs.Prelude.{◌≡◌, IfOk, IfSome, Some};
ghost use Rattle.set_events.specs.declared.history.Entry.{Entry};
ghost use Rattle.text_entries.specs.Entries.{entry_text, EntryFits, OneEntry, OneHistory};
ghost use Rattle.text_entries.specs.Reading.{entry_in, entry_of};
ghost use Rattle.text_entries.specs.Reading.{if_found};

use super::answers::read_told;
use super::events::{read_actor, read_asked};
use super::words::{cut, told_of};
use super::writing::push_entry;
use l2_units::{Profile, one_text};
use set_events::{Actor, Answer, Entry, Event};
use std::alloc::{AllocError, Global};

/// The entry of a set of this profile whose text this line is, with its LF; `None`: no entry has it. It fails only
/// where memory is wanted.
///
/// Numbers are decimal without leading zeros, octets are hexadecimal in lower case, and the check octets of a sent
/// unit are right: an entry has one text.
pub fn read_entry(alloc: Global, profile: Profile, line: &[u8]) -> Result<Option<Entry>, AllocError>
    ensures found { IfOk result (λ found. IfSome found (λ entry. entry_text profile entry ≡ line.now)) }
    ensures is { IfOk result (λ found. found ≡ entry_of profile line.now) }
    ensures only { IfOk result (λ found.
        (entry : Entry) → EntryFits profile entry → entry_text profile entry ≡ line.now
        → found ≡ Some entry) }
{
    one_text();
    let mut entry = BLANK;
    let mut text = Vec::new(alloc);
    if read_entry_into(alloc, profile, line, &mut text, &mut entry)? {
        Ok(Some(entry))
    } else {
        Ok(None)
    }
}

/// An entry, to be written over.
pub(crate) const BLANK: Entry = Entry {
    who: Actor::User(0),
    event: Event::Take,
    answer: Answer::Done,
};

/// Whether this line, with its LF, is the text of an entry of a set of this profile, which then stands in `entry`; else
/// what stands there isn't told. `text` is room to write in. It fails only where memory is wanted.
pub(crate) fn read_entry_into(
    alloc: Global,
    profile: Profile,
    line: &[u8],
    text: &mut Vec<u8>,
    entry: &mut Entry,
) -> Result<bool, AllocError>
    ensures { IfOk result (λ found. if_found found entry.new ≡ entry_of profile line.now) }
{
    if !read_words(alloc, profile, line, entry)? {
        return Ok(false);
    }
    text.clear();
    push_entry(text, profile, entry)?;
    Ok(text.as_slice() == line)
}

/// Whether the words of a line tell an entry, each taken for what stands at its place.
fn read_words(
    alloc: Global,
    profile: Profile,
    line: &[u8],
    entry: &mut Entry,
) -> Result<bool, AllocError>
    ensures { IfOk result (λ found. if_found found entry.new ≡ entry_in profile line.now) }
{
    let (kind, words) = cut(line);
    let (number, words) = cut(words);
    let Some(who) = read_actor(kind, number) else {
        return Ok(false);
    };
    if !read_asked(alloc, profile, words, &mut entry.event)? {
        return Ok(false);
    }
    entry.who = who;
    read_told(alloc, profile, told_of(line), &mut entry.answer)
}

/// A law over the definitions alone: in either profile, one text for an entry, and no other entry has it.
pub fn one_entry()
    ensures { OneEntry }
{
    one_text();
}

/// The same law of lists: a history that is written has one text, and no other history has it.
pub fn one_history()
    ensures { OneHistory }
{
    one_text();
}
