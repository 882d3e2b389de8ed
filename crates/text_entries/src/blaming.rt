//! The word at fault of a line of a history.
ghost use Rattle.std.specs.Prelude.{◌≡◌, ◌<◌, ◌^◌, IfOk, string_bytes};
ghost use Rattle.std.specs.Option.{option_map};
ghost use Rattle.text_entries.specs.Blaming.{EachLineIsExplained, actor_blamed, answer_blamed, asked_blamed, blame_in, column_of, entry_blamed, explained_line, left_blamed, names_answer, names_asked, otherwise_at, otherwise_here, text_blamed, words_blamed};

use super::answers::read_told;
use super::events::{read_actor, read_asked};
use super::reading::BLANK;
use super::words::{cut, told_of};
use super::writing::write_entry;
use l2_units::Profile;
use set_events::Entry;
use std::alloc::{AllocError, Global};
use text_base::{is_word, read_below_256};
use text_forms::{Blame, EntryMistake, Mistake, blame_at, blame_opening, explain, read_link_event};

/// The lines that explain why the line of this number of a history can't be read, without its LF: its first line, before
/// a profile is told, or one of an entry of a set of this profile. It fails only where memory is wanted.
pub fn explain_line(
    alloc: Global,
    profile: Option<Profile>,
    number: u64,
    line: &[u8],
) -> Result<Option<String>, AllocError>
    ensures { IfOk result (λ told. option_map string_bytes told ≡ explained_line profile number line.now) }
{
    match blame_line(alloc, profile, line)? {
        Some(blame) => Ok(Some(explain(alloc, number, blame, line)?)),
        None => Ok(None),
    }
}

/// The word at fault of a line.
fn blame_line(
    alloc: Global,
    profile: Option<Profile>,
    line: &[u8],
) -> Result<Option<Blame>, AllocError>
    ensures { IfOk result (λ blame. blame ≡ blame_in profile line.now) }
{
    match profile {
        Some(profile) => blame_entry(alloc, profile, line),
        None => Ok(blame_opening(line)),
    }
}

/// The word at fault of an entry's line.
fn blame_entry(alloc: Global, profile: Profile, line: &[u8]) -> Result<Option<Blame>, AllocError>
    ensures { IfOk result (λ blame. blame ≡ entry_blamed profile line.now) }
{
    let mut whole = Vec::from_slice(alloc, line)?;
    whole.push(b'\n')?;
    blame_words(alloc, profile, line, &whole)
}

/// The same, of the line and of it with its LF.
fn blame_words(
    alloc: Global,
    profile: Profile,
    line: &[u8],
    whole: &[u8],
) -> Result<Option<Blame>, AllocError>
    ensures { IfOk result (λ blame. blame ≡ words_blamed profile line.now whole.now) }
{
    let (kind, words) = cut(whole);
    let (number, asked) = cut(words);
    let Some(who) = read_actor(kind, number) else {
        return Ok(Some(blame_actor(line, whole, kind, words)));
    };
    let mut entry = BLANK;
    entry.who = who;
    if !read_asked(alloc, profile, asked, &mut entry.event)? {
        return Ok(Some(blame_asked(line, whole, asked)));
    }
    if !read_told(alloc, profile, told_of(whole), &mut entry.answer)? {
        return Ok(Some(blame_answer(line, whole, told_of(whole))));
    }
    blame_text(alloc, profile, line, whole, &entry)
}

/// The column at which the words that are left of a line begin.
fn column_of(whole: &[u8], left: &[u8]) -> usize
    ensures { result ≡ column_of whole.now left.now }
{
    whole.len().saturating_sub(left.len())
}

/// This mistake, where the words that are left begin.
fn blame_left(line: &[u8], whole: &[u8], left: &[u8], mistake: EntryMistake) -> Blame
    ensures { result ≡ left_blamed line.now whole.now left.now mistake }
{
    blame_at(line, column_of(whole, left), Mistake::Entry(mistake))
}

/// Who asked can't be read.
fn blame_actor(line: &[u8], whole: &[u8], kind: &[u8], words: &[u8]) -> Blame
    ensures { result ≡ actor_blamed line.now whole.now kind.now words.now }
{
    if is_word(kind, b"user") || is_word(kind, b"terminal") {
        blame_left(line, whole, words, EntryMistake::ActorNumber)
    } else {
        blame_left(line, whole, whole, EntryMistake::Actor)
    }
}

/// What was asked can't be read, from its name on.
fn blame_asked(line: &[u8], whole: &[u8], asked: &[u8]) -> Blame
    ensures { result ≡ asked_blamed line.now whole.now asked.now }
{
    let (name, values) = cut(asked);
    if !names_asked(name) {
        return blame_left(line, whole, asked, EntryMistake::Asked);
    }
    let (link, unit) = cut(values);
    if is_word(name, b"hear") && read_below_256(link).is_some() {
        return blame_left(line, whole, unit, EntryMistake::AskedValue);
    }
    blame_left(line, whole, values, EntryMistake::AskedValue)
}

/// Whether a word names something that is asked.
fn names_asked(name: &[u8]) -> bool
    ensures { result ≡ names_asked name.now }
{
    is_word(name, b"offer")
        || is_word(name, b"take")
        || is_word(name, b"find")
        || is_word(name, b"hear")
        || is_word(name, b"next")
        || is_word(name, b"up")
        || read_link_event(name, 0).is_some()
}

/// What was answered can't be read, from its name on.
fn blame_answer(line: &[u8], whole: &[u8], answer: &[u8]) -> Blame
    ensures { result ≡ answer_blamed line.now whole.now answer.now }
{
    let (name, values) = cut(answer);
    if names_answer(name) {
        blame_left(line, whole, values, EntryMistake::AnsweredValue)
    } else {
        blame_left(line, whole, answer, EntryMistake::Answered)
    }
}

/// Whether a word names an answer.
fn names_answer(name: &[u8]) -> bool
    ensures { result ≡ names_answer name.now }
{
    is_word(name, b"accepted")
        || is_word(name, b"taken")
        || is_word(name, b"found")
        || is_word(name, b"sent")
        || is_word(name, b"heard")
        || is_word(name, b"done")
        || is_word(name, b"refused")
}

/// The word at fault of a line whose words tell this entry: where its text is another.
fn blame_text(
    alloc: Global,
    profile: Profile,
    line: &[u8],
    whole: &[u8],
    entry: &Entry,
) -> Result<Option<Blame>, AllocError>
    ensures { IfOk result (λ blame. blame ≡ text_blamed profile line.now whole.now entry.now) }
{
    let text = write_entry(alloc, profile, entry)?;
    if text.as_slice() == whole {
        return Ok(None);
    }
    let column = otherwise_at(whole, &text);
    Ok(Some(blame_at(line, column, Mistake::Entry(EntryMistake::Otherwise))))
}

/// The column of the first word of a line that isn't as in this text.
fn otherwise_at(whole: &[u8], text: &[u8]) -> usize
    ensures { result ≡ otherwise_at whole.now text.now }
{
    let mut start: usize = 0;
    let mut place: usize = 0;
    let mut left = whole;
    let mut as_written = text;
    while let [octet, others @ ..] = left {
        let [other, behind @ ..] = as_written else {
            return start;
        };
        if *octet != *other {
            return otherwise_here(start, place, *octet);
        }
        place += 1;
        if *octet == b' ' {
            start = place;
        }
        left = others;
        as_written = behind;
    }
    start
}

/// The column at fault where this octet stands otherwise, in the word that begins at `start`.
fn otherwise_here(start: usize, place: usize, octet: u8) -> usize
    requires { place < 2 ^ 63 }
    ensures { result ≡ otherwise_here start place octet }
{
    match octet {
        b' ' => place + 1,
        b'\n' => place,
        _ => start,
    }
}

/// Of each line that can't be read, the first as the others, there is an explanation.
pub fn each_line_is_explained()
    ensures { EachLineIsExplained }
{}
