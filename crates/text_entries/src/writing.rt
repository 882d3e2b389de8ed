//! An entry to its text.
ghost use Rattle.std.specs.Prelude.{◌≡◌, ◌++◌, IfOk, OnOk, codes};
ghost use Rattle.l2_units.specs.Lent.{unit_in};
ghost use Rattle.set_events.specs.Lent.{answer_in, event_in};
ghost use Rattle.text_base.specs.Figures.{hex_text};
ghost use Rattle.text_entries.specs.Texts.{answer_text, unit_octets};
ghost use Rattle.text_entries.specs.Entries.{numbered, actor_text, body_text, event_text, entry_text, entries_text};

use super::texts::push_answer;
use super::units::unit_octets;
use l2_units::{Profile, UnitRef};
use set_events::{Actor, Answer, AnswerRef, Entry, EventRef};
use set_history::Reader;
use std::alloc::{AllocError, Global};
use text_base::{push_hex, push_number};

/// The text of an entry of a set of this profile, ended by LF; it fails only where memory is wanted.
pub fn write_entry(alloc: Global, profile: Profile, entry: &Entry) -> Result<Vec<u8>, AllocError>
    ensures { IfOk result (λ line. line.items ≡ entry_text profile entry.now) }
{
    let mut line = Vec::new(alloc);
    push_entry(&mut line, profile, entry)?;
    Ok(line)
}

/// The texts of these entries of a set of this profile, one after another; it fails only where memory is wanted.
pub fn write_entries(
    alloc: Global,
    profile: Profile,
    entries: Reader<'_>,
) -> Result<Vec<u8>, AllocError>
    ensures { IfOk result (λ lines. lines.items ≡ entries_text profile entries.entry) }
{
    let mut lines = Vec::new(alloc);
    let mut left = entries;
    while let Some(told) = left.next() {
        push_parts(
            &mut lines,
            profile,
            told.who(),
            &told.asked(),
            &told.answered(),
        )?;
    }
    Ok(lines)
}

/// Appends the text of an entry of a set of this profile, ended by LF; it fails only where memory is wanted.
pub(crate) fn push_entry(
    text: &mut Vec<u8>,
    profile: Profile,
    entry: &Entry,
) -> Result<(), AllocError>
    ensures { OnOk result (text.new.items ≡ text.old.items ++ entry_text profile entry.now) }
{
    push_parts(
        text,
        profile,
        entry.who,
        &EventRef::of(&entry.event),
        &AnswerRef::of(&entry.answer),
    )
}

/// Appends who asked, what was asked, and the answer, of a set of this profile.
fn push_parts(
    text: &mut Vec<u8>,
    profile: Profile,
    who: Actor,
    event: &EventRef<'_>,
    answer: &AnswerRef<'_>,
) -> Result<(), AllocError>
    ensures { OnOk result (text.new.items ≡ text.old.items
        ++ (actor_text who ++ (event_text profile (event_in event.now)
        ++ (codes "-> " ++ answer_text profile (answer_in answer.now))))) }
{
    push_actor(text, who)?;
    push_event(text, profile, event)?;
    text.extend_from_slice(b"-> ")?;
    push_answer(text, profile, answer)
}

/// Appends words, and a number behind them.
fn push_numbered(text: &mut Vec<u8>, words: &[u8], number: u64) -> Result<(), AllocError>
    ensures { OnOk result (text.new.items ≡ text.old.items ++ numbered words.now number) }
{
    text.extend_from_slice(words)?;
    push_number(text, number)?;
    text.push(b' ')?;
    Ok(())
}

/// Appends who asked.
fn push_actor(text: &mut Vec<u8>, who: Actor) -> Result<(), AllocError>
    ensures { OnOk result (text.new.items ≡ text.old.items ++ actor_text who) }
{
    match who {
        Actor::User(number) => push_numbered(text, b"user ", number as u64),
        Actor::Terminal(link) => push_numbered(text, b"terminal ", link as u64),
    }
}

/// Appends what was asked.
fn push_event(text: &mut Vec<u8>, profile: Profile, event: &EventRef<'_>) -> Result<(), AllocError>
    ensures { OnOk result (text.new.items ≡ text.old.items ++ event_text profile (event_in event.now)) }
{
    match event {
        EventRef::Offer { body } => push_offer(text, body),
        EventRef::Take => text.extend_from_slice(b"take "),
        EventRef::Find { number } => push_numbered(text, b"find ", *number),
        EventRef::Next { link } => push_numbered(text, b"next ", *link as u64),
        EventRef::Heard { link, unit } => push_heard(text, profile, *link, unit),
        EventRef::Up { link } => push_numbered(text, b"up ", *link as u64),
        EventRef::Down { link } => push_numbered(text, b"down ", *link as u64),
        EventRef::DownBlind { link } => push_numbered(text, b"blind ", *link as u64),
        EventRef::NoAnswer { link } => push_numbered(text, b"noanswer ", *link as u64),
        EventRef::Timed { link } => push_numbered(text, b"timed ", *link as u64),
        EventRef::Restore { link } => push_numbered(text, b"restore ", *link as u64),
        EventRef::Redeclare { link } => push_numbered(text, b"redeclare ", *link as u64),
        EventRef::BackTimeout { link } => push_numbered(text, b"backtimeout ", *link as u64),
        EventRef::Test { link } => push_numbered(text, b"test ", *link as u64),
    }
}

/// Appends a message that was offered.
fn push_offer(text: &mut Vec<u8>, body: &[u8]) -> Result<(), AllocError>
    ensures { OnOk result (text.new.items ≡ text.old.items ++ (codes "offer " ++ body_text body.now)) }
{
    text.extend_from_slice(b"offer ")?;
    if body.is_empty() {
        return Ok(());
    }
    push_hex(text, body)?;
    text.push(b' ')?;
    Ok(())
}

/// Appends a unit that was heard, without its check octets.
fn push_heard(
    text: &mut Vec<u8>,
    profile: Profile,
    link: u8,
    unit: &UnitRef<'_>,
) -> Result<(), AllocError>
    ensures { OnOk result (text.new.items ≡ text.old.items
        ++ (numbered (codes "hear ") link ++ (hex_text (unit_octets profile (unit_in unit.now)) ++ codes " "))) }
{
    push_numbered(text, b"hear ", link as u64)?;
    push_unit(text, profile, unit)?;
    text.push(b' ')?;
    Ok(())
}

/// Appends the octets of a unit, without its check octets.
fn push_unit(text: &mut Vec<u8>, profile: Profile, unit: &UnitRef<'_>) -> Result<(), AllocError>
    ensures { OnOk result (text.new.items
        ≡ text.old.items ++ hex_text (unit_octets profile (unit_in unit.now))) }
{
    let octets = unit_octets(profile, unit);
    push_hex(text, octets.front.as_slice())?;
    push_hex(text, octets.body)
}

/// What a set of this profile answered, as `play` prints it, ended by LF; it fails only where memory is wanted.
pub fn write_answer(alloc: Global, profile: Profile, answer: &Answer) -> Result<Vec<u8>, AllocError>
    ensures { IfOk result (λ text. text.items ≡ answer_text profile answer.now) }
{
    let mut text = Vec::new(alloc);
    push_answer(&mut text, profile, &AnswerRef::of(answer))?;
    Ok(text)
}
