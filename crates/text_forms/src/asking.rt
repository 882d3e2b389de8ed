//! The lines of a terminal after the first and that of timers: what each asks for.
ghost use Rattle.std.specs.Prelude.{◌≡◌, IfOk};
ghost use Rattle.std.specs.Result.{result_err};
ghost use Rattle.text_forms.specs.Timers.{timers_read};
ghost use Rattle.text_forms.specs.Times.{times_read};
ghost use Rattle.text_forms.specs.Words.{IsRead, at_end};
ghost use Rattle.text_forms.specs.Asking.{asked_read, bits, blamed_line, checkpoint, events, find, flags, forget, hear, octets, of_link, offered, wrong_first};

use super::asked::{Asked, OfLink, Repeated, find_of_link};
use super::early::Early;
use super::mistake::Mistake;
use super::named::Named;
use super::terminal_mistake::TerminalMistake;
use super::timers::read_timers;
use super::times::read_times;
use super::units::read_repeated;
use super::words::{Blame, Unread, Words, cut, judge};
use set_events::Event;
use std::alloc::{AllocError, Global};
use text_base::is_word;

/// What a line asks for that isn't the first, nor tells timers, or the word at fault. It fails without one only where memory
/// is wanted. A link's number over 255 is read as 255, since no set has either link.
pub fn read_asked(alloc: Global, text: &[u8]) -> Result<Asked, Unread>
    ensures { IsRead (asked_read text.now) result }
{
    let (name, left) = cut(text);
    let behind = |short| Words::new(text.len(), Mistake::Terminal(short), left);
    if is_word(name, b"take") {
        let event = Event::Take;
        return Ok(read_alone(Asked::Event { event }, behind(TerminalMistake::LinkWants))?);
    }
    if is_word(name, b"checkpoint") {
        return Ok(read_checkpoint(behind(TerminalMistake::LinkWants))?);
    }
    if is_word(name, b"history") {
        return Ok(read_alone(Asked::History, behind(TerminalMistake::LinkWants))?);
    }
    if is_word(name, b"counts") {
        return Ok(read_alone(Asked::Counts, behind(TerminalMistake::LinkWants))?);
    }
    if is_word(name, b"offer") {
        return read_offer(alloc, behind(TerminalMistake::OctetsWants));
    }
    if is_word(name, b"octets") {
        return read_octets_at(alloc, behind(TerminalMistake::OctetsWants));
    }
    if is_word(name, b"hear") {
        return read_hear(alloc, behind(TerminalMistake::HearWants));
    }
    if is_word(name, b"bits") {
        return read_bits(alloc, behind(TerminalMistake::BitsWants));
    }
    if is_word(name, b"find") {
        return Ok(read_find(behind(TerminalMistake::FindWants))?);
    }
    if is_word(name, b"flags") {
        return Ok(read_flags(behind(TerminalMistake::FlagsWants))?);
    }
    if is_word(name, b"forget") {
        return Ok(read_forget(behind(TerminalMistake::ForgetWants))?);
    }
    if is_word(name, b"events") {
        return Ok(read_events(behind(TerminalMistake::EventsWants))?);
    }
    match find_of_link(name) {
        Some(what) => Ok(read_of_link(what, behind(TerminalMistake::LinkWants))?),
        None => Err(Unread::At(Blame {
            column: 0,
            mistake: judge_first(name),
        })),
    }
}

/// The word at fault of a line after the first, if it can't be read: as a line of lengths where it begins so and such a
/// line may come. It fails only where memory is wanted.
pub fn blame_line(alloc: Global, early: Early, text: &[u8]) -> Result<Option<Blame>, AllocError>
    ensures { IfOk result (λ blame. blame ≡ blamed_line early text.now) }
{
    let (name, _) = cut(text);
    if early.tells_timers(name) {
        return Ok(blame_timers(text));
    }
    if early.tells_times(name) {
        return Ok(blame_times(text));
    }
    match read_asked(alloc, text) {
        Ok(_) => Ok(None),
        Err(Unread::At(blame)) => Ok(Some(blame)),
        Err(Unread::Memory) => Err(AllocError),
    }
}

/// The word at fault of a line that doesn't tell timers.
fn blame_timers(text: &[u8]) -> Option<Blame>
    ensures { result ≡ result_err (timers_read text.now) }
{
    read_timers(text).err()
}

/// The same of a line that doesn't tell level 3's times.
fn blame_times(text: &[u8]) -> Option<Blame>
    ensures { result ≡ result_err (times_read text.now) }
{
    read_times(text).err()
}

/// A word by itself.
fn read_alone(asked: Asked, mut words: Words<'_>) -> Result<Asked, Blame>
    ensures { result ≡ at_end asked words.entry }
{
    words.finish()?;
    Ok(asked)
}

/// `checkpoint`, or `checkpoint quiet`
fn read_checkpoint(mut words: Words<'_>) -> Result<Asked, Blame>
    ensures { result ≡ checkpoint words.entry }
{
    let quiet = words.quiet()?;
    words.finish()?;
    Ok(Asked::Checkpoint { quiet })
}

/// `offer HEX`, or `offer` for the empty body
fn read_offer(alloc: Global, mut words: Words<'_>) -> Result<Asked, Unread>
    ensures { IsRead (offered words.entry) result }
{
    let body = words.octets_or_none(alloc)?;
    words.finish()?;
    Ok(Asked::Event {
        event: Event::Offer { body },
    })
}

/// `octets L HEX`
fn read_octets_at(alloc: Global, mut words: Words<'_>) -> Result<Asked, Unread>
    ensures { IsRead (octets words.entry) result }
{
    let link = words.link()?;
    let octets = words.octets(alloc)?;
    words.finish()?;
    Ok(Asked::Octets { link, octets })
}

/// `hear L UNIT [xN]`
fn read_hear(alloc: Global, mut words: Words<'_>) -> Result<Asked, Unread>
    ensures { IsRead (hear words.entry) result }
{
    let link = words.link()?;
    let unit = read_repeated(alloc, words)?;
    Ok(Asked::Hear { link, unit })
}

/// `bits L BITS [xN]`
fn read_bits(alloc: Global, mut words: Words<'_>) -> Result<Asked, Unread>
    ensures { IsRead (bits words.entry) result }
{
    let link = words.link()?;
    let octets = words.bits(alloc)?;
    let times = words.times(Named::Times)?;
    words.finish()?;
    let bits = Repeated { octets, times };
    Ok(Asked::Bits { link, bits })
}

/// `find NUMBER`
fn read_find(mut words: Words<'_>) -> Result<Asked, Blame>
    ensures { result ≡ find words.entry }
{
    let number = words.number()?;
    words.finish()?;
    Ok(Asked::Event {
        event: Event::Find { number },
    })
}

/// `flags L N`
fn read_flags(mut words: Words<'_>) -> Result<Asked, Blame>
    ensures { result ≡ flags words.entry }
{
    let link = words.link()?;
    let times = words.named(Named::Flags)?;
    words.finish()?;
    Ok(Asked::Flags {
        link,
        times: times as u32,
    })
}

/// `forget N`, or `forget N told`
fn read_forget(mut words: Words<'_>) -> Result<Asked, Blame>
    ensures { result ≡ forget words.entry }
{
    let every = words.named(Named::Turns)?;
    let told = words.told()?;
    words.finish()?;
    Ok(Asked::Forget {
        every: every as u32,
        told,
    })
}

/// `events on`, or `events off`
fn read_events(mut words: Words<'_>) -> Result<Asked, Blame>
    ensures { result ≡ events words.entry }
{
    let on = words.switch()?;
    words.finish()?;
    Ok(Asked::Events { on })
}

/// What a word asks of a link.
fn read_of_link(what: OfLink, mut words: Words<'_>) -> Result<Asked, Blame>
    ensures { result ≡ of_link what words.entry }
{
    let link = words.link()?;
    words.finish()?;
    Ok(what.on(link))
}

/// What is wrong with a first word that no line of a terminal has there.
fn judge_first(name: &[u8]) -> Mistake
    ensures { result ≡ wrong_first name.now }
{
    if is_word(name, b"set") {
        judge(name, Mistake::SecondSet)
    } else if is_word(name, b"timers") {
        judge(name, Mistake::Terminal(TerminalMistake::TimersPlace))
    } else if is_word(name, b"level3") {
        judge(name, Mistake::Terminal(TerminalMistake::Level3Place))
    } else {
        judge(name, Mistake::Terminal(TerminalMistake::UnknownWord))
    }
}
