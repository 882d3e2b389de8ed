//! Who asked and what, from words.
ghost use Rattle.std.specs.Prelude.{◌≡◌, IfOk};
ghost use Rattle.std.specs.Option.{option_map, option_and_then};
ghost use Rattle.set_events.specs.declared.event.Event.TheVariants.{Offer, Find};
ghost use Rattle.text_base.specs.Figures.{number_of};
ghost use Rattle.text_entries.specs.Reading.{actor_in, event_in, hear_in, link_event_in, asked_in, body_in, link_in};
ghost use Rattle.text_forms.specs.Moves.{link_event};
ghost use Rattle.text_entries.specs.Reading.{if_found};

use super::words::{cut, read_body};
use l2_units::Profile;
use set_events::{Actor, Event};
use std::alloc::{AllocError, Global};
use text_base::{is_word, read_below_256, read_number};
use text_forms::{read_link_event, read_unit};

/// Who asked.
pub(crate) fn read_actor(kind: &[u8], number: &[u8]) -> Option<Actor>
    ensures { result ≡ actor_in kind.now number.now }
{
    if is_word(kind, b"user") {
        let number = read_number(number)?;
        if number < 65_536 {
            Some(Actor::User(number as u16))
        } else {
            None
        }
    } else if is_word(kind, b"terminal") {
        let link = read_below_256(number)?;
        Some(Actor::Terminal(link))
    } else {
        None
    }
}

/// Whether the words behind the actor tell what was asked, which then stands in `event`; else what stands there isn't told.
/// An event has room for a unit, so that it's better filled in its place than handed on.
pub(crate) fn read_asked(
    alloc: Global,
    profile: Profile,
    words: &[u8],
    event: &mut Event,
) -> Result<bool, AllocError>
    ensures { IfOk result (λ found. if_found found event.new ≡ asked_in profile words.now) }
{
    let (name, words) = cut(words);
    read_event(alloc, profile, name, words, event)
}

/// The event of this name, from the words behind it.
fn read_event(
    alloc: Global,
    profile: Profile,
    name: &[u8],
    words: &[u8],
    event: &mut Event,
) -> Result<bool, AllocError>
    ensures { IfOk result (λ found. if_found found event.new ≡ event_in profile name.now words.now) }
{
    let (word, others) = cut(words);
    if is_word(name, b"offer") {
        read_offer(alloc, word, event)
    } else if is_word(name, b"take") {
        *event = Event::Take;
        Ok(true)
    } else if is_word(name, b"find") {
        Ok(read_find(word, event))
    } else if is_word(name, b"hear") {
        let (unit, _) = cut(others);
        read_hear(alloc, profile, word, unit, event)
    } else {
        Ok(read_on_link(name, word, event))
    }
}

/// `offer HEX`
#[inline(never)]
fn read_offer(alloc: Global, word: &[u8], event: &mut Event) -> Result<bool, AllocError>
    ensures { IfOk result (λ found. if_found found event.new ≡ option_map Offer (body_in word.now)) }
{
    match read_body(alloc, word)? {
        Some(body) => {
            *event = Event::Offer { body };
            Ok(true)
        }
        None => Ok(false),
    }
}

/// `find N`
#[inline(never)]
fn read_find(word: &[u8], event: &mut Event) -> bool
    ensures { if_found result event.new ≡ option_map Find (number_of word.now) }
{
    match read_number(word) {
        Some(number) => {
            *event = Event::Find { number };
            true
        }
        None => false,
    }
}

/// `hear L HEX`
#[inline(never)]
fn read_hear(
    alloc: Global,
    profile: Profile,
    link: &[u8],
    unit: &[u8],
    event: &mut Event,
) -> Result<bool, AllocError>
    ensures { IfOk result (λ found. if_found found event.new ≡ hear_in profile link.now unit.now) }
{
    let Some(link) = read_below_256(link) else {
        return Ok(false);
    };
    match read_unit(alloc, profile, unit)? {
        Some(unit) => {
            *event = Event::Heard { link, unit };
            Ok(true)
        }
        None => Ok(false),
    }
}

/// What a terminal asks or tells of a link.
fn read_on_link(name: &[u8], word: &[u8], event: &mut Event) -> bool
    ensures { if_found result event.new ≡ option_and_then (link_event_in name.now) (link_in word.now) }
{
    match read_below_256(word) {
        Some(link) => read_event_on_link(name, link, event),
        None => false,
    }
}

/// The event of this name on a link.
#[inline(never)]
fn read_event_on_link(name: &[u8], link: u8, event: &mut Event) -> bool
    ensures { if_found result event.new ≡ link_event_in name.now link }
{
    if is_word(name, b"next") {
        *event = Event::Next { link };
        true
    } else if is_word(name, b"up") {
        *event = Event::Up { link };
        true
    } else {
        read_rare_event(name, link, event)
    }
}

/// What a terminal tells of a link now and then.
#[inline(never)]
fn read_rare_event(name: &[u8], link: u8, event: &mut Event) -> bool
    ensures { if_found result event.new ≡ link_event name.now link }
{
    match read_link_event(name, link) {
        Some(told) => {
            *event = told;
            true
        }
        None => false,
    }
}
