//! What an end's words are for what a step asked and showed.
ghost use Rattle.std.specs.Prelude.{◌≡◌, ◌++◌, IfOk, codes};
ghost use Rattle.text_base.specs.Figures.{hex_text};
ghost use Rattle.script_ladder.specs.Ladder.{accepted_in, answer_words, done_words, event_words, is_done, link_words, offered_words};
ghost use Rattle.script_ladder.specs.Ladder.{plain, report_in, spaced, taken_words, without_end};
ghost use Rattle.script_ladder.specs.Names.{isup_name};
ghost use Rattle.text_entries.specs.Reasons.{named};
ghost use Rattle.text_entries.specs.Texts.{shown_text};

use super::fitting::{cut_end, shorten};
use super::isup::isup_name;
use super::rows::CELL;
use super::units::{message_name, write_number};
use l2_units::Profile;
use pair_steps::{Showing, ShownRef};
use set_events::{AnswerRef, Event, Report};
use std::alloc::{AllocError, Global};
use text_base::push_hex;
use text_entries::{write_named, write_shown};
use text_units::write_both;

/// The answer as `play --explain` prints it, without its line end; what users take has its name first.
pub(crate) fn write_plain(
    alloc: Global,
    profile: Profile,
    shown: &Showing,
) -> Result<Vec<u8>, AllocError>
    ensures { IfOk result (λ words. words.items ≡ plain profile shown.now) }
{
    match shown.get() {
        ShownRef::Answered(AnswerRef::Taken { body }) => write_taken(alloc, body),
        _ => write_printed(alloc, profile, shown),
    }
}

/// The answer as `play --explain` prints it, without its line end.
fn write_printed(alloc: Global, profile: Profile, shown: &Showing) -> Result<Vec<u8>, AllocError>
    ensures { IfOk result (λ words. words.items ≡ without_end (named (shown_text profile shown.now))) }
{
    let mut words = write_named(alloc, &write_shown(alloc, profile, shown)?)?;
    cut_end(&mut words);
    Ok(words)
}

/// A message that users take: its name, if it has one, and its octets.
fn write_taken(alloc: Global, body: &[u8]) -> Result<Vec<u8>, AllocError>
    ensures { IfOk result (λ words. words.items ≡ taken_words body.now) }
{
    let mut octets = write_spaced(alloc, isup_name(body))?;
    push_hex(&mut octets, body)?;
    shorten(
        write_both(Vec::from_slice(alloc, b"taken ")?, &octets)?,
        CELL,
    )
}

/// A word with a space behind it, or nothing.
fn write_spaced(alloc: Global, word: &str) -> Result<Vec<u8>, AllocError>
    ensures { IfOk result (λ words. words.items ≡ spaced word.now) }
{
    if word.is_empty() {
        return Ok(Vec::new(alloc));
    }
    write_both(Vec::from_slice(alloc, word.as_bytes())?, b" ")
}

/// Whether it was answered that it's done.
fn was_done(shown: &Showing) -> bool
    ensures { result ≡ is_done shown.now }
{
    matches!(shown.get(), ShownRef::Answered(AnswerRef::Done))
}

/// What a heard unit did, if one was heard.
pub(crate) fn find_report(shown: &Showing) -> Option<Report>
    ensures { result ≡ report_in shown.now }
{
    match shown.get() {
        ShownRef::Answered(AnswerRef::Heard { report }) => Some(report),
        _ => None,
    }
}

/// What was asked of an end, where it's done, and else the answer.
pub(crate) fn write_event(
    alloc: Global,
    profile: Profile,
    event: &Event,
    shown: &Showing,
) -> Result<Vec<u8>, AllocError>
    ensures { IfOk result (λ words. words.items ≡ event_words profile event.now shown.now) }
{
    if was_done(shown) {
        write_done(alloc, event)
    } else {
        write_answer(alloc, profile, event, shown)
    }
}

/// The answer to an event: a message that is accepted is named with its number.
fn write_answer(
    alloc: Global,
    profile: Profile,
    event: &Event,
    shown: &Showing,
) -> Result<Vec<u8>, AllocError>
    ensures { IfOk result (λ words. words.items ≡ answer_words profile event.now shown.now) }
{
    match event {
        Event::Offer { body } => {
            let number = find_accepted(shown);
            write_offered(alloc, profile, body.octets(), shown, number)
        }
        _ => write_plain(alloc, profile, shown),
    }
}

/// The answer to an offer: the message's name and number, if it was accepted.
fn write_offered(
    alloc: Global,
    profile: Profile,
    body: &[u8],
    shown: &Showing,
    number: Option<u64>,
) -> Result<Vec<u8>, AllocError>
    ensures { IfOk result (λ words. words.items ≡ offered_words profile body.now shown.now number) }
{
    if number.is_none() {
        return write_plain(alloc, profile, shown);
    }
    let name = Vec::from_slice(alloc, message_name(body).as_bytes())?;
    let named = write_both(name, &write_number(alloc, number)?)?;
    write_both(Vec::from_slice(alloc, b"accepted ")?, &named)
}

/// The number of the message that was accepted, if one was.
fn find_accepted(shown: &Showing) -> Option<u64>
    ensures { result ≡ accepted_in shown.now }
{
    match shown.get() {
        ShownRef::Answered(AnswerRef::Accepted { number }) => Some(number),
        _ => None,
    }
}

/// What an event did.
fn write_done(alloc: Global, event: &Event) -> Result<Vec<u8>, AllocError>
    ensures { IfOk result (λ words. words.items ≡ done_words event.now) }
{
    match event {
        Event::Down { link } => write_link(alloc, "", *link, " left"),
        Event::DownBlind { link } => write_link(alloc, "", *link, " left blindly"),
        Event::NoAnswer { link } => write_link(alloc, "", *link, " settled: no answer"),
        Event::Timed { link } => write_link(alloc, "", *link, " settled: order not sent"),
        Event::Restore { link } => write_link(alloc, "streams asked back to ", *link, ""),
        Event::Redeclare { link } => write_link(alloc, "asked back again to ", *link, ""),
        Event::BackTimeout { link } => write_link(alloc, "no answer about ", *link, ""),
        Event::Test { link } => write_link(alloc, "test of ", *link, ""),
        _ => Vec::from_slice(alloc, b"done"),
    }
}

/// Words about a link.
pub(crate) fn write_link(
    alloc: Global,
    before: &str,
    link: u8,
    after: &str,
) -> Result<Vec<u8>, AllocError>
    ensures { IfOk result (λ words. words.items ≡ link_words before.now link after.now) }
{
    Ok(format!(in alloc; "{before}link {link}{after}")?.into_bytes())
}
