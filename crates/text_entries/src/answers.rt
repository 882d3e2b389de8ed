//! What was answered, from words.
ghost use Rattle.std.specs.Prelude.{◌≡◌, IfOk, Some};
ghost use Rattle.std.specs.Option.{option_map, option_and_then};
ghost use Rattle.set_events.specs.declared.answer.Answer.TheVariants.{Accepted, Found, Heard, Refused};
ghost use Rattle.text_base.specs.Figures.{number_of};
ghost use Rattle.text_entries.specs.Reading.{answer_in, told_in, taken_in, sent_in, heard_in, fate_in, linked_fate_in, cause_in, refusal_in, took_in, fault_in, word, others};
ghost use Rattle.text_entries.specs.Reading.{if_found};

use super::words::{cut, value_of};
use l2_units::{LONGEST_BODY, Profile, body_of};
use set_events::{Answer, ControlFault, DiscardCause, Fate, Refusal, Report, Took};
use std::alloc::{AllocError, Global};
use text_base::{is_word, read_below_256, read_below_65536, read_number, read_octets};
use text_forms::unit_in;

/// Whether the words behind the arrow tell what was answered, which then stands in `answer`; else what stands there isn't
/// told. An answer has room for a unit, so that it's better filled in its place than handed on.
pub(crate) fn read_told(
    alloc: Global,
    profile: Profile,
    words: &[u8],
    answer: &mut Answer,
) -> Result<bool, AllocError>
    ensures { IfOk result (λ found. if_found found answer.new ≡ told_in profile words.now) }
{
    let (name, words) = cut(words);
    read_answer(alloc, profile, name, words, answer)
}

/// The answer of this name, from the words behind it.
fn read_answer(
    alloc: Global,
    profile: Profile,
    name: &[u8],
    words: &[u8],
    answer: &mut Answer,
) -> Result<bool, AllocError>
    ensures { IfOk result (λ found. if_found found answer.new ≡ answer_in profile name.now words.now) }
{
    let (word, others) = cut(words);
    if is_word(name, b"accepted") {
        Ok(read_accepted(word, answer))
    } else if is_word(name, b"taken") {
        read_taken(alloc, word, answer)
    } else if is_word(name, b"found") {
        Ok(read_found(word, others, answer))
    } else if is_word(name, b"sent") {
        read_sent(alloc, profile, word, answer)
    } else if is_word(name, b"heard") {
        Ok(read_heard(words, answer))
    } else if is_word(name, b"done") {
        *answer = Answer::Done;
        Ok(true)
    } else if is_word(name, b"refused") {
        Ok(read_refused(word, answer))
    } else {
        Ok(false)
    }
}

/// `accepted N`
#[inline(never)]
fn read_accepted(word: &[u8], answer: &mut Answer) -> bool
    ensures { if_found result answer.new ≡ option_map Accepted (number_of word.now) }
{
    match read_number(word) {
        Some(number) => {
            *answer = Answer::Accepted { number };
            true
        }
        None => false,
    }
}

/// `taken HEX`
#[inline(never)]
fn read_taken(alloc: Global, word: &[u8], answer: &mut Answer) -> Result<bool, AllocError>
    ensures { IfOk result (λ found. if_found found answer.new ≡ taken_in word.now) }
{
    let Some(octets) = read_octets(alloc, word)? else {
        return Ok(false);
    };
    if octets.len() > LONGEST_BODY {
        return Ok(false);
    }
    *answer = Answer::Taken {
        body: body_of(&octets),
    };
    Ok(true)
}

/// `found FATE`, from the words behind the name
#[inline(never)]
fn read_found(name: &[u8], others: &[u8], answer: &mut Answer) -> bool
    ensures { if_found result answer.new ≡ option_map Found (fate_in name.now (word others.now)) }
{
    let (number, _) = cut(others);
    match read_fate(name, number) {
        Some(fate) => {
            *answer = Answer::Found { fate };
            true
        }
        None => false,
    }
}

/// Where a message stands.
fn read_fate(name: &[u8], number: &[u8]) -> Option<Fate>
    ensures { result ≡ fate_in name.now number.now }
{
    if is_word(name, b"parked") {
        return Some(Fate::Parked);
    }
    let number = read_below_256(number)?;
    read_linked_fate(name, number)
}

/// A place with a link, a code or a cause.
fn read_linked_fate(name: &[u8], number: u8) -> Option<Fate>
    ensures { result ≡ linked_fate_in name.now number }
{
    if is_word(name, b"waiting") {
        Some(Fate::Waiting { link: number })
    } else if is_word(name, b"unacked") {
        Some(Fate::Unacked { link: number })
    } else if is_word(name, b"acked") {
        Some(Fate::Acked { link: number })
    } else if is_word(name, b"held") {
        Some(Fate::Held { link: number })
    } else if is_word(name, b"back") {
        Some(Fate::Back { code: number })
    } else if is_word(name, b"discarded") {
        let cause = cause_of(number)?;
        Some(Fate::Discarded { cause })
    } else {
        None
    }
}

/// The cause of this number.
fn cause_of(number: u8) -> Option<DiscardCause>
    ensures { result ≡ cause_in number }
{
    match number {
        1 => Some(DiscardCause::Emergency),
        2 => Some(DiscardCause::Unreasonable),
        3 => Some(DiscardCause::NoAnswer),
        _ => None,
    }
}

/// `sent HEX`, with check octets
#[inline(never)]
fn read_sent(
    alloc: Global,
    profile: Profile,
    word: &[u8],
    answer: &mut Answer,
) -> Result<bool, AllocError>
    ensures { IfOk result (λ found. if_found found answer.new ≡ sent_in profile word.now) }
{
    let Some(octets) = read_octets(alloc, word)? else {
        return Ok(false);
    };
    let octets = octets.as_slice();
    match unit_in(profile, &octets[..octets.len().saturating_sub(2)]) {
        Some(unit) => {
            *answer = Answer::Sent { unit };
            Ok(true)
        }
        None => Ok(false),
    }
}

/// `heard acked=K took=T asked=B resend=B fault=F`, from the words behind the name
#[inline(never)]
fn read_heard(words: &[u8], answer: &mut Answer) -> bool
    ensures { if_found result answer.new ≡ heard_in words.now }
{
    match read_report(words) {
        Some(report) => {
            *answer = Answer::Heard { report };
            true
        }
        None => false,
    }
}

/// What a heard unit did.
fn read_report(words: &[u8]) -> Option<Report>
    ensures { option_map Heard result ≡ heard_in words.now }
{
    let (acked, words) = cut(words);
    let (took, words) = cut(words);
    let (asked, words) = cut(words);
    let (resend, words) = cut(words);
    let (fault, _) = cut(words);
    let acked = read_below_65536(value_of(acked))?;
    let took = read_took(value_of(took))?;
    Some(Report {
        acked,
        took,
        asked: is_word(value_of(asked), b"1"),
        resend: is_word(value_of(resend), b"1"),
        fault: read_fault(value_of(fault)),
    })
}

/// What became of a body.
fn read_took(word: &[u8]) -> Option<Took>
    ensures { result ≡ took_in word.now }
{
    if is_word(word, b"nothing") {
        Some(Took::Nothing)
    } else if is_word(word, b"message") {
        Some(Took::Message)
    } else if is_word(word, b"order") {
        Some(Took::Order)
    } else if is_word(word, b"ignored") {
        Some(Took::Ignored)
    } else {
        None
    }
}

/// The fault that a unit showed, if any.
fn read_fault(word: &[u8]) -> Option<ControlFault>
    ensures { result ≡ fault_in word.now }
{
    if is_word(word, b"2") {
        Some(ControlFault::Bsn)
    } else if is_word(word, b"3") {
        Some(ControlFault::Fib)
    } else {
        None
    }
}

/// `refused N`
#[inline(never)]
fn read_refused(word: &[u8], answer: &mut Answer) -> bool
    ensures { if_found result answer.new
        ≡ option_map Refused (option_and_then refusal_in (number_of word.now)) }
{
    match read_refusal(word) {
        Some(why) => {
            *answer = Answer::Refused { why };
            true
        }
        None => false,
    }
}

/// The refusal whose number this word tells.
fn read_refusal(word: &[u8]) -> Option<Refusal>
    ensures { result ≡ option_and_then refusal_in (number_of word.now) }
{
    let number = read_number(word)?;
    refusal_of(number)
}

/// The refusal of this number.
fn refusal_of(number: u64) -> Option<Refusal>
    ensures { result ≡ refusal_in number }
{
    match number {
        1 => Some(Refusal::TooShort),
        2 => Some(Refusal::TooLong),
        3 => Some(Refusal::Reserved),
        4 => Some(Refusal::StreamFull),
        5 => Some(Refusal::NotUp),
        6 => Some(Refusal::NotDown),
        7 => Some(Refusal::Unsettled),
        8 => Some(Refusal::UnknownNumber),
        9 => Some(Refusal::Nothing),
        10 => Some(Refusal::NoSuchLink),
        11 => Some(Refusal::Finished),
        _ => None,
    }
}
