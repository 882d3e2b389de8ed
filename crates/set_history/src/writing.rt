//! An entry to octets.
ghost use Rattle.std.specs.Prelude.{◌≡◌, ◌≤◌, ◌<◌, ◌^◌, ◌+◌, ◌++◌, length, vec_len, vec_capacity};
ghost use Rattle.std.specs.Int.{w32, to_le_bytes};
ghost use Rattle.l2_units.specs.Lent.{body_in as unit_body, unit_in};
ghost use Rattle.set_events.specs.Lent.{HasFitUnit, answer_in, body_in, event_in, octets_in};
ghost use Rattle.set_history.specs.Written.{number_text, large_text, body_text, who_text, unit_text, event_text};
ghost use Rattle.set_history.specs.Written.{answer_text, entry_text, IsKept, IsActorKept, IsEventKept, IsAnswerKept};

use super::forms::{answer_form, event_form, fate_number, report_number};
use l2_units::{UnitRef, wide_word};
use set_events::{Actor, AnswerRef, EventRef};
use std::alloc::Allocator;

/// The most octets of an entry but for its bodies: the first 1, who asked 9, what was asked 14, what was answered 13.
pub(crate) const MOST_FIXED: usize = 37;

/// Appends an entry, for which there is room. Conditions: each unit, and what was taken, has a body of at most 273
/// octets.
pub(crate) fn put_entry<A: Allocator>(
    octets: &mut Vec<u8, A>,
    who: Actor,
    event: &EventRef<'_>,
    answer: &AnswerRef<'_>,
)
    requires room { vec_len octets.old + (37 + length (octets_in event.now) + length (body_in answer.now))
        ≤ vec_capacity octets.old }
    requires unit { HasFitUnit event.now }
    requires answer { length (body_in answer.now) ≤ 273 }
    ensures items { octets.new.items ≡ octets.old.items
        ++ entry_text (record { who = who; event = event_in event.now; answer = answer_in answer.now }) }
    ensures kept { IsKept (record { who = who; event = event_in event.now; answer = answer_in answer.now }) }
    ensures len { vec_len octets.new
        ≤ vec_len octets.old + (37 + length (octets_in event.now) + length (body_in answer.now)) }
    ensures capacity { vec_capacity octets.old ≤ vec_capacity octets.new }
{
    let terminal = match who {
        Actor::User(_) => 0,
        Actor::Terminal(_) => 128,
    };
    octets.push_reserved(event_form(event) + 16 * answer_form(answer) + terminal);
    put_who(octets, who);
    put_event(octets, event);
    put_answer(octets, answer);
}

/// The actor's number: a user's as any number, a terminal's in an octet.
fn put_who<A: Allocator>(octets: &mut Vec<u8, A>, who: Actor)
    requires room { vec_len octets.old + 9 ≤ vec_capacity octets.old }
    ensures items { octets.new.items ≡ octets.old.items ++ who_text who }
    ensures kept { IsActorKept who }
    ensures len { vec_len octets.new ≤ vec_len octets.old + 9 }
    ensures capacity { vec_capacity octets.old ≤ vec_capacity octets.new }
{
    match who {
        Actor::User(number) => put_number(octets, u64::from(number)),
        Actor::Terminal(number) => octets.push_reserved(number),
    }
}

/// What the event brings: a body, a number, or a link's number and a unit.
fn put_event<A: Allocator>(octets: &mut Vec<u8, A>, event: &EventRef<'_>)
    requires room { vec_len octets.old + (14 + length (octets_in event.now)) ≤ vec_capacity octets.old }
    requires unit { HasFitUnit event.now }
    ensures items { octets.new.items ≡ octets.old.items ++ event_text (event_in event.now) }
    ensures kept { IsEventKept (event_in event.now) }
    ensures len { vec_len octets.new ≤ vec_len octets.old + (14 + length (octets_in event.now)) }
    ensures capacity { vec_capacity octets.old ≤ vec_capacity octets.new }
{
    match event {
        EventRef::Offer { body } => put_body(octets, body),
        EventRef::Take => {}
        EventRef::Find { number } => put_number(octets, *number),
        EventRef::Heard { link, unit } => {
            octets.push_reserved(*link);
            put_unit(octets, unit);
        }
        EventRef::Next { link }
        | EventRef::Up { link }
        | EventRef::Down { link }
        | EventRef::DownBlind { link }
        | EventRef::NoAnswer { link }
        | EventRef::Timed { link }
        | EventRef::Restore { link }
        | EventRef::Redeclare { link }
        | EventRef::BackTimeout { link }
        | EventRef::Test { link } => octets.push_reserved(*link),
    }
}

/// What the answer brings: a number, a body or a unit.
fn put_answer<A: Allocator>(octets: &mut Vec<u8, A>, answer: &AnswerRef<'_>)
    requires room { vec_len octets.old + (13 + length (body_in answer.now)) ≤ vec_capacity octets.old }
    requires few { length (body_in answer.now) ≤ 273 }
    ensures items { octets.new.items ≡ octets.old.items ++ answer_text (answer_in answer.now) }
    ensures kept { IsAnswerKept (answer_in answer.now) }
    ensures len { vec_len octets.new ≤ vec_len octets.old + (13 + length (body_in answer.now)) }
    ensures capacity { vec_capacity octets.old ≤ vec_capacity octets.new }
{
    match answer {
        AnswerRef::Accepted { number } => put_number(octets, *number),
        AnswerRef::Taken { body } => put_body(octets, body),
        AnswerRef::Found { fate } => put_number(octets, u64::from(fate_number(*fate))),
        AnswerRef::Sent { unit } => put_unit(octets, unit),
        AnswerRef::Heard { report } => put_number(octets, u64::from(report_number(*report))),
        AnswerRef::Done => {}
        AnswerRef::Refused { why } => octets.push_reserved(why.number()),
    }
}

/// A unit's header and form in four octets; then an MSU's body.
fn put_unit<A: Allocator>(octets: &mut Vec<u8, A>, unit: &UnitRef<'_>)
    requires room { vec_len octets.old + (13 + length (unit_body unit.now)) ≤ vec_capacity octets.old }
    ensures items { octets.new.items ≡ octets.old.items ++ unit_text (unit_in unit.now) }
    ensures len { vec_len octets.new ≤ vec_len octets.old + (13 + length (unit_body unit.now)) }
    ensures capacity { vec_capacity octets.old ≤ vec_capacity octets.new }
{
    match unit {
        UnitRef::Fisu { head } => put_word(octets, wide_word(*head, 0)),
        UnitRef::Lssu { head, status } => {
            put_word(octets, wide_word(*head, 8 + u32::from(status.number())));
        }
        UnitRef::Msu { head, body } => {
            put_word(octets, wide_word(*head, 1));
            put_body(octets, body);
        }
    }
}

/// A number of 32 bits in four octets.
fn put_word<A: Allocator>(octets: &mut Vec<u8, A>, word: u32)
    requires room { vec_len octets.old + 4 ≤ vec_capacity octets.old }
    ensures items { octets.new.items ≡ octets.old.items ++ to_le_bytes w32 word }
    ensures len { vec_len octets.new ≡ vec_len octets.old + 4 }
    ensures capacity { vec_capacity octets.old ≤ vec_capacity octets.new }
{
    // one by one: less than a copy of four costs
    let [a, b, c, d] = word.to_le_bytes();
    octets.push_reserved(a);
    octets.push_reserved(b);
    octets.push_reserved(c);
    octets.push_reserved(d);
}

/// How many octets a body has, and the body.
fn put_body<A: Allocator>(octets: &mut Vec<u8, A>, body: &[u8])
    requires room { vec_len octets.old + (9 + length body.now) ≤ vec_capacity octets.old }
    ensures items { octets.new.items ≡ octets.old.items ++ body_text body.now }
    ensures few { length body.now < 2 ^ 64 }
    ensures len { vec_len octets.new ≤ vec_len octets.old + (9 + length body.now) }
    ensures capacity { vec_capacity octets.old ≤ vec_capacity octets.new }
{
    put_number(octets, body.len() as u64);
    append(octets, body);
}

/// A number in one octet, or in two, four or eight behind one that says so.
fn put_number<A: Allocator>(octets: &mut Vec<u8, A>, number: u64)
    requires room { vec_len octets.old + 9 ≤ vec_capacity octets.old }
    ensures items { octets.new.items ≡ octets.old.items ++ number_text number }
    ensures len { vec_len octets.new ≤ vec_len octets.old + 9 }
    ensures capacity { vec_capacity octets.old ≤ vec_capacity octets.new }
{
    if number < 253 {
        octets.push_reserved(number as u8);
    } else {
        put_large(octets, number);
    }
}

/// A number of two, four or eight octets. Out of line, since few numbers are so large.
#[inline(never)]
fn put_large<A: Allocator>(octets: &mut Vec<u8, A>, number: u64)
    requires room { vec_len octets.old + 9 ≤ vec_capacity octets.old }
    ensures items { octets.new.items ≡ octets.old.items ++ large_text number }
    ensures len { vec_len octets.new ≤ vec_len octets.old + 9 }
    ensures capacity { vec_capacity octets.old ≤ vec_capacity octets.new }
{
    if number < 0x1_0000 {
        octets.push_reserved(253);
        append(octets, &(number as u16).to_le_bytes());
    } else if number < 0x1_0000_0000 {
        octets.push_reserved(254);
        append(octets, &(number as u32).to_le_bytes());
    } else {
        octets.push_reserved(255);
        append(octets, &number.to_le_bytes());
    }
}

/// Appends octets for which there is room.
fn append<A: Allocator>(octets: &mut Vec<u8, A>, more: &[u8])
    requires { vec_len octets.old + length more.now ≤ vec_capacity octets.old }
    ensures items { octets.new.items ≡ octets.old.items ++ more.now }
    ensures len { vec_len octets.new ≡ vec_len octets.old + length more.now }
    ensures capacity { vec_capacity octets.old ≤ vec_capacity octets.new }
{
    match octets.extend_from_slice(more) {
        Ok(()) => (),
        Err(_) => unreachable!(),
    }
}
