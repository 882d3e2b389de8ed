//! Situations of one link, with expected values worked out by hand from Q.703 5.
use super::bench::{
    Call, answers, asked, config_by, does, emitted, finds, heard, holds, is_accepted, is_unacked,
    message_of, of_set, of_set_by, offered, refuses, report_of,
};
use l2_units::{Unit, read};
use set_core::*;
use set_events::{
    Actor, Answer, Body, Books, Entry, Event, Fate, Method, Refusal, Report, SetConfig, Took,
};
use std::alloc::{AllocError, Global};
use std::slice::from_ref;
use std::test::Fail;

const USER: Actor = Actor::User(0);

/// The octets of a message of stream 3, as the worked situations have it.
fn message() -> [u8; 5] {
    message_of(3)
}

/// The settings of its set.
fn config() -> Option<SetConfig> {
    config_by(1, Method::Basic)
}

/// The set sends a unit of these octets next.
fn sends(set: &mut SetCore, octets: &[u8]) -> bool {
    match read(octets) {
        Ok(unit) => answers(set, Event::Next { link: 0 }, Answer::Sent { unit }),
        Err(_) => false,
    }
}

/// The set hears a unit of these octets, and reports so.
fn hears(set: &mut SetCore, octets: &[u8], wanted: Report) -> bool {
    match read(octets) {
        Ok(unit) => heard(set, 0, unit) == Some(wanted),
        Err(_) => false,
    }
}

/// The set sends its next unit, whichever it is.
fn is_sent(set: &mut SetCore) -> bool {
    emitted(set, 0).is_some()
}

/// Message 0 stands there.
fn stands(set: &SetCore, there: Fate) -> bool {
    set.place_of(0) == Some(there)
}

/// The acknowledged messages, the entries and the links are as many.
fn has(set: &SetCore, acked: u64, entries: usize, links: u8) -> bool {
    set.counts().acked == acked && set.history().len() == entries && set.links() == links
}

/// Message 0 is accepted and sent.
fn message_0_goes(alloc: Global, set: &mut SetCore) -> bool {
    is_accepted(alloc, set, &message(), 0)
        && stands(set, Fate::Waiting { link: 0 })
        && sends(set, &[0xFF, 0x80, 5, 0x85, 1, 0x80, 0, 0x30])
        && stands(set, Fate::Unacked { link: 0 })
        && is_unacked(set, 0, 0, Some(Numbered { number: 0, fsn: 0 }))
}

/// An acknowledgement of message 0 arrives.
fn message_0_is_acknowledged(set: &mut SetCore) -> bool {
    hears(set, &[0x80, 0xFF, 0], report_of(1, Took::Nothing))
}

/// One message is offered, sent and acknowledged.
#[test]
fn a_message_is_sent_and_acknowledged(rt: HostRuntime) -> Result<(), Fail> {
    holds(of_set(rt.alloc(), 1, carries_one_message))
}

fn carries_one_message(alloc: Global, set: &mut SetCore) -> bool {
    does(set, Call::Up(0))
        && message_0_goes(alloc, set)
        && sends(set, &[0xFF, 0x80, 0])
        && message_0_is_acknowledged(set)
        && stands(set, Fate::Acked { link: 0 })
        && is_unacked(set, 0, 0, None)
        && has(set, 1, 5, 1)
}

/// A link comes up, a message is offered, one that is too short, and both units are sent; the first is acknowledged.
fn six_calls(alloc: Global, set: &mut SetCore) -> bool {
    does(set, Call::Up(0))
        && is_accepted(alloc, set, &message(), 0)
        && is_too_short(alloc, set, &[0x85, 1, 0x80, 0])
        && is_sent(set)
        && is_sent(set)
        && message_0_is_acknowledged(set)
}

/// A message of these octets is too short.
fn is_too_short(alloc: Global, set: &mut SetCore, octets: &[u8]) -> bool {
    let why = Refusal::TooShort;
    match offered(alloc, set, octets) {
        Some(answer) => answer.same(&Answer::Refused { why }),
        None => false,
    }
}

/// The books of that history, and the laws of the set.
#[test]
fn the_books_of_one_message(rt: HostRuntime) -> Result<(), Fail> {
    holds(of_set(rt.alloc(), 1, has_books_of_one_message))
}

fn has_books_of_one_message(alloc: Global, set: &mut SetCore) -> bool {
    let called = six_calls(alloc, set);
    let told = are_of_one_message(&set.books()) && set.config().opc == 2;
    set.is_sound();
    set.replays();
    called && told
}

/// The books of one message, of one call that was refused, and of four of the terminal.
fn are_of_one_message(books: &Books) -> bool {
    books.messages == 1
        && books.octets == 5
        && books.acknowledged == 1
        && books.user_calls[0] == 2
        && books.user_calls[63] == 0
        && books.term_calls[0] == 4
}

/// Whether a set of [`config`] could have these entries as its history. No answer: they weren't audited.
fn is_legal(alloc: Global, entries: &[Entry]) -> Option<bool> {
    match audit(alloc, &config()?, entries) {
        Ok(is_legal) => Some(is_legal),
        Err(_) => None,
    }
}

/// Copies these entries, with the message that got number 1 told as number 2.
fn copy_with_another_number(entries: &[Entry], copies: &mut Vec<Entry>) -> Result<(), AllocError> {
    copies.reserve(entries.len())?;
    for entry in entries {
        let mut copy = entry.try_copy()?;
        if copy.answer == (Answer::Accepted { number: 1 }) {
            copy.answer = Answer::Accepted { number: 2 };
        }
        copies.push(copy)?;
    }
    Ok(())
}

/// Four messages are sent, and three acknowledged.
fn four_messages_go(alloc: Global, set: &mut SetCore) -> bool {
    for number in 0..4u64 {
        if !is_accepted(alloc, set, &message(), number) || !is_sent(set) {
            return false;
        }
    }
    hears(set, &[0x82, 0xFF, 0], report_of(3, Took::Nothing))
}

/// The first three messages are acknowledged.
fn three_are_found(set: &mut SetCore) -> bool {
    let fate = Fate::Acked { link: 0 };
    finds(set, 0, fate) && finds(set, 1, fate) && finds(set, 2, fate)
}

/// A history of thirteen entries is legal; with one number changed it isn't.
#[test]
fn a_history_is_audited(rt: HostRuntime) -> Result<(), Fail> {
    holds(of_set(rt.alloc(), 1, is_audited))
}

fn is_audited(alloc: Global, set: &mut SetCore) -> bool {
    does(set, Call::Up(0))
        && four_messages_go(alloc, set)
        && three_are_found(set)
        && set.history().len() == 13
        && is_kept_legal(alloc, set)
        && is_told_legal(alloc, set)
}

/// Whether the set's own history is told legal where it's kept.
fn is_kept_legal(alloc: Global, set: &SetCore) -> bool {
    match config() {
        Some(config) => audit_history(alloc, &config, set.history()) == Ok(true),
        None => false,
    }
}

/// Whether its entries are told legal.
fn is_told_legal(alloc: Global, set: &SetCore) -> bool {
    match set.history().entries(alloc) {
        Ok(entries) => is_legal_as_it_is(alloc, &entries),
        Err(_) => false,
    }
}

/// These entries are legal, and with one number changed they aren't.
fn is_legal_as_it_is(alloc: Global, entries: &[Entry]) -> bool {
    let mut changed = Vec::new(alloc);
    let copied = copy_with_another_number(entries, &mut changed).is_ok();
    let legal = is_legal(alloc, entries) == Some(true);
    copied && legal && is_legal(alloc, &changed) == Some(false)
}

/// A history of one entry: this actor looked for message 0 and was told so.
fn is_legal_find(alloc: Global, who: Actor, answer: Answer) -> Option<bool> {
    let entry = Entry {
        who,
        event: Event::Find { number: 0 },
        answer,
    };
    is_legal(alloc, from_ref(&entry))
}

/// What a new set answers is legal, and nothing else is, nor an actor out of range.
#[test]
fn a_new_set_knows_no_number(rt: HostRuntime) -> Result<(), Fail> {
    let nothing = is_legal(rt.alloc(), &[]) == Some(true);
    let found = Answer::Found { fate: Fate::Parked };
    let made_up = is_legal_find(rt.alloc(), USER, found);
    let told = is_legal_find(rt.alloc(), Actor::User(63), unknown());
    let stranger = is_legal_find(rt.alloc(), Actor::User(64), unknown());
    holds(nothing && [made_up, told, stranger] == [Some(false), Some(true), Some(false)])
}

fn unknown() -> Answer {
    Answer::Refused {
        why: Refusal::UnknownNumber,
    }
}

/// The refusals that a script can't show: a link that the set hasn't, and one that is up already.
#[test]
fn refusals_in_their_order(rt: HostRuntime) -> Result<(), Fail> {
    holds(of_set(rt.alloc(), 1, |_alloc, set| refuses_in_order(set)))
}

fn refuses_in_order(set: &mut SetCore) -> bool {
    let why = Refusal::NoSuchLink;
    answers(set, Event::Next { link: 1 }, Answer::Refused { why })
        && does(set, Call::Up(0))
        && refuses(set, Call::Up(0), Refusal::NotDown)
        && answers(set, Event::Find { number: 9 }, unknown())
        && set.place_of(9).is_none()
}

/// Of a link that isn't there, isn't up yet, is up, and was left: a set has no tests.
#[test]
fn no_set_has_link_tests(rt: HostRuntime) -> Result<(), Fail> {
    holds(of_set(rt.alloc(), 1, |_alloc, set| refuses_tests(set)))
}

fn refuses_tests(set: &mut SetCore) -> bool {
    refuses(set, Call::Test(1), Refusal::NoSuchLink)
        && refuses(set, Call::Test(0), Refusal::NotUp)
        && does(set, Call::Up(0))
        && refuses(set, Call::Test(0), Refusal::Nothing)
        && does(set, Call::Down(0))
        && refuses(set, Call::Test(0), Refusal::NotUp)
}

/// Each allocation fails once: the call answers `NoMemory`, and the set is as it was.
///
/// Run with each allocation failing in turn (tools/refuse-memory); with memory it passes as it is.
#[test]
fn a_refused_growth_changes_nothing(rt: HostRuntime) -> Result<(), Fail> {
    let Some(config) = config() else {
        return Err(Fail::from("refused"));
    };
    match SetCore::new(rt.alloc(), &config) {
        Ok(mut set) => holds(is_asked_or_refused(rt.alloc(), &mut set)),
        Err(fault) => holds(fault == SetFault::NoMemory),
    }
}

/// Memory may be refused to the message itself, and then nothing is asked.
fn is_asked_or_refused(alloc: Global, set: &mut SetCore) -> bool {
    match Body::from_slice(alloc, &message()) {
        Ok(body) => are_parked_or_refused(set, &Event::Offer { body }),
        Err(_) => true,
    }
}

fn are_parked_or_refused(set: &mut SetCore, message: &Event) -> bool {
    for _ in 0..6u8 {
        if !is_parked_or_refused(set, message) {
            return false;
        }
    }
    true
}

/// The message is parked; or memory is wanted, and the set is as it was.
fn is_parked_or_refused(set: &mut SetCore, message: &Event) -> bool {
    let entries = set.history().len();
    let counts = set.counts();
    match fault_of(set, message) {
        None => {
            set.history().len() == entries.saturating_add(1)
                && set.counts().parked == counts.parked.saturating_add(1)
        }
        Some(fault) => {
            fault == SetFault::NoMemory && set.history().len() == entries && set.counts() == counts
        }
    }
}

/// Why this event of a user couldn't be carried out, if it couldn't.
fn fault_of(set: &mut SetCore, event: &Event) -> Option<SetFault> {
    match set.apply(USER, event) {
        Ok(_) => None,
        Err(fault) => Some(fault),
    }
}

/// The same for an audit, which needs memory as the set did: it tells so, or what is true.
#[test]
fn a_refused_growth_ends_an_audit(rt: HostRuntime) -> Result<(), Fail> {
    match Body::from_slice(rt.alloc(), &message()) {
        Ok(body) => holds(is_legal_or_refused(rt.alloc(), body)),
        Err(_) => Ok(()),
    }
}

/// A history of one entry, this message's offer, is told legal; or memory is wanted.
fn is_legal_or_refused(alloc: Global, body: Body) -> bool {
    let Some(config) = config() else {
        return false;
    };
    let entry = Entry {
        who: USER,
        event: Event::Offer { body },
        answer: Answer::Accepted { number: 0 },
    };
    match audit(alloc, &config, from_ref(&entry)) {
        Ok(is_legal) => is_legal,
        Err(fault) => fault == SetFault::NoMemory,
    }
}

/// How many messages the long runs carry.
const MESSAGES: u16 = 2000;

/// The body of the message of this index.
fn numbered(index: u16) -> [u8; 7] {
    let [high, low] = index.to_be_bytes();
    [0x85, 1, 0x80, 0, 0x30, high, low]
}

/// One end sends, and the other hears it unless the unit is lost.
fn carried(from: &mut SetCore, to: &mut SetCore, lost: bool) -> bool {
    match emitted(from, 0) {
        Some(unit) => lost || is_heard(to, unit),
        None => false,
    }
}

fn is_heard(set: &mut SetCore, unit: Unit) -> bool {
    heard(set, 0, unit).is_some()
}

/// Offers the next message, unless its stream is full; whether it was accepted. No answer: there was another one.
fn next_is_accepted(alloc: Global, set: &mut SetCore, index: u16) -> Option<bool> {
    match offered(alloc, set, &numbered(index)) {
        Some(Answer::Accepted { .. }) => Some(true),
        Some(Answer::Refused { why }) if why == Refusal::StreamFull => Some(false),
        _ => None,
    }
}

/// Takes the next message, if there is one, which has to be that of this index. No answer: it was another one.
fn next_is_taken(set: &mut SetCore, index: u16) -> Option<bool> {
    match asked(set, &Event::Take) {
        Some(Answer::Taken { body }) if body.as_slice() == numbered(index).as_slice() => Some(true),
        Some(Answer::Refused { why }) if why == Refusal::Nothing => Some(false),
        _ => None,
    }
}

/// How many messages an end's user has offered and taken.
#[derive(Clone, Copy, Drop)]
struct Traffic {
    accepted: u16,
    taken: u16,
}

/// The user of an end offers the next message and takes the next one, as far as they go.
fn user_turn(alloc: Global, set: &mut SetCore, so_far: &mut Traffic) -> bool {
    user_offers(alloc, set, so_far) && user_takes(set, so_far)
}

fn user_offers(alloc: Global, set: &mut SetCore, so_far: &mut Traffic) -> bool {
    if so_far.accepted == MESSAGES {
        return true;
    }
    let Some(accepted) = next_is_accepted(alloc, set, so_far.accepted) else {
        return false;
    };
    so_far.accepted = so_far.accepted.saturating_add(u16::from(accepted));
    true
}

fn user_takes(set: &mut SetCore, so_far: &mut Traffic) -> bool {
    if so_far.taken == MESSAGES {
        return true;
    }
    let Some(taken) = next_is_taken(set, so_far.taken) else {
        return false;
    };
    so_far.taken = so_far.taken.saturating_add(u16::from(taken));
    true
}

/// Everything was offered, taken once, and acknowledged.
fn is_done(set: &mut SetCore, so_far: &Traffic) -> bool {
    so_far.accepted == MESSAGES
        && so_far.taken == MESSAGES
        && next_is_taken(set, MESSAGES) == Some(false)
        && set.counts().acked == u64::from(MESSAGES)
}

/// Both ends send; every seventh unit of both directions is lost; each message is taken at the other
/// end once, in order.
fn lossy_run(alloc: Global, method: Method) -> Result<(), Fail> {
    holds(of_set_by(alloc, config_by(1, method), |alloc, a| {
        of_set_by(
            alloc,
            config_by(1, method),
            |alloc, b| run_both(alloc, a, b),
        )
    }))
}

fn run_both(alloc: Global, a: &mut SetCore, b: &mut SetCore) -> bool {
    does(a, Call::Up(0)) && does(b, Call::Up(0)) && carry_all(alloc, a, b)
}

fn carry_all(alloc: Global, a: &mut SetCore, b: &mut SetCore) -> bool {
    let mut at_a = Traffic {
        accepted: 0,
        taken: 0,
    };
    let mut at_b = at_a;
    for round in 0..16_000u32 {
        if !user_turn(alloc, a, &mut at_a)
            || !user_turn(alloc, b, &mut at_b)
            || !carried(a, b, round % 7 == 3)
            || !carried(b, a, round % 7 == 6)
        {
            return false;
        }
    }
    is_done(a, &at_a) && is_done(b, &at_b)
}

#[test]
fn messages_come_once_and_in_order_over_a_lossy_link(rt: HostRuntime) -> Result<(), Fail> {
    lossy_run(rt.alloc(), Method::Basic)
}

#[test]
fn messages_come_once_and_in_order_by_cyclic_retransmission(rt: HostRuntime) -> Result<(), Fail> {
    lossy_run(rt.alloc(), Method::Cyclic { n1: 4, n2: 1000 })
}
