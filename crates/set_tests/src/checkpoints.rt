//! Checkpoints: what is finished leaves the set and is counted, and its history begins anew. Values are worked out by
//! hand.
use super::bench::*;
use super::many::{STREAM, are_acknowledged, goes, sends_number};
use set_core::{Base, SetCore, SetFault, audit_from, audit_history_from};
use set_events::{
    Answer, Body, Books, Counts, Entry, Event, Fate, Finished, Method, Refusal, SetConfig,
};
use std::alloc::{AllocError, Global};
use std::test::Fail;

/// A search for this number is refused so.
fn refuses_number(set: &mut SetCore, number: u64, why: Refusal) -> bool {
    answers(set, Event::Find { number }, Answer::Refused { why }) && set.place_of(number).is_none()
}

/// The message of this number was given out, and left.
fn is_finished(set: &mut SetCore, number: u64) -> bool {
    refuses_number(set, number, Refusal::Finished)
}

/// No message got this number.
fn is_unknown(set: &mut SetCore, number: u64) -> bool {
    refuses_number(set, number, Refusal::UnknownNumber)
}

/// So many of the users' messages were acknowledged, and left; no other did.
fn acked_alone(acked: u64) -> Finished {
    Finished {
        acked,
        emergency: 0,
        unreasonable: 0,
        no_answer: 0,
        orders: 0,
    }
}

/// The link comes up, and one message is offered, found, sent and acknowledged: five entries.
fn one_goes(alloc: Global, set: &mut SetCore) -> bool {
    does(set, Call::Up(0))
        && accepts(alloc, set, STREAM, 0, Fate::Waiting { link: 0 })
        && sends(set, 0, 0, 0, 0)
        && acknowledges(set, 0, head_of(0, 127), 1)
}

/// A message that was acknowledged leaves at the checkpoint: its number is refused 11 then, the next one 8. The history
/// has these two entries, which are legal from the base, and with the second told as the first they aren't.
#[test]
fn an_acknowledged_message_leaves(rt: HostRuntime) -> Result<(), Fail> {
    holds(of_set(rt.alloc(), 1, |alloc, set| {
        leaves(alloc, set) && are_legal_from_the_base(alloc, set)
    }))
}

fn leaves(alloc: Global, set: &mut SetCore) -> bool {
    one_goes(alloc, set)
        && set.checkpoint() == Ok(())
        && set.history().len() == 0
        && is_finished(set, 0)
        && is_unknown(set, 1)
        && set.counts().acked == 1
        && placed(set) == 1
        && set.history().len() == 2
        && set.entries() == 7
        && set.books().user_calls[0] == 4
        && is_base_of_one(set.base())
}

/// The base of those five entries, two of the user and three of the terminal.
fn is_base_of_one(base: &Base) -> bool {
    base.entries() == 5
        && base.numbers_given() == 1
        && base.place_of(0).is_none()
        && base.counts().acked == 1
        && base.finished() == acked_alone(1)
        && is_of_one_message(&base.books())
}

fn is_of_one_message(books: &Books) -> bool {
    books.messages == 1
        && books.octets == 5
        && books.acknowledged == 1
        && books.user_calls[0] == 2
        && books.term_calls[0] == 3
}

/// The set's entries are told legal from its base, where they're kept and by themselves; and with the answers changed
/// they aren't.
fn are_legal_from_the_base(alloc: Global, set: &SetCore) -> bool {
    match set.history().entries(alloc) {
        Ok(entries) => {
            audit_history_from(set.base(), set.history()) == Ok(true)
                && is_legal_as_it_is(alloc, set.base(), &entries)
        }
        Err(_) => false,
    }
}

/// These entries are legal from this base, and aren't once a number that wasn't given out is told as finished.
fn is_legal_as_it_is(alloc: Global, base: &Base, entries: &[Entry]) -> bool {
    let mut changed = Vec::new(alloc);
    let copied = copy_as_finished(entries, &mut changed).is_ok();
    copied && audit_from(base, entries) == Ok(true) && audit_from(base, &changed) == Ok(false)
}

/// Copies these entries, with each refusal 8 told as 11.
fn copy_as_finished(entries: &[Entry], copies: &mut Vec<Entry>) -> Result<(), AllocError> {
    let unknown = Refusal::UnknownNumber;
    copies.reserve(entries.len())?;
    for entry in entries {
        let mut copy = entry.try_copy()?;
        if copy.answer == (Answer::Refused { why: unknown }) {
            copy.answer = Answer::Refused {
                why: Refusal::Finished,
            };
        }
        copies.push(copy)?;
    }
    Ok(())
}

/// A message is parked, since no link is up, and stays so over three checkpoints, between which it's found, and a
/// Restore is refused. Then the link comes up, and the message is sent under FSN 0 with its body.
#[test]
fn a_parked_message_stays_over_checkpoints(rt: HostRuntime) -> Result<(), Fail> {
    holds(of_set(rt.alloc(), 1, |alloc, set| {
        stays_parked(alloc, set) && is_sent_with_its_body(set)
    }))
}

fn stays_parked(alloc: Global, set: &mut SetCore) -> bool {
    accepts(alloc, set, STREAM, 0, Fate::Parked)
        && set.checkpoint() == Ok(())
        && stands(set, 0, Fate::Parked)
        && set.checkpoint() == Ok(())
        && refuses(set, Call::Restore(0), Refusal::NotUp)
        && set.checkpoint() == Ok(())
        && set.base().place_of(0) == Some(Fate::Parked)
        && set.base().finished() == acked_alone(0)
        && set.base().entries() == 4
        && set.history().len() == 0
}

fn is_sent_with_its_body(set: &mut SetCore) -> bool {
    does(set, Call::Up(0))
        && sends_number(set, 0)
        && stands(set, 0, Fate::Unacked { link: 0 })
        && is_unknown(set, 1)
}

/// 2,000 messages with a checkpoint each 100, so that the FSNs go round more than fifteen times. The last of each
/// hundred isn't acknowledged yet at the checkpoint, and is after it.
#[test]
fn fsns_go_round_over_checkpoints(rt: HostRuntime) -> Result<(), Fail> {
    holds(of_set(rt.alloc(), 1, |alloc, set| {
        go_round(alloc, set) && are_finished(set)
    }))
}

fn go_round(alloc: Global, set: &mut SetCore) -> bool {
    if !does(set, Call::Up(0)) {
        return false;
    }
    for hundred in 0..20u64 {
        if !a_hundred_go(alloc, set, 100 * hundred) {
            return false;
        }
    }
    set.checkpoint() == Ok(())
}

/// A hundred messages from this number on, with a checkpoint before the last one is acknowledged.
fn a_hundred_go(alloc: Global, set: &mut SetCore, first: u64) -> bool {
    let last = first.saturating_add(99);
    ninety_nine_go(alloc, set, first)
        && is_accepted(alloc, set, &message_of(STREAM), last)
        && sends_number(set, last)
        && set.checkpoint() == Ok(())
        && set.base().numbers_given() == last.saturating_add(1)
        && set.base().finished() == acked_alone(last)
        && is_finished(set, first)
        && are_acknowledged(set, 1, last)
        && finds(set, last, Fate::Acked { link: 0 })
}

fn ninety_nine_go(alloc: Global, set: &mut SetCore, first: u64) -> bool {
    for place in 0..99u64 {
        if !goes(alloc, set, first.saturating_add(place)) {
            return false;
        }
    }
    true
}

fn are_finished(set: &mut SetCore) -> bool {
    for number in 0..2_000u64 {
        if !is_finished(set, number) {
            return false;
        }
    }
    is_unknown(set, 2_000)
        && set.counts().acked == 2_000
        && set.books().acknowledged == 2_000
        && set.history().len() == 2_001
        && set.base().finished() == acked_alone(2_000)
}

/// A link that is given up discards message 0, and its order, number 1, is parked; message 2 waits for the link again.
/// Then order 1 is discarded, since the link is up. At a checkpoint both leave, each for its own count, and message 2
/// stays.
#[test]
fn what_was_discarded_is_counted_by_its_cause(rt: HostRuntime) -> Result<(), Fail> {
    holds(of_set(rt.alloc(), 1, |alloc, set| {
        two_are_discarded(alloc, set) && message_2_stays(set)
    }))
}

fn two_are_discarded(alloc: Global, set: &mut SetCore) -> bool {
    does(set, Call::Up(0))
        && accepts(alloc, set, 0, 0, Fate::Waiting { link: 0 })
        && sends(set, 0, 0, 0, 0)
        && does(set, Call::Down(0))
        && accepts(alloc, set, 0, 2, Fate::Held { link: 0 })
        && does_all(set, &[Call::NoAnswer(0), Call::Up(0)])
        && sends(set, 0, 2, 0, 0)
}

fn message_2_stays(set: &mut SetCore) -> bool {
    let gone = Finished {
        no_answer: 1,
        orders: 1,
        ..acked_alone(0)
    };
    set.checkpoint() == Ok(())
        && set.base().finished() == gone
        && set.base().numbers_given() == 3
        && is_finished(set, 0)
        && is_finished(set, 1)
        && stands(set, 2, Fate::Unacked { link: 0 })
        && set.counts().discarded == 1
        && is_unacked(set, 0, 0, Some(set_core::Numbered { number: 2, fsn: 0 }))
}

/// The opening has the books of no entry, and a set has it as its base until a checkpoint.
#[test]
fn the_opening_is_a_base(rt: HostRuntime) -> Result<(), Fail> {
    holds(of_set(rt.alloc(), 1, has_the_opening))
}

fn has_the_opening(alloc: Global, set: &mut SetCore) -> bool {
    one_goes(alloc, set) && is_opening(set.base()) && is_legal_from_the_opening(alloc, set)
}

/// The settings of that set.
fn config() -> Option<SetConfig> {
    config_by(1, Method::Basic)
}

fn is_legal_from_the_opening(alloc: Global, set: &SetCore) -> bool {
    let Some(config) = config() else {
        return false;
    };
    match Base::opening(alloc, &config) {
        Ok(opening) => {
            is_opening(&opening) && audit_history_from(&opening, set.history()) == Ok(true)
        }
        Err(_) => false,
    }
}

/// Nothing was asked before this base.
fn is_opening(base: &Base) -> bool {
    base.entries() == 0
        && base.numbers_given() == 0
        && base.place_of(0).is_none()
        && base.finished() == acked_alone(0)
        && base.books() == no_books()
        && base.counts() == no_counts()
}

fn no_books() -> Books {
    Books {
        user_calls: [0; 64],
        term_calls: [0; 16],
        messages: 0,
        octets: 0,
        acknowledged: 0,
    }
}

fn no_counts() -> Counts {
    Counts {
        waiting: 0,
        unacked: 0,
        acked: 0,
        held: 0,
        parked: 0,
        back: 0,
        discarded: 0,
    }
}

/// Each growth that a checkpoint wants fails once: the set is as it was then, and the next checkpoint is made.
///
/// Run with each allocation failing in turn (tools/refuse-memory); with memory it passes as it is.
#[test]
fn a_refused_growth_makes_no_checkpoint(rt: HostRuntime) -> Result<(), Fail> {
    let Some(config) = config() else {
        return Err(Fail::from("refused"));
    };
    match SetCore::new(rt.alloc(), &config) {
        Ok(mut set) => holds(is_based_or_as_before(rt.alloc(), &mut set)),
        Err(fault) => holds(fault == SetFault::NoMemory),
    }
}

/// Memory may be refused before the checkpoint too, and then nothing is asked.
fn is_based_or_as_before(alloc: Global, set: &mut SetCore) -> bool {
    !one_goes(alloc, set) || is_based_or_refused(set)
}

fn is_based_or_refused(set: &mut SetCore) -> bool {
    let books = set.books();
    let counts = set.counts();
    match set.checkpoint() {
        Ok(()) => set.history().len() == 0 && is_base_of_one(set.base()) && set.books() == books,
        Err(fault) => {
            fault == SetFault::NoMemory
                && is_as_before(set, &books, &counts)
                && set.checkpoint() == Ok(())
                && is_base_of_one(set.base())
        }
    }
}

/// The set still has its five entries and the opening as its base.
fn is_as_before(set: &SetCore, books: &Books, counts: &Counts) -> bool {
    set.history().len() == 5
        && is_opening(set.base())
        && set.books() == *books
        && set.counts() == *counts
        && set.place_of(0) == Some(Fate::Acked { link: 0 })
}

/// The same of an opening, and of the audit of one entry from it: no base is made, and nothing is told.
#[test]
fn a_refused_growth_makes_no_base(rt: HostRuntime) -> Result<(), Fail> {
    let Some(config) = config() else {
        return Err(Fail::from("refused"));
    };
    match Base::opening(rt.alloc(), &config) {
        Ok(opening) => holds(is_opening(&opening) && is_audited_or_refused(rt.alloc(), &opening)),
        Err(fault) => holds(fault == SetFault::NoMemory),
    }
}

fn is_audited_or_refused(alloc: Global, opening: &Base) -> bool {
    let Ok(body) = Body::from_slice(alloc, &message_of(STREAM)) else {
        return true;
    };
    let entry = Entry {
        who: set_events::Actor::User(0),
        event: Event::Offer { body },
        answer: Answer::Accepted { number: 0 },
    };
    match audit_from(opening, std::slice::from_ref(&entry)) {
        Ok(is_legal) => is_legal,
        Err(fault) => fault == SetFault::NoMemory,
    }
}
