//! Many messages in one set, and each kind of event on each of 16 links. With ample memory none is refused.
use super::bench::*;
use arrayvec::ArrayVec;
use l2_units::{LONGEST_BODY, Unit};
use set_core::{Numbered, SetCore};
use set_events::{Answer, Event, Fate, Took};
use std::alloc::Global;
use std::test::Fail;

/// The stream of each message here, but where each link has its own.
pub(crate) const STREAM: u8 = 3;

/// A body of a message of this stream.
fn body_of(stream: u8) -> ArrayVec<u8, LONGEST_BODY> {
    l2_units::body_of(&message_of(stream))
}

/// The link sends a message of this stream under this FSN, and acknowledges nothing.
fn sends_message(set: &mut SetCore, link: u8, stream: u8, fsn: u64) -> bool {
    let unit = Unit::Msu {
        head: head_of(127, fsn),
        body: body_of(stream),
    };
    answers(set, Event::Next { link }, Answer::Sent { unit })
}

/// Link 0 sends the message of this number, under its FSN: both run from 0 on.
pub(crate) fn sends_number(set: &mut SetCore, number: u64) -> bool {
    sends_message(set, 0, STREAM, number)
}

/// Link 0 hears of so many messages more, the last of this number.
pub(crate) fn are_acknowledged(set: &mut SetCore, messages: u16, last: u64) -> bool {
    let head = head_of(last, 127);
    heard(set, 0, Unit::Fisu { head }) == Some(report_of(messages, Took::Nothing))
}

/// The message is offered, sent and acknowledged.
pub(crate) fn goes(alloc: Global, set: &mut SetCore, number: u64) -> bool {
    let fsn = (number % 128) as u16;
    is_accepted(alloc, set, &message_of(STREAM), number)
        && sends_number(set, number)
        && is_unacked(set, 0, 0, Some(Numbered { number, fsn }))
        && are_acknowledged(set, 1, number)
        && set.place_of(number) == Some(Fate::Acked { link: 0 })
}

/// 2,000 messages one after another, so that the FSNs go round more than fifteen times.
#[test]
fn fsns_go_round(rt: HostRuntime) -> Result<(), Fail> {
    holds(of_set(rt.alloc(), 1, go_round))
}

fn go_round(alloc: Global, set: &mut SetCore) -> bool {
    does(set, Call::Up(0))
        && two_thousand_go(alloc, set)
        && set.counts().acked == 2_000
        && set.history().len() == 6_001
}

fn two_thousand_go(alloc: Global, set: &mut SetCore) -> bool {
    for number in 0..2_000u64 {
        if !goes(alloc, set, number) {
            return false;
        }
    }
    true
}

/// A hundred messages from this number on are sent, and acknowledged at once.
fn a_hundred_go(alloc: Global, set: &mut SetCore, first: u64) -> bool {
    for place in 0..100u64 {
        let number = first.saturating_add(place);
        if !is_accepted(alloc, set, &message_of(STREAM), number) || !sends_number(set, number) {
            return false;
        }
    }
    are_acknowledged(set, 100, first.saturating_add(99))
}

/// 100,000 messages in one set, each found again under its number.
#[test]
fn each_message_is_found_again(rt: HostRuntime) -> Result<(), Fail> {
    holds(of_set(rt.alloc(), 1, find_all_again))
}

fn find_all_again(alloc: Global, set: &mut SetCore) -> bool {
    does(set, Call::Up(0))
        && all_go(alloc, set)
        && all_are_found(set)
        && set.counts().acked == 100_000
}

fn all_go(alloc: Global, set: &mut SetCore) -> bool {
    for hundred in 0..1_000u64 {
        if !a_hundred_go(alloc, set, 100 * hundred) {
            return false;
        }
    }
    true
}

fn all_are_found(set: &mut SetCore) -> bool {
    for number in 0..100_000u64 {
        if !finds(set, number, Fate::Acked { link: 0 }) {
            return false;
        }
    }
    true
}

/// A message of this link's stream is offered, sent on the link, and looked for.
fn sends_one(alloc: Global, set: &mut SetCore, link: u8) -> bool {
    let number = u64::from(link);
    is_accepted(alloc, set, &message_of(link), number)
        && sends_message(set, link, link, 0)
        && finds(set, number, Fate::Unacked { link })
}

/// The link hears a message for the users.
fn hears_one(set: &mut SetCore, link: u8) -> bool {
    let unit = Unit::Msu {
        head: head_of(127, 0),
        body: body_of(STREAM),
    };
    heard(set, link, unit) == Some(report_of(0, Took::Message))
}

/// The users take it.
fn takes_one(set: &mut SetCore) -> bool {
    let body = body_of(STREAM);
    answers(set, Event::Take, Answer::Taken { body })
}

/// The link is left, no answer comes, and it comes up again; then so with an emergency.
fn leaves_twice(set: &mut SetCore, link: u8) -> bool {
    let once = [Call::Down(link), Call::NoAnswer(link), Call::Up(link)];
    let again = [Call::DownBlind(link), Call::NoAnswer(link), Call::Up(link)];
    does_all(set, &once) && does_all(set, &again)
}

/// Each kind of event on each of 16 links.
#[test]
fn each_event_on_each_of_16_links(rt: HostRuntime) -> Result<(), Fail> {
    holds(of_set(rt.alloc(), 16, run_each))
}

fn run_each(alloc: Global, set: &mut SetCore) -> bool {
    all_come_up(set)
        && all_send_and_hear(alloc, set)
        && all_leave_twice(set)
        && set.counts().discarded == 16
}

fn all_come_up(set: &mut SetCore) -> bool {
    for link in 0..16u8 {
        if !does(set, Call::Up(link)) {
            return false;
        }
    }
    true
}

fn all_send_and_hear(alloc: Global, set: &mut SetCore) -> bool {
    for link in 0..16u8 {
        if !sends_one(alloc, set, link) || !hears_one(set, link) || !takes_one(set) {
            return false;
        }
    }
    true
}

fn all_leave_twice(set: &mut SetCore) -> bool {
    for link in 0..16u8 {
        if !leaves_twice(set, link) {
            return false;
        }
    }
    true
}
