//! The lives of a link: an order of a life that is over isn't sent once the link is up again, and how a life ended is told
//! once. Places and numbers are worked out by hand from Q.704 5.
ghost use Rattle.l2_units.specs.declared.profile.Profile.TheVariants.{Narrow};
ghost use Rattle.l3_orders.specs.Grammar.{IsOrder};

use super::bench::*;
use l2_units::{Unit, body_of};
use l3_orders::Order;
use set_core::SetCore;
use set_events::{DiscardCause, Fate, Refusal, Took};
use std::alloc::Global;
use std::test::Fail;

const GIVEN_UP: Fate = Fate::Discarded {
    cause: DiscardCause::NoAnswer,
};

/// The only link fails with message 0 unacknowledged, and the changeover is given up: its order, number 1, and message 2
/// are parked. When the link is up again the order isn't sent, and message 2 has FSN 0. The same once more: order 3 is
/// discarded, message 2 was given up.
#[test]
fn a_set_of_one_link_comes_back_each_time(rt: HostRuntime) -> Result<(), Fail> {
    holds(of_set(rt.alloc(), 1, comes_back_twice))
}

fn comes_back_twice(alloc: Global, set: &mut SetCore) -> bool {
    does(set, Call::Up(0))
        && accepts(alloc, set, 0, 0, Fate::Waiting { link: 0 })
        && sends(set, 0, 0, 0, 0)
        && does(set, Call::Down(0))
        && accepts(alloc, set, 0, 2, Fate::Held { link: 0 })
        && does_all(set, &[Call::NoAnswer(0), Call::Up(0)])
        && stand(set, &[(0, GIVEN_UP), (1, Fate::Waiting { link: 0 })])
        && sends(set, 0, 2, 0, 0)
        && stand(set, &[(1, GIVEN_UP), (2, Fate::Unacked { link: 0 })])
        && does_all(set, &[Call::Down(0), Call::NoAnswer(0), Call::Up(0)])
        && is_sent(set, 0)
        && is_unacked(set, 0, 0, None)
        && stand(set, &[(2, GIVEN_UP), (3, GIVEN_UP)])
}

/// The messages of these numbers are found there.
fn stand(set: &mut SetCore, places: &[(u64, Fate)]) -> bool {
    for place in places {
        if !finds(set, place.0, place.1) {
            return false;
        }
    }
    true
}

/// Link 0 fails, and then link 1: order 0 about link 0 waits for link 1, order 1 about link 1 is parked. Both are given
/// up. Link 0 comes up alone, and order 1 goes out on it, since link 1 isn't up; it has FSN 0 and tells FSN 127, since
/// nothing was accepted.
#[test]
fn an_order_about_a_link_that_is_not_up_is_sent(rt: HostRuntime) -> Result<(), Fail> {
    holds(of_set(rt.alloc(), 2, |_alloc, set| is_sent_over_the_other(set)))
}

/// Both links fail, and no answer comes; the order about link 1 goes out on link 0.
fn is_sent_over_the_other(set: &mut SetCore) -> bool {
    let fail = [
        Call::Up(0),
        Call::Up(1),
        Call::Down(0),
        Call::Down(1),
        Call::NoAnswer(0),
        Call::NoAnswer(1),
        Call::Up(0),
    ];
    let order = Order::Coo {
        link: 1,
        number: 127,
    };
    does_all(set, &fail) && sends_order(set, head_of(127, 0), &order)
}

/// An overtaken order that stands foremost is discarded, and message 1, which waits behind it, is sent.
#[test]
fn what_waits_behind_an_overtaken_order_is_sent(rt: HostRuntime) -> Result<(), Fail> {
    holds(of_set(rt.alloc(), 1, a_message_stands_behind))
}

/// The link fails before it sends anything: order 0 is parked, and then message 1 is.
fn a_message_stands_behind(alloc: Global, set: &mut SetCore) -> bool {
    does_all(set, &[Call::Up(0), Call::Down(0), Call::NoAnswer(0)])
        && accepts(alloc, set, 0, 1, Fate::Parked)
        && does(set, Call::Up(0))
        && sends(set, 0, 1, 0, 0)
        && stand(set, &[(0, GIVEN_UP), (1, Fate::Unacked { link: 0 })])
}

/// Link 1 accepts a message, so 0 is the FSN last accepted, and is left: order 0 goes out on link 0.
fn accepts_one_and_leaves(set: &mut SetCore, leaves: Call) -> bool {
    let unit = Unit::Msu {
        head: head_of(127, 0),
        body: body_of(&message_of(1)),
    };
    does_all(set, &[Call::Up(0), Call::Up(1)])
        && heard(set, 1, unit) == Some(report_of(0, Took::Message))
        && does(set, leaves)
        && is_sent(set, 0)
}

/// The changeover order of the far end about link 1, with the FSN that it last accepted there.
fn their_order(number: u16) -> Order
    ensures { IsOrder Narrow result }
{
    Order::Coo {
        link: 1,
        number: number % 128,
    }
}

/// How link 1 is answered for with this FSN.
fn answer_with(number: u16) -> Order
    ensures { IsOrder Narrow result }
{
    Order::Coa {
        link: 1,
        number: number % 128,
    }
}

/// The far end's acknowledgement settles link 1. Each order that comes after it is answered with FSN 127: it's about a life
/// that this end never had.
#[test]
fn an_order_that_comes_after_the_answer_is_told_nothing(rt: HostRuntime) -> Result<(), Fail> {
    holds(of_set(rt.alloc(), 2, |_alloc, set| is_told_nothing(set)))
}

fn is_told_nothing(set: &mut SetCore) -> bool {
    accepts_one_and_leaves(set, Call::Down(1))
        && hears(set, head_of(0, 0), &answer_with(127), 1, Took::Order)
        && hears(set, head_of(0, 1), &their_order(5), 0, Took::Order)
        && sends_order(set, head_of(1, 1), &answer_with(127))
        && hears(set, head_of(1, 2), &their_order(9), 1, Took::Order)
        && sends_order(set, head_of(2, 2), &answer_with(127))
}

/// Where no answer came the first order that comes late is told FSN 0, and the next one FSN 127.
#[test]
fn after_no_answer_the_end_of_a_life_is_told_once(rt: HostRuntime) -> Result<(), Fail> {
    holds(of_set(rt.alloc(), 2, |_alloc, set| is_told_once(set)))
}

fn is_told_once(set: &mut SetCore) -> bool {
    accepts_one_and_leaves(set, Call::Down(1))
        && does(set, Call::NoAnswer(1))
        && hears(set, head_of(0, 0), &their_order(5), 1, Took::Order)
        && sends_order(set, head_of(0, 1), &answer_with(0))
        && hears(set, head_of(1, 1), &their_order(5), 1, Took::Order)
        && sends_order(set, head_of(1, 2), &answer_with(127))
}

/// Where the life ended blind the first order that comes late is told no FSN, and the next one FSN 127.
#[test]
fn after_a_blind_end_no_fsn_is_told_once(rt: HostRuntime) -> Result<(), Fail> {
    holds(of_set(rt.alloc(), 2, |_alloc, set| is_told_blindly_once(set)))
}

fn is_told_blindly_once(set: &mut SetCore) -> bool {
    accepts_one_and_leaves(set, Call::DownBlind(1))
        && does(set, Call::NoAnswer(1))
        && hears(set, head_of(0, 0), &Order::Eco { link: 1 }, 1, Took::Order)
        && sends_order(set, head_of(0, 1), &Order::Eca { link: 1 })
        && hears(set, head_of(1, 1), &Order::Eco { link: 1 }, 1, Took::Order)
        && sends_order(set, head_of(1, 2), &answer_with(127))
}

/// A new life is to be told anew: link 1 is answered for, comes up, accepts a message and is given up.
#[test]
fn each_life_is_told_anew(rt: HostRuntime) -> Result<(), Fail> {
    holds(of_set(rt.alloc(), 2, |_alloc, set| is_told_anew(set)))
}

fn is_told_anew(set: &mut SetCore) -> bool {
    let unit = Unit::Msu {
        head: head_of(127, 0),
        body: body_of(&message_of(1)),
    };
    accepts_one_and_leaves(set, Call::Down(1))
        && hears(set, head_of(0, 0), &answer_with(127), 1, Took::Order)
        && does(set, Call::Up(1))
        && heard(set, 1, unit) == Some(report_of(0, Took::Message))
        && does(set, Call::Down(1))
        && is_sent(set, 0)
        && does(set, Call::NoAnswer(1))
        && hears(set, head_of(1, 1), &their_order(5), 1, Took::Order)
        && sends_order(set, head_of(1, 2), &answer_with(0))
}

/// A link that was left comes up once it has settled, and no sooner; while it's up it doesn't come up again.
#[test]
fn a_link_comes_up_once_it_has_settled(rt: HostRuntime) -> Result<(), Fail> {
    holds(of_set(rt.alloc(), 1, |_alloc, set| comes_up_settled(set)))
}

fn comes_up_settled(set: &mut SetCore) -> bool {
    does_all(set, &[Call::Up(0), Call::Down(0)])
        && refuses(set, Call::Up(0), Refusal::Unsettled)
        && does_all(set, &[Call::NoAnswer(0), Call::Up(0)])
        && refuses(set, Call::Up(0), Refusal::NotDown)
}

/// Each changeover order about link 1 counts that comes once the link has settled; an acknowledgement doesn't, nor does an
/// order that settles it. The number stays when the link comes up, and over a checkpoint.
#[test]
fn late_orders_count(rt: HostRuntime) -> Result<(), Fail> {
    holds(of_set(rt.alloc(), 2, |_alloc, set| counts_late_orders(set)))
}

fn counts_late_orders(set: &mut SetCore) -> bool {
    accepts_one_and_leaves(set, Call::Down(1))
        && hears(set, head_of(0, 0), &their_order(0), 1, Took::Order)
        && set.late(1) == 0
        && hears(set, head_of(0, 1), &answer_with(0), 0, Took::Ignored)
        && set.late(1) == 0
        && hears(set, head_of(0, 2), &their_order(0), 0, Took::Order)
        && set.late(1) == 1
        && hears(set, head_of(0, 3), &Order::Eco { link: 1 }, 0, Took::Order)
        && does(set, Call::Up(1))
        && set.checkpoint().is_ok()
        && set.late(1) == 2
        && set.late(0) == 0
        && set.late(2) == 0
}

/// A changeover order about a link that never came up counts too.
#[test]
fn an_order_about_a_link_that_never_came_up_counts(rt: HostRuntime) -> Result<(), Fail> {
    holds(of_set(rt.alloc(), 2, |_alloc, set| counts_of_a_new_link(set)))
}

fn counts_of_a_new_link(set: &mut SetCore) -> bool {
    does(set, Call::Up(0))
        && hears(set, head_of(127, 0), &their_order(127), 0, Took::Order)
        && set.late(1) == 1
        && sends_order(set, head_of(0, 0), &answer_with(127))
}

/// No answer comes about link 1: message 0, which was sent, is given up, and so is order 3, which waits there. Messages 1 and
/// 2, which were never sent, go on before message 5, which was offered later.
#[test]
fn what_was_never_sent_outlives_no_answer(rt: HostRuntime) -> Result<(), Fail> {
    holds(of_set(rt.alloc(), 2, keeps_what_was_never_sent))
}

fn keeps_what_was_never_sent(alloc: Global, set: &mut SetCore) -> bool {
    let there = Fate::Waiting { link: 1 };
    does_all(set, &[Call::Up(0), Call::Up(1)])
        && accepts(alloc, set, 1, 0, there)
        && sends(set, 1, 0, 0, 0)
        && accepts(alloc, set, 1, 1, there)
        && accepts(alloc, set, 3, 2, there)
        && does_all(set, &[Call::Down(0), Call::Down(1)])
        && accepts(alloc, set, 1, 5, Fate::Held { link: 1 })
        && does(set, Call::NoAnswer(1))
        && stand(set, &[(0, GIVEN_UP), (1, Fate::Parked), (3, GIVEN_UP)])
        && does_all(set, &[Call::NoAnswer(0), Call::Up(0)])
        && sends_in_order(set, 0, &[4, 1, 2, 5])
}
