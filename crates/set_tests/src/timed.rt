//! Time-controlled changeover: an order that never was sent is taken back (Q.704 5.6.2, own). Places and numbers are worked
//! out by hand from the rule.

use super::bench::*;
use l3_orders::Order;
use set_core::SetCore;
use set_events::{DiscardCause, Fate, Refusal};
use std::alloc::Global;
use std::test::Fail;

const GIVEN_UP: Fate = Fate::Discarded {
    cause: DiscardCause::NoAnswer,
};

/// The only link fails with message 0 sent, message 1 waiting and message 3 held; the order, number 2, is parked. It's taken
/// back, message 0 is discarded, and the others, which never were sent, are parked. The link comes up again and sends them.
#[test]
fn what_never_was_sent_stays(rt: HostRuntime) -> Result<(), Fail> {
    holds(of_set(rt.alloc(), 1, the_rest_is_parked))
}

fn the_rest_is_parked(alloc: Global, set: &mut SetCore) -> bool {
    does(set, Call::Up(0))
        && accepts(alloc, set, 0, 0, Fate::Waiting { link: 0 })
        && accepts(alloc, set, 0, 1, Fate::Waiting { link: 0 })
        && sends(set, 0, 0, 0, 0)
        && does(set, Call::Down(0))
        && accepts(alloc, set, 0, 3, Fate::Held { link: 0 })
        && finds(set, 2, Fate::Parked)
        && does(set, Call::Timed(0))
        && finds(set, 0, GIVEN_UP)
        && finds(set, 1, Fate::Parked)
        && finds(set, 2, GIVEN_UP)
        && finds(set, 3, Fate::Parked)
        && refuses(set, Call::Timed(0), Refusal::Nothing)
        && refuses(set, Call::NoAnswer(0), Refusal::Nothing)
        && does(set, Call::Up(0))
        && sends_in_order(set, 0, &[1, 3])
}

/// Refused are: 10 a link that the set hasn't, 9 one that is up or settled, and one whose order was sent.
#[test]
fn an_order_that_was_sent_is_not_taken_back(rt: HostRuntime) -> Result<(), Fail> {
    holds(of_set(rt.alloc(), 2, |_alloc, set| is_refused(set)))
}

fn is_refused(set: &mut SetCore) -> bool {
    let order = Order::Coo {
        link: 1,
        number: 127,
    };
    refuses(set, Call::Timed(2), Refusal::NoSuchLink)
        && refuses(set, Call::Timed(0), Refusal::Nothing)
        && does_all(set, &[Call::Up(0), Call::Up(1)])
        && refuses(set, Call::Timed(1), Refusal::Nothing)
        && does(set, Call::Down(1))
        && finds(set, 0, Fate::Waiting { link: 0 })
        && sends_order(set, head_of(127, 0), &order)
        && refuses(set, Call::Timed(1), Refusal::Nothing)
        && finds(set, 0, Fate::Unacked { link: 0 })
        && does(set, Call::NoAnswer(1))
}

/// Link 2 fails, and its order waits for link 0 behind that of link 1, which failed before. The order of link 2 is taken back
/// from there; that of link 1 goes out, and the link is still to be answered.
#[test]
fn only_the_order_of_the_link_is_taken_back(rt: HostRuntime) -> Result<(), Fail> {
    holds(of_set(rt.alloc(), 3, |_alloc, set| one_of_two(set)))
}

fn one_of_two(set: &mut SetCore) -> bool {
    let order = Order::Coo {
        link: 1,
        number: 127,
    };
    does_all(set, &[Call::Up(0), Call::Up(1), Call::Up(2)])
        && does_all(set, &[Call::Down(1), Call::Down(2), Call::Timed(2)])
        && finds(set, 0, Fate::Waiting { link: 0 })
        && finds(set, 1, GIVEN_UP)
        && sends_order(set, head_of(127, 0), &order)
        && does_all(set, &[Call::Up(2), Call::NoAnswer(1)])
}
