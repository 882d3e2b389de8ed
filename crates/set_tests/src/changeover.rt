//! Fifteen links that leave one after another, with places worked out by hand from Q.704 5.
ghost use Rattle.l2_units.specs.declared.profile.Profile.TheVariants.{Narrow};
ghost use Rattle.l3_orders.specs.Grammar.{IsOrder};

use super::bench::*;
use l2_units::Unit;
use l3_orders::Order;
use set_core::{Numbered, SetCore};
use set_events::{Answer, DiscardCause, Fate, Method, Took};
use std::alloc::Global;
use std::test::Fail;

/// A set, how many messages it accepted, and how many orders it heard over link 0.
#[derive(Drop)]
struct Bench {
    set: SetCore,
    accepted: u64,
    orders: u8,
}

/// A set of 16 links.
fn bench_of_sixteen(alloc: Global) -> Option<Bench> {
    Some(Bench {
        set: new_set(alloc, config_by(16, Method::Basic))?,
        accepted: 0,
        orders: 0,
    })
}

/// Each accepted message stands in one place.
fn adds_up(bench: &Bench) -> bool {
    placed(&bench.set) == bench.accepted
}

/// The set does what this call tells. The places add up after it.
fn done(bench: &mut Bench, call: Call) -> bool {
    does(&mut bench.set, call) && adds_up(bench)
}

/// The number under which a message of this stream is accepted.
fn number_of(alloc: Global, set: &mut SetCore, stream: u8) -> Option<u64> {
    match offered(alloc, set, &message_of(stream)) {
        Some(Answer::Accepted { number }) => Some(number),
        _ => None,
    }
}

/// A message of this stream is accepted, and stands there then.
fn offers(alloc: Global, bench: &mut Bench, stream: u8, there: Fate) -> bool {
    let Some(number) = number_of(alloc, &mut bench.set, stream) else {
        return false;
    };
    bench.accepted = bench.accepted.saturating_add(1);
    adds_up(bench) && bench.set.place_of(number) == Some(there)
}

/// The link sends its next unit.
fn sends_next(bench: &mut Bench, link: u8) -> bool {
    is_sent(&mut bench.set, link) && adds_up(bench)
}

/// The link hears that its message of FSN 0 arrived.
fn hears_of_the_first(bench: &mut Bench, link: u8) -> bool {
    let head = head_of(0, 127);
    match heard(&mut bench.set, link, Unit::Fisu { head }) {
        Some(report) => report.acked == 1 && adds_up(bench),
        None => false,
    }
}

/// Link 0 hears an order as the far end's next message, and takes it.
fn hears_order(bench: &mut Bench, order: &Order) -> bool
    requires { IsOrder Narrow order.now }
{
    let unit = unit_with(head_of(127, u64::from(bench.orders)), order);
    bench.orders = bench.orders.saturating_add(1);
    match heard(&mut bench.set, 0, unit) {
        Some(report) => report.took == Took::Order && adds_up(bench),
        None => false,
    }
}

/// An acknowledgement of this link's changeover arrives.
fn is_acknowledged(bench: &mut Bench, link: u8, fsn: u16) -> bool {
    let order = Order::Coa {
        link: link % 16,
        number: fsn % 128,
    };
    hears_order(bench, &order)
}

/// Of three messages of the link the first is acknowledged, the second sent, and the third waits.
fn runs(alloc: Global, bench: &mut Bench, link: u8) -> bool {
    let there = Fate::Waiting { link };
    offers(alloc, bench, link, there)
        && offers(alloc, bench, link, there)
        && offers(alloc, bench, link, there)
        && sends_next(bench, link)
        && sends_next(bench, link)
        && hears_of_the_first(bench, link)
}

/// The link is left, two of them blind; a message of its stream is held.
fn leaves(alloc: Global, bench: &mut Bench, link: u8) -> bool {
    let call = match link {
        4 | 7 => Call::DownBlind(link),
        _ => Call::Down(link),
    };
    done(bench, call) && offers(alloc, bench, link, Fate::Held { link })
}

/// The link settles: its unacknowledged message has FSN 1, and FSN 0 is the last acknowledged.
fn settles(bench: &mut Bench, link: u8) -> bool {
    hears_how_far(bench, link) && bench.set.is_settled(link)
}

/// The link hears how far the far end got, if it does.
fn hears_how_far(bench: &mut Bench, link: u8) -> bool {
    match link {
        5 => is_acknowledged(bench, link, 1),
        6 => is_acknowledged(bench, link, 2),
        7 => hears_order(bench, &Order::Eca { link: 7 }),
        8 => done(bench, Call::NoAnswer(link)),
        _ => is_acknowledged(bench, link, 0),
    }
}

/// The messages of these numbers stand in these places.
fn stand(bench: &Bench, rows: &[(u64, Fate)]) -> bool {
    for row in rows {
        let (number, fate) = *row;
        if bench.set.place_of(number) != Some(fate) {
            return false;
        }
    }
    true
}

/// Link 0 sends four messages.
fn sends_four(bench: &mut Bench) -> bool {
    sends_next(bench, 0) && sends_next(bench, 0) && sends_next(bench, 0) && sends_next(bench, 0)
}

/// What link 0 sent came first from link 15, in order, and then from link 14. The orders that stood before them, 45 and 47,
/// were discarded, since those links are up again.
fn were_sent_in_order(set: &SetCore) -> bool {
    for (fsn, number) in [(0u16, 43u64), (1, 44), (2, 46), (3, 40)] {
        if !is_unacked(set, 0, fsn, Some(Numbered { number, fsn })) {
            return false;
        }
    }
    true
}

/// The links leave one by one. The far end got nothing more of what most of them sent; the message of
/// link 5 arrived; the far end's FSN for link 6 is unreasonable; link 7 ends by an emergency; and for
/// link 8 no answer comes.
#[test]
fn fifteen_links_leave_and_come_back(rt: HostRuntime) -> Result<(), Fail> {
    holds(match bench_of_sixteen(rt.alloc()) {
        Some(mut bench) => leave_and_come_back(rt.alloc(), &mut bench),
        None => false,
    })
}

fn leave_and_come_back(alloc: Global, bench: &mut Bench) -> bool {
    come_up(bench, 0)
        && all_run(alloc, bench)
        && all_leave(alloc, bench)
        && come_up(bench, 1)
        && adds_up_to(bench, 40, 16, 4)
        && stand(bench, &PLACES_OF_FIVE_LINKS)
        && sends_four(bench)
        && were_sent_in_order(&bench.set)
        && stand(bench, &[(45, NO_ANSWER), (47, NO_ANSWER)])
}

/// The links from this one on come up.
fn come_up(bench: &mut Bench, first: u8) -> bool {
    for link in first..16u8 {
        if !done(bench, Call::Up(link)) {
            return false;
        }
    }
    true
}

fn all_run(alloc: Global, bench: &mut Bench) -> bool {
    for link in 1..16u8 {
        if !runs(alloc, bench, link) {
            return false;
        }
    }
    true
}

/// Link 15 leaves first, and link 1 last.
fn all_leave(alloc: Global, bench: &mut Bench) -> bool {
    for gone in 0..15u8 {
        if !leaves(alloc, bench, 15 - gone) || !settles(bench, 15 - gone) {
            return false;
        }
    }
    true
}

/// So many messages wait, are acknowledged, and were discarded.
fn adds_up_to(bench: &Bench, waiting: u64, acked: u64, discarded: u64) -> bool {
    let counts = bench.set.counts();
    counts.waiting == waiting && counts.acked == acked && counts.discarded == discarded
}

/// Where what goes on from a link waits.
const ON: Fate = Fate::Waiting { link: 0 };

const UNREASONABLE: Fate = Fate::Discarded {
    cause: DiscardCause::Unreasonable,
};

const EMERGENCY: Fate = Fate::Discarded {
    cause: DiscardCause::Emergency,
};

const NO_ANSWER: Fate = Fate::Discarded {
    cause: DiscardCause::NoAnswer,
};

/// What became of the messages of links 5 to 9: acknowledged, sent, waiting, and held before.
const PLACES_OF_FIVE_LINKS: [(u64, Fate); 20] = [
    (12, Fate::Acked { link: 5 }),
    (13, Fate::Acked { link: 5 }),
    (14, ON),
    (66, ON),
    (15, Fate::Acked { link: 6 }),
    (16, UNREASONABLE),
    (17, UNREASONABLE),
    (64, ON),
    (18, Fate::Acked { link: 7 }),
    (19, EMERGENCY),
    (20, ON),
    (62, ON),
    (21, Fate::Acked { link: 8 }),
    (22, NO_ANSWER),
    (23, ON),
    (60, ON),
    (24, Fate::Acked { link: 9 }),
    (25, ON),
    (26, ON),
    (58, ON),
];
