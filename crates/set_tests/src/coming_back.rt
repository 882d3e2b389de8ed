//! Changeback on many links at once, and again and again.
use super::bench::*;
use l3_orders::Order;
use set_core::SetCore;
use set_events::{Counts, Fate, Took};
use std::alloc::Global;
use std::test::Fail;

/// Fifteen of 16 links are restored one after another, with messages in every fate; the places add up after each event.
#[test]
fn fifteen_links_are_restored(rt: HostRuntime) -> Result<(), Fail> {
    holds(of_set(rt.alloc(), 16, restore_fifteen))
}

fn restore_fifteen(alloc: Global, set: &mut SetCore) -> bool {
    run_on_link_0(alloc, set)
        && all_are_asked(alloc, set)
        && set.counts().back == 15
        && three_are_acknowledged(alloc, set)
        && four_time_out(set)
        && four_fail(set)
        && stand_all_over(set)
}

/// Messages 0 to 14 are parked; then link 0 comes up, sends five of them and hears of two, and the others come up.
fn run_on_link_0(alloc: Global, set: &mut SetCore) -> bool {
    are_parked(alloc, set)
        && does(set, Call::Up(0))
        && sends_in_order(set, 0, &[0, 1, 2, 3, 4])
        && acknowledges(set, 0, head_of(1, 127), 2)
        && come_up(set)
}

fn are_parked(alloc: Global, set: &mut SetCore) -> bool {
    for link in 1..16u8 {
        if !accepts(alloc, set, link, u64::from(link - 1), Fate::Parked) {
            return false;
        }
    }
    true
}

/// All links but link 0 come up.
fn come_up(set: &mut SetCore) -> bool {
    for link in 1..16u8 {
        if !does(set, Call::Up(link)) {
            return false;
        }
    }
    true
}

/// Each link's stream is asked back: numbers 15, 17, .. are the declarations, and the messages behind them wait.
fn all_are_asked(alloc: Global, set: &mut SetCore) -> bool {
    for link in 1..16u8 {
        let number = 14 + 2 * u64::from(link);
        let fate = Fate::Back { code: 16 * link };
        if !does(set, Call::Restore(link)) || !accepts(alloc, set, link, number, fate) {
            return false;
        }
    }
    true
}

/// Links 4, 8 and 12 have their streams back, and then fail, with one message held each; for link 4 no answer comes.
fn three_are_acknowledged(alloc: Global, set: &mut SetCore) -> bool {
    for (place, link) in [(0u16, 4u8), (1, 8), (2, 12)] {
        if !is_acknowledged(alloc, set, place, link) {
            return false;
        }
    }
    does(set, Call::NoAnswer(4))
}

/// One of them, by the order of this FSN.
fn is_acknowledged(alloc: Global, set: &mut SetCore, fsn: u16, link: u8) -> bool {
    let number = 45 + 3 * u64::from(fsn);
    hears_cba(
        set,
        head_of(1, u64::from(fsn)),
        16 * (link % 16),
        Took::Order,
    ) && accepts(alloc, set, link, number, Fate::Waiting { link })
        && does(set, Call::Down(link))
        && accepts(alloc, set, link, number + 2, Fate::Held { link })
}

/// Four links get no acknowledgement, and send what waited for it.
fn four_time_out(set: &mut SetCore) -> bool {
    for link in [1u8, 5, 9, 13] {
        let number = 14 + 2 * u64::from(link);
        if !does(set, Call::BackTimeout(link)) || !sends_in_order(set, link, &[number]) {
            return false;
        }
    }
    true
}

/// Four links fail before the acknowledgement: what waited for it waits for link 0.
fn four_fail(set: &mut SetCore) -> bool {
    for link in [2u8, 6, 10, 14] {
        let number = 14 + 2 * u64::from(link);
        if !does(set, Call::Down(link)) || !stands(set, number, Fate::Waiting { link: 0 }) {
            return false;
        }
    }
    true
}

/// 36 messages: two were acknowledged on link 0 and three sent, four sent on the links without an acknowledgement; two
/// are held; four wait for links 8 and 12, four for an acknowledgement, and the others for link 0, also the two that were
/// never sent on link 4.
fn stand_all_over(set: &SetCore) -> bool {
    let wanted = Counts {
        unacked: 7,
        acked: 2,
        waiting: 21,
        held: 2,
        parked: 0,
        back: 4,
        discarded: 0,
    };
    set.counts() == wanted && set.books().messages == 36
}

/// Of two links, stream 3 has home 1 and runs on link 0; a thousand times it's brought back to link 1, which fails then.
/// 100,000 messages go so, half of them after they waited for an acknowledgement, and each is found again.
#[test]
fn a_stream_comes_back_a_thousand_times(rt: HostRuntime) -> Result<(), Fail> {
    holds(of_set(rt.alloc(), 2, come_back_often))
}

fn come_back_often(alloc: Global, set: &mut SetCore) -> bool {
    does(set, Call::Up(0))
        && a_thousand_rounds(alloc, set)
        && all_are_found(set)
        && set.counts().acked == 100_000
}

fn a_thousand_rounds(alloc: Global, set: &mut SetCore) -> bool {
    for round in 0..1_000u64 {
        if !fifty_go(alloc, set, round)
            || !fifty_come_back(alloc, set, round)
            || !the_home_fails(set, round)
        {
            return false;
        }
    }
    true
}

fn all_are_found(set: &mut SetCore) -> bool {
    for round in 0..1_000u64 {
        if !are_found(set, 102 * round) {
            return false;
        }
    }
    true
}

/// Fifty messages are offered, sent on link 0 and acknowledged. A round has 102 numbers, sends 52 messages on link 0 and
/// hears two orders there.
fn fifty_go(alloc: Global, set: &mut SetCore, round: u64) -> bool {
    let round = round % 1_000;
    for place in 0..50u16 {
        let number = 102 * round + u64::from(place);
        let fsn = ((52 * round + u64::from(place)) % 128) as u16;
        if !accepts(alloc, set, 3, number, Fate::Waiting { link: 0 })
            || !sends(set, 0, number, fsn, place)
        {
            return false;
        }
    }
    acknowledges(set, 0, head_of(52 * round + 49, 2 * round + 127), 50)
}

/// Link 1 comes up, and the stream is asked back; fifty messages wait for the acknowledgement, and then go on link 1.
fn fifty_come_back(alloc: Global, set: &mut SetCore, round: u64) -> bool {
    let round = round % 1_000;
    let first = 102 * round + 51;
    let fsn = ((52 * round + 50) % 128) as u16;
    let order = Order::Cba { link: 1, code: 16 };
    let head = head_of(52 * round + 50, 2 * round);
    does_all(set, &[Call::Up(1), Call::Restore(1)])
        && sends(set, 0, first - 1, fsn, 0)
        && fifty_wait(alloc, set, first)
        && set.counts().back == 50
        && hears(set, head, &order, 1, Took::Order)
        && fifty_are_sent(set, first)
        && acknowledges(set, 1, head_of(49, 127), 50)
}

/// Fifty messages from this number on wait for the acknowledgement.
fn fifty_wait(alloc: Global, set: &mut SetCore, first: u64) -> bool {
    for place in 0..50u16 {
        let number = first.saturating_add(u64::from(place));
        if !accepts(alloc, set, 3, number, Fate::Back { code: 16 }) {
            return false;
        }
    }
    true
}

/// They are sent on link 1, from FSN 0 on.
fn fifty_are_sent(set: &mut SetCore, first: u64) -> bool {
    for place in 0..50u16 {
        let number = first.saturating_add(u64::from(place));
        if !sends(set, 1, number, place, place) {
            return false;
        }
    }
    true
}

/// Link 1 fails, with all that it sent acknowledged, and settles.
fn the_home_fails(set: &mut SetCore, round: u64) -> bool {
    let round = round % 1_000;
    let fsn = ((52 * round + 51) % 128) as u16;
    let order = Order::Coa {
        link: 1,
        number: 49,
    };
    let head = head_of(52 * round + 51, 2 * round + 1);
    does(set, Call::Down(1))
        && sends(set, 0, 102 * round + 101, fsn, 0)
        && hears(set, head, &order, 1, Took::Order)
}

/// The messages of a round, and its two orders, are found where they were acknowledged.
fn are_found(set: &mut SetCore, first: u64) -> bool {
    for place in 0..102u64 {
        let link = if (51..101).contains(&place) { 1u8 } else { 0 };
        if !stands(set, first.saturating_add(place), Fate::Acked { link }) {
            return false;
        }
    }
    true
}
