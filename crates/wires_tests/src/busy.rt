//! A busy set gives no changeover up (Q.704 5): the orders go ahead of the messages that wait, so both ends settle the link that
//! fails within some hundred octets, where 400 messages of 46 octets take link 0 some 20,000.

use super::pairs::{Deed, all_done, done, holds, joined, take};
use pair_octets::{LineLengths, WireStep, Wires};
use pair_steps::End;
use set_events::{Actor, Body, Event, Method};
use std::alloc::Global;
use std::test::Fail;
use term_bench::Phase;

const SHORT: [LineLengths; 2] = [
    LineLengths { to_a: 40, to_b: 40 },
    LineLengths { to_a: 40, to_b: 40 },
];

const UP: [Deed; 5] = [
    Deed::Start(0),
    Deed::Start(1),
    Deed::Turns(8_000),
    Deed::IsUp(0, true),
    Deed::IsUp(1, true),
];

/// Link 1 is stopped at end A while messages are under way on it.
const FAILS: [Deed; 3] = [Deed::Turns(100), Deed::Stop(1), Deed::Turns(400)];

/// A message of 46 octets, of stream 0 or 1.
fn long_message(end: End, stream: u8, number: u16) -> [u8; 46] {
    let mut octets = [0; 46];
    octets[0] = 0x85;
    match end {
        End::A => {
            octets[1] = 1;
            octets[2] = 0x80;
        }
        End::B => {
            octets[1] = 2;
            octets[2] = 0x40;
        }
    }
    octets[4] = stream % 2 * 16;
    octets[5] = (number % 256) as u8;
    octets[6] = (number / 256) as u8;
    octets
}

fn offer_at(alloc: Global, wires: &mut Wires, end: End, stream: u8, number: u16) -> bool {
    match Body::from_slice(alloc, long_message(end, stream, number).as_slice()) {
        Ok(body) => wires
            .step(&WireStep::Ask {
                end,
                who: Actor::User(0),
                event: Event::Offer { body },
            })
            .is_ok(),
        Err(_) => false,
    }
}

/// Users of both ends offer the messages of the stream from the first number on up to the second.
fn offer_all(alloc: Global, wires: &mut Wires, stream: u8, from: u16, to: u16) -> bool {
    for number in from..to {
        let a = offer_at(alloc, wires, End::A, stream, number);
        let b = offer_at(alloc, wires, End::B, stream, number);
        if !a || !b {
            return false;
        }
    }
    true
}

fn is_settled_at(wires: &Wires, end: End) -> bool {
    let bench = wires.bench(end);
    1 < bench.links() && bench.phase(1) == Phase::Settled
}

/// The users of this end take the 400 messages of stream 0 and the 20 of stream 1, each once and in order.
fn takes(wires: &mut Wires, end: End) -> bool {
    let mut next: [u16; 2] = [0, 1_000];
    for _ in 0..420u16 {
        let Some(number) = take(wires, end) else {
            return false;
        };
        let stream = usize::from(number / 1_000 % 2);
        if next[stream] != number {
            return false;
        }
        next[stream] = number.wrapping_add(1);
    }
    take(wires, end).is_none()
}

/// 20 messages each way are under way on link 1, and 400 wait for link 0.
fn settles(alloc: Global, wires: &mut Wires) -> bool {
    let busy = all_done(alloc, wires, UP.as_slice())
        && offer_all(alloc, wires, 1, 1_000, 1_020)
        && offer_all(alloc, wires, 0, 0, 400)
        && all_done(alloc, wires, FAILS.as_slice());
    let settled = is_settled_at(wires, End::A) && is_settled_at(wires, End::B);
    let sent = done(alloc, wires, Deed::Turns(24_000));
    busy && settled && sent && takes(wires, End::A) && takes(wires, End::B)
}

fn a_busy_set_settles(alloc: Global, method: Method) -> bool {
    match joined(alloc, method, SHORT) {
        Some(mut wires) => settles(alloc, &mut wires),
        None => false,
    }
}

#[test]
fn orders_go_ahead_of_400_messages(rt: HostRuntime) -> Result<(), Fail> {
    holds(a_busy_set_settles(rt.alloc(), Method::Basic))
}

#[test]
fn orders_go_ahead_with_cyclic_retransmission(rt: HostRuntime) -> Result<(), Fail> {
    let method = Method::Cyclic { n1: 127, n2: 8_000 };
    holds(a_busy_set_settles(rt.alloc(), method))
}
