//! Two ends of a set of two links, joined by lines of which one of link 1 is longer than the others. One end of link 1 comes up
//! first, sends, and is stopped; its changeover order goes over link 0, and is faster than what is under way on link 1. Each
//! message is taken once (Q.704 5.1.1).

use super::core_door::{LONG, holds};
use link_term::Command;
use set_core::SetCore;
use set_events::{Actor, Answer, Body, Event, Fate, Method, SetConfig};
use std::alloc::Global;
use std::test::Fail;
use term_bench::{Bench, LinkWord};

/// The octets under way on the shorter lines.
const SHORT: usize = 8;

/// A line of constant length: in a turn its front octet leaves it, and one joins it behind.
#[derive(Clone, Copy)]
struct Wire {
    octets: [u8; 512],
    length: usize,
}

impl Wire {
    /// Flags.
    fn new(length: usize) -> Wire {
        Wire {
            octets: [0x7E; 512],
            length,
        }
    }

    fn place(&self, turn: usize) -> usize {
        turn.checked_rem(self.length).unwrap_or(0)
    }

    fn front(&self, turn: usize) -> u8 {
        self.octets.get(self.place(turn)).copied().unwrap_or(0x7E)
    }

    fn join(&mut self, turn: usize, octet: u8) {
        let place = self.place(turn);
        if let Some(at) = self.octets.get_mut(place) {
            *at = octet;
        }
    }
}

/// The lines of both links, to either end, and how many turns of each link went.
#[derive(Clone, Copy)]
struct Wires {
    to_a: [Wire; 2],
    to_b: [Wire; 2],
    turns: usize,
}

/// What is tried: the octets that are under way on link 1 to one end, how many turns the other one is up, and where b is the
/// one that comes up first.
#[derive(Clone, Copy)]
struct Case {
    octets: usize,
    hold: usize,
    b_first: bool,
}

/// Two benches, of which a function for all types lets go.
#[derive(Drop)]
struct Ends {
    a: Bench,
    b: Bench,
}

fn bench_of(alloc: Global, own: u16, far: u16, method: Method) -> Option<Bench> {
    let config = SetConfig::new(0, 2, own, far, 0x80, method).ok()?;
    Bench::new(alloc, &config, LONG).ok()
}

fn ends_of(alloc: Global, method: Method) -> Option<Ends> {
    let a = bench_of(alloc, 2, 1, method)?;
    let b = bench_of(alloc, 1, 2, method)?;
    Some(Ends { a, b })
}

/// The octet that the link of this bench puts in its next turn; none where it fails.
fn put(bench: &mut Bench, link: u8, octet: u8) -> Option<u8> {
    if link >= bench.links() {
        return None;
    }
    match bench.turn(link, octet) {
        Ok(turn) => Some(turn.put),
        Err(_) => None,
    }
}

/// Both ends of a link take a turn.
fn turn_link(ends: &mut Ends, wires: &mut Wires, link: u8) -> Option<()> {
    let place = usize::from(link % 2);
    let (came_a, came_b) = (
        wires.to_a[place].front(wires.turns),
        wires.to_b[place].front(wires.turns),
    );
    let from_a = put(&mut ends.a, link, came_a)?;
    let from_b = put(&mut ends.b, link, came_b)?;
    wires.to_b[place].join(wires.turns, from_a);
    wires.to_a[place].join(wires.turns, from_b);
    Some(())
}

/// So many turns of each link at both ends; they end early once a link stands so that the test holds. Whether no turn failed.
fn go<F: Fn(&Ends) -> bool>(ends: &mut Ends, wires: &mut Wires, turns: usize, until: F) -> bool
    requires { F.IsAlwaysCallable until }
{
    for _ in 0..turns {
        if turn_link(ends, wires, 0).is_none() || turn_link(ends, wires, 1).is_none() {
            return false;
        }
        wires.turns = wires.turns.wrapping_add(1);
        if until(ends) {
            return true;
        }
    }
    true
}

fn never(_ends: &Ends) -> bool {
    false
}

fn is_up(bench: &Bench, link: u8) -> bool {
    link < bench.links() && bench.word(link) == LinkWord::Up
}

fn told(bench: &mut Bench, link: u8, command: Command) -> bool {
    link < bench.links() && bench.command(link, command).is_ok()
}

/// What the set answers to this event of a user.
fn asked(bench: &mut Bench, event: &Event) -> Option<Answer> {
    bench.ask(Actor::User(0), event).ok()
}

/// The octets of message `number` of stream 1.
fn message_of(number: u8) -> [u8; 6] {
    [0x85, 1, 0x80, 0, 0x10, number]
}

/// Three messages are offered, which get numbers 0, 1 and 2.
fn offers_three(alloc: Global, bench: &mut Bench) -> bool {
    for number in 0..3u8 {
        let Ok(body) = Body::from_slice(alloc, &message_of(number)) else {
            return false;
        };
        match asked(bench, &Event::Offer { body }) {
            Some(answer)
                if answer.same(&Answer::Accepted {
                    number: u64::from(number),
                }) => (),
            _ => return false,
        }
    }
    true
}

/// A user takes just these three, in order.
fn takes_three(bench: &mut Bench) -> bool {
    for number in 0..3u8 {
        match asked(bench, &Event::Take) {
            Some(Answer::Taken { body }) if body.as_slice() == message_of(number).as_slice() => (),
            _ => return false,
        }
    }
    match asked(bench, &Event::Take) {
        Some(answer) => !matches!(answer, Answer::Taken { .. }),
        None => false,
    }
}

/// Each of the three is acknowledged.
fn are_acknowledged(set: &SetCore) -> bool {
    for number in 0..3u64 {
        match set.place_of(number) {
            Some(Fate::Acked { .. }) => (),
            _ => return false,
        }
    }
    true
}

/// Link 0 is started at both ends, and link 1 a little later: link 0 is up at both ends when link 1 comes up at one.
fn one_is_up(ends: &mut Ends, wires: &mut Wires) -> bool {
    told(&mut ends.a, 0, Command::Emergency)
        && told(&mut ends.a, 0, Command::Start)
        && told(&mut ends.b, 0, Command::Emergency)
        && told(&mut ends.b, 0, Command::Start)
        && go(ends, wires, 200, never)
        && told(&mut ends.a, 1, Command::Emergency)
        && told(&mut ends.a, 1, Command::Start)
        && told(&mut ends.b, 1, Command::Emergency)
        && told(&mut ends.b, 1, Command::Start)
        && go(
            ends,
            wires,
            8_000,
            |ends| is_up(&ends.a, 1) || is_up(&ends.b, 1),
        )
        && is_up(&ends.a, 0)
        && is_up(&ends.b, 0)
}

/// The end at which link 1 is up alone sends three messages there, and is stopped; the other end's users take each once.
fn comes_once(alloc: Global, ends: &mut Ends, case: Case) -> bool {
    let mut wires = Wires {
        to_a: [Wire::new(SHORT); 2],
        to_b: [Wire::new(SHORT); 2],
        turns: 0,
    };
    if case.b_first {
        wires.to_a[1] = Wire::new(case.octets);
    } else {
        wires.to_b[1] = Wire::new(case.octets);
    }
    if !one_is_up(ends, &mut wires) || is_up(&ends.b, 1) != case.b_first {
        return false;
    }
    leaves(alloc, ends, &mut wires, case) && went(ends, case.b_first)
}

/// The end that is up offers, and is stopped so many turns later; then all goes on.
fn leaves(alloc: Global, ends: &mut Ends, wires: &mut Wires, case: Case) -> bool {
    let offered = if case.b_first {
        offers_three(alloc, &mut ends.b)
    } else {
        offers_three(alloc, &mut ends.a)
    };
    if !offered || !go(ends, wires, case.hold, never) {
        return false;
    }
    let stopped = if case.b_first {
        told(&mut ends.b, 1, Command::Stop)
    } else {
        told(&mut ends.a, 1, Command::Stop)
    };
    stopped && go(ends, wires, 1_500, never)
}

fn went(ends: &mut Ends, from_b: bool) -> bool {
    if from_b {
        takes_three(&mut ends.a) && are_acknowledged(ends.b.set())
    } else {
        takes_three(&mut ends.b) && are_acknowledged(ends.a.set())
    }
}

/// Whether a case holds of two new ends of this method.
fn case_holds(alloc: Global, method: Method, case: Case) -> bool {
    super::core_door::holds_of(ends_of(alloc, method), |ends| comes_once(alloc, ends, case))
}

/// The cases by how much longer the line is.
fn all_hold(alloc: Global, method: Method, b_first: bool) -> bool {
    for (octets, hold) in [(408, 80), (136, 24), (104, 16), (72, 16), (24, 8)] {
        let case = Case {
            octets,
            hold,
            b_first,
        };
        if !case_holds(alloc, method, case) {
            return false;
        }
    }
    true
}

/// Octets that differ by 400, 128, 96, 64 and 16: end a is up first.
#[test]
fn each_message_comes_once_where_a_is_up_first(rt: HostRuntime) -> Result<(), Fail> {
    holds(all_hold(rt.alloc(), Method::Basic, false))
}

#[test]
fn each_message_comes_once_where_b_is_up_first(rt: HostRuntime) -> Result<(), Fail> {
    holds(all_hold(rt.alloc(), Method::Basic, true))
}

/// The same with preventive cyclic retransmission (Q.703 6).
#[test]
fn each_comes_once_with_cyclic_retransmission(rt: HostRuntime) -> Result<(), Fail> {
    let method = Method::Cyclic { n1: 127, n2: 8_000 };
    holds(all_hold(rt.alloc(), method, false) && all_hold(rt.alloc(), method, true))
}
