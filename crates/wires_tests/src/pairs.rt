//! Two ends of two links, and what is done at them.

use link_term::{Command, Timers};
use pair_octets::{EndConfig, LineLengths, WireStep, Wires};
use pair_steps::End;
use set_events::{Actor, Answer, Body, Event, Method, SetConfig};
use std::alloc::Global;
use std::test::Fail;
use term_bench::LinkWord;

/// Link 1 takes much longer one way.
pub(crate) const LENGTHS: [LineLengths; 2] = [
    LineLengths { to_a: 40, to_b: 90 },
    LineLengths {
        to_a: 30,
        to_b: 1_100,
    },
];

/// What is done at both ends, one after another.
#[derive(Clone, Copy)]
pub(crate) enum Deed {
    /// Both ends of the link start it, with emergency proving.
    Start(u8),
    /// End A stops it.
    Stop(u8),
    /// Its streams are to come back to it, at both ends.
    Restore(u8),
    /// So many times each end takes a turn of each link.
    Turns(u32),
    /// Users of both ends offer the messages from the first number on up to the second; 50 turns behind each.
    Offers(u16, u16),
    /// So many turns, before each of which the front octet of the link's line to end B comes as ones.
    Cut(u8, u32),
    /// An octet that is under way to end B on the link comes as another.
    Noise(u8),
    /// The link is up at both ends, or not.
    IsUp(u8, bool),
}

/// The test fails where this doesn't hold.
pub(crate) fn holds(well: bool) -> Result<(), Fail> {
    if well {
        Ok(())
    } else {
        Err(Fail::from("it isn't so"))
    }
}

/// Timers long enough for both proving periods.
fn timers() -> Option<Timers> {
    Timers::new(100_000, 100_000, 100_000, 800, 24_000, 8_000)
}

/// What an end with two links is opened with.
pub(crate) fn config(own: u16, far: u16, method: Method) -> Option<EndConfig> {
    let set = SetConfig::new(0, 2, own, far, 0x80, method).ok()?;
    let timers = timers()?;
    Some(EndConfig { set, timers })
}

/// Two new ends of two links, whose lines have these lengths.
pub(crate) fn joined(alloc: Global, method: Method, lengths: [LineLengths; 2]) -> Option<Wires> {
    let a = config(2, 1, method)?;
    let b = config(1, 2, method)?;
    Wires::new(alloc, &a, &b, lengths.as_slice()).ok()
}

/// Whether this could be done.
pub(crate) fn done(alloc: Global, wires: &mut Wires, deed: Deed) -> bool {
    match deed {
        Deed::Start(link) => start(wires, link),
        Deed::Stop(link) => tell(wires, End::A, link, Command::Stop),
        Deed::Restore(link) => restore(wires, link),
        Deed::Turns(times) => turns(wires, times),
        Deed::Offers(from, to) => offers(alloc, wires, from, to),
        Deed::Cut(link, times) => cut(wires, link, times),
        Deed::Noise(link) => wires.damage(End::B, link, 20, 0x55).is_ok(),
        Deed::IsUp(link, up) => is_up(wires, link) == up,
    }
}

/// Whether all could be done.
pub(crate) fn all_done(alloc: Global, wires: &mut Wires, deeds: &[Deed]) -> bool {
    for deed in deeds {
        if !done(alloc, wires, *deed) {
            return false;
        }
    }
    true
}

fn tell(wires: &mut Wires, end: End, link: u8, command: Command) -> bool {
    wires
        .step(&WireStep::Command { end, link, command })
        .is_ok()
}

fn start_at(wires: &mut Wires, end: End, link: u8) -> bool {
    tell(wires, end, link, Command::Emergency) && tell(wires, end, link, Command::Start)
}

fn start(wires: &mut Wires, link: u8) -> bool {
    start_at(wires, End::A, link) && start_at(wires, End::B, link)
}

fn ask(wires: &mut Wires, end: End, who: Actor, event: Event) -> bool {
    wires.step(&WireStep::Ask { end, who, event }).is_ok()
}

fn restore(wires: &mut Wires, link: u8) -> bool {
    let who = Actor::Terminal(link);
    ask(wires, End::A, who, Event::Restore { link })
        && ask(wires, End::B, who, Event::Restore { link })
}

fn turn(wires: &mut Wires, link: u8) -> bool {
    let a = wires.step(&WireStep::Turn { end: End::A, link }).is_ok();
    let b = wires.step(&WireStep::Turn { end: End::B, link }).is_ok();
    a && b
}

fn turns(wires: &mut Wires, times: u32) -> bool {
    for _ in 0..times {
        let first = turn(wires, 0);
        let second = turn(wires, 1);
        if !first || !second {
            return false;
        }
    }
    true
}

/// Message `number` of stream `number` modulo 16, from end A to end B or back.
pub(crate) fn message_of(end: End, number: u16) -> [u8; 7] {
    let low = (number % 256) as u8;
    let high = (number / 256) as u8;
    let stream = low % 16 * 16;
    match end {
        End::A => [0x85, 1, 0x80, 0, stream, low, high],
        End::B => [0x85, 2, 0x40, 0, stream, low, high],
    }
}

fn offer(alloc: Global, wires: &mut Wires, end: End, number: u16) -> bool {
    match Body::from_slice(alloc, message_of(end, number).as_slice()) {
        Ok(body) => ask(wires, end, Actor::User(0), Event::Offer { body }),
        Err(_) => false,
    }
}

fn offers(alloc: Global, wires: &mut Wires, from: u16, to: u16) -> bool {
    for number in from..to {
        let a = offer(alloc, wires, End::A, number);
        let b = offer(alloc, wires, End::B, number);
        if !a || !b || !turns(wires, 50) {
            return false;
        }
    }
    true
}

fn cut(wires: &mut Wires, link: u8, times: u32) -> bool {
    for _ in 0..times {
        let ones = wires.damage(End::B, link, 0, 0xFF).is_ok();
        if !ones || !turns(wires, 1) {
            return false;
        }
    }
    true
}

fn is_up_at(wires: &Wires, end: End, link: u8) -> bool {
    let bench = wires.bench(end);
    link < bench.links() && bench.word(link) == LinkWord::Up
}

fn is_up(wires: &Wires, link: u8) -> bool {
    is_up_at(wires, End::A, link) && is_up_at(wires, End::B, link)
}

/// The number of the message that a user of this end takes next; none where none has come.
pub(crate) fn take(wires: &mut Wires, end: End) -> Option<u16> {
    match wires.ask(end, Actor::User(0), &Event::Take) {
        Ok(Answer::Taken { body }) => number_in(body.as_slice()),
        _ => None,
    }
}

fn number_in(octets: &[u8]) -> Option<u16> {
    let low = octets.get(5)?;
    let high = octets.get(6)?;
    Some(u16::from(*high) * 256 + u16::from(*low))
}

/// The users of this end take just the messages up to this number, each once, those of each stream in order.
pub(crate) fn takes_all(wires: &mut Wires, end: End, count: u16) -> bool {
    let mut next: [u16; 16] = [0, 1, 2, 3, 4, 5, 6, 7, 8, 9, 10, 11, 12, 13, 14, 15];
    for _ in 0..count {
        let Some(number) = take(wires, end) else {
            return false;
        };
        let stream = usize::from(number % 16);
        if next[stream] != number {
            return false;
        }
        next[stream] = number.wrapping_add(16);
    }
    take(wires, end).is_none()
}

/// All could be done at two new ends, and then the users of both take just so many messages.
pub(crate) fn all_come(alloc: Global, method: Method, deeds: &[Deed], count: u16) -> bool {
    match joined(alloc, method, LENGTHS) {
        Some(mut wires) => come(alloc, &mut wires, deeds, count),
        None => false,
    }
}

fn come(alloc: Global, wires: &mut Wires, deeds: &[Deed], count: u16) -> bool {
    if !all_done(alloc, wires, deeds) {
        return false;
    }
    let a = takes_all(wires, End::A, count);
    let b = takes_all(wires, End::B, count);
    a && b
}
