//! Users and a terminal in threads of their own.
ghost use Rattle.std.specs.Prelude.{◌≡◌};
ghost use Rattle.set_ledger.specs.Totals.{AreParts};
ghost use Rattle.set_model.specs.State.{settings_of};

use super::openings::{blanks_of, closed, config_of, holds, offers};
use set_events::{Answer, Event, Refusal, SetConfig};
use set_shared::{Blanks, Closed, LinkSet, Opened, Opening, TermSeat, UserSeat};
use std::alloc::Global;
use std::marker::Brand;
use std::sync::Wait;
use std::test::Fail;
use std::thread;
use std::thread::{JoinHandle, Threads};

/// A user offers a body of 274 octets, one more than a message has: it's refused, whatever room an entry has for it.
fn refuses_a_long_one<O: Opening, R: Wait>(
    rt: &R,
    set: &LinkSet<O>,
    seat: &mut UserSeat<O>,
) -> bool {
    match set.offer(rt, seat, &[0x85; 274]) {
        Ok(Answer::Refused { why }) => why == Refusal::TooLong,
        _ => false,
    }
}

/// A user offers a hundred messages, and finds each one as soon as it was accepted.
fn offers_hundred<O: Opening, R: Wait>(rt: &R, set: &LinkSet<O>, seat: &mut UserSeat<O>) -> bool {
    for _message in 0..100u8 {
        if !offers(rt, set, seat) {
            return false;
        }
    }
    true
}

/// The same by a user's own seat, which offers one that is too long first. Where an answer is another: `None`.
fn offers_all<O: Opening, R: Wait>(
    rt: &R,
    set: &LinkSet<O>,
    seat: UserSeat<O>,
) -> Option<UserSeat<O>> {
    let mut seat = seat;
    if refuses_a_long_one(rt, set, &mut seat) && offers_hundred(rt, set, &mut seat) {
        Some(seat)
    } else {
        None
    }
}

/// Whether a terminal is told what is to be sent.
fn asks<O: Opening, R: Wait>(rt: &R, set: &LinkSet<O>, seat: &mut TermSeat<O>) -> bool {
    let event = Event::Next { link: seat.link() };
    matches!(set.term_step(rt, seat, &event), Ok(Answer::Sent { .. }))
}

/// A terminal brings its link up.
fn rises<O: Opening, R: Wait>(rt: &R, set: &LinkSet<O>, seat: &mut TermSeat<O>) -> bool {
    let event = Event::Up { link: seat.link() };
    matches!(set.term_step(rt, seat, &event), Ok(Answer::Done))
}

/// A terminal asks 400 times for what is to be sent, and is told each time.
fn asks_often<O: Opening, R: Wait>(rt: &R, set: &LinkSet<O>, seat: &mut TermSeat<O>) -> bool {
    for _turn in 0..400u16 {
        if !asks(rt, set, seat) {
            return false;
        }
    }
    true
}

/// A terminal brings its link up, and sends. Where it isn't told what: `None`.
fn sends_all<O: Opening, R: Wait>(
    rt: &R,
    set: &LinkSet<O>,
    seat: TermSeat<O>,
) -> Option<TermSeat<O>> {
    let mut seat = seat;
    if rises(rt, set, &mut seat) && asks_often(rt, set, &mut seat) {
        Some(seat)
    } else {
        None
    }
}

/// Joins all of these threads; what they hand out, in order. A thread that hands out nothing was refused.
fn all_of<T: Drop, R: Threads + Wait>(
    rt: &R,
    alloc: Global,
    threads: Vec<JoinHandle<Option<T>>>,
) -> Vec<T> {
    let mut all = Vec::new(alloc);
    for started in threads {
        if let Some(seat) = started.join(rt) {
            let _ = all.push(seat);
        }
    }
    all
}

/// Each seat in a thread of its own; those that come back. One that finds no thread or no memory doesn't.
fn run<O: Opening + Send + Sync, R: Threads + Wait + Sync>(
    rt: &R,
    alloc: Global,
    set: &LinkSet<O>,
    users: Vec<UserSeat<O>>,
    terminals: Vec<TermSeat<O>>,
) -> (Vec<UserSeat<O>>, Vec<TermSeat<O>>) {
    thread::scope(
        thread::scope_env(),
        rt,
        |scope| -> (Vec<UserSeat<O>>, Vec<TermSeat<O>>) {
            let mut user_threads = Vec::new(alloc);
            for seat in users {
                if let Ok(started) = scope.spawn(move || offers_all(rt, set, seat)) {
                    let _ = user_threads.push(started);
                }
            }
            let mut term_threads = Vec::new(alloc);
            for seat in terminals {
                if let Ok(started) = scope.spawn(move || sends_all(rt, set, seat)) {
                    let _ = term_threads.push(started);
                }
            }
            let users = all_of(rt, alloc, user_threads);
            (users, all_of(rt, alloc, term_threads))
        },
    )
}

/// What a set of four users came to.
fn adds_up(closed: &Closed) -> bool {
    let counts = closed.counts;
    let sendable = counts.waiting.saturating_add(counts.parked);
    sendable.saturating_add(counts.unacked) == 400
        && counts.unacked <= 127
        && closed.books.messages == 400
        && closed.books.octets == 2000
        && closed.history.len() == 1205
        && closed.base.entries() == 0
        && closed.base.books().messages == 0
}

fn ends_well(closed: Option<Closed>) -> bool {
    match closed {
        Some(closed) => adds_up(&closed),
        None => false,
    }
}

/// Four users beside the terminal of one link.
fn four_users<O: Opening + Send + Sync, R: Threads + Wait + Sync>(
    rt: &R,
    alloc: Global,
    config: &SetConfig,
    blanks: Blanks,
) -> Result<(), Fail>
    requires blanks { blanks ≡ O.blanks }
    requires parts { AreParts O.blanks 4 config.now.links }
    requires opening { settings_of config.now ≡ O.settings }
{
    let Ok(opened) = LinkSet::<O>::create(alloc, config, 4, blanks) else {
        return Err(Fail::from("not opened"));
    };
    let Opened {
        set,
        users,
        terminals,
    } = opened;
    let (users, terminals) = run(rt, alloc, &set, users, terminals);
    holds(ends_well(closed(set, users, terminals)))
}

#[test]
fn four_users_beside_a_terminal(rt: HostRuntime) -> Result<(), Fail> {
    let config = config_of()?;
    four_users::<Brand, HostRuntime>(&rt, rt.alloc(), &config, blanks_of(4))
}
