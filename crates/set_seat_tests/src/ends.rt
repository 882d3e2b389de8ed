//! How a set that threads share is opened, and how it ends.
ghost use Rattle.std.specs.Prelude.{◌≡◌, ◌<◌, ◌⊎◌};
ghost use Rattle.set_ledger.specs.Totals.{AreParts};
ghost use Rattle.set_model.specs.State.{settings_of};

use super::openings::{blanks_of, closed, config_of, holds, offers};
use set_events::{AnswerRef, EventRef, Reply, SetConfig};
use set_shared::{
    Back, Blanks, Closed, CreateFault, EndFault, LinkSet, Opened, Opening, Seat, TermSeat, UserSeat,
};
use std::alloc::Global;
use std::cell::Cell;
use std::marker::Brand;
use std::sync::Wait;
use std::test::Fail;

/// A terminal tells that its link is up, and what it was handed is called under the lock. No order came late.
fn rises<O: Opening, R: Wait>(rt: &R, set: &LinkSet<O>, seat: &mut TermSeat<O>) -> bool {
    let called = Cell::new(false);
    let event = EventRef::Up { link: seat.link() };
    let mut reply = Reply::new();
    match set.term_step_held(rt, seat, &event, &mut reply, || called.set(true)) {
        Ok(late) => late == 0 && called.get() && reply.get().same(&AnswerRef::Done),
        Err(_) => false,
    }
}

/// Whether a set ended, with two messages and five entries.
fn is_whole(closed: Option<Closed>) -> bool {
    match closed {
        Some(closed) => closed.books.messages == 2 && closed.history.len() == 5,
        None => false,
    }
}

/// The set is closed without one of its seats: it comes back with the others.
fn comes_back<O: Opening>(
    set: LinkSet<O>,
    users: Vec<UserSeat<O>>,
    terminals: Vec<TermSeat<O>>,
) -> Option<Back<O>> {
    match set.close(users, terminals).err()? {
        EndFault::Missing(back) => Some(back),
        EndFault::Strange(_) => None,
    }
}

/// With the seat that was kept beside the one that came back, the set ends.
fn ends_with<O: Opening>(back: Back<O>, kept: UserSeat<O>) -> bool {
    let Back {
        held,
        mut users,
        terminals,
    } = back;
    let came = users.len() == 1 && terminals.len() == 1;
    let whole = users.push(kept).is_ok();
    let ended = is_whole(closed(LinkSet::of(held), users, terminals));
    came && whole && ended
}

/// A seat is kept back: the set comes back with the others, and ends once all are there.
fn ends_once_complete<O: Opening>(
    set: LinkSet<O>,
    users: Vec<UserSeat<O>>,
    terminals: Vec<TermSeat<O>>,
) -> bool {
    let mut users = users;
    let Some(kept) = users.pop() else {
        return false;
    };
    match comes_back(set, users, terminals) {
        Some(back) => ends_with(back, kept),
        None => false,
    }
}

/// Each user offers a message and finds it, and each terminal tells that its link is up.
fn all_call<O: Opening, R: Wait>(
    rt: &R,
    set: &LinkSet<O>,
    users: &mut [UserSeat<O>],
    terminals: &mut [TermSeat<O>],
) -> bool {
    for seat in users.iter_mut() {
        if !offers(rt, set, seat) {
            return false;
        }
    }
    for seat in terminals.iter_mut() {
        if !rises(rt, set, seat) {
            return false;
        }
    }
    true
}

/// Two users and the terminal of one link, in one thread.
fn two_users<O: Opening, R: Wait>(
    rt: &R,
    alloc: Global,
    config: &SetConfig,
    blanks: Blanks,
) -> Result<(), Fail>
    requires blanks { blanks ≡ O.blanks }
    requires parts { AreParts O.blanks 2 config.now.links }
    requires opening { settings_of config.now ≡ O.settings }
{
    let Ok(opened) = LinkSet::<O>::create(alloc, config, 2, blanks) else {
        return Err(Fail::from("not opened"));
    };
    let Opened {
        set,
        mut users,
        mut terminals,
    } = opened;
    let called = all_call(rt, &set, &mut users, &mut terminals);
    let ended = ends_once_complete(set, users, terminals);
    holds(called && ended)
}

#[test]
fn a_set_ends_once_all_seats_are_back(rt: HostRuntime) -> Result<(), Fail> {
    let config = config_of()?;
    two_users::<Brand, HostRuntime>(&rt, rt.alloc(), &config, blanks_of(2))
}

/// A set isn't opened for so many users.
fn is_refused(alloc: Global, config: &SetConfig, users: u16) -> bool
    requires { (users ≡ 0) ⊎ (64 < users) }
{
    match LinkSet::<Brand>::create(alloc, config, users, blanks_of(1)) {
        Ok(_) => false,
        Err(fault) => fault == CreateFault::Users && fault.number() == 2,
    }
}

#[test]
fn a_set_has_1_to_64_users(rt: HostRuntime) -> Result<(), Fail> {
    let config = config_of()?;
    let none = is_refused(rt.alloc(), &config, 0);
    holds(none && is_refused(rt.alloc(), &config, 65))
}
