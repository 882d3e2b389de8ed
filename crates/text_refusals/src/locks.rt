//! A set that threads share: its opening, each call under its lock, and its end.
ghost use Rattle.std.specs.Prelude.{◌≡◌, IfSome};
ghost use Rattle.set_ledger.specs.Totals.{AreParts};
ghost use Rattle.set_model.specs.State.{settings_of};

use super::{Came, holds, is_right};
use set_events::{Answer, Event, EventRef, Method, Reply, SetConfig};
use set_shared::{
    Blanks, CreateFault, LinkSet, Opened, Opening, Seat, SeatShare, SetFault, TermSeat, UserSeat,
};
use std::alloc::Global;
use std::marker::Brand;
use std::sync::Wait;
use std::sync::ledger::Blank;
use std::test::Fail;

/// The octets of a message of stream 3.
const MESSAGE: [u8; 5] = [0x85, 1, 0x80, 0, 0x30];

/// A call under the lock.
#[derive(Clone, Copy)]
enum Call {
    Offer,
    Take,
    Find,
    Up,
    NextHeld,
    Checkpoint,
    ForgetUser,
    ForgetTerminal,
}

const CALLS: [Call; 8] = [
    Call::Offer,
    Call::Take,
    Call::Find,
    Call::Up,
    Call::NextHeld,
    Call::Checkpoint,
    Call::ForgetUser,
    Call::ForgetTerminal,
];

/// A set of one link.
fn config() -> Option<SetConfig>
    ensures { IfSome result (λ config. config.links ≡ 1) }
{
    SetConfig::new(0, 1, 2, 1, 0x80, Method::Basic).ok()
}

/// Blanks for one link and one user.
fn blanks() -> Blanks
    ensures calls { result.calls.parts ≡ 2 }
    ensures messages { result.messages.parts ≡ 1 }
    ensures octets { result.octets.parts ≡ 1 }
    ensures acknowledged { result.acknowledged.parts ≡ 1 }
    ensures full { result.full.parts ≡ 2 }
    ensures checkpoints { result.checkpoints.parts ≡ 2 }
{
    Blanks {
        calls: Blank::new(2),
        messages: Blank::new(1),
        octets: Blank::new(1),
        acknowledged: Blank::new(1),
        full: Blank::new(2),
        checkpoints: Blank::new(2),
    }
}

/// What the seats show: their shares, and how many receipts each has.
#[derive(Clone, Copy, PartialEq, Eq)]
struct Seen {
    user: SeatShare,
    terminal: SeatShare,
    receipts: (usize, usize),
}

fn seen_of<O: Opening>(user: &UserSeat<O>, terminal: &TermSeat<O>) -> Seen {
    Seen {
        user: user.share(),
        terminal: terminal.share(),
        receipts: (user.receipts().len(), terminal.receipts().len()),
    }
}

/// How many calls a seat forgot is no matter here.
fn is_told(calls: Result<u64, SetFault>) -> Result<(), SetFault> {
    calls?;
    Ok(())
}

fn is_done(answer: Result<Answer, SetFault>) -> Result<(), SetFault> {
    answer?;
    Ok(())
}

fn calls<O: Opening, R: Wait>(
    rt: &R,
    set: &LinkSet<O>,
    user: &mut UserSeat<O>,
    terminal: &mut TermSeat<O>,
    call: Call,
) -> Result<(), SetFault> {
    let link = terminal.link();
    match call {
        Call::Offer => is_done(set.offer(rt, user, &MESSAGE)),
        Call::Take => is_done(set.take(rt, user)),
        Call::Find => is_done(set.find(rt, user, 0)),
        Call::Up => is_done(set.term_step(rt, terminal, &Event::Up { link })),
        Call::NextHeld => {
            let mut reply = Reply::new();
            set.term_step_held(rt, terminal, &EventRef::Next { link }, &mut reply, || ())?;
            Ok(())
        }
        Call::Checkpoint => set.checkpoint(rt, user),
        Call::ForgetUser => is_told(set.forget(rt, user)),
        Call::ForgetTerminal => is_told(set.forget(rt, terminal)),
    }
}

/// The call is made, again where it was refused: the seats are then as they were.
fn goes<O: Opening, R: Wait>(
    rt: &R,
    set: &LinkSet<O>,
    user: &mut UserSeat<O>,
    terminal: &mut TermSeat<O>,
    call: Call,
) -> bool {
    let before = seen_of(user, terminal);
    match calls(rt, set, user, terminal, call) {
        Ok(()) => true,
        Err(SetFault::NoMemory) => {
            seen_of(user, terminal) == before && calls(rt, set, user, terminal, call).is_ok()
        }
        Err(_) => false,
    }
}

/// Three calls of the user, of which one brought a message of five octets, and two of the terminal; all are forgotten.
fn is_all(seen: Seen) -> bool {
    let user = seen.user.calls == 3 && seen.user.messages == 1 && seen.user.octets == 5;
    user && seen.terminal.calls == 2 && seen.receipts == (0, 0)
}

fn all_go<O: Opening, R: Wait>(
    rt: &R,
    set: &LinkSet<O>,
    users: &mut [UserSeat<O>],
    terminals: &mut [TermSeat<O>],
) -> bool {
    let (Some(user), Some(terminal)) = (users.first_mut(), terminals.first_mut()) else {
        return false;
    };
    for call in CALLS {
        if !goes(rt, set, user, terminal, call) {
            return false;
        }
    }
    is_all(seen_of(user, terminal))
}

fn came<O: Opening, R: Wait>(rt: &R, alloc: Global, config: &SetConfig, blanks: Blanks) -> Came
    requires blanks { blanks ≡ O.blanks }
    requires parts { AreParts O.blanks 1 config.now.links }
    requires opening { settings_of config.now ≡ O.settings }
{
    match LinkSet::<O>::create(alloc, config, 1, blanks) {
        Ok(opened) => went(rt, opened),
        Err(CreateFault::NoMemory) => Came::Refused,
        Err(_) => Came::Wrong,
    }
}

fn went<O: Opening, R: Wait>(rt: &R, opened: Opened<O>) -> Came {
    let Opened {
        set,
        mut users,
        mut terminals,
    } = opened;
    let goes = all_go(rt, &set, &mut users, &mut terminals);
    if goes && set.close(users, terminals).is_ok() {
        Came::Whole
    } else {
        Came::Wrong
    }
}

#[test]
fn a_refused_allocation_leaves_a_shared_set(rt: HostRuntime) -> Result<(), Fail> {
    let Some(config) = config() else {
        return Err(Fail::from("no set has these settings"));
    };
    let first = came::<Brand, HostRuntime>(&rt, rt.alloc(), &config, blanks());
    let second = came::<Brand, HostRuntime>(&rt, rt.alloc(), &config, blanks());
    holds(is_right(first, second))
}
