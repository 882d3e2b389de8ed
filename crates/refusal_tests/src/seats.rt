//! A set with seats: its opening, each step of a seat, a checkpoint, and what a seat forgets then.
ghost use Rattle.std.specs.Prelude.{◌≡◌, IsTrue};
ghost use Rattle.set_events.specs.Owners.{IsOwn};
ghost use Rattle.set_ledger.specs.Totals.{AreParts};
ghost use Rattle.set_model.specs.History.{IsActor};
ghost use Rattle.set_model.specs.State.{settings_of};

use super::script::{Ask, SCRIPT, config, who_of};
use super::sets::{answered, are_alike, bases, made, opened};
use super::{MOST_GROWTHS, TRIES, holds, holds_of};
use set_core::{SetCore, SetFault};
use set_events::{Actor, Event, EventRef, Reply, SetConfig};
use set_ledger::{
    Blanks, CreateFault, Held, Opened, Opening, Seat, TermSeat, UserSeat, forget, step_in,
};
use std::alloc::{Allocator, Global};
use std::marker::Brand;
use std::sync::ledger::Blank;
use std::test::Fail;
use test_refusing::Refusing;

/// Blanks for a set of two links and one user.
fn blanks() -> Blanks
    ensures calls { result.calls.parts ≡ 3 }
    ensures messages { result.messages.parts ≡ 1 }
    ensures octets { result.octets.parts ≡ 1 }
    ensures acknowledged { result.acknowledged.parts ≡ 2 }
    ensures full { result.full.parts ≡ 3 }
    ensures checkpoints { result.checkpoints.parts ≡ 3 }
{
    Blanks {
        calls: Blank::new(3),
        messages: Blank::new(1),
        octets: Blank::new(1),
        acknowledged: Blank::new(2),
        full: Blank::new(3),
        checkpoints: Blank::new(3),
    }
}

/// What a try came to.
#[derive(Clone, Copy, Debug, PartialEq, Eq)]
enum Try {
    /// All went as it should.
    Right,
    /// Memory was refused where the set was opened, and nothing is left of it.
    Refused,
    Wrong,
}

/// A set is opened, and its whole script asked of its seats: each growth of both refused in turn.
#[test]
fn a_refused_growth_leaves_a_seat(rt: HostRuntime) -> Result<(), Fail> {
    holds(each_growth_is_refused(rt.alloc()))
}

fn each_growth_is_refused(alloc: Global) -> bool {
    for number in 1..=MOST_GROWTHS {
        let refusing = Refusing::new(alloc, number);
        if !is_right(&refusing, alloc) || refusing.blocks() != 0 {
            return false;
        }
        if !refusing.refuses_no_more() {
            // the room for seats, what the set opens with, and for each entry the history and a receipt
            return number > 14;
        }
    }
    false
}

fn is_right(refusing: &Refusing<Global>, alloc: Global) -> bool {
    holds_of(opened(alloc), |twin| is_right_beside(refusing, alloc, twin))
}

/// The set is opened, again where it was refused, and then asked.
fn is_right_beside(refusing: &Refusing<Global>, alloc: Global, twin: &mut SetCore) -> bool {
    let Some(config) = config() else {
        return false;
    };
    for _ in 0..TRIES {
        match goes::<Brand>(refusing, alloc, &config, blanks(), twin) {
            Try::Right => return true,
            Try::Refused => {}
            Try::Wrong => return false,
        }
    }
    false
}

fn goes<O: Opening>(
    refusing: &Refusing<Global>,
    alloc: Global,
    config: &SetConfig,
    blanks: Blanks,
    twin: &mut SetCore,
) -> Try
    requires blanks { blanks ≡ O.blanks }
    requires parts { AreParts O.blanks 1 config.now.links }
    requires opening { settings_of config.now ≡ O.settings }
{
    match Held::<O, &Refusing<Global>>::open(refusing, config, 1, blanks) {
        Ok(opened) => told(holds_of(Some(opened), |opened| is_asked(alloc, opened, twin))),
        Err(CreateFault::NoMemory) if refusing.blocks() == 0 => Try::Refused,
        Err(_) => Try::Wrong,
    }
}

fn told(is_right: bool) -> Try {
    if is_right { Try::Right } else { Try::Wrong }
}

/// The seats make their steps, and forget them once a checkpoint was made.
fn is_asked<O: Opening, G: Allocator + Copy>(
    alloc: Global,
    opened: &mut Opened<O, G>,
    twin: &mut SetCore,
) -> bool {
    let Opened {
        held,
        users,
        terminals,
    } = opened;
    for ask in SCRIPT {
        if !goes_alike(alloc, held, users, terminals, twin, ask) {
            return false;
        }
    }
    let Some(first) = users.first_mut() else {
        return false;
    };
    is_based(held, first, twin) && all_forget(held, users, terminals)
}

/// The seat whose the event is makes the step, and the twin answers the same.
fn goes_alike<O: Opening, G: Allocator + Copy>(
    alloc: Global,
    held: &mut Held<O, G>,
    users: &mut [UserSeat<O, G>],
    terminals: &mut [TermSeat<O, G>],
    twin: &mut SetCore,
    ask: Ask,
) -> bool {
    let Some(event) = made(alloc, ask) else {
        return false;
    };
    let mut reply = Reply::new();
    let who = who_of(ask);
    let goes = match who {
        Actor::User(number) => match users.get_mut(usize::from(number)) {
            Some(seat) => steps(held, seat, twin, &event, &mut reply),
            None => false,
        },
        Actor::Terminal(link) => match terminals.get_mut(usize::from(link)) {
            Some(seat) => steps(held, seat, twin, &event, &mut reply),
            None => false,
        },
    };
    goes && answers(twin, who, &event, &reply) && are_held_alike(held, twin)
}

/// The twin gives this answer.
fn answers(twin: &mut SetCore, who: Actor, event: &Event, reply: &Reply) -> bool
    requires { IsActor who }
{
    let mut other = Reply::new();
    answered(twin, who, &EventRef::of(event), &mut other) && reply.get().same(&other.get())
}

/// The seat makes the step, and has a receipt more; while that is refused, the set is as its twin, of which nothing was
/// asked yet, and the seat as it was.
fn steps<O: Opening, G: Allocator + Copy, S: Seat<O>>(
    held: &mut Held<O, G>,
    seat: &mut S,
    twin: &SetCore,
    event: &Event,
    reply: &mut Reply,
) -> bool {
    let (share, receipts) = (seat.share(), seat.receipts().len());
    for _ in 0..TRIES {
        if !is_own(seat.actor(), event) {
            return false;
        }
        match step_in(held, seat, &EventRef::of(event), reply) {
            Ok(()) => return seat.receipts().len() == receipts.saturating_add(1),
            Err(SetFault::NoMemory) => {
                let stays = seat.share() == share && seat.receipts().len() == receipts;
                if !(stays && are_held_alike(held, twin)) {
                    return false;
                }
            }
            Err(_) => return false,
        }
    }
    false
}

/// Whether this actor asks so.
fn is_own(who: Actor, event: &Event) -> bool
    ensures { IsTrue result → IsOwn who event.now }
{
    match (who, event) {
        (Actor::User(_), Event::Offer { .. } | Event::Take | Event::Find { .. }) => true,
        (
            Actor::Terminal(number),
            Event::Next { link }
            | Event::Heard { link, .. }
            | Event::Up { link }
            | Event::Down { link }
            | Event::DownBlind { link }
            | Event::NoAnswer { link }
            | Event::Restore { link }
            | Event::Redeclare { link }
            | Event::BackTimeout { link },
        ) => *link == number,
        _ => false,
    }
}

/// All readers of the set tell what its twin's do, and the ledgers' books say the same.
fn are_held_alike<O: Opening, G: Allocator + Copy>(held: &Held<O, G>, twin: &SetCore) -> bool {
    let (totals, books) = (held.totals(), twin.books());
    are_alike(held.core(), twin)
        && held.users() == 1
        && held.links() == 2
        && totals.calls == twin.entries()
        && totals.messages == books.messages
        && totals.octets == books.octets
        && totals.acknowledged == books.acknowledged
}

/// Both make what they hold their base; while that is refused, the set is as its twin.
fn is_based<O: Opening, G: Allocator + Copy>(
    held: &mut Held<O, G>,
    seat: &mut UserSeat<O, G>,
    twin: &mut SetCore,
) -> bool {
    makes_base(held, seat, twin) && bases(twin) && are_held_alike(held, twin)
}

fn makes_base<O: Opening, G: Allocator + Copy>(
    held: &mut Held<O, G>,
    seat: &mut UserSeat<O, G>,
    twin: &SetCore,
) -> bool {
    for _ in 0..TRIES {
        match held.checkpoint(seat) {
            Ok(()) => return true,
            Err(SetFault::NoMemory) if are_held_alike(held, twin) => {}
            Err(_) => return false,
        }
    }
    false
}

fn all_forget<O: Opening, G: Allocator + Copy>(
    held: &Held<O, G>,
    users: &mut [UserSeat<O, G>],
    terminals: &mut [TermSeat<O, G>],
) -> bool {
    for seat in users.iter_mut() {
        if !forgets(held, seat) {
            return false;
        }
    }
    for seat in terminals.iter_mut() {
        if !forgets(held, seat) {
            return false;
        }
    }
    true
}

/// The seat forgets all its receipts, and nothing of its share; while that is refused, it is as it was.
fn forgets<O: Opening, G: Allocator + Copy, S: Seat<O>>(held: &Held<O, G>, seat: &mut S) -> bool {
    let (share, receipts) = (seat.share(), seat.receipts().len());
    for _ in 0..TRIES {
        match forget(held, seat) {
            Ok(calls) => {
                let gone = seat.receipts().len() == 0 && seat.forgotten().calls == receipts as u64;
                return gone && calls == receipts as u64 && seat.share() == share;
            }
            Err(_) => {
                if seat.share() != share || seat.receipts().len() != receipts {
                    return false;
                }
            }
        }
    }
    false
}
