//! Seats at a set that no thread shares.
ghost use Rattle.std.specs.Prelude.{◌≡◌};
ghost use Rattle.set_ledger.specs.Totals.{AreParts};
ghost use Rattle.set_model.specs.State.{settings_of};

use super::openings::{MESSAGE, blanks_of, config_of, holds};
use set_events::{Actor, AnswerRef, Body, EventRef, Reply, SetConfig};
use set_ledger::{Blanks, Closed, Held, Opened, Opening, Seat, TermSeat, UserSeat, step_in};
use std::alloc::Global;
use std::marker::Brand;
use std::test::Fail;

/// The seat's offer of these octets is accepted under number 0.
fn is_accepted<O: Opening>(held: &mut Held<O>, seat: &mut UserSeat<O>, body: Body) -> bool {
    let _ = seat.number();
    let mut reply = Reply::new();
    match step_in(
        held,
        seat,
        &EventRef::Offer {
            body: body.octets(),
        },
        &mut reply,
    ) {
        Ok(()) => reply.get().same(&AnswerRef::Accepted { number: 0 }),
        Err(_) => false,
    }
}

/// User 0 offers a message: the receipt and the share tell it.
fn is_received<O: Opening>(alloc: Global, held: &mut Held<O>, seat: &mut UserSeat<O>) -> bool {
    let Ok(body) = Body::from_slice(alloc, &MESSAGE) else {
        return false;
    };
    let first = seat.actor() == Actor::User(0);
    let accepted = is_accepted(held, seat, body);
    first && accepted && seat.receipts().len() == 1 && seat.share().octets == 5
}

/// So does the first user.
fn first_is_received<O: Opening>(
    alloc: Global,
    held: &mut Held<O>,
    users: &mut [UserSeat<O>],
) -> bool {
    match users.first_mut() {
        Some(seat) => is_received(alloc, held, seat),
        None => false,
    }
}

/// A set that ends has this message alone.
fn is_one_message(closed: &Closed) -> bool {
    closed.books.messages == 1 && closed.books.octets == 5 && closed.history.len() == 1
}

/// Whether the set ends, with this message alone.
fn ends_well<O: Opening>(
    held: Held<O>,
    users: Vec<UserSeat<O>>,
    terminals: Vec<TermSeat<O>>,
) -> bool {
    match held.end(users, terminals).ok() {
        Some(closed) => is_one_message(&closed),
        None => false,
    }
}

/// One user offers one message: the receipt, the share and the end tell it.
fn one_message<O: Opening>(alloc: Global, config: &SetConfig, blanks: Blanks) -> Result<(), Fail>
    requires blanks { blanks ≡ O.blanks }
    requires parts { AreParts O.blanks 1 config.now.links }
    requires opening { settings_of config.now ≡ O.settings }
{
    let Ok(opened) = Held::<O>::open(alloc, config, 1, blanks) else {
        return Err(Fail::from("not opened"));
    };
    let Opened {
        mut held,
        mut users,
        terminals,
    } = opened;
    let received = first_is_received(alloc, &mut held, &mut users);
    let ended = ends_well(held, users, terminals);
    holds(received && ended)
}

#[test]
fn a_step_has_its_receipt(rt: HostRuntime) -> Result<(), Fail> {
    let config = config_of()?;
    one_message::<Brand>(rt.alloc(), &config, blanks_of(1))
}
