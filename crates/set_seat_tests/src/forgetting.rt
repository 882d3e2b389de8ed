//! A seat that forgets its receipts before a checkpoint. Values are worked out by hand.
ghost use Rattle.std.specs.Prelude.{◌≡◌};
ghost use Rattle.set_ledger.specs.Totals.{AreParts};
ghost use Rattle.set_model.specs.State.{settings_of};

use super::checkpoints::accepts;
use super::openings::{blanks_of, closed, config_of, holds};
use set_events::SetConfig;
use set_shared::{Blanks, Closed, Forgotten, LinkSet, Opened, Opening, Seat, SeatShare, UserSeat};
use std::alloc::Global;
use std::marker::Brand;
use std::sync::Wait;
use std::test::Fail;

/// The seat has so many receipts, and forgot those of so many offers of five octets each.
fn has<O: Opening>(seat: &UserSeat<O>, receipts: usize, forgotten: u64) -> bool {
    let are = Forgotten {
        calls: forgotten,
        messages: forgotten,
        octets: forgotten.saturating_mul(5),
    };
    seat.receipts().len() == receipts && seat.forgotten() == are
}

/// The seat's share is that of so many offers.
fn has_share<O: Opening>(seat: &UserSeat<O>, offers: u64) -> bool {
    let share = SeatShare {
        calls: offers,
        messages: offers,
        octets: offers.saturating_mul(5),
        acknowledged: 0,
    };
    seat.share() == share
}

/// A message is accepted under this number, which is kept; behind a checkpoint it's forgotten, and the share stays.
fn forgets_behind_a_checkpoint<O: Opening, R: Wait>(
    rt: &R,
    set: &LinkSet<O>,
    seat: &mut UserSeat<O>,
    number: u64,
) -> bool {
    let offers = number.saturating_add(1);
    accepts(rt, set, seat, number)
        && set.forget(rt, seat) == Ok(number)
        && has(seat, 1, number)
        && set.checkpoint(rt, seat).is_ok()
        && has(seat, 1, number)
        && set.forget(rt, seat) == Ok(offers)
        && has(seat, 0, offers)
        && has_share(seat, offers)
}

/// So over three checkpoints, and what comes behind the last one is kept.
fn over_three_checkpoints<O: Opening, R: Wait>(
    rt: &R,
    set: &LinkSet<O>,
    users: &mut [UserSeat<O>],
) -> bool {
    let Some(seat) = users.first_mut() else {
        return false;
    };
    for number in 0..3u64 {
        if !forgets_behind_a_checkpoint(rt, set, seat, number) {
            return false;
        }
    }
    accepts(rt, set, seat, 3) && set.forget(rt, seat) == Ok(3) && has(seat, 1, 3)
}

/// The base has three entries, and the history the fourth.
fn ends_well(closed: Option<Closed>) -> bool {
    match closed {
        Some(closed) => {
            closed.base.entries() == 3
                && closed.history.len() == 1
                && closed.books.user_calls[0] == 4
                && closed.books.messages == 4
        }
        None => false,
    }
}

/// One user, and a link whose terminal asks nothing.
fn one_user<O: Opening, R: Wait>(
    rt: &R,
    alloc: Global,
    config: &SetConfig,
    blanks: Blanks,
) -> Result<(), Fail>
    requires blanks { blanks ≡ O.blanks }
    requires parts { AreParts O.blanks 1 config.now.links }
    requires opening { settings_of config.now ≡ O.settings }
{
    let Ok(opened) = LinkSet::<O>::create(alloc, config, 1, blanks) else {
        return Err(Fail::from("not opened"));
    };
    let Opened {
        set,
        mut users,
        terminals,
    } = opened;
    let went = over_three_checkpoints(rt, &set, &mut users);
    holds(went && ends_well(closed(set, users, terminals)))
}

#[test]
fn a_seat_forgets_what_lies_before_a_checkpoint(rt: HostRuntime) -> Result<(), Fail> {
    let config = config_of()?;
    one_user::<Brand, HostRuntime>(&rt, rt.alloc(), &config, blanks_of(1))
}
