//! What a seat sees of its set. Values are worked out by hand.
ghost use Rattle.std.specs.Prelude.{◌≡◌};
ghost use Rattle.set_ledger.specs.Totals.{AreParts};
ghost use Rattle.set_model.specs.State.{settings_of};

use super::checkpoints::{accepts, sends_it};
use super::openings::{blanks_of, closed, config_of, holds};
use set_events::{Counts, Event, SetConfig};
use set_shared::{Blanks, Closed, LinkNow, LinkSet, Opened, Opening, Seat, TermSeat, UserSeat};
use std::alloc::Global;
use std::marker::Brand;
use std::sync::Wait;
use std::test::Fail;

/// Nothing was offered.
const NONE: Counts = Counts {
    waiting: 0,
    unacked: 0,
    acked: 0,
    held: 0,
    parked: 0,
    back: 0,
    discarded: 0,
};

/// A link that no order came late about.
const fn stands(settled: bool, counts: Counts) -> LinkNow {
    LinkNow {
        counts,
        settled,
        late: 0,
    }
}

/// The link fails.
fn leaves<O: Opening, R: Wait>(rt: &R, set: &LinkSet<O>, seat: &mut TermSeat<O>) -> bool {
    let link = seat.link();
    set.term_step(rt, seat, &Event::Down { link }).is_ok()
}

/// A link that never was up is settled, and a message is parked; up it isn't, and the message is acknowledged there; left it
/// isn't either. The set has no link 1.
fn looks<O: Opening, R: Wait>(
    rt: &R,
    set: &LinkSet<O>,
    user: &mut UserSeat<O>,
    terminal: &mut TermSeat<O>,
) -> bool {
    let parked = Counts { parked: 1, ..NONE };
    let acked = Counts { acked: 1, ..NONE };
    set.look(rt, user, 0) == stands(true, NONE)
        && accepts(rt, set, user, 0)
        && set.look(rt, user, 0) == stands(true, parked)
        && sends_it(rt, set, terminal)
        && set.look(rt, terminal, 0) == stands(false, acked)
        && leaves(rt, set, terminal)
        && set.look(rt, terminal, 0) == stands(false, acked)
        && set.look(rt, user, 1) == stands(false, acked)
}

/// Neither a look nor a seat that forgets takes a checkpoint: the history has all five entries, and no receipt is gone.
fn ends_whole(closed: Option<Closed>) -> bool {
    match closed {
        Some(closed) => closed.base.entries() == 0 && closed.history.len() == 5,
        None => false,
    }
}

fn with_both<O: Opening, R: Wait>(
    rt: &R,
    set: &LinkSet<O>,
    users: &mut [UserSeat<O>],
    terminals: &mut [TermSeat<O>],
) -> bool {
    let (Some(user), Some(terminal)) = (users.first_mut(), terminals.first_mut()) else {
        return false;
    };
    looks(rt, set, user, terminal)
        && set.forget(rt, user) == Ok(0)
        && set.forget(rt, terminal) == Ok(0)
        && user.receipts().len() == 1
        && terminal.receipts().len() == 4
}

/// One user and the terminal of one link.
fn one_of_both<O: Opening, R: Wait>(
    rt: &R,
    alloc: Global,
    config: &SetConfig,
    blanks: Blanks,
) -> Result<(), Fail>
    requires blanks { blanks ≡ O.blanks }
    requires parts { AreParts O.blanks 1 config.now.links }
    requires opening { settings_of config.now ≡ O.settings }
{
    let Ok(opened) = LinkSet::<O>::create(alloc, config, 1, blanks) else {
        return Err(Fail::from("not opened"));
    };
    let Opened {
        set,
        mut users,
        mut terminals,
    } = opened;
    let went = with_both(rt, &set, &mut users, &mut terminals);
    holds(went && ends_whole(closed(set, users, terminals)))
}

#[test]
fn a_seat_sees_how_a_link_stands_and_what_it_brought(rt: HostRuntime) -> Result<(), Fail> {
    let config = config_of()?;
    one_of_both::<Brand, HostRuntime>(&rt, rt.alloc(), &config, blanks_of(1))
}
