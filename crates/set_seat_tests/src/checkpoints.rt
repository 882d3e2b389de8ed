//! Checkpoints of a set that has seats. Values are worked out by hand.
ghost use Rattle.std.specs.Prelude.{◌≡◌};
ghost use Rattle.set_ledger.specs.Totals.{AreParts};
ghost use Rattle.set_model.specs.State.{settings_of};

use super::openings::{MESSAGE, blanks_of, closed, config_of, holds};
use l2_units::{Header, Unit};
use set_events::{Answer, Event, Refusal, SetConfig};
use set_shared::{Blanks, Closed, LinkSet, Opened, Opening, Seat, TermSeat, UserSeat};
use std::alloc::Global;
use std::marker::Brand;
use std::sync::Wait;
use std::test::Fail;

/// A user's message is accepted under this number.
pub(crate) fn accepts<O: Opening, R: Wait>(
    rt: &R,
    set: &LinkSet<O>,
    seat: &mut UserSeat<O>,
    number: u64,
) -> bool {
    match set.offer(rt, seat, &MESSAGE) {
        Ok(answer) => answer.same(&Answer::Accepted { number }),
        Err(_) => false,
    }
}

/// The message of this number is finished, and left the set.
fn is_finished<O: Opening, R: Wait>(
    rt: &R,
    set: &LinkSet<O>,
    seat: &mut UserSeat<O>,
    number: u64,
) -> bool {
    match set.find(rt, seat, number) {
        Ok(answer) => answer.same(&Answer::Refused {
            why: Refusal::Finished,
        }),
        Err(_) => false,
    }
}

/// The FISU that acknowledges the number 0.
fn acknowledging() -> Unit {
    let head = Header {
        bsn: 0,
        bib: true,
        fsn: 127,
        fib: true,
    };
    Unit::Fisu { head }
}

/// The link comes up, sends what waits, and hears that it arrived: three steps of its terminal.
pub(crate) fn sends_it<O: Opening, R: Wait>(
    rt: &R,
    set: &LinkSet<O>,
    seat: &mut TermSeat<O>,
) -> bool {
    let link = seat.link();
    let up = set.term_step(rt, seat, &Event::Up { link });
    let sent = set.term_step(rt, seat, &Event::Next { link });
    let unit = acknowledging();
    let heard = set.term_step(rt, seat, &Event::Heard { link, unit });
    up.is_ok() && matches!(sent, Ok(Answer::Sent { .. })) && heard.is_ok()
}

/// The history has the entry since the checkpoint, and the base the four before it.
fn is_since(closed: &Closed) -> bool {
    let base = &closed.base;
    closed.history.len() == 1
        && base.entries() == 4
        && base.finished().acked == 1
        && base.books().user_calls[0] == 1
        && base.books().term_calls[0] == 3
        && closed.books.user_calls[0] == 2
        && closed.books.messages == 1
        && closed.counts.acked == 1
}

fn ends_well(closed: Option<Closed>) -> bool {
    match closed {
        Some(closed) => is_since(&closed),
        None => false,
    }
}

/// What is asked for with one of each seat: whether it's answered so.
fn with_both<O: Opening, R: Wait>(
    rt: &R,
    set: &LinkSet<O>,
    users: &mut [UserSeat<O>],
    terminals: &mut [TermSeat<O>],
) -> bool {
    let (Some(user), Some(terminal)) = (users.first_mut(), terminals.first_mut()) else {
        return false;
    };
    accepts(rt, set, user, 0)
        && sends_it(rt, set, terminal)
        && set.checkpoint(rt, terminal).is_ok()
        && is_finished(rt, set, user, 0)
        && user.receipts().len() == 2
        && terminal.receipts().len() == 3
}

/// One user and the terminal of one link, and a checkpoint between the user's calls.
fn one_of_each<O: Opening, R: Wait>(
    rt: &R,
    alloc: Global,
    config: &SetConfig,
    blanks: Blanks,
) -> Result<(), Fail>
    requires blanks { blanks ≡ O.blanks }
    requires parts { AreParts O.blanks 1 config.now.links }
    requires opening { settings_of config.now ≡ O.settings }
{
    let Ok(opened) = LinkSet::<O>::create(alloc, config, 1, blanks) else {
        return Err(Fail::from("not opened"));
    };
    let Opened {
        set,
        mut users,
        mut terminals,
    } = opened;
    let went = with_both(rt, &set, &mut users, &mut terminals);
    holds(went && ends_well(closed(set, users, terminals)))
}

#[test]
fn receipts_end_with_the_entries_since_a_checkpoint(rt: HostRuntime) -> Result<(), Fail> {
    let config = config_of()?;
    one_of_each::<Brand, HostRuntime>(&rt, rt.alloc(), &config, blanks_of(1))
}
