//! Whether all seats of a set are there, and whether their receipts end with its history.
ghost use Rattle.std.specs.Prelude.{◌≡◌, ◌↔◌, IsTrue, All, drop};
ghost use Rattle.set_events.specs.declared.event.Actor.TheVariants.{User, Terminal};
ghost use Rattle.set_ledger.specs.Ending.{has_seat, are_seats, calls_at, IsFaithful};

use super::opening::Opening;
use super::places::{are_all, no_places, put};
use super::seat::{Seat, TermSeat, UserSeat};
use set_events::{Actor, Books};
use set_history::Reader;

/// Whether these are one seat for each of so many users, and no other.
pub(crate) fn are_users<O: Opening>(seats: &[UserSeat<O>], users: u16) -> bool
    ensures { result ≡ are_seats (λ seat. seat) User users seats.now }
{
    if seats.len() != usize::from(users) {
        return false;
    }
    let mut all = true;
    for number in 0..users {
        all = all && has_seat_of::<O, UserSeat<O>>(seats, Actor::User(number));
    }
    all
}

/// Whether these are one seat for the terminal of each of so many links, and no other.
pub(crate) fn are_terminals<O: Opening>(seats: &[TermSeat<O>], links: u8) -> bool
    ensures { result ≡ are_seats (λ seat. seat) Terminal links seats.now }
{
    if seats.len() != usize::from(links) {
        return false;
    }
    let mut all = true;
    for link in 0..links {
        all = all && has_seat_of::<O, TermSeat<O>>(seats, Actor::Terminal(link));
    }
    all
}

/// Whether one of these seats is this actor's.
fn has_seat_of<O: Opening, S: Seat<O>>(seats: &[S], who: Actor) -> bool
    ensures { result ≡ has_seat S.state who seats.now }
{
    for seat in seats {
        if who.same(seat.actor()) {
            return true;
        }
    }
    false
}

/// Whether the receipts of each of these seats end with its entries of the history since a base, in order, and those
/// before them are, with what it forgot, as many as the base's books say. The history is read once for all seats that
/// have places of their own, as the seats of a set have; it takes no memory.
pub(crate) fn are_faithful<O: Opening, S: Seat<O>>(
    books: &Books,
    history: &Reader<'_>,
    seats: &[S],
) -> bool
    ensures { IsTrue result ↔ All (λ seat. IsFaithful books.now history.now (S.state seat)) seats.now }
{
    let mut left = seats;
    while !left.is_empty() {
        let mut places = no_places();
        let Some(many) = put::<O, S>(books, left, &mut places) else {
            return false;
        };
        if !are_all(history.again(), &mut places) {
            return false;
        }
        left = &left[many..];
    }
    true
}

/// How many calls of this actor the books count.
pub(crate) fn count_calls(books: &Books, who: Actor) -> u64
    ensures { result ≡ calls_at who books.now }
{
    let calls = match who {
        Actor::User(number) => books.user_calls.get(usize::from(number)),
        Actor::Terminal(link) => books.term_calls.get(usize::from(link)),
    };
    match calls {
        Some(calls) => *calls,
        None => 0,
    }
}

/// Reads past so many entries, or all, where there are fewer.
pub(crate) fn skip(entries: &mut Reader<'_>, many: u64)
    ensures { entries.new ≡ drop many entries.old }
{
    for _entry in 0..many {
        if entries.len() == 0 {
            return;
        }
        let _ = entries.next();
    }
}
