//! A place for the receipts of each seat, so that a history is read once for all of them.
ghost use Rattle.std.specs.Prelude.{◌≡◌, ◌<◌, ◌∷◌, ◌↔◌, [], length, IsTrue, MatchOption, All, List, Some};
ghost use Rattle.set_events.specs.declared.history.Entry.{Entry as SetEntry};
ghost use Rattle.set_ledger.specs.Ending.{IsFaithful};
ghost use Rattle.set_ledger.specs.Places.{
  place_of as actor_place,
  AreAt,
  AreEmpty,
  AreLeft,
  ArePut,
  IsLeft,
  IsNot,
  IsNever,
  IsOwn,
};

use super::checking::{count_calls, skip};
use super::opening::Opening;
use super::seat::Seat;
use set_events::{Actor, Books};
use set_history::{EntryRef, Reader};

/// The receipts of a seat that are not yet held against the history.
#[derive(Drop)]
pub(crate) struct Own<'a> {
    who: Actor,
    receipts: Reader<'a>,
}

/// A place for each of 64 users and 16 terminals, with nothing in it.
pub(crate) fn no_places<'a>() -> [Option<Own<'a>>; 80]
    ensures { AreEmpty result }
{
    Default::default()
}

/// The place of this actor's receipts.
fn place_of(who: Actor) -> usize
    ensures value { result ≡ actor_place who }
    ensures below { result < 80 }
{
    match who {
        Actor::User(number) => usize::from(number % 64),
        Actor::Terminal(link) => 64 + usize::from(link % 16),
    }
}

/// Puts the receipts of seats since a base with these books in their places, up to the first seat whose place is taken;
/// how many seats that were. `None` where one's receipts end with no history.
pub(crate) fn put<'a, O: Opening, S: Seat<O>>(
    books: &Books,
    seats: &'a [S],
    places: &mut [Option<Own<'a>>; 80],
) -> Option<usize>
    requires empty { AreEmpty places.old }
    ensures { MatchOption result
        ((history : List SetEntry) → All (λ seat. IsFaithful books.now history (S.state seat)) seats.now → ⊥)
        (λ many. ArePut S.state books.now seats.now many places.new) }
{
    let mut many = 0;
    for seat in seats {
        let place = place_of(seat.actor());
        if places[place].is_some() {
            return Some(many);
        }
        places[place] = Some(own_of::<O, S>(books, seat)?);
        many += 1;
    }
    Some(seats.len())
}

/// A seat's receipts since a base with these books. `None` where there are fewer than it says that it had before, or it
/// forgot more than those.
fn own_of<'a, O: Opening, S: Seat<O>>(books: &Books, seat: &'a S) -> Option<Own<'a>>
    ensures { MatchOption result (IsNever books.now (S.state seat.now)) (IsOwn books.now (S.state seat.now)) }
{
    let who = seat.actor();
    let calls = count_calls(books, who);
    let forgotten = seat.forgotten().calls;
    if calls < forgotten {
        return None;
    }
    let before = calls - forgotten;
    let mut receipts = seat.receipts();
    if before > receipts.len() as u64 {
        return None;
    }
    skip(&mut receipts, before);
    Some(Own { who, receipts })
}

/// Whether the receipts in each place are the entries that their actor has in the history, in order.
pub(crate) fn are_all(history: Reader<'_>, places: &mut [Option<Own<'_>>; 80]) -> bool
    requires { AreAt places.old }
    ensures { IsTrue result ↔ AreLeft places.old history.entry }
{
    let mut left = history;
    while let Some(entry) = left.next() {
        if !hear(places, &entry) {
            return false;
        }
    }
    are_read(places)
}

/// Whether this entry is nobody's who has a place, or the next of its actor's receipts. That one is read then.
fn hear(places: &mut [Option<Own<'_>>; 80], entry: &EntryRef<'_>) -> bool
    requires { AreAt places.old }
    ensures heard { IsTrue result
        → (left : List SetEntry) → AreLeft places.old (entry.now ∷ left) ↔ AreLeft places.new left }
    ensures other { (left : List SetEntry) → AreLeft places.old (entry.now ∷ left) → IsTrue result }
    ensures at { AreAt places.new }
{
    let who = entry.who();
    let place = place_of(who);
    let Some(mut receipts) = receipts_at(&places[place], who) else {
        return true;
    };
    if !is_next(&mut receipts, entry) {
        return false;
    }
    places[place] = Some(Own { who, receipts });
    true
}

/// The receipts in this place, if they are this actor's.
fn receipts_at<'a>(place: &Option<Own<'a>>, who: Actor) -> Option<Reader<'a>>
    ensures { MatchOption result (IsNot who place.now)
        (λ receipts. place.now ≡ Some (record { who = who; receipts = receipts })) }
{
    match place {
        Some(own) if own.who.same(who) => Some(own.receipts.again()),
        _ => None,
    }
}

/// Whether no receipt is left in these places.
fn are_read(places: &[Option<Own<'_>>; 80]) -> bool
    requires { length places.now ≡ 80 }
    ensures { IsTrue result ↔ AreLeft places.now [] }
{
    for place in places {
        if !is_read(place) {
            return false;
        }
    }
    true
}

/// Whether no receipt is left in this place.
fn is_read(place: &Option<Own<'_>>) -> bool
    ensures { IsTrue result ↔ IsLeft place.now [] }
{
    match place {
        Some(own) => own.receipts.len() == 0,
        None => true,
    }
}

/// Whether the next receipt is of this entry. It's read then.
fn is_next(receipts: &mut Reader<'_>, entry: &EntryRef<'_>) -> bool
    ensures next { IsTrue result → receipts.old ≡ entry.now ∷ receipts.new }
    ensures other { (rest : _) → receipts.old ≡ entry.now ∷ rest → IsTrue result }
{
    match receipts.next() {
        Some(receipt) => receipt.same(entry),
        None => false,
    }
}
