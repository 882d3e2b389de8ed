//! What a seat forgets: receipts that lie in its set's base, where nobody holds them against the history any more.
ghost use Rattle.std.specs.Prelude.{◌≡◌, ◌<◌, ◌+◌, ◌-◌, ◌^◌, ◌↔◌, drop, IfErr, IfOk, OnErr, OnOk};
ghost use Rattle.set_ledger.specs.Ending.{IsFaithful, calls_at};
ghost use Rattle.set_ledger.specs.Seats.{Forgets, IsCountable, with_entries, with_entry};

use super::checking::count_calls;
use super::held::Held;
use super::opening::Opening;
use super::seat::Seat;
use super::share::{Forgotten, count_messages, count_octets};
use set_core::SetFault;
use set_history::{EntryRef, History, Reader};
use std::alloc::{AllocError, Allocator};

/// A seat forgets the receipts of its calls before the set's base, and keeps what they added up to: a set's history has
/// no entry of them any more, and [`Held::end`] holds the others against it, as before. The share stays. Where there are
/// such calls it takes time by how many receipts there are, and meanwhile memory by how many stay. It tells how many calls of the
/// seat lie before the base.
///
/// Fault: 1 [`SetFault::NoMemory`], only where memory was refused; the seat is then as it was.
pub fn forget<O: Opening, G: Allocator + Copy, S: Seat<O>>(
    held: &Held<O, G>,
    seat: &mut S,
) -> Result<u64, SetFault>
    ensures told { IfOk result (λ calls. calls ≡ calls_at (S.state seat.old).who held.now.set.base.books) }
    ensures forgets { OnOk result (Forgets
        (calls_at (S.state seat.old).who held.now.set.base.books - (S.state seat.old).forgotten.calls)
        (S.state seat.old) (S.state seat.new)) }
    ensures faithful { IsFaithful held.now.set.base.books held.now.set.history (S.state seat.old)
        ↔ IsFaithful held.now.set.base.books held.now.set.history (S.state seat.new) }
    ensures fault { IfErr result (λ fault. fault ≡ SetFault.NoMemory) }
    ensures err { OnErr result (S.state seat.new ≡ S.state seat.old) }
{
    let calls = count_calls(&held.core().base().books(), seat.actor());
    let many = calls.saturating_sub(seat.forgotten().calls);
    seat.forget(many)?;
    Ok(calls)
}

/// The first so many receipts are forgotten, or all, where there are fewer. What they added up to is kept.
pub(crate) fn forget_first<G: Allocator + Copy>(
    room: G,
    receipts: &mut History<G>,
    forgotten: &mut Forgotten,
    many: u64,
) -> Result<(), AllocError>
    requires { IsCountable (with_entries forgotten.old receipts.old.items) }
    ensures left { OnOk result (receipts.new.items ≡ drop many receipts.old.items) }
    ensures sum { with_entries forgotten.new receipts.new.items ≡ with_entries forgotten.old receipts.old.items }
    ensures err { OnErr result ((receipts.new.items ≡ receipts.old.items) × (forgotten.new ≡ forgotten.old)) }
{
    if many == 0 {
        return Ok(());
    }
    let mut left = receipts.reader();
    let counted = count_first(*forgotten, &mut left, many);
    let kept = copy_of(room, left)?;
    *receipts = kept;
    *forgotten = counted;
    Ok(())
}

/// Reads past so many entries, or all, where there are fewer, and counts them beside these.
fn count_first(before: Forgotten, entries: &mut Reader<'_>, many: u64) -> Forgotten
    requires { IsCountable (with_entries before entries.old) }
    ensures left { entries.new ≡ drop many entries.old }
    ensures sum { with_entries result entries.new ≡ with_entries before entries.old }
{
    let mut sum = before;
    for _entry in 0..many {
        if entries.len() == 0 {
            return sum;
        }
        let Some(told) = entries.next() else {
            unreachable!();
        };
        sum = count(sum, &told);
    }
    sum
}

/// One entry more.
fn count(before: Forgotten, told: &EntryRef<'_>) -> Forgotten
    requires { IsCountable (with_entry before told.now) }
    ensures { result ≡ with_entry before told.now }
{
    let answer = told.answered();
    Forgotten {
        calls: before.calls + 1,
        messages: before.messages + count_messages(&answer),
        octets: before.octets + count_octets(&told.asked(), &answer),
    }
}

/// A history of these entries.
fn copy_of<G: Allocator + Copy>(room: G, entries: Reader<'_>) -> Result<History<G>, AllocError>
    ensures { IfOk result (λ copy. copy.items ≡ entries.entry) }
{
    let mut copy = History::new(room);
    let mut left = entries;
    while let Some(told) = left.next() {
        let event = told.asked();
        copy.reserve(&event)?;
        copy.push(told.who(), &event, &told.answered());
    }
    Ok(copy)
}
