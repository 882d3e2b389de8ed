//! One step at a set that is lent, and its receipt.
ghost use Rattle.std.specs.Prelude.{◌≡◌, ◌≤◌, ◌++◌, ◌∷◌, [], IfOk, OnOk, OnErr};
ghost use Rattle.set_events.specs.Lent.{HasFitUnit, event_in};
ghost use Rattle.set_events.specs.Owners.{IsOwn};
ghost use Rattle.set_model.specs.History.{IsActor, IsStep, entries_in, longest_history};
ghost use Rattle.set_ledger.specs.Totals.{Gains};

use super::share::{SeatShare, count_messages, count_octets};
use set_core::{SetCore, SetFault};
use set_events::{Actor, EventRef, Reply};
use set_history::History;
use std::alloc::Allocator;

/// Makes a step at the set, puts its answer into the reply and its receipt last, and tells what it brought to the totals.
pub(crate) fn make<G: Allocator + Copy, R: Allocator + Copy>(
    core: &mut SetCore<G>,
    who: Actor,
    receipts: &mut History<R>,
    event: &EventRef<'_>,
    reply: &mut Reply,
) -> Result<SeatShare, SetFault>
    requires actor { IsActor who }
    requires own { IsOwn who (event_in event.now) }
    requires fits { HasFitUnit event.now }
    ensures step { OnOk result (IsStep core.old who (event_in event.now) reply.new core.new) }
    ensures receipt { OnOk result (receipts.new.items
        ≡ receipts.old.items ++ record { who = who; event = event_in event.now; answer = reply.new } ∷ []) }
    ensures gains { IfOk result
        (λ gained. Gains core.old who (event_in event.now) reply.new gained core.new) }
    ensures exhausted { result ≡ Err SetFault.Exhausted
        → longest_history ≤ entries_in core.old }
    ensures err { OnErr result ((core.new ≡ core.old) × (receipts.new.items ≡ receipts.old.items)) }
{
    receipts.reserve(event)?;
    let before = core.acknowledged();
    core.apply_into(who, event, reply)?;
    core.replays();
    let answer = reply.get();
    let gained = SeatShare {
        calls: 1,
        messages: count_messages(&answer),
        octets: count_octets(event, &answer),
        acknowledged: core.acknowledged() - before,
    };
    receipts.push(who, event, &answer);
    Ok(gained)
}
