//! What isn't sent any more.
ghost use Rattle.std.specs.Prelude.{◌≡◌, ◌<◌, length};
ghost use Rattle.set_model.specs.Changeover.{cleared, is_overtaken, overtakes};
ghost use Rattle.set_model.specs.Rows.{wait};
ghost use Rattle.set_model.specs.State.{State};
ghost use Rattle.set_changeover.specs.Agreement.{Holds, StandsFor};
ghost use Rattle.set_changeover.specs.Parts.{Becomes, IsHere, Up, kept_of};
ghost use Rattle.set_traffic.specs.Traffic.{holds_first};

use super::hearing::order_in;
use l3_orders::Order;
use set_changeover::{Parts, phase_of};
use set_events::{DiscardCause, Fate};
use set_model::Phase;
use std::alloc::Allocator;

/// The orders that wait foremost for the link and were overtaken are discarded in their places (own): the link that such
/// an order leaves is in service again.
pub(crate) fn clear<A: Allocator + Copy>(parts: &mut Parts<A>, number: u8)
    requires holds { Holds (kept_of parts.old) }
    requires here { IsHere parts.old.links.items number Up }
    requires queue { number < length parts.old.queues.lists.links }
    ensures stands { Becomes parts.old parts.new (cleared number) }
    ensures holds { Holds (kept_of parts.new) }
    ensures links { parts.new.links ≡ parts.old.links }
    ensures queue { number < length parts.new.queues.lists.links }
{
    while is_first_overtaken(parts, number) {
        parts.queues.withdraw(number, DiscardCause::NoAnswer);
    }
}

/// Whether an order that was overtaken waits foremost for the link.
fn is_first_overtaken<A: Allocator + Copy>(parts: &Parts<A>, number: u8) -> bool
    requires stands { (s : State) × StandsFor (kept_of parts.now) s }
    requires queue { number < length parts.now.queues.lists.links }
    ensures { (s : State) → StandsFor (kept_of parts.now) s
        → result ≡ holds_first (is_overtaken s) (wait number s.rows) }
{
    let Some(message) = parts.queues.number_at(Fate::Waiting { link: number }, 0) else {
        return false;
    };
    let order = order_in(parts.config.profile(), parts.bodies.body(message));
    is_overtaken(parts, order)
}

/// Whether it's an order that leaves a link which is up.
#[tactic(auto, using(crate::proofs::Overtaken::phase_up))]
fn is_overtaken<A: Allocator + Copy>(parts: &Parts<A>, order: Option<Order>) -> bool
    ensures { (s : State) → StandsFor (kept_of parts.now) s → result ≡ overtakes s order }
{
    match order {
        Some(Order::Coo { link, .. } | Order::Eco { link }) => {
            phase_of(parts, link) == Some(Phase::Up)
        }
        _ => false,
    }
}
