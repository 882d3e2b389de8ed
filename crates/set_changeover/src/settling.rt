//! How a link settles (Q.704 5.5): what reached the far end is acknowledged, the rest is moved.
ghost use Rattle.std.specs.Prelude.{◌≡◌, ◌<◌, ◌≤◌, ◌^◌, length, map, slice_get, IfSome, Some};
ghost use Rattle.set_queues.specs.Buffers.{IsKnown, IsQueued, KeepsRoom, profile_at, room_at};
ghost use Rattle.set_queues.specs.Messages.{fate_at};
ghost use Rattle.set_queues.specs.Settling.{on};
ghost use Rattle.set_model.specs.Changeover.{settled, judged, discarded, unanswered, taken_back, fate_on, is_told};
ghost use Rattle.set_model.specs.State.{State, LinkState, open_link, target};
ghost use Rattle.set_changeover.specs.Agreement.{StandsFor, Agrees};
ghost use Rattle.set_changeover.specs.Parts.{unsent_at, Down, IsWhole, AreCounted, AtLink, IsOut, IsReach, Becomes, BecomesAt, kept_of};

use super::parts::{Parts, target_of};
use set_events::{DiscardCause, Fate};
use set_model::{Phase, Reached};
use std::alloc::Allocator;

/// The link settles: what reached the far end is acknowledged, and what stands on it is moved.
///
/// Conditions: a link of the set that isn't open, and room for all that stand on it where they go.
#[tactic(auto, using(crate::proofs::Links::same_target))]
pub fn settle<A: Allocator + Copy>(parts: &mut Parts<A>, number: u8, reached: Reached)
    requires whole { IsWhole parts.old }
    requires counted { AreCounted (2 ^ 61) parts.old.links.items }
    requires reached { IsReach (profile_at number parts.old.queues.lists) reached }
    requires known { number < length parts.old.links.items }
    requires out { AtLink number parts.old.links.items IsOut }
    requires room { length (on number parts.old.queues.lists) ≤ room_at (fate_on
        (target parts.old.links.items)) parts.old.queues.rooms }
    ensures stands { (s : State) (link : LinkState) → slice_get s.links number ≡ Some link
        → link.phase ≡ Down → Agrees (kept_of parts.old) s
        → StandsFor (kept_of parts.new) (settled reached number link s) }
{
    let target = target_of(&parts.links);
    judge(parts, number, reached);
    parts.queues.settle(number, target);
    let link = &mut parts.links[usize::from(number)];
    link.phase = Phase::Settled;
    link.answered = is_told(reached);
    parts.routes.settle(number, target);
}

/// Whether an order tells how the link's life ended.
fn is_told(reached: Reached) -> bool
    ensures { result ≡ is_told reached }
{
    match reached {
        Reached::Upto { .. } | Reached::Unknown => true,
        Reached::Unanswered | Reached::Unasked => false,
    }
}

/// What reached the far end is acknowledged, or what might be doubled is discarded (own).
#[tactic(auto, using(crate::proofs::Links::acked_less, crate::proofs::Links::on_less, crate::proofs::Links::set_view, set_model::proofs::Lists::length_set, set_queues::proofs::Standing::links))]
fn judge<A: Allocator + Copy>(parts: &mut Parts<A>, number: u8, reached: Reached)
    requires whole { IsWhole parts.old }
    requires counted { AreCounted (2 ^ 61) parts.old.links.items }
    requires reached { IsReach (profile_at number parts.old.queues.lists) reached }
    requires known { number < length parts.old.links.items }
    ensures stands { BecomesAt number parts.old parts.new (judged reached number) }
    ensures fewer { length (on number parts.new.queues.lists) ≤ length
        (on number parts.old.queues.lists) }
    ensures rooms { KeepsRoom parts.old.queues.rooms parts.new.queues.rooms }
    ensures opens { map (λ link. open_link link) parts.new.links.items ≡ map
        (λ link. open_link link) parts.old.links.items }
    ensures whole { IsWhole parts.new }
{
    match reached {
        Reached::Upto { number: fsn } => match parts.queues.acknowledge(number, fsn) {
            Ok(acked) => parts.links[usize::from(number)].acked += u64::from(acked),
            Err(_) => discard(parts, number, DiscardCause::Unreasonable),
        },
        Reached::Unknown => parts
            .queues
            .discard(Fate::Unacked { link: number }, DiscardCause::Emergency),
        Reached::Unanswered => forsake(parts, number),
        Reached::Unasked => parts
            .queues
            .discard(Fate::Unacked { link: number }, DiscardCause::NoAnswer),
    }
}

/// Where the order waits, or is parked, that was queued when the link was left last: it never was sent.
pub fn unsent_order<A: Allocator + Copy>(parts: &Parts<A>, number: u8) -> Option<Fate>
    requires known { number < length parts.now.links.items }
    ensures value { AtLink number parts.now.links.items (λ link. result ≡ unsent_at (fate_at link.order
        parts.now.queues.messages)) }
    ensures known { IfSome result (λ from. IsKnown from parts.now.queues.lists) }
    ensures queued { IfSome result IsQueued }
{
    parts.queues.is_sound();
    let fate = parts
        .queues
        .fate_of(parts.links[usize::from(number)].order)?;
    match fate {
        Fate::Waiting { .. } | Fate::Parked => Some(fate),
        _ => None,
    }
}

/// The order that was queued when the link was left last is taken back from there, and discarded (Q.704 5.6.2, own).
#[tactic(auto, using(set_queues::proofs::Standing::links))]
pub fn take_back<A: Allocator + Copy>(parts: &mut Parts<A>, number: u8, from: Fate)
    requires whole { IsWhole parts.old }
    requires known { number < length parts.old.links.items }
    requires place { IsKnown from parts.old.queues.lists }
    requires queued { IsQueued from }
    requires there { AtLink number parts.old.links.items (λ link. fate_at link.order
        parts.old.queues.messages ≡ Some from) }
    ensures stands { BecomesAt number parts.old parts.new (λ link. taken_back link.order from) }
    ensures fewer { length (on number parts.new.queues.lists) ≤ length
        (on number parts.old.queues.lists) }
    ensures rooms { KeepsRoom parts.old.queues.rooms parts.new.queues.rooms }
    ensures links { parts.new.links ≡ parts.old.links }
    ensures whole { IsWhole parts.new }
{
    let order = parts.links[usize::from(number)].order;
    parts.queues.give_up(from, order, DiscardCause::NoAnswer);
}

/// What was sent on the link, or waits for it, is discarded.
#[tactic(auto, using(set_queues::proofs::Standing::links))]
fn discard<A: Allocator + Copy>(parts: &mut Parts<A>, number: u8, cause: DiscardCause)
    requires whole { IsWhole parts.old }
    requires known { number < length parts.old.links.items }
    ensures stands { Becomes parts.old parts.new (discarded cause number) }
    ensures fewer { length (on number parts.new.queues.lists) ≤ length
        (on number parts.old.queues.lists) }
    ensures rooms { KeepsRoom parts.old.queues.rooms parts.new.queues.rooms }
    ensures links { parts.new.links ≡ parts.old.links }
    ensures whole { IsWhole parts.new }
{
    parts.queues.discard(Fate::Unacked { link: number }, cause);
    parts.queues.discard(Fate::Waiting { link: number }, cause);
}

/// No answer came: what was sent on the link is discarded, and so are the orders that wait for it; what users offered and
/// was never sent stays (own).
#[tactic(auto, using(set_queues::proofs::Standing::links))]
fn forsake<A: Allocator + Copy>(parts: &mut Parts<A>, number: u8)
    requires whole { IsWhole parts.old }
    requires known { number < length parts.old.links.items }
    ensures stands { Becomes parts.old parts.new (unanswered number) }
    ensures fewer { length (on number parts.new.queues.lists) ≤ length
        (on number parts.old.queues.lists) }
    ensures rooms { KeepsRoom parts.old.queues.rooms parts.new.queues.rooms }
    ensures links { parts.new.links ≡ parts.old.links }
    ensures whole { IsWhole parts.new }
{
    parts
        .queues
        .discard(Fate::Unacked { link: number }, DiscardCause::NoAnswer);
    parts.queues.discard_orders(number, DiscardCause::NoAnswer);
}
