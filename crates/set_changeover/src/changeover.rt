//! Changeover: a link is left, orders tell the far end, and the link settles (Q.704 5). Orders of changeback are
//! carried out here too (Q.704 6).
ghost use Rattle.std.specs.Prelude.{◌≡◌, ◌<◌, ◌^◌, ℕ, false, length, slice_get, slice_set, Some};
ghost use Rattle.l3_orders.specs.Grammar.{IsOrder, text};
ghost use Rattle.set_queues.specs.Backs.{back_count};
ghost use Rattle.set_queues.specs.Buffers.{TakesRoom};
ghost use Rattle.set_queues.specs.Settling.{on};
ghost use Rattle.set_model.specs.Changeover.{queued, left_by, settled, order_obeyed, changed_over, answered, at_link, obeyed_at};
ghost use Rattle.set_model.specs.State.{State, last_accepted};
ghost use Rattle.set_changeover.specs.Agreement.{Agrees, Holds};
ghost use Rattle.set_changeover.specs.Parts.{Up, Down, IsWhole, AreCounted, AtLink, IsOut, IsReach, Becomes, AgreedBecomes, AllObey, kept_of};
ghost use Rattle.set_changeover.specs.Room.{HasRoom, IsReady, IsSpaciousFor, CanTurnBack, order_fate};
ghost use Rattle.set_changeover.specs.Turning.{TakesTurns};

use super::changeback::acknowledge;
use super::parts::{Parts, phase_of, stand_ahead, target_of};
use super::settling::settle;
use super::turning::turn_back;
use arrayvec::ArrayVec;
use l2_units::Profile;
use l3_orders::{Order, write_order, write_order_wide};
use set_events::{SetConfig, Took};
use set_model::{Phase, Reached};
use set_queues::fate_on;
use std::alloc::Allocator;

/// The body of an order, as this set writes it.
pub(crate) fn body_of(config: &SetConfig, order: &Order) -> ArrayVec<u8, 273>
    requires { IsOrder config.now.profile order.now }
    ensures { result.items ≡ text config.now.profile order.now config.now.sio config.now.dpc config.now.opc }
{
    match config.profile() {
        Profile::Narrow => write_order(order, config.sio, config.dpc, config.opc),
        Profile::Wide => write_order_wide(order, config.sio, config.dpc, config.opc),
    }
}

/// An order stands ahead of the users' messages that wait for the target (own), behind the orders that stand foremost
/// there.
#[tactic(auto, using(set_queues::proofs::Standing::links_stay))]
pub fn queue<A: Allocator + Copy>(parts: &mut Parts<A>, order: Order)
    requires whole { IsWhole parts.old }
    requires order { IsOrder parts.old.config.profile order }
    requires room { HasRoom (order_fate parts.old) parts.old }
    ensures stands { Becomes parts.old parts.new (queued order) }
    ensures rooms { TakesRoom (order_fate parts.old) 1 parts.old.queues.rooms
        parts.new.queues.rooms }
    ensures elsewhere { (number : ℕ) → number < length parts.old.links.items
        → AtLink number parts.old.links.items IsOut
        → on number parts.new.queues.lists ≡ on number parts.old.queues.lists }
    ensures links { parts.new.links ≡ parts.old.links }
    ensures whole { IsWhole parts.new }
{
    let fate = fate_on(target_of(&parts.links));
    let body = body_of(&parts.config, &order);
    stand_ahead(parts, body.as_slice(), fate);
}

/// The link is left: out of service, its messages stay on it until it settles (Q.704 5.3), and the order that is queued
/// next tells of it. Streams on their way back
/// to it run where they came from, and what stood back for it goes there.
#[tactic(auto, using(crate::proofs::Links::found, set_model::proofs::Lists::same_at))]
pub fn leave<A: Allocator + Copy>(parts: &mut Parts<A>, number: u8, blind: bool)
    requires holds { Holds (kept_of parts.old) }
    requires known { number < length parts.old.links.items }
    requires up { AtLink number parts.old.links.items (λ link. link.phase ≡ Up) }
    requires room { CanTurnBack number parts.old }
    ensures stands { AgreedBecomes number parts.old parts.new (left_by blind number) }
    ensures links { AtLink number parts.old.links.items (λ link. parts.new.links.items
        ≡ slice_set parts.old.links.items number (record link {
          phase = Down;
          blind = blind;
          order = length parts.old.queues.messages;
        })) }
    ensures turns { TakesTurns (back_count number parts.old.queues.lists) parts.old.queues
        parts.new.queues }
    ensures bodies { parts.new.bodies ≡ parts.old.bodies }
    ensures whole { IsWhole parts.new }
{
    let order = parts.queues.len() as u64;
    let link = &mut parts.links[usize::from(number)];
    link.phase = Phase::Down;
    link.blind = blind;
    link.order = order;
    parts.routes.divert(number);
    turn_back(parts, number);
}

/// An order is carried out (Q.704 5.4, 5.6, 6.3).
#[tactic(auto, using(crate::proofs::Links::whole_of))]
pub fn obey<A: Allocator + Copy>(parts: &mut Parts<A>, order: Order) -> Took
    requires holds { Holds (kept_of parts.old) }
    requires counted { AreCounted (2 ^ 61) parts.old.links.items }
    requires order { IsOrder parts.old.config.profile order }
    requires room { IsSpaciousFor order parts.old }
    ensures stands { AllObey parts.old parts.new result (order_obeyed order) }
{
    match order {
        Order::Coo { link, number } => change_over(parts, link, Reached::Upto { number }),
        Order::Eco { link } => change_over(parts, link, Reached::Unknown),
        Order::Coa { link, number } => answer(parts, link, Reached::Upto { number }),
        Order::Eca { link } => answer(parts, link, Reached::Unknown),
        Order::Cbd { link, code } => {
            queue(parts, Order::Cba { link, code });
            Took::Order
        }
        // of a code in no use it's ignored (Q.704 6.3)
        Order::Cba { code, .. } => {
            parts.routes.is_sound();
            if parts.routes.code(code).is_free() {
                return Took::Ignored;
            }
            acknowledge(parts, code);
            Took::Order
        }
    }
}

/// A changeover order: a link that is up is left and answered for; a link that was left settles, with
/// no answer (own); for one that settled already the answer of its last life goes out, once, and the order counts (own).
#[tactic(auto, using(crate::proofs::Links::whole_of, crate::proofs::Links::found))]
fn change_over<A: Allocator + Copy>(parts: &mut Parts<A>, number: u8, reached: Reached) -> Took
    requires holds { Holds (kept_of parts.old) }
    requires counted { AreCounted (2 ^ 61) parts.old.links.items }
    requires reached { IsReach parts.old.config.profile reached }
    requires number { number < 16 }
    requires room { number < length parts.old.links.items → IsReady number 1 parts.old }
    ensures stands { AllObey parts.old parts.new result
        (obeyed_at number (changed_over reached number)) }
{
    match phase_of(parts, number) {
        None => return Took::Ignored,
        Some(Phase::Up) => {
            let order = Order::Coa {
                link: number,
                number: parts.links[usize::from(number)].last_accepted(),
            };
            leave(parts, number, false);
            queue(parts, order);
            settle(parts, number, reached);
        }
        Some(Phase::Down) => settle(parts, number, reached),
        Some(Phase::Settled) => {
            let order = parts.links[usize::from(number)].reply(number);
            queue(parts, order);
            parts.links[usize::from(number)].answer_late();
        }
    }
    Took::Order
}

/// An acknowledgement settles a link that waits for one (Q.704 5.4.3, 5.6.3).
#[tactic(auto, using(crate::proofs::Links::whole_of))]
fn answer<A: Allocator + Copy>(parts: &mut Parts<A>, number: u8, reached: Reached) -> Took
    requires holds { Holds (kept_of parts.old) }
    requires counted { AreCounted (2 ^ 61) parts.old.links.items }
    requires reached { IsReach parts.old.config.profile reached }
    requires room { number < length parts.old.links.items → IsReady number 1 parts.old }
    ensures stands { AllObey parts.old parts.new result (obeyed_at number (answered reached number)) }
{
    if phase_of(parts, number) != Some(Phase::Down) {
        return Took::Ignored;
    }
    settle(parts, number, reached);
    Took::Order
}
