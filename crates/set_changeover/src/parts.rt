//! What a set keeps, and what is common to all events: the target, room, and a new message.
ghost use Rattle.std.specs.Prelude.{◌≡◌, ◌+◌, ◌<◌, ◌≤◌, ◌++◌, ℕ, [], ◌∷◌, map, length, IfNone, IfSome, OnOk, slice_get, false, option_map};
ghost use Rattle.set_queues.specs.Buffers.{IsKnown, IsQueued, TakesRoom, queue_at, room_at, with_queue};
ghost use Rattle.set_queues.specs.Bodies.{CanHold};
ghost use Rattle.set_queues.specs.Queues.{behind_orders};
ghost use Rattle.set_queues.specs.Messages.{IsFit};
ghost use Rattle.set_model.specs.Rows.{appended, put_ahead};
ghost use Rattle.set_route.specs.Routing.{IsPlaceOf, place_of};
ghost use Rattle.set_model.specs.State.{State, LinkState, given, fate_at, target, link_is_open, open_link};
ghost use Rattle.set_model.specs.Step.{Outcome, in_service};
ghost use Rattle.set_changeover.specs.Agreement.{StandsFor, Agrees, kind_by};
ghost use Rattle.set_changeover.specs.Parts.{Up, IsWhole, IsHere, Gives, Becomes, kept_of};
ghost use Rattle.set_changeover.specs.Room.{HasRoom, IsReady, SameButRoom, target_beside};

use super::inbox::Inbox;
use super::link::Link;
use arrayvec::ArrayVec;
use set_events::{Answer, Fate, Finished, Refusal, SetConfig};
use set_model::{Phase, service_indicator, stream_of_body};
use set_queues::{Bodies, Kind, Message, Queues, fate_on};
use set_route::{Place, Routes};
use std::alloc::{AllocError, Allocator, Global};

/// What a set keeps.
#[derive(Drop)]
pub struct Parts<A: Allocator = Global> {
    /// What it was opened with.
    pub config: SetConfig,
    /// Its links, by their numbers.
    pub links: Vec<Link, A>,
    /// Where its messages stand.
    pub queues: Queues<A>,
    /// The bodies of its messages, by their numbers.
    pub bodies: Bodies<A>,
    /// How many of its messages left it, since nothing more could become of them.
    pub finished: Finished,
    /// Where its streams run.
    pub routes: Routes,
    /// The messages heard for users.
    pub inbox: Inbox<A>,
}

/// The lowest-numbered link that is open, if any (own).
pub fn target_of(links: &[Link]) -> Option<u8>
    requires { length links.now ≤ 16 }
    ensures value { result ≡ target links.now }
    ensures below { IfSome result (λ to. to < length links.now) }
{
    set_route::target(open_links(links).as_slice())
}

/// The lowest-numbered link that is open beside this one: the target once this one is out of service.
fn other_target(links: &[Link], number: u8) -> Option<u8>
    requires few { length links.now ≤ 16 }
    requires known { number < length links.now }
    ensures value { result ≡ target_beside number links.now }
    ensures below { IfSome result (λ to. to < length links.now) }
{
    let mut flags = open_links(links);
    flags.as_mut_slice()[usize::from(number)] = false;
    set_route::target(flags.as_slice())
}

/// Which links are open.
fn open_links(links: &[Link]) -> ArrayVec<bool, 16>
    requires { length links.now ≤ 16 }
    ensures { result.items ≡ map (λ link. open_link link) links.now }
{
    let mut flags = ArrayVec::new();
    for link in links {
        flags.push(link.is_open());
    }
    flags
}

/// Where the link of this number stands in its life, if there is one.
#[tactic(auto, using(crate::proofs::Links::phase_here))]
pub fn phase_of<A: Allocator + Copy>(parts: &Parts<A>, number: u8) -> Option<Phase>
    ensures value { result ≡ option_map (λ link. link.phase)
        (slice_get parts.now.links.items number) }
    ensures here { IfSome result (IsHere parts.now.links.items number) }
{
    Some(parts.links.get(usize::from(number))?.phase)
}

/// Why an event that needs the link in service is refused, if it is.
pub fn unserved<A: Allocator + Copy>(parts: &Parts<A>, number: u8) -> Option<Refusal>
    ensures refused { IfSome result (λ why. (s : State) (next : LinkState → Outcome)
        → Agrees (kept_of parts.now) s
        → Gives (in_service number s next) (Answer.Refused why) parts.now) }
    ensures here { IfNone result (IsHere parts.now.links.items number Up) }
{
    match phase_of(parts, number) {
        None => Some(Refusal::NoSuchLink),
        Some(Phase::Up) => None,
        Some(Phase::Down | Phase::Settled) => Some(Refusal::NotUp),
    }
}

/// Whether the link of this number is there, and open.
pub fn is_open<A: Allocator + Copy>(parts: &Parts<A>, number: u8) -> bool
    ensures { result ≡ link_is_open (slice_get parts.now.links.items number) }
{
    match parts.links.get(usize::from(number)) {
        Some(link) => link.is_open(),
        None => false,
    }
}

/// Takes room for one more message there. Nothing else changes, also where memory is refused.
pub fn make_room<A: Allocator + Copy>(parts: &mut Parts<A>, fate: Fate) -> Result<(), AllocError>
    requires known { IsKnown fate parts.old.queues.lists }
    requires queued { IsQueued fate }
    ensures room { OnOk result (HasRoom fate parts.new) }
    ensures same { SameButRoom parts.old parts.new }
{
    parts.bodies.reserve(1)?;
    parts.queues.reserve(1)?;
    parts.queues.reserve_at(fate, 1)
}

/// Takes room for all that stand on the link where they go once it's out of service, and for so many
/// orders; and wherever what stands back for the link may turn. Nothing else changes, also where memory is
/// refused.
pub fn make_room_beside<A: Allocator + Copy>(
    parts: &mut Parts<A>,
    number: u8,
    orders: usize,
) -> Result<(), AllocError>
    requires whole { IsWhole parts.old }
    requires known { number < length parts.old.links.items }
    ensures room { OnOk result (IsReady number orders parts.new) }
    ensures same { SameButRoom parts.old parts.new }
{
    let fate = fate_on(other_target(&parts.links, number));
    let back = parts.queues.back_count(number);
    // twice, since what turns may go through two queues
    let turns = back.checked_mul(2).ok_or(AllocError)?;
    let more = turns.checked_add(orders).ok_or(AllocError)?;
    parts.bodies.reserve(orders)?;
    parts.queues.reserve(orders)?;
    parts.queues.reserve_each(back)?;
    parts.queues.reserve_all(fate, number, more)?;
    Ok(())
}

/// Takes room in the link's queue for all that is parked. Nothing else changes, also where memory is
/// refused.
pub fn make_room_parked<A: Allocator + Copy>(
    parts: &mut Parts<A>,
    number: u8,
) -> Result<(), AllocError>
    requires known { IsKnown (Fate.Waiting number) parts.old.queues.lists }
    ensures room { OnOk result (length parts.new.queues.lists.parked
        ≤ room_at (Fate.Waiting number) parts.new.queues.rooms) }
    ensures same { SameButRoom parts.old parts.new }
{
    let parked = parts.queues.count_at(Fate::Parked);
    parts
        .queues
        .reserve_at(Fate::Waiting { link: number }, parked)
}

/// A new message stands last where its fate tells: its number.
pub fn stand_last<A: Allocator + Copy>(parts: &mut Parts<A>, body: &[u8], fate: Fate) -> u64
    requires fits { length body.now ≤ 273 }
    requires known { IsKnown fate parts.old.queues.lists }
    requires queued { IsQueued fate }
    requires room { HasRoom fate parts.old }
    ensures number { result ≡ length parts.old.queues.messages }
    ensures stands { Becomes parts.old parts.new
        (λ s. record s { rows = appended (given s) s.rows body.now fate }) }
    ensures rooms { TakesRoom fate 1 parts.old.queues.rooms parts.new.queues.rooms }
    ensures message { parts.old.queues.room ≤ parts.new.queues.room + 1 }
    ensures body { (more : ℕ) → CanHold (more + 1) parts.old.bodies
        → CanHold more parts.new.bodies }
    ensures lists { parts.new.queues.lists ≡ with_queue fate (queue_at fate parts.old.queues.lists
        ++ length parts.old.queues.messages ∷ []) parts.old.queues.lists }
    ensures links { parts.new.links ≡ parts.old.links }
    ensures routes { parts.new.routes ≡ parts.old.routes }
{
    parts.bodies.add(body);
    parts.queues.add(message_of(body, fate))
}

/// An order stands where its fate tells, ahead of the first user's message there and behind the orders that stand
/// foremost, or last where no user's stands there (own).
pub(crate) fn stand_ahead<A: Allocator + Copy>(parts: &mut Parts<A>, order: &[u8], fate: Fate)
    requires fits { length order.now ≤ 273 }
    requires known { IsKnown fate parts.old.queues.lists }
    requires queued { IsQueued fate }
    requires room { HasRoom fate parts.old }
    ensures stands { Becomes parts.old parts.new
        (λ s. record s { rows = put_ahead (given s) s.rows order.now fate }) }
    ensures rooms { TakesRoom fate 1 parts.old.queues.rooms parts.new.queues.rooms }
    ensures lists { parts.new.queues.lists ≡ with_queue fate (behind_orders
        parts.old.queues.messages (length parts.old.queues.messages)
        (queue_at fate parts.old.queues.lists)) parts.old.queues.lists }
    ensures links { parts.new.links ≡ parts.old.links }
    ensures routes { parts.new.routes ≡ parts.old.routes }
{
    parts.bodies.add(order);
    parts.queues.add_ahead(Message {
        fate,
        kind: Kind::Order,
        octets: order.len() as u16,
    });
}

/// What is kept of a message beside its body.
fn message_of(body: &[u8], fate: Fate) -> Message
    requires { length body.now ≤ 273 }
    ensures value { result ≡ record { fate = fate; kind = kind_by body.now; octets = length body.now } }
    ensures fit { IsFit result }
{
    let kind = match service_indicator(body) {
        0 => Kind::Order,
        _ => Kind::User {
            stream: stream_of_body(body),
        },
    };
    Message {
        fate,
        kind,
        octets: body.len() as u16,
    }
}

/// Where a new message of this stream stands.
pub fn fate_of_new<A: Allocator + Copy>(parts: &Parts<A>, stream: u8) -> Fate
    requires whole { IsWhole parts.now }
    requires stream { stream < 16 }
    ensures value { (s : State) → StandsFor (kept_of parts.now) s
        → result ≡ fate_at (place_of stream s.routing) s }
    ensures known { IsKnown result parts.now.queues.lists }
    ensures queued { IsQueued result }
{
    parts.queues.is_sound();
    fate_where(parts, parts.routes.place(stream))
}

/// Where a new message stands whose stream runs there.
pub(crate) fn fate_where<A: Allocator + Copy>(parts: &Parts<A>, place: Place) -> Fate
    requires whole { IsWhole parts.now }
    requires there { IsPlaceOf (length parts.now.links.items) place }
    ensures value { (s : State) → StandsFor (kept_of parts.now) s → result ≡ fate_at place s }
    ensures known { IsKnown result parts.now.queues.lists }
    ensures queued { IsQueued result }
{
    parts.queues.is_sound();
    match place {
        Place::On { link } if is_open(parts, link) => { Fate::Waiting { link } }
        Place::On { link } => Fate::Held { link },
        Place::Changing { code, .. } => Fate::Back { code },
        Place::Nowhere => Fate::Parked,
    }
}
