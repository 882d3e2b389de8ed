//! What a heard unit does to a set.
ghost use Rattle.std.specs.Prelude.{◌≡◌, ◌<◌, ◌≤◌, ◌^◌, false, length, None, IsOk, IfOk, IfSome, OnErr, OnOk};
ghost use Rattle.l2_units.specs.Grammar.{IsHeadOf, head_of as header_of};
ghost use Rattle.l2_units.specs.Lent.{body_in, unit_in};
ghost use Rattle.l2_units.specs.Profile.{fsn_count};
ghost use Rattle.l3_orders.specs.Grammar.{IsOrder, order_of};
ghost use Rattle.set_queues.specs.Buffers.{profile_at};
ghost use Rattle.set_model.specs.Control.{part_of};
ghost use Rattle.set_model.specs.State.{State, window_of};
ghost use Rattle.set_model.specs.Step.{SignalUnit, has_numbers, in_service, heard, is_heard, is_msu, brought as accepted_body, takes, after_control};
ghost use Rattle.set_changeover.specs.Agreement.{Agrees, Holds};
ghost use Rattle.set_traffic.specs.Traffic.{Acknowledges, HasSpaceFor, KeepsQueues, KeepsSpace, ReachesTo, brought_by};
ghost use Rattle.set_changeover.specs.Parts.{Answers, AreCounted, IsWhole, OfStates, BecomesAt, Obeys, kept_of};
ghost use Rattle.set_changeover.specs.Room.{IsSpaciousFor, SameButRoom};

use super::offering::longest_of;
use l2_units::{Header, Profile, UnitRef};
use l2_window::HeardPart;
use l3_orders::{Order, read_order, read_order_wide};
use set_changeover::{HeardBody, Parts, make_room, make_room_beside, obey, target_of, unserved};
use set_events::{Fate, Refusal, Reply, Report, Took};
use set_model::service_indicator;
use set_queues::{Queues, fate_on};
use set_route::home_of_code;
use std::alloc::{AllocError, Allocator};

/// A unit was heard: a FISU or MSU acknowledges, may bring a body, and may ask for retransmission.
/// An LSSU is refused, since the error control has nothing to do with it, and so is a unit whose numbers or whose
/// body the set's profile doesn't have.
///
/// All memory that the body may want is taken first, so a fault leaves everything as it was.
#[tactic(auto, using(set_changeover::proofs::Links::whole_of, crate::proofs::Traffic::space_still))]
pub fn hear<A: Allocator + Copy>(
    parts: &mut Parts<A>,
    number: u8,
    unit: &UnitRef<'_>,
    reply: &mut Reply,
) -> Result<(), AllocError>
    requires holds { Holds (kept_of parts.old) }
    requires counted { AreCounted (2 ^ 60) parts.old.links.items }
    ensures ok { OnOk result (Answers parts.old parts.new reply.new (λ s. in_service number s
        (heard (unit_in unit.now) number s))) }
    ensures err { OnErr result (kept_of parts.new ≡ kept_of parts.old) }
    ensures none { is_msu (unit_in unit.now) ≡ false → IsOk result }
{
    if let Some(why) = unserved(parts, number) {
        reply.set_refused(why);
        return Ok(());
    }
    if !is_heard(parts.config.profile(), unit) {
        reply.set_refused(Refusal::Nothing);
        return Ok(());
    }
    let brought = make_space(parts, unit)?;
    let part = control_hears(parts, number, unit);
    let took = take_in(parts, part.accept, brought);
    let report = Report {
        acked: part.acked,
        took,
        asked: part.asked,
        resend: part.resend,
        fault: part.fault,
    };
    reply.set_heard(report);
    Ok(())
}

/// What a unit brings.
#[derive(Drop)]
pub(crate) enum Brought<A: Allocator> {
    /// No body.
    Nothing,
    /// A message for users, as the inbox keeps it.
    Message(HeardBody<A>),
    /// An order of the management.
    Order(Order),
    /// A body of the management that is no order.
    Unread,
}

/// What the unit brings, once there is space for it: a message has its memory and a place in the inbox, an order room
/// for what it moves. Nothing else changes, also where memory is refused.
fn make_space<A: Allocator + Copy>(
    parts: &mut Parts<A>,
    unit: &UnitRef<'_>,
) -> Result<Brought<A>, AllocError>
    requires whole { IsWhole parts.old }
    requires few { length (body_in unit.now) ≤ 273 }
    ensures brought { IfOk result (λ brought. brought ≡ brought_by parts.old.config.profile (unit_in unit.now)) }
    ensures space { IfOk result (λ brought. HasSpaceFor brought parts.new) }
    ensures same { kept_of parts.new ≡ kept_of parts.old }
    ensures links { parts.new.links ≡ parts.old.links }
    ensures none { is_msu (unit_in unit.now) ≡ false → IsOk result }
{
    let UnitRef::Msu { body, .. } = unit else {
        return Ok(Brought::Nothing);
    };
    if service_indicator(body) != 0 {
        parts.inbox.reserve(1)?;
        let message = HeardBody::new(*parts.links.allocator(), body)?;
        return Ok(Brought::Message(message));
    }
    let Some(order) = order_in(parts.config.profile(), body) else {
        return Ok(Brought::Unread);
    };
    make_room_for(parts, order)?;
    Ok(Brought::Order(order))
}

/// Whether the error control hears the unit: a FISU or MSU of the set's profile.
fn is_heard(profile: Profile, unit: &UnitRef<'_>) -> bool
    ensures { result ≡ is_heard profile (unit_in unit.now) }
{
    match unit {
        UnitRef::Lssu { .. } => false,
        UnitRef::Fisu { head } => has_numbers(profile, *head),
        UnitRef::Msu { head, body } => {
            has_numbers(profile, *head) && body.len() <= longest_of(profile)
        }
    }
}

/// Whether the profile has these numbers.
fn has_numbers(profile: Profile, head: Header) -> bool
    ensures { result ≡ has_numbers profile head }
{
    head.bsn < profile.fsn_count() && head.fsn < profile.fsn_count()
}

/// The order that a body of the management is, if any, as the set's profile has it.
pub(crate) fn order_in(profile: Profile, body: &[u8]) -> Option<Order>
    ensures exact { result ≡ order_of profile body.now }
    ensures fits { IfSome result (λ order. IsOrder profile order) }
{
    match profile {
        Profile::Narrow => read_order(body).ok(),
        Profile::Wide => read_order_wide(body).ok(),
    }
}

/// Takes room for what an order moves, and for the one that answers it. Nothing else changes, also where memory is
/// refused.
fn make_room_for<A: Allocator + Copy>(parts: &mut Parts<A>, order: Order) -> Result<(), AllocError>
    requires whole { IsWhole parts.old }
    ensures room { OnOk result (IsSpaciousFor order parts.new) }
    ensures same { SameButRoom parts.old parts.new }
{
    match order {
        Order::Cbd { .. } => {
            let fate = fate_on(target_of(&parts.links));
            make_room(parts, fate)
        }
        // what waits for the code's acknowledgement goes home, if there is such a link
        Order::Cba { code, .. } => {
            let home = home_of_code(code);
            if usize::from(home) >= parts.links.len() {
                return Ok(());
            }
            parts.queues.is_sound();
            let back = parts.queues.count_at(Fate::Back { code });
            parts.queues.reserve_at(Fate::Waiting { link: home }, back)
        }
        // what stands on the link goes elsewhere, if there is such a link, and an order with it
        Order::Coo { link, .. }
        | Order::Coa { link, .. }
        | Order::Eco { link }
        | Order::Eca { link } => {
            if usize::from(link) >= parts.links.len() {
                return Ok(());
            }
            make_room_beside(parts, link, 1)
        }
    }
}

/// The control hears the unit, and the link counts: acknowledged messages are the first ones, and so many.
#[tactic(auto, using(crate::proofs::Traffic::part_reaches))]
fn control_hears<A: Allocator + Copy>(
    parts: &mut Parts<A>,
    number: u8,
    unit: &UnitRef<'_>,
) -> HeardPart
    requires counted { AreCounted (2 ^ 60) parts.old.links.items }
    requires known { number < length parts.old.links.items }
    requires queue { number < length parts.old.queues.lists.links }
    requires fits { IsHeadOf (profile_at number parts.old.queues.lists) (header_of (unit_in unit.now)) }
    ensures part { OfStates number parts.old
        (λ link s. result ≡ part_of link.control (window_of number link s.rows)
        (header_of (unit_in unit.now)) (is_msu (unit_in unit.now))) }
    ensures stands { BecomesAt number parts.old parts.new (λ link s.
        after_control result (header_of (unit_in unit.now)) (unit_in unit.now) number s link) }
    ensures counted { AreCounted (2 ^ 61) parts.new.links.items }
    ensures keeps { KeepsSpace parts.old parts.new }
{
    let window = parts.queues.window(number);
    let head = unit.head();
    let link = &mut parts.links[usize::from(number)];
    let part = link.control.hear(window, head, has_message(unit));
    link.acked += u64::from(part.acked);
    link.accepted += u64::from(part.accept);
    acknowledge(&mut parts.queues, number, head.bsn, part.acked);
    part
}

/// So many messages of the link are acknowledged, if any are: those up to this BSN.
#[tactic(auto, using(set_changeover::proofs::Links::on_less, set_changeover::proofs::Links::acked_less))]
fn acknowledge<A: Allocator + Copy>(queues: &mut Queues<A>, number: u8, bsn: u16, acked: u16)
    requires known { number < length queues.old.lists.links }
    requires bsn { bsn < fsn_count (profile_at number queues.old.lists) }
    requires reach { 0 < acked → ReachesTo bsn acked number queues.old.lists }
    ensures stands { Acknowledges acked number queues.old queues.new }
    ensures keeps { KeepsQueues queues.old queues.new }
{
    if acked == 0 {
        return;
    }
    queues.acknowledge(number, bsn).unwrap();
}

/// Whether the unit is an MSU.
fn has_message(unit: &UnitRef<'_>) -> bool
    ensures { result ≡ is_msu (unit_in unit.now) }
{
    matches!(unit, UnitRef::Msu { .. })
}

/// Where what a unit brought goes, if it's accepted: to the users' inbox, or to the rules of changeover.
#[tactic(auto, using(crate::proofs::Traffic::unaccepted, crate::proofs::Traffic::nothing_brought, crate::proofs::Traffic::unread))]
fn take_in<A: Allocator + Copy>(parts: &mut Parts<A>, accept: bool, brought: Brought<A>) -> Took
    requires holds { Holds (kept_of parts.old) }
    requires counted { AreCounted (2 ^ 61) parts.old.links.items }
    requires space { HasSpaceFor brought parts.old }
    ensures { (unit : SignalUnit) (s : State) → brought ≡ brought_by s.settings.profile unit → Agrees
        (kept_of parts.old) s → Obeys (takes (accepted_body accept unit) s) result parts.new }
{
    if !accept {
        return Took::Nothing;
    }
    match brought {
        Brought::Nothing => Took::Nothing,
        Brought::Message(message) => {
            parts.inbox.push_back_reserved(message);
            Took::Message
        }
        Brought::Order(order) => obey(parts, order),
        Brought::Unread => Took::Ignored,
    }
}
