//! What an event does to a set. Each function is a case of the set's step.
ghost use Rattle.std.specs.Prelude.{◌≡◌, ◌^◌, true, IsOk, OnOk, OnErr};
ghost use Rattle.set_events.specs.Lent.{event_in};
ghost use Rattle.set_model.specs.Step.{Nothing, on_link, in_service, refused, rises, falls, gives_up, times_out};
ghost use Rattle.set_changeover.specs.Agreement.{Holds};
ghost use Rattle.set_step.specs.Answering.{wants_none, stepped_by};
ghost use Rattle.set_changeover.specs.Parts.{Answers, AreCounted, kept_of};

use l3_orders::Order;
use set_changeover::{
    Parts, leave, make_room_beside, make_room_parked, phase_of, queue, redeclare, restore, settle,
    take_back, time_out, unsent_order, unserved,
};
use set_events::{EventRef, Fate, Refusal, Reply};
use set_model::{Phase, Reached};
use set_traffic::{hear, offer, send_next};
use std::alloc::{AllocError, Allocator};

/// What is answered to an event is put into `reply`. On a fault nothing of the parts has changed.
#[tactic(auto, using(crate::proofs::Kept::may_want))]
pub(crate) fn take_step<A: Allocator + Copy>(
    parts: &mut Parts<A>,
    event: &EventRef<'_>,
    reply: &mut Reply,
) -> Result<(), AllocError>
    requires holds { Holds (kept_of parts.old) }
    requires counted { AreCounted (2 ^ 60) parts.old.links.items }
    ensures ok { OnOk result (Answers parts.old parts.new reply.new (stepped_by (event_in event.now))) }
    ensures err { OnErr result (kept_of parts.new ≡ kept_of parts.old) }
    ensures none { wants_none (event_in event.now) ≡ true → IsOk result }
{
    match event {
        EventRef::Offer { body } => offer(parts, body, reply),
        EventRef::Take => {
            match parts.inbox.pop_front() {
                Some(heard) => reply.set_taken(heard.octets()),
                None => reply.set_refused(Refusal::Nothing),
            }
            Ok(())
        }
        EventRef::Find { number } => {
            match parts.queues.fate_of(*number) {
                Some(fate) => reply.set_found(fate),
                None if *number < parts.queues.len() as u64 => reply.set_refused(Refusal::Finished),
                None => reply.set_refused(Refusal::UnknownNumber),
            }
            Ok(())
        }
        EventRef::Next { link } => {
            send_next(parts, *link, reply);
            Ok(())
        }
        EventRef::Heard { link, unit } => hear(parts, *link, unit, reply),
        EventRef::Up { link } => bring_up(parts, *link, reply),
        EventRef::Down { link } => take_down(parts, *link, false, reply),
        EventRef::DownBlind { link } => take_down(parts, *link, true, reply),
        EventRef::NoAnswer { link } => give_up(parts, *link, reply),
        EventRef::Timed { link } => settle_by_time(parts, *link, reply),
        EventRef::Restore { link } => restore(parts, *link, reply),
        EventRef::Redeclare { link } => redeclare(parts, *link, reply),
        EventRef::BackTimeout { link } => time_out(parts, *link, reply),
        EventRef::Test { link } => {
            refuse_test(parts, *link, reply);
            Ok(())
        }
    }
}

/// No test begins: the link isn't up, or its set has no tests (Q.707 2.2).
fn refuse_test<A: Allocator + Copy>(parts: &Parts<A>, number: u8, reply: &mut Reply)
    ensures { Answers parts.now parts.now reply.new
        (λ s. in_service number s (λ link. refused s Nothing)) }
{
    match unserved(parts, number) {
        Some(why) => reply.set_refused(why),
        None => reply.set_refused(Refusal::Nothing),
    }
}

/// No answer came from the far end: a link that was left settles, and what was sent on it or waited
/// is discarded (own).
fn give_up<A: Allocator + Copy>(
    parts: &mut Parts<A>,
    number: u8,
    reply: &mut Reply,
) -> Result<(), AllocError>
    requires holds { Holds (kept_of parts.old) }
    requires counted { AreCounted (2 ^ 60) parts.old.links.items }
    ensures ok { OnOk result (Answers parts.old parts.new reply.new
        (λ s. on_link number s (λ link. gives_up number s link link.phase))) }
    ensures err { OnErr result (kept_of parts.new ≡ kept_of parts.old) }
{
    match phase_of(parts, number) {
        None => reply.set_refused(Refusal::NoSuchLink),
        Some(Phase::Down) => {
            make_room_beside(parts, number, 0)?;
            settle(parts, number, Reached::Unanswered);
            reply.set_done();
        }
        Some(Phase::Up | Phase::Settled) => reply.set_refused(Refusal::Nothing),
    }
    Ok(())
}

/// The order of a link that was left never was sent: it's taken back, and the link settles; what was sent on it is
/// discarded (Q.704 5.6.2, own).
fn settle_by_time<A: Allocator + Copy>(
    parts: &mut Parts<A>,
    number: u8,
    reply: &mut Reply,
) -> Result<(), AllocError>
    requires holds { Holds (kept_of parts.old) }
    requires counted { AreCounted (2 ^ 60) parts.old.links.items }
    ensures ok { OnOk result (Answers parts.old parts.new reply.new
        (λ s. on_link number s (λ link. times_out number s link link.phase))) }
    ensures err { OnErr result (kept_of parts.new ≡ kept_of parts.old) }
{
    match phase_of(parts, number) {
        None => reply.set_refused(Refusal::NoSuchLink),
        Some(Phase::Down) => match unsent_order(parts, number) {
            None => reply.set_refused(Refusal::Nothing),
            Some(from) => {
                make_room_beside(parts, number, 0)?;
                take_back(parts, number, from);
                settle(parts, number, Reached::Unasked);
                reply.set_done();
            }
        },
        Some(Phase::Up | Phase::Settled) => reply.set_refused(Refusal::Nothing),
    }
    Ok(())
}

/// The link is left, and an order tells the far end: a changeover order with the FSN last accepted,
/// or blind an emergency changeover order without it.
fn take_down<A: Allocator + Copy>(
    parts: &mut Parts<A>,
    number: u8,
    blind: bool,
    reply: &mut Reply,
) -> Result<(), AllocError>
    requires holds { Holds (kept_of parts.old) }
    requires counted { AreCounted (2 ^ 60) parts.old.links.items }
    ensures ok { OnOk result (Answers parts.old parts.new reply.new (λ s. in_service number s
        (falls blind number s))) }
    ensures err { OnErr result (kept_of parts.new ≡ kept_of parts.old) }
{
    if let Some(why) = unserved(parts, number) {
        reply.set_refused(why);
        return Ok(());
    }
    let order = if blind {
        Order::Eco { link: number }
    } else {
        Order::Coo {
            link: number,
            number: parts.links[usize::from(number)].last_accepted(),
        }
    };
    make_room_beside(parts, number, 1)?;
    leave(parts, number, blind);
    queue(parts, order);
    reply.set_done();
    Ok(())
}

/// The link is in service from now on: its error control starts anew, streams move to it, and what
/// was parked waits for it.
///
/// Room in its queue is taken first, so a fault leaves everything as it was.
#[tactic(auto, using(crate::proofs::Kept::is_empty, set_queues::proofs::Soundness::last_links))]
fn bring_up<A: Allocator + Copy>(
    parts: &mut Parts<A>,
    number: u8,
    reply: &mut Reply,
) -> Result<(), AllocError>
    requires holds { Holds (kept_of parts.old) }
    ensures ok { OnOk result (Answers parts.old parts.new reply.new
        (λ s. on_link number s (λ link. rises number s link.phase))) }
    ensures err { OnErr result (kept_of parts.new ≡ kept_of parts.old) }
{
    match phase_of(parts, number) {
        None => reply.set_refused(Refusal::NoSuchLink),
        Some(Phase::Up) => reply.set_refused(Refusal::NotDown),
        Some(Phase::Down) => reply.set_refused(Refusal::Unsettled),
        Some(Phase::Settled) => {
            make_room_parked(parts, number)?;
            parts.queues.reset(number);
            parts
                .queues
                .divert(Fate::Parked, Fate::Waiting { link: number });
            let profile = parts.config.profile();
            let link = &mut parts.links[usize::from(number)];
            link.rise(profile, parts.config.method);
            link.pass_test();
            parts.routes.raise(number);
            reply.set_done();
        }
    }
    Ok(())
}
