//! Changeback: streams come back to a link, and their messages with them (Q.704 6).
ghost use Rattle.std.specs.Prelude.{◌≡◌, ◌≢◌, ◌+◌, ◌*◌, ◌<◌, ◌≤◌, ℕ, true, length, Some, OnErr, OnOk};
ghost use Rattle.set_queues.specs.Backs.{back_count};
ghost use Rattle.set_route.specs.Routing.{code_for, code_of, home_of};
ghost use Rattle.set_model.specs.Changeover.{acknowledged_code, can_declare, comes_home, overdue_via, redeclared_if, released, some_declare, some_in_use, some_overdue};
ghost use Rattle.set_model.specs.State.{State, link_count};
ghost use Rattle.set_model.specs.Step.{on_link, in_service, restores, redeclares, runs_out};
ghost use Rattle.set_changeover.specs.Agreement.{Holds, StandsFor};
ghost use Rattle.set_changeover.specs.Parts.{Answers, Becomes, IsWhole, kept_of};
ghost use Rattle.set_changeover.specs.Room.{back_at, home_room, CanComeBack, HasRoomAgain};

use super::changeover::body_of;
use super::parts::{Parts, fate_where, is_open, stand_last, unserved};
use l3_orders::Order;
use set_events::{Fate, Refusal, Reply};
use set_route::{Code, Place, changeback_code, home_of_code};
use std::alloc::{AllocError, Allocator};

/// A set has at most so many links, and a home so many codes.
const MOST_LINKS: usize = 16;

/// Streams whose home this link is are to come back to it: a declaration on every other link that is up,
/// the lowest-numbered first, where streams of this home run and its code is free.
#[tactic(auto, using(crate::proofs::Links::whole_of))]
pub fn restore<A: Allocator + Copy>(
    parts: &mut Parts<A>,
    number: u8,
    reply: &mut Reply,
) -> Result<(), AllocError>
    requires holds { Holds (kept_of parts.old) }
    ensures ok { OnOk result (Answers parts.old parts.new reply.new
        (λ s. in_service number s (restores number s))) }
    ensures err { OnErr result (kept_of parts.new ≡ kept_of parts.old) }
{
    if let Some(why) = unserved(parts, number) {
        reply.set_refused(why);
        return Ok(());
    }
    if !is_open(parts, number) {
        reply.set_refused(Refusal::NotUp);
        return Ok(());
    }
    if !has_alternative(parts, number) {
        reply.set_refused(Refusal::Nothing);
        return Ok(());
    }
    parts.bodies.reserve(MOST_LINKS)?;
    parts.queues.reserve(MOST_LINKS)?;
    parts.queues.reserve_each(1)?;
    for alternative in 0..parts.links.len() as u8 {
        if !may_declare(parts, number, alternative) {
            continue;
        }
        let declaration = Order::Cbd {
            link: number,
            code: changeback_code(number, alternative),
        };
        let body = body_of(&parts.config, &declaration);
        let message = stand_last(parts, body.as_slice(), Fate::Waiting { link: alternative });
        parts.routes.ask(number, alternative, message);
    }
    reply.set_done();
    Ok(())
}

/// No acknowledgement came in time: each declaration of this home that is on its way no more is made once more, on the
/// link from which its streams come, the lowest code first (Q.704 6.3).
#[tactic(auto, using(crate::proofs::Links::whole_of))]
pub fn redeclare<A: Allocator + Copy>(
    parts: &mut Parts<A>,
    number: u8,
    reply: &mut Reply,
) -> Result<(), AllocError>
    requires holds { Holds (kept_of parts.old) }
    ensures ok { OnOk result (Answers parts.old parts.new reply.new
        (λ s. on_link number s (λ link. redeclares number s))) }
    ensures err { OnErr result (kept_of parts.new ≡ kept_of parts.old) }
{
    if usize::from(number) >= parts.links.len() {
        reply.set_refused(Refusal::NoSuchLink);
        return Ok(());
    }
    if !has_overdue(parts, number) {
        reply.set_refused(Refusal::Nothing);
        return Ok(());
    }
    parts.bodies.reserve(MOST_LINKS)?;
    parts.queues.reserve(MOST_LINKS)?;
    parts.queues.reserve_each(MOST_LINKS)?;
    for alternative in 0..16u8 {
        declare_again(parts, changeback_code(number, alternative));
    }
    reply.set_done();
    Ok(())
}

/// No acknowledgement came: what stands back for this link waits for it, code by code, and all its codes
/// are free (own).
#[tactic(auto, using(crate::proofs::Links::whole_of))]
pub fn time_out<A: Allocator + Copy>(
    parts: &mut Parts<A>,
    number: u8,
    reply: &mut Reply,
) -> Result<(), AllocError>
    requires holds { Holds (kept_of parts.old) }
    ensures ok { OnOk result (Answers parts.old parts.new reply.new
        (λ s. on_link number s (λ link. runs_out number s))) }
    ensures err { OnErr result (kept_of parts.new ≡ kept_of parts.old) }
{
    if usize::from(number) >= parts.links.len() {
        reply.set_refused(Refusal::NoSuchLink);
        return Ok(());
    }
    if !has_code_in_use(parts, number) {
        reply.set_refused(Refusal::Nothing);
        return Ok(());
    }
    let back = parts.queues.back_count(number);
    parts
        .queues
        .reserve_at(Fate::Waiting { link: number }, back)?;
    // the lowest code first
    for alternative in 0..16u8 {
        release(parts, changeback_code(number, alternative));
    }
    reply.set_done();
    Ok(())
}

/// Whether streams can come back from some link.
#[tactic(auto, using(crate::proofs::Declaring::count_is, crate::proofs::Declaring::declares_next))]
fn has_alternative<A: Allocator + Copy>(parts: &Parts<A>, number: u8) -> bool
    requires whole { IsWhole parts.now }
    requires known { number < length parts.now.links.items }
    ensures { (s : State) → StandsFor (kept_of parts.now) s
        → result ≡ some_declare number 0 (link_count s) s }
{
    for alternative in 0..parts.links.len() as u8 {
        if may_declare(parts, number, alternative) {
            return true;
        }
    }
    false
}

/// Whether streams of this home can come back from that link.
fn may_declare<A: Allocator + Copy>(parts: &Parts<A>, home: u8, alternative: u8) -> bool
    requires home { home < 16 }
    requires alternative { alternative < 16 }
    ensures { (s : State) → StandsFor (kept_of parts.now) s
        → result ≡ can_declare home alternative s }
{
    alternative != home && is_open(parts, alternative) && parts.routes.can_ask(home, alternative)
}

/// Whether a declaration of this home is on its way no more, and isn't acknowledged.
fn has_overdue<A: Allocator + Copy>(parts: &Parts<A>, home: u8) -> bool
    requires { home < 16 }
    ensures { (s : State) → StandsFor (kept_of parts.now) s
        → result ≡ some_overdue (code_for home 0) 16 s }
{
    for alternative in 0..16u8 {
        if overdue(parts, changeback_code(home, alternative)).is_some() {
            return true;
        }
    }
    false
}

/// The link from which the streams of this code come, if it's open and its declaration is on its way no more.
fn overdue<A: Allocator + Copy>(parts: &Parts<A>, code: u8) -> Option<u8>
    ensures { (s : State) → StandsFor (kept_of parts.now) s
        → result ≡ overdue_via (code_of code s.routing) s.rows }
{
    match parts.routes.code(code) {
        Code::Asked {
            via,
            declaration,
            ..
        } if !parts.queues.is_unfinished(declaration) => Some(via),
        _ => None,
    }
}

/// An overdue declaration is made once more.
fn declare_again<A: Allocator + Copy>(parts: &mut Parts<A>, code: u8)
    requires holds { Holds (kept_of parts.old) }
    requires room { HasRoomAgain 1 parts.old }
    ensures stands { Becomes parts.old parts.new (redeclared_if code) }
    ensures links { parts.new.links ≡ parts.old.links }
    ensures room { (more : ℕ) → HasRoomAgain (more + 1) parts.old → HasRoomAgain more parts.new }
{
    let Some(via) = overdue(parts, code) else {
        return;
    };
    let fate = fate_where(parts, Place::On { link: via });
    let declaration = Order::Cbd {
        link: home_of_code(code),
        code,
    };
    let body = body_of(&parts.config, &declaration);
    let number = parts.queues.len() as u64;
    stand_last(parts, body.as_slice(), fate);
    parts.routes.ask_again(code, number);
}

/// Whether a code of this home is open or spent.
fn has_code_in_use<A: Allocator + Copy>(parts: &Parts<A>, home: u8) -> bool
    requires { home < 16 }
    ensures { (s : State) → StandsFor (kept_of parts.now) s
        → result ≡ some_in_use (code_for home 0) 16 s }
{
    for alternative in 0..16u8 {
        if !parts
            .routes
            .code(changeback_code(home, alternative))
            .is_free()
        {
            return true;
        }
    }
    false
}

/// One acknowledgement of the code came: what waits for it waits for its home from now on, and its streams run there.
#[tactic(auto, using(set_queues::proofs::Standing::links))]
pub(crate) fn acknowledge<A: Allocator + Copy>(parts: &mut Parts<A>, code: u8)
    requires whole { IsWhole parts.old }
    requires known { home_of code < length parts.old.links.items }
    requires room { length (back_at code parts.old) ≤ home_room code parts.old }
    ensures stands { Becomes parts.old parts.new (acknowledged_code code) }
    ensures links { parts.new.links ≡ parts.old.links }
    ensures whole { IsWhole parts.new }
{
    come_home(parts, code);
    parts.routes.acknowledge(code);
}

/// None came: what waits for it waits for its home from now on, its streams run there, and the code is free.
#[tactic(auto, using(set_queues::proofs::Standing::links))]
fn release<A: Allocator + Copy>(parts: &mut Parts<A>, code: u8)
    requires whole { IsWhole parts.old }
    requires known { home_of code < length parts.old.links.items }
    requires room { length (back_at code parts.old) ≤ home_room code parts.old }
    ensures stands { Becomes parts.old parts.new (released code) }
    ensures fits { CanComeBack (home_of code) parts.old → CanComeBack (home_of code) parts.new }
    ensures links { parts.new.links ≡ parts.old.links }
    ensures whole { IsWhole parts.new }
{
    come_home(parts, code);
    parts.routes.give_back(code);
}

/// What waits for the code's acknowledgement waits for its home from now on.
#[tactic(auto, using(set_queues::proofs::Standing::links))]
fn come_home<A: Allocator + Copy>(parts: &mut Parts<A>, code: u8)
    requires whole { IsWhole parts.old }
    requires known { home_of code < length parts.old.links.items }
    requires room { length (back_at code parts.old) ≤ home_room code parts.old }
    ensures stands { Becomes parts.old parts.new (λ s. record s { rows = comes_home code s.rows }) }
    ensures fits { CanComeBack (home_of code) parts.old → CanComeBack (home_of code) parts.new }
    ensures links { parts.new.links ≡ parts.old.links }
    ensures routes { parts.new.routes ≡ parts.old.routes }
    ensures whole { IsWhole parts.new }
{
    let home = home_of_code(code);
    parts.queues.is_sound();
    parts
        .queues
        .divert(Fate::Back { code }, Fate::Waiting { link: home });
}
