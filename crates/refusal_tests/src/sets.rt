//! A set: its opening, each event, and the audit of a history.
ghost use Rattle.set_events.specs.Lent.{HasFitUnit};
ghost use Rattle.set_model.specs.History.{IsActor};

use super::script::{Ask, SCRIPT, config, event_of, who_of};
use super::{MOST_GROWTHS, TRIES, holds, holds_of, made_at_last};
use set_core::{SetCore, SetFault, audit};
use set_events::{Actor, Answer, Entry, Event, EventRef, Reply};
use std::alloc::{Allocator, Global};
use std::slice::from_ref;
use std::test::Fail;
use test_refusing::Refusing;

/// A set is opened, each growth of that refused in turn.
#[test]
fn a_refused_growth_opens_no_set(rt: HostRuntime) -> Result<(), Fail> {
    holds(each_opening_is_refused(rt.alloc()))
}

fn each_opening_is_refused(alloc: Global) -> bool {
    holds_of(opened(alloc), |twin| each_is_opened(alloc, twin))
}

fn each_is_opened(alloc: Global, twin: &SetCore) -> bool {
    for number in 1..=MOST_GROWTHS {
        let refusing = Refusing::new(alloc, number);
        if !is_opened(&refusing, twin) || refusing.blocks() != 0 {
            return false;
        }
        if !refusing.refuses_no_more() {
            // the windows of two links, in the set and in its base
            return number > 4;
        }
    }
    false
}

fn is_opened(refusing: &Refusing<Global>, twin: &SetCore) -> bool {
    holds_of(opened_over(refusing), |set| are_alike(set, twin))
}

/// The whole script is asked of a set, and nothing refused.
#[test]
fn a_script_is_carried_out(rt: HostRuntime) -> Result<(), Fail> {
    holds(is_carried_out(rt.alloc()))
}

fn is_carried_out(alloc: Global) -> bool {
    let Some(config) = config() else {
        return false;
    };
    let set = SetCore::new(alloc, &config).ok();
    holds_of(set, |set| answers_all(alloc, set))
}

fn answers_all(alloc: Global, set: &mut SetCore) -> bool {
    for ask in SCRIPT {
        match event_of(alloc, ask) {
            Some(event) => {
                if set.apply(who_of(ask), &event).is_err() {
                    return false;
                }
            }
            None => return false,
        }
    }
    set.checkpoint().is_ok()
}

/// The whole script is asked of a set, each growth of that refused in turn.
#[test]
fn a_refused_growth_leaves_a_set(rt: HostRuntime) -> Result<(), Fail> {
    holds(each_growth_is_refused(rt.alloc()))
}

fn each_growth_is_refused(alloc: Global) -> bool {
    for number in 1..=MOST_GROWTHS {
        let refusing = Refusing::new(alloc, 0);
        if !is_right(&refusing, number, alloc) || refusing.blocks() != 0 {
            return false;
        }
        if !refusing.refuses_no_more() {
            // each message takes room in its queue, among the messages and among the bodies, and each entry in the history
            return number > 12;
        }
    }
    false
}

fn is_right(refusing: &Refusing<Global>, number: u64, alloc: Global) -> bool {
    holds_of(
        opened(alloc),
        |twin| is_right_beside(refusing, number, alloc, twin),
    )
}

fn is_right_beside(
    refusing: &Refusing<Global>,
    number: u64,
    alloc: Global,
    twin: &mut SetCore,
) -> bool {
    holds_of(opened_over(refusing), |set| {
        refusing.refuse(number);
        is_asked(alloc, set, twin)
    })
}

/// A set that is opened, again where it was refused; nothing is left of one that was.
fn opened_over(refusing: &Refusing<Global>) -> Option<SetCore<&Refusing<Global>>> {
    let config = config()?;
    for _ in 0..TRIES {
        if let Ok(set) = SetCore::new(refusing, &config) {
            return Some(set);
        }
        if refusing.blocks() != 0 {
            return None;
        }
    }
    None
}

/// A set that is opened, again where it was refused.
pub(crate) fn opened(alloc: Global) -> Option<SetCore> {
    let config = config()?;
    made_at_last(|| SetCore::new(alloc, &config).ok())
}

fn is_asked<A: Allocator + Copy>(alloc: Global, set: &mut SetCore<A>, twin: &mut SetCore) -> bool {
    for ask in SCRIPT {
        if !goes_alike(alloc, set, twin, ask) {
            return false;
        }
    }
    is_based(set, twin)
}

/// Both make what they hold their base; while that is refused, the set is as its twin.
fn is_based<A: Allocator + Copy>(set: &mut SetCore<A>, twin: &mut SetCore) -> bool {
    makes_base(set, twin)
        && bases(twin)
        && are_alike(set, twin)
        && set.base().numbers_given() == twin.base().numbers_given()
        && set.base().counts() == twin.base().counts()
        && set.base().books() == twin.base().books()
}

fn makes_base<A: Allocator + Copy>(set: &mut SetCore<A>, twin: &SetCore) -> bool {
    for _ in 0..TRIES {
        match set.checkpoint() {
            Ok(()) => return true,
            Err(SetFault::NoMemory) if are_alike(set, twin) => {}
            Err(_) => return false,
        }
    }
    false
}

pub(crate) fn bases(twin: &mut SetCore) -> bool {
    for _ in 0..TRIES {
        if twin.checkpoint().is_ok() {
            return true;
        }
    }
    false
}

/// Both are asked, and answer alike; then all their readers tell the same.
fn goes_alike<A: Allocator + Copy>(
    alloc: Global,
    set: &mut SetCore<A>,
    twin: &mut SetCore,
    ask: Ask,
) -> bool {
    match made(alloc, ask) {
        Some(event) => answer_alike(set, twin, who_of(ask), &event) && are_alike(set, twin),
        None => false,
    }
}

/// The event, made again where memory was refused.
pub(crate) fn made(alloc: Global, ask: Ask) -> Option<Event> {
    made_at_last(|| event_of(alloc, ask))
}

fn answer_alike<A: Allocator + Copy>(
    set: &mut SetCore<A>,
    twin: &mut SetCore,
    who: Actor,
    event: &Event,
) -> bool
    requires { IsActor who }
{
    let lent = EventRef::of(event);
    let (mut reply, mut other) = (Reply::new(), Reply::new());
    asked(set, twin, who, &lent, &mut reply)
        && answered(twin, who, &lent, &mut other)
        && reply.get().same(&other.get())
}

/// The set answers; while that is refused, it is as its twin, of which nothing was asked yet.
fn asked<A: Allocator + Copy>(
    set: &mut SetCore<A>,
    twin: &SetCore,
    who: Actor,
    event: &EventRef<'_>,
    reply: &mut Reply,
) -> bool
    requires actor { IsActor who }
    requires fits { HasFitUnit event.now }
{
    for _ in 0..TRIES {
        match set.apply_into(who, event, reply) {
            Ok(()) => return true,
            Err(SetFault::NoMemory) if are_alike(set, twin) => {}
            Err(_) => return false,
        }
    }
    false
}

/// The set answers, asked again where that was refused.
pub(crate) fn answered<A: Allocator + Copy>(
    set: &mut SetCore<A>,
    who: Actor,
    event: &EventRef<'_>,
    reply: &mut Reply,
) -> bool
    requires actor { IsActor who }
    requires fits { HasFitUnit event.now }
{
    for _ in 0..TRIES {
        if set.apply_into(who, event, reply).is_ok() {
            return true;
        }
    }
    false
}

/// All readers of both tell the same.
pub(crate) fn are_alike<A: Allocator + Copy>(set: &SetCore<A>, twin: &SetCore) -> bool {
    have_same_totals(set, twin)
        && have_same_links(set, twin)
        && have_same_places(set, twin)
        && have_same_history(set, twin)
}

fn have_same_totals<A: Allocator + Copy>(set: &SetCore<A>, twin: &SetCore) -> bool {
    have_same_sums(set, twin) && have_same_numbers(set, twin)
}

fn have_same_sums<A: Allocator + Copy>(set: &SetCore<A>, twin: &SetCore) -> bool {
    set.counts() == twin.counts() && set.books() == twin.books()
}

fn have_same_numbers<A: Allocator + Copy>(set: &SetCore<A>, twin: &SetCore) -> bool {
    set.acknowledged() == twin.acknowledged()
        && set.entries() == twin.entries()
        && set.numbers_given() == twin.numbers_given()
        && set.links() == twin.links()
}

/// The phase of each link, and the numbers of its first unacknowledged messages.
fn have_same_links<A: Allocator + Copy>(set: &SetCore<A>, twin: &SetCore) -> bool {
    for link in 0..2u8 {
        let same = set.is_up(link) == twin.is_up(link)
            && set.is_settled(link) == twin.is_settled(link)
            && set.unacked_at(link, 0) == twin.unacked_at(link, 0)
            && set.unacked_at(link, 1) == twin.unacked_at(link, 1)
            && set.unacked_at(link, 2) == twin.unacked_at(link, 2);
        if !same {
            return false;
        }
    }
    true
}

fn have_same_places<A: Allocator + Copy>(set: &SetCore<A>, twin: &SetCore) -> bool {
    for number in 0..twin.numbers_given() {
        if set.place_of(number) != twin.place_of(number) {
            return false;
        }
    }
    true
}

fn have_same_history<A: Allocator + Copy>(set: &SetCore<A>, twin: &SetCore) -> bool {
    let (mut own, mut left) = (set.history(), twin.history());
    if own.len() != left.len() {
        return false;
    }
    for _ in 0..left.len() {
        match (own.next(), left.next()) {
            (Some(told), Some(other)) => {
                if !told.same(&other) {
                    return false;
                }
            }
            _ => return false,
        }
    }
    true
}

/// The first offer of a set is refused; the second is accepted under the number 0, and the history has one entry.
#[test]
fn a_refused_offer_uses_no_number(rt: HostRuntime) -> Result<(), Fail> {
    holds(each_offer_is_refused(rt.alloc()))
}

fn each_offer_is_refused(alloc: Global) -> bool {
    for number in 1..=MOST_GROWTHS {
        let refusing = Refusing::new(alloc, 0);
        if !is_first(&refusing, number, alloc) || refusing.blocks() != 0 {
            return false;
        }
        if !refusing.refuses_no_more() {
            // the body, the message, its place and its entry
            return number > 4;
        }
    }
    false
}

/// Whether the offer is the set's first, also where it was refused before.
fn is_first(refusing: &Refusing<Global>, number: u64, alloc: Global) -> bool {
    match made(alloc, Ask::Offer(2)) {
        Some(event) => is_accepted(refusing, number, &event),
        None => false,
    }
}

fn is_accepted(refusing: &Refusing<Global>, number: u64, event: &Event) -> bool {
    holds_of(opened_over(refusing), |set| {
        refusing.refuse(number);
        is_accepted_first(set, event)
    })
}

fn is_accepted_first<A: Allocator + Copy>(set: &mut SetCore<A>, event: &Event) -> bool {
    let mut reply = Reply::new();
    answered(set, Actor::User(0), &EventRef::of(event), &mut reply)
        && is_first_answer(&reply.answer())
        && set.history().len() == 1
}

fn is_first_answer(answer: &Answer) -> bool {
    answer.same(&Answer::Accepted { number: 0 })
}

/// The audit of one entry tells that it's legal, or that one with another answer isn't; or memory is wanted, and it tells
/// so then.
#[test]
fn a_refused_growth_ends_an_audit(rt: HostRuntime) -> Result<(), Fail> {
    holds(each_audit_is_refused(rt.alloc(), 0) && each_audit_is_refused(rt.alloc(), 1))
}

/// The first offer, answered with this number.
fn each_audit_is_refused(alloc: Global, number: u64) -> bool {
    let Some(event) = made(alloc, Ask::Offer(2)) else {
        return false;
    };
    let entry = Entry {
        who: Actor::User(0),
        event,
        answer: Answer::Accepted { number },
    };
    each_growth_ends_it(alloc, &entry, number == 0)
}

fn each_growth_ends_it(alloc: Global, entry: &Entry, is_legal: bool) -> bool {
    for number in 1..=MOST_GROWTHS {
        let refusing = Refusing::new(alloc, number);
        if told(&refusing, entry) != Some(is_legal) || refusing.blocks() != 0 {
            return false;
        }
        if !refusing.refuses_no_more() {
            return number > 1;
        }
    }
    false
}

/// What the audit tells, once memory is there.
fn told(refusing: &Refusing<Global>, entry: &Entry) -> Option<bool> {
    let config = config()?;
    for _ in 0..TRIES {
        match audit(refusing, &config, from_ref(entry)) {
            Ok(is_legal) => return Some(is_legal),
            Err(fault) => {
                if fault != SetFault::NoMemory {
                    return None;
                }
            }
        }
    }
    None
}
