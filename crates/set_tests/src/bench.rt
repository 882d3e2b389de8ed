//! What the tests of sets ask a set. They all ask through here, so that the prover meets each contract once; and they hand in
//! plain values and learn whether it is so, since each way out of a function that owns an event or an answer is dear to prove.
ghost use Rattle.std.specs.Prelude.{◌<◌};
ghost use Rattle.l2_units.specs.declared.profile.Profile.TheVariants.{Narrow};
ghost use Rattle.l3_orders.specs.Grammar.{IsOrder};

use l2_units::{Header, Unit};
use l3_orders::{Order, write_order};
use set_core::{Numbered, SetCore};
use set_events::{Actor, Answer, Body, Event, Fate, Method, Refusal, Report, SetConfig, Took};
use std::alloc::Global;
use std::test::Fail;

/// The settings of a set of so many links with point code 2. The far end has 1.
pub(crate) fn config_by(links: u8, method: Method) -> Option<SetConfig> {
    SetConfig::new(0, links, 2, 1, 0x80, method).ok()
}

/// Whether a case holds of a set with these settings, of which nothing was asked; it doesn't where memory is wanted. Most
/// tests own their set here alone, since what lets go of a set is dear to prove.
pub(crate) fn of_set_by<F: FnOnce(Global, &mut SetCore) -> bool>(
    alloc: Global,
    config: Option<SetConfig>,
    case: F,
) -> bool
    requires { F.IsAlwaysCallable case }
{
    match new_set(alloc, config) {
        Some(mut set) => case(alloc, &mut set),
        None => false,
    }
}

/// A set with these settings; none where memory is wanted.
pub(crate) fn new_set(alloc: Global, config: Option<SetConfig>) -> Option<SetCore> {
    SetCore::new(alloc, &config?).ok()
}

/// The same of a set of so many links by the basic method.
pub(crate) fn of_set<F: FnOnce(Global, &mut SetCore) -> bool>(
    alloc: Global,
    links: u8,
    case: F,
) -> bool
    requires { F.IsAlwaysCallable case }
{
    of_set_by(alloc, config_by(links, Method::Basic), case)
}

/// So it is. It stands in the place of `assert!`, whose text of what isn't so costs the prover a multiple.
pub(crate) fn holds(fact: bool) -> Result<(), Fail> {
    if fact {
        Ok(())
    } else {
        Err(Fail::from("it isn't so"))
    }
}

/// How many messages stand in some place.
pub(crate) fn placed(set: &SetCore) -> u64 {
    let counts = set.counts();
    let sent = counts.unacked + counts.acked;
    let unsent = counts.waiting + counts.held + counts.parked;
    sent + unsent + counts.back + counts.discarded
}

/// Each accepted message stands in one place.
fn adds_up(set: &SetCore) -> bool {
    placed(set) == set.books().messages
}

/// What the set answers to this event of its user, or of a link's terminal. No answer: there was no memory.
pub(crate) fn asked(set: &mut SetCore, event: &Event) -> Option<Answer> {
    let who = match event {
        Event::Offer { .. } | Event::Take | Event::Find { .. } => Actor::User(0),
        _ => Actor::Terminal(0),
    };
    match set.apply(who, event) {
        Ok(answer) => Some(answer),
        Err(_) => None,
    }
}

/// Whether the set answers this event so.
pub(crate) fn answers(set: &mut SetCore, event: Event, wanted: Answer) -> bool {
    match asked(set, &event) {
        Some(answer) => answer.same(&wanted),
        None => false,
    }
}

/// What a terminal tells of this link, beside what was heard.
#[derive(Clone, Copy)]
pub(crate) enum Call {
    Up(u8),
    Down(u8),
    DownBlind(u8),
    NoAnswer(u8),
    Timed(u8),
    Restore(u8),
    Redeclare(u8),
    BackTimeout(u8),
    Test(u8),
}

fn event_of(call: Call) -> Event {
    match call {
        Call::Up(link) => Event::Up { link },
        Call::Down(link) => Event::Down { link },
        Call::DownBlind(link) => Event::DownBlind { link },
        Call::NoAnswer(link) => Event::NoAnswer { link },
        Call::Timed(link) => Event::Timed { link },
        Call::Restore(link) => Event::Restore { link },
        Call::Redeclare(link) => Event::Redeclare { link },
        Call::BackTimeout(link) => Event::BackTimeout { link },
        Call::Test(link) => Event::Test { link },
    }
}

/// The set does what this call tells.
pub(crate) fn does(set: &mut SetCore, call: Call) -> bool {
    answers(set, event_of(call), Answer::Done) && adds_up(set)
}

/// The set does what these calls tell, one after another.
pub(crate) fn does_all(set: &mut SetCore, calls: &[Call]) -> bool {
    for call in calls {
        if !does(set, *call) {
            return false;
        }
    }
    true
}

/// The set refuses this call so.
pub(crate) fn refuses(set: &mut SetCore, call: Call, why: Refusal) -> bool {
    answers(set, event_of(call), Answer::Refused { why }) && adds_up(set)
}

/// The set finds the message of this number there.
pub(crate) fn finds(set: &mut SetCore, number: u64, fate: Fate) -> bool {
    answers(set, Event::Find { number }, Answer::Found { fate })
}

/// The same, and the places add up.
pub(crate) fn stands(set: &mut SetCore, number: u64, fate: Fate) -> bool {
    finds(set, number, fate) && adds_up(set)
}

/// What the set answers to an offer of these octets. No answer: there was no memory.
pub(crate) fn offered(alloc: Global, set: &mut SetCore, octets: &[u8]) -> Option<Answer> {
    match Body::from_slice(alloc, octets) {
        Ok(body) => asked(set, &Event::Offer { body }),
        Err(_) => None,
    }
}

/// A message of these octets is accepted under this number.
pub(crate) fn is_accepted(alloc: Global, set: &mut SetCore, octets: &[u8], number: u64) -> bool {
    match offered(alloc, set, octets) {
        Some(answer) => answer.same(&Answer::Accepted { number }),
        None => false,
    }
}

/// The octets of a message of this stream: SIO, and a label between these point codes (Q.704 2.2).
pub(crate) fn message_of(stream: u8) -> [u8; 5] {
    [0x85, 1, 0x80, 0, 16 * (stream % 16)]
}

/// A message of this stream is accepted under this number, and found there then.
pub(crate) fn accepts(
    alloc: Global,
    set: &mut SetCore,
    stream: u8,
    number: u64,
    fate: Fate,
) -> bool {
    is_accepted(alloc, set, &message_of(stream), number)
        && adds_up(set)
        && stands(set, number, fate)
}

/// The unit that the link sends next, if it sends one.
pub(crate) fn emitted(set: &mut SetCore, link: u8) -> Option<Unit> {
    match asked(set, &Event::Next { link }) {
        Some(Answer::Sent { unit }) => Some(unit),
        _ => None,
    }
}

/// Whether the link sends a unit.
pub(crate) fn is_sent(set: &mut SetCore, link: u8) -> bool {
    emitted(set, link).is_some()
}

/// The message of this place of the link's unacknowledged ones is this one, if there is any.
pub(crate) fn is_unacked(set: &SetCore, link: u8, place: u16, wanted: Option<Numbered>) -> bool {
    set.unacked_at(link, place) == wanted
}

/// The link sends the message of this number next, under this FSN, and so many others are unacknowledged.
pub(crate) fn sends(set: &mut SetCore, link: u8, number: u64, fsn: u16, others: u16) -> bool {
    is_sent(set, link)
        && is_unacked(set, link, others, Some(Numbered { number, fsn }))
        && adds_up(set)
}

/// The link sends just the messages of these numbers, in this order, from FSN 0 on.
pub(crate) fn sends_in_order(set: &mut SetCore, link: u8, numbers: &[u64]) -> bool {
    let mut fsn = 0u16;
    for number in numbers {
        if !sends(set, link, *number, fsn, fsn) {
            return false;
        }
        fsn = fsn.wrapping_add(1);
    }
    is_unacked(set, link, fsn, None)
}

/// A header of these numbers modulo 128, with indicator bits as they are at first.
pub(crate) fn head_of(bsn: u64, fsn: u64) -> Header {
    Header {
        bsn: (bsn % 128) as u16,
        bib: true,
        fsn: (fsn % 128) as u16,
        fib: true,
    }
}

/// A report of nothing but these.
pub(crate) fn report_of(acked: u16, took: Took) -> Report {
    Report {
        acked,
        took,
        asked: false,
        resend: false,
        fault: None,
    }
}

/// What the link tells of this unit that it heard.
pub(crate) fn heard(set: &mut SetCore, link: u8, unit: Unit) -> Option<Report> {
    match asked(set, &Event::Heard { link, unit }) {
        Some(Answer::Heard { report }) => Some(report),
        _ => None,
    }
}

/// The link hears a FISU of this header, of so many messages more.
pub(crate) fn acknowledges(set: &mut SetCore, link: u8, head: Header, messages: u16) -> bool {
    heard(set, link, Unit::Fisu { head }) == Some(report_of(messages, Took::Nothing))
        && adds_up(set)
}

/// The unit of this header that brings the order.
pub(crate) fn unit_with(head: Header, order: &Order) -> Unit
    requires { IsOrder Narrow order.now }
{
    Unit::Msu {
        head,
        body: write_order(order, 0x80, 2, 1),
    }
}

/// Link 0 hears an order, which is taken so; the unit that brings it acknowledges so many messages.
pub(crate) fn hears(
    set: &mut SetCore,
    head: Header,
    order: &Order,
    messages: u16,
    took: Took,
) -> bool
    requires { IsOrder Narrow order.now }
{
    heard(set, 0, unit_with(head, order)) == Some(report_of(messages, took)) && adds_up(set)
}

/// Link 0 hears an acknowledgement of this code, in a unit that acknowledges nothing.
pub(crate) fn hears_cba(set: &mut SetCore, head: Header, code: u8, took: Took) -> bool {
    let order = Order::Cba {
        link: code / 16,
        code,
    };
    hears(set, head, &order, 0, took)
}

/// Link 0 sends this order next, of the set's own.
pub(crate) fn sends_order(set: &mut SetCore, head: Header, order: &Order) -> bool
    requires { IsOrder Narrow order.now }
{
    let unit = Unit::Msu {
        head,
        body: write_order(order, 0x80, 1, 2),
    };
    answers(set, Event::Next { link: 0 }, Answer::Sent { unit }) && adds_up(set)
}
