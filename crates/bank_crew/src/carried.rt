//! What a link carried, as its terminal's questions and their answers tell.
ghost use Rattle.std.specs.Prelude.{◌≡◌};
ghost use Rattle.l2_units.specs.Lent.{unit_in};
ghost use Rattle.set_events.specs.Lent.{answer_in, event_in};
ghost use Rattle.bank_crew.specs.Carrying.{carried_more, due_after, heard_octets, is_away, is_users, message_octets, one_if, sends_again, sends_away, sends_message, sends_new, sent_octets, told_away, told_octets, unit_is_away, unit_is_message, unit_is_new, users_octets};

use super::plan::Managed;
use super::report::{counts_message, counts_up};
use l2_units::UnitRef;
use set_events::{AnswerRef, EventRef};
use set_model::{service_indicator, stream_of_body};

/// What a link carried, counted as it happens, so that no checkpoint takes it away. Messages are those of users: the
/// octets are SIO and SIF.
#[derive(Clone, Copy, Debug, PartialEq, Eq)]
pub struct Carried {
    /// How often Done was answered to an Up of the link.
    pub ups: u64,
    /// Messages that were sent, each time that they were.
    pub sent: u64,
    /// Their octets.
    pub sent_octets: u64,
    /// Messages that were sent again on the link (Q.703 5.3, 6.4): their FSN isn't the next since it came up.
    pub again: u64,
    /// Messages that were sent for the first time on the link, though it isn't the home of their stream (Q.704 5).
    pub diverted: u64,
    /// The octets of the messages that were heard and accepted.
    pub heard_octets: u64,
    /// The FSN of the next message that is new to the link.
    pub next: u16,
}

/// Nothing was carried yet.
pub(crate) const NOTHING_CARRIED: Carried = Carried {
    ups: 0,
    sent: 0,
    sent_octets: 0,
    again: 0,
    diverted: 0,
    heard_octets: 0,
    next: 0,
};

impl Carried {
    /// With this answer to this event of the terminal of the link.
    pub(crate) fn with(
        self,
        managed: Option<Managed>,
        link: u8,
        event: &EventRef<'_>,
        answer: &AnswerRef<'_>,
    ) -> Carried
        ensures { result ≡ carried_more managed link (event_in event.now) (answer_in answer.now) self }
    {
        Carried {
            ups: self
                .ups
                .saturating_add(one_if(counts_up(link, event, answer))),
            sent: self.sent.saturating_add(one_if(sends_message(answer))),
            sent_octets: self.sent_octets.saturating_add(sent_octets(answer)),
            again: self
                .again
                .saturating_add(one_if(sends_again(self.next, answer))),
            diverted: self
                .diverted
                .saturating_add(one_if(sends_away(managed, link, self.next, answer))),
            heard_octets: self
                .heard_octets
                .saturating_add(heard_octets(link, event, answer)),
            next: due_after(link, self.next, event, answer),
        }
    }
}

fn one_if(fact: bool) -> u64
    ensures { result ≡ one_if fact }
{
    if fact { 1 } else { 0 }
}

/// Whether a body is that of a message of users.
fn is_users(body: &[u8]) -> bool
    ensures { result ≡ is_users body.now }
{
    service_indicator(body) != 0
}

/// Whether a stream's home is another link.
fn is_away(managed: Option<Managed>, link: u8, stream: u8) -> bool
    ensures { result ≡ is_away managed link stream }
{
    match managed {
        Some(managed) => stream % managed.links != link,
        None => false,
    }
}

/// Whether the set gave a message to send.
fn sends_message(answer: &AnswerRef<'_>) -> bool
    ensures { result ≡ sends_message (answer_in answer.now) }
{
    match answer {
        AnswerRef::Sent { unit } => unit_is_message(unit),
        _ => false,
    }
}

fn unit_is_message(unit: &UnitRef<'_>) -> bool
    ensures { result ≡ unit_is_message (unit_in unit.now) }
{
    match unit {
        UnitRef::Msu { body, .. } => is_users(body),
        UnitRef::Fisu { .. } | UnitRef::Lssu { .. } => false,
    }
}

/// Whether the set gave an MSU of this FSN.
fn sends_new(due: u16, answer: &AnswerRef<'_>) -> bool
    ensures { result ≡ sends_new due (answer_in answer.now) }
{
    match answer {
        AnswerRef::Sent { unit } => unit_is_new(due, unit),
        _ => false,
    }
}

fn unit_is_new(due: u16, unit: &UnitRef<'_>) -> bool
    ensures { result ≡ unit_is_new due (unit_in unit.now) }
{
    match unit {
        UnitRef::Msu { head, .. } => head.fsn == due,
        UnitRef::Fisu { .. } | UnitRef::Lssu { .. } => false,
    }
}

/// Whether the set gave a message that was sent on the link before.
fn sends_again(due: u16, answer: &AnswerRef<'_>) -> bool
    ensures { result ≡ sends_again due (answer_in answer.now) }
{
    sends_message(answer) && !sends_new(due, answer)
}

/// Whether the set gave a message that is new to the link, whose stream has another home.
fn sends_away(managed: Option<Managed>, link: u8, due: u16, answer: &AnswerRef<'_>) -> bool
    ensures { result ≡ sends_away managed link due (answer_in answer.now) }
{
    sends_message(answer) && sends_new(due, answer) && answer_is_away(managed, link, answer)
}

/// Whether the set gave an MSU whose stream has another home.
fn answer_is_away(managed: Option<Managed>, link: u8, answer: &AnswerRef<'_>) -> bool
    ensures { result ≡ told_away managed link (answer_in answer.now) }
{
    match answer {
        AnswerRef::Sent { unit } => unit_is_away(managed, link, unit),
        _ => false,
    }
}

fn unit_is_away(managed: Option<Managed>, link: u8, unit: &UnitRef<'_>) -> bool
    ensures { result ≡ unit_is_away managed link (unit_in unit.now) }
{
    match unit {
        UnitRef::Msu { body, .. } => is_away(managed, link, stream_of_body(body)),
        UnitRef::Fisu { .. } | UnitRef::Lssu { .. } => false,
    }
}

/// The octets of the message that the set gave to send, if it gave one.
fn sent_octets(answer: &AnswerRef<'_>) -> u64
    ensures { result ≡ sent_octets (answer_in answer.now) }
{
    match answer {
        AnswerRef::Sent { unit } => message_octets(unit),
        _ => 0,
    }
}

/// The octets of the message that a unit carries, if it carries one.
fn message_octets(unit: &UnitRef<'_>) -> u64
    ensures { result ≡ message_octets (unit_in unit.now) }
{
    match unit {
        UnitRef::Msu { body, .. } => users_octets(body),
        UnitRef::Fisu { .. } | UnitRef::Lssu { .. } => 0,
    }
}

fn users_octets(body: &[u8]) -> u64
    ensures { result ≡ users_octets body.now }
{
    if is_users(body) { body.len() as u64 } else { 0 }
}

/// The octets of the message that was heard on the link and accepted, if one was.
fn heard_octets(link: u8, event: &EventRef<'_>, answer: &AnswerRef<'_>) -> u64
    ensures { result ≡ heard_octets link (event_in event.now) (answer_in answer.now) }
{
    if counts_message(link, event, answer) {
        told_octets(event)
    } else {
        0
    }
}

fn told_octets(event: &EventRef<'_>) -> u64
    ensures { result ≡ told_octets (event_in event.now) }
{
    match event {
        EventRef::Heard { unit, .. } => message_octets(unit),
        _ => 0,
    }
}

/// The FSN of the next message that is new to the link: 0 once it came up, and else one more than that of the last one.
fn due_after(link: u8, due: u16, event: &EventRef<'_>, answer: &AnswerRef<'_>) -> u16
    ensures { result ≡ due_after link due (event_in event.now) (answer_in answer.now) }
{
    if counts_up(link, event, answer) {
        0
    } else if sends_new(due, answer) {
        due.wrapping_add(1) % 128
    } else {
        due
    }
}
