//! What is asked of a set: each event at least once, where it takes what memory it can.
ghost use Rattle.std.specs.Prelude.{◌≡◌, IfSome};
ghost use Rattle.set_model.specs.History.{IsActor};

use arrayvec::ArrayVec;
use l2_units::{Header, LONGEST_BODY, Unit, body_of};
use l3_orders::{Order, write_order};
use set_events::{Actor, Body, Event, Method, SetConfig};
use std::alloc::Global;

/// An event in a few octets.
#[derive(Clone, Copy)]
pub(crate) enum Ask {
    /// User 0 offers a message of this stream.
    Offer(u8),
    Take,
    Find(u64),
    Next(u8),
    /// Link 0 hears a message of a user, which has FSN 0 and acknowledges up to FSN 0.
    Message,
    /// Link 0 hears a fill-in unit that acknowledges up to FSN 2.
    Acknowledged,
    /// Link 1 hears that link 0 is left, with FSN 0; nothing is acknowledged.
    Left,
    Up(u8),
    Down(u8),
    DownBlind(u8),
    NoAnswer(u8),
    Restore(u8),
    Redeclare(u8),
    BackTimeout(u8),
}

/// Of two links link 0 is up first. Stream 3, whose home is link 1, is asked back; the declaration is acknowledged as a
/// message, made once more, and isn't answered. Each link is left once, and so is link 0 by an order.
pub(crate) const SCRIPT: [Ask; 25] = [
    Ask::Offer(2),
    Ask::Up(0),
    Ask::Offer(3),
    Ask::Next(0),
    Ask::Message,
    Ask::Take,
    Ask::Find(0),
    Ask::Up(1),
    Ask::Restore(1),
    Ask::Offer(3),
    Ask::Next(0),
    Ask::Next(0),
    Ask::Acknowledged,
    Ask::Redeclare(1),
    Ask::BackTimeout(1),
    Ask::Next(0),
    Ask::Down(0),
    Ask::Offer(2),
    Ask::NoAnswer(0),
    Ask::Next(1),
    Ask::Up(0),
    Ask::Offer(2),
    Ask::Left,
    Ask::DownBlind(1),
    Ask::Offer(1),
];

/// The settings of a set of two links with point code 2. The far end has 1.
pub(crate) fn config() -> Option<SetConfig>
    ensures { IfSome result (λ config. config.links ≡ 2) }
{
    SetConfig::new(0, 2, 2, 1, 0x80, Method::Basic).ok()
}

/// The octets of a message of this stream: SIO, and a label between these point codes (Q.704 2.2).
pub(crate) fn message_of(stream: u8) -> [u8; 5] {
    [0x85, 1, 0x80, 0, 16 * (stream % 16)]
}

/// Who asks.
pub(crate) fn who_of(ask: Ask) -> Actor
    ensures { IsActor result }
{
    match ask {
        Ask::Offer(_) | Ask::Take | Ask::Find(_) => Actor::User(0),
        Ask::Message | Ask::Acknowledged => Actor::Terminal(0),
        Ask::Left => Actor::Terminal(1),
        Ask::Next(link)
        | Ask::Up(link)
        | Ask::Down(link)
        | Ask::DownBlind(link)
        | Ask::NoAnswer(link)
        | Ask::Restore(link)
        | Ask::Redeclare(link)
        | Ask::BackTimeout(link) => Actor::Terminal(link % 16),
    }
}

/// The event, where there is memory for it.
pub(crate) fn event_of(alloc: Global, ask: Ask) -> Option<Event> {
    match ask {
        Ask::Offer(stream) => offer_of(alloc, stream),
        Ask::Take => Some(Event::Take),
        Ask::Find(number) => Some(Event::Find { number }),
        Ask::Next(link) => Some(Event::Next { link }),
        Ask::Message => Some(heard(0, 0, body_of(&message_of(2)))),
        Ask::Acknowledged => Some(acknowledged()),
        Ask::Left => Some(heard(1, 127, order())),
        Ask::Up(link) => Some(Event::Up { link }),
        Ask::Down(link) => Some(Event::Down { link }),
        Ask::DownBlind(link) => Some(Event::DownBlind { link }),
        Ask::NoAnswer(link) => Some(Event::NoAnswer { link }),
        Ask::Restore(link) => Some(Event::Restore { link }),
        Ask::Redeclare(link) => Some(Event::Redeclare { link }),
        Ask::BackTimeout(link) => Some(Event::BackTimeout { link }),
    }
}

fn offer_of(alloc: Global, stream: u8) -> Option<Event> {
    let body = Body::from_slice(alloc, &message_of(stream)).ok()?;
    Some(Event::Offer { body })
}

/// The far end leaves link 0, of which it accepted FSN 0 last.
fn order() -> ArrayVec<u8, LONGEST_BODY> {
    write_order(&Order::Coo { link: 0, number: 0 }, 0x80, 2, 1)
}

/// The link hears a message of FSN 0 with this BSN.
fn heard(link: u8, bsn: u16, body: ArrayVec<u8, LONGEST_BODY>) -> Event {
    let head = head_of(bsn);
    Event::Heard {
        link,
        unit: Unit::Msu { head, body },
    }
}

/// Link 0 hears a fill-in unit behind that message, with BSN 2.
fn acknowledged() -> Event {
    Event::Heard {
        link: 0,
        unit: Unit::Fisu { head: head_of(2) },
    }
}

/// A header of FSN 0 with this BSN.
fn head_of(bsn: u16) -> Header {
    Header {
        bsn: bsn % 128,
        bib: true,
        fsn: 0,
        fib: true,
    }
}
