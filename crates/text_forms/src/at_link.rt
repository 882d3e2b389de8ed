//! Words that are told of a link.
ghost use Rattle.std.specs.Prelude.{◌≡◌};
ghost use Rattle.text_forms.specs.Moves.{at_link_of, event_on, link_event, link_event_of};

use pair_rises::Move;
use pair_steps::{End, Step};
use set_events::Event;
use text_base::is_word;

/// What a word tells the set of a link.
#[derive(Clone, Copy)]
pub enum LinkEvent {
    /// `down`
    Down,
    /// `blind`
    Blind,
    /// `noanswer`
    NoAnswer,
    /// `timed`
    Timed,
    /// `restore`
    Restore,
    /// `redeclare`
    Redeclare,
    /// `backtimeout`
    BackTimeout,
    /// `test`
    Test,
}

impl LinkEvent {
    ghost use Rattle.std.specs.Prelude.{◌≡◌};
    ghost use Rattle.text_forms.specs.Moves.{event_on};

    /// The event of this link.
    pub(crate) fn on(self, link: u8) -> Event
        ensures { result ≡ event_on self link }
    {
        match self {
            LinkEvent::Down => Event::Down { link },
            LinkEvent::Blind => Event::DownBlind { link },
            LinkEvent::NoAnswer => Event::NoAnswer { link },
            LinkEvent::Timed => Event::Timed { link },
            LinkEvent::Restore => Event::Restore { link },
            LinkEvent::Redeclare => Event::Redeclare { link },
            LinkEvent::BackTimeout => Event::BackTimeout { link },
            LinkEvent::Test => Event::Test { link },
        }
    }
}

/// What a word of a script asks for at an end and a link, which are the words behind it.
#[derive(Clone, Copy)]
pub enum AtLink {
    /// `emit`
    Emit,
    /// `arrive`
    Arrive,
    /// `rise`
    Rise,
    /// `fill`
    Fill,
    /// What the set is told of the link.
    Event(LinkEvent),
}

impl AtLink {
    ghost use Rattle.std.specs.Prelude.{◌≡◌};
    ghost use Rattle.text_forms.specs.Moves.{move_on};

    /// Makes it the next move.
    pub(crate) fn put(self, end: End, link: u8, next: &mut Move)
        ensures { next.new ≡ move_on self end link }
    {
        match self {
            AtLink::Emit => *next = Move::Step(Step::Emit { end, link }),
            AtLink::Arrive => *next = Move::Step(Step::Arrive { end, link }),
            AtLink::Rise => *next = Move::Rise { end, link },
            AtLink::Fill => *next = Move::Fill { end, link },
            AtLink::Event(event) => {
                *next = Move::Step(Step::Act {
                    end,
                    event: event.on(link),
                })
            }
        }
    }
}

/// What a word of a script asks for at an end and a link, if anything.
pub(crate) fn find_at_link(name: &[u8]) -> Option<AtLink>
    ensures { result ≡ at_link_of name.now }
{
    if is_word(name, b"emit") {
        Some(AtLink::Emit)
    } else if is_word(name, b"arrive") {
        Some(AtLink::Arrive)
    } else if is_word(name, b"rise") {
        Some(AtLink::Rise)
    } else if is_word(name, b"fill") {
        Some(AtLink::Fill)
    } else {
        Some(AtLink::Event(find_link_event(name)?))
    }
}

/// What a word tells the set of a link, if anything.
pub(crate) fn find_link_event(name: &[u8]) -> Option<LinkEvent>
    ensures { result ≡ link_event_of name.now }
{
    if is_word(name, b"down") {
        Some(LinkEvent::Down)
    } else if is_word(name, b"blind") {
        Some(LinkEvent::Blind)
    } else if is_word(name, b"noanswer") {
        Some(LinkEvent::NoAnswer)
    } else if is_word(name, b"timed") {
        Some(LinkEvent::Timed)
    } else if is_word(name, b"restore") {
        Some(LinkEvent::Restore)
    } else if is_word(name, b"redeclare") {
        Some(LinkEvent::Redeclare)
    } else if is_word(name, b"backtimeout") {
        Some(LinkEvent::BackTimeout)
    } else if is_word(name, b"test") {
        Some(LinkEvent::Test)
    } else {
        None
    }
}

/// What `down`, `blind`, `noanswer`, `timed`, `restore`, `redeclare`, `backtimeout` and `test` tell of a link.
pub fn read_link_event(name: &[u8], link: u8) -> Option<Event>
    ensures { result ≡ link_event name.now link }
{
    let event = find_link_event(name)?;
    Some(event.on(link))
}
