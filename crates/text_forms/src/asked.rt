//! What a line of a terminal asks for.
ghost use Rattle.std.specs.Prelude.{◌≡◌};
ghost use Rattle.text_forms.specs.Asking.{command_of, of_link_of};

use super::at_link::LinkEvent;
use set_events::{Body, Event};
use term_model::Command;
use text_base::is_word;

/// What a line asks for. A link may be one that the set hasn't.
#[derive(Debug, Drop)]
pub enum Asked {
    /// A command to the terminal of the link.
    Command { link: u8, command: Command },
    /// These octets came on the link's line, at least one.
    Octets { link: u8, octets: Body },
    /// A unit of these octets, without its check octets, stands on the link's line so often.
    Hear { link: u8, unit: Repeated },
    /// So many flags stand on the link's line.
    Flags { link: u8, times: u32 },
    /// These bits stand on the link's line so often, each as an octet 0 or 1, the first one first.
    Bits { link: u8, bits: Repeated },
    /// An event of the terminal of the link that it names, or else of user 0.
    Event { event: Event },
    /// How the link stands.
    Look { link: u8 },
    /// Level 3 manages the link from now on.
    Activate { link: u8 },
    /// Level 3 manages the link no more.
    Deactivate { link: u8 },
    /// A checkpoint of the set; a quiet one prints no entries.
    Checkpoint { quiet: bool },
    /// A checkpoint of the set behind each so many turns of all links together, or none any more where that is 0; the
    /// entries that go are printed where they are to be told.
    Forget { every: u32, told: bool },
    /// From now on it's told where streams run, where that changes; or no more.
    Events { on: bool },
    /// The entries of the set's history since its base.
    History,
    /// How many messages stand where, and how long the history is.
    Counts,
}

/// Octets, or bits, that stand there so often, 1 to 2^20 times.
#[derive(Debug, Drop)]
pub struct Repeated {
    pub octets: Body,
    pub times: u32,
}

/// What a word of a terminal's line asks of a link, which is the word behind it.
#[derive(Clone, Copy)]
pub(crate) enum OfLink {
    /// `look`
    Look,
    /// `activate`
    Activate,
    /// `deactivate`
    Deactivate,
    /// `start`, `stop`, `emergency`, `calm`, `busy`, `ease`, `blind`, `outage` or `recover`
    Command(Command),
    /// `noanswer`, `timed`, `restore`, `redeclare`, `backtimeout` or `test`
    Event(LinkEvent),
}

impl OfLink {
    ghost use Rattle.std.specs.Prelude.{◌≡◌};
    ghost use Rattle.text_forms.specs.Asking.{asked_on};

    /// What it asks of this link.
    pub(crate) fn on(self, link: u8) -> Asked
        ensures { result ≡ asked_on self link }
    {
        match self {
            OfLink::Look => Asked::Look { link },
            OfLink::Activate => Asked::Activate { link },
            OfLink::Deactivate => Asked::Deactivate { link },
            OfLink::Command(command) => Asked::Command { link, command },
            OfLink::Event(event) => Asked::Event {
                event: event.on(link),
            },
        }
    }
}

/// What a word of a terminal's line asks of a link, if anything.
pub(crate) fn find_of_link(name: &[u8]) -> Option<OfLink>
    ensures { result ≡ of_link_of name.now }
{
    if is_word(name, b"look") {
        return Some(OfLink::Look);
    }
    if is_word(name, b"activate") {
        return Some(OfLink::Activate);
    }
    if is_word(name, b"deactivate") {
        return Some(OfLink::Deactivate);
    }
    if let Some(command) = find_command(name) {
        return Some(OfLink::Command(command));
    }
    let event = if is_word(name, b"noanswer") {
        LinkEvent::NoAnswer
    } else if is_word(name, b"timed") {
        LinkEvent::Timed
    } else if is_word(name, b"restore") {
        LinkEvent::Restore
    } else if is_word(name, b"redeclare") {
        LinkEvent::Redeclare
    } else if is_word(name, b"backtimeout") {
        LinkEvent::BackTimeout
    } else if is_word(name, b"test") {
        LinkEvent::Test
    } else {
        return None;
    };
    Some(OfLink::Event(event))
}

/// A command's word.
fn find_command(name: &[u8]) -> Option<Command>
    ensures { result ≡ command_of name.now }
{
    if is_word(name, b"start") {
        Some(Command::Start)
    } else if is_word(name, b"stop") {
        Some(Command::Stop)
    } else if is_word(name, b"emergency") {
        Some(Command::Emergency)
    } else if is_word(name, b"busy") {
        Some(Command::Busy)
    } else if is_word(name, b"ease") {
        Some(Command::Ease)
    } else if is_word(name, b"blind") {
        Some(Command::Blind)
    } else if is_word(name, b"outage") {
        Some(Command::Outage)
    } else if is_word(name, b"recover") {
        Some(Command::Recover)
    } else if is_word(name, b"calm") {
        Some(Command::Calm)
    } else {
        None
    }
}
