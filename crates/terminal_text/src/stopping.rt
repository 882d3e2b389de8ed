//! Who stops a link.
ghost use Rattle.std.specs.Prelude.{◌≡◌, ◌<◌};
ghost use Rattle.terminal_text.specs.Stopping.{ask_stop, by_words, commanded_by, is_stop, managed_by, stopper_by, stopper_of, told_by, watch_of, watched};

use l3_link::Ask;
use link_term::Command;
use term_managed::Deed;

/// Who told a link's terminal to stop.
#[derive(Clone, Copy)]
pub(crate) enum Teller {
    /// Nobody did.
    Nobody,
    /// Whoever drives the end, by a command.
    Driver,
    /// Level 3, which manages the link.
    Level3,
}

/// Who stopped a link.
#[derive(Clone, Copy)]
pub(crate) enum Stopper {
    /// Whoever drives the end, by a command.
    Driver,
    /// Level 3, which manages the link.
    Level3,
    /// The bench, since a changeover order about it came late (own).
    Late,
    /// The set, which has left it by an order of the far end (Q.704 5).
    Order,
}

/// What is kept of a link, to tell who stopped it.
#[derive(Clone, Copy)]
pub(crate) struct Watch {
    /// Who told it to stop since its last turn.
    teller: Teller,
    /// How many changeover orders about it the set had heard late before that turn.
    late: u32,
}

/// A link that nobody told to stop, and about which no order came late.
pub(crate) const UNWATCHED: Watch = Watch {
    teller: Teller::Nobody,
    late: 0,
};

/// A command was given to the link's terminal.
pub(crate) fn note_command(watches: &mut [Watch; 16], link: u8, command: Command)
    requires { link < 16 }
    ensures { watches.new ≡ commanded_by command link watches.old }
{
    match command {
        Command::Stop => note(watches, link, Teller::Driver),
        Command::Start
        | Command::Emergency
        | Command::Calm
        | Command::Busy
        | Command::Ease
        | Command::Blind
        | Command::Outage
        | Command::Recover => {}
    }
}

/// Level 3 asked these of the link.
pub(crate) fn note_deeds(watches: &mut [Watch; 16], link: u8, deeds: &[Deed])
    requires { link < 16 }
    ensures { watches.new ≡ managed_by deeds.now link watches.old }
{
    if ask_stop(deeds) {
        note(watches, link, Teller::Level3);
    }
}

/// A turn of the link was taken, before which so many orders about it had come late, and level 3 asked these behind it: who
/// stopped the link, if it was stopped in that turn.
pub(crate) fn note_turn(watches: &mut [Watch; 16], link: u8, late: u32, deeds: &[Deed]) -> Stopper
    requires { link < 16 }
    ensures stopper { result ≡ stopper_of late (watch_of link watches.old) }
    ensures watches { watches.new ≡ watched link late deeds.now watches.old }
{
    let stopper = stopper_of(late, watch_of(watches, link));
    watches[usize::from(link)] = Watch {
        teller: Teller::Nobody,
        late,
    };
    note_deeds(watches, link, deeds);
    stopper
}

/// The link's terminal was told to stop.
fn note(watches: &mut [Watch; 16], link: u8, teller: Teller)
    requires { link < 16 }
    ensures { watches.new ≡ told_by teller link watches.old }
{
    let late = watch_of(watches, link).late;
    watches[usize::from(link)] = Watch { teller, late };
}

/// What is kept of this link.
fn watch_of(watches: &[Watch; 16], link: u8) -> Watch
    ensures { result ≡ watch_of link watches.now }
{
    match watches.get(usize::from(link)) {
        Some(watch) => *watch,
        None => UNWATCHED,
    }
}

/// Who stopped a link of which this is kept, before whose turn so many orders had come late.
fn stopper_of(late: u32, watch: Watch) -> Stopper
    ensures { result ≡ stopper_of late watch }
{
    stopper_by(watch.teller, late != watch.late)
}

fn stopper_by(teller: Teller, late: bool) -> Stopper
    ensures { result ≡ stopper_by teller late }
{
    match teller {
        Teller::Driver => Stopper::Driver,
        Teller::Level3 => Stopper::Level3,
        Teller::Nobody if late => Stopper::Late,
        Teller::Nobody => Stopper::Order,
    }
}

/// Whether one of these is that the terminal stops.
fn ask_stop(deeds: &[Deed]) -> bool
    ensures { result ≡ ask_stop deeds.now }
{
    for deed in deeds {
        if is_stop(deed.ask) {
            return true;
        }
    }
    false
}

fn is_stop(ask: Ask) -> bool
    ensures { result ≡ is_stop ask }
{
    matches!(ask, Ask::Stop)
}

/// How it's told who stopped a link: not at all where its driver did.
pub(crate) fn by_words(stopper: Stopper) -> &'static str
    ensures { result.now ≡ by_words stopper }
{
    match stopper {
        Stopper::Driver => "",
        Stopper::Level3 => " by=level3",
        Stopper::Late => " by=late",
        Stopper::Order => " by=order",
    }
}
