//! How a link stands, in a word.
ghost use Rattle.std.specs.Prelude.{◌≡◌};
ghost use Rattle.term_bench.specs.Ends.{is_start, phase_of, word_in_service, word_of};

use link_term::{Command, TermState, Works};
use set_core::SetCore;

/// How a link stands (Q.703 7.3, 8, 12), seen from its terminal.
#[derive(Clone, Copy, Debug, PartialEq, Eq)]
pub enum LinkWord {
    /// Out of service: SIOS goes out.
    Out,
    /// Not aligned: SIO goes out.
    Unaligned,
    /// Aligned: SIN or SIE goes out.
    Aligned,
    /// The same, and the link is tried for errors.
    Proving,
    /// Aligned and ready: FISUs go out, and none was heard yet.
    Ready,
    /// In service here; the set refuses Up, since the link's last life isn't settled.
    Waiting,
    /// In service, and up at the set.
    Up,
    /// Up, and the far end has a processor outage.
    Paused,
    /// In service here, and this end has a processor outage: SIPO goes out.
    Outage,
}

/// Where a link is in its life, seen from its set (Q.704 5).
#[derive(Clone, Copy, Debug, PartialEq, Eq)]
pub enum Phase {
    /// What the far end has of its messages is known; so it is at first.
    Settled,
    /// Up.
    Up,
    /// It failed, and what the far end has isn't known yet.
    Left,
}

/// How the link of these works stands.
pub(crate) fn word_of(works: &Works) -> LinkWord
    ensures { result ≡ word_of works.now.inside }
{
    match works.state() {
        TermState::OutOfService => LinkWord::Out,
        TermState::NotAligned => LinkWord::Unaligned,
        TermState::Aligned => LinkWord::Aligned,
        TermState::Proving => LinkWord::Proving,
        TermState::Ready => LinkWord::Ready,
        TermState::InService => {
            word_in_service(works.is_out(), works.is_up(), works.is_paused())
        }
    }
}

/// How a link stands that is in service here.
fn word_in_service(out: bool, up: bool, paused: bool) -> LinkWord
    ensures { result ≡ word_in_service out up paused }
{
    match (out, up, paused) {
        (true, _, _) => LinkWord::Outage,
        (false, false, _) => LinkWord::Waiting,
        (false, true, false) => LinkWord::Up,
        (false, true, true) => LinkWord::Paused,
    }
}

/// Where a link is in its life at this set.
pub(crate) fn phase_of(set: &SetCore, link: u8) -> Phase
    ensures { result ≡ phase_of link set.now.state }
{
    match (set.is_up(link), set.is_settled(link)) {
        (true, _) => Phase::Up,
        (false, true) => Phase::Settled,
        (false, false) => Phase::Left,
    }
}

/// Whether it's a command by which a link comes up.
pub(crate) fn is_start(command: Command) -> bool
    ensures { result ≡ is_start command }
{
    match command {
        Command::Start | Command::Emergency => true,
        Command::Calm
        | Command::Busy
        | Command::Ease
        | Command::Blind
        | Command::Outage
        | Command::Recover
        | Command::Stop => false,
    }
}
