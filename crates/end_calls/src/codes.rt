//! Numbers of commands, words, phases, causes and places.
ghost use Rattle.std.specs.Prelude.{◌≡◌};
ghost use Rattle.end_calls.specs.Codes.{cause_code, command_of, detail_of, phase_number, place_number, word_number};

use l2_units::Cause;
use link_term::Command;
use set_events::Fate;
use term_bench::{LinkWord, Phase};

/// The command of this number, if one has it.
pub(crate) fn command_of(number: u8) -> Option<Command>
    ensures { result ≡ command_of number }
{
    match number {
        0 => Some(Command::Start),
        1 => Some(Command::Stop),
        2 => Some(Command::Emergency),
        3 => Some(Command::Calm),
        4 => Some(Command::Busy),
        5 => Some(Command::Ease),
        6 => Some(Command::Blind),
        7 => Some(Command::Outage),
        8 => Some(Command::Recover),
        _ => None,
    }
}

/// The number of how a link stands.
pub(crate) fn word_number(word: LinkWord) -> u8
    ensures { result ≡ word_number word }
{
    match word {
        LinkWord::Out => 0,
        LinkWord::Unaligned => 1,
        LinkWord::Aligned => 2,
        LinkWord::Proving => 3,
        LinkWord::Ready => 4,
        LinkWord::Waiting => 5,
        LinkWord::Up => 6,
        LinkWord::Paused => 7,
        LinkWord::Outage => 8,
    }
}

/// The number of a phase.
pub(crate) fn phase_number(phase: Phase) -> u8
    ensures { result ≡ phase_number phase }
{
    match phase {
        Phase::Settled => 0,
        Phase::Up => 1,
        Phase::Left => 2,
    }
}

/// The number of a cause, 1 to 9; 0 where there is none.
pub(crate) fn cause_code(cause: Option<Cause>) -> u8
    ensures { result ≡ cause_code cause }
{
    match cause {
        Some(cause) => cause.number(),
        None => 0,
    }
}

/// The number of the place where a message stands.
pub(crate) fn place_number(fate: Fate) -> u8
    ensures { result ≡ place_number fate }
{
    match fate {
        Fate::Waiting { .. } => 0,
        Fate::Unacked { .. } => 1,
        Fate::Acked { .. } => 2,
        Fate::Held { .. } => 3,
        Fate::Parked => 4,
        Fate::Back { .. } => 5,
        Fate::Discarded { .. } => 6,
    }
}

/// The link of a place, its changeback code, or the number of its cause; 0 where it has none.
pub(crate) fn detail_of(fate: Fate) -> u8
    ensures { result ≡ detail_of fate }
{
    match fate {
        Fate::Waiting { link }
        | Fate::Unacked { link }
        | Fate::Acked { link }
        | Fate::Held { link } => link,
        Fate::Parked => 0,
        Fate::Back { code } => code,
        Fate::Discarded { cause } => cause.number(),
    }
}
