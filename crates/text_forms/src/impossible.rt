//! Why what a line asks for can't be done.
ghost use Rattle.std.specs.Prelude.{◌≡◌};
ghost use Rattle.text_forms.specs.Impossible.{blamed_from, blamed_impossible, blamed_link, blamed_profile, why_no_step, why_not};

use super::mistake::Mistake;
use super::terminal_mistake::TerminalMistake;
use super::words::{Blame, skip_words};
use pair_rises::Move;
use pair_steps::Step;

/// Why the move that this line asks for can't be made, in a world of so many links in which it can't be.
///
/// The word at fault is the link's, or the place's where no unit has it.
pub fn blame_impossible(links: u8, next: &Move, text: &[u8]) -> Blame
    ensures { result ≡ blamed_impossible links next.now text.now }
{
    let (place, mistake) = find_reason(links, next);
    blame_from(place, mistake, text)
}

/// What is wrong with a terminal's line that asks for a link which the set hasn't: its second word.
pub fn blame_link(text: &[u8]) -> Blame
    ensures { result ≡ blamed_link text.now }
{
    blame_from(1, Mistake::NoSuchLink, text)
}

/// What is wrong with a terminal's first line that opens a set of the wide profile: its seventh word.
pub fn blame_profile(text: &[u8]) -> Blame
    ensures { result ≡ blamed_profile text.now }
{
    blame_from(6, Mistake::Terminal(TerminalMistake::Wide), text)
}

/// This mistake of the word of this place, from 0.
fn blame_from(place: u8, mistake: Mistake, text: &[u8]) -> Blame
    ensures { result ≡ blamed_from place mistake text.now }
{
    Blame {
        column: text.len().saturating_sub(skip_words(place, text).len()),
        mistake,
    }
}

/// Why this move can't be made with so many links, and which word of its line says so, from 0.
fn find_reason(links: u8, next: &Move) -> (u8, Mistake)
    ensures { result ≡ why_not links next.now }
{
    match next {
        Move::Step(step) => find_reason_of_step(links, step),
        Move::Rise { link, .. } if *link < links => (2, Mistake::NotSettledThere),
        Move::Rise { .. } | Move::Fill { .. } => (2, Mistake::NoSuchLink),
    }
}

/// The same of a step.
fn find_reason_of_step(links: u8, step: &Step) -> (u8, Mistake)
    ensures { result ≡ why_no_step links step.now }
{
    match step {
        Step::Together { link } if *link < links => (1, Mistake::NotSettled),
        Step::Together { .. } => (1, Mistake::NoSuchLink),
        Step::Arrive { link, .. } if *link < links => (2, Mistake::NothingUnderWay),
        Step::Lose { link, .. } if *link < links => (3, Mistake::NoUnitThere),
        Step::Arrive { .. }
        | Step::Lose { .. }
        | Step::Act { .. }
        | Step::Emit { .. }
        | Step::Inject { .. } => (2, Mistake::NoSuchLink),
    }
}
