//! How a link stands, as level 3 sees it.
ghost use Rattle.std.specs.Prelude.{◌≡◌};
ghost use Rattle.term_managed.specs.Ends.{goes_out, has_heard, level2_of, phase_seen};

use l3_link::{Level2, Phase as PhaseSeen};
use term_bench::{LinkWord, Phase, Turn};

/// How level 2 of a link stands (Q.703 12).
pub(crate) fn level2_of(word: LinkWord) -> Level2
    ensures { result ≡ level2_of word }
{
    match word {
        LinkWord::Out => Level2::Out,
        LinkWord::Paused => Level2::Paused,
        LinkWord::Unaligned
        | LinkWord::Aligned
        | LinkWord::Proving
        | LinkWord::Ready
        | LinkWord::Waiting
        | LinkWord::Up
        | LinkWord::Outage => Level2::Works,
    }
}

/// Where a link is in its life.
pub(crate) fn phase_seen(phase: Phase) -> PhaseSeen
    ensures { result ≡ phase_seen phase }
{
    match phase {
        Phase::Settled => PhaseSeen::Settled,
        Phase::Up => PhaseSeen::Up,
        Phase::Left => PhaseSeen::Left,
    }
}

/// Whether its far end was heard on its way up.
pub(crate) fn has_heard(word: LinkWord) -> bool
    ensures { result ≡ has_heard word }
{
    !matches!(word, LinkWord::Out | LinkWord::Unaligned)
}

/// Whether the link went out of service in this turn.
pub(crate) fn goes_out(turn: &Turn) -> bool
    ensures { result ≡ goes_out turn.now }
{
    matches!(turn.after, LinkWord::Out) && !matches!(turn.before, LinkWord::Out)
}
