//! Laws that speak of definitions alone.
ghost use Rattle.term_managed.specs.Laws.{EachIsHeard, IsBenchWhileOff, OneHearing};

/// A law: with a link that isn't activated the end does what its bench does.
pub fn a_link_that_is_off_is_the_benchs()
    ensures { IsBenchWhileOff }
{}

/// A law: bits that come, in whatever pieces, decide what the turns do, what is asked behind them, and what the end is
/// then. And in pieces of an octet at most they are heard, at each link of an end whose set is of the narrow profile: what
/// is asked behind a turn comes to an end.
pub fn what_comes_has_one_hearing()
    ensures one { OneHearing }
    ensures there { EachIsHeard }
{}
