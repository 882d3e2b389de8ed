//! Laws that speak of definitions alone.
ghost use Rattle.term_bench.specs.Laws.{TurnsAreOfTerminals};
ghost use Rattle.term_bench.specs.Ready.{EachIsHeard};
ghost use Rattle.term_bench.specs.Talks.{TalksAreLegal};
ghost use Rattle.term_bench.specs.Waiting.{AsManyArePut, OctetsAreWhole, OneHearing};
ghost use Rattle.term_model.specs.Choosing.{Filled};

/// A law: a turn by an octet is a terminal's turn at a door that answers by the set's step, and its entries are legal.
pub fn turns_are_steps_of_the_set()
    ensures talks { TalksAreLegal Filled }
    ensures turns { TurnsAreOfTerminals }
{}

/// A law: where no bit waits, the octet that is whole with an octet's bits is this one.
pub fn octets_are_whole()
    ensures { OctetsAreWhole }
{}

/// A law: as many octets are put as come.
pub fn as_many_octets_are_put()
    ensures { AsManyArePut }
{}

/// A law: bits that come, in whatever pieces, decide what the turns do, the units that they append, and what the bench is
/// then. And in pieces of an octet at most they are heard, at each link of a bench whose set is of the narrow profile.
pub fn bits_have_one_hearing()
    ensures one { OneHearing }
    ensures there { EachIsHeard }
{}
