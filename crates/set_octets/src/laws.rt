//! Laws of a set's step, over definitions alone.
ghost use Rattle.set_octets.specs.Lives.{DownEnds, LateOrdersAreCounted, OnlyUpBegins, OthersAreRefused, UpBegins, UpIsServed};
ghost use Rattle.set_octets.specs.Octets.{StepsGiveOctets};
ghost use Rattle.set_octets.specs.Starting.{FirstFisusChangeNothing, NoneIsHeardTillThen};

/// Where the octets of what a set is asked are below 256, so are those of what it holds and gives, and a message that
/// it gives has 3 octets to 273, as a unit has (Q.703 2.2).
pub fn a_set_gives_octets()
    ensures { StepsGiveOctets }
{}

/// A FISU of an end that sent and accepted nothing, as a terminal sends it before its set has the link up, changes
/// nothing at a set that has the link up and heard nothing of the far end there yet; and that's so from when the link
/// comes up, whatever is sent on it, till a unit is heard on it (Q.703 5, 6, 12.1).
pub fn a_first_fisu_changes_nothing()
    ensures fisu { FirstFisusChangeNothing }
    ensures till_then { NoneIsHeardTillThen }
{}

/// A link that is settled comes up by Up, and by nothing else. Where a link is there, but isn't up, Next, Heard, Down
/// and DownBlind are refused 5, and change nothing. Where it's up Next gives a unit, and no unit heard is refused 5; by
/// Down it's up no more (Q.704 5).
pub fn only_up_begins_a_life()
    ensures only { OnlyUpBegins }
    ensures begins { UpBegins }
    ensures refused { OthersAreRefused }
    ensures served { UpIsServed }
    ensures ends { DownEnds }
{}

/// Of the changeover orders about a link that came when it was settled a step counts one more, modulo 2^32, or none;
/// and nothing that it does takes from what was counted (own; Q.704 5.4.2).
pub fn an_order_is_counted_once()
    ensures { LateOrdersAreCounted }
{}
