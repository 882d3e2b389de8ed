//! Laws of two ends joined by lines of octets, over definitions alone.
ghost use Rattle.pair_octets.specs.Calm.{EachStatusIsPlain};
ghost use Rattle.pair_octets.specs.Flushed.{EachReadyLinkIsFlushed};
ghost use Rattle.pair_octets.specs.Passing.{EachUnitIsHeard};
ghost use Rattle.pair_octets.specs.Ring.{LoopsAreRings};

/// Whichever end takes its turns when: as many octets are under way on a link as at first; and what an end takes so many
/// turns after it put an octet, the other put in the turn in which it took that octet.
pub fn a_loop_is_a_ring()
    ensures { LoopsAreRings }
{}

/// On lines that lose and change nothing each end of a link hears what the other's terminal sent, unit by unit, in order,
/// and nothing else, whichever end takes its turns when, whatever is started, stopped and asked (Q.703 2 to 4).
pub fn each_unit_is_heard()
    ensures { EachUnitIsHeard }
{}

/// A link that is ready has heard all units that were sent to it before its proving period, in order, if no more than 3,700
/// octets are under way on it, both ways together: none of a former life comes later (Q.703 7.4).
pub fn a_ready_link_is_flushed()
    ensures { EachReadyLinkIsFlushed }
{}

/// Where no end is told that it's busy no terminal sends SIB or SIPO, whatever comes on its line: each status on a line is
/// that of a link which isn't in service (Q.703 11.1).
pub fn each_status_is_plain()
    ensures { EachStatusIsPlain }
{}
