//! A law of two ends of one link, over definitions alone.
ghost use Rattle.l2_pcr.specs.Link.{OneLink};

/// Between two ends whose lines keep order and lose any unit: what one end accepted is a prefix of
/// what the other first sent, what counts as acknowledged was accepted, what is unacknowledged is
/// left of what was sent, no unit that comes has an abnormal BSN, and no fault is told.
pub fn one_link()
    ensures { OneLink }
{}
