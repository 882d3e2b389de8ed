//! Laws of two ends, over definitions alone.
ghost use Rattle.pair_model.specs.Promises.{EveryHonestRunKeepsLinks};

/// In every honest run (one in which no unit is heard that wasn't sent), after every step of it, and on each link in both directions: the bodies that the
/// far end accepted are the first of those that were sent, in order, and what counts as acknowledged was
/// accepted, for as long as the link isn't settled. And no unit that is heard tells a fault. So it is with
/// either error control, whatever the lines lose, and also when one end has left a link, or both have
/// (Q.703 5 and 6).
pub fn every_honest_run_keeps_links()
    ensures { EveryHonestRunKeepsLinks }
{}
