//! Laws of two ends whose links come up one after the other, over definitions alone.
ghost use Rattle.pair_rises.specs.Counted.{EveryMissedLifeIsCounted};
ghost use Rattle.pair_rises.specs.Diverted.{EveryRisingRunAcksTheTaken, EveryRisingRunDivertsTheRest, EveryRisingRunTellsNumbers};
ghost use Rattle.pair_rises.specs.Handed.{EveryIdleRisingRunAccountsForAll, EveryIdleRisingRunHandsOutAll, EveryHonestRisingRunHandsOutAll, EveryRisingRunHandsOutAPart, EveryRisingRunHandsOutInOrder};
ghost use Rattle.pair_rises.specs.Kept.{EveryHonestRisingRunKeepsLinks};
ghost use Rattle.pair_rises.specs.Rises.{EveryRisingRunKeepsStreams, EveryRisingRunKeepsOrder, TogetherIsTwoRises};

/// Whatever is lost, and also where a changeover is given up: on each link, as it's seen, the bodies that the far end
/// accepted are the first of those that were sent in its present life, and what counts as acknowledged was accepted,
/// for as long as the link isn't settled. An end that hasn't joined a life, or missed it, sent and accepted nothing in
/// it. And no unit that is heard tells a fault (Q.703 5 and 6).
pub fn every_honest_rising_run_keeps_links()
    ensures { EveryHonestRisingRunKeepsLinks }
{}

/// Without emergencies nothing is discarded, and of each link, as it's seen, what counts as acknowledged was
/// accepted. And when a link settles at an end, of the messages that were first sent on it in that life exactly those
/// that the far end accepted are acknowledged, and exactly the others, then those that wait for it, then those that
/// are held for it as it's left, are moved to the target, in this order (Q.704 5.4, 5.5).
pub fn every_rising_run_diverts_the_rest()
    ensures { EveryRisingRunDivertsTheRest }
{}

/// In emergencies too the number of an order that is heard about a link that hasn't settled is that of the last
/// message that its end accepted there, so it isn't unreasonable.
pub fn every_rising_run_tells_numbers()
    ensures { EveryRisingRunTellsNumbers }
{}

/// Of each link, as it's seen, settled or not, what counts as acknowledged was accepted by the far end.
pub fn every_rising_run_acks_the_taken()
    ensures { EveryRisingRunAcksTheTaken }
{}

/// Each stream arrives whole and in order, whichever end of a link comes up first, and whenever the other follows.
pub fn every_rising_run_keeps_streams()
    ensures { EveryRisingRunKeepsStreams }
{}

/// In emergencies what arrives of a stream is an in-order part of it.
pub fn every_rising_run_keeps_order()
    ensures { EveryRisingRunKeepsOrder }
{}

/// A link that comes up at both ends together does what one does that comes up at one end and then at the other.
pub fn together_is_two_rises()
    ensures { TogetherIsTwoRises }
{}

/// What users took of a stream is the first of what was offered at the other end: none is missing among them,
/// doubled, changed or out of order.
pub fn every_rising_run_hands_out_in_order()
    ensures { EveryRisingRunHandsOutInOrder }
{}

/// In emergencies it's some of what was offered there, in its order.
pub fn every_rising_run_hands_out_a_part()
    ensures { EveryRisingRunHandsOutAPart }
{}

/// In every honest run what users took, and then what the inbox holds, are the bodies of what was got.
pub fn every_honest_rising_run_hands_out_all()
    ensures { EveryHonestRisingRunHandsOutAll }
{}

/// Where no message of the users waits, is unacknowledged, held, parked or waits for a changeback at either end, the
/// users of each got all that the other's users offered, and took it, or find it in the inbox.
pub fn every_idle_rising_run_hands_out_all()
    ensures { EveryIdleRisingRunHandsOutAll }
{}

/// In emergencies they got each message, or it was discarded in one.
pub fn every_idle_rising_run_accounts_for_all()
    ensures { EveryIdleRisingRunAccountsForAll }
{}

/// An end misses a life only by a changeover order that its set counts as late about that link.
pub fn every_missed_life_is_counted()
    ensures { EveryMissedLifeIsCounted }
{}
