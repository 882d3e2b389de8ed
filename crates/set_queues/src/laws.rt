//! Laws of the lists, over definitions alone.
ghost use Rattle.set_queues.specs.Settling.{SettlingMovesTheQueues};
ghost use Rattle.set_queues.specs.Queues.{EachNumberStandsOnce, FatesMoveWithTheirNumbers};

/// A link that settles has no message left; all that stood on it stand last where they went: first those
/// that were sent, then those that waited, then those that were held, each in their order; and no other
/// queue is touched (Q.704 5.5).
pub fn settling_moves_the_queues()
    ensures { SettlingMovesTheQueues }
{}

/// Each number below the count stands in exactly one queue, or in none if its fate is final, and no
/// other number in any.
#[tactic(auto, using(crate::proofs::Standing::laws))]
pub fn each_number_stands_once()
    ensures { EachNumberStandsOnce }
{}

/// A message that moves has its new fate, and every other keeps its own; none changes its octets, and
/// none is lost.
#[tactic(auto, using(crate::proofs::Tallies::laws))]
pub fn fates_move_with_their_numbers()
    ensures { FatesMoveWithTheirNumbers }
{}
