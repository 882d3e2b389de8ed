//! Laws over definitions alone.
ghost use Rattle.script_walk.specs.Reasons.{EveryReasonIsSo};
ghost use Rattle.script_walk.specs.Runs.{EveryScriptIsARun, RisesLeadAlike, StepsLeadAlike};

/// A script that ends without a fault is a run: its first line makes the two ends, and the moves that its other lines ask
/// for lead from them, one after another, to the world of which its end tells. Of such a run
/// `pair_world::World::play_moves` tells what holds.
pub fn every_script_is_a_run()
    ensures { EveryScriptIsARun }
{}

/// Moves that are all steps lead where these lead, and stop where these stop: so of a script without `rise` and `fill`
/// `pair_world::World::play` tells what holds.
pub fn steps_lead_alike()
    ensures { StepsLeadAlike }
{}

/// Where moves lead to a world they lead there, too, with two rises in the place of each step by which a link comes up at
/// both ends together: so of a script that has both kinds `pair_world::World::play_moves` tells what holds.
pub fn rises_lead_alike()
    ensures { RisesLeadAlike }
{}

/// Of every world, and every line whose move can't be made there: the reason that `text_forms::blame_impossible` tells
/// of it is so. The world has no such link; the link isn't settled at both ends, or at the one where it's to come up; no
/// unit is under way on it; or none has that place.
pub fn every_reason_is_so()
    ensures { EveryReasonIsSo }
{}
