//! Laws that speak of definitions alone.
ghost use Rattle.link_term.specs.Running.{RunsAreTurns, RunsTakeWhatWaits};

/// A run is so many turns, each from where the one before it ended. So it takes what waited, oldest first, an octet in each
/// turn as long as any of that is left, and puts one in each as long as a place is left that was free.
pub fn a_run_is_its_turns()
    ensures turns { RunsAreTurns }
    ensures takes { RunsTakeWhatWaits }
{}
