//! What the table keeps over every run, that is over every list of inputs from a link out of service. Each
//! function does nothing: its contract is the law, and calling it costs nothing.

ghost use Rattle.l2_state.specs.Laws.{UpOnlyFromReady, StartBetweenDowns};

/// Up is told only from Ready, at a FISU or an MSU that was heard.
pub fn up_only_from_ready()
    ensures { UpOnlyFromReady }
{}

/// Between two Downs there is a Start.
pub fn start_between_downs()
    ensures { StartBetweenDowns }
{}
