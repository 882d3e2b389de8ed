//! What the table keeps over every run, that is over every list of inputs from a new machine. Each function does
//! nothing: its contract is the law, and calling it costs nothing.

ghost use Rattle.l2_align.specs.Laws.{CompletesUnbroken, FifthAbortEnds, NewAfterEnd};

/// Complete is told only at an end of T4 since whose start no abort came (Q.703 7.3).
pub fn complete_only_after_unbroken_proving()
    ensures { CompletesUnbroken }
{}

/// Since Aligned was left for proving, the fifth abort that counts gives NotPossible, and no earlier one does. An
/// abort that comes while another waits for a good unit doesn't count: it's ignored.
pub fn fifth_abort_is_not_possible()
    ensures { FifthAbortEnds }
{}

/// After Complete and after NotPossible the machine is as new.
pub fn new_after_each_end()
    ensures { NewAfterEnd }
{}
