//! Laws of turns, over definitions alone.
ghost use Rattle.term_late.specs.Late.{AlignmentTakesItsTime};

/// A link that is out of service isn't ready before 4,096 turns, whatever it hears and whatever is commanded; and in that
/// time its terminal asks the set for nothing (Q.703 7.4).
pub fn an_alignment_takes_its_time()
    ensures { AlignmentTakesItsTime }
{}
