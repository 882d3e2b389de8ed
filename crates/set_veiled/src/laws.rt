//! Laws of a set's step, over definitions alone.
ghost use Rattle.set_veiled.specs.Veil.{VeilsKeepSteps, VeilsStaySound};

/// A set with a settled link does the same as one that left this link at once and in silence, but for what brings the link
/// up, gives it up, or is an order about it.
pub fn a_link_not_joined_is_one_left_in_silence()
    ensures same { VeilsKeepSteps }
    ensures sound { VeilsStaySound }
{}
