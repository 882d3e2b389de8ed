//! The law of changeover, over definitions alone.
ghost use Rattle.pair_changeover.specs.Diverted.{EverySoundRunDivertsTheRest};

/// In every sound run, after every step of it: at both ends what counts as acknowledged was accepted, also on links
/// that settled, and no message is discarded. The number of an order that is heard about a link that hasn't settled
/// isn't unreasonable: it's that of the last message that its end accepted there. And when a link settles at an end,
/// of the messages that were first sent on it in that life exactly those that the far end accepted are acknowledged,
/// and exactly the others, then those that wait for it, then those that are held for it as it's left, are moved to the
/// target, in this order (Q.704 5.4, 5.5). Changebacks may be under way (Q.704 6).
pub fn every_sound_run_diverts_the_rest()
    ensures { EverySoundRunDivertsTheRest }
{}
