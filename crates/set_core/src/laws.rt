//! Laws that speak of lists of items alone.
ghost use Rattle.set_core.specs.Items.{AreAsEntries, RunOn};

/// Items without a checkpoint are legal exactly where their entries are a legal history, and they lead to the same
/// state and the same books.
pub fn no_checkpoint_changes_nothing()
    ensures { AreAsEntries }
{}

/// A piece and what stands behind its checkpoint are legal exactly where the piece is a legal history from its base,
/// and the rest is legal from the base that the set made of it; they lead to the same state and the same books.
pub fn pieces_run_on()
    ensures { RunOn }
{}
