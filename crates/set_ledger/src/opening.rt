//! What a set was opened with, as its type tells it, and the six ledgers that it names so.

use std::marker::{Brand, PhantomData};
use std::sync::ledger::Ledger;

/// What a set was opened with, as its type tells contracts: a value under a lock has no name there, but its type has.
/// Whoever opens a set picks it.
pub trait Opening {
    ghost use Rattle.set_ledger.specs.declared.share.Blanks.{Blanks};
    ghost use Rattle.set_model.specs.State.{Settings};

    /// The blanks of its six ledgers, which name those.
    ghost blanks: { Blanks };

    /// Its configuration's settings.
    ghost settings: { Settings };
}

impl Opening for Brand {
    ghost use Rattle.set_ledger.specs.Openings.{no_blanks, no_settings};

    ghost blanks = { no_blanks };

    ghost settings = { no_settings };
}

/// The ledger of a set's calls.
pub(crate) struct Calls<O>(PhantomData<O>);

/// The ledger of its accepted messages.
pub(crate) struct Messages<O>(PhantomData<O>);

/// The ledger of their octets.
pub(crate) struct Octets<O>(PhantomData<O>);

/// The ledger of its acknowledged messages.
pub(crate) struct Acknowledged<O>(PhantomData<O>);

/// The ledger of a set whose history is full: it has an amount only then.
pub(crate) struct Full<O>(PhantomData<O>);

/// The ledger of its checkpoints.
pub(crate) struct Checkpoints<O>(PhantomData<O>);

impl<O: Opening> Ledger for Calls<O> {
    ghost name = { O.blanks.calls.name };

    ghost parts = { O.blanks.calls.parts };
}

impl<O: Opening> Ledger for Messages<O> {
    ghost name = { O.blanks.messages.name };

    ghost parts = { O.blanks.messages.parts };
}

impl<O: Opening> Ledger for Octets<O> {
    ghost name = { O.blanks.octets.name };

    ghost parts = { O.blanks.octets.parts };
}

impl<O: Opening> Ledger for Acknowledged<O> {
    ghost name = { O.blanks.acknowledged.name };

    ghost parts = { O.blanks.acknowledged.parts };
}

impl<O: Opening> Ledger for Full<O> {
    ghost name = { O.blanks.full.name };

    ghost parts = { O.blanks.full.parts };
}

impl<O: Opening> Ledger for Checkpoints<O> {
    ghost name = { O.blanks.checkpoints.name };

    ghost parts = { O.blanks.checkpoints.parts };
}
