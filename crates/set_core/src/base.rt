//! What a set goes on from: what it held at its last checkpoint, or when it was opened.
ghost use Rattle.std.specs.Prelude.{◌≡◌};

use super::tally::{LONGEST_HISTORY, Tally};
use boxcar::tag::Tag;
use set_events::{Books, Counts, Fate, Finished, SetConfig};
use set_step::{Core, SetFault};
use std::alloc::{AllocError, Allocator, Global};
use std::marker::Model;

/// What a set held at its last checkpoint, or when it was opened, and what its history had added up to by then: from
/// here on the set's history is the entries since.
///
/// The messages of which nothing more could become left it, and are counted: those that are there and these counts
/// add up to the numbers given out.
///
/// Readers: [`Base::place_of`], [`Base::numbers_given`], [`Base::finished`], [`Base::counts`], [`Base::books`],
/// [`Base::entries`].
#[derive(Drop)]
pub struct Base<A: Allocator = Global> {
    core: Core<A>,
    tally: Tally,
    /// The numbers of the messages in the order of queueing, which the core doesn't keep across its links: contracts
    /// alone see them.
    order: Tag,
}

impl<A: Allocator> Model for Base<A> {
    ghost use Rattle.set_model.specs.History.{Base as BaseState};

    ghost Value = { BaseState };

    ghost use Rattle.std.specs.Prelude.{[]};
    ghost use Rattle.set_core.specs.Keeping.{IsKept, base_of};

    ghost view = { λ b. base_of b.order.numbers b.core b.tally };

    ghost invariant = { λ b. IsKept (base_of b.order.numbers b.core b.tally) b.core b.tally [] };
}

impl<A: Allocator + Copy> Base<A> {
    ghost use Rattle.std.specs.Prelude.{◌≤◌, ◌+◌, [], IfOk, IfErr};
    ghost use Rattle.set_model.specs.Checkpoint.{counts_in};
    ghost use Rattle.set_model.specs.History.{entries_of, longest_history, opening_of};
    ghost use Rattle.set_model.specs.Rows.{place};
    ghost use Rattle.set_model.specs.Sound.{AreFew};
    ghost use Rattle.set_model.specs.State.{given};
    ghost use Rattle.set_core.specs.Gaining.{AreBounded};
    ghost use Rattle.set_core.specs.Keeping.{IsKept, base_of};
    ghost use Rattle.set_changeover.specs.Agreement.{Agrees, Kept};

    /// A set as this configuration has it, before anything was asked of it: no messages, no link up, and books of
    /// nothing.
    ///
    /// Fault: 1 [`SetFault::NoMemory`], only where memory was refused.
    pub fn opening(alloc: A, config: &SetConfig) -> Result<Base<A>, SetFault>
        ensures ok { IfOk result (λ base. base ≡ opening_of config.now) }
        ensures fault { IfErr result (λ fault. fault ≡ SetFault.NoMemory) }
    {
        Ok(Base {
            core: Core::new(alloc, config)?,
            tally: Tally::new(),
            order: Tag::empty(),
        })
    }

    /// What is kept so, and what was added up by then.
    pub(crate) fn of(core: Core<A>, tally: Tally, order: Tag) -> Base<A>
        requires { IsKept (base_of order.numbers core tally) core tally [] }
        ensures { result ≡ base_of order.numbers core tally }
    {
        Base { core, tally, order }
    }

    /// A core that goes on from here. It fails only where memory was refused.
    pub(crate) fn core(&self) -> Result<Core<A>, AllocError>
        ensures { IfOk result (λ core. Agrees core self.now.state) }
    {
        self.core.copied()
    }

    /// What was added up by then.
    pub(crate) fn tally(&self) -> Tally
        ensures { (kept : Kept) × IsKept self.now kept result [] }
    {
        self.tally
    }

    /// Where the message of this number stands; none is here that has it, since it left or was never given out: `None`.
    pub fn place_of(&self, number: u64) -> Option<Fate>
        ensures { result ≡ place number self.now.state.rows }
    {
        self.core.place_of(number)
    }

    /// How many numbers were given out, to users' messages and orders together.
    pub fn numbers_given(&self) -> u64
        ensures { result ≡ given self.now.state }
    {
        self.core.numbers_given()
    }

    /// How many messages left since the opening.
    pub fn finished(&self) -> Finished
        ensures { result ≡ self.now.state.finished }
    {
        self.core.finished()
    }

    /// How many of the users' messages stand in each place, or ended there.
    pub fn counts(&self) -> Counts
        ensures { result ≡ counts_in self.now.state }
    {
        self.core.counts()
    }

    /// What the history had added up to.
    pub fn books(&self) -> Books
        ensures value { result ≡ self.now.books }
        ensures bounded { AreBounded result }
    {
        Books {
            user_calls: self.tally.user_calls,
            term_calls: self.tally.term_calls,
            messages: self.tally.messages,
            octets: self.tally.octets,
            acknowledged: self.core.counts().acked,
        }
    }

    /// How many entries were made from the opening to here, at most 2^48.
    pub fn entries(&self) -> u64
        ensures value { result ≡ entries_of self.now [] }
        ensures short { result ≤ longest_history }
    {
        self.tally.entries
    }

    /// How many entries more a set can make, and a law: no whole number of a link is greater than the entries so far.
    pub(crate) fn room(&self) -> u64
        ensures value { entries_of self.now [] + result ≡ longest_history }
        ensures few { AreFew (entries_of self.now []) self.now.state }
    {
        LONGEST_HISTORY - self.tally.entries
    }
}
