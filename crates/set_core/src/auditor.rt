//! A history as it's told, item by item.
ghost use Rattle.std.specs.Prelude.{◌≡◌, ◌↔◌, IsTrue};
ghost use Rattle.set_core.specs.FirstWrong.{is_actor};
ghost use Rattle.set_model.specs.History.{IsActor};

use super::base::Base;
use super::item::Item;
use super::tally::{LONGEST_HISTORY, Tally};
use set_events::{Actor, Answer, AnswerRef, Books, EventRef, Reply, SetConfig};
use set_step::{Core, SetFault};
use std::alloc::{Allocator, Global};
use std::marker::Model;

/// What is found of an item of a history.
#[derive(Clone, Copy, Debug, Drop, PartialEq, Eq)]
pub enum Finding {
    /// A set makes it.
    Right,
    /// A set answers otherwise ([`Auditor::answer`]).
    WrongAnswer,
    /// No set has such a user or terminal.
    NoSuchActor,
}

/// Hears a history item by item, from the opening of its set or from a base on. It keeps what the set keeps, and the
/// books.
///
/// Once it has found an item wrong it's no use any more.
#[derive(Drop)]
pub struct Auditor<A: Allocator = Global> {
    core: Core<A>,
    /// What the entries so far add up to, with those before the base.
    tally: Tally,
    /// What a set answers to the last entry.
    reply: Reply,
}

impl<A: Allocator> Model for Auditor<A> {
    ghost use Rattle.set_core.specs.Hearing.{Hearing};

    ghost Value = { Hearing };

    ghost use Rattle.set_core.specs.Hearing.{hearing_of, CanGoOn};

    ghost view = { λ a. hearing_of a.core a.tally a.reply };

    ghost invariant = { λ a. CanGoOn (hearing_of a.core a.tally a.reply) };
}

impl<A: Allocator + Copy> Auditor<A> {
    ghost use Rattle.std.specs.Prelude.{◌≡◌, ◌≤◌, ◌↔◌, [], true, List, Ok, Err, IfOk, IfErr, OnOk, MatchResult, length};
    ghost use Rattle.set_core.specs.Hearing.{HasHeard, IsEntry, IsFound, MayWant, answer_after, entry_of, unasked};
    ghost use Rattle.set_core.specs.Items.{books_over, entries_among};
    ghost use Rattle.set_core.specs.declared.item.Item.{Item};
    ghost use Rattle.set_core.specs.declared.item.Item.TheVariants.{Entered, Checkpoint};
    ghost use Rattle.set_events.specs.Lent.{answer_in, event_in};
    ghost use Rattle.set_model.specs.History.{Base as BaseState, longest_history};
    ghost use Rattle.set_model.specs.State.{State, new_state};

    /// Before the first item of a set that was opened with this configuration.
    ///
    /// Fault: 1 [`SetFault::NoMemory`], only where memory was refused.
    pub fn new(alloc: A, config: &SetConfig) -> Result<Auditor<A>, SetFault>
        ensures ok { IfOk result (λ auditor. HasHeard (unasked (new_state config.now)) [] auditor) }
        ensures fault { IfErr result (λ fault. fault ≡ SetFault.NoMemory) }
    {
        let opening = Base::opening(alloc, config)?;
        Auditor::since(&opening)
    }

    /// Before the first item since this base.
    ///
    /// Fault: 1 [`SetFault::NoMemory`], only where memory was refused.
    pub fn since(base: &Base<A>) -> Result<Auditor<A>, SetFault>
        ensures ok { IfOk result (λ auditor. HasHeard base.now [] auditor) }
        ensures fault { IfErr result (λ fault. fault ≡ SetFault.NoMemory) }
    {
        Ok(Auditor {
            core: base.core()?,
            tally: base.tally(),
            reply: Reply::new(),
        })
    }

    /// Hears the next item: an entry is held against what a set answers then, a checkpoint is taken.
    ///
    /// Faults: 2 [`SetFault::Exhausted`] exactly where it's an entry behind 2^48 others, tested first;
    /// 1 [`SetFault::NoMemory`] only where memory was refused. After a fault it has heard what it had heard before, but of
    /// the last answer nothing is said.
    pub fn hear(&mut self, item: &Item) -> Result<Finding, SetFault>
        ensures found { (base : BaseState) (items : List Item) → HasHeard base items self.old
            → MatchResult result (λ finding. IsFound base items item.now finding self.new)
            (λ fault. HasHeard base items self.new) }
        ensures answer { result ≡ Ok Finding.Right → self.new.answer ≡ answer_after item.now self.old.answer }
        ensures memory { result ≡ Err SetFault.NoMemory → MayWant item.now }
        ensures exhausted { (result ≡ Err SetFault.Exhausted)
            ↔ (IsEntry item.now × (longest_history ≤ self.old.tally.entries)) }
    {
        match item {
            Item::Entered(entry) => self.hear_entry(
                entry.who,
                &EventRef::of(&entry.event),
                &AnswerRef::of(&entry.answer),
            ),
            Item::Checkpoint => self.take_checkpoint(),
        }
    }

    /// [`Auditor::hear`] of an entry whose event and answer are lent.
    ///
    /// Faults: 2 [`SetFault::Exhausted`] exactly behind 2^48 others, tested first; 1 [`SetFault::NoMemory`] only where
    /// memory was refused.
    pub fn hear_entry(
        &mut self,
        who: Actor,
        event: &EventRef<'_>,
        answer: &AnswerRef<'_>,
    ) -> Result<Finding, SetFault>
        ensures found { (base : BaseState) (items : List Item) → HasHeard base items self.old
            → MatchResult result
            (λ finding. IsFound base items (Entered (entry_of who (event_in event.now) (answer_in answer.now))) finding self.new)
            (λ fault. HasHeard base items self.new) }
        ensures answer { result ≡ Ok Finding.Right → self.new.answer ≡ answer_in answer.now }
        ensures memory { result ≡ Err SetFault.NoMemory → is_actor who ≡ true }
        ensures exhausted { (result ≡ Err SetFault.Exhausted) ↔ (longest_history ≤ self.old.tally.entries) }
    {
        if self.tally.entries >= LONGEST_HISTORY {
            return Err(SetFault::Exhausted);
        }
        if !can_ask(who) {
            return Ok(Finding::NoSuchActor);
        }
        self.core.apply(event, &mut self.reply)?;
        let right = self.reply.get();
        self.tally.count(who, event, &right);
        if !right.same(answer) {
            return Ok(Finding::WrongAnswer);
        }
        Ok(Finding::Right)
    }

    /// Takes a checkpoint.
    fn take_checkpoint(&mut self) -> Result<Finding, SetFault>
        ensures found { (base : BaseState) (items : List Item) → HasHeard base items self.old
            → MatchResult result (λ finding. IsFound base items Checkpoint finding self.new)
            (λ fault. HasHeard base items self.new) }
        ensures answer { OnOk result (self.new.answer ≡ self.old.answer) }
        ensures fault { IfErr result (λ fault. fault ≡ SetFault.NoMemory) }
    {
        self.core.forget()?;
        Ok(Finding::Right)
    }

    /// What a set answers to the last entry, where its actor is one that a set has; a checkpoint changes nothing of it.
    pub fn answer(&self) -> Answer
        ensures { result ≡ self.now.answer }
    {
        self.reply.answer()
    }

    /// How many entries were heard since the opening, with those before the base, at most 2^48.
    pub fn entries(&self) -> u64
        ensures value { result ≡ self.now.tally.entries }
        ensures heard { (opening : State) (items : List Item) → HasHeard (unasked opening) items self.now
            → result ≡ length (entries_among items) }
        ensures short { result ≤ longest_history }
    {
        self.tally.entries
    }

    /// What all entries since the opening add up to.
    pub fn books(&self) -> Books
        ensures { (base : BaseState) (items : List Item) → HasHeard base items self.now
            → result ≡ books_over base items }
    {
        Books {
            user_calls: self.tally.user_calls,
            term_calls: self.tally.term_calls,
            messages: self.tally.messages,
            octets: self.tally.octets,
            acknowledged: self.core.counts().acked,
        }
    }
}

/// Whether a set has such an actor: a user below 64, a terminal below 16.
fn can_ask(who: Actor) -> bool
    ensures value { result ≡ is_actor who }
    ensures can { IsTrue result ↔ IsActor who }
{
    match who {
        Actor::User(number) => number < 64,
        Actor::Terminal(link) => link < 16,
    }
}
