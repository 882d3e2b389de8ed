//! An entry where it's kept.
use set_events::{Actor, Answer, AnswerRef, Entry, Event, EventRef};
use std::alloc::{AllocError, Global};
use std::marker::Model;

/// An entry of a history, where it's kept. Contracts see the entry.
#[derive(Drop)]
pub struct EntryRef<'a> {
    pub(crate) who: Actor,
    pub(crate) asked: EventRef<'a>,
    pub(crate) answered: AnswerRef<'a>,
}

impl<'a> Model for EntryRef<'a> {
    ghost use Rattle.std.specs.Prelude.{◌≤◌, length};
    ghost use Rattle.set_events.specs.declared.history.Entry.{Entry as SetEntry};
    ghost use Rattle.set_events.specs.Lent.{HasFitUnit, answer_in, body_in, event_in};

    ghost Value = { SetEntry };

    ghost view = { λ t. record { who = t.who; event = event_in t.asked; answer = answer_in t.answered } };

    ghost invariant = { λ t. HasFitUnit t.asked × (length (body_in t.answered) ≤ 273) };
}

impl<'a> EntryRef<'a> {
    ghost use Rattle.std.specs.Prelude.{◌≡◌, ◌≤◌, ◌↔◌, IfOk, IsTrue, length};
    ghost use Rattle.set_events.specs.Lent.{HasFitUnit, answer_in, body_in, event_in};

    /// Who asked.
    pub fn who(&self) -> Actor
        ensures { result ≡ self.now.who }
    {
        self.who
    }

    /// What was asked, where it's kept.
    pub fn asked(&self) -> EventRef<'a>
        ensures value { event_in result ≡ self.now.event }
        ensures fits { HasFitUnit result }
    {
        self.asked
    }

    /// What was answered, where it's kept.
    pub fn answered(&self) -> AnswerRef<'a>
        ensures value { answer_in result ≡ self.now.answer }
        ensures few { length (body_in result) ≤ 273 }
    {
        self.answered
    }

    /// What was asked, by itself; it fails only where memory is wanted.
    pub fn event(&self, alloc: Global) -> Result<Event, AllocError>
        ensures { IfOk result (λ event. event ≡ self.now.event) }
    {
        self.asked().event(alloc)
    }

    /// What was answered, by itself. It takes no memory.
    pub fn answer(&self) -> Answer
        ensures { result ≡ self.now.answer }
    {
        self.answered().answer()
    }

    /// The entry by itself; it fails only where memory is wanted.
    pub fn entry(&self, alloc: Global) -> Result<Entry, AllocError>
        ensures { IfOk result (λ entry. entry ≡ self.now) }
    {
        Ok(Entry {
            who: self.who(),
            event: self.event(alloc)?,
            answer: self.answer(),
        })
    }

    /// Whether it's the same as this entry, octet by octet. It takes no memory.
    pub fn is(&self, entry: &Entry) -> bool
        ensures { IsTrue result ↔ (self.now ≡ entry.now) }
    {
        self.who().same(entry.who)
            && self.asked().same(&EventRef::of(&entry.event))
            && self.answered().same(&AnswerRef::of(&entry.answer))
    }

    /// Whether both are the same, octet by octet. It takes no memory.
    pub fn same(&self, other: &EntryRef<'_>) -> bool
        ensures { IsTrue result ↔ (self.now ≡ other.now) }
    {
        self.who().same(other.who())
            && self.asked().same(&other.asked())
            && self.answered().same(&other.answered())
    }
}
