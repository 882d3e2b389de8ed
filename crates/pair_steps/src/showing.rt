//! What a step shows, where its caller has room for it.
ghost use Rattle.std.specs.Prelude.{◌≡◌, ◌≤◌, length};
ghost use Rattle.pair_steps.specs.Showing.{octets_in, shown_in};

use super::step::Shown;
use set_events::{AnswerRef, Reply};
use std::marker::Model;

/// A [`Shown`] but for its body, which stays where it stands.
#[derive(Clone, Copy)]
pub enum ShownRef<'a> {
    Answered(AnswerRef<'a>),
    Up,
    Lost,
}

/// Whether it shows an answer.
#[derive(Clone, Copy)]
pub(crate) enum Shows {
    Answer,
    Up,
    Loss,
}

/// The place of what a step shows, made once and used again: a [`Shown`] by value has room for 273 octets, which are cleared
/// and moved each time one is made. Contracts see what it shows.
#[derive(Drop)]
pub struct Showing {
    shows: Shows,
    reply: Reply,
}

impl Model for Showing {
    ghost use Rattle.pair_steps.specs.declared.step.Shown.{Shown};
    ghost use Rattle.pair_steps.specs.Showing.{shown_with};

    ghost Value = { Shown };

    ghost view = { λ s. shown_with s.shows s.reply };
}

impl Showing {
    ghost use Rattle.std.specs.Prelude.{◌≡◌, ◌≤◌, length};
    ghost use Rattle.std.specs.Borrow.{sem};
    ghost use Rattle.set_events.specs.declared.answer.Answer.TheVariants.{Done};
    ghost use Rattle.pair_steps.specs.declared.step.Shown.TheVariants.{Answered, Lost, Up};
    ghost use Rattle.pair_steps.specs.Lending.{LendsAnswer};

    /// It shows that the end answered that all is done.
    pub fn new() -> Showing
        ensures { result ≡ Answered Done }
    {
        Showing {
            shows: Shows::Answer,
            reply: Reply::new(),
        }
    }

    /// The link came up, at both ends or at the one that it was to come up at.
    pub fn set_up(&mut self)
        ensures { self.new ≡ Up }
    {
        self.shows = Shows::Up;
    }

    /// A unit was lost.
    pub fn set_lost(&mut self)
        ensures { self.new ≡ Lost }
    {
        self.shows = Shows::Loss;
    }

    /// The end answers: the place of its answer, in which any answer may stand at first.
    pub fn reply(&mut self) -> &mut Reply
        ensures* { sem 𝓛 (LendsAnswer self.entry result) }
    {
        self.shows = Shows::Answer;
        &mut self.reply
    }

    /// What it shows, with its body left in it.
    pub fn get(&self) -> ShownRef<'_>
        ensures value { shown_in result ≡ self.now }
        ensures few { length (octets_in result) ≤ 273 }
    {
        match self.shows {
            Shows::Answer => ShownRef::Answered(self.reply.get()),
            Shows::Up => ShownRef::Up,
            Shows::Loss => ShownRef::Lost,
        }
    }

    /// What it shows, by itself.
    pub fn shown(&self) -> Shown
        ensures { result ≡ self.now }
    {
        match self.shows {
            Shows::Answer => Shown::Answered(self.reply.answer()),
            Shows::Up => Shown::Up,
            Shows::Loss => Shown::Lost,
        }
    }
}
