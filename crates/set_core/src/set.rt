//! The set: what it goes on from, what it holds, and the history of all that was asked and answered since.
ghost use Rattle.std.specs.Prelude.{◌≡◌};
ghost use Rattle.set_model.specs.Checkpoint.{checkpointed};
ghost use Rattle.set_model.specs.Rows.{numbers};

use super::base::Base;
use super::tally::{LONGEST_HISTORY, Tally};
use boxcar::tag::{Names, Tag};
use set_events::{Actor, Answer, Books, Counts, Event, EventRef, Fate, Reply, SetConfig};
use set_history::{History, Reader};
use set_route::Place;
use set_step::{Core, Numbered, SetFault};
use std::alloc::{AllocError, Allocator, Global};
use std::marker::Model;

/// One set of links. Contracts see its base, which is the opening or its last checkpoint, what it holds, and its
/// history since the base.
///
/// Readers: [`SetCore::base`], [`SetCore::place_of`], [`SetCore::counts`], [`SetCore::books`],
/// [`SetCore::acknowledged`], [`SetCore::entries`], [`SetCore::history`], [`SetCore::config`], [`SetCore::links`],
/// [`SetCore::is_up`], [`SetCore::is_settled`], [`SetCore::late`], [`SetCore::unacked_at`], [`SetCore::push_numbers_on`],
/// [`SetCore::stream_place`], [`SetCore::waiting_on`], [`SetCore::unacked_on`], [`SetCore::held_on`], [`SetCore::unsent`],
/// [`SetCore::inbox_len`].
/// The one input: [`SetCore::apply`], or [`SetCore::apply_into`], which leaves a body where it stands and puts the answer into a
/// place that the caller lends. [`SetCore::checkpoint`] makes what it holds its base.
///
/// What it holds is what the history leads to from the base. Of every value it holds that the history
/// is legal, that what is kept ([`SetCore::kept`]) agrees with what it leads to, and that the tally is that of
/// all entries since the opening; [`SetCore::replays`] and the readers say so.
#[derive(Drop)]
pub struct SetCore<A: Allocator = Global> {
    config: SetConfig,
    base: Base<A>,
    core: Core<A>,
    tally: Tally,
    history: History<A>,
}

impl<A: Allocator> Model for SetCore<A> {
    ghost use Rattle.set_model.specs.History.{LinkSet};

    ghost Value = { LinkSet };

    ghost use Rattle.std.specs.Prelude.{◌≡◌};
    ghost use Rattle.set_model.specs.State.{settings_of};
    ghost use Rattle.set_core.specs.Keeping.{with_history, IsKept};

    ghost view = { λ s. with_history s.base s.history.items };

    ghost invariant = { λ s. (IsKept s.base s.core s.tally s.history.items)
        × (settings_of s.config ≡ s.base.state.settings) };
}

/// The messages that a checkpoint keeps, in the order of queueing.
struct KeptRows;

impl<A: Allocator + Copy> Names<SetCore<A>> for KeptRows {
    ghost numbers = { λ set. numbers (checkpointed set.state).rows };
}

impl<A: Allocator + Copy> SetCore<A> {
    ghost use Rattle.std.specs.Prelude.{◌≡◌, ◌<◌, ◌≤◌, ◌^◌, ◌↔◌, ◌+◌, ◌++◌, IfOk, IfErr, OnOk, OnErr, length, sum};
    ghost use Rattle.set_model.specs.State.{given, settings_of, link_count, is_up as is_up_in, is_settled as is_settled_in, late_at, unacked_in};
    ghost use Rattle.set_model.specs.Sound.{IsSound};
    ghost use Rattle.set_model.specs.Rows.{held, numbers as numbers_of, place, total_of, unack, unsent, wait};
    ghost use Rattle.set_model.specs.Checkpoint.{counts_in};
    ghost use Rattle.set_core.specs.Gaining.{BooksGain, AreBounded};
    ghost use Rattle.set_route.specs.Routing.{place_of as place_of_stream};
    ghost use Rattle.set_events.specs.Lent.{HasFitUnit, event_in};
    ghost use Rattle.set_changeover.specs.Agreement.{Agrees};
    ghost use Rattle.set_model.specs.History.{new_set, based, IsStep, IsActor, IsLegal, after, books_in, entries_in, longest_history};

    /// A set as this configuration has it: no messages, no link up, no history.
    ///
    /// Fault: 1 [`SetFault::NoMemory`], only where memory was refused.
    pub fn new(alloc: A, config: &SetConfig) -> Result<SetCore<A>, SetFault>
        ensures ok { IfOk result (λ set. set ≡ new_set config.now) }
        ensures fault { IfErr result (λ fault. fault ≡ SetFault.NoMemory) }
    {
        Ok(SetCore {
            config: *config,
            base: Base::opening(alloc, config)?,
            core: Core::new(alloc, config)?,
            tally: Tally::new(),
            history: History::new(alloc),
        })
    }

    /// What the set answers to this event of this actor. The answer and what the set holds then are
    /// those of its step, and the entry stands last in the history. The books gain a call of the
    /// actor, and the message if one was accepted.
    ///
    /// Refusals are answers. Faults: 2 [`SetFault::Exhausted`] exactly where 2^48 entries were made
    /// since the opening, tested first; 1 [`SetFault::NoMemory`] only where memory was refused. After a fault
    /// the set is as it was, and no entry was made.
    pub fn apply(&mut self, who: Actor, event: &Event) -> Result<Answer, SetFault>
        requires { IsActor who }
        ensures ok { IfOk result (λ answer. IsStep self.old who event.now answer self.new) }
        ensures gains { IfOk result
            (λ answer. BooksGain (books_in self.old) who event.now answer (books_in self.new)) }
        ensures bounded { IfOk result (λ answer. AreBounded (books_in self.new)) }
        ensures exhausted { (result ≡ Err SetFault.Exhausted)
            ↔ (longest_history ≤ entries_in self.old) }
        ensures err { OnErr result (self.new ≡ self.old) }
    {
        let mut reply = Reply::new();
        self.apply_into(who, &EventRef::of(event), &mut reply)?;
        Ok(reply.answer())
    }

    /// [`SetCore::apply`] of an event whose body stays where it stands, with the answer put into `reply`, whatever stood
    /// there. Condition: a unit that is heard has a body of at most 273 octets.
    ///
    /// Faults: as of [`SetCore::apply`]; of what stands in `reply` then nothing is said.
    pub fn apply_into(
        &mut self,
        who: Actor,
        event: &EventRef<'_>,
        reply: &mut Reply,
    ) -> Result<(), SetFault>
        requires actor { IsActor who }
        requires fits { HasFitUnit event.now }
        ensures ok { OnOk result (IsStep self.old who (event_in event.now) reply.new self.new) }
        ensures gains { OnOk result
            (BooksGain (books_in self.old) who (event_in event.now) reply.new (books_in self.new)) }
        ensures bounded { OnOk result (AreBounded (books_in self.new)) }
        ensures exhausted { (result ≡ Err SetFault.Exhausted)
            ↔ (longest_history ≤ entries_in self.old) }
        ensures err { OnErr result (self.new ≡ self.old) }
    {
        if self.entries() >= LONGEST_HISTORY {
            return Err(SetFault::Exhausted);
        }
        self.history.reserve(event)?;
        self.core.apply(event, reply)?;
        let answer = reply.get();
        self.tally.count(who, event, &answer);
        self.history.push(who, event, &answer);
        Ok(())
    }

    /// A checkpoint: what the set holds becomes its base, its history begins anew, and each message of which nothing
    /// more can become leaves it and is counted. Books and counts stay as they are, and so does each other message,
    /// with its number, its body, its fate and its place in the order of queueing.
    ///
    /// It's no event and makes no entry. Fault: 1 [`SetFault::NoMemory`], only where memory was refused; the set is
    /// then as it was.
    pub fn checkpoint(&mut self) -> Result<(), SetFault>
        ensures ok { OnOk result (self.new ≡ based self.old) }
        ensures books { OnOk result (books_in self.new ≡ books_in self.old) }
        ensures counts { OnOk result (counts_in self.new.state ≡ counts_in self.old.state) }
        ensures entries { OnOk result (entries_in self.new ≡ entries_in self.old) }
        ensures err { OnErr result (self.new ≡ self.old) }
        ensures fault { IfErr result (λ fault. fault ≡ SetFault.NoMemory) }
    {
        let kept = self.core.kept()?;
        let order = Tag::of::<SetCore<A>, KeptRows>(self);
        self.core.forget()?;
        // all memory is taken by now
        self.base = Base::of(kept, self.tally, order);
        self.history.clear();
        Ok(())
    }

    /// What the set goes on from, and its history starts at: the opening, or its last checkpoint.
    pub fn base(&self) -> &Base<A>
        ensures { result.now ≡ self.now.base }
    {
        &self.base
    }

    /// The configuration that the set was opened with. Contracts see of it the settings, which no event and no
    /// checkpoint changes.
    pub fn config(&self) -> &SetConfig
        ensures { settings_of result.now ≡ self.now.base.state.settings }
    {
        &self.config
    }

    /// How many links the set has, 1 to 16.
    pub fn links(&self) -> u8
        ensures links { result ≡ link_count self.now.state }
        ensures few { (1 ≤ result) × (result ≤ 16) }
    {
        self.core.links()
    }

    /// Whether this link of the set is up.
    pub fn is_up(&self, link: u8) -> bool
        ensures { result ≡ is_up_in link self.now.state }
    {
        self.core.is_up(link)
    }

    /// Whether this link of the set is settled, as one is that never was up.
    pub fn is_settled(&self, link: u8) -> bool
        ensures { result ≡ is_settled_in link self.now.state }
    {
        self.core.is_settled(link)
    }

    /// How many changeover orders about this link were heard while it was settled, modulo 2^32 (own); 0 for a link that
    /// the set hasn't. Where the number changes the far end has left a life of the link, and whatever is about to bring the
    /// link up here begins anew: units of that life may be under way.
    pub fn late(&self, link: u8) -> u32
        ensures { result ≡ late_at link self.now.state }
    {
        self.core.late(link)
    }

    /// Where the message of this number stands; it was never given out, or left at a checkpoint: `None`.
    pub fn place_of(&self, number: u64) -> Option<Fate>
        ensures { result ≡ place number self.now.state.rows }
    {
        self.core.place_of(number)
    }

    /// How many numbers were given out, to users' messages and orders together: the number of the next one.
    pub fn numbers_given(&self) -> u64
        ensures { result ≡ given self.now.state }
    {
        self.core.numbers_given()
    }

    /// How many of the users' messages stand in each place, or ended there; each that was accepted counts in one.
    pub fn counts(&self) -> Counts
        ensures value { result ≡ counts_in self.now.state }
        ensures all { total_of result ≡ (books_in self.now).messages }
        ensures few { total_of result < 2 ^ 64 }
    {
        self.core.counts()
    }

    /// The message at this place of the link's unacknowledged ones, the oldest at 0: the number of
    /// its row, and the FSN that it carries. Past the last one, or on a link that the set hasn't:
    /// `None`.
    pub fn unacked_at(&self, link: u8, place: u16) -> Option<Numbered>
        ensures { result ≡ unacked_in self.now.state link place }
    {
        self.core.unacked_at(link, place)
    }

    /// The numbers of the messages that stand on the link are put behind the others: of those that were sent and aren't
    /// acknowledged, then of those that wait for it, then of those that are held for it, each in the order of queueing. None
    /// stand on a link that the set hasn't. It fails only where memory was refused, and of the numbers nothing is said then.
    pub fn push_numbers_on<N: Allocator>(
        &self,
        link: u8,
        numbers: &mut Vec<u64, N>,
    ) -> Result<(), AllocError>
        ensures { OnOk result (numbers.new.items
            ≡ numbers.old.items ++ (numbers_of (unack link self.now.state.rows)
            ++ (numbers_of (wait link self.now.state.rows) ++ numbers_of (held link self.now.state.rows)))) }
    {
        self.core.push_numbers_on(link, numbers)
    }

    /// What all entries since the opening add up to: each is the call of one actor, and the messages stand, or
    /// ended, in the places that [`SetCore::counts`] tells.
    pub fn books(&self) -> Books
        ensures value { result ≡ books_in self.now }
        ensures bounded { AreBounded result }
        ensures placed { total_of (counts_in self.now.state) ≡ result.messages }
        ensures calls { sum result.user_calls + sum result.term_calls ≡ entries_in self.now }
    {
        Books {
            user_calls: self.tally.user_calls,
            term_calls: self.tally.term_calls,
            messages: self.tally.messages,
            octets: self.tally.octets,
            acknowledged: self.core.counts().acked,
        }
    }

    /// How many of the users' messages are acknowledged, as [`SetCore::books`] tells it too.
    pub fn acknowledged(&self) -> u64
        ensures { result ≡ (books_in self.now).acknowledged }
    {
        self.core.counts().acked
    }

    /// How many entries were made since the opening.
    pub fn entries(&self) -> u64
        ensures value { result ≡ entries_in self.now }
        ensures short { result ≤ longest_history }
    {
        self.tally.entries
    }

    /// All that was asked and answered since the base, in order.
    pub fn history(&self) -> Reader<'_>
        ensures { result ≡ self.now.history }
    {
        self.history.reader()
    }

    /// The base, and all that was asked and answered since, in order, of a set that is given up. It takes no memory.
    pub fn into_base_and_history(self) -> (Base<A>, History<A>)
        ensures base { result.0 ≡ self.base }
        ensures history { result.1.items ≡ self.history }
    {
        (self.base, self.history)
    }

    /// A law: the history is legal, and what the set holds is what it leads to. To contracts it is that by
    /// definition; that what is kept agrees with it, [`SetCore::kept`] says.
    pub fn replays(&self)
        ensures legal { IsLegal self.now.base.state self.now.history }
        ensures agrees { self.now.state ≡ after self.now.base.state self.now.history }
        ensures short { entries_in self.now ≤ longest_history }
    {
        let _ = &self.core;
    }

    /// What the set keeps: queues of numbers and a fate for each, the bodies, the links, and where its
    /// streams run. It agrees with what the set holds.
    pub fn kept(&self) -> &Core<A>
        ensures { Agrees result.now self.now.state }
    {
        &self.core
    }

    /// A law: no number stands in two rows, no link has more than 127 unacknowledged
    /// messages (4,095 in the wide profile), and the BSN that a link sends is the number of the body it last accepted.
    pub fn is_sound(&self)
        ensures { IsSound self.now.state }
    {
        let _ = &self.core;
    }

    /// Where this stream of the set runs.
    ///
    /// Condition: a stream below 16.
    pub fn stream_place(&self, stream: u8) -> Place
        requires { stream < 16 }
        ensures { result ≡ place_of_stream stream self.now.state.routing }
    {
        self.core.stream_place(stream)
    }

    /// How many messages wait for this link, orders among them; none for a link that the set hasn't.
    pub fn waiting_on(&self, link: u8) -> u64
        ensures { result ≡ length (wait link self.now.state.rows) }
    {
        self.core.waiting_on(link)
    }

    /// How many messages were sent on this link and aren't acknowledged, orders among them; none on a link that the set hasn't.
    pub fn unacked_on(&self, link: u8) -> u64
        ensures { result ≡ length (unack link self.now.state.rows) }
    {
        self.core.unacked_on(link)
    }

    /// How many messages are held for this link, orders among them; none for a link that the set hasn't.
    pub fn held_on(&self, link: u8) -> u64
        ensures { result ≡ length (held link self.now.state.rows) }
    {
        self.core.held_on(link)
    }

    /// How many of the users' messages of this stream aren't sent yet.
    ///
    /// Condition: a stream below 16.
    pub fn unsent(&self, stream: u8) -> u64
        requires { stream < 16 }
        ensures { result ≡ length (unsent stream self.now.state.rows) }
    {
        self.core.unsent(stream)
    }

    /// How many messages for users were heard and not taken.
    pub fn inbox_len(&self) -> u64
        ensures { result ≡ length self.now.state.inbox }
    {
        self.core.inbox_len()
    }
}
