//! What a set keeps, as one event after another changes it.
ghost use Rattle.std.specs.Prelude.{◌≡◌, ◌<◌, ◌+◌, ◌%◌, ◌^◌, ◌++◌, true, length, IsOk, IfOk, IfErr, OnOk, OnErr};
ghost use Rattle.l2_window.specs.Window.{fsn_count};
ghost use Rattle.set_events.specs.Lent.{event_in};
ghost use Rattle.set_model.specs.Checkpoint.{checkpointed, counts_in};
ghost use Rattle.set_model.specs.Rows.{held, numbers as numbers_of, place, total_of, unack, unsent, users, wait};
ghost use Rattle.set_queues.specs.Buffers.{IsKnown, queue_at};
ghost use Rattle.set_route.specs.Routing.{place_of as place_of_stream};
ghost use Rattle.set_model.specs.State.{State, all_finished, given, new_state, link_count, is_up as is_up_in, is_settled as is_settled_in, late_at, unacked_in};
ghost use Rattle.set_model.specs.History.{longest_history};
ghost use Rattle.set_model.specs.Step.{step};
ghost use Rattle.set_changeover.specs.Agreement.{Kept, Agrees, StandsFor, Holds, HoldsFew};
ghost use Rattle.set_step.specs.Answering.{AnswersFor, wants_none};
ghost use Rattle.set_changeover.specs.Parts.{kept_of};

use super::forgetting::{copied, forget, kept};
use super::step::take_step;
use l2_units::Profile;
use l2_window::Window;
use set_changeover::{Link, Parts, phase_of};
use set_events::{Counts, EventRef, Fate, Finished, Reply, SetConfig, SetFault};
use set_model::{Numbered, Phase};
use set_queues::{Bodies, Queues};
use set_route::{Place, Routes};
use std::alloc::{AllocError, Allocator, Global};
use std::collections::VecDeque;
use std::marker::Model;

/// What a set of links keeps: where its messages stand, their bodies, its links, where its streams run,
/// and the messages heard for users.
///
/// Contracts see what is kept, and say of every state of the model that it agrees with what becomes of it.
/// Readers: [`Core::place_of`], [`Core::links`], [`Core::is_up`], [`Core::is_settled`], [`Core::late`],
/// [`Core::numbers_given`], [`Core::finished`], [`Core::counts`], [`Core::unacked_at`], [`Core::push_numbers_on`],
/// [`Core::stream_place`], [`Core::waiting_on`], [`Core::unacked_on`], [`Core::held_on`], [`Core::unsent`],
/// [`Core::inbox_len`]. The one input: [`Core::apply`]. [`Core::forget`] is a checkpoint, [`Core::kept`] what one keeps of it, and [`Core::copied`] the
/// same again.
#[derive(Drop)]
pub struct Core<A: Allocator = Global> {
    parts: Parts<A>,
}

impl<A: Allocator> Model for Core<A> {
    ghost Value = { Kept };

    ghost view = { λ c. kept_of c.parts };

    ghost invariant = { λ c. Holds (kept_of c.parts) };
}

impl<A: Allocator + Copy> Core<A> {
    /// A set as this configuration has it: no messages, no link up.
    ///
    /// Fault: 1 [`SetFault::NoMemory`], only where memory was refused.
    pub fn new(alloc: A, config: &SetConfig) -> Result<Core<A>, SetFault>
        ensures ok { IfOk result (λ core. Agrees core (new_state config.now)) }
        ensures fault { IfErr result (λ fault. fault ≡ SetFault.NoMemory) }
    {
        let mut links = Vec::new(alloc);
        for _ in 0..config.links {
            if let Err(failed) = links.push(Link::new(config.profile(), config.method)) {
                return Err(AllocError::from(failed).into());
            }
        }
        let queues = Queues::new(alloc, config.profile(), config.links)?;
        // with no message, each is empty
        queues.is_sound();
        Ok(Core {
            parts: Parts {
                config: *config,
                links,
                queues,
                bodies: Bodies::new(alloc),
                finished: Finished {
                    acked: 0,
                    emergency: 0,
                    unreasonable: 0,
                    no_answer: 0,
                    orders: 0,
                },
                routes: Routes::new(config.links),
                inbox: VecDeque::new(alloc),
            },
        })
    }

    /// What the set answers to this event is put into `reply`, whatever stood there: of whatever state it agreed
    /// with, the answer is that of the step, and it agrees with the state that the step leads to.
    ///
    /// Refusals are answers. Fault: 1 [`SetFault::NoMemory`], only where memory was refused, which `Take`,
    /// `Find`, `Next` and a heard unit without a body never want; what is kept is then as it was.
    #[tactic(auto, using(crate::proofs::Kept::counted_of))]
    pub fn apply(&mut self, event: &EventRef<'_>, reply: &mut Reply) -> Result<(), SetFault>
        requires { HoldsFew longest_history self.old }
        ensures ok { OnOk result
            ((s : State) → Agrees self.old s → AnswersFor (step s (event_in event.now)) reply.new self.new) }
        ensures err { OnErr result (self.new ≡ self.old) }
        ensures fault { IfErr result (λ fault. fault ≡ SetFault.NoMemory) }
        ensures none { wants_none (event_in event.now) ≡ true → IsOk result }
    {
        Ok(take_step(&mut self.parts, event, reply)?)
    }

    /// A law: there is a state that it agrees with.
    pub fn holds(&self)
        ensures { Holds self.now }
    {
        let _ = &self.parts;
    }

    /// How many links the set has.
    pub fn links(&self) -> u8
        ensures { (s : State) → StandsFor self.now s → result ≡ link_count s }
    {
        self.parts.links.len() as u8
    }

    /// Whether this link of the set is up.
    pub fn is_up(&self, link: u8) -> bool
        ensures { (s : State) → StandsFor self.now s → result ≡ is_up_in link s }
    {
        phase_of(&self.parts, link) == Some(Phase::Up)
    }

    /// Whether this link of the set is settled, as one is that never was up.
    pub fn is_settled(&self, link: u8) -> bool
        ensures { (s : State) → StandsFor self.now s → result ≡ is_settled_in link s }
    {
        phase_of(&self.parts, link) == Some(Phase::Settled)
    }

    /// How many changeover orders about this link were heard while it was settled, modulo 2^32 (own); 0 for a link that
    /// the set hasn't.
    pub fn late(&self, link: u8) -> u32
        ensures { (s : State) → StandsFor self.now s → result ≡ late_at link s }
    {
        match self.parts.links.get(usize::from(link)) {
            Some(link) => link.late,
            None => 0,
        }
    }

    /// Where the message of this number stands; none has it: `None`.
    pub fn place_of(&self, number: u64) -> Option<Fate>
        ensures { (s : State) → StandsFor self.now s → result ≡ place number s.rows }
    {
        self.parts.queues.fate_of(number)
    }

    /// How many numbers were given out, to users' messages and orders together: the number of the next one.
    pub fn numbers_given(&self) -> u64
        ensures { (s : State) → StandsFor self.now s → result ≡ given s }
    {
        self.parts.queues.len() as u64
    }

    /// How many messages left it at checkpoints, since nothing more could become of them.
    pub fn finished(&self) -> Finished
        ensures { result ≡ self.now.finished }
    {
        self.parts.finished
    }

    /// How many of the users' messages stand in each place, or ended there; each counts in one.
    #[tactic(auto, using(crate::proofs::Kept::counted_few))]
    pub fn counts(&self) -> Counts
        ensures value { (s : State) → StandsFor self.now s → result ≡ counts_in s }
        ensures all { (s : State) → StandsFor self.now s
            → total_of result + s.finished.orders ≡ all_finished s.finished + length (users s.rows) }
        ensures few { total_of result < 2 ^ 64 }
    {
        // each has a number that was given out, and there are fewer than 2^63
        self.parts.queues.len();
        let here = self.parts.queues.counts();
        let finished = self.parts.finished;
        let given_up = finished.emergency + finished.unreasonable + finished.no_answer;
        Counts {
            acked: finished.acked + here.acked,
            discarded: given_up + here.discarded,
            ..here
        }
    }

    /// What a checkpoint keeps: the same without the messages of which nothing more can become, which are counted.
    /// It fails only where memory was refused.
    pub fn kept(&self) -> Result<Core<A>, AllocError>
        ensures { IfOk result (λ core. (s : State) → Agrees self.now s → Agrees core (checkpointed s)) }
    {
        Ok(Core {
            parts: kept(&self.parts)?,
        })
    }

    /// A checkpoint: the messages of which nothing more can become leave, and are counted.
    ///
    /// It costs the same however many messages stand, but for a copy ([`Core::kept`]) where of those that are kept more
    /// left than stand: so each checkpoint costs what left, and a constant. It fails only where memory was refused for
    /// that copy, and what is kept is then as it was.
    pub fn forget(&mut self) -> Result<(), AllocError>
        ensures ok { OnOk result ((s : State) → Agrees self.old s → Agrees self.new (checkpointed s)) }
        ensures err { OnErr result (self.new ≡ self.old) }
    {
        forget(&mut self.parts)?;
        Ok(())
    }

    /// The same again. It fails only where memory was refused.
    pub fn copied(&self) -> Result<Core<A>, AllocError>
        ensures { IfOk result (λ core. core ≡ self.now) }
    {
        Ok(Core {
            parts: copied(&self.parts)?,
        })
    }

    /// The message at this place of the link's unacknowledged ones, the oldest at 0: its number, and the FSN
    /// that it carries (Q.703 2.2). Past the last one, or on a link that the set hasn't: `None`.
    #[tactic(auto, using(crate::proofs::Kept::unacked_is, crate::proofs::Kept::unacked_past, set_changeover::proofs::Links::whole_of, set_model::proofs::Lists::within))]
    pub fn unacked_at(&self, link: u8, place: u16) -> Option<Numbered>
        ensures { (s : State) → StandsFor self.now s → result ≡ unacked_in s link place }
    {
        if usize::from(link) >= self.parts.links.len() {
            return None;
        }
        let sent = Fate::Unacked { link };
        let number = self.parts.queues.number_at(sent, usize::from(place))?;
        let fsn = fsn_behind(self.parts.queues.window(link), place);
        Some(Numbered { number, fsn })
    }

    /// The numbers of the messages that stand on the link are put behind the others: of those that were sent and aren't
    /// acknowledged, then of those that wait for it, then of those that are held for it, each in the order of queueing. None
    /// stand on a link that the set hasn't. It fails only where memory was refused, and of the numbers nothing is said then.
    pub fn push_numbers_on<N: Allocator>(
        &self,
        link: u8,
        numbers: &mut Vec<u64, N>,
    ) -> Result<(), AllocError>
        ensures { OnOk result ((s : State) → StandsFor self.now s
            → numbers.new.items ≡ numbers.old.items ++ (numbers_of (unack link s.rows)
            ++ (numbers_of (wait link s.rows) ++ numbers_of (held link s.rows)))) }
    {
        if usize::from(link) >= self.parts.queues.links() {
            return Ok(());
        }
        push_queue(&self.parts.queues, Fate::Unacked { link }, numbers)?;
        push_queue(&self.parts.queues, Fate::Waiting { link }, numbers)?;
        push_queue(&self.parts.queues, Fate::Held { link }, numbers)
    }

    /// Where this stream runs.
    ///
    /// Condition: a stream below 16.
    pub fn stream_place(&self, stream: u8) -> Place
        requires { stream < 16 }
        ensures { (s : State) → StandsFor self.now s → result ≡ place_of_stream stream s.routing }
    {
        self.parts.routes.place(stream)
    }

    /// How many messages wait for this link, orders among them; none for a link that the set hasn't.
    #[tactic(auto, using(crate::proofs::Listed::as_many_wait, crate::proofs::Listed::none_waits))]
    pub fn waiting_on(&self, link: u8) -> u64
        ensures { (s : State) → StandsFor self.now s → result ≡ length (wait link s.rows) }
    {
        if usize::from(link) >= self.parts.queues.links() {
            return 0;
        }
        self.parts.queues.count_at(Fate::Waiting { link }) as u64
    }

    /// How many messages were sent on this link and aren't acknowledged, orders among them; none on a link that the set hasn't.
    #[tactic(auto, using(crate::proofs::Listed::as_many_sent, crate::proofs::Listed::none_sent))]
    pub fn unacked_on(&self, link: u8) -> u64
        ensures { (s : State) → StandsFor self.now s → result ≡ length (unack link s.rows) }
    {
        if usize::from(link) >= self.parts.queues.links() {
            return 0;
        }
        self.parts.queues.count_at(Fate::Unacked { link }) as u64
    }

    /// How many messages are held for this link, orders among them; none for a link that the set hasn't.
    #[tactic(auto, using(crate::proofs::Listed::as_many_held, crate::proofs::Listed::none_held))]
    pub fn held_on(&self, link: u8) -> u64
        ensures { (s : State) → StandsFor self.now s → result ≡ length (held link s.rows) }
    {
        if usize::from(link) >= self.parts.queues.links() {
            return 0;
        }
        self.parts.queues.count_at(Fate::Held { link }) as u64
    }

    /// How many of the users' messages of this stream aren't sent yet.
    ///
    /// Condition: a stream below 16.
    pub fn unsent(&self, stream: u8) -> u64
        requires { stream < 16 }
        ensures { (s : State) → StandsFor self.now s → result ≡ length (unsent stream s.rows) }
    {
        self.parts.queues.unsent(stream)
    }

    /// How many messages for users were heard and not taken.
    pub fn inbox_len(&self) -> u64
        ensures { (s : State) → StandsFor self.now s → result ≡ length s.inbox }
    {
        self.parts.inbox.len() as u64
    }
}

/// The numbers that stand in this queue are put behind the others, in their order.
fn push_queue<A: Allocator + Copy, N: Allocator>(
    queues: &Queues<A>,
    fate: Fate,
    numbers: &mut Vec<u64, N>,
) -> Result<(), AllocError>
    requires { IsKnown fate queues.now.lists }
    ensures { OnOk result (numbers.new.items ≡ numbers.old.items ++ queue_at fate queues.now.lists) }
{
    for place in 0..queues.count_at(fate) {
        let Some(number) = queues.number_at(fate, place) else {
            unreachable!();
        };
        numbers.push(number)?;
    }
    Ok(())
}

/// The FSN of the message at this place behind the one last acknowledged.
fn fsn_behind<A: Allocator + Copy>(window: &Window<A>, place: u16) -> u16
    ensures { result ≡ (window.now.last + 1 + place) % fsn_count window.now.profile }
{
    let after = u32::from(window.last()) + 1 + u32::from(place);
    match window.profile() {
        Profile::Narrow => (after % 128) as u16,
        Profile::Wide => (after % 4096) as u16,
    }
}
