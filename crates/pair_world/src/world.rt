//! Two ends, and the units under way between them.
ghost use Rattle.std.specs.Prelude.{◌≡◌, ◌<◌, ◌↔◌, IfErr, IfOk, IsTrue, MatchResult, Ok};
ghost use Rattle.set_model.specs.History.{IsActor, new_set};
ghost use Rattle.set_model.specs.State.{link_count};
ghost use Rattle.set_events.specs.declared.fault.SetFault.TheVariants.{NoMemory};
ghost use Rattle.pair_model.specs.World.{actor_of, has_own_step};
ghost use Rattle.set_events.specs.Lent.{HasFitUnit, event_in};
ghost use Rattle.pair_world.specs.Carried.{Applies};
ghost use Rattle.pair_streams.specs.Arrived.{AreDone};

use super::fault::PlayFault;
use l2_units::{Unit, UnitRef};
use pair_steps::{End, Line, Lines, Showing, Shown, ShownRef, Step, UnderWay};
use set_core::{SetCore, SetFault};
use set_events::{Actor, AnswerRef, Counts, EventRef, SetConfig};
use std::alloc::{Allocator, Global};
use std::marker::Model;

/// The most entries of a history, 2^48.
const LONGEST_HISTORY: u64 = 0x1_0000_0000_0000;

/// Two ends with the same links and one profile, and the units under way to each on each link, oldest first.
///
/// A set takes some thousands of octets and a world is handed on with each step, so the sets stay where they are.
#[derive(Drop)]
pub struct World<G: Allocator = Global> {
    a: Box<SetCore<G>, G>,
    b: Box<SetCore<G>, G>,
    pub(crate) to_a: Lines<G>,
    pub(crate) to_b: Lines<G>,
}

impl<G: Allocator> Model for World<G> {
    ghost use Rattle.pair_model.specs.World.{World as WorldState};

    ghost Value = { WorldState };

    ghost view = { λ w. record { a = w.a.value; b = w.b.value; to_a = w.to_a; to_b = w.to_b } };

    ghost use Rattle.pair_model.specs.World.{IsPaired};

    ghost invariant = { λ w. IsPaired (record { a = w.a.value; b = w.b.value; to_a = w.to_a; to_b = w.to_b }) };
}

impl<G: Allocator + Copy> World<G> {
    ghost use Rattle.std.specs.Prelude.{◌≡◌, ◌<◌, ◌^◌, ◌↔◌, ◌||◌, IfErr, IfSome, IsTrue, OnOk, MatchResult, is_some, true};
    ghost use Rattle.set_model.specs.Rows.{total_of};
    ghost use Rattle.set_model.specs.State.{is_up};
    ghost use Rattle.set_model.specs.History.{new_set};
    ghost use Rattle.pair_model.specs.World.{world_of, carried_out, is_full, done_by, asks, acts, has_actor, with_sent, emits, arrives, loses, has_link, rises, at_end, line_to, counts_at};
    ghost use Rattle.pair_model.specs.Run.{begun, played_from, HoldsAlong};
    ghost use Rattle.pair_model.specs.Promises.{IsHonestRun, IsQuietRun, IsSoundRun, KeepsLinks};
    ghost use Rattle.pair_changeover.specs.Diverted.{ChangesOver};
    ghost use Rattle.pair_streams.specs.Streams.{AckedAreTaken, NumbersTell, PartsArrive, StreamsArrive};
    ghost use Rattle.pair_streams.specs.Arrived.{IsIdle, AllArrived, AllTaken, AllAccounted};
    ghost use Rattle.pair_rises.specs.Handed.{AllAccountedByMoves, AllHandedByMoves};
    ghost use Rattle.set_events.specs.Lent.{HasFitUnit, event_in};
    ghost use Rattle.set_events.specs.declared.event.Event.{Event};
    ghost use Rattle.pair_world.specs.Carried.{IsBegun, FailsToBegin, IsCarriedOut, StaysIfImpossible, IsStepped, AreCarriedOut, IsPlayed, IsTakenFrom};

    /// The world of these configurations: no messages, no link up, nothing under way.
    ///
    /// Faults: 4 [`PlayFault::Links`] exactly where the configurations differ in links, tested first; then
    /// 5 [`PlayFault::Profile`] exactly where they differ in their profile; 1 [`PlayFault::NoMemory`] only where memory was
    /// refused.
    pub fn new(alloc: G, a: &SetConfig, b: &SetConfig) -> Result<World<G>, PlayFault>
        ensures { MatchResult result (IsBegun a.now b.now)
            (λ fault. FailsToBegin fault a.now b.now) }
    {
        if a.links != b.links {
            return Err(PlayFault::Links);
        }
        if a.profile() != b.profile() {
            return Err(PlayFault::Profile);
        }
        World::of_pair(alloc, a, b)
    }

    /// The world of two configurations with as many links.
    fn of_pair(alloc: G, a: &SetConfig, b: &SetConfig) -> Result<World<G>, PlayFault>
        requires { a.now.links ≡ b.now.links }
        ensures { MatchResult result (λ world. world ≡ world_of (new_set a.now) (new_set b.now))
            (λ fault. fault ≡ PlayFault.NoMemory) }
    {
        let to_a = Lines::new(alloc, a.links)?;
        let to_b = Lines::new(alloc, a.links)?;
        let a = Box::new(alloc, new_end(alloc, a)?)?;
        let b = Box::new(alloc, new_end(alloc, b)?)?;
        Ok(World { a, b, to_a, to_b })
    }

    /// The world after a step, and what that shows.
    ///
    /// Faults: 2 [`PlayFault::Impossible`], with the place 0, and 3 [`PlayFault::Exhausted`] exactly where the step
    /// is, and an impossible step is that whether a history is full or not; 1 [`PlayFault::NoMemory`] only where
    /// memory was refused to a step that is neither. A fault gives the world up.
    pub fn step(mut self, step: &Step) -> Result<(World<G>, Shown), PlayFault>
        ensures { IsStepped result (carried_out self step.now) }
    {
        let mut shown = Showing::new();
        self.carry_out(step, &mut shown)?;
        Ok((self, shown.shown()))
    }

    /// Carries out a step in place, and puts what it shows into `shown`, whatever stood there. A step that's impossible leaves
    /// the world as it was; after any other fault neither is to be used again.
    ///
    /// Faults: as of [`World::step`].
    #[tactic(auto, unfolding(pair_model::specs::World::carried_out))]
    pub fn carry_out(&mut self, step: &Step, shown: &mut Showing) -> Result<(), PlayFault>
        ensures carried { IsCarriedOut result (carried_out self.old step.now) shown.new self.new }
        ensures impossible { StaysIfImpossible result self.old self.new }
    {
        self.dispatch(step, shown)
    }

    /// The world of these configurations after these steps, one after another.
    ///
    /// Faults: 4 [`PlayFault::Links`] exactly where the configurations differ in links, tested first, then
    /// 5 [`PlayFault::Profile`] exactly where they differ in their profile, whatever the steps are; then 2 [`PlayFault::Impossible`] and 3 [`PlayFault::Exhausted`] exactly where a step is, with
    /// the place of the first one, unless memory was refused before it; 1 [`PlayFault::NoMemory`] only where memory was refused.
    ///
    /// Of every honest run, one in which no unit is heard that wasn't sent, it's proved here that each link keeps what
    /// passes on it, in both directions and after every step (`KeepsLinks`). And of every sound run, in which besides no
    /// link is left blindly or settled without an answer and each changeback waits for its acknowledgement, that
    /// changeover loses nothing and diverts exactly what the far end hasn't
    /// accepted (`ChangesOver`): at both ends no message is discarded, and what counts as acknowledged was accepted;
    /// an order that is heard about a link that hasn't settled tells the number of the last message that its end
    /// accepted there, so it isn't unreasonable; and when a link settles at an end, of the messages that were first
    /// sent on it since it came up exactly those that the far end accepted are acknowledged, and exactly the others
    /// move to the target, in order, with what waited and, as the link was left, was held behind them. And each of the 16 streams
    /// arrives in order (`StreamsArrive`): what the users of an end got is a prefix of what the other's users offered,
    /// numbers and octets, with each message that is acknowledged. Of every quiet run, in which a link may also be left
    /// blindly, that each stream arrives in part and in order (`PartsArrive`): what the users of an end got is an in-order
    /// part of what the other's users offered, with each message that is acknowledged; what they didn't get was
    /// discarded in an emergency, once nothing of the stream is under way. Of every quiet run too, that of each link,
    /// settled or not, what counts as acknowledged was accepted (`AckedAreTaken`), and that an order that is heard about
    /// a link that hasn't settled tells the number of the last message that its end accepted there, so it isn't
    /// unreasonable (`NumbersTell`).
    pub fn play(
        alloc: G,
        a: &SetConfig,
        b: &SetConfig,
        steps: &[Step],
    ) -> Result<World<G>, PlayFault>
        ensures world { IsPlayed result a.now b.now steps.now }
        ensures keeps { IsHonestRun a.now b.now steps.now
            → KeepsLinks (begun a.now b.now) steps.now }
        ensures diverts { IsSoundRun a.now b.now steps.now
            → ChangesOver (begun a.now b.now) steps.now }
        ensures streams { IsSoundRun a.now b.now steps.now
            → HoldsAlong StreamsArrive (begun a.now b.now) steps.now }
        ensures parts { IsQuietRun a.now b.now steps.now
            → HoldsAlong PartsArrive (begun a.now b.now) steps.now }
        ensures numbers { IsQuietRun a.now b.now steps.now
            → NumbersTell (begun a.now b.now) steps.now }
        ensures acks { IsQuietRun a.now b.now steps.now
            → HoldsAlong AckedAreTaken (begun a.now b.now) steps.now }
    {
        let mut world = World::new(alloc, a, b)?;
        match world.carry_out_all(steps) {
            Ok(()) => Ok(world),
            Err(fault) => Err(fault),
        }
    }

    /// The set at this end.
    pub fn core(&self, end: End) -> &SetCore<G>
        ensures { result.now ≡ at_end self.now end }
    {
        match end {
            End::A => &*self.a,
            End::B => &*self.b,
        }
    }

    /// The units under way to this end on the link, oldest first; none on a link that the world hasn't.
    pub fn line(&self, end: End, link: u8) -> &Line<G>
        ensures { result.now ≡ line_to self.now end link }
    {
        match end {
            End::A => self.to_a.line(link),
            End::B => self.to_b.line(link),
        }
    }

    /// Whether no message of the users waits, is unacknowledged, held, parked or waits for a changeback at either
    /// end.
    ///
    /// Whichever sound run led to such a world, the users of each end got all that the other's users offered, in the
    /// order of each stream (`AllArrived`; Q.704 5.1.1); and what they took, and then what waits in the inbox for
    /// them, is that, octet by octet (`AllTaken`). Whichever quiet run did, they got each message, or it was
    /// discarded in an emergency (`AllAccounted`; Q.704 5.6). The same holds whichever such run of moves led to it,
    /// in which links come up one after the other (`AllHandedByMoves`, `AllAccountedByMoves`).
    pub fn is_idle(&self) -> bool
        ensures value { IsTrue result ↔ IsIdle self.now }
        ensures arrived { IsTrue result → AllArrived self.now }
        ensures taken { IsTrue result → AllTaken self.now }
        ensures accounted { IsTrue result → AllAccounted self.now }
        ensures handed_by_moves { IsTrue result → AllHandedByMoves self.now }
        ensures accounted_by_moves { IsTrue result → AllAccountedByMoves self.now }
    {
        are_done(self.counts(End::A)) && are_done(self.counts(End::B))
    }

    /// Carries out these steps, one after another; after a fault the world isn't to be used again. Memory is wanted only of a
    /// step that can be done.
    fn carry_out_all(&mut self, steps: &[Step]) -> Result<(), PlayFault>
        ensures { AreCarriedOut result (played_from 0 self.old steps.now) self.new }
    {
        let mut shown = Showing::new();
        for (place, step) in steps.iter().enumerate() {
            match self.carry_out(step, &mut shown) {
                Ok(()) => (),
                Err(fault) => return Err(fault.at(place as u64)),
            }
        }
        Ok(())
    }

    /// Carries out a step, case by case.
    fn dispatch(&mut self, step: &Step, shown: &mut Showing) -> Result<(), PlayFault>
        ensures carried { IsCarriedOut result (done_by self.old step.now) shown.new self.new }
        ensures impossible { StaysIfImpossible result self.old self.new }
    {
        match step {
            Step::Act { end, event } => self.ask(*end, &EventRef::of(event), shown),
            Step::Emit { end, link } => self.emit(*end, *link, shown),
            Step::Arrive { end, link } => self.arrive(*end, *link, shown),
            Step::Lose { end, link, place } => self.lose(*end, *link, *place, shown),
            Step::Together { link } => self.raise(*link, shown),
            Step::Inject { end, link, unit } => self.inject(*end, *link, unit, shown),
        }
    }

    /// How the messages of an end stand.
    pub fn counts(&self, end: End) -> Counts
        ensures value { result ≡ counts_at self.now end }
        ensures few { total_of result < 2 ^ 64 }
    {
        match end {
            End::A => self.a.counts(),
            End::B => self.b.counts(),
        }
    }

    /// One event at an end, if it has no step of its own.
    fn ask(&mut self, end: End, event: &EventRef<'_>, shown: &mut Showing) -> Result<(), PlayFault>
        requires { HasFitUnit event.now }
        ensures carried { IsCarriedOut result (asks self.old end (event_in event.now)) shown.new self.new }
        ensures impossible { StaysIfImpossible result self.old self.new }
    {
        if takes_own_step(event) {
            return Err(PlayFault::Impossible { place: 0 });
        }
        self.act(end, event, shown)
    }

    /// One event at an end.
    pub(crate) fn act(
        &mut self,
        end: End,
        event: &EventRef<'_>,
        shown: &mut Showing,
    ) -> Result<(), PlayFault>
        requires { HasFitUnit event.now }
        ensures acts { IsCarriedOut result (acts self.old end (event_in event.now)) shown.new self.new }
        ensures impossible { StaysIfImpossible result self.old self.new }
        ensures known { OnOk result (has_actor self.old (actor_of (event_in event.now)) ≡ true) }
        ensures links { link_count self.new.a.state ≡ link_count self.old.a.state }
    {
        let Some(who) = self.actor_of(event) else {
            return Err(PlayFault::Impossible { place: 0 });
        };
        match end {
            End::A => apply(&mut *self.a, who, event, shown)?,
            End::B => apply(&mut *self.b, who, event, shown)?,
        }
        Ok(())
    }

    /// Who makes this event; `None`: the terminal of a link that the world hasn't.
    fn actor_of(&self, event: &EventRef<'_>) -> Option<Actor>
        ensures known { is_some result ≡ has_actor self.now (actor_of (event_in event.now)) }
        ensures who { IfSome result (λ who. who ≡ actor_of (event_in event.now)) }
        ensures in_range { IfSome result IsActor }
    {
        match event {
            EventRef::Offer { .. } | EventRef::Take | EventRef::Find { .. } => Some(Actor::User(0)),
            EventRef::Next { link }
            | EventRef::Heard { link, .. }
            | EventRef::Up { link }
            | EventRef::Down { link }
            | EventRef::DownBlind { link }
            | EventRef::NoAnswer { link }
            | EventRef::Timed { link }
            | EventRef::Restore { link }
            | EventRef::Redeclare { link }
            | EventRef::Test { link }
            | EventRef::BackTimeout { link } => self.terminal_of(*link),
        }
    }

    /// The terminal of a link, if the world has that link.
    fn terminal_of(&self, link: u8) -> Option<Actor>
        ensures known { is_some result ≡ has_link self.now link }
        ensures who { IfSome result (λ who. who ≡ Actor.Terminal link) }
        ensures few { IfSome result (λ who. link < 16) }
    {
        if self.holds_link(link) {
            Some(Actor::Terminal(link))
        } else {
            None
        }
    }

    /// Whether the world has this link.
    pub(crate) fn holds_link(&self, link: u8) -> bool
        ensures value { result ≡ has_link self.now link }
        ensures few { result ≡ true → link < 16 }
    {
        link < self.a.links()
    }

    /// The end sends its next unit on the link, which joins the link's line to the other end.
    fn emit(&mut self, end: End, link: u8, shown: &mut Showing) -> Result<(), PlayFault>
        ensures carried { IsCarriedOut result (emits self.old end link) shown.new self.new }
        ensures impossible { StaysIfImpossible result self.old self.new }
    {
        self.act(end, &EventRef::Next { link }, shown)?;
        self.join(end, link, shown)
    }

    /// A unit that an end sent on the link joins the link's line to the other end.
    fn join(&mut self, end: End, link: u8, shown: &Showing) -> Result<(), PlayFault>
        requires { has_link self.old link ≡ true }
        ensures ok { OnOk result (self.new ≡ with_sent self.old end link shown.now) }
        ensures err { IfErr result (λ fault. fault ≡ PlayFault.NoMemory) }
    {
        let ShownRef::Answered(AnswerRef::Sent { unit }) = shown.get() else {
            return Ok(());
        };
        match end {
            End::A => self.to_b.join(link, &unit)?,
            End::B => self.to_a.join(link, &unit)?,
        }
        Ok(())
    }

    /// A unit is heard on the link at the end, though it was under way on no line.
    fn inject(
        &mut self,
        end: End,
        link: u8,
        unit: &Unit,
        shown: &mut Showing,
    ) -> Result<(), PlayFault>
        ensures carried { IsCarriedOut result (acts self.old end (Event.Heard link unit.now)) shown.new self.new }
        ensures impossible { StaysIfImpossible result self.old self.new }
    {
        let event = EventRef::Heard {
            link,
            unit: UnitRef::of(unit),
        };
        self.act(end, &event, shown)
    }

    /// The front of the link's line to the end arrives: it's heard where the link is up there, else lost.
    fn arrive(&mut self, end: End, link: u8, shown: &mut Showing) -> Result<(), PlayFault>
        ensures carried { IsCarriedOut result (arrives self.old end link) shown.new self.new }
        ensures impossible { StaysIfImpossible result self.old self.new }
    {
        if !self.holds_link(link) {
            return Err(PlayFault::Impossible { place: 0 });
        }
        let Some(under_way) = self.take_out(end, link, 0) else {
            return Err(PlayFault::Impossible { place: 0 });
        };
        if !self.is_link_up(end, link) {
            shown.set_lost();
            return Ok(());
        }
        let event = EventRef::Heard {
            link,
            unit: under_way.unit_ref(),
        };
        self.act(end, &event, shown)
    }

    /// The unit at this place of the link's line to the end is lost.
    fn lose(&mut self, end: End, link: u8, place: u64, shown: &mut Showing) -> Result<(), PlayFault>
        ensures carried { IsCarriedOut result (loses self.old end link place) shown.new self.new }
        ensures impossible { StaysIfImpossible result self.old self.new }
    {
        if !self.holds_link(link) {
            return Err(PlayFault::Impossible { place: 0 });
        }
        match self.take_out(end, link, place) {
            Some(_) => {
                shown.set_lost();
                Ok(())
            }
            None => Err(PlayFault::Impossible { place: 0 }),
        }
    }

    /// Takes the unit at this place out of the link's line to the end, if there is one.
    fn take_out(&mut self, end: End, link: u8, place: u64) -> Option<UnderWay<G>>
        requires { has_link self.old link ≡ true }
        ensures { IsTakenFrom result self.old end link place self.new }
    {
        match end {
            End::A => self.to_a.take_out(link, place),
            End::B => self.to_b.take_out(link, place),
        }
    }

    /// Whether the link is up at this end.
    fn is_link_up(&self, end: End, link: u8) -> bool
        ensures { result ≡ is_up link (at_end self.now end).state }
    {
        match end {
            End::A => self.a.is_up(link),
            End::B => self.b.is_up(link),
        }
    }

    /// The link comes up at both ends, and nothing is under way on it.
    fn raise(&mut self, link: u8, shown: &mut Showing) -> Result<(), PlayFault>
        ensures carried { IsCarriedOut result (rises self.old link) shown.new self.new }
        ensures impossible { StaysIfImpossible result self.old self.new }
    {
        if !self.holds_link(link) || !self.a.is_settled(link) || !self.b.is_settled(link) {
            return Err(PlayFault::Impossible { place: 0 });
        }
        if self.is_full_at_an_end() {
            return Err(PlayFault::Exhausted);
        }
        let who = Actor::Terminal(link);
        let up = EventRef::Up { link };
        apply(&mut *self.a, who, &up, shown)?;
        apply(&mut *self.b, who, &up, shown)?;
        self.to_a.clear(link);
        self.to_b.clear(link);
        shown.set_up();
        Ok(())
    }

    /// Whether the history of either end is full.
    fn is_full_at_an_end(&self) -> bool
        ensures { result ≡ (is_full self.now.a || is_full self.now.b) }
    {
        self.a.entries() >= LONGEST_HISTORY || self.b.entries() >= LONGEST_HISTORY
    }
}

/// Whether no message waits, is unacknowledged, held, parked or waits for a changeback.
fn are_done(counts: Counts) -> bool
    ensures { IsTrue result ↔ AreDone counts }
{
    counts.waiting == 0
        && counts.unacked == 0
        && counts.held == 0
        && counts.parked == 0
        && counts.back == 0
}

/// Whether an event is asked by a step of its own: a unit is sent, a unit is heard, a link comes up.
fn takes_own_step(event: &EventRef<'_>) -> bool
    ensures { result ≡ has_own_step (event_in event.now) }
{
    matches!(
        event,
        EventRef::Next { .. } | EventRef::Heard { .. } | EventRef::Up { .. }
    )
}

/// A set of this configuration. It has no history that could be full.
fn new_end<G: Allocator + Copy>(alloc: G, config: &SetConfig) -> Result<SetCore<G>, PlayFault>
    ensures ok { IfOk result (λ set. set ≡ new_set config.now) }
    ensures err { IfErr result (λ fault. fault ≡ PlayFault.NoMemory) }
{
    Ok(SetCore::new(alloc, config)?)
}

/// One event at a set, by its actor: its answer is shown.
fn apply<G: Allocator + Copy>(
    set: &mut SetCore<G>,
    who: Actor,
    event: &EventRef<'_>,
    shown: &mut Showing,
) -> Result<(), SetFault>
    requires in_range { IsActor who }
    requires fits { HasFitUnit event.now }
    requires who { who ≡ actor_of (event_in event.now) }
    ensures applies { Applies result set.old (event_in event.now) shown.new set.new }
    ensures links { link_count set.new.state ≡ link_count set.old.state }
{
    set.apply_into(who, event, shown.reply())
}
