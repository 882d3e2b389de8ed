//! The bench.
ghost use Rattle.std.specs.Prelude.{◌≡◌, ◌<◌};

use super::counts::TurnCounts;
use super::door::SetDoor;
use super::late::end_late;
use super::link::{LinkEnd, new_links};
use super::turn::Turn;
use super::word::{LinkWord, Phase, is_start, phase_of};
use l2_units::Cause;
use link_term::{Command, NoTap, Tap, TermFault, Timers};
use set_core::SetCore;
use set_events::{Actor, Answer, Event, Refusal, SetConfig, SetFault};
use std::alloc::Global;
use std::marker::Model;

/// One end of a set of links, and the terminal of each link, whose line is elsewhere.
#[derive(Drop)]
pub struct Bench {
    door: SetDoor,
    links: Vec<LinkEnd>,
}

impl Model for Bench {
    ghost use Rattle.term_bench.specs.Ends.{BenchState};

    ghost Value = { BenchState };

    ghost use Rattle.std.specs.Prelude.{◌≤◌, length};
    ghost use Rattle.term_bench.specs.Ends.{AreNumbered};

    ghost view = { λ b. record { set = b.door.set; links = b.links.items } };

    ghost invariant = { λ b. AreNumbered b.links.items × (length b.links.items ≤ 16) };
}

impl Bench {
    ghost use Rattle.std.specs.Prelude.{◌≡◌, ◌<◌, ◌≤◌, ◌↔◌, List, [], ◌∷◌, ◌++◌, length, slice_get, Option, Some, true, IfErr, IfNone, IfOk, IfSome, OnErr, OnOk};
    ghost use Rattle.term_bench.specs.Ends.{AtLink, Commands, IsAt, is_start, new_bench, phase_of, word_of};
    ghost use Rattle.term_bench.specs.declared.turn.Turn.{Turn};
    ghost use Rattle.term_bench.specs.declared.word.Phase.TheVariants.{Left};
    ghost use Rattle.set_events.specs.declared.answer.Refusal.TheVariants.{Unsettled};
    ghost use Rattle.term_bench.specs.Turns.{Breaks, Turns, most_turns};
    ghost use Rattle.term_bench.specs.Waiting.{Completes, Hears, HearsAll, HearsBit, HearsBroken, HearsSome, Waits};
    ghost use Rattle.l2_bits.specs.LineBits.{bits_of};
    ghost use Rattle.l2_units.specs.declared.unit.Unit.{Unit as SignalUnit};
    ghost use Rattle.link_term.specs.Filling.{Taps};
    ghost use Rattle.link_term.specs.declared.fault.TermFault.TheVariants.{Exhausted, Failed};
    ghost use Rattle.set_model.specs.History.{IsActor, IsLegal, IsStep, after, based, entries_in, longest_history};

    /// A bench whose set is opened with this configuration, and whose links are out of service, with timers of these
    /// lengths, in octet times (Q.703 12.3).
    ///
    /// Fault: 1 [`SetFault::NoMemory`], only where memory was refused.
    pub fn new(alloc: Global, config: &SetConfig, lengths: Timers) -> Result<Bench, SetFault>
        ensures ok { IfOk result (λ bench. bench ≡ new_bench config.now lengths) }
        ensures fault { IfErr result (λ fault. fault ≡ SetFault.NoMemory) }
    {
        let links = new_links(alloc, config.links, lengths)?;
        let set = SetCore::new(alloc, config)?;
        Ok(Bench {
            door: SetDoor::new(set),
            links,
        })
    }

    /// How many links there are, numbered from 0 on.
    pub fn links(&self) -> u8
        ensures links { result ≡ length self.now.links }
        ensures few { result ≤ 16 }
    {
        self.links.len() as u8
    }

    /// A command to the terminal of this link, which is obeyed in its next turn; it's no matter that it was given
    /// before.
    ///
    /// Refusal: 7 [`Refusal::Unsettled`] where it's Start or Emergency and the set has left the link and not settled
    /// it: a link that two ends take for two lives of it loses messages (own). Nothing is done then.
    pub fn command(&mut self, link: u8, command: Command) -> Result<(), Refusal>
        requires { link < length self.old.links }
        ensures ok { OnOk result (Commands link command self.old self.new) }
        ensures refused { is_start command ≡ true → phase_of link self.old.set.state ≡ Left
            → result ≡ Err Unsettled }
        ensures err { IfErr result (λ why. (why ≡ Unsettled) × (is_start command ≡ true)
            × (phase_of link self.old.set.state ≡ Left) × (self.new ≡ self.old)) }
    {
        if is_start(command) && self.phase(link) == Phase::Left {
            return Err(Refusal::Unsettled);
        }
        self.links[usize::from(link)].command(command);
        Ok(())
    }

    /// Where this link is in its life at the set.
    pub fn phase(&self, link: u8) -> Phase
        ensures { result ≡ phase_of link self.now.set.state }
    {
        phase_of(self.door.set(), link)
    }

    /// How this link stands, seen from its terminal.
    pub fn word(&self, link: u8) -> LinkWord
        requires { link < length self.now.links }
        ensures { IsAt self.now.links link (λ at. result ≡ word_of at.terminal) }
    {
        self.at(link).word()
    }

    /// What was counted on this link.
    pub fn counts(&self, link: u8) -> TurnCounts
        requires { link < length self.now.links }
        ensures { IsAt self.now.links link (λ at. result ≡ at.counts) }
    {
        self.at(link).counts()
    }

    /// Why this link failed last, if it did.
    pub fn cause(&self, link: u8) -> Option<Cause>
        requires { link < length self.now.links }
        ensures { IsAt self.now.links link (λ at. result ≡ at.terminal.cause) }
    {
        self.at(link).cause()
    }

    /// A turn of the terminal of this link, by an octet that came on its line: what it did. The bits that wait aren't
    /// looked at.
    ///
    /// Faults: 3 [`TermFault::Exhausted`] where the link took 2^48 turns, tested first: nothing is done then; 2
    /// [`TermFault::Failed`] where a turn of it was broken off before: nothing is done either; 1
    /// [`TermFault::NoMemory`] and 3 [`TermFault::Exhausted`] where the set told that fault, the latter exactly where
    /// its history was full, and 4 [`TermFault::Profile`] where it gave a unit of the wide profile: that breaks the
    /// turn off. It isn't counted, and the bits that wait stay.
    pub fn turn(&mut self, link: u8, octet: u8) -> Result<Turn, TermFault>
        requires { link < length self.old.links }
        ensures turns { IfOk result (λ turn. (unit : Option SignalUnit)
            × Turns link octet self.old turn unit self.new) }
        ensures breaks { IfErr result (λ fault. Breaks link octet fault self.old self.new) }
        ensures exhausted { (at : AtLink) → slice_get self.old.links link ≡ Some at
            → at.counts.turns ≡ most_turns → (result ≡ Err Exhausted) × (self.new ≡ self.old) }
        ensures failed { (at : AtLink) → slice_get self.old.links link ≡ Some at → at.failed ≡ true
            → at.counts.turns < most_turns → (result ≡ Err Failed) × (self.new ≡ self.old) }
    {
        self.turn_tapped(link, octet, &mut NoTap)
    }

    /// [`Bench::turn`], with a tap that is told of the unit which the turn appended to what is sent, if it did.
    pub fn turn_tapped<T: Tap>(
        &mut self,
        link: u8,
        octet: u8,
        tap: &mut T,
    ) -> Result<Turn, TermFault>
        requires { link < length self.old.links }
        ensures turns { IfOk result (λ turn. (unit : Option SignalUnit)
            × Turns link octet self.old turn unit self.new × Taps T.told unit tap.old tap.new) }
        ensures breaks { IfErr result (λ fault. Breaks link octet fault self.old self.new) }
        ensures exhausted { (at : AtLink) → slice_get self.old.links link ≡ Some at
            → at.counts.turns ≡ most_turns → (result ≡ Err Exhausted) × (self.new ≡ self.old) }
        ensures failed { (at : AtLink) → slice_get self.old.links link ≡ Some at → at.failed ≡ true
            → at.counts.turns < most_turns → (result ≡ Err Failed) × (self.new ≡ self.old) }
        ensures untold { OnErr result (tap.new ≡ tap.old) }
        ensures links { length self.new.links ≡ length self.old.links }
    {
        self.door.turn_to(link);
        let at = &mut self.links[usize::from(link)];
        match at.turn(&mut self.door, octet, tap) {
            Ok(turn) => {
                end_late(&mut self.links, &self.door);
                Ok(turn)
            }
            Err(fault) => Err(fault),
        }
    }

    /// An octet's bits came on this link's line, behind those that wait, the lowest first (Q.703 2.4): a turn by the
    /// octet that is whole with them, which is this one where none waits. As many bits wait as did. Faults: those of
    /// [`Bench::turn`].
    pub fn hear_octet<T: Tap>(
        &mut self,
        link: u8,
        octet: u8,
        tap: &mut T,
    ) -> Result<Turn, TermFault>
        requires { link < length self.old.links }
        ensures turns { IfOk result (λ turn. (unit : Option SignalUnit)
            × Hears link (bits_of 8 octet) self.old turn unit self.new × Taps T.told unit tap.old tap.new) }
        ensures breaks { IfErr result (λ fault. HearsBroken link (bits_of 8 octet) fault self.old self.new) }
        ensures untold { OnErr result (tap.new ≡ tap.old) }
        ensures links { length self.new.links ≡ length self.old.links }
    {
        let whole = self.complete(link, octet);
        self.turn_tapped(link, whole, tap)
    }

    /// Octets came on this link's line, the first one first: each has its turn, and what the turns did stands behind
    /// what stood in `turns`. So as many octets are put as came
    /// ([`as_many_octets_are_put`](super::as_many_octets_are_put)).
    ///
    /// Faults: 1 [`TermFault::NoMemory`] where memory is wanted for `turns`, too: no octet is heard then; those of
    /// [`Bench::turn`], where the turns that went by then stand there.
    pub fn hear_octets(
        &mut self,
        link: u8,
        octets: &[u8],
        turns: &mut Vec<Turn>,
    ) -> Result<(), TermFault>
        requires { link < length self.old.links }
        ensures hears { OnOk result ((made : List Turn) × (turns.new.items ≡ turns.old.items ++ made)
            × HearsAll link octets.now self.old made self.new) }
        ensures breaks { IfErr result (λ fault. (made : List Turn) × (turns.new.items ≡ turns.old.items ++ made)
            × HearsSome link octets.now fault self.old made self.new) }
        ensures links { length self.new.links ≡ length self.old.links }
    {
        if turns.reserve(octets.len()).is_err() {
            return Err(TermFault::NoMemory);
        }
        for octet in octets {
            let turn = self.hear_octet(link, *octet, &mut NoTap)?;
            turns.push_reserved(turn);
        }
        Ok(())
    }

    /// A bit came on this link's line, behind those that wait: a turn where an octet is whole with it. Faults: those of
    /// [`Bench::turn`].
    pub fn hear_bit<T: Tap>(
        &mut self,
        link: u8,
        bit: bool,
        tap: &mut T,
    ) -> Result<Option<Turn>, TermFault>
        requires { link < length self.old.links }
        ensures hears { IfOk result (λ heard. HearsBit T.told heard link bit self.old self.new tap.old tap.new) }
        ensures breaks { IfErr result (λ fault. HearsBroken link (bit ∷ []) fault self.old self.new) }
        ensures untold { OnErr result (tap.new ≡ tap.old) }
        ensures links { length self.new.links ≡ length self.old.links }
    {
        match self.complete_by(link, bit) {
            None => Ok(None),
            Some(octet) => match self.turn_tapped(link, octet, tap) {
                Ok(turn) => Ok(Some(turn)),
                Err(fault) => Err(fault),
            },
        }
    }

    /// What the set answers to this event of this actor, at once.
    ///
    /// Users offer, take and find. A terminal's own are those that its turns don't ask: NoAnswer, Timed,
    /// Restore and BackTimeout. Faults: those of [`SetCore::apply`]; the bench is then as it was.
    pub fn ask(&mut self, who: Actor, event: &Event) -> Result<Answer, SetFault>
        requires { IsActor who }
        ensures ok { IfOk result (λ answer. IsStep self.old.set who event.now answer self.new.set) }
        ensures exhausted { (result ≡ Err SetFault.Exhausted) ↔ (longest_history ≤ entries_in self.old.set) }
        ensures links { self.new.links ≡ self.old.links }
        ensures err { OnErr result (self.new ≡ self.old) }
    {
        self.door.ask(who, event)
    }

    /// A checkpoint of the set: what it holds becomes its base, and its history begins anew ([`SetCore::checkpoint`]).
    ///
    /// Fault: 1 [`SetFault::NoMemory`], only where memory was refused; the bench is then as it was.
    pub fn checkpoint(&mut self) -> Result<(), SetFault>
        ensures ok { OnOk result (self.new.set ≡ based self.old.set) }
        ensures links { self.new.links ≡ self.old.links }
        ensures err { OnErr result (self.new ≡ self.old) }
        ensures fault { IfErr result (λ fault. fault ≡ SetFault.NoMemory) }
    {
        self.door.checkpoint()
    }

    /// The set: its base, its history since, and its accounts.
    pub fn set(&self) -> &SetCore
        ensures { result.now ≡ self.now.set }
    {
        self.door.set()
    }

    /// A law: all that was asked of the set since its base, and answered, is a legal history of it, and what the set
    /// holds is what that leads to.
    pub fn replays(&self)
        ensures legal { IsLegal self.now.set.base.state self.now.set.history }
        ensures leads { self.now.set.state ≡ after self.now.set.base.state self.now.set.history }
    {
        self.door.set().replays();
    }

    /// An octet's bits come behind those that wait on this link: the octet that is whole with them.
    fn complete(&mut self, link: u8, octet: u8) -> u8
        requires { link < length self.old.links }
        ensures octet { Completes link (bits_of 8 octet) self.old result self.new }
        ensures links { length self.new.links ≡ length self.old.links }
    {
        self.links[usize::from(link)].complete(octet)
    }

    /// A bit comes behind those that wait on this link: the octet that is whole with it, if one is.
    fn complete_by(&mut self, link: u8, bit: bool) -> Option<u8>
        requires { link < length self.old.links }
        ensures whole { IfSome result (λ octet. Completes link (bit ∷ []) self.old octet self.new) }
        ensures waits { IfNone result (Waits link (bit ∷ []) self.old self.new) }
        ensures links { length self.new.links ≡ length self.old.links }
    {
        self.links[usize::from(link)].complete_by(bit)
    }

    /// The link of this number.
    fn at(&self, link: u8) -> &LinkEnd
        requires { link < length self.now.links }
        ensures { slice_get self.now.links link ≡ Some result.now }
    {
        &self.links[usize::from(link)]
    }
}
