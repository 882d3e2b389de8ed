//! Two ends, and the octets under way between them.
use super::ends::{ask_bench, give_command, is_actor, take_turn};
use super::fault::{RunFault, StepFault};
use super::line::Line;
use super::lines::Lines;
use super::step::{EndConfig, LineLengths, WireStep};
use link_term::Command;
use pair_steps::End;
use set_events::{Actor, Answer, Event};
use std::alloc::Global;
use std::marker::Model;
use term_bench::{Bench, Turn};

/// Two ends of a set of links, and of each link the octets under way to each.
#[derive(Drop)]
pub struct Wires {
    a: Bench,
    b: Bench,
    to_a: Lines,
    to_b: Lines,
}

impl Model for Wires {
    ghost use Rattle.pair_octets.specs.Wires.{Wires as WiresState};

    ghost Value = { WiresState };

    ghost view = { λ w. record { a = w.a; b = w.b; to_a = w.to_a; to_b = w.to_b } };

    ghost use Rattle.pair_octets.specs.Wires.{AreJoined};

    ghost invariant = { λ w. AreJoined (record { a = w.a; b = w.b; to_a = w.to_a; to_b = w.to_b }) };
}

impl Wires {
    ghost use Rattle.std.specs.Prelude.{◌≡◌, [], slice_get, MatchResult, IfErr, IfOk, OnErr, OnOk, length, not, option_copied};
    ghost use Rattle.pair_octets.specs.Wires.{AreFitting, AskFails, CommandFails, DamageFails, Fails, Happen, Happens, IsAsked, IsDamaged, IsRun, RunFails, StepsFail, TakesCommand, TakesTurn, TurnFails, is_refused, new_wires, seen_from};
    ghost use Rattle.pair_octets.specs.declared.fault.StepFault.TheVariants.{Impossible};

    /// Two new ends of these configurations, joined by idle lines: flags are under way on each, as many as its length
    /// says.
    ///
    /// Faults: 2 [`RunFault::Links`] exactly where the configurations differ in links, or where there aren't as many
    /// lengths, tested first; 1 [`RunFault::NoMemory`] only where memory was refused.
    pub fn new(
        alloc: Global,
        a: &EndConfig,
        b: &EndConfig,
        lengths: &[LineLengths],
    ) -> Result<Wires, RunFault>
        ensures { MatchResult result
            (λ wires. AreFitting a.now b.now lengths.now
            × (wires ≡ new_wires a.now b.now lengths.now))
            (λ fault. RunFails fault a.now b.now lengths.now []) }
    {
        if a.set.links != b.set.links || lengths.len() != usize::from(a.set.links) {
            return Err(RunFault::Links);
        }
        let to_a = Lines::to_a(alloc, lengths)?;
        let to_b = Lines::to_b(alloc, lengths)?;
        let Ok(a) = Bench::new(alloc, &a.set, a.timers) else {
            return Err(RunFault::NoMemory);
        };
        let Ok(b) = Bench::new(alloc, &b.set, b.timers) else {
            return Err(RunFault::NoMemory);
        };
        Ok(Wires { a, b, to_a, to_b })
    }

    /// One step. After a fault but [`StepFault::Impossible`] the ends aren't to be used again.
    ///
    /// Faults: 2 [`StepFault::Impossible`] exactly where the step can't be done: nothing is done then; of a set that is
    /// asked, 3 [`StepFault::OfSet`]; of a turn, 4 [`StepFault::OfTurn`], by the fault that broke it off
    /// ([`Bench::turn`]); 1 [`StepFault::NoMemory`] only where memory was refused.
    pub fn step(&mut self, step: &WireStep) -> Result<(), StepFault>
        ensures happens { OnOk result (Happens step.now self.old self.new) }
        ensures fails { IfErr result (λ fault. Fails fault step.now self.old) }
        ensures stays { result ≡ Err Impossible → self.new ≡ self.old }
    {
        match step {
            WireStep::Turn { end, link } => {
                self.turn(*end, *link)?;
            }
            WireStep::Command { end, link, command } => {
                self.command(*end, *link, *command)?;
            }
            WireStep::Ask { end, who, event } => {
                self.ask(*end, *who, event)?;
            }
            WireStep::Damage {
                end,
                link,
                place,
                octet,
            } => self.damage(*end, *link, *place, *octet)?,
        }
        Ok(())
    }

    /// Two new ends as of [`Wires::new`], after these steps, one after another.
    ///
    /// Faults: those of [`Wires::new`]; 3 [`RunFault::AtStep`] of the first step that fails, as of [`Wires::step`].
    pub fn run(
        alloc: Global,
        a: &EndConfig,
        b: &EndConfig,
        lengths: &[LineLengths],
        steps: &[WireStep],
    ) -> Result<Wires, RunFault>
        ensures { MatchResult result
            (λ wires. IsRun a.now b.now lengths.now steps.now wires)
            (λ fault. RunFails fault a.now b.now lengths.now steps.now) }
    {
        let mut wires = Wires::new(alloc, a, b, lengths)?;
        match wires.steps(steps) {
            Ok(()) => Ok(wires),
            Err(fault) => Err(fault),
        }
    }

    /// The bench of this end.
    pub fn bench(&self, end: End) -> &Bench
        ensures { result.now ≡ (seen_from end self.now).near }
    {
        match end {
            End::A => &self.a,
            End::B => &self.b,
        }
    }

    /// The octets under way to this end on the link, the next to come in front; `None` on a link that isn't there.
    pub fn line(&self, end: End, link: u8) -> Option<&Line>
        ensures { slice_get (seen_from end self.now).to_near link ≡ option_copied result }
    {
        match end {
            End::A => self.to_a.line(link),
            End::B => self.to_b.line(link),
        }
    }

    /// These steps, one after another; a fault is that of the first step that fails.
    fn steps(&mut self, steps: &[WireStep]) -> Result<(), RunFault>
        ensures ok { OnOk result (Happen steps.now self.old self.new) }
        ensures err { IfErr result (λ fault. StepsFail fault steps.now self.old) }
    {
        for (place, step) in steps.iter().enumerate() {
            match self.step(step) {
                Ok(()) => (),
                Err(fault) => {
                    return Err(RunFault::AtStep {
                        place: place as u64,
                        fault,
                    });
                }
            }
        }
        Ok(())
    }

    /// [`WireStep::Turn`]: what the turn did. Faults: those of [`Wires::step`].
    pub fn turn(&mut self, end: End, link: u8) -> Result<Turn, StepFault>
        ensures turns { IfOk result (λ turn. (takes : TakesTurn link (seen_from end self.old) (seen_from end self.new))
            × (turn ≡ takes.turn)) }
        ensures fails { IfErr result (λ fault. TurnFails fault link (seen_from end self.old)) }
        ensures stays { result ≡ Err Impossible → self.new ≡ self.old }
    {
        match end {
            End::A => take_turn(&mut self.a, link, &mut self.to_a, &mut self.to_b),
            End::B => take_turn(&mut self.b, link, &mut self.to_b, &mut self.to_a),
        }
    }

    /// [`WireStep::Command`]: whether it waits for the link's next turn. Fault: 2 [`StepFault::Impossible`].
    pub fn command(&mut self, end: End, link: u8, command: Command) -> Result<bool, StepFault>
        ensures commands { OnOk result (TakesCommand link command (seen_from end self.old) (seen_from end self.new)) }
        ensures waits { IfOk result (λ waits. waits ≡ not (is_refused link command (seen_from end self.old).near)) }
        ensures fails { IfErr result (λ fault. CommandFails fault link (seen_from end self.old)) }
        ensures stays { result ≡ Err Impossible → self.new ≡ self.old }
    {
        if usize::from(link) >= self.to_a.len() {
            return Err(StepFault::Impossible);
        }
        match end {
            End::A => Ok(give_command(&mut self.a, link, command)),
            End::B => Ok(give_command(&mut self.b, link, command)),
        }
    }

    /// [`WireStep::Ask`]: what the end's set answers. Faults: 2 [`StepFault::Impossible`], 3 [`StepFault::OfSet`].
    pub fn ask(&mut self, end: End, who: Actor, event: &Event) -> Result<Answer, StepFault>
        ensures answers { IfOk result (λ answer.
            (asked : IsAsked who event.now (seen_from end self.old) (seen_from end self.new)) × (answer ≡ asked.answer)) }
        ensures fails { IfErr result (λ fault. AskFails fault who (seen_from end self.old)) }
        ensures stays { OnErr result (self.new ≡ self.old) }
    {
        if !is_actor(who) {
            return Err(StepFault::Impossible);
        }
        match end {
            End::A => ask_bench(&mut self.a, who, event),
            End::B => ask_bench(&mut self.b, who, event),
        }
    }

    /// [`WireStep::Damage`]. Fault: 2 [`StepFault::Impossible`].
    pub fn damage(&mut self, end: End, link: u8, place: u64, octet: u8) -> Result<(), StepFault>
        ensures damaged { OnOk result (IsDamaged link place octet (seen_from end self.old) (seen_from end self.new)) }
        ensures fails { IfErr result (λ fault. DamageFails fault link place (seen_from end self.old)) }
        ensures stays { OnErr result (self.new ≡ self.old) }
    {
        let is_there = match end {
            End::A => self.to_a.change(link, place, octet),
            End::B => self.to_b.change(link, place, octet),
        };
        if is_there {
            Ok(())
        } else {
            Err(StepFault::Impossible)
        }
    }
}
