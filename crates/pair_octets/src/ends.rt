//! What a step does at one end: its bench, and the lines to it and from it.
ghost use Rattle.std.specs.Prelude.{◌≡◌, ◌<◌, ◌≤◌, ◌↔◌, ℕ, List, length, true, not, IfErr, IfOk, OnErr, OnOk};
ghost use Rattle.pair_octets.specs.Wires.{CommandsIf, IsAsked, TakesTurn, TurnFails, is_actor, is_refused};
ghost use Rattle.pair_octets.specs.declared.fault.StepFault.TheVariants.{Impossible, OfSet};
ghost use Rattle.set_events.specs.declared.fault.SetFault.{SetFault as ToldFault};
ghost use Rattle.set_events.specs.declared.fault.SetFault.TheVariants.{Exhausted};
ghost use Rattle.set_model.specs.History.{IsActor, entries_in, longest_history};
ghost use Rattle.term_bench.specs.Ends.{BenchState};

use super::fault::StepFault;
use super::lines::Lines;
use link_term::{Command, NoTap};
use set_events::{Actor, Answer, Event};
use term_bench::{Bench, Turn};

/// A turn of this link at a bench, by the octet in front of the line to it; the octet that it puts joins the line from it.
pub(crate) fn take_turn(
    bench: &mut Bench,
    link: u8,
    coming: &mut Lines,
    going: &mut Lines,
) -> Result<Turn, StepFault>
    requires coming { length coming.old ≡ length bench.old.links }
    requires going { length going.old ≡ length bench.old.links }
    ensures turns { (far : BenchState) → IfOk result (λ turn. (takes : TakesTurn link
        (record { near = bench.old; far = far; to_near = coming.old; to_far = going.old })
        (record { near = bench.new; far = far; to_near = coming.new; to_far = going.new })) × (turn ≡ takes.turn)) }
    ensures fails { (far : BenchState) → IfErr result (λ fault. TurnFails fault link
        (record { near = bench.old; far = far; to_near = coming.old; to_far = going.old })) }
    ensures stays { result ≡ Err Impossible
        → (bench.new ≡ bench.old) × (coming.new ≡ coming.old) × (going.new ≡ going.old) }
    ensures links { length bench.new.links ≡ length bench.old.links }
    ensures coming { length coming.new ≡ length coming.old }
    ensures going { length going.new ≡ length going.old }
{
    let Some(octet) = coming.take_front(link) else {
        return Err(StepFault::Impossible);
    };
    match bench.turn_tapped(link, octet, &mut NoTap) {
        Ok(turn) => {
            going.join(link, turn.put)?;
            Ok(turn)
        }
        Err(fault) => Err(StepFault::OfTurn { fault }),
    }
}

/// A command to this link's terminal at a bench; whether it waits for the link's next turn.
pub(crate) fn give_command(bench: &mut Bench, link: u8, command: Command) -> bool
    requires { link < length bench.old.links }
    ensures commands { CommandsIf (is_refused link command bench.old) link command bench.old bench.new }
    ensures waits { result ≡ not (is_refused link command bench.old) }
    ensures links { length bench.new.links ≡ length bench.old.links }
{
    bench.command(link, command).is_ok()
}

/// The set of a bench is asked.
pub(crate) fn ask_bench(bench: &mut Bench, who: Actor, event: &Event) -> Result<Answer, StepFault>
    requires { IsActor who }
    ensures answers { (far : BenchState) (coming going : List (List ℕ)) → IfOk result (λ answer.
        (asked : IsAsked who event.now
        (record { near = bench.old; far = far; to_near = coming; to_far = going })
        (record { near = bench.new; far = far; to_near = coming; to_far = going })) × (answer ≡ asked.answer)) }
    ensures err { OnErr result (bench.new ≡ bench.old) }
    ensures links { length bench.new.links ≡ length bench.old.links }
    ensures fails { IfErr result (λ fault. (told : ToldFault) × (fault ≡ OfSet told)
        × ((told ≡ Exhausted) ↔ (longest_history ≤ entries_in bench.old.set))) }
{
    match bench.ask(who, event) {
        Ok(answer) => Ok(answer),
        Err(fault) => Err(StepFault::OfSet { fault }),
    }
}

/// Whether an actor is in range.
pub(crate) fn is_actor(who: Actor) -> bool
    ensures value { result ≡ is_actor who }
    ensures is { result ≡ true → IsActor who }
{
    match who {
        Actor::User(number) => number < 64,
        Actor::Terminal(link) => link < 16,
    }
}
