//! What a link's terminal sends next.
ghost use Rattle.std.specs.Prelude.{◌≡◌, ◌<◌, ◌≤◌, true, List, length, slice_get, Some, option_map};
ghost use Rattle.l2_window.specs.Control.{fsn_of};
ghost use Rattle.set_queues.specs.Buffers.{IsKnown, is_standing, queue_at};
ghost use Rattle.set_model.specs.Rows.{IsInOrder, is_waiting, turned};
ghost use Rattle.set_model.specs.Changeover.{cleared};
ghost use Rattle.set_model.specs.Control.{head_of};
ghost use Rattle.set_model.specs.State.{State, LinkState, window_of};
ghost use Rattle.set_model.specs.Step.{choice_in, next, in_service};
ghost use Rattle.set_changeover.specs.Agreement.{Holds, StandsFor, rows_at};
ghost use Rattle.set_changeover.specs.Parts.{Answers, OfStates, BecomesAt, kept_of};
ghost use Rattle.set_traffic.specs.Traffic.{IsThere, goes_on};

use super::clearing::clear;
use l2_units::Header;
use l2_window::Choice;
use set_changeover::{Parts, unserved};
use set_events::{Fate, Reply};
use std::alloc::Allocator;

/// The next unit to send, once the orders that were overtaken are discarded.
#[tactic(auto, using(crate::proofs::Traffic::queue_there))]
pub fn send_next<A: Allocator + Copy>(parts: &mut Parts<A>, number: u8, reply: &mut Reply)
    requires { Holds (kept_of parts.old) }
    ensures { Answers parts.old parts.new reply.new (λ s. in_service number s
        (next number (cleared number s))) }
{
    if let Some(why) = unserved(parts, number) {
        reply.set_refused(why);
        return;
    }
    clear(parts, number);
    let (choice, head) = go_on(parts, number);
    match choice {
        Choice::Again { place } => {
            reply.set_message(head, body_at(parts, Fate::Unacked { link: number }, place));
        }
        Choice::First => {
            reply.set_message(head, body_at(parts, Fate::Waiting { link: number }, 0));
            parts.queues.send(number).unwrap();
        }
        Choice::Fill => reply.set_fill_in(head),
    }
}

/// The link's control chooses, and goes on as that is sent, before the message moves: the choice and the unit's header.
fn go_on<A: Allocator + Copy>(parts: &mut Parts<A>, number: u8) -> (Choice, Header)
    requires known { number < length parts.old.links.items }
    requires queue { number < length parts.old.queues.lists.links }
    ensures chosen { OfStates number parts.old (λ link s. result.0 ≡ choice_in number link s) }
    ensures queue { number < length parts.new.queues.lists.links }
    ensures there { IsThere result.0 number parts.new.queues.lists }
    ensures head { OfStates number parts.old (λ link s.
        result.1 ≡ head_of link.control (window_of number link s.rows)
        (fsn_of result.0 (window_of number link s.rows))) }
    ensures stands { BecomesAt number parts.old parts.new (goes_on number result.0) }
    ensures same { parts.new ≡ record parts.old { links = parts.new.links } }
{
    let window = parts.queues.window(number);
    let octets = parts.queues.octets(number);
    let control = &mut parts.links[usize::from(number)].control;
    let choice = control.choice(window, octets);
    let head = control.send(choice, window, octets);
    (choice, head)
}

/// The body of the message at this place of a queue, whatever the links have come to.
#[tactic(auto, using(crate::proofs::Traffic::fit_at))]
fn body_at<A: Allocator + Copy>(parts: &Parts<A>, fate: Fate, place: usize) -> &[u8]
    requires holds { (links : List LinkState) × Holds (record (kept_of parts.now) { links = links }) }
    requires known { IsKnown fate parts.now.queues.lists }
    requires standing { is_standing fate ≡ true }
    requires place { place < length (queue_at fate parts.now.queues.lists) }
    ensures body { (s : State) → StandsFor (kept_of parts.now) s
        → option_map (λ row. row.body) (slice_get (rows_at fate s.rows) place) ≡ Some result.now }
    ensures few { length result.now ≤ 273 }
{
    let message = parts.queues.number_at(fate, place).unwrap();
    parts.bodies.body(message)
}
