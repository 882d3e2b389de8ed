//! What stood back for a link that is left turns back: it goes where its streams run (Q.704 6).
ghost use Rattle.std.specs.Prelude.{◌≡◌, ◌<◌, Some, length};
ghost use Rattle.set_queues.specs.Backs.{back_count};
ghost use Rattle.set_model.specs.Changeover.{turned_back};
ghost use Rattle.set_model.specs.State.{On, State, fate_at};
ghost use Rattle.set_changeover.specs.Agreement.{StandsFor};
ghost use Rattle.set_changeover.specs.Parts.{IsWhole, kept_of};
ghost use Rattle.set_changeover.specs.Turning.{IsTurning, CanTurn, HasWay, TakesTurns};
ghost use Rattle.set_changeover.specs.Room.{CanTurnBack};

use super::parts::{Parts, fate_of_new};
use set_events::Fate;
use set_queues::Kind;
use std::alloc::Allocator;

/// What stood back for this link, which was left, goes where its streams run, the oldest first.
pub(crate) fn turn_back<A: Allocator + Copy>(parts: &mut Parts<A>, number: u8)
    requires whole { IsWhole parts.old }
    requires known { number < length parts.old.links.items }
    requires turning { CanTurn number (kept_of parts.old) }
    requires room { CanTurnBack number parts.old }
    ensures stands { (s : State) → StandsFor (kept_of parts.old) s → IsTurning number s
        → StandsFor (kept_of parts.new) (turned_back number s) }
    ensures turns { TakesTurns (back_count number parts.old.queues.lists) parts.old.queues
        parts.new.queues }
    ensures links { parts.new.links ≡ parts.old.links }
    ensures bodies { parts.new.bodies ≡ parts.old.bodies }
    ensures whole { IsWhole parts.new }
{
    while let Some(code) = parts.queues.oldest_back(number) {
        let to = way_of(parts, code);
        parts.queues.turn_back(code, to);
    }
}

/// Where the first goes that waits for this code's acknowledgement: the link on which its stream runs.
fn way_of<A: Allocator + Copy>(parts: &Parts<A>, code: u8) -> Fate
    requires whole { IsWhole parts.now }
    requires way { HasWay code (kept_of parts.now) }
    ensures { (way : HasWay code (kept_of parts.now)) (s : State) → StandsFor (kept_of parts.now) s
        → result ≡ fate_at (On way.via) s }
{
    parts.queues.is_sound();
    let first = parts.queues.number_at(Fate::Back { code }, 0).unwrap();
    let message = parts.queues.message(first).unwrap();
    match message.kind {
        Kind::User { stream } => fate_of_new(parts, stream),
        Kind::Order => unreachable!(),
    }
}
