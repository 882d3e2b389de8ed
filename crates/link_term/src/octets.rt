//! An octet that was taken: its bits, and their marks (Q.703 2.4, 3, 4).
ghost use Rattle.std.specs.Prelude.{◌≡◌, ◌≤◌, List, Bool, length, IfOk};
ghost use Rattle.l2_bits.specs.Deframing.{StandsFor, rest_of};
ghost use Rattle.link_term.specs.Octets.{FedSome, Hears};
ghost use Rattle.link_term.specs.Talking.{at_door};

use super::counts::MarkCounts;
use super::door::Door;
use super::hearing::mark;
use l2_bits::{Deframer, Rest};
use set_events::{Reply, SetFault};
use term_core::Inside;

/// The bits that are left of an octet: each mark that they give is heard, in order. Answers how many of each kind there
/// were. Where the door fails, the bits that are left then are taken all the same, and their marks are heard no more.
pub(crate) fn hear_bits<D: Door>(
    deframer: &mut Deframer,
    rest: &mut Rest,
    inside: &mut Inside,
    door: &mut D,
    reply: &mut Reply,
) -> Result<MarkCounts, SetFault>
    requires at { D.number door.old ≡ inside.old.link }
    requires few { length (rest_of rest.old) ≤ 8 }
    ensures hears { (past : List Bool) → StandsFor past deframer.old
        → Hears past (rest_of rest.old) (at_door D.Door inside.old door.old) result
        (at_door D.Door inside.new door.new) deframer.new }
    ensures at { D.number door.new ≡ inside.new.link }
    ensures number { D.number door.new ≡ D.number door.old }
    ensures door { D.is_same door.old door.new }
    ensures few { IfOk result (λ counts. (counts.good ≤ length (rest_of rest.old))
        × (counts.bad ≤ length (rest_of rest.old)) × (counts.sixteen ≤ length (rest_of rest.old))) }
{
    let Some(kind) = deframer.feed_rest(rest) else {
        return Ok(MarkCounts::NONE);
    };
    match mark(inside, door, reply, kind, deframer.unit()) {
        Ok(()) => {}
        Err(fault) => {
            drain(deframer, rest);
            return Err(fault);
        }
    }
    match hear_bits(deframer, rest, inside, door, reply) {
        Ok(later) => Ok(later.after(kind)),
        Err(fault) => Err(fault),
    }
}

/// Takes the bits that are left, whatever marks they give.
fn drain(deframer: &mut Deframer, rest: &mut Rest)
    ensures { (past : List Bool) → StandsFor past deframer.old
        → FedSome past (rest_of rest.old) deframer.new }
{
    match deframer.feed_rest(rest) {
        Some(_kind) => drain(deframer, rest),
        None => {}
    }
}
