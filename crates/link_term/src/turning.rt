//! The steps of a turn, between the octet that is taken and the one that is put.
ghost use Rattle.std.specs.Prelude.{◌≡◌, [], ◌∷◌, ◌++◌, IfOk, IfErr, IsTrue, ◌↔◌};
ghost use Rattle.std.specs.Option.{option_to_list};
ghost use Rattle.l2_bits.specs.LineBits.{line_bits};
ghost use Rattle.link_term.specs.declared.counts.Filling.TheVariants.{Wide};
ghost use Rattle.link_term.specs.Filling.{Taps};
ghost use Rattle.link_term.specs.Standing.{seen_of, standing_at};
ghost use Rattle.link_term.specs.Taking.{TurnsTapped};
ghost use Rattle.link_term.specs.Talking.{at_door};
ghost use Rattle.link_term.specs.Turning.{HearsOctet, StepsTo, PutsOut, TurnFails};
ghost use Rattle.term_model.specs.OctetIn.{bits_in};

use super::choosing::fill;
use super::counts::{Filling, MarkCounts, Turned};
use super::door::Door;
use super::fault::TermFault;
use super::obeying::obey;
use super::receiver::Receiver;
use super::tap::Tap;
use super::timing::end_timers;
use line_ring::Line;
use set_events::{Reply, SetFault};
use term_core::Inside;

/// A turn: commands, one octet in, marks, timers, what is sent next, one octet out.
///
/// Faults: those of the door; 4 [`TermFault::Profile`] where the set gives a unit of the wide profile: it's tested before
/// anything of what is sent changes, and nothing is put.
pub(crate) fn take_turn<D: Door, L: Line, T: Tap>(
    receiver: &mut Receiver,
    inside: &mut Inside,
    door: &mut D,
    reply: &mut Reply,
    line: &mut L,
    tap: &mut T,
) -> Result<Turned, TermFault>
    requires { D.number door.old ≡ inside.old.link }
    ensures turns { IfOk result (λ turned. TurnsTapped (λ unit. Taps T.told unit tap.old tap.new)
        (standing_at D.Door L.Line receiver.old inside.old door.old line.old) turned
        (standing_at D.Door L.Line receiver.new inside.new door.new line.new)) }
    ensures fails { IfErr result (λ fault. TurnFails fault
        (standing_at D.Door L.Line receiver.old inside.old door.old line.old)
        (standing_at D.Door L.Line receiver.new inside.new door.new line.new)
        × (tap.new ≡ tap.old)) }
    ensures at { D.number door.new ≡ inside.new.link }
    ensures number { D.number door.new ≡ D.number door.old }
    ensures door { D.is_same door.old door.new }
    ensures same { L.is_same line.old line.new }
{
    obey(inside, door)?;
    let octet = line.take();
    let turned = from_octet(receiver, inside, door, reply, octet, tap)?;
    if is_wide(turned.filling) {
        return Err(TermFault::Profile);
    }
    put_octet(inside, line);
    Ok(turned)
}

/// Whether the set gave a unit of the wide profile.
fn is_wide(filling: Filling) -> bool
    ensures { IsTrue result ↔ (filling ≡ Wide) }
{
    matches!(filling, Filling::Wide)
}

/// The next octet is put; where the line is full it stays for the next turn.
fn put_octet<L: Line>(inside: &mut Inside, line: &mut L)
    ensures puts { PutsOut inside.old inside.new (seen_of L.Line line.old) (seen_of L.Line line.new) }
    ensures same { L.is_same line.old line.new }
{
    match line.put(inside.octet()) {
        Ok(()) => inside.drop_octet(),
        Err(_full) => {}
    }
}

/// Steps 2 to 5 of a turn: the marks of the octet that was taken, timers, and what is sent next.
pub(crate) fn from_octet<D: Door, T: Tap>(
    receiver: &mut Receiver,
    inside: &mut Inside,
    door: &mut D,
    reply: &mut Reply,
    octet: Option<u8>,
    tap: &mut T,
) -> Result<Turned, SetFault>
    requires { D.number door.old ≡ inside.old.link }
    ensures steps { StepsTo (line_bits receiver.old) octet (at_door D.Door inside.old door.old) result
        (at_door D.Door inside.new door.new) T.told tap.old tap.new }
    ensures taken { receiver.new ≡ receiver.old ++ option_to_list octet }
    ensures at { D.number door.new ≡ inside.new.link }
    ensures number { D.number door.new ≡ D.number door.old }
    ensures door { D.is_same door.old door.new }
{
    let marks = hear_octet(receiver, inside, door, reply, octet)?;
    end_timers(inside, door)?;
    let filling = fill(inside, door, reply, tap)?;
    Ok(Turned { marks, filling })
}

/// The marks of the octet that was taken, if one was.
fn hear_octet<D: Door>(
    receiver: &mut Receiver,
    inside: &mut Inside,
    door: &mut D,
    reply: &mut Reply,
    octet: Option<u8>,
) -> Result<MarkCounts, SetFault>
    requires { D.number door.old ≡ inside.old.link }
    ensures hears { HearsOctet (line_bits receiver.old) (bits_in octet) (at_door D.Door inside.old door.old) result
        (at_door D.Door inside.new door.new) }
    ensures taken { receiver.new ≡ receiver.old ++ option_to_list octet }
    ensures at { D.number door.new ≡ inside.new.link }
    ensures number { D.number door.new ≡ D.number door.old }
    ensures door { D.is_same door.old door.new }
{
    match octet {
        Some(octet) => receiver.hear(octet, inside, door, reply),
        None => Ok(MarkCounts::NONE),
    }
}
