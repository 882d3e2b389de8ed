//! One octet that comes on a link's line, and the unit that its turn sends.
ghost use Rattle.std.specs.Prelude.{◌≡◌, ◌≤◌, ◌<◌, IfOk, length};
ghost use Rattle.std.specs.Option.{option_map};
ghost use Rattle.end_calls.specs.Codes.{no_such_link};
ghost use Rattle.end_calls.specs.Turning.{IsTurned, at_front, longest_unit, unit_text};
ghost use Rattle.end_calls.specs.declared.fault.CallFault.TheVariants.{NoRoom};
ghost use Rattle.l2_units.specs.declared.profile.Profile.TheVariants.{Narrow};
ghost use Rattle.text_entries.specs.Texts.{unit_octets};

use super::fault::CallFault;
use super::hearing::{hear_one, of_term};
use super::links::{NO_SUCH_LINK, has_link};
use super::users::put;
use arrayvec::ArrayVec;
use l2_units::{LONGEST_UNIT, Unit, header_in, write};
use link_term::LastUnit;
use term_managed::ManagedBench;

/// What an octet did that was heard.
#[repr(C)]
#[derive(Clone, Copy, Debug, PartialEq, Eq)]
pub struct TurnedValues {
    /// How many octets the unit has that was appended to what is sent, without its check octets; 0: none was.
    pub unit: usize,
    /// The octet that was put.
    pub put: u8,
    /// 1 where a message for users was heard, else 0.
    pub message: u8,
}

/// An octet came on this link's line and has its turn: [`hear`](super::hear) of one octet, which tells too the unit that
/// its turn appended to what is sent, if it did. That stands at the front of `room`, without check octets; its other octets
/// stay.
///
/// Refusals, in this order: 10 no such link, 50 [`CallFault::NoRoom`] where `room` has fewer than 276 octets; nothing is
/// done then. Faults: those of [`hear`](super::hear). `room` and `turned` are then as they were.
pub fn turn(
    end: &mut ManagedBench,
    link: u8,
    octet: u8,
    room: &mut [u8],
    turned: &mut TurnedValues,
) -> Result<(), CallFault>
    ensures turns { IsTurned link octet room.old turned.old end.old result room.new turned.new end.new }
    ensures no_link { length end.old.bench.links ≤ link → result ≡ Err no_such_link }
    ensures no_room { link < length end.old.bench.links → length room.old < longest_unit → result ≡ Err NoRoom }
{
    if !has_link(end, link) {
        return Err(NO_SUCH_LINK);
    }
    if room.len() < LONGEST_UNIT {
        return Err(CallFault::NoRoom);
    }
    let mut tap = LastUnit::new();
    let passed = match hear_one(end, link, octet, &mut tap) {
        Ok(passed) => passed,
        Err(fault) => return Err(of_term(fault)),
    };
    *turned = TurnedValues {
        unit: put_unit(tap.unit(), room),
        put: passed.put,
        message: passed.message,
    };
    Ok(())
}

/// Puts the octets of a unit, if there is one, to the front of their room; how many they are.
fn put_unit(unit: Option<&Unit>, room: &mut [u8]) -> usize
    requires { longest_unit ≤ length room.old }
    ensures value { result ≡ length (unit_text (option_map (λ u. u.now) unit.entry)) }
    ensures room { room.new ≡ at_front (unit_text (option_map (λ u. u.now) unit.entry)) room.old }
{
    match unit {
        None => 0,
        Some(unit) => put(octets_of(unit).as_slice(), room),
    }
}

/// A unit's octets, without check octets; there are none of one whose numbers have over seven bits, as no link sends.
fn octets_of(unit: &Unit) -> ArrayVec<u8, LONGEST_UNIT>
    ensures { result.items ≡ unit_octets Narrow unit.now }
{
    let head = header_in(unit);
    if head.bsn < 128 && head.fsn < 128 {
        write(unit)
    } else {
        ArrayVec::new()
    }
}
