//! A unit to octets.
ghost use Rattle.std.specs.Prelude.{◌≡◌, ◌+◌, ◌*◌, ◌≤◌, ◌<◌, ◌^◌, ◌++◌, if◌then◌else◌, length};
ghost use Rattle.l2_units.specs.Profile.{Narrow, Wide};
ghost use Rattle.l2_units.specs.Lent.{body_in, unit_in};
ghost use Rattle.l2_units.specs.Grammar.{IsHeadOf, head_of, body_of, text, octets_with, sequence_octet as octet_of};

use super::lent::UnitRef;
use super::unit::{Header, LONGEST_UNIT, Unit};
use super::wide::wide_word;
use arrayvec::ArrayVec;

/// The octets of a unit, without check octets: its one text with spare bits 0. An LSSU is sent
/// with a status field of one octet (own).
///
/// Condition: numbers below 128. A unit whose body has fewer than 3 octets is written as it stands, though no octets
/// are read back as such a unit.
pub fn write(unit: &Unit) -> ArrayVec<u8, LONGEST_UNIT>
    requires { IsHeadOf Narrow (head_of unit.now) }
    ensures { result.items ≡ text Narrow unit.now }
{
    write_ref(&UnitRef::of(unit))
}

/// The same of a unit whose body stays where it stands.
///
/// Conditions: numbers below 128, and a body of at most 273 octets.
pub fn write_ref(unit: &UnitRef<'_>) -> ArrayVec<u8, LONGEST_UNIT>
    requires numbers { IsHeadOf Narrow (head_of (unit_in unit.now)) }
    requires few { length (body_in unit.now) ≤ 273 }
    ensures { result.items ≡ text Narrow (unit_in unit.now) }
{
    match unit {
        UnitRef::Fisu { head } => with_body(head, &[]),
        UnitRef::Lssu { head, status } => with_body(head, &[status.number()]),
        UnitRef::Msu { head, body } => with_body(head, body),
    }
}

/// The octets of a unit in the wide profile, without check octets.
///
/// Condition: a body of at most 272 octets.
pub fn write_wide(unit: &Unit) -> ArrayVec<u8, LONGEST_UNIT>
    requires { length (body_of unit.now) ≤ 272 }
    ensures { result.items ≡ text Wide unit.now }
{
    match unit {
        Unit::Fisu { head } => with_wide_body(head, &[]),
        Unit::Lssu { head, status } => with_wide_body(head, &[status.number()]),
        Unit::Msu { head, body } => with_wide_body(head, body.as_slice()),
    }
}

/// The octets of a header, a length indicator and a body, with spare bits 0.
fn with_body(head: &Header, body: &[u8]) -> ArrayVec<u8, LONGEST_UNIT>
    requires numbers { IsHeadOf Narrow head.now }
    requires body { length body.now ≤ 273 }
    ensures { result.items ≡ octets_with Narrow 0 head.now body.now }
{
    let mut octets = ArrayVec::new();
    octets.push(sequence_octet(head.bsn, head.bib));
    octets.push(sequence_octet(head.fsn, head.fib));
    octets.push(body.len().min(63) as u8);
    match octets.try_extend_from_slice(body) {
        Ok(()) => octets,
        Err(_) => unreachable!(),
    }
}

/// The octets of a wide header and a body.
fn with_wide_body(head: &Header, body: &[u8]) -> ArrayVec<u8, LONGEST_UNIT>
    requires { length body.now ≤ 272 }
    ensures { result.items ≡ octets_with Wide 0 head.now body.now }
{
    let mut octets = ArrayVec::new();
    match octets.try_extend_from_slice(&wide_word(*head, body.len().min(63) as u32).to_le_bytes()) {
        Ok(()) => {}
        Err(_) => unreachable!(),
    }
    match octets.try_extend_from_slice(body) {
        Ok(()) => octets,
        Err(_) => unreachable!(),
    }
}

/// A sequence number with its indicator bit above it.
pub(crate) fn sequence_octet(number: u16, indicator: bool) -> u8
    requires { number < 2 ^ 7 }
    ensures { result ≡ octet_of number indicator }
{
    (if indicator { number + 128 } else { number }) as u8
}
