//! Octets to a unit.
ghost use Rattle.std.specs.Prelude.{◌≡◌, ◌<◌, ◌≤◌, ◌+◌, ◌*◌, ◌^◌, ◌↔◌, [], ◌∷◌, IfOk, length, Some};
ghost use Rattle.std.specs.Option.{option_map};
ghost use Rattle.std.specs.Result.{result_ok};
ghost use Rattle.l2_units.specs.Profile.{Narrow, Wide};
ghost use Rattle.l2_units.specs.declared.unit.Unit.{Unit as SignalUnit};
ghost use Rattle.l2_units.specs.Grammar.{StandsFor, IsHeadOf, IsBodyOf, head_of, header_in, unit_of, unit_with};
ghost use Rattle.l2_units.specs.Fault.{number_of};
ghost use Rattle.l2_units.specs.Lent.{body_in, unit_in};

use super::lent::UnitRef;
use super::status::Status;
use super::unit::{Header, LONGEST_BODY, Unit};
use super::wide::{wide_form_of, wide_header_of};
use arrayvec::ArrayVec;
use thiserror::Error;

/// The most octets of a body in the wide profile, whose header has one octet more.
const LONGEST_WIDE_BODY: usize = 272;

/// Why octets are no signal unit. The first that applies, in this order, is answered.
#[derive(Clone, Copy, Debug, Drop, PartialEq, Eq, Error)]
pub enum UnitFault {
    /// Fewer octets than a header and a length indicator have: 3, or 4 in the wide profile.
    #[error("fewer octets than a header has")]
    Short = 1,
    /// More than 276 octets.
    #[error("more than 276 octets")]
    Long = 2,
    /// The length indicator disagrees with the octets that follow it.
    #[error("the length indicator disagrees with the length")]
    Length = 3,
}

impl UnitFault {
    /// The refusal's number: 1 short, 2 long, 3 length.
    pub fn number(self) -> u8
        ensures { result ≡ number_of self }
    {
        self as u8
    }
}

/// The unit that `octets` (without check octets) stand for.
///
/// Refusals, in this order: 1 [`UnitFault::Short`] under 3 octets, 2 [`UnitFault::Long`] over 276,
/// 3 [`UnitFault::Length`] where the length indicator isn't that of what follows. The two spare
/// bits beside the length indicator aren't looked at (own). A status field of one or two octets is
/// read by the low three bits of its first (own).
pub fn read(octets: &[u8]) -> Result<Unit, UnitFault>
    ensures exact { result_ok result ≡ unit_of Narrow octets.now }
    ensures found { IfOk result (λ unit. StandsFor Narrow octets.now unit) }
    ensures only { (unit : SignalUnit) → StandsFor Narrow octets.now unit → result ≡ Ok unit }
    ensures short { (result ≡ Err UnitFault.Short) ↔ (length octets.now < 3) }
    ensures long { (result ≡ Err UnitFault.Long) ↔ (276 < length octets.now) }
{
    let [backward, forward, third, rest @ ..] = octets else {
        return Err(UnitFault::Short);
    };
    if rest.len() > LONGEST_BODY {
        return Err(UnitFault::Long);
    }
    if (*third % 64) as usize != rest.len().min(63) {
        return Err(UnitFault::Length);
    }
    Ok(with_field(header_of(*backward, *forward), rest))
}

/// The same in the wide profile, whose header has four octets.
///
/// Refusals, in this order: 1 [`UnitFault::Short`] under 4 octets, 2 [`UnitFault::Long`] over 276,
/// 3 [`UnitFault::Length`].
pub fn read_wide(octets: &[u8]) -> Result<Unit, UnitFault>
    ensures exact { result_ok result ≡ unit_of Wide octets.now }
    ensures found { IfOk result (λ unit. StandsFor Wide octets.now unit) }
    ensures only { (unit : SignalUnit) → StandsFor Wide octets.now unit → result ≡ Ok unit }
    ensures short { (result ≡ Err UnitFault.Short) ↔ (length octets.now < 4) }
    ensures long { (result ≡ Err UnitFault.Long) ↔ (276 < length octets.now) }
{
    let [a, b, c, d, rest @ ..] = octets else {
        return Err(UnitFault::Short);
    };
    if rest.len() > LONGEST_WIDE_BODY {
        return Err(UnitFault::Long);
    }
    let whole = word_of(*a, *b, *c, *d);
    if usize::from(wide_form_of(whole)) != rest.len().min(63) {
        return Err(UnitFault::Length);
    }
    Ok(with_field(wide_header_of(whole), rest))
}

/// The header of the unit that `octets` (without check octets) stand for, and its field: the octets behind the length
/// indicator, none in an FISU, one or two in an LSSU, 3 to 273 in an MSU. Nothing is copied.
///
/// Refusals as those of [`read`].
#[inline(always)]
pub fn parts_of(octets: &[u8]) -> Result<(Header, &[u8]), UnitFault>
    ensures exact { option_map (λ parts. unit_with parts.0 parts.1.now) (result_ok result) ≡ unit_of Narrow octets.now }
    ensures few { IfOk result (λ parts. length parts.1.now ≤ 273) }
    ensures short { (result ≡ Err UnitFault.Short) ↔ (length octets.now < 3) }
    ensures long { (result ≡ Err UnitFault.Long) ↔ (276 < length octets.now) }
{
    let [backward, forward, third, field @ ..] = octets else {
        return Err(UnitFault::Short);
    };
    if field.len() > LONGEST_BODY {
        return Err(UnitFault::Long);
    }
    if (*third % 64) as usize != field.len().min(63) {
        return Err(UnitFault::Length);
    }
    Ok((header_of(*backward, *forward), field))
}

/// The unit that `octets` (without check octets) stand for, whose body stays among them.
///
/// Refusals as those of [`read`].
pub fn read_ref(octets: &[u8]) -> Result<UnitRef<'_>, UnitFault>
    ensures exact { option_map unit_in (result_ok result) ≡ unit_of Narrow octets.now }
    ensures few { IfOk result (λ unit. length (body_in unit) ≤ 273) }
    ensures short { (result ≡ Err UnitFault.Short) ↔ (length octets.now < 3) }
    ensures long { (result ≡ Err UnitFault.Long) ↔ (276 < length octets.now) }
{
    let (head, field) = parts_of(octets)?;
    Ok(lent_with(head, field))
}

/// The unit with this header and these octets behind the length indicator, where they stand.
fn lent_with(head: Header, field: &[u8]) -> UnitRef<'_>
    requires { length field.now ≤ 273 }
    ensures value { unit_in result ≡ unit_with head field.now }
    ensures few { length (body_in result) ≤ 273 }
{
    match field {
        [] => UnitRef::Fisu { head },
        [first] | [first, _] => UnitRef::Lssu {
            head,
            status: Status::of(*first),
        },
        _ => UnitRef::Msu { head, body: field },
    }
}

/// The number of these four octets, least significant first.
fn word_of(a: u8, b: u8, c: u8, d: u8) -> u32
    ensures { result ≡ a + 0x100 * b + 0x10000 * c + 0x1000000 * d }
{
    u32::from(a) + 0x100 * u32::from(b) + 0x1_0000 * u32::from(c) + 0x100_0000 * u32::from(d)
}

/// The header of the two octets: the number in the low seven bits, the indicator in the highest.
fn header_of(backward: u8, forward: u8) -> Header
    ensures { result ≡ header_in backward forward }
{
    Header {
        bsn: u16::from(backward % 128),
        bib: backward >= 128,
        fsn: u16::from(forward % 128),
        fib: forward >= 128,
    }
}

/// The unit with this header and these octets behind the length indicator.
fn with_field(head: Header, field: &[u8]) -> Unit
    requires { length field.now ≤ 273 }
    ensures { result ≡ unit_with head field.now }
{
    lent_with(head, field).unit()
}

/// The body of a message that has these octets, at most 273.
pub fn body_of(octets: &[u8]) -> ArrayVec<u8, LONGEST_BODY>
    requires { length octets.now ≤ 273 }
    ensures { result.items ≡ octets.now }
{
    let mut body = ArrayVec::new();
    match body.try_extend_from_slice(octets) {
        Ok(()) => body,
        Err(_) => unreachable!(),
    }
}
