//! Units worked out by hand from Q.703 2.2 and 2.3; wide ones by the same rules with numbers of twelve bits.
ghost use Rattle.std.specs.Prelude.{◌≤◌, length, IsTrue};
ghost use Rattle.l2_units.specs.Grammar.{body_of};

use super::holds;
use arrayvec::ArrayVec;
use l2_units::{Status, *};
use std::test::Fail;

/// The header of two octets whose bits are all 1.
fn head_of_ones() -> Header {
    Header {
        bsn: 127,
        bib: true,
        fsn: 127,
        fib: true,
    }
}

/// An LSSU of that header and this status.
fn lssu(status: Status) -> Unit {
    Unit::Lssu {
        head: head_of_ones(),
        status,
    }
}

/// These octets are read as this unit.
fn reads(octets: &[u8], wanted: &Unit) -> bool {
    match read(octets) {
        Ok(unit) => unit == *wanted,
        Err(_) => false,
    }
}

/// The unit of these octets has this header.
fn has_head(octets: &[u8], head: Header) -> bool {
    match read(octets) {
        Ok(unit) => header_in(&unit) == head,
        Err(_) => false,
    }
}

/// These octets are no unit, for this reason.
fn refuses(octets: &[u8], why: UnitFault) -> bool {
    match read(octets) {
        Ok(_) => false,
        Err(fault) => fault == why,
    }
}

/// The unit is sent as these octets.
fn writes(unit: &Unit, octets: &[u8]) -> bool {
    let head = header_in(unit);
    head.bsn < 128 && head.fsn < 128 && write(unit).as_slice() == octets
}

/// The unit is sent as these octets in the wide profile, and they are read as it.
fn goes_wide(unit: &Unit, octets: &[u8]) -> bool {
    fits_wide(unit) && write_wide(unit).as_slice() == octets && reads_wide(octets, unit)
}

/// Whether the unit's body isn't too long for the wide profile.
fn fits_wide(unit: &Unit) -> bool
    ensures { IsTrue result → length (body_of unit.now) ≤ 272 }
{
    match unit {
        Unit::Msu { body, .. } => body.len() <= 272,
        Unit::Fisu { .. } | Unit::Lssu { .. } => true,
    }
}

/// These octets are read as this unit in the wide profile.
fn reads_wide(octets: &[u8], wanted: &Unit) -> bool {
    match read_wide(octets) {
        Ok(unit) => unit == *wanted,
        Err(_) => false,
    }
}

/// These octets are no unit of the wide profile, for this reason.
fn refuses_wide(octets: &[u8], why: UnitFault) -> bool {
    match read_wide(octets) {
        Ok(_) => false,
        Err(fault) => fault == why,
    }
}

/// A header of the greatest wide numbers, both indicators 1.
fn wide_head_of_ones() -> Header {
    Header {
        bsn: 4_095,
        bib: true,
        fsn: 4_095,
        fib: true,
    }
}

/// 12 ones, 1, 12 ones, 1, and LI 0 in 6 bits: 26 ones, which are FF FF FF 03 with the lowest octet first.
#[test]
fn a_wide_fisu_has_four_octets() -> Result<(), Fail> {
    let fisu = Unit::Fisu {
        head: wide_head_of_ones(),
    };
    holds(
        goes_wide(&fisu, &[0xFF, 0xFF, 0xFF, 0x03])
            && refuses_wide(&[0xFF, 0xFF, 0xFF], UnitFault::Short),
    )
}

/// BSN 4095 and BIB 1 are FF 1F; FSN 0, FIB 1 and LI 5 are 2^25 + 5 * 2^26, 00 00 00 16 from the bottom.
#[test]
fn a_wide_message_has_four_octets_and_its_body() -> Result<(), Fail> {
    let head = Header {
        bsn: 4_095,
        bib: true,
        fsn: 0,
        fib: true,
    };
    let body = body_of(&[0x85, 1, 0x80, 0, 0x30]);
    let message = Unit::Msu { head, body };
    let text = [0xFF, 0x1F, 0x00, 0x16, 0x85, 1, 0x80, 0, 0x30];
    holds(goes_wide(&message, &text) && refuses_wide(&text[..8], UnitFault::Length))
}

/// A status field follows the four octets: LI 1, which is 04 in the last of them.
#[test]
fn a_wide_lssu_has_its_status_behind_the_header() -> Result<(), Fail> {
    let lssu = Unit::Lssu {
        head: wide_head_of_ones(),
        status: Status::Busy,
    };
    holds(
        goes_wide(&lssu, &[0xFF, 0xFF, 0xFF, 0x07, 5])
            && reads_wide(&[0xFF, 0xFF, 0xFF, 0x0B, 5, 0], &lssu),
    )
}

/// A unit has at most 276 octets in either profile, so a wide body has at most 272.
#[test]
fn a_wide_body_has_at_most_272_octets() -> Result<(), Fail> {
    let mut longest = [7u8; 276];
    longest[3] = 0xFC;
    let read = match read_wide(&longest) {
        Ok(Unit::Msu { body, .. }) => body.len() == 272,
        _ => false,
    };
    holds(read && refuses_wide(&[0xFCu8; 277], UnitFault::Long))
}

/// The FISU of that header is sent with its spare bits 0.
#[test]
fn a_fisu_with_spare_bits_is_read() -> Result<(), Fail> {
    let head = head_of_ones();
    let fisu = Unit::Fisu { head };
    let heard = has_head(&[0xFF, 0xFF, 0xC0], head) && reads(&[0xFF, 0xFF, 0xC0], &fisu);
    holds(heard && writes(&fisu, &[0xFF, 0xFF, 0]))
}

#[test]
fn indicator_bits_stand_above_the_numbers() -> Result<(), Fail> {
    let head = Header {
        bsn: 5,
        bib: true,
        fsn: 6,
        fib: false,
    };
    holds(has_head(&[0x85, 0x06, 3, 0x85, 1, 2], head))
}

#[test]
fn a_wrong_length_indicator_is_refused() -> Result<(), Fail> {
    holds(
        refuses(&[0xFF, 0xFF, 3, 0x85, 1], UnitFault::Length)
            && refuses(&[0xFF, 0xFF, 2, 5], UnitFault::Length)
            && refuses(&[0xFF, 0xFF, 1], UnitFault::Length),
    )
}

/// These octets are read as the LSSU of this status.
fn reads_status(octets: &[u8], status: Status) -> bool {
    reads(octets, &lssu(status))
}

/// Whether these octets are read as the LSSU of this status, as far as it's sent.
fn is_same(octets: &[u8], status: Status) -> Option<bool> {
    match read(octets) {
        Ok(unit) => Some(same_unit(&lssu(status), &unit)),
        Err(_) => None,
    }
}

/// A field of two octets is read by its first, and sent as one octet with its spare bits 0.
#[test]
fn an_lssu_is_read_by_three_bits() -> Result<(), Fail> {
    holds(
        reads_status(&[0xFF, 0xFF, 2, 5, 0], Status::Busy)
            && writes(&lssu(Status::Busy), &[0xFF, 0xFF, 1, 5])
            && is_same(&[0xFF, 0xFF, 0xC1, 0xFD], Status::Busy) == Some(true)
            && reads_status(&[0xFF, 0xFF, 1, 0], Status::OutOfAlignment)
            && is_same(&[0xFF, 0xFF, 1, 0], Status::Busy) == Some(false),
    )
}

#[test]
fn lengths_are_tested_before_the_length_indicator() -> Result<(), Fail> {
    let refused = refuses(&[0xFF, 0xFF], UnitFault::Short) && refuses(&[0u8; 277], UnitFault::Long);
    let short = UnitFault::Short.number() == 1;
    let long = UnitFault::Long.number() == 2;
    holds(refused && short && long && UnitFault::Length.number() == 3)
}

/// The unit of these octets is sent as they are.
fn comes_back(octets: &[u8]) -> bool {
    match read(octets) {
        Ok(unit) => writes(&unit, octets),
        Err(_) => false,
    }
}

/// The unit of this body has so many octets, of which the third is this.
fn is_long(octets: &[u8], length: usize, third: u8) -> bool {
    let mut body = ArrayVec::<u8, 273>::new();
    let whole = body.try_extend_from_slice(octets).is_ok();
    let head = Header {
        bsn: 127,
        bib: true,
        fsn: 127,
        fib: true,
    };
    let text = write(&Unit::Msu { head, body });
    whole && text.len() == length && text.as_slice().get(2) == Some(&third)
}

/// An MSU of the longest body, and one of 62 octets, the last whose length LI tells.
#[test]
fn long_bodies_have_the_length_indicator_63() -> Result<(), Fail> {
    let mut longest = [7u8; 276];
    longest[2] = 63;
    holds(comes_back(&longest) && is_long(&[9u8; 62], 65, 62))
}
