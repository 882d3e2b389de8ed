//! Sealed texts and texts on the line, worked out by hand from Q.703 3.2 and 4.2.
use super::holds;
use arrayvec::ArrayVec;
use l2_bits::*;
use std::test::Fail;

#[test]
fn the_check_of_123456789_is_the_published_one(_rt: HostRuntime) -> Result<(), Fail> {
    // The value that catalogues of checksums give for CRC-16/X.25, which has these parameters.
    holds(check_of(b"123456789") == 0x906E)
}

#[test]
fn fill_in_and_status_units_are_sealed(_rt: HostRuntime) -> Result<(), Fail> {
    let fill_in = seal(&[0xFF, 0xFF, 0x00]).as_slice() == [0xFF, 0xFF, 0x00, 0xFF, 0xFF].as_slice();
    let sealed = seal(&[0xFF, 0xFF, 0x01, 0x00]);
    let status = sealed.as_slice() == [0xFF, 0xFF, 0x01, 0x00, 0x27, 0xE6].as_slice();
    holds(fill_in && status)
}

#[test]
fn the_longest_message_and_no_octets_are_sealed(_rt: HostRuntime) -> Result<(), Fail> {
    // A message with 273 octets of body, SIO, label and 268 zeros, whose CRC-16/X.25 is 0xD49F.
    let mut longest = [0; 276];
    longest[..8].copy_from_slice(&[0xFF, 0x80, 0x3F, 0x85, 0x01, 0x80, 0x00, 0x30]);
    let text = seal(&longest);
    // Nothing is divided: sixteen ones, inverted.
    let nothing = seal(&[]).as_slice() == [0x00, 0x00].as_slice();
    holds(nothing && text.len() == 278 && text.as_slice().ends_with(&[0x9F, 0xD4]))
}

/// Whether these are the bits of the digits.
fn are_bits(bits: &[bool], digits: &[u8]) -> bool {
    bits.len() == digits.len()
        && bits
            .iter()
            .zip(digits)
            .all(|(bit, digit)| *bit == (*digit == b'1'))
}

#[test]
fn zeros_are_inserted_in_a_fill_in_unit(_rt: HostRuntime) -> Result<(), Fail> {
    let mut line = ArrayVec::new();
    stuff_into(&[0xFF, 0xFF, 0x00, 0xFF, 0xFF], &mut line);
    holds(are_bits(&line, b"1111101111101111101000000001111101111101111101"))
}

/// The only mark of these bits, if it comes with the last of them.
fn last_mark(bits: &[bool]) -> Option<Mark> {
    let mut deframer = Deframer::new();
    let mut last = None;
    for bit in bits {
        if last.is_some() {
            return None;
        }
        last = deframer.feed(*bit);
    }
    last
}

/// Whether this mark is a good unit of these octets.
fn is_good(mark: &Option<Mark>, octets: &[u8]) -> bool {
    match mark {
        Some(Mark::Good(unit)) => unit.as_slice() == octets,
        _ => false,
    }
}

#[test]
fn the_longest_message_comes_back_from_the_line(_rt: HostRuntime) -> Result<(), Fail> {
    // All ones, so that the most zeros are inserted.
    let octets = [0xFF; 276];
    let mut line = ArrayVec::new();
    flag_into(&mut line);
    stuff_into(seal(&octets).as_slice(), &mut line);
    let few = line.len() <= 2692;
    flag_into(&mut line);
    holds(few && is_good(&last_mark(&line), &octets))
}
