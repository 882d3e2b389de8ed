//! Marks of lines that were worked out by hand, by calls of all kinds.

use super::holds;
use arrayvec::ArrayVec;
use l2_bits::{Deframer, Mark, MarkKind, Octets, Rest, check_of};
use std::alloc::{AllocError, Global};
use std::test::Fail;

/// The mark of this kind that the deframer has just given.
fn mark_of(deframer: &Deframer, kind: MarkKind) -> Mark {
    match kind {
        MarkKind::Good => good(deframer.unit()),
        MarkKind::Bad => Mark::Bad,
        MarkKind::Sixteen => Mark::Sixteen,
    }
}

fn good(octets: &[u8]) -> Mark {
    let mut unit = ArrayVec::new();
    let _ = unit.try_extend_from_slice(octets);
    Mark::Good(unit)
}

/// Feeds the bits of an octet, the least significant first.
fn feed_bits(deframer: &mut Deframer, octet: u8, marks: &mut Vec<Mark>) -> Result<(), AllocError> {
    for place in 0..8u8 {
        if let Some(mark) = deframer.feed((octet >> place) & 1 == 1) {
            marks.push(mark)?;
        }
    }
    Ok(())
}

/// Feeds an octet, mark by mark.
fn feed_rest(deframer: &mut Deframer, octet: u8, marks: &mut Vec<Mark>) -> Result<(), AllocError> {
    let mut rest = Rest::new(octet);
    for _ in 0..9u8 {
        match deframer.feed_rest(&mut rest) {
            Some(kind) => marks.push(mark_of(deframer, kind))?,
            None => break,
        }
    }
    Ok(())
}

/// Feeds some octets.
fn feed_octets(
    deframer: &mut Deframer,
    octets: &[u8],
    marks: &mut Vec<Mark>,
) -> Result<(), AllocError> {
    let mut left = Octets::new(octets);
    for _ in 0..9999u16 {
        match deframer.feed_octets(&mut left) {
            Some(kind) => marks.push(mark_of(deframer, kind))?,
            None => break,
        }
    }
    Ok(())
}

/// The marks that a line of these octets gives, by bits.
fn marks_of(line: &[u8], marks: &mut Vec<Mark>) -> Result<(), AllocError> {
    let mut deframer = Deframer::new();
    for octet in line {
        feed_bits(&mut deframer, *octet, marks)?;
    }
    Ok(())
}

/// The same by calls of all kinds: bits, octets, and octets with no mark in them.
fn marks_mixed(line: &[u8], marks: &mut Vec<Mark>) -> Result<(), AllocError> {
    let mut deframer = Deframer::new();
    for (place, octet) in line.iter().enumerate() {
        if place % 3 == 0 {
            feed_bits(&mut deframer, *octet, marks)?;
        } else if place % 3 == 1 || !deframer.pass(*octet) {
            feed_rest(&mut deframer, *octet, marks)?;
        }
    }
    Ok(())
}

/// The same by octets.
fn marks_of_octets(line: &[u8], marks: &mut Vec<Mark>) -> Result<(), AllocError> {
    let mut deframer = Deframer::new();
    for octet in line {
        for mark in deframer.feed_octet(*octet) {
            marks.push(mark)?;
        }
    }
    Ok(())
}

/// The same by slices of so many octets.
fn marks_of_slices(line: &[u8], piece: usize, marks: &mut Vec<Mark>) -> Result<(), AllocError> {
    let mut deframer = Deframer::new();
    for octets in line.chunks(piece.max(1)) {
        feed_octets(&mut deframer, octets, marks)?;
    }
    Ok(())
}

/// Whether a line of these octets gives these marks, by bits.
fn gives(alloc: Global, line: &[u8], wanted: &[Mark]) -> bool {
    let mut marks = Vec::new(alloc);
    let done = marks_of(line, &mut marks).is_ok();
    done && marks.as_slice() == wanted
}

/// Whether it gives these marks by calls of all kinds.
fn gives_mixed(alloc: Global, line: &[u8], wanted: &[Mark]) -> bool {
    let mut marks = Vec::new(alloc);
    let done = marks_mixed(line, &mut marks).is_ok();
    done && marks.as_slice() == wanted
}

/// Whether it gives these marks by octets.
fn gives_by_octets(alloc: Global, line: &[u8], wanted: &[Mark]) -> bool {
    let mut marks = Vec::new(alloc);
    let done = marks_of_octets(line, &mut marks).is_ok();
    done && marks.as_slice() == wanted
}

/// Whether it gives these marks by slices of so many octets.
fn gives_by_slices(alloc: Global, line: &[u8], piece: usize, wanted: &[Mark]) -> bool {
    let mut marks = Vec::new(alloc);
    let done = marks_of_slices(line, piece, &mut marks).is_ok();
    done && marks.as_slice() == wanted
}

const FILL_IN: [u8; 8] = [0x7E, 0xDF, 0xF7, 0x05, 0xF8, 0xBE, 0xAF, 0x1F];

const STATUS: [u8; 9] = [0x7E, 0xDF, 0xF7, 0x0D, 0x00, 0x38, 0x31, 0xF7, 0x03];

#[test]
fn a_fill_in_unit_between_flags(rt: HostRuntime) -> Result<(), Fail> {
    holds(gives(rt.alloc(), &FILL_IN, &[good(&[0xFF, 0xFF, 0x00])]))
}

#[test]
fn a_status_unit_between_flags(rt: HostRuntime) -> Result<(), Fail> {
    let unit = good(&[0xFF, 0xFF, 0x01, 0x00]);
    holds(gives(rt.alloc(), &STATUS, &[unit]))
}

#[test]
fn the_length_indicator_is_the_readers_business(rt: HostRuntime) -> Result<(), Fail> {
    let line = [0x7E, 0xDF, 0xF7, 0x0D, 0xB0, 0x73, 0xF7, 0x03];
    holds(gives(rt.alloc(), &line, &[good(&[0xFF, 0xFF, 0x01])]))
}

#[test]
fn nothing_and_too_little_between_flags(rt: HostRuntime) -> Result<(), Fail> {
    let nothing = gives(rt.alloc(), &[], &[]);
    // Two flags that share a zero.
    let flags = gives(rt.alloc(), &[0x7E, 0x3F], &[]);
    let line = [0x7E, 0x00, 0x00, 0x00, 0x00, 0x7E];
    holds(nothing && flags && gives(rt.alloc(), &line, &[Mark::Bad]))
}

#[test]
fn unit_ends_octet_counting(rt: HostRuntime) -> Result<(), Fail> {
    let mut line = [0x00; 41];
    line[0] = 0xFF;
    line[33..].copy_from_slice(&FILL_IN);
    let marks = [Mark::Sixteen, Mark::Sixteen, good(&[0xFF, 0xFF, 0x00])];
    let alloc = rt.alloc();
    holds(gives(alloc, &line, &marks) && gives_by_octets(alloc, &line, &marks))
}

/// Octet counting from the seventh one on; a unit between flags, the second of which ends a bit behind sixteen octets.
const COUNTED: [u8; 18] = [
    0xFF, 0x00, 0x00, 0x00, 0x00, 0x00, 0x00, 0x00, 0x00, 0x00, 0x7E, 0x55, 0x55, 0x55, 0xF5, 0xD4,
    0x7E, 0x00,
];

#[test]
fn eighteen_octets_give_the_marks_of_their_bits(rt: HostRuntime) -> Result<(), Fail> {
    let marks = [Mark::Sixteen, good(&[0x55, 0x55, 0x55])];
    let alloc = rt.alloc();
    holds(gives(alloc, &COUNTED, &marks) && gives_by_octets(alloc, &COUNTED, &marks))
}

#[test]
fn an_octet_gives_two_marks() -> Result<(), Fail> {
    let mut deframer = Deframer::new();
    let mut none_before = true;
    for octet in COUNTED[..16].iter() {
        let marks = deframer.feed_octet(*octet);
        none_before = none_before && marks.is_empty();
    }
    let marks = deframer.feed_octet(COUNTED[16]);
    let two = [Mark::Sixteen, good(&[0x55, 0x55, 0x55])];
    holds(none_before && marks.as_slice() == two.as_slice())
}

#[test]
fn silence_begins_octet_counting(rt: HostRuntime) -> Result<(), Fail> {
    // 2,677 bits without a flag, and 128 more: the 350th octet ends before, the 351st after them.
    let before = gives(rt.alloc(), &[0x00; 350], &[]);
    holds(before && gives(rt.alloc(), &[0x00; 351], &[Mark::Sixteen]))
}

/// Whether calls of all kinds give the marks of bits, of which there are five or more.
fn is_same_by_all(alloc: Global, line: &[u8], marks: &[Mark]) -> bool {
    for piece in [1, 6, 7, 8, 29, 420usize] {
        if !gives_by_slices(alloc, line, piece, marks) {
            return false;
        }
    }
    marks.len() > 4 && gives_mixed(alloc, line, marks) && gives_by_octets(alloc, line, marks)
}

#[test]
fn calls_of_all_kinds_give_the_marks_of_bits(rt: HostRuntime) -> Result<(), Fail> {
    // Seven ones across an octet's border and a zero, units, a damaged one, silence, and a unit behind it.
    let mut line = [0x00; 420];
    line[..3].copy_from_slice(&[0x7E, 0xF0, 0x07]);
    line[20..28].copy_from_slice(&FILL_IN);
    line[28..37].copy_from_slice(&STATUS);
    line[38..42].copy_from_slice(&[0x7E, 0x55, 0xAA, 0x7E]);
    line[412..].copy_from_slice(&FILL_IN);
    holds(
        is_same_from(rt.alloc(), &line)
            && is_same_from(rt.alloc(), &line[1..])
            && is_same_from(rt.alloc(), &line[2..]),
    )
}

/// The same for this line.
fn is_same_from(alloc: Global, line: &[u8]) -> bool {
    let mut marks = Vec::new(alloc);
    let done = marks_of(line, &mut marks).is_ok();
    done && is_same_by_all(alloc, line, &marks)
}

#[test]
fn the_longest_unit_by_slices(rt: HostRuntime) -> Result<(), Fail> {
    // 276 octets; without its flags the text ends in the last octets that there is room for.
    let octets = [0x55; 276];
    holds(is_by_slices(rt.alloc(), &octets, good(&octets)))
}

#[test]
fn one_octet_more_than_the_longest_unit(rt: HostRuntime) -> Result<(), Fail> {
    holds(is_by_slices(rt.alloc(), &[0x55; 277], Mark::Bad))
}

/// A line of these octets between flags gives this mark, by one slice.
fn is_by_slices(alloc: Global, octets: &[u8], mark: Mark) -> bool {
    let mut line = Vec::new(alloc);
    let written = write_line(octets, &mut line).is_ok();
    written && gives_by_slices(alloc, &line, 4096, &[mark])
}

/// Writes these octets between flags; no ones stand in a row in them.
fn write_line(octets: &[u8], line: &mut Vec<u8>) -> Result<(), AllocError> {
    line.push(0x7E)?;
    line.extend_from_slice(octets)?;
    line.extend_from_slice(&check_of(octets).to_le_bytes())?;
    line.push(0x7E)?;
    Ok(())
}
