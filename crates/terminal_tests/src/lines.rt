//! Lines with what they print, however they're cut.
//!
//! The expected lines are worked out by hand: SIO goes out when a link is started, SIOS when it's stopped (Q.703 7.2, 12).

use super::devices::run_of;
use super::holds;
use std::alloc::{AllocError, Global};
use std::test::Fail;
use text_base::Fault;

/// Many calls, more than any text here takes.
const MANY: u32 = 1_000_000;

const OPENING: &[u8] = b"set links=1 method=basic a=2 b=1 sio=80\nstart 0\n";

const LINES: &[u8] = b"set links=1 method=basic a=2 b=1 sio=80
# a start, eight octets of flags, and a stop
start 0
octets 0 7e7e7e7e7e7e7e7e
stop 0
octets 0 7e7e
look 0
";

const PRINTED: &[u8] = b"done
link 0 unaligned turn=1
octets 0 7edff70d003831f7
done
link 0 out turn=9 cause=9
octets 0 fbbe
look 0 out phase=settled turns=10 sent=2 good=0 bad=0 sixteen=0 cause=9
end a accepted=0 waiting=0 unacked=0 acked=0 held=0 parked=0 back=0 discarded=0
";

/// Whether the lines print what they should, read and written in pieces of this many octets.
fn prints_in_pieces(alloc: Global, piece: usize) -> bool {
    if piece == 0 {
        return false;
    }
    let ended = run_of(alloc, LINES, piece, MANY, MANY);
    ended.fault.is_none() && ended.octets.as_slice() == PRINTED
}

#[test]
fn a_reader_that_cuts_lines_anywhere_changes_nothing(rt: HostRuntime) -> Result<(), Fail> {
    let alloc = rt.alloc();
    let mut all = true;
    for piece in 1..=60usize {
        all = prints_in_pieces(alloc, piece) && all;
    }
    holds(all)
}

/// Whether what was printed is the beginning of all that is.
fn is_begun(octets: &[u8]) -> bool {
    PRINTED.starts_with(octets)
}

/// Whether the reads fail at this call, as they should, and what was printed before it stays.
fn fails_at_read(alloc: Global, reads: u32) -> bool {
    let ended = run_of(alloc, LINES, 16, reads, MANY);
    matches!(ended.fault, Some(Fault::Read)) && is_begun(&ended.octets)
}

/// The same of the writes.
fn fails_at_write(alloc: Global, writes: u32) -> bool {
    let ended = run_of(alloc, LINES, 16, MANY, writes);
    matches!(ended.fault, Some(Fault::Write)) && is_begun(&ended.octets)
}

#[test]
fn a_device_that_fails_at_any_call_leaves_a_beginning(rt: HostRuntime) -> Result<(), Fail> {
    let alloc = rt.alloc();
    let mut all = true;
    for call in 0..8u32 {
        all = fails_at_read(alloc, call) && fails_at_write(alloc, call) && all;
    }
    holds(all)
}

/// An octet of the line, in two digits, of the 2,040 that come.
fn push_octet(lines: &mut Vec<u8>, place: u32) -> Result<(), AllocError> {
    let digits = b"0123456789abcdef";
    let octet = place.wrapping_mul(37) % 256;
    lines.push(digits[(octet / 16) as usize])?;
    lines.push(digits[(octet % 16) as usize])?;
    Ok(())
}

/// 2,040 octets on one line.
fn long_line(alloc: Global) -> Result<Vec<u8>, AllocError> {
    let mut lines = Vec::from_slice(alloc, OPENING)?;
    lines.extend_from_slice(b"octets 0 ")?;
    for place in 0..2040u32 {
        push_octet(&mut lines, place)?;
    }
    lines.extend_from_slice(b"\n")?;
    Ok(lines)
}

/// The same octets on a line each.
fn short_lines(alloc: Global) -> Result<Vec<u8>, AllocError> {
    let mut lines = Vec::from_slice(alloc, OPENING)?;
    for place in 0..2040u32 {
        lines.extend_from_slice(b"octets 0 ")?;
        push_octet(&mut lines, place)?;
        lines.extend_from_slice(b"\n")?;
    }
    Ok(lines)
}

/// The digits behind `octets 0` of all lines of what was printed, one behind another.
fn digits_in(alloc: Global, printed: &[u8]) -> Result<Vec<u8>, AllocError> {
    let mut digits = Vec::new(alloc);
    for line in printed.split(|c| *c == b'\n') {
        if let Some(behind) = line.strip_prefix(b"octets 0 ") {
            digits.extend_from_slice(behind)?;
        }
    }
    Ok(digits)
}

/// The digits that these lines give.
fn given_by(alloc: Global, lines: &[u8]) -> Result<Vec<u8>, AllocError> {
    let ended = run_of(alloc, lines, 4096, MANY, MANY);
    digits_in(alloc, &ended.octets)
}

#[test]
fn octets_one_by_one_and_2040_at_once_give_the_same(rt: HostRuntime) -> Result<(), Fail> {
    let alloc = rt.alloc();
    let long = given_by(alloc, &long_line(alloc)?)?;
    let short = given_by(alloc, &short_lines(alloc)?)?;
    holds(long.len() == 4080 && long == short)
}
