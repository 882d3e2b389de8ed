//! The texts of faults, and writes of any length.
use super::holds;
use script_accounts::{LineFlaw, ScriptFault};
use std::alloc::{AllocError, Global};
use std::fmt::Display;
use std::test::Fail;
use text_base::{Fault, Sink, Writer};
use text_units::UnreadableOctet;

/// The fault shows this line.
fn shows<T: Display + Drop>(alloc: Global, fault: Fault<T>, line: &str) -> bool {
    match fault.to_string(alloc) {
        Ok(text) => text.as_str() == line,
        Err(_) => false,
    }
}

/// What every text can end with shows these lines.
fn shows_all<T: Display + Drop>(alloc: Global) -> bool {
    shows::<T>(alloc, Fault::Memory, "fault memory")
        && shows::<T>(alloc, Fault::Read, "fault read")
        && shows::<T>(alloc, Fault::Long, "fault long")
        && shows::<T>(alloc, Fault::Write, "fault write")
}

fn shows_of_script(alloc: Global, fault: ScriptFault, line: &str) -> bool {
    shows(alloc, Fault::Input(fault), line)
}

/// A line that can't be read shows this line, by its flaw.
fn shows_of_flaw(alloc: Global, flaw: LineFlaw, line: &str) -> bool {
    shows_of_script(alloc, ScriptFault::Text { line: 2, flaw }, line)
}

#[test]
fn faults_of_a_script_show_the_line_that_is_printed(rt: HostRuntime) -> Result<(), Fail> {
    let alloc = rt.alloc();
    holds(
        shows_of_flaw(alloc, LineFlaw::Words, "fault line 2 text")
            && shows_of_flaw(
                alloc,
                LineFlaw::CarriageReturn,
                "fault line 2 text: the line ends with a carriage return (CRLF)",
            )
            && shows_of_script(alloc, ScriptFault::Step { line: 7 }, "fault line 7 step")
            && shows_of_script(alloc, ScriptFault::Exhausted, "fault exhausted")
            && shows_all::<ScriptFault>(alloc),
    )
}

#[test]
fn faults_of_units_show_the_line_that_is_printed(rt: HostRuntime) -> Result<(), Fail> {
    let octet = Fault::Input(UnreadableOctet { place: 5 });
    let shown = shows(rt.alloc(), octet, "fault octet 5");
    holds(shown && shows_all::<UnreadableOctet>(rt.alloc()))
}

/// So many octets more.
fn lengthen(octets: &mut Vec<u8>, count: u32) -> Result<(), AllocError> {
    octets.reserve(count as usize)?;
    for place in 0..count {
        octets.push((place % 251) as u8)?;
    }
    Ok(())
}

/// Whether a writer takes these octets at once, and hands them on as they are.
fn is_one_write(alloc: Global, octets: &[u8]) -> bool {
    let mut sink = Writer::new(Vec::new(alloc));
    let taken = sink.write(octets);
    taken == Ok(octets.len()) && sink.into_inner().as_slice() == octets
}

/// A writer that takes all takes 100,000 octets at once, which is no failure.
#[test]
fn a_long_write_is_one_write(rt: HostRuntime) -> Result<(), Fail> {
    let mut octets = Vec::new(rt.alloc());
    let whole = lengthen(&mut octets, 100_000).is_ok() && octets.len() == 100_000;
    holds(whole && is_one_write(rt.alloc(), &octets))
}
