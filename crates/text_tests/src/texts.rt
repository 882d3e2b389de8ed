//! Scripts with what they print, and devices that fail.
//!
//! The expected lines are worked out by hand from Q.703 2 to 5 and the script's rules.
ghost use Rattle.std.specs.Prelude.{◌<◌, ◌^◌};

use super::holds;
use script_accounts::{LineFlaw, ScriptFault, play};
use std::alloc::{AllocError, Global};
use std::test::Fail;
use test_devices::{Page, Text};
use text_base::{DeviceFault, Fault, Source};
use text_units::{UnreadableOctet, units};

const OPENING: &[u8] = b"set links=1 method=basic a=2 b=1 sio=80\n";

/// Plays a script in pieces of this many octets; the devices take this many calls.
fn run_of(
    alloc: Global,
    script: &[u8],
    piece: usize,
    reads: u32,
    writes: u32,
) -> (Page, Result<(), Fault<ScriptFault>>)
    requires { 0 < piece }
{
    let mut text = Text {
        rest: script,
        piece,
        reads,
        failures: 0,
    };
    let mut page = Page {
        octets: Vec::new(alloc),
        piece,
        writes,
        failures: 0,
    };
    let end = play(alloc, &mut text, &mut page);
    (page, end)
}

fn write_script(lines: &[u8], script: &mut Vec<u8>) -> Result<(), AllocError> {
    script.extend_from_slice(OPENING)?;
    script.extend_from_slice(lines)
}

/// The script behind the opening line, whole.
fn script_of(alloc: Global, lines: &[u8]) -> Result<Vec<u8>, AllocError> {
    let mut script = Vec::new(alloc);
    write_script(lines, &mut script)?;
    Ok(script)
}

const FIRST_MESSAGE: &[u8] = b"together 0
offer a 8501800030
emit a 0
emit a 0
hear a 0 80ff00
find a 0
";

const FIRST_PRINTED: &[u8] = b"up
accepted 0
sent ff80058501800030156e
sent ff8000f38c
heard acked=1 took=nothing asked=0 resend=0 fault=0
found acked 0
end a accepted=1 waiting=0 unacked=0 acked=1 held=0 parked=0 back=0 discarded=0
end b accepted=0 waiting=0 unacked=0 acked=0 held=0 parked=0 back=0 discarded=0
";

/// The script prints all in pieces of this many octets.
fn prints_first(alloc: Global, script: &[u8], piece: usize) -> bool
    requires { 0 < piece }
{
    let (page, end) = run_of(alloc, script, piece, 1000, 1000);
    page.octets.as_slice() == FIRST_PRINTED && end == Ok(())
}

#[test]
fn the_pieces_of_the_input_change_nothing(rt: HostRuntime) -> Result<(), Fail> {
    let script = script_of(rt.alloc(), FIRST_MESSAGE)?;
    holds(
        prints_first(rt.alloc(), &script, 1)
            && prints_first(rt.alloc(), &script, 2)
            && prints_first(rt.alloc(), &script, 7)
            && prints_first(rt.alloc(), &script, 64),
    )
}

#[test]
fn a_reader_fails_in_mid_stream(rt: HostRuntime) -> Result<(), Fail> {
    let script = script_of(rt.alloc(), FIRST_MESSAGE)?;
    // Sixty octets are read, one at a time: the opening line, `together 0` and the begin of an offer.
    let (page, end) = run_of(rt.alloc(), &script, 1, 60, 1000);
    holds(page.octets.as_slice() == b"up\n".as_slice() && end == Err(Fault::Read))
}

/// Whether a page that failed has the first so many octets of these.
fn is_cut(page: &Page, all: &[u8], writes: usize) -> bool {
    page.failures == 1 && page.octets.len() == writes && all.starts_with(&page.octets)
}

/// One octet a call: so many were written, and nothing after the call that failed.
fn script_is_cut(alloc: Global, script: &[u8], writes: usize) -> bool
    requires { writes < 2 ^ 32 }
{
    let (page, end) = run_of(alloc, script, 1, 1000, writes as u32);
    end == Err(Fault::Write) && is_cut(&page, FIRST_PRINTED, writes)
}

fn is_cut_at_each_call(alloc: Global, script: &[u8]) -> bool {
    for writes in 0..FIRST_PRINTED.len() {
        if !script_is_cut(alloc, script, writes) {
            return false;
        }
    }
    true
}

#[test]
fn a_writer_fails_at_each_call(rt: HostRuntime) -> Result<(), Fail> {
    let script = script_of(rt.alloc(), FIRST_MESSAGE)?;
    let cut = is_cut_at_each_call(rt.alloc(), &script);
    let all = FIRST_PRINTED.len() as u32;
    let (page, end) = run_of(rt.alloc(), &script, 1, 1000, all);
    holds(cut && end == Ok(()) && page.octets.as_slice() == FIRST_PRINTED)
}

/// Reads digits in pieces of this many octets, and writes so too.
pub(crate) fn seen_of(
    alloc: Global,
    digits: &[u8],
    piece: usize,
    writes: u32,
) -> (Page, Result<(), Fault<UnreadableOctet>>)
    requires { 0 < piece }
{
    let mut text = Text {
        rest: digits,
        piece,
        reads: 1000,
        failures: 0,
    };
    let mut page = Page {
        octets: Vec::new(alloc),
        piece,
        writes,
        failures: 0,
    };
    let end = units(alloc, &mut text, &mut page);
    (page, end)
}

/// Seven ones begin octet counting; 256 bits later two marks were given, and a good unit ends it.
const COUNTED: &[u8] =
    b"ff00000000000000000000000000000000000000000000000000000000000000007edff705f8beaf1f";

const COUNTED_PRINTED: &[u8] = b"sixteen
sixteen
good fisu bsn=127 bib=1 fsn=127 fib=1
end good=1 bad=0 sixteen=2
";

/// The digits print all in pieces of this many octets.
fn prints_counted(alloc: Global, piece: usize) -> bool
    requires { 0 < piece }
{
    let (page, end) = seen_of(alloc, COUNTED, piece, 1000);
    page.octets.as_slice() == COUNTED_PRINTED && end == Ok(())
}

#[test]
fn octets_are_counted_whatever_the_pieces(rt: HostRuntime) -> Result<(), Fail> {
    let whole = prints_counted(rt.alloc(), 4096);
    holds(whole && prints_counted(rt.alloc(), 1) && prints_counted(rt.alloc(), 7))
}

/// One octet a call: so many were written, and nothing after the call that failed.
fn counting_is_cut(alloc: Global, writes: usize) -> bool
    requires { writes < 2 ^ 32 }
{
    let (page, end) = seen_of(alloc, COUNTED, 1, writes as u32);
    end == Err(Fault::Write) && is_cut(&page, COUNTED_PRINTED, writes)
}

fn counting_is_cut_at_each_call(alloc: Global) -> bool {
    for writes in 0..COUNTED_PRINTED.len() {
        if !counting_is_cut(alloc, writes) {
            return false;
        }
    }
    true
}

#[test]
fn a_writer_of_marks_fails_at_each_call(rt: HostRuntime) -> Result<(), Fail> {
    holds(counting_is_cut_at_each_call(rt.alloc()))
}

/// Lengthens the script's last line by so many octets.
fn lengthen(script: &mut Vec<u8>, octets: u16) -> Result<(), AllocError> {
    for _ in 0..octets {
        script.push(b'#')?;
    }
    Ok(())
}

/// How the script ends, in large pieces.
fn end_of(alloc: Global, script: &[u8]) -> Result<(), Fault<ScriptFault>> {
    let (_, end) = run_of(alloc, script, 4096, 1000, 1000);
    end
}

/// A line of 4,096 octets is read, one of 4,097 isn't.
#[test]
fn the_longest_line(rt: HostRuntime) -> Result<(), Fail> {
    let mut script = script_of(rt.alloc(), b"")?;
    let longest = lengthen(&mut script, 4096).is_ok() && end_of(rt.alloc(), &script) == Ok(());
    let longer = lengthen(&mut script, 1).is_ok();
    let refused = Err(Fault::Input(ScriptFault::Text {
        line: 2,
        flaw: LineFlaw::Long,
    }));
    holds(longest && longer && end_of(rt.alloc(), &script) == refused)
}

/// So many pieces of 4,096 octets, a remark each.
#[derive(Drop)]
struct Remarks {
    pieces: u32,
}

impl Source for Remarks {
    ghost use Rattle.std.specs.Prelude.{None};

    ghost left = { λ s. None };

    ghost failures = { λ s. 0 };

    fn read(&mut self, buffer: &mut [u8]) -> Result<usize, DeviceFault> {
        if self.pieces == 0 {
            return Ok(0);
        }
        self.pieces -= 1;
        for octet in buffer.iter_mut() {
            *octet = b'#';
        }
        if let Some(last) = buffer.last_mut() {
            *last = b'\n';
        }
        Ok(buffer.len())
    }
}

/// How a script of so many remarks ends.
fn end_of_remarks(alloc: Global, pieces: u32) -> Result<(), Fault<ScriptFault>> {
    let mut page = Page {
        octets: Vec::new(alloc),
        piece: 1,
        writes: 0,
        failures: 0,
    };
    let mut remarks = Remarks { pieces };
    play(alloc, &mut remarks, &mut page)
}

/// An input of 2^24 octets is read, and one that goes on is too long.
#[test]
fn the_longest_input(rt: HostRuntime) -> Result<(), Fail> {
    let longest = end_of_remarks(rt.alloc(), 4_096) == Ok(());
    holds(longest && end_of_remarks(rt.alloc(), 4_097) == Err(Fault::Long))
}
