//! Histories that are audited in pieces of several sizes.
ghost use Rattle.std.specs.Prelude.{◌<◌};

use history_audit::{AuditFault, LineFlaw, audit};
use std::alloc::{AllocError, Global};
use std::test::Fail;
use test_devices::{Page, Text};
use text_base::Fault;

/// Two pieces and what came since: `audit` has to say this, and end so, whatever the pieces that are read.
const HISTORY: &[u8] = b"# Two pieces.
set links=1 method=basic a=2 b=1 sio=80
terminal 0 up 0 -> done
user 0 offer 8501800030 -> accepted 0
terminal 0 next 0 -> sent ff80058501800030156e
checkpoint

terminal 0 hear 0 80ff00 -> heard acked=1 took=nothing asked=0 resend=0 fault=0
checkpoint
user 0 find 0 -> refused 11
";

/// Without the second checkpoint message 0 is found.
const WRONG: &[u8] = b"set links=1 method=basic a=2 b=1 sio=80
terminal 0 up 0 -> done
user 0 offer 8501800030 -> accepted 0
terminal 0 next 0 -> sent ff80058501800030156e
checkpoint
terminal 0 hear 0 80ff00 -> heard acked=1 took=nothing asked=0 resend=0 fault=0
user 0 find 0 -> refused 11
user 0 find 7 -> found parked";

/// What is said of a history that is read in pieces of so many octets.
fn says(
    alloc: Global,
    history: &[u8],
    piece: usize,
    line: &[u8],
    end: Result<(), Fault<AuditFault>>,
) -> Result<(), Fail>
    requires { 0 < piece }
{
    let mut text = Text {
        rest: history,
        piece,
        reads: 10_000,
        failures: 0,
    };
    let mut page = Page {
        octets: Vec::new(alloc),
        piece: 4_096,
        writes: 10_000,
        failures: 0,
    };
    let ended = audit(alloc, &mut text, &mut page);
    if page.octets.as_slice() == line && ended == end {
        Ok(())
    } else {
        Err(Fail::from("something else is said"))
    }
}

#[test]
fn the_pieces_that_are_read_change_nothing(rt: HostRuntime) -> Result<(), Fail> {
    let line = b"legal=yes calls=5 accepted=1 octets=5 acked=1\n";
    says(rt.alloc(), HISTORY, 1, line, Ok(()))?;
    says(rt.alloc(), HISTORY, 7, line, Ok(()))?;
    says(rt.alloc(), HISTORY, 40, line, Ok(()))?;
    says(rt.alloc(), HISTORY, 4_096, line, Ok(()))
}

/// The first wrong entry is told, and no later one.
#[test]
fn a_wrong_entry_is_told_whatever_the_pieces(rt: HostRuntime) -> Result<(), Fail> {
    let line = b"legal=no line=7 -> found acked 0\n";
    let fault = Fault::Input(AuditFault::Illegal { line: 7 });
    says(rt.alloc(), WRONG, 1, line, Err(fault))?;
    says(rt.alloc(), WRONG, 13, line, Err(fault))?;
    says(rt.alloc(), WRONG, 4_096, line, Err(fault))
}

/// A history of no entries, whose second line is a remark of so many octets.
fn with_remark_of(alloc: Global, octets: u16, end: &[u8]) -> Result<Vec<u8>, AllocError> {
    let mut history = Vec::from_slice(alloc, b"set links=1 method=basic a=2 b=1 sio=80\n")?;
    for _ in 0..octets {
        history.push(b'#')?;
    }
    history.extend_from_slice(end)?;
    Ok(history)
}

const LEGAL: &[u8] = b"legal=yes calls=0 accepted=0 octets=0 acked=0\n";

/// Of 16,384 octets a line is read, and of 16,385 not, whether it's in pieces and whether it ends.
#[test]
fn the_longest_line_of_a_history(rt: HostRuntime) -> Result<(), Fail> {
    let alloc = rt.alloc();
    let longest = with_remark_of(alloc, 16_384, b"\n")?;
    says(alloc, &longest, 16_384, LEGAL, Ok(()))?;
    says(alloc, &longest, 4_096, LEGAL, Ok(()))?;
    let longer = with_remark_of(alloc, 16_385, b"\n")?;
    says(alloc, &longer, 20_000, b"", too_long())?;
    says(alloc, &longer, 4_096, b"", too_long())?;
    let open = with_remark_of(alloc, 16_385, b"")?;
    says(alloc, &open, 4_096, b"", too_long())
}

fn too_long() -> Result<(), Fault<AuditFault>> {
    Err(Fault::Input(AuditFault::Text {
        line: 2,
        flaw: LineFlaw::VeryLong,
    }))
}
