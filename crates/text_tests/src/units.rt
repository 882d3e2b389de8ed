//! Lines of digits and what `units` prints for them, worked out by hand and by an independent encoder.
ghost use Rattle.std.specs.Prelude.{◌<◌};

use super::holds;
use super::texts::seen_of;
use std::alloc::Global;
use std::test::Fail;
use text_base::Fault;
use text_units::UnreadableOctet;

/// The input prints these lines, by pieces of so many octets, and ends with a fault at this place, or well.
fn prints_by(
    alloc: Global,
    input: &[u8],
    piece: usize,
    lines: &[u8],
    unreadable: Option<u64>,
) -> bool
    requires { 0 < piece }
{
    let (page, ended) = seen_of(alloc, input, piece, 1000);
    let wanted = match unreadable {
        None => Ok(()),
        Some(place) => Err(Fault::Input(UnreadableOctet { place })),
    };
    page.octets.as_slice() == lines && ended == wanted
}

/// The same, whole and in smaller pieces.
fn prints(alloc: Global, input: &[u8], lines: &[u8], unreadable: Option<u64>) -> bool {
    prints_by(alloc, input, 4096, lines, unreadable)
        && prints_by(alloc, input, 1, lines, unreadable)
        && prints_by(alloc, input, 3, lines, unreadable)
}

/// Each of these inputs prints these lines, and ends well.
fn print_well(alloc: Global, rows: &[(&[u8], &[u8])]) -> bool {
    for row in rows {
        if !prints(alloc, row.0, row.1, None) {
            return false;
        }
    }
    true
}

const FISU: &[u8] = b"7edff705f8beaf1f";

#[test]
fn each_kind_of_unit_has_its_line(rt: HostRuntime) -> Result<(), Fail> {
    let rows: [(&[u8], &[u8]); 5] = [
        (
            FISU,
            b"good fisu bsn=127 bib=1 fsn=127 fib=1\nend good=1 bad=0 sixteen=0\n",
        ),
        (
            b"7edff70d003831f703",
            b"good lssu bsn=127 bib=1 fsn=127 fib=1 status=0\nend good=1 bad=0 sixteen=0\n",
        ),
        (
            b"7edf010b0a030001602adcfc00",
            b"good msu bsn=127 bib=1 fsn=0 fib=1 body=8501800030\nend good=1 bad=0 sixteen=0\n",
        ),
        (
            b"7e0586020500d7447e",
            b"good lssu bsn=5 bib=0 fsn=6 fib=1 status=5\nend good=1 bad=0 sixteen=0\n",
        ),
        (
            b"7edff70db073f703",
            b"good fault=3\nend good=1 bad=0 sixteen=0\n",
        ),
    ];
    holds(print_well(rt.alloc(), &rows))
}

#[test]
fn marks_of_no_unit_have_their_lines(rt: HostRuntime) -> Result<(), Fail> {
    let mut counted = [b'0'; 82];
    counted[..2].copy_from_slice(b"ff");
    counted[66..].copy_from_slice(FISU);
    let rows: [(&[u8], &[u8]); 6] = [
        (b"7e000000007e", b"bad\nend good=0 bad=1 sixteen=0\n"),
        (b"", b"end good=0 bad=0 sixteen=0\n"),
        (b"7e3f", b"end good=0 bad=0 sixteen=0\n"),
        (&[b'0'; 700], b"end good=0 bad=0 sixteen=0\n"),
        (&[b'0'; 702], b"sixteen\nend good=0 bad=0 sixteen=1\n"),
        (
            &counted,
            b"sixteen\nsixteen\ngood fisu bsn=127 bib=1 fsn=127 fib=1\nend good=1 bad=0 sixteen=2\n",
        ),
    ];
    holds(print_well(rt.alloc(), &rows))
}

#[test]
fn blanks_stand_anywhere_and_digits_have_either_case(rt: HostRuntime) -> Result<(), Fail> {
    let input = b" 7E\r\ndF\tf 7\n05 F8be\naF1f\n";
    let lines = b"good fisu bsn=127 bib=1 fsn=127 fib=1\nend good=1 bad=0 sixteen=0\n";
    holds(prints(rt.alloc(), input, lines, None))
}

#[test]
fn faults_tell_their_place(rt: HostRuntime) -> Result<(), Fail> {
    let alloc = rt.alloc();
    let lines = b"good fisu bsn=127 bib=1 fsn=127 fib=1\n";
    holds(
        prints(alloc, b"7", b"", Some(1))
            && prints(alloc, b"7e0\n", b"", Some(4))
            && prints(alloc, b"7 g", b"", Some(2))
            && prints(alloc, b"7edff705f8beaf1f-7e00007e", lines, Some(16)),
    )
}

/// Each allocation fails once: what is printed is the beginning of what is printed with memory.
///
/// Run with each allocation failing in turn (tools/refuse-memory); with memory it passes as it is.
#[test]
fn a_refused_growth_prints_a_beginning(rt: HostRuntime) -> Result<(), Fail> {
    // Two zeros stand between the unit's closing flag and the next.
    let input = b"7edff705f8beaf1f7e00007e";
    let lines = b"good fisu bsn=127 bib=1 fsn=127 fib=1\nbad\nbad\nend good=1 bad=2 sixteen=0\n";
    holds(prints_a_beginning(rt.alloc(), input, lines))
}

/// The input prints these lines; or memory is wanted, by it or by the page, and it prints a beginning of them.
fn prints_a_beginning(alloc: Global, input: &[u8], lines: &[u8]) -> bool {
    let (page, ended) = seen_of(alloc, input, 4, 1000);
    match ended {
        Ok(()) => page.octets.as_slice() == lines,
        Err(Fault::Memory | Fault::Write) => lines.starts_with(&page.octets),
        Err(_) => false,
    }
}
