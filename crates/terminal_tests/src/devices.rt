//! An end that is driven on devices which fail when they're told to.
ghost use Rattle.std.specs.Prelude.{◌<◌};

use std::alloc::Global;
use terminal_text::{TerminalFault, terminal};
use test_devices::{Page, Text};
use text_base::Fault;

/// How a run ended, and what it wrote.
#[derive(Drop)]
pub(crate) struct Ended {
    pub(crate) octets: Vec<u8>,
    pub(crate) fault: Option<Fault<TerminalFault>>,
}

/// Drives an end by these lines, read and written in pieces of this many octets; the devices take this many calls.
pub(crate) fn run_of(alloc: Global, lines: &[u8], piece: usize, reads: u32, writes: u32) -> Ended
    requires { 0 < piece }
{
    let mut text = Text {
        rest: lines,
        piece,
        reads,
        failures: 0,
    };
    let mut page = Page {
        octets: Vec::new(alloc),
        piece,
        writes,
        failures: 0,
    };
    let fault = terminal(alloc, &mut text, &mut page).err();
    Ended {
        octets: page.octets,
        fault,
    }
}
