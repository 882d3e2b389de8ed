//! The texts, each with a short input, and how one ends on devices that fail.
use history_audit::{audit, audit_explained};
use l2_units::Profile;
use script_accounts::{
    End as Side, capture, capture_explained, history, history_explained, play, play_explained,
};
use script_ladder::{ladder, ladder_explained};
use std::alloc::Global;
use terminal_text::{terminal, terminal_explained, terminal_kept, terminal_kept_explained};
use test_devices::{Page, Text};
use text_base::{Fault, Sink, Source};
use text_units::{decode, decode_explained, units};

/// Many calls, more than any text here takes.
pub(crate) const MANY: u32 = 1_000_000;

/// A text of the program that reads an input.
#[derive(Clone, Copy)]
pub(crate) enum Which {
    Units,
    Decode,
    DecodeExplained,
    Play,
    PlayExplained,
    Capture,
    CaptureExplained,
    Ladder,
    LadderExplained,
    HistoryOfA,
    HistoryOfB,
    HistoryOfAExplained,
    HistoryOfBExplained,
    Audit,
    AuditExplained,
    Terminal,
    TerminalExplained,
    TerminalKept,
    TerminalKeptExplained,
}

pub(crate) const ALL: [Which; 19] = [
    Which::Units,
    Which::Decode,
    Which::DecodeExplained,
    Which::Play,
    Which::PlayExplained,
    Which::Capture,
    Which::CaptureExplained,
    Which::Ladder,
    Which::LadderExplained,
    Which::HistoryOfA,
    Which::HistoryOfB,
    Which::HistoryOfAExplained,
    Which::HistoryOfBExplained,
    Which::Audit,
    Which::AuditExplained,
    Which::Terminal,
    Which::TerminalExplained,
    Which::TerminalKept,
    Which::TerminalKeptExplained,
];

const SCRIPT: &[u8] = b"set links=1 method=basic a=2 b=1 sio=80
together 0
emit a 0
";

const HISTORY: &[u8] = b"set links=1 method=basic a=2 b=1 sio=80
terminal 0 up 0 -> done
user 0 take -> refused 9
";

const LINES: &[u8] = b"set links=1 method=basic a=2 b=1 sio=80
start 0
octets 0 7e7e
hear 0 fisu
";

impl Which {
    /// An input that prints something and has no fault.
    pub(crate) fn input(self) -> &'static [u8] {
        match self {
            Which::Units => b"7edff705f8beaf1f\n",
            Which::Decode | Which::DecodeExplained => b"ffff00\n80ff03850000\n",
            Which::Audit | Which::AuditExplained => HISTORY,
            Which::Terminal
            | Which::TerminalExplained
            | Which::TerminalKept
            | Which::TerminalKeptExplained => LINES,
            _ => SCRIPT,
        }
    }

    /// How it ends behind a line that can't be read: an end that's kept answers the line, and goes on.
    pub(crate) fn end_at_fault(self) -> End {
        match self {
            Which::TerminalKept | Which::TerminalKeptExplained => End::Done,
            _ => End::Input,
        }
    }
}

/// How a text ended.
#[derive(Clone, Copy, PartialEq, Eq)]
pub(crate) enum End {
    Done,
    Input,
    Memory,
    Read,
    Long,
    Write,
}

pub(crate) fn end_of<F: Drop>(ended: Result<(), Fault<F>>) -> End {
    match ended {
        Ok(()) => End::Done,
        Err(Fault::Input(_)) => End::Input,
        Err(Fault::Memory) => End::Memory,
        Err(Fault::Read) => End::Read,
        Err(Fault::Long) => End::Long,
        Err(Fault::Write) => End::Write,
    }
}

/// Runs a text; how it ended.
pub(crate) fn run<S: Source, W: Sink>(
    alloc: Global,
    which: Which,
    text: &mut S,
    page: &mut W,
) -> End {
    match which {
        Which::Units => end_of(units(alloc, text, page)),
        Which::Decode => end_of(decode(alloc, Profile::Narrow, text, page)),
        Which::DecodeExplained => end_of(decode_explained(alloc, Profile::Narrow, text, page)),
        Which::Play => end_of(play(alloc, text, page)),
        Which::PlayExplained => end_of(play_explained(alloc, text, page)),
        Which::Capture => end_of(capture(alloc, text, page)),
        Which::CaptureExplained => end_of(capture_explained(alloc, text, page)),
        Which::Ladder => end_of(ladder(alloc, text, page)),
        Which::LadderExplained => end_of(ladder_explained(alloc, text, page)),
        Which::HistoryOfA => end_of(history(alloc, Side::A, text, page)),
        Which::HistoryOfB => end_of(history(alloc, Side::B, text, page)),
        Which::HistoryOfAExplained => end_of(history_explained(alloc, Side::A, text, page)),
        Which::HistoryOfBExplained => end_of(history_explained(alloc, Side::B, text, page)),
        Which::Audit => end_of(audit(alloc, text, page)),
        Which::AuditExplained => end_of(audit_explained(alloc, text, page)),
        Which::Terminal => end_of(terminal(alloc, text, page)),
        Which::TerminalExplained => end_of(terminal_explained(alloc, text, page)),
        Which::TerminalKept => end_of(terminal_kept(alloc, text, page)),
        Which::TerminalKeptExplained => end_of(terminal_kept_explained(alloc, text, page)),
    }
}

/// What a text wrote, how it ended, and how its devices were used.
#[derive(Drop)]
pub(crate) struct Ran {
    pub(crate) octets: Vec<u8>,
    pub(crate) end: End,
    /// How many reads succeeded.
    pub(crate) reads: u32,
    pub(crate) failed_reads: u32,
    pub(crate) failed_writes: u32,
}

/// How large the pieces are that are read and written, and how many reads and writes succeed.
#[derive(Clone, Copy)]
pub(crate) struct Devices {
    pub(crate) read: usize,
    pub(crate) write: usize,
    pub(crate) reads: u32,
    pub(crate) writes: u32,
}

/// One octet a call.
pub(crate) fn one_by_one(reads: u32, writes: u32) -> Devices {
    Devices {
        read: 1,
        write: 1,
        reads,
        writes,
    }
}

/// Runs a text on this input and these devices.
pub(crate) fn run_once(alloc: Global, which: Which, input: &[u8], devices: Devices) -> Ran {
    let mut text = Text {
        rest: input,
        piece: devices.read.max(1),
        reads: devices.reads,
        failures: 0,
    };
    let mut page = Page {
        octets: Vec::new(alloc),
        piece: devices.write.max(1),
        writes: devices.writes,
        failures: 0,
    };
    let end = run(alloc, which, &mut text, &mut page);
    Ran {
        octets: page.octets,
        end,
        reads: devices.reads.saturating_sub(text.reads),
        failed_reads: text.failures,
        failed_writes: page.failures,
    }
}

/// How many octets the input of a text has.
pub(crate) fn length_of(which: Which) -> u32 {
    which.input().len().min(4_096) as u32
}

/// What a text prints of its whole input.
pub(crate) fn whole_of(alloc: Global, which: Which) -> Ran {
    run_once(alloc, which, which.input(), one_by_one(MANY, MANY))
}
