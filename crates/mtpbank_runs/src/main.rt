//! Stored runs: each script and each line of units beside which its output stands is run anew, and held against it.
//!
//! It reads the file `list` of the folder that it runs in: a name a line, of a script (`.play`), a line of units
//! (`.units`), units to decode (`.decode`, or `.decode_wide` of the wide profile), a history to audit (`.history`), the
//! lines that drive an end (`.terminal`), or a table of scripts that all give the same:
//! of each line of `NAME.first` a script is made, and of each line of `NAME.second` one with the opening before it. Beside
//! `NAME.play` stands `NAME.stdout`, what the run prints, and where it ends with a fault `NAME.fault`, the line that tells
//! it. `NAME.pcap` is what the capture of `NAME.play` writes, `NAME.history_a` and `NAME.history_b` what the histories of
//! its ends print, and `NAME.ladder` is its chart. `NAME.explained` is what is told of `NAME.play` where its fault is
//! explained; so are `NAME.ladder_explained`, `NAME.pcap_explained`, `NAME.history_a_explained` and
//! `NAME.history_b_explained`, which print what they do without an explanation, and beside units `NAME.decode_explained`
//! and `NAME.decode_wide_explained`; a table `NAME.told_first` or `NAME.told_second` has four such lines each, of which the
//! third shows the line that is played, alone or with the opening before it. `NAME.history_explained` beside `NAME.history`
//! and the tables `NAME.audited_first` and `NAME.audited_second` are so for a history. `NAME.terminal_explained` beside
//! `NAME.terminal`, and the tables `NAME.terminal_first`, `NAME.terminal_second` and `NAME.terminal_third`, are so for the
//! lines that drive an end; before the third line stand the opening and a command. `NAME.terminal_kept` is the lines that
//! drive an end which goes on behind a line at fault, and `NAME.terminal_kept_explained` beside it what is printed where
//! these faults are explained. `NAME.run` is the words behind `mtpbank run`, one a line: threads run as
//! they ask, and of what they print the time that they took is left out. `NAME.words` is words behind `mtpbank`, one a line,
//! that ask for help or the version, or that are wrong: beside it stands what is said of them, as what is printed where it
//! goes to standard output, else as the line of a fault; the launcher has these texts where no program stands. A line is
//! printed for each name.
//! Whether a run is as it should be is all that this program tells; it proves nothing.
#![tactic(auto)]

use history_audit::{audit, audit_explained};
use l2_units::Profile;
use mtpbank_words::{RunWords, Words, WordsFault, words_of};
use script_accounts::{
    End, capture, capture_explained, history, history_explained, play, play_explained,
};
use script_ladder::{ladder, ladder_explained};
use std::alloc::Global;
use std::fmt::Display;
use std::io::Eprint;
use std::process::ExitCode;
use std::sync::Wait;
use std::thread::Threads;
use std::time::Clock;
use std::{fs, io};
use terminal_text::{terminal, terminal_explained, terminal_kept, terminal_kept_explained};
use text_base::{Fault, Reader, Writer};
use text_units::{decode, decode_explained, units};

/// The first line of the scripts of a table.
const OPENING: &str = "set links=1 method=basic a=2 b=1 sio=80\n";

/// The lines before the third that drives an end.
const TWO_LINES: &str = "set links=1 method=basic a=2 b=1 sio=80\nstart 0\n";

/// What a run prints, and the line that tells how it ends.
#[derive(Drop, PartialEq)]
struct Ran {
    printed: Vec<u8>,
    told: String,
}

fn main(rt: HostRuntime) -> io::Result<ExitCode> {
    let list = fs::read_to_string(&rt, "list")?;
    Ok(if all_are_as_stored(&rt, &rt, &list)? {
        ExitCode::SUCCESS
    } else {
        ExitCode::FAILURE
    })
}

/// Whether each run of this list gives what is stored beside it. A line is printed for each. What starts threads is the same
/// runtime.
fn all_are_as_stored<R: Threads + Wait + Clock + Eprint + Copy + Send + Sync + 'static>(
    rt: &HostRuntime,
    threads: &R,
    list: &str,
) -> io::Result<bool> {
    let mut all = true;
    for name in list.lines() {
        let same = is_as_stored(rt, threads, name)?;
        let told = if same { "as stored" } else { "ANOTHER OUTPUT" };
        println!(rt; "{name} {told}")?;
        all = all && same;
    }
    Ok(all)
}

/// Whether each run of this name gives what is stored beside it.
fn is_as_stored<R: Threads + Wait + Clock + Eprint + Copy + Send + Sync + 'static>(
    rt: &HostRuntime,
    threads: &R,
    name: &str,
) -> io::Result<bool> {
    if name.ends_with(".first") {
        all_give(rt, name, "")
    } else if name.ends_with(".second") {
        all_give(rt, name, OPENING)
    } else if name.ends_with(".told_first") {
        all_told(rt, name, Kind::Explained, "")
    } else if name.ends_with(".told_second") {
        all_told(rt, name, Kind::Explained, OPENING)
    } else if name.ends_with(".terminal_first") {
        all_told(rt, name, Kind::DrivenExplained, "")
    } else if name.ends_with(".terminal_second") {
        all_told(rt, name, Kind::DrivenExplained, OPENING)
    } else if name.ends_with(".terminal_third") {
        all_told(rt, name, Kind::DrivenExplained, TWO_LINES)
    } else if name.ends_with(".audited_first") {
        all_told(rt, name, Kind::AuditedExplained, "")
    } else if name.ends_with(".audited_second") {
        all_told(rt, name, Kind::AuditedExplained, OPENING)
    } else if name.ends_with(".run") {
        gives_stored(rt, name, threads_of(threads, rt, name)?)
    } else if name.ends_with(".words") {
        gives_stored(rt, name, said_of(rt, name)?)
    } else {
        gives_stored(rt, name, ran_by_name(rt, name)?)
    }
}

/// Whether this is what is stored beside this name.
fn gives_stored(rt: &HostRuntime, name: &str, ran: Ran) -> io::Result<bool> {
    Ok(ran == stored_beside(rt, name)?)
}

/// Whether each line of this table gives what is stored beside it, behind the opening.
fn all_give(rt: &HostRuntime, name: &str, opening: &str) -> io::Result<bool> {
    let table = fs::read_to_string(rt, name)?;
    all_lines_give(rt.alloc(), opening, &table, &stored_beside(rt, name)?)
}

fn all_lines_give(alloc: Global, opening: &str, table: &str, stored: &Ran) -> io::Result<bool> {
    let mut all = !table.is_empty();
    for line in table.split_terminator('\n') {
        all = all && ran_behind(alloc, Kind::Played, opening, line)? == *stored;
    }
    Ok(all)
}

/// What the run of this line gives, behind the opening.
fn ran_behind(alloc: Global, kind: Kind, opening: &str, line: &str) -> io::Result<Ran> {
    let script = format!(in alloc; "{opening}{line}\n")?;
    run_of(alloc, kind, script.as_bytes())
}

/// Whether of each line that this table shows, behind the opening, just what stands around it is told.
fn all_told(rt: &HostRuntime, name: &str, kind: Kind, opening: &str) -> io::Result<bool> {
    let table = fs::read_to_string(rt, name)?;
    let lines: Vec<&str> = table.split_terminator('\n').collect(rt.alloc())?;
    all_lines_told(rt.alloc(), kind, opening, &lines)
}

fn all_lines_told(alloc: Global, kind: Kind, opening: &str, lines: &[&str]) -> io::Result<bool> {
    let mut all = !lines.is_empty();
    for told in lines.chunks(4) {
        all = all && is_told(alloc, kind, opening, told)?;
    }
    Ok(all)
}

/// Whether just these four lines are told of the script of which the third shows the line, behind two columns.
fn is_told(alloc: Global, kind: Kind, opening: &str, told: &[&str]) -> io::Result<bool> {
    let [fault, wanted, shown, caret] = told else {
        return Ok(false);
    };
    let Some(line) = shown.strip_prefix("  ") else {
        return Ok(false);
    };
    let told = format!(in alloc; "{fault}\n{wanted}\n{shown}\n{caret}\n")?;
    Ok(ran_behind(alloc, kind, opening, line)?.told == told)
}

/// What the run of a name does with its input.
#[derive(Clone, Copy, PartialEq, Eq)]
enum Kind {
    Units,
    Decoded,
    WideDecoded,
    DecodedExplained,
    WideDecodedExplained,
    HistoryOfA,
    HistoryOfB,
    HistoryOfAExplained,
    HistoryOfBExplained,
    Audited,
    AuditedExplained,
    Driven,
    DrivenExplained,
    DrivenOn,
    DrivenOnExplained,
    Ladder,
    LadderExplained,
    Captured,
    CapturedExplained,
    Explained,
    Played,
}

fn kind_of(name: &str) -> Kind {
    match ending_of(name) {
        "units" => Kind::Units,
        "decode" => Kind::Decoded,
        "decode_wide" => Kind::WideDecoded,
        "decode_explained" => Kind::DecodedExplained,
        "decode_wide_explained" => Kind::WideDecodedExplained,
        "history_a" => Kind::HistoryOfA,
        "history_b" => Kind::HistoryOfB,
        "history" => Kind::Audited,
        "history_explained" => Kind::AuditedExplained,
        "terminal" => Kind::Driven,
        "history_a_explained" => Kind::HistoryOfAExplained,
        "history_b_explained" => Kind::HistoryOfBExplained,
        "terminal_explained" => Kind::DrivenExplained,
        "terminal_kept" => Kind::DrivenOn,
        "terminal_kept_explained" => Kind::DrivenOnExplained,
        "ladder" => Kind::Ladder,
        "ladder_explained" => Kind::LadderExplained,
        "pcap" => Kind::Captured,
        "pcap_explained" => Kind::CapturedExplained,
        "explained" => Kind::Explained,
        _ => Kind::Played,
    }
}

/// What stands behind the last dot of a name.
fn ending_of(name: &str) -> &str {
    match name.rsplit_once('.') {
        Some((_, ending)) => ending,
        None => "",
    }
}

impl Kind {
    /// The ending of the input beside a name that the run is told of, as a script's capture, its chart, or the history of
    /// one of its ends; `None`: the input has the name itself.
    fn told_of(self) -> Option<&'static str> {
        match self {
            Kind::Units
            | Kind::Decoded
            | Kind::WideDecoded
            | Kind::Audited
            | Kind::Driven
            | Kind::DrivenOn
            | Kind::Played => None,
            Kind::DrivenExplained => Some("terminal"),
            Kind::DrivenOnExplained => Some("terminal_kept"),
            Kind::AuditedExplained => Some("history"),
            Kind::DecodedExplained => Some("decode"),
            Kind::WideDecodedExplained => Some("decode_wide"),
            _ => Some("play"),
        }
    }

    /// Whether the file of the name is what is told of a fault.
    fn explains(self) -> bool {
        matches!(
            self,
            Kind::Explained
                | Kind::DrivenExplained
                | Kind::AuditedExplained
                | Kind::DecodedExplained
                | Kind::WideDecodedExplained
                | Kind::HistoryOfAExplained
                | Kind::HistoryOfBExplained
                | Kind::LadderExplained
                | Kind::CapturedExplained
        )
    }

    /// The ending of what the run prints, beside its name: an explained run prints what it does without an explanation;
    /// `None`: that has the name itself.
    fn printed(self) -> Option<&'static str> {
        match self {
            Kind::HistoryOfA
            | Kind::HistoryOfB
            | Kind::Ladder
            | Kind::Captured
            | Kind::DrivenOnExplained => None,
            Kind::HistoryOfAExplained => Some("history_a"),
            Kind::HistoryOfBExplained => Some("history_b"),
            Kind::LadderExplained => Some("ladder"),
            Kind::CapturedExplained => Some("pcap"),
            _ => Some("stdout"),
        }
    }
}

/// What the run of this name gives.
fn ran_by_name(rt: &HostRuntime, name: &str) -> io::Result<Ran> {
    let kind = kind_of(name);
    let input = match kind.told_of() {
        Some(ending) => read_beside(rt, name, ending)?,
        None => fs::read(rt, name)?,
    };
    run_of(rt.alloc(), kind, &input)
}

/// What is stored beside this name, or under it.
fn stored_beside(rt: &HostRuntime, name: &str) -> io::Result<Ran> {
    ran_with(printed_beside(rt, name)?, told_beside(rt, name))
}

/// What a run printed, and what was told of its end.
fn ran_with(printed: Vec<u8>, told: io::Result<String>) -> io::Result<Ran> {
    Ok(Ran {
        printed,
        told: told?,
    })
}

/// What is to be printed.
fn printed_beside(rt: &HostRuntime, name: &str) -> io::Result<Vec<u8>> {
    match kind_of(name).printed() {
        Some(ending) => read_beside(rt, name, ending),
        None => fs::read(rt, name),
    }
}

/// What is to be told; nothing where no fault is stored.
fn told_beside(rt: &HostRuntime, name: &str) -> io::Result<String> {
    if kind_of(name).explains() {
        return fs::read_to_string(rt, name);
    }
    let path = beside(rt.alloc(), name, "fault")?;
    match fs::read_to_string(rt, path.as_str()) {
        Ok(text) => Ok(text),
        Err(_) => Ok(String::new(rt.alloc())),
    }
}

fn read_beside(rt: &HostRuntime, name: &str, kind: &str) -> io::Result<Vec<u8>> {
    let path = beside(rt.alloc(), name, kind)?;
    fs::read(rt, path.as_str())
}

/// The file of this kind beside a script or a line.
fn beside(alloc: Global, name: &str, kind: &str) -> io::Result<String> {
    let stem = match name.rsplit_once('.') {
        Some((stem, _)) => stem,
        None => name,
    };
    Ok(format!(in alloc; "{stem}.{kind}")?)
}

/// What the run of this input gives.
fn run_of(alloc: Global, kind: Kind, input: &[u8]) -> io::Result<Ran> {
    let mut source = Reader::new(input);
    let mut sink = Writer::new(Vec::new(alloc));
    let told = run_on(alloc, kind, &mut source, &mut sink);
    ran_with(sink.into_inner(), told)
}

/// Runs the source to the sink; the line that tells how that ended.
fn run_on(
    alloc: Global,
    kind: Kind,
    source: &mut Reader<&[u8]>,
    sink: &mut Writer<Vec<u8>>,
) -> io::Result<String> {
    match kind {
        Kind::Units => told_of(alloc, units(alloc, source, sink)),
        Kind::Decoded => told_of(alloc, decode(alloc, Profile::Narrow, source, sink)),
        Kind::WideDecoded => told_of(alloc, decode(alloc, Profile::Wide, source, sink)),
        Kind::DecodedExplained => told_of(
            alloc,
            decode_explained(alloc, Profile::Narrow, source, sink),
        ),
        Kind::WideDecodedExplained => told_of(
            alloc,
            decode_explained(alloc, Profile::Wide, source, sink),
        ),
        Kind::HistoryOfA => told_of(alloc, history(alloc, End::A, source, sink)),
        Kind::HistoryOfB => told_of(alloc, history(alloc, End::B, source, sink)),
        Kind::HistoryOfAExplained => {
            told_of(alloc, history_explained(alloc, End::A, source, sink))
        }
        Kind::HistoryOfBExplained => {
            told_of(alloc, history_explained(alloc, End::B, source, sink))
        }
        Kind::Audited => told_of(alloc, audit(alloc, source, sink)),
        Kind::AuditedExplained => told_of(alloc, audit_explained(alloc, source, sink)),
        Kind::Driven => told_of(alloc, terminal(alloc, source, sink)),
        Kind::DrivenExplained => told_of(alloc, terminal_explained(alloc, source, sink)),
        Kind::DrivenOn => told_of(alloc, terminal_kept(alloc, source, sink)),
        Kind::DrivenOnExplained => told_of(alloc, terminal_kept_explained(alloc, source, sink)),
        Kind::Ladder => told_of(alloc, ladder(alloc, source, sink)),
        Kind::LadderExplained => told_of(alloc, ladder_explained(alloc, source, sink)),
        Kind::Captured => told_of(alloc, capture(alloc, source, sink)),
        Kind::CapturedExplained => told_of(alloc, capture_explained(alloc, source, sink)),
        Kind::Explained => told_of(alloc, play_explained(alloc, source, sink)),
        Kind::Played => told_of(alloc, play(alloc, source, sink)),
    }
}

/// What is said of the words in the file of this name, which ask for nothing to be done.
fn said_of(rt: &HostRuntime, name: &str) -> io::Result<Ran> {
    let alloc = rt.alloc();
    let text = fs::read_to_string(rt, name)?;
    let words: Vec<&str> = text.lines().collect(alloc)?;
    match words_of(alloc, words.as_slice()) {
        Err(WordsFault::Words(error)) => ran_as_said(alloc, &error),
        Err(WordsFault::Said(said)) => wrong_by(alloc, String::from_utf8(said).ok()),
        _ => wrong_by(alloc, None),
    }
}

/// What the library says: help and the version are printed, wrong words are told.
fn ran_as_said(alloc: Global, error: &clap::Error) -> io::Result<Ran> {
    let text = error.to_string(alloc)?;
    Ok(if error.use_stderr() {
        Ran {
            printed: Vec::new(alloc),
            told: text,
        }
    } else {
        Ran {
            printed: text.into_bytes(),
            told: String::new(alloc),
        }
    })
}

/// Wrong words of which this is told, in lines.
fn wrong_by(alloc: Global, said: Option<String>) -> io::Result<Ran> {
    let told = match said {
        Some(text) => format!(in alloc; "{text}\n")?,
        None => "not said\n".to_string(alloc)?,
    };
    Ok(Ran {
        printed: Vec::new(alloc),
        told,
    })
}

/// What the threads give that the words in the file of this name ask for, behind `run`.
fn threads_of<R: Threads + Wait + Clock + Eprint + Copy + Send + Sync + 'static>(
    threads: &R,
    rt: &HostRuntime,
    name: &str,
) -> io::Result<Ran> {
    let alloc = rt.alloc();
    let text = fs::read_to_string(rt, name)?;
    match run_words(alloc, &text)? {
        Some(words) => ran_as(threads, alloc, &words),
        None => Ok(Ran {
            printed: Vec::new(alloc),
            told: "no run\n".to_string(alloc)?,
        }),
    }
}

/// The run that these words ask for, one a line, if they ask for one.
fn run_words(alloc: Global, text: &str) -> io::Result<Option<RunWords>> {
    let mut words = Vec::new(alloc);
    push_words(text, &mut words)?;
    Ok(match words_of(alloc, words.as_slice()) {
        Ok(Words::Run(run)) => Some(run),
        _ => None,
    })
}

fn push_words<'a>(text: &'a str, words: &mut Vec<&'a str>) -> io::Result<()> {
    words.push("run")?;
    for word in text.lines() {
        words.push(word)?;
    }
    Ok(())
}

/// What a run of threads gives.
fn ran_as<R: Threads + Wait + Clock + Eprint + Copy + Send + Sync + 'static>(
    rt: &R,
    alloc: Global,
    words: &RunWords,
) -> io::Result<Ran> {
    let mut sink = Writer::new(Vec::new(alloc));
    let told = match run_text::run(rt, alloc, words, false, &mut sink) {
        Ok(Some(missing)) => Ok(format!(in alloc; "{missing}\n")?),
        Ok(None) => Ok(String::new(alloc)),
        Err(fault) => Ok(format!(in alloc; "{fault}\n")?),
    };
    ran_with(without_time(alloc, sink.into_inner())?, told)
}

/// These lines, each without what a clock told: the seconds, and what is behind them.
fn without_time(alloc: Global, printed: Vec<u8>) -> io::Result<Vec<u8>> {
    let Ok(text) = String::from_utf8(printed) else {
        return Ok(Vec::new(alloc));
    };
    let mut kept = String::new(alloc);
    for line in text.lines() {
        let timeless = match line.split_once(" seconds=") {
            Some((before, _)) => before,
            None => line,
        };
        kept.push_str(timeless)?;
        kept.push_str("\n")?;
    }
    Ok(kept.into_bytes())
}

/// The line that tells how a run ended, if it tells anything.
fn told_of<T: Display + Drop>(alloc: Global, ended: Result<(), Fault<T>>) -> io::Result<String> {
    match ended {
        Ok(()) => Ok(String::new(alloc)),
        Err(fault) => Ok(format!(in alloc; "{fault}\n")?),
    }
}
