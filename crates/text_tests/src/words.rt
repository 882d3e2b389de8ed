//! Words with what they ask for, and help.
use super::holds;
use mtpbank_words::{RunWords, Told, Words, WordsFault, not_unicode, say_linkless, words_of};
use std::alloc::{AllocError, Global};
use std::test::Fail;

/// What these words ask for, in a word or in the text that is printed for them: help, the version, or what is wrong. All
/// tests ask through here, so that the prover meets the contract once.
fn told_of(alloc: Global, words: &[&str]) -> Result<String, AllocError> {
    match words_of(alloc, words) {
        Ok(Words::Units) => "units".to_string(alloc),
        Ok(Words::Script { told, explains }) => with_flag(alloc, script_told(told), explains),
        Ok(Words::Decode { wide, explains }) => with_flag(alloc, decode_told(wide), explains),
        Ok(Words::Audit { explains }) => with_flag(alloc, "audit", explains),
        Ok(Words::Terminal { keeps, explains }) => with_flag(alloc, terminal_told(keeps), explains),
        Ok(Words::Run(run)) => run_told(alloc, &run),
        Err(WordsFault::Words(error)) => error.to_string(alloc),
        Err(WordsFault::Link { fail, links }) => text_of(alloc, say_linkless(alloc, fail, links)?),
        Err(WordsFault::Said(said)) => text_of(alloc, said),
        Err(WordsFault::NoMemory) => Ok(String::new(alloc)),
    }
}

/// What is told of a script, in words.
fn script_told(told: Told) -> &'static str {
    match told {
        Told::Play => "play",
        Told::Capture => "capture",
        Told::Ladder => "ladder",
        Told::HistoryOfA => "history a",
        Told::HistoryOfB => "history b",
    }
}

/// The units to decode, in words.
fn decode_told(wide: bool) -> &'static str {
    if wide { "decode --wide" } else { "decode" }
}

/// The end to drive, in words.
fn terminal_told(keeps: bool) -> &'static str {
    if keeps { "terminal --keep" } else { "terminal" }
}

/// These words, and whether an explanation is asked for.
fn with_flag(alloc: Global, words: &str, explains: bool) -> Result<String, AllocError> {
    let flag = if explains { " --explain" } else { "" };
    format!(in alloc; "{words}{flag}")
}

/// What is said, as text.
fn text_of(alloc: Global, said: Vec<u8>) -> Result<String, AllocError> {
    match String::from_utf8(said) {
        Ok(text) => Ok(text),
        Err(_) => Ok(String::new(alloc)),
    }
}

/// A run that is asked for, number by number.
fn run_told(alloc: Global, run: &RunWords) -> Result<String, AllocError> {
    let RunWords {
        sets,
        links,
        users,
        messages,
        turns,
        ..
    } = *run;
    let fail = match run.fail {
        Some(link) => link.to_string(alloc)?,
        None => "none".to_string(alloc)?,
    };
    let method = if run.cyclic { "cyclic" } else { "basic" };
    let checkpoint = match run.checkpoint {
        Some(messages) => messages.to_string(alloc)?,
        None => "never".to_string(alloc)?,
    };
    let lines = if run.report { " report" } else { "" };
    format!(in alloc;
        "run {sets} {links} {users} {messages} {fail} {method} {turns} {checkpoint}{lines}"
    )
}

/// The words are refused.
fn are_refused(alloc: Global, words: &[&str]) -> bool {
    match told_of(alloc, words) {
        Ok(told) => told.starts_with("error: ") || told.starts_with("mtpbank"),
        Err(_) => false,
    }
}

/// Each of these is refused.
fn all_are_refused(alloc: Global, rows: &[&[&str]]) -> bool {
    for words in rows {
        if !are_refused(alloc, words) {
            return false;
        }
    }
    true
}

/// The words ask for this subcommand.
fn ask_for(alloc: Global, words: &[&str], subcommand: &str) -> bool {
    match told_of(alloc, words) {
        Ok(told) => told.as_str() == subcommand,
        Err(_) => false,
    }
}

#[test]
fn words_of_the_command_line(rt: HostRuntime) -> Result<(), Fail> {
    let asked: [(&[&str], &str); 24] = [
        (&["play"], "play"),
        (&["play", "--explain"], "play --explain"),
        (&["units"], "units"),
        (&["decode"], "decode"),
        (&["decode", "--wide"], "decode --wide"),
        (&["decode", "--explain"], "decode --explain"),
        (
            &["decode", "--wide", "--explain"],
            "decode --wide --explain",
        ),
        (
            &["decode", "--explain", "--wide"],
            "decode --wide --explain",
        ),
        (&["capture"], "capture"),
        (&["ladder"], "ladder"),
        (&["audit"], "audit"),
        (&["audit", "--explain"], "audit --explain"),
        (&["terminal"], "terminal"),
        (&["terminal", "--explain"], "terminal --explain"),
        (&["terminal", "--keep"], "terminal --keep"),
        (
            &["terminal", "--explain", "--keep"],
            "terminal --keep --explain",
        ),
        (&["history", "a"], "history a"),
        (&["history", "b"], "history b"),
        (&["capture", "--explain"], "capture --explain"),
        (&["ladder", "--explain"], "ladder --explain"),
        (&["history", "a", "--explain"], "history a --explain"),
        (&["history", "--explain", "b"], "history b --explain"),
        (&["history", "b", "--explain"], "history b --explain"),
        (&["play", "--"], "play"),
    ];
    let refused: [&[&str]; 15] = [
        &[],
        &["units", "--explain"],
        &["play", "--explain", "it"],
        &["terminal", "--explain", "it"],
        &["play", "--wide"],
        &["decode", "--wide", "it"],
        &["play", "it"],
        &["--", "units"],
        &["history"],
        &["history", "c"],
        &["history", "a", "b"],
        &["history", "--explain"],
        &["history", "--explain", "c"],
        &["audit", "--explain", "it"],
        &["ladder", "--explain", "it"],
    ];
    holds(all_ask_for(rt.alloc(), &asked) && all_are_refused(rt.alloc(), &refused))
}

/// Each of these asks for this subcommand.
fn all_ask_for(alloc: Global, rows: &[(&[&str], &str)]) -> bool {
    for row in rows {
        if !ask_for(alloc, row.0, row.1) {
            return false;
        }
    }
    true
}

/// `run` has a value for each option that isn't there, and takes the others to the ends of their ranges.
#[test]
fn numbers_of_a_run(rt: HostRuntime) -> Result<(), Fail> {
    let alloc = rt.alloc();
    let least = [
        "run",
        "--sets=1",
        "--links=1",
        "--users=1",
        "--messages=1",
        "--fail=0",
        "--turns=1",
        "--checkpoint=1",
    ];
    let most = [
        "run",
        "--sets=16",
        "--links=16",
        "--users=16",
        "--messages=1024",
        "--fail=15",
        "--method=cyclic",
        "--turns=1000000",
        "--checkpoint=1024",
        "--report",
    ];
    let split = ["run", "--method", "basic", "--fail", "1"];
    holds(
        ask_for(alloc, &["run"], "run 1 2 4 1000 none basic 20000 never")
            && ask_for(alloc, &least, "run 1 1 1 1 0 basic 1 1")
            && ask_for(
                alloc,
                &most,
                "run 16 16 16 1024 15 cyclic 1000000 1024 report",
            )
            && ask_for(alloc, &split, "run 1 2 4 1000 1 basic 20000 never"),
    )
}

/// Values past the ends of their ranges are wrong words, and so is what is no number.
#[test]
fn a_run_of_wrong_numbers(rt: HostRuntime) -> Result<(), Fail> {
    let refused = [
        "--sets=0",
        "--sets=17",
        "--links=0",
        "--links=17",
        "--users=0",
        "--users=17",
        "--messages=0",
        "--messages=1025",
        "--fail=16",
        "--turns=0",
        "--turns=1000001",
        "--sets=01",
        "--sets=",
        "--sets=one",
        "--turns=18446744073709551617",
        "--method=other",
        "--report=yes",
        "--checkpoint=0",
        "--checkpoint=1025",
        "--checkpoint=",
        "--checkpoints=1",
    ];
    let others: [&[&str]; 3] = [
        &["run", "--sets"],
        &["run", "--sets=1", "--sets=1"],
        &["run", "1"],
    ];
    holds(are_wrong_options(rt.alloc(), &refused) && all_are_refused(rt.alloc(), &others))
}

/// Each of these is refused behind `run`.
fn are_wrong_options(alloc: Global, options: &[&str]) -> bool {
    for option in options {
        if !are_refused(alloc, &["run", option]) {
            return false;
        }
    }
    true
}

/// The link that is to fail has to be one of the links; a number out of its range comes first.
#[test]
fn a_run_without_the_link_that_fails(rt: HostRuntime) -> Result<(), Fail> {
    let alloc = rt.alloc();
    holds(
        says_of_run(
            alloc,
            "--links=4",
            "--fail=4",
            "fault link\nmtpbank run: --fail 4 isn't a link: they count from 0, and --links is 4",
        )? && says_of_run(
            alloc,
            "--sets=2",
            "--fail=15",
            "fault link\nmtpbank run: --fail 15 isn't a link: they count from 0, and --links is 2",
        )? && are_refused(alloc, &["run", "--links=2", "--fail=2", "--turns=0"]),
    )
}

const USAGE: &str = "\nusage: mtpbank run [--report] [--fail K] [--noise N] [--seed S] [--sets N] \
[--links L] [--users U] [--messages M] [--method WORD] [--turns T] [--checkpoint C] [--capture]";

/// This is said of the words behind `run`, and the usage in a second line.
fn says_of_run(alloc: Global, first: &str, second: &str, said: &str) -> Result<bool, AllocError> {
    let told = told_of(alloc, &["run", first, second])?;
    Ok(told.starts_with(said) && told.ends_with(USAGE) && told.len() == said.len() + USAGE.len())
}

/// A value out of its range is told with its range and the usage, and so is a word that is no option.
#[test]
fn a_wrong_value_is_told_with_its_range(rt: HostRuntime) -> Result<(), Fail> {
    let alloc = rt.alloc();
    let links = "mtpbank run: --links 99 isn't a number from 1 to 16";
    let turns = "mtpbank run: --turns 0 isn't a number from 1 to 1000000";
    let checkpoint = "mtpbank run: --checkpoint 0 isn't a number from 1 to 1024";
    holds(
        says_of_run(alloc, "--links", "99", links)?
            && says_of_run(alloc, "--report", "--turns=0", turns)?
            && says_of_run(alloc, "--checkpoint", "0", checkpoint)?
            && says_of_run(alloc, "--report", "x", "mtpbank run: x isn't an option")?,
    )
}

/// An end that is none, and a file where standard input is read.
#[test]
fn a_file_is_read_from_standard_input(rt: HostRuntime) -> Result<(), Fail> {
    let alloc = rt.alloc();
    let play = "mtpbank play: reads standard input: mtpbank play [--explain] < FILE";
    let units = "mtpbank units: reads standard input: mtpbank units < FILE";
    let decode = "mtpbank decode: reads standard input: mtpbank decode [--wide] [--explain] < FILE";
    let terminal =
        "mtpbank terminal: reads standard input: mtpbank terminal [--keep] [--explain] < FILE";
    let history = "mtpbank history: reads standard input: mtpbank history [--explain] END < FILE";
    let end =
        "mtpbank history: c isn't an end, a or b\nusage: mtpbank history [--explain] END < FILE";
    holds(
        ask_for(alloc, &["play", "a.play"], play)
            && ask_for(alloc, &["play", "--explain", "a.play"], play)
            && ask_for(alloc, &["units", "a.units"], units)
            && ask_for(alloc, &["decode", "--wide", "a.decode"], decode)
            && ask_for(
                alloc,
                &["decode", "--explain", "--wide", "a.decode"],
                decode,
            )
            && ask_for(alloc, &["terminal", "a.terminal"], terminal)
            && ask_for(
                alloc,
                &["terminal", "--explain", "--keep", "a.terminal"],
                terminal,
            )
            && ask_for(alloc, &["history", "a", "a.play"], history)
            && ask_for(alloc, &["history", "a", "--explain", "a.play"], history)
            && ask_for(alloc, &["history", "--explain", "c"], end)
            && ask_for(alloc, &["history", "c", "--explain"], end)
            && ask_for(alloc, &["history", "c"], end),
    )
}

/// No command, one that is none, and an option that is none, are told with what there is in their place.
#[test]
fn what_is_no_command_or_option(rt: HostRuntime) -> Result<(), Fail> {
    let alloc = rt.alloc();
    let wide = "mtpbank play: --trace isn't an option\nusage: mtpbank play [--explain] < FILE";
    let end = "mtpbank history: -c isn't an option\nusage: mtpbank history [--explain] END < FILE";
    holds(
        lists_commands(alloc, &[], "mtpbank: a command is missing\n")?
            && lists_commands(alloc, &["replay"], "mtpbank: replay isn't a command\n")?
            && lists_commands(alloc, &["--play"], "mtpbank: --play isn't a command\n")?
            && ask_for(alloc, &["play", "--trace"], wide)
            && ask_for(alloc, &["history", "-c"], end)
            && says_of_run(
                alloc,
                "--sets=1",
                "--loud",
                "mtpbank run: --loud isn't an option",
            )?,
    )
}

/// This is said of these words, and a line for each command behind it.
fn lists_commands(alloc: Global, words: &[&str], said: &str) -> Result<bool, AllocError> {
    let told = told_of(alloc, words)?;
    Ok(
        told.starts_with(said)
            && told.contains("\n  units ")
            && told.contains("\n  terminal ")
            && told.contains("\n  run ")
            && told.lines().count() == 12,
    )
}

/// A word that isn't Unicode is a wrong word.
#[test]
fn a_word_that_is_not_unicode(rt: HostRuntime) -> Result<(), Fail> {
    holds(matches!(not_unicode(rt.alloc()), WordsFault::Words(_)))
}

/// A page of help is of at most 25 rows and 80 columns, shows this usage and leads to `--help`.
fn is_page(page: &str, usage: &str) -> bool {
    page.contains(usage)
        && page.contains("--help` say")
        && page.lines().count() <= 25
        && page.lines().all(|line| line.len() <= 80)
}

/// With `-h` this subcommand's help is a page; with `--help` it shows the usage too, and says more.
fn has_help(alloc: Global, short: &[&str], long: &[&str], usage: &str) -> Result<bool, AllocError> {
    let page = told_of(alloc, short)?;
    let whole = told_of(alloc, long)?;
    Ok(is_page(&page, usage) && whole.contains(usage) && whole.len() > page.len())
}

/// `-h` is a page that names the program and leads to `--help`; that says more.
#[test]
fn short_help_is_a_page(rt: HostRuntime) -> Result<(), Fail> {
    let alloc = rt.alloc();
    let usage = "\nUsage: mtpbank <COMMAND>\n";
    let whole = has_help(alloc, &["-h"], &["--help"], usage) == Ok(true);
    let asked = [
        ("units", "\nUsage: mtpbank units\n"),
        ("play", "\nUsage: mtpbank play [OPTIONS]\n"),
        ("decode", "\nUsage: mtpbank decode [OPTIONS]\n"),
        ("capture", "\nUsage: mtpbank capture [OPTIONS]\n"),
        ("ladder", "\nUsage: mtpbank ladder [OPTIONS]\n"),
        ("audit", "\nUsage: mtpbank audit [OPTIONS]\n"),
        ("terminal", "\nUsage: mtpbank terminal [OPTIONS]\n"),
        ("history", "\nUsage: mtpbank history [OPTIONS] <END>\n"),
        ("run", "\nUsage: mtpbank run [OPTIONS]\n"),
    ];
    holds(whole && all_have_help(alloc, &asked))
}

/// Each of these subcommands has a page with its usage.
fn all_have_help(alloc: Global, rows: &[(&str, &str)]) -> bool {
    for row in rows {
        let (subcommand, usage) = *row;
        if has_help(alloc, &[subcommand, "-h"], &[subcommand, "--help"], usage) != Ok(true) {
            return false;
        }
    }
    true
}

/// A script can be written by its help: each line's words stand in it, and each line that is printed.
#[test]
fn the_help_shows_each_line(rt: HostRuntime) -> Result<(), Fail> {
    let lines = [
        "set links=L method=W a=X b=Y sio=HH\n",
        " profile=wide: ",
        "  together L ",
        "  rise E L ",
        "  fill E L ",
        "  offer E HEX ",
        "  take E ",
        "  find E N ",
        "  emit E L ",
        "  arrive E L ",
        "  lose E L P ",
        "  hear E L HEX ",
        "  down E L ",
        "  blind E L ",
        "  noanswer E L ",
        "  timed E L ",
        "  restore E L ",
        "  redeclare E L ",
        "  backtimeout E L ",
        "  test E L ",
        "  accepted N ",
        "  found back C ",
        "  sent HEX ",
        "  heard acked=K took=T asked=0|1 resend=0|1 fault=F ",
        "  refused C ",
        "  fault line N text ",
        "  fault line N step ",
        "      --explain\n",
    ];
    let version = ask_for(rt.alloc(), &["--version"], "mtpbank 0.1.0\n");
    holds(version && help_shows(rt.alloc(), "play", &lines))
}

/// So can the lines of a terminal.
#[test]
fn the_help_shows_each_line_of_a_terminal(rt: HostRuntime) -> Result<(), Fail> {
    let lines = [
        "  set links=L method=W a=X b=Y sio=HH ",
        "  timers t1=N t2=N t3=N t5=N t6=N t7=N ",
        "  start L, stop L, emergency L, calm L, busy L, ease L, blind L, outage L, recover L\n",
        "  octets L HEX ",
        "  hear L UNIT [xN] ",
        "  flags L N ",
        "  bits L BITS [xN] ",
        "  offer HEX, take, find N ",
        "  noanswer L, timed L, restore L, redeclare L, backtimeout L, test L\n",
        "  look L ",
        "  counts ",
        "  activate L ",
        "  deactivate L ",
        "  checkpoint ",
        "  forget N [told] ",
        "  history ",
        "  events on, events off\n",
        "  message L turn=T ",
        "  link L WORD turn=T ",
        "  stream S link L turn=T\n",
        "  sent L UNIT [xN] ",
        "  fault line N text ",
        "  fault line N step ",
        "      --keep\n",
        "      --explain\n",
    ];
    holds(help_shows(rt.alloc(), "terminal", &lines))
}

/// The help of a subcommand shows each of these.
fn help_shows(alloc: Global, subcommand: &str, lines: &[&str]) -> bool {
    match told_of(alloc, &[subcommand, "--help"]) {
        Ok(help) => contains_all(&help, lines),
        Err(_) => false,
    }
}

fn contains_all(text: &str, lines: &[&str]) -> bool {
    for line in lines {
        if !text.contains(*line) {
            return false;
        }
    }
    true
}
