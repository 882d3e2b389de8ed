//! The options behind `run`, and how they're read.
ghost use Rattle.std.specs.Prelude.{◌≡◌, ◌≢◌, ◌∷◌, [], ◌≤◌, ◌<◌, ◌↔◌, ℕ, Bool, Option, None, IfOk, IfSome, IsTrue, MatchOption, MatchResult, Some, codes, false};
ghost use Rattle.std.specs.Option.{option_map};
ghost use Rattle.clap.specs.Words.{app_of, first_of, found_of, rows_of, rule_of};
ghost use Rattle.clap.specs.Simple.{new_shape, shape_of};
ghost use Rattle.clap.specs.declared.builder.command.Command.{out-Command};
ghost use Rattle.mtpbank_words.specs.RunOptions.{AreValues, IsMethod, IsNumber, IsOptional, IsRun, IsUnasked, IsWithin, IsWithout, flag_rule, goes_alone, line_rules, option_rule, run_shape, size_rules, usual_turns, way_rules, with_rules};

use super::help::{RUN_HELP, RUN_PAGE};
use super::run_words::{RunWords, Unasked};
use clap::{Arg, ArgAction, ArgMatches, Command};
use std::alloc::{AllocError, Global};
use text_base::read_number;

/// What the options behind `run` ask for.
pub(crate) fn run_of(found: &ArgMatches<'_>) -> Result<RunWords, Unasked>
    ensures { MatchResult result (λ run. IsRun run (rows_of (found_of found.now)))
        (λ why. IsUnasked why (rows_of (found_of found.now))) }
{
    match values_of(found) {
        Ok(run) => with_link(run),
        Err(said) => Err(Unasked::Value(said)),
    }
}

/// A run whose failing link is one of its links.
fn with_link(run: RunWords) -> Result<RunWords, Unasked>
    ensures { MatchResult result
        (λ same. (same ≡ run) × IfSome run.fail (λ link. link < run.links))
        (λ why. IsWithout run why) }
{
    match run.fail {
        Some(fail) if fail >= run.links => Err(Unasked::Link {
            fail,
            links: run.links,
        }),
        _ => Ok(run),
    }
}

/// The values of all options, or what is said of the first that isn't in its range.
fn values_of(found: &ArgMatches<'_>) -> Result<RunWords, &'static str>
    ensures { MatchResult result (λ run. AreValues run (rows_of (found_of found.now)))
        (λ said. (run : RunWords) → AreValues run (rows_of (found_of found.now)) → ⊥) }
{
    let Some(sets) = number_in(found, "sets", 1, 16, 1) else {
        return Err("--sets is a number from 1 to 16");
    };
    let Some(links) = number_in(found, "links", 1, 16, 2) else {
        return Err("--links is a number from 1 to 16");
    };
    let Some(users) = number_in(found, "users", 1, 16, 4) else {
        return Err("--users is a number from 1 to 16");
    };
    let Some(messages) = number_in(found, "messages", 1, 1_024, 1_000) else {
        return Err("--messages is a number from 1 to 1024");
    };
    let Some(fail) = fail_in(value_of(found, "fail")) else {
        return Err("--fail is the number of a link, 0 to 15");
    };
    let Some(cyclic) = method_in(value_of(found, "method")) else {
        return Err("--method is basic or cyclic");
    };
    let report = is_set(value_of(found, "report"));
    let Some(turns) = number_in(found, "turns", 1, 1_000_000, usual_turns(report)) else {
        return Err("--turns is a number from 1 to 1000000");
    };
    let Some(checkpoint) = checkpoint_in(value_of(found, "checkpoint")) else {
        return Err("--checkpoint is a number from 1 to 1024");
    };
    let Some(noise) = noise_in(value_of(found, "noise")) else {
        return Err("--noise is a number from 1 to 10000000");
    };
    let Some(seed) = number_in(found, "seed", 0, 4_294_967_295, 1) else {
        return Err("--seed is a number from 0 to 4294967295");
    };
    let capture = is_set(value_of(found, "capture"));
    if !goes_alone(capture, report) {
        return Err("--capture goes without --report");
    }
    Ok(RunWords {
        sets: sets as u16,
        links: links as u8,
        users: users as u16,
        messages: messages as u16,
        fail,
        cyclic,
        turns: turns as u32,
        checkpoint,
        report,
        capture,
        noise,
        seed: seed as u32,
    })
}

/// Whether a capture is asked for alone, if one is.
fn goes_alone(capture: bool, report: bool) -> bool
    ensures { result ≡ goes_alone capture report }
{
    !(capture && report)
}

/// How many turns there are where no number is told: with a report, as many as there can be.
fn usual_turns(report: bool) -> u64
    ensures usual { result ≡ usual_turns report }
    ensures range { (1 ≤ result) × (result ≤ 1000000) }
{
    if report { 1_000_000 } else { 20_000 }
}

/// The word behind this option, if it's there.
fn value_of<'a>(found: &ArgMatches<'a>, name: &str) -> Option<&'a str>
    ensures { option_map (λ s. s.now) result ≡ first_of name.now (rows_of (found_of found.now)) }
{
    found.get_str(name)
}

/// The number behind this option, from `least` to `most`; where the option isn't there, the usual one.
fn number_in(found: &ArgMatches<'_>, name: &str, least: u64, most: u64, usual: u64) -> Option<u64>
    requires usual { (least ≤ usual) × (usual ≤ most) }
    ensures number { MatchOption result
        ((n : ℕ) → IsNumber least most usual n (first_of name.now (rows_of (found_of found.now)))
        → ⊥)
        (λ n. IsNumber least most usual n (first_of name.now (rows_of (found_of found.now)))) }
    ensures within { IfSome result (λ n. (least ≤ n) × (n ≤ most)) }
{
    match value_of(found, name) {
        Some(word) => within(word, least, most),
        None => Some(usual),
    }
}

/// The number that this word tells, from `least` to `most`.
fn within(word: &str, least: u64, most: u64) -> Option<u64>
    ensures number { MatchOption result ((n : ℕ) → IsWithin least most n word.now → ⊥)
        (λ n. IsWithin least most n word.now) }
{
    let number = read_number(word.as_bytes())?;
    if least <= number && number <= most {
        Some(number)
    } else {
        None
    }
}

/// The link behind `--fail`.
fn fail_in(word: Option<&str>) -> Option<Option<u8>>
    ensures { MatchOption result ((fail : Option ℕ)
        → IsOptional 0 15 fail (option_map (λ s. s.now) word.entry) → ⊥)
        (λ fail. IsOptional 0 15 fail (option_map (λ s. s.now) word.entry)) }
{
    match word {
        Some(word) => match within(word, 0, 15) {
            Some(link) => Some(Some(link as u8)),
            None => None,
        },
        None => Some(None),
    }
}

/// The number of messages behind `--checkpoint`.
fn checkpoint_in(word: Option<&str>) -> Option<Option<u16>>
    ensures { MatchOption result ((checkpoint : Option ℕ)
        → IsOptional 1 1024 checkpoint (option_map (λ s. s.now) word.entry) → ⊥)
        (λ checkpoint. IsOptional 1 1024 checkpoint (option_map (λ s. s.now) word.entry)) }
{
    match word {
        Some(word) => match within(word, 1, 1_024) {
            Some(messages) => Some(Some(messages as u16)),
            None => None,
        },
        None => Some(None),
    }
}

/// The number of octets behind `--noise`.
fn noise_in(word: Option<&str>) -> Option<Option<u32>>
    ensures { MatchOption result ((noise : Option ℕ)
        → IsOptional 1 10000000 noise (option_map (λ s. s.now) word.entry) → ⊥)
        (λ noise. IsOptional 1 10000000 noise (option_map (λ s. s.now) word.entry)) }
{
    match word {
        Some(word) => match within(word, 1, 10_000_000) {
            Some(octets) => Some(Some(octets as u32)),
            None => None,
        },
        None => Some(None),
    }
}

/// Whether the method behind `--method` is the cyclic one.
fn method_in(word: Option<&str>) -> Option<bool>
    ensures { MatchOption result ((cyclic : Bool)
        → IsMethod cyclic (option_map (λ s. s.now) word.entry) → ⊥)
        (λ cyclic. IsMethod cyclic (option_map (λ s. s.now) word.entry)) }
{
    match word {
        None => Some(false),
        Some("basic") => Some(false),
        Some("cyclic") => Some(true),
        Some(_) => None,
    }
}

/// Whether a flag stands there.
fn is_set(word: Option<&str>) -> bool
    ensures { IsTrue result ↔ (option_map (λ s. s.now) word.entry ≡ Some (codes "true")) }
{
    matches!(word, Some("true"))
}

/// The word `run`, with its options.
pub(crate) fn run_command<'a>(alloc: Global) -> Result<Command<'a>, AllocError>
    ensures shape { IfOk result (λ command. shape_of command ≡ run_shape) }
    ensures local { IfOk result (λ command. (out-Command command).has_globals ≡ false) }
{
    let reported = with_lines(alloc, bare_command(alloc))?;
    let sized = with_sizes(alloc, reported)?;
    with_ways(alloc, sized)
}

/// The command with the options for a report and for what befalls its links.
fn with_lines<'a>(alloc: Global, command: Command<'a>) -> Result<Command<'a>, AllocError>
    requires local { (out-Command command).has_globals ≡ false }
    ensures shape { IfOk result (λ more. shape_of more
        ≡ with_rules (shape_of command.entry) line_rules) }
    ensures local { IfOk result (λ more. (out-Command more).has_globals ≡ false) }
{
    let report = flag(
        alloc,
        "report",
        "Runs until all messages are delivered, and reports",
    );
    let reported = with_option(command, report)?;
    let link = option(alloc, "fail", "K", "Link that is stopped, from 0 [none]");
    let failing = with_option(reported, link)?;
    let noise = option(
        alloc,
        "noise",
        "N",
        "Damages one of N octets, 1 to 10000000 [none]",
    );
    let noisy = with_option(failing, noise)?;
    let seed = option(
        alloc,
        "seed",
        "S",
        "Selects the damaged octets, 0 to 2^32-1 [1]",
    );
    with_option(noisy, seed)
}

/// The command with the options that tell how it runs, and that it's captured.
fn with_ways<'a>(alloc: Global, command: Command<'a>) -> Result<Command<'a>, AllocError>
    requires local { (out-Command command).has_globals ≡ false }
    ensures shape { IfOk result (λ more. shape_of more
        ≡ with_rules (shape_of command.entry) way_rules) }
    ensures local { IfOk result (λ more. (out-Command more).has_globals ≡ false) }
{
    let method = option(alloc, "method", "WORD", "basic or cyclic [basic]");
    let by_method = with_option(command, method)?;
    let turns = option(
        alloc,
        "turns",
        "T",
        "Most turns, 1 to 1000000 [20000, with --report 1000000]",
    );
    let timed = with_option(by_method, turns)?;
    let checkpoint = option(
        alloc,
        "checkpoint",
        "C",
        "Messages between checkpoints, 1 to 1024 [none]",
    );
    let pausing = with_option(timed, checkpoint)?;
    let capture = flag(
        alloc,
        "capture",
        "Writes the units that are sent as pcap, and no line",
    );
    with_option(pausing, capture)
}

/// The word `run` without options.
fn bare_command<'a>(alloc: Global) -> Command<'a>
    ensures shape { shape_of result ≡ new_shape (codes "run") }
    ensures local { (out-Command result).has_globals ≡ false }
{
    Command::new(alloc, "run")
        .about("Runs two banks of sets in threads, with traffic between them")
        .after_help(RUN_PAGE)
        .after_long_help(RUN_HELP)
}

/// The command with the options that tell how much runs.
fn with_sizes<'a>(alloc: Global, command: Command<'a>) -> Result<Command<'a>, AllocError>
    requires local { (out-Command command).has_globals ≡ false }
    ensures shape { IfOk result (λ more. shape_of more
        ≡ with_rules (shape_of command.entry) size_rules) }
    ensures local { IfOk result (λ more. (out-Command more).has_globals ≡ false) }
{
    let sets = option(alloc, "sets", "N", "Sets, 1 to 16 [1]");
    let with_sets = with_option(command, sets)?;
    let links = option(alloc, "links", "L", "Links of each set, 1 to 16 [2]");
    let with_links = with_option(with_sets, links)?;
    let users = option(alloc, "users", "U", "Users of each end a, 1 to 16 [4]");
    let with_users = with_option(with_links, users)?;
    let messages = option(
        alloc,
        "messages",
        "M",
        "Messages of each user, 1 to 1024 [1000]",
    );
    with_option(with_users, messages)
}

/// The command with one option more.
pub(crate) fn with_option<'a>(
    command: Command<'a>,
    option: Arg<'a>,
) -> Result<Command<'a>, AllocError>
    requires local { (out-Command command).has_globals ≡ false }
    requires option { option.global ≡ false }
    ensures shape { IfOk result (λ more. shape_of more
        ≡ with_rules (shape_of command.entry) (rule_of option.entry ∷ [])) }
    ensures local { IfOk result (λ more. (out-Command more).has_globals ≡ false) }
{
    command.arg(option)
}

/// An option that has a value.
fn option<'a>(alloc: Global, name: &'a str, value: &'a str, help: &'a str) -> Arg<'a>
    ensures rule { rule_of result ≡ option_rule name.entry.now }
    ensures local { result.global ≡ false }
{
    Arg::new(alloc, name)
        .long(name)
        .value_name(value)
        .help(help)
}

/// An option that stands there or doesn't.
pub(crate) fn flag<'a>(alloc: Global, name: &'a str, help: &'a str) -> Arg<'a>
    ensures rule { rule_of result ≡ flag_rule name.entry.now }
    ensures local { result.global ≡ false }
{
    Arg::new(alloc, name)
        .long(name)
        .action(ArgAction::SetTrue)
        .help(help)
}
