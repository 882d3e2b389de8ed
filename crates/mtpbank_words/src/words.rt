//! The words of the command line.
ghost use Rattle.std.specs.Prelude.{◌≡◌, ◌≢◌, ◌↔◌, ◌∷◌, [], IfErr, IfOk, IsTrue, MatchOption, MatchResult, codes, false, map};
ghost use Rattle.std.specs.Option.{option_map};
ghost use Rattle.clap.specs.Words.{app_of, subcommand_rows_of};
ghost use Rattle.clap.specs.declared.error.ErrorKind.TheVariants.{InvalidSubcommand, InvalidValue, OutOfMemory};
ghost use Rattle.clap.specs.Simple.{new_shape, shape_of};
ghost use Rattle.clap.specs.declared.builder.command.Command.{out-Command};
ghost use Rattle.clap.specs.Values.{kind_of};
ghost use Rattle.mtpbank_words.specs.CommandLine.{program, without_subcommands, decode_shape, explain_rule, history_shape, is_true, script_shape, terminal_shape, words_in};
ghost use Rattle.mtpbank_words.specs.CommandLine.{AreWrong, IsAboutWord, IsAsked, IsFound, IsKind, IsNotFound, IsRefused, IsTold, IsWord, Refuses, SaysAll};
ghost use Rattle.mtpbank_words.specs.RunOptions.{with_rules};

use super::advice::advise;
use super::help::{
    AUDIT_HELP, AUDIT_PAGE, CAPTURE_HELP, CAPTURE_PAGE, DECODE_HELP, DECODE_PAGE, HELP,
    HISTORY_HELP, HISTORY_PAGE, LADDER_HELP, LADDER_PAGE, PLAY_HELP, PLAY_PAGE, PROGRAM_PAGE,
    TERMINAL_HELP, TERMINAL_PAGE, UNITS_HELP, UNITS_PAGE,
};
use super::run_options::{flag, run_command, run_of, with_option};
use super::run_words::{RunWords, Unasked};
use clap::error::ErrorKind;
use clap::{Arg, ArgMatches, Command};
use std::alloc::{AllocError, Global};
use std::convert::AsStr;
use text_base::is_word;

/// What the command line asks for. Where it `explains`, the line that ends the input with a fault is explained.
#[derive(Clone, Copy, Debug, PartialEq, Eq)]
pub enum Words {
    /// Tell what a signalling terminal sees of the digits on standard input.
    Units,
    /// Carry out the script of two ends of a link set on standard input, and tell this of it.
    Script { told: Told, explains: bool },
    /// Tell what the units on standard input, which may be of the wide profile, say.
    Decode { wide: bool, explains: bool },
    /// Tell whether the history on standard input is legal.
    Audit { explains: bool },
    /// Drive one end of a link set, whose lines are elsewhere, by the lines on standard input; where it `keeps` the end, a line
    /// at fault is answered.
    Terminal { keeps: bool, explains: bool },
    /// Run two banks of sets in threads, with traffic between them.
    Run(RunWords),
}

/// What is told of a script.
#[derive(Clone, Copy, Debug, PartialEq, Eq)]
pub enum Told {
    /// The answer of each line.
    Play,
    /// What its ends send, as a file that network analysers read.
    Capture,
    /// What happens at both ends, as a chart.
    Ladder,
    /// The history of end a.
    HistoryOfA,
    /// The history of end b.
    HistoryOfB,
}

/// Why the words ask for nothing.
#[derive(Debug, Drop)]
pub enum WordsFault {
    /// 1: memory is wanted.
    NoMemory,
    /// 2: wrong words, or a question for help or the version.
    Words(clap::Error),
    /// 3: the link that is to fail in a run isn't one of its links, of which there are so many; [`say_linkless`] has the
    /// text.
    Link { fail: u8, links: u8 },
    /// 4: wrong words of which this is said, without the last LF.
    Said(Vec<u8>),
}

impl From<AllocError> for WordsFault {
    ghost use Rattle.std.specs.Prelude.{◌≡◌};
    ghost use Rattle.mtpbank_words.specs.declared.words.WordsFault.TheVariants.{NoMemory};

    ghost from_gives = { λ _ fault. fault ≡ NoMemory };

    fn from(_error: AllocError) -> WordsFault {
        WordsFault::NoMemory
    }
}

/// What these words, those after the program's name, ask for.
///
/// 1 [`WordsFault::NoMemory`] may come before the other; 2 [`WordsFault::Words`] only where `clap`'s definition
/// refuses the words, or where they name no subcommand of the program, no end behind `history`, or behind `run` a number
/// out of its range or no method; 3 [`WordsFault::Link`] only where all these are right, but the link that is to fail
/// isn't below the links. 4 [`WordsFault::Said`] as 2, of words of which more can be said than the library does
/// (`specs/Advice.antt`): no subcommand, or none of the program's; a word behind a subcommand that reads standard input, an
/// end that is none, and behind `run` a value out of its range or a word that is no option. An error about a word, a value
/// or a subcommand comes as 2 only where there is nothing more to say.
pub fn words_of<S: AsStr>(alloc: Global, words: &[S]) -> Result<Words, WordsFault>
    ensures asked { IfOk result (λ found. IsAsked found (map S.text words.now)) }
    ensures refused { IfErr result (λ fault. Refuses fault (map S.text words.now)) }
    ensures advised { IfErr result (λ fault. SaysAll fault (map S.text words.now)) }
{
    let mut command = command(alloc)?;
    match found_by(&mut command, words) {
        Err(WordsFault::Words(error)) => Err(with_advice(alloc, words, error)),
        found => found,
    }
}

/// What is said of these words, for which the library has this error: advice where they are wrong and there is some.
fn with_advice<S: AsStr>(alloc: Global, words: &[S], error: clap::Error) -> WordsFault
    ensures refused { IsRefused (map S.text words.now) → Refuses result (map S.text words.now) }
    ensures advised { SaysAll result (map S.text words.now) }
{
    if !is_about_a_word(error.kind()) {
        return WordsFault::Words(error);
    }
    match advise(alloc, words) {
        Ok(Some(said)) => WordsFault::Said(said),
        Ok(None) => WordsFault::Words(error),
        Err(_) => WordsFault::NoMemory,
    }
}

/// Whether an error of this kind is about a word that isn't taken, a value, or a command.
fn is_about_a_word(kind: ErrorKind) -> bool
    ensures { IsTrue result ↔ IsAboutWord kind }
{
    matches!(
        kind,
        ErrorKind::UnknownArgument
            | ErrorKind::InvalidValue
            | ErrorKind::InvalidSubcommand
            | ErrorKind::MissingSubcommand
    )
}

/// What these arguments ask for: the first is the program's own name, as the system hands it, and the words are all
/// behind it. Faults as [`words_of`]'s, of those words.
pub fn asked_by(alloc: Global, args: &[String]) -> Result<Words, WordsFault>
    ensures asked { IfOk result (λ found. IsAsked found (words_in args.now)) }
    ensures refused { IfErr result (λ fault. Refuses fault (words_in args.now)) }
    ensures advised { IfErr result (λ fault. SaysAll fault (words_in args.now)) }
{
    if args.is_empty() {
        return words_of(alloc, args);
    }
    words_of(alloc, &args[1..])
}

/// What the program's command finds in the words.
fn found_by<'a, S: AsStr>(command: &mut Command<'a>, words: &'a [S]) -> Result<Words, WordsFault>
    requires { app_of command.old ≡ program }
    ensures asked { IfOk result (λ found. IsAsked found (map S.text words.entry.now)) }
    ensures refused { IfErr result (λ fault. Refuses fault (map S.text words.entry.now)) }
{
    match command.try_get_matches_from_mut(words) {
        Ok(matches) => match named(&matches) {
            Ok(asked) => Ok(asked),
            Err(Unasked::Value(said)) => Err(nothing_asked(command, said)),
            Err(Unasked::Link { fail, links }) => Err(WordsFault::Link { fail, links }),
        },
        Err(error) => Err(fault_of(error)),
    }
}

/// What the subcommand that was found asks for.
fn named(matches: &ArgMatches<'_>) -> Result<Words, Unasked>
    ensures { MatchResult result
        (λ asked. IsFound asked (subcommand_rows_of matches.now))
        (λ why. IsNotFound why (subcommand_rows_of matches.now)) }
{
    let Some((name, found)) = matches.subcommand() else {
        return Err(Unasked::Value(NO_END));
    };
    match name {
        "run" => Ok(Words::Run(run_of(found)?)),
        _ => match word_of(
            name,
            found.get_str("END"),
            is_set(found.get_str("wide")),
            is_set(found.get_str("keep")),
            is_set(found.get_str("explain")),
        ) {
            Some(asked) => Ok(asked),
            None => Err(Unasked::Value(NO_END)),
        },
    }
}

/// What is said where the end is neither.
const NO_END: &str = "an end is a or b, as in `mtpbank history a`";

/// What a subcommand of this name asks for, with the word behind it, if there is one, and its flags.
fn word_of(name: &str, end: Option<&str>, wide: bool, keeps: bool, explains: bool) -> Option<Words>
    requires other { name.now ≢ codes "run" }
    ensures { MatchOption result
        ((asked : Words) → IsWord asked name.now (option_map (λ s. s.now) end.entry) wide keeps explains → ⊥)
        (λ asked. IsWord asked name.now (option_map (λ s. s.now) end.entry) wide keeps explains) }
{
    match name {
        "units" => Some(Words::Units),
        "decode" => Some(Words::Decode { wide, explains }),
        "audit" => Some(Words::Audit { explains }),
        "terminal" => Some(Words::Terminal { keeps, explains }),
        _ => match told_of(name, end) {
            Some(told) => Some(Words::Script { told, explains }),
            None => None,
        },
    }
}

/// What a subcommand of this name tells of a script, with the word behind it, if there is one.
fn told_of(name: &str, end: Option<&str>) -> Option<Told>
    ensures { MatchOption result
        ((told : Told) → IsTold told name.now (option_map (λ s. s.now) end.entry) → ⊥)
        (λ told. IsTold told name.now (option_map (λ s. s.now) end.entry)) }
{
    match name {
        "play" => Some(Told::Play),
        "capture" => Some(Told::Capture),
        "ladder" => Some(Told::Ladder),
        "history" => history_of(end),
        _ => None,
    }
}

/// The history that is asked for.
fn history_of(end: Option<&str>) -> Option<Told>
    ensures { MatchOption result
        ((told : Told) → IsTold told (codes "history") (option_map (λ s. s.now) end.entry) → ⊥)
        (λ told. IsTold told (codes "history") (option_map (λ s. s.now) end.entry)) }
{
    match end {
        Some("a") => Some(Told::HistoryOfA),
        Some("b") => Some(Told::HistoryOfB),
        _ => None,
    }
}

/// Whether a flag, which has this for its value, stands there.
fn is_set(word: Option<&str>) -> bool
    ensures { result ≡ is_true (option_map (λ s. s.now) word.entry) }
{
    match word {
        Some(word) => is_word(word.as_bytes(), b"true"),
        None => false,
    }
}

/// The words ask for nothing, since a value is none; this is said.
fn nothing_asked(command: &mut Command<'_>, said: &str) -> WordsFault
    ensures { IsKind InvalidValue result }
{
    match command.error(ErrorKind::InvalidValue, said) {
        Ok(error) => WordsFault::Words(error),
        Err(_) => WordsFault::NoMemory,
    }
}

/// What is answered where a word isn't Unicode: it's no subcommand of the program.
///
/// 1 [`WordsFault::NoMemory`] may come in its place; 2 [`WordsFault::Words`] is of the kind
/// [`ErrorKind::InvalidSubcommand`], so it's told on standard error, with status 2.
pub fn not_unicode(alloc: Global) -> WordsFault
    ensures { IsKind InvalidSubcommand result }
{
    match refusal(alloc) {
        Ok(error) => fault_of(error),
        Err(_) => WordsFault::NoMemory,
    }
}

/// What is said of a word that isn't Unicode.
fn refusal(alloc: Global) -> Result<clap::Error, AllocError>
    ensures { IfOk result (λ error. kind_of error ≡ InvalidSubcommand) }
{
    command(alloc)?.error(ErrorKind::InvalidSubcommand, "a word isn't Unicode")
}

/// Want of memory is no fault of the words; any other error of the library is told as it is.
fn fault_of(error: clap::Error) -> WordsFault
    ensures wrong { AreWrong result → kind_of error ≢ OutOfMemory }
    ensures kind { IsKind (kind_of error) result }
    ensures told { kind_of error ≢ OutOfMemory → result ≡ WordsFault.Words error }
{
    match error.kind() {
        ErrorKind::OutOfMemory => WordsFault::NoMemory,
        _ => WordsFault::Words(error),
    }
}

/// The words that the program knows.
fn command<'a>(alloc: Global) -> Result<Command<'a>, AllocError>
    ensures { IfOk result (λ command. app_of command ≡ program) }
{
    itself(alloc)?
        .subcommand(units_command(alloc))?
        .subcommand(play_command(alloc)?)?
        .subcommand(decode_command(alloc)?)?
        .subcommand(capture_command(alloc)?)?
        .subcommand(ladder_command(alloc)?)?
        .subcommand(audit_command(alloc)?)?
        .subcommand(history_command(alloc)?)?
        .subcommand(terminal_command(alloc)?)?
        .subcommand(run_command(alloc)?)
}

/// The word `units`.
fn units_command<'a>(alloc: Global) -> Command<'a>
    ensures shape { shape_of result ≡ new_shape (codes "units") }
    ensures local { (out-Command result).has_globals ≡ false }
{
    Command::new(alloc, "units")
        .about("Tells what a signalling terminal sees of the octets of a line")
        .after_help(UNITS_PAGE)
        .after_long_help(UNITS_HELP)
}

/// A command that plays a script, and the flag by which it explains a fault.
fn explaining_script<'a>(alloc: Global, command: Command<'a>) -> Result<Command<'a>, AllocError>
    requires local { (out-Command command).has_globals ≡ false }
    ensures shape { IfOk result (λ more. shape_of more
        ≡ with_rules (shape_of command.entry) (explain_rule ∷ [])) }
    ensures local { IfOk result (λ more. (out-Command more).has_globals ≡ false) }
{
    let explain = flag(
        alloc,
        "explain",
        "Explains the line that ends the script with a fault",
    );
    with_option(command, explain)
}

/// A command that reads another input, and that flag.
fn explaining_input<'a>(alloc: Global, command: Command<'a>) -> Result<Command<'a>, AllocError>
    requires local { (out-Command command).has_globals ≡ false }
    ensures shape { IfOk result (λ more. shape_of more
        ≡ with_rules (shape_of command.entry) (explain_rule ∷ [])) }
    ensures local { IfOk result (λ more. (out-Command more).has_globals ≡ false) }
{
    let explain = flag(
        alloc,
        "explain",
        "Explains the line that ends the input with a fault",
    );
    with_option(command, explain)
}

/// The word `play`, and a flag.
fn play_command<'a>(alloc: Global) -> Result<Command<'a>, AllocError>
    ensures shape { IfOk result (λ command. shape_of command ≡ script_shape (codes "play")) }
    ensures local { IfOk result (λ command. (out-Command command).has_globals ≡ false) }
{
    let play = Command::new(alloc, "play")
        .about("Plays a script of two ends of a link set, line by line")
        .after_help(PLAY_PAGE)
        .after_long_help(PLAY_HELP);
    explaining_script(alloc, play)
}

/// The word `decode`, and two flags.
fn decode_command<'a>(alloc: Global) -> Result<Command<'a>, AllocError>
    ensures shape { IfOk result (λ command. shape_of command ≡ decode_shape) }
    ensures local { IfOk result (λ command. (out-Command command).has_globals ≡ false) }
{
    let wide = flag(
        alloc,
        "wide",
        "Reads units of the wide profile, with numbers of 12 bits",
    );
    let decode = Command::new(alloc, "decode")
        .about("Tells what the octets of signal units say, a unit a line")
        .after_help(DECODE_PAGE)
        .after_long_help(DECODE_HELP);
    explaining_input(alloc, with_option(decode, wide)?)
}

/// The word `capture`, and a flag.
fn capture_command<'a>(alloc: Global) -> Result<Command<'a>, AllocError>
    ensures shape { IfOk result (λ command. shape_of command ≡ script_shape (codes "capture")) }
    ensures local { IfOk result (λ command. (out-Command command).has_globals ≡ false) }
{
    let capture = Command::new(alloc, "capture")
        .about("Plays a script, and writes the units that are sent as a pcap file")
        .after_help(CAPTURE_PAGE)
        .after_long_help(CAPTURE_HELP);
    explaining_script(alloc, capture)
}

/// The word `ladder`, and a flag.
fn ladder_command<'a>(alloc: Global) -> Result<Command<'a>, AllocError>
    ensures shape { IfOk result (λ command. shape_of command ≡ script_shape (codes "ladder")) }
    ensures local { IfOk result (λ command. (out-Command command).has_globals ≡ false) }
{
    let ladder = Command::new(alloc, "ladder")
        .about("Plays a script, and draws what happens at both ends as a chart")
        .after_help(LADDER_PAGE)
        .after_long_help(LADDER_HELP);
    explaining_script(alloc, ladder)
}

/// The word `audit`, and a flag.
fn audit_command<'a>(alloc: Global) -> Result<Command<'a>, AllocError>
    ensures shape { IfOk result (λ command. shape_of command ≡ script_shape (codes "audit")) }
    ensures local { IfOk result (λ command. (out-Command command).has_globals ≡ false) }
{
    let audit = Command::new(alloc, "audit")
        .about("Tells whether a history of a link set is legal")
        .after_help(AUDIT_PAGE)
        .after_long_help(AUDIT_HELP);
    explaining_input(alloc, audit)
}

/// The word `terminal`, and two flags.
fn terminal_command<'a>(alloc: Global) -> Result<Command<'a>, AllocError>
    ensures shape { IfOk result (λ command. shape_of command ≡ terminal_shape) }
    ensures local { IfOk result (λ command. (out-Command command).has_globals ≡ false) }
{
    let keep = flag(
        alloc,
        "keep",
        "Answers a line at fault, and goes on behind it",
    );
    let terminal = Command::new(alloc, "terminal")
        .about("Drives one end of a link set, whose lines are yours, line by line")
        .after_help(TERMINAL_PAGE)
        .after_long_help(TERMINAL_HELP);
    explaining_input(alloc, with_option(terminal, keep)?)
}

/// The word `history`, an end behind it, and a flag.
fn history_command<'a>(alloc: Global) -> Result<Command<'a>, AllocError>
    ensures shape { IfOk result (λ command. shape_of command ≡ history_shape) }
    ensures local { IfOk result (λ command. (out-Command command).has_globals ≡ false) }
{
    let end = Arg::new(alloc, "END")
        .required(true)
        .help("Whose history: a or b");
    let history = Command::new(alloc, "history")
        .about("Prints what an end of a script, a or b, was asked and answered")
        .after_help(HISTORY_PAGE)
        .after_long_help(HISTORY_HELP);
    explaining_script(alloc, history.arg(end)?)
}

/// The program's words but for its subcommands.
fn itself<'a>(alloc: Global) -> Result<Command<'a>, AllocError>
    ensures { IfOk result (λ command. app_of command ≡ without_subcommands) }
{
    let named = Command::new(alloc, "mtpbank").bin_name("mtpbank")?;
    Ok(
        named
            .version("0.1.0")
            .about("A proved bank of signalling terminals for Signalling System No. 7")
            .no_binary_name(true)
            .subcommand_required(true)
            .after_help(PROGRAM_PAGE)
            .after_long_help(HELP),
    )
}
