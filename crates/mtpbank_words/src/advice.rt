//! What is said of words that the program doesn't take, where more can be said than the library does.
ghost use Rattle.std.specs.Prelude.{◌≡◌, ◌++◌, ◌<◌, IfOk, None, OnOk, Some, if◌then◌else◌, length, map, position};
ghost use Rattle.std.specs.Option.{ForSome, option_map};
ghost use Rattle.mtpbank_words.specs.Advice.{advice, behind_advice, command_text, commands, end_text, fits, history_advice, input_advice, input_of, input_text, is_equals, is_flag, is_flag_of, is_known_flag, is_number_in, is_operand, linkless_text, missing_text, name_of, option_name, option_of, option_text, plain, range_text, run_advice, run_usage, title_text, unknown_advice, unknown_text, usage_of, usage_text, value_text, without_flag, word_text};

use std::alloc::{AllocError, Global};
use std::convert::AsStr;
use text_base::{is_word, read_number};

/// The lines with the commands and a word on each, behind another.
const COMMANDS: &[u8] = b"
usage: mtpbank COMMAND
  units     reads the octets of a line as a signalling terminal does
  play      plays a script of two ends
  decode    reads single signal units
  capture   plays a script and writes its units as a pcap file
  ladder    plays a script and draws it as a chart
  audit     checks the history of a link set
  history   plays a script and prints the history of one end
  terminal  drives one end of a link set
  run       runs two banks in threads
manuals: mtpbank --help, mtpbank COMMAND --help";

/// The line with the usage of `run`, behind another.
const RUN_USAGE: &[u8] =
    b"\nusage: mtpbank run [--report] [--fail K] [--noise N] [--seed S] [--sets N] \
[--links L] [--users U] [--messages M] [--method WORD] [--turns T] [--checkpoint C] [--capture]";

/// A subcommand that reads standard input.
#[derive(Clone, Copy, Debug, PartialEq, Eq)]
pub enum Input {
    Units,
    Play,
    Decode,
    Capture,
    Ladder,
    Audit,
    Terminal,
    History,
}

/// An option of `run` that has a value.
#[derive(Clone, Copy, Debug, PartialEq, Eq)]
pub enum RunOption {
    Sets,
    Links,
    Users,
    Messages,
    Fail,
    Method,
    Turns,
    Checkpoint,
    Noise,
    Seed,
}

/// What is said of these words, which the program doesn't take, without the last LF; `None`: what the library says is all.
pub(crate) fn advise<S: AsStr>(alloc: Global, words: &[S]) -> Result<Option<Vec<u8>>, AllocError>
    ensures { IfOk result (λ said. option_map (λ text. text.items) said
        ≡ advice (map S.text words.now)) }
{
    let [name, others @ ..] = words else {
        return Ok(Some(say_missing(alloc)?));
    };
    let name = name.as_str().as_bytes();
    if is_word(name, b"run") {
        return advise_run(alloc, others);
    }
    if is_word(name, b"help") {
        return Ok(None);
    }
    match find_input(name) {
        Some(Input::History) => advise_history(alloc, others),
        Some(Input::Decode) => advise_input(
            alloc,
            Input::Decode,
            skip_flag(Input::Decode, skip_flag(Input::Decode, others)),
        ),
        Some(Input::Terminal) => advise_input(
            alloc,
            Input::Terminal,
            skip_flag(Input::Terminal, skip_flag(Input::Terminal, others)),
        ),
        Some(input) => advise_input(alloc, input, skip_flag(input, others)),
        None => Ok(Some(say_command(alloc, name)?)),
    }
}

/// That there is no command, and which there are.
fn say_missing(alloc: Global) -> Result<Vec<u8>, AllocError>
    ensures { IfOk result (λ text. text.items ≡ missing_text) }
{
    let mut text = Vec::from_slice(alloc, b"mtpbank: a command is missing")?;
    push_commands(&mut text)?;
    Ok(text)
}

/// That the word is no command, and which there are.
fn say_command(alloc: Global, word: &[u8]) -> Result<Vec<u8>, AllocError>
    ensures { IfOk result (λ text. text.items ≡ command_text word.now) }
{
    let mut text = Vec::from_slice(alloc, b"mtpbank: ")?;
    push_shown(&mut text, word)?;
    text.extend_from_slice(b" isn't a command")?;
    push_commands(&mut text)?;
    Ok(text)
}

/// Adds the lines with the commands.
fn push_commands(text: &mut Vec<u8>) -> Result<(), AllocError>
    ensures { OnOk result (text.new.items ≡ text.old.items ++ commands) }
{
    text.extend_from_slice(COMMANDS)
}

/// The subcommand of this name that reads standard input.
fn find_input(name: &[u8]) -> Option<Input>
    ensures { result ≡ input_of name.now }
{
    if is_word(name, b"units") {
        Some(Input::Units)
    } else if is_word(name, b"play") {
        Some(Input::Play)
    } else if is_word(name, b"decode") {
        Some(Input::Decode)
    } else if is_word(name, b"capture") {
        Some(Input::Capture)
    } else if is_word(name, b"ladder") {
        Some(Input::Ladder)
    } else if is_word(name, b"audit") {
        Some(Input::Audit)
    } else if is_word(name, b"terminal") {
        Some(Input::Terminal)
    } else if is_word(name, b"history") {
        Some(Input::History)
    } else {
        None
    }
}

/// The subcommand's name.
fn title(input: Input) -> &'static [u8]
    ensures { result.now ≡ name_of input }
{
    match input {
        Input::Units => b"units",
        Input::Play => b"play",
        Input::Decode => b"decode",
        Input::Capture => b"capture",
        Input::Ladder => b"ladder",
        Input::Audit => b"audit",
        Input::Terminal => b"terminal",
        Input::History => b"history",
    }
}

/// How the words of this subcommand are written.
fn usage(input: Input) -> &'static [u8]
    ensures { result.now ≡ usage_of input }
{
    match input {
        Input::Play => b"play [--explain]",
        Input::Decode => b"decode [--wide] [--explain]",
        Input::Capture => b"capture [--explain]",
        Input::Ladder => b"ladder [--explain]",
        Input::Audit => b"audit [--explain]",
        Input::Terminal => b"terminal [--keep] [--explain]",
        Input::History => b"history [--explain] END",
        _ => title(input),
    }
}

/// Whether the word stands for a thing, and is no option.
fn is_thing(word: &[u8]) -> bool
    ensures { result ≡ is_operand word.now }
{
    match word {
        [] => true,
        [first, ..] => *first != b'-',
    }
}

/// Whether this is a flag of the subcommand.
fn is_flag_of(input: Input, word: &[u8]) -> bool
    ensures { result ≡ is_flag_of input word.now }
{
    match input {
        Input::Units => false,
        Input::Decode => is_word(word, b"--wide") || is_word(word, b"--explain"),
        Input::Terminal => is_word(word, b"--keep") || is_word(word, b"--explain"),
        _ => is_word(word, b"--explain"),
    }
}

/// The words behind a flag of the subcommand, where it stands first.
fn skip_flag<S: AsStr>(input: Input, words: &[S]) -> &[S]
    ensures { map S.text result.now ≡ without_flag input (map S.text words.now) }
{
    match words {
        [first, others @ ..] if is_flag_of(input, first.as_str().as_bytes()) => others,
        _ => words,
    }
}

/// What is said where the first of these words is one that a subcommand which reads standard input doesn't take.
fn advise_input<S: AsStr>(
    alloc: Global,
    input: Input,
    words: &[S],
) -> Result<Option<Vec<u8>>, AllocError>
    ensures { IfOk result (λ said. option_map (λ text. text.items) said
        ≡ input_advice input (map S.text words.now)) }
{
    match words {
        [] => Ok(None),
        [first, ..] if is_thing(first.as_str().as_bytes()) => Ok(Some(say_input(alloc, input)?)),
        [first, ..] => advise_unknown(alloc, input, first.as_str().as_bytes()),
    }
}

/// What is said of a word that begins with `-` and that the subcommand doesn't take.
fn advise_unknown(alloc: Global, input: Input, word: &[u8]) -> Result<Option<Vec<u8>>, AllocError>
    ensures { IfOk result (λ said. option_map (λ text. text.items) said ≡ unknown_advice input word.now) }
{
    if is_known_flag(word) {
        return Ok(None);
    }
    Ok(Some(say_unknown(alloc, input, word)?))
}

/// Whether this is a flag of some subcommand, or what ends options.
fn is_known_flag(word: &[u8]) -> bool
    ensures { result ≡ is_known_flag word.now }
{
    is_word(word, b"--explain")
        || is_word(word, b"--wide")
        || is_word(word, b"--keep")
        || is_word(word, b"--")
}

/// That the word is no option of this subcommand.
fn say_unknown(alloc: Global, input: Input, word: &[u8]) -> Result<Vec<u8>, AllocError>
    ensures { IfOk result (λ text. text.items ≡ unknown_text input word.now) }
{
    let mut text = begin_with_title(alloc, input)?;
    push_shown(&mut text, word)?;
    text.extend_from_slice(b" isn't an option\nusage: mtpbank ")?;
    push_usage(&mut text, input)?;
    Ok(text)
}

/// A text that begins with the subcommand's name.
fn begin_with_title(alloc: Global, input: Input) -> Result<Vec<u8>, AllocError>
    ensures { IfOk result (λ text. text.items ≡ title_text input) }
{
    let mut text = Vec::from_slice(alloc, b"mtpbank ")?;
    text.extend_from_slice(title(input))?;
    text.extend_from_slice(b": ")?;
    Ok(text)
}

/// Adds how the words of this subcommand are written, and its input.
fn push_usage(text: &mut Vec<u8>, input: Input) -> Result<(), AllocError>
    ensures { OnOk result (text.new.items ≡ text.old.items ++ usage_text input) }
{
    text.extend_from_slice(usage(input))?;
    text.extend_from_slice(b" < FILE")
}

/// That this subcommand reads standard input.
fn say_input(alloc: Global, input: Input) -> Result<Vec<u8>, AllocError>
    ensures { IfOk result (λ text. text.items ≡ input_text input) }
{
    let mut text = Vec::from_slice(alloc, b"mtpbank ")?;
    text.extend_from_slice(title(input))?;
    text.extend_from_slice(b": reads standard input: mtpbank ")?;
    text.extend_from_slice(usage(input))?;
    text.extend_from_slice(b" < FILE")?;
    Ok(text)
}

/// What is said of the words behind `history`.
fn advise_history<S: AsStr>(alloc: Global, words: &[S]) -> Result<Option<Vec<u8>>, AllocError>
    ensures { IfOk result (λ said. option_map (λ text. text.items) said
        ≡ history_advice (map S.text words.now)) }
{
    match skip_flag(Input::History, words) {
        [] => Ok(None),
        [end, others @ ..] => advise_behind(
            alloc,
            end.as_str().as_bytes(),
            skip_flag(Input::History, others),
        ),
    }
}

/// What is said of the end, or else of the words behind it.
fn advise_behind<S: AsStr>(
    alloc: Global,
    end: &[u8],
    words: &[S],
) -> Result<Option<Vec<u8>>, AllocError>
    ensures { IfOk result (λ said. option_map (λ text. text.items) said
        ≡ behind_advice end.now (map S.text words.now)) }
{
    if words.is_empty() {
        return advise_end(alloc, end);
    }
    advise_input(alloc, Input::History, words)
}

/// What is said of an end that is none.
fn advise_end(alloc: Global, word: &[u8]) -> Result<Option<Vec<u8>>, AllocError>
    ensures { IfOk result (λ said. option_map (λ text. text.items) said ≡ end_text word.now) }
{
    if !is_thing(word) {
        return advise_unknown(alloc, Input::History, word);
    }
    if is_word(word, b"a") || is_word(word, b"b") {
        return Ok(None);
    }
    let mut text = Vec::from_slice(alloc, b"mtpbank history: ")?;
    push_shown(&mut text, word)?;
    text.extend_from_slice(
        b" isn't an end, a or b\nusage: mtpbank history [--explain] END < FILE",
    )?;
    Ok(Some(text))
}

/// What is said of the first of the words behind `run` that is wrong.
fn advise_run<S: AsStr>(alloc: Global, words: &[S]) -> Result<Option<Vec<u8>>, AllocError>
    ensures { IfOk result (λ said. option_map (λ text. text.items) said
        ≡ run_advice None (map S.text words.now)) }
{
    let mut option = None;
    let mut left = words;
    while let [word, others @ ..] = left {
        let word = word.as_str().as_bytes();
        match option {
            Some(it) if takes(it, word) => option = None,
            Some(it) => return Ok(Some(say_value(alloc, it, word)?)),
            None => match find_option(word) {
                Some(it) => option = Some(it),
                None => {
                    if let Some(said) = advise_word(alloc, word)? {
                        return Ok(Some(said));
                    }
                }
            },
        }
        left = others;
    }
    Ok(None)
}

/// What is said of a word that is no option with its value behind it.
fn advise_word(alloc: Global, word: &[u8]) -> Result<Option<Vec<u8>>, AllocError>
    ensures { IfOk result (λ said. option_map (λ text. text.items) said ≡ word_text word.now) }
{
    let Some(place) = find_equals(word) else {
        return if is_flag(word) {
            Ok(None)
        } else {
            Ok(Some(say_word(alloc, word)?))
        };
    };
    match find_option(&word[..place]) {
        Some(option) => advise_value(alloc, option, &word[place + 1..]),
        None => Ok(Some(say_word(alloc, word)?)),
    }
}

/// What is said of this value of an option.
fn advise_value(
    alloc: Global,
    option: RunOption,
    value: &[u8],
) -> Result<Option<Vec<u8>>, AllocError>
    ensures { IfOk result (λ said. option_map (λ text. text.items) said
        ≡ (if fits option value.now then None else Some (value_text option value.now))) }
{
    if takes(option, value) {
        return Ok(None);
    }
    Ok(Some(say_value(alloc, option, value)?))
}

/// Whether the word is a flag of `run`.
fn is_flag(word: &[u8]) -> bool
    ensures { result ≡ is_flag word.now }
{
    is_word(word, b"--report") || is_word(word, b"--capture")
}

/// The place of the first `=`.
fn find_equals(word: &[u8]) -> Option<usize>
    ensures place { result ≡ position is_equals word.now }
    ensures within { ForSome result (λ place. place < length word.now) }
{
    word.iter().position(|c| *c == b'=')
}

/// The option of this name.
fn find_option(word: &[u8]) -> Option<RunOption>
    ensures { result ≡ option_of word.now }
{
    if is_word(word, b"--sets") {
        Some(RunOption::Sets)
    } else if is_word(word, b"--links") {
        Some(RunOption::Links)
    } else if is_word(word, b"--users") {
        Some(RunOption::Users)
    } else if is_word(word, b"--messages") {
        Some(RunOption::Messages)
    } else if is_word(word, b"--fail") {
        Some(RunOption::Fail)
    } else if is_word(word, b"--method") {
        Some(RunOption::Method)
    } else if is_word(word, b"--turns") {
        Some(RunOption::Turns)
    } else if is_word(word, b"--checkpoint") {
        Some(RunOption::Checkpoint)
    } else if is_word(word, b"--noise") {
        Some(RunOption::Noise)
    } else if is_word(word, b"--seed") {
        Some(RunOption::Seed)
    } else {
        None
    }
}

/// How the option is written.
fn name(option: RunOption) -> &'static [u8]
    ensures { result.now ≡ option_name option }
{
    match option {
        RunOption::Sets => b"--sets",
        RunOption::Links => b"--links",
        RunOption::Users => b"--users",
        RunOption::Messages => b"--messages",
        RunOption::Fail => b"--fail",
        RunOption::Method => b"--method",
        RunOption::Turns => b"--turns",
        RunOption::Checkpoint => b"--checkpoint",
        RunOption::Noise => b"--noise",
        RunOption::Seed => b"--seed",
    }
}

/// What its value can be.
fn range(option: RunOption) -> &'static [u8]
    ensures { result.now ≡ range_text option }
{
    match option {
        RunOption::Sets => b"a number from 1 to 16",
        RunOption::Links => b"a number from 1 to 16",
        RunOption::Users => b"a number from 1 to 16",
        RunOption::Messages => b"a number from 1 to 1024",
        RunOption::Fail => b"the number of a link, 0 to 15",
        RunOption::Method => b"basic or cyclic",
        RunOption::Turns => b"a number from 1 to 1000000",
        RunOption::Checkpoint => b"a number from 1 to 1024",
        RunOption::Noise => b"a number from 1 to 10000000",
        RunOption::Seed => b"a number from 0 to 4294967295",
    }
}

/// Whether the option can have this value.
fn takes(option: RunOption, value: &[u8]) -> bool
    ensures { result ≡ fits option value.now }
{
    match option {
        RunOption::Sets => is_within(1, 16, value),
        RunOption::Links => is_within(1, 16, value),
        RunOption::Users => is_within(1, 16, value),
        RunOption::Messages => is_within(1, 1_024, value),
        RunOption::Fail => is_within(0, 15, value),
        RunOption::Method => is_word(value, b"basic") || is_word(value, b"cyclic"),
        RunOption::Turns => is_within(1, 1_000_000, value),
        RunOption::Checkpoint => is_within(1, 1_024, value),
        RunOption::Noise => is_within(1, 10_000_000, value),
        RunOption::Seed => is_within(0, 4_294_967_295, value),
    }
}

/// Whether the word is a number from `least` to `most`.
fn is_within(least: u64, most: u64, word: &[u8]) -> bool
    ensures { result ≡ is_number_in least most word.now }
{
    match read_number(word) {
        Some(number) => least <= number && number <= most,
        None => false,
    }
}

/// That the value isn't one that the option can have.
fn say_value(alloc: Global, option: RunOption, value: &[u8]) -> Result<Vec<u8>, AllocError>
    ensures { IfOk result (λ text. text.items ≡ value_text option value.now) }
{
    let mut text = Vec::from_slice(alloc, b"mtpbank run: ")?;
    text.extend_from_slice(name(option))?;
    text.push(b' ')?;
    push_shown(&mut text, value)?;
    text.extend_from_slice(b" isn't ")?;
    text.extend_from_slice(range(option))?;
    push_run_usage(&mut text)?;
    Ok(text)
}

/// What is said where link `fail` is to fail of so many links, without the last LF.
pub fn say_linkless(alloc: Global, fail: u8, links: u8) -> Result<Vec<u8>, AllocError>
    ensures { IfOk result (λ text. text.items ≡ linkless_text fail links) }
{
    let told = format!(in alloc;
        "fault link\nmtpbank run: --fail {fail} isn't a link: they count from 0, and --links is {links}"
    )?;
    let mut text = told.into_bytes();
    push_run_usage(&mut text)?;
    Ok(text)
}

/// That the word is no option.
fn say_word(alloc: Global, word: &[u8]) -> Result<Vec<u8>, AllocError>
    ensures { IfOk result (λ text. text.items ≡ option_text word.now) }
{
    let mut text = Vec::from_slice(alloc, b"mtpbank run: ")?;
    push_shown(&mut text, word)?;
    text.extend_from_slice(b" isn't an option")?;
    push_run_usage(&mut text)?;
    Ok(text)
}

/// Adds the line with the usage of `run`.
fn push_run_usage(text: &mut Vec<u8>) -> Result<(), AllocError>
    ensures { OnOk result (text.new.items ≡ text.old.items ++ run_usage) }
{
    text.extend_from_slice(RUN_USAGE)
}

/// Adds a word as it's shown on one line: a dot for each control character.
fn push_shown(text: &mut Vec<u8>, word: &[u8]) -> Result<(), AllocError>
    ensures { OnOk result (text.new.items ≡ text.old.items ++ map plain word.now) }
{
    for c in word {
        text.push(shown(*c))?;
    }
    Ok(())
}

/// A dot for a control character.
fn shown(c: u8) -> u8
    ensures { result ≡ plain c }
{
    if c < 32 || c == 127 { b'.' } else { c }
}
