//! The words of `terminal`.
ghost use Rattle.std.specs.Prelude.{◌≡◌, ◌++◌, IfOk, OnOk, codes, decimal};
ghost use Rattle.term_bench.specs.Ends.{AtLink};
ghost use Rattle.terminal_text.specs.Answers.{cause_or_0, counts_words, look_text, phase_name, standing_words};
ghost use Rattle.terminal_text.specs.Looking.{IsLook};
ghost use Rattle.terminal_text.specs.Showing.{cause_words, is_silent, is_quiet, link_line, link_words, message_line, over, own_lines, row_line, stays, stop_words, times_words, turn_lines, word_name};

use super::level3::push_deeds;
use super::stopping::{Stopper, by_words};
use l2_units::Cause;
use std::alloc::{AllocError, Global};
use term_bench::{LinkWord, Phase, Turn, TurnCounts};
use term_managed::ManagedTurn;
use text_base::push_number;

/// The word for how a link stands.
pub(crate) fn name_of(word: LinkWord) -> &'static str
    ensures { result.now ≡ word_name word }
{
    match word {
        LinkWord::Out => "out",
        LinkWord::Unaligned => "unaligned",
        LinkWord::Aligned => "aligned",
        LinkWord::Proving => "proving",
        LinkWord::Ready => "ready",
        LinkWord::Waiting => "waiting",
        LinkWord::Up => "up",
        LinkWord::Paused => "paused",
        LinkWord::Outage => "outage",
    }
}

/// Whether the link stands as before this turn.
#[tactic(auto, using(crate::proofs::Standing::same_words))]
fn stays(turn: &Turn) -> bool
    ensures { result ≡ stays turn.now }
{
    turn.before == turn.after
}

/// Whether a turn shows nothing, but for a unit that it appended.
pub(crate) fn is_silent(heard: &ManagedTurn) -> bool
    ensures { result ≡ is_silent heard.now }
{
    is_quiet(heard.turn()) && heard.deeds().is_empty()
}

/// Whether a turn shows nothing of its own.
fn is_quiet(turn: &Turn) -> bool
    ensures { result ≡ is_quiet turn.now }
{
    turn.messages == 0 && stays(turn)
}

/// Adds the lines of a turn: its own, and of what level 3 asked behind it.
pub(crate) fn push_turn(
    out: &mut Vec<u8>,
    link: u8,
    stopper: Stopper,
    heard: &ManagedTurn,
) -> Result<(), AllocError>
    ensures { OnOk result (out.new.items ≡ out.old.items ++ turn_lines link stopper heard.now) }
{
    let turn = heard.turn();
    push_own(out, link, stopper, turn)?;
    push_deeds(out, link, turn.number, heard.deeds())
}

/// Adds the turn's own lines: a line for each message, and how the link stands where that has changed.
fn push_own(out: &mut Vec<u8>, link: u8, stopper: Stopper, turn: &Turn) -> Result<(), AllocError>
    ensures { OnOk result (out.new.items ≡ out.old.items ++ own_lines link stopper turn.now) }
{
    push_messages(out, link, turn)?;
    if !stays(turn) {
        push_link(out, link, stopper, turn)?;
    }
    Ok(())
}

/// Adds a line for each message that was heard in a turn.
fn push_messages(out: &mut Vec<u8>, link: u8, turn: &Turn) -> Result<(), AllocError>
    ensures { OnOk result (out.new.items ≡ out.old.items ++ over turn.now.messages (message_line link turn.now.number)) }
{
    for _ in 0..turn.messages {
        push_message(out, link, turn.number)?;
    }
    Ok(())
}

/// Adds that a message was heard in the turn of this number.
fn push_message(out: &mut Vec<u8>, link: u8, turn: u64) -> Result<(), AllocError>
    ensures { OnOk result (out.new.items ≡ out.old.items ++ message_line link turn) }
{
    out.extend_from_slice(b"message ")?;
    push_number(out, u64::from(link))?;
    out.extend_from_slice(b" turn=")?;
    push_number(out, turn)?;
    out.extend_from_slice(b"\n")
}

/// Adds how the link stands.
fn push_link(out: &mut Vec<u8>, link: u8, stopper: Stopper, turn: &Turn) -> Result<(), AllocError>
    ensures { OnOk result (out.new.items ≡ out.old.items ++ link_line link stopper turn.now) }
{
    out.extend_from_slice(&write_link(*out.allocator(), link, turn)?)?;
    push_cause(out, turn.after, turn.cause, stopper)?;
    out.extend_from_slice(b"\n")
}

/// How the link stands, and in which turn it came to it.
fn write_link(alloc: Global, link: u8, turn: &Turn) -> Result<Vec<u8>, AllocError>
    ensures { IfOk result (λ text. text.items ≡ link_words link turn.now) }
{
    let name = name_of(turn.after);
    let number = turn.number;
    Ok(format!(in alloc; "link {link} {name} turn={number}")?.into_bytes())
}

/// Adds why a link is out of service, and who stopped it.
fn push_cause(
    out: &mut Vec<u8>,
    word: LinkWord,
    cause: Option<Cause>,
    stopper: Stopper,
) -> Result<(), AllocError>
    ensures { OnOk result (out.new.items ≡ out.old.items ++ cause_words word cause stopper) }
{
    match (word, cause) {
        (LinkWord::Out, Some(cause)) => {
            out.extend_from_slice(b" cause=")?;
            push_number(out, u64::from(cause.number()))?;
            push_stopper(out, cause, stopper)
        }
        _ => Ok(()),
    }
}

/// Adds who stopped a link that is out of service for this cause, if it was stopped.
fn push_stopper(out: &mut Vec<u8>, cause: Cause, stopper: Stopper) -> Result<(), AllocError>
    ensures { OnOk result (out.new.items ≡ out.old.items ++ stop_words cause stopper) }
{
    match cause {
        Cause::Stop => out.extend_from_slice(by_words(stopper).as_bytes()),
        Cause::Suerm
        | Cause::Bsn
        | Cause::Fib
        | Cause::T1
        | Cause::T6
        | Cause::T7
        | Cause::Status
        | Cause::NotPossible => Ok(()),
    }
}

/// Adds the line of a row of units that read so.
pub(crate) fn push_row(
    out: &mut Vec<u8>,
    link: u8,
    words: &[u8],
    times: u64,
) -> Result<(), AllocError>
    ensures { OnOk result (out.new.items ≡ out.old.items ++ row_line link words.now times) }
{
    out.extend_from_slice(&write_sent(*out.allocator(), link)?)?;
    out.extend_from_slice(words)?;
    push_times(out, times)?;
    out.extend_from_slice(b"\n")
}

/// That a unit was sent on this link.
fn write_sent(alloc: Global, link: u8) -> Result<Vec<u8>, AllocError>
    ensures { IfOk result (λ text. text.items ≡ codes "sent " ++ (decimal link ++ codes " ")) }
{
    Ok(format!(in alloc; "sent {link} ")?.into_bytes())
}

/// Adds how many units a row has, where they are several.
fn push_times(out: &mut Vec<u8>, times: u64) -> Result<(), AllocError>
    ensures { OnOk result (out.new.items ≡ out.old.items ++ times_words times) }
{
    if times == 1 {
        return Ok(());
    }
    out.extend_from_slice(b" x")?;
    push_number(out, times)
}

/// The word for where a link is in its life.
fn name_of_phase(phase: Phase) -> &'static str
    ensures { result.now ≡ phase_name phase }
{
    match phase {
        Phase::Settled => "settled",
        Phase::Up => "up",
        Phase::Left => "left",
    }
}

/// The number of a cause, 0 for none.
fn number_of(cause: Option<Cause>) -> u8
    ensures { result ≡ cause_or_0 cause }
{
    match cause {
        Some(cause) => cause.number(),
        None => 0,
    }
}

/// How a link stands.
#[derive(Clone, Copy)]
pub(crate) struct Look {
    pub(crate) link: u8,
    pub(crate) word: LinkWord,
    pub(crate) phase: Phase,
    pub(crate) counts: TurnCounts,
    pub(crate) cause: Option<Cause>,
}

/// The text of how a link stands.
pub(crate) fn write_look(alloc: Global, look: Look) -> Result<Vec<u8>, AllocError>
    ensures { (at : AtLink) → IsLook at look
        → IfOk result (λ text. text.items ≡ look_text look.link look.phase at) }
{
    let mut text = write_standing(alloc, look.link, look.word, look.phase)?;
    text.extend_from_slice(&write_counts(alloc, look.counts)?)?;
    let cause = number_of(look.cause);
    text.extend_from_slice(format!(in alloc; " cause={cause}\n")?.as_bytes())?;
    Ok(text)
}

/// The words for how a link stands.
fn write_standing(
    alloc: Global,
    link: u8,
    word: LinkWord,
    phase: Phase,
) -> Result<Vec<u8>, AllocError>
    ensures { IfOk result (λ text. text.items ≡ standing_words link word phase) }
{
    let name = name_of(word);
    let phase = name_of_phase(phase);
    Ok(format!(in alloc; "look {link} {name} phase={phase}")?.into_bytes())
}

/// What was counted on a link.
fn write_counts(alloc: Global, counts: TurnCounts) -> Result<Vec<u8>, AllocError>
    ensures { IfOk result (λ text. text.items ≡ counts_words counts) }
{
    let TurnCounts {
        turns,
        sent,
        good,
        bad,
        sixteen,
    } = counts;
    let text = format!(in alloc;
        " turns={turns} sent={sent} good={good} bad={bad} sixteen={sixteen}"
    )?;
    Ok(text.into_bytes())
}
