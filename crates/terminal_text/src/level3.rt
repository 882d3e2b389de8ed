//! What level 3 asked, as it's printed; and a link that it manages from now on, or no more.
ghost use Rattle.std.specs.Prelude.{◌≡◌, ◌<◌, ◌++◌, IfOk, OnOk, codes, decimal, length};
ghost use Rattle.text_forms.specs.declared.asked.Asked.TheVariants.{Activate, Deactivate};
ghost use Rattle.terminal_text.specs.Answers.{Does, IsManaged};
ghost use Rattle.terminal_text.specs.Showing.{answer_words, deed_lines, deeds_lines, in_emergency, is_command, level3_line, what_name};

use super::fault::Want;
use super::forgetting::ForgettingBench;
use super::stopping::note_deeds;
use l3_link::Ask;
use set_events::Refusal;
use std::alloc::{AllocError, Global};
use term_managed::{Deed, ManageFault};
use text_base::push_number;

/// Level 3 manages this link from now on: what it asked, and the answer.
pub(crate) fn activate(
    alloc: Global,
    bench: &mut ForgettingBench,
    link: u8,
) -> Result<Vec<u8>, Want>
    requires { link < length bench.old.managed.bench.links }
    ensures { IfOk result (λ text. Does (Activate link) bench.old text.items bench.new) }
{
    let turns = bench.managed.bench().counts(link).turns;
    match bench.managed.activate(link) {
        Ok(deeds) => write_managed(alloc, bench, link, turns, &deeds),
        Err(ManageFault::AlreadySo) => Ok(Vec::from_slice(alloc, b"refused 9\n")?),
        Err(ManageFault::Set { .. }) => Err(Want),
    }
}

/// Level 3 manages this link no more: what it asked, and the answer.
pub(crate) fn deactivate(
    alloc: Global,
    bench: &mut ForgettingBench,
    link: u8,
) -> Result<Vec<u8>, Want>
    requires { link < length bench.old.managed.bench.links }
    ensures { IfOk result (λ text. Does (Deactivate link) bench.old text.items bench.new) }
{
    let turns = bench.managed.bench().counts(link).turns;
    match bench.managed.deactivate(link) {
        Ok(deeds) => write_managed(alloc, bench, link, turns, &deeds),
        Err(ManageFault::AlreadySo) => Ok(Vec::from_slice(alloc, b"refused 9\n")?),
        Err(ManageFault::Set { .. }) => Err(Want),
    }
}

/// The lines of what was asked, where streams run then, and that it was done; who told the link to stop is kept.
fn write_managed(
    alloc: Global,
    bench: &mut ForgettingBench,
    link: u8,
    turns: u64,
    deeds: &[Deed],
) -> Result<Vec<u8>, Want>
    requires { link < 16 }
    ensures { IfOk result (λ text. IsManaged link turns deeds.now bench.old text.items bench.new) }
{
    note_deeds(&mut bench.watches, link, deeds);
    let mut text = Vec::new(alloc);
    push_deeds(&mut text, link, turns, deeds)?;
    text.extend_from_slice(&bench.tell_moves(alloc, turns)?)?;
    text.extend_from_slice(b"done\n")?;
    Ok(text)
}

/// Adds the lines of what was asked behind the turn of this number.
pub(crate) fn push_deeds(
    out: &mut Vec<u8>,
    link: u8,
    turn: u64,
    deeds: &[Deed],
) -> Result<(), AllocError>
    ensures { OnOk result (out.new.items ≡ out.old.items ++ deeds_lines link turn deeds.now) }
{
    for deed in deeds {
        push_deed(out, link, turn, deed)?;
    }
    Ok(())
}

/// Adds the lines of a thing that was asked: an emergency start is two commands.
fn push_deed(out: &mut Vec<u8>, link: u8, turn: u64, deed: &Deed) -> Result<(), AllocError>
    ensures { OnOk result (out.new.items ≡ out.old.items ++ deed_lines link turn deed.now) }
{
    let answer = write_answer_to(*out.allocator(), deed.ask, deed.refused)?;
    if in_emergency(deed.ask) {
        push_line(out, link, turn, "emergency", &answer)?;
    }
    push_line(out, link, turn, name_of(deed.ask), &answer)
}

/// Adds the line of one thing that was asked.
fn push_line(
    out: &mut Vec<u8>,
    link: u8,
    turn: u64,
    what: &str,
    answer: &[u8],
) -> Result<(), AllocError>
    ensures { OnOk result (out.new.items ≡ out.old.items ++ level3_line link turn what.now answer.now) }
{
    push_whose(out, link)?;
    out.extend_from_slice(what.as_bytes())?;
    out.extend_from_slice(answer)?;
    push_when(out, turn)
}

/// Adds of which link it was asked.
fn push_whose(out: &mut Vec<u8>, link: u8) -> Result<(), AllocError>
    ensures { OnOk result (out.new.items ≡ out.old.items ++ (codes "level3 " ++ (decimal link ++ codes " "))) }
{
    out.extend_from_slice(b"level3 ")?;
    push_number(out, u64::from(link))?;
    out.extend_from_slice(b" ")
}

/// Adds behind which turn it was asked.
fn push_when(out: &mut Vec<u8>, turn: u64) -> Result<(), AllocError>
    ensures { OnOk result (out.new.items ≡ out.old.items ++ (codes " turn=" ++ (decimal turn ++ codes "\n"))) }
{
    out.extend_from_slice(b" turn=")?;
    push_number(out, turn)?;
    out.extend_from_slice(b"\n")
}

/// What was answered; that a command was done isn't told.
fn write_answer_to(alloc: Global, ask: Ask, refused: Option<Refusal>) -> Result<Vec<u8>, AllocError>
    ensures { IfOk result (λ text. text.items ≡ answer_words ask refused) }
{
    match refused {
        None if is_command(ask) => Ok(Vec::new(alloc)),
        None => Vec::from_slice(alloc, b" done"),
        Some(why) => {
            let number = why.number();
            Ok(format!(in alloc; " refused {number}")?.into_bytes())
        }
    }
}

/// Whether it's a command, and no event.
fn is_command(ask: Ask) -> bool
    ensures { result ≡ is_command ask }
{
    matches!(ask, Ask::Rise { .. } | Ask::Emergency | Ask::Stop)
}

/// Whether the link is to start in an emergency.
fn in_emergency(ask: Ask) -> bool
    ensures { result ≡ in_emergency ask }
{
    matches!(ask, Ask::Rise { emergency: true })
}

/// The word for what is asked.
fn name_of(ask: Ask) -> &'static str
    ensures { result.now ≡ what_name ask }
{
    match ask {
        Ask::Rise { .. } => "start",
        Ask::Emergency => "emergency",
        Ask::Stop => "stop",
        Ask::Test => "test",
        Ask::Timed => "timed",
        Ask::NoAnswer => "noanswer",
        Ask::Restore => "restore",
        Ask::Redeclare => "redeclare",
        Ask::BackTimeout => "backtimeout",
    }
}
