//! What a line asks for, done.
ghost use Rattle.std.specs.Prelude.{◌≡◌, ◌<◌, ◌≤◌, IfOk, length, true};
ghost use Rattle.set_model.specs.History.{IsActor};
ghost use Rattle.text_forms.specs.declared.asked.Asked.TheVariants.{Command as Commanding, Event as Telling, Events as TellingStreams, Forget};
ghost use Rattle.terminal_text.specs.Looking.{IsLookAt};
ghost use Rattle.terminal_text.specs.Answers.{Asks, Checkpoints, CommandsBy, Does, Looks, TellsCounts, TellsHistory, asker, is_below, is_refused, link_in, link_of_event, turn_at};

use super::counting::write_counts;
use super::fault::Want;
use super::forgetting::{Forgetting, ForgettingBench, write_gone};
use super::hearing::{hear_digits, hear_flags, hear_octets, hear_unit};
use super::level3::{activate, deactivate};
use super::moving::Places;
use super::stopping::note_command;
use super::words::{Look, write_look};
use l2_units::Profile;
use link_term::Command;
use set_events::{Actor, Event};
use std::alloc::Global;
use term_bench::Bench;
use term_managed::ManagedBench;
use text_entries::{write_answer, write_entries};
use text_forms::Asked;

/// The link that is asked for, if one is.
pub(crate) fn link_of(asked: &Asked) -> Option<u8>
    ensures { result ≡ link_in asked.now }
{
    match asked {
        Asked::Command { link, .. }
        | Asked::Octets { link, .. }
        | Asked::Hear { link, .. }
        | Asked::Flags { link, .. }
        | Asked::Bits { link, .. }
        | Asked::Look { link }
        | Asked::Activate { link }
        | Asked::Deactivate { link } => Some(*link),
        Asked::Event { event } => link_of_event(event),
        Asked::Checkpoint { .. }
        | Asked::Forget { .. }
        | Asked::Events { .. }
        | Asked::Counts
        | Asked::History => None,
    }
}

/// The link of whose terminal an event is; `None`: it's a user's.
fn link_of_event(event: &Event) -> Option<u8>
    ensures { result ≡ link_of_event event.now }
{
    match event {
        Event::Next { link }
        | Event::Heard { link, .. }
        | Event::Up { link }
        | Event::Down { link }
        | Event::DownBlind { link }
        | Event::NoAnswer { link }
        | Event::Timed { link }
        | Event::Restore { link }
        | Event::Redeclare { link }
        | Event::BackTimeout { link }
        | Event::Test { link } => Some(*link),
        Event::Offer { .. } | Event::Take | Event::Find { .. } => None,
    }
}

/// What a line asks for is done, of a link that is there: what it prints.
pub(crate) fn ask_bench(
    alloc: Global,
    bench: &mut ForgettingBench,
    asked: &Asked,
) -> Result<Vec<u8>, Want>
    requires there { is_below (length bench.old.managed.bench.links) (link_in asked.now) ≡ true }
    requires few { length bench.old.managed.bench.links ≤ 16 }
    ensures { IfOk result (λ text. Does asked.now bench.old text.items bench.new) }
{
    match asked {
        Asked::Command { link, command } => Ok(command_to(alloc, bench, *link, *command)?),
        Asked::Octets { link, octets } => hear_octets(alloc, bench, *link, octets.octets()),
        Asked::Hear { link, unit } => hear_unit(alloc, bench, *link, unit),
        Asked::Flags { link, times } => hear_flags(alloc, bench, *link, *times),
        Asked::Bits { link, bits } => hear_digits(alloc, bench, *link, bits),
        Asked::Event { event } => Ok(ask_told(alloc, bench, event)?),
        Asked::Look { link } => Ok(look(alloc, &mut bench.managed, *link)?),
        Asked::Activate { link } => Ok(activate(alloc, bench, *link)?),
        Asked::Deactivate { link } => Ok(deactivate(alloc, bench, *link)?),
        Asked::Checkpoint { quiet } => Ok(checkpoint(alloc, &mut bench.managed, *quiet)?),
        Asked::Forget { every, told } => forget(alloc, bench, *every, *told),
        Asked::Events { on } => tell_streams(alloc, bench, *on),
        Asked::Counts => Ok(counts(alloc, &mut bench.managed)?),
        Asked::History => Ok(history(alloc, &mut bench.managed)?),
    }
}

/// A command to the terminal of a link: it's kept that the driver told it to stop.
fn command_to(
    alloc: Global,
    bench: &mut ForgettingBench,
    link: u8,
    command: Command,
) -> Result<Vec<u8>, Want>
    requires there { link < length bench.old.managed.bench.links }
    requires few { length bench.old.managed.bench.links ≤ 16 }
    ensures { IfOk result (λ text. Does (Commanding link command) bench.old text.items bench.new) }
{
    note_command(&mut bench.watches, link, command);
    obey(alloc, &mut bench.managed, link, command)
}

/// A command to the terminal of a link.
fn obey(
    alloc: Global,
    bench: &mut ManagedBench,
    link: u8,
    command: Command,
) -> Result<Vec<u8>, Want>
    requires { link < length bench.old.bench.links }
    ensures { IfOk result (λ text. CommandsBy (is_refused command link bench.old.bench) link command bench.old text.items
        bench.new) }
{
    let text: &[u8] = match bench.command(link, command) {
        Ok(()) => b"done\n",
        Err(_) => b"refused 7\n",
    };
    Ok(Vec::from_slice(alloc, text)?)
}

/// An event of a terminal or of user 0, and where streams run then.
fn ask_told(alloc: Global, bench: &mut ForgettingBench, event: &Event) -> Result<Vec<u8>, Want>
    requires actor { IsActor (asker event.now) }
    requires there { is_below (length bench.old.managed.bench.links) (link_of_event event.now) ≡ true }
    ensures { IfOk result (λ text. Does (Telling event.now) bench.old text.items bench.new) }
{
    let turn = turn_at(&bench.managed, link_of_event(event));
    let answer = ask(alloc, &mut bench.managed, event)?;
    let mut text = bench.tell_moves(alloc, turn)?;
    text.extend_from_slice(&answer)?;
    Ok(text)
}

/// How many turns this link took; none is asked for: 0.
fn turn_at(managed: &ManagedBench, link: Option<u8>) -> u64
    requires { is_below (length managed.now.bench.links) link ≡ true }
    ensures { result ≡ turn_at link managed.now }
{
    match link {
        Some(link) => managed.bench().counts(link).turns,
        None => 0,
    }
}

/// From now on it's told where streams run, or no more.
fn tell_streams(alloc: Global, bench: &mut ForgettingBench, on: bool) -> Result<Vec<u8>, Want>
    ensures { IfOk result (λ text. Does (TellingStreams on) bench.old text.items bench.new) }
{
    bench.streams = if on {
        Some(Places::of(alloc, bench.managed.bench().set())?)
    } else {
        None
    };
    Ok(Vec::from_slice(alloc, b"done\n")?)
}

/// An event of a terminal or of user 0.
fn ask(alloc: Global, bench: &mut ManagedBench, event: &Event) -> Result<Vec<u8>, Want>
    requires { IsActor (asker event.now) }
    ensures { IfOk result (λ text. Asks event.now bench.old text.items bench.new) }
{
    let answer = bench.ask(asker(event), event)?;
    Ok(write_answer(alloc, Profile::Narrow, &answer)?)
}

/// Who asks an event.
fn asker(event: &Event) -> Actor
    ensures { result ≡ asker event.now }
{
    match link_of_event(event) {
        Some(link) => Actor::Terminal(link),
        None => Actor::User(0),
    }
}

/// How a link stands.
fn look(alloc: Global, bench: &mut ManagedBench, link: u8) -> Result<Vec<u8>, Want>
    requires { link < length bench.old.bench.links }
    ensures { IfOk result (λ text. Looks link bench.old text.items bench.new) }
{
    Ok(write_look(alloc, look_at(bench.bench(), link))?)
}

/// How a link stands, of this bench.
fn look_at(bench: &Bench, link: u8) -> Look
    requires { link < length bench.now.links }
    ensures { IsLookAt link bench.now result }
{
    Look {
        link,
        word: bench.word(link),
        phase: bench.phase(link),
        counts: bench.counts(link),
        cause: bench.cause(link),
    }
}

/// A checkpoint: the entries that go, unless it's quiet.
fn checkpoint(alloc: Global, bench: &mut ManagedBench, quiet: bool) -> Result<Vec<u8>, Want>
    ensures { IfOk result (λ text. Checkpoints quiet bench.old text.items bench.new) }
{
    let mut text = write_gone(alloc, bench.bench().set(), quiet)?;
    text.extend_from_slice(b"done\n")?;
    bench.checkpoint()?;
    Ok(text)
}

/// A checkpoint behind each so many turns from now on.
fn forget(
    alloc: Global,
    bench: &mut ForgettingBench,
    every: u32,
    told: bool,
) -> Result<Vec<u8>, Want>
    ensures { IfOk result (λ text. Does (Forget every told) bench.old text.items bench.new) }
{
    bench.plan = Forgetting::from_now(every, told);
    Ok(Vec::from_slice(alloc, b"done\n")?)
}

/// How many messages stand where.
fn counts(alloc: Global, bench: &mut ManagedBench) -> Result<Vec<u8>, Want>
    ensures { IfOk result (λ text. TellsCounts bench.old text.items bench.new) }
{
    Ok(write_counts(alloc, bench.bench().set())?)
}

/// The entries since the base.
fn history(alloc: Global, bench: &mut ManagedBench) -> Result<Vec<u8>, Want>
    ensures { IfOk result (λ text. TellsHistory bench.old text.items bench.new) }
{
    let mut text = write_entries(alloc, Profile::Narrow, bench.bench().set().history())?;
    text.extend_from_slice(b"done\n")?;
    Ok(text)
}
