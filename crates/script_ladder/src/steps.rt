//! `mtpbank ladder`: a script as a chart.
ghost use Rattle.std.specs.Prelude.{◌≡◌, ◌≤◌, ◌^◌, [], codes, length, slice_get, IfOk, IfSome, None, OnOk};
ghost use Rattle.text_base.specs.Printing.{Prints, FailsByDevices};
ghost use Rattle.text_lines.specs.Explaining.{fault_alone};
ghost use Rattle.pair_model.specs.World.{World as ModelWorld, other};
ghost use Rattle.script_ladder.specs.Ladder.{IsExplainedLadder, IsLadder, affected, arrived_row, change_rows, effect_rows, end_of, far_words, first_row};
ghost use Rattle.script_ladder.specs.Ladder.{forged_row, given_up, heading, link_at_stake, link_words, named_link, past_of, report_in, row_text};
ghost use Rattle.script_ladder.specs.Ladder.{row_at, rows_with, sent_row, sent_in, move_rows, unit_words, unsettled};
ghost use Rattle.script_ladder.specs.Notes.{IsBefore, IsNote, kept};

use super::cells::{find_report, write_event, write_link, write_plain};
use super::diverted::{find_stood, write_diverted};
use super::effects::{find_changed_link, write_changes, write_heard};
use super::rows::{draw_arriving, draw_forged, draw_going, draw_losing, write_row, write_row_at};
use super::under_way::write_under_way;
use super::units::{find_carried, write_any, write_sent_unit, write_unit};
use l2_units::{Profile, Unit, UnitRef, copy_of_unit};
use pair_steps::{Showing, ShownRef, Step};
use pair_world::{End, Line, Move, World};
use script_walk::{Account, Explained, ScriptFault, tell_explained, tell_script, world_profile};
use set_core::SetCore;
use set_events::{AnswerRef, Counts, Event, Report};
use std::alloc::{AllocError, Global};
use text_base::{Fault, Sink, Source};
use text_units::write_both;

/// The chart of a script.
struct Chart;

/// What the rows of a move want of the world before it.
#[derive(Drop)]
pub(crate) struct Before {
    /// The unit that the move is about.
    unit: Option<Unit>,
    /// The link that the move could settle at its end.
    link: Option<u8>,
    /// All messages that stand on that link.
    stood: Vec<u64>,
    /// How the messages of end a stood.
    a: Counts,
    /// How those of end b stood.
    b: Counts,
}

impl Account for Chart {
    /// Memory may have been refused for it.
    type Note = Result<Before, AllocError>;

    ghost use Rattle.script_ladder.specs.Ladder.{ladder_told};
    ghost use Rattle.script_ladder.specs.Notes.{IsNote};

    ghost told = { ladder_told };

    ghost is_note = { IsNote };

    fn note(alloc: Global, world: &World, next: &Move) -> Result<Before, AllocError> {
        keep_before(alloc, world, next)
    }

    fn tell_opening(alloc: Global, _world: &World, out: &mut Vec<u8>) -> Result<(), AllocError> {
        out.extend_from_slice(&write_heading(alloc)?)
    }

    fn tell_step(
        alloc: Global,
        number: u64,
        note: Result<Before, AllocError>,
        next: &Move,
        shown: &Showing,
        world: &World,
        out: &mut Vec<u8>,
    ) -> Result<(), AllocError> {
        let before = note?;
        out.extend_from_slice(&write_move(alloc, number, &before, next, shown, world)?)
    }

    fn tell_end(
        _alloc: Global,
        _world: &Option<World>,
        _out: &mut Vec<u8>,
    ) -> Result<(), AllocError> {
        Ok(())
    }
}

/// Plays the script that the source gives, and draws what happens.
///
/// Ends with the first fault; what was drawn before it stays drawn. An input of more than 2^24 octets ends with
/// [`Fault::Long`], unless another fault comes before.
pub fn ladder<S: Source, W: Sink>(
    alloc: Global,
    source: &mut S,
    sink: &mut W,
) -> Result<(), Fault<ScriptFault>>
    ensures text { IfSome (S.left source.old)
        (λ input. Prints result (IsLadder input) (W.written sink.old) (W.written sink.new)) }
    ensures bounded { IfSome (S.left source.old) (λ input. OnOk result (length input ≤ 2 ^ 24)) }
    ensures devices { IfSome (S.left source.old)
        (FailsByDevices (2 ^ 24) result (S.failures source.old) (S.failures source.new)
        (W.failures sink.old) (W.failures sink.new)) }
{
    tell_script::<Chart, S, W>(alloc, source, sink)
}

/// Draws the same chart, and explains the line that ends the script with a fault, as [`tell_explained`] does.
pub fn ladder_explained<S: Source, W: Sink>(
    alloc: Global,
    source: &mut S,
    sink: &mut W,
) -> Result<(), Fault<Explained<ScriptFault>>>
    ensures text { IfSome (S.left source.old)
        (λ input. Prints result (IsExplainedLadder input)
        (W.written sink.old) (W.written sink.new)) }
    ensures same { IfSome (S.left source.old)
        (λ input. Prints (fault_alone result) (IsLadder input)
        (W.written sink.old) (W.written sink.new)) }
    ensures bounded { IfSome (S.left source.old) (λ input. OnOk result (length input ≤ 2 ^ 24)) }
    ensures devices { IfSome (S.left source.old)
        (FailsByDevices (2 ^ 24) result (S.failures source.old) (S.failures source.new)
        (W.failures sink.old) (W.failures sink.new)) }
{
    tell_explained::<Chart, S, W>(alloc, source, sink)
}

/// What the rows of a move want of the world before it.
fn keep_before(alloc: Global, world: &World, next: &Move) -> Result<Before, AllocError>
    ensures { IsNote world.now next.now result }
{
    let unit = find_affected(world, next);
    let set = world.core(find_end(next));
    let link = find_unsettled(set, find_named(world_profile(world), next, &unit));
    Ok(Before {
        unit,
        link,
        stood: find_stood(alloc, set, link)?,
        a: world.counts(End::A),
        b: world.counts(End::B),
    })
}

/// The names of the columns.
#[tactic(auto, unfolding(crate::specs::Ladder::heading))]
fn write_heading(alloc: Global) -> Result<Vec<u8>, AllocError>
    ensures { IfOk result (λ row. row.items ≡ heading) }
{
    write_row(alloc, b"line", b"end a", &[], b"under way", &[], b"end b")
}

/// The unit that a move is about, in the world before it.
fn find_affected(world: &World, next: &Move) -> Option<Unit>
    ensures { result ≡ affected world.now next.now }
{
    match next {
        Move::Step(Step::Arrive { end, link }) => world.line(*end, *link).unit(0),
        Move::Step(Step::Lose { end, link, place }) => world.line(*end, *link).unit(*place),
        Move::Step(Step::Inject { unit, .. }) => Some(copy_of_unit(unit)),
        Move::Step(Step::Act { .. } | Step::Emit { .. } | Step::Together { .. })
        | Move::Rise { .. }
        | Move::Fill { .. } => None,
    }
}

/// The link that a move could settle, as it's given up or the unit's order is about it.
fn find_named(profile: Profile, next: &Move, unit: &Option<Unit>) -> Option<u8>
    ensures { result ≡ named_link profile next.now unit.now }
{
    match next {
        Move::Step(Step::Act { event, .. }) => find_given_up(event),
        Move::Step(Step::Arrive { .. } | Step::Inject { .. }) => {
            find_changed_link(find_carried(profile, unit))
        }
        Move::Step(Step::Emit { .. } | Step::Lose { .. } | Step::Together { .. })
        | Move::Rise { .. }
        | Move::Fill { .. } => None,
    }
}

/// The link whose changeover an event gives up.
fn find_given_up(event: &Event) -> Option<u8>
    ensures { result ≡ given_up event.now }
{
    match event {
        Event::NoAnswer { link } | Event::Timed { link } => Some(*link),
        _ => None,
    }
}

/// This link, if it hasn't settled.
fn find_unsettled(set: &SetCore, link: Option<u8>) -> Option<u8>
    ensures { result ≡ unsettled set.now.state link }
{
    match link {
        Some(link) if !set.is_settled(link) => Some(link),
        _ => None,
    }
}

/// The rows of a move.
#[tactic(auto, unfolding(crate::specs::Ladder::move_rows))]
fn write_move(
    alloc: Global,
    number: u64,
    note: &Before,
    next: &Move,
    shown: &Showing,
    world: &World,
) -> Result<Vec<u8>, AllocError>
    ensures { (before : ModelWorld) → IsBefore before next.now note.now
        → IfOk result (λ rows. rows.items ≡ move_rows number before next.now shown.now world.now) }
{
    let number = format!(in alloc; "{number}")?.into_bytes();
    write_rows(
        alloc,
        &write_under_way(alloc, world)?,
        &number,
        note,
        next,
        shown,
        world,
    )
}

/// The rows of a move, with what is under way after it.
fn write_rows(
    alloc: Global,
    under_way: &[u8],
    number: &[u8],
    note: &Before,
    next: &Move,
    shown: &Showing,
    world: &World,
) -> Result<Vec<u8>, AllocError>
    ensures { (before : ModelWorld) → IsBefore before next.now note.now
        → IfOk result (λ rows. rows.items
        ≡ rows_with under_way.now number.now before next.now shown.now world.now) }
{
    let first = write_first(alloc, number, under_way, &note.unit, next, shown, world)?;
    let effects = write_effects(
        alloc,
        under_way,
        note,
        find_end(next),
        find_report(shown),
        world,
    )?;
    write_both(first, &effects)
}

/// The rows of what a move did.
fn write_effects(
    alloc: Global,
    under_way: &[u8],
    note: &Before,
    end: End,
    report: Option<Report>,
    world: &World,
) -> Result<Vec<u8>, AllocError>
    ensures { IfOk result (λ rows. rows.items
        ≡ effect_rows under_way.now world.now end report (kept note.now)) }
{
    let heard = write_heard(alloc, under_way, world, end, &note.unit, report)?;
    let diverted = write_diverted(alloc, under_way, world, end, note.link, &note.stood)?;
    let changes = write_both_changes(alloc, under_way, note, world)?;
    write_both(heard, &write_both(diverted, &changes)?)
}

/// The rows of the messages that stand aside, or are discarded, at both ends.
fn write_both_changes(
    alloc: Global,
    under_way: &[u8],
    note: &Before,
    world: &World,
) -> Result<Vec<u8>, AllocError>
    ensures { IfOk result (λ rows. rows.items
        ≡ change_rows under_way.now world.now note.now.a note.now.b) }
{
    let at_a = write_changes(alloc, End::A, under_way, note.a, world.counts(End::A))?;
    write_both(
        at_a,
        &write_changes(alloc, End::B, under_way, note.b, world.counts(End::B))?,
    )
}

/// The end that a move is about.
fn find_end(next: &Move) -> End
    ensures { result ≡ end_of next.now }
{
    match next {
        Move::Step(Step::Act { end, .. }) => *end,
        Move::Step(Step::Emit { end, .. }) => *end,
        Move::Step(Step::Arrive { end, .. }) => *end,
        Move::Step(Step::Lose { end, .. }) => *end,
        Move::Step(Step::Inject { end, .. }) => *end,
        Move::Step(Step::Together { .. }) => End::A,
        Move::Rise { end, .. } => *end,
        Move::Fill { end, .. } => *end,
    }
}

/// The end at the other side.
fn find_other(end: End) -> End
    ensures { result ≡ other end }
{
    match end {
        End::A => End::B,
        End::B => End::A,
    }
}

/// The words of a unit that came to the end on the link, if there is one: the other end sent it.
fn write_far(
    alloc: Global,
    world: &World,
    end: End,
    link: u8,
    unit: &Option<Unit>,
) -> Result<Vec<u8>, AllocError>
    ensures { IfOk result (λ words. words.items ≡ far_words world.now end link unit.now) }
{
    write_any(
        alloc,
        world_profile(world),
        world.core(find_other(end)),
        link,
        unit,
    )
}

/// The first row of a move, about this unit.
fn write_first(
    alloc: Global,
    number: &[u8],
    under_way: &[u8],
    unit: &Option<Unit>,
    next: &Move,
    shown: &Showing,
    world: &World,
) -> Result<Vec<u8>, AllocError>
    ensures { (before : ModelWorld) → unit.now ≡ affected before next.now
        → IfOk result (λ row. row.items
        ≡ first_row number.now under_way.now before next.now shown.now world.now) }
{
    match next {
        Move::Step(Step::Act { end, event }) => {
            write_row_at(
                alloc,
                *end,
                number,
                under_way,
                &[],
                &write_event(alloc, world_profile(world), event, shown)?,
            )
        }
        Move::Step(Step::Emit { end, link }) | Move::Fill { end, link } => {
            write_sent(alloc, number, under_way, world, *end, *link, shown)
        }
        Move::Step(Step::Arrive { end, link }) => {
            write_arrived(
                alloc,
                number,
                under_way,
                *end,
                *link,
                find_report(shown),
                &write_far(alloc, world, *end, *link, unit)?,
            )
        }
        Move::Step(Step::Lose { end, link, .. }) => {
            write_row_at(
                alloc,
                *end,
                number,
                under_way,
                &draw_losing(alloc, *end, *link)?,
                &write_far(alloc, world, *end, *link, unit)?,
            )
        }
        Move::Step(Step::Together { link }) => write_up(alloc, number, under_way, *link),
        Move::Rise { end, link } => write_up_at(alloc, number, under_way, *end, *link),
        Move::Step(Step::Inject { end, link, unit }) => write_forged(
            alloc,
            world_profile(world),
            number,
            under_way,
            *end,
            *link,
            shown,
            unit,
        ),
    }
}

/// A link that comes up at both ends.
fn write_up(alloc: Global, number: &[u8], under_way: &[u8], link: u8) -> Result<Vec<u8>, AllocError>
    ensures { IfOk result (λ row. row.items
        ≡ row_text number.now (link_words [] link (codes " up")) [] under_way.now
        [] (link_words [] link (codes " up"))) }
{
    let words = write_link(alloc, "", link, " up")?;
    write_row(alloc, number, &words, &[], under_way, &[], &words)
}

/// A link that comes up at one end.
fn write_up_at(
    alloc: Global,
    number: &[u8],
    under_way: &[u8],
    end: End,
    link: u8,
) -> Result<Vec<u8>, AllocError>
    ensures { IfOk result (λ row. row.items
        ≡ row_at end number.now under_way.now [] (link_words [] link (codes " up"))) }
{
    let words = write_link(alloc, "", link, " up")?;
    write_row_at(alloc, end, number, under_way, &[], &words)
}

/// A unit that goes out, or the answer.
fn write_sent(
    alloc: Global,
    number: &[u8],
    under_way: &[u8],
    world: &World,
    end: End,
    link: u8,
    shown: &Showing,
) -> Result<Vec<u8>, AllocError>
    ensures { IfOk result (λ row. row.items
        ≡ sent_row number.now under_way.now world.now end link shown.now (sent_in shown.now)) }
{
    match shown.get() {
        ShownRef::Answered(AnswerRef::Sent { unit }) => {
            write_row_at(
                alloc,
                end,
                number,
                under_way,
                &draw_going(alloc, end, link)?,
                &write_sent_unit(alloc, world_profile(world), world.core(end), link, &unit)?,
            )
        }
        _ => write_row_at(
            alloc,
            end,
            number,
            under_way,
            &[],
            &write_plain(alloc, world_profile(world), shown)?,
        ),
    }
}

/// A unit that arrives, or is lost where the link isn't up.
fn write_arrived(
    alloc: Global,
    number: &[u8],
    under_way: &[u8],
    end: End,
    link: u8,
    report: Option<Report>,
    words: &[u8],
) -> Result<Vec<u8>, AllocError>
    ensures { IfOk result (λ row. row.items
        ≡ arrived_row number.now under_way.now end link report words.now) }
{
    let arrow = match report {
        Some(_) => draw_arriving(alloc, end, link)?,
        None => draw_losing(alloc, end, link)?,
    };
    write_row_at(alloc, end, number, under_way, &arrow, words)
}

/// A unit that nobody sent.
fn write_forged(
    alloc: Global,
    profile: Profile,
    number: &[u8],
    under_way: &[u8],
    end: End,
    link: u8,
    shown: &Showing,
    unit: &Unit,
) -> Result<Vec<u8>, AllocError>
    ensures { IfOk result (λ row. row.items
        ≡ forged_row profile number.now under_way.now end link shown.now (report_in shown.now)
        (unit_words profile None unit.now)) }
{
    let words = match find_report(shown) {
        Some(_) => write_unit(alloc, profile, None, &UnitRef::of(unit))?,
        None => write_plain(alloc, profile, shown)?,
    };
    write_row_at(
        alloc,
        end,
        number,
        under_way,
        &draw_forged(alloc, end, link)?,
        &words,
    )
}
