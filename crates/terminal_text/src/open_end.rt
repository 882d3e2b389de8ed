//! A terminal's end under way, and what a line of the input does.
ghost use Rattle.std.specs.Prelude.{◌≡◌, MatchResult, Some, [], length};
ghost use Rattle.text_forms.specs.Opening.{first_line};
ghost use Rattle.text_base.specs.declared.fault.Stop.TheVariants.{Input, Memory};
ghost use Rattle.text_forms.specs.Timers.{timers_of};
ghost use Rattle.text_forms.specs.Times.{times_of};
ghost use Rattle.std.specs.Option.{option_map};
ghost use Rattle.text_forms.specs.declared.early.Early.TheVariants.{Over};
ghost use Rattle.text_forms.specs.Asking.{asked_of};
ghost use Rattle.terminal_text.specs.Answers.{is_below, link_in};
ghost use Rattle.terminal_text.specs.Kept.{StaysAtFault};
ghost use Rattle.terminal_text.specs.Text.{IsOpenedAnew, MayDo, MayDoAt, MayFollow, MayOpen, MayRead, MayTime, TerminalOutcome, timed, told_lengths, told_times};
ghost use Rattle.terminal_text.specs.declared.fault.TerminalFault.TheVariants.{Text};
ghost use Rattle.text_lines.specs.Flaws.{flaw_of};
ghost use Rattle.text_lines.specs.Lines.{prints};
ghost use Rattle.text_lines.specs.Talking.{IsCarriedOut, MayTell};

use super::asking::{ask_bench, link_of};
use super::fault::{TerminalFault, Want};
use super::forgetting::ForgettingBench;
use l2_units::Profile;
use l3_link::Times;
use pair_steps::End as Side;
use std::alloc::Global;
use std::marker::Model;
use term_managed::ManagedBench;
use term_model::Timers;
use text_base::Stop;
use text_entries::write_end;
use text_forms::{
    Asked, Early, USUAL_TIMERS, Unread, read_asked, read_opening, read_timers, read_times,
};
use text_lines::{LineFlaw, TalkText, find_flaw};

/// An end whose set is open.
#[derive(Drop)]
pub(crate) struct End {
    bench: ForgettingBench,
    /// Which lines of lengths may come next.
    early: Early,
}

/// An end under way: the lines of [`terminal`](crate::terminal)'s text, as `text_lines` reads them.
#[derive(Drop)]
pub struct Terminal {
    /// The end, once the first line has opened its set.
    end: Option<End>,
}

impl Model for Terminal {
    ghost use Rattle.std.specs.Prelude.{Option};
    ghost use Rattle.terminal_text.specs.declared.open_end.End.{End as EndState};

    ghost Value = { Option EndState };

    ghost view = { λ terminal. terminal.end };
}

impl Terminal {
    ghost use Rattle.std.specs.Prelude.{◌≡◌, None};
    ghost use Rattle.terminal_text.specs.Kept.{StaysAtFault};
    ghost use Rattle.terminal_text.specs.Text.{MayRead, early_in};
    ghost use Rattle.text_lines.specs.Talking.{IsCarriedOut};

    /// Before the first line.
    pub fn new() -> Terminal
        ensures { result ≡ None }
    {
        Terminal { end: None }
    }

    /// Which lines of lengths may come next; `None` before the first line.
    pub fn early(&self) -> Option<Early>
        ensures { result ≡ early_in self.now }
    {
        match &self.end {
            Some(end) => Some(end.early),
            None => None,
        }
    }

    /// Carries out the line of this number, which is no remark, and appends what it prints. A line at fault leaves the end as
    /// it was.
    pub(crate) fn carry_out(
        &mut self,
        alloc: Global,
        number: u64,
        text: &[u8],
        out: &mut Vec<u8>,
    ) -> Result<(), Stop<TerminalFault>>
        ensures carried { IsCarriedOut result (MayRead number self.old text.now) out.old.items out.new.items self.new }
        ensures stays { StaysAtFault result self.old self.new }
    {
        let Some(end) = &mut self.end else {
            self.end = Some(open(alloc, number, text)?);
            return Ok(());
        };
        follow(alloc, end, number, text, out)
    }
}

impl TalkText for Terminal {
    type Fault = TerminalFault;

    ghost use Rattle.terminal_text.specs.One.{one_outcome};
    ghost use Rattle.terminal_text.specs.Text.{terminal_rules};

    ghost rules = { terminal_rules };

    ghost one_outcome = { one_outcome };

    fn unreadable(number: u64) -> TerminalFault {
        TerminalFault::Text {
            line: number,
            flaw: LineFlaw::Long,
        }
    }

    fn line(
        &mut self,
        alloc: Global,
        number: u64,
        text: &[u8],
        out: &mut Vec<u8>,
    ) -> Result<(), Stop<TerminalFault>> {
        self.carry_out(alloc, number, text, out)
    }

    fn end(&self, alloc: Global, out: &mut Vec<u8>) -> Result<(), Stop<TerminalFault>> {
        if let Some(end) = &self.end {
            out.extend_from_slice(&write_end(
                alloc,
                Side::A,
                end.bench.managed.bench().set().counts(),
            )?)?;
        }
        Ok(())
    }
}

/// The first line opens the end.
fn open(alloc: Global, number: u64, text: &[u8]) -> Result<End, Stop<TerminalFault>>
    ensures { MatchResult result
        (λ end. MayOpen number text.now (first_line text.now) (prints [] (Some end)))
        (λ stop. MayTell stop (MayOpen number text.now (first_line text.now))) }
{
    let Ok(opening) = read_opening(text) else {
        return Err(unread(number, text));
    };
    match opening.a.profile() {
        Profile::Narrow => {}
        Profile::Wide => return Err(unread(number, text)),
    }
    match ManagedBench::new(alloc, &opening.a, USUAL_TIMERS, Times::USUAL) {
        Ok(managed) => Ok(End {
            bench: ForgettingBench::new(managed),
            early: Early::Both,
        }),
        Err(_) => Err(Stop::Memory),
    }
}

/// This line can't be read.
fn unread(number: u64, text: &[u8]) -> Stop<TerminalFault>
    ensures { result ≡ Input (Text number (flaw_of text.now)) }
{
    Stop::Input(TerminalFault::Text {
        line: number,
        flaw: find_flaw(text),
    })
}

/// A line behind the first: the timers' lengths, level 3's times, or what is asked of the end.
fn follow(
    alloc: Global,
    end: &mut End,
    number: u64,
    text: &[u8],
    out: &mut Vec<u8>,
) -> Result<(), Stop<TerminalFault>>
    ensures carried { IsCarriedOut result (MayRead number (Some end.old) text.now) out.old.items out.new.items
        (Some end.new) }
    ensures stays { StaysAtFault result end.old end.new }
{
    match find_timers(end.early, text) {
        Some(lengths) => set_timers(alloc, end, lengths),
        None => go_on(alloc, end, number, text, out),
    }
}

/// A line that doesn't tell timers.
fn go_on(
    alloc: Global,
    end: &mut End,
    number: u64,
    text: &[u8],
    out: &mut Vec<u8>,
) -> Result<(), Stop<TerminalFault>>
    ensures carried { IsCarriedOut result (MayTime number text.now (told_times end.old.early text.now) end.old.bench) out.old.items
        out.new.items (Some end.new) }
    ensures stays { StaysAtFault result end.old end.new }
{
    match find_times(end.early, text) {
        Some(times) => {
            end.early = Early::Over;
            set_times(alloc, &mut end.bench, times)
        }
        None => {
            answer(alloc, &mut end.bench, number, text, out)?;
            end.early = Early::Over;
            Ok(())
        }
    }
}

/// The timers' lengths that a line tells, where it may tell them.
fn find_timers(early: Early, text: &[u8]) -> Option<Timers>
    ensures { option_map timers_of result ≡ told_lengths early text.now }
{
    match early {
        Early::Both => read_timers(text).ok(),
        Early::Times | Early::Over => None,
    }
}

/// Level 3's times that a line tells, where it may tell them.
fn find_times(early: Early, text: &[u8]) -> Option<Times>
    ensures { option_map times_of result ≡ told_times early text.now }
{
    match early {
        Early::Both | Early::Times => read_times(text).ok(),
        Early::Over => None,
    }
}

/// Level 3 has these times.
fn set_times(
    alloc: Global,
    bench: &mut ForgettingBench,
    times: Times,
) -> Result<(), Stop<TerminalFault>>
    ensures { MatchResult result
        (λ done. bench.new ≡ timed times bench.old)
        (λ stop. stop ≡ Memory) }
{
    match bench.managed.set_times(alloc, times) {
        Ok(()) => Ok(()),
        Err(_) => Err(Stop::Memory),
    }
}

/// The end is opened anew, with timers of these lengths.
fn set_timers(alloc: Global, end: &mut End, lengths: Timers) -> Result<(), Stop<TerminalFault>>
    ensures { MatchResult result
        (λ done. IsOpenedAnew lengths end.old.bench.managed.bench.set.base.state.settings end.new)
        (λ stop. stop ≡ Memory) }
{
    match ManagedBench::new(
        alloc,
        end.bench.managed.bench().set().config(),
        lengths,
        Times::USUAL,
    ) {
        Ok(managed) => {
            end.bench = ForgettingBench::new(managed);
            end.early = Early::Times;
            Ok(())
        }
        Err(_) => Err(Stop::Memory),
    }
}

/// What a line asks for is done, and what it prints is appended.
fn answer(
    alloc: Global,
    bench: &mut ForgettingBench,
    number: u64,
    text: &[u8],
    out: &mut Vec<u8>,
) -> Result<(), Stop<TerminalFault>>
    ensures carried { IsCarriedOut result (MayDo number text.now (asked_of text.now) bench.old) out.old.items
        out.new.items (Some (record { bench = bench.new; early = Over })) }
    ensures stays { StaysAtFault result bench.old bench.new }
{
    match read_asked(alloc, text) {
        Ok(asked) => answer_to(alloc, bench, number, &asked, out),
        Err(Unread::At(_)) => Err(unread(number, text)),
        Err(Unread::Memory) => Err(Stop::Memory),
    }
}

/// The same, of what it asks for.
fn answer_to(
    alloc: Global,
    bench: &mut ForgettingBench,
    number: u64,
    asked: &Asked,
    out: &mut Vec<u8>,
) -> Result<(), Stop<TerminalFault>>
    ensures carried { IsCarriedOut result (MayDoAt (is_below (length bench.old.managed.bench.links) (link_in asked.now)) number asked.now
        bench.old) out.old.items out.new.items (Some (record { bench = bench.new; early = Over })) }
    ensures stays { StaysAtFault result bench.old bench.new }
{
    if !is_there(bench.managed.bench().links(), link_of(asked)) {
        return Err(Stop::Input(TerminalFault::Step { line: number }));
    }
    match ask_bench(alloc, bench, asked) {
        Ok(printed) => Ok(out.extend_from_slice(&printed)?),
        Err(Want) => Err(Stop::Memory),
    }
}

/// Whether a link is one of so many, if one is asked for.
fn is_there(links: u8, link: Option<u8>) -> bool
    ensures { result ≡ is_below links link }
{
    match link {
        Some(link) => link < links,
        None => true,
    }
}
