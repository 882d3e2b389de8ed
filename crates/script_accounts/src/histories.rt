//! `mtpbank history`: what one end of a script was asked and answered. The end stands in the type of the account, since what
//! is told belongs to the type.
ghost use Rattle.std.specs.Prelude.{◌≡◌, ◌≤◌, ◌^◌, ◌++◌, length, IfOk, IfSome, MatchResult, OnOk};
ghost use Rattle.script_accounts.specs.Histories.{IsExplainedHistoryText, IsHistoryText, set_text, at_the_end};
ghost use Rattle.text_base.specs.Printing.{Prints, FailsByDevices};
ghost use Rattle.text_lines.specs.Explaining.{fault_alone};

use super::ends::{NamesEnd, OfA, OfB};
use pair_steps::Showing;
use pair_world::{End, Move, World};
use script_walk::{Account, Explained, ScriptFault, tell_explained, tell_script};
use set_core::SetCore;
use std::alloc::{AllocError, Global};
use std::marker::PhantomData;
use text_base::{Fault, Sink, Source};
use text_entries::write_history;

/// Plays the script that the source gives, and writes the history of this end when it has ended.
///
/// Ends with the first fault, and writes nothing then. An input of more than 2^24 octets ends with [`Fault::Long`],
/// unless another fault comes before.
pub fn history<S: Source, W: Sink>(
    alloc: Global,
    end: End,
    source: &mut S,
    sink: &mut W,
) -> Result<(), Fault<ScriptFault>>
    ensures text { IfSome (S.left source.old)
        (λ input. Prints result (IsHistoryText end input)
        (W.written sink.old) (W.written sink.new)) }
    ensures bounded { IfSome (S.left source.old) (λ input. OnOk result (length input ≤ 2 ^ 24)) }
    ensures devices { IfSome (S.left source.old)
        (FailsByDevices (2 ^ 24) result (S.failures source.old) (S.failures source.new)
        (W.failures sink.old) (W.failures sink.new)) }
{
    match end {
        End::A => tell_script::<HistoryOf<OfA>, S, W>(alloc, source, sink),
        End::B => tell_script::<HistoryOf<OfB>, S, W>(alloc, source, sink),
    }
}

/// Writes the same history, and explains the line that ends the script with a fault, as [`tell_explained`] does.
pub fn history_explained<S: Source, W: Sink>(
    alloc: Global,
    end: End,
    source: &mut S,
    sink: &mut W,
) -> Result<(), Fault<Explained<ScriptFault>>>
    ensures text { IfSome (S.left source.old)
        (λ input. Prints result (IsExplainedHistoryText end input)
        (W.written sink.old) (W.written sink.new)) }
    ensures same { IfSome (S.left source.old)
        (λ input. Prints (fault_alone result) (IsHistoryText end input)
        (W.written sink.old) (W.written sink.new)) }
    ensures bounded { IfSome (S.left source.old) (λ input. OnOk result (length input ≤ 2 ^ 24)) }
    ensures devices { IfSome (S.left source.old)
        (FailsByDevices (2 ^ 24) result (S.failures source.old) (S.failures source.new)
        (W.failures sink.old) (W.failures sink.new)) }
{
    match end {
        End::A => tell_explained::<HistoryOf<OfA>, S, W>(alloc, source, sink),
        End::B => tell_explained::<HistoryOf<OfB>, S, W>(alloc, source, sink),
    }
}

/// The history of the end that the type names.
struct HistoryOf<E> {
    end: PhantomData<E>,
}

impl<E: NamesEnd> Account for HistoryOf<E> {
    type Note = ();

    ghost use Rattle.script_accounts.specs.Histories.{history_told};

    ghost told = { history_told E.end };

    ghost is_note = { λ world move note. Unit {0} };

    fn note(_alloc: Global, _world: &World, _next: &Move) {}

    fn tell_opening(_alloc: Global, _world: &World, _out: &mut Vec<u8>) -> Result<(), AllocError> {
        Ok(())
    }

    fn tell_step(
        _alloc: Global,
        _number: u64,
        _note: (),
        _next: &Move,
        _shown: &Showing,
        _world: &World,
        _out: &mut Vec<u8>,
    ) -> Result<(), AllocError> {
        Ok(())
    }

    fn tell_end(alloc: Global, world: &Option<World>, out: &mut Vec<u8>) -> Result<(), AllocError> {
        add_history(alloc, E::end(), world, out)
    }
}

/// Appends the history of an end, if there is one.
fn add_history(
    alloc: Global,
    end: End,
    world: &Option<World>,
    out: &mut Vec<u8>,
) -> Result<(), AllocError>
    ensures { MatchResult result (λ done. out.new.items ≡ out.old.items ++ at_the_end end world.now)
        (λ want. out.new.items ≡ out.old.items) }
{
    let Some(world) = world else {
        return Ok(());
    };
    out.extend_from_slice(&write_set(alloc, world.core(end))?)
}

/// The history of a set.
fn write_set(alloc: Global, set: &SetCore) -> Result<Vec<u8>, AllocError>
    ensures { IfOk result (λ text. text.items ≡ set_text set.now) }
{
    write_history(alloc, set.config(), set.history())
}
