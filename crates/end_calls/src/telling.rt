//! The history as text.
ghost use Rattle.std.specs.Prelude.{◌≡◌, ◌+◌, ◌-◌, drop, length, IfOk};
ghost use Rattle.end_calls.specs.Telling.{TellsHistory, text_from};

use super::fault::CallFault;
use super::users::put;
use set_core::SetCore;
use set_history::Reader;
use std::alloc::{AllocError, Global};
use term_managed::ManagedBench;
use text_entries::{write_entries, write_history};

/// How much a text of the history is.
#[repr(C)]
#[derive(Clone, Copy, Debug, PartialEq, Eq)]
pub struct ToldValues {
    /// How many octets it has.
    pub octets: usize,
    /// How many lines.
    pub lines: usize,
}

/// The text of the history since the last checkpoint, from this line on, at the front of `room`, whose other octets are as
/// they were. Line 0 tells what the set was opened with, and each other line is an entry: the text that `mtpbank audit`
/// reads, and of which each piece but the first begins at line 1, behind a line `checkpoint`.
///
/// Faults: 16 [`CallFault::NoMemory`], only where memory was refused; `room` and `told` are then as they were. 50
/// [`CallFault::NoRoom`] where `room` is smaller than the text, of which `told` tells then how much it is; `room` is as it
/// was.
pub fn history(
    alloc: Global,
    end: &ManagedBench,
    from: usize,
    room: &mut [u8],
    told: &mut ToldValues,
) -> Result<(), CallFault>
    ensures { TellsHistory from end.now room.old told.old result room.new told.new }
{
    let set = end.bench().set();
    let Ok(text) = text_from(alloc, set, from) else {
        return Err(CallFault::NoMemory);
    };
    *told = ToldValues {
        octets: text.len(),
        lines: lines_from(set, from),
    };
    if room.len() < text.len() {
        return Err(CallFault::NoRoom);
    }
    let _ = put(&text, room);
    Ok(())
}

/// The text from this line on.
fn text_from(alloc: Global, set: &SetCore, from: usize) -> Result<Vec<u8>, AllocError>
    ensures { IfOk result (λ text. text.items ≡ text_from from set.now) }
{
    if from == 0 {
        return write_history(alloc, set.config(), set.history());
    }
    let entries = behind(set.history(), from - 1);
    write_entries(alloc, set.config().profile(), entries)
}

/// How many lines there are from this one on.
fn lines_from(set: &SetCore, from: usize) -> usize
    ensures { result ≡ length set.now.history + 1 - from }
{
    set.replays();
    (set.history().len() + 1).saturating_sub(from)
}

/// These entries but for the first ones, so many.
fn behind<'a>(entries: Reader<'a>, many: usize) -> Reader<'a>
    ensures { result ≡ drop many entries.entry }
{
    let fewer = many.min(entries.len());
    let mut left = entries;
    for passed in 0..fewer {
        let Some(_) = left.next() else { unreachable!() };
    }
    left
}
