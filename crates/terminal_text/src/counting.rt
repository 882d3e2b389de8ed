//! How many messages stand where, and how long the history is.
ghost use Rattle.std.specs.Prelude.{◌≡◌, ◌<◌, ◌≤◌, ◌++◌, IfOk, OnOk, string_bytes};
ghost use Rattle.set_model.specs.State.{link_count};
ghost use Rattle.terminal_text.specs.Counting.{comma_before, count_of, counts_text, counts_to, link_counts, other_counts};

use set_core::SetCore;
use std::alloc::{AllocError, Global};
use text_base::push_number;

/// What is counted.
#[derive(Clone, Copy)]
pub(crate) enum Counted {
    /// What waits for a link.
    Waiting,
    /// What was sent on a link and isn't acknowledged.
    Unacked,
    /// What is held for a link.
    Held,
    /// What users offered in a stream and isn't sent yet.
    Unsent,
}

/// The line that tells how many messages of this set stand where, and how long its history is.
pub(crate) fn write_counts(alloc: Global, set: &SetCore) -> Result<Vec<u8>, AllocError>
    ensures { IfOk result (λ text. text.items ≡ counts_text set.now) }
{
    let mut text = Vec::new(alloc);
    push_link_counts(&mut text, set)?;
    text.extend_from_slice(&write_other_counts(alloc, set)?)?;
    Ok(text)
}

/// Adds what stands on each link, and what isn't sent of each stream.
fn push_link_counts(out: &mut Vec<u8>, set: &SetCore) -> Result<(), AllocError>
    ensures { OnOk result (out.new.items ≡ out.old.items ++ link_counts set.now.state) }
{
    let links = set.links();
    out.extend_from_slice(b"counts waiting=")?;
    push_counts(out, set, Counted::Waiting, links)?;
    out.extend_from_slice(b" unacked=")?;
    push_counts(out, set, Counted::Unacked, links)?;
    out.extend_from_slice(b" held=")?;
    push_counts(out, set, Counted::Held, links)?;
    out.extend_from_slice(b" unsent=")?;
    push_counts(out, set, Counted::Unsent, 16)
}

/// The counts of what stands on no link, and of the history.
fn write_other_counts(alloc: Global, set: &SetCore) -> Result<Vec<u8>, AllocError>
    ensures { IfOk result (λ text. text.items ≡ other_counts set.now) }
{
    let counts = set.counts();
    let parked = counts.parked;
    let back = counts.back;
    let inbox = set.inbox_len();
    let entries = set.history().len();
    let all = set.entries();
    let text = format!(in alloc;
        " parked={parked} back={back} inbox={inbox} entries={entries} all={all}\n"
    )?;
    Ok(text.into_bytes())
}

/// Adds what is counted of each number below this one, with a comma between.
fn push_counts(out: &mut Vec<u8>, set: &SetCore, what: Counted, many: u8) -> Result<(), AllocError>
    requires { many ≤ 16 }
    ensures { OnOk result (out.new.items ≡ out.old.items ++ counts_to what set.now.state many) }
{
    for number in 0..many {
        push_comma(out, number)?;
        push_number(out, count_of(set, what, number))?;
    }
    Ok(())
}

/// Adds a comma, but not before the first.
fn push_comma(out: &mut Vec<u8>, number: u8) -> Result<(), AllocError>
    ensures { OnOk result (out.new.items ≡ out.old.items ++ comma_before number) }
{
    if number == 0 {
        return Ok(());
    }
    out.extend_from_slice(b",")
}

/// What is counted of this link or stream.
fn count_of(set: &SetCore, what: Counted, number: u8) -> u64
    requires { number < 16 }
    ensures { result ≡ count_of what number set.now.state }
{
    match what {
        Counted::Waiting => set.waiting_on(number),
        Counted::Unacked => set.unacked_on(number),
        Counted::Held => set.held_on(number),
        Counted::Unsent => set.unsent(number),
    }
}
