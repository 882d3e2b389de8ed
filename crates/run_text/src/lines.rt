//! The lines of a run.
ghost use Rattle.std.specs.Prelude.{◌≡◌, ◌≤◌, IfOk, All, length};
ghost use Rattle.bank_core.specs.Totals.{IsInRange};
ghost use Rattle.run_text.specs.RunText.{all_text, end_text, set_text, total_text, yes_or_no};

use super::pairs::{Paired, write_pairs};
use bank_core::{SetTotals, totals};
use std::alloc::{AllocError, Global};

/// The lines about all sets, and that of all together.
pub(crate) fn write_all_sets(
    alloc: Global,
    near: Vec<SetTotals>,
    far: &[SetTotals],
) -> Result<Vec<u8>, AllocError>
    requires few { (length near.items ≤ 16) × (length far.now ≤ 16) }
    requires small { All IsInRange near.items × All IsInRange far.now }
    ensures { IfOk result (λ text. text.items ≡ all_text near.items far.now) }
{
    let mut text = write_pairs(alloc, (), &near, far)?;
    let total = write_total(alloc, near, far)?;
    text.extend_from_slice(&total)?;
    Ok(text)
}

/// The line about all ends together.
fn write_total(
    alloc: Global,
    near: Vec<SetTotals>,
    far: &[SetTotals],
) -> Result<Vec<u8>, AllocError>
    requires few { (length near.items ≤ 16) × (length far.now ≤ 16) }
    requires small { All IsInRange near.items × All IsInRange far.now }
    ensures { IfOk result (λ text. text.items ≡ total_text near.items far.now) }
{
    let mut all = near;
    all.extend_from_slice(far)?;
    let sum = totals(&all);
    let accepted = sum.accepted;
    let placed = sum.placed;
    let legal = word_for(sum.legal);
    Ok(format!(in alloc; "total accepted={accepted} placed={placed} legal={legal}\n")?.into_bytes())
}

impl Paired for SetTotals {
    type Place = ();

    ghost text = { λ place. set_text };

    fn write(
        alloc: Global,
        _place: (),
        set: u64,
        a: &SetTotals,
        b: &SetTotals,
    ) -> Result<Vec<u8>, AllocError> {
        let mut text = write_end(alloc, set, "a", a)?;
        let other = write_end(alloc, set, "b", b)?;
        text.extend_from_slice(&other)?;
        Ok(text)
    }
}

/// The line about an end of a set.
fn write_end(alloc: Global, set: u64, end: &str, of_end: &SetTotals) -> Result<Vec<u8>, AllocError>
    ensures { IfOk result (λ text. text.items ≡ end_text set end.now of_end.now) }
{
    let accepted = of_end.accepted;
    let placed = of_end.placed;
    let legal = word_for(of_end.legal);
    Ok(format!(in alloc;
        "set={set} end={end} accepted={accepted} placed={placed} legal={legal}\n"
    )?.into_bytes())
}

/// The word for a truth.
fn word_for(fact: bool) -> &'static str
    ensures { result.now ≡ yes_or_no fact }
{
    if fact { "yes" } else { "no" }
}
