//! What the sets of an end came to.
ghost use Rattle.std.specs.Prelude.{◌≡◌, ◌<◌, ◌^◌, All, IfOk, map};
ghost use Rattle.bank_core.specs.Totals.{IsInRange};
ghost use Rattle.set_model.specs.Rows.{total_of};
ghost use Rattle.run_text.specs.RunText.{end_totals};
ghost use Rattle.run_text.specs.Running.{IsAnEnd};

use bank_core::{SetEnd, SetTotals};
use set_core::audit_history_from;
use set_events::Counts;
use std::alloc::{AllocError, Global};

/// What each of these sets came to. Each history is audited, in as much memory as a set of such a history takes.
pub(crate) fn totals_of_ends(alloc: Global, ends: &[SetEnd]) -> Result<Vec<SetTotals>, AllocError>
    requires ends { All IsAnEnd ends.now }
    ensures totals { IfOk result (λ totals. totals.items ≡ map end_totals ends.now) }
    ensures small { IfOk result (λ totals. All IsInRange totals.items) }
{
    let mut totals = Vec::new(alloc);
    for end in ends {
        totals.reserve(1)?;
        let of_end = add_up_end(end)?;
        totals.push_reserved(of_end);
    }
    Ok(totals)
}

/// What a set came to at this end. Its history is legal, as the audit tells anew.
fn add_up_end(end: &SetEnd) -> Result<SetTotals, AllocError>
    requires end { IsAnEnd end.now }
    ensures totals { IfOk result (λ totals. totals ≡ end_totals end.now) }
    ensures small { IfOk result IsInRange }
{
    let closed = &end.closed;
    let Ok(legal) = audit_history_from(&closed.base, closed.history.reader()) else {
        return Err(AllocError);
    };
    Ok(SetTotals {
        accepted: end.closed.books.messages,
        placed: placed(&end.closed.counts),
        legal,
    })
}

/// The messages of all places.
fn placed(counts: &Counts) -> u64
    requires few { total_of counts.now < 2 ^ 64 }
    ensures { result ≡ total_of counts.now }
{
    counts.waiting
        + counts.unacked
        + counts.acked
        + counts.held
        + counts.parked
        + counts.back
        + counts.discarded
}
