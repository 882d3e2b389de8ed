//! What sets come to together.
ghost use Rattle.std.specs.Prelude.{◌≡◌};

use super::openings::holds;
use bank_core::{SetTotals, totals};
use std::test::Fail;

/// A set that came to this.
fn came_to(accepted: u64, placed: u64, legal: bool) -> SetTotals
    ensures { result ≡ record { accepted = accepted; placed = placed; legal = legal } }
{
    SetTotals {
        accepted,
        placed,
        legal,
    }
}

#[test]
fn totals_add() -> Result<(), Fail> {
    holds(totals(&[]) == came_to(0, 0, true))?;
    let two = [came_to(4000, 4000, true), came_to(0, 0, true)];
    holds(totals(&two) == came_to(4000, 4000, true))?;
    let three = [
        came_to(1, 10, true),
        came_to(2, 20, true),
        came_to(4, 40, true),
    ];
    holds(totals(&three) == came_to(7, 70, true))
}

#[test]
fn one_history_that_is_not_legal_shows() -> Result<(), Fail> {
    let first = [came_to(1, 1, false), came_to(1, 1, true)];
    holds(totals(&first) == came_to(2, 2, false))?;
    let last = [came_to(1, 1, true), came_to(1, 1, false)];
    holds(totals(&last) == came_to(2, 2, false))
}
