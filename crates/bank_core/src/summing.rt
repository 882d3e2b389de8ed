//! What sets come to together.
ghost use Rattle.std.specs.Prelude.{◌≡◌, ◌≤◌, ◌^◌, length, All};
ghost use Rattle.bank_core.specs.Totals.{IsInRange, accepted_in_all, placed_in_all, all_are_legal};

/// What a set came to, or several of them together.
#[derive(Clone, Copy, Debug, PartialEq, Eq)]
pub struct SetTotals {
    /// The messages that were accepted.
    pub accepted: u64,
    /// The messages that stand in some place.
    pub placed: u64,
    /// The history is legal; of several sets, each of them.
    pub legal: bool,
}

/// What these sets come to together: the sums, and whether all are legal. Of none: 0, 0 and true.
///
/// At most 32 of them, each with numbers of at most 2^48.
pub fn totals(sets: &[SetTotals]) -> SetTotals
    requires few { length sets.now ≤ 32 }
    requires small { All IsInRange sets.now }
    ensures accepted { result.accepted ≡ accepted_in_all sets.now }
    ensures placed { result.placed ≡ placed_in_all sets.now }
    ensures legal { result.legal ≡ all_are_legal sets.now }
{
    let mut all = NOTHING;
    for set in sets {
        all = SetTotals {
            accepted: all.accepted + set.accepted,
            placed: all.placed + set.placed,
            legal: all.legal && set.legal,
        };
    }
    all
}

/// What no set comes to.
const NOTHING: SetTotals = SetTotals {
    accepted: 0,
    placed: 0,
    legal: true,
};
