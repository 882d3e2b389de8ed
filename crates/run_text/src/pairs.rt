//! Lines about both ends of each set, or of each link of a set.
ghost use Rattle.std.specs.Prelude.{◌≡◌, ℕ, List, IfOk};
ghost use Rattle.run_text.specs.Pairs.{pairs_text};

use std::alloc::{AllocError, Global};

/// What has two ends, of which lines are told together.
pub(crate) trait Paired {
    /// What it stands in.
    type Place: Copy;

    /// The lines about both ends of the one of this number.
    ghost text: { Self.Place → ℕ → Self → Self → List ℕ };

    /// Writes them.
    fn write(
        alloc: Global,
        place: Self::Place,
        number: u64,
        a: &Self,
        b: &Self,
    ) -> Result<Vec<u8>, AllocError>
        ensures { IfOk result (λ lines. lines.items ≡ text place number a.now b.now) };
}

/// The lines about each of these, counted from 0.
pub(crate) fn write_pairs<T: Paired>(
    alloc: Global,
    place: T::Place,
    near: &[T],
    far: &[T],
) -> Result<Vec<u8>, AllocError>
    ensures { IfOk result (λ text. text.items ≡ pairs_text (T.text place) 0 near.now far.now) }
{
    let mut text = Vec::new(alloc);
    let mut number: u64 = 0;
    let mut left = far;
    for a in near {
        let [b, more @ ..] = left else {
            return Ok(text);
        };
        let lines = T::write(alloc, place, number, a, b)?;
        text.extend_from_slice(&lines)?;
        number += 1;
        left = more;
    }
    Ok(text)
}
