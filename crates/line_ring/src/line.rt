//! What each line promises.
ghost use Rattle.std.specs.Prelude.{◌≡◌, ◌+◌, ◌≤◌, [], ◌∷◌, ◌++◌, OnOk, IfErr, IfSome, IsNone};
ghost use mathlib.Core.List.{IsPrefix};

use thiserror::Error;

/// The line had no free place for this octet.
#[derive(Clone, Copy, Debug, Drop, PartialEq, Eq, Error)]
#[error("the line is full")]
pub struct Full {
    /// The octet that was to be put.
    pub octet: u8,
}

/// One end of a line of octets. No call waits, and none takes memory.
pub trait Line {
    ghost use Rattle.std.specs.Prelude.{ℕ, List};

    /// Each octet that this end put into the line, oldest first.
    ghost put_so_far: { Self → List ℕ };

    /// Each octet that this end took out of the line, oldest first.
    ghost taken_so_far: { Self → List ℕ };

    /// How many places this end knows to be free.
    ghost free: { Self → ℕ };

    /// The octets that this end knows to be there and hasn't taken, oldest first.
    ghost waiting: { Self → List ℕ };

    /// The second is the same end of the same line as the first.
    ghost is_same: { Self → Self → Type 0 };

    /// Puts an octet into the line. Where this end knows of no free place, the octet comes back and nothing changes.
    fn put(&mut self, octet: u8) -> Result<(), Full>
        ensures ok { OnOk result ((put_so_far self.new ≡ put_so_far self.old ++ octet ∷ [])
            × (free self.old ≤ free self.new + 1)) }
        ensures full { IfErr result (λ refused. (refused.octet ≡ octet) × (put_so_far self.new ≡ put_so_far self.old)
            × (waiting self.new ≡ waiting self.old) × (free self.old ≡ 0) × (free self.new ≡ 0)) }
        ensures taken { taken_so_far self.new ≡ taken_so_far self.old }
        ensures waiting { IsPrefix (waiting self.old) (waiting self.new) }
        ensures same { is_same self.old self.new };

    /// Takes the oldest octet out of the line. Where this end knows of none, nothing changes.
    fn take(&mut self) -> Option<u8>
        ensures some { IfSome result (λ octet. (taken_so_far self.new ≡ taken_so_far self.old ++ octet ∷ [])
            × IsPrefix (waiting self.old) (octet ∷ waiting self.new)) }
        ensures none { IsNone result → (taken_so_far self.new ≡ taken_so_far self.old)
            × (waiting self.old ≡ []) × (waiting self.new ≡ []) }
        ensures put { put_so_far self.new ≡ put_so_far self.old }
        ensures free { free self.old ≤ free self.new }
        ensures same { is_same self.old self.new };

    ghost same_self: { (line : Self) → is_same line line };

    ghost same_on: { (first second third : Self) → is_same first second → is_same second third → is_same first third };
}
