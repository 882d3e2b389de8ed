//! The 4,096 places of a line that is joined to itself.
ghost use Rattle.std.specs.Prelude.{◌≡◌, ◌<◌, ◌≤◌, ◌==◌, [], ◌∷◌, ◌++◌, length, drop, slice_get};

use std::marker::Model;

/// How many octets may wait.
const PLACES: usize = 4096;

/// Octets one after another, in places of their own: the oldest stands at `first`, the others behind it, and round the
/// end. Contracts see the octets, oldest first.
///
/// ```text
/// 0           first                     4095
/// | 5th | 6th | .. free .. | 1st | 2nd | .. |
/// ```
#[derive(Drop)]
pub(crate) struct Places {
    octets: [u8; PLACES],
    first: usize,
    len: usize,
}

impl Model for Places {
    ghost use Rattle.std.specs.Prelude.{ℕ, List};
    ghost use Rattle.line_ring.specs.Places.{octets_from};

    ghost Value = { List ℕ };

    ghost use Rattle.std.specs.Prelude.{◌<◌, ◌≤◌};

    ghost view = { λ p. octets_from p.first p.len p.octets };

    ghost invariant = { λ p. (p.first < 4096) × (p.len ≤ 4096) };
}

impl Places {
    /// No octet waits.
    pub(crate) fn new() -> Places
        ensures { result ≡ [] }
    {
        Places {
            octets: [0; PLACES],
            first: 0,
            len: 0,
        }
    }

    /// Whether each place has an octet.
    pub(crate) fn is_full(&self) -> bool
        ensures full { result ≡ (length self.now == 4096) }
        ensures within { length self.now ≤ 4096 }
    {
        self.len == PLACES
    }

    /// The octet stands last.
    pub(crate) fn push(&mut self, octet: u8)
        requires { length self.old < 4096 }
        ensures { self.new ≡ self.old ++ octet ∷ [] }
    {
        self.octets[(self.first + self.len) % PLACES] = octet;
        self.len += 1;
    }

    /// Takes the oldest octet out.
    pub(crate) fn pop(&mut self) -> Option<u8>
        ensures value { result ≡ slice_get self.old 0 }
        ensures rest { self.new ≡ drop 1 self.old }
    {
        if self.len == 0 {
            return None;
        }
        let oldest = self.octets[self.first];
        self.first = (self.first + 1) % PLACES;
        self.len -= 1;
        Some(oldest)
    }
}
