//! The octets that passed, for contracts alone.
ghost use Rattle.std.specs.Prelude.{◌≡◌, [], ◌∷◌, ◌++◌};

use boxcar::tag::{Names, Tag};
use std::marker::Model;
use std::mem::replace;

/// A list of octets that only contracts see: it takes no octets at run time, and its calls do nothing there.
#[derive(Drop)]
pub struct Past {
    octets: Tag,
}

impl Model for Past {
    ghost use Rattle.std.specs.Prelude.{ℕ, List};

    ghost Value = { List ℕ };

    ghost view = { λ p. p.octets.numbers };
}

/// What passed before, and the octet that passes now.
#[derive(Drop)]
struct Passing {
    before: Tag,
    octet: u8,
}

/// The list that has this octet last.
struct Longer;

impl Names<Passing> for Longer {
    ghost numbers = { λ p. p.before.numbers ++ p.octet ∷ [] };
}

impl Past {
    /// Nothing passed.
    pub fn new() -> Past
        ensures { result ≡ [] }
    {
        Past {
            octets: Tag::empty(),
        }
    }

    /// An octet passes.
    pub fn note(&mut self, octet: u8)
        ensures { self.new ≡ self.old ++ octet ∷ [] }
    {
        let passing = Passing {
            before: replace(&mut self.octets, Tag::empty()),
            octet,
        };
        self.octets = Tag::of::<Passing, Longer>(&passing);
    }
}
