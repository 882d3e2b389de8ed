//! Octets that are kept.
ghost use Rattle.std.specs.Prelude.{◌≡◌, ℕ, List, [], ◌∷◌, ◌++◌, None, Some, if◌then◌else◌};
ghost use Rattle.std.specs.Option.{option_map};
ghost use Rattle.line_tape.specs.Taping.{Keeps};

use std::alloc::Global;
use std::marker::Model;

/// All octets that were put into an end of a line, oldest first; none where they weren't to be kept, or where memory for
/// them was refused.
#[derive(Debug, Drop)]
pub struct Tape {
    octets: Option<Vec<u8>>,
}

impl Model for Tape {
    ghost use Rattle.std.specs.Prelude.{ℕ, List, Option};

    ghost Value = { Option (List ℕ) };

    ghost use Rattle.std.specs.Option.{option_map};

    ghost view = { λ tape. option_map (λ octets. octets.items) tape.octets };
}

impl Tape {
    /// Nothing stands on it yet, where octets are to be kept; else it keeps none.
    pub fn new(alloc: Global, keeps: bool) -> Tape
        ensures begun { result ≡ (if keeps then Some [] else None) }
        ensures kept { Keeps result [] }
    {
        if keeps {
            Tape {
                octets: Some(Vec::new(alloc)),
            }
        } else {
            Tape { octets: None }
        }
    }

    /// One that keeps nothing.
    pub(crate) fn none() -> Tape
        ensures { result ≡ None }
    {
        Tape { octets: None }
    }

    /// The octets, if they were kept.
    pub fn octets(&self) -> Option<&[u8]>
        ensures { option_map (λ octets. octets.now) result ≡ self.now }
    {
        match &self.octets {
            Some(octets) => Some(octets.as_slice()),
            None => None,
        }
    }

    /// One octet more. Where memory is refused none is kept from then on.
    pub(crate) fn keep(&mut self, octet: u8)
        ensures { (put : List ℕ) → Keeps self.old put → Keeps self.new (put ++ octet ∷ []) }
    {
        let Some(octets) = &mut self.octets else {
            return;
        };
        if octets.push(octet).is_err() {
            self.octets = None;
        }
    }
}
