//! A line of one turn.
ghost use Rattle.std.specs.Prelude.{◌≡◌, None, false};

use line_ring::{Full, Line};

/// The line of one turn: an octet is there, and one can be put.
#[derive(Drop)]
pub(crate) struct Timeslot {
    octet: u8,
    is_taken: bool,
    put: Option<u8>,
}

impl Timeslot {
    /// This octet is there, and none was put.
    pub(crate) fn new(octet: u8) -> Timeslot
        ensures octet { result.octet ≡ octet }
        ensures taken { result.is_taken ≡ false }
        ensures put { result.put ≡ None }
    {
        Timeslot {
            octet,
            is_taken: false,
            put: None,
        }
    }

    /// The octet that was put, if one was.
    pub(crate) fn put(&self) -> Option<u8>
        ensures { result ≡ self.now.put }
    {
        self.put
    }
}

impl Line for Timeslot {
    ghost use Rattle.std.specs.Prelude.{◌≡◌, refl, [], ◌∷◌, if◌then◌else◌};
    ghost use Rattle.std.specs.Option.{option_to_list};
    ghost use Rattle.std.proofs.Common.{◌∙◌};
    ghost use Rattle.term_bench.specs.Slots.{places_in};

    ghost put_so_far = { λ slot. option_to_list slot.put };

    ghost taken_so_far = { λ slot. if slot.is_taken then slot.octet ∷ [] else [] };

    ghost free = { λ slot. places_in slot.put };

    ghost waiting = { λ slot. if slot.is_taken then [] else slot.octet ∷ [] };

    ghost is_same = { λ a b. b.octet ≡ a.octet };

    ghost same_self = { λ slot. refl };

    ghost same_on = { λ first second third a b. b ∙ a };

    fn put(&mut self, octet: u8) -> Result<(), Full> {
        if self.put.is_some() {
            return Err(Full { octet });
        }
        self.put = Some(octet);
        Ok(())
    }

    fn take(&mut self) -> Option<u8> {
        if self.is_taken {
            return None;
        }
        self.is_taken = true;
        Some(self.octet)
    }
}
