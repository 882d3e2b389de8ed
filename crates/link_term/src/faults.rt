//! The faults that a door answered, for contracts alone.
ghost use Rattle.std.specs.Prelude.{◌≡◌, [], ◌∷◌, ◌++◌};

use line_ring::Past;
use set_events::SetFault;
use std::marker::Model;

/// A list of faults that only contracts see, for a door to keep what it answered: it takes no octets at run time, and its
/// calls do nothing there.
#[derive(Drop)]
pub struct Faults {
    /// Their numbers.
    numbers: Past,
}

impl Model for Faults {
    ghost use Rattle.std.specs.Prelude.{List};
    ghost use Rattle.set_events.specs.declared.fault.SetFault.{SetFault};

    ghost Value = { List SetFault };

    ghost use Rattle.link_term.specs.Faults.{set_faults};

    ghost view = { λ f. set_faults f.numbers };
}

impl Faults {
    /// No fault.
    pub fn new() -> Faults
        ensures { result ≡ [] }
    {
        Faults {
            numbers: Past::new(),
        }
    }

    /// This fault was answered.
    pub fn note(&mut self, fault: SetFault)
        ensures { self.new ≡ self.old ++ fault ∷ [] }
    {
        self.numbers.note(fault.number());
    }
}
