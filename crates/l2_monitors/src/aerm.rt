ghost use Rattle.std.specs.Prelude.{◌≡◌, ◌↔◌, ◌==◌, Bool, List, [], ◌∷◌, ◌++◌, IsTrue};
ghost use Rattle.l2_monitors.specs.Aerm.{Leaves, HasTripped, KeepsItsPast, threshold, after_mark};

use std::marker::Model;

/// The alignment error rate monitor of one proving period (Q.703 10.3): a new proving has a new monitor.
#[derive(Debug, Drop)]
pub struct Aerm {
    /// The errors that trip it yet; 0 once it has tripped.
    errors_left: u8,
}

impl Model for Aerm {
    ghost use Rattle.std.specs.Prelude.{ℕ};

    ghost Value = { ℕ };

    ghost view = { λ a. a.errors_left };
}

impl Aerm {
    /// A monitor that was given no mark, of an emergency proving or of a normal one.
    pub fn new(emergency: bool) -> Self
        ensures none { Leaves emergency [] result }
        ensures value { result ≡ threshold emergency }
    {
        Aerm {
            errors_left: if emergency { 1 } else { 4 },
        }
    }

    /// Tells the monitor of one more mark, and returns whether it has tripped, at this mark or before.
    pub fn mark(&mut self, error: bool) -> bool
        ensures goes_on { (emergency : Bool) (past : List Bool) → Leaves emergency past self.old
            → Leaves emergency (past ++ error ∷ []) self.new }
        ensures tripped { (emergency : Bool) (past : List Bool) → Leaves emergency past self.old
            → (IsTrue result ↔ HasTripped emergency (past ++ error ∷ [])) }
        ensures rule { self.new ≡ after_mark self.old error }
        ensures result { result ≡ (self.new == 0) }
    {
        if error {
            self.errors_left = self.errors_left.saturating_sub(1);
        }
        self.errors_left == 0
    }
}

/// Mark by mark, the rule of [`Aerm::mark`] leads to what the definition says of the whole list of marks.
pub fn aerm_keeps_its_past()
    ensures { KeepsItsPast }
{}
