ghost use Rattle.std.specs.Prelude.{◌≡◌, ◌+◌, ◌-◌, ◌≤◌, ◌↔◌, Bool, List, [], ◌∷◌, ◌++◌, IsTrue, if◌then◌else◌};
ghost use Rattle.l2_monitors.specs.Suerm.{Leaves, HasTripped, KeepsItsPast, fresh, after_mark};

use std::marker::Model;

/// The signal unit error rate monitor of a link from the end of its alignment on (Q.703 10.2).
///
/// The count begins at 0. An error mark raises it by one; each D = 256th mark, an error or not, lowers it
/// by one, not below 0. The error that makes it T = 64 trips the monitor, which then stays tripped.
#[derive(Debug, Drop)]
pub struct Suerm {
    tripped: bool,
    /// At most 63; of no account once tripped.
    count: u8,
    /// The number of marks, modulo 256; of no account once tripped.
    place: u8,
}

impl Model for Suerm {
    ghost use Rattle.std.specs.Prelude.{◌≤◌};
    ghost use Rattle.l2_monitors.specs.Suerm.{Kept};

    ghost Value = { Kept };

    ghost view = { λ s. record { tripped = s.tripped; count = s.count; place = s.place } };

    ghost invariant = { λ s. s.count ≤ 63 };
}

impl Suerm {
    /// A monitor that was given no mark.
    pub fn new() -> Self
        ensures none { Leaves [] result }
        ensures value { result ≡ fresh }
    {
        Suerm {
            tripped: false,
            count: 0,
            place: 0,
        }
    }

    /// Tells the monitor of one more mark, and returns whether it has tripped, at this mark or before.
    pub fn mark(&mut self, error: bool) -> bool
        ensures goes_on { (past : List Bool) → Leaves past self.old
            → Leaves (past ++ error ∷ []) self.new }
        ensures tripped { (past : List Bool) → Leaves past self.old
            → (IsTrue result ↔ HasTripped (past ++ error ∷ [])) }
        ensures rule { self.new ≡ after_mark self.old error }
        ensures result { result ≡ self.new.tripped }
    {
        if self.tripped {
            return true;
        }
        if error && self.count == 63 {
            self.tripped = true;
            return true;
        }
        self.place = self.place.wrapping_add(1);
        self.count = count_after(self.count, error, self.place == 0);
        false
    }
}

/// The count after one more mark that does not trip.
fn count_after(count: u8, error: bool, leaks: bool) -> u8
    requires { count ≤ 63 }
    ensures { result ≡ count + (if error then 1 else 0) - (if leaks then 1 else 0) }
{
    (count + u8::from(error)).saturating_sub(u8::from(leaks))
}

/// Mark by mark, the rule of [`Suerm::mark`] leads to what the definition says of the whole list of marks.
pub fn suerm_keeps_its_past()
    ensures { KeepsItsPast }
{}
