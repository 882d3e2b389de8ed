//! Who looks on at the units that a terminal sends.
ghost use Rattle.std.specs.Prelude.{◌≡◌, ◌≤◌, None, length};
ghost use Rattle.l2_units.specs.Lent.{body_in, unit_in};
ghost use Rattle.std.specs.Option.{option_map};

use l2_units::{Unit, UnitRef};

/// What looks on at the units that a terminal sends, as a tap on its line would.
pub trait Tap {
    ghost use Rattle.l2_units.specs.declared.unit.Unit.{Unit as SignalUnit};

    /// The first was told of this unit, and is the second then.
    ghost told: { Self → SignalUnit → Self → Type 0 };

    /// The terminal has appended this unit to what it sends. Its body, of at most 273 octets, stays where it stands.
    fn sends(&mut self, unit: &UnitRef<'_>)
        requires { length (body_in unit.now) ≤ 273 }
        ensures { told self.old (unit_in unit.now) self.new };
}

/// No tap: nobody looks on.
#[derive(Clone, Copy, Debug, Drop, PartialEq, Eq)]
pub struct NoTap;

impl Tap for NoTap {
    ghost use Rattle.std.specs.Prelude.{⊤};

    ghost told = { λ before unit after. ⊤ };

    #[inline(always)]
    fn sends(&mut self, _unit: &UnitRef<'_>) {}
}

/// A tap that keeps the last unit of which it was told, some 290 octets.
#[derive(Debug, Drop)]
pub struct LastUnit {
    unit: Option<Unit>,
}

impl LastUnit {
    /// It was told of none.
    pub fn new() -> LastUnit
        ensures { result.unit ≡ None }
    {
        LastUnit { unit: None }
    }

    /// The last unit of which it was told, if it was of any since it was made or cleared.
    pub fn unit(&self) -> Option<&Unit>
        ensures { option_map (λ unit. unit.now) result ≡ self.now.unit }
    {
        self.unit.as_ref()
    }

    /// It was told of none.
    pub fn clear(&mut self)
        ensures { self.new.unit ≡ None }
    {
        self.unit = None;
    }
}

impl Tap for LastUnit {
    ghost use Rattle.std.specs.Prelude.{◌≡◌, Some};

    ghost told = { λ before unit after. after.unit ≡ Some unit };

    fn sends(&mut self, unit: &UnitRef<'_>) {
        self.unit = Some(unit.unit());
    }
}
