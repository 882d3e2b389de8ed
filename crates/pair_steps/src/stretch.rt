//! A stretch of a line: units one behind another.
ghost use Rattle.std.specs.Prelude.{◌≡◌, ◌≤◌, [], ◌∷◌, ◌++◌, IfSome, OnOk, OnErr, length};
ghost use Rattle.l2_units.specs.Lent.{body_in, unit_in};
ghost use Rattle.pair_steps.specs.Lines.{IsTakenFrom};
ghost use Rattle.pair_steps.specs.Lent.{IsUnitAt};

use super::under_way::UnderWay;
use l2_units::UnitRef;
use std::alloc::{AllocError, Allocator};

/// What has units one behind another.
pub trait HasUnits {
    ghost use Rattle.std.specs.Prelude.{List};
    ghost use Rattle.l2_units.specs.declared.unit.Unit.{Unit as SignalUnit};

    /// Its units, oldest first.
    ghost units: { Self → List SignalUnit };
}

/// Units one behind another, oldest first. One joins them at their end and leaves them from any place.
pub trait Stretch<A: Allocator>: HasUnits + Drop {
    /// No units.
    fn new(alloc: A) -> Self
        ensures { Self.units result ≡ [] };

    /// How many units there are.
    fn len(&self) -> usize
        ensures { result ≡ length (Self.units self.now) };

    /// Whether those that join are to stand in another stretch behind this one.
    fn is_full(&self) -> bool;

    /// A unit joins them; where memory is wanted, nothing has changed. Condition: a body of at most 273 octets.
    fn join(&mut self, alloc: A, unit: &UnitRef<'_>) -> Result<(), AllocError>
        requires { length (body_in unit.now) ≤ 273 }
        ensures ok { OnOk result (Self.units self.new ≡ Self.units self.old ++ unit_in unit.now ∷ []) }
        ensures err { OnErr result (Self.units self.new ≡ Self.units self.old) };

    /// The unit at this place, the oldest at 0, with its body left where it stands.
    fn unit_ref(&self, place: usize) -> Option<UnitRef<'_>>
        ensures value { IsUnitAt (Self.units self.now) place result }
        ensures few { IfSome result (λ unit. length (body_in unit) ≤ 273) };

    /// Takes the unit at this place out, if there is one.
    fn take_out(&mut self, place: usize) -> Option<UnderWay<A>>
        ensures { IsTakenFrom result (Self.units self.old) place (Self.units self.new) };
}
