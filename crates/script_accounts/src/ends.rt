//! An end that a type names.
ghost use Rattle.std.specs.Prelude.{◌≡◌};
ghost use Rattle.pair_steps.specs.declared.step.End.{End};

use pair_world::End;

/// An end that a type names.
pub(crate) trait NamesEnd {
    /// The end.
    ghost end: { End };

    /// The end.
    fn end() -> End
        ensures { result ≡ end };
}

/// End a.
pub(crate) struct OfA;

impl NamesEnd for OfA {
    ghost use Rattle.pair_steps.specs.declared.step.End.TheVariants.{A};

    ghost end = { A };

    fn end() -> End {
        End::A
    }
}

/// End b.
pub(crate) struct OfB;

impl NamesEnd for OfB {
    ghost use Rattle.pair_steps.specs.declared.step.End.TheVariants.{B};

    ghost end = { B };

    fn end() -> End {
        End::B
    }
}
