//! What the grammar tells of a unit, and a law that speaks of definitions alone.
ghost use Rattle.std.specs.Prelude.{◌≡◌, ◌↔◌, IsTrue};
ghost use Rattle.l2_units.specs.Profile.{Profile};
ghost use Rattle.l2_units.specs.Grammar.{IsUnit, IsTheTextOf, head_of};
ghost use Rattle.l2_units.specs.declared.unit.Unit.{Unit as SignalUnit};

use super::reading::body_of;
use super::unit::{Header, Unit};

/// The header that a unit of any kind has.
pub fn header_in(unit: &Unit) -> Header
    ensures { result ≡ head_of unit.now }
{
    match unit {
        Unit::Fisu { head } => *head,
        Unit::Lssu { head, .. } => *head,
        Unit::Msu { head, .. } => *head,
    }
}

/// Whether both units are of the same kind and have the same header and the same status or body.
pub fn same_unit(unit: &Unit, other: &Unit) -> bool
    ensures { IsTrue result ↔ (unit.now ≡ other.now) }
{
    match (unit, other) {
        (Unit::Fisu { head: a }, Unit::Fisu { head: b }) => same_head(a, b),
        (Unit::Lssu { head: a, status: x }, Unit::Lssu { head: b, status: y }) => {
            x == y && same_head(a, b)
        }
        (Unit::Msu { head: a, body: x }, Unit::Msu { head: b, body: y }) => {
            if !same_head(a, b) {
                return false;
            }
            x.as_slice() == y.as_slice()
        }
        _ => false,
    }
}

/// An equal unit. It takes no memory.
pub fn copy_of_unit(unit: &Unit) -> Unit
    ensures { result ≡ unit.now }
{
    match unit {
        Unit::Fisu { head } => Unit::Fisu { head: *head },
        Unit::Lssu { head, status } => Unit::Lssu {
            head: *head,
            status: *status,
        },
        Unit::Msu { head, body } => Unit::Msu {
            head: *head,
            body: body_of(body.as_slice()),
        },
    }
}

/// Whether both headers have the same numbers and indicators.
#[tactic(auto, using(crate::proofs::Texts::same_header))]
pub(crate) fn same_head(head: &Header, other: &Header) -> bool
    ensures { IsTrue result ↔ (head.now ≡ other.now) }
{
    if head.bsn != other.bsn || head.fsn != other.fsn {
        return false;
    }
    if head.bib != other.bib {
        return false;
    }
    head.fib == other.fib
}

/// In both profiles the text of a unit stands for that unit, and for no other.
pub fn one_text()
    ensures { (profile : Profile) (unit : SignalUnit) → IsUnit profile unit → IsTheTextOf profile unit }
{}
