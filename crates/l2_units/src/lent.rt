//! A unit whose body stays where it stands.
ghost use Rattle.std.specs.Prelude.{◌≡◌, ◌↔◌, ◌≤◌, IsTrue, length};
ghost use Rattle.l2_units.specs.Grammar.{head_of};
ghost use Rattle.l2_units.specs.Lent.{body_in, unit_in};

use super::grammar::same_head;
use super::reading::body_of;
use super::status::Status;
use super::unit::{Header, Unit};

/// A [`Unit`] but for its body, which stays where it stands: a unit by value has room for 273 octets, which are cleared
/// and moved with it.
#[derive(Clone, Copy)]
pub enum UnitRef<'a> {
    Fisu { head: Header },
    Lssu { head: Header, status: Status },
    Msu { head: Header, body: &'a [u8] },
}

impl<'a> UnitRef<'a> {
    /// The unit, with its body left in it.
    pub fn of(unit: &'a Unit) -> UnitRef<'a>
        ensures value { unit_in result ≡ unit.now }
        ensures few { length (body_in result) ≤ 273 }
    {
        match unit {
            Unit::Fisu { head } => UnitRef::Fisu { head: *head },
            Unit::Lssu { head, status } => UnitRef::Lssu {
                head: *head,
                status: *status,
            },
            Unit::Msu { head, body } => UnitRef::Msu {
                head: *head,
                body: body.as_slice(),
            },
        }
    }

    /// The unit by itself. Condition: a body of at most 273 octets.
    pub fn unit(&self) -> Unit
        requires { length (body_in self.now) ≤ 273 }
        ensures { result ≡ unit_in self.now }
    {
        match self {
            UnitRef::Fisu { head } => Unit::Fisu { head: *head },
            UnitRef::Lssu { head, status } => Unit::Lssu {
                head: *head,
                status: *status,
            },
            UnitRef::Msu { head, body } => Unit::Msu {
                head: *head,
                body: body_of(body),
            },
        }
    }

    /// The header that a unit of any kind has.
    pub fn head(&self) -> Header
        ensures { result ≡ head_of (unit_in self.now) }
    {
        match self {
            UnitRef::Fisu { head } => *head,
            UnitRef::Lssu { head, .. } => *head,
            UnitRef::Msu { head, .. } => *head,
        }
    }

    /// The octets of the body that a message has; a unit of another kind has none.
    pub fn body(&self) -> &'a [u8]
        ensures { result.now ≡ body_in self.now }
    {
        match self {
            UnitRef::Msu { body, .. } => body,
            _ => &[],
        }
    }

    /// Whether both are the same unit, octet by octet.
    pub fn same(&self, other: &UnitRef<'_>) -> bool
        ensures { IsTrue result ↔ (unit_in self.now ≡ unit_in other.now) }
    {
        match (self, other) {
            (UnitRef::Fisu { head: a }, UnitRef::Fisu { head: b }) => same_head(a, b),
            (UnitRef::Lssu { head: a, status: x }, UnitRef::Lssu { head: b, status: y }) => {
                x == y && same_head(a, b)
            }
            (UnitRef::Msu { head: a, body: x }, UnitRef::Msu { head: b, body: y }) => {
                if !same_head(a, b) {
                    return false;
                }
                *x == *y
            }
            _ => false,
        }
    }
}
