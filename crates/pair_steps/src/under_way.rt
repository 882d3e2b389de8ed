//! A unit under way, in as much memory as it has octets.
ghost use Rattle.std.specs.Prelude.{◌≡◌, ◌≤◌, IfOk, length};
ghost use Rattle.l2_units.specs.Lent.{body_in, unit_in};

use l2_units::{Header, Status, Unit, UnitRef};
use std::alloc::{AllocError, Allocator, Global};
use std::marker::Model;

/// A unit under way. Contracts see the unit.
#[derive(Drop)]
pub struct UnderWay<A: Allocator = Global> {
    head: Header,
    kind: Kind,
    /// The SIO and SIF of a message; else nothing.
    body: Vec<u8, A>,
}

/// What stands behind a unit's header.
#[derive(Clone, Copy)]
pub(crate) enum Kind {
    Fisu,
    Lssu(Status),
    Msu,
}

impl<A: Allocator> Model for UnderWay<A> {
    ghost use Rattle.std.specs.Prelude.{◌≤◌, length};
    ghost use Rattle.l2_units.specs.declared.unit.Unit.{Unit as SignalUnit};
    ghost use Rattle.pair_steps.specs.UnderWay.{unit_with};

    ghost Value = { SignalUnit };

    ghost view = { λ u. unit_with u.head u.kind u.body.items };

    ghost invariant = { λ u. length u.body.items ≤ 273 };
}

impl<A: Allocator> UnderWay<A> {
    /// This unit, under way; it fails only where memory is wanted. Condition: a body of at most 273 octets.
    pub(crate) fn of(alloc: A, unit: &UnitRef<'_>) -> Result<UnderWay<A>, AllocError>
        requires { length (body_in unit.now) ≤ 273 }
        ensures { IfOk result (λ under. under ≡ unit_in unit.now) }
    {
        let mut octets = Vec::new(alloc);
        let (head, kind) = match unit {
            UnitRef::Fisu { head } => (*head, Kind::Fisu),
            UnitRef::Lssu { head, status } => (*head, Kind::Lssu(*status)),
            UnitRef::Msu { head, body } => {
                octets.extend_from_slice(body)?;
                (*head, Kind::Msu)
            }
        };
        Ok(UnderWay {
            head,
            kind,
            body: octets,
        })
    }

    /// The unit, with its body left in it.
    pub fn unit_ref(&self) -> UnitRef<'_>
        ensures value { unit_in result ≡ self.now }
        ensures few { length (body_in result) ≤ 273 }
    {
        match self.kind {
            Kind::Fisu => UnitRef::Fisu { head: self.head },
            Kind::Lssu(status) => UnitRef::Lssu {
                head: self.head,
                status,
            },
            Kind::Msu => UnitRef::Msu {
                head: self.head,
                body: self.body.as_slice(),
            },
        }
    }

    /// The unit.
    pub fn unit(&self) -> Unit
        ensures { result ≡ self.now }
    {
        self.unit_ref().unit()
    }
}
