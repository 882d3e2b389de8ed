//! A line for each link.
use super::line::Line;
use super::under_way::UnderWay;
use l2_units::UnitRef;
use std::alloc::{AllocError, Allocator, Global};
use std::marker::Model;

/// The units under way to one end, a line for each link. Contracts see the list of the lines, each
/// the list of its units, oldest first.
#[derive(Drop)]
pub struct Lines<A: Allocator = Global> {
    lines: Vec<Line<A>, A>,
    /// That of a link which isn't there.
    none: Line<A>,
}

impl<A: Allocator> Model for Lines<A> {
    ghost use Rattle.std.specs.Prelude.{List};
    ghost use Rattle.l2_units.specs.declared.unit.Unit.{Unit as SignalUnit};

    ghost Value = { List (List SignalUnit) };

    ghost view = { λ l. l.lines.items };

    ghost use Rattle.std.specs.Prelude.{◌≡◌, []};

    ghost invariant = { λ l. l.none ≡ [] };
}

impl<A: Allocator + Copy> Lines<A> {
    ghost use Rattle.std.specs.Prelude.{◌≡◌, ◌<◌, ◌≤◌, [], length, IfOk, OnOk, OnErr};
    ghost use Rattle.l2_units.specs.Lent.{body_in, unit_in};
    ghost use Rattle.pair_steps.specs.Lines.{no_units, units_on, joined_on, with_units, IsTakenOut};

    /// A line for each of so many links, with nothing under way; it fails only where memory is wanted.
    pub fn new(alloc: A, links: u8) -> Result<Lines<A>, AllocError>
        ensures { IfOk result (λ lines. lines ≡ no_units links) }
    {
        let mut lines = Vec::new(alloc);
        for _ in 0..links {
            lines.push(Line::new(alloc))?;
        }
        Ok(Lines {
            lines,
            none: Line::new(alloc),
        })
    }

    /// The unit joins the line of this link; where memory is wanted, no line has changed.
    ///
    /// Conditions: there is such a link; the unit has a body of at most 273 octets.
    pub fn join(&mut self, link: u8, unit: &UnitRef<'_>) -> Result<(), AllocError>
        requires link { link < length self.old }
        requires few { length (body_in unit.now) ≤ 273 }
        ensures ok { OnOk result (self.new ≡ joined_on link (unit_in unit.now) self.old) }
        ensures err { OnErr result (self.new ≡ self.old) }
    {
        self.lines[link as usize].join(unit)
    }

    /// The units under way on this link, oldest first; none on a link that there isn't.
    pub fn line(&self, link: u8) -> &Line<A>
        ensures { result.now ≡ units_on link self.now }
    {
        match self.lines.get(link as usize) {
            Some(line) => line,
            None => &self.none,
        }
    }

    /// Takes the unit at this place, from 0, out of the line of this link, if there is one.
    ///
    /// Condition: there is such a link.
    pub fn take_out(&mut self, link: u8, place: u64) -> Option<UnderWay<A>>
        requires { link < length self.old }
        ensures { IsTakenOut result link place self.old self.new }
    {
        self.lines[link as usize].take_out(place)
    }

    /// Nothing is under way on this link any more.
    ///
    /// Condition: there is such a link.
    pub fn clear(&mut self, link: u8)
        requires { link < length self.old }
        ensures { self.new ≡ with_units link [] self.old }
    {
        self.lines[link as usize].clear();
    }
}
