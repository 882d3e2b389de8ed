//! Units under way on two links, each step by hand.
ghost use Rattle.std.specs.Prelude.{◌≡◌, ◌<◌, length};

use super::bench::holds;
use l2_units::{Header, Unit, UnitRef, body_of, same_unit};
use pair_steps::{Lines, UnderWay};
use std::test::Fail;

/// A fill-in unit of this FSN.
fn fill_in(fsn: u16) -> Unit
    requires { fsn < 128 }
{
    Unit::Fisu {
        head: Header {
            bsn: 127,
            bib: true,
            fsn,
            fib: true,
        },
    }
}

/// The FSN of a unit that was taken out.
fn fsn_of(taken: Option<UnderWay>) -> Option<u16> {
    match taken?.unit() {
        Unit::Fisu { head } => Some(head.fsn),
        _ => None,
    }
}

/// A fill-in unit of this FSN comes on the link.
fn is_joined(lines: &mut Lines, link: u8, fsn: u16) -> bool
    requires link { link < length lines.old }
    requires fsn { fsn < 128 }
    ensures { length lines.new ≡ length lines.old }
{
    let unit = fill_in(fsn);
    lines.join(link, &UnitRef::of(&unit)).is_ok()
}

#[test]
fn a_unit_is_taken_from_its_place_on_its_own_link(rt: HostRuntime) -> Result<(), Fail> {
    let mut lines = Lines::new(rt.alloc(), 2)?;
    let other_link = is_joined(&mut lines, 0, 3);
    let oldest = is_joined(&mut lines, 1, 4);
    let between = is_joined(&mut lines, 1, 5);
    let newest = is_joined(&mut lines, 1, 6);
    let joined = other_link && oldest && between && newest;
    let second = fsn_of(lines.take_out(1, 1));
    let third = fsn_of(lines.take_out(1, 2));
    let first = fsn_of(lines.take_out(1, 0));
    lines.clear(1);
    let cleared = lines.take_out(1, 0).is_none();
    let other = fsn_of(lines.take_out(0, 0));
    let last = lines.take_out(0, 0).is_none();
    let left = cleared && last && other == Some(3);
    holds(joined && left && [second, third, first] == [Some(5), None, Some(4)])
}

/// A message of three octets.
fn message() -> Unit {
    Unit::Msu {
        head: Header {
            bsn: 127,
            bib: true,
            fsn: 9,
            fib: false,
        },
        body: body_of(&[0x85, 1, 2]),
    }
}

/// Whether that message is at the front of this line, and leaves it.
fn leaves_as_it_came(lines: &mut Lines) -> bool
    requires { 0 < length lines.old }
{
    let sent = message();
    let seen = matches!(lines.line(0).unit(0), Some(unit) if same_unit(&unit, &sent));
    let taken =
        matches!(lines.take_out(0, 0), Some(under_way) if same_unit(&under_way.unit(), &sent));
    seen && taken
}

#[test]
fn a_message_leaves_with_its_octets(rt: HostRuntime) -> Result<(), Fail> {
    let mut lines = Lines::new(rt.alloc(), 1)?;
    let sent = message();
    let joined = lines.join(0, &UnitRef::of(&sent)).is_ok();
    holds(joined && leaves_as_it_came(&mut lines) && lines.line(0).is_empty())
}
