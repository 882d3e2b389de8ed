//! The bodies of a set, one behind another.
ghost use Rattle.std.specs.Prelude.{◌≡◌, ◌≤◌, ◌++◌, [], ◌∷◌, Some, length, OnOk};

use super::bench::holds;
use set_queues::Bodies;
use std::alloc::AllocError;
use std::test::Fail;

/// A body stands last.
fn put(bodies: &mut Bodies, octets: &[u8]) -> Result<(), AllocError>
    requires { length octets.now ≤ 273 }
    ensures { OnOk result (bodies.new.items ≡ bodies.old.items ++ Some octets.now ∷ []) }
{
    bodies.reserve(1)?;
    bodies.add(octets);
    Ok(())
}

/// Three bodies, the second without octets, each found by its number.
fn has_three(rt: &HostRuntime) -> Result<bool, AllocError> {
    let mut bodies = Bodies::new(rt.alloc());
    put(&mut bodies, &[0xC3, 1, 2])?;
    put(&mut bodies, &[])?;
    put(&mut bodies, &[0x85, 9])?;
    Ok(
        bodies.body(0) == [0xC3, 1, 2].as_slice()
            && bodies.body(1).is_empty()
            && bodies.body(2) == [0x85, 9].as_slice(),
    )
}

#[test]
fn each_body_is_found_where_it_was_put(rt: HostRuntime) -> Result<(), Fail> {
    holds(has_three(&rt)?)
}
