//! The link that streams are moved to.
ghost use Rattle.std.specs.Prelude.{◌≡◌, ◌<◌, ◌≤◌, length, IfSome};
ghost use Rattle.set_route.specs.Target.{target_of, IsTarget};

/// The lowest-numbered link that is up (own), if any; `up` tells for each link whether it is.
///
/// Condition: at most 16 links.
pub fn target(up: &[bool]) -> Option<u8>
    requires { length up.now ≤ 16 }
    ensures exact { result ≡ target_of up.now }
    ensures lowest { IsTarget up.now result }
    ensures below { IfSome result (λ link. link < length up.now) }
{
    let link = first_up(up)?;
    Some(link as u8)
}

/// The first place that is true.
fn first_up(up: &[bool]) -> Option<usize>
    ensures value { result ≡ target_of up.now }
    ensures lowest { IsTarget up.now result }
    ensures below { IfSome result (λ link. link < length up.now) }
{
    up.iter().position(|is_up| *is_up)
}
