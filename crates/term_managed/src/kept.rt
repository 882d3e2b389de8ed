//! What level 3 keeps of a link.
ghost use Rattle.std.specs.Prelude.{◌≡◌, IfOk};
ghost use Rattle.term_managed.specs.Ends.{all_fresh, is_on};
ghost use Rattle.std.specs.Prelude.{Some};

use l3_link::{LinkManagement, State, Times};
use std::alloc::{AllocError, Global};

/// The management of a link, and whether a way up of it has failed since it was settled.
#[derive(Debug, Drop)]
pub(crate) struct Kept {
    pub(crate) management: LinkManagement,
    pub(crate) tried: bool,
}

/// Whether level 3 manages this link.
pub(crate) fn is_on(kept: &Kept) -> bool
    ensures { result ≡ is_on (Some kept.now) }
{
    kept.management.state() != State::Off
}

/// So many links that aren't activated. It fails only where memory is wanted.
#[tactic(auto, using(crate::proofs::KeptLemmas::one_more))]
pub(crate) fn all_fresh(alloc: Global, links: u8, times: Times) -> Result<Vec<Kept>, AllocError>
    ensures { IfOk result (λ made. made.items ≡ all_fresh times links) }
{
    let mut made = Vec::with_capacity(alloc, usize::from(links))?;
    for _ in 0..links {
        made.push(Kept {
            management: LinkManagement::new(times, false),
            tried: false,
        })?;
    }
    Ok(made)
}
