//! The messages heard for users.
ghost use Rattle.std.specs.Prelude.{◌≡◌, ◌≤◌, ℕ, List, length, IfOk};

use std::alloc::{AllocError, Allocator, Global};
use std::collections::VecDeque;
use std::marker::Model;

/// The messages heard for users, oldest first.
pub type Inbox<A = Global> = VecDeque<HeardBody<A>, A>;

/// The body of a heard message, in as much memory as it has octets: a unit has room for the longest.
#[derive(Drop)]
pub struct HeardBody<A: Allocator = Global> {
    octets: Vec<u8, A>,
}

impl<A: Allocator> Model for HeardBody<A> {
    ghost Value = { List ℕ };

    ghost view = { λ b. b.octets.items };

    ghost invariant = { λ b. length b.octets.items ≤ 273 };
}

impl<A: Allocator + Copy> HeardBody<A> {
    /// The body of a unit. Condition: at most 273 octets.
    pub fn new(alloc: A, body: &[u8]) -> Result<HeardBody<A>, AllocError>
        requires { length body.now ≤ 273 }
        ensures { IfOk result (λ heard. heard ≡ body.now) }
    {
        Ok(HeardBody {
            octets: Vec::from_slice(alloc, body)?,
        })
    }

    /// The same body again.
    pub fn copied(&self) -> Result<HeardBody<A>, AllocError>
        ensures { IfOk result (λ heard. heard ≡ self.now) }
    {
        Ok(HeardBody {
            octets: Vec::from_slice(*self.octets.allocator(), &self.octets)?,
        })
    }

    /// Its octets.
    pub fn octets(&self) -> &[u8]
        ensures value { result.now ≡ self.now }
        ensures few { length result.now ≤ 273 }
    {
        &self.octets
    }
}
