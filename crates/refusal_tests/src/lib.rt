//! Tests of refused memory: each growth of a call is refused in turn, over an allocator that refuses it (`test_refusing`).
//!
//! A test makes the same calls at two values, one over such an allocator and its twin over the program's memory. Where a
//! call is refused, all readers tell what they told before, and the same call then answers what the twin answers. It runs
//! for the growth of number 1, 2, .., up to the number that no run came to: so each growth was refused once.
//!
//! `tools/refuse-memory refusal_tests` refuses the program's own memory too: then a call is made again, and nothing else
//! changes. `a_script_is_carried_out` alone makes no call again: where it passes, all was handed out.
#![tactic(auto)]

#[cfg(test)]
mod allocator;
#[cfg(test)]
mod lines;
#[cfg(test)]
mod script;
#[cfg(test)]
mod seats;
#[cfg(test)]
mod sets;
#[cfg(test)]
mod windows;
#[cfg(test)]
mod worlds;

#[cfg(test)]
use std::test::Fail;

/// At most so many growths are refused in one test: a set opens 256 queues, and its base as many; a world has two.
#[cfg(test)]
const MOST_GROWTHS: u64 = 4_000;

/// A call is made so often at most: one growth is refused by the test, and one by the tool.
#[cfg(test)]
const TRIES: u8 = 3;

/// What this call makes, which is made again where memory was refused to it. It's a function for all types, since letting go
/// of a set or an event is dear to prove.
#[cfg(test)]
fn made_at_last<T: Drop, F: FnMut() -> Option<T>>(mut make: F) -> Option<T>
    requires { F.IsAlwaysCallable make }
{
    for _ in 0..TRIES {
        if let Some(made) = make() {
            return Some(made);
        }
    }
    None
}

/// Whether a case holds of what was made; it doesn't of nothing. It's a function for all types, as above.
#[cfg(test)]
fn holds_of<T: Drop, F: FnOnce(&mut T) -> bool>(made: Option<T>, case: F) -> bool
    requires { F.IsAlwaysCallable case }
{
    match made {
        Some(mut it) => case(&mut it),
        None => false,
    }
}

/// So it is. It stands in the place of `assert!`, whose text of what isn't so costs the prover a multiple.
#[cfg(test)]
fn holds(fact: bool) -> Result<(), Fail> {
    if fact {
        Ok(())
    } else {
        Err(Fail::from("it isn't so"))
    }
}
