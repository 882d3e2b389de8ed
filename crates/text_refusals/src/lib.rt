//! Tests of refused memory, of what prints and of what runs in threads: the program's own memory is refused.
//!
//! `tools/refuse-memory text_refusals` refuses each allocation of each test in turn. A test makes the same call twice:
//! one of the two is refused then, and the other one isn't. What the refused one printed is a beginning of what the other
//! prints, and it tells that memory is wanted; nothing else changes. With nothing refused both are whole.
#![tactic(auto)]

#[cfg(test)]
mod banks;
#[cfg(test)]
mod kept;
#[cfg(test)]
mod locks;
#[cfg(test)]
mod texts;
#[cfg(test)]
mod words;

#[cfg(test)]
use std::test::Fail;

/// What a call came to.
#[cfg(test)]
#[derive(Clone, Copy, Debug, PartialEq, Eq)]
enum Came {
    /// All of it was done.
    Whole,
    /// It told that memory is wanted.
    Refused,
    /// It came to something else.
    Wrong,
}

/// Of two calls at most one was refused, and the other is whole.
#[cfg(test)]
fn is_right(first: Came, second: Came) -> bool {
    match (first, second) {
        (Came::Whole, Came::Whole | Came::Refused) | (Came::Refused, Came::Whole) => true,
        _ => false,
    }
}

/// So it is. It stands in the place of `assert!`, whose text of what isn't so costs the prover a multiple.
#[cfg(test)]
fn holds(fact: bool) -> Result<(), Fail> {
    if fact {
        Ok(())
    } else {
        Err(Fail::from("it isn't so"))
    }
}
