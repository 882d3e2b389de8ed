//! Tests of devices that fail: a reader and a writer, at each call, in each of the program's texts.
//!
//! They stand in a crate of their own, since a crate with tests is proved twice. There is nothing here but tests.
#![tactic(auto)]

#[cfg(test)]
use std::test::Fail;

#[cfg(test)]
mod readers;
#[cfg(test)]
mod stalled;
#[cfg(test)]
mod texts;
#[cfg(test)]
mod writers;

/// So it is. It stands in the place of `assert!`, whose text of what isn't so costs the prover a multiple.
#[cfg(test)]
fn holds(fact: bool) -> Result<(), Fail> {
    if fact {
        Ok(())
    } else {
        Err(Fail::from("it isn't so"))
    }
}
