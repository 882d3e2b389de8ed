//! Tests of the text of `terminal`, over its public call: lines in pieces of any size, and devices that fail. Lines with what
//! they print are stored runs.
//!
//! They stand in a crate of their own, since a crate with tests is proved twice. There is nothing here but tests.
#![tactic(auto)]

#[cfg(test)]
use std::test::Fail;

#[cfg(test)]
mod devices;
#[cfg(test)]
mod lines;

/// So it is. It stands in the place of `assert!`, whose text of what isn't so costs the prover a multiple.
#[cfg(test)]
fn holds(fact: bool) -> Result<(), Fail> {
    if fact {
        Ok(())
    } else {
        Err(Fail::from("it isn't so"))
    }
}
