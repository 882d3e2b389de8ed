//! Tests of what the program's texts are made by, over the public calls of those crates: devices that fail, the texts
//! of faults, words of the command line and help, and runs of two banks. Scripts and lines with what they print are
//! stored runs.
//!
//! They stand in a crate of their own, since a crate with tests is proved twice. There is nothing here but tests.
#![tactic(auto)]

#[cfg(test)]
use std::test::Fail;

#[cfg(test)]
mod captures;
#[cfg(test)]
mod cut_runs;
#[cfg(test)]
mod devices;
#[cfg(test)]
mod reports;
#[cfg(test)]
mod runs;
#[cfg(test)]
mod texts;
#[cfg(test)]
mod units;
#[cfg(test)]
mod words;

/// So it is. It stands in the place of `assert!`, whose text of what isn't so costs the prover a multiple.
#[cfg(test)]
fn holds(fact: bool) -> Result<(), Fail> {
    if fact {
        Ok(())
    } else {
        Err(Fail::from("it isn't so"))
    }
}
