//! Tests of the crates of level 2, over their public calls: values worked out by hand from Q.703.
//!
//! They stand in a crate of their own, since a crate with tests is proved twice. There is nothing here but tests.
#![tactic(auto)]

#[cfg(test)]
use std::test::Fail;

#[cfg(test)]
mod align;
#[cfg(test)]
mod basic;
#[cfg(test)]
mod bench;
#[cfg(test)]
mod bits;
#[cfg(test)]
mod deframing;
#[cfg(test)]
mod flow;
#[cfg(test)]
mod monitors;
#[cfg(test)]
mod pcr;
#[cfg(test)]
mod signals;
#[cfg(test)]
mod state;
#[cfg(test)]
mod units;
#[cfg(test)]
mod window;

/// So it is. It stands in the place of `assert!`, whose text of what isn't so costs the prover a multiple.
#[cfg(test)]
fn holds(fact: bool) -> Result<(), Fail> {
    if fact {
        Ok(())
    } else {
        Err(Fail::from("it isn't so"))
    }
}
