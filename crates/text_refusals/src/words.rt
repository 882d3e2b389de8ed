//! The words of the command line.
use super::{Came, holds, is_right};
use mtpbank_words::{Words, WordsFault, words_of};
use std::alloc::Global;
use std::test::Fail;

/// A run of three sets.
fn run_words(alloc: Global) -> Came {
    match words_of(alloc, &["run", "--sets", "3"]) {
        Ok(Words::Run(run)) if run.sets == 3 => Came::Whole,
        Err(WordsFault::NoMemory) => Came::Refused,
        _ => Came::Wrong,
    }
}

#[test]
fn a_refused_allocation_takes_no_words(rt: HostRuntime) -> Result<(), Fail> {
    holds(is_right(run_words(rt.alloc()), run_words(rt.alloc())))
}

/// A word that is wrong.
fn wrong_words(alloc: Global) -> Came {
    match words_of(alloc, &["paly"]) {
        Err(WordsFault::Words(_) | WordsFault::Said(_)) => Came::Whole,
        Err(WordsFault::NoMemory) => Came::Refused,
        _ => Came::Wrong,
    }
}

/// Whether both kinds of words are whole.
pub(crate) fn are_told(alloc: Global) -> bool {
    run_words(alloc) == Came::Whole && wrong_words(alloc) == Came::Whole
}

#[test]
fn a_refused_allocation_tells_of_no_word(rt: HostRuntime) -> Result<(), Fail> {
    holds(is_right(wrong_words(rt.alloc()), wrong_words(rt.alloc())))
}
