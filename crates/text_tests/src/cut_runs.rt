//! A writer that fails, at each call, where a run of two banks prints what it came to.

use super::holds;
use mtpbank_words::{RunWords, Words, words_of};
use run_text::{Missing, RunFault, run};
use std::alloc::Global;
use std::io::Eprint;
use std::sync::Wait;
use std::test::Fail;
use std::thread::Threads;
use std::time::Clock;
use test_devices::Page;
use text_base::Fault;

/// The smallest run there is.
fn words(alloc: Global) -> Option<RunWords> {
    let words = [
        "run",
        "--links",
        "1",
        "--users",
        "1",
        "--messages",
        "1",
        "--turns",
        "1",
    ];
    match words_of(alloc, &words) {
        Ok(Words::Run(run)) => Some(run),
        _ => None,
    }
}

/// What a run writes on a page that takes so many octets, one a call, and how it ended.
fn run_on<R: Threads + Wait + Clock + Eprint + Copy + Send + Sync + 'static>(
    rt: &R,
    alloc: Global,
    words: &RunWords,
    writes: u32,
) -> (Page, Result<Option<Missing>, Fault<RunFault>>) {
    let mut page = Page {
        octets: Vec::new(alloc),
        piece: 1,
        writes,
        failures: 0,
    };
    let ended = run(rt, alloc, words, false, &mut page);
    (page, ended)
}

/// Whether the page failed once, and has this beginning of the text; the text is the same in each run.
fn fails_at_each_write<R: Threads + Wait + Clock + Eprint + Copy + Send + Sync + 'static>(
    rt: &R,
    alloc: Global,
    words: &RunWords,
) -> bool {
    let (whole, ended) = run_on(rt, alloc, words, 1_000_000);
    let length = whole.octets.len().min(1_000) as u32;
    let mut all = ended.is_ok() && length > 0;
    for writes in 0..length {
        let (page, ended) = run_on(rt, alloc, words, writes);
        let failed = matches!(ended, Err(Fault::Write)) && page.failures == 1;
        let begins = page.octets.len() == writes as usize && whole.octets.starts_with(&page.octets);
        all = failed && begins && all;
    }
    all
}

#[test]
fn a_writer_of_a_run_that_fails_has_a_beginning(rt: HostRuntime) -> Result<(), Fail> {
    match words(rt.alloc()) {
        Some(words) => holds(fails_at_each_write(&rt, rt.alloc(), &words)),
        None => Err(Fail::from("no run")),
    }
}
