//! A writer that fails, at each call, also where the input has a fault.

use super::holds;
use super::texts::{ALL, Devices, End, MANY, Ran, Which, one_by_one, run_once, whole_of};
use std::alloc::{AllocError, Global};
use std::test::Fail;

/// Whether it's the writer that failed, once, behind this beginning of the octets.
fn is_cut(cut: &Ran, octets: &[u8], writes: u32) -> bool {
    let failed = cut.end == End::Write && cut.failed_writes == 1 && cut.failed_reads == 0;
    failed && cut.octets.len() == writes as usize && octets.starts_with(&cut.octets)
}

/// Whether, where so many octets are written and the next write fails, those are the first, and no octet is read after: the
/// last that was read is one without which no more would have been written.
fn fails_at(alloc: Global, which: Which, whole: &[u8], writes: u32) -> bool {
    let cut = run_once(alloc, which, which.input(), one_by_one(MANY, writes));
    let reads = cut.reads.saturating_sub(1);
    let before = run_once(alloc, which, which.input(), one_by_one(reads, MANY));
    is_cut(&cut, whole, writes) && before.octets.len() <= writes as usize
}

/// Whether it's so at each write; where none fails, all is printed.
fn fails_at_each_write(alloc: Global, which: Which) -> bool {
    let whole = whole_of(alloc, which);
    let length = whole.octets.len().min(100_000) as u32;
    let mut all = length > 0;
    for writes in 0..length {
        all = fails_at(alloc, which, &whole.octets, writes) && all;
    }
    let last = run_once(alloc, which, which.input(), one_by_one(MANY, length));
    all && last.end == End::Done && last.failed_writes == 0
}

#[test]
fn a_writer_that_fails_leaves_a_beginning(rt: HostRuntime) -> Result<(), Fail> {
    let mut all = true;
    for which in ALL {
        all = fails_at_each_write(rt.alloc(), which) && all;
    }
    holds(all)
}

/// The input of a text, and behind it a line that none has.
fn with_fault(alloc: Global, which: Which) -> Result<Vec<u8>, AllocError> {
    let mut input = Vec::from_slice(alloc, which.input())?;
    input.extend_from_slice(b"x\n")?;
    Ok(input)
}

/// All is read at once, and written octet by octet.
fn at_once(writes: u32) -> Devices {
    Devices {
        read: 4_096,
        write: 1,
        reads: MANY,
        writes,
    }
}

/// Whether the input's fault is told only where all before it was written, and the writer's in its place else.
fn tells_the_fault_behind_all(alloc: Global, which: Which, input: &[u8]) -> bool {
    let whole = run_once(alloc, which, input, at_once(MANY));
    let length = whole.octets.len().min(100_000) as u32;
    let mut all = whole.end == which.end_at_fault();
    for writes in 0..length {
        all = is_cut(
            &run_once(alloc, which, input, at_once(writes)),
            &whole.octets,
            writes,
        ) && all;
    }
    all && run_once(alloc, which, input, at_once(length)).end == which.end_at_fault()
}

#[test]
fn a_fault_is_told_behind_all_that_was_printed(rt: HostRuntime) -> Result<(), Fail> {
    let mut all = true;
    for which in ALL {
        let input = with_fault(rt.alloc(), which)?;
        all = tells_the_fault_behind_all(rt.alloc(), which, &input) && all;
    }
    holds(all)
}
