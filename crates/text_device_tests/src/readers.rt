//! A reader that fails, at each call, and one that cuts its input anywhere.

use super::holds;
use super::texts::{ALL, Devices, End, MANY, Which, length_of, one_by_one, run_once, whole_of};
use std::alloc::Global;
use std::test::Fail;

/// Whether, where so many octets are read and the next read fails, a beginning of what they print is written, and nothing is
/// read after.
fn fails_at(alloc: Global, which: Which, reads: u32) -> bool {
    let input = which.input();
    let cut = run_once(alloc, which, input, one_by_one(reads, MANY));
    let (read, _) = input.split_at((reads as usize).min(input.len()));
    let printed = run_once(alloc, which, read, one_by_one(MANY, MANY)).octets;
    let ended = cut.end == End::Read && cut.failed_reads == 1 && cut.failed_writes == 0;
    ended && cut.reads == reads && printed.starts_with(&cut.octets)
}

/// Whether it's so at each read; where none fails, all is printed.
fn fails_at_each_read(alloc: Global, which: Which) -> bool {
    let length = length_of(which);
    let mut all = true;
    for reads in 0..=length {
        all = fails_at(alloc, which, reads) && all;
    }
    let last = run_once(
        alloc,
        which,
        which.input(),
        one_by_one(length.saturating_add(1), MANY),
    );
    all && last.end == End::Done && last.failed_reads == 0
}

#[test]
fn a_reader_that_fails_leaves_a_beginning(rt: HostRuntime) -> Result<(), Fail> {
    let mut all = true;
    for which in ALL {
        all = fails_at_each_read(rt.alloc(), which) && all;
    }
    holds(all)
}

/// Whether the sizes of the pieces that are read and written change nothing.
fn is_whole_in(alloc: Global, which: Which, read: usize, write: usize) -> bool {
    let whole = whole_of(alloc, which);
    let devices = Devices {
        read,
        write,
        reads: MANY,
        writes: MANY,
    };
    let other = run_once(alloc, which, which.input(), devices);
    let prints = whole.end == End::Done && !whole.octets.is_empty();
    prints && other.end == End::Done && other.octets == whole.octets
}

fn is_whole(alloc: Global, which: Which) -> bool {
    is_whole_in(alloc, which, 4_096, 1)
        && is_whole_in(alloc, which, 1, 4_096)
        && is_whole_in(alloc, which, 7, 5)
        && is_whole_in(alloc, which, 4_096, 4_096)
}

#[test]
fn a_writer_that_takes_fewer_octets_changes_nothing(rt: HostRuntime) -> Result<(), Fail> {
    let mut all = true;
    for which in ALL {
        all = is_whole(rt.alloc(), which) && all;
    }
    holds(all)
}
