//! A writer of the standard library that takes no octet any more, which is a failure.

use super::holds;
use super::texts::{ALL, End, MANY, Which, run, whole_of};
use std::alloc::Global;
use std::io;
use std::io::Write;
use std::test::Fail;
use test_devices::Text;
use text_base::Writer;

/// Takes an octet a call, and after so many calls none.
#[derive(Drop)]
struct Stalled {
    left: u32,
    calls: u32,
}

impl Write for Stalled {
    fn write(&mut self, octets: &[u8]) -> io::Result<usize> {
        self.calls = self.calls.wrapping_add(1);
        if self.left == 0 {
            return Ok(0);
        }
        self.left -= 1;
        Ok(octets.len().min(1))
    }

    fn flush(&mut self) -> io::Result<()> {
        Ok(())
    }
}

/// Whether a text ends as where the writer failed, and isn't written any more, once the writer has taken so many octets.
fn ends_at(alloc: Global, which: Which, octets: u32) -> bool {
    let mut text = Text {
        rest: which.input(),
        piece: 1,
        reads: MANY,
        failures: 0,
    };
    let mut sink = Writer::new(Stalled {
        left: octets,
        calls: 0,
    });
    let end = run(alloc, which, &mut text, &mut sink);
    end == End::Write && sink.into_inner().calls == octets.wrapping_add(1)
}

fn ends_at_each_octet(alloc: Global, which: Which) -> bool {
    let length = whole_of(alloc, which).octets.len().min(100_000) as u32;
    let mut all = length > 0;
    for octets in 0..length {
        all = ends_at(alloc, which, octets) && all;
    }
    all
}

#[test]
fn a_writer_that_takes_nothing_has_failed(rt: HostRuntime) -> Result<(), Fail> {
    let mut all = true;
    for which in ALL {
        all = ends_at_each_octet(rt.alloc(), which) && all;
    }
    holds(all)
}
