//! An end that C holds.
ghost use Rattle.mtpbank_end.specs.Holding.{bench_coded, end_owns};
ghost use Rattle.term_managed.specs.Ends.{ManagedState};

use super::parts::Parts;
use std::alloc::Global;
use std::marker::Model;
use term_managed::ManagedBench;

/// An end that C holds, from its opening to its closing: its address. `mtpbank_end` in C.
#[repr(C)]
pub struct End {
    at: *mut u8,
    alloc: Global,
    pub ghost bench: { ManagedState } by { bench_coded },
}

impl Model for End {
    ghost also_owns = { λ e. end_owns e.alloc e.at e.bench };
}

impl End {
    ghost use Rattle.std.specs.Prelude.{◌≡◌};
    ghost use types.Logic.{sem};
    ghost use Rattle.mtpbank_end.specs.Following.{end_follows};

    /// The end.
    pub(crate) fn bench(&mut self) -> &mut ManagedBench
        ensures* writes_back { sem 𝓛 (end_follows self.entry result) }
        ensures value { result.now ≡ self.old.bench }
    {
        unsafe { &mut *(self.at as *mut ManagedBench) }
    }

    /// The parts of its box.
    fn into_parts(self) -> Parts<ManagedBench, Global>
        ensures { result.value ≡ self.bench }
    {
        let End { at, alloc } = self;
        Parts {
            ptr: at as *mut ManagedBench,
            alloc,
        }
    }

    /// The end, which C holds no more.
    pub(crate) fn into_box(self) -> Box<ManagedBench>
        ensures { result.value ≡ self.bench }
    {
        self.into_parts().into_box()
    }
}

/// A law: an end may be called by one thread and then by another one, since the compiler takes it for `Send`.
fn may_go_to_another_thread() {
    may_go::<ManagedBench>();
}

/// Takes any type that may go from one thread to another one.
fn may_go<T: Send>() {}
