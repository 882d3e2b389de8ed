//! What is left of the timers.
ghost use Rattle.std.specs.Prelude.{◌≡◌};
ghost use Rattle.l3_link.specs.Lengths.{is_over, lessened, no_clocks, one_less};

/// The turns left of each timer; `None`: it doesn't run. With 0 left it has ended, and nothing was asked at its end
/// yet.
#[derive(Clone, Copy, Debug, PartialEq, Eq)]
pub(crate) struct Clocks {
    /// T1, T2: the link was left, and what the far end has is awaited.
    pub t1: Option<u32>,
    pub t2: Option<u32>,
    /// T4, T5: the answer to a changeback is awaited.
    pub t4: Option<u32>,
    pub t5: Option<u32>,
    /// T17: the link rests.
    pub t17: Option<u32>,
    /// K1: the answer to a test is awaited.
    pub k1: Option<u32>,
    /// K2: the next test is due at its end.
    pub k2: Option<u32>,
    /// P: the far end has a processor outage.
    pub p: Option<u32>,
}

impl Clocks {
    /// None runs.
    pub(crate) const NONE: Clocks = Clocks {
        t1: None,
        t2: None,
        t4: None,
        t5: None,
        t17: None,
        k1: None,
        k2: None,
        p: None,
    };

    /// One turn less is left of each that runs.
    pub(crate) fn lessened(self) -> Clocks
        ensures { result ≡ lessened self }
    {
        Clocks {
            t1: one_less(self.t1),
            t2: one_less(self.t2),
            t4: one_less(self.t4),
            t5: one_less(self.t5),
            t17: one_less(self.t17),
            k1: one_less(self.k1),
            k2: one_less(self.k2),
            p: one_less(self.p),
        }
    }
}

/// A turn less is left.
fn one_less(clock: Option<u32>) -> Option<u32>
    ensures { result ≡ one_less clock }
{
    match clock {
        Some(left) => Some(left.saturating_sub(1)),
        None => None,
    }
}

/// Whether it has ended.
pub(crate) fn is_over(clock: Option<u32>) -> bool
    ensures { result ≡ is_over clock }
{
    clock == Some(0)
}
