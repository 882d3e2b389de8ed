//! A run: entries that are written, and how many more repeat the last of them in turn.
ghost use Rattle.std.specs.Prelude.{◌<◌};

/// So many entries, in so many octets, and so many more that repeat those behind its first `skip` octets, in turn.
#[derive(Clone, Copy)]
pub(crate) struct Run {
    pub(crate) entries: u32,
    pub(crate) size: u32,
    pub(crate) skip: u32,
    pub(crate) more: u32,
    ghost written: { 0 < entries },
}

/// The last run, to which entries are added.
#[derive(Clone, Copy)]
pub(crate) struct LastRun {
    /// Where its octets begin. They end where all do.
    pub(crate) begin: usize,
    pub(crate) entries: usize,
    pub(crate) skip: usize,
    pub(crate) more: usize,
    /// Where the entry stands that is next in turn; the end where none is.
    pub(crate) next: usize,
    /// How many entries there are in all runs together.
    pub(crate) len: usize,
}
