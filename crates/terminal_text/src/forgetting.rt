//! Checkpoints that nobody asks for.
ghost use Rattle.std.specs.Prelude.{◌≡◌, IfOk, OnOk};
ghost use Rattle.terminal_text.specs.Forgetting.{checkpointed, gone_by, gone_text};
ghost use Rattle.terminal_text.specs.Rows.{Shows};

use super::fault::Want;
use super::moving::Places;
use super::rows::Rows;
use super::stopping::{UNWATCHED, Watch};
use l2_units::Profile;
use set_core::SetCore;
use std::alloc::{AllocError, Global};
use term_managed::ManagedBench;
use text_entries::write_piece;

/// A checkpoint of the set behind each so many turns of all links together.
#[derive(Clone, Copy)]
pub(crate) struct Forgetting {
    /// How many turns; 0: there are none.
    every: u32,
    /// Behind how many turns the next one is due; 0: behind none.
    left: u32,
    /// Whether the entries that go are printed.
    told: bool,
}

impl Forgetting {
    ghost use Rattle.std.specs.Prelude.{◌≡◌};
    ghost use Rattle.terminal_text.specs.Forgetting.{from_now, is_due, never, one_turn};

    /// There are none.
    pub(crate) fn never() -> Forgetting
        ensures { result ≡ never }
    {
        Forgetting {
            every: 0,
            left: 0,
            told: false,
        }
    }

    /// From now on behind each so many turns; 0: none.
    pub(crate) fn from_now(every: u32, told: bool) -> Forgetting
        ensures { result ≡ from_now every told }
    {
        Forgetting {
            every,
            left: every,
            told,
        }
    }

    /// A turn was taken: whether one is due behind it.
    #[inline(always)]
    fn take_turn(&mut self) -> bool
        ensures due { result ≡ is_due self.old }
        ensures turn { self.new ≡ one_turn self.old }
    {
        if self.left == 1 {
            self.left = self.every;
            return true;
        }
        self.left = self.left.saturating_sub(1);
        false
    }
}

/// One end whose links are managed, the checkpoints that nobody asks for, who told each link to stop, and where streams ran
/// when that was told last, if it's told.
#[derive(Drop)]
pub(crate) struct ForgettingBench {
    pub(crate) managed: ManagedBench,
    pub(crate) plan: Forgetting,
    pub(crate) watches: [Watch; 16],
    pub(crate) streams: Option<Places>,
}

impl ForgettingBench {
    ghost use Rattle.std.specs.Prelude.{◌≡◌, ◌≤◌, IfOk, OnOk, length};
    ghost use Rattle.terminal_text.specs.Forgetting.{IsForgotten, IsOver, late_before, retold, unasked};
    ghost use Rattle.terminal_text.specs.Moving.{moved};

    /// This end, where nobody asked for any, nor to tell of streams, nor told a link to stop.
    pub(crate) fn new(managed: ManagedBench) -> ForgettingBench
        ensures { result ≡ unasked managed }
    {
        ForgettingBench {
            managed,
            plan: Forgetting::never(),
            watches: [UNWATCHED; 16],
            streams: None,
        }
    }

    /// How many changeover orders about this link the set has heard late.
    #[inline(always)]
    pub(crate) fn late(&self, link: u8) -> u32
        ensures late { result ≡ late_before link self.now }
        ensures few { length self.now.managed.bench.links ≤ 16 }
    {
        self.managed.bench().set().late(link)
    }

    /// A turn of this number was taken, and shown: where streams run then is shown, and the checkpoint that may be due behind
    /// it is taken, and shown.
    #[inline(always)]
    pub(crate) fn end_turn(&mut self, turn: u64, rows: &mut Rows) -> Result<(), Want>
        ensures { OnOk result (IsOver turn self.old self.new rows.old rows.new) }
    {
        let lines = self.tell_moves(rows.alloc(), turn)?;
        rows.show_moved(&lines)?;
        self.forget_turn(rows)
    }

    /// Where streams run that ran elsewhere when it was told last, behind the turn of this number: the lines.
    pub(crate) fn tell_moves(&mut self, alloc: Global, turn: u64) -> Result<Vec<u8>, AllocError>
        ensures lines { IfOk result (λ lines. lines.items
            ≡ moved turn self.old.streams self.old.managed.bench.set.state) }
        ensures told { IfOk result (λ lines. self.new ≡ retold self.old) }
    {
        let Some(was) = &self.streams else {
            return Ok(Vec::new(alloc));
        };
        let set = self.managed.bench().set();
        let lines = was.write_moves(alloc, set, turn)?;
        self.streams = Some(Places::of(alloc, set)?);
        Ok(lines)
    }

    /// The checkpoint that may be due behind a turn is taken, and shown.
    #[inline(always)]
    fn forget_turn(&mut self, rows: &mut Rows) -> Result<(), Want>
        ensures { OnOk result (IsForgotten self.old self.new rows.old rows.new) }
    {
        if self.plan.take_turn() {
            forget(&mut self.managed, self.plan.told, rows)
        } else {
            Ok(())
        }
    }
}

/// A checkpoint that nobody asked for.
#[inline(never)]
fn forget(managed: &mut ManagedBench, told: bool, rows: &mut Rows) -> Result<(), Want>
    ensures { OnOk result ((managed.new ≡ checkpointed managed.old)
        × Shows rows.old (gone_by told managed.old.bench.set.history) rows.new) }
{
    tell_gone(managed, told, rows)?;
    managed.checkpoint()?;
    Ok(())
}

/// The entries that go at a checkpoint are shown, where they are to be told.
#[tactic(auto, using(crate::proofs::ForgettingLemmas::tells_gone, crate::proofs::ForgettingLemmas::tells_nothing))]
fn tell_gone(managed: &ManagedBench, told: bool, rows: &mut Rows) -> Result<(), Want>
    ensures { OnOk result (Shows rows.old (gone_by told managed.now.bench.set.history) rows.new) }
{
    if told {
        rows.show_gone(managed)?;
        Ok(())
    } else {
        Ok(())
    }
}

/// The entries that go at a checkpoint; nothing where it's quiet.
pub(crate) fn write_gone(alloc: Global, set: &SetCore, quiet: bool) -> Result<Vec<u8>, AllocError>
    ensures { IfOk result (λ text. text.items ≡ gone_text quiet set.now.history) }
{
    if quiet {
        return Ok(Vec::new(alloc));
    }
    write_piece(alloc, Profile::Narrow, set.history())
}
