//! A history from its first entry to its last.
ghost use Rattle.std.specs.Prelude.{◌≡◌, take, drop};
ghost use Rattle.set_history.specs.Runs.{begun as begun_again};

use super::entry_ref::EntryRef;
use super::octets::{Octets, apart};
use super::run::{LastRun, Run};
use set_events::Entry;
use std::alloc::{AllocError, Global};
use std::marker::Model;

/// What is left of a history: of the run that is read, and the runs behind it.
#[derive(Clone, Copy)]
pub(crate) struct Course<'a> {
    /// Entries of this run that are left.
    entries: usize,
    left: &'a [u8],
    /// Those that come again, in turn: so many more, from `at` on, and from the first where nothing is left there.
    more: usize,
    cycle: &'a [u8],
    at: &'a [u8],
    /// The runs behind it, and the last one.
    runs: &'a [Run],
    behind: &'a [u8],
    last: LastRun,
}

impl<'a> Course<'a> {
    ghost use Rattle.std.specs.Prelude.{◌<◌, ◌+◌, ◌++◌, ◌∷◌, length};
    ghost use Rattle.set_history.specs.Runs.{run_told, last_told, history_told};
    ghost use Rattle.set_history.specs.Courses.{course_told, behind_told};

    /// These runs, and a last one of the octets behind them.
    pub(crate) fn new(octets: &'a [u8], runs: &'a [Run], last: LastRun) -> Course<'a>
        ensures { course_told result ≡ history_told runs.now last octets.now }
    {
        Course {
            entries: 0,
            left: &[],
            more: 0,
            cycle: &[],
            at: &[],
            runs,
            behind: octets,
            last,
        }
    }

    /// The next run.
    #[inline(never)]
    #[tactic(auto, using(crate::proofs::Courses::first_run, crate::proofs::Courses::some_left))]
    fn turned(&self) -> Course<'a>
        ensures same { course_told result ≡ behind_told self.now }
        ensures left { 0 < length (behind_told self.now) → 0 < result.entries + result.more }
    {
        match self.runs.split_first() {
            Some((run, runs)) => self.opened(*run, runs),
            None => self.last_opened(),
        }
    }

    /// This run, with these behind it.
    fn opened(&self, run: Run, runs: &'a [Run]) -> Course<'a>
        ensures same { course_told result ≡ run_told run.entries run.skip run.more (take run.size self.now.behind.now)
            ++ history_told runs.now self.now.last (drop run.size self.now.behind.now) }
        ensures some { 0 < result.entries }
    {
        let (left, behind) = apart(self.behind, run.size as usize);
        let (_, cycle) = apart(left, run.skip as usize);
        Course {
            entries: run.entries as usize,
            left,
            more: run.more as usize,
            cycle,
            at: &[],
            runs,
            behind,
            last: self.last,
        }
    }

    /// The last run, with nothing behind it.
    fn last_opened(&self) -> Course<'a>
        ensures same { course_told result ≡ last_told self.now.last self.now.behind.now }
        ensures entries { result.entries ≡ self.now.last.entries }
        ensures more { result.more ≡ self.now.last.more }
    {
        let (_, cycle) = apart(self.behind, self.last.skip);
        Course {
            entries: self.last.entries,
            left: self.behind,
            more: self.last.more,
            cycle,
            at: &[],
            runs: &[],
            behind: &[],
            last: LastRun {
                begin: 0,
                entries: 0,
                skip: 0,
                more: 0,
                next: 0,
                len: 0,
            },
        }
    }

    /// Goes to the next run where nothing of this one is left.
    #[inline(always)]
    fn ready(&mut self)
        ensures same { course_told self.new ≡ course_told self.old }
        ensures left { 0 < length (course_told self.old) → 0 < self.new.entries + self.new.more }
    {
        if self.entries == 0 && self.more == 0 {
            *self = self.turned();
        }
    }

    /// The next entry of this run.
    #[inline(always)]
    fn take(&mut self) -> EntryRef<'a>
        requires { 0 < self.old.entries + self.old.more }
        ensures { course_told self.old ≡ result ∷ course_told self.new }
    {
        if self.entries > 0 {
            let mut octets = Octets { left: self.left };
            let told = octets.entry();
            self.left = octets.left;
            self.entries -= 1;
            told
        } else {
            let mut octets = Octets {
                left: begun(self.cycle, self.at),
            };
            let told = octets.entry();
            self.at = octets.left;
            self.more -= 1;
            told
        }
    }
}

/// What is left of the octets that come in turn; where nothing is, all of them once more.
#[inline(always)]
fn begun<'a>(cycle: &'a [u8], at: &'a [u8]) -> &'a [u8]
    ensures { result.now ≡ begun_again cycle.now at.now }
{
    if at.is_empty() { cycle } else { at }
}

/// A history that is read in order. Contracts see the entries that are left.
#[derive(Drop)]
pub struct Reader<'a> {
    pub(crate) course: Course<'a>,
    pub(crate) len: usize,
}

impl<'a> Model for Reader<'a> {
    ghost use Rattle.std.specs.Prelude.{List, length, ◌≡◌};
    ghost use Rattle.set_events.specs.declared.history.Entry.{Entry as SetEntry};
    ghost use Rattle.set_history.specs.Courses.{course_told};

    ghost Value = { List SetEntry };

    ghost view = { λ r. course_told r.course };

    ghost invariant = { λ r. r.len ≡ length (course_told r.course) };
}

impl<'a> Reader<'a> {
    ghost use Rattle.std.specs.Prelude.{◌≡◌, ◌<◌, ◌^◌, [], ◌∷◌, length, IfOk, MatchOption};

    /// The next entry, which is the first of those that are left; `None` where none is.
    pub fn next(&mut self) -> Option<EntryRef<'a>>
        ensures { MatchOption result (self.old ≡ []) (λ told. self.old ≡ told ∷ self.new) }
    {
        let others = self.len.checked_sub(1)?;
        self.course.ready();
        let told = self.course.take();
        self.len = others;
        Some(told)
    }

    /// How many entries are left.
    pub fn len(&self) -> usize
        ensures { result ≡ length self.now }
    {
        self.len
    }

    /// The same once more, from its next entry on.
    pub fn again(&self) -> Reader<'a>
        ensures { result ≡ self.now }
    {
        Reader {
            course: self.course,
            len: self.len,
        }
    }

    /// The entries that are left, each by itself; it fails only where memory is wanted.
    pub fn entries(&self, alloc: Global) -> Result<Vec<Entry>, AllocError>
        ensures { IfOk result (λ entries. entries.items ≡ self.now) }
    {
        let mut entries = Vec::new(alloc);
        let mut left = self.again();
        while let Some(told) = left.next() {
            entries.push(told.entry(alloc)?)?;
        }
        Ok(entries)
    }
}
