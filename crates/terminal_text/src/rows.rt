//! What the turns of one line of the input show, as it's printed.
ghost use Rattle.std.specs.Prelude.{◌≡◌, ◌++◌, [], ◌∷◌, None, false, IfOk, OnOk};
ghost use Rattle.std.specs.Option.{option_map};
ghost use Rattle.terminal_text.specs.Forgetting.{gone_text, lines_behind};
ghost use Rattle.terminal_text.specs.Showing.{gone, turned};
ghost use Rattle.terminal_text.specs.Rows.{AddsUnit, EndsRow, Shows, ShowsTurn, left_of};

use super::fault::Want;
use super::forgetting::write_gone;
use super::stopping::Stopper;
use super::words::{is_silent, push_row, push_turn};
use l2_units::Unit;
use std::alloc::Global;
use term_managed::{ManagedBench, ManagedTurn};
use text_base::is_word;
use text_units::push_unit_words;

/// A row of units that read so, which may go on.
#[derive(Drop)]
pub(crate) struct Row {
    pub(crate) words: Vec<u8>,
    pub(crate) times: u64,
}

/// What turns of a link show: what is printed of it, and the row of units that may go on.
#[derive(Drop)]
pub(crate) struct Rows {
    alloc: Global,
    link: u8,
    row: Option<Row>,
    text: Vec<u8>,
}

impl Rows {
    /// No turn was shown.
    pub(crate) fn new(alloc: Global, link: u8) -> Rows
        ensures link { result.link ≡ link }
        ensures row { result.row ≡ None }
        ensures text { result.text.items ≡ [] }
    {
        Rows {
            alloc,
            link,
            row: None,
            text: Vec::new(alloc),
        }
    }

    /// Shows what a turn did, who stopped the link, if it was stopped, and the unit that it appended, if it did and units are
    /// shown.
    pub(crate) fn show(
        &mut self,
        turn: &ManagedTurn,
        stopper: Stopper,
        unit: Option<&Unit>,
    ) -> Result<(), Want>
        ensures { OnOk result (Shows self.old
            (turned stopper (record { turn = turn.now; unit = option_map (λ u. u.now) unit.entry }) ∷ []) self.new) }
    {
        self.show_lines(turn, stopper)?;
        match unit {
            Some(unit) => self.add(unit),
            None => Ok(()),
        }
    }

    /// Shows what a turn did, but for its unit: where that is something, the row ends before it.
    fn show_lines(&mut self, turn: &ManagedTurn, stopper: Stopper) -> Result<(), Want>
        ensures { OnOk result (ShowsTurn self.old stopper turn.now self.new) }
    {
        if is_silent(turn) {
            return Ok(());
        }
        self.end_row()?;
        push_turn(&mut self.text, self.link, stopper, turn)?;
        Ok(())
    }

    /// A unit was appended: it stands in the row, or begins the next.
    fn add(&mut self, unit: &Unit) -> Result<(), Want>
        ensures { OnOk result (AddsUnit self.old unit.now self.new) }
    {
        let mut words = Vec::new(self.alloc);
        push_unit_words(unit, &mut words)?;
        if let Some(row) = &mut self.row {
            if is_word(&row.words, &words) {
                let Some(times) = row.times.checked_add(1) else {
                    return Err(Want);
                };
                row.times = times;
                return Ok(());
            }
        }
        self.end_row()?;
        self.row = Some(Row { words, times: 1 });
        Ok(())
    }

    /// The row ends, if there is one.
    fn end_row(&mut self) -> Result<(), Want>
        ensures { OnOk result (EndsRow self.old self.new) }
    {
        if let Some(row) = &self.row {
            push_row(&mut self.text, self.link, &row.words, row.times)?;
        }
        self.row = None;
        Ok(())
    }

    /// Shows the entries that go at a checkpoint of this end's set: the row ends before them.
    #[tactic(auto, using(crate::proofs::RowLemmas::gone_shown))]
    pub(crate) fn show_gone(&mut self, managed: &ManagedBench) -> Result<(), Want>
        ensures { OnOk result (Shows self.old (gone (gone_text false managed.now.bench.set.history) ∷ []) self.new) }
    {
        let lines = write_gone(self.alloc, managed.bench().set(), false)?;
        self.end_row()?;
        self.text.extend_from_slice(&lines)?;
        Ok(())
    }

    /// Shows where streams run then: where that is something, the row ends before it.
    #[tactic(auto, using(crate::proofs::RowLemmas::lines_shown, crate::proofs::RowLemmas::no_lines_shown))]
    pub(crate) fn show_moved(&mut self, lines: &[u8]) -> Result<(), Want>
        ensures { OnOk result (Shows self.old (lines_behind lines.now) self.new) }
    {
        if lines.is_empty() {
            return Ok(());
        }
        self.end_row()?;
        self.text.extend_from_slice(lines)?;
        Ok(())
    }

    /// Where memory for what is shown comes from.
    pub(crate) fn alloc(&self) -> Global {
        self.alloc
    }

    /// Nothing more is shown: what is printed.
    pub(crate) fn end(self) -> Result<Vec<u8>, Want>
        ensures { IfOk result (λ text. text.items ≡ self.text.items ++ left_of self.link self.row []) }
    {
        let mut rows = self;
        rows.end_row()?;
        Ok(rows.text)
    }
}
