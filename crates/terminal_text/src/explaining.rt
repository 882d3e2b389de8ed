//! What is said of a line that ends the input with a fault.
ghost use Rattle.std.specs.Prelude.{◌≡◌, IfOk, string_bytes};
ghost use Rattle.std.specs.Option.{option_map};
ghost use Rattle.text_forms.specs.Showing.{explanation};
ghost use Rattle.terminal_text.specs.Explaining.{said, unread};

use super::fault::TerminalFault;
use super::named::NamedTerminal;
use std::alloc::{AllocError, Global};
use text_forms::{Blame, Early, blame_line, blame_link, blame_opening, blame_profile, explain};
use text_lines::Explains;

impl Explains for NamedTerminal {
    /// Which lines of lengths may come; `None` before the first line.
    type Before = Option<Early>;

    ghost use Rattle.terminal_text.specs.Explaining.{said};
    ghost use Rattle.terminal_text.specs.Text.{early_in};

    ghost said = { λ end. said (early_in end) };

    ghost said_by = { said };

    fn before(&self) -> Option<Early> {
        self.terminal.early()
    }

    fn explain(
        alloc: Global,
        before: &Option<Early>,
        text: &[u8],
        fault: &TerminalFault,
    ) -> Result<Option<String>, AllocError> {
        explain_fault(alloc, *before, text, *fault)
    }
}

/// The lines that explain a fault on this line.
fn explain_fault(
    alloc: Global,
    early: Option<Early>,
    text: &[u8],
    fault: TerminalFault,
) -> Result<Option<String>, AllocError>
    ensures { IfOk result (λ told. option_map string_bytes told ≡ said early text.now fault) }
{
    match fault {
        TerminalFault::Text { line, .. } => {
            shown(alloc, line, blame_unread(alloc, early, text)?, text)
        }
        TerminalFault::Step { line } => Ok(Some(explain(alloc, line, blame_link(text), text)?)),
    }
}

/// The explanation of the word at fault of this line, if there is one.
fn shown(
    alloc: Global,
    line: u64,
    blame: Option<Blame>,
    text: &[u8],
) -> Result<Option<String>, AllocError>
    ensures { IfOk result (λ told. option_map string_bytes told
        ≡ option_map (λ b. explanation line b text.now) blame) }
{
    match blame {
        Some(blame) => Ok(Some(explain(alloc, line, blame, text)?)),
        None => Ok(None),
    }
}

/// The word at fault of a line that can't be read.
fn blame_unread(
    alloc: Global,
    early: Option<Early>,
    text: &[u8],
) -> Result<Option<Blame>, AllocError>
    ensures { IfOk result (λ blame. blame ≡ unread early text.now) }
{
    if let Some(early) = early {
        return blame_line(alloc, early, text);
    }
    match blame_opening(text) {
        Some(blame) => Ok(Some(blame)),
        None => Ok(Some(blame_profile(text))),
    }
}
