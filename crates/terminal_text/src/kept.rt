//! An end that goes on behind a line at fault.
ghost use Rattle.std.specs.Prelude.{◌≡◌, ◌++◌, MatchResult, string_bytes};
ghost use Rattle.std.specs.Option.{option_map};
ghost use Rattle.terminal_text.specs.Kept.{fault_lines};

use super::fault::TerminalFault;
use super::named::NamedTerminal;
use super::open_end::Terminal;
use std::alloc::{AllocError, Global};
use std::marker::Model;
use text_base::Stop;
use text_lines::{Explained, Explains, TalkText};

/// An end under way that answers a line at fault, and goes on as if that had not come.
#[derive(Drop)]
pub(crate) struct KeptTerminal {
    terminal: Terminal,
}

impl Model for KeptTerminal {
    ghost use Rattle.std.specs.Prelude.{Option};
    ghost use Rattle.terminal_text.specs.declared.open_end.End.{End as EndState};

    ghost Value = { Option EndState };

    ghost view = { λ kept. kept.terminal };
}

impl KeptTerminal {
    ghost use Rattle.std.specs.Prelude.{◌≡◌, None};

    /// Before the first line.
    pub(crate) fn new() -> KeptTerminal
        ensures { result ≡ None }
    {
        KeptTerminal {
            terminal: Terminal::new(),
        }
    }
}

impl TalkText for KeptTerminal {
    type Fault = TerminalFault;

    ghost use Rattle.terminal_text.specs.Kept.{kept_terminal, one_kept, untold};
    ghost use Rattle.terminal_text.specs.One.{one_outcome};
    ghost use Rattle.terminal_text.specs.Text.{terminal_rules};

    ghost rules = { kept_terminal };

    ghost one_outcome = { one_kept terminal_rules untold one_outcome };

    fn unreadable(number: u64) -> TerminalFault {
        Terminal::unreadable(number)
    }

    fn line(
        &mut self,
        alloc: Global,
        number: u64,
        text: &[u8],
        out: &mut Vec<u8>,
    ) -> Result<(), Stop<TerminalFault>> {
        match self.terminal.carry_out(alloc, number, text, out) {
            Err(Stop::Input(fault)) => Ok(push_fault(alloc, fault, None, out)?),
            done => done,
        }
    }

    fn end(&self, alloc: Global, out: &mut Vec<u8>) -> Result<(), Stop<TerminalFault>> {
        self.terminal.end(alloc, out)
    }
}

/// The same, whose answers are in words; a fault is explained.
#[derive(Drop)]
pub(crate) struct KeptNamed {
    named: NamedTerminal,
}

impl Model for KeptNamed {
    ghost use Rattle.std.specs.Prelude.{Option};
    ghost use Rattle.terminal_text.specs.declared.open_end.End.{End as EndState};

    ghost Value = { Option EndState };

    ghost view = { λ kept. kept.named };
}

impl KeptNamed {
    ghost use Rattle.std.specs.Prelude.{◌≡◌, None};

    /// Before the first line.
    pub(crate) fn new() -> KeptNamed
        ensures { result ≡ None }
    {
        KeptNamed {
            named: NamedTerminal::new(),
        }
    }
}

impl TalkText for KeptNamed {
    type Fault = TerminalFault;

    ghost use Rattle.terminal_text.specs.Explaining.{said};
    ghost use Rattle.terminal_text.specs.Kept.{kept_named, one_kept};
    ghost use Rattle.terminal_text.specs.Named.{named_rules, one_named};
    ghost use Rattle.terminal_text.specs.Text.{early_in};

    ghost rules = { kept_named };

    ghost one_outcome = { one_kept named_rules (λ end. said (early_in end)) one_named };

    fn unreadable(number: u64) -> TerminalFault {
        Terminal::unreadable(number)
    }

    fn line(
        &mut self,
        alloc: Global,
        number: u64,
        text: &[u8],
        out: &mut Vec<u8>,
    ) -> Result<(), Stop<TerminalFault>> {
        let before = self.named.before();
        match self.named.carry_out(alloc, number, text, out) {
            Err(Stop::Input(fault)) => {
                let told = NamedTerminal::explain(alloc, &before, text, &fault)?;
                Ok(push_fault(alloc, fault, told, out)?)
            }
            done => done,
        }
    }

    fn end(&self, alloc: Global, out: &mut Vec<u8>) -> Result<(), Stop<TerminalFault>> {
        self.named.end(alloc, out)
    }
}

/// Appends the fault of a line, and the lines that explain it, if they are told.
fn push_fault(
    alloc: Global,
    fault: TerminalFault,
    told: Option<String>,
    out: &mut Vec<u8>,
) -> Result<(), AllocError>
    ensures { MatchResult result
        (λ done. out.new.items ≡ out.old.items ++ fault_lines fault (option_map string_bytes told))
        (λ want. out.new.items ≡ out.old.items) }
{
    let explained = Explained { fault, told };
    let lines = format!(in alloc; "fault {explained}\n")?;
    out.extend_from_slice(lines.as_bytes())
}
