//! A terminal's end under way, whose answers are in words.
use super::fault::TerminalFault;
use super::open_end::Terminal;
use std::alloc::Global;
use std::marker::Model;
use text_base::Stop;
use text_entries::write_named;
use text_lines::TalkText;

/// An end under way, whose answers are in words: a number that tells why something was refused or given up has its words
/// behind it.
#[derive(Drop)]
pub(crate) struct NamedTerminal {
    pub(crate) terminal: Terminal,
}

impl Model for NamedTerminal {
    ghost use Rattle.std.specs.Prelude.{Option};
    ghost use Rattle.terminal_text.specs.declared.open_end.End.{End as EndState};

    ghost Value = { Option EndState };

    ghost view = { λ named. named.terminal };
}

impl NamedTerminal {
    ghost use Rattle.std.specs.Prelude.{◌≡◌, None};
    ghost use Rattle.terminal_text.specs.Kept.{StaysAtFault};
    ghost use Rattle.terminal_text.specs.Named.{MayPrint};
    ghost use Rattle.text_lines.specs.Talking.{IsCarriedOut};

    /// Before the first line.
    pub(crate) fn new() -> NamedTerminal
        ensures { result ≡ None }
    {
        NamedTerminal {
            terminal: Terminal::new(),
        }
    }

    /// Carries out the line of this number, which is no remark, and appends what it prints. A line at fault leaves the end as
    /// it was.
    pub(crate) fn carry_out(
        &mut self,
        alloc: Global,
        number: u64,
        text: &[u8],
        out: &mut Vec<u8>,
    ) -> Result<(), Stop<TerminalFault>>
        ensures carried { IsCarriedOut result (MayPrint number self.old text.now) out.old.items out.new.items self.new }
        ensures stays { StaysAtFault result self.old self.new }
    {
        let mut printed = Vec::new(alloc);
        self.terminal.carry_out(alloc, number, text, &mut printed)?;
        Ok(out.extend_from_slice(&write_named(alloc, &printed)?)?)
    }
}

impl TalkText for NamedTerminal {
    type Fault = TerminalFault;

    ghost use Rattle.terminal_text.specs.Named.{named_rules, one_named};

    ghost rules = { named_rules };

    ghost one_outcome = { one_named };

    fn unreadable(number: u64) -> TerminalFault {
        Terminal::unreadable(number)
    }

    fn line(
        &mut self,
        alloc: Global,
        number: u64,
        text: &[u8],
        out: &mut Vec<u8>,
    ) -> Result<(), Stop<TerminalFault>> {
        self.carry_out(alloc, number, text, out)
    }

    fn end(&self, alloc: Global, out: &mut Vec<u8>) -> Result<(), Stop<TerminalFault>> {
        self.terminal.end(alloc, out)
    }
}
