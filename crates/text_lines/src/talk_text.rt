//! What the lines of a text are.
ghost use Rattle.std.specs.Prelude.{◌≡◌, ◌≤◌, length};
ghost use Rattle.text_lines.specs.Reading.{Adds};
ghost use Rattle.text_lines.specs.Talking.{IsCarriedOut};
ghost use Rattle.text_lines.specs.Talks.{HaveOneOutcome, TalkRules};

use std::alloc::Global;
use text_base::Stop;

/// The lines of a text whose outcomes a relation tells; its value is what the lines before one leave for it.
pub trait TalkText {
    /// How an input of this text can be at fault.
    type Fault: Drop;

    /// What the lines may do.
    ghost rules: { TalkRules Self Self.Fault };

    /// Each does one thing.
    ghost one_outcome: { HaveOneOutcome rules };

    /// The fault of a line that can't be read.
    fn unreadable(number: u64) -> Self::Fault
        ensures { result ≡ rules.unreadable number };

    /// Carries out the line of this number, which is no remark, and appends what it prints.
    fn line(
        &mut self,
        alloc: Global,
        number: u64,
        text: &[u8],
        out: &mut Vec<u8>,
    ) -> Result<(), Stop<Self::Fault>>
        requires { length text.now ≤ 4096 }
        ensures { IsCarriedOut result (rules.may number self.old text.now)
            out.old.items out.new.items self.new };

    /// Appends what is printed behind the last line.
    fn end(&self, alloc: Global, out: &mut Vec<u8>) -> Result<(), Stop<Self::Fault>>
        ensures { Adds result (rules.at_the_end self.now) out.old.items out.new.items };
}
