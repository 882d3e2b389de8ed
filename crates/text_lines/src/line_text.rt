//! What reads the lines of a text.
ghost use Rattle.std.specs.Prelude.{◌≡◌, ◌≤◌, ℕ, List, length};
ghost use Rattle.text_base.specs.Printing.{Printed};
ghost use Rattle.text_lines.specs.LineTexts.{AreBegun, EndsLines, HaveOneText, ReadsLineOrStops, RefuseVeryLong};

use std::alloc::Global;
use text_base::Stop;

/// What reads the lines of a text, one after another, and prints; its value is what it keeps of those that it has read.
///
/// Where memory is wanted or the text has ended with a fault, nothing more is to be read.
pub trait LineText {
    /// How these lines can be at fault.
    type Fault: Drop;

    /// The most octets of a line, without its LF.
    const LONGEST_LINE: usize;

    ghost LONGEST_LINE: { ℕ };

    /// Which text lines have.
    ghost is_text: { List (List ℕ) → Printed Self.Fault → Type 0 };

    /// These lines were read, and they have printed this.
    ghost has_read: { Self → List (List ℕ) → List ℕ → Type 0 };

    /// The fault of the line of this number where it's longer.
    ghost very_long: { ℕ → Self.Fault };

    /// Laws over these definitions alone: lines have one text; what was printed is the beginning of it, whatever lines follow;
    /// and it ends with a line that is longer, whatever else that line is.
    fn laws()
        ensures one_text { HaveOneText is_text }
        ensures begun { AreBegun is_text has_read }
        ensures refuses { RefuseVeryLong LONGEST_LINE very_long is_text has_read };

    /// The line of this number is longer.
    fn very_long(number: u64) -> Self::Fault
        ensures { result ≡ very_long number };

    /// Reads the line of this number, and appends what it prints.
    fn line(
        &mut self,
        alloc: Global,
        number: u64,
        text: &[u8],
        out: &mut Vec<u8>,
    ) -> Result<(), Stop<Self::Fault>>
        requires { length text.now ≤ LONGEST_LINE }
        ensures { ReadsLineOrStops is_text result (has_read self.old) number text.now
            out.old.items out.new.items (has_read self.new) };

    /// The lines have ended: appends what is printed then. This number is that behind the last.
    fn end(&self, alloc: Global, number: u64, out: &mut Vec<u8>) -> Result<(), Stop<Self::Fault>>
        ensures { EndsLines is_text result (has_read self.now) number out.old.items out.new.items };
}
