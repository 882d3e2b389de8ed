//! A text that is printed while another is read.
ghost use Rattle.std.specs.Prelude.{ℕ, List};
ghost use Rattle.text_base.specs.Printing.{Printed, ReadsOrStops, Ends};

use super::fault::Stop;

/// A text that is printed while another is read, in whatever pieces that comes.
///
/// Where memory is wanted or the text has ended with a fault, nothing more is to be read.
pub trait Printer {
    /// How an input of this text can be at fault.
    type Fault: Drop;

    /// Which text an input has.
    ghost is_text: { List ℕ → Printed Self.Fault → Type 0 };

    /// The printer has read these octets, and they have printed these.
    ghost has_read: { Self → List ℕ → List ℕ → Type 0 };

    /// Reads these octets, and appends what they print.
    fn read(&mut self, octets: &[u8], out: &mut Vec<u8>) -> Result<(), Stop<Self::Fault>>
        ensures { ReadsOrStops is_text result (has_read self.old) octets.now
            out.old.items out.new.items (has_read self.new) };

    /// The octets have ended: appends what is printed then.
    fn end(self, out: &mut Vec<u8>) -> Result<(), Stop<Self::Fault>>
        ensures { Ends is_text result (has_read self) out.old.items out.new.items };
}
