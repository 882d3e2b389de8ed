//! The hexadecimal digits that `units` reads.
//!
//! ```text
//! input    7 e LF d f SP f 7 ..     digits of either case; space, tab, CR and LF are skipped
//! octets    7e      df     f7       two digits each, the high one first
//! bits      0 1 1 1 1 1 1 0  ..     fed lowest first
//! marks     a line of the output each
//! ```
ghost use Rattle.std.specs.Prelude.{[], MatchResult};
ghost use Rattle.text_units.specs.UnitsReading.{HasRead, Reads, Stops, Ends};

use super::digits::Digits;
use super::fault::UnreadableOctet;
use super::marked_line::MarkedLine;
use super::unit_lines::counts_line;
use std::alloc::Global;
use text_base::{Printer, Stop};

/// An input of `units` under way: what the line has given, and what of the input waits.
#[derive(Drop)]
pub(crate) struct UnitsReader {
    alloc: Global,
    digits: Digits,
    /// The octets of a piece of the input, before they're fed; their memory is kept for the next.
    octets: Vec<u8>,
    line: MarkedLine,
}

impl UnitsReader {
    /// Before the first octet.
    pub(crate) fn new(alloc: Global) -> UnitsReader
        ensures { HasRead [] [] result }
    {
        UnitsReader {
            alloc,
            digits: Digits::new(),
            octets: Vec::new(alloc),
            line: MarkedLine::new(alloc),
        }
    }

    /// Reads these characters of the input, and adds the lines of the marks that they give.
    ///
    /// Stops at the first that is neither a digit nor skipped; the lines of the marks before it are added.
    fn read_all(&mut self, text: &[u8], out: &mut Vec<u8>) -> Result<(), Stop<UnreadableOctet>>
        ensures { MatchResult result
            (λ done. Reads self.old text.now out.old.items out.new.items self.new)
            (λ stop. Stops stop self.old text.now out.old.items out.new.items) }
    {
        self.octets.clear();
        let read = self.digits.read(text, &mut self.octets);
        self.line.feed(&self.octets, out)?;
        read
    }

    /// The input has ended: adds the last line, or tells the digit that is left over.
    fn finish(self, out: &mut Vec<u8>) -> Result<(), Stop<UnreadableOctet>>
        ensures { Ends result self out.old.items out.new.items }
    {
        if self.digits.high.is_some() {
            return Err(Stop::Input(UnreadableOctet {
                place: self.digits.place,
            }));
        }
        out.extend_from_slice(&counts_line(self.alloc, self.line.counts)?)?;
        Ok(())
    }
}

impl Printer for UnitsReader {
    type Fault = UnreadableOctet;

    ghost use Rattle.text_units.specs.UnitsText.{IsUnitsText};
    ghost use Rattle.text_units.specs.UnitsReading.{HasRead};

    ghost is_text = { IsUnitsText };

    ghost has_read = { λ reader past lines. HasRead past lines reader };

    fn read(&mut self, octets: &[u8], out: &mut Vec<u8>) -> Result<(), Stop<UnreadableOctet>> {
        self.read_all(octets, out)
    }

    fn end(self, out: &mut Vec<u8>) -> Result<(), Stop<UnreadableOctet>> {
        self.finish(out)
    }
}
