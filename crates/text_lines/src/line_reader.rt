//! Lines under way: the line that is being read, and what those before it left.
ghost use Rattle.text_lines.specs.Reading.{IsReading};
ghost use Rattle.text_lines.specs.Under.{Finishes, HasReadLines, text_by};

use super::line_text::LineText;
use super::lines::end_of_line;
use std::alloc::Global;
use std::marker::Model;
use text_base::{Printer, Stop};

/// Lines under way.
#[derive(Drop)]
pub(crate) struct LineReader<L: LineText> {
    alloc: Global,
    /// The number of the line that is being read, from 1.
    line: u64,
    /// The octets of that line so far.
    text: Vec<u8>,
    /// What the lines before it left.
    state: L,
}

impl<L: LineText> Model for LineReader<L> {
    ghost use Rattle.text_lines.specs.Reading.{Reading, IsReading};

    ghost Value = { Reading L };

    ghost view = { λ p. record { line = p.line; text = p.text.items; state = p.state } };

    ghost invariant = { λ p. IsReading L.LONGEST_LINE p.text.items };
}

impl<L: LineText> LineReader<L> {
    ghost use Rattle.std.specs.Prelude.{◌≡◌, ℕ, List, [], ◌∷◌, ◌++◌};
    ghost use Rattle.text_lines.specs.Reading.{IsOpen};
    ghost use Rattle.text_lines.specs.Under.{AdvancesOrHalts, Finishes, HasReadLines, text_by};

    /// Before the first octet.
    pub(crate) fn new(alloc: Global, state: L) -> LineReader<L>
        ensures { result ≡ record { line = 1; text = []; state = state } }
    {
        LineReader {
            alloc,
            line: 1,
            text: Vec::new(alloc),
            state,
        }
    }

    /// Reads these octets.
    fn read_all(&mut self, octets: &[u8], out: &mut Vec<u8>) -> Result<(), Stop<L::Fault>>
        ensures { AdvancesOrHalts (text_by L.is_text) result (HasReadLines L.has_read self.old) octets.now
            out.old.items out.new.items (HasReadLines L.has_read self.new) }
    {
        let mut left = octets;
        while let Some(place) = end_of_line(left) {
            self.read_line(&left[..place], out)?;
            left = &left[place + 1..];
        }
        self.keep(left)
    }

    /// Reads what is left of a line, and the LF behind it.
    fn read_line(&mut self, octets: &[u8], out: &mut Vec<u8>) -> Result<(), Stop<L::Fault>>
        requires { IsOpen octets.now }
        ensures { AdvancesOrHalts (text_by L.is_text) result (HasReadLines L.has_read self.old)
            (octets.now ++ 10 ∷ []) out.old.items out.new.items (HasReadLines L.has_read self.new) }
    {
        if self.text.is_empty() {
            return self.read_at_once(octets, out);
        }
        self.keep(octets)?;
        self.end_line(out)
    }

    /// Reads a line of which nothing was kept, and its LF; its octets are copied nowhere.
    fn read_at_once(&mut self, octets: &[u8], out: &mut Vec<u8>) -> Result<(), Stop<L::Fault>>
        requires begins { self.old.text ≡ [] }
        requires open { IsOpen octets.now }
        ensures { AdvancesOrHalts (text_by L.is_text) result (HasReadLines L.has_read self.old)
            (octets.now ++ 10 ∷ []) out.old.items out.new.items (HasReadLines L.has_read self.new) }
    {
        L::laws();
        if octets.len() > L::LONGEST_LINE {
            return Err(Stop::Input(L::very_long(self.line)));
        }
        self.state.line(self.alloc, self.line, octets, out)?;
        self.line = self.line.saturating_add(1);
        Ok(())
    }

    /// Reads the LF that ends a line of which octets were kept.
    fn end_line(&mut self, out: &mut Vec<u8>) -> Result<(), Stop<L::Fault>>
        ensures { AdvancesOrHalts (text_by L.is_text) result (HasReadLines L.has_read self.old) (10 ∷ [])
            out.old.items out.new.items (HasReadLines L.has_read self.new) }
    {
        self.state.line(self.alloc, self.line, &self.text, out)?;
        self.text.clear();
        self.line = self.line.saturating_add(1);
        Ok(())
    }

    /// Reads octets that end no line: they print nothing.
    fn keep(&mut self, octets: &[u8]) -> Result<(), Stop<L::Fault>>
        requires { IsOpen octets.now }
        ensures { (out : List ℕ) → AdvancesOrHalts (text_by L.is_text) result (HasReadLines L.has_read self.old)
            octets.now out out (HasReadLines L.has_read self.new) }
    {
        L::laws();
        if octets.len() > L::LONGEST_LINE - self.text.len() {
            return Err(Stop::Input(L::very_long(self.line)));
        }
        self.text.extend_from_slice(octets)?;
        Ok(())
    }

    /// The input has ended: the last line may lack its LF.
    fn finish(&mut self, out: &mut Vec<u8>) -> Result<(), Stop<L::Fault>>
        ensures { Finishes (text_by L.is_text) result (HasReadLines L.has_read self.old) out.old.items out.new.items }
    {
        finished(self.alloc, &mut self.state, self.line, &self.text, out)
    }
}

/// What is left is read as a line, and what stands behind the last line is appended.
fn finished<L: LineText>(
    alloc: Global,
    state: &mut L,
    line: u64,
    text: &[u8],
    out: &mut Vec<u8>,
) -> Result<(), Stop<L::Fault>>
    requires { IsReading L.LONGEST_LINE text.now }
    ensures { Finishes (text_by L.is_text) result
        (HasReadLines L.has_read (record { line = line; text = text.now; state = state.old }))
        out.old.items out.new.items }
{
    if text.is_empty() {
        return state.end(alloc, line, out);
    }
    state.line(alloc, line, text, out)?;
    state.end(alloc, line.saturating_add(1), out)
}

impl<L: LineText + Drop> Printer for LineReader<L> {
    type Fault = L::Fault;

    ghost use Rattle.text_lines.specs.Under.{HasReadLines, text_by};

    ghost is_text = { text_by L.is_text };

    ghost has_read = { λ reader past lines. HasReadLines L.has_read reader past lines };

    fn read(&mut self, octets: &[u8], out: &mut Vec<u8>) -> Result<(), Stop<L::Fault>> {
        L::laws();
        self.read_all(octets, out)
    }

    fn end(self, out: &mut Vec<u8>) -> Result<(), Stop<L::Fault>> {
        L::laws();
        let mut reader = self;
        reader.finish(out)
    }
}
