//! The bits of a line, and the lines of their marks.
ghost use Rattle.l2_bits.specs.declared.marks.Mark.{Mark};
ghost use Rattle.l2_bits.specs.Deframing.{marked, left_in};
ghost use Rattle.std.specs.Prelude.{◌≡◌, ℕ, ◌+◌, ◌<◌, ◌^◌, List, [], ◌∷◌, ◌++◌, length, IfOk, MatchResult, true, false};
ghost use Rattle.l2_bits.specs.LineBits.{line_bits};
ghost use Rattle.text_units.specs.UnitsText.{counts_of};
ghost use Rattle.text_units.specs.UnitsReading.{IsLine, Feeds, FeedsFirst, Breaks};

use super::unit_lines::{MarkCounts, add_mark};
use l2_bits::{Deframer, MarkKind, Octets};
use std::alloc::{AllocError, Global};

/// A line under way: what its deframer keeps, and how many marks it has given.
#[derive(Drop)]
pub(crate) struct MarkedLine {
    deframer: Deframer,
    /// The printed line of a mark that is made of pieces, before it's added whole; its memory is kept for the next.
    text: Vec<u8>,
    pub(crate) counts: MarkCounts,
}

impl MarkedLine {
    /// Before the first bit.
    pub(crate) fn new(alloc: Global) -> MarkedLine
        ensures { IsLine [] [] result }
    {
        MarkedLine {
            deframer: Deframer::new(),
            text: Vec::new(alloc),
            counts: MarkCounts {
                good: 0,
                bad: 0,
                sixteen: 0,
            },
        }
    }

    /// Feeds these octets, of each the lowest bit first, and adds the lines of their marks.
    pub(crate) fn feed(&mut self, octets: &[u8], out: &mut Vec<u8>) -> Result<(), AllocError>
        ensures { MatchResult result
            (λ done. Feeds self.old (line_bits octets.now) out.old.items out.new.items self.new)
            (λ error. Breaks self.old (line_bits octets.now) out.old.items out.new.items) }
    {
        let mut left = Octets::new(octets);
        while self.feed_first(&mut left, out)? {}
        Ok(())
    }

    /// Feeds the first of these bits up to one that gives a mark, and adds its line; says whether one did.
    #[inline(always)]
    fn feed_first(&mut self, left: &mut Octets<'_>, out: &mut Vec<u8>) -> Result<bool, AllocError>
        ensures feeds { MatchResult result
            (λ marked. FeedsFirst self.old (left_in left.old)
            out.old.items (left_in left.new) out.new.items self.new)
            (λ error. Breaks self.old (left_in left.old) out.old.items out.new.items) }
        ensures fewer { IfOk result (λ marked. marked ≡ true
            → length (left_in left.new) < length (left_in left.old)) }
        ensures all { IfOk result (λ marked. marked ≡ false → left_in left.new ≡ []) }
    {
        let Some(kind) = self.deframer.feed_octets(left) else {
            return Ok(false);
        };
        self.counts = counted(self.counts, kind);
        add_mark(kind, self.deframer.unit(), &mut self.text, out)?;
        Ok(true)
    }
}

/// One mark more. An input of the program has too few for a count to end at its type's last number.
fn counted(counts: MarkCounts, kind: MarkKind) -> MarkCounts
    ensures { (marks : List Mark) (octets : List ℕ) → length marks + 1 < 2 ^ 64
        → counts ≡ counts_of marks
        → result ≡ counts_of (marks ++ marked kind octets ∷ []) }
{
    let mut counts = counts;
    match kind {
        MarkKind::Good => counts.good = counts.good.saturating_add(1),
        MarkKind::Bad => counts.bad = counts.bad.saturating_add(1),
        MarkKind::Sixteen => counts.sixteen = counts.sixteen.saturating_add(1),
    }
    counts
}
