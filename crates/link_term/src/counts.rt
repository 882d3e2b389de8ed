//! How many marks were heard.
ghost use Rattle.std.specs.Prelude.{◌≡◌, ◌<◌, ◌≤◌, ◌+◌, ◌∷◌, ℕ, List};
ghost use Rattle.l2_bits.specs.declared.marks.Mark.{Mark};
ghost use Rattle.l2_bits.specs.Deframing.{marked as mark_of};
ghost use Rattle.link_term.specs.Octets.{counts_of};

use l2_bits::MarkKind;

/// How many marks of each kind an octet gave (Q.703 4.1): two in all at most.
#[derive(Clone, Copy, Debug, PartialEq, Eq)]
pub struct MarkCounts {
    /// Good signal units.
    pub good: u8,
    /// Damaged ones.
    pub bad: u8,
    /// Sixteen octets each, in octet counting.
    pub sixteen: u8,
}

impl MarkCounts {
    /// None was heard.
    pub(crate) const NONE: MarkCounts = MarkCounts {
        good: 0,
        bad: 0,
        sixteen: 0,
    };

    /// One of this kind was heard before them.
    pub(crate) fn after(self, kind: MarkKind) -> MarkCounts
        requires good { self.good < 8 }
        requires bad { self.bad < 8 }
        requires sixteen { self.sixteen < 8 }
        ensures counts { (marks : List Mark) (octets : List ℕ) → self ≡ counts_of marks
            → result ≡ counts_of (mark_of kind octets ∷ marks) }
        ensures few { (result.good ≤ self.good + 1) × (result.bad ≤ self.bad + 1)
            × (result.sixteen ≤ self.sixteen + 1) }
    {
        match kind {
            MarkKind::Good => MarkCounts {
                good: self.good + 1,
                ..self
            },
            MarkKind::Bad => MarkCounts {
                bad: self.bad + 1,
                ..self
            },
            MarkKind::Sixteen => MarkCounts {
                sixteen: self.sixteen + 1,
                ..self
            },
        }
    }
}

/// What a turn did.
#[derive(Clone, Copy, Debug, PartialEq, Eq)]
pub struct Turned {
    /// How many marks its octet gave.
    pub marks: MarkCounts,
    /// What came of the choice of a unit to send.
    pub filling: Filling,
}

/// What came of the choice of a unit to send.
#[derive(Clone, Copy, Debug, PartialEq, Eq)]
pub enum Filling {
    /// Enough was left to send.
    Enough,
    /// A unit was appended to what is left to send.
    Chosen,
    /// The set gave a unit of the wide profile, which isn't sent: the turn ends there.
    Wide,
}
