//! The marks of a line, and the laws about them.

ghost use Rattle.l2_bits.specs.OctetCounting.{
  NoneAtFirst,
  BeginsWhereLost,
  StaysAligned,
  GoesOn,
  EndsWithUnit,
};
ghost use Rattle.l2_bits.specs.Marks.{
  BitHasOneMark,
  BitsHaveOneList,
  OctetHasTwoMarks,
  OneBitMore,
  UnitGivesOneGood,
};

use arrayvec::ArrayVec;

/// What a signalling terminal sees of a line, as its error rate monitors are told (Q.703 4.1).
#[derive(Clone, Debug, PartialEq, Eq, Drop)]
pub enum Mark {
    /// A signal unit that checks: its 3 to 276 octets, without the check octets.
    Good(ArrayVec<u8, 276>),
    /// Anything else between two flags, outside octet counting.
    Bad,
    /// Sixteen octets more in octet counting.
    Sixteen,
}

/// A place for a mark that is empty yet, as an `ArrayVec` of marks fills its own.
impl Default for Mark {
    ghost use Rattle.std.specs.Prelude.{◌≡◌};
    ghost use Rattle.l2_bits.specs.declared.marks.Mark.TheVariants.{Bad};

    ghost is_default = { λ mark. mark ≡ Bad };

    fn default() -> Mark {
        Mark::Bad
    }
}

/// The kind of a mark, without the octets of a good signal unit.
#[derive(Clone, Copy, Debug, PartialEq, Eq)]
pub enum MarkKind {
    /// A signal unit that checks.
    Good,
    /// Anything else between two flags, outside octet counting.
    Bad,
    /// Sixteen octets more in octet counting.
    Sixteen,
}

/// Laws over the definitions alone: a bit gives at most one mark, so bits give one list of marks, to which
/// one bit more adds its own. A sealed text between flags gives one good signal unit and nothing else,
/// whatever stood before the first flag outside octet counting. An octet gives two marks at most.
pub fn one_mark()
    ensures one_mark { BitHasOneMark }
    ensures one_list { BitsHaveOneList }
    ensures two_marks { OctetHasTwoMarks }
    ensures one_more { OneBitMore }
    ensures one_good { UnitGivesOneGood }
{}

/// Laws over the definitions alone: octet counting does not run at first, begins where alignment is lost
/// outside it, and goes on until a good signal unit ends (Q.703 4.1).
pub fn octet_counting()
    ensures first { NoneAtFirst }
    ensures begins { BeginsWhereLost }
    ensures stays { StaysAligned }
    ensures goes_on { GoesOn }
    ensures ends { EndsWithUnit }
{}
