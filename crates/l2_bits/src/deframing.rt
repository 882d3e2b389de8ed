//! Signal units out of the bits of a line: delimitation by flags (Q.703 3.1), and octet counting where
//! alignment is lost (Q.703 4.1).
//!
//! ```text
//! the line    .. 0 1 1 1 1 1 1 0 | b b b b b b b b b b b b
//!                last flag's end   \____ `content`, _____/ without the inserted zeros
//!                                          \_ last eight _/  `last`, the newest in the highest place
//! ```

ghost use Rattle.std.specs.Prelude.{
  ◌≡◌,
  ◌≢◌,
  ℕ,
  ◌+◌,
  ◌/◌,
  ◌%◌,
  ◌-◌,
  ◌==◌,
  ◌^◌,
  ◌<◌,
  ◌≤◌,
  Option,
  Some,
  None,
  Bool,
  true,
  false,
  List,
  [],
  ◌∷◌,
  ◌++◌,
  length,
  take,
};
ghost use Rattle.l2_bits.specs.LineBits.{bits_of};
ghost use Rattle.l2_bits.specs.declared.marks.MarkKind.TheVariants.{Good, Sixteen};
ghost use Rattle.l2_bits.specs.Flags.{flag, EndsIn, IsFlagEnd};
ghost use Rattle.l2_bits.specs.Stuffing.{ones};
ghost use Rattle.l2_bits.specs.Marks.{IsMark, AreMarks};
ghost use Rattle.l2_bits.specs.Deframing.{
  HasContent,
  NoneAfterFive,
  Runs,
  KeepsCount,
  KeepsLine,
  StandsFor,
  FeedsUpTo,
  GoesOn,
  mark_of,
  marked,
  rest_of,
  left_in,
  unit_of,
};

use crate::content::Content;
use crate::marks::{Mark, MarkKind};
use crate::rest::{Octets, Rest};
use crate::shift::{all_shifted_in, shifted_in};
use arrayvec::ArrayVec;

/// A flag, as the last eight bits.
const FLAG: u8 = 0b0111_1110;

/// Five ones, as the last of eight bits.
const FIVE_ONES: u8 = 0b1111_1000;

/// Six ones, as the last of eight bits.
const SIX_ONES: u8 = 0b1111_1100;

/// The last seven bits, where all are ones.
const SEVEN_ONES: u8 = 0b0111_1111;

/// The bits without a flag with which octet counting begins (own).
const LONGEST_WAIT: u16 = 2677;

/// The most bits that are taken at once, those of seven octets: with the eight before them they stand in one number.
const MOST_BITS: u16 = 56;

/// The bits of sixteen octets.
const SIXTEEN_OCTETS: u16 = 128;

/// Finds the signal units of one line in its bits. It takes no memory, and any number of bits may be fed,
/// one by one or by octets, in any order of the calls.
#[derive(Drop)]
pub struct Deframer {
    /// The last eight bits, the newest in the highest place.
    last: u8,
    /// What is left of the bits since the last flag.
    content: Content,
    /// How many octets the last good unit has, which stand in the content's place until more bits come.
    unit: u16,
    /// Whether octets are counted.
    counting: bool,
    /// The bits until sixteen octets more are counted, or outside octet counting until it begins.
    room: u16,
}

impl Deframer {
    /// No bits have been fed. The line is read as if a flag had ended just before its first bit.
    pub fn new() -> Self
        ensures { StandsFor [] result }
    {
        Deframer {
            last: FLAG,
            content: Content::new(),
            unit: 0,
            counting: false,
            room: LONGEST_WAIT,
        }
    }

    /// Takes the next bit of the line, and gives the mark that ends with it, if any: `Good` or `Bad`
    /// where a flag closes something, or in octet counting `Sixteen` at each 128th bit, unless a good
    /// signal unit ends there. That ends octet counting; it begins where seven ones stand in a row, or
    /// where 2,677 bits have come and no flag (Q.703 4.1).
    pub fn feed(&mut self, bit: bool) -> Option<Mark>
        ensures stands { (past : List Bool) →
            StandsFor past self.old → StandsFor (past ++ bit ∷ []) self.new }
        ensures mark { (past : List Bool) → StandsFor past self.old → IsMark past bit result }
    {
        let kind = self.step(bit)?;
        Some(self.ended(kind))
    }

    /// Takes the next bit as `feed` does, and gives the kind of its mark alone. The octets of a good unit
    /// are those of `unit`.
    #[inline(always)]
    pub fn step(&mut self, bit: bool) -> Option<MarkKind>
        ensures stands { (past : List Bool) →
            StandsFor past self.old → StandsFor (past ++ bit ∷ []) self.new }
        ensures mark { (past : List Bool) →
            StandsFor past self.old → IsMark past bit (mark_of result (unit_of self.new)) }
    {
        let before = self.last;
        self.last = shifted_in(before, bit);
        if self.last == FLAG {
            return self.flag();
        }
        keep(&mut self.content, before, bit);
        wait(self.last, &mut self.counting, &mut self.room)
    }

    /// A flag has ended.
    fn flag(&mut self) -> Option<MarkKind>
        ensures stands { (past : List Bool) (bit : Bool) → IsFlagEnd (past ++ bit ∷ [])
            → KeepsLine past self.old.content self.old.counting self.old.room
            → KeepsLine (past ++ bit ∷ []) self.new.content self.new.counting self.new.room }
        ensures mark { (past : List Bool) (bit : Bool) → IsFlagEnd (past ++ bit ∷ [])
            → KeepsLine past self.old.content self.old.counting self.old.room
            → IsMark past bit (mark_of result (unit_of self.new)) }
        ensures last { self.new.last ≡ self.old.last }
    {
        let unit = self.content.closed();
        self.content.restart();
        if let Some(octets) = unit {
            self.unit = octets;
            self.counting = false;
            self.room = LONGEST_WAIT;
            return Some(MarkKind::Good);
        }
        if self.counting {
            return count(&mut self.room);
        }
        let empty = self.room > LONGEST_WAIT - 8;
        self.room = LONGEST_WAIT;
        if empty { None } else { Some(MarkKind::Bad) }
    }

    /// The octets of the good signal unit that ended with the last bit fed, without its check octets.
    pub fn unit(&self) -> &[u8]
        ensures { result.now ≡ unit_of self.now }
    {
        self.content.front(self.unit)
    }

    /// Takes the next eight bits, the lowest first, where none of them gives a mark and none of them comes
    /// after five ones; else it takes none of them and answers false, and they are for `step` or `feed`.
    #[inline(always)]
    pub fn pass(&mut self, octet: u8) -> bool
        ensures stands { (past : List Bool) → StandsFor past self.old → result ≡ true →
            StandsFor (past ++ bits_of 8 octet) self.new }
        ensures marks { (past : List Bool) → StandsFor past self.old → result ≡ true →
            AreMarks past (bits_of 8 octet) [] }
        ensures refused { result ≡ false → self.new ≡ self.old }
    {
        let bits = u64::from(octet);
        if self.room <= 8 || fives(self.last, bits) & 0xFF != 0 {
            return false;
        }
        self.run(bits, 8);
        true
    }

    /// Takes up to 56 bits, the lowest first, where none of them gives a mark and none of them comes after
    /// five ones.
    #[inline(always)]
    fn run(&mut self, bits: u64, count: u8)
        requires few { count ≤ 56 }
        requires fits { bits < 2 ^ count }
        requires room { count < self.old.room }
        ensures { (past : List Bool) → StandsFor past self.old
            → NoneAfterFive self.old.last (bits_of count bits) → Runs past (bits_of count bits) self.new }
    {
        self.content.add(bits, count);
        self.last = all_shifted_in(self.last, bits, count);
        self.room -= u16::from(count);
    }

    /// Takes the next of these bits, up to the first that comes after five ones or with which something may be
    /// counted.
    #[inline(always)]
    fn take_run(&mut self, rest: &mut Rest)
        ensures takes { (past : List Bool) → StandsFor past self.old →
            FeedsUpTo past (rest_of rest.old) (rest_of rest.new) self.new None }
        ensures fewer { rest.new.left ≤ rest.old.left }
    {
        if self.room == 0 {
            return;
        }
        let plain = fives(self.last, rest.bits).trailing_zeros() as u8;
        let uncounted = (self.room - 1).min(MOST_BITS) as u8;
        let count = plain.min(rest.left).min(uncounted);
        let bits = rest.take(count);
        self.run(bits, count);
    }

    /// Takes the next of these bits, and gives the kind of its mark.
    #[inline(always)]
    fn take_bit(&mut self, rest: &mut Rest) -> Option<MarkKind>
        requires { 0 < rest.old.left }
        ensures stands { (past : List Bool) → StandsFor past self.old →
            StandsFor (past ++ (rest.old.bits % 2 == 1) ∷ []) self.new }
        ensures mark { (past : List Bool) → StandsFor past self.old →
            IsMark past (rest.old.bits % 2 == 1) (mark_of result (unit_of self.new)) }
        ensures bits { rest.new.bits ≡ rest.old.bits / 2 }
        ensures left { rest.new.left ≡ rest.old.left - 1 }
    {
        let bit = rest.bits % 2 == 1;
        rest.bits /= 2;
        rest.left -= 1;
        self.step(bit)
    }

    /// Takes an octet of the line, its lowest bit first, and gives the marks that end with its bits, in order, as
    /// eight calls of `feed` do: two at most, since a unit ends eight bits or more behind the one before it, and
    /// sixteen octets are 128 bits.
    pub fn feed_octet(&mut self, octet: u8) -> ArrayVec<Mark, 2>
        ensures stands { (past : List Bool) → StandsFor past self.old
            → StandsFor (past ++ bits_of 8 octet) self.new }
        ensures marks { (past : List Bool) → StandsFor past self.old
            → AreMarks past (bits_of 8 octet) result.items }
    {
        let mut marks = ArrayVec::new();
        let mut rest = Rest::new(octet);
        while let Some(kind) = self.feed_rest(&mut rest) {
            // There is room for each: an octet has two at most.
            let _ = marks.try_push(self.ended(kind));
        }
        marks
    }

    /// The mark of this kind that has just ended.
    fn ended(&self, kind: MarkKind) -> Mark
        ensures { (kind ≡ Good → length (unit_of self.now) ≤ 276) → result ≡ marked kind (unit_of self.now) }
    {
        match kind {
            MarkKind::Good => {
                let mut octets = ArrayVec::new();
                let _ = octets.try_extend_from_slice(self.unit());
                Mark::Good(octets)
            }
            MarkKind::Bad => Mark::Bad,
            MarkKind::Sixteen => Mark::Sixteen,
        }
    }

    /// Takes the bits of an octet, or of a few, up to the first with which a mark ends, the lowest first, and gives
    /// its kind; the others stay for the next call. None where no mark ends with any of them. The octets of a
    /// good unit are those of `unit`.
    pub fn feed_rest(&mut self, rest: &mut Rest) -> Option<MarkKind>
        ensures marks { (past : List Bool) → StandsFor past self.old →
            FeedsUpTo past (rest_of rest.old) (rest_of rest.new) self.new
            (mark_of result (unit_of self.new)) }
        ensures all { result ≡ None → rest_of rest.new ≡ [] }
        ensures fewer { result ≢ None → length (rest_of rest.new) < length (rest_of rest.old) }
    {
        while rest.left > 0 {
            self.take_run(rest);
            if rest.left == 0 {
                return None;
            }
            let mark = self.take_bit(rest);
            if mark.is_some() {
                return mark;
            }
        }
        None
    }

    /// Takes the bits of these octets as `feed_rest` does those of a few: up to the first with which a mark ends,
    /// and gives its kind; the others stay for the next call. None where no mark ends with any of them.
    pub fn feed_octets(&mut self, octets: &mut Octets<'_>) -> Option<MarkKind>
        ensures marks { (past : List Bool) → StandsFor past self.old →
            FeedsUpTo past (left_in octets.old) (left_in octets.new) self.new
            (mark_of result (unit_of self.new)) }
        ensures all { result ≡ None → left_in octets.new ≡ [] }
        ensures fewer { result ≢ None → length (left_in octets.new) < length (left_in octets.old) }
    {
        loop {
            let mark = self.feed_rest(&mut octets.first);
            if mark.is_some() {
                return mark;
            }
            if !octets.refill() {
                return None;
            }
        }
    }
}

/// Keeps a bit that ends no flag, where these are the last eight before it: not the one after five ones,
/// and from a seventh one on nothing.
#[inline(always)]
fn keep(content: &mut Content, before: u8, bit: bool)
    ensures { (past since : List Bool) → EndsIn (flag ++ past) (bits_of 8 before)
        → GoesOn past since bit → HasContent since content.old
        → HasContent (since ++ bit ∷ []) content.new }
{
    if before >= SIX_ONES {
        content.lose();
        return;
    }
    if before >= FIVE_ONES {
        return;
    }
    content.add(u64::from(bit), 1);
}

/// A bit that ends no flag has come, the newest of these eight: counts it in octet counting, or else sees
/// whether that begins.
#[inline(always)]
fn wait(last: u8, counting: &mut bool, room: &mut u16) -> Option<MarkKind>
    ensures stands { (past since : List Bool) (bit : Bool) → EndsIn (flag ++ (past ++ bit ∷ [])) (bits_of 8 last)
        → GoesOn past since bit → KeepsCount past since counting.old room.old
        → KeepsCount (past ++ bit ∷ []) (since ++ bit ∷ []) counting.new room.new }
    ensures mark { (past since : List Bool) (bit : Bool) (octets : List ℕ) → GoesOn past since bit
        → KeepsCount past since counting.old room.old → IsMark past bit (mark_of result octets) }
{
    if *room > 1 && last >> 1 != SEVEN_ONES {
        *room -= 1;
        return None;
    }
    if *counting {
        return count(room);
    }
    *counting = true;
    *room = SIXTEEN_OCTETS;
    None
}

/// Counts one bit more.
#[inline(always)]
fn count(room: &mut u16) -> Option<MarkKind>
    ensures more { 1 < room.old → (room.new + 1 ≡ room.old) × (result ≡ None) }
    ensures whole { room.old ≤ 1 → (room.new ≡ 128) × (result ≡ Some Sixteen) }
{
    if *room > 1 {
        *room -= 1;
        return None;
    }
    *room = SIXTEEN_OCTETS;
    Some(MarkKind::Sixteen)
}

/// The bits before which five ones stand, of those that come after these last eight: right for 56 of them.
#[inline(always)]
fn fives(last: u8, bits: u64) -> u64
    ensures { (front : List Bool) (i : ℕ) → i < 56 → result / 2 ^ i % 2 ≡ 0
        → EndsIn (front ++ (bits_of 8 last ++ take i (bits_of 56 bits))) (ones 5) → ⊥ }
{
    let window = (bits << 8 | u64::from(last)) >> 3;
    let pairs = window & (window >> 1);
    pairs & (pairs >> 2) & (window >> 4)
}
