//! The content of a signal unit under way: the bits since the last flag, without the inserted zeros, packed
//! into octets as they come.
//!
//! ```text
//! bits since the flag   b b b b b b b b  b b b b b b b b  b b b
//! content               \__ octets[0] _/ \__ octets[1] _/ \part/   `len` is 2, `more` is 3
//! ```
//!
//! The flag that closes it has been taken in too, but for its last one, which stands where a zero would be
//! inserted, and its last zero: `0 1 1 1 1 1` is the part that is left then.

ghost use Rattle.std.specs.Prelude.{
  ◌≡◌,
  ◌↔◌,
  IsTrue,
  ℕ,
  ◌+◌,
  ◌-◌,
  ◌^◌,
  ◌<◌,
  ◌≤◌,
  Bool,
  List,
  [],
  ◌∷◌,
  ◌++◌,
  length,
  take,
  drop,
  IfSome,
  IfNone,
  true,
  false,
};
ghost use Rattle.std.specs.Int.{bytes_low_first};
ghost use Rattle.l2_bits.specs.LineBits.{bits_of};
ghost use Rattle.l2_bits.specs.SealedText.{sealed_text};
ghost use Rattle.l2_bits.specs.Contents.{IsClosed};
ghost use Rattle.l2_bits.specs.Deframing.{Holds};

use crate::check::check_of;

/// One octet more than the longest unit and its check octets have, and the number of octets that says that
/// no good unit can end at the next flag.
const TOO_MANY: u16 = 279;

/// Room for as many and for eight more, which are put there at once.
const BUFFER: usize = 287;

/// The part that the closing flag leaves.
const FLAG_PART: u8 = 0b11_1110;

/// The octets of a signal unit under way.
#[derive(Drop)]
pub(crate) struct Content {
    /// The whole octets, at the front.
    octets: [u8; BUFFER],
    /// How many they are, or 279 where no good unit can end at the next flag.
    len: u16,
    /// The bits that make no whole octet yet, the oldest in the lowest place.
    part: u8,
    /// How many they are.
    more: u8,
}

impl Content {
    /// No bits.
    pub(crate) fn new() -> Content
        ensures holds { Holds [] result }
        ensures none { result.len ≡ 0 }
    {
        Content {
            octets: [0; BUFFER],
            len: 0,
            part: 0,
            more: 0,
        }
    }

    /// Nothing is left of the bits; the octets stay where they are.
    #[inline(always)]
    pub(crate) fn restart(&mut self)
        ensures empty { (content : List Bool) → Holds content self.old → Holds [] self.new }
        ensures none { self.new.len ≡ 0 }
        ensures octets { self.new.octets ≡ self.old.octets }
    {
        self.len = 0;
        self.part = 0;
        self.more = 0;
    }

    /// No good unit can end at the next flag.
    #[inline(always)]
    pub(crate) fn lose(&mut self)
        ensures { self.new ≡ record self.old { len = 279 } }
    {
        self.len = TOO_MANY;
    }

    /// Takes up to 56 bits, the lowest first.
    ///
    /// Eight octets are put behind those that are there, though only some of them are whole: no octet is asked
    /// after by itself.
    #[inline(always)]
    pub(crate) fn add(&mut self, bits: u64, count: u8)
        requires few { count ≤ 56 }
        requires fits { bits < 2 ^ count }
        ensures holds { (content : List Bool) →
            Holds content self.old → Holds (content ++ bits_of count bits) self.new }
        ensures lost { self.old.len ≡ 279 → self.new.len ≡ 279 }
    {
        let more = (self.more & 7) + count;
        let whole = u64::from(self.part) | bits << (self.more & 7);
        let len = self.len.min(TOO_MANY);
        let octets = more / 8;
        put(&mut self.octets, len as usize, whole);
        self.len = (len + u16::from(octets)).min(TOO_MANY);
        self.part = (whole >> (octets * 8) & 0xFF) as u8;
        self.more = more & 7;
    }

    /// How many octets the good unit has that a flag closes now.
    pub(crate) fn closed(&self) -> Option<u16>
        ensures good { (content : List Bool) → Holds content self.now → self.now.len < 279 →
            IfSome result (λ n. IsClosed content (take n self.now.octets)) }
        ensures none { (content : List Bool) → Holds content self.now →
            IfNone result ((octets : List ℕ) → IsClosed content octets → ⊥) }
        ensures some { IfSome result (λ n. n ≤ 276) }
        ensures lost { IfSome result (λ n. self.now.len < 279) }
    {
        if !self.has_flag_part() || self.len < 5 || self.len >= TOO_MANY {
            return None;
        }
        if is_sealed(&self.octets[..self.len as usize]) {
            Some(self.len - 2)
        } else {
            None
        }
    }

    /// Whether the bits that make no whole octet are those that a closing flag leaves: a zero and five ones.
    fn has_flag_part(&self) -> bool
        ensures { IsTrue result ↔ (self.now.more ≡ 6) × (self.now.part ≡ 62) }
    {
        self.more == 6 && self.part == FLAG_PART
    }

    /// These octets, at the front.
    pub(crate) fn front(&self, n: u16) -> &[u8]
        ensures { result.now ≡ take n self.now.octets }
    {
        let n = n as usize;
        if n < BUFFER {
            &self.octets[..n]
        } else {
            &self.octets
        }
    }
}

/// Puts the eight octets of a number here, the lowest first.
#[inline(always)]
fn put(octets: &mut [u8; BUFFER], place: usize, whole: u64)
    requires { place ≤ 279 }
    ensures { octets.new ≡ take place octets.old ++ (bytes_low_first 0 8 whole ++ drop (place + 8) octets.old) }
{
    octets[place..place + 8].copy_from_slice(&whole.to_le_bytes());
}

/// Whether the last two octets are the check octets of the others.
fn is_sealed(text: &[u8]) -> bool
    requires { 2 ≤ length text.now }
    ensures yes { result ≡ true → text.now ≡ sealed_text (take (length text.now - 2) text.now) }
    ensures no { result ≡ false → text.now ≡ sealed_text (take (length text.now - 2) text.now) → ⊥ }
{
    let len = text.len();
    let check = check_of(&text[..len - 2]);
    if u16::from(text[len - 2]) != check & 0xFF {
        return false;
    }
    u16::from(text[len - 1]) == check >> 8
}
