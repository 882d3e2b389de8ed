//! What is left to send, as octets (Q.703 2.4, 3).

ghost use Rattle.std.specs.Prelude.{◌≡◌, ◌≤◌, ◌<◌, length, nat_lt, take, drop};
ghost use Rattle.l2_bits.specs.Flags.{flag};
ghost use Rattle.l2_bits.specs.LineBits.{number_of};
ghost use Rattle.l2_bits.specs.Packing.{AppendsUnit};

use crate::flags::FLAG;
use crate::packing::put;
use crate::part::Part;
use crate::sealed_text::seal;
use crate::stuffing::put_text;
use arrayvec::ArrayVec;
use std::marker::Model;

/// The bits that are left to send, in the order of the line. It takes some 360 octets; contracts see the list of bits.
///
/// Readers: [`is_short`](BitsLeft::is_short), [`octet`](BitsLeft::octet). Inputs: [`append`](BitsLeft::append) a unit,
/// [`drop_octet`](BitsLeft::drop_octet) when one was put.
///
/// ```text
/// octets   o o o o o o o o        the whole octets since the last unit was appended
/// sent     ------>|               so many of them were put
/// part                     b b b  the bits behind them, at most seven
/// ```
///
/// A unit is appended only where no whole octet is left, so that they begin at the front each time: 276 octets of a
/// unit and two check octets are at most 2,668 bits with the inserted zeros, and with the bits before and a flag 335
/// octets and a part.
#[derive(Drop)]
pub struct BitsLeft {
    octets: ArrayVec<u8, 336>,
    sent: usize,
    part: Part,
}

impl Model for BitsLeft {
    ghost use Rattle.std.specs.Prelude.{Bool, List, ◌≤◌, ◌++◌, length, drop};
    ghost use Rattle.l2_bits.specs.LineBits.{bits_of, line_bits};

    ghost Value = { List Bool };

    ghost view = { λ b. line_bits (drop b.sent b.octets.items) ++ bits_of b.part.count b.part.bits };

    ghost invariant = { λ b. b.sent ≤ length b.octets.items };
}

impl BitsLeft {
    /// A flag is left.
    pub fn flag_bits() -> BitsLeft
        ensures { result ≡ flag }
    {
        let mut octets = ArrayVec::new();
        octets.push(FLAG);
        BitsLeft {
            octets,
            sent: 0,
            part: Part::none(),
        }
    }

    /// Whether fewer than eight bits are left.
    #[inline(always)]
    pub fn is_short(&self) -> bool
        ensures { result ≡ nat_lt (length self.now) 8 }
    {
        self.sent == self.octets.len()
    }

    /// The next eight bits, the first the lowest; where fewer are left, these.
    #[inline(always)]
    pub fn octet(&self) -> u8
        ensures { result ≡ number_of (take 8 self.now) }
    {
        let octets = self.octets.as_slice();
        if self.sent < octets.len() {
            octets[self.sent]
        } else {
            self.part.bits
        }
    }

    /// The next eight bits are no longer left.
    #[inline(always)]
    pub fn drop_octet(&mut self)
        ensures { self.new ≡ drop 8 self.old }
    {
        if self.sent < self.octets.len() {
            self.sent += 1;
        } else {
            self.part = Part::none();
        }
    }

    /// Appends a unit: the text of its octets, at most 276, and of their check octets, with a zero inserted after each
    /// five ones in a row, and a flag (Q.703 2.2, 3, 4.2). Fewer than eight bits may be left.
    pub fn append(&mut self, unit: &[u8])
        requires octets { length unit.now ≤ 276 }
        requires short { length self.old < 8 }
        ensures { AppendsUnit unit.now self.old self.new }
    {
        self.octets.clear();
        self.sent = 0;
        let part = put_text(&mut self.octets, self.part, seal(unit).as_slice());
        self.part = put(&mut self.octets, part, FLAG, 8);
    }
}
