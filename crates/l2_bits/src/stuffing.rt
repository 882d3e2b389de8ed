//! Zero insertion: the text of a signal unit on the line, which never shows six ones in a row (Q.703 3.2).
//!
//! It's made four bits at a time, by a table, and packed into octets as it comes.
//!
//! ```text
//! octets of a unit   ..  h h h h l l l l  ..      l the low four bits, which go out first
//! after a run of r ones     |       |             at most four
//! their texts        ..  0 h h h h l l l l  ..    four bits, or five where a zero is inserted
//! octets to send     o o o o o o o o | p p p      whole ones, and the part of one
//! ```

ghost use Rattle.std.specs.Prelude.{◌≡◌, ◌+◌, ◌*◌, ◌≤◌, ◌<◌, ◌^◌, List, Bool, ◌++◌, length};
ghost use Rattle.arrayvec.specs.ArrayVec.{array_vec_len};
ghost use Rattle.l2_bits.specs.LineBits.{bits_of, line_bits};
ghost use Rattle.l2_bits.specs.Packing.{packed, bits_in};
ghost use Rattle.l2_bits.specs.Stuffing.{
  AppendsText,
  text_after,
  ContentHasText,
  ContentHasOneText,
  TextHasOneContent,
  TextHasNoFlag,
  TextIsAtMostAFifthLonger,
};

use crate::packing::{put, unpack, unpack_octets};
use crate::part::Part;
use arrayvec::ArrayVec;

/// The texts of four bits: of their sixteen values where no one stands before them, then behind a run of one, and so on
/// to four. In each the last two digits are the text's bits, the first the lowest; the second is how many they are; and
/// the first is the run of ones that they end in.
static TEXTS: [u16; 80] = [
    0x0400, 0x0401, 0x0402, 0x0403, 0x0404, 0x0405, 0x0406, 0x0407, 0x1408, 0x1409, 0x140A, 0x140B,
    0x240C, 0x240D, 0x340E, 0x440F, 0x0400, 0x0401, 0x0402, 0x0403, 0x0404, 0x0405, 0x0406, 0x0407,
    0x1408, 0x1409, 0x140A, 0x140B, 0x240C, 0x240D, 0x340E, 0x050F, 0x0400, 0x0401, 0x0402, 0x0403,
    0x0404, 0x0405, 0x0406, 0x0507, 0x1408, 0x1409, 0x140A, 0x140B, 0x240C, 0x240D, 0x340E, 0x1517,
    0x0400, 0x0401, 0x0402, 0x0503, 0x0404, 0x0405, 0x0406, 0x050B, 0x1408, 0x1409, 0x140A, 0x1513,
    0x240C, 0x240D, 0x340E, 0x251B, 0x0400, 0x0501, 0x0402, 0x0505, 0x0404, 0x0509, 0x0406, 0x050D,
    0x1408, 0x1511, 0x140A, 0x1515, 0x240C, 0x2519, 0x340E, 0x351D,
];

/// The end of a text under way: the bits that make no whole octet, and the run of ones before the next bit.
#[derive(Clone, Copy)]
struct TextEnd {
    part: Part,
    run: u8,
}

/// Four bits on the line: the bits of a text, the first the lowest, and the run of ones that they end in.
#[derive(Clone, Copy)]
struct Text {
    bits: u8,
    count: u8,
    run: u8,
}

/// Appends the text of at most 278 octets, check octets among them, as bits one by one: their bits, each octet's least
/// significant first, and a zero after each five ones in a row (Q.703 2.4, 3.2). At most 32 bits may stand there
/// already. A [`BitsLeft`](crate::BitsLeft) has the same text in octets.
pub fn stuff_into(octets: &[u8], line: &mut ArrayVec<bool, 2700>)
    requires octets { length octets.now ≤ 278 }
    requires room { array_vec_len line.old ≤ 32 }
    ensures text { AppendsText (line_bits octets.now) line.old.items line.new.items }
    ensures bound { 5 * array_vec_len line.new ≤ 5 * array_vec_len line.old + 48 * length octets.now }
{
    let mut text = ArrayVec::new();
    let part = put_text(&mut text, Part::none(), octets);
    unpack_octets(text.as_slice(), line);
    unpack(part.bits, part.count, line);
}

/// Appends the text of at most 278 octets, where no whole octet is left.
pub(crate) fn put_text(octets: &mut ArrayVec<u8, 336>, part: Part, text: &[u8]) -> Part
    requires none { array_vec_len octets.old ≡ 0 }
    requires text { length text.now ≤ 278 }
    ensures text { AppendsText (line_bits text.now) (packed octets.old part)
        (packed octets.new result) }
    ensures bound { bits_in octets.new result * 5 ≤ bits_in octets.old part * 5 + 48 * length
        text.now }
{
    let mut end = TextEnd { part, run: 0 };
    for octet in text {
        end = put_octet(octets, end, *octet);
    }
    end.part
}

/// Appends the text of an octet, its least significant bit first (Q.703 2.4).
fn put_octet(octets: &mut ArrayVec<u8, 336>, end: TextEnd, octet: u8) -> TextEnd
    requires few { end.run ≤ 4 }
    requires room { array_vec_len octets.old + 2 ≤ 336 }
    ensures text { (rest : List Bool) →
        packed octets.old end.part ++ text_after end.run (bits_of 8 octet ++ rest)
        ≡ packed octets.new result.part ++ text_after result.run rest }
    ensures few { result.run ≤ 4 }
    ensures bound { bits_in octets.new result.part * 5 + result.run ≤ bits_in octets.old end.part *
        5 + end.run + 48 }
{
    let end = put_half(octets, end, octet & 0xF);
    put_half(octets, end, octet >> 4)
}

/// Appends the text of four bits, the lowest first.
#[inline(always)]
fn put_half(octets: &mut ArrayVec<u8, 336>, end: TextEnd, half: u8) -> TextEnd
    requires few { end.run ≤ 4 }
    requires half { half < 16 }
    requires room { array_vec_len octets.old < 336 }
    ensures text { (rest : List Bool) →
        packed octets.old end.part ++ text_after end.run (bits_of 4 half ++ rest)
        ≡ packed octets.new result.part ++ text_after result.run rest }
    ensures few { result.run ≤ 4 }
    ensures bound { bits_in octets.new result.part * 5 + result.run ≤ bits_in octets.old end.part *
        5 + end.run + 24 }
    ensures len { array_vec_len octets.new ≤ array_vec_len octets.old + 1 }
{
    let text = text_of(half, end.run);
    TextEnd {
        part: put(octets, end.part, text.bits, text.count),
        run: text.run,
    }
}

/// The text of four bits, before which a run of at most four ones stands.
#[inline(always)]
fn text_of(half: u8, run: u8) -> Text
    requires half { half < 16 }
    requires few { run ≤ 4 }
    ensures text { (rest : List Bool)
        → text_after run (bits_of 4 half ++ rest) ≡ bits_of result.count result.bits ++ text_after
        result.run rest }
    ensures few { result.run ≤ 4 }
    ensures fits { result.bits < 2 ^ result.count }
    ensures most { result.count ≤ 5 }
    ensures bound { result.count * 5 + result.run ≤ run + 24 }
{
    let text = TEXTS[(run * 16 + half) as usize];
    Text {
        bits: (text & 0xFF) as u8,
        count: (text >> 8 & 0xF) as u8,
        run: (text >> 12) as u8,
    }
}

/// Laws over the definitions alone: each content has one text on the line, of at most six bits for
/// each five, a text belongs to one content, and no flag stands in it.
pub fn one_text()
    ensures has_text { ContentHasText }
    ensures one_text { ContentHasOneText }
    ensures one_content { TextHasOneContent }
    ensures no_flag { TextHasNoFlag }
    ensures bound { TextIsAtMostAFifthLonger }
{}
