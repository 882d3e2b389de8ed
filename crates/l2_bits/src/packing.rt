//! Bits of the line packed into octets, and bits by themselves (Q.703 2.4).
//!
//! ```text
//! bits     b b b b b b b b  b b b b b b b b  b b b
//! packed   \___ octet ____/ \___ octet ____/ \part/     of each the first bit is the lowest
//! ```

ghost use Rattle.std.specs.Prelude.{◌≡◌, ◌+◌, ◌*◌, ◌≤◌, ◌<◌, ◌^◌, ◌++◌, length};
ghost use Rattle.arrayvec.specs.ArrayVec.{array_vec_len};
ghost use Rattle.l2_bits.specs.LineBits.{bits_of, line_bits};
ghost use Rattle.l2_bits.specs.Packing.{packed, bits_in};

use crate::part::Part;
use arrayvec::ArrayVec;

/// Appends up to eight bits, the first the lowest, to octets and a part of one.
#[inline(always)]
pub(crate) fn put(octets: &mut ArrayVec<u8, 336>, part: Part, bits: u8, count: u8) -> Part
    requires most { count ≤ 8 }
    requires fits { bits < 2 ^ count }
    requires room { array_vec_len octets.old < 336 }
    ensures bits { packed octets.new result ≡ packed octets.old part ++ bits_of count bits }
    ensures len { bits_in octets.new result ≡ bits_in octets.old part + count }
    ensures room { array_vec_len octets.new ≤ array_vec_len octets.old + 1 }
{
    let whole = u16::from(part.bits) | u16::from(bits) << part.count;
    let count = part.count + count;
    if count < 8 {
        return Part {
            bits: whole as u8,
            count,
        };
    }
    octets.push((whole & 0xFF) as u8);
    Part {
        bits: (whole >> 8) as u8,
        count: count - 8,
    }
}

/// Appends the bits of octets, one by one.
pub(crate) fn unpack_octets(octets: &[u8], line: &mut ArrayVec<bool, 2700>)
    requires { array_vec_len line.old + 8 * length octets.now ≤ 2700 }
    ensures bits { line.new.items ≡ line.old.items ++ line_bits octets.now }
    ensures len { array_vec_len line.new ≡ array_vec_len line.old + 8 * length octets.now }
{
    for octet in octets {
        unpack(*octet, 8, line);
    }
}

/// Appends the lowest bits of a number, at most eight, one by one, the lowest first.
pub(crate) fn unpack(bits: u8, count: u8, line: &mut ArrayVec<bool, 2700>)
    requires few { count ≤ 8 }
    requires room { array_vec_len line.old + count ≤ 2700 }
    ensures bits { line.new.items ≡ line.old.items ++ bits_of count bits }
    ensures len { array_vec_len line.new ≡ array_vec_len line.old + count }
{
    for place in 0..count {
        line.push((bits >> place) & 1 == 1);
    }
}
