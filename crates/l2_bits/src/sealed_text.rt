//! The octets of a signal unit with their check octets behind them.

ghost use Rattle.std.specs.Prelude.{◌≡◌, ◌+◌, ◌++◌, ◌≤◌, length};
ghost use Rattle.arrayvec.specs.ArrayVec.{array_vec_len};
ghost use Rattle.l2_bits.specs.SealedText.{
  check_octets,
  sealed_text,
  SealedTextMeetsCheck,
  SealedTextIsOne,
  SealedTextHasOneContent,
};

use crate::check::{check_of, check_of_both};
use arrayvec::ArrayVec;

/// The octets of a signal unit after its opening flag, at most 276 (two of sequence numbers, the length
/// indicator and a body of at most 273), and then their two check octets, the low one first
/// (Q.703 2.2, 4.2).
pub fn seal(octets: &[u8]) -> ArrayVec<u8, 278>
    requires { length octets.now ≤ 276 }
    ensures text { result.items ≡ sealed_text octets.now }
    ensures len { array_vec_len result ≡ length octets.now + 2 }
{
    let mut text = ArrayVec::new();
    for octet in octets {
        text.push(*octet);
    }
    let [low, high] = check_of(octets).to_le_bytes();
    text.push(low);
    text.push(high);
    text
}

/// The two check octets of a signal unit whose octets stand in two places, those of `front` first; the low one comes first.
pub fn check_octets_of(front: &[u8], rest: &[u8]) -> [u8; 2]
    ensures { result ≡ check_octets (front.now ++ rest.now) }
{
    check_of_both(front, rest).to_le_bytes()
}

/// A law over the definitions alone: the sealed text of octets ends in their check bits, no other text
/// of theirs does, and no other octets have it.
pub fn one_sealed_text()
    ensures meets_check { SealedTextMeetsCheck }
    ensures is_one { SealedTextIsOne }
    ensures has_one_content { SealedTextHasOneContent }
{}
