//! A shift register of eight bits, which takes the bits of the line in their order (Q.703 2.4).

ghost use Rattle.std.specs.Prelude.{◌≡◌, ◌^◌, ◌<◌, ◌≤◌, [], ◌∷◌, ◌++◌, drop};
ghost use Rattle.l2_bits.specs.LineBits.{bits_of};
ghost use Rattle.l2_bits.specs.Flags.{EndsIn};

/// The register after one more bit: it holds the last eight, the oldest in its lowest place.
pub(crate) fn shifted_in(register: u8, bit: bool) -> u8
    ensures { bits_of 8 result ≡ drop 1 (bits_of 8 register) ++ bit ∷ [] }
{
    let shifted = register >> 1;
    if bit { shifted | 0x80 } else { shifted }
}

/// The register after up to 56 bits more, the lowest first: the last eight of all of them.
#[inline(always)]
pub(crate) fn all_shifted_in(register: u8, bits: u64, count: u8) -> u8
    requires few { count ≤ 56 }
    requires fits { bits < 2 ^ count }
    ensures { EndsIn (bits_of 8 register ++ bits_of count bits) (bits_of 8 result) }
{
    let window = bits << 8 | u64::from(register);
    ((window >> count) & 0xFF) as u8
}
