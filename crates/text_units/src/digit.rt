//! The digits of `units`.
ghost use Rattle.std.specs.Prelude.{◌≡◌, ◌<◌, [], ◌∷◌, nat_lt, if◌then◌else◌, Some, None};
ghost use Rattle.std.specs.Option.{option_map};
ghost use Rattle.text_base.specs.Figures.{hex_value, octet_of as octet_of_word};

/// The value of each character that is a hexadecimal digit, of either case, and 255 for the others.
static VALUES: [u8; 256] = [
    255, 255, 255, 255, 255, 255, 255, 255, 255, 255, 255, 255, 255, 255, 255, 255, 255, 255, 255,
    255, 255, 255, 255, 255, 255, 255, 255, 255, 255, 255, 255, 255, 255, 255, 255, 255, 255, 255,
    255, 255, 255, 255, 255, 255, 255, 255, 255, 255, 0, 1, 2, 3, 4, 5, 6, 7, 8, 9, 255, 255, 255,
    255, 255, 255, 255, 10, 11, 12, 13, 14, 15, 255, 255, 255, 255, 255, 255, 255, 255, 255, 255,
    255, 255, 255, 255, 255, 255, 255, 255, 255, 255, 255, 255, 255, 255, 255, 255, 10, 11, 12, 13,
    14, 15, 255, 255, 255, 255, 255, 255, 255, 255, 255, 255, 255, 255, 255, 255, 255, 255, 255,
    255, 255, 255, 255, 255, 255, 255, 255, 255, 255, 255, 255, 255, 255, 255, 255, 255, 255, 255,
    255, 255, 255, 255, 255, 255, 255, 255, 255, 255, 255, 255, 255, 255, 255, 255, 255, 255, 255,
    255, 255, 255, 255, 255, 255, 255, 255, 255, 255, 255, 255, 255, 255, 255, 255, 255, 255, 255,
    255, 255, 255, 255, 255, 255, 255, 255, 255, 255, 255, 255, 255, 255, 255, 255, 255, 255, 255,
    255, 255, 255, 255, 255, 255, 255, 255, 255, 255, 255, 255, 255, 255, 255, 255, 255, 255, 255,
    255, 255, 255, 255, 255, 255, 255, 255, 255, 255, 255, 255, 255, 255, 255, 255, 255, 255, 255,
    255, 255, 255, 255, 255, 255, 255, 255, 255, 255, 255, 255, 255, 255, 255, 255, 255, 255, 255,
    255, 255, 255,
];

/// A hexadecimal digit.
#[derive(Clone, Copy, Debug, PartialEq, Eq)]
pub(crate) struct Digit {
    /// 0 to 15.
    pub(crate) value: u8,
    pub(crate) ghost in_range: { value < 16 },
}

/// The digit of this character, of either case.
#[inline(always)]
pub(crate) fn digit_of(c: u8) -> Option<Digit>
    ensures { option_map (λ digit. digit.value) result ≡ hex_value c }
{
    let value = value_of(c);
    if value < 16 {
        Some(Digit { value })
    } else {
        None
    }
}

/// The value of this character, below 16 where it's a digit.
#[inline(always)]
fn value_of(c: u8) -> u8
    ensures { (if nat_lt result 16 then Some result else None) ≡ hex_value c }
{
    VALUES[c as usize]
}

/// The octet of these two digits, of either case.
#[inline(always)]
pub(crate) fn octet_of(high: u8, low: u8) -> Option<u8>
    ensures { result ≡ octet_of_word (high ∷ low ∷ []) }
{
    let high = value_of(high);
    let low = value_of(low);
    if high < 16 && low < 16 {
        Some(16 * high + low)
    } else {
        None
    }
}
