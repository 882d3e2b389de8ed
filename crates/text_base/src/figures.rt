//! Numbers and hexadecimal, as the script writes them.
ghost use Rattle.std.specs.Prelude.{◌≡◌, [], ◌∷◌, ◌++◌, ◌<◌, ◌≤◌, ◌+◌, ◌-◌, ◌*◌, ◌^◌, drop, take, length, decimal, IfOk, MatchOption, MatchResult, true};
ghost use Rattle.std.specs.Option.{option_and_then, option_map};
ghost use Rattle.std.specs.Vec.{vec_len, vec_capacity};
ghost use Rattle.text_base.specs.Figures.{number_of, number_below, hex_value, octet_of, octets_of, digits_behind, below_2_64, hex_text, hex_digit, is_digit, NoDigitFits, bit};

use std::alloc::{AllocError, Global};

/// The decimal number below 2^64 of a word without leading zeros.
pub fn read_number(word: &[u8]) -> Option<u64>
    ensures { result ≡ number_of word.now }
{
    let [first, rest @ ..] = word else {
        return None;
    };
    if *first == b'0' {
        return if rest.is_empty() { Some(0) } else { None };
    }
    value_of(word)
}

/// The decimal number below 256 of a word without leading zeros.
pub fn read_below_256(word: &[u8]) -> Option<u8>
    ensures { result ≡ number_below (2 ^ 8) word.now }
{
    let number = read_number(word)?;
    if number < 256 {
        Some(number as u8)
    } else {
        None
    }
}

/// The decimal number below 65,536 of a word without leading zeros.
pub fn read_below_65536(word: &[u8]) -> Option<u16>
    ensures { result ≡ number_below (2 ^ 16) word.now }
{
    let number = read_number(word)?;
    if number < 65_536 {
        Some(number as u16)
    } else {
        None
    }
}

/// The value of decimal digits, if it's below 2^64.
fn value_of(word: &[u8]) -> Option<u64>
    ensures { result ≡ option_and_then below_2_64 (digits_behind 0 word.now) }
{
    let mut value: u64 = 0;
    for c in word {
        match with_digit(value, *c) {
            Some(next) => value = next,
            None => return None,
        }
    }
    Some(value)
}

/// The value with one decimal digit more behind it, if it's below 2^64.
fn with_digit(value: u64, c: u8) -> Option<u64>
    ensures { MatchOption result (NoDigitFits value c)
        (λ next. (is_digit c ≡ true) × (next ≡ 10 * value + (c - 48))) }
{
    if c < b'0' || c > b'9' {
        return None;
    }
    match value.checked_mul(10) {
        Some(tens) => tens.checked_add((c - b'0') as u64),
        None => None,
    }
}

/// The value of a hexadecimal digit of either case.
fn value_of_hex(c: u8) -> Option<u8>
    ensures { result ≡ hex_value c }
{
    match c {
        b'0'..=b'9' => Some(c - b'0'),
        b'A'..=b'F' => Some(c - b'A' + 10),
        b'a'..=b'f' => Some(c - b'a' + 10),
        _ => None,
    }
}

/// The octet of two hexadecimal digits.
fn octet_at(high: u8, low: u8) -> Option<u8>
    ensures { result ≡ octet_of (high ∷ low ∷ []) }
{
    let high = value_of_hex(high)?;
    let low = value_of_hex(low)?;
    Some(16 * high + low)
}

/// The octet of a word of two hexadecimal digits.
pub fn read_octet(word: &[u8]) -> Option<u8>
    ensures { result ≡ octet_of word.now }
{
    let [high, low] = word else {
        return None;
    };
    octet_at(*high, *low)
}

/// The octets of hexadecimal digits, two each.
pub fn read_octets(alloc: Global, word: &[u8]) -> Result<Option<Vec<u8>>, AllocError>
    ensures { IfOk result (λ found. option_map (λ octets. octets.items) found
        ≡ octets_of word.now) }
{
    if word.len() % 2 == 1 {
        return Ok(None);
    }
    let mut octets = Vec::new(alloc);
    for place in 0..word.len() / 2 {
        match octet_at(word[2 * place], word[2 * place + 1]) {
            Some(octet) => octets.push(octet)?,
            None => return Ok(None),
        }
    }
    Ok(Some(octets))
}

/// How many octets are written at once.
const PIECE: usize = 32;

/// Writes octets at the end, two digits each, in lower case.
///
/// Where memory is wanted the text stays as it was.
pub fn push_hex(text: &mut Vec<u8>, octets: &[u8]) -> Result<(), AllocError>
    ensures { MatchResult result
        (λ done. text.new.items ≡ text.old.items ++ hex_text octets.now)
        (λ want. text.new.items ≡ text.old.items) }
{
    text.reserve(2 * octets.len())?;
    let mut left = octets;
    while !left.is_empty() {
        let (piece, rest) = left.split_at(left.len().min(PIECE));
        push_piece(text, piece);
        left = rest;
    }
    Ok(())
}

/// Writes at most 32 octets at the end, for which there is room.
#[inline(always)]
fn push_piece(text: &mut Vec<u8>, octets: &[u8])
    requires few { length octets.now ≤ 32 }
    requires room { vec_len text.old + 2 * length octets.now ≤ vec_capacity text.old }
    ensures written { text.new.items ≡ text.old.items ++ hex_text octets.now }
    ensures len { vec_len text.new ≡ vec_len text.old + 2 * length octets.now }
    ensures capacity { vec_capacity text.old ≤ vec_capacity text.new }
{
    let mut digits = [0; 2 * PIECE];
    write_hex(octets, &mut digits);
    match text.extend_from_slice(&digits[..2 * octets.len()]) {
        Ok(()) => {}
        Err(_) => unreachable!(),
    }
}

/// Writes at most 32 octets at the front, two digits each.
#[inline(always)]
fn write_hex(octets: &[u8], digits: &mut [u8; 2 * PIECE])
    requires { length octets.now ≤ 32 }
    ensures { take (2 * length octets.now) digits.new ≡ hex_text octets.now }
{
    for place in 0..octets.len() {
        digits[2 * place] = digit_of(octets[place] / 16);
        digits[2 * place + 1] = digit_of(octets[place] % 16);
    }
}

/// The hexadecimal digit of a value below 16, in lower case.
#[inline(always)]
fn digit_of(value: u8) -> u8
    requires { value < 16 }
    ensures { result ≡ hex_digit value }
{
    if value < 10 {
        value + b'0'
    } else {
        value + (b'a' - 10)
    }
}

/// Writes a number at the end, in decimal.
///
/// Where memory is wanted the text stays as it was.
pub fn push_number(text: &mut Vec<u8>, value: u64) -> Result<(), AllocError>
    ensures { MatchResult result
        (λ done. text.new.items ≡ text.old.items ++ decimal value)
        (λ want. text.new.items ≡ text.old.items) }
{
    if value <= 9 {
        text.reserve(1)?;
        text.push_reserved(decimal_digit(value as u8));
        return Ok(());
    }
    if value <= 99 {
        text.reserve(2)?;
        text.push_reserved(decimal_digit((value / 10) as u8));
        text.push_reserved(decimal_digit((value % 10) as u8));
        return Ok(());
    }
    let mut digits = [0; 20];
    let start = write_digits(value, &mut digits);
    text.extend_from_slice(&digits[start..])
}

/// The decimal digit of a value below 10.
pub fn decimal_digit(value: u8) -> u8
    requires { value < 10 }
    ensures { result ∷ [] ≡ decimal value }
{
    b'0' + value
}

/// Writes the decimal digits of a number so that they end where the places end, and answers where they start.
fn write_digits(value: u64, digits: &mut [u8; 20]) -> usize
    ensures within { result ≤ 20 }
    ensures written { drop result digits.new ≡ decimal value }
{
    let mut place = 19;
    let mut left = value;
    while left >= 10 {
        digits[place] = b'0' + (left % 10) as u8;
        left /= 10;
        place -= 1;
    }
    digits[place] = b'0' + left as u8;
    place
}

/// 1 for yes and 0 for no.
pub fn bit_of(yes: bool) -> u8
    ensures { result ≡ bit yes }
{
    if yes { 1 } else { 0 }
}
