//! The characters of an input, and the octets whose digits they are.
ghost use Rattle.std.specs.Prelude.{◌≡◌, [], ◌∷◌, ◌+◌, ◌/◌, ◌≤◌, length, IfOk, IfSome, MatchResult};
ghost use Rattle.std.specs.Vec.{vec_len, vec_capacity};
ghost use Rattle.text_units.specs.UnitsText.{is_blank};
ghost use Rattle.text_units.specs.UnitsReading.{BeginsWithOctet, HasDigits, Decodes, DecodesFirst, Halts, ReadsPairs};

use super::digit::{Digit, digit_of, octet_of};
use super::fault::UnreadableOctet;
use std::alloc::AllocError;
use text_base::Stop;

/// What of an input's characters waits, and how many there were.
#[derive(Drop)]
pub(crate) struct Digits {
    /// The first digit of an octet whose second is still to come.
    pub(crate) high: Option<Digit>,
    /// How many characters of the input were read.
    pub(crate) place: u64,
}

impl Digits {
    /// Before the first character.
    pub(crate) fn new() -> Digits
        ensures { HasDigits [] result }
    {
        Digits {
            high: None,
            place: 0,
        }
    }

    /// Reads these characters, and appends the octets that they give; stops at the first that is neither a digit nor
    /// skipped.
    pub(crate) fn read(
        &mut self,
        text: &[u8],
        octets: &mut Vec<u8>,
    ) -> Result<(), Stop<UnreadableOctet>>
        ensures { MatchResult result
            (λ done. Decodes self.old text.now octets.old.items octets.new.items self.new)
            (λ stop. Halts stop self.old text.now octets.old.items octets.new.items) }
    {
        let mut left = text;
        loop {
            left = self.read_pairs(left, octets)?;
            let [c, rest @ ..] = left else {
                return Ok(());
            };
            self.take(*c, octets)?;
            left = rest;
        }
    }

    /// Reads the first of these characters, as long as each two are an octet's digits, where no digit waits; gives the
    /// others.
    #[inline(always)]
    fn read_pairs<'a>(
        &mut self,
        text: &'a [u8],
        octets: &mut Vec<u8>,
    ) -> Result<&'a [u8], AllocError>
        ensures reads { MatchResult result
            (λ left. DecodesFirst self.old text.now octets.old.items left.now octets.new.items self.new)
            (λ want. octets.new.items ≡ octets.old.items) }
        ensures shorter { IfOk result (λ left. length left.now ≤ length text.now) }
    {
        if self.high.is_some() {
            return Ok(text);
        }
        octets.reserve(text.len() / 2)?;
        let left = push_pairs(text, octets);
        self.place = self.place.saturating_add((text.len() - left.len()) as u64);
        Ok(left)
    }

    /// Reads one character.
    #[inline(always)]
    fn take(&mut self, c: u8, octets: &mut Vec<u8>) -> Result<(), Stop<UnreadableOctet>>
        ensures { MatchResult result
            (λ done. Decodes self.old (c ∷ []) octets.old.items octets.new.items self.new)
            (λ stop. Halts stop self.old (c ∷ []) octets.old.items octets.new.items) }
    {
        let place = self.place;
        self.place = place.saturating_add(1);
        let Some(digit) = digit_of(c) else {
            if is_skipped(c) {
                return Ok(());
            }
            return Err(Stop::Input(UnreadableOctet { place }));
        };
        let Some(high) = self.high else {
            self.high = Some(digit);
            return Ok(());
        };
        self.high = None;
        octets.push(16 * high.value + digit.value)?;
        Ok(())
    }
}

/// Appends the octets of the first of these characters, as long as each two are an octet's digits; gives the others.
#[inline(always)]
fn push_pairs<'a>(text: &'a [u8], octets: &mut Vec<u8>) -> &'a [u8]
    requires { vec_len octets.old + length text.now / 2 ≤ vec_capacity octets.old }
    ensures reads { ReadsPairs text.now result.now octets.old.items octets.new.items }
    ensures shorter { length result.now ≤ length text.now }
{
    let mut left = text;
    while let Some((octet, rest)) = first_pair(left) {
        octets.push_reserved(octet);
        left = rest;
    }
    left
}

/// The octet whose two digits these characters begin with, and the other characters.
#[inline(always)]
fn first_pair(text: &[u8]) -> Option<(u8, &[u8])>
    ensures begins { IfSome result (λ pair. BeginsWithOctet text.now pair.0 pair.1.now) }
    ensures fewer { IfSome result (λ pair. length pair.1.now + 2 ≡ length text.now) }
{
    let [high, low, rest @ ..] = text else {
        return None;
    };
    let Some(octet) = octet_of(*high, *low) else {
        return None;
    };
    Some((octet, rest))
}

/// Whether the character is skipped.
fn is_skipped(c: u8) -> bool
    ensures { result ≡ is_blank c }
{
    matches!(c, b' ' | b'\t' | b'\r' | b'\n')
}
