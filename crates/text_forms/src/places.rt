//! The places of a line's forms: what a word is read as in each.
ghost use Rattle.std.specs.Prelude.{◌≡◌, ◌%◌, IfOk, length, map, nat_lt};
ghost use Rattle.std.specs.List.{list_all};
ghost use Rattle.std.specs.Option.{option_and_then, option_map};
ghost use Rattle.l2_units.specs.Grammar.{unit_of as unit_of_octets};
ghost use Rattle.l2_units.specs.declared.profile.Profile.TheVariants.{Narrow, Wide};
ghost use Rattle.text_forms.specs.Words.{read_as, IsRead};
ghost use Rattle.text_forms.specs.Places.{any_unit, end_of, link_of, some_octets, unit_of, is_hex, wrong_digits, wrong_length, bits_of, is_bit, switch_of, body_of, short_enough, wrong_any_unit, wrong_body};

use super::mistake::Mistake;
use super::named::Named;
use super::terminal_mistake::TerminalMistake;
use super::words::{Blame, Unread, Word, Words, value_in_word};
use l2_units::{LONGEST_BODY, LONGEST_UNIT, Profile, SHORTEST_BODY, Unit, read, read_wide};
use pair_steps::End;
use set_events::Body;
use std::alloc::{AllocError, Global};
use text_base::{is_word, read_number, read_octets};

impl<'a> Words<'a> {
    ghost use Rattle.std.specs.Prelude.{◌≡◌, ◌≤◌, ◌^◌, [], IfOk, false};
    ghost use Rattle.text_forms.specs.Words.{behind, next_at, next_or, IsRead};
    ghost use Rattle.text_forms.specs.Named.{least, most};
    ghost use Rattle.text_forms.specs.Places.{an_end, a_link, a_number, octets, a_unit, a_flag, a_named, a_quiet, a_switch, a_told, bits, a_body};
    ghost use Rattle.text_forms.specs.Units.{begins_head};

    /// An end, a or b.
    #[inline(always)]
    pub(crate) fn end(&mut self) -> Result<End, Blame>
        ensures value { result ≡ next_at an_end self.old }
        ensures behind { self.new ≡ behind self.old }
    {
        let word = self.word()?;
        match read_end(word.octets()) {
            Some(end) => Ok(end),
            None => Err(word.blame(Mistake::End)),
        }
    }

    /// A link's number; one over 255 is read as 255, since no set has either link. It's mostly the last word, whose end isn't
    /// looked for, since what reads as a number has no space.
    #[inline(always)]
    pub(crate) fn link(&mut self) -> Result<u8, Blame>
        ensures value { result ≡ next_at a_link self.old }
        ensures behind { self.new ≡ behind self.old }
    {
        if let Some(link) = read_link(self.rest()) {
            self.end_line();
            return Ok(link);
        }
        let word = self.word()?;
        match read_link(word.octets()) {
            Some(link) => Ok(link),
            None => Err(word.blame(Mistake::Link)),
        }
    }

    /// The number of a message, or the place of a unit.
    #[inline(always)]
    pub(crate) fn number(&mut self) -> Result<u64, Blame>
        ensures value { result ≡ next_at a_number self.old }
        ensures behind { self.new ≡ behind self.old }
    {
        if let Some(number) = read_number(self.rest()) {
            self.end_line();
            return Ok(number);
        }
        let word = self.word()?;
        match read_number(word.octets()) {
            Some(number) => Ok(number),
            None => Err(word.blame(Mistake::Number)),
        }
    }

    /// Octets in hexadecimal, at least one; the end of the last word isn't looked for.
    #[inline(always)]
    pub(crate) fn octets(&mut self, alloc: Global) -> Result<Body, Unread>
        ensures value { IsRead (next_at octets self.old) result }
        ensures behind { self.new ≡ behind self.old }
    {
        match read_some_octets(alloc, self.rest()) {
            Ok(Some(octets)) => {
                self.end_line();
                Ok(Body::from_vec(octets))
            }
            Ok(None) => self.octets_of_word(alloc),
            Err(want) => {
                self.word()?;
                Err(Unread::from(want))
            }
        }
    }

    /// The same, of a word that others may follow.
    fn octets_of_word(&mut self, alloc: Global) -> Result<Body, Unread>
        ensures value { IsRead (next_at octets self.old) result }
        ensures behind { self.new ≡ behind self.old }
    {
        let word = self.word()?;
        match read_some_octets(alloc, word.octets())? {
            Some(octets) => Ok(Body::from_vec(octets)),
            None => Err(Unread::At(word.blame(judge_octets(word.octets(), Mistake::OddDigits)))),
        }
    }

    /// The same, or none where the line ends.
    #[inline(always)]
    pub(crate) fn octets_or_none(&mut self, alloc: Global) -> Result<Body, Unread>
        ensures value { IsRead (next_or octets [] self.old) result }
        ensures behind { self.new ≡ behind self.old }
    {
        if self.is_done() {
            Ok(Body::from_vec(Vec::new(alloc)))
        } else {
            self.octets(alloc)
        }
    }

    /// The octets of a unit of this profile, without check octets.
    pub(crate) fn unit(&mut self, alloc: Global, profile: Profile) -> Result<Unit, Unread>
        ensures value { IsRead (next_at (a_unit profile) self.old) result }
        ensures behind { self.new ≡ behind self.old }
    {
        let word = self.word()?;
        match read_unit(alloc, profile, word.octets())? {
            Some(unit) => Ok(unit),
            None => Err(Unread::At(word.blame(judge_unit(profile, word.octets())))),
        }
    }

    /// A number behind its name.
    pub(crate) fn named(&mut self, named: Named) -> Result<u64, Blame>
        ensures value { result ≡ next_at (a_named named) self.old }
        ensures within { IfOk result (λ number. (least named ≤ number) × (number ≤ most named)) }
        ensures behind { self.new ≡ behind self.old }
    {
        let word = self.word()?;
        match named.read(word.octets()) {
            Some(number) => Ok(number),
            None => Err(word.blame(Mistake::Terminal(TerminalMistake::Number(named)))),
        }
    }

    /// `xN`, how often, which has one of these names, or once where the line ends.
    pub(crate) fn times(&mut self, named: Named) -> Result<u32, Blame>
        requires { most named ≤ 2 ^ 20 }
        ensures value { result ≡ next_or (a_named named) 1 self.old }
        ensures behind { self.new ≡ behind self.old }
    {
        if self.is_done() {
            return Ok(1);
        }
        let times = self.named(named)?;
        Ok(times as u32)
    }

    /// `quiet`, or nothing where the line ends.
    pub(crate) fn quiet(&mut self) -> Result<bool, Blame>
        ensures value { result ≡ next_or a_quiet false self.old }
        ensures behind { self.new ≡ behind self.old }
    {
        self.flag(b"quiet", TerminalMistake::Quiet)
    }

    /// `told`, or nothing where the line ends.
    pub(crate) fn told(&mut self) -> Result<bool, Blame>
        ensures value { result ≡ next_or a_told false self.old }
        ensures behind { self.new ≡ behind self.old }
    {
        self.flag(b"told", TerminalMistake::Told)
    }

    /// `on` or `off`.
    pub(crate) fn switch(&mut self) -> Result<bool, Blame>
        ensures value { result ≡ next_at a_switch self.old }
        ensures behind { self.new ≡ behind self.old }
    {
        let word = self.word()?;
        match read_switch(word.octets()) {
            Some(on) => Ok(on),
            None => Err(word.blame(Mistake::Terminal(TerminalMistake::Switch))),
        }
    }

    /// A word that stands for yes, or nothing where the line ends; another word is this mistake.
    fn flag(&mut self, name: &[u8], wrong: TerminalMistake) -> Result<bool, Blame>
        ensures value { result ≡ next_or (a_flag name.now wrong) false self.old }
        ensures behind { self.new ≡ behind self.old }
    {
        if self.is_done() {
            return Ok(false);
        }
        let word = self.word()?;
        if is_word(word.octets(), name) {
            Ok(true)
        } else {
            Err(word.blame(Mistake::Terminal(wrong)))
        }
    }

    /// Whether the words of a header come next.
    pub(crate) fn begins_head(&self) -> bool
        ensures { result ≡ begins_head self.now.left }
    {
        match self.left() {
            Some(words) => value_in_word(b"bsn=", words).is_some(),
            None => false,
        }
    }

    /// Digits 0 and 1, at least one.
    pub(crate) fn bits(&mut self, alloc: Global) -> Result<Body, Unread>
        ensures value { IsRead (next_at bits self.old) result }
        ensures behind { self.new ≡ behind self.old }
    {
        let word = self.word()?;
        match read_bits(alloc, word.octets())? {
            Some(bits) => Ok(bits),
            None => Err(Unread::At(word.blame(Mistake::Terminal(TerminalMistake::Bits)))),
        }
    }

    /// `body=HEX`, 3 to 273 octets; the words of a header may stand in its place where there was none.
    pub(crate) fn body(&mut self, alloc: Global, has_head: bool) -> Result<Body, Unread>
        ensures value { IsRead (next_at (a_body has_head) self.old) result }
        ensures behind { self.new ≡ behind self.old }
    {
        let word = self.word()?;
        match read_body(alloc, word.octets())? {
            Some(body) => Ok(body),
            None => Err(Unread::At(word.blame(mistake_in_body(has_head)))),
        }
    }
}

/// 1 to 276 octets, whatever they say.
pub(crate) fn read_any_unit(alloc: Global, word: &Word<'_>) -> Result<Body, Unread>
    ensures { IsRead (read_as any_unit word.now) result }
{
    match read_unit_octets(alloc, word.octets())? {
        Some(octets) => Ok(octets),
        None => Err(Unread::At(word.blame(judge_any_unit(word.octets())))),
    }
}

/// An end's name.
fn read_end(word: &[u8]) -> Option<End>
    ensures { result ≡ end_of word.now }
{
    if is_word(word, b"a") {
        Some(End::A)
    } else if is_word(word, b"b") {
        Some(End::B)
    } else {
        None
    }
}

/// `on` or `off`.
fn read_switch(word: &[u8]) -> Option<bool>
    ensures { result ≡ switch_of word.now }
{
    if is_word(word, b"on") {
        Some(true)
    } else if is_word(word, b"off") {
        Some(false)
    } else {
        None
    }
}

/// A link's number.
fn read_link(word: &[u8]) -> Option<u8>
    ensures { result ≡ link_of word.now }
{
    let number = read_number(word)?;
    if number < 256 {
        Some(number as u8)
    } else {
        Some(255)
    }
}

/// Octets in hexadecimal, at least one.
fn read_some_octets(alloc: Global, word: &[u8]) -> Result<Option<Vec<u8>>, AllocError>
    ensures { IfOk result (λ found. option_map (λ octets. octets.items) found ≡ some_octets word.now) }
{
    if word.is_empty() {
        return Ok(None);
    }
    read_octets(alloc, word)
}

/// The unit of this profile that a word gives: its octets, without check octets.
pub fn read_unit(alloc: Global, profile: Profile, word: &[u8]) -> Result<Option<Unit>, AllocError>
    ensures { IfOk result (λ unit. unit ≡ unit_of profile word.now) }
{
    let Some(octets) = read_some_octets(alloc, word)? else {
        return Ok(None);
    };
    Ok(unit_in(profile, &octets))
}

/// The unit of this profile that octets, without check octets, stand for, if any.
pub fn unit_in(profile: Profile, octets: &[u8]) -> Option<Unit>
    ensures { result ≡ unit_of_octets profile octets.now }
{
    let unit = match profile {
        Profile::Narrow => read(octets),
        Profile::Wide => read_wide(octets),
    };
    unit.ok()
}

/// What is wrong with octets: their digits, or this.
fn judge_octets(word: &[u8], other: Mistake) -> Mistake
    ensures { result ≡ wrong_digits word.now other }
{
    if !are_digits(word) {
        Mistake::NotHexadecimal
    } else if word.len() % 2 == 1 {
        Mistake::OddDigits
    } else {
        other
    }
}

/// What is wrong with the octets of a unit (Q.703 2.2, 2.3).
fn judge_unit(profile: Profile, word: &[u8]) -> Mistake
    ensures { result ≡ wrong_digits word.now (wrong_length profile word.now) }
{
    match profile {
        Profile::Narrow => judge_octets(word, judge_length(word)),
        Profile::Wide => judge_octets(word, judge_wide_length(word)),
    }
}

/// What is wrong with a unit whose digits are octets.
fn judge_length(word: &[u8]) -> Mistake
    ensures { result ≡ wrong_length Narrow word.now }
{
    if word.len() < 6 {
        Mistake::UnitShort
    } else if is_too_long(word) {
        Mistake::UnitLong
    } else {
        Mistake::UnitLength
    }
}

/// The same in the wide profile.
fn judge_wide_length(word: &[u8]) -> Mistake
    ensures { result ≡ wrong_length Wide word.now }
{
    if word.len() < 8 {
        Mistake::WideUnitShort
    } else if is_too_long(word) {
        Mistake::UnitLong
    } else {
        Mistake::WideUnitLength
    }
}

/// Whether these are the digits of more than 276 octets.
fn is_too_long(word: &[u8]) -> bool
    ensures { result ≡ nat_lt 552 (length word.now) }
{
    word.len() > 552
}

/// Whether it's hexadecimal digits alone.
fn are_digits(word: &[u8]) -> bool
    ensures { result ≡ list_all is_hex word.now }
{
    word.iter().all(|c| is_digit(*c))
}

/// Whether it's a hexadecimal digit of either case.
fn is_digit(octet: u8) -> bool
    ensures { result ≡ is_hex octet }
{
    matches!(octet, b'0'..=b'9' | b'A'..=b'F' | b'a'..=b'f')
}

/// Digits 0 and 1 as their values, at least one.
fn read_bits(alloc: Global, word: &[u8]) -> Result<Option<Body>, AllocError>
    ensures { IfOk result (λ bits. bits ≡ bits_of word.now) }
{
    if word.is_empty() || !are_bits(word) {
        return Ok(None);
    }
    Ok(Some(Body::from_vec(values_of(alloc, word)?)))
}

/// Whether each is a digit 0 or 1.
fn are_bits(digits: &[u8]) -> bool
    ensures { result ≡ list_all is_bit digits.now }
{
    digits.iter().all(|c| *c == b'0' || *c == b'1')
}

/// The values of digits 0 and 1.
fn values_of(alloc: Global, digits: &[u8]) -> Result<Vec<u8>, AllocError>
    ensures { IfOk result (λ bits. bits.items ≡ map (λ c. c % 2) digits.now) }
{
    digits.iter().map(|c| *c % 2).collect(alloc)
}

/// 1 to 276 octets, whatever they say; `None`: it's another word.
fn read_unit_octets(alloc: Global, word: &[u8]) -> Result<Option<Body>, AllocError>
    ensures { IfOk result (λ unit. unit ≡ option_and_then short_enough (some_octets word.now)) }
{
    let Some(octets) = read_some_octets(alloc, word)? else {
        return Ok(None);
    };
    if octets.len() > LONGEST_UNIT {
        return Ok(None);
    }
    Ok(Some(Body::from_vec(octets)))
}

/// What is wrong with a unit that is neither of a kind nor octets.
fn judge_any_unit(word: &[u8]) -> Mistake
    ensures { result ≡ wrong_any_unit word.now }
{
    if are_digits(word) {
        judge_octets(word, Mistake::UnitLong)
    } else {
        Mistake::Terminal(TerminalMistake::UnitName)
    }
}

/// `body=HEX`, 3 to 273 octets; `None`: it's another word.
fn read_body(alloc: Global, word: &[u8]) -> Result<Option<Body>, AllocError>
    ensures { IfOk result (λ body. body ≡ body_of word.now) }
{
    let Some(value) = value_in_word(b"body=", word) else {
        return Ok(None);
    };
    let Some(body) = read_some_octets(alloc, value)? else {
        return Ok(None);
    };
    if body.len() < SHORTEST_BODY || body.len() > LONGEST_BODY {
        return Ok(None);
    }
    Ok(Some(Body::from_vec(body)))
}

/// What is wrong where a body is wanted.
fn mistake_in_body(has_head: bool) -> Mistake
    ensures { result ≡ wrong_body has_head }
{
    if has_head {
        Mistake::Terminal(TerminalMistake::Body)
    } else {
        Mistake::Terminal(TerminalMistake::FirstBody)
    }
}
