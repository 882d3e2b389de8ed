//! The first line of a script: `set links=L method=W a=X b=Y sio=HH`, and `profile=narrow` or `profile=wide` behind it.
ghost use Rattle.std.specs.Prelude.{◌≡◌, ◌<◌, Err, MatchResult, Some, codes, length, position};
ghost use Rattle.std.specs.Option.{option_and_then, ForSome};
ghost use Rattle.std.specs.Result.{result_err};
ghost use Rattle.text_forms.specs.Words.{judged, next_at, next_or, behind};
ghost use Rattle.text_forms.specs.Opening.{a_method, a_profile, an_sio, code_a, code_b, code_of, fitting, is_colon, limits_of, links, links_of, met, method_of, of_orders, opening, opening_read, profile_of, sio_of, told_profile, wrong_limits, wrong_sio, wrong_value};
ghost use Rattle.text_forms.specs.Opened.{IsMadeOf, IsOpening};

use super::mistake::Mistake;
use super::opened::{Opening, Values};
use super::words::{Blame, Words, cut, judge, skip_words, value_in_word};
use l2_units::Profile;
use set_events::{Method, SetConfig};
use text_base::{is_word, read_below_65536, read_number, read_octet};

/// What the first line says, or the word at fault.
pub fn read_opening(text: &[u8]) -> Result<Opening, Blame>
    ensures { MatchResult result (IsOpening text.now) (λ blame. opening_read text.now ≡ Err blame) }
{
    let values = read_values(text)?;
    Ok(ends_of(values))
}

/// The word at fault of a first line, if it can't be read.
pub fn blame_opening(text: &[u8]) -> Option<Blame>
    ensures { result ≡ result_err (opening_read text.now) }
{
    read_values(text).err()
}

/// The values of the first line.
fn read_values(text: &[u8]) -> Result<Values, Blame>
    ensures { result ≡ opening_read text.now }
{
    let (name, left) = cut(text);
    if !is_word(name, b"set") {
        return Err(Blame {
            column: 0,
            mistake: judge(name, Mistake::NotSet),
        });
    }
    let words = Words::new(text.len(), Mistake::OpeningShort, left);
    read_opening_of(find_profile(text), words)
}

/// The same of a set of this profile, from the words behind the first.
fn read_opening_of(profile: Profile, mut words: Words<'_>) -> Result<Values, Blame>
    ensures { result ≡ opening profile words.entry }
{
    let links = words.links()?;
    let method = words.method(profile)?;
    let code_a = words.code_a()?;
    let code_b = words.code_b()?;
    let sio = words.sio()?;
    words.profile_or(profile)?;
    words.finish()?;
    Ok(Values {
        links,
        method,
        code_a,
        code_b,
        sio,
        profile,
    })
}

/// The profile that the seventh word of a first line tells; the narrow one where it tells none.
fn find_profile(text: &[u8]) -> Profile
    ensures { result ≡ told_profile text.now }
{
    let (word, _) = cut(skip_words(6, text));
    match read_profile(word) {
        Some(profile) => profile,
        None => Profile::Narrow,
    }
}

/// The configurations of both ends of these values, which fit.
fn ends_of(values: Values) -> Opening
    requires { fitting values ≡ Some values }
    ensures { IsMadeOf values result }
{
    let Values {
        links,
        method,
        code_a,
        code_b,
        sio,
        profile,
    } = values;
    let Ok(a) = SetConfig::of(profile, 0, links, code_a, code_b, sio, method) else {
        unreachable!();
    };
    let Ok(b) = SetConfig::of(profile, 0, links, code_b, code_a, sio, method) else {
        unreachable!();
    };
    Opening { a, b }
}

impl<'a> Words<'a> {
    ghost use Rattle.std.specs.Prelude.{◌≡◌};
    ghost use Rattle.text_forms.specs.Words.{behind, next_at, next_or};
    ghost use Rattle.text_forms.specs.Opening.{a_method, a_profile, an_sio, code_a, code_b, links};

    /// `links=L`, 1 to 16 links.
    fn links(&mut self) -> Result<u8, Blame>
        ensures value { result ≡ next_at links self.old }
        ensures behind { self.new ≡ behind self.old }
    {
        let word = self.word()?;
        match read_links(word.octets()) {
            Some(links) => Ok(links),
            None => Err(word.blame(judge_value(
                b"links=",
                word.octets(),
                Mistake::LinksName,
                Mistake::LinksRange,
            ))),
        }
    }

    /// `method=basic`, or `method=cyclic:N1:N2` with limits in their ranges in this profile.
    fn method(&mut self, profile: Profile) -> Result<Method, Blame>
        ensures value { result ≡ next_at (a_method profile) self.old }
        ensures behind { self.new ≡ behind self.old }
    {
        let word = self.word()?;
        match read_met(profile, word.octets()) {
            Some(method) => Ok(method),
            None => Err(word.blame(judge_value(
                b"method=cyclic:",
                word.octets(),
                Mistake::MethodName,
                mistake_in_limits(profile),
            ))),
        }
    }

    /// `a=X`, a point code of 14 bits.
    fn code_a(&mut self) -> Result<u16, Blame>
        ensures value { result ≡ next_at code_a self.old }
        ensures behind { self.new ≡ behind self.old }
    {
        let word = self.word()?;
        match read_code(b"a=", word.octets()) {
            Some(code) => Ok(code),
            None => Err(word.blame(judge_value(
                b"a=",
                word.octets(),
                Mistake::CodeAName,
                Mistake::CodeRange,
            ))),
        }
    }

    /// `b=Y`, so too.
    fn code_b(&mut self) -> Result<u16, Blame>
        ensures value { result ≡ next_at code_b self.old }
        ensures behind { self.new ≡ behind self.old }
    {
        let word = self.word()?;
        match read_code(b"b=", word.octets()) {
            Some(code) => Ok(code),
            None => Err(word.blame(judge_value(
                b"b=",
                word.octets(),
                Mistake::CodeBName,
                Mistake::CodeRange,
            ))),
        }
    }

    /// `sio=HH`, with service indicator 0.
    fn sio(&mut self) -> Result<u8, Blame>
        ensures value { result ≡ next_at an_sio self.old }
        ensures behind { self.new ≡ behind self.old }
    {
        let word = self.word()?;
        match read_sio_of_orders(word.octets()) {
            Some(sio) => Ok(sio),
            None => Err(word.blame(judge_sio(word.octets()))),
        }
    }

    /// `profile=narrow` or `profile=wide`, or this one where the line ends.
    fn profile_or(&mut self, usual: Profile) -> Result<Profile, Blame>
        ensures value { result ≡ next_or a_profile usual self.old }
        ensures behind { self.new ≡ behind self.old }
    {
        if self.is_done() {
            Ok(usual)
        } else {
            self.profile()
        }
    }

    /// `profile=narrow` or `profile=wide`
    fn profile(&mut self) -> Result<Profile, Blame>
        ensures value { result ≡ next_at a_profile self.old }
        ensures behind { self.new ≡ behind self.old }
    {
        let word = self.word()?;
        match read_profile(word.octets()) {
            Some(profile) => Ok(profile),
            None => Err(word.blame(judge_value(
                b"profile=",
                word.octets(),
                Mistake::Surplus,
                Mistake::ProfileValue,
            ))),
        }
    }
}

/// `links=L`, 1 to 16 (Q.704 15.2).
fn read_links(word: &[u8]) -> Option<u8>
    ensures { result ≡ links_of word.now }
{
    let links = read_number(value_in_word(b"links=", word)?)?;
    if links >= 1 && links <= 16 {
        Some(links as u8)
    } else {
        None
    }
}

/// `method=basic`, or `method=cyclic:N1:N2` whose limits can be met in this profile.
fn read_met(profile: Profile, word: &[u8]) -> Option<Method>
    ensures { result ≡ option_and_then (met profile) (method_of word.now) }
{
    let method = read_method(word)?;
    if SetConfig::of(profile, 0, 1, 0, 0, 0, method).is_ok() {
        Some(method)
    } else {
        None
    }
}

/// `method=basic` or `method=cyclic:N1:N2`
fn read_method(word: &[u8]) -> Option<Method>
    ensures { result ≡ method_of word.now }
{
    if is_word(word, b"method=basic") {
        return Some(Method::Basic);
    }
    read_limits(value_in_word(b"method=cyclic:", word)?)
}

/// `N1:N2`, N1 below 65,536, N2 below 2^32.
fn read_limits(word: &[u8]) -> Option<Method>
    ensures { result ≡ limits_of word.now }
{
    let colon = colon_in(word)?;
    let n1 = read_below_65536(&word[..colon])?;
    let n2 = read_number(&word[colon + 1..])?;
    if n2 < 0x1_0000_0000 {
        Some(Method::Cyclic { n1, n2: n2 as u32 })
    } else {
        None
    }
}

/// The place of the first colon.
fn colon_in(word: &[u8]) -> Option<usize>
    ensures place { result ≡ position is_colon word.now }
    ensures within { ForSome result (λ place. place < length word.now) }
{
    word.iter().position(|c| *c == b':')
}

/// A point code of 14 bits behind a name and its sign (Q.704 2.2).
fn read_code(name: &[u8], word: &[u8]) -> Option<u16>
    ensures { result ≡ code_of name.now word.now }
{
    let code = read_number(value_in_word(name, word)?)?;
    if code < 16_384 {
        Some(code as u16)
    } else {
        None
    }
}

/// `sio=HH`
fn read_sio(word: &[u8]) -> Option<u8>
    ensures { result ≡ sio_of word.now }
{
    read_octet(value_in_word(b"sio=", word)?)
}

/// `sio=HH`, with service indicator 0.
fn read_sio_of_orders(word: &[u8]) -> Option<u8>
    ensures { result ≡ option_and_then of_orders (sio_of word.now) }
{
    let sio = read_sio(word)?;
    if sio % 16 == 0 { Some(sio) } else { None }
}

/// `profile=narrow` or `profile=wide`
fn read_profile(word: &[u8]) -> Option<Profile>
    ensures { result ≡ profile_of word.now }
{
    if is_word(word, b"profile=narrow") {
        Some(Profile::Narrow)
    } else if is_word(word, b"profile=wide") {
        Some(Profile::Wide)
    } else {
        None
    }
}

/// What is wrong with a word NAME=VALUE: another name, or another value.
fn judge_value(name: &[u8], word: &[u8], other_name: Mistake, other_value: Mistake) -> Mistake
    ensures { result ≡ wrong_value name.now other_name other_value word.now }
{
    if value_in_word(name, word).is_some() {
        other_value
    } else {
        other_name
    }
}

/// The mistake of limits out of their range in this profile.
fn mistake_in_limits(profile: Profile) -> Mistake
    ensures { result ≡ wrong_limits profile }
{
    match profile {
        Profile::Narrow => Mistake::MethodLimits,
        Profile::Wide => Mistake::WideMethodLimits,
    }
}

/// What is wrong with the word of the SIO.
fn judge_sio(word: &[u8]) -> Mistake
    ensures { result ≡ wrong_sio word.now }
{
    if read_sio(word).is_some() {
        Mistake::SioIndicator
    } else {
        judge_value(b"sio=", word, Mistake::SioName, Mistake::SioDigits)
    }
}
