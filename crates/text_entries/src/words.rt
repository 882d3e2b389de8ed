//! The words of a line, and what single words stand for.
ghost use Rattle.std.specs.Prelude.{◌≡◌, ◌<◌, IfOk, length, position};
ghost use Rattle.std.specs.Option.{ForSome};
ghost use Rattle.text_entries.specs.Reading.{behind, is_gap, is_sign, is_arrow, word, others, told, body_in};

use set_events::Body;
use std::alloc::{AllocError, Global};
use text_base::{is_word, read_octets};

/// The first word, and what stands behind the octet that ends it: the first up to 0x20, a space, an LF or another control
/// character.
pub(crate) fn cut(line: &[u8]) -> (&[u8], &[u8])
    ensures first { result.0.now ≡ word line.now }
    ensures others { result.1.now ≡ others line.now }
{
    match gap_in(line) {
        Some(place) => (&line[..place], &line[place + 1..]),
        None => (line, &line[line.len()..]),
    }
}

/// The place of the first octet up to 0x20: a space, an LF or another control character.
fn gap_in(line: &[u8]) -> Option<usize>
    ensures place { result ≡ position is_gap line.now }
    ensures within { ForSome result (λ place. place < length line.now) }
{
    line.iter().position(|c| *c <= b' ')
}

/// What stands behind the sign in a word NAME=VALUE.
pub(crate) fn value_of(word: &[u8]) -> &[u8]
    ensures { result.now ≡ behind is_sign word.now }
{
    match sign_in(word) {
        Some(place) => &word[place + 1..],
        None => &word[word.len()..],
    }
}

/// The place of the first `=`.
fn sign_in(word: &[u8]) -> Option<usize>
    ensures place { result ≡ position is_sign word.now }
    ensures within { ForSome result (λ place. place < length word.now) }
{
    word.iter().position(|c| *c == b'=')
}

/// What was answered: what stands behind the arrow and a space.
pub(crate) fn told_of(line: &[u8]) -> &[u8]
    ensures { result.now ≡ told line.now }
{
    match arrow_in(line) {
        Some(place) => cut(&line[place + 1..]).1,
        None => &line[line.len()..],
    }
}

/// The place of the first `>`.
fn arrow_in(line: &[u8]) -> Option<usize>
    ensures place { result ≡ position is_arrow line.now }
    ensures within { ForSome result (λ place. place < length line.now) }
{
    line.iter().position(|c| *c == b'>')
}

/// The body that a word gives, or the empty one where the arrow follows.
pub(crate) fn read_body(alloc: Global, word: &[u8]) -> Result<Option<Body>, AllocError>
    ensures { IfOk result (λ body. body ≡ body_in word.now) }
{
    if is_word(word, b"->") {
        return Ok(Some(Body::from_vec(Vec::new(alloc))));
    }
    match read_octets(alloc, word)? {
        Some(octets) => Ok(Some(Body::from_vec(octets))),
        None => Ok(None),
    }
}
