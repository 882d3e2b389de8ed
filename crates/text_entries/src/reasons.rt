//! The words for why something was refused, or a message was given up.
ghost use Rattle.std.specs.Prelude.{◌≡◌, IfOk, MatchOption, None, Some};
ghost use Rattle.text_entries.specs.Reasons.{given_up, in_words, named, refused_else, refused_offer};

use std::alloc::{AllocError, Global};
use text_base::is_word;

/// What a line printed, in words: a number that tells why something was refused, or a message was given up, has its words
/// behind it, as in `refused 5 (not up)`. Any other text stays.
#[tactic(auto, unfolding(crate::specs::Reasons::named))]
pub fn write_named(alloc: Global, printed: &[u8]) -> Result<Vec<u8>, AllocError>
    ensures { IfOk result (λ text. text.items ≡ named printed.now) }
{
    let named: &[u8] = match in_words(printed) {
        Some(line) => line.as_bytes(),
        None => printed,
    };
    Vec::from_slice(alloc, named)
}

/// A line that tells a reason by its number, in words; `None`: it tells none.
fn in_words(printed: &[u8]) -> Option<&'static str>
    ensures { MatchOption result (in_words printed.now ≡ None) (λ line. in_words printed.now ≡ Some line.now) }
{
    refused_offer(printed)
        .or(refused_else(printed))
        .or(given_up(printed))
}

/// Why a message isn't accepted, in words.
fn refused_offer(printed: &[u8]) -> Option<&'static str>
    ensures { MatchOption result (refused_offer printed.now ≡ None) (λ line. refused_offer printed.now ≡ Some line.now) }
{
    if is_word(printed, b"refused 1\n") {
        Some("refused 1 (too short)\n")
    } else if is_word(printed, b"refused 2\n") {
        Some("refused 2 (too long)\n")
    } else if is_word(printed, b"refused 3\n") {
        Some("refused 3 (reserved SI)\n")
    } else if is_word(printed, b"refused 4\n") {
        Some("refused 4 (stream full)\n")
    } else {
        None
    }
}

/// Why something else is refused, in words.
fn refused_else(printed: &[u8]) -> Option<&'static str>
    ensures { MatchOption result (refused_else printed.now ≡ None) (λ line. refused_else printed.now ≡ Some line.now) }
{
    if is_word(printed, b"refused 5\n") {
        Some("refused 5 (not up)\n")
    } else if is_word(printed, b"refused 6\n") {
        Some("refused 6 (not down)\n")
    } else if is_word(printed, b"refused 7\n") {
        Some("refused 7 (not settled)\n")
    } else if is_word(printed, b"refused 8\n") {
        Some("refused 8 (no such message)\n")
    } else if is_word(printed, b"refused 9\n") {
        Some("refused 9 (nothing to do)\n")
    } else if is_word(printed, b"refused 10\n") {
        Some("refused 10 (no such link)\n")
    } else if is_word(printed, b"refused 11\n") {
        Some("refused 11 (finished)\n")
    } else {
        None
    }
}

/// Why a message was given up, in words.
fn given_up(printed: &[u8]) -> Option<&'static str>
    ensures { MatchOption result (given_up printed.now ≡ None) (λ line. given_up printed.now ≡ Some line.now) }
{
    if is_word(printed, b"found discarded 1\n") {
        Some("found discarded 1 (emergency)\n")
    } else if is_word(printed, b"found discarded 2\n") {
        Some("found discarded 2 (wrong FSN)\n")
    } else if is_word(printed, b"found discarded 3\n") {
        Some("found discarded 3 (no answer)\n")
    } else {
        None
    }
}
