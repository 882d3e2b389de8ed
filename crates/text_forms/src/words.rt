//! The words of a line, read one after another from the left.
ghost use Rattle.std.specs.Prelude.{◌≡◌, ◌<◌, length, position};
ghost use Rattle.std.specs.Option.{option_copied, ForSome};
ghost use Rattle.std.specs.List.{list_all, list_any};
ghost use Rattle.text_forms.specs.declared.words.Unread.TheVariants.{At, Memory as NoMemory};
ghost use Rattle.text_forms.specs.Words.{blamed, first_word, other_words, is_space, is_cr, is_plain, odd_in, judged, others, value_in, words_from};

use super::mistake::Mistake;
use std::alloc::AllocError;
use std::marker::Model;
use text_base::is_word;

/// The word at fault of a line, and its mistake.
#[derive(Clone, Copy, Debug, PartialEq, Eq)]
pub struct Blame {
    /// The word's first column, from 0; right behind the line where a word is missing.
    pub column: usize,
    /// What is wrong there.
    pub mistake: Mistake,
}

/// Why nothing was read of a line.
#[derive(Clone, Copy, Debug, Drop, PartialEq, Eq)]
pub enum Unread {
    /// A word of it is at fault.
    At(Blame),
    /// Memory is wanted.
    Memory,
}

impl From<Blame> for Unread {
    ghost from_gives = { λ blame unread. unread ≡ At blame };

    fn from(blame: Blame) -> Unread {
        Unread::At(blame)
    }
}

impl From<AllocError> for Unread {
    ghost from_gives = { λ _ unread. unread ≡ NoMemory };

    fn from(_want: AllocError) -> Unread {
        Unread::Memory
    }
}

/// What isn't read yet of a line. What reads a word is inlined, so that this needs no memory.
#[derive(Drop)]
pub(crate) struct Words<'a> {
    /// How many octets the line has.
    size: usize,
    /// What is wrong where the line ends before a word that it wants.
    short: Mistake,
    /// The words that are left, if any.
    left: Option<&'a [u8]>,
}

impl<'a> Model for Words<'a> {
    ghost use Rattle.std.specs.Option.{option_copied};
    ghost use Rattle.text_forms.specs.Words.{Rest};

    ghost Value = { Rest };

    ghost view = { λ w. record { size = w.size; short = w.short; left = option_copied w.left } };
}

/// A word of a line.
#[derive(Drop)]
pub(crate) struct Word<'a> {
    /// Its first column, from 0.
    column: usize,
    /// Its octets.
    octets: &'a [u8],
}

impl<'a> Model for Word<'a> {
    ghost use Rattle.text_forms.specs.Words.{Word as WordAt};

    ghost Value = { WordAt };

    ghost view = { λ w. record { column = w.column; octets = w.octets.now } };
}

impl<'a> Word<'a> {
    ghost use Rattle.std.specs.Prelude.{◌≡◌};
    ghost use Rattle.text_forms.specs.Words.{blamed};

    /// Its octets.
    #[inline(always)]
    pub(crate) fn octets(&self) -> &'a [u8]
        ensures { result.now ≡ self.now.octets }
    {
        self.octets
    }

    /// It's at fault: it has in it what no word has, or else this is wrong. Inlined, so that a word needs no memory.
    #[inline(always)]
    pub(crate) fn blame(&self, mistake: Mistake) -> Blame
        ensures { result ≡ blamed self.now mistake }
    {
        blame_at(self.column, self.octets, mistake)
    }
}

/// The word of these octets at this column is at fault.
#[inline(never)]
fn blame_at(column: usize, octets: &[u8], mistake: Mistake) -> Blame
    ensures { result ≡ blamed (record { column = column; octets = octets.now }) mistake }
{
    Blame {
        column,
        mistake: judge(octets, mistake),
    }
}

impl<'a> Words<'a> {
    ghost use Rattle.std.specs.Prelude.{◌≡◌, [], None, is_none, unwrap_or};
    ghost use Rattle.std.specs.Option.{option_copied};
    ghost use Rattle.text_forms.specs.Words.{behind, ended, next_word};

    /// The words behind the name of a line of this size, where this is wrong if one is missing.
    pub(crate) fn new(size: usize, short: Mistake, left: Option<&'a [u8]>) -> Words<'a>
        ensures { result ≡ record { size = size; short = short; left = option_copied left.entry } }
    {
        Words { size, short, left }
    }

    /// The next word; it's at fault if it's missing.
    #[inline(always)]
    pub(crate) fn word(&mut self) -> Result<Word<'a>, Blame>
        ensures value { result ≡ next_word self.old }
        ensures behind { self.new ≡ behind self.old }
    {
        let Some(words) = self.left else {
            return Err(Blame {
                column: self.size,
                mistake: self.short,
            });
        };
        let (octets, left) = cut(words);
        self.left = left;
        Ok(Word {
            column: self.size.saturating_sub(words.len()),
            octets,
        })
    }

    /// The line ends here, or the next word is at fault.
    #[inline(always)]
    pub(crate) fn finish(&mut self) -> Result<(), Blame>
        ensures { result ≡ ended self.old }
    {
        match self.word() {
            Ok(word) => Err(word.blame(Mistake::Surplus)),
            Err(_) => Ok(()),
        }
    }

    /// The words that are left, if any.
    pub(crate) fn left(&self) -> Option<&'a [u8]>
        ensures { option_copied result ≡ self.now.left }
    {
        self.left
    }

    /// The words that are left, as one; empty where the line ends.
    #[inline(always)]
    pub(crate) fn rest(&self) -> &'a [u8]
        ensures { result.now ≡ unwrap_or self.now.left [] }
    {
        match self.left {
            Some(words) => words,
            None => &[],
        }
    }

    /// The last word of the line was read.
    #[inline(always)]
    pub(crate) fn end_line(&mut self)
        ensures { self.new ≡ record { size = self.old.size; short = self.old.short; left = None } }
    {
        self.left = None;
    }

    /// Whether the line ends here.
    pub(crate) fn is_done(&self) -> bool
        ensures { result ≡ is_none self.now.left }
    {
        self.left.is_none()
    }
}

/// The first word, and the words after it, if there are any.
pub(crate) fn cut(words: &[u8]) -> (&[u8], Option<&[u8]>)
    ensures first { result.0.now ≡ first_word words.now }
    ensures others { option_copied result.1 ≡ other_words words.now }
{
    match space_in(words) {
        Some(place) => (&words[..place], Some(&words[place + 1..])),
        None => (words, None),
    }
}

/// The place of the first space.
fn space_in(words: &[u8]) -> Option<usize>
    ensures place { result ≡ position is_space words.now }
    ensures within { ForSome result (λ place. place < length words.now) }
{
    words.iter().position(|c| *c == b' ')
}

/// The words from this one on, from 0; none where there are fewer.
pub(crate) fn skip_words(place: u8, text: &[u8]) -> &[u8]
    ensures { result.now ≡ words_from place text.now }
{
    let mut words = text;
    for _ in 0..place {
        words = skip_word(words);
    }
    words
}

/// The words behind the first; none where there is no other.
fn skip_word(words: &[u8]) -> &[u8]
    ensures { result.now ≡ others words.now }
{
    match cut(words) {
        (_, Some(others)) => others,
        (_, None) => &[],
    }
}

/// The value of a word NAME=VALUE with this name and its sign.
pub(crate) fn value_in_word<'a>(name: &[u8], word: &'a [u8]) -> Option<&'a [u8]>
    ensures { option_copied result ≡ value_in name.now word.now }
{
    if word.len() < name.len() {
        return None;
    }
    let (front, back) = word.split_at(name.len());
    if is_word(front, name) {
        Some(back)
    } else {
        None
    }
}

/// The mistake of a word: what no word has in it, or else this.
pub(crate) fn judge(word: &[u8], mistake: Mistake) -> Mistake
    ensures { result ≡ judged word.now mistake }
{
    match odd(word) {
        Some(mistake) => mistake,
        None => mistake,
    }
}

/// What no word has in it: nothing at all, a CR, or another octet that is no printable character of ASCII.
fn odd(word: &[u8]) -> Option<Mistake>
    ensures { result ≡ odd_in word.now }
{
    if word.is_empty() {
        Some(Mistake::Space)
    } else if has_cr(word) {
        Some(Mistake::CarriageReturn)
    } else if are_plain(word) {
        None
    } else {
        Some(Mistake::NotPrintable)
    }
}

/// Whether a CR stands in it.
fn has_cr(word: &[u8]) -> bool
    ensures { result ≡ list_any is_cr word.now }
{
    word.iter().any(|c| *c == b'\r')
}

/// Whether it's printable characters of ASCII alone.
fn are_plain(word: &[u8]) -> bool
    ensures { result ≡ list_all is_plain word.now }
{
    word.iter().all(|c| is_printable(*c))
}

/// Whether it's a printable character of ASCII.
pub(crate) fn is_printable(octet: u8) -> bool
    ensures { result ≡ is_plain octet }
{
    octet >= 32 && octet <= 126
}
