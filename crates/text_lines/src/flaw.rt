//! What is wrong with the octets of a line that can't be read.
ghost use Rattle.std.specs.Prelude.{◌≡◌};
ghost use Rattle.text_lines.specs.Flaws.{begins_with, ends_with, flaw_text, flaw_of, has_tab, has_two_spaces};

use std::fmt;
use std::fmt::Display;

/// What is wrong with a line that can't be read: its size, or an octet that stands between or behind its words; or else
/// its words themselves.
#[derive(Clone, Copy, Debug, PartialEq, Eq)]
pub enum LineFlaw {
    /// Its words.
    Words,
    /// It has over 4,096 octets.
    Long,
    /// It has over 16,384 octets, in a text whose lines may have as many.
    VeryLong,
    /// Its last octet is a CR.
    CarriageReturn,
    /// It has a tab.
    Tab,
    /// Its first octet is a space.
    FirstSpace,
    /// Its last octet is a space.
    LastSpace,
    /// Two spaces stand in a row.
    TwoSpaces,
}

impl LineFlaw {
    /// What is said of it behind `fault line N text`: nothing of words.
    pub fn text(self) -> &'static str
        ensures { result.now ≡ flaw_text self }
    {
        match self {
            LineFlaw::Words => "",
            LineFlaw::Long => ": the line has more than 4,096 octets",
            LineFlaw::VeryLong => ": the line has more than 16,384 octets",
            LineFlaw::CarriageReturn => ": the line ends with a carriage return (CRLF)",
            LineFlaw::Tab => ": the line has a tab",
            LineFlaw::FirstSpace => ": the line begins with a space",
            LineFlaw::LastSpace => ": the line ends with a space",
            LineFlaw::TwoSpaces => ": the line has two spaces in a row",
        }
    }
}

impl Display for LineFlaw {
    ghost use Rattle.std.specs.Prelude.{Some};

    ghost output = { λ flaw. Some (flaw_text flaw) };

    fn fmt<W: fmt::Write>(&self, f: &mut fmt::Formatter<W>) -> fmt::Result {
        let text = self.text();
        write!(f, "{text}")
    }
}

/// What is wrong with this line, which can't be read and isn't too long. Of several flaws it's the first in their order.
pub fn find_flaw(line: &[u8]) -> LineFlaw
    ensures { result ≡ flaw_of line.now }
{
    if last_is(line, b'\r') {
        LineFlaw::CarriageReturn
    } else if tab_stands_in(line) {
        LineFlaw::Tab
    } else if first_is(line, b' ') {
        LineFlaw::FirstSpace
    } else if last_is(line, b' ') {
        LineFlaw::LastSpace
    } else if two_spaces_stand_in(line) {
        LineFlaw::TwoSpaces
    } else {
        LineFlaw::Words
    }
}

/// Whether the line has a tab.
fn tab_stands_in(line: &[u8]) -> bool
    ensures { result ≡ has_tab line.now }
{
    line.iter().any(|c| *c == b'\t')
}

/// Whether the line begins with this octet.
fn first_is(line: &[u8], octet: u8) -> bool
    ensures { result ≡ begins_with octet line.now }
{
    match line {
        [] => false,
        [first, ..] => *first == octet,
    }
}

/// Whether the line ends with this octet.
fn last_is(line: &[u8], octet: u8) -> bool
    ensures { result ≡ ends_with octet line.now }
{
    let mut left = line;
    while let [first, others @ ..] = left {
        if others.is_empty() {
            return *first == octet;
        }
        left = others;
    }
    false
}

/// Whether two spaces stand in a row.
fn two_spaces_stand_in(line: &[u8]) -> bool
    ensures { result ≡ has_two_spaces line.now }
{
    let mut left = line;
    while let [first, others @ ..] = left {
        if *first == b' ' && first_is(others, b' ') {
            return true;
        }
        left = others;
    }
    false
}
