//! The mistakes of a line.
ghost use Rattle.std.specs.Prelude.{◌≡◌};
ghost use Rattle.text_forms.specs.Texts.{mistake_text};

use super::entry_mistake::EntryMistake;
use super::terminal_mistake::TerminalMistake;

/// A mistake of a line; its text says what is wanted in its place.
#[derive(Clone, Copy, Debug, PartialEq, Eq)]
pub enum Mistake {
    /// The first line doesn't begin with `set`.
    NotSet,
    /// The first line ends before its sixth word.
    OpeningShort,
    /// No word `links=L` in its place.
    LinksName,
    /// Its number isn't 1 to 16.
    LinksRange,
    /// No word of a method in its place.
    MethodName,
    /// A limit of the cyclic method out of its range.
    MethodLimits,
    /// So too in the wide profile, which has greater ones.
    WideMethodLimits,
    /// No word `a=X` in its place.
    CodeAName,
    /// No word `b=Y` in its place.
    CodeBName,
    /// A point code that isn't 0 to 16383.
    CodeRange,
    /// No word `sio=HH` in its place.
    SioName,
    /// An SIO that isn't two digits.
    SioDigits,
    /// An SIO whose service indicator isn't 0.
    SioIndicator,
    /// A profile that is neither.
    ProfileValue,
    /// An empty word: two spaces, or one before or behind the line.
    Space,
    /// A CR in a word.
    CarriageReturn,
    /// Another octet in a word that is no printable character of ASCII.
    NotPrintable,
    /// One word more than the line has.
    Surplus,
    /// A first word that no line has.
    UnknownWord,
    /// `set` on a line after the first.
    SecondSet,
    /// `together` without its link.
    TogetherWants,
    /// `offer` without its end.
    OfferWants,
    /// `take` without its end.
    TakeWants,
    /// `find` without its end or number.
    FindWants,
    /// `emit`, `arrive`, `rise`, `fill`, `down`, `blind`, `noanswer`, `timed`, `restore`, `redeclare`, `backtimeout` or `test` without its end or link.
    OnLinkWants,
    /// `lose` without its end, link or place.
    LoseWants,
    /// `hear` without its end, link or octets.
    HearWants,
    /// An end that is neither a nor b.
    End,
    /// A link that is no number.
    Link,
    /// A message or place that is no number.
    Number,
    /// Octets with a digit left over.
    OddDigits,
    /// Octets with a character that is no digit.
    NotHexadecimal,
    /// A unit of fewer than 3 octets.
    UnitShort,
    /// A unit of the wide profile of fewer than 4 octets.
    WideUnitShort,
    /// A unit of more than 276 octets.
    UnitLong,
    /// A unit whose length indicator is wrong.
    UnitLength,
    /// A unit of the wide profile whose length indicator is wrong.
    WideUnitLength,
    /// A link that the set hasn't.
    NoSuchLink,
    /// A link that isn't settled at both ends is to come up.
    NotSettled,
    /// A link that isn't settled at an end is to come up there.
    NotSettledThere,
    /// A unit is to arrive, and none is under way.
    NothingUnderWay,
    /// A unit is to be lost, and none is at that place.
    NoUnitThere,
    /// One that only the lines of a terminal have.
    Terminal(TerminalMistake),
    /// One that only an entry's line of a history has.
    Entry(EntryMistake),
}

impl Mistake {
    /// What is wanted in its place, in printable characters of ASCII.
    pub fn text(self) -> &'static str
        ensures { result.now ≡ mistake_text self }
    {
        match self {
            Mistake::NotSet => "the first line is set links=L method=W a=X b=Y sio=HH",
            Mistake::OpeningShort =>
                "set wants five words behind it: links=L method=W a=X b=Y sio=HH",
            Mistake::LinksName => "here stands links=L, the number of links",
            Mistake::LinksRange => "a set has 1 to 16 links, in decimal without leading zeros",
            Mistake::MethodName => "here stands method=basic or method=cyclic:N1:N2",
            Mistake::MethodLimits =>
                "the limits of cyclic:N1:N2 are 1 to 127 messages and 1 to 34671 octets",
            Mistake::WideMethodLimits =>
                "the limits of cyclic:N1:N2 in a wide set are 1 to 4095 messages and 1 to 1113840 octets",
            Mistake::CodeAName => "here stands a=X, the point code of end a",
            Mistake::CodeBName => "here stands b=Y, the point code of end b",
            Mistake::CodeRange => "a point code is 0 to 16383, in decimal without leading zeros",
            Mistake::SioName => "here stands sio=HH, the SIO of the set's own orders",
            Mistake::SioDigits => "an SIO is two hexadecimal digits",
            Mistake::SioIndicator => "the second digit of the SIO, the service indicator, is 0",
            Mistake::ProfileValue => "a profile is narrow or wide",
            Mistake::Space => "one space stands between two words, and none before or behind them",
            Mistake::CarriageReturn => "a line ends in LF alone, and this word has a CR",
            Mistake::NotPrintable =>
                "words are printable characters of ASCII, and this one has another octet",
            Mistake::Surplus => "the line ends before this word",
            Mistake::UnknownWord => "no line of a script begins with this word",
            Mistake::SecondSet => "set is the first line, and no other",
            Mistake::TogetherWants => "together wants a link",
            Mistake::OfferWants =>
                "offer wants an end, a or b, and octets of two hexadecimal digits",
            Mistake::TakeWants => "take wants an end, a or b",
            Mistake::FindWants => "find wants an end, a or b, and the number of a message",
            Mistake::OnLinkWants => "this word wants an end, a or b, and a link behind it",
            Mistake::LoseWants => "lose wants an end, a or b, a link, and the place of a unit",
            Mistake::HearWants => "hear wants an end, a or b, a link, and the octets of a unit",
            Mistake::End => "an end is a or b",
            Mistake::Link => "a link is a number from 0, in decimal without leading zeros",
            Mistake::Number => "a number is below 2^64, in decimal without leading zeros",
            Mistake::OddDigits =>
                "octets have two hexadecimal digits each, and one digit is left over",
            Mistake::NotHexadecimal =>
                "octets have two hexadecimal digits each, and this word has something else",
            Mistake::UnitShort => "a unit has 3 octets at least",
            Mistake::WideUnitShort => "a unit of a wide set has 4 octets at least",
            Mistake::UnitLong => "a unit has 276 octets at most",
            Mistake::UnitLength =>
                "the length indicator, the unit's third octet, isn't that of what follows, without check octets",
            Mistake::WideUnitLength =>
                "the length indicator, the high six bits of a wide unit's fourth octet, isn't that of what follows, without check octets",
            Mistake::NoSuchLink =>
                "the set has no link of this number; its links are counted from 0",
            Mistake::NotSettled =>
                "together wants a link that is up at neither end, and no changeover of it open",
            Mistake::NotSettledThere =>
                "rise wants a link that isn't up at this end, and no changeover of it open there",
            Mistake::NothingUnderWay => "no unit is under way to this end on this link",
            Mistake::NoUnitThere =>
                "no unit under way to this end on this link has this place, from 0",
            Mistake::Terminal(mistake) => mistake.text(),
            Mistake::Entry(mistake) => mistake.text(),
        }
    }
}
