//! The mistakes that only the lines of a terminal have.
ghost use Rattle.std.specs.Prelude.{◌≡◌};
ghost use Rattle.text_forms.specs.TerminalTexts.{terminal_text};

use super::named::Named;

/// A mistake that only the lines of a terminal have; its text says what is wanted in its place.
#[derive(Clone, Copy, Debug, PartialEq, Eq)]
pub enum TerminalMistake {
    /// The first line tells the wide profile.
    Wide,
    /// A first word that no line has.
    UnknownWord,
    /// `timers` on a line that isn't the one behind the first.
    TimersPlace,
    /// `timers` with fewer than six words behind it.
    TimersWants,
    /// `level3` on a line that isn't the one behind the first or behind `timers`.
    Level3Place,
    /// `level3` with fewer than seven words behind it.
    Level3Wants,
    /// A word that wants a link alone, without it.
    LinkWants,
    /// `octets` without its link or octets.
    OctetsWants,
    /// `hear` without its link, or with too few words of a unit.
    HearWants,
    /// `flags` without its link or number.
    FlagsWants,
    /// `bits` without its link or digits.
    BitsWants,
    /// `find` without its number.
    FindWants,
    /// `forget` without its number.
    ForgetWants,
    /// `events` without `on` or `off`.
    EventsWants,
    /// Bits that aren't digits 0 and 1.
    Bits,
    /// A unit that is neither of a kind nor octets.
    UnitName,
    /// A body that isn't 3 to 273 octets behind its name.
    Body,
    /// So too where the words of a header may stand in its place.
    FirstBody,
    /// A word behind `checkpoint` that isn't `quiet`.
    Quiet,
    /// A word behind the number of `forget` that isn't `told`.
    Told,
    /// A word behind `events` that is neither `on` nor `off`.
    Switch,
    /// A word that isn't this number in its range.
    Number(Named),
}

impl TerminalMistake {
    /// What is wanted in its place, in printable characters of ASCII.
    pub fn text(self) -> &'static str
        ensures { result.now ≡ terminal_text self }
    {
        match self {
            TerminalMistake::Wide => "the set of a terminal has the narrow profile",
            TerminalMistake::UnknownWord =>
                "a line begins with start, stop, emergency, calm, busy, ease, blind, outage, recover, octets, hear, flags, bits, offer, take, find, noanswer, timed, restore, redeclare, backtimeout, test, activate, deactivate, look, counts, checkpoint, forget, events or history",
            TerminalMistake::TimersPlace => "timers is the line behind the first, and no other",
            TerminalMistake::TimersWants =>
                "timers wants six words behind it: t1=N t2=N t3=N t5=N t6=N t7=N",
            TerminalMistake::Level3Place =>
                "level3 is the line behind the first or behind timers, and no other",
            TerminalMistake::Level3Wants =>
                "level3 wants seven words behind it: t1=N t2=N t4=N t5=N t17=N k1=N k2=N",
            TerminalMistake::LinkWants => "this word wants a link behind it",
            TerminalMistake::OctetsWants =>
                "octets wants a link, and octets of two hexadecimal digits",
            TerminalMistake::HearWants =>
                "hear wants a link, and a unit: fisu HEAD, lssu HEAD status=S, msu HEAD body=HEX, or octets; HEAD is bsn=B bib=B fsn=F fib=F or nothing",
            TerminalMistake::FlagsWants => "flags wants a link, and the number of flags",
            TerminalMistake::BitsWants => "bits wants a link, and digits 0 and 1",
            TerminalMistake::FindWants => "find wants the number of a message",
            TerminalMistake::ForgetWants => "forget wants a number of turns",
            TerminalMistake::EventsWants => "events wants on or off behind it",
            TerminalMistake::Bits => "bits are digits 0 and 1",
            TerminalMistake::UnitName =>
                "a unit is fisu, lssu, msu, or octets of two hexadecimal digits",
            TerminalMistake::Body =>
                "here stands body=HEX, 3 to 273 octets of two hexadecimal digits",
            TerminalMistake::FirstBody =>
                "here stands body=HEX, 3 to 273 octets of two hexadecimal digits, or bsn=B and the rest of a header",
            TerminalMistake::Quiet => "here stands quiet, where the entries aren't to be printed",
            TerminalMistake::Told => "here stands told, where the entries are to be printed",
            TerminalMistake::Switch => "here stands on or off",
            TerminalMistake::Number(named) => named.text(),
        }
    }
}
