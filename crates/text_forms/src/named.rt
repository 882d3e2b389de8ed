//! Numbers that the lines of a terminal tell by name.
ghost use Rattle.std.specs.Prelude.{◌≡◌, ◌≤◌};
ghost use Rattle.std.specs.Option.{ForSome};
ghost use Rattle.text_forms.specs.Named.{named_of, least, most, name_of, named_text};

use super::words::value_in_word;
use text_base::read_number;

/// A number behind its name, as the lines of a terminal have them.
#[derive(Clone, Copy, Debug, PartialEq, Eq)]
pub enum Named {
    /// `t1=N`, the length of timer T1 in octet times, 1 to 2^32 - 1 (Q.703 12.3).
    T1,
    /// `t2=N`, so too.
    T2,
    /// `t3=N`, so too.
    T3,
    /// `t5=N`, so too.
    T5,
    /// `t6=N`, so too.
    T6,
    /// `t7=N`, so too.
    T7,
    /// `t4=N`, the length of timer T4 of level 3 in turns, 1 to 2^32 - 1 (Q.704 16.8).
    T4,
    /// `t17=N`, so too.
    T17,
    /// `k1=N`, that of T1 of link tests (Q.707), so too.
    K1,
    /// `k2=N`, that of T2 of link tests, so too.
    K2,
    /// `bsn=B`, 0 to 127 (Q.703 2.2).
    Bsn,
    /// `bib=B`, 0 or 1.
    Bib,
    /// `fsn=F`, 0 to 127.
    Fsn,
    /// `fib=F`, 0 or 1.
    Fib,
    /// `status=S`, 0 to 7 (Q.703 11.1).
    Status,
    /// The same where the words of a header may stand in its place.
    FirstStatus,
    /// `xN`, how often, 1 to 2^20.
    Times,
    /// The same where the words of a header may stand in its place.
    FirstTimes,
    /// How many flags, 1 to 2^20; there is no name before it.
    Flags,
    /// How many turns, 0 to 2^32 - 1; there is no name before it.
    Turns,
}

impl Named {
    /// The number that a word is, in its range.
    pub(crate) fn read(self, word: &[u8]) -> Option<u64>
        ensures value { result ≡ named_of self word.now }
        ensures within { ForSome result (λ number. (least self ≤ number) × (number ≤ most self)) }
    {
        let number = read_number(value_in_word(self.name(), word)?)?;
        if number >= self.least() && number <= self.most() {
            Some(number)
        } else {
            None
        }
    }

    /// The name, with its sign.
    fn name(self) -> &'static [u8]
        ensures { result.now ≡ name_of self }
    {
        match self {
            Named::T1 => b"t1=",
            Named::T2 => b"t2=",
            Named::T3 => b"t3=",
            Named::T5 => b"t5=",
            Named::T6 => b"t6=",
            Named::T7 => b"t7=",
            Named::T4 => b"t4=",
            Named::T17 => b"t17=",
            Named::K1 => b"k1=",
            Named::K2 => b"k2=",
            Named::Bsn => b"bsn=",
            Named::Bib => b"bib=",
            Named::Fsn => b"fsn=",
            Named::Fib => b"fib=",
            Named::Status | Named::FirstStatus => b"status=",
            Named::Times | Named::FirstTimes => b"x",
            Named::Flags | Named::Turns => b"",
        }
    }

    /// The least of its numbers.
    fn least(self) -> u64
        ensures { result ≡ least self }
    {
        match self {
            Named::Bsn
            | Named::Bib
            | Named::Fsn
            | Named::Fib
            | Named::Status
            | Named::Turns
            | Named::FirstStatus => 0,
            _ => 1,
        }
    }

    /// The greatest of its numbers.
    fn most(self) -> u64
        ensures { result ≡ most self }
    {
        match self {
            Named::Bsn | Named::Fsn => 127,
            Named::Bib | Named::Fib => 1,
            Named::Status | Named::FirstStatus => 7,
            Named::Times | Named::FirstTimes | Named::Flags => 0x10_0000,
            _ => 0xFFFF_FFFF,
        }
    }

    /// What stands in its place, in printable characters of ASCII.
    pub(crate) fn text(self) -> &'static str
        ensures { result.now ≡ named_text self }
    {
        match self {
            Named::T1 => "here stands t1=N, with N 1 to 4294967295",
            Named::T2 => "here stands t2=N, with N 1 to 4294967295",
            Named::T3 => "here stands t3=N, with N 1 to 4294967295",
            Named::T5 => "here stands t5=N, with N 1 to 4294967295",
            Named::T6 => "here stands t6=N, with N 1 to 4294967295",
            Named::T7 => "here stands t7=N, with N 1 to 4294967295",
            Named::T4 => "here stands t4=N, with N 1 to 4294967295",
            Named::T17 => "here stands t17=N, with N 1 to 4294967295",
            Named::K1 => "here stands k1=N, with N 1 to 4294967295",
            Named::K2 => "here stands k2=N, with N 1 to 4294967295",
            Named::Bsn => "here stands bsn=B, with B 0 to 127",
            Named::Bib => "here stands bib=B, with B 0 or 1",
            Named::Fsn => "here stands fsn=F, with F 0 to 127",
            Named::Fib => "here stands fib=F, with F 0 or 1",
            Named::Status => "here stands status=S, with S 0 to 7",
            Named::FirstStatus =>
                "here stands status=S, with S 0 to 7, or bsn=B and the rest of a header",
            Named::Times => "here stands xN, how often, with N 1 to 1048576",
            Named::FirstTimes =>
                "here stands xN, how often, with N 1 to 1048576, or bsn=B and the rest of a header",
            Named::Flags => "here stands the number of flags, 1 to 1048576",
            Named::Turns => "here stands the number of turns, 0 to 4294967295",
        }
    }
}
