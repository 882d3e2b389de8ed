//! The mistakes that only the lines of a history have.
ghost use Rattle.std.specs.Prelude.{◌≡◌};
ghost use Rattle.text_forms.specs.EntryMistakes.{entry_mistake_text};

/// A mistake that only an entry's line of a history has; its text says what is wanted in its place.
#[derive(Clone, Copy, Debug, PartialEq, Eq)]
pub enum EntryMistake {
    /// Neither a user nor a terminal asks.
    Actor,
    /// A user or a terminal that isn't its number in its range.
    ActorNumber,
    /// A word that names nothing that is asked.
    Asked,
    /// What was asked, without what belongs to it.
    AskedValue,
    /// No arrow, or no answer's name behind it.
    Answered,
    /// An answer, without what belongs to it.
    AnsweredValue,
    /// Words that tell an entry which has another text.
    Otherwise,
}

impl EntryMistake {
    /// What is wanted in its place, in printable characters of ASCII.
    pub fn text(self) -> &'static str
        ensures { result.now ≡ entry_mistake_text self }
    {
        match self {
            EntryMistake::Actor =>
                "an entry begins with user or terminal, and a checkpoint is this word alone",
            EntryMistake::ActorNumber =>
                "a user is a number below 65536, and a terminal one below 256, without leading zeros",
            EntryMistake::Asked =>
                "here stands offer, take, find, next, hear, up, down, blind, noanswer, timed, restore, redeclare, backtimeout or test",
            EntryMistake::AskedValue =>
                "offer wants octets, find a number below 2^64, hear a link and a unit, and another word a link below 256",
            EntryMistake::Answered =>
                "behind -> stands accepted, taken, found, sent, heard, done or refused",
            EntryMistake::AnsweredValue =>
                "accepted wants a number, taken and sent octets, found a place, heard acked=K took=T asked=B resend=B fault=F, and refused 1 to 11",
            EntryMistake::Otherwise =>
                "an entry has one text: no leading zeros, octets in lower case, a sent unit's right check octets, no other word",
        }
    }
}
