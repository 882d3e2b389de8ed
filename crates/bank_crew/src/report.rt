//! What a terminal's turns came to.
ghost use Rattle.std.specs.Prelude.{◌≡◌, ◌+◌, ◌<◌, ◌^◌};
ghost use Rattle.set_events.specs.Lent.{answer_in, event_in};
ghost use Rattle.bank_crew.specs.Counts.{counted, counts_up, counts_message, is_done, is_heard, is_up, reported, took_message};

use super::carried::Carried;
use arrayvec::ArrayVec;
use line_tape::Tape;
use link_term::{TermFault, TermReport};
use set_events::{AnswerRef, EventRef, Took};

/// What the turns of a link's terminal came to.
#[derive(Debug, Drop)]
pub struct ShiftReport {
    /// What they counted at the line.
    pub turns: TermReport,
    /// What the set answered meanwhile.
    pub answered: Answered,
    /// What the link carried meanwhile.
    pub carried: Carried,
    /// What they put into the line, where that was to be kept.
    pub tape: Tape,
}

/// What the calls of a user came to.
#[derive(Debug, Drop)]
pub struct UserReport {
    /// The bodies of the messages that it took and kept, oldest first.
    pub taken: Vec<ArrayVec<u8, 273>>,
}

/// What a set answered to the terminal of a link, counted as it happens, so that no checkpoint takes it away.
#[derive(Clone, Copy, Debug, PartialEq, Eq)]
pub struct Answered {
    /// Whether Done was ever answered to an Up of the link.
    pub came_up: bool,
    /// How many messages were heard on the link and accepted.
    pub messages: u64,
}

/// Nothing was answered yet.
pub(crate) const NOTHING: Answered = Answered {
    came_up: false,
    messages: 0,
};

impl Answered {
    /// With this answer to this event of the terminal of the link.
    pub(crate) fn with(self, link: u8, event: &EventRef<'_>, answer: &AnswerRef<'_>) -> Answered
        requires { self.messages + 1 < 2 ^ 64 }
        ensures { result ≡ counted link (event_in event.now) (answer_in answer.now) self }
    {
        Answered {
            came_up: self.came_up || counts_up(link, event, answer),
            messages: if counts_message(link, event, answer) {
                self.messages + 1
            } else {
                self.messages
            },
        }
    }
}

/// What the turns came to, of which this was counted, or why they ended early.
pub(crate) fn reported(
    turns: Result<TermReport, TermFault>,
    answered: Answered,
    carried: Carried,
    tape: Tape,
) -> Result<ShiftReport, TermFault>
    ensures { result ≡ reported answered carried tape turns }
{
    match turns {
        Ok(turns) => Ok(ShiftReport {
            turns,
            answered,
            carried,
            tape,
        }),
        Err(fault) => Err(fault),
    }
}

/// Whether the link came up: Done was answered to its Up.
pub(crate) fn counts_up(link: u8, event: &EventRef<'_>, answer: &AnswerRef<'_>) -> bool
    ensures { result ≡ counts_up link (event_in event.now) (answer_in answer.now) }
{
    tells_up(link, event) && was_done(answer)
}

/// Whether a message was heard on the link and accepted.
pub(crate) fn counts_message(link: u8, event: &EventRef<'_>, answer: &AnswerRef<'_>) -> bool
    ensures { result ≡ counts_message link (event_in event.now) (answer_in answer.now) }
{
    was_heard(link, event) && accepted_message(answer)
}

/// Whether the terminal of this link tells that it's in service.
pub(crate) fn tells_up(link: u8, event: &EventRef<'_>) -> bool
    ensures { result ≡ is_up link (event_in event.now) }
{
    match event {
        EventRef::Up { link: up } => *up == link,
        _ => false,
    }
}

/// Whether a unit was heard on this link.
fn was_heard(link: u8, event: &EventRef<'_>) -> bool
    ensures { result ≡ is_heard link (event_in event.now) }
{
    match event {
        EventRef::Heard { link: on, .. } => *on == link,
        _ => false,
    }
}

/// Whether it was done.
pub(crate) fn was_done(answer: &AnswerRef<'_>) -> bool
    ensures { result ≡ is_done (answer_in answer.now) }
{
    matches!(answer, AnswerRef::Done)
}

/// Whether the unit was a message that was accepted.
fn accepted_message(answer: &AnswerRef<'_>) -> bool
    ensures { result ≡ took_message (answer_in answer.now) }
{
    match answer {
        AnswerRef::Heard { report } => matches!(report.took, Took::Message),
        _ => false,
    }
}
