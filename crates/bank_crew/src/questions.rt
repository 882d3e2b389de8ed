//! What level 3 asks of a set when time has passed (Q.704 5.7, 6.4), and where a link came up too late (own).
ghost use Rattle.std.specs.Prelude.{◌≡◌, true, IfSome, is_some, option_map, if◌then◌else◌};
ghost use Rattle.set_events.specs.Lent.{HasFitUnit, answer_in, event_in};
ghost use Rattle.bank_crew.specs.Awaiting.{asked_at_rest, asked_behind, asked_late, awaited_behind, awaited_by, rested};
ghost use Rattle.bank_crew.specs.Managing.{is_question};

use super::plan::Managed;
use super::report::{counts_up, tells_up};
use set_events::{AnswerRef, EventRef};

/// After so many asks of a link's terminal the answer to a changeback order is waited for no more: at 64 kbit/s after 24 s
/// where FISUs go out and come in. That's longer than T4 and T5 of Q.704 16.8 (own), since the order waits behind a
/// thousand messages on another link, which damaged units hold up: who gives up too early lets messages overtake.
const PATIENCE: u32 = 65_536;

/// After so many slices of 256 turns at rest the answer to a changeover order is waited for no more: 3 s at 64 kbit/s.
const LONGEST_REST: u32 = 96;

/// What is waited for.
#[derive(Clone, Copy, Debug, Drop, PartialEq, Eq)]
pub(crate) struct Awaited {
    /// How many slices of turns the terminal rested, since it isn't settled what the far end has.
    rests: u32,
    /// How often the terminal asked, Ups left out, since streams were asked back to the link; `None` where they weren't.
    asks: Option<u32>,
}

impl Awaited {
    /// Nothing.
    pub(crate) const NOTHING: Awaited = Awaited {
        rests: 0,
        asks: None,
    };

    /// What is asked behind this answer to an event of the terminal: a link that came up too late is down at once, whether
    /// links are managed or not; where they are, streams are asked back to one that came up (Q.704 6.2), and that no answer came
    /// to its changeback (6.4), after a while.
    pub(crate) fn question(
        &mut self,
        managed: Option<Managed>,
        link: u8,
        event: &EventRef<'_>,
        answer: &AnswerRef<'_>,
        late: bool,
    ) -> Option<EventRef<'static>>
        ensures awaited { self.new ≡ awaited_behind link (event_in event.now) (answer_in answer.now) self.old }
        ensures asked { option_map event_in result
            ≡ asked_late late managed link (event_in event.now) (answer_in answer.now) self.old }
        ensures question { IfSome result (λ question.
            (is_question link (event_in question) ≡ true) × HasFitUnit question) }
    {
        let rises_late = late && counts_up(link, event, answer);
        let asked = self.managed_question(managed, link, event, answer);
        if rises_late {
            return Some(EventRef::Down { link });
        }
        asked
    }

    /// What is asked behind it where nothing came late.
    fn managed_question(
        &mut self,
        managed: Option<Managed>,
        link: u8,
        event: &EventRef<'_>,
        answer: &AnswerRef<'_>,
    ) -> Option<EventRef<'static>>
        ensures awaited { self.new ≡ awaited_behind link (event_in event.now) (answer_in answer.now) self.old }
        ensures asked { option_map event_in result
            ≡ asked_behind managed link (event_in event.now) (answer_in answer.now) self.old }
        ensures question { IfSome result (λ question.
            (is_question link (event_in question) ≡ true) × HasFitUnit question) }
    {
        if counts_up(link, event, answer) {
            *self = Awaited::NOTHING;
            return where_managed(managed, EventRef::Restore { link });
        }
        if tells_up(link, event) {
            return None;
        }
        let asks = self.asks?;
        if asks < PATIENCE {
            self.asks = Some(asks + 1);
            return None;
        }
        self.asks = None;
        where_managed(managed, EventRef::BackTimeout { link })
    }

    /// The terminal rests for a slice of turns more: what is asked then where links are managed, that no answer came to the
    /// link's changeover, after a while (Q.704 5.7.2).
    pub(crate) fn rest(&mut self, managed: Option<Managed>, link: u8) -> Option<EventRef<'static>>
        ensures awaited { self.new ≡ rested self.old }
        ensures asked { option_map event_in result ≡ asked_at_rest managed link self.old }
        ensures question { IfSome result (λ question.
            (is_question link (event_in question) ≡ true) × HasFitUnit question) }
    {
        self.rests = self.rests.saturating_add(1);
        if self.rests < LONGEST_REST {
            return None;
        }
        self.rests = 0;
        where_managed(managed, EventRef::NoAnswer { link })
    }

    /// The set gave this answer to a question.
    pub(crate) fn hear(&mut self, question: &EventRef<'_>, answer: &AnswerRef<'_>)
        ensures { self.new ≡ awaited_by (event_in question.now) (answer_in answer.now) self.old }
    {
        if let (EventRef::Restore { .. }, AnswerRef::Done) = (question, answer) {
            self.asks = Some(0);
        }
    }
}

/// A question that is asked only where links are managed.
fn where_managed(managed: Option<Managed>, question: EventRef<'static>) -> Option<EventRef<'static>>
    ensures { option_map event_in result ≡ (if is_some managed then Some (event_in question.entry) else None) }
{
    match managed {
        Some(_) => Some(question),
        None => None,
    }
}
