//! Whether octets begin with the entry of a fill-in unit. Of an idle link there is no other.
ghost use Rattle.std.specs.Prelude.{◌≡◌, ◌++◌, IfSome, IsTrue};
ghost use Rattle.std.specs.Int.{w32, to_le_bytes};
ghost use Rattle.set_events.specs.Lent.{answer_in, event_in};
ghost use Rattle.set_events.specs.declared.event.Actor.{Actor as SetActor};
ghost use Rattle.set_events.specs.declared.event.Event.{Event as SetEvent};
ghost use Rattle.set_events.specs.declared.answer.Answer.{Answer as SetAnswer};
ghost use Rattle.l2_units.specs.declared.unit.Unit.{Unit as SignalUnit};
ghost use Rattle.set_history.specs.Written.{entry_text, IsKept};

use super::forms::report_number;
use l2_units::{Header, UnitRef, wide_word};
use set_events::{Actor, AnswerRef, EventRef, Report};

/// What stands behind this entry, if it's of a fill-in unit and these octets begin with it.
#[inline(always)]
pub(crate) fn behind_fill_in<'a>(
    octets: &'a [u8],
    who: Actor,
    event: &EventRef<'_>,
    answer: &AnswerRef<'_>,
) -> Option<&'a [u8]>
    ensures text { IfSome result (λ rest. octets.now
        ≡ entry_text (record { who = who; event = event_in event.now; answer = answer_in answer.now }) ++ rest.now) }
    ensures kept { IfSome result
        (λ _. IsKept (record { who = who; event = event_in event.now; answer = answer_in answer.now })) }
{
    let Actor::Terminal(terminal) = who else {
        return None;
    };
    match event {
        EventRef::Next { link } => match answer {
            AnswerRef::Sent {
                unit: UnitRef::Fisu { head },
            } => behind_sent(octets, terminal, *link, *head),
            _ => None,
        },
        EventRef::Heard {
            link,
            unit: UnitRef::Fisu { head },
        } => match answer {
            AnswerRef::Heard { report } => behind_heard(octets, terminal, *link, *head, *report),
            _ => None,
        },
        _ => None,
    }
}

/// A terminal asked for the next unit, and a fill-in unit was sent.
#[inline(always)]
fn behind_sent<'a>(octets: &'a [u8], terminal: u8, link: u8, head: Header) -> Option<&'a [u8]>
    ensures text { IfSome result (λ rest. octets.now ≡ entry_text (record {
      who = SetActor.Terminal terminal;
      event = SetEvent.Next link;
      answer = SetAnswer.Sent (SignalUnit.Fisu head);
    }) ++ rest.now) }
{
    match octets {
        [form, who, on, a, b, c, d, rest @ ..] => {
            let same = *form == 179
                && *who == terminal
                && *on == link
                && is_word([*a, *b, *c, *d], wide_word(head, 0));
            if same { Some(rest) } else { None }
        }
        _ => None,
    }
}

/// A terminal heard a fill-in unit.
#[inline(always)]
fn behind_heard<'a>(
    octets: &'a [u8],
    terminal: u8,
    link: u8,
    head: Header,
    report: Report,
) -> Option<&'a [u8]>
    ensures text { IfSome result (λ rest. octets.now ≡ entry_text (record {
      who = SetActor.Terminal terminal;
      event = SetEvent.Heard link (SignalUnit.Fisu head);
      answer = SetAnswer.Heard report;
    }) ++ rest.now) }
    ensures kept { IfSome result (λ _. IsKept (record {
      who = SetActor.Terminal terminal;
      event = SetEvent.Heard link (SignalUnit.Fisu head);
      answer = SetAnswer.Heard report;
    })) }
{
    let number = report_number(report);
    match octets {
        [form, who, on, a, b, c, d, told, rest @ ..] => {
            let same = number < 253
                && *form == 196
                && *who == terminal
                && *on == link
                && is_word([*a, *b, *c, *d], wide_word(head, 0))
                && u32::from(*told) == number;
            if same { Some(rest) } else { None }
        }
        _ => None,
    }
}

/// Whether these octets are those of this number, the lowest first.
#[inline(always)]
fn is_word(octets: [u8; 4], word: u32) -> bool
    ensures { IsTrue result → to_le_bytes w32 word ≡ octets }
{
    u32::from_le_bytes(octets) == word
}
