//! The numbers by which an entry's octets tell what was asked and answered.
ghost use Rattle.std.specs.Prelude.{◌≡◌, ◌<◌, ◌^◌};
ghost use Rattle.set_events.specs.Lent.{answer_in, event_in};
ghost use Rattle.set_history.specs.Written.{IsFateKept};
ghost use Rattle.set_history.specs.Forms.{event_form as form_of_event, answer_form as form_of_answer};
ghost use Rattle.set_history.specs.Forms.{fate_number as number_of_fate, report_number as number_of_report};
ghost use Rattle.set_history.specs.Forms.{fate_told, cause_told, report_told, took_told, fault_told, refusal_told};

use l2_units::ControlFault;
use set_events::{AnswerRef, DiscardCause, EventRef, Fate, Refusal, Report, Took};

/// The number of what was asked, 0 to 13.
pub(crate) fn event_form(event: &EventRef<'_>) -> u8
    ensures value { result ≡ form_of_event (event_in event.now) }
    ensures few { result < 14 }
{
    match event {
        EventRef::Offer { .. } => 0,
        EventRef::Take => 1,
        EventRef::Find { .. } => 2,
        EventRef::Next { .. } => 3,
        EventRef::Heard { .. } => 4,
        EventRef::Up { .. } => 5,
        EventRef::Down { .. } => 6,
        EventRef::DownBlind { .. } => 7,
        EventRef::NoAnswer { .. } => 8,
        EventRef::Restore { .. } => 9,
        EventRef::BackTimeout { .. } => 10,
        EventRef::Timed { .. } => 11,
        EventRef::Redeclare { .. } => 12,
        EventRef::Test { .. } => 13,
    }
}

/// The number of what was answered, 0 to 6.
pub(crate) fn answer_form(answer: &AnswerRef<'_>) -> u8
    ensures value { result ≡ form_of_answer (answer_in answer.now) }
    ensures few { result < 7 }
{
    match answer {
        AnswerRef::Accepted { .. } => 0,
        AnswerRef::Taken { .. } => 1,
        AnswerRef::Found { .. } => 2,
        AnswerRef::Sent { .. } => 3,
        AnswerRef::Heard { .. } => 4,
        AnswerRef::Done => 5,
        AnswerRef::Refused { .. } => 6,
    }
}

/// A fate in a number: its place in the low three bits, and the link, the code or the cause above them.
pub(crate) fn fate_number(fate: Fate) -> u16
    ensures value { result ≡ number_of_fate fate }
    ensures kept { IsFateKept fate }
{
    match fate {
        Fate::Parked => 0,
        Fate::Waiting { link } => 1 + 8 * u16::from(link),
        Fate::Unacked { link } => 2 + 8 * u16::from(link),
        Fate::Acked { link } => 3 + 8 * u16::from(link),
        Fate::Held { link } => 4 + 8 * u16::from(link),
        Fate::Back { code } => 5 + 8 * u16::from(code),
        Fate::Discarded { cause } => 6 + 8 * u16::from(cause.number()),
    }
}

/// The fate of this number.
pub(crate) fn fate_of(number: u64) -> Fate
    ensures { result ≡ fate_told number }
{
    let above = (number / 8 % 256) as u8;
    match number % 8 {
        0 => Fate::Parked,
        1 => Fate::Waiting { link: above },
        2 => Fate::Unacked { link: above },
        3 => Fate::Acked { link: above },
        4 => Fate::Held { link: above },
        5 => Fate::Back { code: above },
        _ => Fate::Discarded {
            cause: cause_of(above),
        },
    }
}

fn cause_of(number: u8) -> DiscardCause
    ensures { result ≡ cause_told number }
{
    match number {
        1 => DiscardCause::Emergency,
        2 => DiscardCause::Unreasonable,
        _ => DiscardCause::NoAnswer,
    }
}

/// A report in a number: what became of the body in two bits, whether this end asks and whether the far end does in one
/// each, the fault in two, and how many messages it acknowledged above them.
pub(crate) fn report_number(report: Report) -> u32
    ensures value { result ≡ number_of_report report }
    ensures few { report.acked < 2 ^ 16 }
{
    let took = match report.took {
        Took::Nothing => 0,
        Took::Message => 1,
        Took::Order => 2,
        Took::Ignored => 3,
    };
    let fault = match report.fault {
        None => 0,
        Some(ControlFault::Bsn) => 16,
        Some(ControlFault::Fib) => 32,
    };
    let asked = if report.asked { 4 } else { 0 };
    let resend = if report.resend { 8 } else { 0 };
    took + asked + resend + fault + 64 * u32::from(report.acked)
}

/// The report of this number.
pub(crate) fn report_of(number: u64) -> Report
    ensures { result ≡ report_told number }
{
    Report {
        acked: (number / 64 % 0x1_0000) as u16,
        took: took_of(number % 4),
        asked: number / 4 % 2 == 1,
        resend: number / 8 % 2 == 1,
        fault: fault_of(number / 16 % 4),
    }
}

fn took_of(number: u64) -> Took
    ensures { result ≡ took_told number }
{
    match number {
        0 => Took::Nothing,
        1 => Took::Message,
        2 => Took::Order,
        _ => Took::Ignored,
    }
}

fn fault_of(number: u64) -> Option<ControlFault>
    ensures { result ≡ fault_told number }
{
    match number {
        0 => None,
        1 => Some(ControlFault::Bsn),
        _ => Some(ControlFault::Fib),
    }
}

/// The refusal of this number.
pub(crate) fn refusal_of(number: u8) -> Refusal
    ensures { result ≡ refusal_told number }
{
    match number {
        1 => Refusal::TooShort,
        2 => Refusal::TooLong,
        3 => Refusal::Reserved,
        4 => Refusal::StreamFull,
        5 => Refusal::NotUp,
        6 => Refusal::NotDown,
        7 => Refusal::Unsettled,
        8 => Refusal::UnknownNumber,
        9 => Refusal::Nothing,
        10 => Refusal::NoSuchLink,
        _ => Refusal::Finished,
    }
}
