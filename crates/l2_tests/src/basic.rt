//! Situations on one link, worked out by hand from Q.703 5. Units are written as their octets.
use super::bench::{ack, filled_in, has_numbers, head_of, is_head, number_of};
use super::holds;
use l2_basic::*;
use l2_units::Header;
use l2_window::{Choice, ControlFault, HeardPart, Profile, Window};
use std::alloc::{AllocError, Global};
use std::test::Fail;

/// One end of a link.
#[derive(Drop)]
struct End {
    window: Window,
    control: Basic,
}

/// A unit that has no numbers of this window tells nothing.
const NOT_HEARD: HeardPart = HeardPart {
    acked: 0,
    accept: false,
    resend: false,
    asked: false,
    fault: None,
};

fn end_with(alloc: Global, messages: u64) -> Result<End, AllocError> {
    end_in(alloc, Profile::Narrow, messages)
}

fn end_in(alloc: Global, profile: Profile, messages: u64) -> Result<End, AllocError> {
    Ok(End {
        window: filled_in(alloc, profile, messages)?,
        control: Basic::new(),
    })
}

impl End {
    /// What the heard unit means. All tests ask through here, so that the prover meets the contract once.
    fn hears(&mut self, head: Header, is_msu: bool) -> HeardPart {
        if !has_numbers(&self.window, head) {
            return NOT_HEARD;
        }
        let part = self.control.hear(&self.window, head, is_msu);
        if part.acked > 0 {
            let _ = ack(&mut self.window, head.bsn);
        }
        part
    }

    /// What is sent next: its header and, but for a FISU, its message.
    fn sends(&mut self) -> (Header, Option<u64>) {
        let choice = self.control.choice(&self.window);
        let head = self.control.send(choice, &self.window);
        let message = match choice {
            Choice::Again { place } => self.window.unacked_at(place),
            Choice::First => self.window.send().ok().map(|sent| sent.0),
            Choice::Fill => None,
        };
        (head, message)
    }

    fn sends_message(&mut self, message: u64, fsn: u16) -> Option<Header> {
        match self.sends() {
            (head, Some(number)) if number == message && head.fsn == fsn => Some(head),
            _ => None,
        }
    }

    fn sends_fill(&mut self, fsn: u16) -> Option<Header> {
        match self.sends() {
            (head, None) if head.fsn == fsn => Some(head),
            _ => None,
        }
    }

    /// Sends these messages, whose numbers on the line are theirs.
    fn sends_all(&mut self, messages: &[u16]) -> bool {
        for fsn in messages {
            if self.sends_message(u64::from(*fsn), *fsn).is_none() {
                return false;
            }
        }
        true
    }

    /// Hears a FISU of these two octets.
    fn hears_fill(&mut self, backward: u8, forward: u8) -> Option<HeardPart> {
        let head = head_of(backward, forward)?;
        Some(self.hears(head, false))
    }

    /// A FISU of these two octets acknowledges so many.
    fn hears_of(&mut self, acked: u16, backward: u8, forward: u8) -> bool {
        match self.hears_fill(backward, forward) {
            Some(part) => part.acked == acked,
            None => false,
        }
    }

    /// A message with this header is accepted or not, and makes it ask for another or not.
    fn takes(&mut self, head: Header, accept: bool, asked: bool) -> bool {
        let part = self.hears(head, true);
        part.accept == accept && part.asked == asked && !part.resend && part.fault.is_none()
    }

    /// What it hears makes it send again, and acknowledges nothing.
    fn goes_back(&mut self, head: Header) -> bool {
        let part = self.hears(head, false);
        part.resend && part.acked == 0
    }

    /// A FISU of these two octets is this fault, or none.
    fn tells(&mut self, fault: Option<ControlFault>, backward: u8, forward: u8) -> bool {
        match self.hears_fill(backward, forward) {
            Some(part) => part.fault == fault,
            None => false,
        }
    }
}

#[test]
fn message_127_waits_for_a_number(rt: HostRuntime) -> Result<(), Fail> {
    holds(waits_for_a_number(&mut end_with(rt.alloc(), 128)?))
}

fn waits_for_a_number(end: &mut End) -> bool {
    sends_127(end)
        && end.sends_fill(126).is_some()
        && end.hears_of(0, 0xFF, 0xFF)
        && end.hears_of(127, 0xFE, 0xFF)
        && end.sends_all(&[127])
}

fn sends_127(end: &mut End) -> bool {
    for message in 0..127u16 {
        if !end.sends_all(&[message]) {
            return false;
        }
    }
    true
}

#[test]
fn a_lost_message_is_asked_for_and_sent_again(rt: HostRuntime) -> Result<(), Fail> {
    let mut near = end_with(rt.alloc(), 2)?;
    let mut far = end_with(rt.alloc(), 0)?;
    holds(comes_in_the_end(&mut near, &mut far))
}

fn comes_in_the_end(near: &mut End, far: &mut End) -> bool {
    is_asked_for(near, far) && is_sent_again(near, far)
}

fn is_asked_for(near: &mut End, far: &mut End) -> bool {
    let first = near.sends_message(0, 0);
    let Some(second) = near.sends_message(1, 1) else {
        return false;
    };
    // Asked once only, and what was sent before is discarded.
    first.is_some() && far.takes(second, false, true) && far.takes(second, false, false)
}

fn is_sent_again(near: &mut End, far: &mut End) -> bool {
    let Some(nack) = far.sends_fill(127) else {
        return false;
    };
    let back = is_head(nack, 0x7F, 0xFF) && near.goes_back(nack);
    let Some(first) = near.sends_message(0, 0) else {
        return false;
    };
    back && is_head(first, 0xFF, 0x00) && is_taken_once(far, first)
}

/// Message 0 with this header is accepted; the same number again is discarded, and nothing is asked for.
fn is_taken_once(far: &mut End, first: Header) -> bool {
    far.takes(first, true, false) && far.control.expected() == 1 && far.takes(first, false, false)
}

#[test]
fn an_acknowledgement_in_a_retransmission_moves_the_cursor_back(
    rt: HostRuntime,
) -> Result<(), Fail> {
    holds(moves_the_cursor_back(&mut end_with(rt.alloc(), 4)?))
}

fn moves_the_cursor_back(end: &mut End) -> bool {
    let Some(nack) = head_of(0x7F, 0xFF) else {
        return false;
    };
    end.sends_all(&[0, 1, 2])
        && end.goes_back(nack)
        && end.sends_all(&[0])
        && goes_on(end)
        && end.sends_all(&[1, 2, 3])
        && end.sends_fill(3).is_some()
}

/// It hears that message 0 arrived, and of nothing that makes it begin again.
fn goes_on(end: &mut End) -> bool {
    match end.hears_fill(0x00, 0xFF) {
        Some(part) => part.acked == 1 && !part.resend,
        None => false,
    }
}

#[test]
fn two_abnormal_units_in_three_are_a_fault(rt: HostRuntime) -> Result<(), Fail> {
    let mut first = end_with(rt.alloc(), 0)?;
    let mut second = end_with(rt.alloc(), 0)?;
    holds(has_abnormal_bsns(&mut first) && has_abnormal_fibs(&mut second))
}

fn has_abnormal_bsns(end: &mut End) -> bool {
    end.tells(None, 0x85, 0xFF)
        && end.tells(None, 0xFF, 0xFF)
        && end.tells(Some(ControlFault::Bsn), 0x85, 0xFF)
}

fn has_abnormal_fibs(end: &mut End) -> bool {
    end.tells(None, 0xFF, 0x7F) && end.tells(Some(ControlFault::Fib), 0xFF, 0x7F)
}

/// 300 messages one after another: numbers go round twice.
#[test]
fn numbers_go_round_twice(rt: HostRuntime) -> Result<(), Fail> {
    let mut near = end_with(rt.alloc(), 300)?;
    let mut far = end_with(rt.alloc(), 0)?;
    holds(go_round(&mut near, &mut far, 300, 127) && rests_at(&mut near, 43))
}

/// 5,000 messages one after another in the wide profile: numbers go round once.
#[test]
fn wide_numbers_go_round(rt: HostRuntime) -> Result<(), Fail> {
    let mut near = end_in(rt.alloc(), Profile::Wide, 5_000)?;
    let mut far = end_in(rt.alloc(), Profile::Wide, 0)?;
    holds(go_round(&mut near, &mut far, 5_000, 4_095) && rests_at(&mut near, 903))
}

/// So many messages go, each with its acknowledgement; the far end sends none, so its FISUs have the FSN before the first.
fn go_round(near: &mut End, far: &mut End, messages: u64, none_sent: u16) -> bool {
    for message in 0..messages {
        if !is_answered(near, far, message, none_sent) {
            return false;
        }
    }
    true
}

/// All up to this FSN is acknowledged, and there is nothing more to send.
fn rests_at(end: &mut End, fsn: u16) -> bool {
    end.window.last() == fsn && end.sends_fill(fsn).is_some()
}

fn is_answered(near: &mut End, far: &mut End, message: u64, none_sent: u16) -> bool {
    let fsn = number_of(near.window.profile(), message);
    let Some(unit) = near.sends_message(message, fsn) else {
        return false;
    };
    let accepted = far.hears(unit, true).accept;
    let Some(answer) = far.sends_fill(none_sent) else {
        return false;
    };
    accepted && near.hears(answer, false).acked == 1
}
