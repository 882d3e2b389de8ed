//! Situations on one link, worked out by hand from Q.703 6. Units are written as their octets.
use super::bench::{ack, filled_in, has_numbers, head_of, is_head, number_of};
use super::holds;
use l2_pcr::*;
use l2_units::Header;
use l2_window::{Choice, ControlFault, HeardPart, Profile, Window};
use std::alloc::{AllocError, Global};
use std::test::Fail;

/// One end of a link. Each message has five octets.
#[derive(Drop)]
struct End {
    window: Window,
    control: Pcr,
}

/// A unit that has no numbers of this window tells nothing.
const NOT_HEARD: HeardPart = HeardPart {
    acked: 0,
    accept: false,
    resend: false,
    asked: false,
    fault: None,
};

fn end_with(alloc: Global, messages: u64, n1: u16, n2: u32) -> Result<End, AllocError> {
    Ok(End {
        window: filled_in(alloc, Profile::Narrow, messages)?,
        control: Pcr::new(n1, n2),
    })
}

/// An end of the wide profile, with limits that aren't met.
fn wide_end(alloc: Global, messages: u64) -> Result<End, AllocError> {
    Ok(End {
        window: filled_in(alloc, Profile::Wide, messages)?,
        control: Pcr::new(4_095, 1_113_840),
    })
}

impl End {
    /// What the heard unit means. All tests ask through here, so that the prover meets the contract once.
    fn hears(&mut self, head: Header, is_msu: bool) -> HeardPart {
        if !has_numbers(&self.window, head) {
            return NOT_HEARD;
        }
        let part = self.control.hear(&self.window, head, is_msu);
        if part.acked > 0 {
            let _ = ack(&mut self.window, head.bsn);
        }
        part
    }

    /// What is sent next: its header and, but for a FISU, its message.
    fn sends(&mut self) -> (Header, Option<u64>) {
        let octets = 5 * self.window.unacked_len() as u32;
        let choice = self.control.choice(&self.window, octets);
        let head = self.control.send(choice, &self.window, octets);
        let message = match choice {
            Choice::Again { place } => self.window.unacked_at(place),
            Choice::First => self.window.send().ok().map(|sent| sent.0),
            Choice::Fill => None,
        };
        (head, message)
    }

    fn sends_message(&mut self, message: u64, fsn: u16) -> Option<Header> {
        match self.sends() {
            (head, Some(number)) if number == message && head.fsn == fsn => Some(head),
            _ => None,
        }
    }

    fn sends_fill(&mut self, fsn: u16) -> Option<Header> {
        match self.sends() {
            (head, None) if head.fsn == fsn => Some(head),
            _ => None,
        }
    }

    /// Sends these messages, whose numbers on the line are theirs.
    fn sends_all(&mut self, messages: &[u16]) -> bool {
        for fsn in messages {
            if self.sends_message(u64::from(*fsn), *fsn).is_none() {
                return false;
            }
        }
        true
    }

    /// Hears a FISU of these two octets.
    fn hears_fill(&mut self, backward: u8, forward: u8) -> Option<HeardPart> {
        let head = head_of(backward, forward)?;
        Some(self.hears(head, false))
    }

    /// A FISU of these two octets acknowledges so many.
    fn hears_of(&mut self, acked: u16, backward: u8, forward: u8) -> bool {
        match self.hears_fill(backward, forward) {
            Some(part) => part.acked == acked,
            None => false,
        }
    }

    /// A message with this header is accepted or not, and makes it ask for another or not.
    fn takes(&mut self, head: Header, accept: bool, asked: bool) -> bool {
        let part = self.hears(head, true);
        part.accept == accept && part.asked == asked && !part.resend && part.fault.is_none()
    }

    /// A FISU of these two octets is this fault, or none.
    fn tells(&mut self, fault: Option<ControlFault>, backward: u8, forward: u8) -> bool {
        match self.hears_fill(backward, forward) {
            Some(part) => part.fault == fault,
            None => false,
        }
    }
}

#[test]
fn two_messages_force_a_cycle_that_an_acknowledgement_does_not_end(
    rt: HostRuntime,
) -> Result<(), Fail> {
    holds(ends_a_cycle_by_itself(&mut end_with(rt.alloc(), 3, 2, 1000)?))
}

fn ends_a_cycle_by_itself(end: &mut End) -> bool {
    end.sends_all(&[0, 1, 0, 1, 0]) && end.hears_of(1, 0x80, 0xFF) && end.sends_all(&[1, 2])
}

/// Fifteen octets are three messages, though N1 is far off.
#[test]
fn octets_force_a_cycle(rt: HostRuntime) -> Result<(), Fail> {
    holds(is_forced_by_octets(&mut end_with(rt.alloc(), 4, 127, 15)?))
}

fn is_forced_by_octets(end: &mut End) -> bool {
    end.sends_all(&[0, 1, 2, 0, 1, 2, 0]) && end.hears_of(3, 0x82, 0xFF) && end.sends_all(&[3])
}

#[test]
fn with_nothing_new_the_unacknowledged_go_round(rt: HostRuntime) -> Result<(), Fail> {
    holds(sends_round(&mut end_with(rt.alloc(), 3, 127, 1000)?))
}

fn sends_round(end: &mut End) -> bool {
    let round = end.sends_all(&[0, 1, 2, 0, 1, 2, 0, 1]);
    // Message 2 is due, and stays so.
    let due = end.hears_of(1, 0x80, 0xFF) && end.sends_all(&[2, 1, 2]);
    round && due && end.window.push(3).is_ok() && end.sends_all(&[3])
}

#[test]
fn nothing_is_asked_for(rt: HostRuntime) -> Result<(), Fail> {
    let mut near = end_with(rt.alloc(), 2, 127, 1000)?;
    let mut far = end_with(rt.alloc(), 0, 127, 1000)?;
    holds(is_not_asked_for(&mut near, &mut far))
}

fn is_not_asked_for(near: &mut End, far: &mut End) -> bool {
    let Some(first) = near.sends_message(0, 0) else {
        return false;
    };
    let Some(second) = near.sends_message(1, 1) else {
        return false;
    };
    is_head(second, 0xFF, 0x81) && takes_both(far, first, second) && acknowledges_both(far)
}

/// The second message is discarded until the first has come, and the first is taken once.
fn takes_both(far: &mut End, first: Header, second: Header) -> bool {
    far.takes(second, false, false)
        && far.takes(first, true, false)
        && far.takes(first, false, false)
        && far.takes(second, true, false)
}

fn acknowledges_both(far: &mut End) -> bool {
    match far.sends_fill(127) {
        Some(head) => far.control.expected() == 2 && is_head(head, 0x81, 0xFF),
        None => false,
    }
}

#[test]
fn two_abnormal_bsns_in_three_are_a_fault(rt: HostRuntime) -> Result<(), Fail> {
    holds(has_abnormal_bsns(&mut end_with(rt.alloc(), 0, 127, 1000)?))
}

fn has_abnormal_bsns(end: &mut End) -> bool {
    end.tells(None, 0x85, 0xFF)
        && end.tells(None, 0xFF, 0x7F)
        && end.tells(Some(ControlFault::Bsn), 0x85, 0xFF)
}

/// 300 messages one after another: numbers go round twice.
#[test]
fn numbers_go_round_twice(rt: HostRuntime) -> Result<(), Fail> {
    let mut near = end_with(rt.alloc(), 300, 127, 1000)?;
    let mut far = end_with(rt.alloc(), 0, 127, 1000)?;
    holds(go_round(&mut near, &mut far, 300, 127) && rests_at(&mut near, 43))
}

/// 5,000 messages one after another in the wide profile: numbers go round once.
#[test]
fn wide_numbers_go_round(rt: HostRuntime) -> Result<(), Fail> {
    let mut near = wide_end(rt.alloc(), 5_000)?;
    let mut far = wide_end(rt.alloc(), 0)?;
    holds(go_round(&mut near, &mut far, 5_000, 4_095) && rests_at(&mut near, 903))
}

/// So many messages go, each with its acknowledgement; the far end sends none, so its FISUs have the FSN before the first.
fn go_round(near: &mut End, far: &mut End, messages: u64, none_sent: u16) -> bool {
    for message in 0..messages {
        if !is_answered(near, far, message, none_sent) {
            return false;
        }
    }
    true
}

/// All up to this FSN is acknowledged, and there is nothing more to send.
fn rests_at(end: &mut End, fsn: u16) -> bool {
    end.window.last() == fsn && end.sends_fill(fsn).is_some()
}

fn is_answered(near: &mut End, far: &mut End, message: u64, none_sent: u16) -> bool {
    let fsn = number_of(near.window.profile(), message);
    let Some(unit) = near.sends_message(message, fsn) else {
        return false;
    };
    let accepted = far.hears(unit, true).accept;
    let Some(answer) = far.sends_fill(none_sent) else {
        return false;
    };
    accepted && near.hears(answer, false).acked == 1
}
