//! Two ends that are joined octet by octet, on two links.

use super::settings::{FAR, NEAR, holds, holds_at};
use end_calls::{CallFault, HeardValues, activate, checkpoint, find, hear, look, offer, take};
use set_events::Refusal;
use std::alloc::Global;
use std::test::Fail;
use term_managed::ManagedBench;

/// How many octets are on their way on each line.
const PIECE: usize = 16;

/// How many messages are offered.
const MESSAGES: u8 = 20;

/// What is on its way on each link.
#[derive(Clone, Copy)]
struct Lines {
    to_a: [[u8; PIECE]; 2],
    to_b: [[u8; PIECE]; 2],
    cut: bool,
}

/// So many pieces go over each line; `None` where a call failed.
fn run(a: &mut ManagedBench, b: &mut ManagedBench, lines: &mut Lines, pieces: u32) -> Option<()> {
    for _ in 0..pieces {
        exchange(a, b, lines, 0)?;
        exchange(a, b, lines, 1)?;
    }
    Some(())
}

/// A piece each way on this link; ones where it's cut.
fn exchange(a: &mut ManagedBench, b: &mut ManagedBench, lines: &mut Lines, link: u8) -> Option<()> {
    let at = usize::from(link % 2);
    let (mut from_a, mut from_b) = ([0xFF; PIECE], [0xFF; PIECE]);
    hear_all(a, link, &lines.to_a[at], &mut from_a)?;
    hear_all(b, link, &lines.to_b[at], &mut from_b)?;
    if lines.cut && at == 1 {
        from_a = [0xFF; PIECE];
        from_b = [0xFF; PIECE];
    }
    lines.to_b[at] = from_a;
    lines.to_a[at] = from_b;
    Some(())
}

/// Whether link 0 is up at both ends, and link 1 if it's to be.
fn are_up(a: &ManagedBench, b: &ManagedBench, both: bool) -> bool {
    word(a, 0) == 6 && word(b, 0) == 6 && (word(a, 1) == 6) == both && (word(b, 1) == 6) == both
}

/// Offers the messages of these numbers, one after another, of stream 3.
fn offer_all(alloc: Global, end: &mut ManagedBench, first: u8, behind: u8) -> Option<()> {
    for number in first..behind {
        let message = [0x85, 0x01, 0x80, 0x00, 0x30, number];
        match offer(alloc, end, 0, &message) {
            Ok(given) if given == u64::from(number) => {}
            _ => return None,
        }
    }
    Some(())
}

/// Level 3 manages both links.
fn activate_both(end: &mut ManagedBench) -> bool {
    activate(end, 0).is_ok() && activate(end, 1).is_ok()
}

fn hear_all(
    end: &mut ManagedBench,
    link: u8,
    octets: &[u8; PIECE],
    put: &mut [u8; PIECE],
) -> Option<()> {
    let mut heard = HeardValues {
        octets: 0,
        messages: 0,
    };
    match hear(end, link, octets, put, &mut heard) {
        Ok(()) if heard.octets == PIECE => Some(()),
        _ => None,
    }
}

/// How the link stands, by its number; 255 where it isn't there.
fn word(end: &ManagedBench, link: u8) -> u8 {
    match look(end, link) {
        Ok(values) => values.word,
        Err(_) => 255,
    }
}

/// Takes one message: its last octet, where it's one of those that were offered.
fn taken(end: &mut ManagedBench) -> Result<u8, CallFault> {
    let mut room = [0; 273];
    let length = take(end, 7, &mut room)?;
    Ok(if length == 6 && room[0] == 0x85 {
        room[5]
    } else {
        255
    })
}

/// Whether all messages are there, in order, and no other.
fn all_in_order(end: &mut ManagedBench) -> bool {
    for number in 0..MESSAGES {
        if taken(end) != Ok(number) {
            return false;
        }
    }
    taken(end)
        == Err(CallFault::Refused {
            why: Refusal::Nothing,
        })
}

/// Both links come up; link 1, on which stream 3 runs, is cut while messages are under way; all come over, in order.
#[test]
fn a_link_is_cut_and_all_come_in_order(rt: HostRuntime) -> Result<(), Fail> {
    let alloc = rt.alloc();
    holds(holds_at(alloc, &NEAR, |a| meets_far(alloc, a)))
}

fn meets_far(alloc: Global, a: &mut ManagedBench) -> bool {
    holds_at(alloc, &FAR, |b| goes_over(alloc, a, b) == Some(true))
}

fn goes_over(alloc: Global, a: &mut ManagedBench, b: &mut ManagedBench) -> Option<bool> {
    let mut lines = Lines {
        to_a: [[0xFF; PIECE]; 2],
        to_b: [[0xFF; PIECE]; 2],
        cut: false,
    };
    let activated = activate_both(a) && activate_both(b);
    run(a, b, &mut lines, 1_000)?;
    let began = activated && are_up(a, b, true) && checkpoint(a).is_ok();
    offer_all(alloc, a, 0, 10)?;
    run(a, b, &mut lines, 2)?;
    lines.cut = true;
    offer_all(alloc, a, 10, MESSAGES)?;
    run(a, b, &mut lines, 1_000)?;
    let ended = are_up(a, b, false);
    let acknowledged = matches!(find(a, 0, 19), Ok(found) if found.place == 2 && found.detail == 0);
    Some(began && ended && acknowledged && all_in_order(b))
}
