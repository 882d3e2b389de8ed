//! Situations at the ends of a window, worked out by hand from Q.703 5.2 and 5.3.
use super::bench::{ack, distance, fill, filled, filled_in, number_of};
use super::holds;
use l2_window::*;
use std::test::Fail;

/// Sends so many messages; they are those from this one on, and have the FSNs of their numbers.
fn sends(window: &mut Window, first: u64, count: u64) -> bool {
    for message in first..first.saturating_add(count) {
        if window.send() != Ok((message, number_of(window.profile(), message))) {
            return false;
        }
    }
    true
}

/// There is nothing to send, and no FSN but the last one is reasonable.
fn is_empty(window: &mut Window) -> bool {
    window.send() == Err(WindowFault::Empty) && ack(window, 5) == Err(WindowFault::Unreasonable)
}

/// Of 128 messages 127 go out, and the last one once all those are acknowledged.
fn goes_round(window: &mut Window) -> bool {
    sends(window, 0, 127)
        && window.send() == Err(WindowFault::Full)
        && distance(window, 127) == Some(0)
        && distance(window, 126) == Some(127)
        && ack(window, 126) == Ok(127)
        && sends(window, 127, 1)
        && window.send() == Err(WindowFault::Empty)
}

/// Of 4,096 messages 4,095 go out, with FSN 0 to 4094, and the last one once all those are acknowledged.
fn goes_round_wide(window: &mut Window) -> bool {
    sends(window, 0, 4_095)
        && window.send() == Err(WindowFault::Full)
        && distance(window, 4_095) == Some(0)
        && distance(window, 4_094) == Some(4_095)
        && ack(window, 4_094) == Ok(4_095)
        && window.send() == Ok((4_095, 4_095))
        && window.send() == Err(WindowFault::Empty)
}

#[test]
fn wide_numbers_go_round_at_4095(rt: HostRuntime) -> Result<(), Fail> {
    let mut window = filled_in(rt.alloc(), Profile::Wide, 0)?;
    let empty = is_empty(&mut window);
    let filled = fill(&mut window, 4_096).is_ok();
    let round = goes_round_wide(&mut window);
    holds(empty && filled && round)
}

/// Each growth that a wide window wants fails once: there is no window then.
///
/// Run with each allocation failing in turn (tools/refuse-memory); with memory it passes as it is.
#[test]
fn a_refused_growth_makes_no_wide_window(rt: HostRuntime) -> Result<(), Fail> {
    match Window::new_wide(rt.alloc()) {
        Ok(window) => holds(is_new_wide(&window)),
        Err(_) => Ok(()),
    }
}

/// The number before the first counts as acknowledged, and there is no message.
fn is_new_wide(window: &Window) -> bool {
    window.profile() == Profile::Wide
        && window.last() == 4_095
        && window.unacked_len() == 0
        && window.unsent_len() == 0
        && !window.has_new()
}

/// Two rings of messages: a wide one has room for 4,095.
#[test]
fn a_new_wide_window_has_the_last_number_before_its_first(rt: HostRuntime) -> Result<(), Fail> {
    let mut window = Window::new_wide(rt.alloc())?;
    let last = window.last() == 4_095 && window.profile() == Profile::Wide;
    let sent = window.push(7).is_ok() && window.send() == Ok((7, 0));
    let (unacked, _unsent) = window.into_rings();
    holds(last && sent && unacked.capacity() == 4_095)
}

#[test]
fn numbers_go_round_at_127(rt: HostRuntime) -> Result<(), Fail> {
    let mut window = filled(rt.alloc(), 0)?;
    let empty = is_empty(&mut window);
    let filled = fill(&mut window, 128).is_ok();
    let round = goes_round(&mut window);
    holds(empty && filled && round)
}

/// Unacknowledged FSNs 126, 127, 0 and 1 after number 125, and one message unsent.
fn lies_across(window: &Window) -> bool {
    window.last() == 125
        && window.unacked_len() == 4
        && window.unsent_len() == 1
        && window.unacked_at(1) == Some(127)
        && window.unacked_at(4).is_none()
        && distance(window, 125) == Some(0)
        && distance(window, 2).is_none()
}

#[test]
fn a_window_lies_across_number_127(rt: HostRuntime) -> Result<(), Fail> {
    let mut window = filled(rt.alloc(), 131)?;
    let sent = sends(&mut window, 0, 126) && ack(&mut window, 125) == Ok(126);
    let across = sends(&mut window, 126, 4) && lies_across(&window);
    let acked = ack(&mut window, 127) == Ok(2) && window.unacked_at(0) == Some(128);
    holds(sent && across && acked)
}

/// Messages 1 and 2 come back, in order, and then none; an empty window that is reset begins anew.
fn gives_back(window: &mut Window) -> bool {
    let given = window.pop() == Some(1) && window.pop() == Some(2) && window.pop().is_none();
    let last = window.last();
    if window.unacked_len() == 0 && window.unsent_len() == 0 {
        window.reset();
    }
    given && last == 0 && window.last() == 127
}

#[test]
fn a_link_that_goes_down_gives_its_messages_back_in_order(rt: HostRuntime) -> Result<(), Fail> {
    let mut window = filled(rt.alloc(), 3)?;
    let sent = sends(&mut window, 0, 2) && ack(&mut window, 0) == Ok(1);
    let back = gives_back(&mut window);
    holds(sent && back)
}

/// First the unacknowledged message is given up, then the unsent one.
fn gives_up(window: &mut Window) -> bool {
    window.clear_unacked();
    let sent = window.unacked_len() == 0 && window.unsent_len() == 1 && window.last() == 0;
    window.clear_unsent();
    sent && window.unsent_len() == 0 && window.last() == 0
}

#[test]
fn the_messages_of_a_link_are_given_up(rt: HostRuntime) -> Result<(), Fail> {
    let mut window = filled(rt.alloc(), 3)?;
    let sent = sends(&mut window, 0, 2) && ack(&mut window, 0) == Ok(1);
    let up = gives_up(&mut window);
    holds(sent && up)
}

#[test]
fn a_window_hands_out_its_rings(rt: HostRuntime) -> Result<(), Fail> {
    let mut window = filled(rt.alloc(), 130)?;
    let sent = sends(&mut window, 0, 127) && ack(&mut window, 1) == Ok(2);
    let (unacked, unsent) = window.into_rings();
    let first = unacked.capacity() == 127 && unacked.len() == 125;
    let second = unacked.front() == Some(&2) && unsent.front() == Some(&127);
    let last = unsent.back() == Some(&129);
    holds(sent && first && second && last)
}

/// Puts in 1,000 messages, and takes one out at each third.
fn goes_through(queue: &mut Queue) -> bool {
    for message in 0..1000u64 {
        if queue.push(message).is_err() {
            return false;
        }
        if message % 3 == 0 && queue.pop() != Some(message / 3) {
            return false;
        }
    }
    queue.len() == 666 && queue.at(0) == Some(334)
}

/// Room for so many messages, and one more at the end.
fn grows(queue: &mut Queue) -> bool {
    if queue.reserve(5000).is_err() {
        return false;
    }
    queue.push_reserved(1000);
    queue.at(666) == Some(1000)
}

#[test]
fn a_queue_grows_and_keeps_its_order(rt: HostRuntime) -> Result<(), Fail> {
    let mut queue = Queue::new(rt.alloc())?;
    let through = goes_through(&mut queue);
    let grown = grows(&mut queue);
    let last = queue.into_ring().back() == Some(&1000);
    holds(through && grown && last)
}

/// The message goes behind so many, with room made for it.
fn insert(queue: &mut Queue, place: usize, message: u64) -> bool {
    if queue.reserve(1).is_err() || place > queue.len() {
        return false;
    }
    queue.insert_reserved(place, message);
    true
}

/// Of 666 messages from 334 on one goes behind two, one goes first, and one last.
fn are_inserted(queue: &mut Queue) -> bool {
    insert(queue, 2, 1000)
        && insert(queue, 0, 1001)
        && insert(queue, 668, 1002)
        && stand(queue, &[(0, 1001), (1, 334), (2, 335), (3, 1000), (4, 336)])
        && stand(queue, &[(667, 999), (668, 1002)])
        && queue.len() == 669
}

/// At these places of the queue stand these messages.
fn stand(queue: &Queue, messages: &[(usize, u64)]) -> bool {
    for (place, message) in messages {
        if queue.at(*place) != Some(*message) {
            return false;
        }
    }
    true
}

#[test]
fn messages_are_inserted(rt: HostRuntime) -> Result<(), Fail> {
    let mut queue = Queue::new(rt.alloc())?;
    let through = goes_through(&mut queue);
    holds(through && are_inserted(&mut queue))
}

/// Of three unsent messages two are passed by another.
fn is_passed(window: &mut Window) -> bool {
    if window.reserve(1).is_err() || window.unsent_len() == 0 {
        return false;
    }
    window.insert_reserved(1, 7);
    window.send() == Ok((0, 0)) && window.send() == Ok((7, 1)) && window.send() == Ok((1, 2))
}

#[test]
fn a_message_passes_unsent_ones(rt: HostRuntime) -> Result<(), Fail> {
    let mut window = filled(rt.alloc(), 3)?;
    holds(is_passed(&mut window))
}

#[test]
fn a_queue_is_cleared(rt: HostRuntime) -> Result<(), Fail> {
    let mut queue = Queue::new(rt.alloc())?;
    let pushed = queue.push(7).is_ok();
    queue.clear();
    let empty = queue.is_empty();
    holds(pushed && empty)
}

#[test]
fn refusals_have_their_numbers(_rt: HostRuntime) -> Result<(), Fail> {
    holds(
        WindowFault::Empty.number() == 1
            && WindowFault::Full.number() == 2
            && WindowFault::Unreasonable.number() == 3
            && ControlFault::Bsn.number() == 2
            && ControlFault::Fib.number() == 3,
    )
}
