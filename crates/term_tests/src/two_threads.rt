//! Two terminals over a pair of rings, each in a thread of its own.

use super::core_door::{
    CoreDoor, LONG, asked, config_of, far_config_of, holds, is_legal_by, loaded, message_of,
    started_at, ups,
};
use line_ring::{Line, ring_pair};
use link_term::{Door, OpenGate, Terminal};
use set_core::SetCore;
use set_events::{Answer, Event, SetConfig};
use std::alloc::Global;
use std::sync::Wait;
use std::test::Fail;
use std::thread;

/// How many messages each end sends.
const MESSAGES: u16 = 1_000;

/// After so many turns each terminal waits for the other to have taken as many: neither is ahead by more than the places
/// of the rings, whatever the threads' turns at the processors.
const TOGETHER: u64 = 500;

/// How often they wait: twice the octet times that a link needs to come up, and to send all messages.
const MEETINGS: u32 = 80;

/// Each end puts a tick, and goes on once it has the other's.
fn meet<R: Wait, L: Line>(rt: &R, ticks: &mut L) {
    let _ = ticks.put(0);
    for _ in rt.forever() {
        if ticks.take().is_some() {
            return;
        }
        thread::yield_now();
    }
    unreachable!()
}

/// All turns of a terminal: its door, and whether they went well. Where they don't it meets the other all the same.
fn plays<R: Wait, D: Door, L: Line + Drop>(
    rt: &R,
    terminal: Terminal<D, L, OpenGate>,
    ticks: L,
) -> (D, bool) {
    let mut terminal = terminal;
    let mut ticks = ticks;
    let mut well = true;
    for _meeting in 0..MEETINGS {
        well = terminal.run(TOGETHER).is_ok() && well;
        meet(rt, &mut ticks);
    }
    let (door, _line, _gate) = terminal.into_parts();
    (door, well)
}

/// User 0 takes the other end's messages, all of them in the order in which they were offered.
fn takes_all(core: &mut SetCore) -> bool {
    for number in 0..MESSAGES {
        if !takes(core, number) {
            return false;
        }
    }
    true
}

fn takes(core: &mut SetCore, number: u16) -> bool {
    match asked(core, &Event::Take) {
        Some(Answer::Taken { body }) => body.as_slice() == message_of(number).as_slice(),
        _ => false,
    }
}

/// What an end came to: one Up, all messages acknowledged, the other's in its inbox, and a legal history.
fn came_through(alloc: Global, config: Option<SetConfig>, door: &mut CoreDoor) -> bool {
    let Some(config) = config else {
        return false;
    };
    ups(door.core.history()) == 1
        && door.core.counts().acked == u64::from(MESSAGES)
        && takes_all(&mut door.core)
        && is_legal_by(alloc, &config, door)
}

/// A door of a new set of each end, to which all messages were offered.
fn doors(alloc: Global) -> Option<(CoreDoor, CoreDoor)> {
    let near = config_of()?;
    let far = far_config_of()?;
    loaded(alloc, &near, MESSAGES).zip(loaded(alloc, &far, MESSAGES))
}

#[test]
fn two_terminals_exchange_messages_between_threads(rt: HostRuntime) -> Result<(), Fail> {
    let (near_line, far_line) = ring_pair(rt.alloc(), 4_096)?;
    let (near_ticks, far_ticks) = ring_pair(rt.alloc(), 2)?;
    let Some((near, far)) = doors(rt.alloc()) else {
        return Err(Fail::from("not offered"));
    };
    let near = started_at(near, near_line, LONG);
    let far = started_at(far, far_line, LONG);
    let ((mut near, near_well), (mut far, far_well)) = thread::join(
        &rt,
        move || plays(&rt, near, near_ticks),
        move || plays(&rt, far, far_ticks),
    );
    let near_came = came_through(rt.alloc(), config_of(), &mut near);
    let far_came = came_through(rt.alloc(), far_config_of(), &mut far);
    // by the function for all types, since letting go of a set is dear to prove here
    drop(near);
    drop(far);
    holds(near_well && far_well && near_came && far_came)
}
