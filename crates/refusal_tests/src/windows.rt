//! A window of a link: its opening, room for more messages, and one message more.
use super::{MOST_GROWTHS, TRIES, holds};
use l2_window::Window;
use std::alloc::{Allocator, Global};
use std::test::Fail;
use test_refusing::Refusing;

/// How many messages a window is handed.
const MESSAGES: u64 = 40;

/// The window is opened, gets room for ten messages, and then 40 messages one by one.
#[test]
fn a_refused_growth_leaves_a_window(rt: HostRuntime) -> Result<(), Fail> {
    holds(each_growth_is_refused(rt.alloc()))
}

fn each_growth_is_refused(alloc: Global) -> bool {
    for number in 1..=MOST_GROWTHS {
        let refusing = Refusing::new(alloc, number);
        if !is_right(&refusing, alloc) || refusing.blocks() != 0 {
            return false;
        }
        if !refusing.refuses_no_more() {
            // the two rings of the opening, the room for ten, and its growth to 20 and 40
            return number > 4;
        }
    }
    false
}

fn is_right(refusing: &Refusing<Global>, alloc: Global) -> bool {
    match opened(alloc) {
        Some(mut twin) => is_right_beside(refusing, &mut twin),
        None => false,
    }
}

fn is_right_beside(refusing: &Refusing<Global>, twin: &mut Window) -> bool {
    match opened_over(refusing) {
        Some(mut window) => are_alike(&window, twin) && is_filled(&mut window, twin),
        None => false,
    }
}

/// A window that is opened, again where it was refused; nothing is left of one that was.
fn opened_over(refusing: &Refusing<Global>) -> Option<Window<&Refusing<Global>>> {
    for _ in 0..TRIES {
        if let Ok(window) = Window::new(refusing) {
            return Some(window);
        }
        if refusing.blocks() != 0 {
            return None;
        }
    }
    None
}

/// A window that is opened, again where it was refused.
fn opened(alloc: Global) -> Option<Window> {
    for _ in 0..TRIES {
        if let Ok(window) = Window::new(alloc) {
            return Some(window);
        }
    }
    None
}

fn is_filled<A: Allocator + Copy>(window: &mut Window<A>, twin: &mut Window) -> bool {
    if !(has_room(window, twin) && reserves(twin)) {
        return false;
    }
    for message in 0..MESSAGES {
        if !(takes(window, twin, message) && pushes(twin, message) && are_alike(window, twin)) {
            return false;
        }
    }
    true
}

/// There is room; while it's refused, the window is as its twin, to which nothing was done yet.
fn has_room<A: Allocator + Copy>(window: &mut Window<A>, twin: &Window) -> bool {
    for _ in 0..TRIES {
        if window.reserve(10).is_ok() {
            return true;
        }
        if !are_alike(window, twin) {
            return false;
        }
    }
    false
}

/// The message is pushed; while it's refused, the window is as its twin.
fn takes<A: Allocator + Copy>(window: &mut Window<A>, twin: &Window, message: u64) -> bool {
    for _ in 0..TRIES {
        if window.push(message).is_ok() {
            return true;
        }
        if !are_alike(window, twin) {
            return false;
        }
    }
    false
}

fn reserves(twin: &mut Window) -> bool {
    for _ in 0..TRIES {
        if twin.reserve(10).is_ok() {
            return true;
        }
    }
    false
}

fn pushes(twin: &mut Window, message: u64) -> bool {
    for _ in 0..TRIES {
        if twin.push(message).is_ok() {
            return true;
        }
    }
    false
}

/// All readers of both tell the same.
fn are_alike<A: Allocator + Copy>(window: &Window<A>, twin: &Window) -> bool {
    let same = window.last() == twin.last()
        && window.unacked_len() == twin.unacked_len()
        && window.unsent_len() == twin.unsent_len()
        && window.has_new() == twin.has_new();
    same && have_same_messages(window, twin)
}

fn have_same_messages<A: Allocator + Copy>(window: &Window<A>, twin: &Window) -> bool {
    for place in 0..twin.unsent_len() {
        if window.unsent_at(place) != twin.unsent_at(place) || window.unacked_at(place).is_some() {
            return false;
        }
    }
    true
}
