//! What the tests of windows and of both methods of error correction share.
ghost use Rattle.std.specs.Prelude.{◌<◌, ◌↔◌, IsTrue};
ghost use Rattle.l2_units.specs.Grammar.{IsHeadOf};
ghost use Rattle.l2_units.specs.Profile.{fsn_count};

use l2_units::{Header, header_in, read};
use l2_window::{Profile, Window, WindowFault};
use std::alloc::{AllocError, Global};

/// A new window with messages 0, 1, .. unsent.
pub(crate) fn filled(alloc: Global, messages: u64) -> Result<Window, AllocError> {
    let mut window = Window::new(alloc)?;
    fill(&mut window, messages)?;
    Ok(window)
}

/// The same in this profile.
pub(crate) fn filled_in(
    alloc: Global,
    profile: Profile,
    messages: u64,
) -> Result<Window, AllocError> {
    let mut window = Window::of(alloc, profile)?;
    fill(&mut window, messages)?;
    Ok(window)
}

/// Whether the window has messages of this number.
pub(crate) fn has_number(window: &Window, number: u16) -> bool
    ensures { IsTrue result ↔ (number < fsn_count window.now.profile) }
{
    number < window.profile().fsn_count()
}

/// The numbers of this header are the window's.
pub(crate) fn has_numbers(window: &Window, head: Header) -> bool
    ensures { IsTrue result ↔ IsHeadOf window.now.profile head }
{
    has_number(window, head.bsn) && has_number(window, head.fsn)
}

/// The messages of the window up to this number are acknowledged.
pub(crate) fn ack(window: &mut Window, number: u16) -> Result<u16, WindowFault> {
    if !has_number(window, number) {
        return Err(WindowFault::Unreasonable);
    }
    window.ack(number)
}

/// The FSN of the message of this number, where all are sent, from 0 on.
pub(crate) fn number_of(profile: Profile, message: u64) -> u16 {
    match profile {
        Profile::Narrow => (message % 128) as u16,
        Profile::Wide => (message % 4_096) as u16,
    }
}

/// How many of the window's messages this number acknowledges.
pub(crate) fn distance(window: &Window, number: u16) -> Option<u16> {
    if !has_number(window, number) {
        return None;
    }
    window.distance(number)
}

/// Gives the window messages 0, 1, .. to send.
pub(crate) fn fill(window: &mut Window, messages: u64) -> Result<(), AllocError> {
    window.reserve(messages as usize)?;
    for message in 0..messages {
        window.push(message)?;
    }
    Ok(())
}

/// The header of a FISU of these two octets.
pub(crate) fn head_of(backward: u8, forward: u8) -> Option<Header> {
    match read(&[backward, forward, 0]) {
        Ok(unit) => Some(header_in(&unit)),
        Err(_) => None,
    }
}

/// The header has these two octets.
pub(crate) fn is_head(it: Header, backward: u8, forward: u8) -> bool {
    head_of(backward, forward) == Some(it)
}
