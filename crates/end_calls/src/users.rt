//! What users of the set call.
ghost use Rattle.std.specs.Prelude.{◌≡◌, ◌≤◌, ◌<◌, ◌++◌, drop, length, true};
ghost use Rattle.end_calls.specs.Calls.{Finds, Offers, Takes, TellsTaken, answers_find, answers_offer, answers_take, most_users, told_of_find, told_of_offer};
ghost use Rattle.end_calls.specs.Codes.{of_set};
ghost use Rattle.end_calls.specs.declared.fault.CallFault.TheVariants.{NoRoom, NoSuchUser};

use super::codes::{detail_of, place_number};
use super::fault::CallFault;
use set_events::{Actor, Answer, Body, Event, SetFault};
use std::alloc::Global;
use term_managed::ManagedBench;

/// How many users a set has.
const USERS: u16 = 64;

/// The most octets of a message.
const LONGEST: usize = 273;

/// Where a message stands.
#[repr(C)]
#[derive(Clone, Copy, Debug)]
pub struct FoundValues {
    /// 0 waiting, 1 unacknowledged, 2 acknowledged, 3 held, 4 parked, 5 on its way back, 6 discarded.
    pub place: u8,
    /// The link of 0 to 3, the changeback code of 5, the cause of 6: 1 emergency, 2 unreasonable, 3 no answer.
    pub detail: u8,
}

/// A user offers a message, SIO and SIF: its number, under which it was accepted.
///
/// Faults, in this order: 48 [`CallFault::NoSuchUser`], 16 [`CallFault::NoMemory`] only where memory was refused, 17
/// [`CallFault::Exhausted`] where the history is full; the end is then as it was. Refusals 1 to 4 of the set.
pub fn offer(
    alloc: Global,
    end: &mut ManagedBench,
    user: u16,
    message: &[u8],
) -> Result<u64, CallFault>
    ensures offers { Offers user message.now end.old result end.new }
    ensures no_user { most_users ≤ user → result ≡ Err NoSuchUser }
{
    if user >= USERS {
        return Err(CallFault::NoSuchUser);
    }
    let Ok(body) = Body::from_slice(alloc, message) else {
        return Err(CallFault::NoMemory);
    };
    match end.ask(Actor::User(user), &Event::Offer { body }) {
        Ok(answer) => accepted(answer),
        Err(fault) => Err(of_set(fault)),
    }
}

/// What is told of the answer to an offer.
fn accepted(answer: Answer) -> Result<u64, CallFault>
    requires { answers_offer answer ≡ true }
    ensures { result ≡ told_of_offer answer }
{
    match answer {
        Answer::Accepted { number } => Ok(number),
        Answer::Refused { why } => Err(CallFault::Refused { why }),
        _ => unreachable!(),
    }
}

/// A user takes the oldest message that was heard: how many octets it has, which stand at the front of `room`, whose other
/// octets are as they were.
///
/// Faults, in this order: 48 [`CallFault::NoSuchUser`], 50 [`CallFault::NoRoom`] where `room` has fewer than 273 octets, 17
/// [`CallFault::Exhausted`] where the history is full, 16 [`CallFault::NoMemory`] only where memory was refused; the end is then
/// as it was. Refusal 9 of the set: there is no message. `room` is then as it was.
pub fn take(end: &mut ManagedBench, user: u16, room: &mut [u8]) -> Result<usize, CallFault>
    ensures takes { Takes user room.old end.old result room.new end.new }
    ensures no_user { most_users ≤ user → result ≡ Err NoSuchUser }
    ensures no_room { user < most_users → length room.old < 273 → result ≡ Err NoRoom }
{
    if user >= USERS {
        return Err(CallFault::NoSuchUser);
    }
    if room.len() < LONGEST {
        return Err(CallFault::NoRoom);
    }
    match end.ask(Actor::User(user), &Event::Take) {
        Ok(answer) => taken(answer, room),
        Err(fault) => Err(of_set(fault)),
    }
}

/// What is told of the answer to a take, and written.
fn taken(answer: Answer, room: &mut [u8]) -> Result<usize, CallFault>
    requires answers { answers_take answer ≡ true }
    requires room { 273 ≤ length room.old }
    ensures { TellsTaken answer room.old result room.new }
{
    match answer {
        Answer::Taken { body } => Ok(put(body.as_slice(), room)),
        Answer::Refused { why } => Err(CallFault::Refused { why }),
        _ => unreachable!(),
    }
}

/// Puts octets to the front of their room; how many they are.
pub(crate) fn put(octets: &[u8], room: &mut [u8]) -> usize
    requires { length octets.now ≤ length room.old }
    ensures value { result ≡ length octets.now }
    ensures room { room.new ≡ octets.now ++ drop (length octets.now) room.old }
{
    let front = &mut room[..octets.len()];
    front.copy_from_slice(octets);
    octets.len()
}

/// A user asks where the message of this number stands.
///
/// Faults, in this order: 48 [`CallFault::NoSuchUser`], 17 [`CallFault::Exhausted`] where the history is full, 16
/// [`CallFault::NoMemory`] only where memory was refused; the end is then as it was. Refusals 8 and 11 of the set.
pub fn find(end: &mut ManagedBench, user: u16, number: u64) -> Result<FoundValues, CallFault>
    ensures finds { Finds user number end.old result end.new }
    ensures no_user { most_users ≤ user → result ≡ Err NoSuchUser }
{
    if user >= USERS {
        return Err(CallFault::NoSuchUser);
    }
    match end.ask(Actor::User(user), &Event::Find { number }) {
        Ok(answer) => found(answer),
        Err(fault) => Err(of_set(fault)),
    }
}

/// What is told of the answer to a find.
fn found(answer: Answer) -> Result<FoundValues, CallFault>
    requires { answers_find answer ≡ true }
    ensures { result ≡ told_of_find answer }
{
    match answer {
        Answer::Found { fate } => Ok(FoundValues {
            place: place_number(fate),
            detail: detail_of(fate),
        }),
        Answer::Refused { why } => Err(CallFault::Refused { why }),
        _ => unreachable!(),
    }
}

/// What is told of a fault of the set.
fn of_set(fault: SetFault) -> CallFault
    ensures { result ≡ of_set fault }
{
    match fault {
        SetFault::NoMemory => CallFault::NoMemory,
        SetFault::Exhausted => CallFault::Exhausted,
    }
}
