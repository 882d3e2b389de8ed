//! One end of a set of signalling links for programs in C: a static library, which `include/mtpbank.h` declares.
//!
//! Each function is a call of [`end_calls`] at an end that C holds ([`End`](held::End)), with its contract, and answers 0 where
//! the call was done, else the number of its fault. What stays with the caller: that an end was opened and not closed, that
//! each pointer is to what its type says, that none is null and no two overlap, and that one thread at a time calls an end.
#![tactic(auto)]

ghost use Rattle.std.specs.Prelude.{◌≡◌, ◌≢◌, ℕ, pos, Some, None, Result, IfErr, IfOk};
ghost use Rattle.end_calls.specs.Calls.{Finds, Offers, Takes};
ghost use Rattle.end_calls.specs.Codes.{fault_number};
ghost use Rattle.end_calls.specs.Hearing.{IsHeard};
ghost use Rattle.end_calls.specs.Looking.{Activated, Commanded, Deactivated, IsCheckpoint, IsLook};
ghost use Rattle.end_calls.specs.Opening.{Opens, first_refusal};
ghost use Rattle.end_calls.specs.Telling.{TellsHistory};
ghost use Rattle.end_calls.specs.Turning.{IsTurned};
ghost use Rattle.end_calls.specs.declared.fault.CallFault.{CallFault as Fault};
ghost use Rattle.end_calls.specs.declared.fault.CallFault.TheVariants.{NoMemory};
ghost use Rattle.end_calls.specs.declared.links.LookValues.{LookValues as Looked};
ghost use Rattle.end_calls.specs.declared.users.FoundValues.{FoundValues as Found};
ghost use Rattle.mtpbank_end.specs.Codes.{code_of, or_as_it_was};

mod held;
mod parts;

use end_calls::{
    CallFault, FoundValues, HeardValues, LookValues, SetValues, TimeValues, TimerValues,
    ToldValues, TurnedValues, activate, checkpoint, command, deactivate, find, hear, history, look,
    offer, open, take, turn,
};
use held::End;
use std::alloc::Global;
use term_managed::ManagedBench;

/// Opens an end: 0, and its address stands at `out`; else that is as it was ([`open`]).
#[unsafe(no_mangle)]
pub extern "C" fn mtpbank_open(
    alloc: Global,
    set: &SetValues,
    timers: &TimerValues,
    times: &TimeValues,
    out: &mut *mut u8,
) -> i32
    ensures refused { (fault : Fault) → first_refusal set.now timers.now times.now ≡ Some fault
        → result ≡ pos (fault_number fault) }
    ensures memory { first_refusal set.now timers.now times.now ≡ None → result ≢ pos 0 → result ≡ pos 16 }
    ensures kept { result ≢ pos 0 → out.new ≡ out.old }
{
    match opened(alloc, set, timers, times) {
        Ok(held) => {
            *out = Box::into_raw(held) as *mut u8;
            0
        }
        Err(fault) => code_of(Err(fault)),
    }
}

/// A new end in a box.
fn opened(
    alloc: Global,
    set: &SetValues,
    timers: &TimerValues,
    times: &TimeValues,
) -> Result<Box<ManagedBench>, CallFault>
    ensures opened { IfOk result (λ held. Opens set.now timers.now times.now held.value) }
    ensures refused { (fault : Fault) → first_refusal set.now timers.now times.now ≡ Some fault → result ≡ Err fault }
    ensures memory { first_refusal set.now timers.now times.now ≡ None → IfErr result (λ fault. fault ≡ NoMemory) }
{
    let bench = match open(alloc, set, timers, times) {
        Ok(bench) => bench,
        Err(fault) => return Err(fault),
    };
    match Box::new(alloc, bench) {
        Ok(held) => Ok(held),
        Err(_) => Err(CallFault::NoMemory),
    }
}

/// Closes an end, whose memory is free then.
#[unsafe(no_mangle)]
pub extern "C" fn mtpbank_close(end: End) {
    drop(end.into_box());
}

/// A command to the terminal of a link ([`command`]).
#[unsafe(no_mangle)]
pub extern "C" fn mtpbank_command(end: &mut End, link: u8, number: u8) -> i32
    ensures { (told : Result (Unit {0}) Fault) × Commanded link number end.old.bench told end.new.bench
        × (result ≡ code_of told) }
{
    code_of(command(end.bench(), link, number))
}

/// Level 3 manages a link from now on ([`activate`]).
#[unsafe(no_mangle)]
pub extern "C" fn mtpbank_activate(end: &mut End, link: u8) -> i32
    ensures { (told : Result (Unit {0}) Fault) × Activated link end.old.bench told end.new.bench
        × (result ≡ code_of told) }
{
    code_of(activate(end.bench(), link))
}

/// Level 3 manages a link no more ([`deactivate`]).
#[unsafe(no_mangle)]
pub extern "C" fn mtpbank_deactivate(end: &mut End, link: u8) -> i32
    ensures { (told : Result (Unit {0}) Fault) × Deactivated link end.old.bench told end.new.bench
        × (result ≡ code_of told) }
{
    code_of(deactivate(end.bench(), link))
}

/// Octets came on a link's line ([`hear`]).
#[unsafe(no_mangle)]
pub extern "C" fn mtpbank_hear(
    end: &mut End,
    link: u8,
    octets: &[u8],
    put: &mut [u8],
    heard: &mut HeardValues,
) -> i32
    ensures { (told : Result (Unit {0}) Fault)
        × IsHeard link octets.now put.old end.old.bench told put.new heard.new end.new.bench × (result ≡ code_of told) }
{
    code_of(hear(end.bench(), link, octets, put, heard))
}

/// An octet came on a link's line, and the unit that its turn sends is told ([`turn`]).
#[unsafe(no_mangle)]
pub extern "C" fn mtpbank_turn(
    end: &mut End,
    link: u8,
    octet: u8,
    unit: &mut [u8],
    turned: &mut TurnedValues,
) -> i32
    ensures { (told : Result (Unit {0}) Fault)
        × IsTurned link octet unit.old turned.old end.old.bench told unit.new turned.new end.new.bench × (result ≡ code_of told) }
{
    code_of(turn(end.bench(), link, octet, unit, turned))
}

/// How a link stands ([`look`]).
#[unsafe(no_mangle)]
pub extern "C" fn mtpbank_look(end: &mut End, link: u8, values: &mut LookValues) -> i32
    ensures same { end.new.bench ≡ end.old.bench }
    ensures looks { (told : Result Looked Fault) × IsLook link end.old.bench told × (result ≡ code_of told)
        × (values.new ≡ or_as_it_was told values.old) }
{
    match look(end.bench(), link) {
        Ok(looked) => {
            *values = looked;
            0
        }
        Err(fault) => code_of(Err(fault)),
    }
}

/// A user offers a message, SIO and SIF ([`offer`]).
#[unsafe(no_mangle)]
pub extern "C" fn mtpbank_offer(
    alloc: Global,
    end: &mut End,
    user: u16,
    message: &[u8],
    number: &mut u64,
) -> i32
    ensures { (told : Result ℕ Fault) × Offers user message.now end.old.bench told end.new.bench
        × (result ≡ code_of told) × (number.new ≡ or_as_it_was told number.old) }
{
    match offer(alloc, end.bench(), user, message) {
        Ok(given) => {
            *number = given;
            0
        }
        Err(fault) => code_of(Err(fault)),
    }
}

/// A user takes the oldest message that was heard ([`take`]).
#[unsafe(no_mangle)]
pub extern "C" fn mtpbank_take(end: &mut End, user: u16, room: &mut [u8], length: &mut usize) -> i32
    ensures { (told : Result ℕ Fault) × Takes user room.old end.old.bench told room.new end.new.bench
        × (result ≡ code_of told) × (length.new ≡ or_as_it_was told length.old) }
{
    match take(end.bench(), user, room) {
        Ok(taken) => {
            *length = taken;
            0
        }
        Err(fault) => code_of(Err(fault)),
    }
}

/// A user asks where a message stands ([`find`]).
#[unsafe(no_mangle)]
pub extern "C" fn mtpbank_find(
    end: &mut End,
    user: u16,
    number: u64,
    values: &mut FoundValues,
) -> i32
    ensures { (told : Result Found Fault) × Finds user number end.old.bench told end.new.bench
        × (result ≡ code_of told) × (values.new ≡ or_as_it_was told values.old) }
{
    match find(end.bench(), user, number) {
        Ok(found) => {
            *values = found;
            0
        }
        Err(fault) => code_of(Err(fault)),
    }
}

/// The text of the history from a line on ([`history`]).
#[unsafe(no_mangle)]
pub extern "C" fn mtpbank_history(
    alloc: Global,
    end: &mut End,
    from: usize,
    put: &mut [u8],
    told: &mut ToldValues,
) -> i32
    ensures same { end.new.bench ≡ end.old.bench }
    ensures tells { (ended : Result (Unit {0}) Fault)
        × TellsHistory from end.old.bench put.old told.old ended put.new told.new × (result ≡ code_of ended) }
{
    code_of(history(alloc, end.bench(), from, put, told))
}

/// The history begins anew ([`checkpoint`]).
#[unsafe(no_mangle)]
pub extern "C" fn mtpbank_checkpoint(end: &mut End) -> i32
    ensures { (told : Result (Unit {0}) Fault) × IsCheckpoint end.old.bench told end.new.bench × (result ≡ code_of told) }
{
    code_of(checkpoint(end.bench()))
}

/// 0 where it was done, else the number of its fault.
fn code_of(told: Result<(), CallFault>) -> i32
    ensures { result ≡ code_of told }
{
    match told {
        Ok(()) => 0,
        Err(fault) => i32::from(fault.number()),
    }
}
