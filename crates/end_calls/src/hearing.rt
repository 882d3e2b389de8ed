//! Octets that come on a link's line.
ghost use Rattle.std.specs.Prelude.{◌≡◌, ◌≤◌, ◌<◌, IfOk, IfErr, length};
ghost use Rattle.end_calls.specs.Codes.{no_such_link, of_term};
ghost use Rattle.end_calls.specs.Hearing.{HasHeard, HearsAll, HearsSome, IsHeard, brings, keeps, nothing_heard, puts, tells};
ghost use Rattle.end_calls.specs.declared.fault.CallFault.TheVariants.{NoRoom};
ghost use Rattle.l2_bits.specs.LineBits.{bits_of};
ghost use Rattle.link_term.specs.Filling.{Taps};
ghost use Rattle.term_managed.specs.Turns.{HeardTurn, Hears, HearsBroken};

use super::fault::CallFault;
use super::links::{NO_SUCH_LINK, has_link};
use link_term::{LastUnit, TermFault};
use term_bench::Turn;
use term_managed::ManagedBench;

/// What octets did that were heard.
#[repr(C)]
#[derive(Clone, Copy, Debug, PartialEq, Eq)]
pub struct HeardValues {
    /// How many were heard: as many were put.
    pub octets: usize,
    /// In the turns of how many of them messages for users were heard.
    pub messages: usize,
}

/// Octets came on this link's line, the first one first: each has its turn, and the octet that it puts stands at the same
/// place of `put`, whose other octets stay. `heard` tells how many had their turns.
///
/// Refusals, in this order: 10 no such link, 50 [`CallFault::NoRoom`] where `put` has fewer octets than came; nothing is done
/// then. Faults: those of [`ManagedBench::hear_octet`], by whose number the octet behind those that were heard had no turn: 16
/// [`CallFault::NoMemory`], 17 [`CallFault::Exhausted`], 18 [`CallFault::Failed`], 19 [`CallFault::Profile`].
pub fn hear(
    end: &mut ManagedBench,
    link: u8,
    octets: &[u8],
    put: &mut [u8],
    heard: &mut HeardValues,
) -> Result<(), CallFault>
    ensures hears { IsHeard link octets.now put.old end.old result put.new heard.new end.new }
    ensures no_link { length end.old.bench.links ≤ link → result ≡ Err no_such_link }
    ensures no_room { link < length end.old.bench.links → length put.old < length octets.now → result ≡ Err NoRoom }
{
    *heard = HeardValues {
        octets: 0,
        messages: 0,
    };
    if !has_link(end, link) {
        return Err(NO_SUCH_LINK);
    }
    if put.len() < octets.len() {
        return Err(CallFault::NoRoom);
    }
    match hear_each(end, link, octets, put, heard) {
        Ok(()) => Ok(()),
        Err(fault) => Err(of_term(fault)),
    }
}

/// Each of these octets has its turn, up to a fault.
fn hear_each(
    end: &mut ManagedBench,
    link: u8,
    octets: &[u8],
    put: &mut [u8],
    heard: &mut HeardValues,
) -> Result<(), TermFault>
    requires there { link < length end.old.bench.links }
    requires room { length octets.now ≤ length put.old }
    requires none { heard.old ≡ nothing_heard }
    ensures all { IfOk result (λ done. HasHeard (HearsAll link octets.now) put.old end.old put.new heard.new end.new) }
    ensures some { IfErr result (λ fault. HasHeard (HearsSome link octets.now fault) put.old end.old put.new heard.new end.new) }
{
    let mut tap = LastUnit::new();
    for place in 0..octets.len() {
        let passed = hear_one(end, link, octets[place], &mut tap)?;
        put[place] = passed.put;
        heard.octets += 1;
        heard.messages += usize::from(passed.message);
    }
    Ok(())
}

/// What is told of an octet's turn: the octet that it put, and 1 where a message for users was heard, else 0.
#[derive(Clone, Copy)]
pub(crate) struct Passed {
    pub(crate) put: u8,
    pub(crate) message: u8,
}

/// An octet has its turn, and the tap keeps the unit that it sends, if it does. Both calls hear by this, so that what is
/// below is compiled for one tap, and for these two values alone.
pub(crate) fn hear_one(
    end: &mut ManagedBench,
    link: u8,
    octet: u8,
    tap: &mut LastUnit,
) -> Result<Passed, TermFault>
    requires { link < length end.old.bench.links }
    ensures hears { IfOk result (λ passed. (one : HeardTurn) × Hears link (bits_of 8 octet) end.old one.turn one.unit end.new
        × (passed.put ≡ one.turn.turn.put) × (passed.message ≡ brings one.turn.turn) × Taps keeps one.unit tap.old tap.new) }
    ensures few { IfOk result (λ passed. passed.message ≤ 1) }
    ensures breaks { IfErr result (λ fault. HearsBroken link (bits_of 8 octet) fault end.old end.new) }
    ensures links { length end.new.bench.links ≡ length end.old.bench.links }
{
    match end.hear_octet(link, octet, tap) {
        Ok(managed) => Ok(Passed {
            put: managed.turn().put,
            message: brought(managed.turn()),
        }),
        Err(fault) => Err(fault),
    }
}

/// 1 where a message for users was heard in this turn, else 0.
fn brought(turn: &Turn) -> u8
    ensures value { result ≡ brings turn.now }
    ensures few { result ≤ 1 }
{
    u8::from(turn.messages > 0)
}

/// What is told of a fault of a turn.
pub(crate) fn of_term(fault: TermFault) -> CallFault
    ensures { result ≡ of_term fault }
{
    match fault {
        TermFault::NoMemory => CallFault::NoMemory,
        TermFault::Failed => CallFault::Failed,
        TermFault::Exhausted => CallFault::Exhausted,
        TermFault::Profile => CallFault::Profile,
    }
}
