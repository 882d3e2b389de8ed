//! What is told to links, and how they stand.
ghost use Rattle.std.specs.Prelude.{◌≡◌, ◌≤◌, ◌<◌, None, true, false, length, slice_get};
ghost use Rattle.end_calls.specs.Codes.{command_of, no_such_link, of_manage};
ghost use Rattle.end_calls.specs.Looking.{Activated, Commanded, Deactivated, IsCheckpoint, IsLook, already_so, looked};
ghost use Rattle.end_calls.specs.declared.fault.CallFault.TheVariants.{NoSuchCommand};
ghost use Rattle.term_managed.specs.Ends.{is_on};

use super::codes::{cause_code, command_of, phase_number, word_number};
use super::fault::CallFault;
use l2_units::Cause;
use set_events::{Refusal, SetFault};
use term_bench::{LinkWord, Phase, TurnCounts};
use term_managed::{ManageFault, ManagedBench};

/// How a link stands.
#[repr(C)]
#[derive(Clone, Copy, Debug)]
pub struct LookValues {
    /// Turns of its terminal that went, which are octet times.
    pub turns: u64,
    /// Units that were appended to what is sent.
    pub sent: u64,
    /// Good signal units that were heard.
    pub good: u64,
    /// Damaged ones.
    pub bad: u64,
    /// Sixteen octets each, in octet counting.
    pub sixteen: u64,
    /// 0 out of service, 1 unaligned, 2 aligned, 3 proving, 4 ready, 5 waiting, 6 up, 7 paused, 8 outage.
    pub word: u8,
    /// At its set: 0 settled, 1 up, 2 left.
    pub phase: u8,
    /// Why it failed last, 1 to 9; 0: it didn't.
    pub cause: u8,
    /// 1 where level 3 manages it, else 0.
    pub activated: u8,
}

/// A command to the terminal of this link, which is obeyed in its next turn: 0 start, 1 stop, 2 emergency, 3 calm, 4 busy, 5
/// ease, 6 blind, 7 outage, 8 recover.
///
/// Refusals, in this order: 10 no such link, 49 [`CallFault::NoSuchCommand`], 7 to start a link that was left and isn't
/// settled. Nothing is done then.
pub fn command(end: &mut ManagedBench, link: u8, number: u8) -> Result<(), CallFault>
    ensures commands { Commanded link number end.old result end.new }
    ensures no_link { length end.old.bench.links ≤ link → result ≡ Err no_such_link }
    ensures no_command { link < length end.old.bench.links → command_of number ≡ None → result ≡ Err NoSuchCommand }
{
    if !has_link(end, link) {
        return Err(NO_SUCH_LINK);
    }
    let Some(command) = command_of(number) else {
        return Err(CallFault::NoSuchCommand);
    };
    match end.command(link, command) {
        Ok(()) => Ok(()),
        Err(why) => Err(CallFault::Refused { why }),
    }
}

/// Level 3 manages this link from now on (Q.704 12.2).
///
/// Refusals, in this order: 10 no such link, 9 it does so already; nothing is done then. Faults: 16
/// [`CallFault::NoMemory`], 17 [`CallFault::Exhausted`] only where the history is full; what was asked before was done.
pub fn activate(end: &mut ManagedBench, link: u8) -> Result<(), CallFault>
    ensures activates { Activated link end.old result end.new }
    ensures no_link { length end.old.bench.links ≤ link → result ≡ Err no_such_link }
    ensures already { link < length end.old.bench.links → is_on (slice_get end.old.kept link) ≡ true
        → result ≡ Err already_so }
{
    if !has_link(end, link) {
        return Err(NO_SUCH_LINK);
    }
    let deeds = match end.activate(link) {
        Ok(deeds) => deeds,
        Err(fault) => return Err(of_manage(fault)),
    };
    drop(deeds);
    Ok(())
}

/// Level 3 manages this link no more, and its terminal is told to stop. Refusals and faults: those of [`activate`].
pub fn deactivate(end: &mut ManagedBench, link: u8) -> Result<(), CallFault>
    ensures deactivates { Deactivated link end.old result end.new }
    ensures no_link { length end.old.bench.links ≤ link → result ≡ Err no_such_link }
    ensures already { link < length end.old.bench.links → is_on (slice_get end.old.kept link) ≡ false
        → result ≡ Err already_so }
{
    if !has_link(end, link) {
        return Err(NO_SUCH_LINK);
    }
    let deeds = match end.deactivate(link) {
        Ok(deeds) => deeds,
        Err(fault) => return Err(of_manage(fault)),
    };
    drop(deeds);
    Ok(())
}

/// How this link stands. Refusal: 10 no such link.
pub fn look(end: &ManagedBench, link: u8) -> Result<LookValues, CallFault>
    ensures looks { IsLook link end.now result }
    ensures no_link { length end.now.bench.links ≤ link → result ≡ Err no_such_link }
{
    if !has_link(end, link) {
        return Err(NO_SUCH_LINK);
    }
    let bench = end.bench();
    Ok(looked(
        bench.counts(link),
        bench.word(link),
        bench.phase(link),
        bench.cause(link),
        end.is_activated(link),
    ))
}

/// A link with these counts that stands so.
fn looked(
    counts: TurnCounts,
    word: LinkWord,
    phase: Phase,
    cause: Option<Cause>,
    on: bool,
) -> LookValues
    ensures { result ≡ looked counts word phase cause on }
{
    LookValues {
        turns: counts.turns,
        sent: counts.sent,
        good: counts.good,
        bad: counts.bad,
        sixteen: counts.sixteen,
        word: word_number(word),
        phase: phase_number(phase),
        cause: cause_code(cause),
        activated: if on { 1 } else { 0 },
    }
}

/// A checkpoint: what the set holds becomes its base, and its history begins anew.
///
/// Fault: 16 [`CallFault::NoMemory`], only where memory was refused; the end is then as it was.
pub fn checkpoint(end: &mut ManagedBench) -> Result<(), CallFault>
    ensures { IsCheckpoint end.old result end.new }
{
    match end.checkpoint() {
        Ok(()) => Ok(()),
        Err(_) => Err(CallFault::NoMemory),
    }
}

/// What is told where there is no such link.
pub(crate) const NO_SUCH_LINK: CallFault = CallFault::Refused {
    why: Refusal::NoSuchLink,
};

/// Whether there is a link of this number.
pub(crate) fn has_link(end: &ManagedBench, link: u8) -> bool
    ensures there { result ≡ true → link < length end.now.bench.links }
    ensures none { result ≡ false → length end.now.bench.links ≤ link }
{
    link < end.bench().links()
}

/// What is told where level 3 wasn't told so.
fn of_manage(fault: ManageFault) -> CallFault
    ensures { result ≡ of_manage fault }
{
    match fault {
        ManageFault::AlreadySo => CallFault::Refused {
            why: Refusal::Nothing,
        },
        ManageFault::Set {
            fault: SetFault::NoMemory,
        } => CallFault::NoMemory,
        ManageFault::Set {
            fault: SetFault::Exhausted,
        } => CallFault::Exhausted,
    }
}
