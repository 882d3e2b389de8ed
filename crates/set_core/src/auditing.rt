//! Whether a list of entries is the history of a set.
ghost use Rattle.std.specs.Prelude.{◌≡◌, ◌<◌, ◌≤◌, ◌↔◌, [], length, Err, IfOk, IfErr, IsTrue};
ghost use Rattle.set_core.specs.Hearing.{HasHeard};
ghost use Rattle.set_model.specs.History.{IsLegal, entries_of, longest_history};
ghost use Rattle.set_model.specs.State.{new_state};

use super::auditor::{Auditor, Finding};
use super::base::Base;
use super::tally::LONGEST_HISTORY;
use set_events::{AnswerRef, Entry, EventRef, SetConfig};
use set_history::Reader;
use set_step::SetFault;
use std::alloc::{Allocator, Global};

/// Whether these entries, in order, are a legal history of a set that is opened with this
/// configuration: each is of an actor in range, and has the answer that such a set gives then. They
/// are heard once, from the first to the one that no set makes.
///
/// Faults: 2 [`SetFault::Exhausted`] exactly where there are more than 2^48, tested first;
/// 1 [`SetFault::NoMemory`] only where memory was refused.
#[tactic(auto, using(crate::proofs::Keeping::opened_entries))]
pub fn audit<A: Allocator + Copy>(
    alloc: A,
    config: &SetConfig,
    entries: &[Entry],
) -> Result<bool, SetFault>
    ensures legal { IfOk result
        (λ is_legal. IsTrue is_legal ↔ IsLegal (new_state config.now) entries.now) }
    ensures exhausted { (result ≡ Err SetFault.Exhausted) ↔ (longest_history < length entries.now) }
{
    if entries.len() as u64 > LONGEST_HISTORY {
        return Err(SetFault::Exhausted);
    }
    let opening = Base::opening(alloc, config)?;
    audit_from(&opening, entries)
}

/// [`audit`] of the entries that a set made since this base.
///
/// Faults: 2 [`SetFault::Exhausted`] exactly where those before the base and these are more than 2^48, tested first;
/// 1 [`SetFault::NoMemory`] only where memory was refused.
pub fn audit_from<A: Allocator + Copy>(base: &Base<A>, entries: &[Entry]) -> Result<bool, SetFault>
    ensures legal { IfOk result
        (λ is_legal. IsTrue is_legal ↔ IsLegal base.now.state entries.now) }
    ensures exhausted { (result ≡ Err SetFault.Exhausted)
        ↔ (longest_history < entries_of base.now entries.now) }
{
    if entries.len() as u64 > base.room() {
        return Err(SetFault::Exhausted);
    }
    let mut auditor = Auditor::since(base)?;
    hear_all(&mut auditor, base, entries)
}

/// Whether an auditor that has heard nothing since this base finds all these entries right. It goes by reference, as each
/// way out of a function lets go of what it owns.
fn hear_all<A: Allocator + Copy>(
    auditor: &mut Auditor<A>,
    base: &Base<A>,
    entries: &[Entry],
) -> Result<bool, SetFault>
    requires begun { HasHeard base.now [] auditor.old }
    requires few { entries_of base.now entries.now ≤ longest_history }
    ensures legal { IfOk result
        (λ is_legal. IsTrue is_legal ↔ IsLegal base.now.state entries.now) }
    ensures fault { IfErr result (λ fault. fault ≡ SetFault.NoMemory) }
{
    for entry in entries {
        let asked = EventRef::of(&entry.event);
        match auditor.hear_entry(entry.who, &asked, &AnswerRef::of(&entry.answer))? {
            Finding::Right => {}
            Finding::WrongAnswer => return Ok(false),
            Finding::NoSuchActor => return Ok(false),
        }
    }
    Ok(true)
}

/// [`audit`] of a history where it's kept: the entries that are left to read.
///
/// Faults: 2 [`SetFault::Exhausted`] exactly where there are more than 2^48, tested first;
/// 1 [`SetFault::NoMemory`] only where memory was refused.
#[tactic(auto, using(crate::proofs::Keeping::opened_entries))]
pub fn audit_history(
    alloc: Global,
    config: &SetConfig,
    entries: Reader<'_>,
) -> Result<bool, SetFault>
    ensures legal { IfOk result
        (λ is_legal. IsTrue is_legal ↔ IsLegal (new_state config.now) entries.entry) }
    ensures exhausted { (result ≡ Err SetFault.Exhausted)
        ↔ (longest_history < length entries.entry) }
{
    if entries.len() as u64 > LONGEST_HISTORY {
        return Err(SetFault::Exhausted);
    }
    let opening = Base::opening(alloc, config)?;
    audit_history_from(&opening, entries)
}

/// [`audit_from`] of a history where it's kept: the entries that are left to read.
///
/// Faults: 2 [`SetFault::Exhausted`] exactly where those before the base and these are more than 2^48, tested first;
/// 1 [`SetFault::NoMemory`] only where memory was refused.
pub fn audit_history_from<A: Allocator + Copy>(
    base: &Base<A>,
    entries: Reader<'_>,
) -> Result<bool, SetFault>
    ensures legal { IfOk result
        (λ is_legal. IsTrue is_legal ↔ IsLegal base.now.state entries.entry) }
    ensures exhausted { (result ≡ Err SetFault.Exhausted)
        ↔ (longest_history < entries_of base.now entries.entry) }
{
    if entries.len() as u64 > base.room() {
        return Err(SetFault::Exhausted);
    }
    let mut auditor = Auditor::since(base)?;
    hear_left(&mut auditor, base, entries)
}

/// [`hear_all`] of the entries that are left to read.
fn hear_left<A: Allocator + Copy>(
    auditor: &mut Auditor<A>,
    base: &Base<A>,
    entries: Reader<'_>,
) -> Result<bool, SetFault>
    requires begun { HasHeard base.now [] auditor.old }
    requires few { entries_of base.now entries ≤ longest_history }
    ensures legal { IfOk result
        (λ is_legal. IsTrue is_legal ↔ IsLegal base.now.state entries.entry) }
    ensures fault { IfErr result (λ fault. fault ≡ SetFault.NoMemory) }
{
    let mut left = entries;
    while let Some(told) = left.next() {
        match auditor.hear_entry(told.who(), &told.asked(), &told.answered())? {
            Finding::Right => {}
            Finding::WrongAnswer => return Ok(false),
            Finding::NoSuchActor => return Ok(false),
        }
    }
    Ok(true)
}
