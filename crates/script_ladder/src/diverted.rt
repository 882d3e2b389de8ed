//! The messages that are diverted where a link settles.
ghost use Rattle.std.specs.Prelude.{◌≡◌, IfOk};
ghost use Rattle.script_ladder.specs.Diverted.{diverted, stood, waits_now};
ghost use Rattle.script_ladder.specs.Ladder.{diverted_rows, diverted_words, numbers_words, rows_of_diverted, target_words};

use super::fitting::fit;
use super::rows::write_further;
use super::units::write_number;
use pair_world::{End, World};
use set_core::SetCore;
use set_events::Fate;
use std::alloc::{AllocError, Global};
use text_units::write_both;

/// The columns of the numbers, before the words that tell where the messages wait.
const NUMBERS: usize = 19;

/// The numbers of all messages that stand on the link, if there is one to be told of.
pub(crate) fn find_stood(
    alloc: Global,
    set: &SetCore,
    link: Option<u8>,
) -> Result<Vec<u64>, AllocError>
    ensures { IfOk result (λ numbers. numbers.items ≡ stood link set.now.state) }
{
    let mut numbers = Vec::new(alloc);
    let Some(link) = link else {
        return Ok(numbers);
    };
    set.push_numbers_on(link, &mut numbers)?;
    Ok(numbers)
}

/// The row of what is diverted from a link that has settled at the end now.
pub(crate) fn write_diverted(
    alloc: Global,
    under_way: &[u8],
    world: &World,
    end: End,
    link: Option<u8>,
    stood: &[u64],
) -> Result<Vec<u8>, AllocError>
    ensures { IfOk result (λ rows. rows.items
        ≡ diverted_rows under_way.now world.now end link stood.now) }
{
    let set = world.core(end);
    match link {
        Some(link) if set.is_settled(link) => write_row(alloc, under_way, end, set, stood),
        _ => Ok(Vec::new(alloc)),
    }
}

/// The row of those of these messages that wait now.
fn write_row(
    alloc: Global,
    under_way: &[u8],
    end: End,
    set: &SetCore,
    stood: &[u64],
) -> Result<Vec<u8>, AllocError>
    ensures { IfOk result (λ rows. rows.items
        ≡ rows_of_diverted under_way.now end set.now.state.rows stood.now) }
{
    let numbers = keep_diverted(alloc, set, stood)?;
    write_further(alloc, end, under_way, &write_words(alloc, set, &numbers)?)
}

/// Those of these messages that wait now.
fn keep_diverted(alloc: Global, set: &SetCore, stood: &[u64]) -> Result<Vec<u64>, AllocError>
    ensures { IfOk result (λ numbers. numbers.items ≡ diverted set.now.state.rows stood.now) }
{
    let mut numbers: Vec<u64> = Vec::new(alloc);
    for number in stood {
        if is_waiting(set.place_of(*number)) {
            numbers.push(*number)?;
        }
    }
    Ok(numbers)
}

/// Whether a message of this fate waits.
fn is_waiting(fate: Option<Fate>) -> bool
    ensures { result ≡ waits_now fate }
{
    matches!(fate, Some(Fate::Waiting { .. } | Fate::Parked))
}

/// The numbers of these messages, and where they wait.
fn write_words(alloc: Global, set: &SetCore, numbers: &[u64]) -> Result<Vec<u8>, AllocError>
    ensures { IfOk result (λ words. words.items ≡ diverted_words set.now.state.rows numbers.now) }
{
    let Some(first) = numbers.first() else {
        return Ok(Vec::new(alloc));
    };
    let target = write_target(alloc, set.place_of(*first))?;
    write_both(
        fit(alloc, &write_numbers(alloc, numbers)?, NUMBERS)?,
        &target,
    )
}

/// These numbers, one behind another.
fn write_numbers(alloc: Global, numbers: &[u64]) -> Result<Vec<u8>, AllocError>
    ensures { IfOk result (λ words. words.items ≡ numbers_words numbers.now) }
{
    let mut words: Vec<u8> = Vec::new(alloc);
    for number in numbers {
        words.extend_from_slice(&write_number(alloc, Some(*number))?)?;
    }
    Ok(words)
}

/// Where a message waits.
fn write_target(alloc: Global, fate: Option<Fate>) -> Result<Vec<u8>, AllocError>
    ensures { IfOk result (λ words. words.items ≡ target_words fate) }
{
    match fate {
        Some(Fate::Waiting { link }) => Ok(format!(in alloc; " to link {link}")?.into_bytes()),
        Some(Fate::Parked) => Vec::from_slice(alloc, b" parked"),
        _ => Ok(Vec::new(alloc)),
    }
}
