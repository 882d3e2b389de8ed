//! What is under way between the ends.
ghost use Rattle.std.specs.Prelude.{◌≡◌, IfOk, take};
ghost use Rattle.l2_units.specs.Lent.{unit_in};
ghost use Rattle.script_ladder.specs.Ladder.{marks, marks_below, marks_on, mark, under_way};

use super::fitting::{cut_end, fit};
use super::rows::UNDER_WAY;
use l2_units::UnitRef;
use pair_world::{End, Line, World};
use std::alloc::{AllocError, Global};

/// The most units of a line that are told: four fill the place.
const MOST: u64 = 5;

/// What is under way on all links, in both ways.
#[tactic(auto, unfolding(crate::specs::Ladder::under_way))]
pub(crate) fn write_under_way(alloc: Global, world: &World) -> Result<Vec<u8>, AllocError>
    ensures { IfOk result (λ text. text.items ≡ under_way world.now) }
{
    let mut marks = write_all(alloc, world)?;
    cut_end(&mut marks);
    fit(alloc, &marks, UNDER_WAY)
}

/// What is under way on all links.
fn write_all(alloc: Global, world: &World) -> Result<Vec<u8>, AllocError>
    ensures { IfOk result (λ text. text.items ≡ marks_below world.now 16) }
{
    let mut text: Vec<u8> = Vec::new(alloc);
    for link in 0..16u8 {
        text.extend_from_slice(&write_link(alloc, world, link)?)?;
    }
    Ok(text)
}

/// What is under way on a link, in both ways.
fn write_link(alloc: Global, world: &World, link: u8) -> Result<Vec<u8>, AllocError>
    ensures { IfOk result (λ text. text.items ≡ marks_on world.now link) }
{
    let mut text = write_marks(alloc, link, ">", world.line(End::B, link))?;
    text.extend_from_slice(&write_marks(alloc, link, "<", world.line(End::A, link))?)?;
    Ok(text)
}

/// Each of the first units of a line with its link and its way.
#[tactic(auto, using(crate::proofs::UnderWay::marks_next))]
fn write_marks(alloc: Global, link: u8, way: &str, line: &Line) -> Result<Vec<u8>, AllocError>
    ensures { IfOk result (λ text. text.items ≡ marks link way.now (take 5 line.now)) }
{
    let mut text: Vec<u8> = Vec::new(alloc);
    for place in 0..MOST {
        let Some(unit) = line.unit_ref(place) else {
            continue;
        };
        text.extend_from_slice(&write_mark(alloc, link, way, &unit)?)?;
    }
    Ok(text)
}

/// A unit with its link and its way.
fn write_mark(alloc: Global, link: u8, way: &str, unit: &UnitRef<'_>) -> Result<Vec<u8>, AllocError>
    ensures { IfOk result (λ text. text.items ≡ mark link way.now (unit_in unit.now)) }
{
    match unit {
        UnitRef::Fisu { .. } => Ok(format!(in alloc; "{link}{way}f ")?.into_bytes()),
        UnitRef::Lssu { .. } => Ok(format!(in alloc; "{link}{way}s ")?.into_bytes()),
        UnitRef::Msu { head, .. } => {
            let fsn = head.fsn;
            Ok(format!(in alloc; "{link}{way}{fsn} ")?.into_bytes())
        }
    }
}
