//! The account of a script in answers.
ghost use Rattle.std.specs.Prelude.{◌≡◌, IfOk};
ghost use Rattle.script_accounts.specs.PlayText.{ends_text};

use super::wordings::NamesWording;
use pair_steps::Showing;
use pair_world::{End, Move, World};
use script_walk::{Account, world_profile};
use std::alloc::{AllocError, Global};
use std::marker::PhantomData;
use text_entries::write_end;

/// The answers of a script's lines in the wording that the type names, and how both ends stand at last.
pub(crate) struct Answers<N> {
    wording: PhantomData<N>,
}

impl<N: NamesWording> Account for Answers<N> {
    type Note = ();

    ghost use Rattle.script_accounts.specs.PlayText.{answers_told};

    ghost told = { answers_told N.worded };

    ghost is_note = { λ world move note. Unit {0} };

    fn note(_alloc: Global, _world: &World, _next: &Move) {}

    fn tell_opening(_alloc: Global, _world: &World, _out: &mut Vec<u8>) -> Result<(), AllocError> {
        Ok(())
    }

    fn tell_step(
        alloc: Global,
        _number: u64,
        _note: (),
        _next: &Move,
        shown: &Showing,
        world: &World,
        out: &mut Vec<u8>,
    ) -> Result<(), AllocError> {
        N::push(alloc, world_profile(world), shown, out)
    }

    fn tell_end(alloc: Global, world: &Option<World>, out: &mut Vec<u8>) -> Result<(), AllocError> {
        let Some(world) = world else {
            return Ok(());
        };
        out.extend_from_slice(&write_ends(alloc, world)?)
    }
}

/// How the messages of both ends stand, a first.
fn write_ends(alloc: Global, world: &World) -> Result<Vec<u8>, AllocError>
    ensures { IfOk result (λ text. text.items ≡ ends_text world.now) }
{
    let mut text = write_end(alloc, End::A, world.counts(End::A))?;
    text.extend_from_slice(&write_end(alloc, End::B, world.counts(End::B))?)?;
    Ok(text)
}
