//! What is told of a script.
ghost use Rattle.std.specs.Prelude.{◌≡◌, ◌++◌, MatchResult};
ghost use Rattle.pair_model.specs.World.{World as ModelWorld};
ghost use Rattle.pair_rises.specs.declared.moves.Move.{Move};
ghost use Rattle.script_walk.specs.Scripts.{Told};

use pair_steps::Showing;
use pair_world::{Move, World};
use std::alloc::{AllocError, Global};

/// What is told of a script. What is told is appended whole, or nothing is where memory is wanted.
pub trait Account {
    /// What is kept of a world before a move, for what is told of it then.
    type Note: Drop;

    /// What it tells.
    ghost told: { Told };

    /// Which note is that of a world before a move.
    ghost is_note: { ModelWorld → Move → Self.Note → Type 0 };

    /// Keeps what is needed of the world before a move. Whether memory is wanted for that, the note tells when the move is
    /// told.
    fn note(alloc: Global, world: &World, next: &Move) -> Self::Note
        ensures { is_note world.now next.now result };

    /// Tells of the world that the first line makes.
    fn tell_opening(alloc: Global, world: &World, out: &mut Vec<u8>) -> Result<(), AllocError>
        ensures { MatchResult result
            (λ done. out.new.items ≡ out.old.items ++ told.opening world.now)
            (λ want. out.new.items ≡ out.old.items) };

    /// Tells of the move on the line of this number: with the note of the world before it, what it showed (a fill, that
    /// the unit was sent), and the world that it left.
    fn tell_step(
        alloc: Global,
        number: u64,
        note: Self::Note,
        next: &Move,
        shown: &Showing,
        world: &World,
        out: &mut Vec<u8>,
    ) -> Result<(), AllocError>
        ensures { (before : ModelWorld) → is_note before next.now note → MatchResult result
            (λ done. out.new.items
            ≡ out.old.items ++ told.step number before next.now shown.now world.now)
            (λ want. out.new.items ≡ out.old.items) };

    /// Tells of the world behind the last line, if a line has made one.
    fn tell_end(alloc: Global, world: &Option<World>, out: &mut Vec<u8>) -> Result<(), AllocError>
        ensures { MatchResult result
            (λ done. out.new.items ≡ out.old.items ++ told.at_the_end world.now)
            (λ want. out.new.items ≡ out.old.items) };
}
