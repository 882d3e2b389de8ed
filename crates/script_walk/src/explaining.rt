//! What is said of a script's line that ends it with a fault.
ghost use Rattle.std.specs.Prelude.{◌≡◌, IfOk, string_bytes};
ghost use Rattle.std.specs.Option.{option_map};
ghost use Rattle.text_forms.specs.Showing.{explanation};
ghost use Rattle.script_walk.specs.Explaining.{said, undone, unread};

use super::account::Account;
use super::fault::ScriptFault;
use super::script::Script;
use l2_units::Profile;
use std::alloc::{AllocError, Global};
use text_forms::{Blame, Unread, blame_impossible, blame_move, blame_opening, explain, read_move};
use text_lines::Explains;

/// What the first line has made: a world of so many links and of this profile.
#[derive(Clone, Copy)]
pub struct Made {
    /// How many links there are.
    pub links: u8,
    /// The profile of both ends.
    pub profile: Profile,
}

impl<A: Account> Explains for Script<A> {
    type Before = Option<Made>;

    ghost use Rattle.script_walk.specs.Explaining.{made_in, said};

    ghost said = { λ world. said (made_in world) };

    ghost said_by = { said };

    fn before(&self) -> Option<Made> {
        let links = self.links()?;
        let profile = self.profile()?;
        Some(Made { links, profile })
    }

    fn explain(
        alloc: Global,
        before: &Option<Made>,
        text: &[u8],
        fault: &ScriptFault,
    ) -> Result<Option<String>, AllocError> {
        explain_fault(alloc, *before, text, *fault)
    }
}

/// The lines that explain a fault on this line.
fn explain_fault(
    alloc: Global,
    made: Option<Made>,
    text: &[u8],
    fault: ScriptFault,
) -> Result<Option<String>, AllocError>
    ensures { IfOk result (λ told. option_map string_bytes told ≡ said made text.now fault) }
{
    match fault {
        ScriptFault::Text { line, .. } => shown(
            alloc,
            line,
            blame_unread(alloc, made, text)?,
            text,
        ),
        ScriptFault::Step { line } => shown(alloc, line, blame_undone(alloc, made, text)?, text),
        ScriptFault::Exhausted => Ok(None),
    }
}

/// The explanation of the word at fault of this line, if there is one.
fn shown(
    alloc: Global,
    line: u64,
    blame: Option<Blame>,
    text: &[u8],
) -> Result<Option<String>, AllocError>
    ensures { IfOk result (λ told. option_map string_bytes told
        ≡ option_map (λ b. explanation line b text.now) blame) }
{
    match blame {
        Some(blame) => Ok(Some(explain(alloc, line, blame, text)?)),
        None => Ok(None),
    }
}

/// The word at fault of a line that can't be read.
fn blame_unread(alloc: Global, made: Option<Made>, text: &[u8]) -> Result<Option<Blame>, AllocError>
    ensures { IfOk result (λ blame. blame ≡ unread made text.now) }
{
    match made {
        Some(made) => blame_move(alloc, made.profile, text),
        None => Ok(blame_opening(text)),
    }
}

/// The word at fault of a line whose move can't be made.
fn blame_undone(alloc: Global, made: Option<Made>, text: &[u8]) -> Result<Option<Blame>, AllocError>
    ensures { IfOk result (λ blame. blame ≡ undone made text.now) }
{
    let Some(made) = made else {
        return Ok(None);
    };
    match read_move(alloc, made.profile, text) {
        Ok(next) => Ok(Some(blame_impossible(made.links, &next, text))),
        Err(Unread::At(_)) => Ok(None),
        Err(Unread::Memory) => Err(AllocError),
    }
}
