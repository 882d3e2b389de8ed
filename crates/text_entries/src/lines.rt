//! What a single line of a history tells.
ghost use Rattle.std.specs.Prelude.{◌≡◌, ◌++◌, ◌∷◌, [], IfOk};
ghost use Rattle.std.specs.Option.{option_map};
ghost use Rattle.set_model.specs.State.{settings_of};
ghost use Rattle.set_core.specs.declared.item.Item.TheVariants.{Checkpoint};
ghost use Rattle.text_entries.specs.Pieces.{item_of};
ghost use Rattle.text_entries.specs.Reading.{if_found};
ghost use Rattle.text_entries.specs.FirstLine.{settings_in};

use super::items::ItemPlace;
use l2_units::Profile;
use set_core::Item;
use set_events::SetConfig;
use std::alloc::{AllocError, Global};
use std::marker::Model;
use text_forms::read_opening;

/// The configuration that the first line tells, without its LF: that of end a of a script with this first line. Its
/// number is 0, as the text doesn't tell it.
pub fn read_config(line: &[u8]) -> Option<SetConfig>
    ensures { option_map settings_of result ≡ settings_in line.now }
{
    let opening = read_opening(line).ok()?;
    Some(opening.a)
}

/// Where the lines of a history are read into, one after another: what stands there is written over. Contracts see the item
/// that was read last.
#[derive(Drop)]
pub struct LinePlace {
    item: ItemPlace,
    /// A line with its LF.
    line: Vec<u8>,
}

impl Model for LinePlace {
    ghost use Rattle.set_core.specs.declared.item.Item.{Item};

    ghost Value = { Item };

    ghost view = { λ p. p.item };
}

impl LinePlace {
    /// A place in which a checkpoint stands.
    pub fn new(alloc: Global) -> LinePlace
        ensures { result ≡ Checkpoint }
    {
        LinePlace {
            item: ItemPlace::new(alloc),
            line: Vec::new(alloc),
        }
    }

    /// Whether this line, but for its LF, is the text of an item of a set of this profile, which then stands here; else
    /// what stands here isn't told. It fails only where memory is wanted.
    pub fn read(&mut self, alloc: Global, profile: Profile, line: &[u8]) -> Result<bool, AllocError>
        ensures { IfOk result (λ found. if_found found self.new ≡ item_of profile (line.now ++ 10 ∷ [])) }
    {
        self.line.clear();
        self.line.extend_from_slice(line)?;
        self.line.push(b'\n')?;
        self.item.read(alloc, profile, &self.line)
    }

    /// What stands here.
    pub fn item(&self) -> &Item
        ensures { result.now ≡ self.now }
    {
        self.item.item()
    }
}
