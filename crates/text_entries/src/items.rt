//! The items of a history in pieces, and their text.
ghost use Rattle.std.specs.Prelude.{◌≡◌, IfOk};
ghost use Rattle.set_core.specs.Items.{piece};
ghost use Rattle.set_core.specs.declared.item.Item.TheVariants.{Checkpoint};
ghost use Rattle.text_entries.specs.Reading.{if_found};
ghost use Rattle.text_entries.specs.Pieces.{ItemsReadBack, PiecesAreTheWhole, item_of, items_text};

use super::reading::{BLANK, read_entry_into};
use super::writing::write_entries;
use l2_units::{Profile, one_text};
use set_core::Item;
use set_history::Reader;
use std::alloc::{AllocError, Global};
use std::marker::Model;
use text_base::is_word;

/// The item of a history of this profile whose text this line is, with its LF; `None`: none has it. It fails only where
/// memory is wanted.
pub fn read_item(alloc: Global, profile: Profile, line: &[u8]) -> Result<Option<Item>, AllocError>
    ensures { IfOk result (λ found. found ≡ item_of profile line.now) }
{
    let mut place = ItemPlace::new(alloc);
    if place.read(alloc, profile, line)? {
        Ok(Some(place.into_item()))
    } else {
        Ok(None)
    }
}

/// Where items are read into, line by line: an item has room for two units, so that it's better filled in its place than
/// handed on. Contracts see the item that stands there.
#[derive(Drop)]
pub struct ItemPlace {
    item: Item,
    /// Room for the text of an item.
    text: Vec<u8>,
}

impl Model for ItemPlace {
    ghost use Rattle.set_core.specs.declared.item.Item.{Item};

    ghost Value = { Item };

    ghost view = { λ p. p.item };
}

impl ItemPlace {
    /// A place in which a checkpoint stands.
    pub fn new(alloc: Global) -> ItemPlace
        ensures { result ≡ Checkpoint }
    {
        ItemPlace {
            item: Item::Checkpoint,
            text: Vec::new(alloc),
        }
    }

    /// Whether this line, with its LF, is the text of an item of a history of this profile, which then stands here; else
    /// what stands here isn't told. It fails only where memory is wanted.
    pub fn read(&mut self, alloc: Global, profile: Profile, line: &[u8]) -> Result<bool, AllocError>
        ensures { IfOk result (λ found. if_found found self.new ≡ item_of profile line.now) }
    {
        if is_word(line, b"checkpoint\n") {
            self.item = Item::Checkpoint;
            return Ok(true);
        }
        if let Item::Checkpoint = self.item {
            self.item = Item::Entered(BLANK);
        }
        match &mut self.item {
            Item::Entered(entry) => { read_entry_into(alloc, profile, line, &mut self.text, entry) }
            Item::Checkpoint => unreachable!(),
        }
    }

    /// What stands here.
    pub fn item(&self) -> &Item
        ensures { result.now ≡ self.now }
    {
        &self.item
    }

    /// What stood here.
    fn into_item(self) -> Item
        ensures { result ≡ self }
    {
        self.item
    }
}

/// The text of a piece of a history of this profile: these entries, and the checkpoint behind them. It fails only where
/// memory is wanted.
pub fn write_piece(
    alloc: Global,
    profile: Profile,
    entries: Reader<'_>,
) -> Result<Vec<u8>, AllocError>
    ensures { IfOk result (λ text. text.items ≡ items_text profile (piece entries.entry)) }
{
    let mut text = write_entries(alloc, profile, entries)?;
    text.extend_from_slice(b"checkpoint\n")?;
    Ok(text)
}

/// A law over the definitions alone: an item's text is read back as that item.
pub fn items_read_back()
    ensures { ItemsReadBack }
{
    one_text();
}

/// A law over the definitions alone: pieces one behind another are the text of the whole history.
pub fn pieces_are_the_whole()
    ensures { PiecesAreTheWhole }
{}
