//! Where the streams of the set run, told where that changes.
ghost use Rattle.std.specs.Prelude.{◌≡◌, ◌++◌, OnOk};
ghost use Rattle.terminal_text.specs.Moving.{is_place, move_line, move_of, place_number, place_words};

use set_core::SetCore;
use set_route::Place;
use std::alloc::{AllocError, Global};
use std::marker::Model;
use text_base::push_number;

/// How many streams a set has.
const STREAMS: u8 = 16;

/// Where each stream ran when that was told last, by numbers.
#[derive(Drop)]
pub(crate) struct Places {
    numbers: Vec<u16>,
}

impl Model for Places {
    ghost use Rattle.std.specs.Prelude.{List, ℕ};

    ghost Value = { List ℕ };

    ghost view = { λ p. p.numbers.items };
}

impl Places {
    ghost use Rattle.std.specs.Prelude.{◌≡◌, IfOk, slice_get};
    ghost use Rattle.terminal_text.specs.Moving.{moves, places};

    /// Where the streams of this set run.
    pub(crate) fn of(alloc: Global, set: &SetCore) -> Result<Places, AllocError>
        ensures { IfOk result (λ found. found ≡ places set.now.state) }
    {
        let mut numbers = Vec::new(alloc);
        for stream in 0..STREAMS {
            numbers.push(place_number(set.stream_place(stream)))?;
        }
        Ok(Places { numbers })
    }

    /// The lines of those that run elsewhere at this set, behind the turn of this number.
    pub(crate) fn write_moves(
        &self,
        alloc: Global,
        set: &SetCore,
        turn: u64,
    ) -> Result<Vec<u8>, AllocError>
        ensures { IfOk result (λ text. text.items ≡ moves turn self.now set.now.state) }
    {
        let mut text = Vec::new(alloc);
        for stream in 0..STREAMS {
            let place = set.stream_place(stream);
            push_move(&mut text, turn, self.at(stream), stream, place)?;
        }
        Ok(text)
    }

    /// The number of where this stream ran.
    fn at(&self, stream: u8) -> Option<u16>
        ensures { result ≡ slice_get self.now stream }
    {
        match self.numbers.get(usize::from(stream)) {
            Some(number) => Some(*number),
            None => None,
        }
    }
}

/// The number of a place: another one for each that is told otherwise.
fn place_number(place: Place) -> u16
    ensures { result ≡ place_number place }
{
    match place {
        Place::On { link } => u16::from(link),
        Place::Changing { to, .. } => 256 + u16::from(to),
        Place::Nowhere => 512,
    }
}

/// Whether a stream runs at the place of this number.
fn is_place(was: Option<u16>, place: Place) -> bool
    ensures { result ≡ is_place was place }
{
    match was {
        Some(was) => was == place_number(place),
        None => false,
    }
}

/// Adds where a stream runs, unless it ran there.
fn push_move(
    out: &mut Vec<u8>,
    turn: u64,
    was: Option<u16>,
    stream: u8,
    place: Place,
) -> Result<(), AllocError>
    ensures { OnOk result (out.new.items ≡ out.old.items ++ move_of turn was stream place) }
{
    if is_place(was, place) {
        return Ok(());
    }
    push_line(out, turn, stream, place)
}

/// Adds where a stream runs.
fn push_line(out: &mut Vec<u8>, turn: u64, stream: u8, place: Place) -> Result<(), AllocError>
    ensures { OnOk result (out.new.items ≡ out.old.items ++ move_line turn stream place) }
{
    out.extend_from_slice(b"stream ")?;
    push_number(out, u64::from(stream))?;
    out.extend_from_slice(b" ")?;
    push_place(out, place)?;
    out.extend_from_slice(b" turn=")?;
    push_number(out, turn)?;
    out.extend_from_slice(b"\n")
}

/// Adds the words of a place.
fn push_place(out: &mut Vec<u8>, place: Place) -> Result<(), AllocError>
    ensures { OnOk result (out.new.items ≡ out.old.items ++ place_words place) }
{
    match place {
        Place::On { link } => {
            out.extend_from_slice(b"link ")?;
            push_number(out, u64::from(link))
        }
        Place::Changing { to, .. } => {
            out.extend_from_slice(b"back ")?;
            push_number(out, u64::from(to))
        }
        Place::Nowhere => out.extend_from_slice(b"nowhere"),
    }
}
