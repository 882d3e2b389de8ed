//! A line of each link to one end.
ghost use Rattle.std.specs.Prelude.{◌≡◌, ◌<◌, [], ◌∷◌, ◌++◌, ℕ, List, Some, length, map, slice_get, slice_set, true, false, IfNone, IfOk, IfSome, IsTrue, OnOk, option_copied};
ghost use Rattle.pair_octets.specs.Wires.{has_front, has_place, idle_line};

use super::line::Line;
use super::step::LineLengths;
use std::alloc::{AllocError, Global};
use std::marker::Model;

/// The octets under way to one end, a line of each link. Contracts see the list of the lines.
#[derive(Drop)]
pub(crate) struct Lines {
    lines: Vec<Line>,
}

impl Model for Lines {
    ghost use Rattle.std.specs.Prelude.{ℕ, List};

    ghost Value = { List (List ℕ) };

    ghost view = { λ l. l.lines.items };
}

impl Lines {
    /// The idle lines to end A, of these lengths; it fails only where memory is wanted.
    pub(crate) fn to_a(alloc: Global, lengths: &[LineLengths]) -> Result<Lines, AllocError>
        ensures { IfOk result (λ lines. lines ≡ map (λ line. idle_line line.to_a) lengths.now) }
    {
        let mut lines = Vec::with_capacity(alloc, lengths.len())?;
        for line in lengths {
            lines.push(Line::idle(alloc, line.to_a)?)?;
        }
        Ok(Lines { lines })
    }

    /// The idle lines to end B, of these lengths; it fails only where memory is wanted.
    pub(crate) fn to_b(alloc: Global, lengths: &[LineLengths]) -> Result<Lines, AllocError>
        ensures { IfOk result (λ lines. lines ≡ map (λ line. idle_line line.to_b) lengths.now) }
    {
        let mut lines = Vec::with_capacity(alloc, lengths.len())?;
        for line in lengths {
            lines.push(Line::idle(alloc, line.to_b)?)?;
        }
        Ok(Lines { lines })
    }

    /// How many there are.
    pub(crate) fn len(&self) -> usize
        ensures { result ≡ length self.now }
    {
        self.lines.len()
    }

    /// The line of this link; `None` of one that isn't there.
    pub(crate) fn line(&self, link: u8) -> Option<&Line>
        ensures { slice_get self.now link ≡ option_copied result }
    {
        self.lines.get(usize::from(link))
    }

    /// The octet in front of this link's line comes; `None`: there is none, or no such link.
    pub(crate) fn take_front(&mut self, link: u8) -> Option<u8>
        ensures front { IfSome result (λ octet. (rest : List ℕ) × (slice_get self.old link ≡ Some (octet ∷ rest))
            × (self.new ≡ slice_set self.old link rest)) }
        ensures none { IfNone result ((has_front (slice_get self.old link) ≡ false) × (self.new ≡ self.old)) }
        ensures lines { length self.new ≡ length self.old }
    {
        let place = usize::from(link);
        if place >= self.lines.len() || self.lines[place].is_empty() {
            return None;
        }
        self.lines[place].take_front()
    }

    /// An octet joins this link's line; where memory is wanted, nothing has changed. Condition: there is such a link.
    pub(crate) fn join(&mut self, link: u8, octet: u8) -> Result<(), AllocError>
        requires { link < length self.old }
        ensures ok { OnOk result ((on : List ℕ) × (slice_get self.old link ≡ Some on)
            × (self.new ≡ slice_set self.old link (on ++ octet ∷ []))) }
        ensures lines { length self.new ≡ length self.old }
    {
        self.lines[usize::from(link)].join(octet)
    }

    /// Another octet comes in the place of one on this link's line, at this place, counted from 0; whether there is one.
    pub(crate) fn change(&mut self, link: u8, place: u64, octet: u8) -> bool
        ensures change { IsTrue result → (line : List ℕ) × (slice_get self.old link ≡ Some line) × (place < length line)
            × (self.new ≡ slice_set self.old link (slice_set line place octet)) }
        ensures none { result ≡ false → (has_place place (slice_get self.old link) ≡ false) × (self.new ≡ self.old) }
        ensures lines { length self.new ≡ length self.old }
    {
        let at = usize::from(link);
        if at >= self.lines.len() || place as usize >= self.lines[at].len() {
            return false;
        }
        self.lines[at].change(place as usize, octet);
        true
    }
}
