//! An end that is joined to itself, and loses octets.
ghost use Rattle.std.specs.Prelude.{◌≡◌, ℕ, ◌+◌, ◌≤◌, ◌<◌, ◌%◌, [], ◌∷◌, ◌++◌, length, if◌then◌else◌};
ghost use Rattle.line_ring.specs.Lossy.{is_lost, passing, new_line};

use super::line::{Full, Line};
use super::past::Past;
use super::places::Places;
use std::marker::Model;

/// A line whose one end is joined to itself: what is put there is taken there, but each octet whose number, from 1, is
/// a multiple of a given one is lost. It has 4,096 places, which stand in it, wherever it stands itself.
///
/// Contracts see which octets it loses, all that was put and taken, and what waits, oldest first.
#[derive(Drop)]
pub struct LossyLine {
    every: u16,
    /// The number of the octet last put, modulo `every`; 0 where `every` is 0.
    place: u16,
    octets: Places,
    put: Past,
    taken: Past,
}

impl Model for LossyLine {
    ghost use Rattle.line_ring.specs.Lossy.{LossyState, passing};

    ghost Value = { LossyState };

    ghost use Rattle.std.specs.Prelude.{◌≡◌, ◌≤◌, ◌<◌, ◌++◌, ◌%◌, length};

    ghost view = { λ l. record { every = l.every; put = l.put; taken = l.taken; waiting = l.octets } };

    ghost invariant = { λ l.
        (l.taken ++ l.octets ≡ passing l.every l.put)
        × (length l.octets ≤ 4096)
        × (0 < l.every → l.place ≡ length l.put % l.every) };
}

impl LossyLine {
    /// A line that loses each octet whose number is a multiple of `every`, or none where that is 0. No memory is taken.
    pub fn new(every: u16) -> LossyLine
        ensures { result ≡ new_line every }
    {
        LossyLine {
            every,
            place: 0,
            octets: Places::new(),
            put: Past::new(),
            taken: Past::new(),
        }
    }

    /// What holds of each such line: what was taken, followed by what waits, is what passes of all that was put; at
    /// most 4,096 octets wait. It does nothing.
    pub fn passes(&self)
        ensures order { self.now.taken ++ self.now.waiting ≡ passing self.now.every self.now.put }
        ensures places { length self.now.waiting ≤ 4096 }
    {
        let _ = &self.octets;
    }
}

/// The place behind this one, where each `every`th is 0.
fn next_place(place: u16, every: u16) -> u16
    ensures { 0 < every → place < every → result ≡ (place + 1) % every }
{
    if place.saturating_add(1) < every {
        place + 1
    } else {
        0
    }
}

/// Whether an octet at this place is lost.
fn loses(every: u16, place: u16) -> bool
    ensures { (number : ℕ) → (0 < every → place ≡ number % every) → result ≡ is_lost every number }
{
    every != 0 && place == 0
}

/// The octet joins those that wait, unless it's lost.
fn store(octets: &mut Places, octet: u8, lost: bool)
    requires { length octets.old < 4096 }
    ensures { octets.new ≡ octets.old ++ (if lost then [] else octet ∷ []) }
{
    if !lost {
        octets.push(octet);
    }
}

impl Line for LossyLine {
    ghost use Rattle.std.specs.Prelude.{◌-◌, length};
    ghost use Rattle.line_ring.specs.SameLines.{IsSameLine, same_itself, same_onwards};

    ghost put_so_far = { λ line. line.put };

    ghost taken_so_far = { λ line. line.taken };

    ghost free = { λ line. 4096 - length line.waiting };

    ghost waiting = { λ line. line.waiting };

    ghost is_same = { IsSameLine };

    ghost same_self = { same_itself };

    ghost same_on = { same_onwards };

    fn put(&mut self, octet: u8) -> Result<(), Full> {
        if self.octets.is_full() {
            return Err(Full { octet });
        }
        self.place = next_place(self.place, self.every);
        let lost = loses(self.every, self.place);
        store(&mut self.octets, octet, lost);
        self.put.note(octet);
        Ok(())
    }

    fn take(&mut self) -> Option<u8> {
        let octet = self.octets.pop()?;
        self.taken.note(octet);
        Some(octet)
    }
}
