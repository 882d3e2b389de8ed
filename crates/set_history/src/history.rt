//! The history: entries one after another.
ghost use Rattle.std.specs.Prelude.{◌≡◌, ◌<◌, OnOk, vec_len, vec_capacity};
ghost use Rattle.set_events.specs.Lent.{HasFitUnit, answer_in, body_in, event_in};

use super::pushing::{counted, open_run, written};
use super::reader::{Course, Reader};
use super::run::{LastRun, Run};
use super::watch::Watch;
use super::writing::MOST_FIXED;
use l2_units::LONGEST_BODY;
use set_events::{Actor, AnswerRef, EventRef};
use std::alloc::{AllocError, Allocator, Global};
use std::marker::Model;

/// All that was asked of a set and answered, in order.
///
/// Contracts see the entries, and the room that is left. Each call costs the same however many entries there are.
///
/// In octets an entry takes 1 of what was asked, answered and by whom, 1 of the actor's number, and:
///
/// | asked | octets | answered | octets |
/// |---|---|---|---|
/// | Offer | 1 to 9, and the body | Accepted | 1 to 9 |
/// | Take | none | Taken | 1 to 3, and the body |
/// | Find | 1 to 9 | Found, Heard | 1 to 5 |
/// | Heard, an FISU or LSSU | 5 | Sent, an FISU or LSSU | 4 |
/// | Heard, an MSU | 6 to 8, and the body | Sent, an MSU | 5 to 7, and the body |
/// | of a link | 1 | Refused | 1 |
///
/// A number below 253 takes 1, below 2^16 3, below 2^32 5, another 9. So a message with a body of 5 octets takes 44 at
/// both ends, from its offer to its taking, and up to 8 more for its number.
///
/// Where the entries of fill-in units repeat the last ones in turn they are counted, and written no more:
///
/// ```text
///    B3 .. | C4 .. | B3 .. | C4 .. | B3 .. | C4 ..      | 1,000,000 more, 15 octets in turn | 03 ..
///            one link sends a fill-in unit and hears one, again and again                     then it's asked for else
/// ```
///
/// So many links repeat twice as many entries, and blocks of octets more. A run takes 16 octets, however long it is.
#[derive(Drop)]
pub struct History<A: Allocator = Global> {
    octets: Vec<u8, A>,
    runs: Vec<Run, A>,
    last: LastRun,
    watch: Watch,
}

impl<A: Allocator> Model for History<A> {
    ghost use Rattle.std.specs.Prelude.{◌≡◌, ◌-◌, vec_len, vec_capacity};
    ghost use Rattle.set_history.specs.Told.{HistoryState};
    ghost use Rattle.set_history.specs.Runs.{history_told, room_in, AreRuns};

    ghost Value = { HistoryState };

    ghost view = { λ h. record {
      items = history_told h.runs.items h.last h.octets.items;
      room = room_in (vec_capacity h.runs - vec_len h.runs) (vec_capacity h.octets - vec_len h.octets);
    } };

    ghost invariant = { λ h. AreRuns h.runs.items h.last h.octets.items };
}

impl<A: Allocator + Copy> History<A> {
    ghost use Rattle.std.specs.Prelude.{◌≤◌, ◌^◌, ◌++◌, [], ◌∷◌, length};
    ghost use Rattle.set_history.specs.Told.{HasRoom};

    /// No entries, and no room.
    pub fn new(alloc: A) -> History<A>
        ensures { result.items ≡ [] }
    {
        History {
            octets: Vec::new(alloc),
            runs: Vec::new(alloc),
            last: LastRun {
                begin: 0,
                entries: 0,
                skip: 0,
                more: 0,
                next: 0,
                len: 0,
            },
            watch: Watch::new(),
        }
    }

    /// How many entries there are.
    pub fn len(&self) -> usize
        ensures value { result ≡ length self.now.items }
        ensures few { result < 2 ^ 63 }
    {
        // an entry that is written has two octets at least, and no more than 2^62 are counted
        let octets = self.octets.len();
        prove!(self.last.len / 2 <= octets / 2 + (1 << 62));
        self.last.len
    }

    /// Makes room for an entry of this event, whatever is answered to it; it fails only where memory is wanted. The
    /// entries stay either way.
    pub fn reserve(&mut self, event: &EventRef<'_>) -> Result<(), AllocError>
        ensures room { OnOk result (HasRoom (event_in event.now) self.new) }
        ensures same { self.new.items ≡ self.old.items }
    {
        place_for_run(&mut self.runs)?;
        self.octets
            .reserve(event.body().len() + (LONGEST_BODY + MOST_FIXED))
    }

    /// This entry, at the end. There is room for it, so it takes no memory. Conditions: each unit, and what was taken,
    /// has a body of at most 273 octets.
    #[tactic(auto, using(crate::proofs::OneMore::has_run, crate::proofs::OneMore::has_octets))]
    pub fn push(&mut self, who: Actor, event: &EventRef<'_>, answer: &AnswerRef<'_>)
        requires room { HasRoom (event_in event.now) self.old }
        requires unit { HasFitUnit event.now }
        requires answer { length (body_in answer.now) ≤ 273 }
        ensures { self.new.items ≡ self.old.items
            ++ record { who = who; event = event_in event.now; answer = answer_in answer.now } ∷ [] }
    {
        if counted(&mut self.last, &self.octets, who, event, answer) {
            return;
        }
        open_run(&self.octets, &mut self.runs, &mut self.last);
        written(
            &mut self.octets,
            &mut self.last,
            &mut self.watch,
            who,
            event,
            answer,
        );
    }

    /// Forgets all entries, and gives their memory back.
    pub fn clear(&mut self)
        ensures { self.new.items ≡ [] }
    {
        let alloc = *self.octets.allocator();
        *self = History::new(alloc);
    }

    /// The entries in order, from the first on.
    pub fn reader(&self) -> Reader<'_>
        ensures { result ≡ self.now.items }
    {
        Reader {
            course: Course::new(&self.octets, &self.runs, self.last),
            len: self.last.len,
        }
    }
}

/// Makes a place for a run.
#[inline(always)]
fn place_for_run<A: Allocator>(runs: &mut Vec<Run, A>) -> Result<(), AllocError>
    ensures room { OnOk result (vec_len runs.new < vec_capacity runs.new) }
    ensures same { runs.new.items ≡ runs.old.items }
{
    if runs.len() < runs.capacity() {
        return Ok(());
    }
    grow(runs)
}

/// More places for runs. Out of line, since runs are few.
#[inline(never)]
fn grow<A: Allocator>(runs: &mut Vec<Run, A>) -> Result<(), AllocError>
    ensures room { OnOk result (vec_len runs.new < vec_capacity runs.new) }
    ensures same { runs.new.items ≡ runs.old.items }
{
    runs.reserve(1)
}
