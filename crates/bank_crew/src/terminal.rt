//! What a terminal's thread does.
ghost use Rattle.std.specs.Prelude.{◌≡◌, true, List, []};
ghost use Rattle.set_events.specs.declared.history.Entry.{Entry};
ghost use Rattle.bank_crew.specs.Seats.{AreAll, link_in};
ghost use Rattle.bank_crew.specs.Shifts.{DoesShiftOver};

use super::assignment::Assignment;
use super::crew::{Ended, TermEnd};
use super::manager::LinkManager;
use super::plan::Plan;
use super::report::reported;
use super::seat_door::SeatDoor;
use super::slices::sliced;
use line_ring::Line;
use line_tape::{Tape, TapedLine};
use link_term::{Command, TermFault, Works};
use set_shared::{LinkSet, Opening, TermSeat};
use std::alloc::Global;
use std::snapshot::Snapshot;
use std::sync::Wait;
use std::thread::Promise;

/// What the thread of the terminal of this link promises: its seat's entries are those of this plan's turns over this line.
#[derive(Drop)]
pub(crate) struct ShiftOf<L: Line + Drop> {
    pub(crate) link: u8,
    pub(crate) plan: Plan,
    pub(crate) line: Snapshot<L>,
}

impl<O: Opening, L: Line + Drop> Promise<TermEnd<O>> for ShiftOf<L> {
    ghost use Rattle.bank_crew.specs.Keeping.{KeepsShift};

    ghost kept_by = { KeepsShift L.Line };
}

/// A terminal's seat at its set, and the line over which it runs.
#[derive(Drop)]
pub(crate) struct TermShift<'a, O: Opening, L: Line + Drop, G: LinkManager, R: Wait> {
    pub(crate) rt: &'a R,
    pub(crate) alloc: Global,
    pub(crate) set: &'a LinkSet<O>,
    pub(crate) seat: TermSeat<O>,
    pub(crate) line: L,
    pub(crate) assignment: &'a Assignment<G>,
}

impl<'a, O: Opening, L: Line + Drop, G: LinkManager, R: Wait> TermShift<'a, O, L, G, R> {
    /// The terminal of the seat's link is told to come up in an emergency, and takes all its turns over the line. After
    /// a fault its seat comes back too.
    pub(crate) fn work(self) -> TermEnd<O>
        requires receipts { self.seat.receipts ≡ [] }
        requires forgotten { self.seat.forgotten.calls ≡ 0 }
        ensures who { result.seat.who ≡ self.entry.seat.who }
        ensures shift { (all : List Entry) × AreAll result.seat all
            × DoesShiftOver L.Line self.entry.line self.entry.assignment.now.plan (link_in self.entry.seat.who) result.told all }
        ensures full { result.told ≡ Err TermFault.Exhausted → result.seat.full ≡ true }
    {
        let TermShift {
            rt,
            alloc,
            set,
            seat,
            line,
            assignment,
        } = self;
        let link = seat.link();
        let plan = &assignment.plan;
        let (managed, every) = (plan.managed, plan.steps_between());
        let mut door = SeatDoor::new(
            rt,
            alloc,
            set,
            assignment.set,
            seat,
            &assignment.gate,
            managed,
            every,
        );
        let keeps = plan.keeps;
        let mut line = TapedLine::new(line, Tape::new(alloc, keeps));
        let mut works = Works::new(link, plan.timers);
        works.command(Command::Emergency);
        works.command(Command::Start);
        let report = sliced(assignment, &mut works, &mut door, &mut line);
        assignment.gate.ended(assignment.set, link);
        let tape = line.into_tape(keeps);
        let told = reported(report, door.answered(), door.carried(), tape);
        let seat = door.into_seat();
        // it's the seat of that link still
        seat.link();
        Ended { seat, told }
    }
}
