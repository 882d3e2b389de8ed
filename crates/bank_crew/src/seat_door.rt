//! The door of a set that threads share.
ghost use Rattle.std.specs.Prelude.{◌≡◌, ◌==◌, ℕ, true, not, false, [], ◌∷◌, ◌++◌, IfOk, IsSome, OnOk, OnErr};
ghost use Rattle.set_events.specs.Lent.{HasFitUnit, answer_in, event_in};
ghost use Rattle.set_events.specs.Owners.{IsOwn};
ghost use Rattle.bank_crew.specs.Carrying.{carried_in};
ghost use Rattle.bank_crew.specs.Counts.{answered_in};
ghost use Rattle.bank_crew.specs.Awaiting.{nothing};
ghost use Rattle.bank_crew.specs.Doors.{Asked, AskedDue, HasToldFull, Follows, IsLookRefused, IsMarked, IsRefused, Looks, Unasked, sight_of};
ghost use Rattle.bank_crew.specs.Managing.{is_question, look_mark, looks_in, mark_of, of_turns};
ghost use Rattle.bank_crew.specs.Seats.{AreAll, link_in};
ghost use Rattle.set_shared.specs.Asking.{MayAnswer};
ghost use Rattle.set_shared.specs.declared.link_set.LinkNow.{LinkNow};

use super::caller::Caller;
use super::carried::{Carried, NOTHING_CARRIED};
use super::manager::{LinkManager, Sight};
use super::pauses::Pauses;
use super::plan::Managed;
use super::questions::Awaited;
use super::report::{Answered, NOTHING};
use super::slices::SliceDoor;
use line_ring::Past;
use link_term::{Door, Faults};
use set_events::{AnswerRef, EventRef, Reply, SetFault};
use set_shared::{LinkSet, Opening, TermSeat};
use std::alloc::Global;
use std::marker::Model;
use std::sync::Wait;

/// A terminal's own seat at a set that threads share. Each step takes the set's lock, passes the gate's `inside`
/// under it, and leaves its entry among the seat's receipts. Those are all that this door made, but for what the seat
/// forgot, and for what level 3 asks between two steps, each when it's due and only then: that a link is down that came up into a
/// life which the far end has left; and where links are managed, that streams come back to a link that came up, and that an
/// answer didn't come. The lock may be waited for.
#[derive(Drop)]
pub struct SeatDoor<'a, O: Opening, R: Wait, G: LinkManager> {
    rt: &'a R,
    set: &'a LinkSet<O>,
    number: u16,
    caller: Caller<O, TermSeat<O>>,
    gate: &'a G,
    managed: Option<Managed>,
    awaited: Awaited,
    /// How many changeover orders about the link had come late when the terminal looked last.
    noted: u32,
    /// Of each entry whose it is, and of each look what it saw, for contracts alone.
    marks: Past,
    faults: Faults,
    answered: Answered,
    carried: Carried,
    pauses: Pauses,
}

impl<'a, O: Opening, R: Wait, G: LinkManager> Model for SeatDoor<'a, O, R, G> {
    ghost use Rattle.bank_crew.specs.Doors.{DoorState};

    ghost Value = { DoorState };

    ghost use Rattle.bank_crew.specs.Doors.{IsCounted, door_state};

    ghost view = { λ d. door_state d.caller d.marks d.faults d.managed d.awaited d.noted };

    ghost invariant = { λ d. IsCounted (door_state d.caller d.marks d.faults d.managed d.awaited d.noted) d.answered d.carried };
}

impl<'a, O: Opening, R: Wait, G: LinkManager> SeatDoor<'a, O, R, G> {
    /// The door of this seat's link, at its set, whose number is only told to the gate. Its link is the seat's, which
    /// made no step yet, and what it makes are the seat's receipts, with those that it forgets. With `every` a checkpoint of
    /// the set is taken after so many of the door's steps each.
    pub fn new(
        rt: &'a R,
        alloc: Global,
        set: &'a LinkSet<O>,
        number: u16,
        seat: TermSeat<O>,
        gate: &'a G,
        managed: Option<Managed>,
        every: Option<u64>,
    ) -> SeatDoor<'a, O, R, G>
        requires receipts { seat.receipts ≡ [] }
        requires forgotten { seat.forgotten.calls ≡ 0 }
        ensures seat { result.seat ≡ seat }
        ensures made { result.all ≡ [] }
        ensures marks { result.marks ≡ [] }
        ensures faults { result.faults ≡ [] }
        ensures managed { result.managed ≡ managed }
        ensures awaited { result.awaited ≡ nothing }
    {
        SeatDoor {
            rt,
            set,
            number,
            caller: Caller::new(alloc, seat),
            gate,
            managed,
            awaited: Awaited::NOTHING,
            noted: 0,
            marks: Past::new(),
            faults: Faults::new(),
            answered: NOTHING,
            carried: NOTHING_CARRIED,
            pauses: Pauses::of(every),
        }
    }

    /// What the set answered to the steps that were made through the door.
    pub fn answered(&self) -> Answered
        ensures { result ≡ answered_in (link_in self.now.seat.who) self.now.all }
    {
        self.answered
    }

    /// What the link carried by those steps.
    pub fn carried(&self) -> Carried
        ensures carried { result ≡ carried_in self.now.managed (link_in self.now.seat.who) self.now.all }
        ensures marks { IsMarked self.now }
        ensures full { HasToldFull self.now }
    {
        self.carried
    }

    /// The seat: what it forgot, and its receipts, are the steps that were made through the door.
    pub fn into_seat(self) -> TermSeat<O>
        ensures seat { result ≡ self.entry.seat }
        ensures all { AreAll result self.entry.all }
    {
        self.caller.into_seat()
    }

    /// One step, of a turn or of level 3: its answer is put into the reply. It tells whether a changeover order about the link had
    /// come late since the terminal looked last.
    fn ask(
        &mut self,
        event: &EventRef<'_>,
        reply: &mut Reply,
        of_turn: bool,
    ) -> Result<bool, SetFault>
        requires own { IsOwn self.old.seat.who (event_in event.now) }
        requires fits { HasFitUnit event.now }
        requires question { of_turn ≡ false → is_question (link_in self.old.seat.who) (event_in event.now) ≡ true }
        ensures ok { OnOk result (self.new.all ≡ self.old.all
            ++ record { who = self.old.seat.who; event = event_in event.now; answer = reply.new } ∷ []) }
        ensures marks { IfOk result (λ late. self.new.marks ≡ self.old.marks
            ++ mark_of of_turn late ∷ []) }
        ensures answer { OnOk result (MayAnswer (event_in event.now) reply.new) }
        ensures err { OnErr result ((self.new.all ≡ self.old.all)
            × (self.new.marks ≡ self.old.marks)) }
        ensures full { result ≡ Err SetFault.Exhausted → self.new.seat.full ≡ true }
        ensures who { self.new.seat.who ≡ self.old.seat.who }
        ensures faults { self.new.faults ≡ self.old.faults }
        ensures managed { self.new.managed ≡ self.old.managed }
        ensures awaited { self.new.awaited ≡ self.old.awaited }
    {
        let link = self.caller.link();
        let (set, gate) = (self.number, self.gate);
        let inside = || gate.inside(set, link);
        let orders = self.caller.step(self.rt, self.set, event, reply, inside)?;
        let late = orders != self.noted;
        let answer = reply.get();
        // each that is counted is a call
        self.caller.count();
        self.marks.note(mark_of(of_turn, late));
        self.answered = self.answered.with(link, event, &answer);
        self.carried = self.carried.with(self.managed, link, event, &answer);
        Ok(late)
    }

    /// Level 3 hears this answer, and asks what is due behind it, unless memory is refused to that.
    fn follow(
        &mut self,
        event: &EventRef<'_>,
        answer: &AnswerRef<'_>,
        late: bool,
    ) -> Result<(), SetFault>
        ensures ok { OnOk result (Follows late (event_in event.now) (answer_in answer.now) self.old self.new) }
        ensures err { OnErr result (IsRefused late (event_in event.now) (answer_in answer.now) self.old self.new) }
        ensures made { of_turns self.new.marks self.new.all ≡ of_turns self.old.marks self.old.all }
        ensures looks { looks_in self.new.marks ≡ looks_in self.old.marks }
        ensures who { self.new.seat.who ≡ self.old.seat.who }
        ensures faults { self.new.faults ≡ self.old.faults }
        ensures managed { self.new.managed ≡ self.old.managed }
    {
        let link = self.caller.link();
        self.tell(event, answer);
        let asked = self
            .awaited
            .question(self.managed, link, event, answer, late);
        match asked {
            Some(question) => self.ask_more(&question),
            None => Ok(()),
        }
    }

    /// Whoever manages links hears this answer.
    fn tell(&self, event: &EventRef<'_>, answer: &AnswerRef<'_>) {
        if let Some(_) = self.managed {
            self.gate
                .answered(self.number, self.caller.link(), event, answer);
        }
    }

    /// Asks what level 3 asks of its own. That is seldom, so the answer's place is made for it, in this function's own
    /// frame.
    #[inline(never)]
    fn ask_more(&mut self, question: &EventRef<'_>) -> Result<(), SetFault>
        requires question { is_question (link_in self.old.seat.who) (event_in question.now) ≡ true }
        requires fits { HasFitUnit question.now }
        ensures asked { OnOk result (Asked (event_in question.now) self.old self.new) }
        ensures unasked { OnErr result (Unasked self.old self.new) }
        ensures made { of_turns self.new.marks self.new.all ≡ of_turns self.old.marks self.old.all }
        ensures looks { looks_in self.new.marks ≡ looks_in self.old.marks }
        ensures who { self.new.seat.who ≡ self.old.seat.who }
        ensures faults { self.new.faults ≡ self.old.faults }
        ensures managed { self.new.managed ≡ self.old.managed }
    {
        // it's the seat of that link still
        self.caller.link();
        let mut reply = Reply::new();
        match self.ask(question, &mut reply, false) {
            Ok(_late) => {
                let answer = reply.get();
                self.tell(question, &answer);
                self.awaited.hear(question, &answer);
                Ok(())
            }
            Err(fault) => Err(fault),
        }
    }

    /// A look that saw this: level 3 asks what is due where the terminal rests behind it, unless memory is refused to that.
    fn note_look(&mut self, out: bool, sight: &Sight) -> Result<(), SetFault>
        ensures ok { OnOk result (Looks out sight.now self.old self.new) }
        ensures err { OnErr result (IsLookRefused out sight.now self.old self.new) }
        ensures made { of_turns self.new.marks self.new.all ≡ of_turns self.old.marks self.old.all }
        ensures looks { looks_in self.new.marks ≡ looks_in (self.old.marks ++ look_mark out sight.now ∷ []) }
        ensures who { self.new.seat.who ≡ self.old.seat.who }
        ensures faults { self.new.faults ≡ self.old.faults }
        ensures managed { self.new.managed ≡ self.old.managed }
    {
        let link = self.caller.link();
        self.marks.note(look_mark(out, sight));
        if !out || sight.settled {
            return Ok(());
        }
        match self.awaited.rest(self.managed, link) {
            Some(question) => self.ask_more(&question),
            None => Ok(()),
        }
    }
}

/// The mark of a look.
fn look_mark(out: bool, sight: &Sight) -> u8
    ensures { result ≡ look_mark out sight.now }
{
    let late = if sight.late { 1 } else { 0 };
    let settled = if sight.settled { 2 } else { 0 };
    let out = if out { 4 } else { 0 };
    3 + (out + (settled + late))
}

/// The mark of an entry.
fn mark_of(of_turn: bool, late: bool) -> u8
    ensures { result ≡ mark_of of_turn late }
{
    if !of_turn {
        0
    } else if late {
        2
    } else {
        1
    }
}

impl<'a, O: Opening, R: Wait, G: LinkManager> Door for SeatDoor<'a, O, R, G> {
    ghost use Rattle.std.specs.Prelude.{◌≡◌, refl};
    ghost use Rattle.std.proofs.Common.{◌∙◌};
    ghost use Rattle.bank_crew.specs.Doors.{AskedDue};
    ghost use Rattle.bank_crew.specs.Managing.{looks_in, of_turns};
    ghost use Rattle.bank_crew.specs.Seats.{link_in};

    ghost number = { λ door. link_in door.seat.who };

    ghost made = { λ door. of_turns door.marks door.all };

    ghost faults = { λ door. door.faults };

    ghost is_same = { λ first second. (second.managed ≡ first.managed) × (looks_in second.marks ≡ looks_in first.marks)
        × (AskedDue first → AskedDue second) };

    ghost same_self = { λ door. (refl, refl, λ due. due) };

    ghost same_on = { λ first second third a b. (b.0 ∙ a.0, b.1 ∙ a.1, λ due. b.2 (a.2 due)) };

    fn link(&self) -> u8 {
        self.caller.link()
    }

    fn step(&mut self, event: &EventRef<'_>, reply: &mut Reply) -> Result<(), SetFault> {
        // it's the seat of that link still
        self.caller.link();
        match self.ask(event, reply, true) {
            Ok(late) => {
                // it's no matter that memory is refused to level 3
                let _ = self.follow(event, &reply.get(), late);
                let made = self.caller.share().calls;
                self.pauses.pause(self.rt, self.set, &mut self.caller, made);
                Ok(())
            }
            Err(fault) => {
                self.faults.note(fault);
                Err(fault)
            }
        }
    }
}

impl<'a, O: Opening, R: Wait, G: LinkManager> SliceDoor for SeatDoor<'a, O, R, G> {
    ghost use Rattle.std.specs.Prelude.{◌≡◌, ℕ};
    ghost use Rattle.std.proofs.Common.{◌∙◌};
    ghost use Rattle.bank_crew.specs.Doors.{AskedDue};
    ghost use Rattle.bank_crew.specs.Managing.{looks_in};
    ghost use Rattle.bank_crew.specs.Seats.{link_in};
    ghost use Rattle.set_ledger.specs.Totals.{StandsIn};

    ghost sees = { λ door sight. StandsIn door.seat.share sight.counts };

    ghost looks = { λ door. looks_in door.marks };

    ghost goes_on = { λ first second. (second.managed ≡ first.managed) × (AskedDue first → AskedDue second) };

    ghost same_looks = { λ first second same. same.1 };

    ghost same_goes_on = { λ first second same. (same.0, same.2) };

    ghost goes_on_on = { λ first second third a b. (b.0 ∙ a.0, λ due. b.1 (a.1 due)) };

    fn look(&mut self, out: bool) -> Sight {
        let now = self.caller.look(self.rt, self.set);
        let sight = Sight {
            counts: now.counts,
            settled: now.settled,
            late: now.late != self.noted,
        };
        self.noted = now.late;
        // it's no matter that memory is refused to level 3
        let _ = self.note_look(out, &sight);
        sight
    }
}
