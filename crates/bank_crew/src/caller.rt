//! A seat with all that was asked at it, of which it may forget some.
ghost use Rattle.std.specs.Prelude.{◌≡◌, ◌<◌, ◌^◌, true, [], ◌∷◌, ◌++◌, length, IfOk, OnOk, OnErr};
ghost use Rattle.set_events.specs.Lent.{HasFitUnit, event_in};
ghost use Rattle.set_events.specs.Owners.{IsOwn};
ghost use Rattle.set_events.specs.declared.event.Actor.TheVariants.{User, Terminal};
ghost use Rattle.set_events.specs.declared.event.Event.TheVariants.{Offer, Take, Find};
ghost use Rattle.set_ledger.specs.Totals.{StandsIn};
ghost use Rattle.set_shared.specs.Asking.{MayAnswer};
ghost use Rattle.bank_crew.specs.Jobs.{Calls};
ghost use Rattle.bank_crew.specs.Seats.{AreAll};

use set_events::{Answer, EventRef, Reply, SetFault};
use set_shared::{LinkNow, LinkSet, Opening, Seat, SeatShare, TermSeat, UserSeat};
use std::alloc::Global;
use std::marker::{Model, PhantomData};
use std::snapshot::Snapshot;
use std::sync::Wait;

/// With fewer receipts a seat forgets none.
const FEW: usize = 1_024;

/// A seat before it forgot receipts, and after: for contracts alone, it takes no octets.
#[derive(Drop)]
pub(crate) struct Forgetting<S> {
    pub(crate) before: Snapshot<S>,
    pub(crate) after: Snapshot<S>,
}

/// A seat whose receipts that lie before a checkpoint are forgotten now and then: when there are twice as many as it had
/// after the last time, so that this takes each call the same time. Contracts see the seat, and all that was asked there.
#[derive(Drop)]
pub(crate) struct Caller<O: Opening, S: Seat<O> + Drop> {
    seat: S,
    forgettings: Vec<Forgetting<S>>,
    /// With so many receipts it's time for the next.
    many: usize,
    set: PhantomData<O>,
}

impl<O: Opening, S: Seat<O> + Drop> Model for Caller<O, S> {
    ghost use Rattle.bank_crew.specs.Seats.{CallerState};

    ghost Value = { CallerState };

    ghost use Rattle.std.specs.Prelude.{◌≡◌, length};
    ghost use Rattle.bank_crew.specs.Seats.{caller_state, joined};

    ghost view = { λ c. caller_state (joined S.state c.forgettings.items) (S.state c.seat) };

    ghost invariant = { λ c. length (joined S.state c.forgettings.items) ≡ (S.state c.seat).forgotten.calls };
}

impl<O: Opening, S: Seat<O> + Drop> Caller<O, S> {
    /// A seat at which nothing was asked yet.
    pub(crate) fn new(alloc: Global, seat: S) -> Caller<O, S>
        requires receipts { (S.state seat).receipts ≡ [] }
        requires forgotten { (S.state seat).forgotten.calls ≡ 0 }
        ensures seat { result.seat ≡ S.state seat }
        ensures all { result.all ≡ [] }
    {
        Caller {
            seat,
            forgettings: Vec::new(alloc),
            many: FEW,
            set: PhantomData,
        }
    }

    /// What its calls added to the set's totals.
    pub(crate) fn share(&self) -> SeatShare
        ensures { result ≡ self.now.seat.share }
    {
        self.seat.share()
    }

    /// How many calls there were.
    pub(crate) fn count(&self) -> u64
        ensures calls { result ≡ length self.now.all }
        ensures few { result < 2 ^ 64 }
    {
        self.seat.share().calls
    }

    /// The seat.
    pub(crate) fn into_seat(self) -> S
        ensures seat { S.state result ≡ self.seat }
        ensures all { AreAll (S.state result) self.all }
    {
        self.seat
    }

    /// Forgets what lies before the last checkpoint, where there are many receipts. Where memory is refused all are kept
    /// until there are twice as many.
    fn forget<R: Wait>(&mut self, rt: &R, set: &LinkSet<O>)
        ensures who { self.new.seat.who ≡ self.old.seat.who }
        ensures all { self.new.all ≡ self.old.all }
        ensures full { self.new.seat.full ≡ self.old.seat.full }
    {
        if self.seat.receipts().len() < self.many {
            return;
        }
        let _ = self.forget_now(rt, set);
        self.many = self.seat.receipts().len().saturating_mul(2).max(FEW);
    }

    /// A checkpoint of its set. Where memory is refused none is taken.
    pub(crate) fn checkpoint<R: Wait>(&mut self, rt: &R, set: &LinkSet<O>)
        ensures who { self.new.seat.who ≡ self.old.seat.who }
        ensures all { self.new.all ≡ self.old.all }
        ensures full { self.new.seat.full ≡ self.old.seat.full }
    {
        let _ = set.checkpoint(rt, &mut self.seat);
    }

    /// Forgets what lies before the last checkpoint.
    fn forget_now<R: Wait>(&mut self, rt: &R, set: &LinkSet<O>) -> Result<(), SetFault>
        ensures who { self.new.seat.who ≡ self.old.seat.who }
        ensures all { self.new.all ≡ self.old.all }
        ensures full { self.new.seat.full ≡ self.old.seat.full }
    {
        self.forgettings.reserve(1)?;
        let before = Snapshot::of(&self.seat);
        set.forget(rt, &mut self.seat)?;
        let after = Snapshot::of(&self.seat);
        self.forgettings.push_reserved(Forgetting { before, after });
        Ok(())
    }
}

impl<O: Opening> Caller<O, UserSeat<O>> {
    /// The user's number, 0 to 63.
    pub(crate) fn number(&self) -> u16
        ensures { self.now.seat.who ≡ User result }
    {
        self.seat.number()
    }

    /// Offers a message of these octets.
    pub(crate) fn offer<R: Wait>(
        &mut self,
        rt: &R,
        set: &LinkSet<O>,
        octets: &[u8],
    ) -> Result<Answer, SetFault>
        ensures who { self.new.seat.who ≡ self.old.seat.who }
        ensures calls { Calls self.old.seat.who (Offer octets.now) result self.old.all self.new.all }
        ensures full { result ≡ Err SetFault.Exhausted → self.new.seat.full ≡ true }
    {
        let answered = set.offer(rt, &mut self.seat, octets);
        self.forget(rt, set);
        answered
    }

    /// Takes the oldest message that was heard for users.
    pub(crate) fn take<R: Wait>(&mut self, rt: &R, set: &LinkSet<O>) -> Result<Answer, SetFault>
        ensures who { self.new.seat.who ≡ self.old.seat.who }
        ensures calls { Calls self.old.seat.who Take result self.old.all self.new.all }
        ensures full { result ≡ Err SetFault.Exhausted → self.new.seat.full ≡ true }
    {
        let answered = set.take(rt, &mut self.seat);
        self.forget(rt, set);
        answered
    }

    /// Asks where the message of this number stands.
    pub(crate) fn find<R: Wait>(
        &mut self,
        rt: &R,
        set: &LinkSet<O>,
        number: u64,
    ) -> Result<Answer, SetFault>
        ensures who { self.new.seat.who ≡ self.old.seat.who }
        ensures calls { Calls self.old.seat.who (Find number) result self.old.all self.new.all }
        ensures full { result ≡ Err SetFault.Exhausted → self.new.seat.full ≡ true }
    {
        let answered = set.find(rt, &mut self.seat, number);
        self.forget(rt, set);
        answered
    }
}

impl<O: Opening> Caller<O, TermSeat<O>> {
    /// The number of the terminal's link, 0 to 15.
    pub(crate) fn link(&self) -> u8
        ensures { self.now.seat.who ≡ Terminal result }
    {
        self.seat.link()
    }

    /// How its link stands, and how many messages of users stand in each place: those that its own steps brought are among them.
    pub(crate) fn look<R: Wait>(&mut self, rt: &R, set: &LinkSet<O>) -> LinkNow
        ensures part { StandsIn self.old.seat.share result.counts }
        ensures same { self.new ≡ self.old }
    {
        let link = self.seat.link();
        set.look(rt, &mut self.seat, link)
    }

    /// One step on the terminal's own link, whose answer is put into the reply; `held` is called once the lock is had. It tells
    /// how many changeover orders about the link had come late by then.
    pub(crate) fn step<R: Wait, F: FnOnce()>(
        &mut self,
        rt: &R,
        set: &LinkSet<O>,
        event: &EventRef<'_>,
        reply: &mut Reply,
        held: F,
    ) -> Result<u32, SetFault>
        requires own { IsOwn self.old.seat.who (event_in event.now) }
        requires fits { HasFitUnit event.now }
        requires callable { F.IsAlwaysCallable held }
        ensures who { self.new.seat.who ≡ self.old.seat.who }
        ensures ok { OnOk result (self.new.all ≡ self.old.all
            ++ record { who = self.old.seat.who; event = event_in event.now; answer = reply.new } ∷ []) }
        ensures answer { OnOk result (MayAnswer (event_in event.now) reply.new) }
        ensures err { OnErr result (self.new.all ≡ self.old.all) }
        ensures full_stays { self.old.seat.full ≡ true → self.new.seat.full ≡ true }
        ensures full { result ≡ Err SetFault.Exhausted → self.new.seat.full ≡ true }
    {
        let answered = set.term_step_held(rt, &mut self.seat, event, reply, held);
        self.forget(rt, set);
        answered
    }
}
