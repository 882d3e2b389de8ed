//! The set under its lock.
ghost use Rattle.std.specs.Prelude.{◌≡◌, ◌<◌, ◌≤◌, ◌-◌, ◌↔◌, ◌⊎◌, ℕ, true, IfOk, IfErr, OnOk, OnErr, if◌then◌else◌};
ghost use Rattle.set_events.specs.declared.event.Actor.TheVariants.{User, Terminal};
ghost use Rattle.set_events.specs.declared.event.Event.TheVariants.{Offer, Take, Find};
ghost use Rattle.set_events.specs.Lent.{HasFitUnit, event_in};
ghost use Rattle.set_events.specs.Owners.{IsOwn};
ghost use Rattle.set_ledger.specs.Openings.{IsBaseBehind};
ghost use Rattle.set_ledger.specs.Seats.{Forgets, Receives, new_seats, one_checkpoint_more, refused};
ghost use Rattle.set_ledger.specs.Totals.{AreParts, HeldState, StandsIn};
ghost use Rattle.set_ledger.specs.Ending.{calls_at, checkpoints_by, is_complete, AreFaithful, IsClosed};
ghost use Rattle.set_model.specs.History.{IsStep};
ghost use Rattle.set_model.specs.State.{late_at, settings_of};
ghost use Rattle.set_shared.specs.Asking.{MayAnswer, link_now};

use set_events::{Answer, Counts, Event, EventRef, Reply, SetConfig};
use set_ledger::{
    Blanks, Closed, CreateFault, EndFault, Held, Opening, Seat, SetFault, TermSeat, UserSeat,
    forget, reserve_receipt, step_in,
};
use std::alloc::Global;
use std::marker::Model;
use std::sync::{Mutex, Wait};

/// A link set that threads share. Contracts see how many seats it has; of what stands under its lock they know
/// what every `Held` keeps.
#[derive(Drop)]
pub struct LinkSet<O: Opening> {
    held: Mutex<Held<O>>,
    users: u16,
    links: u8,
}

impl<O: Opening> Model for LinkSet<O> {
    ghost use Rattle.set_shared.specs.Seating.{Seating};

    ghost Value = { Seating };

    ghost use Rattle.std.specs.Prelude.{◌≡◌};

    ghost view = { λ s. record { users = s.users; links = s.links } };

    ghost invariant = { λ s. (s.users ≡ O.blanks.messages.parts) × (s.links ≡ O.blanks.acknowledged.parts) };
}

/// A set that was opened, and its seats.
#[derive(Drop)]
pub struct Opened<O: Opening> {
    /// The set.
    pub set: LinkSet<O>,
    /// A seat for each user, 0, 1, ..
    pub users: Vec<UserSeat<O>>,
    /// A seat for the terminal of each link, 0, 1, ..
    pub terminals: Vec<TermSeat<O>>,
}

/// How a link stands at its set at some moment, with the set's messages.
#[derive(Clone, Copy, Debug, PartialEq, Eq)]
pub struct LinkNow {
    /// How many messages of users stand in each place.
    pub counts: Counts,
    /// The link is settled, as one is that never was up.
    pub settled: bool,
    /// How many changeover orders about the link were heard while it was settled, modulo 2^32 (own).
    pub late: u32,
}

impl<O: Opening> LinkSet<O> {
    /// Opens a set as this configuration has it, for so many users: the set, a seat for each user, and one for the
    /// terminal of each link. The configuration's settings are those that the type tells, so what is shared is a set of
    /// theirs: no other stands under a lock of this type.
    ///
    /// Faults: 2 [`CreateFault::Users`] exactly where there is no user or more than 64, tested first;
    /// 1 [`CreateFault::NoMemory`] only where memory was refused.
    pub fn create(
        alloc: Global,
        config: &SetConfig,
        users: u16,
        blanks: Blanks,
    ) -> Result<Opened<O>, CreateFault>
        requires blanks { (0 < users) × (users ≤ 64) → blanks ≡ O.blanks }
        requires parts { (0 < users) × (users ≤ 64) → AreParts O.blanks users config.now.links }
        requires opening { (0 < users) × (users ≤ 64) → settings_of config.now ≡ O.settings }
        ensures set { IfOk result (λ opened. opened.set ≡ record { users = users; links = config.now.links }) }
        ensures users { IfOk result (λ opened. opened.users.items ≡ new_seats User users) }
        ensures terminals { IfOk result (λ opened. opened.terminals.items ≡ new_seats Terminal config.now.links) }
        ensures range { (result ≡ Err CreateFault.Users) ↔ ((users ≡ 0) ⊎ (64 < users)) }
    {
        match Held::open(alloc, config, users, blanks) {
            Ok(opened) => Ok(Opened {
                set: LinkSet::of(opened.held),
                users: opened.users,
                terminals: opened.terminals,
            }),
            Err(fault) => Err(fault),
        }
    }

    /// A set that threads share, of one that isn't under a lock: as [`LinkSet::close`] hands it back.
    pub fn of(held: Held<O>) -> LinkSet<O>
        ensures { result ≡ record { users = held.users; links = held.links } }
    {
        let users = held.users();
        let links = held.links();
        LinkSet {
            held: Mutex::new(held),
            users,
            links,
        }
    }

    /// A user offers a message of these octets: what the set answers. The seat has a receipt of it.
    ///
    /// Faults, after which the seat is as it was: 2 [`SetFault::Exhausted`] only where the set's history has 2^48 entries, which
    /// the seat keeps ([`Seat::is_told_full`]) and [`LinkSet::close`] confirms; 1 [`SetFault::NoMemory`] only where memory was
    /// refused.
    pub fn offer<R: Wait>(
        &self,
        rt: &R,
        seat: &mut UserSeat<O>,
        octets: &[u8],
    ) -> Result<Answer, SetFault>
        ensures receipt { IfOk result (λ answer. Receives seat.old (Offer octets.now) answer seat.new) }
        ensures answer { IfOk result (MayAnswer (Offer octets.now)) }
        ensures err { IfErr result (λ fault. seat.new ≡ refused fault seat.old) }
    {
        // a user's number is below 64
        seat.number();
        self.answer_to(rt, seat, &EventRef::Offer { body: octets })
    }

    /// A user takes the oldest message that was heard for users: what the set answers. The seat has a receipt of it.
    ///
    /// Faults, after which the seat is as it was: 2 [`SetFault::Exhausted`] only where the set's history has 2^48 entries, which
    /// the seat keeps ([`Seat::is_told_full`]) and [`LinkSet::close`] confirms; 1 [`SetFault::NoMemory`] only where memory was
    /// refused.
    pub fn take<R: Wait>(&self, rt: &R, seat: &mut UserSeat<O>) -> Result<Answer, SetFault>
        ensures receipt { IfOk result (λ answer. Receives seat.old Take answer seat.new) }
        ensures answer { IfOk result (MayAnswer Take) }
        ensures err { IfErr result (λ fault. seat.new ≡ refused fault seat.old) }
    {
        // a user's number is below 64
        seat.number();
        self.answer_to(rt, seat, &EventRef::Take)
    }

    /// A user asks where the message of this number stands: what the set answers. The seat has a receipt of it.
    ///
    /// Faults, after which the seat is as it was: 2 [`SetFault::Exhausted`] only where the set's history has 2^48 entries, which
    /// the seat keeps ([`Seat::is_told_full`]) and [`LinkSet::close`] confirms; 1 [`SetFault::NoMemory`] only where memory was
    /// refused.
    pub fn find<R: Wait>(
        &self,
        rt: &R,
        seat: &mut UserSeat<O>,
        number: u64,
    ) -> Result<Answer, SetFault>
        ensures receipt { IfOk result (λ answer. Receives seat.old (Find number) answer seat.new) }
        ensures answer { IfOk result (MayAnswer (Find number)) }
        ensures err { IfErr result (λ fault. seat.new ≡ refused fault seat.old) }
    {
        // a user's number is below 64
        seat.number();
        self.answer_to(rt, seat, &EventRef::Find { number })
    }

    /// One step of a terminal on its own link: what the set answers. The seat has a receipt of it.
    ///
    /// Faults, after which the seat is as it was: 2 [`SetFault::Exhausted`] only where the set's history has 2^48 entries, which
    /// the seat keeps ([`Seat::is_told_full`]) and [`LinkSet::close`] confirms; 1 [`SetFault::NoMemory`] only where memory was
    /// refused.
    pub fn term_step<R: Wait>(
        &self,
        rt: &R,
        seat: &mut TermSeat<O>,
        event: &Event,
    ) -> Result<Answer, SetFault>
        requires { IsOwn seat.old.who event.now }
        ensures receipt { IfOk result (λ answer. Receives seat.old event.now answer seat.new) }
        ensures answer { IfOk result (MayAnswer event.now) }
        ensures err { IfErr result (λ fault. seat.new ≡ refused fault seat.old) }
    {
        self.answer_to(rt, seat, &EventRef::of(event))
    }

    /// [`LinkSet::term_step`] whose answer is put into the reply, and that calls `held` once it has the lock. A heard unit
    /// has a body of at most 273 octets. It tells how many changeover orders about the link had been heard by then while it
    /// was settled, modulo 2^32.
    pub fn term_step_held<R: Wait, F: FnOnce()>(
        &self,
        rt: &R,
        seat: &mut TermSeat<O>,
        event: &EventRef<'_>,
        reply: &mut Reply,
        held: F,
    ) -> Result<u32, SetFault>
        requires own { IsOwn seat.old.who (event_in event.now) }
        requires fits { HasFitUnit event.now }
        requires callable { F.IsAlwaysCallable held }
        ensures receipt { OnOk result (Receives seat.old (event_in event.now) reply.new seat.new) }
        ensures answer { OnOk result (MayAnswer (event_in event.now) reply.new) }
        ensures called { OnOk result (F.post held tt) }
        ensures err { IfErr result (λ fault. seat.new ≡ refused fault seat.old) }
    {
        reserve_receipt(seat, event)?;
        let link = seat.link();
        let mut guard = self.held.lock(rt);
        held();
        ask_with(&mut *guard, seat, link, event, reply)
    }

    /// A checkpoint, which this seat takes: what stands under the lock goes on from what it holds, with a history that begins anew.
    /// No seat has a receipt of it. The seat has taken one more, and no other call takes one: [`LinkSet::close`] tells that there
    /// were as many as its seats took.
    ///
    /// Fault: 1 [`SetFault::NoMemory`], only where memory was refused; all is then as it was.
    pub fn checkpoint<R: Wait, S: Seat<O>>(&self, rt: &R, seat: &mut S) -> Result<(), SetFault>
        ensures taken { OnOk result (S.state seat.new ≡ one_checkpoint_more (S.state seat.old)) }
        ensures err { OnErr result (S.state seat.new ≡ S.state seat.old) }
        ensures fault { IfErr result (λ fault. fault ≡ SetFault.NoMemory) }
    {
        self.held.lock(rt).checkpoint(seat)
    }

    /// How this link stands at some moment of the call, and how many messages of users stand in each place then. What the seat's
    /// own calls brought is among these; the seat stays as it is. A link that the set hasn't isn't settled, and no order came late
    /// about it.
    pub fn look<R: Wait, S: Seat<O>>(&self, rt: &R, seat: &mut S, link: u8) -> LinkNow
        ensures part { StandsIn (S.state seat.old).share result.counts }
        ensures seat { S.state seat.new ≡ S.state seat.old }
    {
        now_of(&mut *self.held.lock(rt), seat, link)
    }

    /// One step, and its answer by itself. The seat has room for its receipt before the lock is taken.
    fn answer_to<R: Wait, S: Seat<O>>(
        &self,
        rt: &R,
        seat: &mut S,
        event: &EventRef<'_>,
    ) -> Result<Answer, SetFault>
        requires own { IsOwn (S.state seat.old).who (event_in event.now) }
        requires fits { HasFitUnit event.now }
        ensures receipt { IfOk result (λ answer. Receives (S.state seat.old) (event_in event.now) answer (S.state seat.new)) }
        ensures answer { IfOk result (MayAnswer (event_in event.now)) }
        ensures err { IfErr result (λ fault. S.state seat.new ≡ refused fault (S.state seat.old)) }
    {
        reserve_receipt(seat, event)?;
        let mut reply = Reply::new();
        ask(&mut *self.held.lock(rt), seat, event, &mut reply)?;
        Ok(reply.answer())
    }

    /// A seat forgets the receipts of its calls before the last checkpoint, and keeps what they added up to, as of
    /// [`set_ledger::forget`]. It tells how many calls those are, since the opening: the receipts of just these are gone. By this
    /// number [`LinkSet::close`] finds the seat's others in the history.
    ///
    /// Fault: 1 [`SetFault::NoMemory`], only where memory was refused; the seat is then as it was.
    pub fn forget<R: Wait, S: Seat<O>>(&self, rt: &R, seat: &mut S) -> Result<u64, SetFault>
        ensures behind { IfOk result (λ calls. Forgets (calls - (S.state seat.old).forgotten.calls)
            (S.state seat.old) (S.state seat.new)) }
        ensures fault { IfErr result (λ fault. fault ≡ SetFault.NoMemory) }
        ensures err { OnErr result (S.state seat.new ≡ S.state seat.old) }
    {
        forget_behind(&*self.held.lock(rt), seat)
    }

    /// Ends a set with all its seats, under no lock: the history is legal from its base, each seat's receipts end with its
    /// entries in order, and the totals are the sums of the shares. Where a seat was told of a full history, the history and what
    /// lies before its base have 2^48 entries. The configuration is that of [`LinkSet::create`], by
    /// the settings that the type tells, and legal histories lead from there to the base, as many as these seats took
    /// checkpoints. It takes no memory, and waits for nothing.
    ///
    /// Faults, which hand back the set, unlocked ([`LinkSet::of`] makes it shared again), and all seats:
    /// 1 [`EndFault::Missing`] exactly where there isn't one seat for each user and each link of the set and no
    /// other; else 2 [`EndFault::Strange`] exactly where the receipts of a seat don't end with its entries since the base, or
    /// what stands before those, with what it forgot, isn't as many as its calls before the base.
    pub fn close(
        self,
        users: Vec<UserSeat<O>>,
        terminals: Vec<TermSeat<O>>,
    ) -> Result<Closed, EndFault<O>>
        ensures complete { OnOk result (is_complete self.users self.links users.items terminals.items ≡ true) }
        ensures closed { IfOk result (λ closed.
            IsClosed users.items terminals.items closed.base closed.history.items
            closed.books closed.counts) }
        ensures opened { IfOk result (λ closed.
            IsBaseBehind O.settings (checkpoints_by users.items terminals.items) closed.base) }
        ensures config { IfOk result (λ closed. settings_of closed.config ≡ O.settings) }
        ensures back { IfErr result (λ fault. (held : HeldState) × (held.users ≡ self.users) × (held.links ≡ self.links)
            × (fault ≡ (if is_complete self.users self.links users.items terminals.items
            then EndFault.Strange else EndFault.Missing) (record { held = held; users = users; terminals = terminals }))
            × (is_complete self.users self.links users.items terminals.items ≡ true
            → AreFaithful held.set.base.books held.set.history users.items terminals.items → ⊥)) }
    {
        let held = self.held.into_inner();
        // it has as many seats as this set tells
        held.users();
        held.links();
        held.end(users, terminals)
    }
}

/// One step at what stands under the lock, as `step_in` makes it.
fn ask<O: Opening, S: Seat<O>>(
    held: &mut Held<O>,
    seat: &mut S,
    event: &EventRef<'_>,
    reply: &mut Reply,
) -> Result<(), SetFault>
    requires own { IsOwn (S.state seat.old).who (event_in event.now) }
    requires fits { HasFitUnit event.now }
    ensures step { OnOk result
        (IsStep held.old.set (S.state seat.old).who (event_in event.now) reply.new held.new.set) }
    ensures receipt { OnOk result (Receives (S.state seat.old) (event_in event.now) reply.new (S.state seat.new)) }
    ensures answer { OnOk result (MayAnswer (event_in event.now) reply.new) }
    ensures err { IfErr result (λ fault. (held.new ≡ held.old) × (S.state seat.new ≡ refused fault (S.state seat.old))) }
{
    step_in(held, seat, event, reply)
}

/// [`ask`] of a terminal, which tells how many orders came late about its link before it.
fn ask_with<O: Opening>(
    held: &mut Held<O>,
    seat: &mut TermSeat<O>,
    link: u8,
    event: &EventRef<'_>,
    reply: &mut Reply,
) -> Result<u32, SetFault>
    requires own { IsOwn seat.old.who (event_in event.now) }
    requires fits { HasFitUnit event.now }
    requires link { seat.old.who ≡ Terminal link }
    ensures step { OnOk result (IsStep held.old.set seat.old.who (event_in event.now) reply.new held.new.set) }
    ensures late { IfOk result (λ late. late ≡ late_at link held.old.set.state) }
    ensures receipt { OnOk result (Receives seat.old (event_in event.now) reply.new seat.new) }
    ensures answer { OnOk result (MayAnswer (event_in event.now) reply.new) }
    ensures err { IfErr result (λ fault. (held.new ≡ held.old) × (seat.new ≡ refused fault seat.old)) }
{
    let late = held.core().late(link);
    ask(held, seat, event, reply)?;
    Ok(late)
}

/// How this link stands at what stands under the lock, and how many messages of users in each place.
fn now_of<O: Opening, S: Seat<O>>(held: &mut Held<O>, seat: &mut S, link: u8) -> LinkNow
    ensures value { result ≡ link_now link held.old.set.state }
    ensures part { StandsIn (S.state seat.old).share result.counts }
    ensures same { (held.new ≡ held.old) × (S.state seat.new ≡ S.state seat.old) }
{
    let counts = held.counts_at(seat);
    let set = held.core();
    LinkNow {
        counts,
        settled: set.is_settled(link),
        late: set.late(link),
    }
}

/// A seat forgets what lies behind the base of what stands under the lock.
fn forget_behind<O: Opening, S: Seat<O>>(held: &Held<O>, seat: &mut S) -> Result<u64, SetFault>
    ensures told { IfOk result (λ calls. calls ≡ calls_at (S.state seat.old).who held.now.set.base.books) }
    ensures behind { IfOk result (λ calls. Forgets (calls - (S.state seat.old).forgotten.calls)
        (S.state seat.old) (S.state seat.new)) }
    ensures fault { IfErr result (λ fault. fault ≡ SetFault.NoMemory) }
    ensures err { OnErr result (S.state seat.new ≡ S.state seat.old) }
{
    forget(held, seat)
}
