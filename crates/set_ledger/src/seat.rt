//! Seats of users and of terminals.
ghost use Rattle.std.specs.Prelude.{◌≡◌, ◌<◌, ◌≤◌, ◌+◌, length, IfErr, OnOk};
ghost use Rattle.set_events.specs.declared.event.Actor.TheVariants.{User, Terminal};
ghost use Rattle.set_events.specs.Lent.{HasFitUnit, event_in};
ghost use Rattle.set_events.specs.Owners.{IsOwn};
ghost use Rattle.set_model.specs.History.{IsStep, entries_in, longest_history};
ghost use Rattle.set_ledger.specs.Seats.{Receives, AcknowledgesAs, AddsUp, Returns, ReturnsFull, new_seats, refused};
ghost use Rattle.set_ledger.specs.Totals.{IsRoom};

use super::forgetting::forget_first;
use super::held::Held;
use super::making::make;
use super::opening::{Acknowledged, Calls, Checkpoints, Full, Messages, Octets, Opening};
use super::share::{Forgotten, FullMark, NOTHING_FORGOTTEN, SeatShare, Stake, Taken};
use super::stepping::Step;
use set_core::SetFault;
use set_events::{Actor, EventRef, Reply};
use set_history::{History, Reader};
use std::alloc::{AllocError, Allocator, Global};
use std::marker::Model;
use std::sync::ledger::Share;

/// A seat at a set: its actor, its share of the totals, and a receipt for each step that it made, but for those that it
/// forgot. It's sealed: users' and terminals' seats are the only ones, whose fields are private, and [`step_in`] and
/// [`super::forget`] alone change one.
pub trait Seat<O: Opening>: Step<O> {
    /// Who asks.
    fn actor(&self) -> Actor
        ensures { result ≡ (Self.state self.now).who };

    /// What its steps added to the set's totals.
    fn share(&self) -> SeatShare
        ensures value { result ≡ (Self.state self.now).share }
        ensures adds_up { AddsUp (Self.state self.now) };

    /// The entries that its steps made, in order, but for the first ones, which it forgot.
    fn receipts(&self) -> Reader<'_>
        ensures { result ≡ (Self.state self.now).receipts };

    /// What the receipts that it forgot added up to.
    fn forgotten(&self) -> Forgotten
        ensures { result ≡ (Self.state self.now).forgotten };

    /// Whether it was told that the set's history is full.
    fn is_told_full(&self) -> bool
        ensures { result ≡ (Self.state self.now).full };
}

/// A user's seat. Only [`step_in`] and [`forget`] change it.
#[derive(Drop)]
pub struct UserSeat<O: Opening, G: Allocator = Global> {
    number: u16,
    pub(crate) calls: Stake<Calls<O>>,
    pub(crate) messages: Stake<Messages<O>>,
    pub(crate) octets: Stake<Octets<O>>,
    receipts: History<G>,
    forgotten: Forgotten,
    pub(crate) full: FullMark<Full<O>>,
    pub(crate) checkpoints: Taken<Checkpoints<O>>,
    /// What the receipts take memory from.
    alloc: G,
}

impl<O: Opening, G: Allocator> Model for UserSeat<O, G> {
    ghost use Rattle.set_ledger.specs.Seats.{SeatState};

    ghost Value = { SeatState };

    ghost use Rattle.std.specs.Prelude.{◌<◌};
    ghost use Rattle.set_ledger.specs.Seats.{AddsUp, user_state};

    ghost view = { λ s. user_state s.number s.calls.told s.messages.told s.octets.told s.forgotten s.receipts.items s.full.told s.checkpoints.share.amount };

    ghost invariant = { λ s. (s.number < 64)
        × AddsUp (user_state s.number s.calls.told s.messages.told s.octets.told s.forgotten s.receipts.items s.full.told s.checkpoints.share.amount) };
}

/// The seat of a link's terminal. Only [`step_in`] and [`forget`] change it.
#[derive(Drop)]
pub struct TermSeat<O: Opening, G: Allocator = Global> {
    link: u8,
    pub(crate) calls: Stake<Calls<O>>,
    pub(crate) acknowledged: Stake<Acknowledged<O>>,
    receipts: History<G>,
    forgotten: Forgotten,
    pub(crate) full: FullMark<Full<O>>,
    pub(crate) checkpoints: Taken<Checkpoints<O>>,
    /// What the receipts take memory from.
    alloc: G,
}

impl<O: Opening, G: Allocator> Model for TermSeat<O, G> {
    ghost use Rattle.set_ledger.specs.Seats.{SeatState};

    ghost Value = { SeatState };

    ghost use Rattle.std.specs.Prelude.{◌<◌};
    ghost use Rattle.set_ledger.specs.Seats.{AddsUp, term_state};

    ghost view = { λ s. term_state s.link s.calls.told s.acknowledged.told s.forgotten s.receipts.items s.full.told s.checkpoints.share.amount };

    ghost invariant = { λ s. (s.link < 16)
        × AddsUp (term_state s.link s.calls.told s.acknowledged.told s.forgotten s.receipts.items s.full.told s.checkpoints.share.amount) };
}

impl<O: Opening, G: Allocator + Copy> Step<O> for UserSeat<O, G> {
    ghost state = { λ s. s };

    fn reserve(&mut self, event: &EventRef<'_>) -> Result<(), AllocError> {
        self.receipts.reserve(event)
    }

    fn step<H: Allocator + Copy>(
        &mut self,
        held: &mut Held<O, H>,
        event: &EventRef<'_>,
        reply: &mut Reply,
    ) -> Result<(), SetFault> {
        let who = Actor::User(self.number);
        match make(&mut held.core, who, &mut self.receipts, event, reply) {
            Ok(gained) => {
                self.calls.gain(&mut held.calls, gained.calls);
                self.messages.gain(&mut held.messages, gained.messages);
                self.octets.gain(&mut held.octets, gained.octets);
                Ok(())
            }
            Err(fault) => {
                if let SetFault::Exhausted = fault {
                    self.full.tell(&mut held.full);
                }
                Err(fault)
            }
        }
    }

    fn checkpoint<H: Allocator + Copy>(&mut self, held: &mut Held<O, H>) -> Result<(), SetFault> {
        held.core.replays();
        held.core.checkpoint()?;
        self.checkpoints.take(&mut held.checkpoints);
        Ok(())
    }

    fn audit<H: Allocator + Copy>(&mut self, held: &mut Held<O, H>) {
        self.calls.audit(&mut held.calls);
        self.messages.audit(&mut held.messages);
        self.octets.audit(&mut held.octets);
    }

    fn forget(&mut self, many: u64) -> Result<(), AllocError> {
        forget_first(self.alloc, &mut self.receipts, &mut self.forgotten, many)
    }
}

impl<O: Opening, G: Allocator + Copy> Seat<O> for UserSeat<O, G> {
    fn actor(&self) -> Actor {
        Actor::User(self.number)
    }

    fn share(&self) -> SeatShare {
        SeatShare {
            calls: self.calls.told,
            messages: self.messages.told,
            octets: self.octets.told,
            acknowledged: 0,
        }
    }

    fn receipts(&self) -> Reader<'_> {
        self.receipts.reader()
    }

    fn forgotten(&self) -> Forgotten {
        self.forgotten
    }

    fn is_told_full(&self) -> bool {
        self.full.told
    }
}

impl<O: Opening, G: Allocator + Copy> Step<O> for TermSeat<O, G> {
    ghost state = { λ s. s };

    fn reserve(&mut self, event: &EventRef<'_>) -> Result<(), AllocError> {
        self.receipts.reserve(event)
    }

    fn step<H: Allocator + Copy>(
        &mut self,
        held: &mut Held<O, H>,
        event: &EventRef<'_>,
        reply: &mut Reply,
    ) -> Result<(), SetFault> {
        let who = Actor::Terminal(self.link);
        match make(&mut held.core, who, &mut self.receipts, event, reply) {
            Ok(gained) => {
                self.calls.gain(&mut held.calls, gained.calls);
                self.acknowledged
                    .gain(&mut held.acknowledged, gained.acknowledged);
                Ok(())
            }
            Err(fault) => {
                if let SetFault::Exhausted = fault {
                    self.full.tell(&mut held.full);
                }
                Err(fault)
            }
        }
    }

    fn checkpoint<H: Allocator + Copy>(&mut self, held: &mut Held<O, H>) -> Result<(), SetFault> {
        held.core.replays();
        held.core.checkpoint()?;
        self.checkpoints.take(&mut held.checkpoints);
        Ok(())
    }

    fn audit<H: Allocator + Copy>(&mut self, held: &mut Held<O, H>) {
        self.calls.audit(&mut held.calls);
        self.acknowledged.audit(&mut held.acknowledged);
    }

    fn forget(&mut self, many: u64) -> Result<(), AllocError> {
        forget_first(self.alloc, &mut self.receipts, &mut self.forgotten, many)
    }
}

impl<O: Opening, G: Allocator + Copy> Seat<O> for TermSeat<O, G> {
    fn actor(&self) -> Actor {
        Actor::Terminal(self.link)
    }

    fn share(&self) -> SeatShare {
        SeatShare {
            calls: self.calls.told,
            messages: 0,
            octets: 0,
            acknowledged: self.acknowledged.told,
        }
    }

    fn receipts(&self) -> Reader<'_> {
        self.receipts.reader()
    }

    fn forgotten(&self) -> Forgotten {
        self.forgotten
    }

    fn is_told_full(&self) -> bool {
        self.full.told
    }
}

impl<O: Opening, G: Allocator + Copy> UserSeat<O, G> {
    /// The user's number, 0 to 63.
    pub fn number(&self) -> u16
        ensures who { self.now.who ≡ User result }
        ensures range { result < 64 }
    {
        self.number
    }

    /// The parts of a seat that is given up with its receipts go back to these.
    pub(crate) fn give_back(
        self,
        calls: &mut Share<Calls<O>>,
        messages: &mut Share<Messages<O>>,
        octets: &mut Share<Octets<O>>,
        full: &mut Share<Full<O>>,
        checkpoints: &mut Share<Checkpoints<O>>,
    )
        ensures calls { Returns calls.old.parts calls.old.amount self.share.calls calls.new.parts
            calls.new.amount }
        ensures messages { Returns messages.old.parts messages.old.amount self.share.messages
            messages.new.parts messages.new.amount }
        ensures octets { Returns octets.old.parts octets.old.amount self.share.octets
            octets.new.parts octets.new.amount }
        ensures full { ReturnsFull full.old.parts full.old.amount self.full full.new.parts full.new.amount }
        ensures checkpoints { Returns checkpoints.old.parts checkpoints.old.amount self.checkpoints
            checkpoints.new.parts checkpoints.new.amount }
    {
        self.calls.give_back(calls);
        self.messages.give_back(messages);
        self.octets.give_back(octets);
        self.full.give_back(full);
        self.checkpoints.give_back(checkpoints);
    }
}

impl<O: Opening, G: Allocator + Copy> TermSeat<O, G> {
    /// The number of the terminal's link, 0 to 15.
    pub fn link(&self) -> u8
        ensures who { self.now.who ≡ Terminal result }
        ensures range { result < 16 }
    {
        self.link
    }

    /// The parts of a seat that is given up with its receipts go back to these.
    pub(crate) fn give_back(
        self,
        calls: &mut Share<Calls<O>>,
        acknowledged: &mut Share<Acknowledged<O>>,
        full: &mut Share<Full<O>>,
        checkpoints: &mut Share<Checkpoints<O>>,
    )
        ensures calls { Returns calls.old.parts calls.old.amount self.share.calls calls.new.parts
            calls.new.amount }
        ensures acknowledged { Returns acknowledged.old.parts acknowledged.old.amount
            self.share.acknowledged acknowledged.new.parts acknowledged.new.amount }
        ensures full { ReturnsFull full.old.parts full.old.amount self.full full.new.parts full.new.amount }
        ensures checkpoints { Returns checkpoints.old.parts checkpoints.old.amount self.checkpoints
            checkpoints.new.parts checkpoints.new.amount }
    {
        self.calls.give_back(calls);
        self.acknowledged.give_back(acknowledged);
        self.full.give_back(full);
        self.checkpoints.give_back(checkpoints);
    }
}

/// Makes room for the receipt of a step by this event: done before the set is lent, the step takes none for it. The seat
/// stays as it is. It fails only where memory was refused.
pub fn reserve_receipt<O: Opening, S: Seat<O>>(
    seat: &mut S,
    event: &EventRef<'_>,
) -> Result<(), AllocError>
    ensures { S.state seat.new ≡ S.state seat.old }
{
    seat.reserve(event)
}

/// One step of a seat at the set that is lent: what the set answers to this event of the seat's actor is put into the
/// reply. The set's history grows by the one entry, the seat's receipts by the same, and the seat's share by what that entry brought.
/// A user's own events are Offer, Take and Find; a terminal's those on its own link.
///
/// Faults: 2 [`SetFault::Exhausted`] only where the history has 2^48 entries; 1 [`SetFault::NoMemory`] only
/// where memory was refused. After a fault the set and the seat are as they were, but that a seat keeps that it was told of a
/// full history: [`Held::end`] knows by it that it was so.
pub fn step_in<O: Opening, G: Allocator + Copy, S: Seat<O>>(
    held: &mut Held<O, G>,
    seat: &mut S,
    event: &EventRef<'_>,
    reply: &mut Reply,
) -> Result<(), SetFault>
    requires own { IsOwn (S.state seat.old).who (event_in event.now) }
    requires fits { HasFitUnit event.now }
    ensures step { OnOk result
        (IsStep held.old.set (S.state seat.old).who (event_in event.now) reply.new held.new.set) }
    ensures receipt { OnOk result
        (Receives (S.state seat.old) (event_in event.now) reply.new (S.state seat.new)) }
    ensures acknowledged { OnOk result
        (AcknowledgesAs held.old.set held.new.set (S.state seat.old).share
        (S.state seat.new).share) }
    ensures seats { (held.new.users ≡ held.old.users) × (held.new.links ≡ held.old.links) }
    ensures exhausted { result ≡ Err SetFault.Exhausted
        → longest_history ≤ entries_in held.old.set }
    ensures err { IfErr result (λ fault. (held.new ≡ held.old) × (S.state seat.new ≡ refused fault (S.state seat.old))) }
{
    seat.step(held, event, reply)
}

/// Puts the seats of the users 0, 1, .. into this room, each with one part of each ledger that it moves.
pub(crate) fn put_users<O: Opening, G: Allocator + Copy>(
    seats: &mut Vec<UserSeat<O, G>, G>,
    users: u16,
    calls: &mut Share<Calls<O>>,
    messages: &mut Share<Messages<O>>,
    octets: &mut Share<Octets<O>>,
    full: &mut Share<Full<O>>,
    checkpoints: &mut Share<Checkpoints<O>>,
)
    requires room { IsRoom seats.old users }
    requires range { users ≤ 64 }
    requires calls { (calls.old.amount ≡ 0) × (users ≤ calls.old.parts) }
    requires messages { (messages.old.amount ≡ 0) × (users ≤ messages.old.parts) }
    requires octets { (octets.old.amount ≡ 0) × (users ≤ octets.old.parts) }
    requires full { (full.old.amount ≡ 0) × (users ≤ full.old.parts) }
    requires checkpoints { (checkpoints.old.amount ≡ 0) × (users ≤ checkpoints.old.parts) }
    ensures seats { seats.new.items ≡ new_seats User users }
    ensures calls { (calls.new.amount ≡ 0) × (calls.new.parts + users ≡ calls.old.parts) }
    ensures messages { (messages.new.amount ≡ 0)
        × (messages.new.parts + users ≡ messages.old.parts) }
    ensures octets { (octets.new.amount ≡ 0) × (octets.new.parts + users ≡ octets.old.parts) }
    ensures full { (full.new.amount ≡ 0) × (full.new.parts + users ≡ full.old.parts) }
    ensures checkpoints { (checkpoints.new.amount ≡ 0) × (checkpoints.new.parts + users ≡ checkpoints.old.parts) }
{
    let alloc = *seats.allocator();
    for number in 0..users {
        let seat = UserSeat {
            number,
            calls: Stake::cut(calls),
            messages: Stake::cut(messages),
            octets: Stake::cut(octets),
            receipts: History::new(alloc),
            forgotten: NOTHING_FORGOTTEN,
            full: FullMark::cut(full),
            checkpoints: Taken::cut(checkpoints),
            alloc,
        };
        seats.push_reserved(seat);
    }
}

/// Puts the seats of the terminals of the links 0, 1, .. into this room, each with one part of each ledger that it
/// moves.
pub(crate) fn put_terminals<O: Opening, G: Allocator + Copy>(
    seats: &mut Vec<TermSeat<O, G>, G>,
    links: u8,
    calls: &mut Share<Calls<O>>,
    acknowledged: &mut Share<Acknowledged<O>>,
    full: &mut Share<Full<O>>,
    checkpoints: &mut Share<Checkpoints<O>>,
)
    requires room { IsRoom seats.old links }
    requires range { links ≤ 16 }
    requires calls { (calls.old.amount ≡ 0) × (links ≤ calls.old.parts) }
    requires acknowledged { (acknowledged.old.amount ≡ 0) × (links ≤ acknowledged.old.parts) }
    requires full { (full.old.amount ≡ 0) × (links ≤ full.old.parts) }
    requires checkpoints { (checkpoints.old.amount ≡ 0) × (links ≤ checkpoints.old.parts) }
    ensures seats { seats.new.items ≡ new_seats Terminal links }
    ensures calls { (calls.new.amount ≡ 0) × (calls.new.parts + links ≡ calls.old.parts) }
    ensures acknowledged { (acknowledged.new.amount ≡ 0)
        × (acknowledged.new.parts + links ≡ acknowledged.old.parts) }
    ensures full { (full.new.amount ≡ 0) × (full.new.parts + links ≡ full.old.parts) }
    ensures checkpoints { (checkpoints.new.amount ≡ 0) × (checkpoints.new.parts + links ≡ checkpoints.old.parts) }
{
    let alloc = *seats.allocator();
    for link in 0..links {
        let seat = TermSeat {
            link,
            calls: Stake::cut(calls),
            acknowledged: Stake::cut(acknowledged),
            receipts: History::new(alloc),
            forgotten: NOTHING_FORGOTTEN,
            full: FullMark::cut(full),
            checkpoints: Taken::cut(checkpoints),
            alloc,
        };
        seats.push_reserved(seat);
    }
}
