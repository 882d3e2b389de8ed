//! What stands under the lock of a set: the set, and the books of its ledgers.
ghost use Rattle.std.specs.Prelude.{◌≡◌, ◌<◌, ◌≤◌, ◌↔◌, ◌⊎◌, IfOk, IfErr, OnOk, OnErr};
ghost use Rattle.set_events.specs.declared.event.Actor.TheVariants.{User, Terminal};
ghost use Rattle.set_model.specs.Checkpoint.{counts_in};
ghost use Rattle.set_model.specs.History.{based, new_set};
ghost use Rattle.set_model.specs.State.{settings_of};
ghost use Rattle.set_ledger.specs.Openings.{IsBaseBehind, IsSetOf};
ghost use Rattle.set_ledger.specs.Seats.{new_seats, no_share, one_checkpoint_more};
ghost use Rattle.set_ledger.specs.Totals.{AreTotals, AreParts, IsRoom, StandsIn};

use super::opening::{Acknowledged, Calls, Checkpoints, Full, Messages, Octets, Opening};
use super::seat::{Seat, TermSeat, UserSeat, put_terminals, put_users};
use super::share::{Blanks, SeatShare};
use set_core::{SetCore, SetFault};
use set_events::{Counts, SetConfig};
use std::alloc::{AllocFailed, Allocator, Global};
use std::marker::Model;
use std::sync::ledger::{Book, Share};
use thiserror::Error;

/// The most users of a set.
pub const MOST_USERS: u16 = 64;

/// A set with the books of its ledgers. Contracts see how many users and links have a seat, the books' totals, and the set.
///
/// Of every value it holds that the totals are what the set's history adds up to since its opening ([`Held::totals`]), and
/// that legal histories lead to its base from what its type says that it was opened with ([`Held::replays`]). Where the ledger
/// of a full history has an amount its history is full.
#[derive(Drop)]
pub struct Held<O: Opening, G: Allocator = Global> {
    pub(crate) core: SetCore<G>,
    pub(crate) users: u16,
    pub(crate) links: u8,
    pub(crate) calls: Book<Calls<O>>,
    pub(crate) messages: Book<Messages<O>>,
    pub(crate) octets: Book<Octets<O>>,
    pub(crate) acknowledged: Book<Acknowledged<O>>,
    pub(crate) full: Book<Full<O>>,
    pub(crate) checkpoints: Book<Checkpoints<O>>,
    pub(crate) rest: Rest<O>,
}

impl<O: Opening, G: Allocator> Model for Held<O, G> {
    ghost use Rattle.set_ledger.specs.Totals.{HeldState};

    ghost Value = { HeldState };

    ghost use Rattle.std.specs.Prelude.{◌≡◌};
    ghost use Rattle.set_ledger.specs.Openings.{IsBaseBehind};
    ghost use Rattle.set_ledger.specs.Totals.{AreTotals, AreParts, TellsFull, totals_of};

    ghost view = { λ h. record {
      users = h.users;
      links = h.links;
      totals = totals_of
          h.calls.total h.messages.total h.octets.total h.acknowledged.total;
      set = h.core;
    } };

    ghost invariant = { λ h. AreTotals (totals_of
        h.calls.total h.messages.total h.octets.total h.acknowledged.total) h.core
        × AreParts O.blanks h.users h.links
        × IsBaseBehind O.settings h.checkpoints.total h.core.base
        × TellsFull h.full.total h.core };
}

/// What is left of the ledgers once each seat has its parts: none, and no amount.
#[derive(Drop)]
pub(crate) struct Rest<O: Opening> {
    pub(crate) calls: Share<Calls<O>>,
    pub(crate) messages: Share<Messages<O>>,
    pub(crate) octets: Share<Octets<O>>,
    pub(crate) acknowledged: Share<Acknowledged<O>>,
    pub(crate) full: Share<Full<O>>,
    pub(crate) checkpoints: Share<Checkpoints<O>>,
    pub(crate) ghost no_parts: { (calls.parts ≡ 0) × (messages.parts ≡ 0)
        × (octets.parts ≡ 0) × (acknowledged.parts ≡ 0) × (full.parts ≡ 0) × (checkpoints.parts ≡ 0) },
    pub(crate) ghost no_amount: { (calls.amount ≡ 0) × (messages.amount ≡ 0)
        × (octets.amount ≡ 0) × (acknowledged.amount ≡ 0) × (full.amount ≡ 0) × (checkpoints.amount ≡ 0) },
}

/// Why a set can't be opened. The blanks are given up.
#[derive(Clone, Copy, Debug, Drop, PartialEq, Eq, Error)]
pub enum CreateFault {
    /// 1: memory is wanted.
    #[error("out of memory")]
    NoMemory = 1,
    /// 2: no user, or more than 64. It's tested first.
    #[error("a set has 1 to 64 users")]
    Users = 2,
}

/// A set that was opened, and its seats.
#[derive(Drop)]
pub struct Opened<O: Opening, G: Allocator = Global> {
    /// The set.
    pub held: Held<O, G>,
    /// A seat for each user, 0, 1, ..
    pub users: Vec<UserSeat<O, G>, G>,
    /// A seat for the terminal of each link, 0, 1, ..
    pub terminals: Vec<TermSeat<O, G>, G>,
}

impl<O: Opening, G: Allocator + Copy> Held<O, G> {
    /// Opens a set as this configuration has it, for so many users: the set, a seat for each user, and one for
    /// the terminal of each link. From nothing the totals and the shares are 0. The configuration's settings are those
    /// that the type tells.
    ///
    /// Faults: 2 [`CreateFault::Users`] exactly where there is no user or more than 64, tested first;
    /// 1 [`CreateFault::NoMemory`] only where memory was refused.
    pub fn open(
        alloc: G,
        config: &SetConfig,
        users: u16,
        blanks: Blanks,
    ) -> Result<Opened<O, G>, CreateFault>
        requires blanks { (0 < users) × (users ≤ 64) → blanks ≡ O.blanks }
        requires parts { (0 < users) × (users ≤ 64) → AreParts O.blanks users config.now.links }
        requires opening { (0 < users) × (users ≤ 64) → settings_of config.now ≡ O.settings }
        ensures held { IfOk result (λ opened. opened.held ≡ record {
          users = users;
          links = config.now.links;
          totals = no_share;
          set = new_set config.now;
        }) }
        ensures users { IfOk result (λ opened. opened.users.items ≡ new_seats User users) }
        ensures terminals { IfOk result
            (λ opened. opened.terminals.items ≡ new_seats Terminal config.now.links) }
        ensures range { (result ≡ Err CreateFault.Users) ↔ ((users ≡ 0) ⊎ (64 < users)) }
    {
        if users == 0 || users > MOST_USERS {
            return Err(CreateFault::Users);
        }
        let (core, user_seats, term_seats) = room_for(alloc, config, users)?;
        Ok(with_seats(core, users, config.links, blanks, user_seats, term_seats))
    }

    /// The set.
    pub fn core(&self) -> &SetCore<G>
        ensures { result.now ≡ self.now.set }
    {
        &self.core
    }

    /// What the books of the set's ledgers say: whenever the set is lent, that is what its history adds up to, and what
    /// [`SetCore::books`] tells.
    pub fn totals(&self) -> SeatShare
        ensures value { result ≡ self.now.totals }
        ensures adds_up { AreTotals result self.now.set }
    {
        let books = self.core.books();
        SeatShare {
            calls: self.core.entries(),
            messages: books.messages,
            octets: books.octets,
            acknowledged: books.acknowledged,
        }
    }

    /// A checkpoint, as of [`SetCore::checkpoint`], which this seat takes: what the set holds becomes its base, and its history
    /// begins anew. The totals stay, and so do the receipts: it's no step. The seat has taken one more: how many there were is at
    /// a set's end what its seats took ([`Held::end`]).
    ///
    /// Fault: 1 [`SetFault::NoMemory`], only where memory was refused; all is then as it was.
    pub fn checkpoint<S: Seat<O>>(&mut self, seat: &mut S) -> Result<(), SetFault>
        ensures set { OnOk result (self.new.set ≡ based self.old.set) }
        ensures totals { self.new.totals ≡ self.old.totals }
        ensures seats { (self.new.users ≡ self.old.users) × (self.new.links ≡ self.old.links) }
        ensures taken { OnOk result (S.state seat.new ≡ one_checkpoint_more (S.state seat.old)) }
        ensures err { OnErr result ((self.new ≡ self.old) × (S.state seat.new ≡ S.state seat.old)) }
        ensures fault { IfErr result (λ fault. fault ≡ SetFault.NoMemory) }
    {
        seat.checkpoint(self)
    }

    /// How many messages of users stand in each place, or ended there. What a seat's own steps brought is among them; seat and set
    /// stay as they are.
    pub fn counts_at<S: Seat<O>>(&mut self, seat: &mut S) -> Counts
        ensures value { result ≡ counts_in self.old.set.state }
        ensures part { StandsIn (S.state seat.old).share result }
        ensures same { (self.new ≡ self.old) × (S.state seat.new ≡ S.state seat.old) }
    {
        self.core.replays();
        seat.audit(self);
        self.core.counts()
    }

    /// A law: whenever the set is lent, it's one of the settings that its type tells: legal histories, with a checkpoint
    /// after each, lead from their opening to its base, and its history to what it holds.
    pub fn replays(&self)
        ensures { IsSetOf O.settings self.now.set }
    {
        self.core.replays();
    }

    /// How many users have a seat.
    pub fn users(&self) -> u16
        ensures value { result ≡ self.now.users }
        ensures parts { result ≡ O.blanks.messages.parts }
    {
        self.users
    }

    /// How many links' terminals have a seat.
    pub fn links(&self) -> u8
        ensures value { result ≡ self.now.links }
        ensures parts { result ≡ O.blanks.acknowledged.parts }
    {
        self.links
    }
}

/// A new set, and room for its seats.
fn room_for<O: Opening, G: Allocator + Copy>(
    alloc: G,
    config: &SetConfig,
    users: u16,
) -> Result<(SetCore<G>, Vec<UserSeat<O, G>, G>, Vec<TermSeat<O, G>, G>), SetFault>
    ensures core { IfOk result (λ room. room.0 ≡ new_set config.now) }
    ensures users { IfOk result (λ room. IsRoom room.1 users) }
    ensures terminals { IfOk result (λ room. IsRoom room.2 config.now.links) }
{
    let user_seats = Vec::with_capacity(alloc, usize::from(users))?;
    let term_seats = Vec::with_capacity(alloc, usize::from(config.links))?;
    let core = SetCore::new(alloc, config)?;
    Ok((core, user_seats, term_seats))
}

/// A new set with its seats, for which there is room.
fn with_seats<O: Opening, G: Allocator + Copy>(
    core: SetCore<G>,
    users: u16,
    links: u8,
    blanks: Blanks,
    user_seats: Vec<UserSeat<O, G>, G>,
    term_seats: Vec<TermSeat<O, G>, G>,
) -> Opened<O, G>
    requires few { (users ≤ 64) × (links ≤ 16) }
    requires new { AreTotals no_share core }
    requires opening { IsBaseBehind O.settings 0 core.base }
    requires blanks { blanks ≡ O.blanks }
    requires parts { AreParts O.blanks users links }
    requires user_room { IsRoom user_seats users }
    requires term_room { IsRoom term_seats links }
    ensures held { result.held ≡ record { users = users; links = links; totals = no_share; set = core } }
    ensures users { result.users.items ≡ new_seats User users }
    ensures terminals { result.terminals.items ≡ new_seats Terminal links }
{
    let (call_book, mut calls) = blanks.calls.open::<Calls<O>>();
    let (message_book, mut messages) = blanks.messages.open::<Messages<O>>();
    let (octet_book, mut octets) = blanks.octets.open::<Octets<O>>();
    let (acked_book, mut acknowledged) = blanks.acknowledged.open::<Acknowledged<O>>();
    let (full_book, mut full) = blanks.full.open::<Full<O>>();
    let (checkpoint_book, mut checkpoints) = blanks.checkpoints.open::<Checkpoints<O>>();
    let mut user_seats = user_seats;
    put_users(
        &mut user_seats,
        users,
        &mut calls,
        &mut messages,
        &mut octets,
        &mut full,
        &mut checkpoints,
    );
    let mut term_seats = term_seats;
    put_terminals(
        &mut term_seats,
        links,
        &mut calls,
        &mut acknowledged,
        &mut full,
        &mut checkpoints,
    );
    let rest = Rest {
        calls,
        messages,
        octets,
        acknowledged,
        full,
        checkpoints,
    };
    Opened {
        held: Held {
            core,
            users,
            links,
            calls: call_book,
            messages: message_book,
            octets: octet_book,
            acknowledged: acked_book,
            full: full_book,
            checkpoints: checkpoint_book,
            rest,
        },
        users: user_seats,
        terminals: term_seats,
    }
}

impl CreateFault {
    ghost use Rattle.std.specs.Prelude.{◌≡◌};
    ghost use Rattle.set_ledger.specs.Numbers.{create_fault_number};

    /// The fault's number: 1 memory is wanted, 2 no user or too many.
    pub fn number(self) -> u8
        ensures { result ≡ create_fault_number self }
    {
        self as u8
    }
}

impl From<SetFault> for CreateFault {
    ghost use Rattle.std.specs.Prelude.{◌≡◌};
    ghost use Rattle.set_ledger.specs.declared.held.CreateFault.TheVariants.{NoMemory};

    ghost from_gives = { λ _ fault. fault ≡ NoMemory };

    fn from(_fault: SetFault) -> CreateFault {
        CreateFault::NoMemory
    }
}

impl<T: Drop> From<AllocFailed<T>> for CreateFault {
    ghost use Rattle.std.specs.Prelude.{◌≡◌};
    ghost use Rattle.set_ledger.specs.declared.held.CreateFault.TheVariants.{NoMemory};

    ghost from_gives = { λ _ fault. fault ≡ NoMemory };

    fn from(_error: AllocFailed<T>) -> CreateFault {
        CreateFault::NoMemory
    }
}
