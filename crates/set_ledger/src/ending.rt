//! The end of a set: all its seats are back, and their receipts are held against its base and its history.
ghost use Rattle.std.specs.Prelude.{◌≡◌, ◌↔◌, true, IsTrue, IfOk, IfErr, OnOk, OnErr, if◌then◌else◌};
ghost use Rattle.set_model.specs.State.{settings_of};
ghost use Rattle.set_ledger.specs.Ending.{
  is_complete,
  checkpoints_by,
  AreFaithful,
  IsClosed,
  IsMerged,
  IsMergedFull,
};
ghost use Rattle.set_ledger.specs.Openings.{IsBaseBehind};

use super::checking::{are_faithful, are_terminals, are_users};
use super::held::{Held, Rest};
use super::opening::{Acknowledged, Calls, Checkpoints, Full, Messages, Octets, Opening};
use super::seat::{TermSeat, UserSeat};
use set_core::Base;
use set_events::{Books, Counts, SetConfig};
use set_history::History;
use std::sync::ledger::Share;

/// A set that came to its end, with its totals.
#[derive(Drop)]
pub struct Closed {
    /// What the set was opened with.
    pub config: SetConfig,
    /// What the history replays from: the opening, or the last checkpoint.
    pub base: Base,
    /// All that was asked and answered since, in order.
    pub history: History,
    /// What all that was asked and answered from the opening on adds up to.
    pub books: Books,
    /// How many messages stand in each place.
    pub counts: Counts,
}

/// A set that didn't come to its end, and the seats that were handed in.
#[derive(Drop)]
pub struct Back<O: Opening> {
    pub held: Held<O>,
    pub users: Vec<UserSeat<O>>,
    pub terminals: Vec<TermSeat<O>>,
}

/// Why a set can't end. It is handed back with all seats.
#[derive(Drop)]
pub enum EndFault<O: Opening> {
    /// 1: a seat of the set isn't there. It's tested first.
    Missing(Back<O>),
    /// 2: the receipts of a seat don't end with its entries of the history, or aren't, with those that it forgot, as many
    /// as its calls.
    Strange(Back<O>),
}

impl<O: Opening> EndFault<O> {
    /// The fault's number: 1 a seat is missing, 2 its receipts are strange.
    pub fn number(&self) -> u8
        ensures missing { (back : _) → self.now ≡ EndFault.Missing back → result ≡ 1 }
        ensures strange { (back : _) → self.now ≡ EndFault.Strange back → result ≡ 2 }
    {
        match self {
            EndFault::Missing(_) => 1,
            EndFault::Strange(_) => 2,
        }
    }
}

impl<O: Opening> Held<O> {
    /// Ends a set with all its seats: the history is legal from its base, each seat's receipts end with its entries in
    /// order, and the totals are the sums of the shares. Where a seat was told of a full history it has 2^48 entries. The
    /// configuration is that which the set was opened with, by the settings of its type, and the base is one that legal
    /// histories lead to from there, as many as these seats took checkpoints. It takes no memory.
    ///
    /// Faults, which hand back the set and the seats: 1 [`EndFault::Missing`] exactly where there isn't one seat for
    /// each user and each link of the set and no other; else 2 [`EndFault::Strange`] exactly where the receipts of a
    /// seat don't end with its entries since the base, or what stands before those, with what it forgot, isn't as many
    /// as its calls before the base.
    pub fn end(
        self,
        users: Vec<UserSeat<O>>,
        terminals: Vec<TermSeat<O>>,
    ) -> Result<Closed, EndFault<O>>
        ensures complete { OnOk result
            (is_complete self.users self.links users.items terminals.items ≡ true) }
        ensures closed { IfOk result (λ closed.
            IsClosed users.items terminals.items closed.base closed.history.items
            closed.books closed.counts) }
        ensures base { IfOk result (λ closed. closed.base ≡ self.set.base) }
        ensures opened { IfOk result (λ closed.
            IsBaseBehind O.settings (checkpoints_by users.items terminals.items) closed.base) }
        ensures opening { IfOk result (λ closed. settings_of closed.config ≡ O.settings) }
        ensures history { IfOk result (λ closed. closed.history.items ≡ self.set.history) }
        ensures back { IfErr result (λ fault. fault ≡
            (if is_complete self.users self.links users.items terminals.items
            then EndFault.Strange else EndFault.Missing)
            (record { held = self; users = users; terminals = terminals })) }
        ensures strange { OnErr result
            (is_complete self.users self.links users.items terminals.items ≡ true
            → AreFaithful self.set.base.books self.set.history users.items terminals.items → ⊥) }
    {
        if !self.has_all_seats(&users, &terminals) {
            return Err(EndFault::Missing(Back {
                held: self,
                users,
                terminals,
            }));
        }
        if !self.are_faithful(&users, &terminals) {
            return Err(EndFault::Strange(Back {
                held: self,
                users,
                terminals,
            }));
        }
        Ok(self.closed(users, terminals))
    }

    /// Whether there is one seat for each user and each link of the set, and no other.
    fn has_all_seats(&self, users: &[UserSeat<O>], terminals: &[TermSeat<O>]) -> bool
        ensures { result ≡ is_complete self.now.users self.now.links users.now terminals.now }
    {
        are_users(users, self.users) && are_terminals(terminals, self.links)
    }

    /// Whether the receipts of each seat end with its entries of the history, in order.
    fn are_faithful(&self, users: &[UserSeat<O>], terminals: &[TermSeat<O>]) -> bool
        ensures { IsTrue result
            ↔ AreFaithful self.now.set.base.books self.now.set.history users.now terminals.now }
    {
        let books = self.core.base().books();
        let history = self.core.history();
        are_faithful::<O, UserSeat<O>>(&books, &history, users)
            && are_faithful::<O, TermSeat<O>>(&books, &history, terminals)
    }

    /// The end of a set whose seats are all there.
    fn closed(self, users: Vec<UserSeat<O>>, terminals: Vec<TermSeat<O>>) -> Closed
        requires complete { is_complete self.users self.links users.items terminals.items ≡ true }
        requires faithful { AreFaithful self.set.base.books self.set.history users.items terminals.items }
        ensures closed { IsClosed users.items terminals.items result.base
            result.history.items result.books result.counts }
        ensures base { result.base ≡ self.set.base }
        ensures opened { IsBaseBehind O.settings (checkpoints_by users.items terminals.items) result.base }
        ensures opening { settings_of result.config ≡ O.settings }
        ensures history { result.history.items ≡ self.set.history }
    {
        self.core.replays();
        let config = *self.core.config();
        let books = self.core.books();
        let counts = self.core.counts();
        let Held {
            core,
            users: _,
            links: _,
            calls: mut call_book,
            messages: mut message_book,
            octets: mut octet_book,
            acknowledged: mut acked_book,
            full: mut full_book,
            checkpoints: mut checkpoint_book,
            rest,
        } = self;
        let Rest {
            mut calls,
            mut messages,
            mut octets,
            mut acknowledged,
            mut full,
            mut checkpoints,
        } = rest;
        merge_users(
            users,
            &mut calls,
            &mut messages,
            &mut octets,
            &mut full,
            &mut checkpoints,
        );
        merge_terminals(
            terminals,
            &mut calls,
            &mut acknowledged,
            &mut full,
            &mut checkpoints,
        );
        call_book.audit(&mut calls);
        message_book.audit(&mut messages);
        octet_book.audit(&mut octets);
        acked_book.audit(&mut acknowledged);
        full_book.audit(&mut full);
        checkpoint_book.audit(&mut checkpoints);
        let (base, history) = core.into_base_and_history();
        Closed {
            config,
            base,
            history,
            books,
            counts,
        }
    }
}

/// Takes the users' seats apart: their parts of the ledgers, together.
fn merge_users<O: Opening>(
    seats: Vec<UserSeat<O>>,
    calls: &mut Share<Calls<O>>,
    messages: &mut Share<Messages<O>>,
    octets: &mut Share<Octets<O>>,
    full: &mut Share<Full<O>>,
    checkpoints: &mut Share<Checkpoints<O>>,
)
    ensures calls { IsMerged (λ seat. seat.share.calls) seats.items
        calls.old.parts calls.old.amount calls.new.parts calls.new.amount }
    ensures messages { IsMerged (λ seat. seat.share.messages) seats.items
        messages.old.parts messages.old.amount messages.new.parts messages.new.amount }
    ensures octets { IsMerged (λ seat. seat.share.octets) seats.items
        octets.old.parts octets.old.amount octets.new.parts octets.new.amount }
    ensures full { IsMergedFull seats.items full.old.parts full.old.amount full.new.parts full.new.amount }
    ensures checkpoints { IsMerged (λ seat. seat.checkpoints) seats.items checkpoints.old.parts
        checkpoints.old.amount checkpoints.new.parts checkpoints.new.amount }
{
    for seat in seats {
        seat.give_back(calls, messages, octets, full, checkpoints);
    }
}

/// Takes the terminals' seats apart: their parts of the ledgers, together.
fn merge_terminals<O: Opening>(
    seats: Vec<TermSeat<O>>,
    calls: &mut Share<Calls<O>>,
    acknowledged: &mut Share<Acknowledged<O>>,
    full: &mut Share<Full<O>>,
    checkpoints: &mut Share<Checkpoints<O>>,
)
    ensures calls { IsMerged (λ seat. seat.share.calls) seats.items
        calls.old.parts calls.old.amount calls.new.parts calls.new.amount }
    ensures acknowledged { IsMerged
        (λ seat. seat.share.acknowledged) seats.items acknowledged.old.parts acknowledged.old.amount
        acknowledged.new.parts acknowledged.new.amount }
    ensures full { IsMergedFull seats.items full.old.parts full.old.amount full.new.parts full.new.amount }
    ensures checkpoints { IsMerged (λ seat. seat.checkpoints) seats.items checkpoints.old.parts
        checkpoints.old.amount checkpoints.new.parts checkpoints.new.amount }
{
    for seat in seats {
        seat.give_back(calls, acknowledged, full, checkpoints);
    }
}
