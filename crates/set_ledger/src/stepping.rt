//! How a seat makes a step, and forgets some. This module is private, so no other crate has a seat of its own.
ghost use Rattle.std.specs.Prelude.{◌≡◌, ◌≤◌, IfErr, OnOk, OnErr};
ghost use Rattle.set_events.specs.Lent.{HasFitUnit, event_in};
ghost use Rattle.set_events.specs.Owners.{IsOwn};
ghost use Rattle.set_model.specs.History.{IsStep, based, entries_in, longest_history};
ghost use Rattle.set_ledger.specs.Seats.{Receives, AcknowledgesAs, Forgets, one_checkpoint_more, refused};
ghost use Rattle.set_ledger.specs.Totals.{IsPartOf};

use super::held::Held;
use super::opening::Opening;
use set_core::SetFault;
use set_events::{EventRef, Reply};
use std::alloc::{AllocError, Allocator};

/// What makes steps at a set, and has a receipt for each, but for the first ones, which it forgot.
pub trait Step<O: Opening> {
    ghost use Rattle.set_ledger.specs.Seats.{SeatState};

    /// What contracts see of it.
    ghost state: { Self → SeatState };

    /// Makes room for the receipt of a step by this event.
    fn reserve(&mut self, event: &EventRef<'_>) -> Result<(), AllocError>
        ensures { state self.new ≡ state self.old };

    /// `step_in`.
    fn step<G: Allocator + Copy>(
        &mut self,
        held: &mut Held<O, G>,
        event: &EventRef<'_>,
        reply: &mut Reply,
    ) -> Result<(), SetFault>
        requires own { IsOwn (state self.old).who (event_in event.now) }
        requires fits { HasFitUnit event.now }
        ensures step { OnOk result
            (IsStep held.old.set (state self.old).who (event_in event.now) reply.new held.new.set) }
        ensures receipt { OnOk result
            (Receives (state self.old) (event_in event.now) reply.new (state self.new)) }
        ensures acknowledged { OnOk result
            (AcknowledgesAs held.old.set held.new.set (state self.old).share
            (state self.new).share) }
        ensures seats { (held.new.users ≡ held.old.users) × (held.new.links ≡ held.old.links) }
        ensures exhausted { result ≡ Err SetFault.Exhausted
            → longest_history ≤ entries_in held.old.set }
        ensures err { IfErr result (λ fault. (held.new ≡ held.old) × (state self.new ≡ refused fault (state self.old))) };

    /// `Held::checkpoint`.
    fn checkpoint<G: Allocator + Copy>(&mut self, held: &mut Held<O, G>) -> Result<(), SetFault>
        ensures set { OnOk result (held.new.set ≡ based held.old.set) }
        ensures totals { held.new.totals ≡ held.old.totals }
        ensures seats { (held.new.users ≡ held.old.users) × (held.new.links ≡ held.old.links) }
        ensures taken { OnOk result (state self.new ≡ one_checkpoint_more (state self.old)) }
        ensures err { OnErr result ((held.new ≡ held.old) × (state self.new ≡ state self.old)) }
        ensures fault { IfErr result (λ fault. fault ≡ SetFault.NoMemory) };

    /// What it has is a part of the totals.
    fn audit<G: Allocator + Copy>(&mut self, held: &mut Held<O, G>)
        ensures part { IsPartOf (state self.old).share held.old.totals }
        ensures same { (held.new ≡ held.old) × (state self.new ≡ state self.old) };

    /// The first so many receipts are forgotten, or all, where there are fewer. It fails only where memory is wanted.
    fn forget(&mut self, many: u64) -> Result<(), AllocError>
        ensures forgets { OnOk result (Forgets many (state self.old) (state self.new)) }
        ensures err { OnErr result (state self.new ≡ state self.old) };
}
