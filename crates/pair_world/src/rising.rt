//! Moves: steps, and what happens where a link comes up at one end alone.
ghost use Rattle.std.specs.Prelude.{◌≡◌};
ghost use Rattle.l2_units.specs.declared.unit.Unit.{Unit as SignalUnit};
ghost use Rattle.pair_rises.specs.Rises.{idle_unit};
ghost use Rattle.set_events.specs.declared.config.Method.{Method};

use super::fault::PlayFault;
use super::world::World;
use l2_units::{Header, Profile, UnitRef};
use pair_rises::Move;
use pair_steps::{End, Showing};
use set_events::{EventRef, SetConfig};
use std::alloc::Allocator;

impl<G: Allocator + Copy> World<G> {
    ghost use Rattle.std.specs.Prelude.{◌≡◌, Bool, true, false, if◌then◌else◌};
    ghost use Rattle.set_model.specs.State.{is_settled};
    ghost use Rattle.pair_model.specs.World.{at_end, has_link};
    ghost use Rattle.pair_streams.specs.Handed.{UsersTakeAll, UsersTakeFirst, UsersTakePart};
    ghost use Rattle.pair_streams.specs.Streams.{AckedAreTaken, PartsArrive, StreamsArrive};
    ghost use Rattle.pair_rises.specs.Counted.{IsCounted};
    ghost use Rattle.pair_rises.specs.Diverted.{MovesChangeOver, OrdersTellAt};
    ghost use Rattle.pair_rises.specs.Handed.{AccountsWhereIdle, HandsOutWhereIdle};
    ghost use Rattle.pair_rises.specs.Kept.{IsHonestRunOfMoves, LinksAreKept};
    ghost use Rattle.pair_rises.specs.Rises.{HoldsAllAlong, HoldsAtEachMove, IsRun, as_seen, comes_up, emptied, fills_line, idle_at, is_first, moved, opening};
    ghost use Rattle.pair_world.specs.Carried.{AreCarriedOut, IsCarriedOut, StaysIfImpossible};
    ghost use Rattle.pair_world.specs.Moved.{ArePlayed, moved_from};

    /// Makes a move in place, and puts what it shows into `shown`, whatever stood there: what the step shows, `Up`
    /// where the link came up at the end, or `Lost` where a fill-in unit joined the line, of which the set knows
    /// nothing. Where a life of the link begins nothing is under way on it then. A move that's impossible leaves the
    /// world as it was; after any other fault neither is to be used again.
    ///
    /// Faults: 2 [`PlayFault::Impossible`], with the place 0, and 3 [`PlayFault::Exhausted`] exactly where the move is:
    /// a rise where the link isn't settled at the end, or else the end's history is full, and a fill never but on a
    /// link that the world hasn't; 1 [`PlayFault::NoMemory`] only where memory was refused to a move that is neither.
    pub fn make_move(&mut self, next: &Move, shown: &mut Showing) -> Result<(), PlayFault>
        ensures carried { IsCarriedOut result (moved self.old next.now) shown.new self.new }
        ensures impossible { StaysIfImpossible result self.old self.new }
    {
        match next {
            Move::Step(step) => self.carry_out(step, shown),
            Move::Rise { end, link } => self.come_up(*end, *link, shown),
            Move::Fill { end, link } => self.fill_line(*end, *link, shown),
        }
    }

    /// The world of these configurations after these moves, one after another.
    ///
    /// Faults: 4 [`PlayFault::Links`] exactly where the configurations differ in links, tested first, then 5
    /// [`PlayFault::Profile`] exactly where they differ in their profile; then 2 [`PlayFault::Impossible`] or 3
    /// [`PlayFault::Exhausted`] exactly where a move is, with the place of the first one, unless memory was refused
    /// before it; 1 [`PlayFault::NoMemory`] only where memory was refused.
    ///
    /// It's proved here of every run in which links come up one after the other (`IsRun`): the ends have one method,
    /// the steps are those of a sound run, or of a quiet one, in which a link may also be left blindly, and
    /// `Together` is two rises; no link comes up at an end in a life that this end has left or missed, and an end
    /// fills the line only of a link that it may yet join. Whichever end comes up first, and whenever the other
    /// follows, if it does, in a sound run each of the 16 streams arrives whole and in order (`StreamsArrive`), and
    /// what users took is the first of what was offered to them (`UsersTakeFirst`); in a quiet run it's an in-order
    /// part of it (`PartsArrive`, `UsersTakePart`). And an end misses a life only by a changeover order that its set
    /// counts as late about that link ([`SetCore::late`]; `IsCounted`). What users took, and then what the inbox
    /// holds, is what they got (`UsersTakeAll`); where nothing is left at either end ([`World::is_idle`]) that's all
    /// that was offered to them (`HandsOutWhereIdle`), but in a quiet run for what was discarded in an emergency
    /// (`AccountsWhereIdle`).
    ///
    /// In a sound run, as [`World::play`] has it of steps: nothing is discarded, and when a link settles at an end
    /// exactly the messages of its present life that the far end didn't accept move to the target, in order, with
    /// what waited and was held behind them (`MovesChangeOver`). In a quiet one too an order that is heard about a
    /// link that hasn't settled tells the number of the last message that its end accepted there (`OrdersTellAt`),
    /// and of each link, settled or not, what counts as acknowledged was accepted (`AckedAreTaken`).
    ///
    /// Of every honest run of such moves (`IsHonestRunOfMoves`), in which a changeover may also be given up, a
    /// changeback go home unacknowledged, and a link come up in a life that its end missed, it's proved that each
    /// link keeps its order and tells no fault in its present life, as [`World::play`] has it of steps
    /// (`LinksAreKept`). It's told of a link as it's seen: to all else, a link that an end hasn't joined is one that
    /// it left at once and in silence, so that end sent and accepted nothing on it.
    ///
    /// [`SetCore::late`]: set_core::SetCore::late
    pub fn play_moves(
        alloc: G,
        a: &SetConfig,
        b: &SetConfig,
        moves: &[Move],
    ) -> Result<World<G>, PlayFault>
        ensures world { ArePlayed result a.now b.now moves.now }
        ensures streams { IsRun false a.now b.now moves.now
            → HoldsAllAlong (λ g. StreamsArrive (as_seen g)) (opening a.now b.now) moves.now }
        ensures parts { IsRun true a.now b.now moves.now
            → HoldsAllAlong (λ g. PartsArrive (as_seen g)) (opening a.now b.now) moves.now }
        ensures first_taken { IsRun false a.now b.now moves.now
            → HoldsAllAlong (λ g. UsersTakeFirst g.stage) (opening a.now b.now) moves.now }
        ensures part_taken { IsRun true a.now b.now moves.now
            → HoldsAllAlong (λ g. UsersTakePart g.stage) (opening a.now b.now) moves.now }
        ensures counted { (emergencies : Bool) → IsRun emergencies a.now b.now moves.now
            → HoldsAtEachMove (λ before move shown after. IsCounted before after) (opening a.now b.now) moves.now }
        ensures keeps { IsHonestRunOfMoves a.now b.now moves.now
            → LinksAreKept (opening a.now b.now) moves.now }
        ensures diverts { IsRun false a.now b.now moves.now
            → MovesChangeOver (opening a.now b.now) moves.now }
        ensures numbers { (emergencies : Bool) → IsRun emergencies a.now b.now moves.now
            → HoldsAtEachMove (λ before move shown after. OrdersTellAt before move shown) (opening a.now b.now) moves.now }
        ensures acks { (emergencies : Bool) → IsRun emergencies a.now b.now moves.now
            → HoldsAllAlong (λ g. AckedAreTaken (as_seen g)) (opening a.now b.now) moves.now }
        ensures handed { IsHonestRunOfMoves a.now b.now moves.now
            → HoldsAllAlong (λ g. UsersTakeAll g.stage) (opening a.now b.now) moves.now }
        ensures idle_handed { IsRun false a.now b.now moves.now
            → HoldsAllAlong HandsOutWhereIdle (opening a.now b.now) moves.now }
        ensures idle_accounted { IsRun true a.now b.now moves.now
            → HoldsAllAlong AccountsWhereIdle (opening a.now b.now) moves.now }
    {
        let mut world = World::new(alloc, a, b)?;
        match world.make_all(moves) {
            Ok(()) => Ok(world),
            Err(fault) => Err(fault),
        }
    }

    /// Makes these moves, one after another; after a fault the world isn't to be used again. Memory is wanted only of a
    /// move that can be made.
    fn make_all(&mut self, moves: &[Move]) -> Result<(), PlayFault>
        ensures { AreCarriedOut result (moved_from 0 self.old moves.now) self.new }
    {
        let mut shown = Showing::new();
        for (place, next) in moves.iter().enumerate() {
            match self.make_move(next, &mut shown) {
                Ok(()) => (),
                Err(fault) => return Err(fault.at(place as u64)),
            }
        }
        Ok(())
    }

    /// The link comes up at this end alone; where it's settled at the other too, nothing is under way on it.
    fn come_up(&mut self, end: End, link: u8, shown: &mut Showing) -> Result<(), PlayFault>
        ensures carried { IsCarriedOut result (comes_up self.old end link) shown.new self.new }
        ensures impossible { StaysIfImpossible result self.old self.new }
    {
        if !self.holds_link(link) || !self.core(end).is_settled(link) {
            return Err(PlayFault::Impossible { place: 0 });
        }
        let first = self.is_first(end, link);
        self.act(end, &EventRef::Up { link }, shown)?;
        self.begin_life(first, link);
        shown.set_up();
        Ok(())
    }

    /// Whether the link is settled at the other end, so that a life of it begins where it comes up at this one.
    fn is_first(&self, end: End, link: u8) -> bool
        ensures { result ≡ is_first self.now end link }
    {
        match end {
            End::A => self.core(End::B).is_settled(link),
            End::B => self.core(End::A).is_settled(link),
        }
    }

    /// Where a life of the link begins nothing is under way on it.
    fn begin_life(&mut self, begins: bool, link: u8)
        requires { has_link self.old link ≡ true }
        ensures { self.new ≡ (if begins then emptied link self.old else self.old) }
    {
        if begins {
            self.to_a.clear(link);
            self.to_b.clear(link);
        }
    }

    /// The header of the FISUs with which this end's terminal fills a line before the end's set has the link up: that of
    /// an end that sent and accepted nothing (Q.703 12.1).
    pub fn fill_head(&self, end: End) -> Header
        ensures { SignalUnit.Fisu result ≡ idle_at self.now end }
    {
        idle_head(self.profile(end))
    }

    /// A FISU of an end that sent and accepted nothing joins the link's line to the other end.
    fn fill_line(&mut self, end: End, link: u8, shown: &mut Showing) -> Result<(), PlayFault>
        ensures carried { IsCarriedOut result (fills_line self.old end link) shown.new self.new }
        ensures impossible { StaysIfImpossible result self.old self.new }
    {
        if !self.holds_link(link) {
            return Err(PlayFault::Impossible { place: 0 });
        }
        let unit = UnitRef::Fisu {
            head: self.fill_head(end),
        };
        match end {
            End::A => self.to_b.join(link, &unit)?,
            End::B => self.to_a.join(link, &unit)?,
        }
        shown.set_lost();
        Ok(())
    }

    /// The profile of the units that this end sends.
    fn profile(&self, end: End) -> Profile
        ensures { result ≡ (at_end self.now end).state.settings.profile }
    {
        let set = self.core(end);
        set.replays();
        set.config().profile()
    }
}

/// The header of a FISU of an end that sent and accepted nothing: both numbers are that before 0, both indicator bits 1
/// (Q.703 5.2.1).
fn idle_head(profile: Profile) -> Header
    ensures { (method : Method) → SignalUnit.Fisu result ≡ idle_unit profile method }
{
    let before_first = profile.fsn_count() - 1;
    Header {
        bsn: before_first,
        bib: true,
        fsn: before_first,
        fib: true,
    }
}
