//! The bench, with the management of each link.
ghost use Rattle.std.specs.Prelude.{◌≡◌};

use super::carrying::carry_all;
use super::fault::ManageFault;
use super::kept::{Kept, all_fresh, is_on};
use super::seeing::{goes_out, has_heard, level2_of, phase_seen};
use super::turn::{Deed, ManagedTurn};
use l3_link::{Seen, Times};
use link_term::{Command, Tap, TermFault, Timers};
use set_events::{Actor, Answer, Event, Refusal, SetConfig, SetFault};
use std::alloc::Global;
use std::marker::Model;
use term_bench::{Bench, LinkWord, Phase, Turn};

/// One end of a set of links, and the management of each link.
#[derive(Drop)]
pub struct ManagedBench {
    bench: Bench,
    kept: Vec<Kept>,
}

impl Model for ManagedBench {
    ghost use Rattle.term_managed.specs.Ends.{ManagedState};

    ghost Value = { ManagedState };

    ghost use Rattle.std.specs.Prelude.{◌≡◌, ◌≤◌, length};

    ghost view = { λ b. record { bench = b.bench; kept = b.kept.items } };

    ghost invariant = { λ b. (length b.kept.items ≡ length b.bench.links) × (length b.bench.links ≤ 16) };
}

impl ManagedBench {
    ghost use Rattle.std.specs.Prelude.{◌≡◌, ◌<◌, ◌≤◌, ◌↔◌, ◌∷◌, [], Option, length, slice_get, true, false, IfErr, IfOk, OnErr, OnOk};
    ghost use Rattle.l2_bits.specs.LineBits.{bits_of};
    ghost use Rattle.l2_units.specs.declared.unit.Unit.{Unit as SignalUnit};
    ghost use Rattle.link_term.specs.Faults.{fault_of};
    ghost use Rattle.link_term.specs.Filling.{Taps};
    ghost use Rattle.set_events.specs.declared.fault.SetFault.{SetFault as Told};
    ghost use Rattle.set_model.specs.History.{IsActor, IsStep, based, entries_in, longest_history};
    ghost use Rattle.set_events.specs.declared.answer.Refusal.TheVariants.{Unsettled};
    ghost use Rattle.term_bench.specs.Ends.{Commands, is_start, phase_of};
    ghost use Rattle.term_bench.specs.declared.word.Phase.TheVariants.{Left};
    ghost use Rattle.term_managed.specs.Ends.{all_fresh, any_other, carries, gives_hope, gone_out, is_on, new_managed, noted, seen_at, word_at};
    ghost use Rattle.term_managed.specs.Turns.{Activates, Deactivates, Hears, HearsBit, HearsBroken, Manages, ManagesSome, NotActivated, NotDeactivated};
    ghost use Rattle.term_managed.specs.declared.fault.ManageFault.TheVariants.{AlreadySo};

    /// A bench whose set is opened with this configuration, with timers of these lengths in octet times (Q.703 12.3),
    /// and whose links level 3 doesn't manage yet; `times` are its own, in turns.
    ///
    /// Fault: 1 [`SetFault::NoMemory`], only where memory was refused.
    pub fn new(
        alloc: Global,
        config: &SetConfig,
        lengths: Timers,
        times: Times,
    ) -> Result<ManagedBench, SetFault>
        ensures ok { IfOk result (λ bench. bench ≡ new_managed config.now lengths times) }
        ensures fault { IfErr result (λ fault. fault ≡ SetFault.NoMemory) }
    {
        let kept = all_fresh(alloc, config.links, times)?;
        let bench = Bench::new(alloc, config, lengths)?;
        Ok(ManagedBench { bench, kept })
    }

    /// The bench: its links, how they stand, and its set.
    pub fn bench(&self) -> &Bench
        ensures bench { result.now ≡ self.now.bench }
        ensures few { length self.now.bench.links ≤ 16 }
    {
        &self.bench
    }

    /// Level 3 has these times from now on, and manages no link.
    ///
    /// Fault: 1 [`SetFault::NoMemory`], only where memory was refused; the end is then as it was.
    pub fn set_times(&mut self, alloc: Global, times: Times) -> Result<(), SetFault>
        ensures ok { OnOk result (self.new ≡ record self.old { kept = all_fresh times (length self.old.bench.links) }) }
        ensures err { OnErr result (self.new ≡ self.old) }
        ensures fault { IfErr result (λ fault. fault ≡ SetFault.NoMemory) }
    {
        self.kept = all_fresh(alloc, self.bench.links(), times)?;
        Ok(())
    }

    /// Whether level 3 manages this link.
    pub fn is_activated(&self, link: u8) -> bool
        requires { link < length self.now.bench.links }
        ensures { result ≡ is_on (slice_get self.now.kept link) }
    {
        is_on(&self.kept[usize::from(link)])
    }

    /// A command to the terminal of this link ([`Bench::command`]).
    ///
    /// Refusal: 7 [`Refusal::Unsettled`] where it's Start or Emergency and the set has left the link and not settled it;
    /// nothing is done then.
    pub fn command(&mut self, link: u8, command: Command) -> Result<(), Refusal>
        requires { link < length self.old.bench.links }
        ensures ok { OnOk result (Commands link command self.old.bench self.new.bench) }
        ensures refused { is_start command ≡ true → phase_of link self.old.bench.set.state ≡ Left
            → result ≡ Err Unsettled }
        ensures err { IfErr result (λ why. (why ≡ Unsettled) × (is_start command ≡ true)
            × (phase_of link self.old.bench.set.state ≡ Left) × (self.new ≡ self.old)) }
        ensures kept { self.new.kept ≡ self.old.kept }
    {
        self.bench.command(link, command)
    }

    /// What the set answers to this event of this actor, at once ([`Bench::ask`]). Faults: those of [`Bench::ask`]; the
    /// end is then as it was.
    pub fn ask(&mut self, who: Actor, event: &Event) -> Result<Answer, SetFault>
        requires { IsActor who }
        ensures ok { IfOk result (λ answer. IsStep self.old.bench.set who event.now answer self.new.bench.set) }
        ensures exhausted { (result ≡ Err SetFault.Exhausted) ↔ (longest_history ≤ entries_in self.old.bench.set) }
        ensures links { self.new.bench.links ≡ self.old.bench.links }
        ensures kept { self.new.kept ≡ self.old.kept }
        ensures err { OnErr result (self.new ≡ self.old) }
    {
        self.bench.ask(who, event)
    }

    /// A checkpoint of the set ([`Bench::checkpoint`]).
    ///
    /// Fault: 1 [`SetFault::NoMemory`], only where memory was refused; the end is then as it was.
    pub fn checkpoint(&mut self) -> Result<(), SetFault>
        ensures ok { OnOk result (self.new.bench.set ≡ based self.old.bench.set) }
        ensures links { self.new.bench.links ≡ self.old.bench.links }
        ensures kept { self.new.kept ≡ self.old.kept }
        ensures err { OnErr result (self.new ≡ self.old) }
        ensures fault { IfErr result (λ fault. fault ≡ SetFault.NoMemory) }
    {
        self.bench.checkpoint()
    }

    /// Level 3 manages this link from now on (Q.704 12.2): what it asked, the first one first.
    ///
    /// Refusal: 9 [`ManageFault::AlreadySo`] where it's so already; nothing is done then. Faults: 1
    /// [`SetFault::NoMemory`], and 2 [`SetFault::Exhausted`] only where the set's history is full: what was asked before
    /// was carried out.
    pub fn activate(&mut self, link: u8) -> Result<Vec<Deed>, ManageFault>
        requires { link < length self.old.bench.links }
        ensures asks { IfOk result (λ deeds. Activates link self.old deeds.items self.new) }
        ensures refused { (result ≡ Err AlreadySo) ↔ (is_on (slice_get self.old.kept link) ≡ true) }
        ensures err { IfErr result (λ fault. NotActivated link fault self.old self.new) }
        ensures links { length self.new.bench.links ≡ length self.old.bench.links }
    {
        let seen = self.seen(link);
        let alloc = *self.kept.allocator();
        let kept = &mut self.kept[usize::from(link)];
        let asked = kept.management.activate(seen)?;
        Ok(carry_all(alloc, &mut self.bench, &mut kept.management, link, asked)?)
    }

    /// Level 3 manages this link no more: what it asked, that its terminal stops.
    ///
    /// Refusal: 9 [`ManageFault::AlreadySo`] where it's so already; nothing is done then. Faults: those of
    /// [`ManagedBench::activate`].
    pub fn deactivate(&mut self, link: u8) -> Result<Vec<Deed>, ManageFault>
        requires { link < length self.old.bench.links }
        ensures asks { IfOk result (λ deeds. Deactivates link self.old deeds.items self.new) }
        ensures refused { (result ≡ Err AlreadySo) ↔ (is_on (slice_get self.old.kept link) ≡ false) }
        ensures err { IfErr result (λ fault. NotDeactivated link fault self.old self.new) }
        ensures links { length self.new.bench.links ≡ length self.old.bench.links }
    {
        let alloc = *self.kept.allocator();
        let kept = &mut self.kept[usize::from(link)];
        let asked = kept.management.deactivate()?;
        Ok(carry_all(
            alloc,
            &mut self.bench,
            &mut kept.management,
            link,
            Some(asked),
        )?)
    }

    /// An octet's bits came on this link's line, behind those that wait ([`Bench::hear_octet`]); what is asked behind
    /// the turn is carried out.
    ///
    /// Faults: those of [`Bench::turn`], where nothing is asked; and behind a turn 1 [`TermFault::NoMemory`], and 3
    /// [`TermFault::Exhausted`] only where the set's history is full: what was asked before was carried out, and the
    /// octet that the turn put is lost.
    pub fn hear_octet<T: Tap>(
        &mut self,
        link: u8,
        octet: u8,
        tap: &mut T,
    ) -> Result<ManagedTurn, TermFault>
        requires { link < length self.old.bench.links }
        ensures hears { IfOk result (λ heard. (unit : Option SignalUnit)
            × Hears link (bits_of 8 octet) self.old heard unit self.new × Taps T.told unit tap.old tap.new) }
        ensures breaks { IfErr result (λ fault. HearsBroken link (bits_of 8 octet) fault self.old self.new) }
        ensures links { length self.new.bench.links ≡ length self.old.bench.links }
    {
        let turn = self.bench.hear_octet(link, octet, tap)?;
        self.go_on(link, turn)
    }

    /// A bit came on this link's line, behind those that wait: a turn where an octet is whole with it
    /// ([`Bench::hear_bit`]); what is asked behind it is carried out. Faults: those of [`ManagedBench::hear_octet`].
    pub fn hear_bit<T: Tap>(
        &mut self,
        link: u8,
        bit: bool,
        tap: &mut T,
    ) -> Result<Option<ManagedTurn>, TermFault>
        requires { link < length self.old.bench.links }
        ensures hears { IfOk result (λ heard. HearsBit T.told heard link bit self.old self.new tap.old tap.new) }
        ensures breaks { IfErr result (λ fault. HearsBroken link (bit ∷ []) fault self.old self.new) }
        ensures links { length self.new.bench.links ≡ length self.old.bench.links }
    {
        match self.bench.hear_bit(link, bit, tap)? {
            None => Ok(None),
            Some(turn) => Ok(Some(self.go_on(link, turn)?)),
        }
    }

    /// The bench took this turn of the link: what is asked behind it is carried out.
    fn go_on(&mut self, link: u8, turn: Turn) -> Result<ManagedTurn, TermFault>
        requires { link < length self.old.bench.links }
        ensures manages { IfOk result (λ heard. (heard.turn ≡ turn)
            × Manages link (noted link turn self.old) heard.deeds self.new) }
        ensures breaks { IfErr result (λ fault. (told : Told) × (fault ≡ fault_of told)
            × ManagesSome link told (noted link turn self.old) self.new) }
        ensures links { length self.new.bench.links ≡ length self.old.bench.links }
    {
        self.note(link, &turn);
        if !self.is_activated(link) {
            return Ok(ManagedTurn::new(turn, Vec::new(*self.kept.allocator())));
        }
        Ok(ManagedTurn::new(turn, self.manage(link)?))
    }

    /// The link's management sees how it stands, and what it asks is carried out.
    #[inline(never)]
    fn manage(&mut self, link: u8) -> Result<Vec<Deed>, SetFault>
        requires { link < length self.old.bench.links }
        ensures manages { IfOk result (λ deeds. Manages link self.old deeds.items self.new) }
        ensures breaks { IfErr result (λ fault. ManagesSome link fault self.old self.new) }
        ensures links { length self.new.bench.links ≡ length self.old.bench.links }
    {
        let seen = self.seen(link);
        let alloc = *self.kept.allocator();
        let kept = &mut self.kept[usize::from(link)];
        let asked = kept.management.turn(seen);
        carry_all(alloc, &mut self.bench, &mut kept.management, link, asked)
    }

    /// The link took this turn: where it went out of service, whether a way up has failed.
    fn note(&mut self, link: u8, turn: &Turn)
        requires { link < length self.old.bench.links }
        ensures { self.new ≡ noted link turn.now self.old }
    {
        if goes_out(turn) {
            self.go_out(link);
        }
    }

    /// The link went out of service: whether a way up has failed.
    #[inline(never)]
    fn go_out(&mut self, link: u8)
        requires { link < length self.old.bench.links }
        ensures { self.new ≡ gone_out link self.old }
    {
        let tried = matches!(self.bench.phase(link), Phase::Settled);
        let kept = &mut self.kept[usize::from(link)];
        kept.tried = tried;
    }

    /// How the link stands, as its management sees it.
    fn seen(&self, link: u8) -> Seen
        requires { link < length self.now.bench.links }
        ensures { result ≡ seen_at link self.now }
    {
        Seen {
            level2: level2_of(self.word(link)),
            phase: phase_seen(self.bench.phase(link)),
            passed: false,
            others: self.others(link),
            hopes: self.hopes(link),
        }
    }

    /// Whether another link carries traffic.
    fn others(&self, link: u8) -> bool
        ensures { result ≡ any_other (carries self.now.bench) link (length self.now.bench.links) }
    {
        let mut found = false;
        for other in 0..self.bench.links() {
            found = found || (other != link && self.carries(other));
        }
        found
    }

    /// Whether another link may come up soon.
    fn hopes(&self, link: u8) -> bool
        ensures { result ≡ any_other (gives_hope self.now) link (length self.now.bench.links) }
    {
        let mut found = false;
        for other in 0..self.bench.links() {
            found = found || (other != link && self.gives_hope(other));
        }
        found
    }

    /// Whether this link carries traffic.
    fn carries(&self, link: u8) -> bool
        requires { link < length self.now.bench.links }
        ensures { result ≡ carries self.now.bench link }
    {
        matches!(self.word(link), LinkWord::Up) && matches!(self.bench.phase(link), Phase::Up)
    }

    /// Whether this link is on its first way up, and has heard its far end.
    fn gives_hope(&self, link: u8) -> bool
        requires { link < length self.now.bench.links }
        ensures { result ≡ gives_hope self.now link }
    {
        has_heard(self.word(link))
            && matches!(self.bench.phase(link), Phase::Settled)
            && !self.kept[usize::from(link)].tried
    }

    /// How this link stands.
    fn word(&self, link: u8) -> LinkWord
        requires { link < length self.now.bench.links }
        ensures { result ≡ word_at link self.now.bench }
    {
        self.bench.word(link)
    }
}
