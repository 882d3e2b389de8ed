//! A link at the bench.
ghost use Rattle.std.specs.Prelude.{◌≡◌, ◌<◌, ◌≤◌, ◌+◌, ◌^◌, [], ◌∷◌, ◌++◌, List, Option, true, false, drop, length, take, if◌then◌else◌, IfErr, IfNone, IfOk, IfSome, OnOk, OnErr};
ghost use Rattle.set_events.specs.declared.history.Entry.{Entry};
ghost use Rattle.term_bench.specs.Ends.{new_link, new_links, told_at, word_of};
ghost use Rattle.term_bench.specs.Going.{GoesOn};
ghost use Rattle.term_bench.specs.Late.{is_out};
ghost use Rattle.link_term.specs.States.{state_of};
ghost use Rattle.term_bench.specs.Taking.{Takes};
ghost use Rattle.term_bench.specs.Waiting.{waits_with};
ghost use Rattle.l2_bits.specs.LineBits.{bits_of, number_of};
ghost use Rattle.term_bench.specs.Turns.{AreFew, BreaksOff, FailsBy, TakesTurn, most_turns};
ghost use Rattle.l2_units.specs.declared.unit.Unit.{Unit as SignalUnit};
ghost use Rattle.link_term.specs.declared.fault.TermFault.TheVariants.{Exhausted, Failed};
ghost use Rattle.link_term.specs.Filling.{Taps};
ghost use Rattle.link_term.specs.Turning.{one_if_chosen};

use super::counts::TurnCounts;
use super::door::SetDoor;
use super::timeslot::Timeslot;
use super::turn::Turn;
use super::word::{LinkWord, word_of};
use l2_units::Cause;
use link_term::{Command, Filling, Tap, TermFault, TermState, Timers, Turned, Works};
use std::alloc::{AllocError, Global};
use std::marker::Model;

/// The most turns of a link, 2^48.
const MOST_TURNS: u64 = 0x1_0000_0000_0000;

/// A link: its terminal, what was counted, and the bits that wait for their octet.
#[derive(Drop)]
pub(crate) struct LinkEnd {
    works: Works,
    counts: TurnCounts,
    /// The bits that wait, the first one lowest, and how many they are.
    bits: u8,
    waiting: u8,
}

impl Model for LinkEnd {
    ghost use Rattle.term_bench.specs.Ends.{AtLink};

    ghost Value = { AtLink };

    ghost use Rattle.std.specs.Prelude.{◌<◌, ◌^◌};
    ghost use Rattle.term_bench.specs.Ends.{at_link};
    ghost use Rattle.term_bench.specs.Waiting.{waits_with};
    ghost use Rattle.l2_bits.specs.LineBits.{bits_of, number_of};
    ghost use Rattle.term_bench.specs.Turns.{AreFew};

    ghost view = { λ l. at_link l.works l.bits l.waiting l.counts };

    ghost invariant = { λ l. (l.waiting < 8) × (l.bits < 2 ^ l.waiting) × AreFew l.counts };
}

impl LinkEnd {
    /// A link of this number, which is out of service: nothing was heard on it.
    pub(crate) fn new(link: u8, lengths: Timers) -> LinkEnd
        ensures { result ≡ new_link lengths link }
    {
        LinkEnd {
            works: Works::new(link, lengths),
            counts: TurnCounts {
                turns: 0,
                sent: 0,
                good: 0,
                bad: 0,
                sixteen: 0,
            },
            bits: 0,
            waiting: 0,
        }
    }

    /// A command, which is obeyed in the next turn.
    pub(crate) fn command(&mut self, command: Command)
        ensures { self.new ≡ told_at command self.old }
    {
        self.works.command(command);
    }

    /// Whether it's out of service.
    pub(crate) fn is_out(&self) -> bool
        ensures { result ≡ is_out (state_of self.now.terminal) }
    {
        matches!(self.works.state(), TermState::OutOfService)
    }

    /// A turn by this octet, with a tap.
    ///
    /// Faults: 3 [`TermFault::Exhausted`] where 2^48 turns went, tested first: nothing is done then; and those of
    /// [`Works::turn`].
    pub(crate) fn turn<T: Tap>(
        &mut self,
        door: &mut SetDoor,
        octet: u8,
        tap: &mut T,
    ) -> Result<Turn, TermFault>
        requires link { door.old.link ≡ self.old.terminal.link }
        requires heard { door.old.heard ≡ 0 }
        ensures turns { IfOk result (λ turn. (unit : Option SignalUnit)
            × TakesTurn door.old.link octet door.old.set self.old turn unit door.new.set self.new
            × Taps T.told unit tap.old tap.new) }
        ensures same { GoesOn door.old.link door.new.link door.old.set door.new.set door.old.heard
            door.new.heard door.old.faults door.new.faults door.old.late door.new.late }
        ensures link { self.new.terminal.link ≡ self.old.terminal.link }
        ensures fails { OnErr result (self.old.counts.turns < most_turns → self.new.failed ≡ true) }
        ensures breaks { IfErr result (λ fault. (entries : List Entry)
            × (door.new.set.history ≡ door.old.set.history ++ entries)
            × BreaksOff octet fault door.old.set door.new.set self.old self.new entries) }
        ensures exhausted { self.old.counts.turns ≡ most_turns → (result ≡ Err Exhausted)
            × (self.new ≡ self.old) × (door.new ≡ door.old) }
        ensures failed { self.old.failed ≡ true → self.old.counts.turns < most_turns
            → (result ≡ Err Failed) × (self.new ≡ self.old) × (door.new ≡ door.old) }
        ensures untold { OnErr result (tap.new ≡ tap.old) }
    {
        if self.counts.turns >= MOST_TURNS {
            return Err(TermFault::Exhausted);
        }
        let before = word_of(&self.works);
        match take_octet(&mut self.works, door, octet, tap) {
            Ok((put, turned)) => {
                self.counts = counted(self.counts, turned);
                Ok(Turn {
                    number: self.counts.turns,
                    put,
                    messages: door.heard(),
                    sent: units_in(turned.filling),
                    before,
                    after: word_of(&self.works),
                    cause: self.works.cause(),
                })
            }
            Err(fault) => Err(fault),
        }
    }

    /// An octet's bits come behind those that wait, the lowest first: the octet that is whole with them. As many wait
    /// as did.
    pub(crate) fn complete(&mut self, octet: u8) -> u8
        ensures octet { result ≡ number_of (take 8 (self.old.waiting ++ bits_of 8 octet)) }
        ensures waits { self.new ≡ waits_with (drop 8 (self.old.waiting ++ bits_of 8 octet)) self.old }
    {
        let whole = u16::from(octet) * place_of(self.waiting) + u16::from(self.bits);
        self.bits = (whole / 256) as u8;
        (whole % 256) as u8
    }

    /// A bit comes behind those that wait: the octet that is whole with it, if one is.
    pub(crate) fn complete_by(&mut self, bit: bool) -> Option<u8>
        ensures whole { IfSome result (λ octet. (octet ≡ number_of (self.old.waiting ++ bit ∷ []))
            × (length (self.old.waiting ++ bit ∷ []) ≡ 8) × (self.new ≡ waits_with [] self.old)) }
        ensures waits { IfNone result ((length (self.old.waiting ++ bit ∷ []) < 8)
            × (self.new ≡ waits_with (self.old.waiting ++ bit ∷ []) self.old)) }
        ensures link { self.new.terminal.link ≡ self.old.terminal.link }
    {
        let more = with_bit(self.bits, self.waiting, bit);
        if self.waiting == 7 {
            self.bits = 0;
            self.waiting = 0;
            return Some(more);
        }
        self.bits = more;
        self.waiting += 1;
        None
    }

    /// How the link stands.
    pub(crate) fn word(&self) -> LinkWord
        ensures { result ≡ word_of self.now.terminal }
    {
        word_of(&self.works)
    }

    /// What was counted.
    pub(crate) fn counts(&self) -> TurnCounts
        ensures { result ≡ self.now.counts }
    {
        self.counts
    }

    /// Why the link failed last, if it did.
    pub(crate) fn cause(&self) -> Option<Cause>
        ensures { result ≡ self.now.terminal.cause }
    {
        self.works.cause()
    }
}

/// The value of a bit behind so many.
fn place_of(waiting: u8) -> u16
    requires { waiting < 8 }
    ensures value { result ≡ 2 ^ waiting }
    ensures few { result ≤ 128 }
{
    1 << waiting
}

/// A bit more behind so many.
fn with_bit(bits: u8, waiting: u8, bit: bool) -> u8
    requires few { waiting < 8 }
    requires below { bits < 2 ^ waiting }
    ensures { result ≡ (if bit then 2 ^ waiting else 0) + bits }
{
    if bit { (1 << waiting) + bits } else { bits }
}

/// So many links, out of service, numbered from 0 on. It fails only where memory is wanted.
#[tactic(auto, using(crate::proofs::LinkLemmas::links_more))]
pub(crate) fn new_links(
    alloc: Global,
    links: u8,
    lengths: Timers,
) -> Result<Vec<LinkEnd>, AllocError>
    ensures { IfOk result (λ made. made.items ≡ new_links lengths links) }
{
    let mut made = Vec::with_capacity(alloc, usize::from(links))?;
    for link in 0..links {
        made.push(LinkEnd::new(link, lengths))?;
    }
    Ok(made)
}

/// One turn of these works at the set, by an octet of a line that has no other. Answers the octet that it puts, and
/// what it did. Faults: those of [`Works::turn`].
fn take_octet<T: Tap>(
    works: &mut Works,
    door: &mut SetDoor,
    octet: u8,
    tap: &mut T,
) -> Result<(u8, Turned), TermFault>
    requires link { door.old.link ≡ works.old.inside.link }
    requires heard { door.old.heard ≡ 0 }
    ensures takes { IfOk result (λ out. (works.old.failed ≡ false) × (unit : Option SignalUnit)
        × Takes door.old.link octet door.old.set door.new.set door.new.heard works.old.taken
        works.new.taken works.old.inside works.new.inside out.0 out.1 unit
        × Taps T.told unit tap.old tap.new) }
    ensures same { GoesOn door.old.link door.new.link door.old.set door.new.set door.old.heard
        door.new.heard door.old.faults door.new.faults door.old.late door.new.late }
    ensures link { works.new.inside.link ≡ works.old.inside.link }
    ensures failed { works.old.failed ≡ true → (result ≡ Err Failed) × (works.new ≡ works.old)
        × (door.new ≡ door.old) }
    ensures fails { OnErr result (works.new.failed ≡ true) }
    ensures breaks { works.old.failed ≡ false → IfErr result (λ fault. (entries : List Entry)
        × (door.new.set.history ≡ door.old.set.history ++ entries)
        × FailsBy octet fault works.old.taken works.new.taken works.old.inside works.new.inside door.old.set door.new.set entries) }
    ensures goes_on { OnOk result (works.new.failed ≡ false) }
    ensures untold { OnErr result (tap.new ≡ tap.old) }
{
    door.set().replays();
    let mut slot = Timeslot::new(octet);
    match works.turn_tapped(door, &mut slot, tap) {
        Ok(turned) => {
            door.set().replays();
            match slot.put() {
                Some(put) => Ok((put, turned)),
                None => unreachable!(),
            }
        }
        Err(fault) => Err(fault),
    }
}

/// One turn more is counted.
fn counted(counts: TurnCounts, turned: Turned) -> TurnCounts
    requires few { AreFew counts }
    requires more { counts.turns < most_turns }
    ensures few { AreFew result }
    ensures turns { result.turns ≡ counts.turns + 1 }
    ensures sent { result.sent ≡ counts.sent + one_if_chosen turned.filling }
    ensures good { result.good ≡ counts.good + turned.marks.good }
    ensures bad { result.bad ≡ counts.bad + turned.marks.bad }
    ensures sixteen { result.sixteen ≡ counts.sixteen + turned.marks.sixteen }
{
    TurnCounts {
        turns: counts.turns + 1,
        sent: counts.sent + units_in(turned.filling),
        good: counts.good + u64::from(turned.marks.good),
        bad: counts.bad + u64::from(turned.marks.bad),
        sixteen: counts.sixteen + u64::from(turned.marks.sixteen),
    }
}

/// How many units were appended to what is left to send: one, or none.
fn units_in(filling: Filling) -> u64
    ensures value { result ≡ one_if_chosen filling }
    ensures few { result ≤ 1 }
{
    match filling {
        Filling::Chosen => 1,
        Filling::Enough | Filling::Wide => 0,
    }
}
