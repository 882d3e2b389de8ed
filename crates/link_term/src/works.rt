//! A terminal without its surroundings: its door and its line are lent to it for a turn.
ghost use Rattle.std.specs.Prelude.{◌≡◌, ◌+◌, ◌^◌, ◌<◌, ◌≤◌, [], false, OnErr};
ghost use Rattle.link_term.specs.Filling.{Taps};
ghost use Rattle.link_term.specs.Running.{Runs, RunFails};
ghost use Rattle.link_term.specs.Standing.{lent};
ghost use Rattle.link_term.specs.States.{aligning_as, is_out_of_service, is_paused, state_of};
ghost use Rattle.link_term.specs.Taking.{TakesTurns, TurnsTapped};
ghost use Rattle.link_term.specs.Turning.{TurnsOnce, TurnFails, one_if_chosen};
ghost use Rattle.term_model.specs.Runs.{cause_or_0};
ghost use Rattle.term_model.specs.Terminal.{opened, told};

use super::counts::{Filling, Turned};
use super::door::{Door, Gate};
use super::fault::TermFault;
use super::receiver::Receiver;
use super::tap::{NoTap, Tap};
use super::turning::take_turn;
use l2_align::State as Alignment;
use l2_state::State;
use l2_units::Cause;
use line_ring::Line;
use set_events::Reply;
use std::marker::Model;
use term_core::Inside;
use term_model::{Command, TermReport, Timers};

/// Where a terminal stands (Q.703 7.3, 12).
#[derive(Clone, Copy, Debug, PartialEq, Eq)]
pub enum TermState {
    /// SIOS goes out.
    OutOfService,
    /// SIO goes out: nothing was heard from the far end yet.
    NotAligned,
    /// SIN or SIE goes out: the far end isn't known to be aligned.
    Aligned,
    /// The same, and the link is tried for errors.
    Proving,
    /// FISUs go out: none was heard yet.
    Ready,
    /// What the set gives goes out, once it has answered Done to an Up.
    InService,
}

/// What a terminal is made of, but for its door and its line, which are lent to it turn by turn: the machines, timers
/// and bits of its inside, and the receiver of its line (Q.703 2 to 12). Some 1,000 octets; it takes no memory. Contracts
/// see the inside, the octets that were taken, and whether a turn was broken off.
#[derive(Drop)]
pub struct Works {
    inside: Inside,
    receiver: Receiver,
    /// Where the door's answers are put: it's made once, so that a turn clears no room for one.
    reply: Reply,
    /// A turn was broken off.
    failed: bool,
}

impl Model for Works {
    ghost use Rattle.link_term.specs.Standing.{WorksState};

    ghost Value = { WorksState };

    ghost view = { λ w. record { inside = w.inside; taken = w.receiver; failed = w.failed } };
}

impl Works {
    /// Those of a terminal of this link of its set, which is out of service, with timers of these lengths. No octet was
    /// taken from a line, and one flag is left to send.
    pub fn new(link: u8, lengths: Timers) -> Works
        ensures inside { result.inside ≡ opened link lengths }
        ensures taken { result.taken ≡ [] }
        ensures failed { result.failed ≡ false }
    {
        Works {
            inside: Inside::new(link, lengths),
            receiver: Receiver::new(),
            reply: Reply::new(),
            failed: false,
        }
    }

    /// A command, which is obeyed in the next turn; it's no matter that it was given before.
    pub fn command(&mut self, command: Command)
        ensures { self.new ≡ record self.old { inside = told command self.old.inside } }
    {
        self.inside.command(command);
    }

    /// One turn, an octet time, at the door of the terminal's link and one end of its line: commands, one octet in, marks,
    /// timers, what is sent next, one octet out. Tells what it did.
    ///
    /// Faults, where the door answered so: 1 [`TermFault::NoMemory`], 3 [`TermFault::Exhausted`]; 4 [`TermFault::Profile`]
    /// where it gave a unit that has a number of more than seven bits, whose entry stays with the door. The turn was broken off
    /// there, and nothing was put. After one, 2 [`TermFault::Failed`], and nothing is done.
    pub fn turn<D: Door, L: Line>(
        &mut self,
        door: &mut D,
        line: &mut L,
    ) -> Result<Turned, TermFault>
        requires { D.number door.old ≡ self.old.inside.link }
        ensures turns { TakesTurns D.Door L.Line TurnsOnce TurnFails (lent self.old door.old line.old) result
            (lent self.new door.new line.new) }
    {
        self.turn_tapped(door, line, &mut NoTap)
    }

    /// [`Works::turn`], with a tap that is told of the unit which the turn appended to what is sent, if it did.
    pub fn turn_tapped<D: Door, L: Line, T: Tap>(
        &mut self,
        door: &mut D,
        line: &mut L,
        tap: &mut T,
    ) -> Result<Turned, TermFault>
        requires { D.number door.old ≡ self.old.inside.link }
        ensures turns { TakesTurns D.Door L.Line (TurnsTapped (λ unit. Taps T.told unit tap.old tap.new)) TurnFails
            (lent self.old door.old line.old) result (lent self.new door.new line.new) }
        ensures untold { OnErr result (tap.new ≡ tap.old) }
    {
        if self.failed {
            return Err(TermFault::Failed);
        }
        match take_turn(
            &mut self.receiver,
            &mut self.inside,
            door,
            &mut self.reply,
            line,
            tap,
        ) {
            Ok(turned) => Ok(turned),
            Err(fault) => {
                self.failed = true;
                Err(fault)
            }
        }
    }

    /// So many turns, one after another, at most 2^32, each behind the gate, to which the number of the set is told: what they
    /// counted, and why the link failed last. Each took an octet where its end of the line knew of one, and put one where it
    /// knew of a free place.
    ///
    /// Faults as of [`Works::turn`]: the turns before the one that was broken off went whole, and it's the last.
    pub fn run<D: Door, L: Line, G: Gate>(
        &mut self,
        door: &mut D,
        line: &mut L,
        gate: &G,
        set: u16,
        turns: u64,
    ) -> Result<TermReport, TermFault>
        requires at { D.number door.old ≡ self.old.inside.link }
        requires few { turns ≤ 2 ^ 32 }
        ensures runs { TakesTurns D.Door L.Line (Runs turns) (λ fault before after. RunFails fault turns before after)
            (lent self.old door.old line.old) result (lent self.new door.new line.new) }
    {
        if self.has_failed() {
            return Err(TermFault::Failed);
        }
        let mut report = NO_TURNS;
        for _turn in 0..turns {
            gate.outside(set, self.link());
            report = and_one(report, self.turn(door, line)?);
        }
        Ok(TermReport {
            cause: last_cause(self),
            ..report
        })
    }

    /// Whether a turn was broken off.
    pub(crate) fn has_failed(&self) -> bool
        ensures { result ≡ self.now.failed }
    {
        self.failed
    }

    /// The number of its link at the set.
    pub fn link(&self) -> u8
        ensures { result ≡ self.now.inside.link }
    {
        self.inside.link()
    }

    /// Where it stands (Q.703 7.3, 12).
    pub fn state(&self) -> TermState
        ensures { result ≡ state_of self.now.inside }
    {
        match self.inside.state_now() {
            State::OutOfService => TermState::OutOfService,
            State::Aligning => aligning_as(self.inside.alignment()),
            State::Ready => TermState::Ready,
            State::InService { .. } => TermState::InService,
        }
    }

    /// Whether it's out of service (Q.703 12.1).
    pub fn is_out_of_service(&self) -> bool
        ensures { result ≡ is_out_of_service (state_of self.now.inside) }
    {
        matches!(self.state(), TermState::OutOfService)
    }

    /// Whether it's up at the set: that has answered Done to an Up, and the link didn't fail since.
    pub fn is_up(&self) -> bool
        ensures { result ≡ self.now.inside.up }
    {
        self.inside.is_up()
    }

    /// Whether it's in service, and the far end has a processor outage (Q.703 8.2).
    pub fn is_paused(&self) -> bool
        ensures { result ≡ is_paused self.now.inside.state }
    {
        match self.inside.state_now() {
            State::InService { paused } => paused,
            State::OutOfService | State::Aligning | State::Ready => false,
        }
    }

    /// Whether this end has a processor outage (Q.703 8.1).
    pub fn is_out(&self) -> bool
        ensures { result ≡ self.now.inside.outage }
    {
        self.inside.is_out()
    }

    /// Why the link failed last, if it did.
    pub fn cause(&self) -> Option<Cause>
        ensures { result ≡ self.now.inside.cause }
    {
        self.inside.cause()
    }
}

/// How far an alignment is.
fn aligning_as(alignment: Alignment) -> TermState
    ensures { result ≡ aligning_as alignment }
{
    match alignment {
        Alignment::Idle | Alignment::NotAligned => TermState::NotAligned,
        Alignment::Aligned => TermState::Aligned,
        Alignment::Proving => TermState::Proving,
    }
}

/// No turn was counted yet.
const NO_TURNS: TermReport = TermReport {
    turns: 0,
    sent: 0,
    good: 0,
    bad: 0,
    sixteen: 0,
    cause: 0,
};

/// One turn more was counted.
fn and_one(report: TermReport, turned: Turned) -> TermReport
    requires turns { report.turns < 2 ^ 33 }
    requires sent { report.sent < 2 ^ 33 }
    requires good { report.good < 2 ^ 48 }
    requires bad { report.bad < 2 ^ 48 }
    requires sixteen { report.sixteen < 2 ^ 48 }
    ensures turns { result.turns ≡ report.turns + 1 }
    ensures sent { result.sent ≡ report.sent + one_if_chosen turned.filling }
    ensures good { (result.good ≡ report.good + turned.marks.good) × (turned.marks.good < 256) }
    ensures bad { (result.bad ≡ report.bad + turned.marks.bad) × (turned.marks.bad < 256) }
    ensures sixteen { (result.sixteen ≡ report.sixteen + turned.marks.sixteen)
        × (turned.marks.sixteen < 256) }
{
    TermReport {
        turns: report.turns + 1,
        sent: report.sent + one_if_chosen(turned.filling),
        good: report.good + u64::from(turned.marks.good),
        bad: report.bad + u64::from(turned.marks.bad),
        sixteen: report.sixteen + u64::from(turned.marks.sixteen),
        cause: report.cause,
    }
}

/// 1 where a unit was appended to what is left to send.
fn one_if_chosen(filling: Filling) -> u64
    ensures { result ≡ one_if_chosen filling }
{
    match filling {
        Filling::Chosen => 1,
        Filling::Enough | Filling::Wide => 0,
    }
}

/// The number of the cause for which the link failed last; 0: it didn't.
fn last_cause(works: &Works) -> u8
    ensures { result ≡ cause_or_0 works.now.inside.cause }
{
    match works.cause() {
        None => 0,
        Some(cause) => cause.number(),
    }
}
