//! How the gates of two banks manage their links, and hold users up.

ghost use Rattle.std.specs.Prelude.{◌≡◌};
ghost use Rattle.bank_traffic.specs.Managing.{instruction_of, open_in, stream_brought};

use super::asked::Traffic;
use super::pace::{PaceGate, pace_gates};
use super::watch::SetWatch;
use bank_core::{Instruction, LinkManager, Sight};
use l2_units::UnitRef;
use set_events::{AnswerRef, Counts, EventRef, Took};
use std::alloc::{AllocError, Global};
use std::sync::Arc;

/// What both gates know.
#[derive(Drop)]
pub(crate) struct Management {
    sets: Vec<SetWatch>,
    traffic: Traffic,
}

/// Gates for this traffic, as [`pace_gates`] has them, which manage its links where the traffic has them managed:
///
/// - a user at an end a begins when each link of its set has come up at both ends, or ten seconds of turns went by, and
///   has at most 64 messages on their way, beside as many as its set gave up; the user at an end b asks for a message when
///   one has come;
/// - a link that is out of service, or was stopped since an order about it came late, is started again after a rest, T17;
/// - the link at an end a that is to fail is told Stop four turns for each message of a user after the users began;
/// - terminals take no more turns once all was offered, nothing waits or is unacknowledged, and the link that was told Stop
///   came up again.
pub fn gates_of(alloc: Global, traffic: &Traffic) -> Result<(PaceGate, PaceGate), AllocError> {
    let (near, far) = pace_gates(alloc, traffic.sets, traffic.links)?;
    if !traffic.managed {
        return Ok((near, far));
    }
    let mut sets = Vec::new(alloc);
    for _set in 0..traffic.sets {
        sets.reserve(1)?;
        let set = SetWatch::new(alloc, traffic)?;
        sets.push_reserved(set);
    }
    let both = Arc::new(
        alloc,
        Management {
            sets,
            traffic: *traffic,
        },
    )?;
    let far = far.managed_by(Arc::try_clone(&both)?);
    Ok((near.managed_by(both), far))
}

impl Management {
    pub(crate) fn set(&self, set: u16) -> Option<&SetWatch> {
        self.sets.get(usize::from(set))
    }

    /// How many messages the ends b accepted.
    pub(crate) fn heard(&self) -> u64 {
        let mut sum: u64 = 0;
        for set in &self.sets {
            sum = sum.saturating_add(set.heard_in_all());
        }
        sum
    }
}

impl LinkManager for PaceGate {
    ghost lets = { λ gate set user. Unit {0} };

    fn holds_up(&self, set: u16, user: u16) -> bool {
        let Some(watch) = self.watch(set) else {
            return false;
        };
        if watch.is_over(self.is_near()) {
            return false;
        }
        if self.is_near() {
            watch.holds_sender(user, self.turn(set, 0))
        } else {
            watch.holds_taker()
        }
    }

    fn answered(&self, set: u16, link: u8, event: &EventRef<'_>, answer: &AnswerRef<'_>) {
        let Some(watch) = self.watch(set) else {
            return;
        };
        if let (EventRef::Heard { unit, .. }, AnswerRef::Heard { report }) = (event, answer) {
            if report.took == Took::Message && !self.is_near() {
                watch.hear(stream_of(unit));
            }
            return;
        }
        let Some(at) = watch.at(link, self.is_near()) else {
            return;
        };
        match (event, answer) {
            (EventRef::Up { .. }, AnswerRef::Done) => at.rise(),
            (EventRef::Down { .. } | EventRef::DownBlind { .. }, AnswerRef::Done) => {
                at.fall(self.turn(set, link));
            }
            // the far end's order about the link came first, and the set left it
            (EventRef::Next { .. } | EventRef::Down { .. }, AnswerRef::Refused { .. })
                if at.is_up() => {
                at.fall(self.turn(set, link));
            }
            _ => {}
        }
    }

    fn instruct(&self, set: u16, link: u8, sight: &Sight) -> Instruction {
        let Some(watch) = self.watch(set) else {
            return Instruction::Run;
        };
        let open = open_in(&sight.counts);
        if self.is_near() {
            watch.give_up(sight.counts.discarded);
            self.settle(watch, open);
        }
        let over = watch.is_over(self.is_near());
        let Some(at) = watch.at(link, self.is_near()) else {
            return instruction_of(over, false, false);
        };
        let turn = self.turn(set, link);
        if sight.late && !over {
            // it's stopped, and rests as a link that failed
            at.fall(turn);
        }
        let stops = !over && self.fails(link) && watch.stops(at, self.messages(), turn, open);
        instruction_of(over, stops, at.seen().is_rested(turn))
    }

    fn ended(&self, set: u16, link: u8) {
        self.leave(set, link);
        if let Some(watch) = self.watch(set) {
            watch.end(self.is_near());
        }
    }
}

impl PaceGate {
    fn watch(&self, set: u16) -> Option<&SetWatch> {
        self.management()?.set(set)
    }

    /// Whether this is the end of the link that is to fail.
    fn fails(&self, link: u8) -> bool {
        match self.management() {
            Some(both) => self.is_near() && both.traffic.fail == Some(link),
            None => false,
        }
    }

    /// How many messages each user offers.
    fn messages(&self) -> u16 {
        match self.management() {
            Some(both) => both.traffic.messages,
            None => 0,
        }
    }

    /// All may be done, where so many messages aren't finished.
    fn settle(&self, watch: &SetWatch, open: u64) {
        if let Some(both) = self.management() {
            let came_back = match both.traffic.fail {
                Some(link) => watch.has_come_back(link),
                None => true,
            };
            let offered_all = watch.has_offered_all(both.traffic.messages);
            watch.settle(came_back, offered_all, open);
        }
    }
}

/// What a terminal is told: nothing more is to come, else it's stopped, else it rested long enough to be started again.
fn instruction_of(over: bool, stops: bool, rested: bool) -> Instruction
    ensures { result ≡ instruction_of over stops rested }
{
    if over {
        Instruction::End
    } else if stops {
        Instruction::Stop
    } else if rested {
        Instruction::Start
    } else {
        Instruction::Run
    }
}

/// How many messages aren't finished.
fn open_in(counts: &Counts) -> u64
    ensures { result ≡ open_in counts.now }
{
    counts
        .waiting
        .saturating_add(counts.unacked)
        .saturating_add(counts.held)
        .saturating_add(counts.parked)
        .saturating_add(counts.back)
}

/// The stream of the message that a unit brings.
fn stream_of(unit: &UnitRef<'_>) -> u8
    ensures { result ≡ stream_brought unit.now }
{
    match unit {
        UnitRef::Msu { body, .. } => match body.get(4) {
            Some(octet) => *octet / 16,
            None => 0,
        },
        UnitRef::Fisu { .. } | UnitRef::Lssu { .. } => 0,
    }
}
