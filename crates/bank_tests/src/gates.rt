//! Gates at which threads wait for one another: a bank whose sets, links and users didn't run at the same time would
//! never come past them.

use super::openings::{
    are_legal, bank_of, configs_of, ends_of, holds, loops_of, offers_of, plan_of,
};
use bank_crew::{Instruction, LinkManager, Sight};
use link_term::Gate;
use set_events::{AnswerRef, Counts, EventRef, Method};
use std::alloc::{AllocError, Global};
use std::sync::atomic::{AtomicU64, Ordering};
use std::sync::{Arc, Wait};
use std::test::Fail;
use std::thread;
use std::thread::Threads;
use std::time::Clock;

/// How often a thread yields to the others before it gives up: some ten seconds at least, for whom it waits for may come late.
const PATIENCE: u32 = 100_000_000;

/// How many turns a terminal may be ahead of another, where they keep beside one another.
const LEAD: u64 = 64;

/// By this turn of its terminals a link is up: proving takes 4,096 octet times.
const UP: u64 = 5_400;

/// The turn in which terminals wait for the users of their set.
const OFFERED: u64 = 5_500;

/// Who waits for whom.
#[derive(Clone, Copy, Debug, PartialEq, Eq)]
pub(crate) enum Meeting {
    /// Set 0 in its first step, under its lock, for a step of set 1 that was answered, and set 1 in its third step for the
    /// second step of set 0.
    Sets,
    /// Link 0 in its first turn for a step of link 1, and link 1 in its next turn for the second turn of link 0.
    Links,
    /// Link 0 in its first turn for the first call of the user, and the user in its second call for the second turn of
    /// link 0.
    Users,
    /// The users of a set for both its links to be up, and a little later its links for so many calls of its users. The
    /// ends of a link, and the links of a set, wait for each other all along.
    Offers { calls: u64 },
}

/// What a link's terminal did.
#[derive(Drop)]
struct LinkSeen {
    turns: AtomicU64,
    steps: AtomicU64,
    /// The turns of the terminal at the other end, in a bank of its own.
    far_turns: AtomicU64,
}

/// What the threads of a set did.
#[derive(Drop)]
struct SetSeen {
    first: LinkSeen,
    second: LinkSeen,
    steps: AtomicU64,
    calls: AtomicU64,
}

/// What all threads did.
#[derive(Drop)]
struct Seen {
    first: SetSeen,
    second: SetSeen,
    /// How often somebody came whom another waited for.
    met: AtomicU64,
    /// How often nobody came.
    missed: AtomicU64,
}

fn no_link() -> LinkSeen {
    LinkSeen {
        turns: AtomicU64::new(0),
        steps: AtomicU64::new(0),
        far_turns: AtomicU64::new(0),
    }
}

fn no_set() -> SetSeen {
    SetSeen {
        first: no_link(),
        second: no_link(),
        steps: AtomicU64::new(0),
        calls: AtomicU64::new(0),
    }
}

/// One more; how many there were.
fn count(counter: &AtomicU64) -> u64 {
    counter.fetch_add(1, Ordering::SeqCst)
}

fn read(counter: &AtomicU64) -> u64 {
    counter.load(Ordering::SeqCst)
}

impl SetSeen {
    fn link(&self, link: u8) -> &LinkSeen {
        if link == 0 { &self.first } else { &self.second }
    }
}

impl Seen {
    fn nothing() -> Seen {
        Seen {
            first: no_set(),
            second: no_set(),
            met: AtomicU64::new(0),
            missed: AtomicU64::new(0),
        }
    }

    fn set(&self, set: u16) -> &SetSeen {
        if set == 0 { &self.first } else { &self.second }
    }

    /// Waits until whoever counts these turns isn't too far behind one who has had so many.
    fn wait_beside(&self, turns: u64, other: &AtomicU64) {
        self.wait_for(other, turns.saturating_add(1).saturating_sub(LEAD));
    }

    /// Waits until so many are counted. Once somebody has given up, nobody waits any more.
    fn wait_for(&self, counter: &AtomicU64, least: u64) {
        for _time in 0..PATIENCE {
            if read(counter) >= least {
                count(&self.met);
                return;
            }
            if read(&self.missed) > 0 {
                return;
            }
            thread::yield_now();
        }
        count(&self.missed);
    }
}

/// The gate of a meeting, which all threads share.
#[derive(Drop)]
pub(crate) struct MeetingGate {
    meeting: Meeting,
    is_near: bool,
    seen: Arc<Seen, Global>,
}

impl MeetingGate {
    /// The gate of a meeting at which nobody has come by yet.
    pub(crate) fn new(alloc: Global, meeting: Meeting) -> Result<MeetingGate, AllocError> {
        Ok(MeetingGate {
            meeting,
            is_near: true,
            seen: Arc::new(alloc, Seen::nothing())?,
        })
    }

    /// The gate of the bank at the other ends of the links.
    pub(crate) fn far(&self) -> Result<MeetingGate, AllocError> {
        Ok(MeetingGate {
            is_near: false,
            ..self.clone()?
        })
    }
}

impl Clone for MeetingGate {
    fn clone(&self) -> Result<MeetingGate, AllocError> {
        Ok(MeetingGate {
            meeting: self.meeting,
            is_near: self.is_near,
            seen: Arc::try_clone(&self.seen)?,
        })
    }
}

impl LinkManager for MeetingGate {
    ghost lets = { λ gate set user. Unit {0} };

    fn holds_up(&self, _set: u16, _user: u16) -> bool {
        false
    }

    fn answered(&self, _set: u16, _link: u8, _event: &EventRef<'_>, _answer: &AnswerRef<'_>) {}

    fn instruct(&self, _set: u16, _link: u8, _sight: &Sight) -> Instruction {
        Instruction::Run
    }

    fn ended(&self, _set: u16, _link: u8) {}
}

impl Gate for MeetingGate {
    fn outside(&self, set: u16, link: u8) {
        let of_set = self.seen.set(set);
        let own = of_set.link(link);
        if !self.is_near {
            self.seen.wait_beside(count(&own.far_turns), &own.turns);
            return;
        }
        let turns = count(&own.turns);
        if let Meeting::Offers { .. } = self.meeting {
            let beside = of_set.link(if link == 0 { 1 } else { 0 });
            self.seen.wait_beside(turns, &own.far_turns);
            self.seen.wait_beside(turns, &beside.turns);
        }
        match (self.meeting, link) {
            (Meeting::Links, 0) => {
                if turns == 0 {
                    self.seen.wait_for(&of_set.second.steps, 1);
                }
            }
            (Meeting::Links, _) => {
                if read(&own.steps) > 0 {
                    self.seen.wait_for(&of_set.first.turns, 2);
                }
            }
            (Meeting::Users, 0) => {
                if turns == 0 {
                    self.seen.wait_for(&of_set.calls, 1);
                }
            }
            (Meeting::Offers { calls }, _) => {
                if turns == OFFERED {
                    self.seen.wait_for(&of_set.calls, calls);
                }
            }
            _ => {}
        }
    }

    fn inside(&self, set: u16, link: u8) {
        if !self.is_near {
            return;
        }
        let of_set = self.seen.set(set);
        count(&of_set.link(link).steps);
        let steps = count(&of_set.steps);
        match (self.meeting, set, steps) {
            (Meeting::Sets, 0, 0) => {
                // the second step of a set begins when the first was answered
                self.seen.wait_for(&self.seen.second.steps, 2);
                if read(&of_set.steps) != 1 {
                    count(&self.seen.missed);
                }
            }
            (Meeting::Sets, 1, 2) => self.seen.wait_for(&self.seen.first.steps, 2),
            _ => {}
        }
    }

    fn user(&self, set: u16, _user: u16) {
        if !self.is_near {
            return;
        }
        let of_set = self.seen.set(set);
        match (self.meeting, count(&of_set.calls)) {
            (Meeting::Users, 1) => self.seen.wait_for(&of_set.first.turns, 2),
            (Meeting::Offers { .. }, _) => {
                self.seen.wait_for(&of_set.first.turns, UP);
                self.seen.wait_for(&of_set.second.turns, UP);
            }
            _ => {}
        }
    }
}

/// Two sets of two links, with a user each that offers two messages: everybody meets, at least so often.
fn all_meet<R: Threads + Wait + Clock + Copy + Send + Sync + 'static>(
    rt: &R,
    alloc: Global,
    meeting: Meeting,
    least: u64,
) -> Result<(), Fail> {
    let gate = MeetingGate::new(alloc, meeting)?;
    let seen = Arc::try_clone(&gate.seen)?;
    let configs = configs_of(alloc, 2, 2, Method::Basic, 2, 1)?;
    let ends = ends_of(
        rt,
        bank_of(alloc, &configs, 1)?,
        loops_of(alloc, 2, 2)?,
        offers_of(alloc, 2, 1, 2)?,
        gate,
        plan_of(20_000, None),
    )?;
    holds(read(&seen.missed) == 0 && read(&seen.met) >= least)?;
    are_legal(alloc, &configs, &ends)?;
    for end in ends.iter() {
        holds(end.closed.books.messages == 2 && end.users.iter().all(|user| user.is_ok()))?;
    }
    Ok(())
}

#[test]
fn sets_run_at_the_same_time(rt: HostRuntime) -> Result<(), Fail> {
    all_meet(&rt, rt.alloc(), Meeting::Sets, 2)
}

#[test]
fn links_run_at_the_same_time(rt: HostRuntime) -> Result<(), Fail> {
    all_meet(&rt, rt.alloc(), Meeting::Links, 4)
}

#[test]
fn users_run_beside_terminals(rt: HostRuntime) -> Result<(), Fail> {
    all_meet(&rt, rt.alloc(), Meeting::Users, 4)
}
