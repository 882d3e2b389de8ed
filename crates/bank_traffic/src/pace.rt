//! The gate that keeps the two ends of each link beside one another.

use super::management::Management;
use link_term::Gate;
use std::alloc::{AllocError, Global};
use std::sync::Arc;
use std::sync::atomic::{AtomicBool, AtomicU64, Ordering};
use std::thread;

/// How many turns a terminal may be ahead of the one at the other end.
const LEAD: u64 = 64;

/// How many turns a terminal of a managed set may be ahead of the set's last one: what is timed on one link has to do with
/// what passes on the others.
const SET_LEAD: u64 = 1_024;

/// How often a terminal yields to other threads before it goes on without one that hasn't begun.
const PATIENCE: u64 = 16_000_000;

/// The turns of one link's terminals.
#[derive(Drop)]
struct LinkTurns {
    /// How many turns the terminal at end a has begun.
    near: AtomicU64,
    /// How many turns the terminal at end b has begun.
    far: AtomicU64,
    /// Whether an end waited in vain for the other to begin, so that nobody waits for it until it does.
    apart: AtomicBool,
    /// Whether a terminal takes no more turns.
    ended: AtomicBool,
}

impl LinkTurns {
    /// Whether nobody waits for its terminals.
    fn is_left(&self) -> bool {
        self.ended.load(Ordering::SeqCst) || self.apart.load(Ordering::SeqCst)
    }

    /// How many turns both its terminals have begun, where somebody waits for them.
    fn least(&self) -> u64 {
        if self.is_left() {
            return u64::MAX;
        }
        self.least_begun()
    }

    /// How many turns both its terminals have begun; 0 where one hasn't begun.
    fn least_begun(&self) -> u64 {
        let near = self.near.load(Ordering::SeqCst);
        near.min(self.far.load(Ordering::SeqCst))
    }

    /// One turn more begins at this end: what it was.
    fn begin(&self, is_near: bool) -> u64 {
        let own = if is_near { &self.near } else { &self.far };
        let begun = own.fetch_add(1, Ordering::SeqCst);
        if begun == 0 {
            // who comes late is waited for from here on
            self.apart.store(false, Ordering::SeqCst);
        }
        begun
    }

    /// How many turns the other end has begun.
    fn begun_by_other(&self, is_near: bool) -> u64 {
        let other = if is_near { &self.far } else { &self.near };
        other.load(Ordering::SeqCst)
    }

    /// Nobody waits for it, until it begins.
    fn part(&self) {
        self.apart.store(true, Ordering::SeqCst);
    }
}

/// The gate of one of two banks: a terminal that is 64 turns ahead of the one at the other end of its link yields to
/// other threads until that is no longer so, however long that takes, or until the other takes no more turns. Where links
/// are managed, a terminal that is 1,024 turns ahead of the last one of its set yields too. Whoever hasn't begun may never
/// do so, where its thread couldn't be started: after 16,000,000 yields nobody waits for it, until it begins.
#[derive(Drop)]
pub struct PaceGate {
    /// Those of link 0 of set 0, of link 1 of set 0, .., of link 0 of set 1, ..
    turns: Arc<Vec<LinkTurns>, Global>,
    links: u8,
    is_near: bool,
    /// Where the links are managed, what both gates know.
    management: Option<Arc<Management, Global>>,
}

/// The gates of the bank of the ends a and of that of the ends b, for sets 0, 1, .., each of so many links.
pub fn pace_gates(alloc: Global, sets: u16, links: u8) -> Result<(PaceGate, PaceGate), AllocError> {
    let mut turns = Vec::new(alloc);
    for _set in 0..sets {
        for _link in 0..links {
            turns.reserve(1)?;
            turns.push_reserved(LinkTurns {
                near: AtomicU64::new(0),
                far: AtomicU64::new(0),
                apart: AtomicBool::new(false),
                ended: AtomicBool::new(false),
            });
        }
    }
    let near = PaceGate {
        turns: Arc::new(alloc, turns)?,
        links,
        is_near: true,
        management: None,
    };
    let far = PaceGate {
        is_near: false,
        ..near.clone()?
    };
    Ok((near, far))
}

impl PaceGate {
    /// How many turns the terminals at the ends a have begun, of all links together.
    pub fn near_turns(&self) -> u64 {
        let mut sum: u64 = 0;
        for turns in self.turns.iter() {
            sum = sum.saturating_add(turns.near.load(Ordering::SeqCst));
        }
        sum
    }

    /// How many messages the ends b accepted, where the links are managed.
    pub fn heard(&self) -> Option<u64> {
        match &self.management {
            Some(both) => Some(both.heard()),
            None => None,
        }
    }

    /// This gate, where the links are managed.
    pub(crate) fn managed_by(self, both: Arc<Management, Global>) -> PaceGate {
        PaceGate {
            management: Some(both),
            ..self
        }
    }

    /// What both gates know, where the links are managed.
    pub(crate) fn management(&self) -> Option<&Management> {
        match &self.management {
            Some(both) => Some(both),
            None => None,
        }
    }

    /// Whether it's the gate of the ends a.
    pub(crate) fn is_near(&self) -> bool {
        self.is_near
    }

    /// How many turns the terminal of this link has begun at this gate's end.
    pub(crate) fn turn(&self, set: u16, link: u8) -> u64 {
        match self.turns_of(set, link) {
            Some(turns) if self.is_near => turns.near.load(Ordering::SeqCst),
            Some(turns) => turns.far.load(Ordering::SeqCst),
            None => 0,
        }
    }

    /// The terminal of this link takes no more turns, so that nobody waits for it.
    pub(crate) fn leave(&self, set: u16, link: u8) {
        if let Some(turns) = self.turns_of(set, link) {
            turns.ended.store(true, Ordering::SeqCst);
        }
    }

    /// How many turns the last terminal of this set has begun, of those that take turns yet.
    fn least_of(&self, set: u16) -> u64 {
        let mut least = u64::MAX;
        for link in 0..self.links {
            if let Some(turns) = self.turns_of(set, link) {
                least = least.min(turns.least());
            }
        }
        least
    }

    /// A turn of a link of this set, which has begun so many, goes on once the set's last terminal isn't too far behind.
    fn keep_to_set(&self, set: u16, begun: u64) {
        for time in 0..u64::MAX {
            if begun < self.least_of(set).saturating_add(SET_LEAD) {
                return;
            }
            if time >= PATIENCE {
                self.part_from_unbegun(set);
            }
            thread::yield_now();
        }
    }

    /// Nobody waits for the links of this set of which an end hasn't begun.
    fn part_from_unbegun(&self, set: u16) {
        for link in 0..self.links {
            if let Some(turns) = self.turns_of(set, link) {
                if turns.least_begun() == 0 {
                    turns.part();
                }
            }
        }
    }

    /// A turn of this link begins, and goes on once the other end isn't too far behind.
    fn keep_pace(&self, turns: &LinkTurns) {
        let begun = turns.begin(self.is_near);
        for time in 0..u64::MAX {
            let other = turns.begun_by_other(self.is_near);
            if begun < other.saturating_add(LEAD) || turns.is_left() {
                return;
            }
            if other == 0 && time >= PATIENCE {
                turns.part();
            }
            thread::yield_now();
        }
    }

    fn turns_of(&self, set: u16, link: u8) -> Option<&LinkTurns> {
        let place = usize::from(set) * usize::from(self.links) + usize::from(link);
        self.turns.get(place)
    }
}

impl Clone for PaceGate {
    fn clone(&self) -> Result<PaceGate, AllocError> {
        Ok(PaceGate {
            turns: Arc::try_clone(&self.turns)?,
            links: self.links,
            is_near: self.is_near,
            management: match &self.management {
                Some(both) => Some(Arc::try_clone(both)?),
                None => None,
            },
        })
    }
}

impl Gate for PaceGate {
    fn outside(&self, set: u16, link: u8) {
        let Some(turns) = self.turns_of(set, link) else {
            return;
        };
        self.keep_pace(turns);
        if self.management.is_some() && !turns.is_left() {
            self.keep_to_set(set, self.turn(set, link));
        }
    }

    fn inside(&self, _set: u16, _link: u8) {}

    fn user(&self, set: u16, user: u16) {
        if let Some(both) = self.management() {
            if let Some(watch) = both.set(set) {
                watch.call(user, self.is_near);
            }
        }
    }
}
