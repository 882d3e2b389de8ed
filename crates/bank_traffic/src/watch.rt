//! What the gates of two banks know of sets whose links they manage.

ghost use Rattle.std.specs.Prelude.{◌↔◌, IsTrue};
ghost use Rattle.bank_traffic.specs.Managing.{IsAllDone, IsHeldUp, IsRested};

use super::asked::Traffic;
use std::alloc::{AllocError, Global};
use std::sync::atomic::{AtomicBool, AtomicU64, Ordering};

/// How many messages of a user may be on their way (own): about a second of a link.
const WINDOW: u64 = 64;

/// By so many turns users begin, though not each link came up: ten seconds at 64 kbit/s.
const BEGIN_BY: u64 = 80_000;

/// A link that is out of service rests for so many turns before it's started again: T17 of Q.704 16.8, 0.8 s at
/// 64 kbit/s.
const REST: u64 = 6_400;

/// The link that is to fail is stopped so many turns after the users began, for each message of a user.
const TURNS_A_MESSAGE: u64 = 4;

/// One end of a link.
#[derive(Drop)]
pub(crate) struct LinkWatch {
    /// It's up at its set.
    up: AtomicBool,
    /// It was up at its set.
    came_up: AtomicBool,
    /// The turn in which it went out of service.
    out_since: AtomicU64,
    /// The turn in which it was seen first that the users had begun; 0 before.
    began: AtomicU64,
    /// It was told to stop.
    stopped: AtomicBool,
    /// It was told to stop, and came up since.
    came_back: AtomicBool,
}

impl LinkWatch {
    fn new() -> LinkWatch {
        LinkWatch {
            up: AtomicBool::new(false),
            came_up: AtomicBool::new(false),
            out_since: AtomicU64::new(0),
            began: AtomicU64::new(0),
            stopped: AtomicBool::new(false),
            came_back: AtomicBool::new(false),
        }
    }

    /// The link came up.
    pub(crate) fn rise(&self) {
        self.up.store(true, Ordering::SeqCst);
        self.came_up.store(true, Ordering::SeqCst);
        if self.stopped.load(Ordering::SeqCst) {
            self.came_back.store(true, Ordering::SeqCst);
        }
    }

    /// The link failed in this turn.
    pub(crate) fn fall(&self, turn: u64) {
        self.up.store(false, Ordering::SeqCst);
        self.out_since.store(turn, Ordering::SeqCst);
    }

    /// Whether it's up at its set.
    pub(crate) fn is_up(&self) -> bool {
        self.up.load(Ordering::SeqCst)
    }

    /// How it stands.
    pub(crate) fn seen(&self) -> LinkSeen {
        LinkSeen {
            up: self.up.load(Ordering::SeqCst),
            out_since: self.out_since.load(Ordering::SeqCst),
        }
    }
}

/// How one end of a link stands.
#[derive(Clone, Copy)]
pub(crate) struct LinkSeen {
    /// It's up at its set.
    pub(crate) up: bool,
    /// The turn in which it went out of service.
    pub(crate) out_since: u64,
}

impl LinkSeen {
    /// Whether it rested long enough in this turn to be started again.
    pub(crate) fn is_rested(self, turn: u64) -> bool
        ensures { IsTrue result ↔ IsRested self.up self.out_since turn }
    {
        !self.up && turn.saturating_sub(self.out_since) >= REST
    }
}

/// One set, at both its ends.
#[derive(Drop)]
pub(crate) struct SetWatch {
    /// Of each link, end a and then end b.
    links: Vec<LinkWatch>,
    /// The messages of each stream that end b accepted.
    heard: Vec<AtomicU64>,
    /// The messages of all streams that end a gave up.
    given_up: AtomicU64,
    /// The calls of each user at end a.
    calls: Vec<AtomicU64>,
    /// The calls of the user at end b.
    takes: AtomicU64,
    /// All was offered, and nothing waits or is unacknowledged.
    quiet: AtomicBool,
    /// How many terminals take no more turns at end a.
    near_ended: AtomicU64,
    /// How many take none at end b.
    far_ended: AtomicU64,
}

impl SetWatch {
    pub(crate) fn new(alloc: Global, traffic: &Traffic) -> Result<SetWatch, AllocError> {
        let mut links = Vec::new(alloc);
        for _end in 0..2 * u16::from(traffic.links) {
            links.reserve(1)?;
            links.push_reserved(LinkWatch::new());
        }
        Ok(SetWatch {
            links,
            heard: counters(alloc, 16)?,
            given_up: AtomicU64::new(0),
            calls: counters(alloc, traffic.users)?,
            takes: AtomicU64::new(0),
            quiet: AtomicBool::new(false),
            near_ended: AtomicU64::new(0),
            far_ended: AtomicU64::new(0),
        })
    }

    /// This end of a link.
    pub(crate) fn at(&self, link: u8, is_near: bool) -> Option<&LinkWatch> {
        let far = if is_near { 0 } else { 1 };
        self.links.get(usize::from(link) * 2 + far)
    }

    /// End a gave up so many messages until now: no user waits for them.
    pub(crate) fn give_up(&self, many: u64) {
        self.given_up.store(many, Ordering::SeqCst);
    }

    /// A user is about to call.
    pub(crate) fn call(&self, user: u16, is_near: bool) {
        if !is_near {
            add_one(&self.takes);
        } else if let Some(calls) = self.calls.get(usize::from(user)) {
            add_one(calls);
        }
    }

    /// End b accepted a message of this stream.
    pub(crate) fn hear(&self, stream: u8) {
        if let Some(heard) = self.heard.get(usize::from(stream)) {
            add_one(heard);
        }
    }

    /// How many messages end b accepted.
    pub(crate) fn heard_in_all(&self) -> u64 {
        sum_of(&self.heard)
    }

    /// A terminal takes no more turns.
    pub(crate) fn end(&self, is_near: bool) {
        add_one(if is_near {
            &self.near_ended
        } else {
            &self.far_ended
        });
    }

    /// Whether nothing more is to come: all is done, or this end's terminals take no more turns.
    pub(crate) fn is_over(&self, is_near: bool) -> bool {
        let ended = if is_near {
            &self.near_ended
        } else {
            &self.far_ended
        };
        self.quiet.load(Ordering::SeqCst)
            || read(ended).saturating_mul(2) >= self.links.len() as u64
    }

    /// Whether each link came up at both its ends, or it's too late to wait for that.
    fn has_begun(&self, turn: u64) -> bool {
        turn >= BEGIN_BY
            || self
                .links
                .iter()
                .all(|link| link.came_up.load(Ordering::SeqCst))
    }

    /// Whether a user at end a is to wait before the call that it's about to make, in this turn of some terminal.
    pub(crate) fn holds_sender(&self, user: u16, turn: u64) -> bool {
        if !self.has_begun(turn) {
            return true;
        }
        let (Some(calls), Some(heard)) = (
            self.calls.get(usize::from(user)),
            self.heard.get(usize::from(user % 16)),
        ) else {
            return false;
        };
        // it offers a message, and then finds it
        let offered = read(calls).saturating_sub(1) / 2;
        is_held_up(offered, read(heard), read(&self.given_up))
    }

    /// Whether the user at end b is to wait before the call that it's about to make.
    pub(crate) fn holds_taker(&self) -> bool {
        self.heard_in_all() < read(&self.takes)
    }

    /// Whether each user at end a has offered all its messages.
    pub(crate) fn has_offered_all(&self, messages: u16) -> bool {
        self.calls
            .iter()
            .all(|calls| read(calls) >= 2 * u64::from(messages))
    }

    /// Whether the link at end a that is to fail is to be stopped in this turn, where `open` messages aren't finished.
    pub(crate) fn stops(&self, link: &LinkWatch, messages: u16, turn: u64, open: u64) -> bool {
        if link.stopped.load(Ordering::SeqCst) || !self.has_begun(turn) {
            return false;
        }
        let began = read(&link.began);
        if began == 0 {
            link.began.store(turn, Ordering::SeqCst);
            return false;
        }
        let late = turn.saturating_sub(began) >= TURNS_A_MESSAGE * u64::from(messages);
        let stops = late || open == 0 && self.has_offered_all(messages);
        if stops {
            link.stopped.store(true, Ordering::SeqCst);
        }
        stops
    }

    /// Whether this link at end a was told to stop, and came up since; true where the set hasn't got it.
    pub(crate) fn has_come_back(&self, link: u8) -> bool {
        match self.at(link, true) {
            Some(link) => link.came_back.load(Ordering::SeqCst),
            None => true,
        }
    }

    /// All is done where the link that was to fail came back, all was offered, and each message is finished: whether that is so.
    pub(crate) fn settle(&self, came_back: bool, offered_all: bool, unfinished: u64) -> bool
        ensures { IsTrue result ↔ IsAllDone came_back offered_all unfinished }
    {
        let done = ends_set(came_back, offered_all, unfinished);
        if done {
            self.quiet.store(true, Ordering::SeqCst);
        }
        done
    }
}

/// Whether a user waits: so many messages that it offered are neither heard nor given up as may be on their way.
fn is_held_up(offered: u64, heard: u64, given_up: u64) -> bool
    ensures { IsTrue result ↔ IsHeldUp offered heard given_up }
{
    offered.saturating_sub(heard).saturating_sub(given_up) >= WINDOW
}

/// Whether all is done: the link that was to fail came back, all was offered, and so many messages aren't finished.
fn ends_set(came_back: bool, offered_all: bool, unfinished: u64) -> bool
    ensures { IsTrue result ↔ IsAllDone came_back offered_all unfinished }
{
    came_back && offered_all && unfinished == 0
}

fn counters(alloc: Global, many: u16) -> Result<Vec<AtomicU64>, AllocError> {
    let mut counters = Vec::new(alloc);
    for _one in 0..many {
        counters.reserve(1)?;
        counters.push_reserved(AtomicU64::new(0));
    }
    Ok(counters)
}

fn add_one(counter: &AtomicU64) {
    counter.fetch_add(1, Ordering::SeqCst);
}

fn read(counter: &AtomicU64) -> u64 {
    counter.load(Ordering::SeqCst)
}

fn sum_of(counters: &[AtomicU64]) -> u64 {
    let mut sum: u64 = 0;
    for counter in counters {
        sum = sum.saturating_add(read(counter));
    }
    sum
}
