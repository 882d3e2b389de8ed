//! Two banks of one set of two links, of which link 1 is longer towards end b. End a comes up on it first, sends, and is
//! stopped; its changeover order goes over link 0, and is faster than what is under way on link 1. Each message is taken once
//! (Q.704 5.1.1), and the link comes back.

use super::failing::{is_so, joined};
use super::openings::{LONG, bank_of, configs_of, message_of, rings_of};
use bank_core::{Job, Managed, Plan, Running};
use bank_crew::{Instruction, LinkManager, Sight};
use bank_traffic::TrafficEnds;
use l2_units::UnitRef;
use line_ring::{Line, RingLine};
use link_term::Gate;
use set_events::{AnswerRef, EventRef, Method};
use std::alloc::{AllocError, Global};
use std::sync::atomic::{AtomicU64, Ordering};
use std::sync::{Arc, Wait};
use std::test::Fail;
use std::thread;
use std::thread::Threads;
use std::time::Clock;

/// How many turns each terminal takes: link 1 is up a second time by then.
const TURNS: u64 = 24_000;

/// By this turn link 1 was left and settled, at both ends: it's started again.
const AGAIN: u64 = 10_000;

/// The turn in which the user at end b takes what was heard.
const TAKEN: u64 = 20_000;

/// How many messages are offered.
const MESSAGES: u16 = 3;

/// How many turns a terminal may be ahead of another.
const LEAD: u64 = 8;

/// How often a thread yields to the others before it gives up.
const PATIENCE: u32 = 100_000_000;

/// What both ends did.
#[derive(Drop)]
struct Done {
    /// The turns of links 0 and 1 at end a, and at end b.
    turns: [AtomicU64; 4],
    /// How often end a came up on link 1, and end b.
    ups: [AtomicU64; 2],
    /// How often the user at end a called.
    calls: AtomicU64,
    /// How many units end a sent on link 1 that bring a message.
    sent: AtomicU64,
    /// Whether link 1 was told to stop at end a, 1 where it was.
    stopped: AtomicU64,
    /// How often somebody waited in vain.
    missed: AtomicU64,
}

fn read(counter: &AtomicU64) -> u64 {
    counter.load(Ordering::SeqCst)
}

fn count(counter: &AtomicU64) {
    counter.fetch_add(1, Ordering::SeqCst);
}

fn zero() -> AtomicU64 {
    AtomicU64::new(0)
}

impl Done {
    fn nothing() -> Done {
        Done {
            turns: [zero(), zero(), zero(), zero()],
            ups: [zero(), zero()],
            calls: zero(),
            sent: zero(),
            stopped: zero(),
            missed: zero(),
        }
    }

    /// Waits until so many are counted. Once somebody has given up, nobody waits any more.
    fn wait_for(&self, counter: &AtomicU64, least: u64) {
        for _time in 0..PATIENCE {
            if read(counter) >= least || read(&self.missed) > 0 {
                return;
            }
            thread::yield_now();
        }
        count(&self.missed);
    }
}

/// The gate of one end: all four terminals are kept beside one another.
#[derive(Drop)]
struct LateGate {
    is_near: bool,
    done: Arc<Done, Global>,
}

impl Clone for LateGate {
    fn clone(&self) -> Result<LateGate, AllocError> {
        Ok(LateGate {
            is_near: self.is_near,
            done: Arc::try_clone(&self.done)?,
        })
    }
}

impl Gate for LateGate {
    fn outside(&self, _set: u16, link: u8) {
        let place = usize::from(link % 2) + if self.is_near { 0 } else { 2 };
        let Some(own) = self.done.turns.get(place) else {
            return;
        };
        count(own);
        let least = read(own).saturating_sub(LEAD);
        for other in &self.done.turns {
            self.done.wait_for(other, least);
        }
        if self.is_near && link == 1 && read(&self.done.ups[0]) > 0 {
            // each message is offered, and then looked for
            self.done
                .wait_for(&self.done.calls, 2 * u64::from(MESSAGES));
        }
    }

    fn inside(&self, _set: u16, _link: u8) {}

    fn user(&self, _set: u16, _user: u16) {
        if self.is_near {
            count(&self.done.calls);
        }
    }
}

impl LinkManager for LateGate {
    ghost lets = { λ gate set user. Unit {0} };

    fn holds_up(&self, _set: u16, _user: u16) -> bool {
        if read(&self.done.missed) > 0 {
            false
        } else if self.is_near {
            read(&self.done.ups[0]) == 0
        } else {
            read(&self.done.turns[2]) < TAKEN
        }
    }

    fn answered(&self, _set: u16, link: u8, event: &EventRef<'_>, answer: &AnswerRef<'_>) {
        if link != 1 {
            return;
        }
        match (event, answer) {
            (EventRef::Up { .. }, AnswerRef::Done) => {
                count(&self.done.ups[if self.is_near { 0 } else { 1 }]);
            }
            (
                EventRef::Next { .. },
                AnswerRef::Sent {
                    unit: UnitRef::Msu { .. },
                },
            ) if self.is_near => count(&self.done.sent),
            _ => {}
        }
    }

    fn instruct(&self, _set: u16, link: u8, _sight: &Sight) -> Instruction {
        if link != 1 || read(&self.done.sent) < u64::from(MESSAGES) {
            return Instruction::Run;
        }
        if self.is_near && read(&self.done.stopped) == 0 {
            count(&self.done.stopped);
            return Instruction::Stop;
        }
        if read(&self.done.turns[1]) < AGAIN {
            Instruction::Run
        } else {
            Instruction::Start
        }
    }

    fn ended(&self, _set: u16, _link: u8) {}
}

/// The links are managed.
fn plan() -> Plan {
    Plan {
        timers: LONG,
        turns: TURNS,
        fail: None,
        checkpoint: None,
        managed: Some(Managed { links: 2 }),
        keeps: false,
    }
}

/// Both banks, where so many octets more are under way on link 1 to end b.
fn ends_of_both<R: Threads + Wait + Clock + Copy + Send + Sync + 'static>(
    rt: &R,
    alloc: Global,
    method: Method,
    octets: u16,
    done: &Arc<Done, Global>,
) -> Result<TrafficEnds, Fail> {
    let lines = rings_of(alloc, 1, 2)?;
    let near = started(
        rt,
        alloc,
        method,
        lengthened(lines.near, octets),
        true,
        done,
    )?;
    let far = started(rt, alloc, method, lines.far, false, done);
    joined(rt, near, far)
}

/// One end.
fn started<R: Threads + Wait + Clock + Copy + Send + Sync + 'static>(
    rt: &R,
    alloc: Global,
    method: Method,
    lines: Vec<Vec<RingLine>>,
    is_near: bool,
    done: &Arc<Done, Global>,
) -> Result<Running<RingLine>, Fail> {
    let (own, far) = if is_near { (2, 1) } else { (1, 2) };
    let configs = configs_of(alloc, 1, 2, method, own, far)?;
    let gate = LateGate {
        is_near,
        done: Arc::try_clone(done)?,
    };
    let bank = bank_of(alloc, &configs, 1)?;
    match bank.start(rt, lines, jobs_of(alloc, is_near)?, gate, plan()) {
        Ok(running) => Ok(running),
        Err(_) => Err(Fail::from("not started")),
    }
}

/// Flags fill the line of link 1.
fn lengthened(mut lines: Vec<Vec<RingLine>>, octets: u16) -> Vec<Vec<RingLine>> {
    for of_set in lines.iter_mut() {
        if let Some(line) = of_set.get_mut(1) {
            for _octet in 0..octets {
                let _ = line.put(0x7E);
            }
        }
    }
    lines
}

/// The user at end a offers messages of a stream whose home is link 1; the one at end b takes what it gets.
fn jobs_of(alloc: Global, is_near: bool) -> Result<Vec<Vec<Job>>, Fail> {
    let mut bodies = Vec::new(alloc);
    for number in 0..MESSAGES {
        let body = Vec::from_slice(alloc, &message_of(1, number))?;
        bodies.reserve(1)?;
        bodies.push_reserved(body);
    }
    let job = if is_near {
        Job::Offer { bodies }
    } else {
        Job::Collect { times: 12 }
    };
    let mut jobs = Vec::new(alloc);
    jobs.reserve(1)?;
    jobs.push_reserved(job);
    let mut all = Vec::new(alloc);
    all.reserve(1)?;
    all.push_reserved(jobs);
    Ok(all)
}

/// The user at end b took each message once, in order.
fn are_taken_once(ends: &TrafficEnds) -> bool {
    let Some(end) = ends.far.first() else {
        return false;
    };
    let Some(Ok(report)) = end.users.first() else {
        return false;
    };
    report.taken.len() == usize::from(MESSAGES)
        && report.taken.iter().enumerate().all(|(number, body)| body.as_slice()
            == message_of(1, number as u16).as_slice())
}

/// So it goes with so many octets more on the line.
fn is_once<R: Threads + Wait + Clock + Copy + Send + Sync + 'static>(
    rt: &R,
    alloc: Global,
    method: Method,
    octets: u16,
) -> Result<(), Fail> {
    let done = Arc::new(alloc, Done::nothing())?;
    let ends = ends_of_both(rt, alloc, method, octets, &done)?;
    is_so(read(&done.missed) == 0, "somebody waited in vain")?;
    is_so(read(&done.stopped) == 1, "link 1 wasn't told to stop")?;
    is_so(
        read(&done.ups[0]) > 1 && read(&done.ups[1]) > 0,
        "link 1 didn't come back",
    )?;
    is_so(are_taken_once(&ends), "messages weren't taken once each")
}

#[test]
fn messages_come_once_where_a_link_is_left_early(rt: HostRuntime) -> Result<(), Fail> {
    for octets in [400, 1_500] {
        is_once(&rt, rt.alloc(), Method::Basic, octets)?;
    }
    Ok(())
}
