//! Sets that run in threads, and what they come to.
ghost use Rattle.std.specs.Prelude.{◌≡◌, length, map, vec_len, Ok, IfOk, IfErr, OnOk};
ghost use Rattle.std.specs.List.{AllZip};
ghost use Rattle.bank_crew.specs.Ends.{lined_task};
ghost use Rattle.bank_crew.specs.Jobs.{duty_of};
ghost use Rattle.bank_core.specs.Ends.{AreEndsOver, outcome};
ghost use Rattle.bank_core.specs.Promises.{Keeps, promised};
ghost use Rattle.bank_core.specs.Faults.{CannotStart, EndsEarly, TellsFirst};
ghost use Rattle.bank_core.specs.Room.{IsRoomFor};

use super::fault::BankFault;
use bank_crew::{
    CrewFault, Job, LinkManager, Plan, SetEnd, Work, ask_for_stack, one_set, why_unstarted,
};
use line_ring::Line;
use set_events::SetConfig;
use std::alloc::{AllocError, Global};
use std::marker::Model;
use std::snapshot::Snapshot;
use std::sync::Wait;
use std::thread;
use std::thread::{Promise, PromisedHandle, Threads};
use std::time::Clock;

/// What a set's thread promises: the end of the set of this configuration, with so many users, these lines and jobs, and
/// this plan; or why there is none.
#[derive(Drop)]
pub(crate) struct EndOf<L: Line + Drop> {
    pub(crate) config: SetConfig,
    pub(crate) users: u16,
    pub(crate) lines: Snapshot<Vec<L>>,
    pub(crate) jobs: Snapshot<Vec<Job>>,
    pub(crate) plan: Plan,
}

impl<L: Line + Drop> Promise<Result<SetEnd, CrewFault>> for EndOf<L> {
    ghost use Rattle.bank_core.specs.Promises.{Keeps};

    ghost kept_by = { Keeps L.Line };
}

/// The thread of a set.
pub(crate) type SetThread<L> = PromisedHandle<Result<SetEnd, CrewFault>, EndOf<L>>;

/// A bank whose sets run. Contracts see what each is to do, in order. Where it's dropped they run on, and nobody
/// learns what they come to.
#[derive(Drop)]
pub struct Running<L: Line + Drop> {
    threads: Vec<SetThread<L>>,
    room: Room,
}

/// Two empty lists, with room for what each set's thread answers, and for the end of each set.
#[derive(Drop)]
pub(crate) struct Room {
    pub(crate) answers: Vec<Result<SetEnd, CrewFault>>,
    pub(crate) ends: Vec<SetEnd>,
}

impl<L: Line + Drop> Model for Running<L> {
    ghost use Rattle.std.specs.Prelude.{List};
    ghost use Rattle.bank_crew.specs.Ends.{LinedTask};

    ghost Value = { List (LinedTask L) };

    ghost use Rattle.std.specs.Prelude.{◌≡◌, ◌≤◌, [], map, vec_len, vec_capacity};
    ghost use Rattle.bank_core.specs.Promises.{promised};

    ghost view = { λ r. map (λ thread. promised thread.promise) r.threads.items };

    ghost invariant = { λ r. ((r.room.answers.items ≡ []) × (vec_len r.room.answers ≡ 0)
        × (vec_len r.threads ≤ vec_capacity r.room.answers))
        × ((r.room.ends.items ≡ []) × (vec_len r.room.ends ≡ 0)
        × (vec_len r.threads ≤ vec_capacity r.room.ends)) };
}

impl<L: Line + Drop + Send + 'static> Running<L> {
    /// A thread for each of these sets.
    pub(crate) fn start<
        G: LinkManager + Drop + Send + Sync + 'static,
        R: Threads + Wait + Clock + Copy + Send + Sync + 'static,
    >(rt: &R, alloc: Global, works: Vec<Work<L, G>>) -> Result<Running<L>, BankFault>
        ensures running { IfOk result (λ running. running ≡ map (λ work. lined_task work.config work.users work.lines.items (map duty_of work.jobs.items) work.assignment.plan) works.items) }
        ensures fault { IfErr result CannotStart }
    {
        match room_for(alloc, works.len()) {
            Ok((mut threads, room)) => match start_each(rt, alloc, works, &mut threads) {
                Ok(()) => Ok(Running { threads, room }),
                Err(fault) => {
                    wait_for(rt, threads);
                    Err(fault)
                }
            },
            Err(_) => Err(BankFault::NoMemory),
        }
    }

    /// Waits for all sets, and hands out what each came to, in the order of their configurations. Each terminal ran over the line
    /// that was handed in for its link. It takes no memory.
    ///
    /// Faults, of the first set that ended so, once all threads have ended: 1 [`BankFault::NoMemory`],
    /// 4 [`BankFault::NoThread`], 5 [`BankFault::Unclosed`]. The ends of the other sets are given up then.
    pub fn join<R: Threads + Wait>(self, rt: &R) -> Result<Vec<SetEnd>, BankFault>
        ensures ends { IfOk result (λ ends. AreEndsOver L.Line self ends.items) }
        ensures early { IfErr result EndsEarly }
    {
        let Room { answers, ends } = self.room;
        let answers = wait_for_all(rt, self.threads, answers);
        sort_out(answers, ends)
    }
}

/// Waits for all these threads: what each answers, put into this room.
fn wait_for_all<L: Line + Drop, R: Threads>(
    rt: &R,
    threads: Vec<SetThread<L>>,
    room: Vec<Result<SetEnd, CrewFault>>,
) -> Vec<Result<SetEnd, CrewFault>>
    requires { IsRoomFor (length threads.items) room }
    ensures answers { AllZip (Keeps L.Line) (map (λ thread. thread.promise) threads.items) result.items }
    ensures few { length result.items ≡ length threads.items }
{
    let mut answers = room;
    for thread in threads {
        answers.push_reserved(thread.join(rt));
    }
    answers
}

/// What [`Running::join`] makes of the answers of the sets' threads, once all have ended: the ends that the sets came to,
/// put into this room, or else the fault of the first that came to none.
///
/// Faults: 1 [`BankFault::NoMemory`], 4 [`BankFault::NoThread`], 5 [`BankFault::Unclosed`], as that set answered.
pub fn sort_out(
    answers: Vec<Result<SetEnd, CrewFault>>,
    room: Vec<SetEnd>,
) -> Result<Vec<SetEnd>, BankFault>
    requires { IsRoomFor (length answers.items) room }
    ensures ends { IfOk result (λ ends. outcome answers.items ≡ Ok ends.items) }
    ensures first { IfErr result (TellsFirst answers.items) }
    ensures early { IfErr result EndsEarly }
{
    let mut ends = room;
    let mut answers = answers.into_iter();
    while let Some(answer) = answers.next() {
        ends.push_reserved(answer?);
    }
    Ok(ends)
}

/// Room for the threads of so many sets, for what they answer, and for their ends.
fn room_for<L: Line + Drop>(
    alloc: Global,
    sets: usize,
) -> Result<(Vec<SetThread<L>>, Room), AllocError>
    ensures threads { IfOk result (λ room. IsRoomFor sets room.0) }
    ensures answers { IfOk result (λ room. IsRoomFor sets room.1.answers) }
    ensures ends { IfOk result (λ room. IsRoomFor sets room.1.ends) }
{
    let threads = Vec::with_capacity(alloc, sets)?;
    let answers = Vec::with_capacity(alloc, sets)?;
    let ends = Vec::with_capacity(alloc, sets)?;
    Ok((threads, Room { answers, ends }))
}

/// Starts a thread for each of these sets, up to the first that can't be started.
fn start_each<
    L: Line + Drop + Send + 'static,
    G: LinkManager + Drop + Send + Sync + 'static,
    R: Threads + Wait + Clock + Copy + Send + Sync + 'static,
>(
    rt: &R,
    alloc: Global,
    works: Vec<Work<L, G>>,
    threads: &mut Vec<SetThread<L>>,
) -> Result<(), BankFault>
    requires room { IsRoomFor (length works.items) threads.old }
    ensures started { OnOk result (map (λ thread. promised thread.promise) threads.new.items
        ≡ map (λ work. lined_task work.config work.users work.lines.items (map duty_of work.jobs.items) work.assignment.plan) works.items) }
    ensures few { OnOk result (vec_len threads.new ≡ length works.items) }
    ensures fault { IfErr result CannotStart }
{
    for work in works {
        threads.push_reserved(start_one(rt, alloc, work)?);
    }
    Ok(())
}

/// Starts the thread of one set.
fn start_one<
    L: Line + Drop + Send + 'static,
    G: LinkManager + Drop + Send + Sync + 'static,
    R: Threads + Wait + Clock + Copy + Send + Sync + 'static,
>(rt: &R, alloc: Global, work: Work<L, G>) -> Result<SetThread<L>, BankFault>
    ensures started { IfOk result (λ thread. promised thread.promise ≡ lined_task work.config work.users work.lines.items
        (map duty_of work.jobs.items) work.assignment.plan) }
    ensures fault { IfErr result CannotStart }
{
    let own = *rt;
    let end = EndOf {
        config: work.config,
        users: work.users,
        lines: Snapshot::of(&work.lines),
        jobs: Snapshot::of(&work.jobs),
        plan: work.assignment.plan,
    };
    match thread::spawn_with(rt, end, move || one_set(&own, alloc, work)) {
        Ok(thread) => Ok(thread),
        Err(_) => Err(BankFault::from(why_unstarted(&ask_for_stack(alloc)))),
    }
}

/// Waits for these threads, whatever they come to. It's a function for all types: to let go of a set's end is dear to prove.
fn wait_for<T: Drop, P: Promise<T>, R: Threads>(rt: &R, threads: Vec<PromisedHandle<T, P>>) {
    for thread in threads {
        let _ = thread.join(rt);
    }
}
