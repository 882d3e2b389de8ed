//! What a set's thread does.
ghost use Rattle.std.specs.Prelude.{◌≡◌, ◌<◌, ◌≤◌, ◌↔◌, [], length, map, All, IsTrue, IfErr, IfOk};
ghost use Rattle.std.specs.Vec.Iter.{into_iter_items};
ghost use Rattle.set_events.specs.declared.event.Actor.TheVariants.{User, Terminal};
ghost use Rattle.set_ledger.specs.Ending.{IsFaithful, IsTrulyFull};
ghost use Rattle.set_ledger.specs.Seats.{new_seats};
ghost use Rattle.set_ledger.specs.Totals.{AreParts};
ghost use Rattle.set_events.specs.declared.config.SetConfig.{SetConfig};
ghost use Rattle.set_model.specs.State.{settings_of};
ghost use Rattle.bank_crew.specs.Ends.{IsClosedAs, IsDoneOver, IsEndOf, lined_task};
ghost use Rattle.bank_crew.specs.Faults.{CannotStart};
ghost use Rattle.bank_crew.specs.Jobs.{duty_of};
ghost use Rattle.bank_crew.specs.declared.fault.CrewFault.TheVariants.{Unclosed};
ghost use Rattle.bank_crew.specs.Keeping.{AreNew, AreTerminals, AreUsers, PromiseJobs, PromiseShifts};

use super::assignment::Assignment;
use super::crew::{Crew, Gathered, TermThread, UserThread, start_thread};
use super::end::SetEnd;
use super::fault::CrewFault;
use super::manager::LinkManager;
use super::plan::Job;
use super::terminal::{ShiftOf, TermShift};
use super::user::{JobOf, UserShift};
use super::work::Work;
use line_ring::Line;
use set_events::SetConfig;
use set_shared::{Blanks, Closed, LinkSet, Opened, Opening, TermSeat, UserSeat};
use std::alloc::Global;
use std::marker::Brand;
use std::snapshot::Snapshot;
use std::sync::Wait;
use std::sync::ledger::Blank;
use std::thread;
use std::thread::{Scope, Threads};
use std::time::Clock;
use std::vec::IntoIter;

/// The seats of a set, with what is to be done at them.
#[derive(Drop)]
struct Seats<O: Opening, L: Drop> {
    users: Vec<UserSeat<O>>,
    jobs: Vec<Job>,
    terminals: Vec<TermSeat<O>>,
    lines: Vec<L>,
}

/// Opens a set, runs its terminals and users, and closes it.
///
/// A link that has no line isn't run, and a user that has no job makes no call; lines and jobs that are over are given
/// up. Each terminal is told to come up in an emergency before its first turn.
///
/// Faults, once all threads that were started have ended: [`CrewFault::NoMemory`], [`CrewFault::NoThread`],
/// [`CrewFault::Unclosed`].
pub fn one_set<
    L: Line + Drop + Send,
    G: LinkManager + Drop + Send + Sync,
    R: Threads + Wait + Clock + Sync,
>(rt: &R, alloc: Global, work: Work<L, G>) -> Result<SetEnd, CrewFault>
    ensures { IfOk result (IsDoneOver L.Line
        (lined_task work.config work.users work.lines.items (map duty_of work.jobs.items) work.assignment.plan)) }
{
    let users = u64::from(work.users);
    let links = u64::from(work.config.links);
    let blanks = Blanks {
        calls: Blank::new(users + links),
        messages: Blank::new(users),
        octets: Blank::new(users),
        acknowledged: Blank::new(links),
        full: Blank::new(users + links),
        checkpoints: Blank::new(users + links),
    };
    run_set::<Brand, L, G, R>(rt, alloc, work, blanks)
}

/// [`one_set`], with these blanks for the set's ledgers.
fn run_set<
    O: Opening + Send + Sync,
    L: Line + Drop + Send,
    G: LinkManager + Drop + Send + Sync,
    R: Threads + Wait + Clock + Sync,
>(rt: &R, alloc: Global, work: Work<L, G>, blanks: Blanks) -> Result<SetEnd, CrewFault>
    requires blanks { blanks ≡ O.blanks }
    requires parts { AreParts O.blanks work.users work.config.links }
    requires opening { settings_of work.config ≡ O.settings }
    ensures { IfOk result (IsDoneOver L.Line
        (lined_task work.config work.users work.lines.items (map duty_of work.jobs.items) work.assignment.plan)) }
{
    let config = work.config;
    match LinkSet::<O>::create(alloc, &config, work.users, blanks) {
        Ok(opened) => run_opened(rt, alloc, opened, work),
        Err(_) => Err(CrewFault::NoMemory),
    }
}

/// Runs the terminals and users of a set that was opened, and closes it.
fn run_opened<
    O: Opening + Send + Sync,
    L: Line + Drop + Send,
    G: LinkManager + Drop + Send + Sync,
    R: Threads + Wait + Clock + Sync,
>(rt: &R, alloc: Global, opened: Opened<O>, work: Work<L, G>) -> Result<SetEnd, CrewFault>
    requires users { opened.users.items ≡ new_seats User work.users }
    requires terminals { opened.terminals.items ≡ new_seats Terminal work.config.links }
    requires opening { settings_of work.config ≡ O.settings }
    ensures { IfOk result (IsDoneOver L.Line
        (lined_task work.config work.users work.lines.items (map duty_of work.jobs.items) work.assignment.plan)) }
{
    let Opened {
        set,
        users,
        terminals,
    } = opened;
    let Work {
        config: _,
        users: _,
        lines,
        jobs,
        assignment,
    } = work;
    let seats = Seats {
        users,
        jobs,
        terminals,
        lines,
    };
    match run_seats(rt, alloc, &set, seats, &assignment) {
        Ok(gathered) => end_set(set, gathered),
        Err(fault) => Err(fault),
    }
}

/// What a set came to whose seats are gathered: it was opened with the settings that its type tells.
fn end_set<O: Opening>(set: LinkSet<O>, gathered: Gathered<O>) -> Result<SetEnd, CrewFault>
    ensures closed { (config : SetConfig) → settings_of config ≡ O.settings → IfOk result (IsEndOf config) }
    ensures users { IfOk result (λ end. (end.users.items ≡ gathered.user_ends.items)
        × All (IsFaithful end.closed.base.books end.closed.history.items) gathered.users.items
        × All (IsTrulyFull end.closed.base end.closed.history.items) gathered.users.items) }
    ensures terminals { IfOk result (λ end. All (IsFaithful end.closed.base.books end.closed.history.items) gathered.terminals.items
        × All (IsTrulyFull end.closed.base end.closed.history.items) gathered.terminals.items) }
    ensures reports { IfOk result (λ end. end.reports.items ≡ gathered.reports.items) }
    ensures unclosed { IfErr result (λ fault. fault ≡ Unclosed) }
{
    let Gathered {
        users,
        user_ends,
        terminals,
        reports,
    } = gathered;
    let closed = close(set, users, terminals)?;
    Ok(SetEnd {
        closed,
        reports,
        users: user_ends,
    })
}

/// Closes a set whose seats are gathered.
fn close<O: Opening>(
    set: LinkSet<O>,
    users: Vec<UserSeat<O>>,
    terminals: Vec<TermSeat<O>>,
) -> Result<Closed, CrewFault>
    ensures closed { (config : SetConfig) → settings_of config ≡ O.settings → IfOk result (IsClosedAs config) }
    ensures users { IfOk result (λ closed. All (IsFaithful closed.base.books closed.history.items) users.items
        × All (IsTrulyFull closed.base closed.history.items) users.items) }
    ensures terminals { IfOk result (λ closed. All (IsFaithful closed.base.books closed.history.items) terminals.items
        × All (IsTrulyFull closed.base closed.history.items) terminals.items) }
    ensures unclosed { IfErr result (λ fault. fault ≡ Unclosed) }
{
    match set.close(users, terminals) {
        Ok(closed) => Ok(closed),
        Err(back) => Err(unclosed(back)),
    }
}

/// Why a set that isn't closed comes to no end. What came back of it is let go here, by a function for all types: to let go of a
/// set of a known type is dear to prove.
fn unclosed<T: Drop>(_back: T) -> CrewFault
    ensures { result ≡ Unclosed }
{
    CrewFault::Unclosed
}

/// Runs each user with its job and each terminal with its line, in threads of their own, until all have ended. A seat
/// without a job or a line comes back as it is.
fn run_seats<
    O: Opening + Send + Sync,
    L: Line + Drop + Send,
    G: LinkManager + Drop + Send + Sync,
    R: Threads + Wait + Clock + Sync,
>(
    rt: &R,
    alloc: Global,
    set: &LinkSet<O>,
    seats: Seats<O, L>,
    assignment: &Assignment<G>,
) -> Result<Gathered<O>, CrewFault>
    requires users { AreNew User 0 seats.users.items }
    requires terminals { AreNew Terminal 0 seats.terminals.items }
    ensures users { IfOk result (λ all.
        AreUsers (length seats.users.items) (map duty_of seats.jobs.items) all.users.items all.user_ends.items) }
    ensures terminals { IfOk result (λ all. AreTerminals L.Line seats.lines.items (length seats.terminals.items)
        assignment.now.plan all.terminals.items all.reports.items) }
    ensures fault { IfErr result CannotStart }
{
    thread::scope(
        thread::scope_env(),
        rt,
        |scope| -> Result<Gathered<O>, CrewFault>
            requires users { AreNew User 0 seats.users.items }
            requires terminals { AreNew Terminal 0 seats.terminals.items }
            ensures users { IfOk result (λ all.
                AreUsers (length seats.users.items) (map duty_of seats.jobs.items) all.users.items all.user_ends.items) }
            ensures terminals { IfOk result (λ all. AreTerminals L.Line seats.lines.items (length seats.terminals.items)
                assignment.entry.now.plan all.terminals.items all.reports.items) }
            ensures fault { IfErr result CannotStart }
        {
            match start_all(scope, rt, alloc, set, seats, assignment) {
                Ok(crew) => crew.gather(rt, alloc),
                Err(fault) => Err(fault),
            }
        },
    )
}

/// Starts the threads of the terminals, and then those of the users.
fn start_all<
    's,
    'e: 's,
    O: Opening + Send + Sync + 's,
    L: Line + Drop + Send + 's,
    G: LinkManager + Drop + Send + Sync + 's,
    R: Threads + Wait + Clock + Sync + 's,
>(
    scope: &'s Scope<'s, &'e ()>,
    rt: &'s R,
    alloc: Global,
    set: &'s LinkSet<O>,
    seats: Seats<O, L>,
    assignment: &'s Assignment<G>,
) -> Result<Crew<O, L>, CrewFault>
    requires users { AreNew User 0 seats.users.items }
    requires terminals { AreNew Terminal 0 seats.terminals.items }
    ensures users { IfOk result (λ crew. PromiseJobs (length seats.users.items) (map duty_of seats.jobs.items)
        (map (λ thread. thread.promise) crew.users.items)) }
    ensures terminals { IfOk result (λ crew. PromiseShifts seats.lines.items (length seats.terminals.items)
        assignment.now.plan (map (λ thread. thread.promise) crew.terminals.items) (into_iter_items crew.idle)) }
    ensures fault { IfErr result CannotStart }
{
    let Seats {
        users,
        jobs,
        terminals,
        lines,
    } = seats;
    let mut left = terminals.into_iter();
    let terminals = start_terminals(scope, rt, alloc, set, &mut left, lines, assignment)?;
    let users = start_users(scope, rt, alloc, set, users, jobs, assignment)?;
    Ok(Crew {
        users,
        terminals,
        idle: left,
    })
}

/// Starts a thread for each terminal that has a line. The seats of the others are left.
fn start_terminals<
    's,
    'e: 's,
    O: Opening + Send + Sync + 's,
    L: Line + Drop + Send + 's,
    G: LinkManager + Drop + Send + Sync + 's,
    R: Threads + Wait + Clock + Sync + 's,
>(
    scope: &'s Scope<'s, &'e ()>,
    rt: &'s R,
    alloc: Global,
    set: &'s LinkSet<O>,
    seats: &mut IntoIter<TermSeat<O>, Global>,
    lines: Vec<L>,
    assignment: &'s Assignment<G>,
) -> Result<Vec<TermThread<O, L>>, CrewFault>
    requires { AreNew Terminal 0 (into_iter_items seats.old) }
    ensures shifts { IfOk result (λ threads. PromiseShifts lines.items (length (into_iter_items seats.old))
        assignment.now.plan (map (λ thread. thread.promise) threads.items) (into_iter_items seats.new)) }
    ensures fault { IfErr result CannotStart }
{
    let mut threads = Vec::new(alloc);
    let mut lines = lines.into_iter();
    while let Some(line) = lines.next() {
        let Some(seat) = seats.next() else {
            return Ok(threads);
        };
        let promise = ShiftOf {
            link: seat.link(),
            plan: assignment.plan,
            line: Snapshot::of(&line),
        };
        let shift = TermShift {
            rt,
            alloc,
            set,
            seat,
            line,
            assignment,
        };
        start_thread(scope, alloc, &mut threads, promise, move || shift.work())?;
    }
    Ok(threads)
}

/// Starts a thread for each user. One that has no job makes no call.
fn start_users<
    's,
    'e: 's,
    O: Opening + Send + Sync + 's,
    G: LinkManager + Drop + Send + Sync + 's,
    R: Threads + Wait + Clock + Sync + 's,
>(
    scope: &'s Scope<'s, &'e ()>,
    rt: &'s R,
    alloc: Global,
    set: &'s LinkSet<O>,
    seats: Vec<UserSeat<O>>,
    jobs: Vec<Job>,
    assignment: &'s Assignment<G>,
) -> Result<Vec<UserThread<O>>, CrewFault>
    requires { AreNew User 0 seats.items }
    ensures jobs { IfOk result (λ threads. PromiseJobs (length seats.items) (map duty_of jobs.items)
        (map (λ thread. thread.promise) threads.items)) }
    ensures fault { IfErr result CannotStart }
{
    let mut seats = seats.into_iter();
    let mut jobs = jobs.into_iter();
    let mut threads = Vec::new(alloc);
    while let Some(seat) = seats.next() {
        let job = jobs.next().unwrap_or(NO_JOB);
        let promise = JobOf {
            user: seat.number(),
            job: Snapshot::of(&job),
        };
        let shift = UserShift {
            rt,
            alloc,
            set,
            seat,
            job,
            assignment,
        };
        start_thread(scope, alloc, &mut threads, promise, move || shift.work())?;
    }
    Ok(threads)
}

/// The job of a user that has none.
const NO_JOB: Job = Job::Take { times: 0 };
