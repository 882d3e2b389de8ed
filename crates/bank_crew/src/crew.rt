//! The threads of one set.
ghost use Rattle.std.specs.Prelude.{◌≡◌, ◌++◌, [], ◌∷◌, map, IfErr, IfOk, OnOk};
ghost use Rattle.std.specs.Vec.Iter.{into_iter_items};
ghost use Rattle.bank_crew.specs.Faults.{CannotStart, IsUnstarted};
ghost use Rattle.bank_crew.specs.Keeping.{AreKept, GathersTerminals, KeepsJob};
ghost use Rattle.bank_crew.specs.declared.fault.CrewFault.TheVariants.{NoMemory, NoThread};

use super::fault::{CrewFault, UserFault};
use super::report::{ShiftReport, UserReport};
use super::terminal::ShiftOf;
use super::user::JobOf;
use line_ring::Line;
use link_term::TermFault;
use set_shared::{Opening, TermSeat, UserSeat};
use std::alloc::{AllocError, Global};
use std::thread::{Promise, PromisedHandle, Scope, Threads};
use std::vec::IntoIter;

/// A seat whose thread has ended, and what the thread tells.
#[derive(Drop)]
pub(crate) struct Ended<S: Drop, T: Drop> {
    pub(crate) seat: S,
    pub(crate) told: T,
}

/// A user's seat, and what the user reports, or why it ended early.
pub(crate) type UserEnd<O> = Ended<UserSeat<O>, Result<UserReport, UserFault>>;

/// A terminal's seat, and what its turns came to, or why they ended early.
pub(crate) type TermEnd<O> = Ended<TermSeat<O>, Result<ShiftReport, TermFault>>;

/// The thread of a user.
pub(crate) type UserThread<O> = PromisedHandle<UserEnd<O>, JobOf>;

/// The thread of a terminal.
pub(crate) type TermThread<O, L> = PromisedHandle<TermEnd<O>, ShiftOf<L>>;

/// The threads of a set's users and terminals, and the seats of the terminals that have no line.
#[derive(Drop)]
pub(crate) struct Crew<O: Opening, L: Line + Drop> {
    pub(crate) users: Vec<UserThread<O>>,
    pub(crate) terminals: Vec<TermThread<O, L>>,
    pub(crate) idle: IntoIter<TermSeat<O>, Global>,
}

/// The seats of a set, and what was gathered beside them.
#[derive(Drop)]
pub(crate) struct Gathered<O: Opening> {
    pub(crate) users: Vec<UserSeat<O>>,
    pub(crate) user_ends: Vec<Result<UserReport, UserFault>>,
    pub(crate) terminals: Vec<TermSeat<O>>,
    pub(crate) reports: Vec<Result<ShiftReport, TermFault>>,
}

/// The seats of threads that have ended, and what each thread tells.
#[derive(Drop)]
struct Back<S: Drop, T: Drop> {
    seats: Vec<S>,
    told: Vec<T>,
}

impl<O: Opening, L: Line + Drop> Crew<O, L> {
    /// Waits for the users and then for the terminals, whose seats stand before the idle ones. A fault is want of memory.
    pub(crate) fn gather<R: Threads>(self, rt: &R, alloc: Global) -> Result<Gathered<O>, CrewFault>
        ensures fault { IfErr result (λ fault. fault ≡ NoMemory) }
        ensures users { IfOk result (λ all. AreKept KeepsJob
            (map (λ thread. thread.promise) self.users.items) all.users.items all.user_ends.items) }
        ensures terminals { IfOk result (λ all. GathersTerminals L.Line
            (map (λ thread. thread.promise) self.terminals.items) (into_iter_items self.idle)
            all.terminals.items all.reports.items) }
    {
        let Crew {
            users,
            terminals,
            idle,
        } = self;
        let of_users = wait_for_all(rt, alloc, users);
        let of_terminals = wait_for_all(rt, alloc, terminals);
        let of_users = of_users?;
        let of_terminals = of_terminals?;
        let Back { mut seats, told } = of_terminals;
        add_idle(&mut seats, idle)?;
        Ok(Gathered {
            users: of_users.seats,
            user_ends: of_users.told,
            terminals: seats,
            reports: told,
        })
    }
}

/// Puts these seats behind those.
fn add_idle<S: Drop>(seats: &mut Vec<S>, idle: IntoIter<S, Global>) -> Result<(), AllocError>
    ensures { OnOk result (seats.new.items ≡ seats.old.items ++ into_iter_items idle) }
{
    let mut idle = idle;
    while let Some(seat) = idle.next() {
        seats.reserve(1)?;
        seats.push_reserved(seat);
    }
    Ok(())
}

/// Starts a thread that does this until it ends, behind those that were started.
///
/// Faults: [`CrewFault::NoMemory`] where memory is wanted, [`CrewFault::NoThread`] where a thread is, though there is memory.
pub(crate) fn start_thread<
    's,
    'e: 's,
    P: Promise<T> + Drop,
    T: Send + Drop + 's,
    F: FnOnce() -> T + Send + Drop + 's,
>(
    scope: &'s Scope<'s, &'e ()>,
    alloc: Global,
    threads: &mut Vec<PromisedHandle<T, P>>,
    promise: P,
    work: F,
) -> Result<(), CrewFault>
    requires runs { F.pre work }
    requires keeps { (end : T) → F.post work end → P.kept_by promise end }
    ensures started { OnOk result (map (λ thread. thread.promise) threads.new.items
        ≡ map (λ thread. thread.promise) threads.old.items ++ promise ∷ []) }
    ensures fault { IfErr result CannotStart }
{
    threads.reserve(1)?;
    let started = spawn(scope, &alloc, promise, work)?;
    threads.push_reserved(started);
    Ok(())
}

/// Starts a thread that does this until it ends. Where it can't be started a stack is asked for, to tell why.
///
/// Faults: [`CrewFault::NoMemory`] where that was refused, [`CrewFault::NoThread`] where it was given.
fn spawn<
    's,
    'e: 's,
    A: Stacks,
    P: Promise<T> + Drop,
    T: Send + Drop + 's,
    F: FnOnce() -> T + Send + Drop + 's,
>(
    scope: &'s Scope<'s, &'e ()>,
    stacks: &A,
    promise: P,
    work: F,
) -> Result<PromisedHandle<T, P>, CrewFault>
    requires runs { F.pre work }
    requires keeps { (end : T) → F.post work end → P.kept_by promise end }
    ensures started { IfOk result (λ thread. thread.promise ≡ promise) }
    ensures fault { IfErr result (IsUnstarted (A.refuses stacks.now) (A.gives stacks.now)) }
{
    match scope.spawn_with(promise, work) {
        Ok(started) => Ok(started),
        Err(_) => Err(why_unstarted(&stacks.ask())),
    }
}

/// Who is asked for the memory of a thread's stack.
trait Stacks {
    /// One may be refused.
    ghost refuses: { Self → Type 0 };

    /// One may be given.
    ghost gives: { Self → Type 0 };

    /// Asks for one, which is given back with the answer.
    fn ask(&self) -> Result<Vec<u8>, AllocError>
        ensures refused { IfErr result (λ _. refuses self.now) }
        ensures given { IfOk result (λ _. gives self.now) };
}

impl Stacks for Global {
    ghost refuses = { λ alloc. Unit {0} };

    ghost gives = { λ alloc. Unit {0} };

    fn ask(&self) -> Result<Vec<u8>, AllocError> {
        ask_for_stack(*self)
    }
}

/// How many octets are asked for, to see whether there is memory: those of a thread's least stack.
const STACK: usize = 131_072;

/// Asks for the memory of a thread's least stack, 131,072 octets, which is given back with the answer.
pub fn ask_for_stack(alloc: Global) -> Result<Vec<u8>, AllocError> {
    Vec::with_capacity(alloc, STACK)
}

/// Why a thread couldn't be started, which the system doesn't tell: [`CrewFault::NoMemory`] exactly where the memory of
/// a stack was refused too, else [`CrewFault::NoThread`].
pub fn why_unstarted(stack: &Result<Vec<u8>, AllocError>) -> CrewFault
    ensures memory { IfErr stack.now (λ _. result ≡ NoMemory) }
    ensures thread { IfOk stack.now (λ _. result ≡ NoThread) }
    ensures fault { CannotStart result }
{
    match stack {
        Ok(_) => CrewFault::NoThread,
        Err(_) => CrewFault::NoMemory,
    }
}

/// Waits for these threads: their seats, and what each tells.
fn wait_for_all<S: Drop, T: Drop, P: Promise<Ended<S, T>>, R: Threads>(
    rt: &R,
    alloc: Global,
    threads: Vec<PromisedHandle<Ended<S, T>, P>>,
) -> Result<Back<S, T>, AllocError>
    ensures { IfOk result (λ back. AreKept P.kept_by (map (λ thread. thread.promise) threads.items)
        back.seats.items back.told.items) }
{
    let mut seats = Vec::new(alloc);
    let mut told = Vec::new(alloc);
    for thread in threads {
        seats.reserve(1)?;
        told.reserve(1)?;
        let end = thread.join(rt);
        seats.push_reserved(end.seat);
        told.push_reserved(end.told);
    }
    Ok(Back { seats, told })
}
