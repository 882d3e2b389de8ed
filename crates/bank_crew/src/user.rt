//! What a user's thread does.
ghost use Rattle.std.specs.Prelude.{◌≡◌, true, List, [], map, IfOk, IsSome};
ghost use Rattle.set_events.specs.declared.event.Actor.TheVariants.{User};
ghost use Rattle.set_events.specs.declared.history.Entry.{Entry};
ghost use Rattle.bank_crew.specs.Seats.{AreAll};
ghost use Rattle.bank_crew.specs.Jobs.{Does, DoesJob, duty_of, ended_by, Finds, kept_by, Offers, OffersOne, Takes, TakesOne, end_of_call, end_of_find, number_of};

use super::assignment::Assignment;
use super::caller::Caller;
use super::collecting::collect_often;
use super::crew::{Ended, UserEnd};
use super::fault::UserFault;
use super::manager::{LinkManager, SetManager};
use super::pauses::Pauses;
use super::plan::Job;
use super::report::UserReport;
use set_events::{Answer, Refusal, SetFault};
use set_shared::{LinkSet, Opening, UserSeat};
use std::alloc::Global;
use std::snapshot::Snapshot;
use std::sync::Wait;
use std::thread;
use std::thread::Promise;
use std::time::{Clock, Duration};

/// What the thread of the user of this number promises: its seat's entries are the calls of this job.
#[derive(Drop)]
pub(crate) struct JobOf {
    pub(crate) user: u16,
    pub(crate) job: Snapshot<Job>,
}

impl<O: Opening> Promise<UserEnd<O>> for JobOf {
    ghost use Rattle.bank_crew.specs.Keeping.{KeepsJob};

    ghost kept_by = { KeepsJob };
}

/// A user's seat, with all that was asked at it.
pub(crate) type UserCaller<O> = Caller<O, UserSeat<O>>;

/// A user's seat at its set, and the job that is to be done there.
#[derive(Drop)]
pub(crate) struct UserShift<'a, O: Opening, G: LinkManager, R: Wait + Clock> {
    pub(crate) rt: &'a R,
    pub(crate) alloc: Global,
    pub(crate) set: &'a LinkSet<O>,
    pub(crate) seat: UserSeat<O>,
    pub(crate) job: Job,
    pub(crate) assignment: &'a Assignment<G>,
}

impl<'a, O: Opening, G: LinkManager, R: Wait + Clock> UserShift<'a, O, G, R> {
    /// The user does its job. It ends at the first fault of the set, or at a number that was accepted and isn't found.
    pub(crate) fn work(self) -> UserEnd<O>
        requires receipts { self.seat.receipts ≡ [] }
        requires forgotten { self.seat.forgotten.calls ≡ 0 }
        ensures who { result.seat.who ≡ self.entry.seat.who }
        ensures job { (all : List Entry) × AreAll result.seat all
            × DoesJob self.entry.seat.who (duty_of self.entry.job) result.told all }
        ensures full { result.told ≡ Err UserFault.Exhausted → result.seat.full ≡ true }
    {
        let UserShift {
            rt,
            alloc,
            set,
            seat,
            job,
            assignment,
        } = self;
        let mut caller = Caller::new(alloc, seat);
        let told = do_job(rt, alloc, set, &mut caller, &job, assignment);
        let seat = caller.into_seat();
        Ended { seat, told }
    }
}

/// Does this job.
fn do_job<O: Opening, G: LinkManager, R: Wait + Clock>(
    rt: &R,
    alloc: Global,
    set: &LinkSet<O>,
    caller: &mut UserCaller<O>,
    job: &Job,
    assignment: &Assignment<G>,
) -> Result<UserReport, UserFault>
    requires none { caller.old.all ≡ [] }
    ensures who { caller.new.seat.who ≡ caller.old.seat.who }
    ensures job { DoesJob caller.old.seat.who (duty_of job.now) result caller.new.all }
    ensures full { result ≡ Err UserFault.Exhausted → caller.new.seat.full ≡ true }
{
    match job {
        Job::Offer { bodies } => nothing_kept(
            alloc,
            offer_all(rt, set, caller, bodies, assignment),
        ),
        Job::Take { times } => nothing_kept(alloc, take_often(rt, set, caller, *times, assignment)),
        Job::Collect { times } => collect_often(rt, alloc, set, caller, *times, assignment),
    }
}

/// What is reported of a user that keeps nothing.
fn nothing_kept(alloc: Global, ended: Result<(), UserFault>) -> Result<UserReport, UserFault>
    ensures ended { ended_by result ≡ ended }
    ensures kept { IfOk result (λ report. kept_by report ≡ []) }
    ensures full { result ≡ Err UserFault.Exhausted → ended ≡ Err UserFault.Exhausted }
{
    match ended {
        Ok(()) => Ok(UserReport {
            taken: Vec::new(alloc),
        }),
        Err(fault) => Err(fault),
    }
}

/// Offers all of these bodies, and finds each one that was accepted.
fn offer_all<O: Opening, G: LinkManager, R: Wait + Clock>(
    rt: &R,
    set: &LinkSet<O>,
    caller: &mut UserCaller<O>,
    bodies: &[Vec<u8>],
    assignment: &Assignment<G>,
) -> Result<(), UserFault>
    ensures who { caller.new.seat.who ≡ caller.old.seat.who }
    ensures offers { Offers caller.old.seat.who (map (λ body. body.items) bodies.now) result
        caller.old.all caller.new.all }
    ensures full { result ≡ Err UserFault.Exhausted → caller.new.seat.full ≡ true }
{
    let mut pauses = Pauses::of(assignment.plan.checkpoint.map(u64::from));
    for body in bodies {
        if let Err(fault) = offer_one(rt, set, caller, body, assignment) {
            return Err(fault);
        }
        let accepted = caller.share().messages;
        pauses.pause(rt, set, caller, accepted);
    }
    Ok(())
}

/// Offers a message of these octets, and finds it where it was accepted.
fn offer_one<O: Opening, G: LinkManager, R: Wait + Clock>(
    rt: &R,
    set: &LinkSet<O>,
    caller: &mut UserCaller<O>,
    octets: &[u8],
    assignment: &Assignment<G>,
) -> Result<(), UserFault>
    ensures who { caller.new.seat.who ≡ caller.old.seat.who }
    ensures waits { (user : _) → caller.old.seat.who ≡ User user → IsSome assignment.now.plan.managed
        → G.lets assignment.now.gate assignment.now.set user }
    ensures offers { OffersOne caller.old.seat.who octets.now result caller.old.all caller.new.all }
    ensures full { result ≡ Err UserFault.Exhausted → caller.new.seat.full ≡ true }
{
    wait_to_call(rt, assignment, caller.number());
    let offered = caller.offer(rt, set, octets);
    match number_of(&offered) {
        Some(number) => find_one(rt, set, caller, number, assignment),
        None => end_of_call(&offered),
    }
}

/// Finds the message that was accepted under this number.
fn find_one<O: Opening, G: LinkManager, R: Wait + Clock>(
    rt: &R,
    set: &LinkSet<O>,
    caller: &mut UserCaller<O>,
    number: u64,
    assignment: &Assignment<G>,
) -> Result<(), UserFault>
    ensures who { caller.new.seat.who ≡ caller.old.seat.who }
    ensures waits { (user : _) → caller.old.seat.who ≡ User user → IsSome assignment.now.plan.managed
        → G.lets assignment.now.gate assignment.now.set user }
    ensures finds { Finds caller.old.seat.who number result caller.old.all caller.new.all }
    ensures full { result ≡ Err UserFault.Exhausted → caller.new.seat.full ≡ true }
{
    wait_to_call(rt, assignment, caller.number());
    end_of_find(&caller.find(rt, set, number))
}

/// Asks so often for the oldest message that was heard.
fn take_often<O: Opening, G: LinkManager, R: Wait + Clock>(
    rt: &R,
    set: &LinkSet<O>,
    caller: &mut UserCaller<O>,
    times: u32,
    assignment: &Assignment<G>,
) -> Result<(), UserFault>
    ensures who { caller.new.seat.who ≡ caller.old.seat.who }
    ensures takes { Takes caller.old.seat.who times result caller.old.all caller.new.all }
    ensures full { result ≡ Err UserFault.Exhausted → caller.new.seat.full ≡ true }
{
    let mut pauses = Pauses::of(assignment.plan.checkpoint.map(u64::from));
    for _time in 0..times {
        if let Err(fault) = take_one(rt, set, caller, assignment) {
            return Err(fault);
        }
        let asked = caller.share().calls;
        pauses.pause(rt, set, caller, asked);
    }
    Ok(())
}

/// Asks for the oldest message that was heard.
fn take_one<O: Opening, G: LinkManager, R: Wait + Clock>(
    rt: &R,
    set: &LinkSet<O>,
    caller: &mut UserCaller<O>,
    assignment: &Assignment<G>,
) -> Result<(), UserFault>
    ensures who { caller.new.seat.who ≡ caller.old.seat.who }
    ensures waits { (user : _) → caller.old.seat.who ≡ User user → IsSome assignment.now.plan.managed
        → G.lets assignment.now.gate assignment.now.set user }
    ensures takes { TakesOne caller.old.seat.who result caller.old.all caller.new.all }
    ensures full { result ≡ Err UserFault.Exhausted → caller.new.seat.full ≡ true }
{
    wait_to_call(rt, assignment, caller.number());
    end_of_call(&caller.take(rt, set))
}

/// So many milliseconds a user sleeps before it asks again whether it's held up.
const PAUSE: u64 = 1;

/// Waits where the gate stands, and as long as it holds this user up where links are managed.
pub(crate) fn wait_to_call<G: LinkManager, R: Wait + Clock>(
    rt: &R,
    assignment: &Assignment<G>,
    user: u16,
)
    ensures { IsSome assignment.now.plan.managed → G.lets assignment.now.gate assignment.now.set user }
{
    assignment.gate.user(assignment.set, user);
    if assignment.plan.managed.is_some() {
        wait_as_held(rt, assignment, user);
    }
}

/// Waits as long as this user is held up.
fn wait_as_held<M: SetManager, R: Wait + Clock>(rt: &R, manager: &M, user: u16)
    ensures { M.lets manager.now user }
{
    for _ in rt.forever() {
        if !manager.holds_up(user) {
            return;
        }
        thread::sleep(rt, Duration::from_millis(PAUSE));
    }
    unreachable!()
}

/// The number under which an offer was accepted.
fn number_of(offered: &Result<Answer, SetFault>) -> Option<u64>
    ensures { result ≡ number_of offered.now }
{
    match offered {
        Ok(Answer::Accepted { number }) => Some(*number),
        _ => None,
    }
}

/// How a user goes on whose message was looked for: one that was accepted is there, or left at a checkpoint.
fn end_of_find(found: &Result<Answer, SetFault>) -> Result<(), UserFault>
    ensures { result ≡ end_of_find found.now }
{
    match found {
        Ok(Answer::Found { .. }) => Ok(()),
        Ok(
            Answer::Refused {
                why: Refusal::Finished,
            },
        ) => Ok(()),
        Ok(_) => Err(UserFault::NotFound),
        Err(fault) => Err(UserFault::from(*fault)),
    }
}

/// How a user goes on that was answered anything.
pub(crate) fn end_of_call(answered: &Result<Answer, SetFault>) -> Result<(), UserFault>
    ensures { result ≡ end_of_call answered.now }
{
    match answered {
        Ok(_) => Ok(()),
        Err(fault) => Err(UserFault::from(*fault)),
    }
}
