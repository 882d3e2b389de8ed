//! A user that keeps what it takes.
ghost use Rattle.std.specs.Prelude.{◌≡◌, true, [], IfOk, IsSome, OnOk};
ghost use Rattle.set_events.specs.declared.event.Actor.TheVariants.{User};
ghost use Rattle.std.specs.Option.{option_map, option_to_list};
ghost use Rattle.bank_crew.specs.Jobs.{bodies_of, ended_by, kept_by, taken_in, Takes, TakesOne};

use super::assignment::Assignment;
use super::fault::UserFault;
use super::manager::LinkManager;
use super::pauses::Pauses;
use super::report::UserReport;
use super::user::{UserCaller, end_of_call, wait_to_call};
use arrayvec::ArrayVec;
use set_events::{Answer, SetFault};
use set_shared::{LinkSet, Opening};
use std::alloc::Global;
use std::sync::Wait;
use std::time::Clock;

/// Asks so often for the oldest message that was heard, and keeps each one.
pub(crate) fn collect_often<O: Opening, G: LinkManager, R: Wait + Clock>(
    rt: &R,
    alloc: Global,
    set: &LinkSet<O>,
    caller: &mut UserCaller<O>,
    times: u32,
    assignment: &Assignment<G>,
) -> Result<UserReport, UserFault>
    requires none { caller.old.all ≡ [] }
    ensures who { caller.new.seat.who ≡ caller.old.seat.who }
    ensures takes { Takes caller.old.seat.who times (ended_by result) [] caller.new.all }
    ensures kept { IfOk result (λ report. kept_by report ≡ taken_in caller.new.all) }
    ensures full { result ≡ Err UserFault.Exhausted → caller.new.seat.full ≡ true }
{
    let mut pauses = Pauses::of(assignment.plan.checkpoint.map(u64::from));
    let mut report = UserReport {
        taken: Vec::new(alloc),
    };
    for _time in 0..times {
        if let Err(fault) = collect_one(rt, set, caller, assignment, &mut report) {
            return Err(fault);
        }
        let asked = caller.share().calls;
        pauses.pause(rt, set, caller, asked);
    }
    Ok(report)
}

/// Asks for the oldest message that was heard, and keeps it.
fn collect_one<O: Opening, G: LinkManager, R: Wait + Clock>(
    rt: &R,
    set: &LinkSet<O>,
    caller: &mut UserCaller<O>,
    assignment: &Assignment<G>,
    report: &mut UserReport,
) -> Result<(), UserFault>
    ensures who { caller.new.seat.who ≡ caller.old.seat.who }
    ensures waits { OnOk result ((user : _) → caller.old.seat.who ≡ User user → IsSome assignment.now.plan.managed
        → G.lets assignment.now.gate assignment.now.set user) }
    ensures takes { TakesOne caller.old.seat.who result caller.old.all caller.new.all }
    ensures kept { kept_by report.old ≡ taken_in caller.old.all
        → OnOk result (kept_by report.new ≡ taken_in caller.new.all) }
    ensures full { result ≡ Err UserFault.Exhausted → caller.new.seat.full ≡ true }
{
    if report.taken.reserve(1).is_err() {
        return Err(UserFault::NoMemory);
    }
    wait_to_call(rt, assignment, caller.number());
    let answered = caller.take(rt, set);
    let ended = end_of_call(&answered);
    if let Some(body) = body_taken(answered) {
        report.taken.push_reserved(body);
    }
    ended
}

/// The body that was taken, if one was.
fn body_taken(answered: Result<Answer, SetFault>) -> Option<ArrayVec<u8, 273>>
    ensures { bodies_of answered ≡ option_to_list (option_map (λ body. body.items) result) }
{
    match answered {
        Ok(Answer::Taken { body }) => Some(body),
        _ => None,
    }
}
