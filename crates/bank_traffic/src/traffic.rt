//! Traffic between the ends of sets, for so many turns of their terminals.
ghost use Rattle.std.specs.Prelude.{◌≡◌, ◌<◌, ◌^◌, map, None, Some, Ok, IfOk, IfErr, if◌then◌else◌};
ghost use Rattle.std.specs.List.{AllZip};
ghost use Rattle.bank_traffic.specs.Noise.{all_noises};
ghost use Rattle.line_ring.specs.Rings.{AreJoined};
ghost use Rattle.bank_core.specs.Ends.{AreEndsOver};
ghost use Rattle.bank_crew.specs.Ends.{counted};
ghost use Rattle.bank_core.specs.Faults.{EndsEarly};
ghost use Rattle.bank_traffic.specs.Opening.{AreConfigs, AreEndsOf, AreTasks, IsPlan, each_set, far_end, far_jobs, links_managed, method_of, near_end};
ghost use Rattle.bank_traffic.specs.Sides.{AreLinesOf, RunOverPairs, TellsNearFirst, duties, tasks_over};

use super::asked::Traffic;
use super::management::gates_of;
use super::noise::NoisyLine;
use super::opening::{collects_of, configs_of, lines_of, method_of, offers_of, takes_of};
use super::pace::PaceGate;
use bank_core::{Bank, BankFault, Job, Managed, Plan, Running, SetEnd};
use line_ring::{Line, RingLine};
use link_term::Timers;
use std::alloc::{AllocError, Global};
use std::sync::Wait;
use std::thread::Threads;
use std::time::Clock;

/// The lengths of the terminals' timers: long beside the time that a link takes to come up, in octet times.
const TIMERS: Timers = Timers {
    t1: 100_000,
    t2: 100_000,
    t3: 100_000,
    t5: 800,
    t6: 100_000,
    t7: 100_000,
};

/// How often the user at an end b asks for a message.
const TAKES: u32 = 1_000;

/// What the sets came to at their ends.
#[derive(Drop)]
pub struct TrafficEnds {
    /// At the ends a, set by set.
    pub near: Vec<SetEnd>,
    /// At the ends b, set by set.
    pub far: Vec<SetEnd>,
}

/// [`run_through`] with [`gates_of`] the traffic.
pub fn run_traffic<R: Threads + Wait + Clock + Copy + Send + Sync + 'static>(
    rt: &R,
    alloc: Global,
    traffic: &Traffic,
) -> Result<TrafficEnds, BankFault>
    ensures near { IfOk result (λ ends. AreEndsOf traffic.now (near_end traffic.now) ends.near.items) }
    ensures far { IfOk result (λ ends. AreEndsOf traffic.now (far_end traffic.now) ends.far.items) }
    ensures over { IfOk result (λ ends. RunOverPairs ⟦<NoisyLine<RingLine> as Line>⟧
        (λ own. own.line) (λ own. own.first) traffic.now ends.near.items ends.far.items) }
    ensures early { IfErr result EndsEarly }
{
    let (near_gate, far_gate) = gates_of(alloc, traffic)?;
    run_through(rt, alloc, traffic, near_gate, far_gate)
}

/// Runs this traffic: the ends a of all sets in one bank, the ends b in another, each link over a pair of rings, with
/// these gates, which keep its two terminals beside one another: [`gates_of`] this traffic. Each terminal takes its turns over its
/// end of its link's own pair, with the noise that is asked for on what it puts.
///
/// Faults, once all threads that were started have ended: those of [`Bank::start`] and [`Running::join`], of the ends a
/// first.
pub fn run_through<R: Threads + Wait + Clock + Copy + Send + Sync + 'static>(
    rt: &R,
    alloc: Global,
    traffic: &Traffic,
    near_gate: PaceGate,
    far_gate: PaceGate,
) -> Result<TrafficEnds, BankFault>
    ensures near { IfOk result (λ ends. AreEndsOf traffic.now (near_end traffic.now) ends.near.items) }
    ensures far { IfOk result (λ ends. AreEndsOf traffic.now (far_end traffic.now) ends.far.items) }
    ensures over { IfOk result (λ ends. RunOverPairs ⟦<NoisyLine<RingLine> as Line>⟧
        (λ own. own.line) (λ own. own.first) traffic.now ends.near.items ends.far.items) }
    ensures early { IfErr result EndsEarly }
{
    let lines = lines_of(alloc, traffic)?;
    let near = near_side(alloc, traffic, lines.near, near_gate)?;
    let far = far_side(alloc, traffic, lines.far, far_gate)?;
    run_sides(rt, near, far)
}

/// A bank, and what it's started with.
#[derive(Drop)]
struct Side {
    bank: Bank,
    lines: Vec<Vec<NoisyLine<RingLine>>>,
    jobs: Vec<Vec<Job>>,
    gate: PaceGate,
    plan: Plan,
}

impl Side {
    /// Starts the bank.
    fn start<R: Threads + Wait + Clock + Copy + Send + Sync + 'static>(
        self,
        rt: &R,
    ) -> Result<Running<NoisyLine<RingLine>>, BankFault>
        ensures running { IfOk result (λ running. running ≡ tasks_over self.bank self.plan self.lines self.jobs) }
        ensures early { IfErr result EndsEarly }
    {
        self.bank
            .start(rt, self.lines, self.jobs, self.gate, self.plan)
    }
}

/// The ends a of all sets, over these lines.
fn near_side(
    alloc: Global,
    traffic: &Traffic,
    lines: Vec<Vec<NoisyLine<RingLine>>>,
    gate: PaceGate,
) -> Result<Side, BankFault>
    requires noises { map (λ of_set. map (λ own. own.first) of_set.items) lines.items ≡ all_noises traffic.now 0 }
    ensures tasks { IfOk result (λ side. AreTasks traffic.now (near_end traffic.now)
        (map counted (tasks_over side.bank side.plan side.lines side.jobs))) }
    ensures over { IfOk result (λ side. AreLinesOf lines (tasks_over side.bank side.plan side.lines side.jobs)) }
    ensures lines { IfOk result (λ side. side.lines ≡ lines) }
    ensures early { IfErr result EndsEarly }
{
    let jobs = offers_of(alloc, traffic.sets, traffic.users, traffic.messages)?;
    let bank = bank_of(alloc, traffic, 2, 1, traffic.users)?;
    let plan = plan_of(traffic, traffic.fail);
    Ok(Side {
        bank,
        lines,
        jobs,
        gate,
        plan,
    })
}

/// The ends b of all sets, over these lines.
fn far_side(
    alloc: Global,
    traffic: &Traffic,
    lines: Vec<Vec<NoisyLine<RingLine>>>,
    gate: PaceGate,
) -> Result<Side, BankFault>
    requires noises { map (λ of_set. map (λ own. own.first) of_set.items) lines.items ≡ all_noises traffic.now 1 }
    ensures tasks { IfOk result (λ side. AreTasks traffic.now (far_end traffic.now)
        (map counted (tasks_over side.bank side.plan side.lines side.jobs))) }
    ensures over { IfOk result (λ side. AreLinesOf lines (tasks_over side.bank side.plan side.lines side.jobs)) }
    ensures lines { IfOk result (λ side. side.lines ≡ lines) }
    ensures early { IfErr result EndsEarly }
{
    let jobs = far_jobs_of(alloc, traffic)?;
    let bank = bank_of(alloc, traffic, 1, 2, 1)?;
    let plan = plan_of(traffic, None);
    Ok(Side {
        bank,
        lines,
        jobs,
        gate,
        plan,
    })
}

/// The jobs of the users at the ends b.
fn far_jobs_of(alloc: Global, traffic: &Traffic) -> Result<Vec<Vec<Job>>, AllocError>
    ensures { IfOk result (λ all. duties all ≡ each_set traffic.now.sets (far_jobs traffic.now)) }
{
    if traffic.managed {
        let messages = u32::from(traffic.users) * u32::from(traffic.messages);
        return collects_of(alloc, traffic.sets, messages);
    }
    takes_of(alloc, traffic.sets, TAKES)
}

/// Runs both banks, and waits for them.
fn run_sides<R: Threads + Wait + Clock + Copy + Send + Sync + 'static>(
    rt: &R,
    near: Side,
    far: Side,
) -> Result<TrafficEnds, BankFault>
    requires { AllZip (λ a b. AllZip (λ x y. AreJoined x.line y.line) a.items b.items) near.lines.items far.lines.items }
    ensures near { IfOk result (λ ends. AreEndsOver ⟦<NoisyLine<RingLine> as Line>⟧
        (tasks_over near.bank near.plan near.lines near.jobs) ends.near.items) }
    ensures far { IfOk result (λ ends. AreEndsOver ⟦<NoisyLine<RingLine> as Line>⟧
        (tasks_over far.bank far.plan far.lines far.jobs) ends.far.items) }
    ensures early { IfErr result EndsEarly }
{
    match near.start(rt) {
        Ok(running) => run_beside(rt, running, far),
        Err(fault) => Err(fault),
    }
}

/// Runs the bank of the ends b beside that of the ends a, and waits for both.
fn run_beside<R: Threads + Wait + Clock + Copy + Send + Sync + 'static>(
    rt: &R,
    near: Running<NoisyLine<RingLine>>,
    far: Side,
) -> Result<TrafficEnds, BankFault>
    ensures near { IfOk result (λ ends. AreEndsOver ⟦<NoisyLine<RingLine> as Line>⟧ near ends.near.items) }
    ensures far { IfOk result (λ ends. AreEndsOver ⟦<NoisyLine<RingLine> as Line>⟧
        (tasks_over far.bank far.plan far.lines far.jobs) ends.far.items) }
    ensures early { IfErr result EndsEarly }
{
    match far.start(rt) {
        Ok(running) => joined(rt, near, running),
        Err(fault) => {
            let _ = near.join(rt);
            Err(fault)
        }
    }
}

/// What a bank's terminals do.
fn plan_of(traffic: &Traffic, fail: Option<u8>) -> Plan
    ensures { IsPlan traffic.now fail result }
{
    Plan {
        timers: TIMERS,
        turns: traffic.turns,
        fail,
        checkpoint: traffic.checkpoint,
        managed: managed_of(traffic),
        keeps: traffic.keeps,
    }
}

/// How links are managed, if they are.
fn managed_of(traffic: &Traffic) -> Option<Managed>
    ensures { links_managed result ≡ (if traffic.now.managed then Some traffic.now.links else None) }
{
    if !traffic.managed {
        return None;
    }
    Some(Managed {
        links: traffic.links,
    })
}

/// The bank of one end of all sets, with so many users each.
fn bank_of(
    alloc: Global,
    traffic: &Traffic,
    opc: u16,
    dpc: u16,
    users: u16,
) -> Result<Bank, BankFault>
    requires codes { (opc < 2 ^ 14) × (dpc < 2 ^ 14) }
    ensures configs { IfOk result (λ bank. AreConfigs traffic.now.sets traffic.now.links opc dpc
        (method_of traffic.now.cyclic) bank.configs) }
    ensures users { IfOk result (λ bank. bank.users ≡ users) }
    ensures early { IfErr result EndsEarly }
{
    let method = method_of(traffic.cyclic);
    let configs = configs_of(alloc, traffic.sets, traffic.links, opc, dpc, method)?;
    match Bank::create(alloc, &configs, users) {
        Ok(bank) => Ok(bank),
        // there are 1 to 16 sets, with 1 to 16 users
        Err(_) => Err(BankFault::NoMemory),
    }
}

/// Waits for both banks.
fn joined<R: Threads + Wait>(
    rt: &R,
    near: Running<NoisyLine<RingLine>>,
    far: Running<NoisyLine<RingLine>>,
) -> Result<TrafficEnds, BankFault>
    ensures near { IfOk result (λ ends. AreEndsOver ⟦<NoisyLine<RingLine> as Line>⟧ near ends.near.items) }
    ensures far { IfOk result (λ ends. AreEndsOver ⟦<NoisyLine<RingLine> as Line>⟧ far ends.far.items) }
    ensures early { IfErr result EndsEarly }
{
    let near_ends = near.join(rt);
    let far_ends = far.join(rt);
    both_of(near_ends, far_ends)
}

/// What both banks came to; or the fault of the ends a, or else that of the ends b.
fn both_of(
    near_ends: Result<Vec<SetEnd>, BankFault>,
    far_ends: Result<Vec<SetEnd>, BankFault>,
) -> Result<TrafficEnds, BankFault>
    ensures ends { IfOk result (λ ends. (near_ends ≡ Ok ends.near) × (far_ends ≡ Ok ends.far)) }
    ensures fault { IfErr result (TellsNearFirst near_ends far_ends) }
{
    Ok(TrafficEnds {
        near: near_ends?,
        far: far_ends?,
    })
}
