//! A bank of sets, and how it's started.
ghost use Rattle.std.specs.Prelude.{◌≡◌, ◌<◌, ◌≤◌, ◌↔◌, ◌⊎◌, map, length, All, IfOk, IfErr, IsTrue};
ghost use Rattle.bank_crew.specs.Ends.{lined_task};
ghost use Rattle.bank_crew.specs.Jobs.{duty_of};
ghost use Rattle.bank_core.specs.Ends.{tasks_from};
ghost use Rattle.bank_core.specs.Faults.{CannotMake, CannotStart, EndsEarly, IsNarrow};
ghost use Rattle.bank_core.specs.Room.{IsRoomFor};

use super::fault::BankFault;
use super::running::Running;
use bank_crew::{Assignment, Job, LinkManager, Plan, Work};
use l2_units::Profile;
use line_ring::Line;
use set_events::SetConfig;
use set_ledger::MOST_USERS;
use std::alloc::Global;
use std::marker::Model;
use std::sync::Wait;
use std::thread::Threads;
use std::time::Clock;

/// The most sets of a bank.
const MOST_SETS: usize = 16;

/// Sets that aren't started yet: 1 to 16 of them, with 1 to 64 users each. Contracts see the configurations, and how
/// many users each set has.
#[derive(Drop)]
pub struct Bank {
    configs: Vec<SetConfig>,
    users: u16,
    alloc: Global,
}

impl Model for Bank {
    ghost use Rattle.bank_core.specs.Ends.{BankState};

    ghost Value = { BankState };

    ghost use Rattle.std.specs.Prelude.{◌<◌, ◌≤◌};

    ghost view = { λ b. record { configs = b.configs.items; users = b.users } };

    ghost invariant = { λ b. (0 < b.users) × (b.users ≤ 64) };
}

impl Bank {
    /// A bank of sets of these configurations, each with so many users, and each under a lock of its own.
    ///
    /// Refusals, in this order: 2 [`BankFault::Users`] exactly where there is no user or more than 64;
    /// 3 [`BankFault::Sets`] where there is no set or more than 16; 6 [`BankFault::Wide`] where a set is of the wide
    /// profile, which terminals aren't; 1 [`BankFault::NoMemory`] only where memory was refused.
    pub fn create(alloc: Global, configs: &[SetConfig], users: u16) -> Result<Bank, BankFault>
        ensures bank { IfOk result (λ bank. bank ≡ record { configs = configs.now; users = users }) }
        ensures users { (result ≡ Err BankFault.Users) ↔ ((users ≡ 0) ⊎ (64 < users)) }
        ensures sets { (result ≡ Err BankFault.Sets) ↔ (((0 < users) × (users ≤ 64))
            × ((length configs.now ≡ 0) ⊎ (16 < length configs.now))) }
        ensures wide { (result ≡ Err BankFault.Wide) ↔ (((0 < users) × (users ≤ 64))
            × ((0 < length configs.now) × (length configs.now ≤ 16))
            × (All IsNarrow configs.now → ⊥)) }
        ensures fault { IfErr result CannotMake }
    {
        if users == 0 || users > MOST_USERS {
            return Err(BankFault::Users);
        }
        if configs.is_empty() || configs.len() > MOST_SETS {
            return Err(BankFault::Sets);
        }
        if !are_narrow(configs) {
            return Err(BankFault::Wide);
        }
        Ok(Bank {
            configs: Vec::from_slice(alloc, configs)?,
            users,
            alloc,
        })
    }

    /// Starts a thread for each set, which opens the set, runs its terminals and users in threads of their own, gathers
    /// their seats and closes it.
    ///
    /// Set by set, and link by link, a terminal runs over its line, that which was handed in; set by set, and user by user, a user does its job.
    /// A link that has no line isn't run, and a user that has no job makes no call; lines and jobs that are over are
    /// given up. Each terminal is told to come up in an emergency before its first turn. Each set gets a clone of the
    /// gate.
    ///
    /// Faults, once the threads that were started have ended: 1 [`BankFault::NoMemory`]; 4 [`BankFault::NoThread`], where a
    /// thread is wanted, though there is memory.
    pub fn start<
        L: Line + Drop + Send + 'static,
        G: LinkManager + Clone + Drop + Send + Sync + 'static,
        R: Threads + Wait + Clock + Copy + Send + Sync + 'static,
    >(
        self,
        rt: &R,
        lines: Vec<Vec<L>>,
        jobs: Vec<Vec<Job>>,
        gate: G,
        plan: Plan,
    ) -> Result<Running<L>, BankFault>
        ensures running { IfOk result (λ running. running ≡ tasks_from self.users plan self.configs
            (map (λ of_set. of_set.items) lines.items) (map (λ of_set. map duty_of of_set.items) jobs.items)) }
        ensures early { IfErr result EndsEarly }
        ensures fault { IfErr result CannotStart }
    {
        let alloc = self.alloc;
        let works = self.works(lines, jobs, gate, plan)?;
        Running::start(rt, alloc, works)
    }

    /// What the thread of each set is to do.
    fn works<L: Line + Drop, G: LinkManager + Clone + Drop>(
        self,
        lines: Vec<Vec<L>>,
        jobs: Vec<Vec<Job>>,
        gate: G,
        plan: Plan,
    ) -> Result<Vec<Work<L, G>>, BankFault>
        ensures works { IfOk result (λ works. map (λ work. lined_task work.config work.users work.lines.items (map duty_of work.jobs.items) work.assignment.plan) works.items
            ≡ tasks_from self.users plan self.configs
            (map (λ of_set. of_set.items) lines.items) (map (λ of_set. map duty_of of_set.items) jobs.items)) }
        ensures numbers { IfOk result (λ works. All (λ work. work.assignment.set ≡ work.config.set) works.items) }
        ensures fault { IfErr result CannotStart }
    {
        match Vec::with_capacity(self.alloc, self.configs.len()) {
            Ok(room) => self.put_works(room, lines, jobs, gate, plan),
            Err(_) => Err(BankFault::NoMemory),
        }
    }

    /// [`Bank::works`], put into this room.
    fn put_works<L: Line + Drop, G: LinkManager + Clone + Drop>(
        self,
        room: Vec<Work<L, G>>,
        lines: Vec<Vec<L>>,
        jobs: Vec<Vec<Job>>,
        gate: G,
        plan: Plan,
    ) -> Result<Vec<Work<L, G>>, BankFault>
        requires { IsRoomFor (length self.configs) room }
        ensures works { IfOk result (λ works. map (λ work. lined_task work.config work.users work.lines.items (map duty_of work.jobs.items) work.assignment.plan) works.items
            ≡ tasks_from self.users plan self.configs
            (map (λ of_set. of_set.items) lines.items) (map (λ of_set. map duty_of of_set.items) jobs.items)) }
        ensures numbers { IfOk result (λ works. All (λ work. work.assignment.set ≡ work.config.set) works.items) }
        ensures fault { IfErr result CannotStart }
    {
        let Bank {
            configs,
            users,
            alloc,
        } = self;
        let mut lines = lines.into_iter();
        let mut jobs = jobs.into_iter();
        let mut works = room;
        let mut configs = configs.into_iter();
        while let Some(config) = configs.next() {
            let assignment = Assignment {
                set: config.set,
                gate: gate.clone()?,
                plan,
            };
            works.push_reserved(Work {
                config,
                users,
                lines: lines.next().unwrap_or(Vec::new(alloc)),
                jobs: jobs.next().unwrap_or(Vec::new(alloc)),
                assignment,
            });
        }
        Ok(works)
    }
}

/// Whether each of these sets is of the narrow profile.
fn are_narrow(configs: &[SetConfig]) -> bool
    ensures { IsTrue result ↔ All IsNarrow configs.now }
{
    for config in configs {
        if !is_narrow(config) {
            return false;
        }
    }
    true
}

/// Whether this set is of the narrow profile.
fn is_narrow(config: &SetConfig) -> bool
    ensures { IsTrue result ↔ IsNarrow config.now }
{
    matches!(config.profile, Profile::Narrow)
}
