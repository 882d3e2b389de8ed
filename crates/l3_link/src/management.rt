//! The machine: its state, and the rows of its table.

ghost use Rattle.std.specs.Prelude.{◌≡◌, ◌↔◌, true, false, IsErr, OnErr, OnOk, IfOk, Some};
ghost use Rattle.l3_link.specs.Management.{fresh, is_off};
ghost use Rattle.l3_link.specs.Table.{activated, acted, answered, at_work, carrying, came_up, changeover, count_down, deactivated, gone_out, goes_out, k1_ends, outage, risen, seeing, settled, testing, turned};

use crate::clocks::{Clocks, is_over};
use crate::signals::{AlreadySo, Ask, Level2, Phase, Seen};
use crate::times::Times;
use std::marker::Model;

/// Where the management of a link stands, as the contracts see it.
#[derive(Clone, Copy, Debug, PartialEq, Eq)]
pub enum State {
    /// It's deactivated: nothing is asked.
    Off,
    /// Out of service while T17 runs; where T17 doesn't run the link is *due*: it's started once it's settled.
    Rest,
    /// It was told to start, or to stop since it failed its tests.
    Rising,
    /// Up, and the answer to its first test is awaited.
    Trial1,
    /// Up, and the answer to its second test is awaited.
    Trial2,
    /// It carries traffic.
    Carry,
    /// The same, and the answer to a test is awaited.
    Again1,
    /// The same, and that didn't come; the answer to a second test is awaited.
    Again2,
}

/// Whose answer decides how a turn goes on.
#[derive(Clone, Copy, Debug, PartialEq, Eq)]
pub(crate) enum Awaited {
    /// None.
    Nothing,
    /// Restore.
    Restore,
    /// Timed, where T1 ended.
    TimedAtT1,
    /// Timed, where T2 ended.
    TimedAtT2,
    /// NoAnswer.
    NoAnswer,
}

/// The level 3 management of one link. It's about a hundred octets and takes no memory.
#[derive(Debug, Drop)]
pub struct LinkManagement {
    times: Times,
    tests: bool,
    state: State,
    clocks: Clocks,
    seen: Seen,
    awaited: Awaited,
}

impl Model for LinkManagement {
    ghost use Rattle.l3_link.specs.Management.{Management};

    ghost Value = { Management };

    ghost view = { λ m. record {
      times = m.times;
      tests = m.tests;
      state = m.state;
      clocks = m.clocks;
      seen = m.seen;
      awaited = m.awaited;
    } };
}

/// What a link shows before anything was seen of it.
const UNSEEN: Seen = Seen {
    level2: Level2::Out,
    phase: Phase::Settled,
    passed: false,
    others: false,
    hopes: false,
};

impl LinkManagement {
    /// A link that isn't activated, with these times. `tests`: its set has link tests (Q.707).
    pub fn new(times: Times, tests: bool) -> LinkManagement
        ensures { result ≡ fresh times tests }
    {
        LinkManagement {
            times,
            tests,
            state: State::Off,
            clocks: Clocks::NONE,
            seen: UNSEEN,
            awaited: Awaited::Nothing,
        }
    }

    /// Where the management stands.
    pub fn state(&self) -> State
        ensures { result ≡ self.now.state }
    {
        self.state
    }

    /// The link is managed from now on, and is seen so: what is asked first, if anything. Refused 9 where it's activated
    /// already.
    pub fn activate(&mut self, seen: Seen) -> Result<Option<Ask>, AlreadySo>
        ensures refused { IsErr result ↔ (is_off self.old.state ≡ false) }
        ensures asks { IfOk result (λ asked. asked ≡ (activated seen self.old).asked) }
        ensures next { OnOk result (self.new ≡ (activated seen self.old).next) }
        ensures same { OnErr result (self.new ≡ self.old) }
    {
        if self.state != State::Off {
            return Err(AlreadySo);
        }
        self.state = State::Rest;
        self.seen = seen;
        Ok(self.turn(seen))
    }

    /// The link is managed no more: what is asked, that its terminal stops. All its timers stop. Refused 9 where it
    /// isn't activated.
    pub fn deactivate(&mut self) -> Result<Ask, AlreadySo>
        ensures refused { IsErr result ↔ (is_off self.old.state ≡ true) }
        ensures asks { IfOk result (λ asked. Some asked ≡ (deactivated self.old).asked) }
        ensures next { OnOk result (self.new ≡ (deactivated self.old).next) }
        ensures same { OnErr result (self.new ≡ self.old) }
    {
        if self.state == State::Off {
            return Err(AlreadySo);
        }
        self.state = State::Off;
        self.clocks = Clocks::NONE;
        self.awaited = Awaited::Nothing;
        Ok(Ask::Stop)
    }

    /// The link took a turn, and is seen so behind it: what is asked first, if anything. [`LinkManagement::answered`]
    /// gives what is asked next, until nothing is.
    pub fn turn(&mut self, seen: Seen) -> Option<Ask>
        ensures asks { result ≡ (turned seen self.old).asked }
        ensures next { self.new ≡ (turned seen self.old).next }
    {
        if self.state == State::Off {
            return None;
        }
        let asked = self.see(seen);
        self.count_down();
        match asked {
            Some(ask) => Some(ask),
            None => self.act(),
        }
    }

    /// What was asked last was done, as a command always is, or the set refused it: what is asked next.
    pub fn answered(&mut self, done: bool) -> Option<Ask>
        ensures asks { result ≡ (answered done self.old).asked }
        ensures next { self.new ≡ (answered done self.old).next }
    {
        let awaited = self.awaited;
        self.awaited = Awaited::Nothing;
        match (awaited, done) {
            // It's lessened in the turn in which it starts.
            (Awaited::Restore, true) => self.clocks.t4 = Some(self.times.t4 - 1),
            (Awaited::TimedAtT1 | Awaited::TimedAtT2 | Awaited::NoAnswer, true) => self.settle(),
            (Awaited::TimedAtT1 | Awaited::NoAnswer, false) => {
                self.clocks.t2 = Some(self.times.t2);
            }
            (Awaited::TimedAtT2, false) => {
                self.awaited = Awaited::NoAnswer;
                return Some(Ask::NoAnswer);
            }
            (Awaited::Restore, false) | (Awaited::Nothing, _) => {}
        }
        self.act()
    }

    // The set has settled the link.
    fn settle(&mut self)
        ensures { self.new ≡ settled self.old }
    {
        self.seen.phase = Phase::Settled;
        self.clocks.t1 = None;
        self.clocks.t2 = None;
    }

    // The rows of the table by what is seen.
    #[tactic(auto, unfolding(crate::specs::Table::seeing))]
    fn see(&mut self, seen: Seen) -> Option<Ask>
        ensures asks { result ≡ (seeing seen self.old).asked }
        ensures next { self.new ≡ (seeing seen self.old).next }
    {
        let out = self.goes_out(seen);
        let alone = self.seen.others && !seen.others;
        self.seen = seen;
        self.awaited = Awaited::Nothing;
        self.clocks = changeover(seen, &self.times, self.clocks);
        self.clocks = outage(seen, &self.times, self.clocks);
        if out {
            self.go_out();
            return None;
        }
        self.work(alone)
    }

    // The link goes out of service, or Start wasn't obeyed.
    fn goes_out(&self, seen: Seen) -> bool
        ensures { result ≡ goes_out seen self.now }
    {
        seen.level2 == Level2::Out
            && (self.seen.level2 != Level2::Out || self.state == State::Rising)
    }

    // T17 starts, and but for T1 and T2 all others stop (Q.704 12.2.2).
    fn go_out(&mut self)
        ensures { self.new ≡ gone_out self.old }
    {
        self.state = State::Rest;
        self.clocks = Clocks {
            t1: self.clocks.t1,
            t2: self.clocks.t2,
            t17: Some(self.times.t17),
            ..Clocks::NONE
        };
    }

    // The rows of a link that doesn't go out. `alone`: no other link carries traffic any more.
    fn work(&mut self, alone: bool) -> Option<Ask>
        ensures asks { result ≡ (at_work self.old.state alone self.old).asked }
        ensures next { self.new ≡ (at_work self.old.state alone self.old).next }
    {
        match self.state {
            State::Rest | State::Rising if self.seen.phase == Phase::Up => self.come_up(),
            // Q.704 12.2: it's the last hope, so its alignment goes on in emergency.
            State::Rising if alone => Some(Ask::Emergency),
            State::Trial1 | State::Trial2 if self.seen.passed => {
                self.clocks.k2 = Some(self.times.k2);
                Some(self.carry())
            }
            State::Again1 | State::Again2 if self.seen.passed => {
                self.state = State::Carry;
                self.clocks.k1 = None;
                self.clocks.k2 = Some(self.times.k2);
                None
            }
            _ => None,
        }
    }

    // The link is up: it's tested first, where there are tests (Q.704 12.2.2).
    fn come_up(&mut self) -> Option<Ask>
        ensures asks { result ≡ (came_up self.old).asked }
        ensures next { self.new ≡ (came_up self.old).next }
    {
        self.clocks.t17 = None;
        Some(if self.tests {
            self.test(State::Trial1)
        } else {
            self.carry()
        })
    }

    // A test goes out (Q.707 2.2).
    fn test(&mut self, state: State) -> Ask
        ensures asks { Some result ≡ (testing state self.old).asked }
        ensures next { self.new ≡ (testing state self.old).next }
    {
        self.state = state;
        self.clocks.k1 = Some(self.times.k1);
        Ask::Test
    }

    // The link carries traffic from now on.
    fn carry(&mut self) -> Ask
        ensures asks { Some result ≡ (carrying self.old).asked }
        ensures next { self.new ≡ (carrying self.old).next }
    {
        self.state = State::Carry;
        self.awaited = Awaited::Restore;
        self.clocks.k1 = None;
        Ask::Restore
    }

    // One turn less is left of each timer that runs; and the ends of timers at which nothing is asked.
    #[tactic(auto, unfolding(crate::specs::Table::count_down))]
    fn count_down(&mut self)
        ensures { self.new ≡ count_down self.old }
    {
        let mut clocks = self.clocks.lessened();
        if is_over(clocks.t1) && self.seen.hopes {
            clocks.t1 = Some(self.times.t1);
        }
        if is_over(clocks.t17) {
            clocks.t17 = None;
        }
        if is_over(clocks.p) && !self.seen.others {
            clocks.p = Some(self.times.t1);
        }
        self.clocks = clocks;
    }

    // The first timer that has ended, and the rise of a link that is due.
    #[tactic(auto, unfolding(crate::specs::Table::acted))]
    fn act(&mut self) -> Option<Ask>
        ensures asks { result ≡ (acted self.old).asked }
        ensures next { self.new ≡ (acted self.old).next }
    {
        if is_over(self.clocks.t1) {
            self.clocks.t1 = None;
            self.awaited = Awaited::TimedAtT1;
            Some(Ask::Timed)
        } else if is_over(self.clocks.t2) {
            self.clocks.t2 = None;
            self.awaited = Awaited::TimedAtT2;
            Some(Ask::Timed)
        } else if is_over(self.clocks.t4) {
            self.clocks.t4 = None;
            self.clocks.t5 = Some(self.times.t5);
            Some(Ask::Redeclare)
        } else if is_over(self.clocks.t5) {
            self.clocks.t5 = None;
            Some(Ask::BackTimeout)
        } else if is_over(self.clocks.k1) {
            Some(self.test_again())
        } else if is_over(self.clocks.k2) {
            self.clocks.k2 = None;
            Some(self.test(State::Again1))
        } else if is_over(self.clocks.p) {
            self.clocks.p = None;
            Some(Ask::Stop)
        } else {
            self.rise()
        }
    }

    // No answer to a test came: the second time the link has failed (Q.707 2.2).
    fn test_again(&mut self) -> Ask
        ensures asks { Some result ≡ (k1_ends self.old.state self.old).asked }
        ensures next { self.new ≡ (k1_ends self.old.state self.old).next }
    {
        match self.state {
            State::Trial1 => self.test(State::Trial2),
            State::Again1 => self.test(State::Again2),
            _ => {
                self.state = State::Rising;
                self.clocks.k1 = None;
                Ask::Stop
            }
        }
    }

    // A link that is due rises where it's settled (Q.704 12.2.2).
    fn rise(&mut self) -> Option<Ask>
        ensures asks { result ≡ (risen self.old).asked }
        ensures next { self.new ≡ (risen self.old).next }
    {
        let due = self.state == State::Rest && self.clocks.t17.is_none();
        if due && self.seen.phase == Phase::Settled {
            self.state = State::Rising;
            return Some(Ask::Rise {
                emergency: !self.seen.others,
            });
        }
        None
    }
}

/// T1 or T2 runs while the link is left.
fn changeover(seen: Seen, times: &Times, clocks: Clocks) -> Clocks
    ensures { result ≡ changeover seen times.now clocks }
{
    let runs = clocks.t1.is_some() || clocks.t2.is_some();
    match seen.phase {
        Phase::Left if runs => clocks,
        Phase::Left if seen.others => Clocks {
            t2: Some(times.t2),
            ..clocks
        },
        Phase::Left => Clocks {
            t1: Some(times.t1),
            ..clocks
        },
        Phase::Settled | Phase::Up => Clocks {
            t1: None,
            t2: None,
            ..clocks
        },
    }
}

/// P runs while the far end has a processor outage.
fn outage(seen: Seen, times: &Times, clocks: Clocks) -> Clocks
    ensures { result ≡ outage seen times.now clocks }
{
    match seen.level2 {
        Level2::Paused if clocks.p.is_some() => clocks,
        Level2::Paused => Clocks {
            p: Some(times.t1),
            ..clocks
        },
        Level2::Out | Level2::Works => Clocks { p: None, ..clocks },
    }
}
