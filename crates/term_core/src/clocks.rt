//! The timers T1 to T7 (Q.703 12.3). A turn is one octet time.

ghost use Rattle.std.specs.Prelude.{◌≡◌};
ghost use Rattle.term_model.specs.Timing.{lessened, one_less, is_over};
ghost use Rattle.term_core.specs.TimerEnds.{clock_of, without, ended_now, has_such, is_running, NoEndNoTalk};

use crate::inside::Inside;
use term_model::Clocks;

/// One of the timers (Q.703 12.3).
#[derive(Clone, Copy, Debug, PartialEq, Eq)]
pub enum Timer {
    /// T1, aligned and ready.
    T1,
    /// T2, not aligned.
    T2,
    /// T3, aligned.
    T3,
    /// T4, the proving period.
    T4,
    /// T5, sending SIB.
    T5,
    /// T6, remote congestion.
    T6,
    /// T7, excessive delay of acknowledgement.
    T7,
}

impl Inside {
    /// One octet time has gone by: each timer that runs has one less left.
    #[inline(always)]
    pub fn lessen(&mut self)
        ensures { self.new ≡ lessened self.old }
    {
        let clocks = self.clocks;
        if !has_running(clocks) {
            return;
        }
        self.clocks = Clocks {
            t1: tick(clocks.t1),
            t2: tick(clocks.t2),
            t3: tick(clocks.t3),
            t4: tick(clocks.t4),
            t5: tick(clocks.t5),
            t6: tick(clocks.t6),
            t7: tick(clocks.t7),
        };
    }

    /// Whether any timer runs and has nothing left: where none does, no timer gives an input in this turn
    /// ([`no_end_no_talk`]).
    #[inline(always)]
    pub fn has_ended(&self) -> bool
        ensures { result ≡ has_such is_over self.now.clocks }
    {
        let clocks = self.clocks;
        has_run_out(clocks.t1)
            || has_run_out(clocks.t2)
            || has_run_out(clocks.t3)
            || has_run_out(clocks.t4)
            || has_run_out(clocks.t5)
            || has_run_out(clocks.t6)
            || has_run_out(clocks.t7)
    }

    /// Whether this timer runs and has nothing left; it doesn't run then.
    #[inline(always)]
    pub fn ended(&mut self, timer: Timer) -> bool
        ensures is_over { result ≡ is_over (clock_of timer self.old.clocks) }
        ensures next { self.new ≡ ended_now timer self.old }
    {
        let is_over = has_run_out(left(self.clocks, timer));
        if is_over {
            self.clocks = stopped(self.clocks, timer);
        }
        is_over
    }
}

/// A law about definitions: where no timer has ended once all are lessened, nothing comes of timers in this turn.
pub fn no_end_no_talk()
    ensures { NoEndNoTalk }
{}

/// Whether any timer runs.
#[inline(always)]
fn has_running(clocks: Clocks) -> bool
    ensures { result ≡ has_such is_running clocks }
{
    clocks.t1.is_some()
        || clocks.t2.is_some()
        || clocks.t3.is_some()
        || clocks.t4.is_some()
        || clocks.t5.is_some()
        || clocks.t6.is_some()
        || clocks.t7.is_some()
}

/// What is left of a timer.
#[inline(always)]
fn left(clocks: Clocks, timer: Timer) -> Option<u32>
    ensures { result ≡ clock_of timer clocks }
{
    match timer {
        Timer::T1 => clocks.t1,
        Timer::T2 => clocks.t2,
        Timer::T3 => clocks.t3,
        Timer::T4 => clocks.t4,
        Timer::T5 => clocks.t5,
        Timer::T6 => clocks.t6,
        Timer::T7 => clocks.t7,
    }
}

/// The timers where this one doesn't run.
#[inline(always)]
fn stopped(clocks: Clocks, timer: Timer) -> Clocks
    ensures { result ≡ without timer clocks }
{
    match timer {
        Timer::T1 => Clocks { t1: None, ..clocks },
        Timer::T2 => Clocks { t2: None, ..clocks },
        Timer::T3 => Clocks { t3: None, ..clocks },
        Timer::T4 => Clocks { t4: None, ..clocks },
        Timer::T5 => Clocks { t5: None, ..clocks },
        Timer::T6 => Clocks { t6: None, ..clocks },
        Timer::T7 => Clocks { t7: None, ..clocks },
    }
}

#[inline(always)]
fn tick(clock: Option<u32>) -> Option<u32>
    ensures { result ≡ one_less clock }
{
    match clock {
        None => None,
        Some(left) => Some(left.saturating_sub(1)),
    }
}

#[inline(always)]
fn has_run_out(clock: Option<u32>) -> bool
    ensures { result ≡ is_over clock }
{
    match clock {
        None => false,
        Some(left) => left == 0,
    }
}
