//! Terminals whose far end is played by octets: busy ends and processor outages (Q.703 8.2, 9).
ghost use Rattle.std.specs.Prelude.{◌≤◌};

use super::core_door::{
    CoreDoor, LONG, config_of, downs, holds, is_legal, loaded, looked_at, started_at, timers_of,
    ups,
};
use super::far_end::{FarEnd, Heard, Script};
use l2_units::Status;
use link_term::{Command, OpenGate, Terminal, Timers};
use std::alloc::Global;
use std::test::Fail;

/// A time that no test reaches.
const NEVER: u32 = 4_000_000_000;

/// The far end sends FISUs, and acknowledges nothing.
const SILENT: Script = Script {
    from: NEVER,
    to: NEVER,
    status: Status::Busy,
};

/// The far end sends SIB from when the link is in service on.
const BUSY: Script = Script {
    from: 100,
    to: NEVER,
    status: Status::Busy,
};

/// So long is T5 in all of them.
const T5: u64 = 800;

/// What is done at the near end: so many messages wait when it begins to come up, and it may be busy for ten times T5.
#[derive(Clone, Copy)]
struct Near {
    lengths: Timers,
    messages: u16,
    is_busy: bool,
}

/// What came of it.
#[derive(Clone, Copy)]
struct Outcome {
    /// The set's history is legal.
    is_legal: bool,
    /// The cause of the last failure; 0: none.
    cause: u8,
    /// How often the set was told that the link is up, and down.
    ups: usize,
    downs: usize,
    /// How many messages the far end acknowledged.
    acked: u64,
    /// What the far end heard, and what of it while it sent its status.
    heard: Heard,
    meanwhile: Heard,
}

impl Outcome {
    /// The link came up once, and stayed up.
    fn is_well(&self) -> bool {
        self.is_legal && self.cause == 0 && self.ups == 1 && self.downs == 0
    }

    /// The link came up once, and failed for this cause; SIOS went out (Q.703 12.1).
    fn failed_for(&self, cause: u8) -> bool {
        let failed = self.is_legal && self.cause == cause && self.downs == 1;
        failed && self.ups == 1 && self.heard.statuses[3] > 0
    }
}

/// So many turns: the cause of the last failure, or `None` where they didn't go well.
fn runs(terminal: &mut Terminal<CoreDoor, FarEnd, OpenGate>, turns: u64) -> Option<u8>
    requires { turns ≤ 20_000 }
{
    match terminal.run(turns) {
        Ok(report) => Some(report.cause),
        Err(_) => None,
    }
}

/// All turns of a terminal. Each of them comes up within 6,000.
fn plays(terminal: &mut Terminal<CoreDoor, FarEnd, OpenGate>, is_busy: bool) -> Option<u8> {
    if is_busy {
        runs(terminal, 6_000)?;
        terminal.command(Command::Busy);
        // and so much longer that what it sends last is out before it's eased
        runs(terminal, 10 * T5 + 100)?;
        terminal.command(Command::Ease);
    }
    runs(terminal, 20_000)
}

/// What a terminal came to.
fn seen(alloc: Global, cause: Option<u8>, door: &CoreDoor, line: &FarEnd) -> Outcome {
    Outcome {
        is_legal: is_legal(alloc, door),
        cause: cause.unwrap_or(255),
        ups: ups(door.core.history()),
        downs: downs(door.core.history()),
        acked: door.core.counts().acked,
        heard: line.heard(),
        meanwhile: line.meanwhile(),
    }
}

/// What comes of a near end over a line with this far end.
fn faces(alloc: Global, script: Script, near: Near) -> Result<Outcome, Fail> {
    match outcome_of(alloc, script, near) {
        Some(outcome) => Ok(outcome),
        None => Err(Fail::from("not offered")),
    }
}

fn outcome_of(alloc: Global, script: Script, near: Near) -> Option<Outcome> {
    let door = loaded(alloc, &config_of()?, near.messages)?;
    let mut terminal = started_at(door, FarEnd::new(script), near.lengths);
    let cause = plays(&mut terminal, near.is_busy);
    Some(looked_at(terminal, |door, line| seen(alloc, cause, door, line)))
}

/// A near end that isn't busy, with so many messages.
fn eased(lengths: Timers, messages: u16) -> Near {
    Near {
        lengths,
        messages,
        is_busy: false,
    }
}

#[test]
fn a_far_end_is_busy_for_longer_than_t6(rt: HostRuntime) -> Result<(), Fail> {
    let lengths = timers_of(100_000, 100_000, 100_000, 1_000, 100_000);
    let outcome = faces(rt.alloc(), BUSY, eased(lengths, 0))?;
    holds(outcome.failed_for(5))
}

/// An acknowledgement ends it in time, and stops T6 (Q.703 9.3).
#[test]
fn a_far_end_is_busy_for_less_than_t6(rt: HostRuntime) -> Result<(), Fail> {
    let lengths = timers_of(100_000, 100_000, 100_000, 1_000, 100_000);
    let script = Script { to: 900, ..BUSY };
    let outcome = faces(rt.alloc(), script, eased(lengths, 1))?;
    holds(outcome.is_well() && outcome.acked == 1)
}

#[test]
fn no_acknowledgement_comes_within_t7(rt: HostRuntime) -> Result<(), Fail> {
    let lengths = timers_of(100_000, 100_000, 100_000, 100_000, 1_000);
    let outcome = faces(rt.alloc(), SILENT, eased(lengths, 1))?;
    holds(outcome.failed_for(6) && outcome.acked == 0 && outcome.heard.msus == 1)
}

/// Each SIB starts T7 anew (Q.703 9.3): it's held back for five times its length.
#[test]
fn a_busy_far_end_holds_t7_back(rt: HostRuntime) -> Result<(), Fail> {
    let lengths = timers_of(100_000, 100_000, 100_000, 100_000, 1_000);
    let script = Script { to: 5_100, ..BUSY };
    let outcome = faces(rt.alloc(), script, eased(lengths, 1))?;
    holds(outcome.is_well() && outcome.acked == 1 && outcome.heard.msus == 1)
}

/// T7 stands still while the far end has a processor outage (Q.703 8, own): for five times its length here.
#[test]
fn a_processor_outage_holds_t7_back(rt: HostRuntime) -> Result<(), Fail> {
    let lengths = timers_of(100_000, 100_000, 100_000, 100_000, 1_000);
    let script = Script {
        from: 100,
        to: 5_100,
        status: Status::ProcessorOutage,
    };
    let outcome = faces(rt.alloc(), script, eased(lengths, 1))?;
    holds(outcome.is_well() && outcome.acked == 1 && outcome.heard.msus == 1)
}

/// A busy end sends SIB at once, and again each time that T5 ends: ten times in ten times its length (Q.703 9.2). Once it's
/// eased it sends none.
#[test]
fn a_busy_terminal_sends_sib_again_and_again(rt: HostRuntime) -> Result<(), Fail> {
    let near = Near {
        lengths: LONG,
        messages: 0,
        is_busy: true,
    };
    let outcome = faces(rt.alloc(), SILENT, near)?;
    let well = outcome.is_well() && u64::from(LONG.t5) == T5;
    holds(well && outcome.heard.statuses[5] == 1 + 10)
}

/// No message goes out while the far end has a processor outage, and all do after it (Q.703 8.2).
#[test]
fn a_processor_outage_stops_messages(rt: HostRuntime) -> Result<(), Fail> {
    let script = Script {
        from: 1_000,
        to: 6_000,
        status: Status::ProcessorOutage,
    };
    let outcome = faces(rt.alloc(), script, eased(LONG, 300))?;
    let well = outcome.is_well() && outcome.acked == 300 && outcome.heard.msus == 300;
    holds(well && outcome.meanwhile.msus == 0 && outcome.meanwhile.fisus > 500)
}
