//! What level 3 asks, carried out.
ghost use Rattle.std.specs.Prelude.{◌≡◌, ◌<◌, ◌≤◌, List, Option, length, None, Some, IfErr, IfOk, OnErr};
ghost use Rattle.l3_link.specs.declared.signals.Ask.{Ask as WhatIsAsked};
ghost use Rattle.term_managed.specs.Carrying.{Asks, CarriesOut, Chain, IsFault, Tells};
ghost use Rattle.term_managed.specs.declared.turn.Deed.{Deed as WhatWasDone};

use super::turn::Deed;
use l3_link::{Ask, LinkManagement};
use link_term::Command;
use set_events::{Actor, Answer, Event, Refusal, SetFault};
use std::alloc::Global;
use term_bench::Bench;

/// What the management of this link asks is carried out, and what it asks behind that, until it asks nothing: what was
/// done, the first one first.
///
/// Faults: 1 [`SetFault::NoMemory`], and 2 [`SetFault::Exhausted`] only where the set's history is full. What was done
/// before stays done, and the management isn't answered.
pub(crate) fn carry_all(
    alloc: Global,
    bench: &mut Bench,
    management: &mut LinkManagement,
    link: u8,
    first: Option<Ask>,
) -> Result<Vec<Deed>, SetFault>
    requires there { link < length bench.old.links }
    requires few { length bench.old.links ≤ 16 }
    ensures done { IfOk result (λ deeds. Chain link first management.old bench.old deeds.items None
        management.new bench.new) }
    ensures links { length bench.new.links ≡ length bench.old.links }
    ensures breaks { IfErr result (λ fault. (deeds : List WhatWasDone) × (ask : WhatIsAsked)
        × Chain link first management.old bench.old deeds (Some ask) management.new bench.new
        × IsFault fault bench.new) }
{
    let mut deeds = Vec::new(alloc);
    let mut asked = first;
    while let Some(ask) = asked {
        deeds.reserve(1)?;
        let refused = carry_out(bench, link, ask)?;
        asked = management.answered(refused.is_none());
        deeds.push_reserved(Deed { ask, refused });
    }
    Ok(deeds)
}

/// What is asked of this link, done: why it was refused, if it was. Faults: those of [`Bench::ask`]; the bench is then as
/// it was.
fn carry_out(bench: &mut Bench, link: u8, ask: Ask) -> Result<Option<Refusal>, SetFault>
    requires there { link < length bench.old.links }
    requires few { length bench.old.links ≤ 16 }
    ensures done { IfOk result (λ refused. CarriesOut link ask bench.old refused bench.new) }
    ensures links { length bench.new.links ≡ length bench.old.links }
    ensures same { OnErr result (bench.new ≡ bench.old) }
    ensures fault { IfErr result (λ fault. IsFault fault bench.old) }
{
    match ask {
        Ask::Rise { emergency: true } => {
            tell(bench, link, Command::Emergency);
            Ok(tell(bench, link, Command::Start))
        }
        Ask::Rise { emergency: false } => Ok(tell(bench, link, Command::Start)),
        Ask::Emergency => Ok(tell(bench, link, Command::Emergency)),
        Ask::Stop => Ok(tell(bench, link, Command::Stop)),
        Ask::Test => ask_set(bench, link, &Event::Test { link }),
        Ask::Timed => ask_set(bench, link, &Event::Timed { link }),
        Ask::NoAnswer => ask_set(bench, link, &Event::NoAnswer { link }),
        Ask::Restore => ask_set(bench, link, &Event::Restore { link }),
        Ask::Redeclare => ask_set(bench, link, &Event::Redeclare { link }),
        Ask::BackTimeout => ask_set(bench, link, &Event::BackTimeout { link }),
    }
}

/// A command to the terminal of this link: why it was refused, if it was.
fn tell(bench: &mut Bench, link: u8, command: Command) -> Option<Refusal>
    requires { link < length bench.old.links }
    ensures tells { Tells link command bench.old result bench.new }
    ensures links { length bench.new.links ≡ length bench.old.links }
{
    match bench.command(link, command) {
        Ok(()) => None,
        Err(why) => Some(why),
    }
}

/// An event of this link's terminal: why the set refused it, if it did.
fn ask_set(bench: &mut Bench, link: u8, event: &Event) -> Result<Option<Refusal>, SetFault>
    requires { link < 16 }
    ensures done { IfOk result (λ refused. Asks link event.now bench.old refused bench.new) }
    ensures links { length bench.new.links ≡ length bench.old.links }
    ensures same { OnErr result (bench.new ≡ bench.old) }
    ensures fault { IfErr result (λ fault. IsFault fault bench.old) }
{
    match bench.ask(Actor::Terminal(link), event)? {
        Answer::Refused { why } => Ok(Some(why)),
        _ => Ok(None),
    }
}
