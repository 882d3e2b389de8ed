//! A world of two ends: its making, each kind of step, and a whole run.
use super::script::{config, message_of};
use super::sets::are_alike;
use super::{MOST_GROWTHS, TRIES, holds, holds_of, made_at_last};
use pair_world::{End, PlayFault, Step, World};
use set_events::{Body, Event, Method, SetConfig};
use std::alloc::{Allocator, Global};
use std::test::Fail;
use test_refusing::Refusing;

/// A world is made, and takes each step: each growth of that refused in turn. A refused one gives the world up, and
/// nothing is left of it.
#[test]
fn a_refused_growth_gives_a_world_up(rt: HostRuntime) -> Result<(), Fail> {
    holds(each_growth_is_refused(rt.alloc(), false))
}

/// So does a run of all steps in one call.
#[test]
fn a_refused_growth_ends_a_run(rt: HostRuntime) -> Result<(), Fail> {
    holds(each_growth_is_refused(rt.alloc(), true))
}

fn each_growth_is_refused(alloc: Global, at_once: bool) -> bool {
    let Some(steps) = steps(alloc) else {
        return false;
    };
    for number in 1..=MOST_GROWTHS {
        let refusing = Refusing::new(alloc, number);
        if !is_right(&refusing, alloc, &steps, at_once) || refusing.blocks() != 0 {
            return false;
        }
        if !refusing.refuses_no_more() {
            // the lines and sets of both ends, a message, and the units that join a line
            return number > 20;
        }
    }
    false
}

/// The run's world is its twin's, also where it was refused before.
fn is_right(refusing: &Refusing<Global>, alloc: Global, steps: &[Step], at_once: bool) -> bool {
    holds_of(run(alloc, steps), |twin| {
        holds_of(
            ran(refusing, steps, at_once),
            |world| are_worlds_alike(world, twin),
        )
    })
}

/// What a run over this allocator comes to, made again where it was refused; nothing is left of one that was.
fn ran<'r>(
    refusing: &'r Refusing<Global>,
    steps: &[Step],
    at_once: bool,
) -> Option<World<&'r Refusing<Global>>> {
    for _ in 0..TRIES {
        let ran = if at_once {
            played(refusing, steps)
        } else {
            stepped(refusing, steps)
        };
        match ran {
            Ok(world) => return Some(world),
            Err(PlayFault::NoMemory) if refusing.blocks() == 0 => {}
            Err(_) => return None,
        }
    }
    None
}

/// The run's world, made again where memory was refused.
fn run(alloc: Global, steps: &[Step]) -> Option<World> {
    made_at_last(|| played(alloc, steps).ok())
}

fn played<G: Allocator + Copy>(alloc: G, steps: &[Step]) -> Result<World<G>, PlayFault> {
    let (Some(a), Some(b)) = (config(), far_config()) else {
        return Err(PlayFault::Links);
    };
    World::play(alloc, &a, &b, steps)
}

/// The same, step by step.
fn stepped<G: Allocator + Copy>(alloc: G, steps: &[Step]) -> Result<World<G>, PlayFault> {
    let (Some(a), Some(b)) = (config(), far_config()) else {
        return Err(PlayFault::Links);
    };
    let mut world = World::new(alloc, &a, &b)?;
    for step in steps {
        let (next, _) = world.step(step)?;
        world = next;
    }
    Ok(world)
}

/// All readers of both tell the same.
fn are_worlds_alike<G: Allocator + Copy>(world: &World<G>, twin: &World) -> bool {
    are_alike(world.core(End::A), twin.core(End::A))
        && are_alike(world.core(End::B), twin.core(End::B))
        && have_same_lines(world, twin, End::A)
        && have_same_lines(world, twin, End::B)
        && world.is_idle() == twin.is_idle()
}

fn have_same_lines<G: Allocator + Copy>(world: &World<G>, twin: &World, end: End) -> bool {
    for link in 0..2u8 {
        let (line, other) = (world.line(end, link), twin.line(end, link));
        if line.len() != other.len() || line.unit(0) != other.unit(0) {
            return false;
        }
    }
    true
}

/// The settings of the far end.
fn far_config() -> Option<SetConfig> {
    SetConfig::new(0, 2, 1, 2, 0x80, Method::Basic).ok()
}

/// Link 0 comes up. Of three messages the first is delivered and taken, the second is lost under way, and the third
/// waits as the link is left.
fn steps(alloc: Global) -> Option<Vec<Step>> {
    made_at_last(|| try_steps(alloc))
}

fn try_steps(alloc: Global) -> Option<Vec<Step>> {
    let (a, b) = (End::A, End::B);
    let mut steps = Vec::with_capacity(alloc, 16).ok()?;
    steps.push(Step::Together { link: 0 }).ok()?;
    steps.push(offer(alloc)?).ok()?;
    steps.push(Step::Emit { end: a, link: 0 }).ok()?;
    steps.push(Step::Arrive { end: b, link: 0 }).ok()?;
    steps.push(Step::Emit { end: b, link: 0 }).ok()?;
    steps.push(Step::Arrive { end: a, link: 0 }).ok()?;
    steps.push(act(b, Event::Take)).ok()?;
    steps.push(offer(alloc)?).ok()?;
    steps.push(Step::Emit { end: a, link: 0 }).ok()?;
    steps.push(lose(b)).ok()?;
    steps.push(offer(alloc)?).ok()?;
    steps.push(act(a, Event::Down { link: 0 })).ok()?;
    steps.push(act(a, Event::Find { number: 0 })).ok()?;
    Some(steps)
}

fn act(end: End, event: Event) -> Step {
    Step::Act { end, event }
}

fn lose(end: End) -> Step {
    Step::Lose {
        end,
        link: 0,
        place: 0,
    }
}

/// End a offers a message.
fn offer(alloc: Global) -> Option<Step> {
    let body = Body::from_slice(alloc, &message_of(0)).ok()?;
    Some(act(End::A, Event::Offer { body }))
}
