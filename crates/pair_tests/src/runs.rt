//! Runs of two ends, their steps written as the lines of a script.
//!
//! To let a world go is dear to prove, and dearer in a function that branches: only `ends` and `has_nothing_to_lose` do so,
//! in a straight line. Others borrow one, hand it on, or have plain values.
use l2_units::Profile;
use pair_world::{End, Move, PlayFault, Shown, Step, World};
use set_events::{Event, Fate, Method, SetConfig};
use std::alloc::Global;
use std::test::Fail;
use text_forms::read_move;

/// An end with so many links, its own point code and the far end's.
pub(crate) fn end_of(links: u8, own: u16, far: u16) -> Option<SetConfig> {
    SetConfig::new(0, links, own, far, 0x80, Method::Basic).ok()
}

/// What this line asks for, if anything.
pub(crate) fn read(alloc: Global, line: &str) -> Option<Move> {
    read_move(alloc, Profile::Narrow, line.as_bytes()).ok()
}

/// Adds the steps that these lines ask for; whether each asks for one.
fn add_steps(alloc: Global, lines: &[&str], steps: &mut Vec<Step>) -> bool {
    for line in lines {
        let Some(Move::Step(step)) = read(alloc, line) else {
            return false;
        };
        if steps.push(step).is_err() {
            return false;
        }
    }
    true
}

/// What a run of these steps leads to, from ends with so many links at a and at b.
fn played(alloc: Global, links: [u8; 2], steps: &[Step]) -> Option<Result<World, PlayFault>> {
    let a = end_of(links[0], 2, 1)?;
    let b = end_of(links[1], 1, 2)?;
    Some(World::play(alloc, &a, &b, steps))
}

/// How a run of these steps ends: in a fault, or with whether the world is so.
fn ends(
    alloc: Global,
    links: [u8; 2],
    steps: &[Step],
    fates: &[Fate],
    up: &[bool],
) -> Option<Result<bool, PlayFault>> {
    let ended = played(alloc, links, steps)?;
    Some(told_of(&ended, fates, up))
}

fn told_of(
    ended: &Result<World, PlayFault>,
    fates: &[Fate],
    up: &[bool],
) -> Result<bool, PlayFault> {
    match ended {
        Ok(world) => Ok(stands(world, fates, up)),
        Err(fault) => Err(*fault),
    }
}

/// Whether a run of these steps leads to an idle world. No answer: a line asks for no step.
fn is_idle_after(alloc: Global, lines: &[&str]) -> Option<bool> {
    let mut steps = Vec::new(alloc);
    let read = add_steps(alloc, lines, &mut steps);
    let ended = played(alloc, [1, 1], &steps)?;
    if read { Some(told_idle(&ended)) } else { None }
}

fn told_idle(ended: &Result<World, PlayFault>) -> bool {
    match ended {
        Ok(world) => world.is_idle(),
        Err(_) => false,
    }
}

/// A run of these steps leads to a world that is so.
fn leads(alloc: Global, links: u8, lines: &[&str], fates: &[Fate], up: &[bool]) -> bool {
    let mut steps = Vec::new(alloc);
    let read = add_steps(alloc, lines, &mut steps);
    read && ends(alloc, [links, links], &steps, fates, up) == Some(Ok(true))
}

/// A run of these steps ends in this fault.
fn fails(alloc: Global, links: [u8; 2], steps: &[Step], wanted: PlayFault) -> bool {
    match ends(alloc, links, steps, &[], &[]) {
        Some(Err(fault)) => fault == wanted && fault.number() == wanted.number(),
        _ => false,
    }
}

/// The same by the steps that these lines ask for.
fn lines_fail(alloc: Global, links: [u8; 2], lines: &[&str], wanted: PlayFault) -> bool {
    let mut steps = Vec::new(alloc);
    let read = add_steps(alloc, lines, &mut steps);
    read && fails(alloc, links, &steps, wanted)
}

/// The messages 0, 1, .. of end a stand so; the links 0, 1, .. are up at both ends, or settled at both with nothing on
/// its way.
pub(crate) fn stands(world: &World, fates: &[Fate], up: &[bool]) -> bool {
    for (number, fate) in fates.iter().enumerate() {
        if world.core(End::A).place_of(number as u64) != Some(*fate) {
            return false;
        }
    }
    for (link, up) in up.iter().enumerate() {
        if !link_is(world, (link % 16) as u8, *up) {
            return false;
        }
    }
    true
}

fn link_is(world: &World, link: u8, up: bool) -> bool {
    let a = world.core(End::A);
    let b = world.core(End::B);
    if up {
        a.is_up(link) && b.is_up(link)
    } else {
        a.is_settled(link) && b.is_settled(link) && world.line(End::B, link).is_empty()
    }
}

pub(crate) fn holds(it: bool) -> Result<(), Fail> {
    if it {
        Ok(())
    } else {
        Err(Fail::from("not so"))
    }
}

#[test]
fn nothing_arrives_from_an_empty_line(rt: HostRuntime) -> Result<(), Fail> {
    let fault = PlayFault::Impossible { place: 0 };
    holds(lines_fail(rt.alloc(), [1, 1], &["arrive b 0"], fault))
}

/// What no line of a script asks for.
fn next_of_a() -> Step {
    let end = End::A;
    let event = Event::Next { link: 0 };
    Step::Act { end, event }
}

#[test]
fn a_unit_is_sent_by_a_step_of_its_own(rt: HostRuntime) -> Result<(), Fail> {
    let mut steps = Vec::new(rt.alloc());
    let read = add_steps(rt.alloc(), &["together 0"], &mut steps);
    let added = steps.push(next_of_a()).is_ok();
    let fault = PlayFault::Impossible { place: 1 };
    holds(read && added && fails(rt.alloc(), [1, 1], &steps, fault))
}

#[test]
fn one_link_against_two(rt: HostRuntime) -> Result<(), Fail> {
    let first = lines_fail(rt.alloc(), [1, 2], &["arrive b 0"], PlayFault::Links);
    holds(first && fails(rt.alloc(), [2, 1], &[], PlayFault::Links))
}

/// An end of the wide profile.
pub(crate) fn wide_end_of(links: u8, own: u16, far: u16) -> Option<SetConfig> {
    SetConfig::new_wide(0, links, own, far, 0x80, Method::Basic).ok()
}

/// The fault in which a run of no steps ends, where end a alone is of the wide profile.
fn ends_unlike(alloc: Global, links: [u8; 2]) -> Option<PlayFault> {
    let a = wide_end_of(links[0], 2, 1)?;
    let b = end_of(links[1], 1, 2)?;
    let ended = World::play(alloc, &a, &b, &[]);
    fault_of(&ended)
}

/// The fault that is told instead of a new world, where end b alone is of the wide profile.
fn begins_unlike(alloc: Global, links: [u8; 2]) -> Option<PlayFault> {
    let a = end_of(links[0], 2, 1)?;
    let b = wide_end_of(links[1], 1, 2)?;
    let made = World::new(alloc, &a, &b);
    fault_of(&made)
}

fn fault_of(ended: &Result<World, PlayFault>) -> Option<PlayFault> {
    match ended {
        Ok(_) => None,
        Err(fault) => Some(*fault),
    }
}

#[test]
fn two_ends_have_one_profile(rt: HostRuntime) -> Result<(), Fail> {
    let played = ends_unlike(rt.alloc(), [1, 1]) == Some(PlayFault::Profile);
    let made = begins_unlike(rt.alloc(), [1, 1]) == Some(PlayFault::Profile);
    let links = ends_unlike(rt.alloc(), [1, 2]) == Some(PlayFault::Links);
    let new_links = begins_unlike(rt.alloc(), [2, 1]) == Some(PlayFault::Links);
    holds(played && made && links && new_links && PlayFault::Profile.number() == 5)
}

/// A run of these steps from two ends of the wide profile leads to a world that is so.
fn leads_wide(alloc: Global, lines: &[&str], fates: &[Fate]) -> Option<bool> {
    let mut steps = Vec::new(alloc);
    let read = add_steps(alloc, lines, &mut steps);
    let a = wide_end_of(1, 2, 1)?;
    let b = wide_end_of(1, 1, 2)?;
    let ended = World::play(alloc, &a, &b, &steps);
    Some(read && told_of(&ended, fates, &[true]) == Ok(true))
}

#[test]
fn a_message_goes_between_wide_ends(rt: HostRuntime) -> Result<(), Fail> {
    let lines = [
        "together 0",
        "offer a 8501800030",
        "emit a 0",
        "arrive b 0",
        "emit b 0",
        "arrive a 0",
    ];
    let fates = [Fate::Acked { link: 0 }];
    holds(leads_wide(rt.alloc(), &lines, &fates) == Some(true))
}

#[test]
fn no_steps_leave_two_new_ends(rt: HostRuntime) -> Result<(), Fail> {
    holds(leads(rt.alloc(), 2, &[], &[], &[false, false]))
}

/// A new world.
fn new_world(alloc: Global) -> Option<World> {
    World::new(alloc, &end_of(1, 2, 1)?, &end_of(1, 1, 2)?).ok()
}

fn is_up(shown: Shown) -> bool {
    matches!(shown, Shown::Up)
}

fn is_impossible(stepped: &Result<(World, Shown), PlayFault>) -> bool {
    matches!(stepped, Err(PlayFault::Impossible { place: 0 }))
}

/// Whether no unit to end b can be lost on link 0.
fn has_nothing_to_lose(world: World) -> bool {
    let (link, place) = (0, 0);
    let end = End::B;
    is_impossible(&world.step(&Step::Lose { end, link, place }))
}

/// A link comes up, from which nothing is then lost.
#[test]
fn a_step_shows_what_it_does(rt: HostRuntime) -> Result<(), Fail> {
    match new_world(rt.alloc()) {
        Some(world) => holds(comes_up_with_nothing_to_lose(world)),
        None => Err(Fail::from("no world")),
    }
}

fn comes_up_with_nothing_to_lose(world: World) -> bool {
    match world.step(&Step::Together { link: 0 }) {
        Ok((world, shown)) => {
            let comes_up = is_up(shown) && link_is(&world, 0, true);
            let is_empty = has_nothing_to_lose(world);
            comes_up && is_empty
        }
        Err(_) => false,
    }
}

/// The first of two messages is lost: it's sent again, and accepted.
#[test]
fn a_lost_unit_is_sent_again(rt: HostRuntime) -> Result<(), Fail> {
    let steps = [
        "together 0",
        "offer a 8501800030",
        "offer a 8501800031",
        "emit a 0",
        "emit a 0",
        "lose b 0 0",
        "arrive b 0",
        "emit b 0",
        "arrive a 0",
        "emit a 0",
        "arrive b 0",
        "emit b 0",
        "arrive a 0",
    ];
    let fates = [Fate::Acked { link: 0 }, Fate::Unacked { link: 0 }];
    holds(leads(rt.alloc(), 1, &steps, &fates, &[true]))
}

/// The far end leaves first; what it accepted isn't sent again on the other link (Q.704 5.4).
#[test]
fn the_far_end_leaves_first(rt: HostRuntime) -> Result<(), Fail> {
    let steps = [
        "together 0",
        "together 1",
        "offer a 8501800030",
        "offer a 8501800030",
        "offer a 8501800030",
        "emit a 1",
        "emit a 1",
        "emit a 1",
        "arrive b 1",
        "arrive b 1",
        "down b 1",
        "emit b 0",
        "arrive a 0",
        "emit a 0",
        "emit a 0",
        "arrive b 0",
        "arrive b 0",
        "arrive b 1",
    ];
    let acked = Fate::Acked { link: 1 };
    let fates = [acked, acked, Fate::Unacked { link: 0 }];
    holds(leads(rt.alloc(), 2, &steps, &fates, &[true, false]))
}

/// A link fails at one end, and the other learns of it by the order (Q.704 5.3 to 5.5).
#[test]
fn a_link_fails(rt: HostRuntime) -> Result<(), Fail> {
    let steps = [
        "together 0",
        "together 1",
        "offer a 8501800030",
        "offer a 8501800030",
        "offer a 8501800030",
        "emit a 1",
        "emit a 1",
        "arrive b 1",
        "down a 1",
        "offer a 8501800030",
        "emit a 0",
        "arrive b 0",
        "emit b 0",
        "arrive a 0",
    ];
    let acked = Fate::Acked { link: 1 };
    let waiting = Fate::Waiting { link: 0 };
    let order = Fate::Acked { link: 0 };
    let fates = [acked, waiting, waiting, order, waiting];
    holds(leads(rt.alloc(), 2, &steps, &fates, &[true]))
}

/// Both leave at once: each settles by the other's order, and the link comes up again with nothing on its way.
#[test]
fn both_leave_at_once(rt: HostRuntime) -> Result<(), Fail> {
    let steps = [
        "together 0",
        "together 1",
        "offer a 8501800030",
        "emit a 1",
        "down a 1",
        "down b 1",
        "emit a 0",
        "emit b 0",
        "arrive b 0",
        "arrive a 0",
        "together 1",
    ];
    let waiting = Fate::Waiting { link: 0 };
    let order = Fate::Unacked { link: 0 };
    holds(leads(rt.alloc(), 2, &steps, &[waiting, order], &[true, true]))
}

/// An old answer: without a timer's NoAnswer nothing would be sent twice, with it b has message 1 that a sends again. No
/// promise speaks of such a run.
#[test]
fn an_answer_of_an_earlier_life(rt: HostRuntime) -> Result<(), Fail> {
    let steps = [
        "together 0",
        "together 1",
        "down a 1",
        "noanswer a 1",
        "emit a 0",
        "arrive b 0",
        "together 1",
        "offer a 8501800030",
        "emit a 1",
        "arrive b 1",
        "down a 1",
        "emit b 0",
        "arrive a 0",
    ];
    let order = Fate::Acked { link: 0 };
    let waiting = Fate::Waiting { link: 0 };
    holds(leads(rt.alloc(), 2, &steps, &[order, waiting], &[true]))
}

/// All that was offered has arrived where nothing is left: not while a message is parked, waits, or was sent and isn't
/// acknowledged, at either end.
#[test]
fn all_that_was_offered_has_arrived(rt: HostRuntime) -> Result<(), Fail> {
    let steps = [
        "offer a 8501800030",
        "together 0",
        "emit a 0",
        "arrive b 0",
        "emit b 0",
        "arrive a 0",
    ];
    let nothing = is_idle_after(rt.alloc(), &[]) == Some(true);
    let all = is_idle_after(rt.alloc(), &steps) == Some(true);
    holds(nothing && all && is_never_idle_before(rt.alloc(), &steps))
}

/// Some steps of these, but not all, leave no world idle.
fn is_never_idle_before(alloc: Global, lines: &[&str]) -> bool {
    for place in 1..lines.len() {
        if is_idle_after(alloc, &lines[..place]) != Some(false) {
            return false;
        }
    }
    true
}
