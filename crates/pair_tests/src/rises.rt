//! Runs of two ends whose links come up at one end and then at the other. A move is written as the line of a script.
//!
//! Each run gives a world, or a fault; what is looked at borrows it.
use super::runs::{end_of, holds, read, stands, wide_end_of};
use l2_units::UnitRef;
use pair_world::{End, Move, PlayFault, Showing, ShownRef, Step, World};
use set_events::{AnswerRef, Event, Fate, SetConfig};
use std::alloc::Global;
use std::test::Fail;

/// What these lines lead to.
type Ended = Option<Result<World, PlayFault>>;

/// Adds the moves of these lines; whether each is one.
fn add_moves(alloc: Global, lines: &[&str], moves: &mut Vec<Move>) -> bool {
    for line in lines {
        let Some(next) = read(alloc, line) else {
            return false;
        };
        if moves.push(next).is_err() {
            return false;
        }
    }
    true
}

/// What these lines and then those lead to, from these two ends.
fn played_from(
    alloc: Global,
    ends: [Option<SetConfig>; 2],
    lines: &[&str],
    then: &[&str],
) -> Ended {
    let mut moves = Vec::new(alloc);
    let read = add_moves(alloc, lines, &mut moves) && add_moves(alloc, then, &mut moves);
    let a = ends[0]?;
    let b = ends[1]?;
    if read {
        Some(World::play_moves(alloc, &a, &b, &moves))
    } else {
        None
    }
}

/// The same from two ends with so many links.
fn played(alloc: Global, links: u8, lines: &[&str], then: &[&str]) -> Ended {
    let ends = [end_of(links, 2, 1), end_of(links, 1, 2)];
    played_from(alloc, ends, lines, then)
}

fn world_in(ended: &Ended) -> Option<&World> {
    match ended {
        Some(Ok(world)) => Some(world),
        _ => None,
    }
}

fn fault_in(ended: &Ended) -> Option<PlayFault> {
    match ended {
        Some(Err(fault)) => Some(*fault),
        _ => None,
    }
}

/// A run of these lines at ends with one link ends in this fault.
fn fails(alloc: Global, lines: &[&str], fault: PlayFault) -> bool {
    let ended = played(alloc, 1, lines, &[]);
    fault_in(&ended) == Some(fault)
}

/// The messages of end a stand so, and so many units are under way to each end on link 0.
fn has(ended: &Ended, fates: &[Fate], to_a: usize, to_b: usize) -> bool {
    match world_in(ended) {
        Some(world) => {
            let lines = world.line(End::A, 0).len() == to_a && world.line(End::B, 0).len() == to_b;
            lines && stands(world, fates, &[])
        }
        None => false,
    }
}

/// How many late orders about link 0 end b has heard, where it has link 0 settled.
fn late_at_b(ended: &Ended) -> Option<u32> {
    let b = world_in(ended)?.core(End::B);
    if b.is_settled(0) {
        Some(b.late(0))
    } else {
        None
    }
}

/// So many messages of these octets are there to be taken by users at end b.
fn are_taken(ended: &mut Ended, messages: u64, octets: &[u8]) -> bool {
    let Some(Ok(world)) = ended else {
        return false;
    };
    for _ in 0..messages {
        if !is_taken(world, octets) {
            return false;
        }
    }
    !is_taken(world, octets)
}

/// A user takes a message of these octets at end b.
fn is_taken(world: &mut World, octets: &[u8]) -> bool {
    let mut shown = Showing::new();
    let end = End::B;
    let event = Event::Take;
    let made = world.make_move(&Move::Step(Step::Act { end, event }), &mut shown);
    made.is_ok() && shows_taken(&shown, octets)
}

fn shows_taken(shown: &Showing, octets: &[u8]) -> bool {
    match shown.get() {
        ShownRef::Answered(AnswerRef::Taken { body }) => *body == *octets,
        _ => false,
    }
}

/// A message of stream 2, whose home is link 0.
const MESSAGE: [u8; 5] = [0x85, 0x01, 0x80, 0x00, 0x20];

/// Link 1 is up at both ends; link 0 comes up at a alone, which sends a message on it, and leaves it. b hears the order
/// about it while link 0 is settled there (Q.704 5.4.1).
const MISSED: [&str; 8] = [
    "rise a 1",
    "rise b 1",
    "rise a 0",
    "offer a 8501800020",
    "emit a 0",
    "down a 0",
    "emit a 1",
    "arrive b 1",
];

/// b has a late order to count once it hears it, not before; till its answer comes the message stays on the link that a
/// left.
#[test]
fn a_late_order_tells_of_a_life_that_was_missed(rt: HostRuntime) -> Result<(), Fail> {
    let before = played(rt.alloc(), 2, &MISSED[..7], &[]);
    let none_before = late_at_b(&before) == Some(0);
    let ended = played(rt.alloc(), 2, &MISSED, &[]);
    let one = late_at_b(&ended) == Some(1);
    let fates = [Fate::Unacked { link: 0 }, Fate::Unacked { link: 1 }];
    holds(none_before && one && has(&ended, &fates, 0, 1))
}

/// b accepted nothing in that life, and tells so: the message comes by link 1. Then link 0 comes up, first at b: the
/// unit of the life before is gone, and the message is there once (Q.704 5.4).
#[test]
fn a_message_of_a_missed_life_comes_once(rt: HostRuntime) -> Result<(), Fail> {
    let then = [
        "emit b 1",
        "arrive a 1",
        "emit a 1",
        "arrive b 1",
        "rise b 0",
        "rise a 0",
        "emit b 1",
        "arrive a 1",
    ];
    let acked = Fate::Acked { link: 1 };
    let moved = played(rt.alloc(), 2, &MISSED, &then[..2]);
    let waits = has(&moved, &[Fate::Waiting { link: 1 }, acked], 0, 1);
    let mut ended = played(rt.alloc(), 2, &MISSED, &then);
    let once = has(&ended, &[acked, acked], 0, 0) && is_up_at_both(&ended, 0);
    let done = !is_done(&moved) && is_done(&ended);
    holds(waits && once && done && are_taken(&mut ended, 1, &MESSAGE))
}

/// Nothing of the users is left at either end, so they got all.
fn is_done(ended: &Ended) -> bool {
    match world_in(ended) {
        Some(world) => world.is_idle(),
        None => false,
    }
}

fn is_up_at_both(ended: &Ended, link: u8) -> bool {
    match world_in(ended) {
        Some(world) => world.core(End::A).is_up(link) && world.core(End::B).is_up(link),
        None => false,
    }
}

/// Were b's link brought up in the life that it missed, the message would come by it too. No promise speaks of such a
/// run: who brings links up looks at the count of late orders.
#[test]
fn a_missed_life_is_not_to_be_joined(rt: HostRuntime) -> Result<(), Fail> {
    let then = [
        "rise b 0",
        "arrive b 0",
        "emit b 1",
        "arrive a 1",
        "emit a 1",
        "arrive b 1",
    ];
    let mut ended = played(rt.alloc(), 2, &MISSED, &then);
    holds(are_taken(&mut ended, 2, &MESSAGE))
}

/// Were link 0 brought up at a in the life that a left, while b is in it, what a sends there begins anew with FSN 0,
/// and b's BSN 0, of the message before, acknowledges it: a takes it for accepted, and it never is (Q.703 5.3). No
/// promise speaks of such a run: a starts a link that it has settled, and b isn't ready for that unless it settled
/// the link too.
#[test]
fn a_life_that_was_left_is_not_to_be_joined_again(rt: HostRuntime) -> Result<(), Fail> {
    let first = [
        "rise a 0",
        "rise b 0",
        "offer a 8501800020",
        "emit a 0",
        "arrive b 0",
        "down a 0",
        "noanswer a 0",
    ];
    let then = [
        "rise a 0",
        "offer a 850180002001",
        "emit a 0",
        "emit b 0",
        "arrive a 0",
        "arrive b 0",
    ];
    let mut ended = played(rt.alloc(), 1, &first, &then);
    let acked = fate_at_a(&ended, 2) == Some(Fate::Acked { link: 0 });
    holds(acked && are_taken(&mut ended, 1, &MESSAGE))
}

/// How the message of this number stands at end a.
fn fate_at_a(ended: &Ended, number: u64) -> Option<Fate> {
    world_in(ended)?.core(End::A).place_of(number)
}

/// The FISU that is under way to end a on link 0 has this number twice, and both indicator bits 1.
fn is_idle_with(ended: &Ended, number: u16) -> bool {
    match world_in(ended) {
        Some(world) => match world.line(End::A, 0).unit_ref(0) {
            Some(UnitRef::Fisu { head }) => {
                head.bsn == number && head.fsn == number && head.bib && head.fib
            }
            _ => false,
        },
        None => false,
    }
}

/// How many entries the histories have.
fn has_entries(ended: &Ended, a: u64, b: u64) -> bool {
    match world_in(ended) {
        Some(world) => world.core(End::A).entries() == a && world.core(End::B).entries() == b,
        None => false,
    }
}

/// Link 0 comes up at a, which sends a message, and b's terminal a FISU, of which b's set knows nothing: it
/// acknowledges nothing. Then b joins, hears what is under way, and acknowledges it (Q.703 5.2.1, 12.1).
#[test]
fn what_is_under_way_waits_for_the_end_that_joins(rt: HostRuntime) -> Result<(), Fail> {
    let first = ["rise a 0", "offer a 8501800020", "emit a 0", "fill b 0"];
    let then = [
        "arrive a 0",
        "rise b 0",
        "arrive b 0",
        "emit b 0",
        "arrive a 0",
    ];
    let unacked = [Fate::Unacked { link: 0 }];
    let filled = played(rt.alloc(), 1, &first, &[]);
    let idle = is_idle_with(&filled, 127) && has_entries(&filled, 3, 0);
    let under_way = has(&filled, &unacked, 1, 1);
    let heard = played(rt.alloc(), 1, &first, &then[..2]);
    let joined = has(&heard, &unacked, 0, 1) && has_entries(&heard, 4, 1);
    let mut ended = played(rt.alloc(), 1, &first, &then);
    let acked = has(&ended, &[Fate::Acked { link: 0 }], 0, 0);
    holds(idle && under_way && joined && acked && are_taken(&mut ended, 1, &MESSAGE))
}

/// In the wide profile the number before 0 is 4,095.
#[test]
fn a_wide_end_fills_its_line(rt: HostRuntime) -> Result<(), Fail> {
    let ends = [wide_end_of(1, 2, 1), wide_end_of(1, 1, 2)];
    let ended = played_from(rt.alloc(), ends, &["rise a 0", "fill b 0"], &[]);
    holds(is_idle_with(&ended, 4095))
}

/// A link comes up where it's settled alone: not where it's up, nor where it was left and no order has settled it.
#[test]
fn a_link_that_is_not_settled_does_not_come_up(rt: HostRuntime) -> Result<(), Fail> {
    let up = ["rise a 0", "rise a 0"];
    let left = ["rise a 0", "rise b 0", "down a 0", "rise a 0"];
    let twice = fails(rt.alloc(), &up, PlayFault::Impossible { place: 1 });
    holds(twice && fails(rt.alloc(), &left, PlayFault::Impossible { place: 3 }))
}

#[test]
fn a_link_that_the_world_has_not(rt: HostRuntime) -> Result<(), Fail> {
    let rises = fails(
        rt.alloc(),
        &["rise b 1"],
        PlayFault::Impossible { place: 0 },
    );
    let fills = fails(
        rt.alloc(),
        &["fill b 1"],
        PlayFault::Impossible { place: 0 },
    );
    holds(rises && fills)
}

#[test]
fn ends_that_make_no_world(rt: HostRuntime) -> Result<(), Fail> {
    let ends = [end_of(1, 2, 1), end_of(2, 1, 2)];
    let links = fault_in(&played_from(rt.alloc(), ends, &[], &[])) == Some(PlayFault::Links);
    let ends = [end_of(1, 2, 1), wide_end_of(1, 1, 2)];
    let profiles = fault_in(&played_from(rt.alloc(), ends, &[], &[])) == Some(PlayFault::Profile);
    holds(links && profiles)
}

/// Both ends left link 1 while a message of a was under way on it, and each settled it by the other's order.
const SETTLED: [&str; 10] = [
    "together 0",
    "together 1",
    "offer a 8501800030",
    "emit a 1",
    "down a 1",
    "down b 1",
    "emit a 0",
    "emit b 0",
    "arrive b 0",
    "arrive a 0",
];

/// All that this tells of an end and of the lines to it is alike in both worlds.
fn is_alike(one: &World, other: &World, end: End) -> bool {
    let (a, b) = (one.core(end), other.core(end));
    let sets = a.counts() == b.counts() && a.entries() == b.entries();
    let fates = a.place_of(0) == b.place_of(0) && a.place_of(1) == b.place_of(1);
    let links = a.is_up(0) == b.is_up(0) && a.is_up(1) == b.is_up(1);
    let lines = one.line(end, 0).len() == other.line(end, 0).len()
        && one.line(end, 1).len() == other.line(end, 1).len();
    sets && fates && links && lines
}

fn are_alike(one: &Ended, other: &Ended) -> bool {
    match (world_in(one), world_in(other)) {
        (Some(one), Some(other)) => is_alike(one, other, End::A) && is_alike(one, other, End::B),
        _ => false,
    }
}

/// Nothing is under way on link 1 when it came up at both ends, together or at either end first.
#[test]
fn together_is_a_rise_at_each_end(rt: HostRuntime) -> Result<(), Fail> {
    let together = played(rt.alloc(), 2, &SETTLED, &["together 1"]);
    let a_first = played(rt.alloc(), 2, &SETTLED, &["rise a 1", "rise b 1"]);
    let b_first = played(rt.alloc(), 2, &SETTLED, &["rise b 1", "rise a 1"]);
    let up = is_up_at_both(&a_first, 1);
    let alike = are_alike(&together, &a_first) && are_alike(&together, &b_first);
    let fates = [Fate::Waiting { link: 0 }, Fate::Unacked { link: 0 }];
    holds(up && alike && has(&a_first, &fates, 0, 0) && is_clear(&a_first))
}

/// Nothing is under way on link 1.
fn is_clear(ended: &Ended) -> bool {
    match world_in(ended) {
        Some(world) => world.line(End::A, 1).is_empty() && world.line(End::B, 1).is_empty(),
        None => false,
    }
}
