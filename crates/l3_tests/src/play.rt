//! A link, what is seen of it, and short ways to ask it.
use l3_link::{Ask, Level2, LinkManagement, Phase, Seen, Times};
use std::test::Fail;

/// So it is. It stands in the place of `assert!`, whose text of what isn't so costs the prover a multiple.
pub(crate) fn holds(fact: bool) -> Result<(), Fail> {
    if fact {
        Ok(())
    } else {
        Err(Fail::from("it isn't so"))
    }
}

/// Out of service, and settled; no other link carries traffic.
pub(crate) const OUT: Seen = Seen {
    level2: Level2::Out,
    phase: Phase::Settled,
    passed: false,
    others: false,
    hopes: false,
};

/// It aligns.
pub(crate) const ALIGNS: Seen = Seen {
    level2: Level2::Works,
    ..OUT
};

/// In service, and up.
pub(crate) const UP: Seen = Seen {
    level2: Level2::Works,
    phase: Phase::Up,
    ..OUT
};

/// The same, and the answer to its test came.
pub(crate) const PASSED: Seen = Seen { passed: true, ..UP };

/// The far end has a processor outage.
pub(crate) const PAUSED: Seen = Seen {
    level2: Level2::Paused,
    ..UP
};

/// It failed.
pub(crate) const LEFT: Seen = Seen {
    phase: Phase::Left,
    ..OUT
};

/// The same, while another link carries traffic.
pub(crate) fn with_others(seen: Seen) -> Seen {
    Seen {
        others: true,
        ..seen
    }
}

/// A link whose T1, T2, T4, T5 and T17 are of 500, 700, 600, 610 and 300 turns, T1 and T2 of Q.707 of 400 and 2,000.
pub(crate) fn link(tests: bool) -> LinkManagement {
    let times = match Times::new(500, 700, 600, 610, 300, 400, 2_000) {
        Ok(times) => times,
        Err(_) => unreachable!(),
    };
    LinkManagement::new(times, tests)
}

/// What a turn asks. All tests ask through here, so that the prover meets the contract once.
pub(crate) fn turn(link: &mut LinkManagement, seen: Seen) -> Option<Ask> {
    link.turn(seen)
}

/// What is asked behind an answer.
pub(crate) fn answered(link: &mut LinkManagement, done: bool) -> Option<Ask> {
    link.answered(done)
}

/// What an activation asks; nothing, where it's refused.
pub(crate) fn activated(link: &mut LinkManagement, seen: Seen) -> Option<Ask> {
    match link.activate(seen) {
        Ok(asked) => asked,
        Err(_) => None,
    }
}

/// So many turns ask nothing.
pub(crate) fn is_quiet(link: &mut LinkManagement, seen: Seen, turns: u32) -> bool {
    for _ in 0..turns {
        if turn(link, seen).is_some() {
            return false;
        }
    }
    true
}

/// A turn asks this, and nothing else.
pub(crate) fn asks(link: &mut LinkManagement, seen: Seen, ask: Ask) -> bool {
    turn(link, seen) == Some(ask) && ends(link)
}

/// What was asked is done, and no more is asked.
pub(crate) fn ends(link: &mut LinkManagement) -> bool {
    answered(link, true).is_none()
}

/// What was asked is done, and this is asked next.
pub(crate) fn done_asks(link: &mut LinkManagement, ask: Ask) -> bool {
    answered(link, true) == Some(ask)
}

/// What was asked is refused, and this is asked next.
pub(crate) fn refused_asks(link: &mut LinkManagement, ask: Ask) -> bool {
    answered(link, false) == Some(ask)
}
