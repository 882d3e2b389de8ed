//! What the contracts leave to be seen: that calls succeed, and the numbers that users meet.
use super::bench::holds;
use l2_units::read;
use set_events::*;
use std::test::Fail;

#[test]
fn an_entry_and_its_copy_are_the_same(rt: HostRuntime) -> Result<(), Fail> {
    let body = Body::from_slice(rt.alloc(), &[0x85, 1, 0x80, 0, 0x30])?;
    let whole = body.len() == 5;
    let offer = Entry {
        who: Actor::User(3),
        event: Event::Offer { body },
        answer: Answer::Accepted { number: 7 },
    };
    holds(whole && is_copied_entry(&offer))
}

/// The copy of this entry is the same, but where another actor asked.
fn is_copied_entry(entry: &Entry) -> bool {
    match entry.try_copy() {
        Ok(copy) => entry.same(&copy) && differs_by_its_actor(entry, copy),
        Err(_) => false,
    }
}

fn differs_by_its_actor(entry: &Entry, copy: Entry) -> bool {
    let mut other = copy;
    other.who = Actor::User(4);
    !entry.same(&other)
}

/// The copy of this event is the same.
fn is_copied(event: Event) -> bool {
    match event.try_copy() {
        Ok(copy) => event.same(&copy),
        Err(_) => false,
    }
}

/// A heard unit of these octets is copied.
fn is_unit_copied(octets: &[u8]) -> bool {
    match read(octets) {
        Ok(unit) => is_copied(Event::Heard { link: 0, unit }),
        Err(_) => false,
    }
}

#[test]
fn each_event_is_copied() -> Result<(), Fail> {
    holds(
        is_copied(Event::Take)
            && is_copied(Event::Find { number: 3 })
            && is_copied(Event::Next { link: 0 })
            && is_unit_copied(&[0xFF, 0xFF, 0])
            && is_unit_copied(&[0xFF, 0xFF, 1, 3])
            && is_copied(Event::Up { link: 0 })
            && is_copied(Event::Down { link: 15 })
            && is_copied(Event::DownBlind { link: 15 })
            && is_copied(Event::NoAnswer { link: 15 })
            && is_copied(Event::Timed { link: 15 })
            && is_copied(Event::Restore { link: 15 })
            && is_copied(Event::Redeclare { link: 15 })
            && is_copied(Event::BackTimeout { link: 15 })
            && is_copied(Event::Test { link: 15 }),
    )
}

#[test]
fn a_body_gives_its_octets_back(rt: HostRuntime) -> Result<(), Fail> {
    let body = Body::from_vec([0x85, 1, 0x80, 0, 0x30].to_vec(rt.alloc())?);
    let lent = body.octets() == [0x85, 1, 0x80, 0, 0x30].as_slice();
    let given = body.into_vec().as_slice() == [0x85, 1, 0x80, 0, 0x30].as_slice();
    holds(lent && given)
}

/// The two answers tell the same.
fn are_same(first: Answer, second: Answer) -> bool {
    first.same(&second)
}

/// The two events ask for something else each.
fn differ(first: Event, second: Event) -> bool {
    !first.same(&second)
}

#[test]
fn answers_differ_by_what_they_tell() -> Result<(), Fail> {
    let other = are_same(
        Answer::Accepted { number: 0 },
        Answer::Accepted { number: 1 },
    );
    holds(!other && !are_same(Answer::Accepted { number: 0 }, Answer::Done))
}

#[test]
fn actors_differ_by_their_kind() -> Result<(), Fail> {
    let same = Actor::Terminal(0).same(Actor::Terminal(0));
    holds(same && !Actor::Terminal(0).same(Actor::User(0)))
}

#[test]
fn refusals_have_the_numbers_that_are_printed() -> Result<(), Fail> {
    let of_offers = [
        Refusal::TooShort.number(),
        Refusal::TooLong.number(),
        Refusal::Reserved.number(),
        Refusal::StreamFull.number(),
    ];
    let of_links = [
        Refusal::NotUp.number(),
        Refusal::NotDown.number(),
        Refusal::Unsettled.number(),
    ];
    let of_others = [
        Refusal::UnknownNumber.number(),
        Refusal::Nothing.number(),
        Refusal::NoSuchLink.number(),
    ];
    holds(of_offers == [1, 2, 3, 4] && of_links == [5, 6, 7] && of_others == [8, 9, 10])
}

#[test]
fn causes_have_the_numbers_that_are_printed() -> Result<(), Fail> {
    let causes = [
        DiscardCause::Emergency.number(),
        DiscardCause::Unreasonable.number(),
        DiscardCause::NoAnswer.number(),
    ];
    holds(causes == [1, 2, 3] && ControlFault::Bsn.number() == 2)
}

#[test]
fn faults_of_a_configuration_have_the_numbers_that_are_printed() -> Result<(), Fail> {
    let faults = [
        ConfigFault::Links.number(),
        ConfigFault::PointCode.number(),
        ConfigFault::Sio.number(),
        ConfigFault::Cyclic.number(),
    ];
    holds(faults == [1, 2, 3, 4])
}

#[test]
fn a_link_that_fails_blind_differs_from_one_that_fails() -> Result<(), Fail> {
    let blind = differ(Event::Down { link: 1 }, Event::DownBlind { link: 1 });
    holds(blind && differ(Event::Down { link: 1 }, Event::Down { link: 2 }))
}

/// The two fates are told as the same.
fn are_same_fate(first: Fate, second: Fate) -> bool {
    are_same(
        Answer::Found { fate: first },
        Answer::Found { fate: second },
    )
}

#[test]
fn a_held_message_differs_from_a_discarded_one() -> Result<(), Fail> {
    let held = Fate::Held { link: 1 };
    let discarded = Fate::Discarded {
        cause: DiscardCause::NoAnswer,
    };
    holds(are_same_fate(held, held) && !are_same_fate(held, discarded))
}

#[test]
fn each_changeback_differs_by_its_link() -> Result<(), Fail> {
    let timeout = differ(Event::Restore { link: 1 }, Event::BackTimeout { link: 1 });
    holds(timeout && differ(Event::Restore { link: 1 }, Event::Restore { link: 2 }))
}

#[test]
fn what_waits_for_a_changeback_differs_by_its_code() -> Result<(), Fail> {
    let back = Fate::Back { code: 16 };
    let other = Fate::Back { code: 17 };
    holds(are_same_fate(back, back) && !are_same_fate(back, other))
}

/// What is wrong with so many links, these point codes and this SIO, if anything is.
fn fault_of(links: u8, opc: u16, dpc: u16, sio: u8, method: Method) -> Option<ConfigFault> {
    SetConfig::new(0, links, opc, dpc, sio, method).err()
}

/// With the basic method a configuration of these is refused so, or taken.
fn tells(rows: &[(u8, u16, u16, u8, Option<ConfigFault>)]) -> bool {
    for row in rows {
        let (links, opc, dpc, sio, why) = *row;
        if fault_of(links, opc, dpc, sio, Method::Basic) != why {
            return false;
        }
    }
    true
}

#[test]
fn configurations_out_of_range_are_refused() -> Result<(), Fail> {
    holds(tells(&[
        (0, 16_384, 1, 0x80, Some(ConfigFault::Links)),
        (17, 16_384, 1, 0x80, Some(ConfigFault::Links)),
        (255, 16_384, 1, 0x80, Some(ConfigFault::Links)),
        (1, 1, 1, 0x80, None),
        (2, 1, 1, 0x80, None),
        (16, 1, 1, 0x80, None),
        (1, 16_384, 1, 0x81, Some(ConfigFault::PointCode)),
        (1, 16_383, 0, 0x81, Some(ConfigFault::Sio)),
        (1, 16_383, 0, 0x80, None),
    ]))
}

/// Cyclic retransmission forced by so many messages or octets is refused so, or taken.
fn tells_of_cycles(rows: &[(u16, u32, Option<ConfigFault>)]) -> bool {
    for row in rows {
        let (n1, n2, why) = *row;
        if fault_of(1, 2, 1, 0x80, Method::Cyclic { n1, n2 }) != why {
            return false;
        }
    }
    true
}

#[test]
fn cycles_out_of_range_are_refused() -> Result<(), Fail> {
    holds(tells_of_cycles(&[
        (0, 1000, Some(ConfigFault::Cyclic)),
        (128, 1000, Some(ConfigFault::Cyclic)),
        (2, 0, Some(ConfigFault::Cyclic)),
        (2, 34_672, Some(ConfigFault::Cyclic)),
        (127, 34_671, None),
    ]))
}
