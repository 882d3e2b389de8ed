//! Where the messages of a set stand, and many messages, each found again.
//!
//! Each call of the queues is asked through one function here, so that the prover meets its contract once.
ghost use Rattle.std.specs.Prelude.{◌≡◌, true};
ghost use Rattle.set_queues.specs.Buffers.{IsKnown, IsQueued};

use super::bench::holds;
use l2_units::Profile;
use set_events::{Counts, DiscardCause, Fate};
use set_queues::*;
use std::alloc::AllocError;
use std::test::Fail;

const TO_LINK_0: Fate = Fate::Waiting { link: 0 };

const TO_LINK_1: Fate = Fate::Waiting { link: 1 };

/// Whether the set has the link of this fate.
fn is_known(queues: &Queues, fate: Fate) -> bool
    ensures { result ≡ true → IsKnown fate queues.now.lists }
{
    match fate {
        Fate::Waiting { link } | Fate::Unacked { link } | Fate::Held { link } => {
            usize::from(link) < queues.links()
        }
        Fate::Back { .. } => {
            queues.is_sound();
            true
        }
        _ => true,
    }
}

/// Whether messages can wait there.
fn is_queued(fate: Fate) -> bool
    ensures { result ≡ true → IsQueued fate }
{
    match fate {
        Fate::Waiting { .. } | Fate::Held { .. } | Fate::Parked | Fate::Back { .. } => true,
        _ => false,
    }
}

/// A user's message of stream 3 and of 20 octets stands there; its number.
fn put(queues: &mut Queues, fate: Fate) -> Result<u64, AllocError> {
    if !is_known(queues, fate) || !is_queued(fate) {
        return Err(AllocError);
    }
    queues.reserve(1)?;
    queues.reserve_at(fate, 1)?;
    Ok(queues.add(Message {
        fate,
        kind: Kind::User { stream: 3 },
        octets: 20,
    }))
}

/// The first message that waits for the link is sent.
fn send(queues: &mut Queues, link: u8) -> Option<(u64, u16)> {
    if usize::from(link) >= queues.links() {
        return None;
    }
    queues.send(link).ok()
}

/// The messages of the link up to this FSN are acknowledged.
fn acknowledge(queues: &mut Queues, link: u8, fsn: u16) -> Option<u16> {
    if usize::from(link) >= queues.links() {
        return None;
    }
    if fsn >= queues.window(link).profile().fsn_count() {
        return None;
    }
    queues.acknowledge(link, fsn).ok()
}

/// What was sent on the link is given up.
fn give_up(queues: &mut Queues, link: u8) {
    let sent = Fate::Unacked { link };
    if is_known(queues, sent) {
        queues.discard(sent, DiscardCause::Emergency);
    }
}

/// The parked messages wait for the link.
fn unpark(queues: &mut Queues, link: u8) -> Result<(), AllocError> {
    let to = Fate::Waiting { link };
    if !is_known(queues, to) {
        return Err(AllocError);
    }
    let parked = queues.count_at(Fate::Parked);
    queues.reserve_at(to, parked)?;
    queues.divert(Fate::Parked, to);
    Ok(())
}

/// The first message that waits for this acknowledgement waits for link 0 then.
fn turn_back(queues: &mut Queues, code: u8) -> Result<(), AllocError> {
    let from = Fate::Back { code };
    if !is_known(queues, from) || !is_known(queues, TO_LINK_0) || queues.count_at(from) == 0 {
        return Err(AllocError);
    }
    queues.reserve_at(TO_LINK_0, 1)?;
    queues.turn_back(code, TO_LINK_0);
    Ok(())
}

/// Where the message of this number stands.
fn fate_of(queues: &Queues, number: u64) -> Option<Fate> {
    queues.fate_of(number)
}

/// How many messages stand in each kind of place.
fn counts_of(queues: &Queues) -> Counts {
    queues.counts()
}

/// So many messages that wait for link 0, of two links.
fn waiting(rt: &HostRuntime, messages: u64) -> Result<Queues, AllocError> {
    let mut queues = Queues::new(rt.alloc(), Profile::Narrow, 2)?;
    for _ in 0..messages {
        put(&mut queues, TO_LINK_0)?;
    }
    Ok(queues)
}

/// So many messages of stream 3 aren't sent.
fn has_unsent(queues: &Queues, messages: u64) -> bool {
    queues.unsent(3) == messages
}

/// So many messages stand there.
fn has_at(queues: &Queues, fate: Fate, messages: usize) -> bool {
    is_known(queues, fate) && queues.count_at(fate) == messages
}

/// The message of this number is sent next on the link, with this FSN.
fn sends(queues: &mut Queues, link: u8, number: u64, fsn: u16) -> bool {
    send(queues, link) == Some((number, fsn))
}

/// The message of this number stands there, if there is one.
fn stands(queues: &Queues, number: u64, there: Option<Fate>) -> bool {
    fate_of(queues, number) == there
}

/// A message is put there, and gets this number.
fn is_put(queues: &mut Queues, fate: Fate, number: u64) -> bool {
    put(queues, fate) == Ok(number)
}

/// These numbers wait for link 1, in this order.
fn wait_for_1(queues: &Queues, numbers: &[u64]) -> bool {
    for place in 0..numbers.len() {
        if stand(queues, TO_LINK_1, place) != Some(numbers[place]) {
            return false;
        }
    }
    true
}

/// Where there is a link, the number at this place of the queue.
fn stand(queues: &Queues, fate: Fate, place: usize) -> Option<u64> {
    if is_known(queues, fate) {
        queues.number_at(fate, place)
    } else {
        None
    }
}

/// The link settles for this target, with room for all that move.
fn settle(queues: &mut Queues, link: u8, target: Option<u8>) -> Result<(), AllocError> {
    let to = match target {
        Some(to) if to != link => Fate::Waiting { link: to },
        Some(_) => return Err(AllocError),
        None => Fate::Parked,
    };
    if usize::from(link) >= queues.links() || !is_known(queues, to) {
        return Err(AllocError);
    }
    queues.reserve_all(to, link, 0)?;
    queues.settle(link, target);
    Ok(())
}

#[test]
fn a_link_settles_and_its_messages_go_on_in_order(rt: HostRuntime) -> Result<(), Fail> {
    holds(go_on(&mut waiting(&rt, 4)?))
}

fn go_on(queues: &mut Queues) -> bool {
    three_of_four_go(queues) && link_0_settles(queues)
}

/// Three messages are sent, and the first is acknowledged; one is held for the link, and one waits for the other.
fn three_of_four_go(queues: &mut Queues) -> bool {
    sends(queues, 0, 0, 0)
        && sends(queues, 0, 1, 1)
        && sends(queues, 0, 2, 2)
        && acknowledge(queues, 0, 0) == Some(1)
        && acknowledge(queues, 0, 9).is_none()
        && is_put(queues, Fate::Held { link: 0 }, 4)
        && is_put(queues, TO_LINK_1, 5)
}

/// What stands on link 0 goes on, behind what waits for link 1.
fn link_0_settles(queues: &mut Queues) -> bool {
    settle(queues, 0, Some(1)).is_ok()
        && wait_for_1(queues, &[5, 1, 2, 3, 4])
        && has_at(queues, Fate::Held { link: 0 }, 0)
        && stands(queues, 0, Some(Fate::Acked { link: 0 }))
        && stands(queues, 4, Some(TO_LINK_1))
        && stands(queues, 6, None)
        && has_unsent(queues, 5)
        && has_gone_on(&counts_of(queues))
}

fn has_gone_on(counts: &Counts) -> bool {
    counts.acked == 1 && counts.waiting == 5 && counts.unacked == 0
}

#[test]
fn what_was_sent_is_given_up_and_the_rest_is_parked(rt: HostRuntime) -> Result<(), Fail> {
    holds(is_given_up_and_lives_anew(&mut waiting(&rt, 3)?))
}

fn is_given_up_and_lives_anew(queues: &mut Queues) -> bool {
    is_given_up(queues) && is_parked(queues) && lives_anew(queues)
}

fn is_given_up(queues: &mut Queues) -> bool {
    send(queues, 0);
    let sent = weight(queues, 0) == Some(20);
    give_up(queues, 0);
    sent && weight(queues, 0) == Some(0)
}

fn is_parked(queues: &mut Queues) -> bool {
    settle(queues, 0, None).is_ok()
        && has_at(queues, Fate::Parked, 2)
        && unpark(queues, 1).is_ok()
        && wait_for_1(queues, &[1, 2])
}

fn lives_anew(queues: &mut Queues) -> bool {
    start_anew(queues, 0)
        && is_put(queues, TO_LINK_0, 3)
        && sends(queues, 0, 3, 0)
        && sends(queues, 1, 1, 0)
        && lives(&counts_of(queues))
}

fn lives(counts: &Counts) -> bool {
    counts.discarded == 1 && counts.waiting == 1 && counts.unacked == 2
}

/// The octets of the unacknowledged bodies of the link, if the set has it.
fn weight(queues: &Queues, link: u8) -> Option<u32> {
    if usize::from(link) < queues.links() {
        Some(queues.octets(link))
    } else {
        None
    }
}

/// A new life of the link, if nothing was sent on it or waits for it.
fn start_anew(queues: &mut Queues, link: u8) -> bool {
    if usize::from(link) >= queues.links() {
        return false;
    }
    let window = queues.window(link);
    if window.unacked_len() != 0 || window.unsent_len() != 0 {
        return false;
    }
    queues.reset(link);
    true
}

#[test]
fn an_order_is_nobodys_message(rt: HostRuntime) -> Result<(), Fail> {
    holds(is_nobodys(&mut Queues::new(rt.alloc(), Profile::Narrow, 16)?))
}

fn is_nobodys(queues: &mut Queues) -> bool {
    let order = Message {
        fate: Fate::Parked,
        kind: Kind::Order,
        octets: 7,
    };
    park(queues) == Ok(0)
        && queues.message(0) == Some(order)
        && counts_of(queues).parked == 0
        && queues.len() == 1
}

/// An order is parked; its number.
fn park(queues: &mut Queues) -> Result<u64, AllocError> {
    queues.reserve(1)?;
    queues.reserve_at(Fate::Parked, 1)?;
    Ok(queues.add(Message {
        fate: Fate::Parked,
        kind: Kind::Order,
        octets: 7,
    }))
}

/// An order stands there, ahead of users' messages; its number.
fn put_ahead(queues: &mut Queues, fate: Fate) -> Result<u64, AllocError> {
    if !is_known(queues, fate) || !is_queued(fate) {
        return Err(AllocError);
    }
    queues.reserve(1)?;
    queues.reserve_at(fate, 1)?;
    Ok(queues.add_ahead(Message {
        fate,
        kind: Kind::Order,
        octets: 7,
    }))
}

/// An order is put ahead there, and gets this number.
fn is_put_ahead(queues: &mut Queues, fate: Fate, number: u64) -> bool {
    put_ahead(queues, fate) == Ok(number)
}

/// Order 3 is put last, behind users' messages 1 and 2: those that are put ahead pass all three, and no order that stands
/// ahead of them. What is parked goes on in its order.
#[test]
fn an_order_stands_ahead_of_users_messages(rt: HostRuntime) -> Result<(), Fail> {
    holds(stand_ahead(&mut Queues::new(rt.alloc(), Profile::Narrow, 2)?))
}

fn stand_ahead(queues: &mut Queues) -> bool {
    is_put_ahead(queues, TO_LINK_1, 0)
        && is_put(queues, TO_LINK_1, 1)
        && is_put(queues, TO_LINK_1, 2)
        && park(queues) == Ok(3)
        && unpark(queues, 1).is_ok()
        && wait_for_1(queues, &[0, 1, 2, 3])
        && pass_the_users(queues)
        && are_parked_ahead(queues)
}

fn pass_the_users(queues: &mut Queues) -> bool {
    is_put_ahead(queues, TO_LINK_1, 4)
        && is_put_ahead(queues, TO_LINK_1, 5)
        && wait_for_1(queues, &[0, 4, 5, 1, 2, 3])
        && stands(queues, 5, Some(TO_LINK_1))
        && counts_of(queues).waiting == 2
}

/// Order 7 is parked ahead of message 6.
fn are_parked_ahead(queues: &mut Queues) -> bool {
    is_put(queues, Fate::Parked, 6)
        && is_put_ahead(queues, Fate::Parked, 7)
        && unpark(queues, 1).is_ok()
        && wait_for_1(queues, &[0, 4, 5, 1, 2, 3, 7, 6])
}

/// Of what is held, and of what waits for an acknowledgement, an order stands first too.
#[test]
fn an_order_stands_first_in_other_queues(rt: HostRuntime) -> Result<(), Fail> {
    holds(stand_first(&mut Queues::new(rt.alloc(), Profile::Narrow, 2)?))
}

fn stand_first(queues: &mut Queues) -> bool {
    let (held, back) = (Fate::Held { link: 0 }, Fate::Back { code: 18 });
    is_put(queues, held, 0)
        && is_put_ahead(queues, held, 1)
        && is_put(queues, back, 2)
        && is_put_ahead(queues, back, 3)
        && stand(queues, held, 0) == Some(1)
        && stand(queues, held, 1) == Some(0)
        && stand(queues, back, 0) == Some(3)
        && stand(queues, back, 1) == Some(2)
}

/// FSNs go round 15 times, and no message is lost among so many.
#[test]
fn each_of_100_000_messages_is_found_again(rt: HostRuntime) -> Result<(), Fail> {
    holds(are_found(&mut waiting(&rt, 100_000)?))
}

fn are_found(queues: &mut Queues) -> bool {
    two_thousand_are_acknowledged(queues)
        && settle(queues, 0, Some(1)).is_ok()
        && all_are_found(queues)
        && counts_of(queues).waiting == 98_000
}

fn two_thousand_are_acknowledged(queues: &mut Queues) -> bool {
    for number in 0..2_000u64 {
        let fsn = (number % 128) as u16;
        if !sends(queues, 0, number, fsn) || acknowledge(queues, 0, fsn) != Some(1) {
            return false;
        }
    }
    true
}

fn all_are_found(queues: &Queues) -> bool {
    for number in 0..100_000u64 {
        let fate = if number < 2_000 {
            Fate::Acked { link: 0 }
        } else {
            TO_LINK_1
        };
        if !stands(queues, number, Some(fate)) {
            return false;
        }
    }
    true
}

/// Messages 0, 1 and 3 wait for codes of home 1, message 2 for one of home 2: those of home 1 turn back in their order.
#[test]
fn the_oldest_turns_back_first(rt: HostRuntime) -> Result<(), Fail> {
    holds(turn_all_back(&mut Queues::new(rt.alloc(), Profile::Narrow, 2)?))
}

fn turn_all_back(queues: &mut Queues) -> bool {
    wait_for_codes(queues, &[18, 16, 33, 18])
        && queues.back_count(1) == 3
        && oldest_turn_back(queues, &[18, 16, 18])
        && queues.oldest_back(1).is_none()
        && counts_of(queues).back == 1
        && sends(queues, 0, 0, 0)
        && sends(queues, 0, 1, 1)
        && sends(queues, 0, 3, 2)
}

/// A message is put to wait for each of these codes.
fn wait_for_codes(queues: &mut Queues, codes: &[u8]) -> bool {
    for code in codes {
        if put(queues, Fate::Back { code: *code }).is_err() {
            return false;
        }
    }
    true
}

/// The oldest messages of home 1 wait for these codes, and turn back.
fn oldest_turn_back(queues: &mut Queues, codes: &[u8]) -> bool {
    for code in codes {
        if queues.oldest_back(1) != Some(*code) || turn_back(queues, *code).is_err() {
            return false;
        }
    }
    true
}
