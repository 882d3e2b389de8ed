//! Situations of changeback, with expected places worked out by hand from Q.704 6 and the rules of a set.
use super::bench::*;
use l3_orders::Order;
use set_core::SetCore;
use set_events::{DiscardCause, Fate, Refusal, Took};
use std::alloc::Global;
use std::test::Fail;

/// Of two links link 0 is up first, so stream 3, whose home is link 1, runs there; then it's asked back. Number 0 is a
/// message and 1 the declaration on link 0; message 2 waits for the acknowledgement.
pub(crate) fn asks_back(alloc: Global, set: &mut SetCore) -> bool {
    does(set, Call::Up(0))
        && accepts(alloc, set, 3, 0, Fate::Waiting { link: 0 })
        && does_all(set, &[Call::Up(1), Call::Restore(1)])
        && stands(set, 1, Fate::Waiting { link: 0 })
        && accepts(alloc, set, 3, 2, Fate::Back { code: 16 })
}

/// The acknowledgement comes: what waits for it waits for the home, and so does what is offered then.
#[test]
fn a_stream_comes_back(rt: HostRuntime) -> Result<(), Fail> {
    holds(of_set(rt.alloc(), 2, comes_back))
}

fn comes_back(alloc: Global, set: &mut SetCore) -> bool {
    asks_back(alloc, set)
        && refuses(set, Call::Restore(1), Refusal::Nothing)
        && hears_cba(set, head_of(127, 0), 16, Took::Order)
        && stands(set, 2, Fate::Waiting { link: 1 })
        && accepts(alloc, set, 3, 3, Fate::Waiting { link: 1 })
        && sends_in_order(set, 0, &[0, 1])
        && sends_in_order(set, 1, &[2, 3])
        && refuses(set, Call::BackTimeout(1), Refusal::Nothing)
}

/// No acknowledgement comes; when it comes late, nothing waits for it.
#[test]
fn a_changeback_times_out(rt: HostRuntime) -> Result<(), Fail> {
    holds(of_set(rt.alloc(), 2, times_out))
}

fn times_out(alloc: Global, set: &mut SetCore) -> bool {
    asks_back(alloc, set)
        && does(set, Call::BackTimeout(1))
        && stands(set, 2, Fate::Waiting { link: 1 })
        && refuses(set, Call::BackTimeout(1), Refusal::Nothing)
        && refuses(set, Call::Restore(1), Refusal::Nothing)
        && hears_cba(set, head_of(127, 0), 16, Took::Ignored)
        && accepts(alloc, set, 3, 3, Fate::Waiting { link: 1 })
}

/// The home link fails before the acknowledgement: its order, number 3, goes out first. Its code is spent: until it's
/// freed nothing is asked again, and what frees it moves nothing.
#[test]
fn the_home_link_fails(rt: HostRuntime) -> Result<(), Fail> {
    holds(of_set(rt.alloc(), 2, spends_its_code))
}

fn spends_its_code(alloc: Global, set: &mut SetCore) -> bool {
    asks_back(alloc, set)
        && does(set, Call::Down(1))
        && stands(set, 2, Fate::Waiting { link: 0 })
        && stands(set, 3, Fate::Waiting { link: 0 })
        && sends_in_order(set, 0, &[3, 0, 1, 2])
        && does_all(set, &[Call::NoAnswer(1), Call::Up(1)])
        && accepts(alloc, set, 3, 4, Fate::Waiting { link: 0 })
        && is_freed(alloc, set)
}

/// Code 16 is spent: its acknowledgement frees it, and moves nothing.
fn is_freed(alloc: Global, set: &mut SetCore) -> bool {
    refuses(set, Call::Restore(1), Refusal::Nothing)
        && hears_cba(set, head_of(127, 0), 16, Took::Order)
        && stands(set, 2, Fate::Unacked { link: 0 })
        && stands(set, 4, Fate::Waiting { link: 0 })
        && hears_cba(set, head_of(127, 1), 16, Took::Ignored)
        && does(set, Call::Restore(1))
        && accepts(alloc, set, 3, 6, Fate::Back { code: 16 })
}

/// A time-out frees a spent code too, whether the home is up or not.
#[test]
fn a_spent_code_times_out(rt: HostRuntime) -> Result<(), Fail> {
    holds(of_set(rt.alloc(), 2, spent_code_times_out))
}

fn spent_code_times_out(alloc: Global, set: &mut SetCore) -> bool {
    asks_back(alloc, set)
        && does_all(set, &[Call::Down(1), Call::BackTimeout(1)])
        && stands(set, 2, Fate::Waiting { link: 0 })
        && refuses(set, Call::BackTimeout(1), Refusal::Nothing)
}

/// Of three links, streams 2 and 5 have home 2; stream 2 is brought to link 0 by a changeover, and stream 5 runs on link 1
/// since that was up first. Both are asked back: numbers 3 and 4 are the declarations on links 0 and 1, and messages 5
/// to 8 wait in turn for the acknowledgements of codes 33 and 32. Message 1, which was never sent, waits on link 0 behind
/// order 2.
pub(crate) fn asks_two_back(alloc: Global, set: &mut SetCore) -> bool {
    does(set, Call::Up(1))
        && accepts(alloc, set, 5, 0, Fate::Waiting { link: 1 })
        && does(set, Call::Up(2))
        && accepts(alloc, set, 2, 1, Fate::Waiting { link: 2 })
        && does_all(set, &[Call::Up(0), Call::Down(2), Call::NoAnswer(2)])
        && does_all(set, &[Call::Up(2), Call::Restore(2)])
        && stands(set, 3, Fate::Waiting { link: 0 })
        && stands(set, 4, Fate::Waiting { link: 1 })
        && wait_in_turn(alloc, set)
}

fn wait_in_turn(alloc: Global, set: &mut SetCore) -> bool {
    accepts(alloc, set, 5, 5, Fate::Back { code: 33 })
        && accepts(alloc, set, 2, 6, Fate::Back { code: 32 })
        && accepts(alloc, set, 5, 7, Fate::Back { code: 33 })
        && accepts(alloc, set, 2, 8, Fate::Back { code: 32 })
}

/// An acknowledgement moves the messages of its own code; one of a code that is free is ignored.
#[test]
fn an_acknowledgement_moves_its_own_messages(rt: HostRuntime) -> Result<(), Fail> {
    holds(of_set(rt.alloc(), 3, moves_its_own))
}

fn moves_its_own(alloc: Global, set: &mut SetCore) -> bool {
    asks_two_back(alloc, set)
        && hears_cba(set, head_of(127, 0), 34, Took::Ignored)
        && hears_cba(set, head_of(127, 1), 33, Took::Order)
        && stands(set, 6, Fate::Back { code: 32 })
        && accepts(alloc, set, 5, 9, Fate::Waiting { link: 2 })
        && accepts(alloc, set, 2, 10, Fate::Back { code: 32 })
        && hears_cba(set, head_of(127, 2), 32, Took::Order)
        && sends_in_order(set, 2, &[5, 7, 9, 6, 8, 10])
}

/// A time-out takes the codes one by one, the lowest first.
#[test]
fn a_time_out_takes_the_lowest_code_first(rt: HostRuntime) -> Result<(), Fail> {
    holds(of_set(rt.alloc(), 3, takes_the_lowest_first))
}

fn takes_the_lowest_first(alloc: Global, set: &mut SetCore) -> bool {
    asks_two_back(alloc, set)
        && does(set, Call::BackTimeout(2))
        && sends_in_order(set, 2, &[6, 8, 5, 7])
}

/// Link 0 settles, so both streams come from link 1; then their home fails, and their messages move together, in their
/// order: behind the first message, the declaration, and message 1, which was never sent on link 0. The orders about links
/// 0 and 2 go out before all of them.
#[test]
fn two_codes_come_to_share_a_link(rt: HostRuntime) -> Result<(), Fail> {
    holds(of_set(rt.alloc(), 3, share_a_link))
}

fn share_a_link(alloc: Global, set: &mut SetCore) -> bool {
    let cause = DiscardCause::NoAnswer;
    asks_two_back(alloc, set)
        && does_all(set, &[Call::Down(0), Call::NoAnswer(0)])
        && stands(set, 3, Fate::Discarded { cause })
        && stands(set, 6, Fate::Back { code: 32 })
        && does(set, Call::Down(2))
        && sends_in_order(set, 1, &[9, 10, 0, 4, 1, 5, 6, 7, 8])
}

/// Link 0 was left and hasn't settled when the home fails: what comes from there is held, and moves when it settles.
#[test]
fn what_comes_from_a_link_that_was_left_is_held(rt: HostRuntime) -> Result<(), Fail> {
    holds(of_set(rt.alloc(), 3, is_held))
}

fn is_held(alloc: Global, set: &mut SetCore) -> bool {
    asks_two_back(alloc, set)
        && does_all(set, &[Call::Down(0), Call::Down(2)])
        && stands(set, 5, Fate::Waiting { link: 1 })
        && stands(set, 6, Fate::Held { link: 0 })
        && does(set, Call::NoAnswer(0))
        && sends_in_order(set, 1, &[9, 10, 0, 4, 5, 7, 1, 6, 8])
}

/// Orders 1 and 3 about links 2 and 1 go out before message 0, which waited when they came, in the order in which they
/// came; declaration 2 stays behind that message, which is of the stream that is asked back.
#[test]
fn orders_go_ahead_and_a_declaration_stays_last(rt: HostRuntime) -> Result<(), Fail> {
    holds(of_set(rt.alloc(), 4, go_ahead))
}

fn go_ahead(alloc: Global, set: &mut SetCore) -> bool {
    does(set, Call::Up(0))
        && accepts(alloc, set, 3, 0, Fate::Waiting { link: 0 })
        && does_all(set, &[Call::Up(1), Call::Up(2), Call::Up(3)])
        && does_all(set, &[Call::Down(2), Call::Restore(3), Call::Down(1)])
        && accepts(alloc, set, 0, 4, Fate::Waiting { link: 0 })
        && sends_in_order(set, 0, &[1, 3, 0, 2, 4])
}

/// The acknowledgement of a declaration goes out before the message that waits.
#[test]
fn an_acknowledgement_goes_ahead(rt: HostRuntime) -> Result<(), Fail> {
    holds(of_set(rt.alloc(), 1, goes_ahead))
}

fn goes_ahead(alloc: Global, set: &mut SetCore) -> bool {
    let declaration = Order::Cbd { link: 7, code: 118 };
    does(set, Call::Up(0))
        && accepts(alloc, set, 0, 0, Fate::Waiting { link: 0 })
        && hears(set, head_of(127, 0), &declaration, 0, Took::Order)
        && sends_in_order(set, 0, &[1, 0])
}

/// A declaration is acknowledged by the same code and SLC, whatever they are.
#[test]
fn a_declaration_is_acknowledged(rt: HostRuntime) -> Result<(), Fail> {
    holds(of_set(rt.alloc(), 1, |_alloc, set| is_acknowledged(set)))
}

fn is_acknowledged(set: &mut SetCore) -> bool {
    let declaration = Order::Cbd {
        link: 7,
        code: 0xC9,
    };
    let acknowledgement = Order::Cba {
        link: 7,
        code: 0xC9,
    };
    does(set, Call::Up(0))
        && hears(set, head_of(127, 0), &declaration, 0, Took::Order)
        && sends_order(set, head_of(0, 0), &acknowledgement)
}

/// 10 where there is no such link, 5 where it isn't up, 9 where there is nothing to ask or to give up.
#[test]
fn changeback_is_refused_in_this_order(rt: HostRuntime) -> Result<(), Fail> {
    holds(of_set(rt.alloc(), 2, |_alloc, set| is_refused(set)))
}

fn is_refused(set: &mut SetCore) -> bool {
    refuses(set, Call::Restore(2), Refusal::NoSuchLink)
        && refuses(set, Call::BackTimeout(2), Refusal::NoSuchLink)
        && refuses(set, Call::Restore(1), Refusal::NotUp)
        && refuses(set, Call::BackTimeout(1), Refusal::Nothing)
        && does(set, Call::Up(1))
        && refuses(set, Call::Restore(1), Refusal::Nothing)
        && refuses(set, Call::BackTimeout(1), Refusal::Nothing)
}
