//! Declarations that are made once more, and the acknowledgements that are owed for them (Q.704 6.3). Places and
//! numbers are worked out by hand from the rule.
ghost use Rattle.l2_units.specs.declared.profile.Profile.TheVariants.{Narrow};
ghost use Rattle.l3_orders.specs.Grammar.{IsOrder};

use super::bench::*;
use super::changeback::{asks_back, asks_two_back};
use l3_orders::Order;
use set_core::SetCore;
use set_events::{DiscardCause, Fate, Refusal, Took};
use std::alloc::Global;
use std::test::Fail;

/// Refused are: 10 a link that the set hasn't, and 9 one that isn't the home of an open code, or whose declaration
/// waits or is unacknowledged.
#[test]
fn a_declaration_on_its_way_is_not_repeated(rt: HostRuntime) -> Result<(), Fail> {
    holds(of_set(rt.alloc(), 2, is_refused))
}

fn is_refused(alloc: Global, set: &mut SetCore) -> bool {
    refuses(set, Call::Redeclare(2), Refusal::NoSuchLink)
        && refuses(set, Call::Redeclare(1), Refusal::Nothing)
        && asks_back(alloc, set)
        && refuses(set, Call::Redeclare(1), Refusal::Nothing)
        && refuses(set, Call::Redeclare(0), Refusal::Nothing)
        && sends_in_order(set, 0, &[0, 1])
        && refuses(set, Call::Redeclare(1), Refusal::Nothing)
        && refuses(set, Call::Redeclare(2), Refusal::NoSuchLink)
        && accepts(alloc, set, 3, 3, Fate::Back { code: 16 })
}

/// Link 0 has sent message 0 and declaration 1 of stream 3, and both arrived. Message 2 waits for the acknowledgement.
fn arrives(alloc: Global, set: &mut SetCore) -> bool {
    asks_back(alloc, set)
        && sends_in_order(set, 0, &[0, 1])
        && acknowledges(set, 0, head_of(1, 127), 2)
}

/// The same declaration goes out again, as number 3. The first acknowledgement sends message 2 home, and the second
/// frees the code; a third is ignored.
#[test]
fn a_declaration_is_made_once_more(rt: HostRuntime) -> Result<(), Fail> {
    holds(of_set(rt.alloc(), 2, is_made_once_more))
}

fn is_made_once_more(alloc: Global, set: &mut SetCore) -> bool {
    let declaration = Order::Cbd { link: 1, code: 16 };
    arrives(alloc, set)
        && does(set, Call::Redeclare(1))
        && stands(set, 3, Fate::Waiting { link: 0 })
        && refuses(set, Call::Redeclare(1), Refusal::Nothing)
        && sends_order(set, head_of(127, 2), &declaration)
        && stands(set, 2, Fate::Back { code: 16 })
        && is_answered_twice(alloc, set)
}

fn is_answered_twice(alloc: Global, set: &mut SetCore) -> bool {
    hears_cba(set, head_of(1, 0), 16, Took::Order)
        && stands(set, 2, Fate::Waiting { link: 1 })
        && accepts(alloc, set, 3, 4, Fate::Waiting { link: 1 })
        && refuses(set, Call::Redeclare(1), Refusal::Nothing)
        && hears_cba(set, head_of(1, 1), 16, Took::Order)
        && hears_cba(set, head_of(1, 2), 16, Took::Ignored)
        && refuses(set, Call::BackTimeout(1), Refusal::Nothing)
        && sends_in_order(set, 1, &[2, 4])
}

/// The home fails with two acknowledgements owed: until both came streams can't be asked back, and then a newer
/// changeback waits for its own.
#[test]
fn an_older_answer_releases_nothing(rt: HostRuntime) -> Result<(), Fail> {
    holds(of_set(rt.alloc(), 2, waits_for_its_own))
}

fn waits_for_its_own(alloc: Global, set: &mut SetCore) -> bool {
    arrives(alloc, set)
        && does_all(set, &[Call::Redeclare(1), Call::Down(1)])
        && stands(set, 2, Fate::Waiting { link: 0 })
        && does_all(set, &[Call::NoAnswer(1), Call::Up(1)])
        && refuses(set, Call::Restore(1), Refusal::Nothing)
        && refuses(set, Call::Redeclare(1), Refusal::Nothing)
        && hears_cba(set, head_of(1, 0), 16, Took::Order)
        && refuses(set, Call::Restore(1), Refusal::Nothing)
        && hears_cba(set, head_of(1, 1), 16, Took::Order)
        && does(set, Call::Restore(1))
        && stands(set, 5, Fate::Waiting { link: 0 })
        && accepts(alloc, set, 3, 6, Fate::Back { code: 16 })
}

/// A time-out frees the code with two acknowledgements owed: what comes late is ignored.
#[test]
fn a_repeated_declaration_times_out(rt: HostRuntime) -> Result<(), Fail> {
    holds(of_set(rt.alloc(), 2, times_out))
}

fn times_out(alloc: Global, set: &mut SetCore) -> bool {
    arrives(alloc, set)
        && does_all(set, &[Call::Redeclare(1), Call::BackTimeout(1)])
        && stands(set, 2, Fate::Waiting { link: 1 })
        && refuses(set, Call::BackTimeout(1), Refusal::Nothing)
        && refuses(set, Call::Redeclare(1), Refusal::Nothing)
        && hears_cba(set, head_of(1, 0), 16, Took::Ignored)
}

/// The far end left link 0 blindly, so message 0 and declaration 1 are discarded, and the stream comes from its home
/// itself. Number 3 is the answer to the far end's order; the declaration goes out behind it.
#[test]
fn a_discarded_declaration_is_repeated(rt: HostRuntime) -> Result<(), Fail> {
    holds(of_set(rt.alloc(), 2, is_discarded))
}

fn is_discarded(alloc: Global, set: &mut SetCore) -> bool {
    let cause = DiscardCause::Emergency;
    asks_back(alloc, set)
        && sends_in_order(set, 0, &[0, 1])
        && hears_on_link_1(set, 0, &Order::Eco { link: 0 })
        && stands(set, 1, Fate::Discarded { cause })
        && refuses(set, Call::Restore(1), Refusal::Nothing)
        && does(set, Call::Redeclare(1))
        && stands(set, 2, Fate::Back { code: 16 })
        && sends_in_order(set, 1, &[3, 4])
        && hears_on_link_1(set, 1, &Order::Cba { link: 1, code: 16 })
        && stands(set, 2, Fate::Waiting { link: 1 })
        && hears_on_link_1(set, 2, &Order::Cba { link: 1, code: 16 })
        && refuses(set, Call::BackTimeout(1), Refusal::Nothing)
}

/// Link 1 hears and takes an order under this FSN, in a unit that acknowledges nothing.
fn hears_on_link_1(set: &mut SetCore, fsn: u64, order: &Order) -> bool
    requires { IsOrder Narrow order.now }
{
    heard(set, 1, unit_with(head_of(127, fsn), order)) == Some(report_of(0, Took::Order))
}

/// Link 0 was left and hasn't settled: the declaration is held there, and moves to link 1 with the stream, behind the
/// order about link 0, which is number 3.
#[test]
fn a_declaration_is_held_where_its_link_was_left(rt: HostRuntime) -> Result<(), Fail> {
    holds(of_set(rt.alloc(), 2, is_held))
}

fn is_held(alloc: Global, set: &mut SetCore) -> bool {
    arrives(alloc, set)
        && does_all(set, &[Call::Down(0), Call::Redeclare(1)])
        && stands(set, 4, Fate::Held { link: 0 })
        && refuses(set, Call::Redeclare(1), Refusal::Nothing)
        && does(set, Call::NoAnswer(0))
        && stands(set, 4, Fate::Waiting { link: 1 })
        && refuses(set, Call::Redeclare(1), Refusal::Nothing)
        && stands(set, 2, Fate::Back { code: 16 })
        && sends_in_order(set, 1, &[3, 4])
}

/// Both links from which streams come were left: each declaration is held on its own, behind two orders, numbers 9 and
/// 10.
#[test]
fn each_declaration_is_held_on_its_own_link(rt: HostRuntime) -> Result<(), Fail> {
    holds(of_set(rt.alloc(), 3, both_are_held))
}

fn both_are_held(alloc: Global, set: &mut SetCore) -> bool {
    asks_two_back(alloc, set)
        && both_arrive(set)
        && does_all(set, &[Call::Down(0), Call::Down(1), Call::Redeclare(2)])
        && stands(set, 11, Fate::Held { link: 0 })
        && stands(set, 12, Fate::Held { link: 1 })
        && refuses(set, Call::Redeclare(2), Refusal::Nothing)
}

/// The declarations of codes 32 and 33, numbers 3 and 4, have arrived. Order 2 about link 2 isn't sent, since that is
/// up again.
fn both_arrive(set: &mut SetCore) -> bool {
    sends_in_order(set, 0, &[1, 3])
        && sends_in_order(set, 1, &[0, 4])
        && acknowledges(set, 0, head_of(1, 127), 2)
        && acknowledges(set, 1, head_of(1, 127), 2)
}

/// Two codes of one home are declared once more, the lowest first, each on the link from which its stream comes.
#[test]
fn two_codes_are_declared_once_more(rt: HostRuntime) -> Result<(), Fail> {
    holds(of_set(rt.alloc(), 3, both_are_declared))
}

fn both_are_declared(alloc: Global, set: &mut SetCore) -> bool {
    asks_two_back(alloc, set)
        && both_arrive(set)
        && does(set, Call::Redeclare(2))
        && stands(set, 9, Fate::Waiting { link: 0 })
        && stands(set, 10, Fate::Waiting { link: 1 })
        && sends_order(set, head_of(127, 2), &Order::Cbd { link: 2, code: 32 })
        && accepts(alloc, set, 2, 11, Fate::Back { code: 32 })
}

/// One of two declarations is still on its way: only the other is made once more.
#[test]
fn one_of_two_codes_is_declared_once_more(rt: HostRuntime) -> Result<(), Fail> {
    holds(of_set(rt.alloc(), 3, one_is_declared))
}

fn one_is_declared(alloc: Global, set: &mut SetCore) -> bool {
    asks_two_back(alloc, set)
        && sends_in_order(set, 1, &[0, 4])
        && acknowledges(set, 1, head_of(1, 127), 2)
        && does(set, Call::Redeclare(2))
        && stands(set, 9, Fate::Waiting { link: 1 })
        && accepts(alloc, set, 2, 10, Fate::Back { code: 32 })
}

/// A declaration that left with a checkpoint is on its way no more; one that waits over a checkpoint is. What is owed
/// stays.
#[test]
fn declarations_and_checkpoints(rt: HostRuntime) -> Result<(), Fail> {
    holds(of_set(rt.alloc(), 2, stay_over_checkpoints))
}

fn stay_over_checkpoints(alloc: Global, set: &mut SetCore) -> bool {
    arrives(alloc, set)
        && set.checkpoint() == Ok(())
        && does(set, Call::Redeclare(1))
        && set.checkpoint() == Ok(())
        && refuses(set, Call::Redeclare(1), Refusal::Nothing)
        && stands(set, 3, Fate::Waiting { link: 0 })
        && hears_cba(set, head_of(1, 0), 16, Took::Order)
        && set.checkpoint() == Ok(())
        && hears_cba(set, head_of(1, 1), 16, Took::Order)
        && hears_cba(set, head_of(1, 2), 16, Took::Ignored)
}
