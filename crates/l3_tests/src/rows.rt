//! Rows of the table one by one. T1, T2, T4, T5 and T17 are of 500, 700, 600, 610 and 300 turns, K1 and K2 of 400 and
//! 2,000.
use super::play::*;
use l3_link::{Ask, LinkManagement, Seen, State};
use std::test::Fail;

/// A link that is up, and whose first test is answered at once.
fn carrying() -> LinkManagement {
    let mut link = link(true);
    activated(&mut link, UP);
    turn(&mut link, with_others(PASSED));
    answered(&mut link, false);
    link
}

/// A link that failed while another carries traffic.
fn failed() -> LinkManagement {
    let mut link = carrying();
    turn(&mut link, with_others(LEFT));
    link
}

/// A link that was told to start.
fn rising() -> LinkManagement {
    let mut link = link(true);
    activated(&mut link, with_others(OUT));
    turn(&mut link, with_others(ALIGNS));
    link
}

fn is_at(link: &LinkManagement, state: State) -> bool {
    link.state() == state
}

#[test]
fn activated_while_up() -> Result<(), Fail> {
    let (mut tested, mut untested) = (link(true), link(false));
    holds(
        activated(&mut tested, UP) == Some(Ask::Test)
            && is_at(&tested, State::Trial1)
            && activated(&mut untested, UP) == Some(Ask::Restore)
            && is_at(&untested, State::Carry),
    )
}

#[test]
fn activated_while_left() -> Result<(), Fail> {
    holds(rises_once_settled(&mut link(true)))
}

fn rises_once_settled(link: &mut LinkManagement) -> bool {
    activated(link, LEFT).is_none()
        && is_at(link, State::Rest)
        && is_quiet(link, LEFT, 100)
        && asks(link, OUT, Ask::Rise { emergency: true })
}

#[test]
fn given_up_in_time_though_activated_while_left() -> Result<(), Fail> {
    holds(is_given_up(&mut link(true)))
}

fn is_given_up(link: &mut LinkManagement) -> bool {
    activated(link, with_others(LEFT)).is_none()
        && is_quiet(link, with_others(LEFT), 698)
        && turn(link, with_others(LEFT)) == Some(Ask::Timed)
}

#[test]
fn a_link_that_goes_out_stops_its_timers() -> Result<(), Fail> {
    // K2 would end in turn 2,000 of it.
    let mut link = failed();
    holds(
        is_at(&link, State::Rest)
            && is_quiet(&mut link, with_others(OUT), 298)
            && asks(&mut link, with_others(OUT), Ask::Rise { emergency: false })
            && is_quiet(&mut link, with_others(ALIGNS), 3_000),
    )
}

#[test]
fn start_is_not_obeyed() -> Result<(), Fail> {
    holds(rests_again(&mut link(true)))
}

fn rests_again(link: &mut LinkManagement) -> bool {
    activated(link, OUT) == Some(Ask::Rise { emergency: true })
        && ends(link)
        && is_quiet(link, OUT, 1)
        && is_at(link, State::Rest)
        && is_quiet(link, OUT, 298)
        && asks(link, OUT, Ask::Rise { emergency: true })
}

#[test]
fn a_link_that_is_due_waits_until_it_is_settled() -> Result<(), Fail> {
    let mut link = failed();
    holds(
        is_quiet(&mut link, with_others(LEFT), 600)
            && asks(&mut link, with_others(OUT), Ask::Rise { emergency: false }),
    )
}

#[test]
fn comes_up() -> Result<(), Fail> {
    let mut link = rising();
    holds(asks(&mut link, with_others(UP), Ask::Test) && is_at(&link, State::Trial1))
}

#[test]
fn passes_its_first_test() -> Result<(), Fail> {
    let mut link = rising();
    holds(asks(&mut link, with_others(UP), Ask::Test) && passes(&mut link))
}

/// It carries traffic, and K2 later it's tested again.
fn passes(link: &mut LinkManagement) -> bool {
    turn(link, with_others(PASSED)) == Some(Ask::Restore)
        && answered(link, false).is_none()
        && is_at(link, State::Carry)
        && is_tested_again(link)
}

/// K2 started in the turn before.
fn is_tested_again(link: &mut LinkManagement) -> bool {
    is_quiet(link, with_others(UP), 1_998)
        && asks(link, with_others(UP), Ask::Test)
        && is_at(link, State::Again1)
}

#[test]
fn passes_its_second_test() -> Result<(), Fail> {
    let mut link = rising();
    holds(
        asks(&mut link, with_others(UP), Ask::Test)
            && is_quiet(&mut link, with_others(UP), 398)
            && asks(&mut link, with_others(UP), Ask::Test)
            && is_at(&link, State::Trial2)
            && passes(&mut link),
    )
}

#[test]
fn fails_a_periodic_test() -> Result<(), Fail> {
    let mut link = carrying();
    holds(is_tested_again(&mut link) && fails(&mut link))
}

fn fails(link: &mut LinkManagement) -> bool {
    is_quiet(link, with_others(UP), 399)
        && asks(link, with_others(UP), Ask::Test)
        && is_at(link, State::Again2)
        && is_quiet(link, with_others(UP), 399)
        && asks(link, with_others(UP), Ask::Stop)
        && is_at(link, State::Rising)
}

#[test]
fn passes_periodic_tests() -> Result<(), Fail> {
    let mut link = carrying();
    holds(
        is_tested_again(&mut link)
            && is_quiet(&mut link, with_others(PASSED), 1)
            && is_at(&link, State::Carry)
            && is_tested_again(&mut link),
    )
}

#[test]
fn passes_a_second_periodic_test() -> Result<(), Fail> {
    let mut link = carrying();
    holds(
        is_tested_again(&mut link)
            && is_quiet(&mut link, with_others(UP), 399)
            && asks(&mut link, with_others(UP), Ask::Test)
            && is_quiet(&mut link, with_others(PASSED), 1)
            && is_at(&link, State::Carry)
            && is_tested_again(&mut link),
    )
}

#[test]
fn the_last_link_that_carries_traffic_fails() -> Result<(), Fail> {
    let mut link = rising();
    holds(
        is_quiet(&mut link, with_others(ALIGNS), 50)
            && asks(&mut link, ALIGNS, Ask::Emergency)
            && is_quiet(&mut link, ALIGNS, 50)
            && is_at(&link, State::Rising),
    )
}

/// A link that failed while no other carries traffic; another may come up.
const HOPEFUL: Seen = Seen {
    hopes: true,
    ..LEFT
};

#[test]
fn one_link_is_given_up_at_a_time() -> Result<(), Fail> {
    let mut link = carrying();
    holds(
        is_quiet(&mut link, HOPEFUL, 900)
            && is_quiet(&mut link, LEFT, 99)
            && is_quiet(&mut link, HOPEFUL, 300)
            && is_quiet(&mut link, LEFT, 200)
            && turn(&mut link, LEFT) == Some(Ask::Timed),
    )
}

#[test]
fn an_order_that_was_sent_is_waited_for() -> Result<(), Fail> {
    let mut link = carrying();
    holds(
        is_quiet(&mut link, LEFT, 499)
            && turn(&mut link, LEFT) == Some(Ask::Timed)
            && answered(&mut link, false).is_none()
            && is_quiet(&mut link, LEFT, 699)
            && turn(&mut link, LEFT) == Some(Ask::Timed)
            && refused_asks(&mut link, Ask::NoAnswer)
            && done_asks(&mut link, Ask::Rise { emergency: true }),
    )
}

#[test]
fn the_far_end_answers_the_changeover() -> Result<(), Fail> {
    let mut link = failed();
    holds(
        is_quiet(&mut link, with_others(LEFT), 200)
            && is_quiet(&mut link, with_others(OUT), 98)
            && asks(&mut link, with_others(OUT), Ask::Rise { emergency: false })
            && is_quiet(&mut link, with_others(ALIGNS), 1_000),
    )
}

#[test]
fn an_outage_of_the_only_link_is_borne() -> Result<(), Fail> {
    let mut link = carrying();
    holds(
        is_quiet(&mut link, PAUSED, 900)
            && is_quiet(&mut link, with_others(PAUSED), 99)
            && asks(&mut link, with_others(PAUSED), Ask::Stop),
    )
}

#[test]
fn an_outage_ends() -> Result<(), Fail> {
    let mut link = carrying();
    holds(
        is_quiet(&mut link, with_others(PAUSED), 499)
            && is_quiet(&mut link, with_others(UP), 1)
            && is_quiet(&mut link, with_others(PAUSED), 499)
            && asks(&mut link, with_others(PAUSED), Ask::Stop),
    )
}

#[test]
fn deactivated_while_a_changeback_waits() -> Result<(), Fail> {
    let mut link = link(false);
    holds(
        activated(&mut link, UP) == Some(Ask::Restore)
            && ends(&mut link)
            && link.deactivate() == Ok(Ask::Stop)
            && is_quiet(&mut link, LEFT, 3_000)
            && is_at(&link, State::Off),
    )
}

#[test]
fn no_answer_is_refused() -> Result<(), Fail> {
    let mut link = failed();
    holds(
        is_quiet(&mut link, with_others(LEFT), 698)
            && turn(&mut link, with_others(LEFT)) == Some(Ask::Timed)
            && refused_asks(&mut link, Ask::NoAnswer)
            && answered(&mut link, false).is_none()
            && is_quiet(&mut link, with_others(LEFT), 699)
            && turn(&mut link, with_others(LEFT)) == Some(Ask::Timed),
    )
}

#[test]
fn a_link_at_rest_is_started_by_another() -> Result<(), Fail> {
    let mut link = failed();
    holds(
        is_quiet(&mut link, with_others(ALIGNS), 100)
            && asks(&mut link, with_others(UP), Ask::Test)
            && is_at(&link, State::Trial1)
            && is_quiet(&mut link, with_others(UP), 398),
    )
}

#[test]
fn a_link_at_rest_goes_out_again() -> Result<(), Fail> {
    let mut link = failed();
    holds(
        is_quiet(&mut link, with_others(ALIGNS), 100)
            && is_quiet(&mut link, with_others(OUT), 299)
            && asks(&mut link, with_others(OUT), Ask::Rise { emergency: false }),
    )
}
