//! Whole runs, turn by turn: what is asked, and in which turn.
use super::play::*;
use l3_link::{Ask, LinkManagement, State};
use std::test::Fail;

const RISE: Ask = Ask::Rise { emergency: true };

/// It's activated at turn 0, and level 2 works from turn 1 to turn 4,453.
fn aligned(link: &mut LinkManagement) -> bool {
    activated(link, OUT) == Some(RISE) && ends(link) && is_quiet(link, ALIGNS, 4_453)
}

/// The same while another link carries traffic.
fn aligned_beside(link: &mut LinkManagement) -> bool {
    activated(link, OUT) == Some(RISE) && ends(link) && is_quiet(link, with_others(ALIGNS), 4_453)
}

#[test]
fn a_link_fails_its_test_and_rises_again() -> Result<(), Fail> {
    holds(fails_its_test(&mut link(true)))
}

fn fails_its_test(link: &mut LinkManagement) -> bool {
    // Tests at 4,454 and 4,853, Stop at 5,253.
    aligned(link)
        && asks(link, UP, Ask::Test)
        && is_quiet(link, UP, 398)
        && asks(link, UP, Ask::Test)
        && is_quiet(link, UP, 399)
        && asks(link, UP, Ask::Stop)
        && rises_again(link)
}

/// Out at 5,254; T17 ends at 5,553, and T1 at 5,753.
fn rises_again(link: &mut LinkManagement) -> bool {
    is_quiet(link, LEFT, 499)
        && turn(link, LEFT) == Some(Ask::Timed)
        && done_asks(link, RISE)
        && ends(link)
        && is_quiet(link, ALIGNS, 1)
        && link.state() == State::Rising
}

#[test]
fn a_link_that_hears_nothing_rises_behind_t17() -> Result<(), Fail> {
    holds(rises_behind_t17(&mut link(true)))
}

fn rises_behind_t17(link: &mut LinkManagement) -> bool {
    // Out at 8,000, Rise at 8,299, deactivated behind 8,400.
    activated(link, OUT) == Some(RISE)
        && ends(link)
        && link.activate(OUT).is_err()
        && is_quiet(link, ALIGNS, 7_999)
        && is_quiet(link, OUT, 299)
        && asks(link, OUT, RISE)
        && is_quiet(link, ALIGNS, 101)
        && is_deactivated(link)
}

fn is_deactivated(link: &mut LinkManagement) -> bool {
    link.deactivate() == Ok(Ask::Stop)
        && ends(link)
        && link.deactivate().is_err()
        && is_quiet(link, OUT, 901)
        && link.state() == State::Off
}

#[test]
fn an_order_has_no_path() -> Result<(), Fail> {
    holds(has_no_path(&mut link(false)))
}

fn has_no_path(link: &mut LinkManagement) -> bool {
    // Up at 4,454, paused at 4,489, out at 4,503, Timed at 5,002.
    aligned(link)
        && turn(link, UP) == Some(Ask::Restore)
        && answered(link, false).is_none()
        && is_quiet(link, UP, 34)
        && is_quiet(link, PAUSED, 14)
        && is_quiet(link, LEFT, 499)
        && turn(link, LEFT) == Some(Ask::Timed)
        && done_asks(link, RISE)
        && ends(link)
}

#[test]
fn a_far_outage_is_borne_for_t1() -> Result<(), Fail> {
    holds(bears_an_outage(&mut link(false)))
}

fn bears_an_outage(link: &mut LinkManagement) -> bool {
    // Up at 4,454, paused at 4,468, Stop at 4,967.
    aligned_beside(link)
        && turn(link, with_others(UP)) == Some(Ask::Restore)
        && answered(link, false).is_none()
        && is_quiet(link, with_others(UP), 13)
        && is_quiet(link, with_others(PAUSED), 499)
        && asks(link, with_others(PAUSED), Ask::Stop)
        && is_quiet(link, with_others(LEFT), 1)
        && link.state() == State::Rest
}

#[test]
fn no_answer_comes() -> Result<(), Fail> {
    holds(has_no_answer(&mut link(false)))
}

fn has_no_answer(link: &mut LinkManagement) -> bool {
    // Up at 4,454, out at 4,468; T2 ends at 5,167.
    aligned_beside(link)
        && turn(link, with_others(UP)) == Some(Ask::Restore)
        && answered(link, false).is_none()
        && is_quiet(link, with_others(UP), 13)
        && is_quiet(link, with_others(LEFT), 699)
        && turn(link, with_others(LEFT)) == Some(Ask::Timed)
        && refused_asks(link, Ask::NoAnswer)
        && done_asks(link, Ask::Rise { emergency: false })
        && ends(link)
}

#[test]
fn a_changeback_is_declared_twice() -> Result<(), Fail> {
    holds(declares_twice(&mut link(false)))
}

fn declares_twice(link: &mut LinkManagement) -> bool {
    // Up at 4,454, Redeclare at 5,053, BackTimeout T5 of 610 turns later.
    aligned_beside(link)
        && asks(link, with_others(UP), Ask::Restore)
        && is_quiet(link, with_others(UP), 598)
        && asks(link, with_others(UP), Ask::Redeclare)
        && is_quiet(link, with_others(UP), 609)
        && asks(link, with_others(UP), Ask::BackTimeout)
        && is_quiet(link, with_others(UP), 2_000)
        && link.state() == State::Carry
}
