//! Whole runs, in the trade's words.
use super::holds;
use l2_state::{Indication, LinkState, Sending, StateIn, StateOut, Switch};
use l2_units::{Cause, Status, TimerOrder};
use std::test::Fail;

/// What the machine answers. All tests ask through here, so that the prover meets the contract once.
fn told(link: &mut LinkState, event: StateIn) -> StateOut {
    link.input(event)
}

fn begins_alignment(link: &mut LinkState) -> bool {
    told(link, StateIn::Start).alignment == Some(Switch::Start)
}

fn is_aligned(link: &mut LinkState) -> bool {
    let complete = told(link, StateIn::Complete);
    complete.send == Some(Sending::FillIn) && complete.t1 == TimerOrder::Start && complete.new_suerm
}

fn is_up(link: &mut LinkState) -> bool {
    let heard = told(link, StateIn::Fisu);
    heard.indication == Some(Indication::Up) && heard.send == Some(Sending::Traffic)
}

fn comes_up(link: &mut LinkState) -> bool {
    begins_alignment(link) && is_aligned(link) && is_up(link)
}

/// It hears that the far end is out of alignment.
fn is_lost(link: &mut LinkState) -> bool {
    let lost = told(link, StateIn::Heard(Status::OutOfAlignment));
    lost.indication == Some(Indication::Down(Cause::Status))
}

/// It hears that once more.
fn does_nothing(link: &mut LinkState) -> bool {
    let ignored = StateOut {
        send: None,
        t1: TimerOrder::Keep,
        alignment: None,
        new_suerm: false,
        indication: None,
        paused: false,
    };
    told(link, StateIn::Heard(Status::OutOfAlignment)) == ignored
}

#[test]
fn up_then_out_of_alignment() -> Result<(), Fail> {
    holds(goes_up_and_down(&mut LinkState::new()))
}

fn goes_up_and_down(link: &mut LinkState) -> bool {
    comes_up(link) && is_lost(link) && does_nothing(link)
}

#[test]
fn processor_outage_in_service() -> Result<(), Fail> {
    holds(pauses(&mut LinkState::new()))
}

fn pauses(link: &mut LinkState) -> bool {
    comes_up(link)
        && told(link, StateIn::Heard(Status::ProcessorOutage)).paused
        && told(link, StateIn::T1).paused
        && !told(link, StateIn::Msu).paused
}

/// What is sent from now on, where nothing else is told.
fn only_sends(link: &mut LinkState, event: StateIn, send: Option<Sending>, paused: bool) -> bool {
    let wanted = StateOut {
        send,
        t1: TimerOrder::Keep,
        alignment: None,
        new_suerm: false,
        indication: None,
        paused,
    };
    told(link, event) == wanted
}

fn sends_sipo(link: &mut LinkState) -> bool {
    only_sends(link, StateIn::Outage, Some(Sending::ProcessorOutage), false)
}

/// An outage of this end in service, and one of the far end within it.
#[test]
fn own_processor_outage_in_service() -> Result<(), Fail> {
    holds(has_an_outage(&mut LinkState::new()))
}

fn has_an_outage(link: &mut LinkState) -> bool {
    let far = StateIn::Heard(Status::ProcessorOutage);
    comes_up(link)
        && sends_sipo(link)
        && only_sends(link, far, None, true)
        && only_sends(link, StateIn::Fisu, None, false)
        && only_sends(link, StateIn::Recover, Some(Sending::Traffic), false)
}

/// Aligned, not ready: the outage began before the link was started, T1 runs in it, and the link comes up in it.
#[test]
fn own_processor_outage_before_the_start() -> Result<(), Fail> {
    holds(comes_up_in_an_outage(&mut LinkState::new()))
}

fn comes_up_in_an_outage(link: &mut LinkState) -> bool {
    only_sends(link, StateIn::Outage, None, false)
        && begins_alignment(link)
        && is_aligned_not_ready(link)
        && comes_up_with_sipo(link)
}

fn is_aligned_not_ready(link: &mut LinkState) -> bool {
    let complete = told(link, StateIn::Complete);
    complete.send == Some(Sending::ProcessorOutage) && complete.t1 == TimerOrder::Start
}

fn comes_up_with_sipo(link: &mut LinkState) -> bool {
    let heard = told(link, StateIn::Fisu);
    heard.indication == Some(Indication::Up) && heard.send == Some(Sending::ProcessorOutage)
}

/// The outage ends while the far end isn't ready: fill-in units go out then, and T1 runs on.
#[test]
fn recovery_while_ready() -> Result<(), Fail> {
    holds(recovers_while_ready(&mut LinkState::new()))
}

fn recovers_while_ready(link: &mut LinkState) -> bool {
    begins_alignment(link)
        && is_aligned(link)
        && sends_sipo(link)
        && only_sends(link, StateIn::Recover, Some(Sending::FillIn), false)
}

/// A link that goes down isn't out any more: it comes up with traffic.
#[test]
fn outage_ends_with_the_service() -> Result<(), Fail> {
    holds(is_out_no_more(&mut LinkState::new()))
}

fn is_out_no_more(link: &mut LinkState) -> bool {
    comes_up(link) && sends_sipo(link) && is_lost(link) && !link.is_out() && comes_up(link)
}
