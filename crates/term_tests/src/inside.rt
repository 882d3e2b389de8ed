//! The inside of a terminal: values worked out by hand from Q.703.

ghost use Rattle.std.specs.Prelude.{◌<◌, IsTrue};
ghost use Rattle.l2_units.specs.declared.profile.Profile.TheVariants.{Narrow};
ghost use Rattle.l2_units.specs.Grammar.{IsHeadOf, head_of};

use super::core_door::holds;
use l2_align::{AlignIn, Outcome};
use l2_bits::{Deframer, Mark};
use l2_flow::FlowIn;
use l2_state::{Indication, State, StateIn};
use l2_units::{Cause, Header, Status, Unit, UnitRef, body_of, header_in, write};
use set_events::{AnswerRef, Refusal};
use std::test::Fail;
use term_core::{Inside, Timer, Verdict};
use term_model::{Command, Commands, Timers};

const LENGTHS: Timers = Timers {
    t1: 10,
    t2: 20,
    t3: 30,
    t5: 40,
    t6: 50,
    t7: 60,
};

/// A terminal of the link 3.
fn opened() -> Inside {
    Inside::new(3, LENGTHS)
}

/// So many octet times go by.
fn wait(inside: &mut Inside, octet_times: u16) {
    for _octet_time in 0..octet_times {
        inside.lessen();
    }
}

/// In normal proving, both ends heard normal.
fn proving() -> Inside {
    let mut inside = opened();
    inside.state(StateIn::Start);
    inside.align(AlignIn::Heard(Status::Normal));
    inside.align(AlignIn::Heard(Status::Normal));
    inside
}

/// In service, and up at the set.
fn serving() -> Inside {
    let mut inside = proving();
    inside.align(AlignIn::T4);
    inside.state(StateIn::Complete);
    inside.state(StateIn::Fisu);
    inside.rise(&AnswerRef::Done);
    inside
}

/// The next octet, which then was put.
fn next(inside: &mut Inside) -> u8 {
    let octet = inside.octet();
    inside.drop_octet();
    octet
}

/// These are the octets until less than one is left.
fn goes_out(inside: &mut Inside, octets: &[u8]) -> bool {
    for octet in octets {
        if inside.is_short() || next(inside) != *octet {
            return false;
        }
    }
    inside.is_short()
}

/// The most octets that are left to send.
const LONGEST_LEFT: u16 = 336;

fn append(inside: &mut Inside, unit: &Unit) {
    if inside.is_short() && is_narrow(unit) {
        inside.append(&UnitRef::of(unit));
    }
}

/// The unit's numbers have seven bits.
fn is_narrow(unit: &Unit) -> bool
    ensures { IsTrue result → IsHeadOf Narrow (head_of unit.now) }
{
    let head = header_in(unit);
    head.bsn < 128 && head.fsn < 128
}

/// Sends SIO behind a flag.
fn sends_sio(inside: &mut Inside) -> bool {
    let flag = goes_out(inside, &[0x7E]);
    let sio = Unit::Lssu {
        head: inside.last_head(),
        status: inside.status(),
    };
    append(inside, &sio);
    // Check octets 27 E6; a zero after each five ones; three bits of the flag are left: 1, 1, 0.
    flag && goes_out(inside, &[0xDF, 0xF7, 0x0D, 0x00, 0x38, 0x31, 0xF7]) && inside.octet() == 0b011
}

/// Sends a FISU: BSN 5, BIB 1, FSN 11, FIB 0.
fn sends_fisu(inside: &mut Inside) -> bool {
    let head = Header {
        bsn: 5,
        bib: true,
        fsn: 11,
        fib: false,
    };
    append(inside, &Unit::Fisu { head });
    inside.last_head() == head && goes_out(inside, &[0x2B, 0x5C, 0x00, 0xA8, 0xB9, 0xF0])
}

#[test]
fn sio_and_a_fisu_behind_a_flag(_rt: HostRuntime) -> Result<(), Fail> {
    let mut inside = opened();
    let sio = sends_sio(&mut inside);
    let fisu = sends_fisu(&mut inside);
    holds(sio && fisu)
}

/// Feeds an octet; how many of its bits end a good unit of these octets.
fn good_marks(deframer: &mut Deframer, octet: u8, text: &[u8]) -> u8 {
    let mut good: u8 = 0;
    for place in 0..8u8 {
        if let Some(Mark::Good(unit)) = deframer.feed((octet >> place) & 1 == 1) {
            good = good.saturating_add(u8::from(unit.as_slice() == text));
        }
    }
    good
}

/// Puts all whole octets that are left; how many good units of these octets end in them.
fn put_all(inside: &mut Inside, deframer: &mut Deframer, text: &[u8]) -> u64 {
    let mut good: u64 = 0;
    for _octet in 0..400u16 {
        if inside.is_short() {
            return good;
        }
        good = good.saturating_add(u64::from(good_marks(deframer, next(inside), text)));
    }
    good
}

#[test]
fn the_longest_message_comes_back(_rt: HostRuntime) -> Result<(), Fail> {
    // All ones, so that the most zeros are inserted.
    let mut inside = opened();
    let message = Unit::Msu {
        head: inside.last_head(),
        body: body_of(&[0xFF; 273]),
    };
    let text = write(&message);
    let mut deframer = Deframer::new();
    let mut good: u64 = 0;
    for _message in 0..8u8 {
        good = good.saturating_add(put_all(&mut inside, &mut deframer, text.as_slice()));
        append(&mut inside, &message);
    }
    good = good.saturating_add(put_all(&mut inside, &mut deframer, text.as_slice()));
    // The last flag may still be there in part.
    let fisu = Unit::Fisu {
        head: inside.last_head(),
    };
    append(&mut inside, &fisu);
    good = good.saturating_add(put_all(&mut inside, &mut deframer, text.as_slice()));
    holds(good == 8)
}

#[test]
fn commands_wait_once_each(_rt: HostRuntime) -> Result<(), Fail> {
    let mut inside = opened();
    inside.command(Command::Stop);
    inside.command(Command::Start);
    inside.command(Command::Start);
    let both = Commands {
        start: true,
        stop: true,
        ..Commands::NONE
    };
    let first = inside.take_commands() == both;
    let second = inside.take_commands() == Commands::NONE;
    holds(first && second)
}

/// T2, of 20 octet times, ends once.
fn t2_ends(inside: &mut Inside) -> bool {
    wait(inside, 19);
    let before = inside.has_ended() || inside.ended(Timer::T2);
    wait(inside, 1);
    let ends = inside.has_ended() && inside.ended(Timer::T2);
    let after = inside.has_ended() || inside.ended(Timer::T2);
    !before && ends && !after
}

/// Alignment isn't possible, and the link fails with that cause.
fn is_not_possible(inside: &mut Inside) -> bool {
    let end = inside.align(AlignIn::T2);
    let told = inside.state(StateIn::NotPossible);
    inside.fall(Cause::NotPossible);
    end == Some(Outcome::NotPossible)
        && told == Some(Indication::Down(Cause::NotPossible))
        && inside.cause() == Some(Cause::NotPossible)
}

#[test]
fn nothing_heard_until_t2_ends(_rt: HostRuntime) -> Result<(), Fail> {
    let mut inside = opened();
    let quiet = inside.state(StateIn::Start).is_none();
    let aligning = inside.state_now() == State::Aligning
        && inside.status() == Status::OutOfAlignment;
    let ends = t2_ends(&mut inside);
    let failed = is_not_possible(&mut inside);
    holds(quiet && aligning && ends && failed)
}

/// Is told of an emergency, proves for 4,096 octet times, and comes into service.
fn proves_in_emergency(inside: &mut Inside) -> bool {
    inside.align(AlignIn::Emergency);
    inside.state(StateIn::Start);
    inside.align(AlignIn::Heard(Status::OutOfAlignment));
    let status = inside.status();
    inside.align(AlignIn::Heard(Status::Normal));
    wait(inside, 4_095);
    let early = inside.ended(Timer::T4);
    wait(inside, 1);
    status == Status::Emergency && !early && inside.ended(Timer::T4)
}

/// Proving ends, the link is ready, and a FISU makes it one that is in service.
fn comes_into_service(inside: &mut Inside) -> bool {
    let end = inside.align(AlignIn::T4);
    let quiet = inside.state(StateIn::Complete).is_none();
    let ready = inside.state_now() == State::Ready;
    end == Some(Outcome::Complete)
        && quiet
        && ready
        && inside.state(StateIn::Fisu) == Some(Indication::Up)
}

/// It's up, and may be blind, once the set has said so.
fn waits_for_the_set(inside: &mut Inside) -> bool {
    let refused = AnswerRef::Refused {
        why: Refusal::Unsettled,
    };
    inside.rise(&refused);
    inside.blind();
    let early = inside.is_up() || inside.is_blind();
    inside.rise(&AnswerRef::Done);
    inside.blind();
    !early && inside.is_up() && inside.is_blind() && inside.top() == 127
}

/// The highest FSN that was sent, and the end by a Stop.
fn stops(inside: &mut Inside) -> bool {
    inside.raise_top(0);
    inside.raise_top(2);
    let top = inside.top();
    inside.stop_quietly();
    top == 0
        && inside.state_now() == State::OutOfService
        && inside.cause() == Some(Cause::Stop)
        && !inside.is_up()
}

#[test]
fn from_emergency_to_service(_rt: HostRuntime) -> Result<(), Fail> {
    let mut inside = opened();
    let proved = proves_in_emergency(&mut inside);
    let ready = comes_into_service(&mut inside);
    let up = waits_for_the_set(&mut inside);
    let stopped = stops(&mut inside);
    holds(proved && ready && up && stopped)
}

/// After two SIBs in 50 octet times T6 ends; no SIB starts T7 where it doesn't run.
fn t6_ends(inside: &mut Inside) -> bool {
    inside.control(FlowIn::HeardBusy);
    wait(inside, 25);
    inside.control(FlowIn::HeardBusy);
    wait(inside, 25);
    let ends = inside.ended(Timer::T6);
    wait(inside, 60);
    ends && !inside.ended(Timer::T7) && inside.control(FlowIn::T6) == Some(Cause::T6)
}

#[test]
fn busy_status_again_and_nothing_unacknowledged(_rt: HostRuntime) -> Result<(), Fail> {
    let mut inside = serving();
    let ends = t6_ends(&mut inside);
    holds(ends)
}

/// A SIB while a message is out starts T7 anew.
fn t7_ends(inside: &mut Inside) -> bool {
    inside.control(FlowIn::Sent);
    wait(inside, 40);
    inside.control(FlowIn::HeardBusy);
    wait(inside, 59);
    let early = inside.ended(Timer::T7);
    wait(inside, 1);
    !early && inside.ended(Timer::T7) && inside.control(FlowIn::T7) == Some(Cause::T7)
}

#[test]
fn busy_while_a_message_is_out(_rt: HostRuntime) -> Result<(), Fail> {
    let mut inside = serving();
    let ends = t7_ends(&mut inside);
    holds(ends)
}

/// Messages are unacknowledged from the first that is sent on, to an acknowledgement of the last one, or the link's next
/// life.
fn counts_unacked(inside: &mut Inside) -> bool {
    let none = inside.has_unacked();
    inside.raise_top(0);
    inside.raise_top(1);
    let both = inside.has_unacked();
    let second = inside.acknowledge(0) && inside.has_unacked();
    let all = inside.acknowledge(1) || inside.has_unacked();
    inside.raise_top(2);
    inside.rise(&AnswerRef::Done);
    !none && both && second && !all && !inside.has_unacked()
}

#[test]
fn messages_are_unacknowledged(_rt: HostRuntime) -> Result<(), Fail> {
    let mut inside = serving();
    let counts = counts_unacked(&mut inside);
    holds(counts)
}

/// A far end with a processor outage pauses the link till a FISU; T7 stands still for so long.
fn waits_for_an_outage(inside: &mut Inside) -> bool {
    inside.control(FlowIn::Sent);
    inside.state(StateIn::Heard(Status::ProcessorOutage));
    let paused = inside.is_paused();
    inside.control(FlowIn::Paused);
    wait(inside, 100);
    let early = inside.ended(Timer::T7);
    inside.state(StateIn::Fisu);
    inside.control(FlowIn::Resumed { more: true });
    wait(inside, 59);
    let late = inside.ended(Timer::T7);
    wait(inside, 1);
    paused && !inside.is_paused() && !early && !late && inside.ended(Timer::T7)
}

#[test]
fn far_end_has_a_processor_outage(_rt: HostRuntime) -> Result<(), Fail> {
    let mut inside = serving();
    let before = inside.is_paused();
    let waits = waits_for_an_outage(&mut inside);
    holds(!before && waits)
}

/// A FISU with these numbers.
fn fisu(bsn: u16, bib: bool, fsn: u16, fib: bool) -> Unit
    requires { (bsn < 128) × (fsn < 128) }
{
    Unit::Fisu {
        head: Header { bsn, bib, fsn, fib },
    }
}

/// A unit that the set gives is sent, once all that is left is out: the header with which it goes out.
fn goes_out_with(inside: &mut Inside, unit: &Unit) -> Header {
    for _octet in 0..LONGEST_LEFT {
        if inside.is_short() && is_narrow(unit) {
            let lent = UnitRef::of(unit);
            if inside.is_busy() {
                let held = inside.withholding(&lent);
                inside.append(&held);
            } else {
                inside.append(&lent);
            }
            return inside.last_head();
        }
        inside.drop_octet();
    }
    inside.last_head()
}

/// A B is due from the moment that this end is busy until it was sent.
fn tells_that_it_is_busy(inside: &mut Inside) -> bool {
    let before = inside.is_b_due();
    inside.control(FlowIn::Busy);
    let due = inside.is_b_due();
    inside.drop_b();
    !before && due && !inside.is_b_due()
}

#[test]
fn this_end_is_busy(_rt: HostRuntime) -> Result<(), Fail> {
    let mut inside = serving();
    let open = goes_out_with(&mut inside, &fisu(5, true, 11, false));
    let told = tells_that_it_is_busy(&mut inside);
    // BSN and BIB stay those of the unit that was sent last.
    let held = goes_out_with(&mut inside, &fisu(9, false, 12, true));
    let as_given = open == header_in(&fisu(5, true, 11, false));
    holds(as_given && told && held == header_in(&fisu(5, true, 12, true)))
}

/// So many error marks, none of which trips a monitor.
fn bears(inside: &mut Inside, errors: u8) -> bool {
    for _error in 0..errors {
        if inside.judge(true) != Verdict::Fine {
            return false;
        }
    }
    true
}

#[test]
fn the_fourth_error_of_a_normal_proving(_rt: HostRuntime) -> Result<(), Fail> {
    let mut inside = proving();
    let borne = bears(&mut inside, 3);
    let fine = inside.judge(false) == Verdict::Fine;
    let abort = inside.judge(true) == Verdict::Abort;
    holds(borne && fine && abort)
}

#[test]
fn sixty_four_errors_in_service(_rt: HostRuntime) -> Result<(), Fail> {
    let mut inside = serving();
    let borne = bears(&mut inside, 63);
    let failed = inside.judge(true) == Verdict::Failed;
    let mut idle = opened();
    let idle_bears = bears(&mut idle, 200);
    holds(borne && failed && idle_bears && inside.link() == 3)
}
