//! A history that an auditor hears item by item. What a set answers is worked out by hand from Q.703 5.
use l2_units::Profile;
use set_core::{Auditor, Finding, Item};
use set_events::{Answer, Fate, Method, Refusal, SetConfig};
use std::alloc::Global;
use std::test::Fail;
use text_entries::{LinePlace, read_item};

/// Message 0 is sent and acknowledged.
const ACKNOWLEDGED: [&[u8]; 4] = [
    b"terminal 0 up 0 -> done",
    b"user 0 offer 8501800030 -> accepted 0",
    b"terminal 0 next 0 -> sent ff80058501800030156e",
    b"terminal 0 hear 0 80ff00 -> heard acked=1 took=nothing asked=0 resend=0 fault=0",
];

/// An auditor of a set of one link.
fn auditor_of(alloc: Global) -> Result<Auditor, Fail> {
    let Ok(config) = SetConfig::new(0, 1, 2, 1, 0x80, Method::Basic) else {
        return Err(Fail::from("no configuration"));
    };
    match Auditor::new(alloc, &config) {
        Ok(auditor) => Ok(auditor),
        Err(_) => Err(Fail::from("no auditor")),
    }
}

/// What is found of the item that this line tells.
fn found(alloc: Global, auditor: &mut Auditor, line: &[u8]) -> Result<Finding, Fail> {
    let mut place = LinePlace::new(alloc);
    if !place.read(alloc, Profile::Narrow, line)? {
        return Err(Fail::from("no item"));
    }
    match auditor.hear(place.item()) {
        Ok(finding) => Ok(finding),
        Err(_) => Err(Fail::from("a fault")),
    }
}

/// The auditor hears that message 0 is acknowledged.
fn hears_acknowledged(alloc: Global, auditor: &mut Auditor) -> Result<(), Fail> {
    for line in ACKNOWLEDGED {
        if found(alloc, auditor, line)? != Finding::Right {
            return Err(Fail::from("a wrong entry"));
        }
    }
    Ok(())
}

/// What a case makes of an auditor. It's a function for all types, since letting go of a set is dear to prove.
fn made_of<T: Drop, F: FnOnce(&mut T) -> Result<(), Fail>>(
    made: Result<T, Fail>,
    case: F,
) -> Result<(), Fail>
    requires { F.IsAlwaysCallable case }
{
    let mut it = made?;
    case(&mut it)
}

fn holds(is_so: bool) -> Result<(), Fail> {
    if is_so {
        Ok(())
    } else {
        Err(Fail::from("it isn't so"))
    }
}

#[test]
fn a_finished_message_is_found_before_a_checkpoint(rt: HostRuntime) -> Result<(), Fail> {
    let alloc = rt.alloc();
    made_of(
        auditor_of(alloc),
        |auditor| finds_a_finished_message(alloc, auditor),
    )
}

fn finds_a_finished_message(alloc: Global, auditor: &mut Auditor) -> Result<(), Fail> {
    hears_acknowledged(alloc, auditor)?;
    let before = found(alloc, auditor, b"user 0 find 0 -> found acked 0")?;
    let wrong = found(alloc, auditor, b"user 0 find 0 -> refused 11")?;
    let acked = Answer::Found {
        fate: Fate::Acked { link: 0 },
    };
    holds(
        before == Finding::Right && wrong == Finding::WrongAnswer && auditor.answer().same(&acked),
    )
}

#[test]
fn a_finished_message_is_refused_behind_a_checkpoint(rt: HostRuntime) -> Result<(), Fail> {
    let alloc = rt.alloc();
    made_of(
        auditor_of(alloc),
        |auditor| refuses_a_finished_message(alloc, auditor),
    )
}

fn refuses_a_finished_message(alloc: Global, auditor: &mut Auditor) -> Result<(), Fail> {
    hears_acknowledged(alloc, auditor)?;
    let taken = found(alloc, auditor, b"checkpoint")?;
    let behind = found(alloc, auditor, b"user 0 find 0 -> refused 11")?;
    let wrong = found(alloc, auditor, b"user 0 find 0 -> found acked 0")?;
    let finished = Answer::Refused {
        why: Refusal::Finished,
    };
    let right = taken == Finding::Right && behind == Finding::Right;
    holds(right && wrong == Finding::WrongAnswer && auditor.answer().same(&finished))
}

/// Two messages of five octets, of which one is acknowledged; a checkpoint is no entry.
#[test]
fn the_books_run_on_over_a_checkpoint(rt: HostRuntime) -> Result<(), Fail> {
    let alloc = rt.alloc();
    made_of(
        auditor_of(alloc),
        |auditor| has_books_of_two_messages(alloc, auditor),
    )
}

fn has_books_of_two_messages(alloc: Global, auditor: &mut Auditor) -> Result<(), Fail> {
    hears_acknowledged(alloc, auditor)?;
    found(alloc, auditor, b"checkpoint")?;
    let next = found(alloc, auditor, b"user 3 offer 8501800030 -> accepted 1")?;
    let books = auditor.books();
    let calls = books.user_calls[0] == 1 && books.user_calls[3] == 1 && books.term_calls[0] == 3;
    let sums = books.messages == 2 && books.octets == 10 && books.acknowledged == 1;
    holds(next == Finding::Right && calls && sums && auditor.entries() == 5)
}

#[test]
fn no_set_has_user_64(rt: HostRuntime) -> Result<(), Fail> {
    let alloc = rt.alloc();
    made_of(auditor_of(alloc), |auditor| has_no_user_64(alloc, auditor))
}

fn has_no_user_64(alloc: Global, auditor: &mut Auditor) -> Result<(), Fail> {
    let last = found(alloc, auditor, b"user 63 take -> refused 9")?;
    let past = found(alloc, auditor, b"user 64 take -> refused 9")?;
    holds(last == Finding::Right && past == Finding::NoSuchActor)
}

#[test]
fn a_checkpoint_is_one_word_and_its_lf(rt: HostRuntime) -> Result<(), Fail> {
    let whole = read_item(rt.alloc(), Profile::Narrow, b"checkpoint\n")?;
    let open = read_item(rt.alloc(), Profile::Narrow, b"checkpoint")?;
    let spaced = read_item(rt.alloc(), Profile::Narrow, b"checkpoint \n")?;
    let is_checkpoint = match whole {
        Some(Item::Checkpoint) => true,
        _ => false,
    };
    holds(is_checkpoint && open.is_none() && spaced.is_none())
}
