//! Reports of runs: what doesn't depend on who gets on, and when.

use super::holds;
use bank_traffic::{Traffic, gates_of};
use run_text::{Absence, Missing, write_run};
use std::alloc::Global;
use std::sync::Wait;
use std::test::Fail;
use std::thread::Threads;
use std::time::Clock;
use text_base::Writer;

/// One set of three links, three users of so many messages each, and link 1 that fails.
fn traffic_of(messages: u16, turns: u32, noise: Option<u32>) -> Traffic {
    Traffic {
        sets: 1,
        links: 3,
        users: 3,
        messages,
        fail: Some(1),
        cyclic: false,
        turns: u64::from(turns),
        checkpoint: Some(100),
        managed: true,
        noise,
        seed: 7,
        keeps: false,
    }
}

/// The report on a run of this traffic, and what is missing.
fn reported<R: Threads + Wait + Clock + Copy + Send + Sync + 'static>(
    rt: &R,
    alloc: Global,
    traffic: &Traffic,
) -> Result<(String, Option<Missing>), Fail> {
    let gates = gates_of(alloc, traffic)?;
    let mut sink = Writer::new(Vec::new(alloc));
    let Ok(missing) = write_run(
        rt,
        alloc,
        traffic,
        gates,
        true,
        &mut sink,
        |_delivered| None,
    ) else {
        return Err(Fail::from("the run failed"));
    };
    match String::from_utf8(sink.into_inner()) {
        Ok(text) => Ok((text, missing)),
        Err(_) => Err(Fail::from("no text")),
    }
}

/// A line begins so, and has this behind it.
fn has_line(text: &str, beginning: &str, behind: &str) -> bool {
    text.lines().any(|line| line.starts_with(beginning) && line.contains(behind))
}

/// Each link carried messages; the one that was told to stop came up twice at both ends, and messages of its stream went over
/// another.
fn shows_a_failure(text: &str) -> bool {
    has_line(text, "set=0 link=1 end=a ", " ups=2 cause=stop")
        && has_line(text, "set=0 link=1 end=b ", " ups=2 cause=status")
        && !has_line(text, "set=0 link=0 end=a ", " sent_messages=0 ")
        && !has_line(text, "set=0 link=1 end=a ", " sent_messages=0 ")
        && !has_line(text, "set=0 link=2 end=a ", " sent_messages=0 ")
        && !has_line(text, "set=0 end=a ", " diverted=0 ")
}

/// What the schedule can't change: all was offered, delivered, acknowledged and taken, and nothing is left or given up.
fn shows_all(text: &str) -> bool {
    text.starts_with(
        "set=0 end=a accepted=1800 placed=1800 legal=yes\nset=0 end=b accepted=0 placed=0 legal=yes\n\
         total accepted=1800 placed=1800 legal=yes\n\
         set=0 end=a offered=1800 delivered=1800 acknowledged=1800 taken=0 waiting=0 unacked=0 diverted=",
    ) && has_line(text, "set=0 end=a ", " discarded=0 ")
        && has_line(
            text,
            "set=0 end=b offered=0 delivered=0 acknowledged=0 taken=1800 waiting=0 unacked=0 diverted=0 discarded=0 ",
            "retransmitted=0",
        )
        && text.ends_with("run messages=1800 octets=12600\nall delivered in order\n")
}

/// A link fails under traffic: all of it is delivered in order. In one of ten runs at least the link comes back before that: where
/// threads come late the others may have carried all by then.
#[test]
fn all_is_delivered_in_order_across_a_failure(rt: HostRuntime) -> Result<(), Fail> {
    for _run in 0..10u8 {
        let (text, missing) = reported(&rt, rt.alloc(), &traffic_of(600, 1_000_000, None))?;
        holds(missing.is_none() && shows_all(&text))?;
        if shows_a_failure(&text) {
            return Ok(());
        }
    }
    Err(Fail::from("the link came back in no run"))
}

/// One of 12,000 octets is damaged or lost, each way: units are heard to be bad, and all is delivered in order.
#[test]
fn all_is_delivered_in_order_through_noise(rt: HostRuntime) -> Result<(), Fail> {
    let (text, missing) = reported(&rt, rt.alloc(), &traffic_of(600, 1_000_000, Some(12_000)))?;
    let errors = text.lines().any(|line| line.contains(" errors=") && !line.contains(" errors=0 "));
    holds(missing.is_none() && shows_all(&text) && errors)
}

/// The report says last that this message was given up, and by which failure.
fn is_given_up(text: &str, missing: &Missing) -> bool {
    matches!(missing.why, Absence::GivenUp { .. })
        && !has_line(text, "set=0 end=a ", " discarded=0 ")
        && has_line(text, "given-up set=0 stream=", " cause=")
}

/// The only link fails under traffic: what waits on it is given up, and users go on once it's back, so nothing waits at the end, and
/// what is missing was given up. In one of ten runs at least it's back at once: where threads come late it may fail again.
#[test]
fn users_go_on_where_messages_were_given_up(rt: HostRuntime) -> Result<(), Fail> {
    let mut traffic = traffic_of(600, 1_000_000, None);
    traffic.links = 1;
    traffic.fail = Some(0);
    for _run in 0..10u8 {
        let (text, missing) = reported(&rt, rt.alloc(), &traffic)?;
        let is_whole = match missing {
            None => true,
            Some(missing) => is_given_up(&text, &missing),
        };
        let has_gone_on = has_line(&text, "set=0 end=a offered=1800 ", " waiting=0 unacked=0 ");
        holds(is_whole && has_gone_on)?;
        if has_line(&text, "set=0 link=0 end=a ", " ups=2 cause=stop") {
            return Ok(());
        }
    }
    Err(Fail::from("the link came back in no run"))
}

/// In so few turns no link comes up: the first message isn't delivered yet, which the report says last.
#[test]
fn what_was_never_sent_is_missing(rt: HostRuntime) -> Result<(), Fail> {
    let (text, missing) = reported(&rt, rt.alloc(), &traffic_of(5, 500, None))?;
    let first = Missing {
        set: 0,
        stream: 0,
        message: 0,
        why: Absence::Unfinished,
    };
    holds(
        missing == Some(first)
            && has_line(
                &text,
                "set=0 end=a offered=15 delivered=0 acknowledged=0 taken=0 waiting=15 unacked=0 diverted=0 ",
                "discarded=0 retransmitted=0",
            )
            && has_line(&text, "set=0 link=1 end=b ", " ups=0 cause=none")
            && text.ends_with("run messages=0 octets=0\nunfinished set=0 stream=0 message=0\n"),
    )
}
