//! Entries with their texts, written by hand after the words of `play`.
use l2_units::{Profile, read, read_wide};
use set_events::{Actor, Answer, Body, Entry, Event, Report, Took};
use std::alloc::Global;
use std::test::Fail;
use text_entries::{read_entry, write_entry};

/// The entry of a set of this profile has this text, and the text is read as that entry.
fn has_text(alloc: Global, profile: Profile, entry: &Entry, text: &[u8]) -> Result<(), Fail> {
    if write_entry(alloc, profile, entry)?.as_slice() != text {
        return Err(Fail::from("another text"));
    }
    match read_entry(alloc, profile, text)? {
        Some(found) if found.same(entry) => Ok(()),
        _ => Err(Fail::from("another entry, or none")),
    }
}

/// The line is the text of no entry of a set of this profile.
fn is_none(alloc: Global, profile: Profile, line: &[u8]) -> Result<(), Fail> {
    match read_entry(alloc, profile, line)? {
        Some(_) => Err(Fail::from("an entry")),
        None => Ok(()),
    }
}

#[test]
fn an_offer_has_its_text(rt: HostRuntime) -> Result<(), Fail> {
    let entry = Entry {
        who: Actor::User(0),
        event: Event::Offer {
            body: Body::from_slice(rt.alloc(), &[0x85, 1, 0x80, 0, 0x30])?,
        },
        answer: Answer::Accepted { number: 0 },
    };
    has_text(
        rt.alloc(),
        Profile::Narrow,
        &entry,
        b"user 0 offer 8501800030 -> accepted 0\n",
    )
}

#[test]
fn a_heard_unit_has_its_text(rt: HostRuntime) -> Result<(), Fail> {
    let Ok(unit) = read(&[0xFF, 0xFF, 0]) else {
        return Err(Fail::from("no unit"));
    };
    let entry = Entry {
        who: Actor::Terminal(3),
        event: Event::Heard { link: 3, unit },
        answer: Answer::Heard {
            report: Report {
                acked: 1,
                took: Took::Nothing,
                asked: false,
                resend: true,
                fault: None,
            },
        },
    };
    let text = b"terminal 3 hear 3 ffff00 -> heard acked=1 took=nothing asked=0 resend=1 fault=0\n";
    has_text(rt.alloc(), Profile::Narrow, &entry, text)
}

/// Numbers of twelve bits, and as many acknowledged as a narrow set never has.
#[test]
fn a_heard_wide_unit_has_its_text(rt: HostRuntime) -> Result<(), Fail> {
    let Ok(unit) = read_wide(&[0xFF, 0xFF, 0xFF, 3]) else {
        return Err(Fail::from("no unit"));
    };
    let entry = Entry {
        who: Actor::Terminal(3),
        event: Event::Heard { link: 3, unit },
        answer: Answer::Heard {
            report: Report {
                acked: 4095,
                took: Took::Nothing,
                asked: false,
                resend: true,
                fault: None,
            },
        },
    };
    let text =
        b"terminal 3 hear 3 ffffff03 -> heard acked=4095 took=nothing asked=0 resend=1 fault=0\n";
    has_text(rt.alloc(), Profile::Wide, &entry, text)
}

#[test]
fn a_sent_wide_unit_has_its_text(rt: HostRuntime) -> Result<(), Fail> {
    let Ok(unit) = read_wide(&[0xFF, 0x1F, 0, 0x16, 0x85, 1, 0x80, 0, 0x30]) else {
        return Err(Fail::from("no unit"));
    };
    let entry = Entry {
        who: Actor::Terminal(0),
        event: Event::Next { link: 0 },
        answer: Answer::Sent { unit },
    };
    let text = b"terminal 0 next 0 -> sent ff1f001685018000308330\n";
    has_text(rt.alloc(), Profile::Wide, &entry, text)
}

/// A line of one profile is none of the other.
#[test]
fn lines_of_the_other_profile(rt: HostRuntime) -> Result<(), Fail> {
    let narrow = b"terminal 0 next 0 -> sent ff80058501800030156e\n";
    let wide = b"terminal 0 next 0 -> sent ff1f001685018000308330\n";
    is_none(rt.alloc(), Profile::Wide, narrow)?;
    is_none(rt.alloc(), Profile::Narrow, wide)
}

#[test]
fn lines_that_are_no_entrys_text(rt: HostRuntime) -> Result<(), Fail> {
    let lines: [&[u8]; 8] = [
        b"",
        b"user 0 take -> done",
        b"user 00 take -> done\n",
        b"user 0  take -> done\n",
        b"user 65536 take -> done\n",
        b"terminal 256 next 0 -> done\n",
        b"user 0 offer 85018000AB -> accepted 0\n",
        b"terminal 0 next 0 -> sent ff80058501800030156f\n",
    ];
    for line in lines {
        is_none(rt.alloc(), Profile::Narrow, line)?;
    }
    Ok(())
}
