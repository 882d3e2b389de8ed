//! Captures of runs, read back.

use super::holds;
use bank_traffic::{Traffic, gates_of};
use run_text::write_run;
use std::alloc::Global;
use std::sync::Wait;
use std::test::Fail;
use std::thread::Threads;
use std::time::Clock;
use text_base::Writer;

/// The capture of a run of two sets of two links, over lines with noise.
fn captured<R: Threads + Wait + Clock + Copy + Send + Sync + 'static>(
    rt: &R,
    alloc: Global,
) -> Result<Vec<u8>, Fail> {
    let traffic = Traffic {
        sets: 2,
        links: 2,
        users: 2,
        messages: 20,
        fail: None,
        cyclic: false,
        turns: 1_000_000,
        checkpoint: None,
        managed: true,
        noise: Some(20_000),
        seed: 3,
        keeps: true,
    };
    let gates = gates_of(alloc, &traffic)?;
    let mut sink = Writer::new(Vec::new(alloc));
    let ran = write_run(
        rt,
        alloc,
        &traffic,
        gates,
        false,
        &mut sink,
        |_delivered| None,
    );
    if ran.is_ok() {
        Ok(sink.into_inner())
    } else {
        Err(Fail::from("the run failed"))
    }
}

/// The number of these four octets, the low one first.
fn number_of(octets: &[u8]) -> u64 {
    match octets {
        [a, b, c, d] => u64::from(u32::from_le_bytes([*a, *b, *c, *d])),
        _ => u64::MAX,
    }
}

/// A record of a pcap file: its time in microseconds, and its octets.
#[derive(Clone, Copy)]
struct Record<'a> {
    time: u64,
    octets: &'a [u8],
}

/// The first record, and what stands behind it.
fn first_of(file: &[u8]) -> Option<(Record<'_>, &[u8])> {
    let head = file.get(..16)?;
    let length = number_of(head.get(8..12)?);
    let same = number_of(head.get(12..16)?) == length;
    let end = usize::try_from(length).ok()?.checked_add(16)?;
    let octets = file.get(16..end)?;
    let seconds = number_of(head.get(..4)?);
    let time = seconds
        .checked_mul(1_000_000)?
        .checked_add(number_of(head.get(4..8)?))?;
    let record = Record { time, octets };
    if same {
        Some((record, file.get(end..)?))
    } else {
        None
    }
}

/// A unit whose length indicator is that of its octets, behind the number of a link that there is.
fn is_sound(octets: &[u8]) -> bool {
    let [direction, form, set, link, _, _, indicator, body @ ..] = octets else {
        return false;
    };
    *direction < 2
        && *form == 0
        && *set < 2
        && *link < 2
        && usize::from(*indicator % 64) == body.len().min(63)
}

/// Where a unit was sent: 0 to 7.
fn side_of(octets: &[u8]) -> usize {
    match octets {
        [direction, _, set, link, ..] => {
            usize::from(*direction % 2) * 4 + usize::from(*set % 2) * 2 + usize::from(*link % 2)
        }
        _ => 0,
    }
}

/// What a capture holds of each end of each link.
#[derive(Clone, Copy)]
struct Seen {
    /// How many units of each were sent, and how many of them are messages.
    units: [u32; 8],
    messages: [u32; 8],
    /// All are sound, and stand in order of time.
    sound: bool,
}

/// One more at this place.
fn count(counts: &mut [u32; 8], place: usize) {
    if let Some(count) = counts.get_mut(place) {
        *count = count.saturating_add(1);
    }
}

impl Seen {
    /// A record more, behind one of this time.
    fn see(&mut self, record: &Record<'_>, time: u64) {
        let side = side_of(record.octets);
        count(&mut self.units, side);
        if record.octets.len() > 9 {
            count(&mut self.messages, side);
        }
        let in_order = record.time >= time && record.time % 125 == 0;
        self.sound = self.sound && in_order && is_sound(record.octets);
    }
}

/// Reads a capture back.
fn read_back(file: &[u8]) -> Option<Seen> {
    let mut seen = Seen {
        units: [0; 8],
        messages: [0; 8],
        sound: true,
    };
    let mut left = file.get(24..)?;
    let mut time = 0;
    for _octet in file {
        if left.is_empty() {
            return Some(seen);
        }
        let (record, more) = first_of(left)?;
        seen.see(&record, time);
        time = record.time;
        left = more;
    }
    None
}

fn sum_of(counts: &[u32]) -> u32 {
    let mut sum: u32 = 0;
    for count in counts {
        sum = sum.saturating_add(*count);
    }
    sum
}

/// The file begins as a pcap file of link type 139; each end of each link sent units, all of them whole, whatever noise struck;
/// and the ends a sent the 80 messages of their users.
#[test]
fn what_was_sent_is_read_back(rt: HostRuntime) -> Result<(), Fail> {
    let file = captured(&rt, rt.alloc())?;
    let head = [
        0xD4, 0xC3, 0xB2, 0xA1, 2, 0, 4, 0, 0, 0, 0, 0, 0, 0, 0, 0, 24, 1, 0, 0, 139, 0, 0, 0,
    ];
    let Some(seen) = read_back(&file) else {
        return Err(Fail::from("a record is cut off"));
    };
    let each = seen.units.iter().all(|units| *units > 100);
    let from_a = sum_of(&seen.messages[4..]);
    holds(file.starts_with(&head) && seen.sound && each && from_a >= 80)
}
