//! A door round a bare set, and what the tests open terminals with.
ghost use Rattle.std.specs.Prelude.{◌≡◌, ◌<◌, [], IfSome};

use line_ring::Line;
use link_term::{Command, Door, Faults, OpenGate, SetFault, Terminal, Timers};
use set_core::{SetCore, audit_history};
use set_events::{Actor, Answer, Body, Event, EventRef, Method, Reply, SetConfig};
use set_history::{EntryRef, Reader};
use std::alloc::Global;
use std::test::Fail;

/// A set that one terminal has for itself.
#[derive(Drop)]
pub(crate) struct CoreDoor {
    pub(crate) core: SetCore,
    pub(crate) link: u8,
    faults: Faults,
    ghost in_range: { link < 16 },
}

impl Door for CoreDoor {
    ghost use Rattle.std.specs.Prelude.{⊤};

    ghost number = { λ door. door.link };

    ghost made = { λ door. door.core.history };

    ghost faults = { λ door. door.faults };

    ghost is_same = { λ a b. ⊤ };

    ghost same_self = { λ door. tt };

    ghost same_on = { λ first second third a b. tt };

    fn link(&self) -> u8 {
        self.link
    }

    fn step(&mut self, event: &EventRef<'_>, reply: &mut Reply) -> Result<(), SetFault> {
        match self
            .core
            .apply_into(Actor::Terminal(self.link), event, reply)
        {
            Ok(()) => Ok(()),
            Err(fault) => {
                self.faults.note(fault);
                Err(fault)
            }
        }
    }
}

/// So it is.
pub(crate) fn holds(fact: bool) -> Result<(), Fail> {
    if fact {
        Ok(())
    } else {
        Err(Fail::from("it isn't so"))
    }
}

/// A set of one link, between these point codes.
fn config_between(near: u16, far: u16) -> Option<SetConfig> {
    SetConfig::new(0, 1, near, far, 0x80, Method::Basic).ok()
}

/// A set of one link.
pub(crate) fn config_of() -> Option<SetConfig> {
    config_between(2, 1)
}

/// Its far end.
pub(crate) fn far_config_of() -> Option<SetConfig> {
    config_between(1, 2)
}

/// A door of link 0 of a new set.
pub(crate) fn door_of(alloc: Global) -> Option<CoreDoor>
    ensures { IfSome result (λ door. door.link ≡ 0) }
{
    door_at(alloc, &config_of()?)
}

/// A door of link 0 of a new set with these settings.
fn door_at(alloc: Global, config: &SetConfig) -> Option<CoreDoor>
    ensures { IfSome result (λ door. door.link ≡ 0) }
{
    match SetCore::new(alloc, config) {
        Ok(core) => Some(CoreDoor {
            core,
            link: 0,
            faults: Faults::new(),
        }),
        Err(_) => None,
    }
}

/// The same, after user 0 has offered so many messages, which were accepted.
pub(crate) fn loaded(alloc: Global, config: &SetConfig, messages: u16) -> Option<CoreDoor> {
    let mut door = door_at(alloc, config)?;
    offer(alloc, &mut door.core, messages).then_some(door)
}

/// Timers that are long beside the time that a link takes to come up.
pub(crate) const LONG: Timers = Timers {
    t1: 100_000,
    t2: 100_000,
    t3: 100_000,
    t5: 800,
    t6: 100_000,
    t7: 100_000,
};

/// Timers of these lengths, and T5 of 800 octet times.
pub(crate) fn timers_of(t1: u32, t2: u32, t3: u32, t6: u32, t7: u32) -> Timers
    requires { (0 < t1) × (0 < t2) × (0 < t3) × (0 < t6) × (0 < t7) }
{
    Timers {
        t1,
        t2,
        t3,
        t5: 800,
        t6,
        t7,
    }
}

/// A terminal of link 0 of a new set, which is told to come up in an emergency.
pub(crate) fn started<L: Line + Drop>(
    alloc: Global,
    line: L,
    lengths: Timers,
) -> Option<Terminal<CoreDoor, L, OpenGate>> {
    match door_of(alloc) {
        Some(door) => Some(started_at(door, line, lengths)),
        None => None,
    }
}

/// A terminal at this door, which is told to come up in an emergency.
pub(crate) fn started_at<D: Door, L: Line>(
    door: D,
    line: L,
    lengths: Timers,
) -> Terminal<D, L, OpenGate>
    ensures { result.line ≡ line }
{
    let link = door.link();
    let mut terminal = Terminal::new(door, line, OpenGate, 0, link, lengths);
    terminal.command(Command::Emergency);
    terminal.command(Command::Start);
    terminal
}

/// Whether there is a value, of which this case holds. It owns the value for all tests: letting go of a set is dear to
/// prove, but not of a type parameter.
pub(crate) fn holds_of<T: Drop, F: FnOnce(&mut T) -> bool>(value: Option<T>, case: F) -> bool
    requires { F.IsAlwaysCallable case }
{
    match value {
        Some(mut value) => case(&mut value),
        None => false,
    }
}

/// What a look at a terminal's door and line tells. It owns them for all tests, as [`holds_of`] does its value.
pub(crate) fn looked_at<D, L, R, F>(terminal: Terminal<D, L, OpenGate>, look: F) -> R
where
    D: Door + Drop,
    L: Line + Drop,
    F: FnOnce(&D, &L) -> R,
    requires { F.IsAlwaysCallable look }
{
    let (door, line, _gate) = terminal.into_parts();
    look(&door, &line)
}

/// The octets of message `number` of stream 3: SIO, a label (Q.704 2.2), and the number, the high octet first.
pub(crate) fn message_of(number: u16) -> [u8; 7] {
    [
        0x85,
        1,
        0x80,
        0,
        0x30,
        (number / 256) as u8,
        (number % 256) as u8,
    ]
}

/// User 0 offers so many messages, which are accepted.
fn offer(alloc: Global, core: &mut SetCore, messages: u16) -> bool {
    for number in 0..messages {
        if !accepts(alloc, core, number) {
            return false;
        }
    }
    true
}

fn accepts(alloc: Global, core: &mut SetCore, number: u16) -> bool {
    match Body::from_slice(alloc, &message_of(number)) {
        Ok(body) => matches!(
            asked(core, &Event::Offer { body }),
            Some(Answer::Accepted { .. })
        ),
        Err(_) => false,
    }
}

/// What the set answers user 0. No answer: there was no memory.
pub(crate) fn asked(core: &mut SetCore, event: &Event) -> Option<Answer> {
    match core.apply(Actor::User(0), event) {
        Ok(answer) => Some(answer),
        Err(_) => None,
    }
}

/// What of a history is counted.
#[derive(Clone, Copy)]
enum Counted {
    AskedUp,
    Up,
    Down,
}

/// Whether this entry is counted.
fn is_counted(told: &EntryRef<'_>, what: Counted) -> bool {
    match (told.asked(), what) {
        (EventRef::Up { .. }, Counted::AskedUp) => true,
        (EventRef::Up { .. }, Counted::Up) => matches!(told.answer(), Answer::Done),
        (EventRef::Down { .. }, Counted::Down) => true,
        _ => false,
    }
}

/// How many of these entries are counted.
fn count_of(history: Reader<'_>, what: Counted) -> usize {
    let mut left = history;
    let mut found = 0usize;
    for _entry in 0..left.len() {
        if let Some(told) = left.next() {
            if is_counted(&told, what) {
                found = found.saturating_add(1);
            }
        }
    }
    found
}

/// How many of these entries are an Up.
pub(crate) fn asked_up(history: Reader<'_>) -> usize {
    count_of(history, Counted::AskedUp)
}

/// How many of these entries are an Up that was done.
pub(crate) fn ups(history: Reader<'_>) -> usize {
    count_of(history, Counted::Up)
}

/// How many of these entries are a Down.
pub(crate) fn downs(history: Reader<'_>) -> usize {
    count_of(history, Counted::Down)
}

/// Whether the history of a door's set is legal, by these settings.
pub(crate) fn is_legal_by(alloc: Global, config: &SetConfig, door: &CoreDoor) -> bool {
    audit_history(alloc, config, door.core.history()) == Ok(true)
}

/// The same by those of a set of one link.
pub(crate) fn is_legal(alloc: Global, door: &CoreDoor) -> bool {
    match config_of() {
        Some(config) => is_legal_by(alloc, &config, door),
        None => false,
    }
}
