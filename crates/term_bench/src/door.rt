//! The door of a bench's set.
ghost use Rattle.std.specs.Prelude.{◌≡◌, ◌<◌, ◌≤◌, ◌+◌, ◌↔◌, false, length, if◌then◌else◌, IfOk, IfErr, OnOk, OnErr};
ghost use Rattle.term_bench.specs.Late.{AreLate, brings_order, is_order};
ghost use Rattle.term_bench.specs.Turns.{brings_message, is_message};
ghost use Rattle.set_events.specs.Lent.{answer_in};
ghost use Rattle.set_events.specs.declared.fault.SetFault.TheVariants.{Exhausted, NoMemory};
ghost use Rattle.set_model.specs.History.{IsActor, IsStep, based, entries_in, longest_history};

use link_term::{Door, Faults};
use set_core::SetCore;
use set_events::{Actor, Answer, AnswerRef, Event, EventRef, Reply, SetFault, Took};

/// The set, and its door for the terminal of the link whose turn it is.
#[derive(Drop)]
pub(crate) struct SetDoor {
    set: SetCore,
    link: u8,
    /// The messages for users that were heard through it in this turn.
    heard: u64,
    faults: Faults,
    /// How many changeover orders the set had heard late about each link, as they were last counted.
    late: [u32; 16],
    /// Whether the set may have heard one since.
    ordered: bool,
    ghost in_range: { link < 16 },
    ghost few: { heard ≤ length set.history },
    ghost counted: { ordered ≡ false → AreLate set.state late },
}

impl SetDoor {
    /// The door of this set.
    pub(crate) fn new(set: SetCore) -> SetDoor
        ensures { result.set ≡ set }
    {
        let late = late_orders(&set);
        SetDoor {
            set,
            link: 0,
            heard: 0,
            faults: Faults::new(),
            late,
            ordered: false,
        }
    }

    /// The terminal of this link has the next turn: it hasn't heard a message yet, and the late orders are counted.
    pub(crate) fn turn_to(&mut self, link: u8)
        requires { link < 16 }
        ensures link { self.new.link ≡ link }
        ensures heard { self.new.heard ≡ 0 }
        ensures set { self.new.set ≡ self.old.set }
        ensures late { AreLate self.new.set.state self.new.late }
    {
        self.link = link;
        self.heard = 0;
        if self.ordered {
            self.late = late_orders(&self.set);
            self.ordered = false;
        }
    }

    /// What the set answers to an event that isn't of a turn.
    pub(crate) fn ask(&mut self, who: Actor, event: &Event) -> Result<Answer, SetFault>
        requires { IsActor who }
        ensures ok { IfOk result (λ answer. IsStep self.old.set who event.now answer self.new.set) }
        ensures exhausted { (result ≡ Err Exhausted) ↔ (longest_history ≤ entries_in self.old.set) }
        ensures err { OnErr result (self.new.set ≡ self.old.set) }
    {
        self.heard = 0;
        self.ordered = true;
        self.set.apply(who, event)
    }

    /// A checkpoint of the set.
    pub(crate) fn checkpoint(&mut self) -> Result<(), SetFault>
        ensures ok { OnOk result (self.new.set ≡ based self.old.set) }
        ensures err { OnErr result (self.new.set ≡ self.old.set) }
        ensures fault { IfErr result (λ fault. fault ≡ NoMemory) }
    {
        self.heard = 0;
        self.set.checkpoint()
    }

    /// The set.
    pub(crate) fn set(&self) -> &SetCore
        ensures { result.now ≡ self.now.set }
    {
        &self.set
    }

    /// How many messages for users were heard through it in this turn.
    pub(crate) fn heard(&self) -> u64
        ensures { result ≡ self.now.heard }
    {
        self.heard
    }

    /// How many changeover orders the set had heard late about each link before this turn.
    pub(crate) fn late(&self) -> &[u32; 16]
        ensures { result.now ≡ self.now.late }
    {
        &self.late
    }

    /// Whether the set may have heard one in this turn.
    pub(crate) fn is_ordered(&self) -> bool
        ensures { result ≡ false → AreLate self.now.set.state self.now.late }
    {
        self.ordered
    }
}

/// How many changeover orders the set heard late about each link.
fn late_orders(set: &SetCore) -> [u32; 16]
    ensures { AreLate set.now.state result }
{
    let mut counts = [0; 16];
    for link in 0..16u8 {
        counts[usize::from(link)] = set.late(link);
    }
    counts
}

/// How many messages for users this answer tells of: one, or none.
fn messages_in(answer: &AnswerRef<'_>) -> u64
    ensures value { result ≡ (if brings_message (answer_in answer.now) then 1 else 0) }
    ensures few { result ≤ 1 }
{
    match answer {
        AnswerRef::Heard { report } => messages_by(report.took),
        _ => 0,
    }
}

fn messages_by(took: Took) -> u64
    ensures value { result ≡ (if is_message took then 1 else 0) }
    ensures few { result ≤ 1 }
{
    match took {
        Took::Message => 1,
        Took::Nothing | Took::Order | Took::Ignored => 0,
    }
}

/// Whether this answer tells of an order.
fn tells_order(answer: &AnswerRef<'_>) -> bool
    ensures { result ≡ brings_order (answer_in answer.now) }
{
    match answer {
        AnswerRef::Heard { report } => is_order(report.took),
        _ => false,
    }
}

fn is_order(took: Took) -> bool
    ensures { result ≡ is_order took }
{
    match took {
        Took::Order => true,
        Took::Nothing | Took::Message | Took::Ignored => false,
    }
}

impl Door for SetDoor {
    ghost use Rattle.term_bench.specs.Going.{GoesOn, stands_still, goes_further};

    ghost number = { λ door. door.link };

    ghost made = { λ door. door.set.history };

    ghost faults = { λ door. door.faults };

    ghost is_same = { λ a b. GoesOn a.link b.link a.set b.set a.heard b.heard a.faults b.faults a.late b.late };

    ghost same_self = { λ door. stands_still door.link door.set door.heard door.faults door.late };

    ghost same_on = { λ first second third a b. goes_further first.link second.link third.link first.set
        second.set third.set first.heard second.heard third.heard first.faults second.faults third.faults
        first.late second.late third.late a b };

    fn link(&self) -> u8 {
        self.link
    }

    fn step(&mut self, event: &EventRef<'_>, reply: &mut Reply) -> Result<(), SetFault> {
        match self
            .set
            .apply_into(Actor::Terminal(self.link), event, reply)
        {
            Ok(()) => {
                self.set.replays();
                let answer = reply.get();
                self.heard += messages_in(&answer);
                if tells_order(&answer) {
                    self.ordered = true;
                }
                Ok(())
            }
            Err(fault) => {
                self.faults.note(fault);
                Err(fault)
            }
        }
    }
}
