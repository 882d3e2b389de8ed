//! Who manages the links of sets, and holds their users up.
ghost use Rattle.std.specs.Prelude.{◌≡◌, false};

use super::assignment::Assignment;
use link_term::{Gate, OpenGate};
use set_events::{AnswerRef, Counts, EventRef};

/// What a link's terminal is told before its next turns.
#[derive(Clone, Copy, Debug, PartialEq, Eq)]
pub enum Instruction {
    /// Nothing.
    Run,
    /// To come up in an emergency, if it's out of service and its set has settled it.
    Start,
    /// To go out of service.
    Stop,
    /// That it takes no more turns.
    End,
}

/// What the terminal of a link sees of its set before a slice of turns.
#[derive(Clone, Copy, Debug, PartialEq, Eq)]
pub struct Sight {
    /// How many messages of users stand in each place.
    pub counts: Counts,
    /// The link is settled, as one is that never was up: it may be started (Q.704 5).
    pub settled: bool,
    /// A changeover order about the link came late, since the terminal looked last: the far end has left a life to which this
    /// end may be coming up, so the terminal is stopped, unless it's out of service (own).
    pub late: bool,
}

/// Who manages the links of sets (Q.704 12), and holds their users up, where a plan has its links managed. It's told what
/// happens, and asked what is to be done. A user calls once it's held up no more; of all else that it answers nothing is
/// promised, so what comes of it is shown by tests.
pub trait LinkManager: Gate {
    ghost use Rattle.std.specs.Prelude.{◌≡◌, ℕ, false};

    /// This user of this set was held up no more.
    ghost lets: { Self → ℕ → ℕ → Type 0 };

    /// Whether this user is to wait yet, before a call that was told to [`Gate::user`].
    fn holds_up(&self, set: u16, user: u16) -> bool
        ensures { result ≡ false → lets self.now set user };

    /// The set gave this answer to the terminal of this link.
    fn answered(&self, set: u16, link: u8, event: &EventRef<'_>, answer: &AnswerRef<'_>);

    /// What the terminal of this link is told now, when it sees this. It isn't told so where it's stopped for an order that
    /// came late.
    fn instruct(&self, set: u16, link: u8, sight: &Sight) -> Instruction;

    /// The terminal of this link takes no more turns.
    fn ended(&self, set: u16, link: u8);
}

/// Nobody is held up, and each link runs on.
impl LinkManager for OpenGate {
    ghost lets = { λ gate set user. Unit {0} };

    fn holds_up(&self, _set: u16, _user: u16) -> bool {
        false
    }

    fn answered(&self, _set: u16, _link: u8, _event: &EventRef<'_>, _answer: &AnswerRef<'_>) {}

    fn instruct(&self, _set: u16, _link: u8, _sight: &Sight) -> Instruction {
        Instruction::Run
    }

    fn ended(&self, _set: u16, _link: u8) {}
}

/// Who manages the links of one set. What it may answer stands for what it did, so that its word is kept.
pub(crate) trait SetManager {
    ghost use Rattle.std.specs.Prelude.{ℕ};
    ghost use Rattle.bank_crew.specs.declared.manager.Instruction.{Instruction};

    /// The terminal of this link may be instructed so, when so many turns are left.
    ghost may: { Self → ℕ → ℕ → Instruction → Type 0 };

    /// This user may be held up no more.
    ghost lets: { Self → ℕ → Type 0 };

    /// What the terminal of this link is told now, when so many turns are left.
    fn instruct(&self, link: u8, left: u64, sight: &Sight) -> Instruction
        ensures { may self.now link left result };

    /// Whether this user is to wait yet.
    fn holds_up(&self, user: u16) -> bool
        ensures { result ≡ false → lets self.now user };
}

impl<G: LinkManager> SetManager for Assignment<G> {
    ghost use Rattle.bank_crew.specs.Shifts.{MayBe};

    ghost may = { λ assignment link left instruction. MayBe assignment.plan link left instruction };

    ghost lets = { λ assignment user. G.lets assignment.gate assignment.set user };

    fn instruct(&self, link: u8, left: u64, sight: &Sight) -> Instruction {
        if self.plan.managed.is_some() {
            self.gate.instruct(self.set, link, sight)
        } else if self.plan.stop_of(link) == Some(left) {
            Instruction::Stop
        } else {
            Instruction::Run
        }
    }

    fn holds_up(&self, user: u16) -> bool {
        self.gate.holds_up(self.set, user)
    }
}
