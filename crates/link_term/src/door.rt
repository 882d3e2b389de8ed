//! What a terminal asks of its link's set, and where tests may step in.
ghost use Rattle.std.specs.Prelude.{◌≡◌, [], ◌∷◌, ◌++◌, IfErr, OnOk};
ghost use Rattle.set_events.specs.Lent.{HasFitUnit, event_in};
ghost use Rattle.set_events.specs.Owners.{IsOwn};
ghost use Rattle.set_events.specs.declared.event.Actor.TheVariants.{Terminal};

use set_events::{EventRef, Reply, SetFault};

/// The door of a link's set, for the terminal of that link.
pub trait Door {
    ghost use Rattle.std.specs.Prelude.{ℕ, List};
    ghost use Rattle.set_events.specs.declared.history.Entry.{Entry};
    ghost use Rattle.set_events.specs.declared.fault.SetFault.{SetFault};

    /// The number of its link. It never changes.
    ghost number: { Self → ℕ };

    /// Each entry that was made through it, oldest first.
    ghost made: { Self → List Entry };

    /// Each fault that it answered, oldest first.
    ghost faults: { Self → List SetFault };

    /// The second is the same door of the same set as the first.
    ghost is_same: { Self → Self → Type 0 };

    /// The number of its link.
    fn link(&self) -> u8
        ensures { result ≡ number self.now };

    /// One step of the link's terminal at the set: what the set answers is put into the reply. The event is one of that
    /// terminal: Next, Heard, Up, Down, DownBlind, NoAnswer, Timed, Restore or BackTimeout, on its own link; a heard unit has a
    /// body of at most 273 octets.
    ///
    /// Faults: 2 [`SetFault::Exhausted`], 1 [`SetFault::NoMemory`]. No entry was made then, and the reply says nothing.
    fn step(&mut self, event: &EventRef<'_>, reply: &mut Reply) -> Result<(), SetFault>
        requires own { IsOwn (Terminal (number self.old)) (event_in event.now) }
        requires fits { HasFitUnit event.now }
        ensures ok { OnOk result ((made self.new ≡ made self.old
            ++ record { who = Terminal (number self.old); event = event_in event.now; answer = reply.new } ∷ [])
            × (faults self.new ≡ faults self.old)) }
        ensures err { IfErr result (λ fault. (made self.new ≡ made self.old)
            × (faults self.new ≡ faults self.old ++ fault ∷ [])) }
        ensures number { number self.new ≡ number self.old }
        ensures same { is_same self.old self.new };

    ghost same_self: { (door : Self) → is_same door door };

    ghost same_on: { (first second third : Self) → is_same first second → is_same second third → is_same first third };
}

/// Where the threads of sets pass, by the numbers of a set, a link and a user: a test may hold them up there, so as to
/// show that they run side by side. Nothing is asked of it.
pub trait Gate {
    /// A terminal begins a turn.
    fn outside(&self, set: u16, link: u8);

    /// A terminal has its set's lock, and steps.
    fn inside(&self, set: u16, link: u8);

    /// A user is about to call.
    fn user(&self, set: u16, user: u16);
}

/// The gate that stands open: nobody is held up.
#[derive(Clone, Copy, Debug, Drop, PartialEq, Eq)]
pub struct OpenGate;

impl Gate for OpenGate {
    fn outside(&self, _set: u16, _link: u8) {}

    fn inside(&self, _set: u16, _link: u8) {}

    fn user(&self, _set: u16, _user: u16) {}
}
