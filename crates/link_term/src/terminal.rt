//! A terminal with its door, its line and its gate.
ghost use Rattle.std.specs.Prelude.{◌≡◌, ◌^◌, ◌≤◌, [], false};
ghost use Rattle.link_term.specs.Running.{Runs, RunFails};
ghost use Rattle.link_term.specs.Taking.{TakesTurns};
ghost use Rattle.link_term.specs.Turning.{TurnsOnce, TurnFails};
ghost use Rattle.term_model.specs.Terminal.{opened, told};

use super::counts::Turned;
use super::door::{Door, Gate};
use super::fault::TermFault;
use super::works::Works;
use line_ring::Line;
use std::marker::Model;
use term_model::{Command, TermReport, Timers};

/// A signalling terminal of one link (Q.703 7 to 12): its works, the door of the link's set, one end of a line, and a
/// gate. It takes no memory; a turn waits only where the door does. Contracts see its door and its line, its inside, the
/// octets that it took, and whether a turn was broken off.
#[derive(Drop)]
pub struct Terminal<D: Door, L: Line, G: Gate> {
    door: D,
    line: L,
    gate: G,
    /// The number of its set, which is told to the gate alone.
    set: u16,
    works: Works,
}

impl<D: Door, L: Line, G: Gate> Model for Terminal<D, L, G> {
    ghost use Rattle.std.specs.Prelude.{◌≡◌};
    ghost use Rattle.link_term.specs.Standing.{TerminalState, lent};

    ghost Value = { TerminalState D L };

    ghost view = { λ t. lent t.works t.door t.line };

    ghost invariant = { λ t. D.number t.door ≡ t.works.inside.link };
}

impl<D: Door, L: Line, G: Gate> Terminal<D, L, G> {
    /// A terminal of the door's link, which is out of service, with timers of these lengths, in octet times. No octet
    /// was taken from the line by it, and one flag is left to send.
    pub fn new(door: D, line: L, gate: G, set: u16, link: u8, lengths: Timers) -> Terminal<D, L, G>
        requires { D.number door ≡ link }
        ensures door { result.door ≡ door }
        ensures line { result.line ≡ line }
        ensures inside { result.inside ≡ opened link lengths }
        ensures taken { result.taken ≡ [] }
        ensures failed { result.failed ≡ false }
    {
        Terminal {
            door,
            line,
            gate,
            set,
            works: Works::new(link, lengths),
        }
    }

    /// A command, which is obeyed in the next turn; it's no matter that it was given before.
    pub fn command(&mut self, command: Command)
        ensures { self.new ≡ record self.old { inside = told command self.old.inside } }
    {
        self.works.command(command);
    }

    /// One turn, an octet time: commands, one octet in, marks, timers, what is sent next, one octet out. Tells what it did.
    ///
    /// Faults, where the door answered so: 1 [`TermFault::NoMemory`], 3 [`TermFault::Exhausted`]; 4 [`TermFault::Profile`]
    /// where it gave a unit that has a number of more than seven bits, whose entry stays with the door. The turn was broken off
    /// there, and nothing was put. After one, 2 [`TermFault::Failed`], and nothing is done.
    pub fn turn(&mut self) -> Result<Turned, TermFault>
        ensures turns { TakesTurns D.Door L.Line TurnsOnce TurnFails self.old result self.new }
    {
        if !self.works.has_failed() {
            self.gate.outside(self.set, self.works.link());
        }
        self.works.turn(&mut self.door, &mut self.line)
    }

    /// So many turns, one after another, at most 2^32: [`Works::run`].
    ///
    /// Faults as of [`Terminal::turn`]: the turns before the one that was broken off went whole, and it's the last.
    pub fn run(&mut self, turns: u64) -> Result<TermReport, TermFault>
        requires { turns ≤ 2 ^ 32 }
        ensures runs { TakesTurns D.Door L.Line (Runs turns) (λ fault before after. RunFails fault turns before after)
            self.old result self.new }
    {
        self.works.run(&mut self.door, &mut self.line, &self.gate, self.set, turns)
    }

    /// The door, the line and the gate, with all that passed them.
    pub fn into_parts(self) -> (D, L, G)
        ensures door { result.0 ≡ self.door }
        ensures line { result.1 ≡ self.line }
    {
        (self.door, self.line, self.gate)
    }
}
