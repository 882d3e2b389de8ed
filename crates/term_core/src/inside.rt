//! What a terminal holds, its readers, and the commands that wait in it.

ghost use Rattle.std.specs.Prelude.{◌≡◌, ◌<◌, ◌^◌, ◌||◌, false};
ghost use Rattle.l2_state.specs.Table.{is_paused};
ghost use Rattle.term_model.specs.Hearing.{is_deaf, is_held};
ghost use Rattle.term_model.specs.Terminal.{opened, told, no_commands};

use l2_align::{Align, State as AlignState};
use l2_bits::BitsLeft;
use l2_flow::Flow;
use l2_monitors::{Aerm, Suerm};
use l2_state::{LinkState, State};
use l2_units::{Cause, Header, Status};
use std::marker::Model;
use term_model::{Clocks, Command, Commands, Timers};

/// A header whose numbers have seven bits, as a terminal's line has them (Q.703 2.2).
#[derive(Clone, Copy)]
pub(crate) struct NarrowHead {
    pub(crate) head: Header,
    pub(crate) ghost bsn_in_range: { head.bsn < 2 ^ 7 },
    pub(crate) ghost fsn_in_range: { head.fsn < 2 ^ 7 },
}

/// The inside of a terminal: some 450 octets, made once.
#[derive(Drop)]
pub struct Inside {
    /// The number of its link at the set.
    pub(crate) link: u8,
    pub(crate) lengths: Timers,
    pub(crate) align: Align,
    pub(crate) state: LinkState,
    pub(crate) flow: Flow,
    /// The monitor of the proving that runs (Q.703 10.3).
    pub(crate) aerm: Option<Aerm>,
    /// The monitor since alignment was complete (Q.703 10.2).
    pub(crate) suerm: Option<Suerm>,
    pub(crate) clocks: Clocks,
    /// What alignment sends (Q.703 7.2).
    pub(crate) status: Status,
    pub(crate) commands: Commands,
    pub(crate) bits: BitsLeft,
    /// The header of the last unit appended, of any kind, in any life of the link.
    pub(crate) last: Option<NarrowHead>,
    /// SIB is to be sent (Q.703 9.3).
    pub(crate) b_due: bool,
    /// The set has answered Done to an Up, and the link didn't fail since.
    pub(crate) up: bool,
    /// Blind was commanded since that Up.
    pub(crate) blind: bool,
    /// The FSN of the last new message sent since that Up; 127 at Up (Q.703 5.2).
    pub(crate) top: u8,
    /// A message that was sent since that Up isn't acknowledged.
    pub(crate) unacked: bool,
    /// Why the link failed last.
    pub(crate) cause: Option<Cause>,
}

impl Model for Inside {
    ghost use Rattle.term_model.specs.Terminal.{Terminal};

    ghost Value = { Terminal };

    ghost use Rattle.std.specs.Option.{option_map};

    ghost view = { λ i. record {
      link = i.link;
      lengths = i.lengths;
      align = i.align;
      state = i.state.state;
      outage = i.state.out;
      flow = i.flow;
      aerm = i.aerm;
      suerm = i.suerm;
      clocks = i.clocks;
      status = i.status;
      commands = i.commands;
      bits = i.bits;
      last = option_map (λ narrow. narrow.head) i.last;
      b_due = i.b_due;
      up = i.up;
      blind = i.blind;
      top = i.top;
      unacked = i.unacked;
      cause = i.cause;
    } };
}

const NO_CLOCKS: Clocks = Clocks {
    t1: None,
    t2: None,
    t3: None,
    t4: None,
    t5: None,
    t6: None,
    t7: None,
};

impl Inside {
    /// A terminal of this link of its set, which is out of service, with timers of these lengths, in octet times. One
    /// flag is left to send.
    pub fn new(link: u8, lengths: Timers) -> Inside
        ensures { result ≡ opened link lengths }
    {
        Inside {
            link,
            lengths,
            align: Align::new(),
            state: LinkState::new(),
            flow: Flow::new(),
            aerm: None,
            suerm: None,
            clocks: NO_CLOCKS,
            status: Status::OutOfAlignment,
            commands: Commands::NONE,
            bits: BitsLeft::flag_bits(),
            last: None,
            b_due: false,
            up: false,
            blind: false,
            top: 127,
            unacked: false,
            cause: None,
        }
    }

    /// The number of its link at the set.
    pub fn link(&self) -> u8
        ensures { result ≡ self.now.link }
    {
        self.link
    }

    /// Where the link stands (Q.703 12).
    pub fn state_now(&self) -> State
        ensures { result ≡ self.now.state }
    {
        self.state.state()
    }

    /// Whether it's in service, and the far end has a processor outage (Q.703 8.2).
    #[inline(always)]
    pub fn is_paused(&self) -> bool
        ensures { result ≡ is_paused self.now.state }
    {
        match self.state.state() {
            State::InService { paused } => paused,
            State::OutOfService | State::Aligning | State::Ready => false,
        }
    }

    /// Whether this end has a processor outage (Q.703 8.1).
    #[inline(always)]
    pub fn is_out(&self) -> bool
        ensures { result ≡ self.now.outage }
    {
        self.state.is_out()
    }

    /// Whether an end has a processor outage, so that no acknowledgement passes (Q.703 8).
    #[inline(always)]
    pub fn is_held(&self) -> bool
        ensures { result ≡ is_held self.now }
    {
        self.is_out() || self.is_paused()
    }

    /// Whether this end has a processor outage on a link that is aligned, so that it hears no SIB (Q.703 8.1, own).
    pub fn is_deaf(&self) -> bool
        ensures { result ≡ is_deaf self.now.state self.now.outage }
    {
        match self.state.state() {
            State::OutOfService | State::Aligning => false,
            State::Ready | State::InService { .. } => self.is_out(),
        }
    }

    /// Where initial alignment stands (Q.703 7.3).
    pub fn alignment(&self) -> AlignState
        ensures { result ≡ self.now.align.state }
    {
        self.align.state()
    }

    /// The status that alignment sends (Q.703 7.2).
    pub fn status(&self) -> Status
        ensures { result ≡ self.now.status }
    {
        self.status
    }

    /// Whether the set has answered Done to an Up, and the link didn't fail since.
    pub fn is_up(&self) -> bool
        ensures { result ≡ self.now.up }
    {
        self.up
    }

    /// Whether Blind was commanded since that Up: the next failure is told as one after which no FSN can be given to
    /// the far end (Q.704 5.6).
    pub fn is_blind(&self) -> bool
        ensures { result ≡ self.now.blind }
    {
        self.blind
    }

    /// Whether SIB is to be sent (Q.703 9.3).
    pub fn is_b_due(&self) -> bool
        ensures { result ≡ self.now.b_due }
    {
        self.b_due
    }

    /// The FSN of the last new message sent since the link came up; 127 where there was none (Q.703 5.2).
    pub fn top(&self) -> u8
        ensures { result ≡ self.now.top }
    {
        self.top
    }

    /// Whether a message that was sent since the link came up isn't acknowledged.
    pub fn has_unacked(&self) -> bool
        ensures { result ≡ self.now.unacked }
    {
        self.unacked
    }

    /// Why the link failed last, if it did.
    pub fn cause(&self) -> Option<Cause>
        ensures { result ≡ self.now.cause }
    {
        self.cause
    }

    /// One more command waits for the next turn; it's no matter that it waited before.
    pub fn command(&mut self, command: Command)
        ensures { self.new ≡ told command self.old }
    {
        match command {
            Command::Emergency => self.commands.emergency = true,
            Command::Calm => self.commands.calm = true,
            Command::Start => self.commands.start = true,
            Command::Busy => self.commands.busy = true,
            Command::Ease => self.commands.ease = true,
            Command::Blind => self.commands.blind = true,
            Command::Outage => self.commands.outage = true,
            Command::Recover => self.commands.recover = true,
            Command::Stop => self.commands.stop = true,
        }
    }

    /// The commands that waited; none does then.
    #[inline(always)]
    pub fn take_commands(&mut self) -> Commands
        ensures commands { result ≡ self.old.commands }
        ensures taken { self.new ≡ record self.old { commands = no_commands } }
    {
        let commands = self.commands;
        self.commands = Commands::NONE;
        commands
    }

    /// Obeys the command Blind: of no effect where the link isn't up at the set.
    pub fn blind(&mut self)
        ensures { self.new ≡ record self.old { blind = self.old.blind || self.old.up } }
    {
        self.blind = self.blind || self.up;
    }
}
