//! The control: what is sent next, and what a heard unit does.
use l2_units::Header;
use l2_window::{Choice, ControlFault, HeardPart, Sending, Window};
use std::alloc::Allocator;
use std::marker::Model;

/// Basic error control of one end, in one life of its link.
///
/// Contracts see the FSN last accepted, the indicator bits sent, whether a retransmission was asked
/// for, the cursor, and of the last two units whether their BSN or FIB was abnormal.
#[derive(Debug, Drop)]
pub struct Basic {
    /// The FSN that is expected, below 4,096 (Q.703: FSNX); the number before it is the BSN of each unit sent.
    expected: u16,
    bib: bool,
    fib: bool,
    /// No unit came whose FIB is the BIB since a retransmission was asked for.
    asked: bool,
    /// The place of the unacknowledged message that is due; all before it need no sending now.
    cursor: usize,
    /// Whether the last unit heard, and the one before it, had an abnormal BSN; `fibs` likewise.
    bsns: (bool, bool),
    fibs: (bool, bool),
}

impl Model for Basic {
    ghost use Rattle.std.specs.Prelude.{◌<◌};
    ghost use Rattle.l2_basic.specs.Basic.{BasicState};

    ghost Value = { BasicState };

    ghost view = { λ b. record {
      expected = b.expected;
      bib = b.bib;
      fib = b.fib;
      asked = b.asked;
      cursor = b.cursor;
      bsns = b.bsns;
      fibs = b.fibs;
    } };

    ghost invariant = { λ b. b.expected < 4096 };
}

impl Basic {
    ghost use Rattle.std.specs.Prelude.{◌≡◌, ◌-◌, ◌<◌, ◌&&◌, not, if◌then◌else◌};
    ghost use Rattle.l2_units.specs.Grammar.{IsHeadOf};
    ghost use Rattle.l2_window.specs.Control.{fsn_of, bsn_of, fsn_after};
    ghost use Rattle.l2_basic.specs.Basic.{start, same, told_fault, is_repeated, is_successor, IsNext, Hears};
    ghost use Rattle.l2_basic.specs.Basic.{choice_of, head_of, control_after, part_of, window_heard, control_heard};

    /// The same control again.
    pub fn copied(&self) -> Basic
        ensures { result ≡ self.now }
    {
        Basic {
            expected: self.expected,
            bib: self.bib,
            fib: self.fib,
            asked: self.asked,
            cursor: self.cursor,
            bsns: self.bsns,
            fibs: self.fibs,
        }
    }

    /// The control at the beginning of a link's life, in either profile: FSN 0 is expected, both indicator
    /// bits are 1 (Q.703 5.2.1).
    pub fn new() -> Basic
        ensures { result ≡ start }
    {
        Basic {
            expected: 0,
            bib: true,
            fib: true,
            asked: false,
            cursor: 0,
            bsns: (false, false),
            fibs: (false, false),
        }
    }

    /// The FSN that is expected, 0 at the beginning: that of the message after the one last accepted.
    pub fn expected(&self) -> u16
        ensures value { result ≡ self.now.expected }
        ensures in_range { result < 4096 }
    {
        self.expected
    }

    /// What is to be sent next: a message that waits for retransmission, else the first unsent one
    /// where fewer than 127 are unacknowledged, else a FISU.
    pub fn choice<A: Allocator + Copy>(&self, window: &Window<A>) -> Choice
        ensures { result ≡ choice_of self.now window.now }
    {
        if self.cursor < window.unacked_len() {
            return Choice::Again { place: self.cursor };
        }
        if window.has_new() {
            return Choice::First;
        }
        Choice::Fill
    }

    /// Sends what is chosen of the window, which is the one before a message moves in it: the header
    /// of the unit.
    pub fn send<A: Allocator + Copy>(&mut self, choice: Choice, window: &Window<A>) -> Header
        requires { choice ≡ choice_of self.old window.now }
        ensures header { result ≡ head_of self.old window.now (fsn_of choice window.now) }
        ensures bsn { result.bsn ≡ bsn_of self.old.expected window.now }
        ensures state { self.new ≡ control_after choice self.old window.now }
    {
        let messages = window.unacked_len();
        match choice {
            Choice::Again { place } => self.cursor = place + 1,
            Choice::First => self.cursor = messages + 1,
            Choice::Fill => {}
        }
        Header {
            bsn: window.number_before(self.expected),
            bib: self.bib,
            fsn: choice.fsn(window),
            fib: self.fib,
        }
    }

    /// What is sent next: a message that waits for retransmission, else the first unsent one where
    /// fewer than 127 are unacknowledged, else a FISU.
    pub fn next<A: Allocator + Copy>(&mut self, window: &mut Window<A>) -> Sending
        ensures { IsNext self.old self.new window.old window.new result }
    {
        let choice = self.choice(window);
        let head = self.send(choice, window);
        match choice {
            Choice::Again { place } => match window.unacked_at(place) {
                Some(number) => Sending::Message { number, head },
                None => unreachable!(),
            },
            Choice::First => Sending::Message {
                number: window.send_new(),
                head,
            },
            Choice::Fill => Sending::Fill { head },
        }
    }

    /// What a heard unit with this header means; `is_msu` tells an MSU from a FISU. So many of the
    /// window's messages as the answer says are then acknowledged, up to the BSN; with none the
    /// window stays.
    ///
    /// A unit with an abnormal BSN or FIB does nothing, but the second within three units is told
    /// as a fault.
    pub fn hear<A: Allocator + Copy>(
        &mut self,
        window: &Window<A>,
        head: Header,
        is_msu: bool,
    ) -> HeardPart
        requires { IsHeadOf window.now.profile head }
        ensures part { result ≡ part_of self.old window.now head is_msu }
        ensures state { self.new ≡ control_heard self.old window.now head is_msu }
        ensures nothing { result.acked ≡ 0 → window_heard self.old window.now head ≡ window.now }
    {
        let distance = window.distance(head.bsn);
        let abnormal_fib = self.is_abnormal_fib(distance.is_none(), head);
        let fault = self.told(distance.is_none(), abnormal_fib);
        let Some(acked) = distance.filter(|_| !abnormal_fib) else {
            return HeardPart {
                acked: 0,
                accept: false,
                asked: false,
                resend: false,
                fault,
            };
        };
        let resend = self.answer(acked, head.bib);
        let (accept, asked) = self.take(window, head, is_msu);
        HeardPart {
            acked,
            accept,
            asked,
            resend,
            fault,
        }
    }

    /// What a heard unit with this header does; `is_msu` tells an MSU from a FISU.
    ///
    /// A unit with an abnormal BSN or FIB does nothing, but the second within three units is told
    /// as a fault.
    pub fn heard<A: Allocator + Copy>(
        &mut self,
        window: &mut Window<A>,
        head: Header,
        is_msu: bool,
    ) -> HeardPart
        requires { IsHeadOf window.old.profile head }
        ensures { Hears head is_msu self.old self.new window.old window.new result }
    {
        let part = self.hear(window, head, is_msu);
        if part.acked > 0 {
            match window.ack(head.bsn) {
                Ok(_) => {}
                Err(_) => unreachable!(),
            }
        }
        part
    }

    /// Whether the FIB, of a unit whose BSN is or isn't abnormal, begins a retransmission that
    /// nobody asked for (Q.703 5.3.2).
    fn is_abnormal_fib(&self, abnormal_bsn: bool, head: Header) -> bool
        ensures { result ≡ (not abnormal_bsn && (not (same head.fib self.now.bib) && not self.now.asked)) }
    {
        !abnormal_bsn && head.fib != self.bib && !self.asked
    }

    /// Remembers whether the unit's BSN or FIB is abnormal. The second abnormal one of a kind in
    /// three consecutive units is a fault (Q.703 5.3.1, 5.3.2).
    fn told(&mut self, abnormal_bsn: bool, abnormal_fib: bool) -> Option<ControlFault>
        ensures fault { result ≡ told_fault abnormal_bsn abnormal_fib self.old }
        ensures state { self.new ≡ record self.old {
          bsns = (abnormal_bsn, self.old.bsns.0);
          fibs = (abnormal_fib, self.old.fibs.0);
        } }
    {
        let second_bsn = abnormal_bsn && (self.bsns.0 || self.bsns.1);
        let second_fib = abnormal_fib && (self.fibs.0 || self.fibs.1);
        self.bsns = (abnormal_bsn, self.bsns.0);
        self.fibs = (abnormal_fib, self.fibs.0);
        if second_bsn {
            return Some(ControlFault::Bsn);
        }
        second_fib.then_some(ControlFault::Fib)
    }

    /// What so many acknowledged messages and the BIB heard mean for retransmission: whether one
    /// starts (Q.703 5.3.1, 5.3.2).
    fn answer(&mut self, acked: u16, bib: bool) -> bool
        ensures resend { result ≡ not (same bib self.old.fib) }
        ensures state { self.new ≡ record self.old {
          fib = (if result then bib else self.old.fib);
          cursor = (if result then 0 else self.old.cursor - acked);
        } }
    {
        if bib != self.fib {
            self.fib = bib;
            self.cursor = 0;
            return true;
        }
        self.cursor = self.cursor.saturating_sub(usize::from(acked));
        false
    }

    /// Signal unit sequence control (Q.703 5.2.2): whether the unit is accepted, and whether a
    /// retransmission is asked for.
    fn take<A: Allocator + Copy>(
        &mut self,
        window: &Window<A>,
        head: Header,
        is_msu: bool,
    ) -> (bool, bool)
        requires { IsHeadOf window.now.profile head }
        ensures accept { result.0 ≡ (same head.fib self.old.bib && (is_msu && is_successor self.old head)) }
        ensures asked { result.1 ≡ (same head.fib self.old.bib
            && (not (is_repeated self.old window.now head) && not (is_msu && is_successor self.old head))) }
        ensures state { self.new ≡ record self.old {
          expected = (if result.0 then fsn_after head.fsn window.now else self.old.expected);
          bib = (if result.1 then not self.old.bib else self.old.bib);
          asked = (if same head.fib self.old.bib then result.1 else self.old.asked);
        } }
    {
        // 5.2.2: sent before the far end heard what was asked of it.
        if head.fib != self.bib {
            return (false, false);
        }
        self.asked = false;
        if head.fsn == window.number_before(self.expected) {
            return (false, false);
        }
        if is_msu && head.fsn == self.expected {
            self.expected = window.number_after(head.fsn);
            return (true, false);
        }
        // 5.2.4: a negative acknowledgement.
        self.bib = !self.bib;
        self.asked = true;
        (false, true)
    }
}
