//! The control: what is sent next, and what a heard unit does.
use l2_units::Header;
use l2_window::{Choice, ControlFault, HeardPart, Sending, Window};
use std::alloc::Allocator;
use std::marker::Model;

/// Preventive cyclic retransmission of one end, in one life of its link.
///
/// Contracts see the limits N1 and N2, the FSN last accepted, the place in the cycle, whether a
/// forced cycle goes on, and of the last two units whether their BSN was abnormal.
#[derive(Debug, Drop)]
pub struct Pcr {
    n1: u16,
    n2: u32,
    /// The FSN that is expected, below 4,096 (Q.703: FSNX); the number before it is the BSN of each unit sent.
    expected: u16,
    /// The place of the unacknowledged message that is due in the cycle.
    place: usize,
    /// A forced cycle goes on: nothing new is sent before its last message.
    forced: bool,
    /// Whether the last unit heard, and the one before it, had an abnormal BSN.
    bsns: (bool, bool),
}

impl Model for Pcr {
    ghost use Rattle.std.specs.Prelude.{◌<◌};
    ghost use Rattle.l2_pcr.specs.Pcr.{PcrState};

    ghost Value = { PcrState };

    ghost view = { λ p. record {
      n1 = p.n1;
      n2 = p.n2;
      expected = p.expected;
      place = p.place;
      forced = p.forced;
      bsns = p.bsns;
    } };

    ghost invariant = { λ p. p.expected < 4096 };
}

impl Pcr {
    ghost use Rattle.std.specs.Prelude.{◌≡◌, ◌+◌, ◌-◌, ◌%◌, ◌<◌, ◌&&◌, ◌==◌, true, nat_lt, length, if◌then◌else◌};
    ghost use Rattle.l2_units.specs.Grammar.{IsHeadOf};
    ghost use Rattle.l2_window.specs.Control.{fsn_of, bsn_of, fsn_after};
    ghost use Rattle.l2_pcr.specs.Pcr.{start, is_forced, cycle_place, round, is_second, IsNext, Hears};
    ghost use Rattle.l2_pcr.specs.Pcr.{choice_of, head_of, control_after, part_of, window_heard, control_heard};

    /// The same control again.
    pub fn copied(&self) -> Pcr
        ensures { result ≡ self.now }
    {
        Pcr {
            n1: self.n1,
            n2: self.n2,
            expected: self.expected,
            place: self.place,
            forced: self.forced,
            bsns: self.bsns,
        }
    }

    /// The control at the beginning of a link's life: FSN 127 counts as accepted.
    ///
    /// `n1` unacknowledged messages, or `n2` octets of their bodies, force a cycle (Q.703 6.4.2).
    pub fn new(n1: u16, n2: u32) -> Pcr
        ensures { result ≡ start n1 n2 }
    {
        Pcr {
            n1,
            n2,
            expected: 0,
            place: 0,
            forced: false,
            bsns: (false, false),
        }
    }

    /// The FSN that is expected, 0 at the beginning: that of the message after the one last accepted.
    pub fn expected(&self) -> u16
        ensures value { result ≡ self.now.expected }
        ensures in_range { result < 4096 }
    {
        self.expected
    }

    /// What is to be sent next, where the bodies of the unacknowledged messages have so many octets:
    /// in a forced cycle the unacknowledged message that is due; else the first unsent one where
    /// fewer than 127 are unacknowledged; else the unacknowledged one that is due; else a FISU.
    pub fn choice<A: Allocator + Copy>(&self, window: &Window<A>, octets: u32) -> Choice
        ensures { result ≡ choice_of octets self.now window.now }
    {
        if self.is_forced(window, octets) {
            let place = self.cycle_place(!self.forced, window);
            return Choice::Again { place };
        }
        if window.has_new() {
            return Choice::First;
        }
        if window.unacked_len() > 0 {
            let place = self.cycle_place(false, window);
            return Choice::Again { place };
        }
        Choice::Fill
    }

    /// Sends what is chosen of the window, which is the one before a message moves in it: the header
    /// of the unit.
    pub fn send<A: Allocator + Copy>(
        &mut self,
        choice: Choice,
        window: &Window<A>,
        octets: u32,
    ) -> Header
        requires { choice ≡ choice_of octets self.old window.now }
        ensures header { result ≡ head_of self.old window.now (fsn_of choice window.now) }
        ensures bsn { result.bsn ≡ bsn_of self.old.expected window.now }
        ensures state { self.new ≡ control_after choice octets self.old window.now }
    {
        let messages = window.unacked_len();
        if let Choice::Again { place } = choice {
            let more = place + 1 < messages;
            self.forced = self.is_forced(window, octets) && more;
            self.place = if more { place + 1 } else { 0 };
        }
        Header {
            bsn: window.number_before(self.expected),
            bib: true,
            fsn: choice.fsn(window),
            fib: true,
        }
    }

    /// What is sent next, where the bodies of the unacknowledged messages have so many octets: in a
    /// forced cycle the unacknowledged message that is due; else the first unsent one where fewer
    /// than 127 are unacknowledged; else the unacknowledged one that is due; else a FISU.
    pub fn next<A: Allocator + Copy>(&mut self, window: &mut Window<A>, octets: u32) -> Sending
        ensures { IsNext octets self.old self.new window.old window.new result }
    {
        let choice = self.choice(window, octets);
        let head = self.send(choice, window, octets);
        match choice {
            Choice::Again { place } => match window.unacked_at(place) {
                Some(number) => Sending::Message { number, head },
                None => unreachable!(),
            },
            Choice::First => Sending::Message {
                number: window.send_new(),
                head,
            },
            Choice::Fill => Sending::Fill { head },
        }
    }

    /// Whether a forced cycle goes on, or starts with the next unit (Q.703 6.4.1).
    fn is_forced<A: Allocator + Copy>(&self, window: &Window<A>, octets: u32) -> bool
        ensures value { result ≡ is_forced self.now window.now octets }
        ensures something { result ≡ true → 0 < length window.now.unacked }
    {
        let messages = window.unacked_len();
        messages > 0 && (self.forced || messages >= usize::from(self.n1) || octets >= self.n2)
    }

    /// The place of the message that is due in the cycle, which starts or goes on.
    fn cycle_place<A: Allocator + Copy>(&self, starts: bool, window: &Window<A>) -> usize
        requires { 0 < length window.now.unacked }
        ensures value { result ≡ cycle_place starts self.now window.now }
        ensures within { result < length window.now.unacked }
    {
        if starts || self.place >= window.unacked_len() {
            return 0;
        }
        self.place
    }

    /// What a heard unit with this header means; `is_msu` tells an MSU from a FISU. Its indicator
    /// bits aren't looked at, and it never asks for retransmission. So many of the window's messages
    /// as the answer says are then acknowledged, up to the BSN; with none the window stays.
    ///
    /// A unit with an abnormal BSN does nothing, but the second within three units is told as a
    /// fault.
    pub fn hear<A: Allocator + Copy>(
        &mut self,
        window: &Window<A>,
        head: Header,
        is_msu: bool,
    ) -> HeardPart
        requires { IsHeadOf window.now.profile head }
        ensures part { result ≡ part_of self.old window.now head is_msu }
        ensures state { self.new ≡ control_heard self.old window.now head is_msu }
        ensures nothing { result.acked ≡ 0 → window_heard window.now head ≡ window.now }
    {
        let distance = window.distance(head.bsn);
        let fault = self.told(distance.is_none());
        let Some(acked) = distance else {
            return HeardPart {
                acked: 0,
                accept: false,
                asked: false,
                resend: false,
                fault,
            };
        };
        self.step_back(acked, window.unacked_len() - usize::from(acked));
        let accept = self.take(window, head, is_msu);
        HeardPart {
            acked,
            accept,
            asked: false,
            resend: false,
            fault,
        }
    }

    /// What a heard unit with this header does; `is_msu` tells an MSU from a FISU.
    ///
    /// A unit with an abnormal BSN does nothing, but the second within three units is told as a
    /// fault.
    pub fn heard<A: Allocator + Copy>(
        &mut self,
        window: &mut Window<A>,
        head: Header,
        is_msu: bool,
    ) -> HeardPart
        requires { IsHeadOf window.old.profile head }
        ensures { Hears head is_msu self.old self.new window.old window.new result }
    {
        let part = self.hear(window, head, is_msu);
        if part.acked > 0 {
            match window.ack(head.bsn) {
                Ok(_) => {}
                Err(_) => unreachable!(),
            }
        }
        part
    }

    /// Remembers whether the unit's BSN is abnormal. The second abnormal one in three consecutive
    /// units is a fault (Q.703 5.3.1).
    fn told(&mut self, abnormal: bool) -> Option<ControlFault>
        ensures fault { result ≡ (if is_second abnormal self.old.bsns then Some ControlFault.Bsn else None) }
        ensures state { self.new ≡ record self.old { bsns = (abnormal, self.old.bsns.0) } }
    {
        let second = abnormal && (self.bsns.0 || self.bsns.1);
        self.bsns = (abnormal, self.bsns.0);
        second.then_some(ControlFault::Bsn)
    }

    /// Keeps the cycle at the message that was due after so many left, and `messages` are left.
    fn step_back(&mut self, acked: u16, messages: usize)
        ensures { self.new ≡ record self.old {
          place = round messages (self.old.place - acked);
          forced = self.old.forced && nat_lt (self.old.place - acked) messages;
        } }
    {
        self.place = self.place.saturating_sub(usize::from(acked));
        if self.place >= messages {
            self.place = 0;
            self.forced = false;
        }
    }

    /// Signal unit sequence control (Q.703 6.2.2): whether the unit is accepted.
    fn take<A: Allocator + Copy>(&mut self, window: &Window<A>, head: Header, is_msu: bool) -> bool
        requires { IsHeadOf window.now.profile head }
        ensures accept { result ≡ (is_msu && (head.fsn == self.old.expected)) }
        ensures state { self.new
            ≡ record self.old { expected = (if result then fsn_after head.fsn window.now else self.old.expected) } }
    {
        let accept = is_msu && head.fsn == self.expected;
        if accept {
            self.expected = window.number_after(head.fsn);
        }
        accept
    }
}
