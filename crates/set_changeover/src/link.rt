//! What a set keeps of one of its links beside the queues of its messages.
ghost use Rattle.std.specs.Prelude.{◌≡◌, ◌<◌, ◌^◌};
ghost use Rattle.l3_orders.specs.Grammar.{IsOrder};
ghost use Rattle.set_model.specs.Changeover.{answered_link, reply_of};
ghost use Rattle.l2_window.specs.Window.{fsn_count};
ghost use Rattle.set_model.specs.State.{LinkState, new_link, open_link, last_accepted};
ghost use Rattle.set_model.specs.Step.{opened_link, risen_link};

use super::control::Control;
use l2_units::Profile;
use l3_orders::Order;
use set_events::Method;
use set_model::Phase;
use std::marker::Model;

/// A link in its present life, or its last one.
#[derive(Drop)]
pub struct Link {
    /// Where it stands in its life.
    pub phase: Phase,
    /// In that life it was tested, or needs no test.
    pub tested: bool,
    /// How many numbers its messages have.
    pub profile: Profile,
    /// The last life ended as an emergency: the FSN last accepted wasn't known.
    pub blind: bool,
    /// How that life ended was told: an order settled the link, or a late one was answered.
    pub answered: bool,
    /// How many of its messages were acknowledged since its last Up.
    pub acked: u64,
    /// How many of the far end's bodies were accepted since its last Up.
    pub accepted: u64,
    /// Its error control.
    pub control: Control,
    /// How many changeover orders about it were heard while it was settled, in all its lives, modulo 2^32.
    pub late: u32,
    /// The number of the order that was queued when it was left last.
    pub order: u64,
}

impl Model for Link {
    ghost Value = { LinkState };

    ghost view = { λ l. record {
      phase = l.phase;
      tested = l.tested;
      profile = l.profile;
      blind = l.blind;
      answered = l.answered;
      acked = l.acked;
      accepted = l.accepted;
      control = l.control;
      late = l.late;
      order = l.order;
    } };
}

impl Link {
    /// A link that never was up.
    pub fn new(profile: Profile, method: Method) -> Link
        ensures { result ≡ new_link profile method }
    {
        Link {
            phase: Phase::Settled,
            tested: false,
            profile,
            blind: false,
            answered: false,
            acked: 0,
            accepted: 0,
            control: Control::new(method),
            late: 0,
            order: 0,
        }
    }

    /// The same link again.
    pub fn copied(&self) -> Link
        ensures { result ≡ self.now }
    {
        Link {
            phase: self.phase,
            tested: self.tested,
            profile: self.profile,
            blind: self.blind,
            answered: self.answered,
            acked: self.acked,
            accepted: self.accepted,
            control: self.control.copied(),
            late: self.late,
            order: self.order,
        }
    }

    /// The link is in service from now on, but isn't open yet; its error control starts anew.
    pub fn rise(&mut self, profile: Profile, method: Method)
        ensures { self.new ≡ risen_link profile method self.old.late }
    {
        self.phase = Phase::Up;
        self.tested = false;
        self.profile = profile;
        self.blind = false;
        self.answered = false;
        self.acked = 0;
        self.accepted = 0;
        self.order = 0;
        self.control = Control::new(method);
    }

    /// It is tested, or needs no test, so it's open for messages while it's in service.
    pub fn pass_test(&mut self)
        ensures { self.new ≡ opened_link self.old }
    {
        self.tested = true;
    }

    /// Whether it's open for messages: in service, and tested.
    pub fn is_open(&self) -> bool
        ensures { result ≡ open_link self.now }
    {
        match self.phase {
            Phase::Up => self.tested,
            Phase::Down | Phase::Settled => false,
        }
    }

    /// The FSN last accepted in its present life, or its last one; 127 (wide: 4,095) if it had none.
    pub fn last_accepted(&self) -> u16
        requires { self.now.accepted < 2 ^ 63 }
        ensures value { result ≡ last_accepted self.now }
        ensures few { result < fsn_count self.now.profile }
    {
        match self.profile {
            Profile::Narrow => ((self.accepted + 127) % 128) as u16,
            Profile::Wide => ((self.accepted + 4095) % 4096) as u16,
        }
    }

    /// A late changeover order was answered: it counts.
    pub(crate) fn answer_late(&mut self)
        ensures { self.new ≡ answered_link self.old }
    {
        self.answered = true;
        self.late = self.late.wrapping_add(1);
    }

    /// How a late changeover order is answered once the link settled (own): as its last life would have been, or, where
    /// the end of that was told, with FSN 127 (wide: 4,095), as of a life in which nothing was accepted.
    pub(crate) fn reply(&self, number: u8) -> Order
        requires number { number < 16 }
        requires counted { self.now.accepted < 2 ^ 63 }
        ensures order { result ≡ reply_of number self.now }
        ensures fits { IsOrder self.now.profile result }
    {
        if self.answered {
            let none = self.profile.most_unacked();
            return Order::Coa {
                link: number,
                number: none,
            };
        }
        if self.blind {
            return Order::Eca { link: number };
        }
        Order::Coa {
            link: number,
            number: self.last_accepted(),
        }
    }
}
