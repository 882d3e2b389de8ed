//! The error control of a link: one of the two methods.
ghost use Rattle.std.specs.Prelude.{◌≡◌};
ghost use Rattle.l2_units.specs.Grammar.{IsHeadOf};
ghost use Rattle.l2_window.specs.Control.{fsn_of};
ghost use Rattle.set_model.specs.Control.{Control as ModelControl, start_of, choice_of, head_of, control_after, part_of, control_heard};
ghost use Rattle.set_changeover.specs.Controls.{IsPossible, control_of};

use l2_basic::Basic;
use l2_pcr::Pcr;
use l2_units::Header;
use l2_window::{Choice, HeardPart, Window};
use set_events::Method;
use std::alloc::Allocator;
use std::marker::Model;

/// The error control of a link, in the link's present life.
#[derive(Drop)]
pub struct Control {
    by: ByMethod,
}

/// By its method.
#[derive(Drop)]
pub(crate) enum ByMethod {
    /// Retransmission where it's asked for (Q.703 5).
    Basic(Basic),
    /// Preventive cyclic retransmission (Q.703 6).
    Cyclic(Pcr),
}

impl Model for Control {
    ghost Value = { ModelControl };

    ghost view = { λ c. control_of c.by };
}

impl Control {
    /// The control at the beginning of a link's life.
    pub(crate) fn new(method: Method) -> Control
        ensures { result ≡ start_of method }
    {
        let by = match method {
            Method::Basic => ByMethod::Basic(Basic::new()),
            Method::Cyclic { n1, n2 } => ByMethod::Cyclic(Pcr::new(n1, n2)),
        };
        Control { by }
    }

    /// The same control again.
    pub(crate) fn copied(&self) -> Control
        ensures { result ≡ self.now }
    {
        let by = match &self.by {
            ByMethod::Basic(basic) => ByMethod::Basic(basic.copied()),
            ByMethod::Cyclic(pcr) => ByMethod::Cyclic(pcr.copied()),
        };
        Control { by }
    }

    /// What is to be sent next, where the bodies of the unacknowledged messages have so many octets.
    pub fn choice<A: Allocator + Copy>(&self, window: &Window<A>, octets: u32) -> Choice
        ensures value { result ≡ choice_of octets self.now window.now }
        ensures possible { IsPossible result window.now }
    {
        match &self.by {
            ByMethod::Basic(basic) => basic.choice(window),
            ByMethod::Cyclic(pcr) => pcr.choice(window, octets),
        }
    }

    /// Sends what was chosen: the header of the unit.
    pub fn send<A: Allocator + Copy>(
        &mut self,
        choice: Choice,
        window: &Window<A>,
        octets: u32,
    ) -> Header
        requires { choice ≡ choice_of octets self.old window.now }
        ensures head { result ≡ head_of self.old window.now (fsn_of choice window.now) }
        ensures state { self.new ≡ control_after choice octets self.old window.now }
    {
        match &mut self.by {
            ByMethod::Basic(basic) => basic.send(choice, window),
            ByMethod::Cyclic(pcr) => pcr.send(choice, window, octets),
        }
    }

    /// What a heard unit with this header means; `is_msu` tells an MSU from a FISU. The messages that
    /// it acknowledges still stand in the window.
    pub fn hear<A: Allocator + Copy>(
        &mut self,
        window: &Window<A>,
        head: Header,
        is_msu: bool,
    ) -> HeardPart
        requires { IsHeadOf window.now.profile head }
        ensures part { result ≡ part_of self.old window.now head is_msu }
        ensures state { self.new ≡ control_heard self.old window.now head is_msu }
    {
        match &mut self.by {
            ByMethod::Basic(basic) => basic.hear(window, head, is_msu),
            ByMethod::Cyclic(pcr) => pcr.hear(window, head, is_msu),
        }
    }
}
