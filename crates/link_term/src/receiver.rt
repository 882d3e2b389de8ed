//! The octets that a terminal took.
ghost use Rattle.std.specs.Prelude.{◌≡◌, [], ◌∷◌, ◌++◌};
ghost use Rattle.l2_bits.specs.LineBits.{bits_of, line_bits};
ghost use Rattle.link_term.specs.Turning.{HearsOctet};
ghost use Rattle.link_term.specs.Talking.{at_door};

use super::counts::MarkCounts;
use super::door::Door;
use super::octets::hear_bits;
use l2_bits::{Deframer, Rest};
use line_ring::Past;
use set_events::{Reply, SetFault};
use std::marker::Model;
use term_core::Inside;

/// What takes a line's octets, and finds their marks (Q.703 3, 4). Contracts see all octets that it took.
#[derive(Drop)]
pub(crate) struct Receiver {
    deframer: Deframer,
    taken: Past,
}

impl Model for Receiver {
    ghost use Rattle.std.specs.Prelude.{ℕ, List};

    ghost Value = { List ℕ };

    ghost use Rattle.l2_bits.specs.Deframing.{StandsFor};
    ghost use Rattle.l2_bits.specs.LineBits.{line_bits};

    ghost view = { λ r. r.taken };

    ghost invariant = { λ r. StandsFor (line_bits r.taken) r.deframer };
}

impl Receiver {
    /// No octet was taken.
    pub(crate) fn new() -> Receiver
        ensures { result ≡ [] }
    {
        Receiver {
            deframer: Deframer::new(),
            taken: Past::new(),
        }
    }

    /// Takes an octet: its bits are fed, the lowest first (Q.703 2.4), and each mark that they give is heard, in order.
    /// Answers how many of each kind there were.
    pub(crate) fn hear<D: Door>(
        &mut self,
        octet: u8,
        inside: &mut Inside,
        door: &mut D,
        reply: &mut Reply,
    ) -> Result<MarkCounts, SetFault>
        requires { D.number door.old ≡ inside.old.link }
        ensures hears { HearsOctet (line_bits self.old) (bits_of 8 octet) (at_door D.Door inside.old door.old) result
            (at_door D.Door inside.new door.new) }
        ensures taken { self.new ≡ self.old ++ octet ∷ [] }
        ensures at { D.number door.new ≡ inside.new.link }
        ensures number { D.number door.new ≡ D.number door.old }
        ensures door { D.is_same door.old door.new }
    {
        let heard = hear_bits(
            &mut self.deframer,
            &mut Rest::new(octet),
            inside,
            door,
            reply,
        );
        self.taken.note(octet);
        heard
    }
}
