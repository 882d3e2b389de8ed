//! The units that stand on a tape.
ghost use Rattle.std.specs.Prelude.{◌≡◌, List, [], ◌∷◌, ◌++◌, IfOk, OnOk};
ghost use Rattle.text_pcap.specs.Sent.{AreSent, packets_of};

use l2_bits::{Deframer, Mark};
use std::alloc::{AllocError, Global};
use std::marker::Model;

/// The octets of a unit, without its check octets.
#[derive(Debug, Drop)]
pub struct UnitOctets {
    octets: Vec<u8>,
}

impl Model for UnitOctets {
    ghost use Rattle.std.specs.Prelude.{ℕ, List};

    ghost Value = { List ℕ };

    ghost view = { λ unit. unit.octets.items };
}

impl UnitOctets {
    /// These.
    fn of(alloc: Global, octets: &[u8]) -> Result<UnitOctets, AllocError>
        ensures { IfOk result (λ unit. unit ≡ octets.now) }
    {
        Ok(UnitOctets {
            octets: Vec::from_slice(alloc, octets)?,
        })
    }

    /// All of them.
    pub fn as_slice(&self) -> &[u8]
        ensures { result.now ≡ self.now }
    {
        self.octets.as_slice()
    }
}

/// Where a unit was sent.
#[derive(Clone, Copy, Debug, PartialEq, Eq)]
pub struct Side {
    /// The number of the set, and of the link.
    pub set: u64,
    pub link: u64,
    /// From end a; else from end b.
    pub is_a: bool,
}

/// A unit that was sent.
#[derive(Debug, Drop)]
pub struct Packet {
    /// The octet time in which its closing flag ended, from 0.
    pub turn: u64,
    /// Where it was sent.
    pub side: Side,
    /// Its octets.
    pub octets: UnitOctets,
}

/// Adds the units that stand on a tape of these octets, oldest first.
pub fn push_sent(
    alloc: Global,
    side: Side,
    octets: &[u8],
    packets: &mut Vec<Packet>,
) -> Result<(), AllocError>
    ensures { IfOk result (λ done. (sent : List Packet) × AreSent side octets.now sent
        × (packets.new.items ≡ packets.old.items ++ sent)) }
{
    let mut deframer = Deframer::new();
    let mut turn: u64 = 0;
    for octet in octets {
        let marks = deframer.feed_octet(*octet);
        push_marked(alloc, side, turn, marks.as_slice(), packets)?;
        turn += 1;
    }
    Ok(())
}

/// Adds the good units among these marks.
fn push_marked(
    alloc: Global,
    side: Side,
    turn: u64,
    marks: &[Mark],
    packets: &mut Vec<Packet>,
) -> Result<(), AllocError>
    ensures { OnOk result (packets.new.items ≡ packets.old.items ++ packets_of side turn marks.now) }
{
    for mark in marks {
        push_one(alloc, side, turn, mark, packets)?;
    }
    Ok(())
}

/// Adds the unit of a mark, if it's a good one.
fn push_one(
    alloc: Global,
    side: Side,
    turn: u64,
    mark: &Mark,
    packets: &mut Vec<Packet>,
) -> Result<(), AllocError>
    ensures { OnOk result (packets.new.items ≡ packets.old.items ++ packets_of side turn (mark.now ∷ [])) }
{
    match mark {
        Mark::Good(octets) => {
            let octets = UnitOctets::of(alloc, octets.as_slice())?;
            packets.reserve(1)?;
            packets.push_reserved(Packet { turn, side, octets });
            Ok(())
        }
        Mark::Bad | Mark::Sixteen => Ok(()),
    }
}
