//! Packets in order of time, and their file.
ghost use Rattle.std.specs.Prelude.{◌≡◌, ◌++◌, IfOk, OnOk};
ghost use Rattle.text_pcap.specs.Packets.{IsInOrder, capture_text, direction, packet_record, records_of, side_header};

use super::records::{head_of_file, write_record};
use super::sent::{Packet, Side};
use std::alloc::{AllocError, Global};

/// Puts packets in the order of their times; those of one time stay in the order that they have.
pub fn put_in_order(packets: &mut Vec<Packet>) -> Result<(), AllocError>
    ensures { OnOk result (IsInOrder packets.old.items packets.new.items) }
{
    packets.sort_by_key(|packet| packet.turn)?;
    Ok(())
}

/// The file of these packets, in this order.
pub fn write_packets(alloc: Global, packets: &[Packet]) -> Result<Vec<u8>, AllocError>
    ensures { IfOk result (λ text. text.items ≡ capture_text packets.now) }
{
    let mut text = Vec::from_slice(alloc, &head_of_file(LONGEST))?;
    for packet in packets {
        let record = write_packet(alloc, packet)?;
        text.extend_from_slice(&record)?;
    }
    Ok(text)
}

/// The most octets of a record: 4 of its header, and 276 of a unit.
const LONGEST: u16 = 280;

/// How many octet times a second has, and how many microseconds one has, at 64 kbit/s.
const TURNS_A_SECOND: u64 = 8_000;

const MICROSECONDS: u64 = 125;

/// The record of a packet.
fn write_packet(alloc: Global, packet: &Packet) -> Result<Vec<u8>, AllocError>
    ensures { IfOk result (λ made. made.items ≡ packet_record packet.now) }
{
    let side = packet.side;
    let mut octets = Vec::from_slice(alloc, &header_of(side))?;
    octets.extend_from_slice(packet.octets.as_slice())?;
    let seconds = packet.turn / TURNS_A_SECOND;
    let microseconds = packet.turn % TURNS_A_SECOND * MICROSECONDS;
    write_record(alloc, seconds, microseconds, &octets)
}

/// The pseudo-header of a packet.
fn header_of(side: Side) -> [u8; 4]
    ensures { result ≡ side_header side }
{
    let set = (side.set % 256) as u8;
    let link = (side.link % 256) as u8;
    [direction_of(side), 0, set, link]
}

/// 1 for a unit that end a sent, and 0 for one that it received.
fn direction_of(side: Side) -> u8
    ensures { result ≡ direction side }
{
    if side.is_a { 1 } else { 0 }
}
