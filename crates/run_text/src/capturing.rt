//! The capture of a run.
ghost use Rattle.std.specs.Prelude.{◌≡◌, ◌++◌, List, IfOk};
ghost use Rattle.run_text.specs.Capturing.{AreOfEnds, AreOfSet, IsCapture, IsTaped};
ghost use Rattle.text_pcap.specs.declared.sent.Packet.{Packet};

use bank_core::{SetEnd, ShiftReport};
use link_term::TermFault;
use std::alloc::{AllocError, Global};
use text_pcap::{Packet, Side, push_sent, put_in_order, write_packets};

/// The units that the terminals of these ends sent, as a pcap file. Memory is wanted too where a tape was lost.
pub(crate) fn capture_of(
    alloc: Global,
    near: &[SetEnd],
    far: &[SetEnd],
) -> Result<Vec<u8>, AllocError>
    ensures { IfOk result (λ text. IsCapture near.now far.now text.items) }
{
    let mut packets = Vec::new(alloc);
    push_ends(alloc, true, near, &mut packets)?;
    push_ends(alloc, false, far, &mut packets)?;
    put_in_order(&mut packets)?;
    write_packets(alloc, &packets)
}

/// Adds the units that these ends sent.
fn push_ends(
    alloc: Global,
    is_a: bool,
    ends: &[SetEnd],
    packets: &mut Vec<Packet>,
) -> Result<(), AllocError>
    ensures { IfOk result (λ done. (sent : List Packet) × AreOfEnds is_a ends.now sent
        × (packets.new.items ≡ packets.old.items ++ sent)) }
{
    let mut set: u64 = 0;
    for end in ends {
        push_set(alloc, is_a, set, &end.reports, packets)?;
        set += 1;
    }
    Ok(())
}

/// Adds those of an end of a set.
fn push_set(
    alloc: Global,
    is_a: bool,
    set: u64,
    reports: &[Result<ShiftReport, TermFault>],
    packets: &mut Vec<Packet>,
) -> Result<(), AllocError>
    ensures { IfOk result (λ done. (sent : List Packet) × AreOfSet is_a set reports.now sent
        × (packets.new.items ≡ packets.old.items ++ sent)) }
{
    let mut link: u64 = 0;
    for report in reports {
        push_link(alloc, Side { set, link, is_a }, report, packets)?;
        link += 1;
    }
    Ok(())
}

/// Adds those of a terminal.
fn push_link(
    alloc: Global,
    side: Side,
    report: &Result<ShiftReport, TermFault>,
    packets: &mut Vec<Packet>,
) -> Result<(), AllocError>
    ensures { IfOk result (λ done. (sent : List Packet) × IsTaped side.is_a side.set side.link report.now sent
        × (packets.new.items ≡ packets.old.items ++ sent)) }
{
    match report {
        Ok(report) => match report.tape.octets() {
            Some(octets) => push_sent(alloc, side, octets, packets),
            None => Err(AllocError),
        },
        Err(_) => Ok(()),
    }
}
