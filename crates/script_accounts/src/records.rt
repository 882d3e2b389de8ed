//! The head and the records of a script's capture.
ghost use Rattle.std.specs.Prelude.{◌≡◌, ◌++◌, IfOk};
ghost use Rattle.l2_units.specs.Lent.{unit_in};
ghost use Rattle.l2_units.specs.declared.profile.Profile.TheVariants.{Narrow, Wide};
ghost use Rattle.script_accounts.specs.Capture.{annex_a, annex_a_octets, captured, direction, head_of, longest_record, pseudo_header, record_of, with_bit};
ghost use Rattle.text_pcap.specs.PcapFile.{two};

use l2_units::{Header, Profile, UnitRef};
use pair_steps::End;
use std::alloc::{AllocError, Global};
use text_entries::{UnitOctets, unit_octets};
use text_pcap::{head_of_file, write_record};

/// The most octets of a record: a wide unit takes two octets more than a narrow one.
fn longest_record(profile: Profile) -> u16
    ensures { result ≡ longest_record profile }
{
    match profile {
        Profile::Narrow => 280,
        Profile::Wide => 282,
    }
}

/// What the file begins with.
pub(crate) fn head_of_capture(profile: Profile) -> [u8; 24]
    ensures { result ≡ head_of profile }
{
    head_of_file(longest_record(profile))
}

/// The low 16 bits of a number, the low octet first.
fn split_in_two(number: u64) -> [u8; 2]
    ensures { result ≡ two number }
{
    [(number % 256) as u8, (number / 256 % 256) as u8]
}

/// 1 for a unit that end a sends, and 0 for one that it receives.
fn direction_of(end: End) -> u8
    ensures { result ≡ direction end }
{
    match end {
        End::A => 1,
        End::B => 0,
    }
}

/// 1 where units stand in the form of Annex A of Q.703, else 0.
fn form_of(profile: Profile) -> u8
    ensures { result ≡ annex_a profile }
{
    match profile {
        Profile::Narrow => 0,
        Profile::Wide => 1,
    }
}

/// A unit as analysers read it: a wide one is translated into the form of Annex A of Q.703.
fn write_captured(
    alloc: Global,
    profile: Profile,
    unit: &UnitRef<'_>,
) -> Result<Vec<u8>, AllocError>
    ensures { IfOk result (λ octets. octets.items ≡ captured profile (unit_in unit.now)) }
{
    match profile {
        Profile::Narrow => write_narrow(alloc, unit),
        Profile::Wide => write_translated(alloc, unit),
    }
}

/// A unit's octets in the narrow profile.
fn write_narrow(alloc: Global, unit: &UnitRef<'_>) -> Result<Vec<u8>, AllocError>
    ensures { IfOk result (λ octets. octets.items ≡ captured Narrow (unit_in unit.now)) }
{
    let UnitOctets { front, body } = unit_octets(Profile::Narrow, unit);
    let mut octets = Vec::from_slice(alloc, front.as_slice())?;
    octets.extend_from_slice(body)?;
    Ok(octets)
}

/// A unit in the form of Annex A.
fn write_translated(alloc: Global, unit: &UnitRef<'_>) -> Result<Vec<u8>, AllocError>
    ensures { IfOk result (λ octets. octets.items ≡ captured Wide (unit_in unit.now)) }
{
    match unit {
        UnitRef::Fisu { head } => write_annex_a(alloc, *head, &[]),
        UnitRef::Lssu { head, status } => write_annex_a(alloc, *head, &[status.number()]),
        UnitRef::Msu { head, body } => write_annex_a(alloc, *head, body),
    }
}

/// A header and a body in the form of Annex A.
fn write_annex_a(alloc: Global, head: Header, body: &[u8]) -> Result<Vec<u8>, AllocError>
    ensures { IfOk result (λ octets. octets.items ≡ annex_a_octets head body.now) }
{
    let mut octets = Vec::from_slice(alloc, &split_in_two(add_bit(head.bsn, head.bib)))?;
    octets.extend_from_slice(&split_in_two(add_bit(head.fsn, head.fib)))?;
    octets.extend_from_slice(&split_in_two(body.len() as u64))?;
    octets.extend_from_slice(body)?;
    Ok(octets)
}

/// A sequence number with its indicator bit in the highest of 16 bits.
fn add_bit(number: u16, indicator: bool) -> u64
    ensures { result ≡ with_bit number indicator }
{
    u64::from(number) + if indicator { 0x8000 } else { 0 }
}

/// The record of a unit that the line of this number sent from the end on the link: each line lasts a millisecond.
pub(crate) fn record_of(
    alloc: Global,
    profile: Profile,
    number: u64,
    end: End,
    link: u8,
    unit: &UnitRef<'_>,
) -> Result<Vec<u8>, AllocError>
    ensures { IfOk result (λ made. made.items
        ≡ record_of number (pseudo_header profile end link ++ captured profile (unit_in unit.now))) }
{
    let mut octets = Vec::from_slice(alloc, &[direction_of(end), form_of(profile), 0, link])?;
    octets.extend_from_slice(&write_captured(alloc, profile, unit)?)?;
    write_record(alloc, number / 1_000, number % 1_000 * 1_000, &octets)
}
