//! The head of a pcap file, and its records.
ghost use Rattle.std.specs.Prelude.{◌≡◌, ◌≤◌, ◌^◌, IfOk};
ghost use Rattle.text_pcap.specs.PcapFile.{file_head, four, record_at};

use std::alloc::{AllocError, Global};

/// What the file begins with, for records of at most so many octets.
pub fn head_of_file(longest: u16) -> [u8; 24]
    ensures { result ≡ file_head longest }
{
    let [low, high, _, _] = split_in_four(u64::from(longest));
    [
        0xD4, 0xC3, 0xB2, 0xA1, 2, 0, 4, 0, 0, 0, 0, 0, 0, 0, 0, 0, low, high, 0, 0, 139, 0, 0, 0,
    ]
}

/// The record of these octets, with its time in seconds and microseconds.
pub fn write_record(
    alloc: Global,
    seconds: u64,
    microseconds: u64,
    octets: &[u8],
) -> Result<Vec<u8>, AllocError>
    ensures { IfOk result (λ made. made.items ≡ record_at seconds microseconds octets.now) }
{
    let length = split_in_four(octets.len() as u64);
    let mut record = Vec::from_slice(alloc, &split_in_four(seconds))?;
    record.extend_from_slice(&split_in_four(microseconds))?;
    record.extend_from_slice(&length)?;
    record.extend_from_slice(&length)?;
    record.extend_from_slice(octets)?;
    Ok(record)
}

/// The low 32 bits of a number, the low octet first.
fn split_in_four(number: u64) -> [u8; 4]
    ensures { result ≡ four number }
{
    [
        (number % 256) as u8,
        (number / 256 % 256) as u8,
        (number / 65_536 % 256) as u8,
        (number / 16_777_216 % 256) as u8,
    ]
}
