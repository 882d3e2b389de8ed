//! The header of the wide profile (own), with six bits above it, in 32 bits.
//!
//! | bits, lowest first | field |
//! |---|---|
//! | 12 | BSN, backward sequence number |
//! | 1 | BIB, backward indicator bit |
//! | 12 | FSN, forward sequence number |
//! | 1 | FIB, forward indicator bit |
//! | 6 | the form: in a unit on the line its length indicator (Q.703 2.3.3) |
//!
//! The octets of such a word go out with the lowest first. What else keeps a header may put a form of its own above it.
ghost use Rattle.std.specs.Prelude.{◌≡◌, ◌<◌};
ghost use Rattle.l2_units.specs.Grammar.{wide_form, wide_header, wide_number};

use super::unit::Header;

/// A header in the low 26 bits, and a form in the six above: BSN in bits 0 to 11, BIB bit 12, FSN in bits 13 to 24, FIB
/// bit 25, the form in bits 26 to 31. [`wide_header_of`] and [`wide_form_of`] find both again.
///
/// Condition: a form below 64.
#[inline(always)]
pub fn wide_word(head: Header, form: u32) -> u32
    requires { form < 64 }
    ensures { result ≡ wide_number head form }
{
    let bib = if head.bib { 0x1000 } else { 0 };
    let fib = if head.fib { 0x200_0000 } else { 0 };
    u32::from(head.bsn) + bib + 0x2000 * u32::from(head.fsn) + fib + 0x400_0000 * form
}

/// The header in the low 26 bits: BSN in bits 0 to 11, BIB bit 12, FSN in bits 13 to 24, FIB bit 25. Each word has one.
#[inline(always)]
pub fn wide_header_of(whole: u32) -> Header
    ensures { result ≡ wide_header whole }
{
    Header {
        bsn: (whole % 4096) as u16,
        bib: whole / 0x1000 % 2 == 1,
        fsn: (whole / 0x2000 % 4096) as u16,
        fib: whole / 0x200_0000 % 2 == 1,
    }
}

/// The form above the header: bits 26 to 31, so 0 to 63.
#[inline(always)]
pub fn wide_form_of(whole: u32) -> u8
    ensures { result ≡ wide_form whole }
{
    (whole / 0x400_0000) as u8
}
