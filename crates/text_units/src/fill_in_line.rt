//! The line of a fill-in unit, which is made where it stands and added at once: an idle line has hardly any other.
ghost use Rattle.std.specs.Prelude.{◌≡◌, ◌+◌, ◌<◌, ◌≤◌, ◌++◌, [], length, take, if◌then◌else◌, codes, decimal};
ghost use Rattle.std.specs.Result.{is_ok};
ghost use Rattle.l2_units.specs.declared.unit.Unit.TheVariants.{Fisu};
ghost use Rattle.text_base.specs.Figures.{bit};
ghost use Rattle.text_units.specs.UnitsText.{unit_text};

use super::unit_lines::bib_words;
use l2_units::Header;
use std::alloc::AllocError;
use text_base::decimal_digit;

/// Adds the line of a fill-in unit with this header, or nothing where memory is wanted.
#[inline(always)]
pub(crate) fn add_fill_in(head: Header, out: &mut Vec<u8>) -> Result<(), AllocError>
    ensures { out.new.items ≡ out.old.items ++ (if is_ok result then unit_text (Fisu head) else []) }
{
    let mut line = [0; 40];
    let bsn = put_words(&mut line, 0, b"good fisu bsn=");
    let bib = put_number(&mut line, bsn, head.bsn);
    let fsn = put_words(&mut line, bib, bib_words(head.bib));
    let fib = put_number(&mut line, fsn, head.fsn);
    let end = put_words(&mut line, fib, fib_end(head.fib));
    out.extend_from_slice(&line[..end])
}

/// The words of a FIB, with the end of the line.
#[inline(always)]
fn fib_end(fib: bool) -> &'static [u8]
    ensures size { length result.now ≡ 7 }
    ensures value { result.now ≡ codes " fib=" ++ (decimal (bit fib) ++ codes "\n") }
{
    if fib { b" fib=1\n" } else { b" fib=0\n" }
}

/// Puts words into a line, and tells where they end.
#[inline(always)]
fn put_words(line: &mut [u8; 40], at: usize, words: &[u8]) -> usize
    requires room { at + length words.now ≤ 40 }
    ensures ends { result ≡ at + length words.now }
    ensures put { take result line.new ≡ take at line.old ++ words.now }
{
    let end = at + words.len();
    line[at..end].copy_from_slice(words);
    end
}

/// Puts a sequence number into a line, in decimal, and tells where it ends.
#[inline(always)]
fn put_number(line: &mut [u8; 40], at: usize, value: u16) -> usize
    requires room { at + 4 ≤ 40 }
    requires small { value < 4096 }
    ensures ends { result ≤ at + 4 }
    ensures put { take result line.new ≡ take at line.old ++ decimal value }
{
    if value <= 999 {
        return put_below_1000(line, at, value);
    }
    let last = put_below_1000(line, at, value / 10);
    put_digit(line, last, value % 10)
}

/// [`put_number`] of a number of three digits at most.
#[inline(always)]
fn put_below_1000(line: &mut [u8; 40], at: usize, value: u16) -> usize
    requires room { at + 3 ≤ 40 }
    requires small { value < 1000 }
    ensures ends { result ≤ at + 3 }
    ensures put { take result line.new ≡ take at line.old ++ decimal value }
{
    if value <= 99 {
        return put_below_100(line, at, value);
    }
    let last = put_below_100(line, at, value / 10);
    put_digit(line, last, value % 10)
}

/// [`put_number`] of a number of two digits at most.
#[inline(always)]
fn put_below_100(line: &mut [u8; 40], at: usize, value: u16) -> usize
    requires room { at + 2 ≤ 40 }
    requires small { value < 100 }
    ensures ends { result ≤ at + 2 }
    ensures put { take result line.new ≡ take at line.old ++ decimal value }
{
    if value <= 9 {
        return put_digit(line, at, value);
    }
    let last = put_digit(line, at, value / 10);
    put_digit(line, last, value % 10)
}

/// Puts a digit into a line, and tells where it ends.
#[inline(always)]
fn put_digit(line: &mut [u8; 40], at: usize, value: u16) -> usize
    requires room { at < 40 }
    requires small { value < 10 }
    ensures ends { result ≡ at + 1 }
    ensures put { take result line.new ≡ take at line.old ++ decimal value }
{
    line[at] = decimal_digit(value as u8);
    at + 1
}
