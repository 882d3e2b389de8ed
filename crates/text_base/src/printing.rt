//! Prints the whole text of a source to a sink.
ghost use Rattle.std.specs.Prelude.{◌≡◌, ◌≢◌, ◌+◌, ◌<◌, ◌≤◌, ◌^◌, [], take, length, IfSome, MatchResult, OnOk};
ghost use Rattle.text_base.specs.Printing.{Writes, answer_of, PassesOrBreaks, Closes, Prints, FailsByDevices, FailsBySink};

use super::device::{DeviceFault, Sink, Source};
use super::fault::{Fault, Stop, into_fault};
use super::printer::Printer;
use std::alloc::Global;

/// The most octets that are read of an input of which something is kept, 2^24.
pub const LONGEST_KEPT: usize = 0x100_0000;

/// The most octets that are read of any input, 2^60: more than comes in a lifetime.
pub const LONGEST_READ: usize = 0x1000_0000_0000_0000;

/// How many octets a read asks for.
const PIECE: usize = 4096;

/// Reads all that the source gives, at most `longest` octets, and writes what it prints.
///
/// Ends with the first fault; what was printed before it stays printed. An input of more octets is [`Fault::Long`],
/// unless another fault comes before, and what the octets before that print was written then.
pub fn print_all<P: Printer + Drop, S: Source, W: Sink>(
    alloc: Global,
    mut printer: P,
    longest: usize,
    source: &mut S,
    sink: &mut W,
) -> Result<(), Fault<P::Fault>>
    requires begins { P.has_read printer [] [] }
    requires longest { longest ≤ 2 ^ 60 }
    ensures text { IfSome (S.left source.old)
        (λ input. Prints result (P.is_text input) (W.written sink.old) (W.written sink.new)) }
    ensures bounded { IfSome (S.left source.old) (λ input. OnOk result (length input ≤ longest)) }
    ensures devices { IfSome (S.left source.old)
        (FailsByDevices longest result (S.failures source.old) (S.failures source.new)
        (W.failures sink.old) (W.failures sink.new)) }
{
    let mut left = longest;
    // each read but the last gives an octet
    for _ in 0..longest + 1 {
        let mut buffer = [0; PIECE];
        let count = match source.read(&mut buffer) {
            Ok(0) => return end(alloc, printer, sink),
            Ok(count) => count,
            Err(_) => return Err(Fault::Read),
        };
        pass(alloc, &mut printer, &buffer[..count.min(left)], sink)?;
        if count > left {
            return Err(Fault::Long);
        }
        left -= count;
    }
    unreachable!()
}

/// Reads these octets, and writes what they print.
fn pass<P: Printer, W: Sink>(
    alloc: Global,
    printer: &mut P,
    octets: &[u8],
    sink: &mut W,
) -> Result<(), Fault<P::Fault>>
    ensures passes { PassesOrBreaks P.is_text result (P.has_read printer.old) octets.now
        (W.written sink.old) (W.written sink.new) (P.has_read printer.new) }
    ensures failed { FailsBySink result (W.failures sink.old) (W.failures sink.new) }
{
    let mut out = Vec::new(alloc);
    let read = printer.read(octets, &mut out);
    let written = write_all(sink, &out);
    answered(read, written)
}

/// Writes what is printed when the octets have ended.
fn end<P: Printer + Drop, W: Sink>(
    alloc: Global,
    printer: P,
    sink: &mut W,
) -> Result<(), Fault<P::Fault>>
    ensures closes { Closes P.is_text result (P.has_read printer)
        (W.written sink.old) (W.written sink.new) }
    ensures failed { FailsBySink result (W.failures sink.old) (W.failures sink.new) }
{
    let mut out = Vec::new(alloc);
    let ended = printer.end(&mut out);
    let written = write_all(sink, &out);
    answered(ended, written)
}

/// Writes all these octets, or, where a write fails, a front of them.
pub fn write_all<W: Sink>(sink: &mut W, octets: &[u8]) -> Result<(), DeviceFault>
    ensures writes { Writes result octets.now (W.written sink.old) (W.written sink.new) }
    ensures failed { MatchResult result (λ done. W.failures sink.new ≡ W.failures sink.old)
        (λ fault. W.failures sink.new ≢ W.failures sink.old) }
{
    let mut written: usize = 0;
    while written < octets.len() {
        written += sink.write(&octets[written..])?;
    }
    Ok(())
}

/// What a printer answered, where all that it printed was written.
fn answered<T: Drop>(
    read: Result<(), Stop<T>>,
    written: Result<(), DeviceFault>,
) -> Result<(), Fault<T>>
    ensures { result ≡ answer_of read written }
{
    match (read, written) {
        (_, Err(_)) => Err(Fault::Write),
        (Ok(()), Ok(())) => Ok(()),
        (Err(stop), Ok(())) => Err(into_fault(stop)),
    }
}
