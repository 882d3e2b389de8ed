//! What the program reads from and writes to.
ghost use Rattle.std.specs.Prelude.{◌≡◌, ◌≢◌, ◌<◌, ◌≤◌, ◌↔◌, IsTrue, List, ℕ, Option, Some, None, IfOk, OnOk, OnErr, length};
ghost use Rattle.std.specs.Io.KnownBytes.{ReadConsumes, WriteAppends};
ghost use Rattle.std.specs.IoError.{error_kind};

use std::io;
use std::io::{ErrorKind, Read, Write};

/// A device failed. It tells no more, since the program tells no more.
#[derive(Clone, Copy, Debug, PartialEq, Eq)]
pub struct DeviceFault;

/// Where octets are read from.
pub trait Source {
    /// The octets that are left to read, where they are known.
    ghost left: { Self → Option (List ℕ) };

    /// How often a read has failed, counted as the source counts: by it each call tells whether it failed.
    ghost failures: { Self → ℕ };

    /// Reads some octets to the front of the buffer, and tells how many; 0 only at the end.
    fn read(&mut self, buffer: &mut [u8]) -> Result<usize, DeviceFault>
        ensures within { IfOk result (λ n. n ≤ length buffer.new) }
        ensures octets { ReadConsumes (left self.old) (left self.new) result buffer.new }
        ensures sound { OnOk result (failures self.new ≡ failures self.old) }
        ensures failed { OnErr result (failures self.new ≢ failures self.old) };
}

/// Where octets are written to.
pub trait Sink {
    /// The octets that were written, where they are known.
    ghost written: { Self → Option (List ℕ) };

    /// How often a write has failed, counted as the sink counts: by it each call tells whether it failed.
    ghost failures: { Self → ℕ };

    /// Writes some octets of the buffer's front, and tells how many. To write none of some octets
    /// is a failure.
    fn write(&mut self, octets: &[u8]) -> Result<usize, DeviceFault>
        ensures within { IfOk result (λ n. n ≤ length octets.now) }
        ensures moves { IfOk result (λ n. 0 < length octets.now → 0 < n) }
        ensures octets { WriteAppends (written self.old) (written self.new) result octets.now }
        ensures sound { OnOk result (failures self.new ≡ failures self.old) }
        ensures failed { OnErr result (failures self.new ≢ failures self.old) };
}

/// A reader of the standard library as a source.
#[derive(Drop)]
pub struct Reader<R> {
    inner: R,
    /// How often a read has failed, modulo 2^64.
    failures: u64,
}

impl<R> Reader<R> {
    ghost use Rattle.std.specs.Prelude.{◌≡◌};

    /// A source of this reader's octets.
    pub fn new(inner: R) -> Reader<R>
        ensures inner { result.inner ≡ inner }
        ensures sound { result.failures ≡ 0 }
    {
        Reader { inner, failures: 0 }
    }
}

impl<R: Read> Source for Reader<R> {
    ghost left = { λ s. R.remaining s.inner };

    ghost failures = { λ s. s.failures };

    fn read(&mut self, buffer: &mut [u8]) -> Result<usize, DeviceFault> {
        match self.inner.read(buffer) {
            Ok(count) => Ok(count),
            Err(_) => {
                self.failures = self.failures.wrapping_add(1);
                Err(DeviceFault)
            }
        }
    }
}

/// A writer of the standard library as a sink.
#[derive(Drop)]
pub struct Writer<W> {
    inner: W,
    /// How often a write has failed, modulo 2^64.
    failures: u64,
    /// A write failed since the pipe's other end is closed.
    closed: bool,
}

impl<W> Writer<W> {
    ghost use Rattle.std.specs.Prelude.{◌≡◌, false};

    /// A sink that writes to this writer.
    pub fn new(inner: W) -> Writer<W>
        ensures inner { result.inner ≡ inner }
        ensures sound { result.failures ≡ 0 }
        ensures open { result.closed ≡ false }
    {
        Writer {
            inner,
            failures: 0,
            closed: false,
        }
    }

    /// Whether a write failed since nobody reads any more what is written to this pipe.
    pub fn is_closed(&self) -> bool
        ensures { result ≡ self.now.closed }
    {
        self.closed
    }

    /// The writer itself, as the last write left it.
    pub fn into_inner(self) -> W
        ensures { result ≡ self.inner }
    {
        self.inner
    }
}

impl<W: Write> Sink for Writer<W> {
    ghost written = { λ s. W.contents s.inner };

    ghost failures = { λ s. s.failures };

    fn write(&mut self, octets: &[u8]) -> Result<usize, DeviceFault> {
        match self.inner.write(octets) {
            Ok(count) if count > 0 || octets.is_empty() => Ok(count),
            Ok(_) => {
                self.failures = self.failures.wrapping_add(1);
                Err(DeviceFault)
            }
            Err(error) => {
                self.failures = self.failures.wrapping_add(1);
                self.closed = tells_closed_pipe(&error);
                Err(DeviceFault)
            }
        }
    }
}

/// Whether this failure tells that nobody reads any more what is written to a pipe.
fn tells_closed_pipe(error: &io::Error) -> bool
    ensures { IsTrue result ↔ (error_kind error.now ≡ ErrorKind.BrokenPipe) }
{
    error.kind() == ErrorKind::BrokenPipe
}
