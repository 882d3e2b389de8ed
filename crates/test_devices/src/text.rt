//! A text that is read in pieces.
ghost use Rattle.std.specs.Prelude.{◌<◌, Some};

use text_base::{DeviceFault, Source};

/// A text that is read in pieces.
#[derive(Drop)]
pub struct Text<'a> {
    /// What is left to read.
    pub rest: &'a [u8],
    /// How many octets a read gives at most.
    pub piece: usize,
    /// How many reads succeed from here on; each later one fails.
    pub reads: u32,
    /// How often it has failed, modulo 2^32.
    pub failures: u32,
    ghost moves: { 0 < piece },
}

impl Source for Text<'_> {
    ghost left = { λ s. Some s.rest.now };

    ghost failures = { λ s. s.failures };

    fn read(&mut self, buffer: &mut [u8]) -> Result<usize, DeviceFault> {
        if self.reads == 0 {
            self.failures = self.failures.wrapping_add(1);
            return Err(DeviceFault);
        }
        self.reads -= 1;
        let count = self.rest.len().min(buffer.len()).min(self.piece);
        let (piece, rest) = self.rest.split_at(count);
        buffer[..count].copy_from_slice(piece);
        self.rest = rest;
        Ok(count)
    }
}
