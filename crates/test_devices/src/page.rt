//! What is written, in memory.
ghost use Rattle.std.specs.Prelude.{◌<◌, Some};

use text_base::{DeviceFault, Sink};

/// What is written, in memory.
#[derive(Drop)]
pub struct Page {
    /// The octets so far.
    pub octets: Vec<u8>,
    /// How many octets a write takes at most.
    pub piece: usize,
    /// How many writes succeed from here on; each later one fails.
    pub writes: u32,
    /// How often it has failed, modulo 2^32.
    pub failures: u32,
    ghost moves: { 0 < piece },
}

impl Sink for Page {
    ghost written = { λ s. Some s.octets.items };

    ghost failures = { λ s. s.failures };

    fn write(&mut self, octets: &[u8]) -> Result<usize, DeviceFault> {
        if self.writes == 0 {
            self.failures = self.failures.wrapping_add(1);
            return Err(DeviceFault);
        }
        self.writes -= 1;
        let count = octets.len().min(self.piece);
        match self.octets.extend_from_slice(&octets[..count]) {
            Ok(()) => Ok(count),
            Err(_) => {
                self.failures = self.failures.wrapping_add(1);
                Err(DeviceFault)
            }
        }
    }
}
