//! What is printed, kept without asking for memory.
ghost use Rattle.std.specs.Prelude.{◌≤◌, None};

use text_base::{DeviceFault, Sink};

/// How many octets are kept.
const ROOM: usize = 4_096;

/// The octets that were printed; those past the room are let go.
#[derive(Drop)]
pub(crate) struct Kept {
    octets: [u8; ROOM],
    len: usize,
    ghost fits: { len ≤ 4096 },
}

impl Kept {
    /// Nothing was printed yet.
    pub(crate) fn new() -> Kept {
        Kept {
            octets: [0; ROOM],
            len: 0,
        }
    }

    /// What was printed.
    pub(crate) fn octets(&self) -> &[u8] {
        &self.octets[..self.len]
    }

    /// Whether all that was printed is there.
    pub(crate) fn is_all(&self) -> bool {
        self.len < ROOM
    }
}

impl Sink for Kept {
    ghost written = { λ _. None };

    ghost failures = { λ _. 0 };

    fn write(&mut self, octets: &[u8]) -> Result<usize, DeviceFault> {
        let count = octets.len().min(ROOM - self.len);
        let end = self.len + count;
        self.octets[self.len..end].copy_from_slice(&octets[..count]);
        self.len = end;
        Ok(octets.len())
    }
}
