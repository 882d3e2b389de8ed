//! Lines that are full, or lose octets for a time.
ghost use Rattle.std.specs.Prelude.{◌≡◌, [], ◌∷◌, ◌++◌};

use line_ring::{Full, Line, LossyLine, Past};

/// A line that is always full.
#[derive(Drop)]
pub(crate) struct FullLine {
    /// How often an octet was to be put.
    pub(crate) asked: u32,
    /// It was a flag each time.
    pub(crate) always_the_flag: bool,
}

impl FullLine {
    pub(crate) fn new() -> FullLine {
        FullLine {
            asked: 0,
            always_the_flag: true,
        }
    }
}

impl Line for FullLine {
    ghost put_so_far = { λ line. [] };

    ghost taken_so_far = { λ line. [] };

    ghost free = { λ line. 0 };

    ghost waiting = { λ line. [] };

    ghost is_same = { λ old new. Unit {0} };

    ghost same_self = { λ line. tt };

    ghost same_on = { λ first second third a b. tt };

    fn put(&mut self, octet: u8) -> Result<(), Full> {
        self.asked = self.asked.saturating_add(1);
        self.always_the_flag = self.always_the_flag && octet == 0x7E;
        Err(Full { octet })
    }

    fn take(&mut self) -> Option<u8> {
        None
    }
}

/// A line that is joined to itself, and loses each 50th octet from one on and up to another.
#[derive(Drop)]
pub(crate) struct FadingLine {
    line: LossyLine,
    put: Past,
    count: u32,
    from: u32,
    to: u32,
}

impl FadingLine {
    pub(crate) fn new(from: u32, to: u32) -> FadingLine {
        FadingLine {
            line: LossyLine::new(0),
            put: Past::new(),
            count: 0,
            from,
            to,
        }
    }
}

impl Line for FadingLine {
    ghost use Rattle.std.specs.Prelude.{◌-◌, length};

    ghost put_so_far = { λ line. line.put };

    ghost taken_so_far = { λ line. line.line.taken };

    ghost free = { λ line. 4096 - length line.line.waiting };

    ghost waiting = { λ line. line.line.waiting };

    ghost is_same = { λ old new. Unit {0} };

    ghost same_self = { λ line. tt };

    ghost same_on = { λ first second third a b. tt };

    fn put(&mut self, octet: u8) -> Result<(), Full> {
        self.count = self.count.saturating_add(1);
        if self.from < self.count && self.count < self.to && self.count % 50 == 0 {
            self.put.note(octet);
            return Ok(());
        }
        match self.line.put(octet) {
            Ok(()) => {
                self.put.note(octet);
                Ok(())
            }
            Err(full) => Err(full),
        }
    }

    fn take(&mut self) -> Option<u8> {
        self.line.take()
    }
}
