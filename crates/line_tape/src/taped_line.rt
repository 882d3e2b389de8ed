//! A line with a tape.
ghost use Rattle.std.specs.Prelude.{◌≡◌, [], ◌++◌, None, if◌then◌else◌};
ghost use Rattle.line_tape.specs.Taping.{IsTape, Keeps};

use super::tape::Tape;
use line_ring::{Full, Line, Past};
use std::snapshot::Snapshot;

/// One end of a line, with a tape of what is put into it.
#[derive(Drop)]
pub struct TapedLine<L: Line + Drop> {
    line: L,
    tape: Tape,
    /// The line as it was before.
    before: Snapshot<L>,
    /// What was put into it since.
    put: Past,
    ghost is_kept: { Keeps tape put },
    ghost passes: { L.put_so_far line ≡ L.put_so_far before.value ++ put },
}

impl<L: Line + Drop> TapedLine<L> {
    /// This end, with this tape, on which nothing stands yet.
    pub fn new(line: L, tape: Tape) -> TapedLine<L>
        requires { Keeps tape [] }
        ensures line { result.line ≡ line }
        ensures tape { result.tape ≡ tape }
        ensures put { result.put ≡ [] }
        ensures before { result.before.value ≡ line }
    {
        let before = Snapshot::of(&line);
        TapedLine {
            line,
            tape,
            before,
            put: Past::new(),
        }
    }

    /// The tape, where octets were to be kept; else one without any.
    pub fn into_tape(self, keeps: bool) -> Tape
        ensures kept { IsTape keeps result self.put }
        ensures tape { result ≡ (if keeps then self.tape else None) }
    {
        if keeps { self.tape } else { Tape::none() }
    }
}

impl<L: Line + Drop> Line for TapedLine<L> {
    ghost use Rattle.std.specs.Prelude.{◌≡◌, refl};
    ghost use Rattle.std.proofs.Common.{◌∙◌};
    ghost use Rattle.line_tape.specs.Taping.{GoesOn, goes_further, stands_still};

    ghost put_so_far = { λ end. end.put };

    ghost taken_so_far = { λ end. L.taken_so_far end.line };

    ghost free = { λ end. L.free end.line };

    ghost waiting = { λ end. L.waiting end.line };

    ghost is_same = { λ first second. L.is_same first.line second.line × (second.before ≡ first.before)
        × GoesOn first.tape first.put second.tape second.put };

    ghost same_self = { λ end. (L.same_self end.line, refl, stands_still end.tape end.put) };

    ghost same_on = { λ first second third a b. (
      L.same_on first.line second.line third.line a.0 b.0,
      b.1 ∙ a.1,
      goes_further first.tape first.put second.tape second.put third.tape third.put a.2 b.2,
    ) };

    fn put(&mut self, octet: u8) -> Result<(), Full> {
        match self.line.put(octet) {
            Ok(()) => {}
            Err(full) => return Err(full),
        }
        self.tape.keep(octet);
        self.put.note(octet);
        Ok(())
    }

    fn take(&mut self) -> Option<u8> {
        self.line.take()
    }
}
