//! A line that damages octets, or loses them.
ghost use Rattle.std.specs.Prelude.{◌≡◌, ◌+◌, ◌≤◌, [], ◌++◌, IfErr, OnOk};
ghost use mathlib.Core.List.{IsPrefix};
ghost use Rattle.std.specs.Option.{option_to_list};
ghost use Rattle.bank_traffic.specs.Noise.{behind, drawn, first_noise, passed, passed_all, noise_behind};

use line_ring::{Full, Line, Past};

/// What befalls the octets of a line: after so many that pass one is struck. Each of its bits is inverted, or it's lost, as a
/// draw tells.
#[derive(Clone, Copy, Debug, Drop, PartialEq, Eq)]
pub struct Noise {
    /// One of so many octets is struck; none where that is 0.
    every: u32,
    /// So many pass before the next that is.
    left: u32,
    /// The last draw.
    draw: u32,
}

impl Noise {
    /// One of `every` octets is struck, or none where that is 0. The seed tells which is the first, and what befalls each.
    pub fn new(every: u32, seed: u32) -> Noise
        ensures { result ≡ first_noise every seed }
    {
        let draw = drawn(seed);
        Noise {
            every,
            left: if every == 0 { 0 } else { draw % every },
            draw,
        }
    }

    /// What becomes of the next octet: it may be lost.
    fn pass(self, octet: u8) -> Option<u8>
        ensures { option_to_list result ≡ passed self octet }
    {
        if self.every == 0 || self.left > 0 {
            Some(octet)
        } else if self.draw >= 0x8000_0000 {
            Some(!octet)
        } else {
            None
        }
    }

    /// What befalls the octets behind it.
    fn behind(self) -> Noise
        ensures { result ≡ behind self }
    {
        if self.every == 0 {
            self
        } else if self.left > 0 {
            Noise {
                left: self.left - 1,
                ..self
            }
        } else {
            Noise {
                left: self.every - 1,
                draw: drawn(self.draw),
                ..self
            }
        }
    }
}

/// The draw behind this one.
fn drawn(draw: u32) -> u32
    ensures { result ≡ drawn draw }
{
    draw.wrapping_mul(1_664_525).wrapping_add(1_013_904_223)
}

/// One end of a line, with noise on what is put into it: of that only [`Noise`] tells what passes. What the other end puts
/// comes as it is.
#[derive(Drop)]
pub struct NoisyLine<L: Line + Drop> {
    line: L,
    first: Noise,
    noise: Noise,
    /// What was put into it.
    put: Past,
    ghost is_behind: { noise ≡ noise_behind first put },
    ghost passes: { L.put_so_far line ≡ passed_all first put },
}

impl<L: Line + Drop> NoisyLine<L> {
    /// This end, with this noise. Nothing was put into it.
    pub fn new(line: L, noise: Noise) -> NoisyLine<L>
        requires { L.put_so_far line ≡ [] }
        ensures line { result.line ≡ line }
        ensures put { result.put ≡ [] }
        ensures noise { result.first ≡ noise }
    {
        NoisyLine {
            line,
            first: noise,
            noise,
            put: Past::new(),
        }
    }

    /// What passed of all that was put into it. It does nothing.
    pub fn passes(&self)
        ensures { L.put_so_far self.now.line ≡ passed_all self.now.first self.now.put }
    {
        let _ = &self.line;
    }
}

/// Puts what passed, if anything did.
fn put_passed<L: Line>(line: &mut L, passed: Option<u8>) -> Result<(), Full>
    ensures ok { OnOk result ((L.put_so_far line.new ≡ L.put_so_far line.old ++ option_to_list passed)
        × (L.free line.old ≤ L.free line.new + 1)) }
    ensures full { IfErr result (λ refused. (L.put_so_far line.new ≡ L.put_so_far line.old)
        × (L.waiting line.new ≡ L.waiting line.old) × (L.free line.old ≡ 0) × (L.free line.new ≡ 0)) }
    ensures taken { L.taken_so_far line.new ≡ L.taken_so_far line.old }
    ensures waiting { IsPrefix (L.waiting line.old) (L.waiting line.new) }
    ensures same { L.is_same line.old line.new }
{
    match passed {
        Some(octet) => line.put(octet),
        None => Ok(()),
    }
}

impl<L: Line + Drop> Line for NoisyLine<L> {
    ghost use Rattle.std.specs.Prelude.{◌≡◌, refl};
    ghost use Rattle.std.proofs.Common.{◌∙◌};

    ghost put_so_far = { λ end. end.put };

    ghost taken_so_far = { λ end. L.taken_so_far end.line };

    ghost free = { λ end. L.free end.line };

    ghost waiting = { λ end. L.waiting end.line };

    ghost is_same = { λ first second. L.is_same first.line second.line × (second.first ≡ first.first) };

    ghost same_self = { λ end. (L.same_self end.line, refl) };

    ghost same_on = { λ first second third a b. (L.same_on first.line second.line third.line a.0 b.0, b.1 ∙ a.1) };

    fn put(&mut self, octet: u8) -> Result<(), Full> {
        match put_passed(&mut self.line, self.noise.pass(octet)) {
            Ok(()) => {}
            Err(_) => return Err(Full { octet }),
        }
        self.noise = self.noise.behind();
        self.put.note(octet);
        Ok(())
    }

    fn take(&mut self) -> Option<u8> {
        self.line.take()
    }
}
