//! Two ends over a pair of rings.
ghost use Rattle.std.specs.Prelude.{◌≡◌, ◌+◌, ◌≤◌, [], ◌∷◌, ◌++◌, length, IfOk, OnOk, IfErr, IfSome, IsNone};
ghost use mathlib.Core.List.{IsPrefix};
ghost use Rattle.line_ring.specs.Rings.{put_of, taken_of, free_of, waiting_of, capacity_of, IsSameEnd, AreJoined};

use super::line::{Full, Line};
use rtrb::{Consumer, Producer, PushError, RingBuffer};
use std::alloc::{AllocError, Allocator, Global};

/// One end of a line over two rings, which may move to a thread of its own. Contracts see what this end put and took,
/// the octets that it has seen in the ring that comes in, and the places that it knows to be free in the ring that goes
/// out.
#[derive(Drop)]
pub struct RingLine<A: Allocator = Global> {
    out: Producer<u8, A>,
    back: Consumer<u8, A>,
}

impl<A: Allocator> Line for RingLine<A> {
    ghost use Rattle.line_ring.specs.Rings.{put_of, taken_of, free_of, waiting_of, IsSameEnd};
    ghost use Rattle.line_ring.specs.SameEnds.{same_itself, same_onwards};

    ghost put_so_far = { put_of };

    ghost taken_so_far = { taken_of };

    ghost free = { free_of };

    ghost waiting = { waiting_of };

    ghost is_same = { IsSameEnd };

    ghost same_self = { same_itself };

    ghost same_on = { same_onwards };

    /// Puts an octet into the ring that goes out.
    fn put(&mut self, octet: u8) -> Result<(), Full>
        ensures ok { OnOk result ((put_of self.new ≡ put_of self.old ++ octet ∷ [])
            × (free_of self.old ≤ free_of self.new + 1)) }
        ensures full { IfErr result (λ refused. (refused.octet ≡ octet) × (put_of self.new ≡ put_of self.old)
            × (waiting_of self.new ≡ waiting_of self.old) × (free_of self.old ≡ 0) × (free_of self.new ≡ 0)) }
        ensures taken { taken_of self.new ≡ taken_of self.old }
        ensures waiting { waiting_of self.new ≡ waiting_of self.old }
        ensures same { IsSameEnd self.old self.new }
    {
        match self.out.push(octet) {
            Ok(()) => Ok(()),
            Err(PushError::Full(octet)) => Err(Full { octet }),
        }
    }

    /// Takes the oldest octet out of the ring that comes in.
    fn take(&mut self) -> Option<u8>
        ensures some { IfSome result (λ octet. (taken_of self.new ≡ taken_of self.old ++ octet ∷ [])
            × IsPrefix (waiting_of self.old) (octet ∷ waiting_of self.new)) }
        ensures none { IsNone result → (taken_of self.new ≡ taken_of self.old)
            × (waiting_of self.old ≡ []) × (waiting_of self.new ≡ []) }
        ensures put { put_of self.new ≡ put_of self.old }
        ensures free { free_of self.new ≡ free_of self.old }
        ensures same { IsSameEnd self.old self.new }
    {
        self.back.pop().ok()
    }
}

/// The two ends of a new line, which has so many places each way. Memory is taken here alone; `AllocError` where it's
/// refused.
pub fn ring_pair<A: Allocator + Copy>(
    alloc: A,
    capacity: usize,
) -> Result<(RingLine<A>, RingLine<A>), AllocError>
    ensures joined { IfOk result (λ ends. AreJoined ends.0 ends.1) }
    ensures put { IfOk result (λ ends. (put_of ends.0 ≡ []) × (put_of ends.1 ≡ [])) }
    ensures taken { IfOk result (λ ends. (taken_of ends.0 ≡ []) × (taken_of ends.1 ≡ [])) }
    ensures waiting { IfOk result (λ ends. (waiting_of ends.0 ≡ []) × (waiting_of ends.1 ≡ [])) }
    ensures free { IfOk result (λ ends. (free_of ends.0 ≡ capacity) × (free_of ends.1 ≡ capacity)) }
    ensures places { IfOk result (λ ends. (capacity_of ends.0 ≡ capacity) × (capacity_of ends.1 ≡ capacity)) }
{
    let (to_far, from_near) = RingBuffer::new(alloc, capacity)?;
    let (to_near, from_far) = RingBuffer::new(alloc, capacity)?;
    let near = RingLine {
        out: to_far,
        back: from_far,
    };
    let far = RingLine {
        out: to_near,
        back: from_near,
    };
    Ok((near, far))
}

/// Both ends of one line look at it, in one thread: what one took, followed by what waits for it, is what the other
/// put, each way. Each end then knows of every free place: those that the far end's waiting octets leave.
pub fn beside<A: Allocator>(near: &mut RingLine<A>, far: &mut RingLine<A>)
    requires { AreJoined near.old far.old }
    ensures there { taken_of far.new ++ waiting_of far.new ≡ put_of near.new }
    ensures back { taken_of near.new ++ waiting_of near.new ≡ put_of far.new }
    ensures put { (put_of near.new ≡ put_of near.old) × (put_of far.new ≡ put_of far.old) }
    ensures taken { (taken_of near.new ≡ taken_of near.old) × (taken_of far.new ≡ taken_of far.old) }
    ensures free { (capacity_of near.new ≤ free_of near.new + length (waiting_of far.new))
        × (capacity_of far.new ≤ free_of far.new + length (waiting_of near.new)) }
    ensures same { IsSameEnd near.old near.new × IsSameEnd far.old far.new }
    ensures joined { AreJoined near.new far.new }
{
    near.out.slots_beside(&mut far.back);
    far.out.slots_beside(&mut near.back);
    far.back.slots_beside(&mut near.out);
    near.back.slots_beside(&mut far.out);
}
