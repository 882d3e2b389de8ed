//! The flag, which stands before and behind each signal unit (Q.703 3.1).

ghost use Rattle.std.specs.Prelude.{◌≡◌, ◌+◌, ◌≤◌, ◌++◌};
ghost use Rattle.arrayvec.specs.ArrayVec.{array_vec_len};
ghost use Rattle.l2_bits.specs.Flags.{flag};

use crate::packing::unpack;
use arrayvec::ArrayVec;

/// A flag, `01111110` (Q.703 3.1): the same from either end.
pub(crate) const FLAG: u8 = 0b0111_1110;

/// Appends the eight bits of a flag, `01111110` (Q.703 3.1). There must be room for them.
pub fn flag_into(line: &mut ArrayVec<bool, 2700>)
    requires { array_vec_len line.old + 8 ≤ 2700 }
    ensures text { line.new.items ≡ line.old.items ++ flag }
    ensures len { array_vec_len line.new ≡ array_vec_len line.old + 8 }
{
    unpack(FLAG, 8, line);
}
