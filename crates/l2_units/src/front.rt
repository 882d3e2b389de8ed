//! What stands before the body of a message, so that the body can stay where it stands.
ghost use Rattle.std.specs.Prelude.{◌≡◌, ◌++◌, ◌≤◌, length};
ghost use Rattle.l2_units.specs.Front.{size_text};
ghost use Rattle.l2_units.specs.Grammar.{IsHeadOf, head_of, text};
ghost use Rattle.l2_units.specs.Lent.{body_in, unit_in};

use super::lent::UnitRef;
use super::profile::Profile;
use super::unit::Header;
use super::wide::wide_word;
use super::writing::sequence_octet;
use arrayvec::ArrayVec;

/// The octets of a unit in this profile but for a message's body, at most 5: its header, the length indicator, and the status
/// field of an LSSU. With the body behind them they are what `write` or `write_wide` gives.
///
/// Condition: numbers of the profile.
pub fn front_of(profile: Profile, unit: &UnitRef<'_>) -> ArrayVec<u8, 5>
    requires { IsHeadOf profile (head_of (unit_in unit.now)) }
    ensures { result.items ++ body_in unit.now ≡ text profile (unit_in unit.now) }
{
    match unit {
        UnitRef::Fisu { head } => with_size(profile, head, 0),
        UnitRef::Lssu { head, status } => {
            let mut front = with_size(profile, head, 1);
            front.push(status.number());
            front
        }
        UnitRef::Msu { head, body } => with_size(profile, head, body.len()),
    }
}

/// A header and the length indicator of a body of so many octets.
fn with_size(profile: Profile, head: &Header, size: usize) -> ArrayVec<u8, 5>
    requires { IsHeadOf profile head.now }
    ensures text { result.items ≡ size_text profile head.now size }
    ensures few { length result.items ≤ 4 }
{
    let indicator = size.min(63);
    let mut octets = ArrayVec::new();
    match profile {
        Profile::Narrow => {
            octets.push(sequence_octet(head.bsn, head.bib));
            octets.push(sequence_octet(head.fsn, head.fib));
            octets.push(indicator as u8);
        }
        Profile::Wide => {
            let [first, second, third, fourth] = wide_word(*head, indicator as u32).to_le_bytes();
            octets.push(first);
            octets.push(second);
            octets.push(third);
            octets.push(fourth);
        }
    }
    octets
}
