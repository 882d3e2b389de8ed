//! The octets of a unit, where its body stands.
ghost use Rattle.std.specs.Prelude.{◌≡◌, ◌++◌};
ghost use Rattle.l2_units.specs.Lent.{unit_in};
ghost use Rattle.text_entries.specs.Texts.{has_form, unit_octets};

use arrayvec::ArrayVec;
use l2_units::{Profile, UnitRef, front_of};

/// The most octets of a body in the wide profile.
const LONGEST_WIDE_BODY: usize = 272;

/// A unit's octets, without check octets: at most 5, and behind them the body of a message, where it stands.
#[derive(Drop)]
pub struct UnitOctets<'a> {
    pub front: ArrayVec<u8, 5>,
    pub body: &'a [u8],
}

/// A unit's octets in this profile, without check octets. Of one that has no form in it, for a number of more than seven
/// bits in the narrow or a body of more than 272 octets in the wide profile, as no set of the profile sends, there are
/// none (own).
pub fn unit_octets<'a>(profile: Profile, unit: &UnitRef<'a>) -> UnitOctets<'a>
    ensures { result.front.items ++ result.body.now ≡ unit_octets profile (unit_in unit.now) }
{
    if has_form(profile, unit) {
        UnitOctets {
            front: front_of(profile, unit),
            body: unit.body(),
        }
    } else {
        UnitOctets {
            front: ArrayVec::new(),
            body: &[],
        }
    }
}

/// Whether a unit has a form in this profile.
fn has_form(profile: Profile, unit: &UnitRef<'_>) -> bool
    ensures { result ≡ has_form profile (unit_in unit.now) }
{
    match profile {
        Profile::Narrow => {
            let head = unit.head();
            head.bsn < 128 && head.fsn < 128
        }
        Profile::Wide => match unit {
            UnitRef::Msu { body, .. } => body.len() <= LONGEST_WIDE_BODY,
            _ => true,
        },
    }
}
