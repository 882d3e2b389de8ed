//! The lines of `decode`.
ghost use Rattle.std.specs.Prelude.{◌≡◌};
ghost use Rattle.l2_units.specs.declared.profile.Profile.{Profile};

use super::decode_fault::UnreadableUnit;
use super::unit_line::write_line;
use l2_units::Profile;
use std::alloc::Global;
use std::marker::{Model, PhantomData};
use text_base::{Stop, read_octets};
use text_lines::{LineFlaw, TalkText, find_flaw};

/// A profile that a type names, since what is printed belongs to the type.
pub(crate) trait NamesProfile {
    /// The profile.
    ghost profile: { Profile };

    /// The profile.
    fn profile() -> Profile
        ensures { result ≡ profile };
}

/// The narrow profile.
pub(crate) struct OfNarrow;

impl NamesProfile for OfNarrow {
    ghost use Rattle.l2_units.specs.declared.profile.Profile.TheVariants.{Narrow};

    ghost profile = { Narrow };

    fn profile() -> Profile {
        Profile::Narrow
    }
}

/// The wide profile.
pub(crate) struct OfWide;

impl NamesProfile for OfWide {
    ghost use Rattle.l2_units.specs.declared.profile.Profile.TheVariants.{Wide};

    ghost profile = { Wide };

    fn profile() -> Profile {
        Profile::Wide
    }
}

/// Decodes lines, each by itself, of units of the profile that the type names.
#[derive(Drop)]
pub(crate) struct Decoder<P> {
    profile: PhantomData<P>,
}

impl<P> Model for Decoder<P> {
    ghost Value = { Unit {0} };

    ghost view = { λ _. tt };
}

impl<P> Decoder<P> {
    /// A decoder.
    pub(crate) fn new() -> Decoder<P> {
        Decoder {
            profile: PhantomData,
        }
    }
}

impl<P: NamesProfile> TalkText for Decoder<P> {
    type Fault = UnreadableUnit;

    ghost use Rattle.text_lines.specs.Talks.{by_function, have_one};
    ghost use Rattle.text_units.specs.Decoding.{decode_rules};

    ghost rules = { by_function (decode_rules P.profile) };

    ghost one_outcome = { have_one (decode_rules P.profile) };

    fn unreadable(number: u64) -> UnreadableUnit {
        UnreadableUnit {
            line: number,
            flaw: LineFlaw::Long,
        }
    }

    fn line(
        &mut self,
        alloc: Global,
        number: u64,
        text: &[u8],
        out: &mut Vec<u8>,
    ) -> Result<(), Stop<UnreadableUnit>> {
        let Some(octets) = read_octets(alloc, text)? else {
            return Err(Stop::Input(UnreadableUnit {
                line: number,
                flaw: find_flaw(text),
            }));
        };
        out.extend_from_slice(&write_line(alloc, P::profile(), &octets)?)?;
        Ok(())
    }

    fn end(&self, _alloc: Global, _out: &mut Vec<u8>) -> Result<(), Stop<UnreadableUnit>> {
        Ok(())
    }
}
