//! A wording that a type names.
ghost use Rattle.std.specs.Prelude.{◌≡◌, ◌++◌, List, MatchResult, ℕ};
ghost use Rattle.text_entries.specs.Texts.{shown_text};

use l2_units::Profile;
use pair_steps::Showing;
use std::alloc::{AllocError, Global};
use text_entries::{push_shown, write_named, write_shown};

/// A wording of answers that a type names.
pub(crate) trait NamesWording {
    /// What becomes of the text of an answer.
    ghost worded: { List ℕ → List ℕ };

    /// Appends what a move showed whole, or nothing where memory is wanted.
    fn push(
        alloc: Global,
        profile: Profile,
        shown: &Showing,
        out: &mut Vec<u8>,
    ) -> Result<(), AllocError>
        ensures { MatchResult result
            (λ done. out.new.items ≡ out.old.items ++ worded (shown_text profile shown.now))
            (λ want. out.new.items ≡ out.old.items) };
}

/// In numbers alone.
pub(crate) struct InNumbers;

impl NamesWording for InNumbers {
    ghost worded = { λ text. text };

    fn push(
        _alloc: Global,
        profile: Profile,
        shown: &Showing,
        out: &mut Vec<u8>,
    ) -> Result<(), AllocError> {
        push_shown(out, profile, shown)
    }
}

/// A number that tells why something was refused or given up has its words behind it.
pub(crate) struct InWords;

impl NamesWording for InWords {
    ghost use Rattle.text_entries.specs.Reasons.{named};

    ghost worded = { named };

    fn push(
        alloc: Global,
        profile: Profile,
        shown: &Showing,
        out: &mut Vec<u8>,
    ) -> Result<(), AllocError> {
        let line = write_shown(alloc, profile, shown)?;
        out.extend_from_slice(&write_named(alloc, &line)?)
    }
}
