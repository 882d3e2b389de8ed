//! Which lines of lengths may come.

use text_base::is_word;

/// Which lines of lengths may come yet, behind the line that opens an end.
#[derive(Clone, Copy, Debug, PartialEq, Eq)]
pub enum Early {
    /// `timers`, and behind it `level3`; or `level3` at once.
    Both,
    /// `level3` alone, since `timers` came.
    Times,
    /// Neither.
    Over,
}

impl Early {
    ghost use Rattle.std.specs.Prelude.{◌≡◌};
    ghost use Rattle.text_forms.specs.Asking.{tells_timers, tells_times};

    /// Whether a line with this first word tells timers.
    pub(crate) fn tells_timers(self, name: &[u8]) -> bool
        ensures { result ≡ tells_timers self name.now }
    {
        match self {
            Early::Both => is_word(name, b"timers"),
            Early::Times | Early::Over => false,
        }
    }

    /// Whether a line with this first word tells level 3's times.
    pub(crate) fn tells_times(self, name: &[u8]) -> bool
        ensures { result ≡ tells_times self name.now }
    {
        match self {
            Early::Both | Early::Times => is_word(name, b"level3"),
            Early::Over => false,
        }
    }
}
