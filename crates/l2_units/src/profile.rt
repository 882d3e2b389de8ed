//! How many numbers the messages of a link have.
ghost use Rattle.std.specs.Prelude.{◌≡◌};
ghost use Rattle.l2_units.specs.Profile.{fsn_count, most_unacked};

/// The form of a link's units: how many bits their numbers have.
#[derive(Clone, Copy, Debug, PartialEq, Eq)]
pub enum Profile {
    /// Numbers of 7 bits (Q.703 2.2): at most 127 messages are unacknowledged, bodies have 3 to 273 octets.
    Narrow,
    /// Numbers of 12 bits (own): at most 4,095 messages are unacknowledged, bodies have 3 to 272 octets.
    Wide,
}

impl Profile {
    /// How many numbers there are: 128, or 4,096.
    pub fn fsn_count(self) -> u16
        ensures { result ≡ fsn_count self }
    {
        match self {
            Profile::Narrow => 128,
            Profile::Wide => 4096,
        }
    }

    /// The most messages that can be unacknowledged, so that no two of them have one number: 127, or 4,095.
    pub fn most_unacked(self) -> u16
        ensures { result ≡ most_unacked self }
    {
        self.fsn_count() - 1
    }
}
