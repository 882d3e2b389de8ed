//! Where a stream runs, and the changeback codes.
ghost use Rattle.std.specs.Prelude.{◌≡◌, ◌<◌};
ghost use Rattle.set_route.specs.Routing.{code_answered, code_for, code_left, code_settled, home_of, is_free, owed_under};

/// Where a stream runs, and so where its next message goes.
#[derive(Clone, Copy, Debug, Drop, PartialEq, Eq)]
pub enum Place {
    /// On this link, up or left.
    On { link: u8 },
    /// On its way back to its home `to`: it waits for the acknowledgement of this changeback code, and runs on
    /// `via` if `to` is left before.
    Changing { to: u8, code: u8, via: u8 },
    /// On no link: none was up when it would have moved.
    Nowhere,
}

/// What became of a changeback code (Q.704 6.3). One acknowledgement is owed under it for each declaration.
#[derive(Clone, Copy, Debug, Drop, PartialEq, Eq)]
pub enum Code {
    /// In no use.
    Free,
    /// Open: its streams come from the link `via`, and none of so many acknowledgements has come. It was declared last
    /// by the message of this number.
    Asked {
        via: u8,
        declaration: u64,
        owed: u64,
    },
    /// No stream waits for it, and so many acknowledgements are owed: they only count.
    Spent {
        owed: u64,
    },
}

impl Code {
    /// The link is left: the code of this number is spent, if it is open and that link is its home.
    pub(crate) fn leave(&mut self, number: u8, link: u8)
        ensures { self.new ≡ code_left link number self.old }
    {
        *self = match *self {
            Code::Asked { owed, .. } if home_of_code(number) == link => Code::Spent { owed },
            code => code,
        };
    }

    /// The link settled, and its streams run on the target: those that came from it come from the target.
    pub(crate) fn settle(&mut self, link: u8, target: Option<u8>)
        ensures { self.new ≡ code_settled link target self.old }
    {
        *self = match *self {
            Code::Asked {
                via,
                declaration,
                owed,
            } if via == link => Code::Asked {
                via: target.unwrap_or(via),
                declaration,
                owed,
            },
            code => code,
        };
    }

    /// Whether it's in no use.
    pub fn is_free(self) -> bool
        ensures { result ≡ is_free self }
    {
        matches!(self, Code::Free)
    }

    /// How many acknowledgements are owed under it.
    pub fn owed(self) -> u64
        ensures { result ≡ owed_under self }
    {
        match self {
            Code::Free => 0,
            Code::Asked { owed, .. } | Code::Spent { owed } => owed,
        }
    }

    /// What becomes of it once it's acknowledged: it's spent while more acknowledgements are owed, and then free.
    pub(crate) fn answered(self) -> Code
        ensures { result ≡ code_answered self }
    {
        match self.owed() {
            0 | 1 => Code::Free,
            owed => Code::Spent { owed: owed - 1 },
        }
    }
}

/// The changeback code of streams that go from this alternative to this home (own): 16 times the home, and the
/// alternative.
///
/// Condition: both below 16.
pub fn changeback_code(home: u8, alternative: u8) -> u8
    requires home { home < 16 }
    requires alternative { alternative < 16 }
    ensures { result ≡ code_for home alternative }
{
    16 * home + alternative
}

/// The home of a changeback code, below 16.
pub fn home_of_code(code: u8) -> u8
    ensures value { result ≡ home_of code }
    ensures few { result < 16 }
{
    code / 16
}
