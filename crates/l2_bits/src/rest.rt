//! Bits that are still to be fed.

ghost use Rattle.std.specs.Prelude.{◌≡◌, ◌+◌, ◌%◌, ◌^◌, ◌<◌, ◌≤◌, true, false, [], ◌∷◌, ◌++◌, length};
ghost use Rattle.l2_bits.specs.LineBits.{bits_of, line_bits};
ghost use Rattle.l2_bits.specs.Deframing.{rest_of, left_in};

/// The bits of an octet, or of a few, that are still to be fed, the next in the lowest place.
#[derive(Clone, Copy, Debug, PartialEq, Eq)]
pub struct Rest {
    pub(crate) bits: u64,
    pub(crate) left: u8,
}

impl Rest {
    /// All eight bits of an octet.
    pub fn new(octet: u8) -> Rest
        ensures { rest_of result ≡ bits_of 8 octet }
    {
        Rest {
            bits: u64::from(octet),
            left: 8,
        }
    }

    /// Takes so many of them.
    #[inline(always)]
    pub(crate) fn take(&mut self, count: u8) -> u64
        requires few { count ≤ 56 }
        requires there { count ≤ self.old.left }
        ensures split { rest_of self.old ≡ bits_of count result ++ rest_of self.new }
        ensures taken { result ≡ self.old.bits % 2 ^ count }
        ensures left { self.new.left + count ≡ self.old.left }
    {
        let taken = self.bits & ((1 << count) - 1);
        self.bits >>= count;
        self.left -= count;
        taken
    }
}

/// The octets of a line that are still to be fed, the first few of them maybe in part.
#[derive(Clone, Copy, Debug)]
pub struct Octets<'a> {
    pub(crate) first: Rest,
    others: &'a [u8],
}

impl Octets<'_> {
    /// All of these.
    pub fn new(octets: &[u8]) -> Octets<'_>
        ensures { left_in result ≡ line_bits octets.now }
    {
        Octets {
            first: Rest { bits: 0, left: 0 },
            others: octets,
        }
    }

    /// Moves the next octets to the first few, where nothing is left of those; says whether there were any.
    #[inline(always)]
    pub(crate) fn refill(&mut self) -> bool
        requires { self.old.first.left ≡ 0 }
        ensures same { left_in self.new ≡ left_in self.old }
        ensures none { result ≡ false → left_in self.old ≡ [] }
        ensures fewer { result ≡ true → length self.new.others.now < length self.old.others.now }
    {
        match self.others {
            [a, b, c, d, e, f, g, more @ ..] => {
                self.first = seven(*a, *b, *c, *d, *e, *f, *g);
                self.others = more;
                true
            }
            [octet, more @ ..] => {
                self.first = Rest::new(*octet);
                self.others = more;
                true
            }
            [] => false,
        }
    }
}

/// The bits of seven octets.
#[inline(always)]
fn seven(a: u8, b: u8, c: u8, d: u8, e: u8, f: u8, g: u8) -> Rest
    ensures { rest_of result ≡ line_bits (a ∷ b ∷ c ∷ d ∷ e ∷ f ∷ g ∷ []) }
{
    Rest {
        bits: u64::from_le_bytes([a, b, c, d, e, f, g, 0]),
        left: 56,
    }
}
