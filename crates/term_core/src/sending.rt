//! What is sent: the header of units, and the bits that are left (Q.703 2, 3, 9.3).

ghost use Rattle.std.specs.Prelude.{◌≡◌, ◌≤◌, ◌<◌, false, true, length, nat_lt, take, drop, Some};
ghost use Rattle.l2_bits.specs.LineBits.{number_of};
ghost use Rattle.l2_units.specs.Grammar.{IsHeadOf, head_of};
ghost use Rattle.l2_units.specs.Lent.{body_in, unit_in};
ghost use Rattle.l2_units.specs.declared.profile.Profile.TheVariants.{Narrow};
ghost use Rattle.term_model.specs.Terminal.{last_head as head_before, start_head};
ghost use Rattle.term_model.specs.Choosing.{raised_top, with_head, withheld};
ghost use Rattle.term_model.specs.OctetOut.{Appends};

use crate::inside::{Inside, NarrowHead};
use l2_units::{Header, UnitRef, write_ref};

impl Inside {
    /// A SIB that was due was chosen to be sent.
    pub fn drop_b(&mut self)
        ensures { self.new ≡ record self.old { b_due = false } }
    {
        self.b_due = false;
    }

    /// A message with this FSN was chosen to be sent: a new one follows the last new one, any other is retransmitted
    /// (Q.703 5.2). It isn't acknowledged.
    pub fn raise_top(&mut self, fsn: u16)
        ensures { self.new ≡ record self.old { top = raised_top fsn self.old.top; unacked = true } }
    {
        self.unacked = true;
        let next = self.top.wrapping_add(1) % 128;
        if fsn == u16::from(next) {
            self.top = next;
        }
    }

    /// The header that says nothing new: that of the last unit appended, or that of a link which has neither sent nor
    /// accepted a message (own).
    pub fn last_head(&self) -> Header
        ensures value { result ≡ head_before self.now }
        ensures narrow { IsHeadOf Narrow result }
    {
        match self.last {
            None => first_header(),
            Some(narrow) => narrow.head,
        }
    }

    /// Whether fewer than eight bits are left to send, so that a unit is to be chosen.
    #[inline(always)]
    pub fn is_short(&self) -> bool
        ensures { result ≡ nat_lt (length self.now.bits) 8 }
    {
        self.bits.is_short()
    }

    /// Appends a unit to the bits that are left: its octets and their check octets, with zeros inserted, and a flag
    /// (Q.703 2.2, 3, 4.2). Fewer than eight bits may be left; its numbers have seven bits, and its body at most 273 octets.
    pub fn append(&mut self, unit: &UnitRef<'_>)
        requires short { length self.old.bits < 8 }
        requires narrow { IsHeadOf Narrow (head_of (unit_in unit.now)) }
        requires few { length (body_in unit.now) ≤ 273 }
        ensures on_line { Appends (Some (unit_in unit.now)) self.old.bits self.new.bits }
        ensures next { self.new ≡ record self.old { bits = self.new.bits; last = Some (head_of (unit_in unit.now)) } }
    {
        self.bits.append(write_ref(unit).as_slice());
        self.last = Some(NarrowHead { head: unit.head() });
    }

    /// Whether this end is busy: then it acknowledges nothing new (Q.703 9.3).
    #[inline(always)]
    pub fn is_busy(&self) -> bool
        ensures { result ≡ self.now.flow.busy }
    {
        self.flow.is_busy()
    }

    /// A unit as a busy end sends it: with the acknowledgement of the last unit appended (Q.703 9.3).
    pub fn withholding<'a>(&self, unit: &UnitRef<'a>) -> UnitRef<'a>
        ensures value { unit_in result ≡ with_head (withheld (head_before self.now) (head_of (unit_in unit.now)))
            (unit_in unit.now) }
        ensures narrow { IsHeadOf Narrow (head_of (unit_in unit.now)) → IsHeadOf Narrow (head_of (unit_in result)) }
        ensures body { body_in result ≡ body_in unit.now }
    {
        with_acknowledgement(self.last_head(), unit)
    }

    /// The next eight bits, the first the lowest (Q.703 2.4); where fewer are left, these.
    #[inline(always)]
    pub fn octet(&self) -> u8
        ensures { result ≡ number_of (take 8 self.now.bits) }
    {
        self.bits.octet()
    }

    /// The next eight bits were put on the line.
    #[inline(always)]
    pub fn drop_octet(&mut self)
        ensures { self.new ≡ record self.old { bits = drop 8 self.old.bits } }
    {
        self.bits.drop_octet();
    }
}

/// BSN 127, BIB 1, FSN 127, FIB 1: no message was sent or accepted yet (Q.703 12.1).
pub fn first_header() -> Header
    ensures value { result ≡ start_head }
    ensures narrow { IsHeadOf Narrow result }
{
    Header {
        bsn: 127,
        bib: true,
        fsn: 127,
        fib: true,
    }
}

/// A unit with the acknowledgement of another header.
fn with_acknowledgement<'a>(last: Header, unit: &UnitRef<'a>) -> UnitRef<'a>
    ensures value { unit_in result ≡ with_head (withheld last (head_of (unit_in unit.now))) (unit_in unit.now) }
    ensures narrow { IsHeadOf Narrow last → IsHeadOf Narrow (head_of (unit_in unit.now))
        → IsHeadOf Narrow (head_of (unit_in result)) }
    ensures body { body_in result ≡ body_in unit.now }
{
    match unit {
        UnitRef::Fisu { head } => UnitRef::Fisu {
            head: hold_bsn(last, *head),
        },
        UnitRef::Lssu { head, status } => UnitRef::Lssu {
            head: hold_bsn(last, *head),
            status: *status,
        },
        UnitRef::Msu { head, body } => UnitRef::Msu {
            head: hold_bsn(last, *head),
            body,
        },
    }
}

/// A header with the acknowledgement of another.
fn hold_bsn(last: Header, head: Header) -> Header
    ensures { result ≡ withheld last head }
{
    Header {
        bsn: last.bsn,
        bib: last.bib,
        fsn: head.fsn,
        fib: head.fib,
    }
}
