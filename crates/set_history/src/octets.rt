//! Octets to an entry. Octets that no entry was written to are read, too, as some entry.
ghost use Rattle.std.specs.Prelude.{◌≡◌, take, drop};

use super::entry_ref::EntryRef;
use super::forms::{fate_of, refusal_of, report_of};
use l2_units::{LONGEST_BODY, Status, UnitRef, wide_form_of, wide_header_of};
use set_events::{Actor, AnswerRef, EventRef};
use std::marker::Model;

/// Octets that are read from the first to the last. Contracts see those that are left.
///
/// What reads a part of an entry is inlined, so that the place that is read next needs no memory.
#[derive(Drop)]
pub(crate) struct Octets<'a> {
    pub(crate) left: &'a [u8],
}

impl<'a> Model for Octets<'a> {
    ghost use Rattle.std.specs.Prelude.{List, ℕ};

    ghost Value = { List ℕ };

    ghost view = { λ o. o.left.now };
}

/// The first octets, so many or as many as there are, and those behind.
#[inline(always)]
pub(crate) fn apart<'a>(octets: &'a [u8], size: usize) -> (&'a [u8], &'a [u8])
    ensures first { result.0.now ≡ take size octets.now }
    ensures behind { result.1.now ≡ drop size octets.now }
{
    octets.split_at(size.min(octets.len()))
}

impl<'a> Octets<'a> {
    ghost use Rattle.std.specs.Prelude.{◌≤◌, ◌^◌, ◌+◌, ◌*◌, if◌then◌else◌, length};
    ghost use Rattle.l2_units.specs.Lent.{body_in as unit_body, unit_in};
    ghost use Rattle.set_events.specs.Lent.{HasFitUnit, answer_in, body_in, event_in};
    ghost use Rattle.set_history.specs.Told.{octet, chunk, number, behind_number, body, behind_body, unit, behind_unit};
    ghost use Rattle.set_history.specs.Told.{who_at, behind_who_at, event_told, behind_event};
    ghost use Rattle.set_history.specs.Told.{answer_told, behind_answer, entry_told, behind_entry};

    /// The entry that stands first.
    pub(crate) fn entry(&mut self) -> EntryRef<'a>
        ensures value { result ≡ entry_told self.old }
        ensures behind { self.new ≡ behind_entry self.old }
    {
        let first = self.octet();
        EntryRef {
            who: self.who(first >= 128),
            asked: self.event(first % 16),
            answered: self.answer(first / 16 % 8),
        }
    }

    /// Who asked: a terminal or a user.
    fn who(&mut self, terminal: bool) -> Actor
        ensures value { result ≡ who_at terminal self.old }
        ensures behind { self.new ≡ behind_who_at terminal self.old }
    {
        if terminal {
            Actor::Terminal(self.octet())
        } else {
            Actor::User((self.number() % 0x1_0000) as u16)
        }
    }

    /// What was asked, of this form.
    fn event(&mut self, form: u8) -> EventRef<'a>
        ensures value { event_in result ≡ event_told form self.old }
        ensures behind { self.new ≡ behind_event form self.old }
        ensures fits { HasFitUnit result }
    {
        match form {
            0 => EventRef::Offer {
                body: self.offered(),
            },
            1 => EventRef::Take,
            2 => EventRef::Find {
                number: self.number(),
            },
            3 => EventRef::Next { link: self.octet() },
            4 => EventRef::Heard {
                link: self.octet(),
                unit: self.unit(),
            },
            5 => EventRef::Up { link: self.octet() },
            6 => EventRef::Down { link: self.octet() },
            7 => EventRef::DownBlind { link: self.octet() },
            8 => EventRef::NoAnswer { link: self.octet() },
            9 => EventRef::Restore { link: self.octet() },
            10 => EventRef::BackTimeout { link: self.octet() },
            11 => EventRef::Timed { link: self.octet() },
            12 => EventRef::Redeclare { link: self.octet() },
            _ => EventRef::Test { link: self.octet() },
        }
    }

    /// What was answered, of this form.
    fn answer(&mut self, form: u8) -> AnswerRef<'a>
        ensures value { answer_in result ≡ answer_told form self.old }
        ensures behind { self.new ≡ behind_answer form self.old }
        ensures few { length (body_in result) ≤ 273 }
    {
        match form {
            0 => AnswerRef::Accepted {
                number: self.number(),
            },
            1 => AnswerRef::Taken { body: self.body() },
            2 => AnswerRef::Found {
                fate: fate_of(self.number()),
            },
            3 => AnswerRef::Sent { unit: self.unit() },
            4 => AnswerRef::Heard {
                report: report_of(self.number()),
            },
            5 => AnswerRef::Done,
            _ => AnswerRef::Refused {
                why: refusal_of(self.octet()),
            },
        }
    }

    /// A unit: its header and form in four octets, and an MSU's body.
    #[inline(always)]
    fn unit(&mut self) -> UnitRef<'a>
        ensures value { unit_in result ≡ unit self.old }
        ensures behind { self.new ≡ behind_unit self.old }
        ensures few { length (unit_body result) ≤ 273 }
    {
        let word = u32::from_le_bytes(self.chunk());
        let head = wide_header_of(word);
        match wide_form_of(word) {
            0 => UnitRef::Fisu { head },
            1 => UnitRef::Msu {
                head,
                body: self.body(),
            },
            form => UnitRef::Lssu {
                head,
                status: Status::of(form),
            },
        }
    }

    /// A body of a unit, of at most 273 octets.
    #[inline(always)]
    fn body(&mut self) -> &'a [u8]
        ensures value { result.now ≡ body 273 self.old }
        ensures behind { self.new ≡ behind_body 273 self.old }
        ensures few { length result.now ≤ 273 }
    {
        let size = self.number().min(LONGEST_BODY as u64);
        self.first(size as usize)
    }

    /// A body that was offered, of any length.
    fn offered(&mut self) -> &'a [u8]
        ensures value { result.now ≡ body (2 ^ 64) self.old }
        ensures behind { self.new ≡ behind_body (2 ^ 64) self.old }
    {
        let size = self.number();
        self.first(size as usize)
    }

    /// The first octets, so many or as many as there are.
    #[inline(always)]
    fn first(&mut self, size: usize) -> &'a [u8]
        ensures value { result.now ≡ take size self.old }
        ensures behind { self.new ≡ drop size self.old }
        ensures few { length result.now ≤ size }
    {
        let (first, behind) = self.left.split_at(size.min(self.left.len()));
        self.left = behind;
        first
    }

    /// A number in one octet, or in two, four or eight behind one that says so.
    #[inline(always)]
    fn number(&mut self) -> u64
        ensures value { result ≡ number self.old }
        ensures behind { self.new ≡ behind_number self.old }
    {
        let first = self.octet();
        if first < 253 {
            return u64::from(first);
        }
        match first {
            253 => u64::from(u16::from_le_bytes(self.chunk())),
            254 => u64::from(u32::from_le_bytes(self.chunk())),
            _ => u64::from_le_bytes(self.chunk()),
        }
    }

    /// So many octets; zeros where there are fewer.
    #[inline(always)]
    fn chunk<const N: usize>(&mut self) -> [u8; N]
        ensures value { result ≡ chunk N self.old }
        ensures behind { self.new ≡ drop N self.old }
    {
        match self.left.split_first_chunk() {
            Some((chunk, rest)) => {
                self.left = rest;
                *chunk
            }
            None => {
                self.left = &[];
                [0; N]
            }
        }
    }

    /// The first octet; 0 where there is none.
    #[inline(always)]
    fn octet(&mut self) -> u8
        ensures value { result ≡ octet self.old }
        ensures behind { self.new ≡ drop 1 self.old }
    {
        match self.left.split_first() {
            Some((first, rest)) => {
                self.left = rest;
                *first
            }
            None => 0,
        }
    }
}
