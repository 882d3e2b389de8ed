//! A far end that is played by octets: it frames and deframes by itself, and has no terminal.
ghost use Rattle.std.specs.Prelude.{◌≡◌, [], ◌∷◌, ◌++◌};

use arrayvec::ArrayVec;
use l2_bits::{Deframer, MarkKind, flag_into, seal, stuff_into};
use l2_units::{Header, LONGEST_UNIT, Status, Unit, header_in, read, write};
use line_ring::{Full, Line, Past};

/// How many units of each kind were heard.
#[derive(Clone, Copy)]
pub(crate) struct Heard {
    /// LSSUs, by the number of their status (Q.703 11.1.3).
    pub(crate) statuses: [u32; 8],
    pub(crate) fisus: u32,
    pub(crate) msus: u32,
}

/// None was heard.
const NONE: Heard = Heard {
    statuses: [0; 8],
    fisus: 0,
    msus: 0,
};

impl Heard {
    /// This unit was heard too.
    fn note(&mut self, unit: &Unit) {
        match unit {
            Unit::Lssu { status, .. } => {
                let number = usize::from(status.number());
                self.statuses[number] = self.statuses[number].saturating_add(1);
            }
            Unit::Fisu { .. } => self.fisus = self.fisus.saturating_add(1),
            Unit::Msu { .. } => self.msus = self.msus.saturating_add(1),
        }
    }
}

/// What the far end does in service, by octet times since it first heard a FISU. It sends FISUs that acknowledge nothing;
/// from `from` to `to` it sends LSSUs of this status; and then FISUs that acknowledge all that it heard.
#[derive(Clone, Copy)]
pub(crate) struct Script {
    pub(crate) from: u32,
    pub(crate) to: u32,
    pub(crate) status: Status,
}

/// So many octet times after the far end changed what it sends, the near end has heard of it, and the far end has heard
/// all that the near end sent before: a unit and a half each way.
const ROUND: u32 = 100;

/// What plays the far end.
#[derive(Drop)]
struct Player {
    deframer: Deframer,
    script: Script,
    /// Octet times since it first heard a FISU.
    time: Option<u32>,
    /// The status that it heard last.
    status: Option<Status>,
    /// The header of the message that it heard last.
    message: Option<Header>,
    /// All that it heard.
    heard: Heard,
    /// What of it came while it sent its status, less a round at the start.
    meanwhile: Heard,
    /// The bits of the unit that it sends, of which so many have gone.
    bits: ArrayVec<bool, 2700>,
    gone: usize,
}

impl Player {
    fn new(script: Script) -> Player {
        Player {
            deframer: Deframer::new(),
            script,
            time: None,
            status: None,
            message: None,
            heard: NONE,
            meanwhile: NONE,
            bits: ArrayVec::new(),
            gone: 0,
        }
    }

    /// Takes an octet of the near end, its lowest bit first (Q.703 2.4).
    fn hear(&mut self, octet: u8) {
        if let Some(time) = self.time {
            self.time = Some(time.saturating_add(1));
        }
        for place in 0..8u8 {
            self.hear_bit((octet >> place) & 1 == 1);
        }
    }

    fn hear_bit(&mut self, bit: bool) {
        if self.deframer.step(bit) == Some(MarkKind::Good) {
            if let Ok(unit) = read(self.deframer.unit()) {
                self.hear_unit(&unit);
            }
        }
    }

    fn hear_unit(&mut self, unit: &Unit) {
        self.heard.note(unit);
        if self.is_meanwhile() {
            self.meanwhile.note(unit);
        }
        match unit {
            Unit::Lssu { status, .. } => self.status = Some(*status),
            Unit::Fisu { .. } => self.time = Some(self.time.unwrap_or(0)),
            Unit::Msu { .. } => self.message = Some(header_in(unit)),
        }
    }

    /// A round after it began to send its status, and before the end of that.
    fn is_meanwhile(&self) -> bool {
        match self.time {
            None => false,
            Some(time) => {
                self.script.from.saturating_add(ROUND) <= time && time < self.script.to
            }
        }
    }

    /// The next octet that it sends, the lowest bit first.
    fn next_octet(&mut self) -> u8 {
        let mut octet = 0u8;
        for place in 0..8u8 {
            if self.next_bit() {
                octet |= 1 << place;
            }
        }
        octet
    }

    fn next_bit(&mut self) -> bool {
        if self.gone >= self.bits.len() {
            self.load();
        }
        let bit = self.bits.get(self.gone) == Some(&true);
        self.gone = self.gone.saturating_add(1);
        bit
    }

    /// Frames the next unit: its octets with check octets, zeros inserted, and a flag (Q.703 3, 4.2).
    fn load(&mut self) {
        let unit = self.next_unit();
        self.gone = 0;
        self.bits.clear();
        stuff_into(seal(octets_of(&unit).as_slice()).as_slice(), &mut self.bits);
        flag_into(&mut self.bits);
    }

    /// While the near end comes up, the status that it sends is sent back to it (Q.703 7.3); then the script goes on.
    fn next_unit(&self) -> Unit {
        match self.time {
            None => status_unit(self.status.unwrap_or(Status::OutOfAlignment)),
            Some(time) if time < self.script.from => Unit::Fisu { head: head(None) },
            Some(time) if time < self.script.to => status_unit(self.script.status),
            Some(_) => Unit::Fisu {
                head: head(self.message),
            },
        }
    }
}

/// The octets of a unit; none of one whose numbers have more than seven bits.
fn octets_of(unit: &Unit) -> ArrayVec<u8, LONGEST_UNIT> {
    let head = header_in(unit);
    if head.bsn < 128 && head.fsn < 128 {
        write(unit)
    } else {
        ArrayVec::new()
    }
}

/// A header that acknowledges this message and all before it; none: nothing (Q.703 5.2).
fn head(message: Option<Header>) -> Header {
    let bsn = match message {
        None => 127,
        Some(head) => head.fsn,
    };
    Header {
        bsn,
        bib: true,
        fsn: 127,
        fib: true,
    }
}

fn status_unit(status: Status) -> Unit {
    Unit::Lssu {
        head: head(None),
        status,
    }
}

/// A line at whose far end a player takes each octet at once, and sends one in each octet time.
#[derive(Drop)]
pub(crate) struct FarEnd {
    player: Player,
    put: Past,
    taken: Past,
}

impl FarEnd {
    pub(crate) fn new(script: Script) -> FarEnd {
        FarEnd {
            player: Player::new(script),
            put: Past::new(),
            taken: Past::new(),
        }
    }

    /// All that the far end heard.
    pub(crate) fn heard(&self) -> Heard {
        self.player.heard
    }

    /// What it heard while it sent its status.
    pub(crate) fn meanwhile(&self) -> Heard {
        self.player.meanwhile
    }
}

impl Line for FarEnd {
    ghost put_so_far = { λ line. line.put };

    ghost taken_so_far = { λ line. line.taken };

    ghost free = { λ line. 0 };

    ghost waiting = { λ line. [] };

    ghost is_same = { λ old new. Unit {0} };

    ghost same_self = { λ line. tt };

    ghost same_on = { λ first second third a b. tt };

    fn put(&mut self, octet: u8) -> Result<(), Full> {
        self.player.hear(octet);
        self.put.note(octet);
        Ok(())
    }

    fn take(&mut self) -> Option<u8> {
        let octet = self.player.next_octet();
        self.taken.note(octet);
        Some(octet)
    }
}
