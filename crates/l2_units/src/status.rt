//! Status indications.
ghost use Rattle.std.specs.Prelude.{◌≡◌, ◌<◌, ◌%◌};
ghost use Rattle.l2_units.specs.Numbers.{status_number};

/// A status indication (Q.703 11.1.3): the low three bits of a link status signal unit's status field.
#[derive(Clone, Copy, Debug, PartialEq, Eq)]
pub enum Status {
    /// O, SIO: the sender is out of alignment.
    OutOfAlignment = 0,
    /// N, SIN: the sender is aligned, and asks for a normal proving period.
    Normal = 1,
    /// E, SIE: the sender is aligned, and asks for an emergency proving period.
    Emergency = 2,
    /// OS, SIOS: the sender is out of service.
    OutOfService = 3,
    /// PO, SIPO: the sender has a processor outage.
    ProcessorOutage = 4,
    /// B, SIB: the sender is busy.
    Busy = 5,
    /// 6 isn't assigned; every machine ignores it (own).
    Unassigned6 = 6,
    /// 7 isn't assigned; every machine ignores it (own).
    Unassigned7 = 7,
}

impl Status {
    /// The three bits of the status, 0 to 7.
    pub fn number(self) -> u8
        ensures number { result ≡ status_number self }
        ensures bits { result < 8 }
    {
        self as u8
    }

    /// The status of the low three bits of an octet; the others aren't looked at (own).
    pub fn of(octet: u8) -> Status
        ensures { status_number result ≡ octet % 8 }
    {
        match octet % 8 {
            0 => Status::OutOfAlignment,
            1 => Status::Normal,
            2 => Status::Emergency,
            3 => Status::OutOfService,
            4 => Status::ProcessorOutage,
            5 => Status::Busy,
            6 => Status::Unassigned6,
            _ => Status::Unassigned7,
        }
    }
}
