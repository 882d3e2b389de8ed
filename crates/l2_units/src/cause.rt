//! Causes of a failed link.
ghost use Rattle.std.specs.Prelude.{◌≡◌};
ghost use Rattle.l2_units.specs.Numbers.{cause_number, cause_of, fault_number};

/// Why a link left service. Each has a number, for reports (own).
#[derive(Clone, Copy, Debug, PartialEq, Eq)]
pub enum Cause {
    /// The signal unit error rate monitor tripped (Q.703 10.2).
    Suerm = 1,
    /// Abnormal BSNs were heard (Q.703 5.3.1).
    Bsn = 2,
    /// Abnormal FIBs were heard (Q.703 5.3.2).
    Fib = 3,
    /// T1 ended: the far end didn't get ready (Q.703 12).
    T1 = 4,
    /// T6 ended: the far end was busy too long (Q.703 9.3).
    T6 = 5,
    /// T7 ended: an acknowledgement stayed out too long (Q.703 5.3.1).
    T7 = 6,
    /// A status was heard that ends the link's service (Q.703 12).
    Status = 7,
    /// Alignment wasn't possible (Q.703 7).
    NotPossible = 8,
    /// The link was stopped at this end (Q.703 12).
    Stop = 9,
}

impl Cause {
    /// The cause's number, 1 to 9.
    pub fn number(self) -> u8
        ensures { result ≡ cause_number self }
    {
        self as u8
    }
}

/// Why an error control finds the link faulty: the causes that a heard unit can tell.
#[derive(Clone, Copy, Debug, PartialEq, Eq)]
pub enum ControlFault {
    /// Two abnormal BSNs in three consecutive units (Q.703 5.3.1).
    Bsn,
    /// Two abnormal FIBs in three consecutive units (Q.703 5.3.2).
    Fib,
}

impl ControlFault {
    /// The cause for which the link leaves service then.
    pub fn cause(self) -> Cause
        ensures { result ≡ cause_of self }
    {
        match self {
            ControlFault::Bsn => Cause::Bsn,
            ControlFault::Fib => Cause::Fib,
        }
    }

    /// The cause's number: 2 BSN, 3 FIB.
    pub fn number(self) -> u8
        ensures { result ≡ fault_number self }
    {
        self.cause().number()
    }
}
