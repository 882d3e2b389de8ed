//! The codes of Q.703 11.1.3, as the standard lists them.
use super::holds;
use l2_units::*;
use std::test::Fail;

/// The low three bits of each octet are its status.
fn are_codes(codes: &[(u8, Status)]) -> bool {
    for code in codes {
        let (octet, status) = *code;
        if Status::of(octet) != status || status.number() != octet % 8 {
            return false;
        }
    }
    true
}

#[test]
fn statuses_have_the_codes_of_the_standard() -> Result<(), Fail> {
    holds(are_codes(&[
        (0, Status::OutOfAlignment),
        (1, Status::Normal),
        (2, Status::Emergency),
        (3, Status::OutOfService),
        (4, Status::ProcessorOutage),
        (5, Status::Busy),
        (6, Status::Unassigned6),
        (7, Status::Unassigned7),
        (0xFD, Status::Busy),
    ]))
}

/// The causes are numbered in this order, from 1 on.
fn are_numbered(causes: &[Cause]) -> bool {
    let mut number = 0u8;
    for cause in causes {
        number = number.saturating_add(1);
        if cause.number() != number {
            return false;
        }
    }
    true
}

#[test]
fn causes_are_numbered_from_suerm_to_stop() -> Result<(), Fail> {
    holds(are_numbered(&[
        Cause::Suerm,
        Cause::Bsn,
        Cause::Fib,
        Cause::T1,
        Cause::T6,
        Cause::T7,
        Cause::Status,
        Cause::NotPossible,
        Cause::Stop,
    ]))
}
