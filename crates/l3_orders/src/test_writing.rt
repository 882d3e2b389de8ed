//! A test message to a body, and the message that traffic is allowed again.
ghost use Rattle.std.specs.Prelude.{◌≡◌, ◌<◌, ◌^◌};
ghost use Rattle.l3_orders.specs.Grammar.{IsEnvelope};
ghost use Rattle.l3_orders.specs.Tests.{IsTest, restart_text, test_pattern, test_text};

use super::link_test::{LONGEST_PATTERN, LinkTest, SLTA, SLTM, TestKind};
use super::writing::{headed, label};
use arrayvec::ArrayVec;

/// The heading code of the traffic restart allowed message (Q.704 15): H0 7, H1 1.
const TRA: u8 = 0x17;

/// The body of a test message: its one text with the spare bits 0. `sio` is the set's service
/// information octet, whose sub-service field it keeps, with the service indicator 1; `dpc` is the
/// point code that it goes to, `opc` the one that it comes from.
///
/// Conditions: a link below 16, a pattern of 1 to 15 octets, and point codes of at most 16,383.
pub fn write_test(test: &LinkTest, sio: u8, dpc: u16, opc: u16) -> ArrayVec<u8, 273>
    requires test { IsTest test.now }
    requires to { dpc < 2 ^ 14 }
    requires from { opc < 2 ^ 14 }
    ensures { result.items ≡ test_text test.now sio dpc opc }
{
    let heading = match test.kind {
        TestKind::Message => SLTM,
        TestKind::Acknowledgement => SLTA,
    };
    let mut body = headed(sio / 16 * 16 + 1, label(dpc, opc, test.link), heading);
    body.push(test.pattern.len() as u8 * 16);
    match body.try_extend_from_slice(&test.pattern) {
        Ok(()) => body,
        Err(_) => unreachable!(),
    }
}

/// The pattern of a link's test with this number: the number in four octets, lowest first.
pub fn pattern_of(number: u32) -> ArrayVec<u8, LONGEST_PATTERN>
    ensures { result.items ≡ test_pattern number }
{
    let mut pattern = ArrayVec::new();
    match pattern.try_extend_from_slice(&number.to_le_bytes()) {
        Ok(()) => pattern,
        Err(_) => unreachable!(),
    }
}

/// The body of the traffic restart allowed message that goes on this link (Q.704 9): SIO, label and
/// heading code. `sio`, `dpc` and `opc` as with an order.
///
/// Conditions: a link below 16, a service indicator 0 in `sio`, and point codes of at most 16,383.
pub fn write_restart_allowed(link: u8, sio: u8, dpc: u16, opc: u16) -> ArrayVec<u8, 273>
    requires link { link < 16 }
    requires envelope { IsEnvelope sio dpc opc }
    ensures { result.items ≡ restart_text link sio dpc opc }
{
    headed(sio, label(dpc, opc, link), TRA)
}
