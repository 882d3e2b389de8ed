//! A body to a test message.
ghost use Rattle.std.specs.Prelude.{◌≡◌, ◌≤◌, IfOk, length};
ghost use Rattle.std.specs.Result.{result_ok, result_err};
ghost use Rattle.l3_orders.specs.declared.link_test.LinkTest.{LinkTest};
ghost use Rattle.l3_orders.specs.TestFault.{fault_number, kind_with, test_refusal};
ghost use Rattle.l3_orders.specs.Tests.{StandsForTest, is_between, test_of};

use super::link_test::{LONGEST_PATTERN, LinkTest, SLTA, SLTM, TestKind};
use arrayvec::ArrayVec;
use thiserror::Error;

/// Why a body is no test message. The first that applies, in this order, is answered.
#[derive(Clone, Copy, Debug, Drop, PartialEq, Eq, Error)]
pub enum TestFault {
    /// No octets, or a service indicator that isn't 1: no message of testing and maintenance.
    #[error("no message of the signalling network testing and maintenance")]
    NotTest = 1,
    /// No heading code, or neither SLTM nor SLTA.
    #[error("neither SLTM nor SLTA")]
    Unknown = 2,
    /// No test pattern, or not as long as its length says.
    #[error("not as long as its pattern")]
    Length = 3,
    /// Not to this end, or not from its neighbour.
    #[error("not between these two point codes")]
    Stranger = 4,
}

impl TestFault {
    /// The refusal's number: 1 not a test, 2 unknown, 3 length, 4 stranger.
    pub fn number(self) -> u8
        ensures { result ≡ fault_number self }
    {
        self as u8
    }
}

/// The test message that a body stands for, heard at the end with point code `opc` from its
/// neighbour with `dpc`: in its label they are turned round.
///
/// Refusals, in this order: 1 [`TestFault::NotTest`] without octets or with a service indicator
/// that isn't 1, 2 [`TestFault::Unknown`] without octet 5 or where it's no heading code of a test,
/// 3 [`TestFault::Length`] without octet 6, with a length of 0, or with not exactly as many octets
/// after it, 4 [`TestFault::Stranger`] where the label's DPC isn't `opc` or its OPC isn't `dpc`.
pub fn read_test(body: &[u8], opc: u16, dpc: u16) -> Result<LinkTest, TestFault>
    ensures found { IfOk result (λ test. StandsForTest opc dpc body.now test) }
    ensures only { (test : LinkTest) → StandsForTest opc dpc body.now test → result ≡ Ok test }
    ensures exact { result_ok result ≡ test_of opc dpc body.now }
    ensures refused { result_err result ≡ test_refusal opc dpc body.now }
{
    // Q.704 14.2.1: the service indicator is the low half of the SIO.
    match body.first() {
        Some(sio) if *sio % 16 == 1 => {}
        _ => return Err(TestFault::NotTest),
    }
    let [_, a, b, c, d, heading, content @ ..] = body else {
        return Err(TestFault::Unknown);
    };
    let Some(kind) = kind_with(*heading) else {
        return Err(TestFault::Unknown);
    };
    let [size, pattern @ ..] = content else {
        return Err(TestFault::Length);
    };
    if pattern.is_empty() || pattern.len() != usize::from(*size / 16) {
        return Err(TestFault::Length);
    }
    // Q.707: a line that is crossed brings the tests of other ends.
    if !is_between(u32::from_le_bytes([*a, *b, *c, *d]), opc, dpc) {
        return Err(TestFault::Stranger);
    }
    Ok(LinkTest {
        kind,
        link: *d / 16,
        pattern: pattern_of_octets(pattern),
    })
}

/// The test with this heading code.
fn kind_with(heading: u8) -> Option<TestKind>
    ensures { result ≡ kind_with heading }
{
    match heading {
        SLTM => Some(TestKind::Message),
        SLTA => Some(TestKind::Acknowledgement),
        _ => None,
    }
}

/// Whether a label goes to `opc` and comes from `dpc`: DPC in 14 bits, OPC in 14 (Q.704 15.2).
fn is_between(label: u32, opc: u16, dpc: u16) -> bool
    ensures { result ≡ is_between label opc dpc }
{
    label % 0x4000 == u32::from(opc) && label / 0x4000 % 0x4000 == u32::from(dpc)
}

/// A pattern of these octets.
fn pattern_of_octets(octets: &[u8]) -> ArrayVec<u8, LONGEST_PATTERN>
    requires { length octets.now ≤ 15 }
    ensures { result.items ≡ octets.now }
{
    let mut pattern = ArrayVec::new();
    match pattern.try_extend_from_slice(octets) {
        Ok(()) => pattern,
        Err(_) => unreachable!(),
    }
}
