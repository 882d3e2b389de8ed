//! Test messages and the traffic restart allowed message, worked out by hand from Q.704 15.2 and Q.707 2.2: in each label the
//! bits of DPC, OPC and SLC are written as one number, the SLC first, and cut into octets from its end.

use super::bench::holds;
use arrayvec::ArrayVec;
use l3_orders::{
    LinkTest, TestFault, TestKind, pattern_of, read_test, write_restart_allowed, write_test,
};
use std::test::Fail;

/// A test of link 0 from point code 2 to 1: 0000 00000000000010 00000000000001 is 00 00 80 01. One octet of pattern.
const SLTM_OF_LINK_0: [u8; 8] = [0x81, 1, 0x80, 0, 0x00, 0x11, 0x10, 0xA5];

/// The answer to a test of link 15 from point code 1 to 2: 1111 00000000000001 00000000000010 is F0 00 40 02.
const SLTA_OF_LINK_15: [u8; 11] = [0xC1, 2, 0x40, 0, 0xF0, 0x21, 0x40, 0xD2, 2, 0x96, 0x49];

/// A test of link 7 from 10,940 to 4,660, whose pattern has 15 octets: 0111 10101010111100 01001000110100 is 7A AF 12 34.
const LONGEST: [u8; 22] = [
    0x81, 0x34, 0x12, 0xAF, 0x7A, 0x11, 0xF0, 1, 2, 3, 4, 5, 6, 7, 8, 9, 10, 11, 12, 13, 14, 15,
];

/// A test with this pattern.
fn test_with(kind: TestKind, link: u8, octets: &[u8]) -> Option<LinkTest> {
    let mut pattern = ArrayVec::new();
    pattern.try_extend_from_slice(octets).ok()?;
    Some(LinkTest {
        kind,
        link,
        pattern,
    })
}

/// The test is written so.
fn is_written(test: Option<LinkTest>, sio: u8, dpc: u16, opc: u16, text: &[u8]) -> bool {
    match test {
        Some(test) if test.link < 16 && !test.pattern.is_empty() && dpc < 16_384 && opc < 16_384 =>
            { write_test(&test, sio, dpc, opc).as_slice() == text }
        _ => false,
    }
}

/// These octets are read as this test by the end `opc`, whose neighbour is `dpc`.
fn is_read(text: &[u8], opc: u16, dpc: u16, test: Option<LinkTest>) -> bool {
    read_test(text, opc, dpc).ok() == test
}

/// Point code 1, whose neighbour is 2, reads no test in these octets, for this reason.
fn is_refused(text: &[u8], why: TestFault) -> bool {
    read_test(text, 1, 2).err() == Some(why)
}

/// They are these octets.
fn are(octets: &[u8], text: &[u8]) -> bool {
    octets == text
}

/// SIO 80 goes out as 81.
#[test]
fn sltm_of_link_0() -> Result<(), Fail> {
    holds(
        is_written(
            test_with(TestKind::Message, 0, &[0xA5]),
            0x80,
            1,
            2,
            &SLTM_OF_LINK_0,
        ) && is_read(
            &SLTM_OF_LINK_0,
            1,
            2,
            test_with(TestKind::Message, 0, &[0xA5]),
        ),
    )
}

/// SIO C0 goes out as C1. The pattern is that of test 0x499602D2.
#[test]
fn slta_of_link_15() -> Result<(), Fail> {
    let pattern = pattern_of(1_234_567_890);
    let test = LinkTest {
        kind: TestKind::Acknowledgement,
        link: 15,
        pattern,
    };
    holds(
        is_written(Some(test), 0xC0, 2, 1, &SLTA_OF_LINK_15)
            && is_read(
                &SLTA_OF_LINK_15,
                2,
                1,
                test_with(TestKind::Acknowledgement, 15, &[0xD2, 2, 0x96, 0x49]),
            ),
    )
}

/// The longest pattern; an SIO that has the service indicator 5 goes out with 1.
#[test]
fn fifteen_octets_of_pattern() -> Result<(), Fail> {
    let pattern = [1, 2, 3, 4, 5, 6, 7, 8, 9, 10, 11, 12, 13, 14, 15];
    holds(
        is_written(
            test_with(TestKind::Message, 7, &pattern),
            0x85,
            4_660,
            10_940,
            &LONGEST,
        ) && is_read(
            &LONGEST,
            4_660,
            10_940,
            test_with(TestKind::Message, 7, &pattern),
        ),
    )
}

#[test]
fn spare_bits_are_not_looked_at() -> Result<(), Fail> {
    let text = [0x81, 1, 0x80, 0, 0x00, 0x11, 0x1F, 0xA5];
    holds(is_read(&text, 1, 2, test_with(TestKind::Message, 0, &[0xA5])))
}

#[test]
fn tests_are_refused_in_their_order() -> Result<(), Fail> {
    holds(
        is_refused(&[], TestFault::NotTest)
            && is_refused(&[0x80, 1, 0x80, 0, 0, 0x11, 0x10, 0xA5], TestFault::NotTest)
            && is_refused(&[0x81, 1, 0x80, 0, 0], TestFault::Unknown)
            && is_refused(&[0x81, 9, 0x80, 0, 0, 0x31, 0x10], TestFault::Unknown)
            && is_refused(&[0x81, 9, 0x80, 0, 0, 0x11], TestFault::Length)
            && is_refused(&[0x81, 9, 0x80, 0, 0, 0x21, 0x0F], TestFault::Length)
            && is_refused(&[0x81, 9, 0x80, 0, 0, 0x11, 0x20, 1], TestFault::Length)
            && is_refused(&[0x81, 9, 0x80, 0, 0, 0x11, 0x10, 1, 1], TestFault::Length)
            && is_refused(&[0x81, 9, 0x80, 0, 0, 0x11, 0x10, 1], TestFault::Stranger)
            && is_refused(&[0x81, 1, 0xC0, 0, 0, 0x11, 0x10, 1], TestFault::Stranger)
            && is_refused(&[0x81, 2, 0x40, 0, 0, 0x11, 0x10, 1], TestFault::Stranger),
    )
}

#[test]
fn refusals_of_tests_have_their_numbers() -> Result<(), Fail> {
    holds(
        TestFault::NotTest.number() == 1
            && TestFault::Unknown.number() == 2
            && TestFault::Length.number() == 3
            && TestFault::Stranger.number() == 4,
    )
}

/// Tests 0, 258 and the last before the numbers begin anew.
#[test]
fn patterns_are_the_number_of_the_test() -> Result<(), Fail> {
    holds(
        are(&pattern_of(0), &[0, 0, 0, 0])
            && are(&pattern_of(258), &[2, 1, 0, 0])
            && are(&pattern_of(u32::MAX), &[0xFF, 0xFF, 0xFF, 0xFF]),
    )
}

/// DPC 1, OPC 2, SLC 3: 0011 00000000000010 00000000000001 is 30 00 80 01. TRA is H1 1, H0 7.
#[test]
fn traffic_is_allowed_on_link_3() -> Result<(), Fail> {
    holds(are(
        &write_restart_allowed(3, 0x80, 1, 2),
        &[0x80, 1, 0x80, 0, 0x30, 0x17],
    ))
}
