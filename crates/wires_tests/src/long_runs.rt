//! Some 10^5 turns of two links of unequal delays, with changeover and changeback, noise and a cut (Q.704 5, 6): users of both
//! ends get each message once, those of each stream in order (Q.704 5.1.1).

use super::pairs::{Deed, all_come, holds};
use set_events::Method;
use std::test::Fail;

/// Both links come up; link 0 is stopped while messages are under way, and its streams change over to link 1; it comes up
/// again, and they come back.
const STOPPED: [Deed; 15] = [
    Deed::Start(0),
    Deed::Start(1),
    Deed::Turns(8_000),
    Deed::IsUp(0, true),
    Deed::IsUp(1, true),
    Deed::Offers(0, 100),
    Deed::Stop(0),
    Deed::Offers(100, 200),
    Deed::IsUp(0, false),
    Deed::Start(0),
    Deed::Turns(8_000),
    Deed::IsUp(0, true),
    Deed::Restore(0),
    Deed::Offers(200, 320),
    Deed::Turns(6_000),
];

/// Now and then an octet comes as another, and the line of link 0 to end B is cut: the link fails, its streams change over,
/// and it comes up again.
const DAMAGED: [Deed; 18] = [
    Deed::Start(0),
    Deed::Start(1),
    Deed::Turns(8_000),
    Deed::Offers(0, 20),
    Deed::Noise(0),
    Deed::Offers(20, 40),
    Deed::Noise(1),
    Deed::Offers(40, 60),
    Deed::Noise(0),
    Deed::Offers(60, 80),
    Deed::Cut(0, 3_000),
    Deed::IsUp(0, false),
    Deed::Offers(80, 160),
    Deed::Start(0),
    Deed::Turns(8_000),
    Deed::IsUp(0, true),
    Deed::IsUp(1, true),
    Deed::Turns(6_000),
];

/// Preventive cyclic retransmission (Q.703 6).
const CYCLIC: Method = Method::Cyclic { n1: 127, n2: 8_000 };

#[test]
fn each_message_comes_once(rt: HostRuntime) -> Result<(), Fail> {
    holds(all_come(rt.alloc(), Method::Basic, STOPPED.as_slice(), 320))
}

#[test]
fn each_comes_once_with_cyclic_retransmission(rt: HostRuntime) -> Result<(), Fail> {
    holds(all_come(rt.alloc(), CYCLIC, STOPPED.as_slice(), 320))
}

#[test]
fn each_comes_once_on_damaged_lines(rt: HostRuntime) -> Result<(), Fail> {
    holds(all_come(rt.alloc(), Method::Basic, DAMAGED.as_slice(), 160))
}

#[test]
fn each_comes_once_on_damaged_lines_with_cyclic_retransmission(
    rt: HostRuntime,
) -> Result<(), Fail> {
    holds(all_come(rt.alloc(), CYCLIC, DAMAGED.as_slice(), 160))
}
