//! Sets of the wide profile: numbers of twelve bits, and bodies of at most 272 octets.
use super::bench::{
    Call, answers, does, does_all, emitted, heard, holds, is_accepted, is_unacked, message_of,
    of_set, of_set_by, offered, report_of,
};
use l2_units::{Header, Profile, Unit, body_of};
use l3_orders::{Order, OrderFault, read_order, read_order_wide, write_order_wide};
use set_core::{Numbered, SetCore};
use set_events::{Answer, ConfigFault, Event, Method, Refusal, SetConfig, Took};
use std::alloc::Global;
use std::test::Fail;

/// The settings of a wide set of so many links with point code 2. The far end has 1.
fn wide_config(links: u8, method: Method) -> Option<SetConfig> {
    SetConfig::new_wide(0, links, 2, 1, 0x80, method).ok()
}

/// Whether a case holds of such a set by the basic method, of which nothing was asked.
fn of_wide<F: FnOnce(Global, &mut SetCore) -> bool>(alloc: Global, links: u8, case: F) -> bool
    requires { F.IsAlwaysCallable case }
{
    of_set_by(alloc, wide_config(links, Method::Basic), case)
}

/// A header of these numbers modulo 4,096, with indicator bits as they are at first.
fn head_of(bsn: u64, fsn: u64) -> Header {
    Header {
        bsn: (bsn % 4_096) as u16,
        bib: true,
        fsn: (fsn % 4_096) as u16,
        fib: true,
    }
}

/// A message of stream 3 with this header.
fn message_with(head: Header) -> Unit {
    Unit::Msu {
        head,
        body: body_of(&message_of(3)),
    }
}

/// The message of this number is offered and sent under its FSN.
fn is_sent(alloc: Global, set: &mut SetCore, number: u64) -> bool {
    let unit = message_with(head_of(4_095, number));
    is_accepted(alloc, set, &message_of(3), number)
        && answers(set, Event::Next { link: 0 }, Answer::Sent { unit })
}

/// Link 0 hears of so many messages more, the last of this number.
fn are_acknowledged(set: &mut SetCore, messages: u16, last: u64) -> bool {
    let head = head_of(last, 4_095);
    heard(set, 0, Unit::Fisu { head }) == Some(report_of(messages, Took::Nothing))
}

/// The message is offered, sent and acknowledged.
fn goes(alloc: Global, set: &mut SetCore, number: u64) -> bool {
    let fsn = (number % 4_096) as u16;
    is_sent(alloc, set, number)
        && is_unacked(set, 0, 0, Some(Numbered { number, fsn }))
        && are_acknowledged(set, 1, number)
}

/// 5,000 messages one after another, so that the FSNs go round.
fn go_round(alloc: Global, set: &mut SetCore) -> bool {
    if !does(set, Call::Up(0)) {
        return false;
    }
    for number in 0..5_000u64 {
        if !goes(alloc, set, number) {
            return false;
        }
    }
    set.counts().acked == 5_000
}

#[test]
fn wide_fsns_go_round_by_the_basic_method(rt: HostRuntime) -> Result<(), Fail> {
    holds(of_wide(rt.alloc(), 1, go_round))
}

#[test]
fn wide_fsns_go_round_by_cycles(rt: HostRuntime) -> Result<(), Fail> {
    let method = Method::Cyclic {
        n1: 4_095,
        n2: 1_113_840,
    };
    holds(of_set_by(rt.alloc(), wide_config(1, method), go_round))
}

/// With 4,095 messages unacknowledged a FISU goes out, and the next message once they are acknowledged.
#[test]
fn at_most_4095_are_unacknowledged(rt: HostRuntime) -> Result<(), Fail> {
    holds(of_wide(rt.alloc(), 1, |alloc, set| {
        does(set, Call::Up(0)) && most_are_sent(alloc, set) && waits_for_a_number(alloc, set)
    }))
}

fn most_are_sent(alloc: Global, set: &mut SetCore) -> bool {
    for number in 0..4_095u64 {
        if !is_sent(alloc, set, number) {
            return false;
        }
    }
    let last = Numbered {
        number: 4_094,
        fsn: 4_094,
    };
    is_unacked(set, 0, 4_094, Some(last)) && is_unacked(set, 0, 4_095, None)
}

fn waits_for_a_number(alloc: Global, set: &mut SetCore) -> bool {
    let unit = message_with(head_of(4_095, 4_095));
    is_accepted(alloc, set, &message_of(3), 4_095)
        && matches!(emitted(set, 0), Some(Unit::Fisu { .. }))
        && are_acknowledged(set, 4_095, 4_094)
        && answers(set, Event::Next { link: 0 }, Answer::Sent { unit })
}

/// The set refuses these octets so.
fn refuses(alloc: Global, set: &mut SetCore, octets: &[u8], why: Refusal) -> bool {
    match offered(alloc, set, octets) {
        Some(answer) => answer.same(&Answer::Refused { why }),
        None => false,
    }
}

#[test]
fn wide_bodies_have_at_most_272_octets(rt: HostRuntime) -> Result<(), Fail> {
    holds(of_wide(rt.alloc(), 1, takes_272_octets) && of_set(rt.alloc(), 1, takes_273_octets))
}

fn takes_272_octets(alloc: Global, set: &mut SetCore) -> bool {
    let octets = [0x85u8; 273];
    is_accepted(alloc, set, &octets[..272], 0) && refuses(alloc, set, &octets, Refusal::TooLong)
}

fn takes_273_octets(alloc: Global, set: &mut SetCore) -> bool {
    let octets = [0x85u8; 274];
    is_accepted(alloc, set, &octets[..273], 0) && refuses(alloc, set, &octets, Refusal::TooLong)
}

/// Link 0 refuses to hear this unit so.
fn is_not_heard(set: &mut SetCore, unit: Unit, why: Refusal) -> bool {
    answers(set, Event::Heard { link: 0, unit }, Answer::Refused { why })
}

/// A FISU with BSN 300, which has more than seven bits.
fn fisu_300() -> Unit {
    Unit::Fisu {
        head: head_of(300, 4_095),
    }
}

/// A message of 273 octets, one more than a wide one has.
fn longest() -> Unit {
    Unit::Msu {
        head: head_of(4_095, 0),
        body: body_of(&[0x85u8; 273]),
    }
}

#[test]
fn a_unit_of_the_other_profile_is_not_heard(rt: HostRuntime) -> Result<(), Fail> {
    let narrow = of_set(rt.alloc(), 1, |_alloc, set| never_hears_of_300(set));
    holds(narrow && of_wide(rt.alloc(), 1, |_alloc, set| never_hears_273_octets(set)))
}

fn never_hears_of_300(set: &mut SetCore) -> bool {
    is_not_heard(set, fisu_300(), Refusal::NotUp)
        && does(set, Call::Up(0))
        && is_not_heard(set, fisu_300(), Refusal::Nothing)
}

fn never_hears_273_octets(set: &mut SetCore) -> bool {
    is_not_heard(set, longest(), Refusal::NotUp)
        && does(set, Call::Up(0))
        && is_not_heard(set, longest(), Refusal::Nothing)
}

/// A configuration of these limits is refused so, or taken.
fn tells_of_cycles(n1: u16, n2: u32, why: Option<ConfigFault>) -> bool {
    match SetConfig::new_wide(0, 1, 2, 1, 0x80, Method::Cyclic { n1, n2 }) {
        Ok(config) => why.is_none() && config.profile() == Profile::Wide,
        Err(fault) => why == Some(fault),
    }
}

#[test]
fn wide_cycles_out_of_range_are_refused() -> Result<(), Fail> {
    holds(
        tells_of_cycles(4_095, 1_113_840, None)
            && tells_of_cycles(4_096, 1_000, Some(ConfigFault::Cyclic))
            && tells_of_cycles(2, 1_113_841, Some(ConfigFault::Cyclic))
            && tells_of_cycles(0, 1_000, Some(ConfigFault::Cyclic)),
    )
}

/// DPC 1, OPC 2, SLC 3: 30 00 80 01. COO is H1 1, H0 1; FSN 300 is 12C, in twelve bits below four spare ones.
#[test]
fn a_wide_coo_has_eight_octets() -> Result<(), Fail> {
    let text = [0x80, 1, 0x80, 0, 0x30, 0x11, 0x2C, 0x01];
    let order = Order::Coo {
        link: 3,
        number: 300,
    };
    holds(
        write_order_wide(&order, 0x80, 1, 2).as_slice() == text.as_slice()
            && read_order_wide(&text) == Ok(order)
            && read_order_wide(&[0x80, 1, 0x80, 0, 0x30, 0x11, 0x2C, 0xF1]) == Ok(order)
            && read_order_wide(&text[..7]) == Err(OrderFault::Length)
            && read_order(&text) == Err(OrderFault::Length),
    )
}

/// The orders that carry no FSN are the same in both profiles.
#[test]
fn a_wide_cbd_has_seven_octets() -> Result<(), Fail> {
    let text = [0x80, 1, 0x80, 0, 0x10, 0x51, 0x90];
    let order = Order::Cbd {
        link: 1,
        code: 0x90,
    };
    holds(
        write_order_wide(&order, 0x80, 1, 2).as_slice() == text.as_slice()
            && read_order_wide(&text) == Ok(order)
            && read_order(&text) == Ok(order),
    )
}

/// Link 0 accepts 300 messages and fails: its order tells FSN 299, and that of the far end, which accepted none, 4095.
#[test]
fn a_wide_changeover_tells_a_number_over_127(rt: HostRuntime) -> Result<(), Fail> {
    holds(of_wide(rt.alloc(), 2, |_alloc, set| {
        does_all(set, &[Call::Up(0), Call::Up(1)])
            && hears_300(set)
            && changes_over(set)
            && set.is_settled(0)
    }))
}

fn hears_300(set: &mut SetCore) -> bool {
    for number in 0..300u64 {
        let unit = message_with(head_of(4_095, number));
        if heard(set, 0, unit) != Some(report_of(0, Took::Message)) {
            return false;
        }
    }
    true
}

fn changes_over(set: &mut SetCore) -> bool {
    let order = Order::Coo {
        link: 0,
        number: 299,
    };
    let answer = Order::Coa {
        link: 0,
        number: 4_095,
    };
    let unit = Unit::Msu {
        head: head_of(4_095, 0),
        body: write_order_wide(&order, 0x80, 1, 2),
    };
    let back = Unit::Msu {
        head: head_of(0, 0),
        body: write_order_wide(&answer, 0x80, 2, 1),
    };
    does(set, Call::Down(0))
        && answers(set, Event::Next { link: 1 }, Answer::Sent { unit })
        && heard(set, 1, back) == Some(report_of(1, Took::Order))
}

/// 4,500 messages go over link 0. Of the next three the first arrives, the second is lost and the third waits when the link
/// fails, and they are 4500, with FSN 404, to 4502. What's left goes over link 1 behind the order, with FSNs 1 and 2, and
/// 497 more, of which the first has FSN 3.
#[test]
fn a_wide_link_fails_among_5000_messages(rt: HostRuntime) -> Result<(), Fail> {
    let cycles = Method::Cyclic {
        n1: 4_095,
        n2: 1_113_840,
    };
    let basic = of_wide(rt.alloc(), 2, fails_in_the_midst);
    holds(basic && of_set_by(rt.alloc(), wide_config(2, cycles), fails_in_the_midst))
}

fn fails_in_the_midst(alloc: Global, set: &mut SetCore) -> bool {
    does(set, Call::Up(0))
        && so_many_go(alloc, set, 4_500)
        && does(set, Call::Up(1))
        && is_sent(alloc, set, 4_500)
        && is_sent(alloc, set, 4_501)
        && is_accepted(alloc, set, &message_of(3), 4_502)
        && is_left(set)
        && two_follow(set)
        && the_rest_goes(alloc, set)
        && set.counts().acked == 5_000
}

fn so_many_go(alloc: Global, set: &mut SetCore, count: u64) -> bool {
    for number in 0..count {
        if !goes(alloc, set, number) {
            return false;
        }
    }
    true
}

/// Link 0 is left; the far end accepted FSN 404 there last, and this end nothing.
fn is_left(set: &mut SetCore) -> bool {
    let order = Order::Coo {
        link: 0,
        number: 4_095,
    };
    let answer = Order::Coa {
        link: 0,
        number: 404,
    };
    let unit = Unit::Msu {
        head: head_of(4_095, 0),
        body: write_order_wide(&order, 0x80, 1, 2),
    };
    let back = Unit::Msu {
        head: head_of(0, 0),
        body: write_order_wide(&answer, 0x80, 2, 1),
    };
    does(set, Call::Down(0))
        && answers(set, Event::Next { link: 1 }, Answer::Sent { unit })
        && heard(set, 1, back) == Some(report_of(1, Took::Order))
}

/// Link 1 sends the next message under this FSN.
fn follows(set: &mut SetCore, fsn: u64) -> bool {
    let unit = message_with(head_of(0, fsn));
    answers(set, Event::Next { link: 1 }, Answer::Sent { unit })
}

/// Link 1 hears of so many messages more, the last under this FSN.
fn arrive(set: &mut SetCore, messages: u16, fsn: u64) -> bool {
    let head = head_of(fsn, 0);
    heard(set, 1, Unit::Fisu { head }) == Some(report_of(messages, Took::Nothing))
}

fn two_follow(set: &mut SetCore) -> bool {
    follows(set, 1) && follows(set, 2) && arrive(set, 2, 2)
}

fn the_rest_goes(alloc: Global, set: &mut SetCore) -> bool {
    for number in 4_504..5_001u64 {
        let fsn = number.wrapping_sub(4_501);
        let sent = is_accepted(alloc, set, &message_of(3), number) && follows(set, fsn);
        if !sent || !arrive(set, 1, fsn) {
            return false;
        }
    }
    true
}
