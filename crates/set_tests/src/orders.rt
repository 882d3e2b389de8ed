//! Orders worked out by hand from Q.704 15.2 to 15.6: in each label the bits of DPC, OPC and SLC are
//! written as one number, the SLC first, and cut into octets from its end.
ghost use Rattle.l2_units.specs.declared.profile.Profile.TheVariants.{Narrow};
ghost use Rattle.l3_orders.specs.Grammar.{IsEnvelope, IsOrder};

use super::bench::holds;
use l3_orders::*;
use std::test::Fail;

/// The order is written so.
fn is_written(order: Order, sio: u8, dpc: u16, opc: u16, text: &[u8]) -> bool
    requires order { IsOrder Narrow order }
    requires envelope { IsEnvelope sio dpc opc }
{
    write_order(&order, sio, dpc, opc).as_slice() == text
}

/// These octets are read as this order.
fn is_read(text: &[u8], order: Order) -> bool {
    read_order(text) == Ok(order)
}

/// These octets are no order, for this reason.
fn is_refused(text: &[u8], why: OrderFault) -> bool {
    read_order(text) == Err(why)
}

/// DPC 1, OPC 2, SLC 3: 0011 00000000000010 00000000000001 is 30 00 80 01. COO is H1 1, H0 1; FSN 5.
#[test]
fn coo_of_link_3() -> Result<(), Fail> {
    let text = [0x80, 1, 0x80, 0, 0x30, 0x11, 5];
    let order = Order::Coo { link: 3, number: 5 };
    holds(is_written(order, 0x80, 1, 2, &text) && is_read(&text, order))
}

/// DPC 16,383, OPC 0, SLC 15: 1111 00000000000000 11111111111111 is F0 00 3F FF. COA is H1 2, H0 1;
/// FSN 127 is 7F, and FF with the spare bit.
#[test]
fn coa_of_link_15_with_a_spare_bit() -> Result<(), Fail> {
    let text = [0x80, 0xFF, 0x3F, 0, 0xF0, 0x21, 0x7F];
    let order = Order::Coa {
        link: 15,
        number: 127,
    };
    holds(
        is_written(order, 0x80, 16_383, 0, &text)
            && is_read(&text, order)
            && is_read(&[0x80, 0xFF, 0x3F, 0, 0xF0, 0x21, 0xFF], order),
    )
}

/// DPC 1, OPC 2, SLC 1: 0001 00000000000010 00000000000001 is 10 00 80 01. CBD is H1 5, H0 1; the
/// code has all eight bits.
#[test]
fn cbd_of_link_1() -> Result<(), Fail> {
    let text = [0x80, 1, 0x80, 0, 0x10, 0x51, 0x90];
    let order = Order::Cbd {
        link: 1,
        code: 0x90,
    };
    holds(is_written(order, 0x80, 1, 2, &text) && is_read(&text, order))
}

/// DPC 2, OPC 1, SLC 1: 0001 00000000000001 00000000000010 is 10 00 40 02. CBA is H1 6, H0 1.
#[test]
fn cba_of_link_1() -> Result<(), Fail> {
    let text = [0x80, 2, 0x40, 0, 0x10, 0x61, 0x10];
    let order = Order::Cba {
        link: 1,
        code: 0x10,
    };
    holds(is_written(order, 0x80, 2, 1, &text) && is_read(&text, order))
}

/// DPC 4,660, OPC 10,940, SLC 7: 0111 10101010111100 01001000110100 is 7A AF 12 34. ECO is H1 1,
/// H0 2, with nothing after it; a national network has 11 in the highest bits of its SIO.
#[test]
fn eco_of_link_7() -> Result<(), Fail> {
    let text = [0xC0, 0x34, 0x12, 0xAF, 0x7A, 0x12];
    let order = Order::Eco { link: 7 };
    holds(is_written(order, 0xC0, 4_660, 10_940, &text) && is_read(&text, order))
}

/// DPC 0, OPC 16,383, SLC 0: 0000 11111111111111 00000000000000 is 0F FF C0 00. ECA is H1 2, H0 2.
#[test]
fn eca_of_link_0() -> Result<(), Fail> {
    let text = [0x80, 0, 0xC0, 0xFF, 0x0F, 0x22];
    let order = Order::Eca { link: 0 };
    holds(is_written(order, 0x80, 0, 16_383, &text) && is_read(&text, order))
}

#[test]
fn refusals_come_in_their_order() -> Result<(), Fail> {
    holds(
        is_refused(&[], OrderFault::NotManagement)
            && is_refused(&[0x85], OrderFault::NotManagement)
            && is_refused(&[0x80, 1, 0x80, 0, 0x30], OrderFault::Unknown)
            && is_refused(&[0x80, 1, 0x80, 0, 0x30, 0x31, 5, 5], OrderFault::Unknown)
            && is_refused(&[0x80, 1, 0x80, 0, 0x30, 0x11], OrderFault::Length)
            && is_refused(&[0x80, 1, 0x80, 0, 0x30, 0x11, 5, 5], OrderFault::Length)
            && is_refused(&[0x80, 1, 0x80, 0, 0x30, 0x22, 5], OrderFault::Length),
    )
}

#[test]
fn refusals_have_their_numbers() -> Result<(), Fail> {
    holds(
        OrderFault::NotManagement.number() == 1
            && OrderFault::Unknown.number() == 2
            && OrderFault::Length.number() == 3,
    )
}
