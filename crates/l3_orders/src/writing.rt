//! An order to a body.
ghost use Rattle.std.specs.Prelude.{◌≡◌, ◌<◌, ◌≤◌, ◌+◌, ◌*◌, ◌^◌, [], ◌∷◌, ◌++◌, length};
ghost use Rattle.l2_units.specs.Grammar.{four_octets};
ghost use Rattle.l2_units.specs.declared.profile.Profile.TheVariants.{Narrow, Wide};
ghost use Rattle.l3_orders.specs.Grammar.{IsEnvelope, IsOrder, text, label_number};

use super::order::{CBA, CBD, COA, COO, ECA, ECO, Order};
use arrayvec::ArrayVec;

/// The body of an order: its one text with the spare bit 0. `sio` is the set's service information
/// octet, `dpc` the point code that the order goes to, `opc` the one that it comes from.
///
/// Conditions: a link below 16, a number below 128, a service indicator 0 in `sio`, and point codes
/// of at most 16,383.
pub fn write_order(order: &Order, sio: u8, dpc: u16, opc: u16) -> ArrayVec<u8, 273>
    requires order { IsOrder Narrow order.now }
    requires envelope { IsEnvelope sio dpc opc }
    ensures { result.items ≡ text Narrow order.now sio dpc opc }
{
    match *order {
        Order::Coo { link, number } => body_of(sio, label(dpc, opc, link), COO, &[number as u8]),
        Order::Coa { link, number } => body_of(sio, label(dpc, opc, link), COA, &[number as u8]),
        Order::Cbd { link, code } => body_of(sio, label(dpc, opc, link), CBD, &[code]),
        Order::Cba { link, code } => body_of(sio, label(dpc, opc, link), CBA, &[code]),
        Order::Eco { link } => body_of(sio, label(dpc, opc, link), ECO, &[]),
        Order::Eca { link } => body_of(sio, label(dpc, opc, link), ECA, &[]),
    }
}

/// The same in the wide profile: the number of a COO or COA has two octets, and is below 4,096.
pub fn write_order_wide(order: &Order, sio: u8, dpc: u16, opc: u16) -> ArrayVec<u8, 273>
    requires order { IsOrder Wide order.now }
    requires envelope { IsEnvelope sio dpc opc }
    ensures { result.items ≡ text Wide order.now sio dpc opc }
{
    match *order {
        Order::Coo { link, number } => {
            body_of(
                sio,
                label(dpc, opc, link),
                COO,
                &[(number % 256) as u8, (number / 256) as u8],
            )
        }
        Order::Coa { link, number } => {
            body_of(
                sio,
                label(dpc, opc, link),
                COA,
                &[(number % 256) as u8, (number / 256) as u8],
            )
        }
        Order::Cbd { link, code } => body_of(sio, label(dpc, opc, link), CBD, &[code]),
        Order::Cba { link, code } => body_of(sio, label(dpc, opc, link), CBA, &[code]),
        Order::Eco { link } => body_of(sio, label(dpc, opc, link), ECO, &[]),
        Order::Eca { link } => body_of(sio, label(dpc, opc, link), ECA, &[]),
    }
}

/// SIO, label, heading code and what the order carries.
fn body_of(sio: u8, label: u32, heading: u8, content: &[u8]) -> ArrayVec<u8, 273>
    requires { length content.now ≤ 2 }
    ensures { result.items ≡ sio ∷ four_octets label ++ heading ∷ content.now }
{
    let mut body = headed(sio, label, heading);
    match body.try_extend_from_slice(content) {
        Ok(()) => body,
        Err(_) => unreachable!(),
    }
}

/// SIO, label and heading code.
pub(crate) fn headed(sio: u8, label: u32, heading: u8) -> ArrayVec<u8, 273>
    ensures { result.items ≡ sio ∷ four_octets label ++ heading ∷ [] }
{
    let mut body = ArrayVec::new();
    body.push(sio);
    match body.try_extend_from_slice(&label.to_le_bytes()) {
        Ok(()) => {}
        Err(_) => unreachable!(),
    }
    body.push(heading);
    body
}

/// The label as a number: DPC in 14 bits, OPC in 14 bits, SLC in 4 bits (Q.704 15.2).
pub(crate) fn label(dpc: u16, opc: u16, slc: u8) -> u32
    requires dpc { dpc < 2 ^ 14 }
    requires opc { opc < 2 ^ 14 }
    requires slc { slc < 16 }
    ensures { result ≡ label_number dpc opc slc }
{
    u32::from(dpc) + u32::from(opc) * 0x4000 + u32::from(slc) * 0x1000_0000
}
