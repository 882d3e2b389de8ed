//! A body to an order.
ghost use Rattle.std.specs.Prelude.{◌≡◌, IfOk};
ghost use Rattle.std.specs.Result.{result_ok, result_err};
ghost use Rattle.l2_units.specs.declared.profile.Profile.TheVariants.{Narrow, Wide};
ghost use Rattle.l3_orders.specs.declared.order.Order.{Order};
ghost use Rattle.l3_orders.specs.Grammar.{StandsFor, order_of, order_with};
ghost use Rattle.l3_orders.specs.Fault.{number_of, refusal_of, refusal_with};

use super::order::{CBA, CBD, COA, COO, ECA, ECO, Order};
use thiserror::Error;

/// Why a body is no order. The first that applies, in this order, is answered.
#[derive(Clone, Copy, Debug, Drop, PartialEq, Eq, Error)]
pub enum OrderFault {
    /// No octets, or a service indicator that isn't 0: no message of the network management.
    #[error("no message of the signalling network management")]
    NotManagement = 1,
    /// No heading code, or none of the six.
    #[error("no changeover or changeback order")]
    Unknown = 2,
    /// Not as long as this order is: 7 octets, or 6 for ECO and ECA.
    #[error("not as long as this order is")]
    Length = 3,
}

impl OrderFault {
    /// The refusal's number: 1 not management, 2 unknown, 3 length.
    pub fn number(self) -> u8
        ensures { result ≡ number_of self }
    {
        self as u8
    }
}

/// The order that the body of a message stands for.
///
/// Refusals, in this order: 1 [`OrderFault::NotManagement`] without octets or with a service
/// indicator that isn't 0, 2 [`OrderFault::Unknown`] without octet 5 or where it's none of the six
/// heading codes, 3 [`OrderFault::Length`] with not exactly 7 octets, or 6 for ECO and ECA. Point
/// codes and the spare bit aren't looked at.
pub fn read_order(octets: &[u8]) -> Result<Order, OrderFault>
    ensures found { IfOk result (λ order. StandsFor Narrow octets.now order) }
    ensures only { (order : Order) → StandsFor Narrow octets.now order → result ≡ Ok order }
    ensures exact { result_ok result ≡ order_of Narrow octets.now }
    ensures refused { result_err result ≡ refusal_of Narrow octets.now }
{
    // Q.704 14.2.1: the service indicator is the low half of the SIO.
    match octets.first() {
        Some(sio) if *sio % 16 == 0 => {}
        _ => return Err(OrderFault::NotManagement),
    }
    let [_, _, _, _, slc, heading, content @ ..] = octets else {
        return Err(OrderFault::Unknown);
    };
    order_after(*slc / 16, *heading, content)
}

/// The same in the wide profile, where COO and COA have 8 octets.
pub fn read_order_wide(octets: &[u8]) -> Result<Order, OrderFault>
    ensures found { IfOk result (λ order. StandsFor Wide octets.now order) }
    ensures only { (order : Order) → StandsFor Wide octets.now order → result ≡ Ok order }
    ensures exact { result_ok result ≡ order_of Wide octets.now }
    ensures refused { result_err result ≡ refusal_of Wide octets.now }
{
    match octets.first() {
        Some(sio) if *sio % 16 == 0 => {}
        _ => return Err(OrderFault::NotManagement),
    }
    let [_, _, _, _, slc, heading, content @ ..] = octets else {
        return Err(OrderFault::Unknown);
    };
    wide_order_after(*slc / 16, *heading, content)
}

/// The order about this link with this heading code and these octets after it (Q.704 15.3 to 15.6).
fn order_after(link: u8, heading: u8, content: &[u8]) -> Result<Order, OrderFault>
    ensures exact { result_ok result ≡ order_with Narrow link heading content.now }
    ensures refused { result_err result ≡ refusal_with Narrow heading content.now }
{
    match (heading, content) {
        (COO, [field]) => Ok(Order::Coo {
            link,
            number: u16::from(*field % 128),
        }),
        (COA, [field]) => Ok(Order::Coa {
            link,
            number: u16::from(*field % 128),
        }),
        (CBD, [code]) => Ok(Order::Cbd { link, code: *code }),
        (CBA, [code]) => Ok(Order::Cba { link, code: *code }),
        (ECO, []) => Ok(Order::Eco { link }),
        (ECA, []) => Ok(Order::Eca { link }),
        (COO | COA | CBD | CBA | ECO | ECA, _) => Err(OrderFault::Length),
        _ => Err(OrderFault::Unknown),
    }
}

/// The same in the wide profile.
fn wide_order_after(link: u8, heading: u8, content: &[u8]) -> Result<Order, OrderFault>
    ensures exact { result_ok result ≡ order_with Wide link heading content.now }
    ensures refused { result_err result ≡ refusal_with Wide heading content.now }
{
    match (heading, content) {
        (COO, [low, high]) => Ok(Order::Coo {
            link,
            number: (u16::from(*low) + 256 * u16::from(*high)) % 4096,
        }),
        (COA, [low, high]) => Ok(Order::Coa {
            link,
            number: (u16::from(*low) + 256 * u16::from(*high)) % 4096,
        }),
        (CBD, [code]) => Ok(Order::Cbd { link, code: *code }),
        (CBA, [code]) => Ok(Order::Cba { link, code: *code }),
        (ECO, []) => Ok(Order::Eco { link }),
        (ECA, []) => Ok(Order::Eca { link }),
        (COO | COA | CBD | CBA | ECO | ECA, _) => Err(OrderFault::Length),
        _ => Err(OrderFault::Unknown),
    }
}
