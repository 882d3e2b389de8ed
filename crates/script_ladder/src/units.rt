//! A unit in the words of the trade.
ghost use Rattle.std.specs.Prelude.{◌≡◌, ◌++◌, IfOk, drop, slice_get};
ghost use Rattle.text_units.specs.Decoding.{order_words};
ghost use Rattle.l2_units.specs.Lent.{unit_in};
ghost use Rattle.l3_orders.specs.Grammar.{order_of};
ghost use Rattle.script_ladder.specs.Ladder.{fsn_of, in_columns, message_name, message_words, number_on, number_words};
ghost use Rattle.script_ladder.specs.Ladder.{numbered_order, numbers_of, or_msu, order_in, sent_words, stream_words};
ghost use Rattle.script_ladder.specs.Ladder.{unit_number, unit_words, users_words, words_of};

use super::fitting::front_of;
use super::isup::isup_name;
use super::rows::CELL;
use l2_units::{Header, Profile, Unit, UnitRef};
use l3_orders::Order;
use set_core::SetCore;
use std::alloc::{AllocError, Global};
use text_units::{find_order, write_both, write_order_words};

/// The letters of an order's name.
const NAME: usize = 3;

/// The words of a unit that this set sent on the link.
pub(crate) fn write_sent_unit(
    alloc: Global,
    profile: Profile,
    sender: &SetCore,
    link: u8,
    unit: &UnitRef<'_>,
) -> Result<Vec<u8>, AllocError>
    ensures { IfOk result (λ words. words.items ≡ sent_words profile sender.now.state link (unit_in unit.now)) }
{
    write_unit(
        alloc,
        profile,
        find_number(profile, sender, link, unit),
        unit,
    )
}

/// The words of the unit that this set sent on the link, if there is one.
pub(crate) fn write_any(
    alloc: Global,
    profile: Profile,
    sender: &SetCore,
    link: u8,
    unit: &Option<Unit>,
) -> Result<Vec<u8>, AllocError>
    ensures { IfOk result (λ words. words.items ≡ words_of profile sender.now.state link unit.now) }
{
    match unit {
        Some(unit) => write_sent_unit(alloc, profile, sender, link, &UnitRef::of(unit)),
        None => Ok(Vec::new(alloc)),
    }
}

/// The number of the message that a unit carries, where its sender has it unacknowledged on the link.
fn find_number(profile: Profile, sender: &SetCore, link: u8, unit: &UnitRef<'_>) -> Option<u64>
    ensures { result ≡ unit_number profile sender.now.state link (unit_in unit.now) }
{
    match unit {
        UnitRef::Msu { head, .. } => find_by_fsn(profile, sender, link, head.fsn),
        _ => None,
    }
}

/// The number of the unacknowledged message that has this FSN on the link.
fn find_by_fsn(profile: Profile, sender: &SetCore, link: u8, fsn: u16) -> Option<u64>
    ensures { result ≡ number_on profile sender.now.state link fsn }
{
    let oldest = sender.unacked_at(link, 0)?;
    let count = u32::from(profile.fsn_count());
    let place = (u32::from(fsn) + 2 * count).saturating_sub(u32::from(oldest.fsn)) % count;
    let message = sender.unacked_at(link, place as u16)?;
    Some(message.number)
}

/// The words of a unit, with this number if it's a message.
pub(crate) fn write_unit(
    alloc: Global,
    profile: Profile,
    number: Option<u64>,
    unit: &UnitRef<'_>,
) -> Result<Vec<u8>, AllocError>
    ensures { IfOk result (λ words. words.items ≡ unit_words profile number (unit_in unit.now)) }
{
    match unit {
        UnitRef::Fisu { head } => write_kind(alloc, "FISU", *head),
        UnitRef::Lssu { head, .. } => write_kind(alloc, "LSSU", *head),
        UnitRef::Msu { head, body } => write_message(alloc, profile, number, *head, body),
    }
}

/// A kind of unit, and its numbers.
fn write_kind(alloc: Global, kind: &str, head: Header) -> Result<Vec<u8>, AllocError>
    ensures { IfOk result (λ words. words.items ≡ kind.now ++ numbers_of head) }
{
    write_both(
        Vec::from_slice(alloc, kind.as_bytes())?,
        &write_head(alloc, head)?,
    )
}

/// The FSN and the BSN of a unit.
fn write_head(alloc: Global, head: Header) -> Result<Vec<u8>, AllocError>
    ensures { IfOk result (λ words. words.items ≡ numbers_of head) }
{
    let fsn = head.fsn;
    let bsn = head.bsn;
    Ok(format!(in alloc; " fsn={fsn} bsn={bsn}")?.into_bytes())
}

/// The words of a message: an order's own, or its name, its FSN and BSN, and its stream.
fn write_message(
    alloc: Global,
    profile: Profile,
    number: Option<u64>,
    head: Header,
    body: &[u8],
) -> Result<Vec<u8>, AllocError>
    ensures { IfOk result (λ words. words.items
        ≡ message_words profile number head (order_of profile body.now) body.now) }
{
    match find_order(profile, body) {
        Some(order) => write_order(alloc, number, order),
        None => write_users(alloc, profile, number, head, body),
    }
}

/// The words of an order, with its number behind the three letters of its name.
fn write_order(alloc: Global, number: Option<u64>, order: Order) -> Result<Vec<u8>, AllocError>
    ensures { IfOk result (λ words. words.items ≡ numbered_order number (order_words order)) }
{
    let words = write_order_words(alloc, order)?;
    let name = Vec::from_slice(alloc, front_of(&words, NAME))?;
    let rest = write_both(write_number(alloc, number)?, back_of(&words, NAME))?;
    write_both(name, &rest)
}

/// The octets of a text behind the first so many.
fn back_of(text: &[u8], columns: usize) -> &[u8]
    ensures { result.now ≡ drop columns text.now }
{
    &text[columns.min(text.len())..]
}

/// The words of a users' message. Where they don't fit into an end's columns in the wide profile, the BSN is left out, so
/// that the stream is seen.
fn write_users(
    alloc: Global,
    profile: Profile,
    number: Option<u64>,
    head: Header,
    body: &[u8],
) -> Result<Vec<u8>, AllocError>
    ensures { IfOk result (λ words. words.items ≡ in_columns profile
        (users_words number (numbers_of head) body.now) (users_words number (fsn_of head) body.now)) }
{
    let whole = write_fields(alloc, number, write_head(alloc, head)?, body)?;
    match profile {
        Profile::Wide if whole.len() > CELL => {
            write_fields(alloc, number, write_fsn(alloc, head)?, body)
        }
        _ => Ok(whole),
    }
}

/// The name of a users' message, its number, these numbers of its header, and its stream.
fn write_fields(
    alloc: Global,
    number: Option<u64>,
    header: Vec<u8>,
    body: &[u8],
) -> Result<Vec<u8>, AllocError>
    ensures { IfOk result (λ words. words.items ≡ users_words number header.items body.now) }
{
    let rest = write_both(
        write_number(alloc, number)?,
        &write_behind(alloc, header, body)?,
    )?;
    write_both(
        Vec::from_slice(alloc, message_name(body).as_bytes())?,
        &rest,
    )
}

/// These numbers of a message's header, and its stream.
fn write_behind(alloc: Global, header: Vec<u8>, body: &[u8]) -> Result<Vec<u8>, AllocError>
    ensures { IfOk result (λ words. words.items ≡ header.items ++ stream_words (slice_get body.now 4)) }
{
    let stream = write_stream(alloc, body.get(4).copied())?;
    write_both(header, &stream)
}

/// The FSN of a unit.
fn write_fsn(alloc: Global, head: Header) -> Result<Vec<u8>, AllocError>
    ensures { IfOk result (λ words. words.items ≡ fsn_of head) }
{
    let fsn = head.fsn;
    Ok(format!(in alloc; " fsn={fsn}")?.into_bytes())
}

/// The name of a message: that of the ISDN user part, or MSU.
pub(crate) fn message_name(body: &[u8]) -> &'static str
    ensures { result.now ≡ message_name body.now }
{
    or_msu(isup_name(body))
}

/// This name, or MSU where it's empty.
fn or_msu(name: &'static str) -> &'static str
    ensures { result.now ≡ or_msu name.now }
{
    if name.is_empty() { "MSU" } else { name }
}

/// A message's number, if it has one.
pub(crate) fn write_number(alloc: Global, number: Option<u64>) -> Result<Vec<u8>, AllocError>
    ensures { IfOk result (λ words. words.items ≡ number_words number) }
{
    match number {
        Some(number) => Ok(format!(in alloc; " #{number}")?.into_bytes()),
        None => Ok(Vec::new(alloc)),
    }
}

/// The stream of a message, by the label's last octet.
fn write_stream(alloc: Global, octet: Option<u8>) -> Result<Vec<u8>, AllocError>
    ensures { IfOk result (λ words. words.items ≡ stream_words octet) }
{
    match octet {
        Some(octet) => {
            let stream = octet / 16;
            Ok(format!(in alloc; " stream {stream}")?.into_bytes())
        }
        None => Ok(Vec::new(alloc)),
    }
}

/// The order that a unit carries, if any.
pub(crate) fn find_carried(profile: Profile, unit: &Option<Unit>) -> Option<Order>
    ensures { result ≡ order_in profile unit.now }
{
    match unit {
        Some(Unit::Msu { body, .. }) => find_order(profile, body.as_slice()),
        _ => None,
    }
}
