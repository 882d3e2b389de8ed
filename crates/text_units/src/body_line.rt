//! What is said of a message.
ghost use Rattle.std.specs.Prelude.{◌≡◌, ◌++◌, IfOk, codes, decimal};
ghost use Rattle.text_base.specs.Figures.{hex_text};
ghost use Rattle.l3_orders.specs.Grammar.{order_of};
ghost use Rattle.text_units.specs.Decoding.{about, about_no_number, body_text, data_text, label_text, order_text, order_words, short_text};

use super::unit_line::write_both;
use l2_units::Profile;
use l3_orders::{Order, read_order, read_order_wide};
use std::alloc::{AllocError, Global};
use text_base::push_hex;

/// The label, and the order or the data behind it; or the octets, where there is no whole label.
pub(crate) fn write_body(
    alloc: Global,
    profile: Profile,
    body: &[u8],
) -> Result<Vec<u8>, AllocError>
    ensures { IfOk result (λ text. text.items ≡ body_text profile body.now) }
{
    let [sio, a, b, c, d, data @ ..] = body else {
        return write_octets(alloc, body);
    };
    let label = write_label(alloc, *sio, *a, *b, *c, *d)?;
    match find_order(profile, body) {
        Some(order) => write_both(label, &write_order(alloc, order)?),
        None => write_both(label, &write_data(alloc, *d / 16, data)?),
    }
}

/// The order that the body of a message of this profile is, if any.
pub fn find_order(profile: Profile, body: &[u8]) -> Option<Order>
    ensures { result ≡ order_of profile body.now }
{
    let order = match profile {
        Profile::Narrow => read_order(body),
        Profile::Wide => read_order_wide(body),
    };
    order.ok()
}

/// Octets without a whole label.
fn write_octets(alloc: Global, octets: &[u8]) -> Result<Vec<u8>, AllocError>
    ensures { IfOk result (λ text. text.items ≡ short_text octets.now) }
{
    let mut text = Vec::from_slice(alloc, b" body=")?;
    push_hex(&mut text, octets)?;
    text.push(b'\n')?;
    Ok(text)
}

/// The SIO and the point codes of a label.
fn write_label(alloc: Global, sio: u8, a: u8, b: u8, c: u8, d: u8) -> Result<Vec<u8>, AllocError>
    ensures { IfOk result (λ text. text.items ≡ label_text sio a b c d) }
{
    let si = sio % 16;
    let ssf = sio / 16;
    let dpc = u16::from(a) + 256 * u16::from(b % 64);
    let opc = u16::from(b / 64) + 4 * u16::from(c) + 1024 * u16::from(d % 16);
    Ok(format!(in alloc; " si={si} ssf={ssf} dpc={dpc} opc={opc}")?.into_bytes())
}

/// An order of the changeover or the changeback, in its line.
fn write_order(alloc: Global, order: Order) -> Result<Vec<u8>, AllocError>
    ensures { IfOk result (λ text. text.items ≡ order_text order) }
{
    let mut text = write_both(
        Vec::from_slice(alloc, b" ")?,
        &write_order_words(alloc, order)?,
    )?;
    text.push(b'\n')?;
    Ok(text)
}

/// An order of the changeover or the changeback: its name, the link that it speaks of, and what it carries, as
/// `COO link 1 fsn=0` (Q.704 15.4 to 15.6).
pub fn write_order_words(alloc: Global, order: Order) -> Result<Vec<u8>, AllocError>
    ensures { IfOk result (λ text. text.items ≡ order_words order) }
{
    match order {
        Order::Coo { link, number } => write_about(alloc, "COO", link, "fsn", number),
        Order::Coa { link, number } => write_about(alloc, "COA", link, "fsn", number),
        Order::Cbd { link, code } => write_about(alloc, "CBD", link, "code", u16::from(code)),
        Order::Cba { link, code } => write_about(alloc, "CBA", link, "code", u16::from(code)),
        Order::Eco { link } => about_link(alloc, "ECO", link),
        Order::Eca { link } => about_link(alloc, "ECA", link),
    }
}

/// An order that carries this field.
fn write_about(
    alloc: Global,
    name: &str,
    link: u8,
    field: &str,
    number: u16,
) -> Result<Vec<u8>, AllocError>
    ensures { IfOk result (λ text. text.items ≡ about name.now link field.now number) }
{
    Ok(format!(in alloc; "{name} link {link} {field}={number}")?.into_bytes())
}

/// An order that carries nothing.
fn about_link(alloc: Global, name: &str, link: u8) -> Result<Vec<u8>, AllocError>
    ensures { IfOk result (λ text. text.items ≡ about_no_number name.now link) }
{
    Ok(format!(in alloc; "{name} link {link}")?.into_bytes())
}

/// The stream of a message, and what stands behind its label.
fn write_data(alloc: Global, stream: u8, data: &[u8]) -> Result<Vec<u8>, AllocError>
    ensures { IfOk result (λ text. text.items ≡ data_text stream data.now) }
{
    let mut text = format!(in alloc; " stream={stream} data=")?.into_bytes();
    push_hex(&mut text, data)?;
    text.push(b'\n')?;
    Ok(text)
}
