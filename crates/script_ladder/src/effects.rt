//! What a line made happen besides: what a heard unit did, and which messages stand aside.
ghost use Rattle.std.specs.Prelude.{◌≡◌, IfOk};
ghost use Rattle.text_entries.specs.Texts.{took_text};
ghost use Rattle.script_ladder.specs.Ladder.{change, changed_over, changes, further, heard_rows, is_plain, report_words, settled_words, trouble_words};

use super::cells::write_link;
use super::rows::write_further;
use super::units::find_carried;
use l2_units::Unit;
use l3_orders::Order;
use pair_world::{End, World};
use script_walk::world_profile;
use set_events::{Counts, Report, Took};
use std::alloc::{AllocError, Global};
use text_base::bit_of;
use text_entries::code_of;
use text_units::write_both;

/// The rows of what a heard unit did.
pub(crate) fn write_heard(
    alloc: Global,
    under_way: &[u8],
    world: &World,
    end: End,
    unit: &Option<Unit>,
    report: Option<Report>,
) -> Result<Vec<u8>, AllocError>
    ensures { IfOk result (λ rows. rows.items
        ≡ heard_rows under_way.now world.now end unit.now report) }
{
    let Some(report) = report else {
        return Ok(Vec::new(alloc));
    };
    let settled = write_settled(
        alloc,
        world,
        end,
        report.took,
        find_changed_link(find_carried(world_profile(world), unit)),
    )?;
    let first = write_further(alloc, end, under_way, &write_report(alloc, report)?)?;
    let trouble = write_further(alloc, end, under_way, &write_trouble(alloc, report)?)?;
    write_both(
        first,
        &write_both(trouble, &write_further(alloc, end, under_way, &settled)?)?,
    )
}

/// What was taken, and how many messages were acknowledged.
fn write_report(alloc: Global, report: Report) -> Result<Vec<u8>, AllocError>
    ensures { IfOk result (λ words. words.items ≡ report_words report) }
{
    let took = took_word(report.took);
    let acked = report.acked;
    Ok(format!(in alloc; " took {took}, acked {acked}")?.into_bytes())
}

/// The word for what became of a body.
fn took_word(took: Took) -> &'static str
    ensures { result.now ≡ took_text took }
{
    match took {
        Took::Nothing => "nothing",
        Took::Message => "message",
        Took::Order => "order",
        Took::Ignored => "ignored",
    }
}

/// Whether no retransmission is asked for or begun, and no fault is shown.
fn is_without_trouble(report: Report) -> bool
    ensures { result ≡ is_plain report }
{
    !report.asked && !report.resend && code_of(report.fault) == 0
}

/// A retransmission that is asked for or begun, and a fault.
fn write_trouble(alloc: Global, report: Report) -> Result<Vec<u8>, AllocError>
    ensures { IfOk result (λ words. words.items ≡ trouble_words report) }
{
    if is_without_trouble(report) {
        return Ok(Vec::new(alloc));
    }
    let asked = bit_of(report.asked);
    let resend = bit_of(report.resend);
    let fault = code_of(report.fault);
    Ok(format!(in alloc; " asked={asked} resend={resend} fault={fault}")?.into_bytes())
}

/// The link whose changeover the order is about, if any.
pub(crate) fn find_changed_link(order: Option<Order>) -> Option<u8>
    ensures { result ≡ changed_over order }
{
    match order {
        Some(
            Order::Coo { link, .. }
            | Order::Coa { link, .. }
            | Order::Eco { link }
            | Order::Eca { link },
        ) => Some(link),
        _ => None,
    }
}

/// That an order settled its link.
fn write_settled(
    alloc: Global,
    world: &World,
    end: End,
    took: Took,
    link: Option<u8>,
) -> Result<Vec<u8>, AllocError>
    ensures { IfOk result (λ words. words.items ≡ settled_words world.now end took link) }
{
    match (took, link) {
        (Took::Order, Some(link)) if world.core(end).is_settled(link) => {
            write_link(alloc, " ", link, " settled")
        }
        _ => Ok(Vec::new(alloc)),
    }
}

/// The rows of the messages that stand aside, or are discarded, now.
pub(crate) fn write_changes(
    alloc: Global,
    end: End,
    under_way: &[u8],
    old: Counts,
    new: Counts,
) -> Result<Vec<u8>, AllocError>
    ensures { IfOk result (λ rows. rows.items ≡ further end under_way.now (changes old new)) }
{
    let held = write_change(alloc, " held", old.held, new.held)?;
    let parked = write_change(alloc, " parked", old.parked, new.parked)?;
    let back = write_change(alloc, " back", old.back, new.back)?;
    let discarded = write_change(alloc, " discarded", old.discarded, new.discarded)?;
    let words = write_both(held, &write_both(parked, &write_both(back, &discarded)?)?)?;
    write_further(alloc, end, under_way, &words)
}

/// How many more or fewer stand in a place.
fn write_change(alloc: Global, name: &str, old: u64, new: u64) -> Result<Vec<u8>, AllocError>
    ensures { IfOk result (λ words. words.items ≡ change name.now old new) }
{
    if old < new {
        let more = new - old;
        return Ok(format!(in alloc; "{name}+{more}")?.into_bytes());
    }
    if new < old {
        let fewer = old - new;
        return Ok(format!(in alloc; "{name}-{fewer}")?.into_bytes());
    }
    Ok(Vec::new(alloc))
}
