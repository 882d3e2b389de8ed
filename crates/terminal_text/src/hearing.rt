//! What comes on a link's line.
ghost use Rattle.std.specs.Prelude.{◌≡◌, ◌<◌, ◌≤◌, ◌+◌, ◌∷◌, [], ◌++◌, IfOk, OnOk, codes, decimal, length};
ghost use Rattle.text_base.specs.Figures.{hex_text};
ghost use Rattle.l2_bits.specs.Flags.{flag};
ghost use Rattle.l2_bits.specs.LineBits.{bits_of};
ghost use Rattle.terminal_text.specs.Answers.{Exchanges, HearsLine, bits_in, one_by_one, unit_bits};
ghost use Rattle.terminal_text.specs.Hearing.{Exchanging, Hears};
ghost use Rattle.terminal_text.specs.Showing.{over};

use super::fault::Want;
use super::forgetting::ForgettingBench;
use super::rows::Rows;
use super::stopping::note_turn;
use arrayvec::ArrayVec;
use l2_bits::{flag_into, seal, stuff_into};
use l2_units::LONGEST_UNIT;
use link_term::{LastUnit, NoTap};
use std::alloc::{AllocError, Global};
use text_base::{push_hex, push_number};
use text_forms::Repeated;

/// Bits that come on a line: the tap that tells the units of the turns, what is shown of them, and how many they are.
#[derive(Drop)]
pub(crate) struct Hearing {
    tap: LastUnit,
    rows: Rows,
    turns: u64,
}

/// Octets came on this link's line: what their turns show, and the octets that these put.
pub(crate) fn hear_octets(
    alloc: Global,
    bench: &mut ForgettingBench,
    link: u8,
    octets: &[u8],
) -> Result<Vec<u8>, Want>
    requires { link < length bench.old.managed.bench.links }
    ensures { IfOk result (λ text. Exchanges link octets.now bench.old text.items bench.new) }
{
    let mut rows = Rows::new(alloc, link);
    let mut put = Vec::with_capacity(alloc, octets.len())?;
    for octet in octets {
        hear_octet(bench, link, *octet, &mut rows, &mut put)?;
    }
    let mut text = rows.end()?;
    push_put(&mut text, link, &put)?;
    Ok(text)
}

/// An octet came: its turn is shown, without its unit, and the octet that it put is kept.
fn hear_octet(
    bench: &mut ForgettingBench,
    link: u8,
    octet: u8,
    rows: &mut Rows,
    put: &mut Vec<u8>,
) -> Result<(), Want>
    requires { link < length bench.old.managed.bench.links }
    ensures { OnOk result (Exchanging link (bits_of 8 octet ∷ []) bench.old bench.new rows.old rows.new
        put.old.items put.new.items) }
{
    let late = bench.late(link);
    let turn = bench.managed.hear_octet(link, octet, &mut NoTap)?;
    put.push(turn.turn().put)?;
    let stopper = note_turn(&mut bench.watches, link, late, turn.deeds());
    rows.show(&turn, stopper, None)?;
    bench.end_turn(turn.turn().number, rows)
}

/// Adds the octets that were put.
fn push_put(out: &mut Vec<u8>, link: u8, put: &[u8]) -> Result<(), AllocError>
    ensures { OnOk result (out.new.items ≡ out.old.items
        ++ (codes "octets " ++ (decimal link ++ (codes " " ++ (hex_text put.now ++ codes "\n"))))) }
{
    out.extend_from_slice(b"octets ")?;
    push_number(out, u64::from(link))?;
    out.extend_from_slice(b" ")?;
    push_hex(out, put)?;
    out.extend_from_slice(b"\n")
}

/// A unit stood on this link's line, so often.
pub(crate) fn hear_unit(
    alloc: Global,
    bench: &mut ForgettingBench,
    link: u8,
    unit: &Repeated,
) -> Result<Vec<u8>, Want>
    requires { link < length bench.old.managed.bench.links }
    ensures { IfOk result (λ text. HearsLine link (over unit.now.times (unit_bits unit.now.octets)) bench.old
        text.items bench.new) }
{
    let octets = unit.octets.octets();
    if octets.len() > LONGEST_UNIT {
        // no line asks for more
        return Err(Want);
    }
    let bits = unit_bits(octets);
    hear_bits(alloc, bench, link, &bits, unit.times)
}

/// The bits of a unit on a line, and a flag behind it.
fn unit_bits(octets: &[u8]) -> ArrayVec<bool, 2700>
    requires { length octets.now ≤ 276 }
    ensures { result.items ≡ unit_bits octets.now }
{
    let mut bits = ArrayVec::new();
    stuff_into(&seal(octets), &mut bits);
    flag_into(&mut bits);
    bits
}

/// So many flags stood on this link's line.
pub(crate) fn hear_flags(
    alloc: Global,
    bench: &mut ForgettingBench,
    link: u8,
    times: u32,
) -> Result<Vec<u8>, Want>
    requires { link < length bench.old.managed.bench.links }
    ensures { IfOk result (λ text. HearsLine link (over times flag) bench.old text.items bench.new) }
{
    let mut bits = ArrayVec::new();
    flag_into(&mut bits);
    hear_bits(alloc, bench, link, &bits, times)
}

/// These bits stood on this link's line, so often.
pub(crate) fn hear_digits(
    alloc: Global,
    bench: &mut ForgettingBench,
    link: u8,
    digits: &Repeated,
) -> Result<Vec<u8>, Want>
    requires { link < length bench.old.managed.bench.links }
    ensures { IfOk result (λ text. HearsLine link (over digits.now.times (bits_in digits.now.octets)) bench.old
        text.items bench.new) }
{
    let bits = bits_in(alloc, digits.octets.octets())?;
    hear_bits(alloc, bench, link, &bits, digits.times)
}

/// The bits of digits 0 and 1.
fn bits_in(alloc: Global, digits: &[u8]) -> Result<Vec<bool>, AllocError>
    ensures { IfOk result (λ bits. bits.items ≡ bits_in digits.now) }
{
    digits.iter().map(|digit| *digit == 1).collect(alloc)
}

/// Bits stood on this link's line, so often: what their turns show, and how many these are.
fn hear_bits(
    alloc: Global,
    bench: &mut ForgettingBench,
    link: u8,
    bits: &[bool],
    times: u32,
) -> Result<Vec<u8>, Want>
    requires { link < length bench.old.managed.bench.links }
    ensures { IfOk result (λ text. HearsLine link (over times bits.now) bench.old text.items bench.new) }
{
    let mut hearing = Hearing {
        tap: LastUnit::new(),
        rows: Rows::new(alloc, link),
        turns: 0,
    };
    for _ in 0..times {
        hear_once(bench, link, bits, &mut hearing)?;
    }
    let turns = hearing.turns;
    let mut text = hearing.rows.end()?;
    push_turns(&mut text, turns)?;
    Ok(text)
}

/// Bits stood on this link's line.
fn hear_once(
    bench: &mut ForgettingBench,
    link: u8,
    bits: &[bool],
    hearing: &mut Hearing,
) -> Result<(), Want>
    requires { link < length bench.old.managed.bench.links }
    ensures { OnOk result (Hears link (one_by_one bits.now) bench.old bench.new hearing.old hearing.new) }
{
    for bit in bits {
        hear_bit(bench, link, *bit, hearing)?;
    }
    Ok(())
}

/// A bit stood on this link's line: the turn is shown that it may bring.
fn hear_bit(
    bench: &mut ForgettingBench,
    link: u8,
    bit: bool,
    hearing: &mut Hearing,
) -> Result<(), Want>
    requires { link < length bench.old.managed.bench.links }
    ensures { OnOk result (Hears link ((bit ∷ []) ∷ []) bench.old bench.new hearing.old hearing.new) }
{
    let late = bench.late(link);
    let Some(turn) = bench.managed.hear_bit(link, bit, &mut hearing.tap)? else {
        return Ok(());
    };
    hearing.turns = one_more(hearing.turns)?;
    let stopper = note_turn(&mut bench.watches, link, late, turn.deeds());
    if turn.turn().sent == 0 {
        hearing.rows.show(&turn, stopper, None)?;
        bench.end_turn(turn.turn().number, &mut hearing.rows)
    } else {
        hearing.rows.show(&turn, stopper, hearing.tap.unit())?;
        bench.end_turn(turn.turn().number, &mut hearing.rows)
    }
}

/// A turn more is counted.
fn one_more(turns: u64) -> Result<u64, Want>
    ensures { IfOk result (λ more. more ≡ turns + 1) }
{
    if turns == u64::MAX {
        return Err(Want);
    }
    Ok(turns + 1)
}

/// Adds how many turns were taken.
fn push_turns(out: &mut Vec<u8>, turns: u64) -> Result<(), AllocError>
    ensures { OnOk result (out.new.items ≡ out.old.items ++ (codes "turns " ++ (decimal turns ++ codes "\n"))) }
{
    out.extend_from_slice(b"turns ")?;
    push_number(out, turns)?;
    out.extend_from_slice(b"\n")
}
