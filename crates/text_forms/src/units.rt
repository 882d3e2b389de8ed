//! A unit on a terminal's line, from the words that tell it.
ghost use Rattle.std.specs.Prelude.{◌≡◌, ◌≤◌, ◌^◌, ◌∷◌, IfOk, length, min};
ghost use Rattle.text_forms.specs.Named.{most};
ghost use Rattle.text_forms.specs.Words.{IsRead, with_rest};
ghost use Rattle.text_forms.specs.Units.{first_status, first_times, fisu, head, lssu, msu, often, told_head, unit};

use super::asked::Repeated;
use super::named::Named;
use super::places::read_any_unit;
use super::words::{Blame, Unread, Word, Words};
use set_events::Body;
use std::alloc::{AllocError, Global};
use text_base::is_word;

/// The first two octets of a unit, and whether words told them.
#[derive(Clone, Copy)]
pub(crate) struct Head {
    pub(crate) backward: u8,
    pub(crate) forward: u8,
    pub(crate) told: bool,
}

/// `UNIT [xN]`
pub(crate) fn read_repeated(alloc: Global, mut words: Words<'_>) -> Result<Repeated, Unread>
    ensures { IsRead (unit words.entry) result }
{
    let word = words.word()?;
    if is_word(word.octets(), b"fisu") {
        let head = read_head(&mut words)?;
        return read_fisu(alloc, head, words);
    }
    if is_word(word.octets(), b"lssu") {
        let head = read_head(&mut words)?;
        return read_lssu(alloc, head, words);
    }
    if is_word(word.octets(), b"msu") {
        let head = read_head(&mut words)?;
        return read_msu(alloc, head, words);
    }
    let octets = read_any_unit(alloc, &word)?;
    Ok(read_often(Named::Times, octets, words)?)
}

/// `HEAD`, or nothing for that of a link on which nothing was sent or accepted yet.
fn read_head(words: &mut Words<'_>) -> Result<Head, Blame>
    ensures { with_rest result words.new ≡ head words.old }
{
    if words.begins_head() {
        read_told_head(words)
    } else {
        Ok(Head {
            backward: 255,
            forward: 255,
            told: false,
        })
    }
}

/// `bsn=B bib=B fsn=F fib=F`
fn read_told_head(words: &mut Words<'_>) -> Result<Head, Blame>
    ensures { with_rest result words.new ≡ told_head words.old }
{
    let bsn = words.named(Named::Bsn)?;
    let bib = words.named(Named::Bib)?;
    let fsn = words.named(Named::Fsn)?;
    let fib = words.named(Named::Fib)?;
    Ok(Head {
        backward: (bsn + 128 * bib) as u8,
        forward: (fsn + 128 * fib) as u8,
        told: true,
    })
}

/// `fisu HEAD [xN]`, behind its header.
fn read_fisu(alloc: Global, head: Head, words: Words<'_>) -> Result<Repeated, Unread>
    ensures { IsRead (fisu head words.entry) result }
{
    let octets = Body::from_slice(alloc, &[head.backward, head.forward, 0])?;
    Ok(read_often(times_behind(head.told), octets, words)?)
}

/// `lssu HEAD status=S [xN]`, behind its header.
fn read_lssu(alloc: Global, head: Head, mut words: Words<'_>) -> Result<Repeated, Unread>
    ensures { IsRead (lssu head words.entry) result }
{
    let status = words.named(status_behind(head.told))?;
    let octets = Body::from_slice(alloc, &[head.backward, head.forward, 1, status as u8])?;
    Ok(read_often(Named::Times, octets, words)?)
}

/// `msu HEAD body=HEX [xN]`, behind its header.
fn read_msu(alloc: Global, head: Head, mut words: Words<'_>) -> Result<Repeated, Unread>
    ensures { IsRead (msu head words.entry) result }
{
    let body = words.body(alloc, head.told)?;
    let octets = message_octets(alloc, head.backward, head.forward, body.octets())?;
    Ok(read_often(Named::Times, octets, words)?)
}

/// `xN`, or nothing for once, of these octets.
#[tactic(auto, unfolding(crate::specs::Units::often))]
fn read_often(named: Named, octets: Body, mut words: Words<'_>) -> Result<Repeated, Blame>
    requires { most named ≤ 2 ^ 20 }
    ensures { result ≡ often named octets words.entry }
{
    let times = words.times(named)?;
    words.finish()?;
    Ok(Repeated { octets, times })
}

/// How often, behind the words of a header or where they may stand.
fn times_behind(told: bool) -> Named
    ensures named { result ≡ first_times told }
    ensures few { most result ≤ 2 ^ 20 }
{
    if told {
        Named::Times
    } else {
        Named::FirstTimes
    }
}

/// A status, so too.
fn status_behind(told: bool) -> Named
    ensures named { result ≡ first_status told }
    ensures few { most result ≡ 7 }
{
    if told {
        Named::Status
    } else {
        Named::FirstStatus
    }
}

/// The octets of a message: its header, the length indicator of its body (Q.703 2.3.3), and the body.
fn message_octets(alloc: Global, backward: u8, forward: u8, body: &[u8]) -> Result<Body, AllocError>
    ensures { IfOk result (λ unit. unit ≡ backward ∷ forward ∷ min (length body.now) 63 ∷ body.now) }
{
    let indicator = if body.len() < 63 {
        body.len() as u8
    } else {
        63
    };
    let mut octets = Vec::from_slice(alloc, &[backward, forward, indicator])?;
    octets.extend_from_slice(body)?;
    Ok(Body::from_vec(octets))
}
