//! The lines of a script after the first: the move that each asks for.
ghost use Rattle.std.specs.Prelude.{◌≡◌, IfOk};
ghost use Rattle.std.specs.Option.{option_copied};
ghost use Rattle.std.specs.Result.{result_err};
ghost use Rattle.text_forms.specs.Words.{read_into, IsRead, IsReadInto};
ghost use Rattle.text_forms.specs.Moves.{at_link, at_link_of, find, hear, lose, move_on, move_read, offer, on_link, plain_move, take, together, wrong_name};

use super::at_link::{AtLink, find_at_link};
use super::mistake::Mistake;
use super::words::{Blame, Unread, Words, cut, judge};
use l2_units::Profile;
use pair_rises::Move;
use pair_steps::Step;
use set_events::Event;
use std::alloc::{AllocError, Global};
use text_base::is_word;

/// The move that a line after the first asks for, or the word at fault. It fails without one only where memory is wanted.
///
/// A unit has the form of this profile. A link's number over 255 is read as 255, since no world has either link.
pub fn read_move(alloc: Global, profile: Profile, text: &[u8]) -> Result<Move, Unread>
    ensures { IsRead (move_read profile text.now) result }
{
    let mut next = Move::Step(Step::Together { link: 0 });
    read_move_into(alloc, profile, text, &mut next)?;
    Ok(next)
}

/// The word at fault of a line after the first, if it can't be read. It fails only where memory is wanted.
pub fn blame_move(alloc: Global, profile: Profile, text: &[u8]) -> Result<Option<Blame>, AllocError>
    ensures { IfOk result (λ blame. blame ≡ result_err (move_read profile text.now)) }
{
    match read_move(alloc, profile, text) {
        Ok(_) => Ok(None),
        Err(Unread::At(blame)) => Ok(Some(blame)),
        Err(Unread::Memory) => Err(AllocError),
    }
}

/// The move that a line after the first asks for, which then stands in `next`; where it fails what stands there isn't told. A
/// step has room for a unit, so that it's better filled in its place than handed on.
pub fn read_move_into(
    alloc: Global,
    profile: Profile,
    text: &[u8],
    next: &mut Move,
) -> Result<(), Unread>
    ensures { IsReadInto (move_read profile text.now) result next.new }
{
    let (name, left) = cut(text);
    let size = text.len();
    if is_word(name, b"offer") {
        return read_offer(alloc, Words::new(size, Mistake::OfferWants, left), next);
    }
    if is_word(name, b"hear") {
        return read_hear(
            alloc,
            profile,
            Words::new(size, Mistake::HearWants, left),
            next,
        );
    }
    Ok(read_plain(name, size, left, next)?)
}

/// The move of this name that takes no memory to read, from the words behind the name, in a line of this size.
#[tactic(auto, unfolding(crate::specs::Moves::plain_move))]
fn read_plain(name: &[u8], size: usize, left: Option<&[u8]>, next: &mut Move) -> Result<(), Blame>
    ensures { read_into result next.new ≡ plain_move name.now
        (λ short. record { size = size; short = short; left = option_copied left.entry }) }
{
    if is_word(name, b"together") {
        return read_together(Words::new(size, Mistake::TogetherWants, left), next);
    }
    if is_word(name, b"take") {
        return read_take(Words::new(size, Mistake::TakeWants, left), next);
    }
    if is_word(name, b"find") {
        return read_find(Words::new(size, Mistake::FindWants, left), next);
    }
    if is_word(name, b"lose") {
        return read_lose(Words::new(size, Mistake::LoseWants, left), next);
    }
    read_on_link(name, Words::new(size, Mistake::OnLinkWants, left), next)
}

/// The move of a word that an end and a link follow, if it's one.
#[tactic(auto, unfolding(crate::specs::Moves::on_link))]
fn read_on_link(name: &[u8], words: Words<'_>, next: &mut Move) -> Result<(), Blame>
    ensures { read_into result next.new ≡ on_link (at_link_of name.now) name.now words.entry }
{
    match find_at_link(name) {
        Some(what) => read_at_link(what, words, next),
        None => Err(Blame {
            column: 0,
            mistake: judge_name(name),
        }),
    }
}

/// `together LINK`
fn read_together(mut words: Words<'_>, next: &mut Move) -> Result<(), Blame>
    ensures { read_into result next.new ≡ together words.entry }
{
    let link = words.link()?;
    *next = Move::Step(Step::Together { link });
    words.finish()
}

/// `offer END HEX`, or `offer END` for the empty body
fn read_offer(alloc: Global, mut words: Words<'_>, next: &mut Move) -> Result<(), Unread>
    ensures { IsReadInto (offer words.entry) result next.new }
{
    let end = words.end()?;
    let body = words.octets_or_none(alloc)?;
    *next = Move::Step(Step::Act {
        end,
        event: Event::Offer { body },
    });
    Ok(words.finish()?)
}

/// `take END`
fn read_take(mut words: Words<'_>, next: &mut Move) -> Result<(), Blame>
    ensures { read_into result next.new ≡ take words.entry }
{
    let end = words.end()?;
    *next = Move::Step(Step::Act {
        end,
        event: Event::Take,
    });
    words.finish()
}

/// `find END NUMBER`
fn read_find(mut words: Words<'_>, next: &mut Move) -> Result<(), Blame>
    ensures { read_into result next.new ≡ find words.entry }
{
    let end = words.end()?;
    let number = words.number()?;
    *next = Move::Step(Step::Act {
        end,
        event: Event::Find { number },
    });
    words.finish()
}

/// `lose END LINK PLACE`
fn read_lose(mut words: Words<'_>, next: &mut Move) -> Result<(), Blame>
    ensures { read_into result next.new ≡ lose words.entry }
{
    let end = words.end()?;
    let link = words.link()?;
    let place = words.number()?;
    *next = Move::Step(Step::Lose { end, link, place });
    words.finish()
}

/// `hear END LINK HEX`
#[tactic(auto, unfolding(crate::specs::Moves::hear))]
fn read_hear(
    alloc: Global,
    profile: Profile,
    mut words: Words<'_>,
    next: &mut Move,
) -> Result<(), Unread>
    ensures { IsReadInto (hear profile words.entry) result next.new }
{
    let end = words.end()?;
    let link = words.link()?;
    let unit = words.unit(alloc, profile)?;
    *next = Move::Step(Step::Inject { end, link, unit });
    Ok(words.finish()?)
}

/// An end and a link.
fn read_at_link(what: AtLink, mut words: Words<'_>, next: &mut Move) -> Result<(), Blame>
    ensures { read_into result next.new ≡ at_link (move_on what) words.entry }
{
    let end = words.end()?;
    let link = words.link()?;
    what.put(end, link, next);
    words.finish()
}

/// What is wrong with a first word that no line after the first has.
fn judge_name(name: &[u8]) -> Mistake
    ensures { result ≡ wrong_name name.now }
{
    if is_word(name, b"set") {
        judge(name, Mistake::SecondSet)
    } else {
        judge(name, Mistake::UnknownWord)
    }
}
