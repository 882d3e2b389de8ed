//! A message that a user offers.
ghost use Rattle.std.specs.Prelude.{◌≡◌, OnOk, OnErr};
ghost use Rattle.l2_units.specs.Profile.{longest_body};
ghost use Rattle.set_queues.specs.Messages.{unsent_of};
ghost use Rattle.set_model.specs.Rows.{stream_of};
ghost use Rattle.set_model.specs.Step.{refusal_by, offer_refusal, offered};
ghost use Rattle.set_changeover.specs.Agreement.{Holds};
ghost use Rattle.set_changeover.specs.Parts.{Answers, kept_of};

use l2_units::{LONGEST_BODY, Profile};
use set_changeover::{Parts, fate_of_new, make_room, stand_last};
use set_events::{Refusal, Reply};
use set_model::{service_indicator, stream_of_body};
use set_queues::Queues;
use std::alloc::{AllocError, Allocator};

/// The fewest octets of an offered body: the SIO and a label (own).
const SHORTEST_OFFER: usize = 5;

/// How many unsent messages of a stream close it for offers.
const STREAM_LIMIT: u64 = 1024;

/// A message is offered: refused, or the last of its queue from now on.
#[tactic(auto, using(set_changeover::proofs::Links::whole_of))]
pub fn offer<A: Allocator + Copy>(
    parts: &mut Parts<A>,
    octets: &[u8],
    reply: &mut Reply,
) -> Result<(), AllocError>
    requires holds { Holds (kept_of parts.old) }
    ensures ok { OnOk result (Answers parts.old parts.new reply.new (λ s. offered
        (offer_refusal s.settings.profile s.rows octets.now) s octets.now)) }
    ensures err { OnErr result (kept_of parts.new ≡ kept_of parts.old) }
{
    if let Some(why) = refusal_of(parts.config.profile(), &parts.queues, octets) {
        reply.set_refused(why);
        return Ok(());
    }
    let stream = stream_of_body(octets);
    let fate = fate_of_new(parts, stream);
    make_room(parts, fate)?;
    let number = stand_last(parts, octets, fate);
    parts.routes.accept(stream);
    reply.set_accepted(number);
    Ok(())
}

/// How many octets a body can have: 273, or 272 in the wide profile.
pub(crate) fn longest_of(profile: Profile) -> usize
    ensures { result ≡ longest_body profile }
{
    match profile {
        Profile::Narrow => LONGEST_BODY,
        Profile::Wide => LONGEST_BODY - 1,
    }
}

/// Why an offer is refused, if it is: the first reason in the order of the refusals.
fn refusal_of<A: Allocator + Copy>(
    profile: Profile,
    queues: &Queues<A>,
    octets: &[u8],
) -> Option<Refusal>
    ensures { result ≡ refusal_by profile (unsent_of (stream_of octets.now) queues.now.messages) octets.now }
{
    if octets.len() < SHORTEST_OFFER {
        return Some(Refusal::TooShort);
    }
    if octets.len() > longest_of(profile) {
        return Some(Refusal::TooLong);
    }
    if service_indicator(octets) == 0 {
        return Some(Refusal::Reserved);
    }
    if queues.unsent(stream_of_body(octets)) >= STREAM_LIMIT {
        return Some(Refusal::StreamFull);
    }
    None
}
