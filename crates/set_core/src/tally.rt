//! What a set adds up as its history grows.
ghost use Rattle.std.specs.Prelude.{◌≡◌, ◌+◌, ◌<◌, ◌≤◌, ◌^◌, ℕ, slice_index};
ghost use Rattle.set_core.specs.Gaining.{users_after, terminals_after};
ghost use Rattle.set_model.specs.History.{IsActor, no_books};
ghost use Rattle.set_core.specs.Keeping.{IsTally};
ghost use Rattle.set_events.specs.Lent.{answer_in, event_in};
ghost use Rattle.set_model.specs.Step.{messages_in, octets_of, octets_offered};

use set_events::{Actor, AnswerRef, EventRef};

/// The most entries of a set since its opening, 2^48.
pub const LONGEST_HISTORY: u64 = 0x1_0000_0000_0000;

/// The books of a history, but for what is acknowledged, which is read off the set.
#[derive(Clone, Copy, Debug)]
pub struct Tally {
    /// How many entries each user made.
    pub(crate) user_calls: [u64; 64],
    /// How many entries the terminal of each link made.
    pub(crate) term_calls: [u64; 16],
    /// How many messages were accepted.
    pub(crate) messages: u64,
    /// The octets of their bodies.
    pub(crate) octets: u64,
    /// How many entries were made since the opening, those too that a checkpoint forgot.
    pub(crate) entries: u64,
}

impl Tally {
    /// The tally of a set that nothing was asked of.
    #[tactic(auto, using(crate::proofs::Calls::no_sum))]
    pub(crate) fn new() -> Tally
        ensures { IsTally result no_books }
    {
        Tally {
            user_calls: [0; 64],
            term_calls: [0; 16],
            messages: 0,
            octets: 0,
            entries: 0,
        }
    }

    /// Counts an entry: a call of the actor, and the message that it accepted, if any.
    pub(crate) fn count(&mut self, who: Actor, event: &EventRef<'_>, answer: &AnswerRef<'_>)
        requires actor { IsActor who }
        requires user_calls { (n : ℕ) → slice_index self.old.user_calls n < 2 ^ 63 }
        requires term_calls { (n : ℕ) → slice_index self.old.term_calls n < 2 ^ 63 }
        requires messages { self.old.messages < 2 ^ 63 }
        requires octets { self.old.octets < 2 ^ 63 }
        requires entries { self.old.entries < 2 ^ 63 }
        requires body { octets_of (event_in event.now) (answer_in answer.now) ≤ 273 }
        ensures user_calls { self.new.user_calls ≡ users_after who self.old.user_calls }
        ensures term_calls { self.new.term_calls ≡ terminals_after who self.old.term_calls }
        ensures messages { self.new.messages ≡ self.old.messages + messages_in (answer_in answer.now) }
        ensures octets { self.new.octets ≡ self.old.octets + octets_of (event_in event.now) (answer_in answer.now) }
        ensures entries { self.new.entries ≡ self.old.entries + 1 }
    {
        self.entries += 1;
        self.count_call(who);
        if let AnswerRef::Accepted { .. } = answer {
            self.messages += 1;
            self.octets += offered_octets(event);
        }
    }

    /// Counts a call of this actor.
    fn count_call(&mut self, who: Actor)
        requires actor { IsActor who }
        requires user_calls { (n : ℕ) → slice_index self.old.user_calls n < 2 ^ 63 }
        requires term_calls { (n : ℕ) → slice_index self.old.term_calls n < 2 ^ 63 }
        ensures user_calls { self.new.user_calls ≡ users_after who self.old.user_calls }
        ensures term_calls { self.new.term_calls ≡ terminals_after who self.old.term_calls }
        ensures messages { self.new.messages ≡ self.old.messages }
        ensures octets { self.new.octets ≡ self.old.octets }
        ensures entries { self.new.entries ≡ self.old.entries }
    {
        match who {
            Actor::User(number) => self.user_calls[usize::from(number)] += 1,
            Actor::Terminal(link) => self.term_calls[usize::from(link)] += 1,
        }
    }
}

/// The octets of an offered body; of another event none.
fn offered_octets(event: &EventRef<'_>) -> u64
    ensures { result ≡ octets_offered (event_in event.now) }
{
    match event {
        EventRef::Offer { body } => body.len() as u64,
        _ => 0,
    }
}
