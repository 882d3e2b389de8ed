//! How many of the users' messages stand in each place, how many of each stream aren't sent yet, and the octets
//! of each link's unacknowledged bodies.
ghost use Rattle.std.specs.Prelude.{◌≡◌, true};
ghost use Rattle.set_queues.specs.Messages.{is_kind, place_of, is_unsent, IsAmong, IsMore, AreFew, Forgets};
ghost use Rattle.set_queues.specs.Buffers.{is_standing};

use super::message::{Kind, Message};
use set_events::{DiscardCause, Fate};

/// The running counts of a list of messages.
#[derive(Clone, Copy)]
pub(crate) struct Tally {
    /// Of the users' messages, how many stand in each place, by [`place_of`].
    pub(crate) counts: [u64; 9],
    /// Of each stream's, how many aren't sent yet.
    pub(crate) unsent: [u64; 16],
    /// Of each link, the octets of the bodies that are sent and not acknowledged.
    pub(crate) octets: [u128; 16],
    /// How many orders have a final fate.
    pub(crate) orders: u64,
}

/// One more message.
pub(crate) fn enter(tally: &mut Tally, message: Message)
    requires few { AreFew tally.old }
    requires known { is_kind message.kind ≡ true }
    ensures { IsMore message tally.old tally.new }
{
    match message.kind {
        Kind::User { stream } => {
            tally.counts[place_of(message.fate)] += 1;
            if counts_as_unsent(message.fate) {
                tally.unsent[usize::from(stream)] += 1;
            }
        }
        Kind::Order if is_standing(message.fate) => (),
        Kind::Order => tally.orders += 1,
    }
    if let Fate::Unacked { link: link @ 0..16 } = message.fate {
        tally.octets[usize::from(link)] += u128::from(message.octets);
    }
}

/// One message fewer.
pub(crate) fn leave(tally: &mut Tally, message: Message)
    requires among { IsAmong message tally.old }
    requires known { is_kind message.kind ≡ true }
    ensures { IsMore message tally.new tally.old }
{
    match message.kind {
        Kind::User { stream } => {
            tally.counts[place_of(message.fate)] -= 1;
            if counts_as_unsent(message.fate) {
                tally.unsent[usize::from(stream)] -= 1;
            }
        }
        Kind::Order if is_standing(message.fate) => (),
        Kind::Order => tally.orders -= 1,
    }
    if let Fate::Unacked { link: link @ 0..16 } = message.fate {
        tally.octets[usize::from(link)] -= u128::from(message.octets);
    }
}

/// Without the messages whose fate is final.
pub(crate) fn forget_finished(tally: &Tally) -> Tally
    ensures { Forgets tally.now result }
{
    let [waiting, unacked, _, held, parked, back, ..] = tally.counts;
    Tally {
        counts: [waiting, unacked, 0, held, parked, back, 0, 0, 0],
        orders: 0,
        ..*tally
    }
}

/// The place of the count of those that stand there.
fn place_of(fate: Fate) -> usize
    ensures { result ≡ place_of fate }
{
    match fate {
        Fate::Waiting { .. } => 0,
        Fate::Unacked { .. } => 1,
        Fate::Acked { .. } => 2,
        Fate::Held { .. } => 3,
        Fate::Parked => 4,
        Fate::Back { .. } => 5,
        Fate::Discarded { cause } => match cause {
            DiscardCause::Emergency => 6,
            DiscardCause::Unreasonable => 7,
            DiscardCause::NoAnswer => 8,
        },
    }
}

/// Whether the fate isn't final: it names a queue.
pub(crate) fn is_standing(fate: Fate) -> bool
    ensures { result ≡ is_standing fate }
{
    !matches!(fate, Fate::Acked { .. } | Fate::Discarded { .. })
}

/// Whether a message of this fate isn't sent yet.
fn counts_as_unsent(fate: Fate) -> bool
    ensures { result ≡ is_unsent fate }
{
    match fate {
        Fate::Waiting { .. } | Fate::Held { .. } | Fate::Parked | Fate::Back { .. } => true,
        Fate::Unacked { .. } | Fate::Acked { .. } | Fate::Discarded { .. } => false,
    }
}
