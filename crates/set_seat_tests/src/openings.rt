//! What the tests open sets with, and ask through.
ghost use Rattle.std.specs.Prelude.{◌≡◌, ◌<◌, ◌+◌, IfOk};

use set_events::{Answer, Method, SetConfig};
use set_ledger::Blanks;
use set_shared::{Closed, LinkSet, Opening, TermSeat, UserSeat};
use std::sync::Wait;
use std::sync::ledger::Blank;
use std::test::Fail;

/// The octets of a message of stream 3.
pub(crate) const MESSAGE: [u8; 5] = [0x85, 1, 0x80, 0, 0x30];

/// A set of one link.
pub(crate) fn config_of() -> Result<SetConfig, Fail>
    ensures { IfOk result (λ config. config.links ≡ 1) }
{
    match SetConfig::new(0, 1, 2, 1, 0x80, Method::Basic) {
        Ok(config) => Ok(config),
        Err(_) => Err(Fail::from("refused")),
    }
}

/// Blanks for a set of one link and so many users.
pub(crate) fn blanks_of(users: u64) -> Blanks
    requires { users < 100 }
    ensures calls { result.calls.parts ≡ users + 1 }
    ensures messages { result.messages.parts ≡ users }
    ensures octets { result.octets.parts ≡ users }
    ensures acknowledged { result.acknowledged.parts ≡ 1 }
    ensures full { result.full.parts ≡ users + 1 }
    ensures checkpoints { result.checkpoints.parts ≡ users + 1 }
{
    Blanks {
        calls: Blank::new(users + 1),
        messages: Blank::new(users),
        octets: Blank::new(users),
        acknowledged: Blank::new(1),
        full: Blank::new(users + 1),
        checkpoints: Blank::new(users + 1),
    }
}

/// So it is. It stands in the place of `assert!`, whose text of what isn't so costs the prover a multiple.
pub(crate) fn holds(fact: bool) -> Result<(), Fail> {
    if fact {
        Ok(())
    } else {
        Err(Fail::from("it isn't so"))
    }
}

/// A user offers a message, and finds it as soon as it was accepted.
pub(crate) fn offers<O: Opening, R: Wait>(
    rt: &R,
    set: &LinkSet<O>,
    seat: &mut UserSeat<O>,
) -> bool {
    match set.offer(rt, seat, &MESSAGE) {
        Ok(Answer::Accepted { number }) => {
            matches!(set.find(rt, seat, number), Ok(Answer::Found { .. }))
        }
        _ => false,
    }
}

/// What a set came to, if all its seats are there. What it hands back where they aren't is let go by the library's function for
/// all types, since letting go of a set of a known type is dear to prove.
pub(crate) fn closed<O: Opening>(
    set: LinkSet<O>,
    users: Vec<UserSeat<O>>,
    terminals: Vec<TermSeat<O>>,
) -> Option<Closed> {
    set.close(users, terminals).ok()
}
