//! A run of two ends on lines, and what it carries from users to users.
ghost use Rattle.std.specs.Prelude.{IfOk, MatchResult};
ghost use Rattle.pair_octets.specs.Wires.{IsRun, RunFails};
ghost use Rattle.pair_wires.specs.Carrying.{CarriesStreams, CarriesThroughNoise};

use pair_octets::{EndConfig, LineLengths, RunFault, WireStep, Wires};
use pair_steps::End;
use std::alloc::Global;

/// Two new ends of these configurations, joined by idle lines of these lengths, after these steps, one after another, as
/// of [`Wires::run`], with its faults.
///
/// Where the run is sound, what users took of each stream at one end is the first of what was offered at the other and
/// accepted: in order, each message once, unchanged; where no message is pending at either end (`SetCore::counts`) that's
/// all but what waits for users in the inbox. It's sound where octets under way aren't damaged, at most 3,700 are
/// under way in each link's loop, both ends keep messages safe by one method in the narrow profile, and they are told
/// and asked nothing but `Start`, `Emergency` and `Stop`, offers, takes, where a message is, and `Restore`. So it is too
/// where octets are damaged, if damage shows as loss: what an end hears in a turn are some of the units that come then,
/// and nothing else.
pub fn run(
    alloc: Global,
    a: &EndConfig,
    b: &EndConfig,
    lengths: &[LineLengths],
    steps: &[WireStep],
) -> Result<Wires, RunFault>
    ensures run { MatchResult result
        (λ wires. IsRun a.now b.now lengths.now steps.now wires)
        (λ fault. RunFails fault a.now b.now lengths.now steps.now) }
    ensures carries { IfOk result (λ wires. CarriesStreams a.now b.now lengths.now steps.now wires) }
    ensures noise { IfOk result (λ wires. CarriesThroughNoise a.now b.now lengths.now steps.now wires) }
{
    let wires = Wires::run(alloc, a, b, lengths, steps)?;
    // the histories have room
    wires.bench(End::A).set().replays();
    wires.bench(End::B).set().replays();
    Ok(wires)
}
