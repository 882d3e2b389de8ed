//! A terminal's turns, by slices: before each it looks at its set.
ghost use Rattle.std.specs.Prelude.{◌≡◌, ◌<◌, ◌≤◌, ◌^◌, false, List, ◌++◌};
ghost use Rattle.link_term.specs.Standing.{lent, stands};
ghost use Rattle.bank_crew.specs.Managing.{Look};
ghost use Rattle.bank_crew.specs.Shifts.{TurnsOf, both, longest_slice, ordered, up_to};

use super::assignment::Assignment;
use super::manager::{Instruction, LinkManager, SetManager, Sight};
use line_ring::Line;
use link_term::{Command, Door, TermFault, TermReport, Works};

/// How many turns a terminal takes before it looks at its set again, and is told anew what to do.
const SLICE: u64 = 256;

/// The door of a terminal that takes its turns by slices.
pub(crate) trait SliceDoor: Door {
    ghost use Rattle.std.specs.Prelude.{◌≡◌, [], ◌∷◌, ◌++◌, length, List};
    ghost use Rattle.bank_crew.specs.declared.manager.Sight.{Sight};
    ghost use Rattle.bank_crew.specs.Managing.{Look};
    ghost use Rattle.bank_crew.specs.Shifts.{look_of};

    /// This may be seen through it.
    ghost sees: { Self → Sight → Type 0 };

    /// Each look through it, oldest first.
    ghost looks: { Self → List Look };

    /// The second is the same door as the first, which may have looked.
    ghost goes_on: { Self → Self → Type 0 };

    /// What the terminal sees of its set, and of the link since it looked last. A terminal that is out of service rests for a
    /// slice where the set hasn't settled its link, and level 3 may ask the set for it.
    fn look(&mut self, out: bool) -> Sight
        ensures seen { sees self.old result }
        ensures looks { looks self.new ≡ looks self.old ++ look_of (length (Self.made self.old)) out result ∷ [] }
        ensures made { Self.made self.new ≡ Self.made self.old }
        ensures faults { Self.faults self.new ≡ Self.faults self.old }
        ensures number { Self.number self.new ≡ Self.number self.old }
        ensures same { goes_on self.old self.new };

    ghost same_looks: { (first second : Self) → Self.is_same first second → looks second ≡ looks first };

    ghost same_goes_on: { (first second : Self) → Self.is_same first second → goes_on first second };

    ghost goes_on_on: { (first second third : Self) → goes_on first second → goes_on second third → goes_on first third };
}

/// The turns of a plan by slices, each behind what is seen and instructed, until that ends them, or all were taken.
pub(crate) fn sliced<D: SliceDoor, L: Line, G: LinkManager>(
    assignment: &Assignment<G>,
    works: &mut Works,
    door: &mut D,
    line: &mut L,
) -> Result<TermReport, TermFault>
    requires at { D.number door.old ≡ works.old.inside.link }
    requires failed { works.old.failed ≡ false }
    ensures turns { (looks : List Look) × (D.looks door.new ≡ D.looks door.old ++ looks)
        × TurnsOf assignment.now.plan (D.number door.old) result looks
        (stands D.Door L.Line (lent works.old door.old line.old)) (stands D.Door L.Line (lent works.new door.new line.new)) }
    ensures number { D.number door.new ≡ D.number door.old }
    ensures door { D.goes_on door.old door.new }
    ensures line { L.is_same line.old line.new }
{
    let link = door.link();
    let stop = assignment.plan.stop_of(link);
    let mut counted = NO_TURNS;
    let mut left = assignment.plan.turns;
    while left > 0 {
        let sight = door.look(works.is_out_of_service());
        let instruction = assignment.instruct(link, left, &sight);
        if let Instruction::End = instruction {
            return Ok(counted);
        }
        order(works, &sight, instruction);
        let turns = slice_of(left, stop);
        match works.run(door, line, &assignment.gate, assignment.set, turns) {
            Ok(more) => counted = one_report(counted, more),
            Err(fault) => return Err(fault),
        }
        left -= turns;
    }
    Ok(counted)
}

/// How many turns the next slice has, where so many are left; none goes on where the terminal is to be told Stop.
fn slice_of(left: u64, stop: Option<u64>) -> u64
    ensures some { 0 < left → 0 < result }
    ensures few { result ≤ left }
    ensures reach { result ≤ up_to stop left }
    ensures short { result ≤ longest_slice }
{
    match stop {
        Some(stop) if stop < left => SLICE.min(left - stop),
        _ => SLICE.min(left),
    }
}

/// What two runs of one terminal counted together. No sum comes near the end of its range.
fn one_report(first: TermReport, second: TermReport) -> TermReport
    ensures { result ≡ both first second }
{
    TermReport {
        turns: first.turns.saturating_add(second.turns),
        sent: first.sent.saturating_add(second.sent),
        good: first.good.saturating_add(second.good),
        bad: first.bad.saturating_add(second.bad),
        sixteen: first.sixteen.saturating_add(second.sixteen),
        cause: second.cause,
    }
}

/// No turn was taken yet.
const NO_TURNS: TermReport = TermReport {
    turns: 0,
    sent: 0,
    good: 0,
    bad: 0,
    sixteen: 0,
    cause: 0,
};

/// What is ordered of a terminal that sees this, and is instructed so.
fn order(works: &mut Works, sight: &Sight, instruction: Instruction)
    ensures { works.new ≡ record works.old { inside = ordered sight.now instruction works.old.inside } }
{
    if sight.late && !works.is_out_of_service() {
        return works.command(Command::Stop);
    }
    match instruction {
        Instruction::Start if sight.settled => {
            works.command(Command::Emergency);
            works.command(Command::Start);
        }
        Instruction::Stop => works.command(Command::Stop),
        Instruction::Run | Instruction::Start | Instruction::End => {}
    }
}
