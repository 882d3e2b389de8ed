//! Links whose alignment ends, since a changeover order about them came late (own).
ghost use Rattle.std.specs.Prelude.{◌≡◌, ◌≤◌, length};
ghost use Rattle.set_model.specs.State.{State};
ghost use Rattle.term_bench.specs.Late.{AreLate, ended_from};

use super::door::SetDoor;
use super::link::LinkEnd;
use link_term::Command;

/// Each link about which the set heard one more in this turn is told to stop, unless it's out of service.
pub(crate) fn end_late(links: &mut [LinkEnd], door: &SetDoor)
    requires { length links.old ≤ 16 }
    ensures { (s : State) → AreLate s door.now.late
        → links.new ≡ ended_from 0 s door.now.set.state links.old }
{
    if !door.is_ordered() {
        return;
    }
    let before = door.late();
    let set = door.set();
    for place in 0..links.len() {
        if set.late(place as u8) == before[place] || links[place].is_out() {
            continue;
        }
        links[place].command(Command::Stop);
    }
}
