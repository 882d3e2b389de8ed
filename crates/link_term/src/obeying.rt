//! The commands that waited (Q.703 7.2, 8.1, 9.2, 12.1).
ghost use Rattle.std.specs.Prelude.{◌≡◌};
ghost use Rattle.link_term.specs.Orders.{is_among, every_command, obeys, obeys_among, obeys_all};
ghost use Rattle.link_term.specs.Talking.{Talks, asked};
ghost use Rattle.term_model.specs.Obeying.{changes_outage, commanded};

use super::door::Door;
use super::hearing::tell_outage;
use super::machines::{input_align, input_flow, input_state};
use l2_align::AlignIn;
use l2_flow::FlowIn;
use l2_state::StateIn;
use set_events::SetFault;
use term_core::Inside;
use term_model::{Command, Commands};

/// The commands, in the order in which they are obeyed (own).
static ORDER: [Command; 9] = [
    Command::Emergency,
    Command::Calm,
    Command::Start,
    Command::Busy,
    Command::Ease,
    Command::Blind,
    Command::Outage,
    Command::Recover,
    Command::Stop,
];

/// The commands that waited are obeyed, each once.
pub(crate) fn obey<D: Door>(inside: &mut Inside, door: &mut D) -> Result<(), SetFault>
    requires { D.number door.old ≡ inside.old.link }
    ensures talks { Talks (commanded inside.old) result (asked D.Door door.old) (asked D.Door door.new) inside.new }
    ensures at { D.number door.new ≡ inside.new.link }
    ensures number { D.number door.new ≡ D.number door.old }
    ensures door { D.is_same door.old door.new }
{
    let commands = inside.take_commands();
    obey_given(inside, door, commands)
}

/// The commands that were given are obeyed: in most turns there is none.
#[tactic(auto, using(crate::proofs::Rows::none_given))]
fn obey_given<D: Door>(
    inside: &mut Inside,
    door: &mut D,
    commands: Commands,
) -> Result<(), SetFault>
    requires { D.number door.old ≡ inside.old.link }
    ensures talks { Talks (obeys_all commands every_command inside.old) result (asked D.Door door.old)
        (asked D.Door door.new) inside.new }
    ensures at { D.number door.new ≡ inside.new.link }
    ensures number { D.number door.new ≡ D.number door.old }
    ensures door { D.is_same door.old door.new }
{
    if commands == Commands::NONE {
        return Ok(());
    }
    obey_each(inside, door, commands, &ORDER)
}

/// These commands are obeyed, in order, where they were given.
fn obey_each<D: Door>(
    inside: &mut Inside,
    door: &mut D,
    commands: Commands,
    order: &[Command],
) -> Result<(), SetFault>
    requires { D.number door.old ≡ inside.old.link }
    ensures talks { Talks (obeys_all commands order.now inside.old) result (asked D.Door door.old)
        (asked D.Door door.new) inside.new }
    ensures at { D.number door.new ≡ inside.new.link }
    ensures number { D.number door.new ≡ D.number door.old }
    ensures door { D.is_same door.old door.new }
{
    for command in order {
        obey_if(inside, door, commands, *command)?;
    }
    Ok(())
}

/// This command is obeyed, where it was given.
fn obey_if<D: Door>(
    inside: &mut Inside,
    door: &mut D,
    commands: Commands,
    command: Command,
) -> Result<(), SetFault>
    requires { D.number door.old ≡ inside.old.link }
    ensures talks { Talks (obeys_among commands command inside.old) result (asked D.Door door.old)
        (asked D.Door door.new) inside.new }
    ensures at { D.number door.new ≡ inside.new.link }
    ensures number { D.number door.new ≡ D.number door.old }
    ensures door { D.is_same door.old door.new }
{
    if contains(commands, command) {
        return obey_one(inside, door, command);
    }
    Ok(())
}

/// Whether this command was given.
fn contains(commands: Commands, command: Command) -> bool
    ensures { result ≡ is_among command commands }
{
    match command {
        Command::Emergency => commands.emergency,
        Command::Calm => commands.calm,
        Command::Start => commands.start,
        Command::Busy => commands.busy,
        Command::Ease => commands.ease,
        Command::Blind => commands.blind,
        Command::Outage => commands.outage,
        Command::Recover => commands.recover,
        Command::Stop => commands.stop,
    }
}

/// A command is obeyed. Blind is for the next failure, and lost while the link isn't up at the set (own).
fn obey_one<D: Door>(inside: &mut Inside, door: &mut D, command: Command) -> Result<(), SetFault>
    requires { D.number door.old ≡ inside.old.link }
    ensures talks { Talks (obeys command inside.old) result (asked D.Door door.old) (asked D.Door door.new) inside.new }
    ensures at { D.number door.new ≡ inside.new.link }
    ensures number { D.number door.new ≡ D.number door.old }
    ensures door { D.is_same door.old door.new }
{
    match command {
        Command::Emergency => input_align(inside, door, AlignIn::Emergency),
        Command::Calm => input_align(inside, door, AlignIn::Calm),
        Command::Start => input_state(inside, door, StateIn::Start),
        Command::Busy => input_flow(inside, door, FlowIn::Busy),
        Command::Ease => input_flow(inside, door, FlowIn::Ease),
        Command::Blind => {
            inside.blind();
            Ok(())
        }
        Command::Outage => change_outage(inside, door, StateIn::Outage),
        Command::Recover => change_outage(inside, door, StateIn::Recover),
        Command::Stop => input_state(inside, door, StateIn::Stop),
    }
}

/// This end's processor outage begins or is over; T7 stands still meanwhile (Q.703 8.1).
fn change_outage<D: Door>(inside: &mut Inside, door: &mut D, input: StateIn) -> Result<(), SetFault>
    requires { D.number door.old ≡ inside.old.link }
    ensures talks { Talks (changes_outage input inside.old) result (asked D.Door door.old)
        (asked D.Door door.new) inside.new }
    ensures at { D.number door.new ≡ inside.new.link }
    ensures number { D.number door.new ≡ D.number door.old }
    ensures door { D.is_same door.old door.new }
{
    let was_held = inside.is_held();
    input_state(inside, door, input)?;
    tell_outage(inside, door, was_held)
}
