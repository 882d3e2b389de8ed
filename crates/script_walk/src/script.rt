//! A script under way, and what a line of it does.
ghost use Rattle.std.specs.Prelude.{◌≡◌, ◌≢◌, Err, None, Some, IsSome, MatchResult};
ghost use Rattle.text_forms.specs.Opening.{first_line};
ghost use Rattle.pair_model.specs.World.{World as ModelWorld, Outcome};
ghost use Rattle.pair_rises.specs.declared.moves.Move.{Move as ModelMove};
ghost use Rattle.pair_rises.specs.Rises.{moved};
ghost use Rattle.pair_world.specs.Carried.{CanBeDone, Fails};
ghost use Rattle.text_base.specs.declared.fault.Stop.TheVariants.{Input, Memory};
ghost use Rattle.text_lines.specs.Flaws.{flaw_of};
ghost use Rattle.text_lines.specs.Lines.{prints};
ghost use Rattle.text_lines.specs.Reading.{IsDone, Tells};
ghost use Rattle.script_walk.specs.declared.fault.ScriptFault.TheVariants.{Text};
ghost use Rattle.script_walk.specs.Scripts.{Told, opened, outcome_of, profile_of, read_script, told_of};

use super::account::Account;
use super::fault::ScriptFault;
use l2_units::Profile;
use pair_steps::{Showing, Step};
use pair_world::{End, Move, PlayFault, World};
use std::alloc::Global;
use std::marker::{Model, PhantomData};
use text_base::Stop;
use text_forms::{Unread, read_move_into, read_opening};
use text_lines::{LineFlaw, TalkText, find_flaw};

/// A script under way.
#[derive(Drop)]
pub struct Script<A> {
    /// The world, once the first line has made it.
    world: Option<World>,
    /// The last line's move, and what it showed: both have room for a unit, and are filled where they stand.
    next: Move,
    shown: Showing,
    account: PhantomData<A>,
}

impl<A> Model for Script<A> {
    ghost use Rattle.std.specs.Prelude.{Option};
    ghost use Rattle.pair_model.specs.World.{World as ModelWorld};

    ghost Value = { Option ModelWorld };

    ghost view = { λ script. script.world };
}

impl<A: Account> Script<A> {
    ghost use Rattle.std.specs.Prelude.{◌≡◌, None};
    ghost use Rattle.std.specs.Option.{option_map};
    ghost use Rattle.set_model.specs.State.{link_count};
    ghost use Rattle.script_walk.specs.Scripts.{profile_of};

    /// Before the first line.
    pub fn new() -> Script<A>
        ensures { result ≡ None }
    {
        Script {
            world: None,
            next: Move::Step(Step::Together { link: 0 }),
            shown: Showing::new(),
            account: PhantomData,
        }
    }

    /// How many links the world has, once the first line has made it.
    pub fn links(&self) -> Option<u8>
        ensures { result ≡ option_map (λ w. link_count w.a.state) self.now }
    {
        match &self.world {
            Some(world) => Some(world.core(End::A).links()),
            None => None,
        }
    }

    /// The profile of the world, once the first line has made it.
    pub fn profile(&self) -> Option<Profile>
        ensures { result ≡ option_map profile_of self.now }
    {
        match &self.world {
            Some(world) => Some(world_profile(world)),
            None => None,
        }
    }
}

/// The profile of a world.
pub fn world_profile(world: &World) -> Profile
    ensures { result ≡ profile_of world.now }
{
    world.core(End::A).config().profile()
}

impl<A: Account> Script<A> {
    ghost use Rattle.text_lines.specs.Reading.{IsDone};
    ghost use Rattle.script_walk.specs.Scripts.{read_script};

    /// Carries out the line of this number, which is no remark, and appends what is told of it.
    fn carry_out(
        &mut self,
        alloc: Global,
        number: u64,
        text: &[u8],
        out: &mut Vec<u8>,
    ) -> Result<(), Stop<ScriptFault>>
        ensures { IsDone result (read_script A.told number self.old text.now)
            out.old.items out.new.items self.new }
    {
        if self.world.is_none() {
            open::<A>(alloc, &mut self.world, number, text, out)
        } else {
            let Script {
                world,
                next,
                shown,
                ..
            } = self;
            do_line::<A>(alloc, world, next, shown, number, text, out)
        }
    }
}

impl<A: Account> TalkText for Script<A> {
    type Fault = ScriptFault;

    ghost use Rattle.text_lines.specs.Talks.{by_function, have_one};
    ghost use Rattle.script_walk.specs.Scripts.{script_rules};

    ghost rules = { by_function (script_rules A.told) };

    ghost one_outcome = { have_one (script_rules A.told) };

    fn unreadable(number: u64) -> ScriptFault {
        ScriptFault::Text {
            line: number,
            flaw: LineFlaw::Long,
        }
    }

    fn line(
        &mut self,
        alloc: Global,
        number: u64,
        text: &[u8],
        out: &mut Vec<u8>,
    ) -> Result<(), Stop<ScriptFault>> {
        self.carry_out(alloc, number, text, out)
    }

    fn end(&self, alloc: Global, out: &mut Vec<u8>) -> Result<(), Stop<ScriptFault>> {
        A::tell_end(alloc, &self.world, out)?;
        Ok(())
    }
}

/// The first line makes the world.
fn open<A: Account>(
    alloc: Global,
    world: &mut Option<World>,
    number: u64,
    text: &[u8],
    out: &mut Vec<u8>,
) -> Result<(), Stop<ScriptFault>>
    ensures done { IsDone result (opened A.told number text.now (first_line text.now))
        out.old.items out.new.items world.new }
    ensures unread { first_line text.now ≡ None → result ≡ Err (Input (Text number (flaw_of text.now))) }
{
    let made = make_world(alloc, number, text)?;
    let told = A::tell_opening(alloc, &made, out);
    *world = Some(made);
    told?;
    Ok(())
}

/// The world that the first line asks for.
fn make_world(alloc: Global, number: u64, text: &[u8]) -> Result<World, Stop<ScriptFault>>
    ensures made { MatchResult result
        (λ world. (t : Told)
        → opened t number text.now (first_line text.now) ≡ prints (t.opening world) (Some world))
        (λ stop. (t : Told) → Tells stop (opened t number text.now (first_line text.now))) }
    ensures unread { first_line text.now ≡ None → result ≡ Err (Input (Text number (flaw_of text.now))) }
{
    let Ok(opening) = read_opening(text) else {
        return Err(unread(number, text));
    };
    match World::new(alloc, &opening.a, &opening.b) {
        Ok(world) => Ok(world),
        Err(PlayFault::NoMemory) => Err(Stop::Memory),
        Err(_) => unreachable!(),
    }
}

/// This line can't be read.
fn unread(number: u64, text: &[u8]) -> Stop<ScriptFault>
    ensures { result ≡ Input (Text number (flaw_of text.now)) }
{
    Stop::Input(ScriptFault::Text {
        line: number,
        flaw: find_flaw(text),
    })
}

/// A line after the first asks for a move, which is made.
fn do_line<A: Account>(
    alloc: Global,
    world: &mut Option<World>,
    next: &mut Move,
    shown: &mut Showing,
    number: u64,
    text: &[u8],
    out: &mut Vec<u8>,
) -> Result<(), Stop<ScriptFault>>
    requires { IsSome world.old }
    ensures { IsDone result (read_script A.told number world.old text.now)
        out.old.items out.new.items world.new }
{
    let Some(world) = world.as_mut() else {
        unreachable!();
    };
    match read_move_into(alloc, world_profile(world), text, next) {
        Ok(()) => do_move::<A>(alloc, world, number, next, shown, out),
        Err(Unread::At(_)) => Err(unread(number, text)),
        Err(Unread::Memory) => Err(Stop::Memory),
    }
}

/// The move of this line is made, and what it shows is told. Memory is wanted only of a move that can be made.
fn do_move<A: Account>(
    alloc: Global,
    world: &mut World,
    number: u64,
    next: &Move,
    shown: &mut Showing,
    out: &mut Vec<u8>,
) -> Result<(), Stop<ScriptFault>>
    ensures done { IsDone result
        (outcome_of A.told number world.old next.now (moved world.old next.now))
        out.old.items out.new.items (Some world.new) }
    ensures memory { result ≡ Err Memory → CanBeDone (moved world.old next.now) }
{
    let note = A::note(alloc, world, next);
    match world.make_move(next, shown) {
        Ok(()) => {
            show_fill(world, next, shown);
            Ok(A::tell_step(alloc, number, note, next, shown, world, out)?)
        }
        Err(fault) => Err(stop_of(fault, number)),
    }
}

/// Of a fill it's shown that its unit was sent; of another move it stays what it showed.
fn show_fill(world: &World, next: &Move, shown: &mut Showing)
    ensures { shown.new ≡ told_of next.now shown.old world.now }
{
    if let Move::Fill { end, .. } = next {
        shown.reply().set_fill_in(world.fill_head(*end));
    }
}

/// Why a move that fails so stops the script at this line.
fn stop_of(fault: PlayFault, number: u64) -> Stop<ScriptFault>
    requires links { fault ≢ PlayFault.Links }
    requires profiles { fault ≢ PlayFault.Profile }
    ensures tells { (t : Told) (w : ModelWorld) (move : ModelMove) (outcome : Outcome) → Fails fault outcome
        → Tells result (outcome_of t number w move outcome) }
    ensures memory { result ≡ Memory → fault ≡ PlayFault.NoMemory }
{
    match fault {
        PlayFault::NoMemory => Stop::Memory,
        PlayFault::Impossible { .. } => Stop::Input(ScriptFault::Step { line: number }),
        PlayFault::Exhausted => Stop::Input(ScriptFault::Exhausted),
        PlayFault::Links | PlayFault::Profile => unreachable!(),
    }
}
