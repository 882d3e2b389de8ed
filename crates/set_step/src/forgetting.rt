//! What a checkpoint keeps, and the same again: both in memory of their own.
ghost use Rattle.std.specs.Prelude.{◌≡◌, ◌+◌, ◌<◌, ◌^◌, IfOk, IfSome, OnErr, OnOk, List, ℕ, length};
ghost use Rattle.set_queues.specs.Bodies.{AreHeld, kept_bodies};
ghost use Rattle.set_model.specs.Checkpoint.{checkpointed};
ghost use Rattle.set_model.specs.State.{State, all_finished};
ghost use Rattle.set_changeover.specs.Agreement.{Agrees, Holds};
ghost use Rattle.set_changeover.specs.Parts.{kept_of};
ghost use Rattle.set_step.specs.Forgotten.{together};

use set_changeover::{HeardBody, Inbox, Link, Parts};
use set_events::Finished;
use set_queues::{Bodies, Queues};
use std::alloc::{AllocError, Allocator};
use std::collections::VecDeque;

/// What a checkpoint keeps: the messages that aren't finished. Those that are leave, and are counted.
#[tactic(auto, using(crate::proofs::Forgotten::fits))]
pub(crate) fn kept<A: Allocator + Copy>(parts: &Parts<A>) -> Result<Parts<A>, AllocError>
    requires { Holds (kept_of parts.now) }
    ensures { IfOk result (λ kept. (s : State) → Agrees (kept_of parts.now) s
        → Agrees (kept_of kept) (checkpointed s)) }
{
    // no more messages are counted than numbers were given out
    parts.queues.len();
    let alloc = *parts.links.allocator();
    Ok(Parts {
        config: parts.config,
        links: links_copied(alloc, &parts.links)?,
        queues: parts.queues.kept()?,
        bodies: parts.bodies.kept(&parts.queues)?,
        finished: together(parts.finished, parts.queues.finished()),
        routes: parts.routes.copied(),
        inbox: inbox_copied(alloc, &parts.inbox)?,
    })
}

/// The same where it stands: the messages that are finished leave, and are counted. It costs the same however many
/// stand and leave, but for a copy where of those that are kept more left than stand. All memory is taken first.
#[tactic(auto, using(crate::proofs::Forgotten::fits))]
pub(crate) fn forget<A: Allocator + Copy>(parts: &mut Parts<A>) -> Result<(), AllocError>
    requires { Holds (kept_of parts.old) }
    ensures ok { OnOk result ((s : State) → Agrees (kept_of parts.old) s
        → Agrees (kept_of parts.new) (checkpointed s)) }
    ensures err { OnErr result (kept_of parts.new ≡ kept_of parts.old) }
{
    // no more messages are counted than numbers were given out
    parts.queues.len();
    let finished = together(parts.finished, parts.queues.finished());
    let lean = parts.bodies.lean(&parts.queues)?;
    parts.queues.forget()?;
    let_go(&mut parts.bodies, lean, &parts.queues);
    parts.finished = finished;
    Ok(())
}

/// The bodies of the messages that left leave too: the copy without them stands in their place, if there is one.
fn let_go<A: Allocator + Copy>(bodies: &mut Bodies<A>, lean: Option<Bodies<A>>, queues: &Queues<A>)
    requires held { AreHeld queues.now.messages bodies.old.items }
    requires as_many { length queues.now.messages ≡ length bodies.old.items }
    requires lean { IfSome lean (λ copy. copy.items ≡ kept_bodies queues.now.messages bodies.old.items) }
    ensures { bodies.new.items ≡ kept_bodies queues.now.messages bodies.old.items }
{
    match lean {
        Some(copy) => *bodies = copy,
        None => bodies.forget(queues),
    }
}

/// The same again.
pub(crate) fn copied<A: Allocator + Copy>(parts: &Parts<A>) -> Result<Parts<A>, AllocError>
    ensures { IfOk result (λ copy. kept_of copy ≡ kept_of parts.now) }
{
    let alloc = *parts.links.allocator();
    Ok(Parts {
        config: parts.config,
        links: links_copied(alloc, &parts.links)?,
        queues: parts.queues.copied()?,
        bodies: parts.bodies.copied()?,
        finished: parts.finished,
        routes: parts.routes.copied(),
        inbox: inbox_copied(alloc, &parts.inbox)?,
    })
}

/// The links.
fn links_copied<A: Allocator + Copy>(alloc: A, links: &[Link]) -> Result<Vec<Link, A>, AllocError>
    ensures { IfOk result (λ copy. copy.items ≡ links.now) }
{
    let mut copy = Vec::new(alloc);
    for link in links {
        copy.push(link.copied())?;
    }
    Ok(copy)
}

/// The messages heard for users.
fn inbox_copied<A: Allocator + Copy>(alloc: A, inbox: &Inbox<A>) -> Result<Inbox<A>, AllocError>
    ensures { IfOk result (λ copy. copy.items ≡ inbox.now.items) }
{
    let mut copy = VecDeque::new(alloc);
    for place in 0..inbox.len() {
        copy.push_back(inbox[place].copied()?)?;
    }
    Ok(copy)
}

/// Those that left before, and those that leave now.
fn together(before: Finished, now: Finished) -> Finished
    requires { all_finished before + all_finished now < 2 ^ 64 }
    ensures { result ≡ together before now }
{
    Finished {
        acked: before.acked + now.acked,
        emergency: before.emergency + now.emergency,
        unreasonable: before.unreasonable + now.unreasonable,
        no_answer: before.no_answer + now.no_answer,
        orders: before.orders + now.orders,
    }
}
