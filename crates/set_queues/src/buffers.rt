//! The queues in which messages stand: of each link those of its window and the held ones, the parked
//! ones, and of each changeback code those that wait for its acknowledgement.
ghost use Rattle.set_queues.specs.Buffers.{BuffersState, empty_lists, IsKnown, IsQueued, CanTake, KeepsRoom, TakesRoom, queue_at, room_at, with_queue};
ghost use Rattle.std.specs.Prelude.{◌≡◌, ◌+◌, ◌<◌, ◌≤◌, ◌++◌, [], ◌∷◌, IfOk, IfSome, length, take, drop, map, slice_get};
ghost use Rattle.set_queues.specs.Kept.{lists_of, state_of};

use l2_units::Profile;
use l2_window::{Queue, Window};
use set_events::Fate;
use std::alloc::{AllocError, Allocator};
use std::marker::Model;

/// The queues of a link.
#[derive(Drop)]
pub(crate) struct Link<A: Allocator> {
    pub(crate) window: Window<A>,
    pub(crate) held: Queue<A>,
}

/// The queues of a set. A fate that isn't final names one of them.
#[derive(Drop)]
pub(crate) struct Buffers<A: Allocator> {
    pub(crate) links: Vec<Link<A>, A>,
    pub(crate) parked: Queue<A>,
    /// By the changeback's code, 0 to 255.
    pub(crate) back: Vec<Queue<A>, A>,
}

impl<A: Allocator> Model for Buffers<A> {
    ghost Value = { BuffersState };

    ghost view = { state_of };
}

impl<A: Allocator + Copy> Buffers<A> {
    /// The queues of so many links, all empty.
    pub(crate) fn new(alloc: A, profile: Profile, links: u8) -> Result<Buffers<A>, AllocError>
        ensures { IfOk result (λ buffers. buffers.lists ≡ empty_lists profile links 256) }
    {
        let mut made = Vec::new(alloc);
        for _ in 0..links {
            let window = Window::of(alloc, profile)?;
            let held = Queue::new(alloc)?;
            made.push(Link { window, held })?;
        }
        // a queue takes no memory while nothing stands in it
        let mut back = Vec::new(alloc);
        for _ in 0..256u16 {
            let queue = Queue::new(alloc)?;
            back.push(queue)?;
        }
        Ok(Buffers {
            links: made,
            parked: Queue::new(alloc)?,
            back,
        })
    }

    /// The same queues, with no room.
    pub(crate) fn copied(&self) -> Result<Buffers<A>, AllocError>
        ensures { IfOk result (λ copy. copy.lists ≡ self.now.lists) }
    {
        Ok(Buffers {
            links: links_copied(*self.links.allocator(), &self.links)?,
            parked: self.parked.copied()?,
            back: back_copied(*self.back.allocator(), &self.back)?,
        })
    }

    /// The message at this place of those that stand there, the oldest at 0.
    #[tactic(auto, using(crate::proofs::Linked::of_link, crate::proofs::Linked::of_code))]
    pub(crate) fn at(&self, fate: Fate, place: usize) -> Option<u64>
        requires { IsKnown fate self.now.lists }
        ensures { result ≡ slice_get (queue_at fate self.now.lists) place }
    {
        match fate {
            Fate::Waiting { link } => self.links[usize::from(link)].window.unsent_at(place),
            Fate::Unacked { link } => self.links[usize::from(link)].window.unacked_at(place),
            Fate::Held { link } => self.links[usize::from(link)].held.at(place),
            Fate::Parked => self.parked.at(place),
            Fate::Back { code } => self.back[usize::from(code)].at(place),
            Fate::Acked { .. } | Fate::Discarded { .. } => None,
        }
    }

    /// The message stands there, behind the others, if the fate isn't final.
    #[tactic(auto, using(crate::proofs::Linked::of_link, crate::proofs::Linked::of_code))]
    pub(crate) fn push(&mut self, fate: Fate, message: u64)
        requires known { IsKnown fate self.old.lists }
        requires room { CanTake fate 1 self.old.rooms }
        ensures lists { self.new.lists ≡ with_queue fate (queue_at fate self.old.lists
            ++ message ∷ []) self.old.lists }
        ensures room { TakesRoom fate 1 self.old.rooms self.new.rooms }
    {
        match fate {
            Fate::Waiting { link } => self.links[usize::from(link)].window.push(message).unwrap(),
            Fate::Held { link } => self.links[usize::from(link)].held.push_reserved(message),
            Fate::Parked => self.parked.push_reserved(message),
            Fate::Back { code } => self.back[usize::from(code)].push_reserved(message),
            Fate::Acked { .. } | Fate::Discarded { .. } => (),
            Fate::Unacked { .. } => unreachable!(),
        }
    }

    /// The message stands there, behind the `place` oldest, if the fate isn't final.
    #[tactic(auto, using(crate::proofs::Linked::of_link, crate::proofs::Linked::of_code))]
    pub(crate) fn insert(&mut self, fate: Fate, place: usize, message: u64)
        requires known { IsKnown fate self.old.lists }
        requires room { CanTake fate 1 self.old.rooms }
        requires place { place ≤ length (queue_at fate self.old.lists) }
        ensures lists { self.new.lists ≡ with_queue fate (take place (queue_at fate self.old.lists)
            ++ message ∷ drop place (queue_at fate self.old.lists)) self.old.lists }
        ensures room { TakesRoom fate 1 self.old.rooms self.new.rooms }
    {
        match fate {
            Fate::Waiting { link } => {
                let window = &mut self.links[usize::from(link)].window;
                window.insert_reserved(place, message);
            }
            Fate::Held { link } => {
                let held = &mut self.links[usize::from(link)].held;
                held.insert_reserved(place, message);
            }
            Fate::Parked => self.parked.insert_reserved(place, message),
            Fate::Back { code } => self.back[usize::from(code)].insert_reserved(place, message),
            Fate::Acked { .. } | Fate::Discarded { .. } => (),
            Fate::Unacked { .. } => unreachable!(),
        }
    }

    /// The oldest of those that stand there leaves, if there is one. Condition: messages come to stand there otherwise than
    /// by being sent.
    #[tactic(auto, using(crate::proofs::Linked::of_link, crate::proofs::Linked::of_code))]
    pub(crate) fn pop(&mut self, fate: Fate) -> Option<u64>
        requires known { IsKnown fate self.old.lists }
        requires queued { IsQueued fate }
        ensures value { result ≡ slice_get (queue_at fate self.old.lists) 0 }
        ensures lists { self.new.lists ≡ with_queue fate (drop 1 (queue_at fate self.old.lists)) self.old.lists }
        ensures room { KeepsRoom self.old.rooms self.new.rooms }
        ensures freed { IfSome result (λ _. room_at fate self.old.rooms + 1 ≤ room_at fate self.new.rooms) }
    {
        match fate {
            Fate::Waiting { link } => self.links[usize::from(link)].window.withdraw(),
            Fate::Held { link } => self.links[usize::from(link)].held.pop(),
            Fate::Parked => self.parked.pop(),
            Fate::Back { code } => self.back[usize::from(code)].pop(),
            Fate::Unacked { .. } | Fate::Acked { .. } | Fate::Discarded { .. } => unreachable!(),
        }
    }

    /// No message stands there from now on.
    #[tactic(auto, using(crate::proofs::Linked::of_link, crate::proofs::Linked::of_code))]
    pub(crate) fn clear(&mut self, fate: Fate)
        requires known { IsKnown fate self.old.lists }
        ensures lists { self.new.lists ≡ with_queue fate [] self.old.lists }
        ensures room { KeepsRoom self.old.rooms self.new.rooms }
    {
        match fate {
            Fate::Waiting { link } => self.links[usize::from(link)].window.clear_unsent(),
            Fate::Unacked { link } => self.links[usize::from(link)].window.clear_unacked(),
            Fate::Held { link } => self.links[usize::from(link)].held.clear(),
            Fate::Parked => self.parked.clear(),
            Fate::Back { code } => self.back[usize::from(code)].clear(),
            Fate::Acked { .. } | Fate::Discarded { .. } => (),
        }
    }
}

/// The queues of these links.
fn links_copied<A: Allocator + Copy>(
    alloc: A,
    links: &[Link<A>],
) -> Result<Vec<Link<A>, A>, AllocError>
    ensures { IfOk result (λ copy. map lists_of copy.items ≡ map lists_of links.now) }
{
    let mut copy = Vec::new(alloc);
    for link in links {
        let window = link.window.copied()?;
        let held = link.held.copied()?;
        copy.push(Link { window, held })?;
    }
    Ok(copy)
}

/// These queues.
fn back_copied<A: Allocator + Copy>(
    alloc: A,
    back: &[Queue<A>],
) -> Result<Vec<Queue<A>, A>, AllocError>
    ensures { IfOk result (λ copy. map (λ queue. queue.messages) copy.items
        ≡ map (λ queue. queue.messages) back.now) }
{
    let mut copy = Vec::new(alloc);
    for queue in back {
        copy.push(queue.copied()?)?;
    }
    Ok(copy)
}
