//! Where every message of a set stands, with what the counts need.
ghost use Rattle.std.specs.Prelude.{◌≡◌, ◌+◌, ◌<◌, ℕ, slice_index, if◌then◌else◌, IfSome, ◌≢◌, ◌↔◌, ◌%◌, ◌≤◌, ◌^◌, ◌++◌, [], ◌∷◌, Some, true, false, IsOk, IfOk, OnOk, OnErr, length, replicate, take, drop, slice_get};
ghost use Rattle.set_queues.specs.Buffers.{empty_lists, IsQueued, same_fate, IsKnown, CanTake, KeepsRoom, TakesRoom, HaveRoom, is_standing, queue_at, with_queue, last_at, profile_at, with_last, room_at};
ghost use Rattle.l2_window.specs.Window.{fsn_count, most_unacked, fsn_before_first};
ghost use Rattle.set_queues.specs.Settling.{fate_on, on, settled};
ghost use Rattle.set_queues.specs.Queues.{QueuesState, AreSound, Moves, MovesAll, MovesFirst, DiscardsOrders, GivesUp, MakesRoom, behind_orders};
ghost use Rattle.set_queues.specs.Messages.{restood, slot_at, fate_at, octets_of, counts_of, unsent_of, finished_in, is_unfinished, unfinished, IsFit};
ghost use Rattle.std.specs.Result.{OkIff};
ghost use Rattle.set_queues.specs.Backs.{IsOldestOf, back_count};
ghost use Rattle.set_queues.specs.Sending.{acknowledged, reach};

use super::buffers::Buffers;
use super::message::Message;
use super::messages::{Messages, omit, pass, sift};
use super::tally::is_standing;
use l2_units::Profile;
use l2_window::{Queue, Window, WindowFault};
use set_events::{Counts, DiscardCause, Fate, Finished};
use std::alloc::{AllocError, Allocator, Global};
use std::marker::Model;

/// Where every message of a set stands: the queues of 1 to 16 links, the parked messages, and by its
/// number each message's fate, whose it is, and its octets.
///
/// Contracts see the lists of numbers, the messages, and how much room there is; the counts are those of the lists.
#[derive(Drop)]
pub struct Queues<A: Allocator = Global> {
    buffers: Buffers<A>,
    messages: Messages<A>,
}

impl<A: Allocator> Model for Queues<A> {
    ghost Value = { QueuesState };

    ghost view = { λ q. record {
      lists = q.buffers.lists;
      messages = q.messages.items;
      rooms = q.buffers.rooms;
      room = q.messages.room;
    } };

    ghost invariant = { λ q. AreSound q.buffers.lists q.messages.items };
}

impl<A: Allocator + Copy> Queues<A> {
    /// The queues of so many links, with no message. A link has had no life yet: FSN 127 counts as
    /// acknowledged on it (Q.703 5.2.1).
    pub fn new(alloc: A, profile: Profile, links: u8) -> Result<Queues<A>, AllocError>
        requires { (1 ≤ links) × (links ≤ 16) }
        ensures lists { IfOk result (λ queues. queues.lists ≡ empty_lists profile links 256) }
        ensures messages { IfOk result (λ queues. queues.messages ≡ []) }
    {
        Ok(Queues {
            buffers: Buffers::new(alloc, profile, links)?,
            messages: Messages::new(alloc),
        })
    }

    /// The same queues and messages, with no room.
    pub fn copied(&self) -> Result<Queues<A>, AllocError>
        ensures lists { IfOk result (λ copy. copy.lists ≡ self.now.lists) }
        ensures messages { IfOk result (λ copy. copy.messages ≡ self.now.messages) }
    {
        Ok(Queues {
            buffers: self.buffers.copied()?,
            messages: self.messages.copied()?,
        })
    }

    /// The same queues, and of the messages those that aren't finished, under their numbers, with no room: what was
    /// acknowledged or discarded leaves, and no number is given out anew.
    pub fn kept(&self) -> Result<Queues<A>, AllocError>
        ensures lists { IfOk result (λ kept. kept.lists ≡ self.now.lists) }
        ensures messages { IfOk result (λ kept. kept.messages ≡ unfinished self.now.messages) }
    {
        Ok(Queues {
            buffers: self.buffers.copied()?,
            messages: self.messages.kept()?,
        })
    }

    /// The messages that are finished leave: what was acknowledged or discarded. All others stay under their numbers in
    /// their queues, and no number is given out anew.
    ///
    /// It costs the same however many messages stand and leave, but for a copy ([`Queues::kept`]) where of the messages
    /// that are kept more left than stand, and at each 65,536th call behind the last. It fails only where memory is
    /// wanted for that.
    pub fn forget(&mut self) -> Result<(), AllocError>
        ensures lists { self.new.lists ≡ self.old.lists }
        ensures messages { OnOk result (self.new.messages ≡ unfinished self.old.messages) }
        ensures err { OnErr result (self.new ≡ self.old) }
    {
        if self.messages.forget() {
            return Ok(());
        }
        *self = self.kept()?;
        Ok(())
    }

    /// Whether [`Queues::forget`] makes a copy next.
    pub(crate) fn is_sparse(&self) -> bool {
        self.messages.is_sparse()
    }

    /// A law: there are 1 to 16 links and 256 changeback codes, at most 127 messages of each link are
    /// unacknowledged, and each message stands in exactly one queue, the one that its fate names, or in
    /// none if its fate is final.
    pub fn is_sound(&self)
        ensures { AreSound self.now.lists self.now.messages }
    {
        let _ = &self.buffers;
    }

    /// How many links there are, 1 to 16.
    pub fn links(&self) -> usize
        ensures value { result ≡ length self.now.lists.links }
        ensures few { (1 ≤ result) × (result ≤ 16) }
    {
        self.buffers.links.len()
    }

    /// How many numbers were given out: those below it.
    pub fn len(&self) -> usize
        ensures value { result ≡ length self.now.messages }
        ensures few { result < 2 ^ 63 }
    {
        self.messages.given() as usize
    }

    /// What is kept of the message of this number, if there is one.
    pub fn message(&self, number: u64) -> Option<Message>
        ensures { result ≡ slot_at number self.now.messages }
    {
        self.messages.at(number)
    }

    /// Where the message of this number stands, if there is one.
    pub fn fate_of(&self, number: u64) -> Option<Fate>
        ensures { result ≡ fate_at number self.now.messages }
    {
        Some(self.message(number)?.fate)
    }

    /// Whether there is a message of this number, and its fate isn't final.
    pub fn is_unfinished(&self, number: u64) -> bool
        ensures { result ≡ is_unfinished (slot_at number self.now.messages) }
    {
        self.fate_of(number).is_some_and(is_standing)
    }

    /// How many of the users' messages stand in each place.
    pub fn counts(&self) -> Counts
        ensures { result ≡ counts_of self.now.messages }
    {
        self.messages.counts()
    }

    /// How many messages are finished, which [`Queues::kept`] forgets: the users' by how they ended, and orders.
    pub fn finished(&self) -> Finished
        ensures { result ≡ finished_in self.now.messages }
    {
        self.messages.finished()
    }

    /// How many of the users' messages of this stream aren't sent yet.
    pub fn unsent(&self, stream: u8) -> u64
        requires { stream < 16 }
        ensures { result ≡ unsent_of stream self.now.messages }
    {
        self.messages.unsent(stream)
    }

    /// The octets of the unacknowledged bodies of the link.
    pub fn octets(&self, link: u8) -> u32
        requires { link < length self.now.lists.links }
        ensures { result ≡ octets_of (queue_at
            (Fate.Unacked link) self.now.lists) self.now.messages }
    {
        self.messages.octets(link) as u32
    }

    /// The window of the link.
    #[tactic(auto, using(crate::proofs::Linked::of_link))]
    pub fn window(&self, link: u8) -> &Window<A>
        requires { link < length self.now.lists.links }
        ensures last { result.now.last ≡ last_at link self.now.lists }
        ensures profile { result.now.profile ≡ profile_at link self.now.lists }
        ensures unacked { result.now.unacked ≡ queue_at (Fate.Unacked link) self.now.lists }
        ensures unsent { result.now.unsent ≡ queue_at (Fate.Waiting link) self.now.lists }
        ensures room { result.now.room ≡ room_at (Fate.Waiting link) self.now.rooms }
    {
        let buffers = &self.buffers;
        &buffers.links[usize::from(link)].window
    }

    /// How many messages stand there.
    #[tactic(auto, using(crate::proofs::Linked::of_link, crate::proofs::Linked::of_code))]
    pub fn count_at(&self, fate: Fate) -> usize
        requires { IsKnown fate self.now.lists }
        ensures { result ≡ length (queue_at fate self.now.lists) }
    {
        let buffers = &self.buffers;
        match fate {
            Fate::Waiting { link } => buffers.links[usize::from(link)].window.unsent_len(),
            Fate::Unacked { link } => buffers.links[usize::from(link)].window.unacked_len(),
            Fate::Held { link } => buffers.links[usize::from(link)].held.len(),
            Fate::Parked => buffers.parked.len(),
            Fate::Back { code } => buffers.back[usize::from(code)].len(),
            Fate::Acked { .. } | Fate::Discarded { .. } => 0,
        }
    }

    /// The number at this place of the queue, the oldest at 0.
    pub fn number_at(&self, fate: Fate, place: usize) -> Option<u64>
        requires { IsKnown fate self.now.lists }
        ensures { result ≡ slice_get (queue_at fate self.now.lists) place }
    {
        self.buffers.at(fate, place)
    }

    /// How many messages wait for the acknowledgement of a changeback of this home, 0 to 15: for one of
    /// the codes 16 * home to 16 * home + 15.
    #[tactic(auto, using(crate::proofs::Tallies::backs))]
    pub fn back_count(&self, home: u8) -> usize
        requires { home < 16 }
        ensures value { result ≡ back_count home self.now.lists }
        ensures few { result < 2 ^ 63 }
    {
        // no count is out of range, since there are fewer than 2^63 messages
        self.is_sound();
        self.len();
        let mut count = 0;
        for place in 0..16u8 {
            let code = 16 * home + place;
            count += self.count_at(Fate::Back { code });
        }
        count
    }

    /// The changeback code of this home, 0 to 15, for whose acknowledgement the oldest message waits:
    /// of the codes 16 * home to 16 * home + 15 the one whose first number is the lowest. None where
    /// nothing waits for one.
    pub fn oldest_back(&self, home: u8) -> Option<u8>
        requires { home < 16 }
        ensures { IsOldestOf home result self.now.lists }
    {
        let mut oldest: Option<(u8, u64)> = None;
        for place in 0..16u8 {
            let code = 16 * home + place;
            let Some(number) = self.buffers.at(Fate::Back { code }, 0) else {
                continue;
            };
            match oldest {
                Some((_, least)) if least < number => (),
                _ => oldest = Some((code, number)),
            }
        }
        Some(oldest?.0)
    }

    /// Makes room for so many new messages; it fails only where memory is wanted, or a number past 2^63 - 1, which is
    /// more than a history's entries can come to.
    pub fn reserve(&mut self, messages: usize) -> Result<(), AllocError>
        ensures room { OnOk result (messages ≤ self.new.room) }
        ensures same { (self.new.lists ≡ self.old.lists) × (self.new.messages
            ≡ self.old.messages) × (self.new.rooms ≡ self.old.rooms) }
        ensures kept { self.old.room ≤ self.new.room }
    {
        self.messages.reserve(messages)
    }

    /// Makes room for so many more in that queue.
    #[tactic(auto, using(crate::proofs::Linked::of_link, crate::proofs::Linked::of_code))]
    pub fn reserve_at(&mut self, fate: Fate, messages: usize) -> Result<(), AllocError>
        requires known { IsKnown fate self.old.lists }
        requires queued { IsQueued fate }
        ensures room { OnOk result (messages ≤ room_at fate self.new.rooms) }
        ensures same { MakesRoom self.old self.new }
    {
        let buffers = &mut self.buffers;
        match fate {
            Fate::Waiting { link } => buffers.links[usize::from(link)].window.reserve(messages),
            Fate::Held { link } => buffers.links[usize::from(link)].held.reserve(messages),
            Fate::Parked => buffers.parked.reserve(messages),
            Fate::Back { code } => buffers.back[usize::from(code)].reserve(messages),
            Fate::Unacked { .. } | Fate::Acked { .. } | Fate::Discarded { .. } => unreachable!(),
        }
    }

    /// Makes room for so many more that wait for each link, and for as many that are held for it. Nothing
    /// is done for 0.
    pub fn reserve_each(&mut self, messages: usize) -> Result<(), AllocError>
        ensures room { OnOk result (HaveRoom (length self.new.lists.links) messages self.new.rooms) }
        ensures same { MakesRoom self.old self.new }
    {
        if messages == 0 {
            return Ok(());
        }
        for link in 0..self.links() as u8 {
            self.reserve_at(Fate::Waiting { link }, messages)?;
            self.reserve_at(Fate::Held { link }, messages)?;
        }
        Ok(())
    }

    /// Makes room in that queue for all that stand on the link, and so many more: what settling it may
    /// move, with the orders that tell of it.
    pub fn reserve_all(&mut self, fate: Fate, link: u8, more: usize) -> Result<(), AllocError>
        requires known { IsKnown fate self.old.lists }
        requires queued { IsQueued fate }
        requires link { link < length self.old.lists.links }
        ensures room { OnOk result (length (on link self.old.lists) + more
            ≤ room_at fate self.new.rooms) }
        ensures same { MakesRoom self.old self.new }
    {
        let sent = self.count_at(Fate::Unacked { link });
        let unsent = self.count_at(Fate::Waiting { link });
        let held = self.count_at(Fate::Held { link });
        let messages = sent as u128 + unsent as u128 + held as u128 + more as u128;
        let messages = usize::try_from(messages).ok().ok_or(AllocError)?;
        self.reserve_at(fate, messages)
    }

    /// A new message stands last in the queue that its fate names: its number.
    ///
    /// Conditions: that queue is one in which messages can wait; there is room in it, and for one
    /// message more.
    #[tactic(auto, using(crate::proofs::Tallies::few))]
    pub fn add(&mut self, message: Message) -> u64
        requires fit { IsFit message }
        requires known { IsKnown message.fate self.old.lists }
        requires queued { IsQueued message.fate }
        requires room { 0 < self.old.room }
        requires place { 0 < room_at message.fate self.old.rooms }
        ensures number { result ≡ length self.old.messages }
        ensures messages { self.new.messages ≡ self.old.messages ++ Some message ∷ [] }
        ensures lists { self.new.lists ≡ with_queue message.fate
            (queue_at message.fate self.old.lists ++ length self.old.messages ∷ []) self.old.lists }
        ensures room { self.old.room ≤ self.new.room + 1 }
        ensures rooms { TakesRoom message.fate 1 self.old.rooms self.new.rooms }
    {
        let number = self.len() as u64;
        self.messages.push(message);
        self.buffers.push(message.fate, number);
        number
    }

    /// A new message stands ahead of the first user's message in the queue that its fate names, behind the orders that
    /// stand foremost there, or last where no user's stands there: its number. It costs as many steps as there are such
    /// orders, however many stand behind it.
    ///
    /// Conditions: those of [`Queues::add`].
    #[tactic(auto, using(crate::proofs::Tallies::few))]
    pub fn add_ahead(&mut self, message: Message) -> u64
        requires fit { IsFit message }
        requires known { IsKnown message.fate self.old.lists }
        requires queued { IsQueued message.fate }
        requires room { 0 < self.old.room }
        requires place { 0 < room_at message.fate self.old.rooms }
        ensures number { result ≡ length self.old.messages }
        ensures messages { self.new.messages ≡ self.old.messages ++ Some message ∷ [] }
        ensures lists { self.new.lists ≡ with_queue message.fate (behind_orders self.old.messages
            (length self.old.messages) (queue_at message.fate self.old.lists)) self.old.lists }
        ensures room { self.old.room ≤ self.new.room + 1 }
        ensures rooms { TakesRoom message.fate 1 self.old.rooms self.new.rooms }
    {
        let place = self.orders_ahead(message.fate);
        let number = self.len() as u64;
        self.messages.push(message);
        self.buffers.insert(message.fate, place, number);
        number
    }

    /// How many orders stand foremost in the queue.
    fn orders_ahead(&self, fate: Fate) -> usize
        requires { IsKnown fate self.now.lists }
        ensures within { result ≤ length (queue_at fate self.now.lists) }
        ensures ahead { (number : ℕ) → behind_orders self.now.messages number
            (queue_at fate self.now.lists) ≡ take result (queue_at fate self.now.lists)
            ++ number ∷ drop result (queue_at fate self.now.lists) }
    {
        let count = self.count_at(fate);
        for place in 0..count {
            let number = self.buffers.at(fate, place).unwrap();
            if !self.messages.is_order(number) {
                return place;
            }
        }
        count
    }

    /// The first message that waits for the link is sent for the first time: it stands last among the
    /// unacknowledged ones. Its number and its FSN.
    ///
    /// Refusals, in this order: 1 [`WindowFault::Empty`] with none that waits, 2
    /// [`WindowFault::Full`] with 127 unacknowledged.
    #[tactic(auto, using(crate::proofs::Linked::of_link))]
    pub fn send(&mut self, link: u8) -> Result<(u64, u16), WindowFault>
        requires { link < length self.old.lists.links }
        ensures empty { (result ≡ Err WindowFault.Empty) ↔ (queue_at
            (Fate.Waiting link) self.old.lists ≡ []) }
        ensures full { (result ≡ Err WindowFault.Full) ↔ ((queue_at
            (Fate.Waiting link) self.old.lists ≢ []) × (most_unacked (profile_at link self.old.lists) ≤ length (queue_at
            (Fate.Unacked link) self.old.lists))) }
        ensures succeeds { queue_at (Fate.Waiting link) self.old.lists ≢ [] → length (queue_at
            (Fate.Unacked link) self.old.lists) < most_unacked (profile_at link self.old.lists) → IsOk result }
        ensures first { IfOk result (λ sent. slice_get (queue_at
            (Fate.Waiting link) self.old.lists) 0 ≡ Some sent.0) }
        ensures sent { OnOk result (MovesFirst 1 (Fate.Waiting link) (Fate.Unacked link) self.old self.new) }
        ensures fsn { IfOk result (λ sent. sent.1 ≡ (last_at link self.old.lists + 1 + length
            (queue_at (Fate.Unacked link) self.old.lists)) % fsn_count (profile_at link self.old.lists)) }
        ensures err { OnErr result (self.new ≡ self.old) }
    {
        let buffers = &mut self.buffers;
        let (number, fsn) = buffers.links[usize::from(link)].window.send()?;
        self.messages.restand(number, Fate::Unacked { link });
        Ok((number, fsn))
    }

    /// The messages of the link up to this FSN are acknowledged: how many.
    ///
    /// Refusal: 3 [`WindowFault::Unreasonable`], where the FSN is neither that last acknowledged nor
    /// that of an unacknowledged message.
    #[tactic(auto, using(crate::proofs::Linked::of_link))]
    pub fn acknowledge(&mut self, link: u8, fsn: u16) -> Result<u16, WindowFault>
        requires known { link < length self.old.lists.links }
        requires fsn { fsn < fsn_count (profile_at link self.old.lists) }
        ensures acked { OkIff result (reach link fsn self.old.lists ≤ length (queue_at
            (Fate.Unacked link) self.old.lists)) (reach link fsn self.old.lists) }
        ensures moves { OnOk result (Moves (take (reach link fsn self.old.lists) (queue_at
            (Fate.Unacked link) self.old.lists)) (Fate.Acked link) (acknowledged link fsn
            self.old.lists) self.old self.new) }
        ensures unreasonable { OnErr result (result ≡ Err WindowFault.Unreasonable) }
        ensures err { OnErr result (self.new ≡ self.old) }
    {
        let window = self.window(link);
        let count = window.distance(fsn).ok_or(WindowFault::Unreasonable)?;
        let (from, to) = (Fate::Unacked { link }, Fate::Acked { link });
        let moved = usize::from(count);
        pass(&mut self.buffers, &mut self.messages, from, moved, to);
        let buffers = &mut self.buffers;
        buffers.links[usize::from(link)].window.ack(fsn)
    }

    /// All that stand in one queue stand last in the other from now on, in their order. It wants no
    /// memory.
    ///
    /// Conditions: two queues, of which messages can wait in the second, with room for those that move.
    pub fn divert(&mut self, from: Fate, to: Fate)
        requires standing { is_standing from ≡ true }
        requires known { IsKnown from self.old.lists }
        requires other { IsKnown to self.old.lists }
        requires queued { IsQueued to }
        requires apart { same_fate to from ≡ false }
        requires room { length (queue_at from self.old.lists) ≤ room_at to self.old.rooms }
        ensures { MovesAll from to self.old self.new }
    {
        self.pass_all(from, to);
    }

    /// The first message that waits for the acknowledgement of the changeback of this code stands last in
    /// the other queue from now on. It wants no memory.
    ///
    /// Conditions: one waits for it; the other is a queue in which messages can wait, with room for one.
    #[tactic(auto, using(crate::proofs::Linked::of_code))]
    pub fn turn_back(&mut self, code: u8, to: Fate)
        requires some { queue_at (Fate.Back code) self.old.lists ≢ [] }
        requires other { IsKnown to self.old.lists }
        requires queued { IsQueued to }
        requires apart { same_fate to (Fate.Back code) ≡ false }
        requires room { 0 < room_at to self.old.rooms }
        ensures { MovesFirst 1 (Fate.Back code) to self.old self.new }
    {
        let from = Fate::Back { code };
        pass(&mut self.buffers, &mut self.messages, from, 1, to);
        let buffers = &mut self.buffers;
        buffers.back[usize::from(code)].pop();
    }

    /// All that stand in the queue are given up, for this cause.
    pub fn discard(&mut self, from: Fate, cause: DiscardCause)
        requires standing { is_standing from ≡ true }
        requires known { IsKnown from self.old.lists }
        ensures { MovesAll from (Fate.Discarded cause) self.old self.new }
    {
        self.pass_all(from, Fate::Discarded { cause });
    }

    /// The orders that wait for the link are given up, for this cause; users' messages wait on, in their order.
    #[tactic(auto, using(crate::proofs::Linked::of_link))]
    pub fn discard_orders(&mut self, link: u8, cause: DiscardCause)
        requires known { link < length self.old.lists.links }
        ensures { DiscardsOrders (Fate.Waiting link) cause self.old self.new }
    {
        let buffers = &mut self.buffers;
        let window = &mut buffers.links[usize::from(link)].window;
        sift(window, &mut self.messages, Fate::Discarded { cause });
    }

    /// The message of this number, that stands in the queue, is given up, for this cause; the others stay there, in their
    /// order. It costs as many steps as messages stand there.
    ///
    /// Conditions: it stands there, where messages come to stand otherwise than by being sent.
    pub fn give_up(&mut self, from: Fate, number: u64, cause: DiscardCause)
        requires known { IsKnown from self.old.lists }
        requires queued { IsQueued from }
        requires there { fate_at number self.old.messages ≡ Some from }
        ensures { GivesUp number from cause self.old self.new }
    {
        let count = self.count_at(from);
        omit(&mut self.buffers, from, count, number);
        self.messages.restand(number, Fate::Discarded { cause });
    }

    /// The first message that waits for the link is given up, for this cause.
    ///
    /// Condition: one waits for it.
    #[tactic(auto, using(crate::proofs::Linked::of_link))]
    pub fn withdraw(&mut self, link: u8, cause: DiscardCause)
        requires known { link < length self.old.lists.links }
        requires some { queue_at (Fate.Waiting link) self.old.lists ≢ [] }
        ensures { MovesFirst 1 (Fate.Waiting link) (Fate.Discarded cause) self.old self.new }
    {
        let (waiting, gone) = (Fate::Waiting { link }, Fate::Discarded { cause });
        pass(&mut self.buffers, &mut self.messages, waiting, 1, gone);
        let buffers = &mut self.buffers;
        buffers.links[usize::from(link)].window.withdraw();
    }

    /// All that stand in one queue have another fate from now on, and stand last there, in their order, if
    /// it isn't final.
    #[tactic(auto, using(crate::proofs::Standing::known_with))]
    fn pass_all(&mut self, from: Fate, to: Fate)
        requires standing { is_standing from ≡ true }
        requires known { IsKnown from self.old.lists }
        requires other { IsKnown to self.old.lists }
        requires apart { same_fate to from ≡ false }
        requires room { CanTake to (length (queue_at from self.old.lists)) self.old.rooms }
        ensures { MovesAll from to self.old self.new }
    {
        let count = self.count_at(from);
        pass(&mut self.buffers, &mut self.messages, from, count, to);
        self.buffers.clear(from);
    }

    /// The link settles (Q.704 5.5): all that stand on it wait for the target from now on, behind what
    /// waits there, or are parked where there is none. First go those that were sent, then those that
    /// waited, then those that were held, each in their order. It wants no memory.
    ///
    /// Conditions: links of the set, the target another one, with room for those that move.
    #[tactic(auto, using(crate::proofs::Soundness::settles))]
    pub fn settle(&mut self, link: u8, target: Option<u8>)
        requires known { link < length self.old.lists.links }
        requires other { IsKnown (fate_on target) self.old.lists }
        requires apart { IfSome target (λ to. to ≢ link) }
        requires room { length (on link self.old.lists) ≤ room_at (fate_on target) self.old.rooms }
        ensures { Moves (on link self.old.lists) (fate_on target) (settled link
            (fate_on target) self.old.lists) self.old self.new }
    {
        let to = fate_on(target);
        self.pass_all(Fate::Unacked { link }, to);
        self.pass_all(Fate::Waiting { link }, to);
        self.pass_all(Fate::Held { link }, to);
    }

    /// A new life of the link: FSN 127 counts as acknowledged again (Q.703 5.2.1).
    ///
    /// Conditions: nothing was sent on it and isn't acknowledged, and nothing waits for it.
    #[tactic(auto, using(crate::proofs::Linked::of_link))]
    pub fn reset(&mut self, link: u8)
        requires known { link < length self.old.lists.links }
        requires unacked { queue_at (Fate.Unacked link) self.old.lists ≡ [] }
        requires unsent { queue_at (Fate.Waiting link) self.old.lists ≡ [] }
        ensures lists { self.new.lists ≡ with_last link (fsn_before_first (profile_at link self.old.lists)) self.old.lists }
        ensures same { (self.new.messages ≡ self.old.messages) × (self.new.room ≡ self.old.room) }
        ensures rooms { KeepsRoom self.old.rooms self.new.rooms }
    {
        let buffers = &mut self.buffers;
        buffers.links[usize::from(link)].window.reset();
    }
}

/// Where a message goes that is moved: it waits for the target, or is parked where there is none.
pub fn fate_on(target: Option<u8>) -> Fate
    ensures value { result ≡ fate_on target }
    ensures queued { IsQueued result }
{
    match target {
        Some(link) => Fate::Waiting { link },
        None => Fate::Parked,
    }
}
