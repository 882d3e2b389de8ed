//! Laws that speak of states alone.
#![tactic(auto, using(crate::proofs::Soundness::laws))]

ghost use Rattle.std.specs.Prelude.{◌≡◌, ℕ, ◌<◌, Bool, true, List, slice_get, Some};
ghost use Rattle.set_model.specs.Rows.{Fate, Row, IsNumbered};
ghost use Rattle.set_model.specs.State.{Up, Down, Settled, LinkState, State, Settings, given, opened_with, target};
ghost use Rattle.set_model.specs.Changeover.{Upto, is_reasonable, reached_by, settled};
ghost use Rattle.set_model.specs.Step.{Event, Gains, step};
ghost use Rattle.set_model.specs.Sound.{AreAtMost, BeginsNone, IsManaged, IsSettings, IsSound, WholeNumbers, one_more};
ghost use Rattle.set_model.specs.Frame.{Concerns, LeavesAlone, MovesAsItsControl};
ghost use Rattle.set_model.specs.Checkpoint.{Checkpoints};
ghost use Rattle.set_model.specs.Laws.{DivertsTo, IsEmptyLink, IsNew, KeepsMessages, MessagesStay, MovesTheLinksRows, MovesTheRest, RunsStraight, rest_of};

/// No change takes a row out, or gives one another number or another body; and a new message
/// leaves all others as they are. Each number stands in exactly one row.
pub fn no_message_changes()
    ensures { (test : Fate → Bool) (to : Fate) (fate : Row → Fate) (given : ℕ) (rows : List Row)
        → IsNumbered given rows → MessagesStay test to fate given rows }
{}

/// What leaves a link are just its rows: those that wait for it, were sent on it and aren't
/// acknowledged, or are held for it. They are the last rows then, in their old order, and each has
/// its new place; every other message has its old one.
pub fn a_move_moves_the_links_rows()
    ensures { (link : ℕ) (fate : Row → Fate) (given : ℕ) (rows : List Row)
        → IsNumbered given rows → MovesTheLinksRows link fate rows }
{}

/// No event takes a message out, or gives one another number or another body: each stands in exactly
/// one place, before and after. So a changeover neither loses a message nor doubles one within the set
/// (Q.704 5.1.1).
pub fn no_event_changes_a_message()
    ensures { (s : State) (event : Event) → IsNumbered (given s) s.rows → KeepsMessages s (step s event).state }
{}

/// Once a link has settled no message stands on it: none that was sent and isn't acknowledged, none that
/// waits for it, and none that is held for it (Q.704 5.5).
pub fn a_settled_link_is_empty()
    ensures { (s : State) (number : ℕ) (link : LinkState) → IsSound s → slice_get s.links number ≡ Some link
        → link.phase ≡ Settled → IsEmptyLink number s.rows }
{}

/// Where a link settles by a reasonable FSN of the far end, the messages up to it are acknowledged, and exactly the
/// others of the link leave it in their order, for the lowest-numbered link that is up, or to be parked. They
/// stand behind all other messages, and those stay as they were (Q.704 5.4, 5.5).
pub fn settling_moves_the_rest()
    ensures { (fsn number : ℕ) (link : LinkState) (s : State) → slice_get s.links number ≡ Some link
        → is_reasonable fsn number link s.rows ≡ true → MovesTheRest fsn number link s }
{}

/// A changeover diverts exactly the messages past those that the far end has, in order: the rest of what was
/// sent, then what waited, then what was held, behind all that waited for the target before, or, where no link
/// is up, behind what was parked (Q.704 5.5).
pub fn a_changeover_diverts_the_rest()
    ensures { (fsn number : ℕ) (link : LinkState) (s : State) → IsSound s → slice_get s.links number ≡ Some link
        → link.phase ≡ Down → is_reasonable fsn number link s.rows ≡ true
        → DivertsTo (target s.links) (rest_of number (reached_by fsn number link s.rows) s.rows)
        s.rows (settled (Upto fsn) number link s).rows }
{}

/// Each accepted message stands in one place more, and what is acknowledged stays so.
pub fn a_step_gains()
    ensures { (s : State) (event : Event) → IsManaged s.settings
        → Gains s event (step s event).answer (step s event).state }
{}

/// An event sends at most one message on each link, and accepts at most one body there, so each whole number of a
/// link's life is at most the number of the set's events.
pub fn a_step_counts()
    ensures { (s : State) (event : Event) (most : ℕ → WholeNumbers) → AreAtMost most s
        → AreAtMost (λ number. one_more (most number)) (step s event).state }
{}

/// A set that nothing was asked of is sound, and has no number yet.
pub fn a_new_set_is_sound()
    ensures { (settings : Settings) → IsSettings settings → IsNew (opened_with settings) }
{}

/// Every event keeps what holds of every set's state: of its numbers, of each link's window and the order of its
/// rows, of where streams run, of what is parked, and of what waits for a changeback.
pub fn every_step_keeps_a_set_sound()
    ensures { (s : State) (event : Event) → IsSound s → IsSound (step s event).state }
{}

/// An event leaves all links alone that it doesn't concern: its own link, that of an order which its unit
/// brings, and the one on which an offered message's stream runs. Messages can come to wait for another
/// one if it's up: an order ahead of the users' that wait, others last.
#[tactic(auto, using(crate::proofs::Soundness::step_laws))]
pub fn an_event_leaves_the_rest_alone()
    ensures { (number : ℕ) (s : State) (event : Event) → (Concerns event number s → ⊥)
        → LeavesAlone number s (step s event).state }
{}

/// What is sent and what is heard moves a link's window as its error control's own step does, and where
/// a heard unit brings no order that is all that happens to rows and links (Q.703 5 and 6).
pub fn a_window_moves_as_its_control()
    ensures { (number : ℕ) (link : LinkState) (s : State) → IsSound s → slice_get s.links number ≡ Some link
        → link.phase ≡ Up → MovesAsItsControl number link s }
{}

/// While no changeback is under way, and none begins, the messages of each stream that aren't finished
/// stand together where the stream runs, in the order of their numbers.
pub fn streams_stay_together()
    ensures { (s : State) (event : Event) → BeginsNone event → IsSound s → RunsStraight s
        → RunsStraight (step s event).state }
{}

/// At a checkpoint each message that is finished leaves the rows for one count, and all others keep their numbers,
/// bodies, fates and order; no number is given out anew.
#[tactic(auto, using(crate::proofs::Checkpointing::checkpoints))]
pub fn a_checkpoint_keeps_what_is_unfinished()
    ensures { (s : State) → Checkpoints s }
{}
