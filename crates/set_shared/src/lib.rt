//! A link set that threads share: one lock round one set.
//!
//! Users and terminals are threads, each with a seat of its own (`set_ledger`). A call takes the set's lock, makes
//! one step there, and gives the lock back, so each entry of the history is made under one holding of it.
//!
//! ```text
//! user threads      offer, take, find, checkpoint   \
//!                                                     one Mutex: Held (SetCore and the ledgers' books)
//! terminal threads  term_step, term_step_held        /
//! ```
//!
//! What stands under the lock has no name outside, so a call says of the set only what its seat shows: the receipt that
//! was made there and nowhere else. What they come to together is known when all seats are back: [`LinkSet::close`].
//!
//! [`LinkSet::checkpoint`] keeps the history short, and [`LinkSet::forget`] a seat's receipts, which take as much as the
//! entries.
//!
//! The calls that take the lock may wait for it, and nothing is promised of who gets it, or when.
#![tactic(auto)]

mod link_set;

pub use link_set::{LinkNow, LinkSet, Opened};
pub use set_ledger::{
    Back, Base, Blanks, Closed, CreateFault, EndFault, Forgotten, Held, Opening, Seat, SeatShare,
    SetFault, TermSeat, UserSeat,
};
