//! Seats, and the ledgers that say that a set's totals are the sums of the seats' shares.
//!
//! A [`Held`] is what stands under the lock of a set: a `SetCore` and the books of six ledgers, which count calls, accepted
//! messages, their octets, acknowledged messages and checkpoints, and tell of a full history. Each user and each link's terminal has
//! a seat: its actor, a share of each ledger that it moves, and a receipt for each step that it made. A share moves only
//! together with its book, and [`step_in`] alone makes receipts, so that whoever gets all seats back
//! can hold them against the history: [`Held::end`] does.
//!
//! [`Held::checkpoint`] makes what the set holds its base, from which the history begins anew; the seats keep their
//! receipts, of which the last are the history's, until they [`forget`] those that lie in the base.
//!
//! ```text
//! users      UserSeat 0, 1, ..     calls, messages, octets        \
//!                                                                   step_in -> Held: SetCore and the books
//! terminals  TermSeat 0, 1, ..     calls, acknowledged messages   /
//! ```
//!
//! A set has one type parameter `O`, which tells what it was opened with ([`Opening`]): the blanks that name its six
//! ledgers, and its settings. A value under a lock has no name in a contract, but its type has one. Whoever opens a set
//! picks both anew, for a function that is generic over `O`, so a seat of another set doesn't compile: "expected `&mut
//! UserSeat<O>`, found `&mut UserSeat<P>`". The fields of `Held` and of the seats are private here, and [`Seat`] is sealed,
//! so no other crate makes or changes a seat, or makes a receipt: "the trait bound `OtherSeat: Step<O>` is not satisfied".
//!
//! A set and its seats take memory of an allocator `G`, by default the program's. A set that ends is one over the program's.
//!
//! This crate takes no lock and waits for nothing.
#![tactic(auto)]

mod checking;
mod ending;
mod forgetting;
mod held;
mod making;
mod opening;
mod places;
mod seat;
mod share;
mod stepping;

pub use ending::{Back, Closed, EndFault};
pub use forgetting::forget;
pub use held::{CreateFault, Held, MOST_USERS, Opened};
pub use opening::Opening;
pub use seat::{Seat, TermSeat, UserSeat, reserve_receipt, step_in};
pub use set_core::{Base, SetCore, SetFault};
pub use share::{Blanks, Forgotten, SeatShare};
