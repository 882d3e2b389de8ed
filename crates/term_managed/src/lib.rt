//! Management of one end's links: a bench ([`term_bench`]), and what level 3 keeps of each of its links ([`l3_link`]).
//!
//! A [`ManagedBench`] does all that a bench does. Behind each turn of a link that is activated
//! ([`ManagedBench::activate`]) that link's management sees how it stands, and what it asks is carried out by the bench's
//! own calls: commands to its terminal, events of the set. It's told whether that was done, until it asks nothing more.
//! So a driver gives octets alone, and what a bench promises of its calls holds here.
//!
//! ```text
//!  octet ---> turn (term_bench) ---> seen: level 2, phase, other links ---> LinkManagement (l3_link)
//!  octet <--- ManagedTurn             commands, events of the set  <------- Ask
//!                                     done, or refused             -------> answered
//! ```
//!
//! It reads no clock, waits for nothing and does no IO. A link that isn't activated is the driver's own, and its turns
//! are the bench's.
#![tactic(auto)]

mod bench;
mod carrying;
mod fault;
mod kept;
mod laws;
mod seeing;
mod turn;

pub use bench::ManagedBench;
pub use fault::ManageFault;
pub use laws::{a_link_that_is_off_is_the_benchs, what_comes_has_one_hearing};
pub use turn::{Deed, ManagedTurn};
