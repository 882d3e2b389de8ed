//! The two error rate monitors of a signalling link (Q.703 10): the signal unit error rate monitor of a
//! link in service ([`Suerm`], 10.2) and the alignment error rate monitor of one proving ([`Aerm`], 10.3).
//!
//! A monitor is a value: it is told of each mark, and answers whether it has tripped. It has no clock, does no
//! IO, takes no lock and no memory, and never fails.
//!
//! An error mark is a signal unit received in error, a unit whose length indicator is wrong (own), or N = 16
//! octets of octet counting; each other unit received is a good mark.
//!
//! ```text
//!   SUERM's count
//!   64 = T  - - - - - - - - - - - - - - - - - - - - -/- - -   tripped, and stays so: the link fails
//!                                                __ /
//!                   ____                        /  |         an error: up by one
//!              __  /    |__     __           __/
//!             /  |/        |___/  |_      __/                each D = 256th mark, good or not: down by one
//!    0  _____/                      |____/                   never below 0
//!       |--------|---------|--------|--------|-----|-----> marks
//!               256       512      768     1024
//! ```
//!
//! AERM has no leak: it trips at the fourth error of a normal proving, at the first of an emergency one.
#![tactic(auto)]

mod aerm;
mod suerm;

pub use aerm::{Aerm, aerm_keeps_its_past};
pub use suerm::{Suerm, suerm_keeps_its_past};
