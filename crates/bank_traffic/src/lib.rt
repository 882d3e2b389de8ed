//! Two banks, one for the ends a and one for the ends b of each set, whose links are joined by pairs of rings.
//!
//! ```text
//! bank a                                              bank b
//!  set 0   users: offer, find                          set 0   one user: take
//!          terminal 0  ===== pair of rings =====               terminal 0
//!          terminal 1  ===== pair of rings =====               terminal 1
//!  set 1   ..                                          set 1   ..
//! ```
//!
//! Nothing paces threads, so that a terminal could spend all its turns before the one at the other end has begun. The
//! gate of these banks does ([`PaceGate`]): the end of a link that is 64 turns ahead of the other waits for it.
#![tactic(auto)]

mod asked;
mod management;
mod noise;
mod opening;
mod pace;
mod traffic;
mod watch;

pub use asked::Traffic;
pub use management::gates_of;
pub use noise::{Noise, NoisyLine};
pub use opening::body_of;
pub use pace::{PaceGate, pace_gates};
pub use traffic::{TrafficEnds, run_through, run_traffic};
