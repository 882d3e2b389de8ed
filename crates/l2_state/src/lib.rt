//! Link state control of one end of a signalling link (Q.703 8, 12): out of service, aligning, ready for the far end,
//! in service; and whether this end has a processor outage.
//!
//! A pure machine: an input in, a value of outputs back. It never reads a clock, does no input or output, takes
//! no lock and no memory. The timer T1, initial alignment and the signal unit error rate monitor (SUERM, Q.703 10.2)
//! are the caller's: an output says when each starts or stops, and an input what became of it.
//!
//! - Inputs: [`LinkState::input`] takes one [`StateIn`]. An emergency is told to initial alignment, not here.
//! - Outputs: the [`StateOut`] that it returns.
//! - Laws over all runs: [`laws`].
//!
//! Statuses, causes and orders to timers are those of `l2_units`: O (SIO, out of alignment), N (SIN, normal), E
//! (SIE, emergency), OS (SIOS, out of service), PO (SIPO, processor outage) and B (SIB, busy); causes by number.
//!
//! ```text
//!   +---------+  Start:  start alignment                 +------------+
//!   |         | ---------------------------------------> |            |
//!   |         |  NotPossible:  DOWN 8                    |  Aligning  |
//!   |         |  Stop:  stop alignment, DOWN 9           |            |
//!   |         | <--------------------------------------- +------------+
//!   |         |                                                |  Complete:  start T1, new SUERM,
//!   |         |                                                v    send fill-in units
//!   |         |  heard O, OS:  DOWN 7                    +------------+
//!   | Out of  |  T1:  DOWN 4;  Failure c:  DOWN c        |            | ---+
//!   | service |  Stop:  stop alignment, DOWN 9           |   Ready    |    |  heard PO:  stop T1
//!   |         | <--------------------------------------- |            | <--+
//!   |         |                                          +------------+
//!   |         |                                                |  heard FISU, MSU:  stop T1,
//!   |         |                                                v    send traffic, tell Up
//!   |         |  heard O, N, E, OS:  DOWN 7              +------------+
//!   |         |  Failure c:  DOWN c                      |            | ---+  heard PO:  paused
//!   |         |  Stop:  stop alignment, DOWN 9           | In service |    |  heard FISU, MSU:
//!   |         | <--------------------------------------- |            | <--+    not paused
//!   +---------+                                          +------------+
//! ```
//!
//! DOWN c sends OS, stops T1, tells Down with the cause c, and leaves the link out of service, neither paused nor out.
//! Whole:
//!
//! ```text
//! state             input               effect                                      next
//! ----------------  ------------------  ------------------------------------------  ------------
//! OutOfService      Start               send the alignment's status, start it       Aligning
//! Aligning          Complete            start T1, new SUERM, send fill-in units     Ready
//! Aligning          NotPossible         DOWN 8                                      OutOfService
//! Ready             heard FISU, MSU     stop T1, send traffic, tell Up              InService
//! Ready             heard PO            stop T1 (own)                               Ready
//! Ready             heard O, OS         DOWN 7                                      OutOfService
//! Ready             T1                  DOWN 4                                      OutOfService
//! InService         heard FISU, MSU     not paused (own)                            InService
//! InService         heard PO            paused (own)                                InService
//! InService         heard O, N, E, OS   DOWN 7                                      OutOfService
//! Ready, InService  Failure c           DOWN c                                      OutOfService
//! not OutOfService  Stop                stop alignment, DOWN 9                      OutOfService
//! any               Outage              out; send PO if Ready or InService          the same
//! any               Recover             not out; send fill-in units if Ready,       the same
//!                                       traffic if InService
//! ```
//!
//! While this end is out, so that it has a processor outage (Q.703 8.1), PO is sent in place of fill-in units and of
//! traffic. T1 runs in Ready whether it's out or not.
//!
//! What has no row is ignored: nothing is sent, T1 and alignment are left as they are, nothing is told, and the
//! state stays, paused or not, out or not. Only a link in service can be paused.
//!
//! (own): where the far end has an outage, a link that is not up yet waits for it without T1, and one that is in
//! service sends no message until a FISU or an MSU is heard. A link that goes down isn't out any more.
#![tactic(auto)]

pub mod laws;
mod link_state;
mod signals;

pub use link_state::{LinkState, State};
pub use signals::{Indication, Sending, StateIn, StateOut, Switch};
