//! Initial alignment control of one end of a signalling link (Q.703 7): from Idle through Not aligned and
//! Aligned to Proving, until alignment is complete or found not possible.
//!
//! A pure machine: an input in, a value of outputs back. It never reads a clock, does no input or output, takes
//! no lock and no memory. Timers are the caller's: an output says which one stops or starts, and an input that
//! one has ended. So is the alignment error rate monitor (AERM, Q.703 10.3): an output says when one begins, in
//! which of its two settings, and the input [`AlignIn::Abort`] that it tripped.
//!
//! - Inputs: [`Align::input`] takes one [`AlignIn`].
//! - Outputs: the [`AlignOut`] that it returns.
//! - Laws over all runs: [`laws`].
//!
//! Statuses and orders to timers are those of `l2_units`: O (SIO, out of alignment), N (SIN, normal), E (SIE,
//! emergency), OS (SIOS, out of service), PO (SIPO, processor outage) and B (SIB, busy).
//!
//! ```text
//!                  Start:  send O, start T2
//!   +------+ ------------------------------------> +-------------+
//!   |      |       T2:  NotPossible;  Stop         | Not aligned |
//!   |      | <------------------------------------ +-------------+
//!   |      |                                              |  heard O, N, E:  stop T2, start T3,
//!   |      |                                              |    send E if emergency was asked
//!   |      |                                              v    for here, else N
//!   |      |   heard OS, T3:  NotPossible;  Stop   +-------------+
//!   | Idle | <------------------------------------ |   Aligned   | <-------------------+
//!   |      |                                       +-------------+                     |
//!   |      |                                              |  heard N, E:  stop T3,     |  heard O:  stop T4,
//!   |      |                                              |    no abort counted,       |    start T3,
//!   |      |   T4:  Complete;  Stop                       v    PROVE                   |    monitor off
//!   |      |   fifth abort, heard OS:  NotPossible +-------------+                     |
//!   |      | <------------------------------------ |   Proving   | --------------------+
//!   +------+                                       +-------------+
//!                                                    |         ^   abort, none waiting:  it waits, monitor off
//!                                                    +---------+   good unit or T4, an abort waiting:  PROVE
//!                                                                  heard E, Emergency, if not short:  short, PROVE
//! ```
//!
//! PROVE begins a proving period: no abort waits, T4 starts with 65,536 octet times and the monitor in its normal
//! setting, or, where the period is `short`, with 4,096 and in its emergency setting (Q.703 7.4). Whole, with the
//! values `local` (emergency was asked for here), `short`, `aborts` and `pending` (an abort waits):
//!
//! ```text
//! state        input        effect                                                      next
//! -----------  -----------  ----------------------------------------------------------  ---------------
//! Idle         Emergency    local                                                       Idle
//! Idle         Calm         not local                                                   Idle
//! Idle         Start        send O, start T2                                            NotAligned
//! NotAligned   Emergency    local                                                       NotAligned
//! NotAligned   Calm         not local                                                   NotAligned
//! NotAligned   Heard O, N   short = local; send E if local, else N; stop T2, start T3   Aligned
//! NotAligned   Heard E      short; send E if local, else N; stop T2, start T3           Aligned
//! NotAligned   T2           NotPossible                                                 Idle
//! Aligned      Emergency    local, short; send E                                        Aligned
//! Aligned      Calm         if local: not local, not short; send N                      Aligned
//! Aligned      Heard N      stop T3, aborts 0, PROVE                                    Proving
//! Aligned      Heard E      short; stop T3, aborts 0, PROVE                             Proving
//! Aligned      Heard OS     NotPossible                                                 Idle
//! Aligned      T3           NotPossible                                                 Idle
//! Proving      Emergency    local; send E; if not short: short, PROVE                   Proving
//! Proving      Calm         if local: not local; send N; the period goes on (own)       Proving
//! Proving      Heard E      if not short: short, PROVE                                  Proving
//! Proving      Heard O      pending false, monitor off, stop T4, start T3               Aligned
//! Proving      Heard OS     NotPossible                                                 Idle
//! Proving      Abort        if pending: ignored; else aborts plus 1; at 5 NotPossible   Idle at 5
//!                           under 5: pending, monitor off                               Proving
//! Proving      Good         if pending: PROVE                                           Proving
//! Proving      T4           if pending: PROVE; else Complete                            Idle if Complete
//! not Idle     Stop                                                                     Idle
//! ```
//!
//! Each way to Idle clears the four values, names the state's own timer as the one that stops (also where its end
//! is the input) and turns the monitor off. What has no row is ignored: nothing is sent, no timer is touched, the
//! monitor is kept, there is no end, and the machine stays as it was.
#![tactic(auto)]

mod align;
pub mod laws;
mod signals;

pub use align::{Align, NORMAL_PROVING, State};
pub use signals::{AlignIn, AlignOut, Monitor, Outcome};
