//! The model of a signalling terminal: what it holds, and what one turn of it is, as definitions and laws
//! (ITU-T Q.703 7 to 12).
//!
//! There is no code in it but the words that a terminal's code shares: its commands and its timers. `link_term` meets the
//! definition. It reads no clock, does no IO and takes no memory: a turn is one octet time, what the line gives and
//! takes are octets, and what is asked of the link's set stands behind a door.
//!
//! `specs/` has the definitions, in the order to read them: `Terminal` (what a terminal holds), `Talk` (what is asked
//! at the door, and how a turn goes on by the answer), `Machines` (what an input of a machine makes of the
//! terminal), the six steps, `Turn`, and `Runs` (turns one after another, and what they count).
//!
//! | step | file | Q.703 |
//! |---|---|---|
//! | 1 commands | `Obeying` | 7.2, 8.1, 9.2, 12.1 |
//! | 2 one octet in | `OctetIn` | 2.4, 3, 4 |
//! | 3 marks: the monitors, the machines, the set | `Hearing` | 5 to 10 |
//! | 4 timers | `Timing` | 12.3 |
//! | 5 what is sent next | `Choosing` | 8.1, 11.2, 12.1 |
//! | 6 one octet out | `OctetOut` | 2.2, 3, 4.2 |
//!
//! The laws stand in `TalkLaws`, `MachineLaws`, `TurnLaws`, `LineLaws` and at the end of `Runs`, worked
//! rows in `Rows` and `OrderRows`; the functions here, which do nothing, carry them.
#![tactic(auto)]

mod command;
mod laws;
mod report;
mod timers;

pub use command::{Command, Commands};
pub use laws::{
    a_damaged_unit_is_not_heard, a_fault_breaks_a_talk_off, a_turn_is_its_six_steps,
    an_input_asks_at_most_one_thing, rows_come_out, runs_follow_each_other,
    talks_follow_each_other, terminals_stay_sound, the_line_carries_units,
};
pub use report::TermReport;
pub use timers::{Clocks, Timers};
