//! The octets that are put into a line, kept on a tape.
//!
//! A [`TapedLine`] is one end of any line (`line_ring`), and puts into it what it's told to; what goes into the line stands
//! on its [`Tape`] too. A terminal puts an octet in each octet time, so the place of an octet on the tape is its time. Memory
//! for a tape may be refused; the line goes on, and the tape is lost.
#![tactic(auto)]

mod tape;
mod taped_line;

pub use tape::Tape;
pub use taped_line::TapedLine;
