//! The text of `terminal`: one end of a set of links whose lines are elsewhere.
//!
//! ```text
//! line of the input (text_forms) -> bench: turns by octets and bits, level 3 behind them, calls of user 0 and of
//!                                   terminals (term_managed) -> event lines, and one answer
//! ```
//!
//! [`terminal`] reads a source line by line and writes what each line prints, for whoever drives the end: the lines, which
//! are bits, and the time, since a turn takes an octet and gives one. The first line opens the set; a line of timers may
//! follow, and one of level 3's times. `specs/Text.antt` is the text: a relation, since the marks of bits are related and not computed; by the law
//! [`one_terminal_text`] an input has one text. `specs/Answers.antt` has what a line prints, `specs/Showing.antt` what its
//! turns show.
//!
//! [`terminal_explained`] does as much in words: a number that tells why something was refused or given up has its words
//! behind it (`specs/Named.antt`). Its fault brings an explanation along: which line it is, what is wanted there
//! (`text_forms`), the line itself, and a caret under the word at fault (`specs/Explaining.antt`). Each line that is refused
//! has one, and what it says of a set or a link is so (`specs/Reasons.antt`). A line of over 4,096 octets isn't kept, and so
//! not shown.
//!
//! A link that goes out since it was stopped tells who did that (`specs/Stopping.antt`). After `events on` it's told where
//! streams run, where that changes (`specs/Moving.antt`).
//!
//! [`terminal_kept`] and [`terminal_kept_explained`] answer a line at fault and go on from what the lines before it left
//! (`specs/Kept.antt`).
#![tactic(auto)]

mod asking;
mod counting;
mod explaining;
mod fault;
mod forgetting;
mod hearing;
mod kept;
mod laws;
mod level3;
mod moving;
mod named;
mod open_end;
mod rows;
mod stopping;
mod text;
mod words;

pub use fault::TerminalFault;
pub use laws::{as_many_octets_go_out, every_fault_is_told, every_reason_is_so, one_terminal_text};
pub use open_end::Terminal;
pub use text::{terminal, terminal_explained, terminal_kept, terminal_kept_explained};
pub use text_lines::Explained;
