//! Lines of scripts and of `terminal`: each is read by its form to what it asks for, or to the word at fault.
//!
//! A line is words with one space between two. Its first word says its form: the places that the words behind it fill, as
//! `lose END LINK PLACE`, which each is read in from the left (`specs/Words.antt`, `specs/Places.antt`). The first word that
//! isn't what is wanted there, is missing or is one too many is at fault, which a [`Blame`] tells: its column, from 0, and a
//! [`Mistake`], which has one text each.
//!
//! | line | is read by | table of its forms | gives |
//! |---|---|---|---|
//! | `set links=L method=W a=X b=Y sio=HH`, and `profile=narrow` or `profile=wide` behind it (own; narrow where neither stands) | [`read_opening`] | `specs/Opening.antt` | [`Opening`]: the configurations of both ends |
//! | any other of a script | [`read_move`], [`read_move_into`] | `specs/Moves.antt` | a [`pair_rises::Move`] |
//! | `timers t1=N t2=N t3=N t5=N t6=N t7=N` of a terminal, each 1 to 2^32 - 1 | [`read_timers`] | `specs/Timers.antt` | the lengths of its timers, in octet times |
//! | `level3 t1=N t2=N t4=N t5=N t17=N k1=N k2=N` of a terminal, so too | [`read_times`] | `specs/Times.antt` | the times of level 3, in turns |
//! | any other of a terminal but its first | [`read_asked`] | `specs/Asking.antt`, `specs/Units.antt` | [`Asked`] |
//! | octets in one word, of `decode` | [`blame_octets`] | `specs/OctetLines.antt` | the blame alone |
//!
//! A reader fails without a blame only where memory is wanted ([`Unread`]). [`blame_opening`], [`blame_move`] and
//! [`blame_line`] answer the blame alone; [`blame_impossible`], [`blame_link`] and [`blame_profile`] tell the word that says
//! why what a line asks for can't be done (`specs/Impossible.antt`). [`blame_at`] is for who reads a line in another way, as an
//! entry of a history.
//!
//! [`explain`] shows a blame on three lines, with a caret under the word:
//!
//! ```text
//! line 3: offer wants an end, a or b, and octets of two hexadecimal digits
//!   offer
//!        ^
//! ```
//!
//! A long line is cut around the caret, so that at most 100 columns are shown, and an octet that is no printable character
//! of ASCII is shown as a dot (`specs/Showing.antt`).
//!
//! This crate reads one line and carries none out: remarks, line ends and lengths are the text's (`text_lines`).
#![tactic(auto)]

mod asked;
mod asking;
mod at_column;
mod at_link;
mod early;
mod entry_mistake;
mod impossible;
mod mistake;
mod moves;
mod named;
mod octet_lines;
mod opened;
mod opening;
mod places;
mod showing;
mod terminal_mistake;
mod timers;
mod times;
mod units;
mod words;

pub use asked::{Asked, Repeated};
pub use asking::{blame_line, read_asked};
pub use at_column::blame_at;
pub use at_link::{AtLink, LinkEvent, read_link_event};
pub use early::Early;
pub use entry_mistake::EntryMistake;
pub use impossible::{blame_impossible, blame_link, blame_profile};
pub use mistake::Mistake;
pub use moves::{blame_move, read_move, read_move_into};
pub use named::Named;
pub use octet_lines::{blame_octets, no_octets_are_blamed};
pub use opened::{Opening, Values};
pub use opening::{blame_opening, read_opening};
pub use places::{read_unit, unit_in};
pub use showing::explain;
pub use terminal_mistake::TerminalMistake;
pub use timers::{USUAL_TIMERS, read_timers};
pub use times::read_times;
pub use words::{Blame, Unread};
