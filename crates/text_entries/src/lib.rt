//! Words for events and answers: scripts, terminals and histories share them.
//!
//! | what | its text |
//! |---|---|
//! | [`pair_steps::Showing`], what a step showed: an answer of a set, an up, a loss | [`write_shown`], [`push_shown`] |
//! | [`set_events::AnswerRef`], the answer of a set alone | [`push_answer`] |
//! | [`set_events::Counts`] of an end | [`write_end`] |
//!
//! Each of these is a line, ended by LF, and fails only where memory is wanted. Numbers are decimal, octets are
//! hexadecimal in lower case, and a sent unit is printed in the profile of its set with its check octets
//! ([`unit_octets`] has those before them). [`code_of`] is the number by which a heard unit's fault is printed.
//! [`write_named`] has the words for the numbers of refusals and of messages that were given up.
//! `specs/Texts.antt` and `specs/Reasons.antt` have the words.
//!
//! A history is a text of lines: what its set was opened with, and an entry or a checkpoint a line.
//!
//! ```text
//! set links=1 method=basic a=2 b=1 sio=80
//! user 0 offer 8501800030 -> accepted 0
//! terminal 0 next 0 -> sent ff80058501800030156e
//! ```
//!
//! | what | its text |
//! |---|---|
//! | who asked | `user N`, `terminal L` |
//! | what was asked | `offer HEX` (`offer` alone for the empty body), `take`, `find N`, `next L`, `hear L HEX`, `up L`, `down L`, `blind L`, `noanswer L`, `timed L`, `restore L`, `redeclare L`, `backtimeout L`, `test L` |
//! | what was answered | the line of an answer |
//! | a checkpoint | `checkpoint`, a line between entries |
//!
//! Units stand in the set's profile, which the caller tells.
//!
//! [`write_entry`] writes it, [`write_answer`] its answer alone, [`write_entries`] those of a list, [`read_entry`] reads
//! it back, and [`one_entry`] and [`one_history`] are the laws that no two entries, and no two lists of them, share a text.
//! [`read_item`] and [`ItemPlace`] read a line that may be a checkpoint, [`write_piece`] writes entries with a checkpoint behind them, and
//! [`items_read_back`] and [`pieces_are_the_whole`] are the laws of these. `specs/Entries.antt` and `specs/Pieces.antt`
//! have the words.
//!
//! [`write_history`] writes the lines of a history without a checkpoint. Each line is read by itself: [`read_config`]
//! the first, which is that of a script (`text_forms`) with the set as its end a, so one reader serves both;
//! a [`LinePlace`] each other. Empty lines and remarks (`#`) are passed over. What all lines of a text tell says
//! `specs/Telling.antt`. [`reads_back`] and [`one_line`] are the laws of the first line. That of a wide set ends in
//! `profile=wide`; that of a narrow set has no such word.
//!
//! [`explain_line`] tells of a line that can't be read which word is at fault and what is wanted in its place
//! (`specs/Blaming.antt`), and [`each_line_is_explained`] is the law that it does so of each.
//!
//! This crate knows no set and no script: whether a history is legal isn't its matter.
#![tactic(auto)]

mod answers;
mod blaming;
mod events;
mod first_line;
mod items;
mod lines;
mod reading;
mod reasons;
mod texts;
mod units;
mod words;
mod writing;

pub use blaming::{each_line_is_explained, explain_line};
pub use first_line::{one_line, reads_back, write_history};
pub use items::{ItemPlace, items_read_back, pieces_are_the_whole, read_item, write_piece};
pub use lines::{LinePlace, read_config};
pub use reading::{one_entry, one_history, read_entry};
pub use reasons::write_named;
pub use texts::{code_of, push_answer, push_shown, write_end, write_shown};
pub use units::{UnitOctets, unit_octets};
pub use writing::{write_answer, write_entries, write_entry};
