//! The words of the program's command line: which subcommand they ask for, and what help says of each.
//!
//! `clap` reads the words; what it takes is its definition over this program's subcommands
//! (`specs/CommandLine.antt`), and contracts tie [`words_of`] to that in both directions, and [`asked_by`], which is
//! handed a program's arguments. Where a word is wrong of which more can be said than the library does, that is said: a
//! file behind a subcommand that reads standard input, or a value out of its range (`specs/Advice.antt`). This crate carries
//! nothing out, prints nothing and reads no file.
#![tactic(auto)]

mod advice;
mod help;
mod run_options;
mod run_words;
mod words;

pub use advice::say_linkless;
pub use run_words::RunWords;
pub use words::{Told, Words, WordsFault, asked_by, not_unicode, words_of};
