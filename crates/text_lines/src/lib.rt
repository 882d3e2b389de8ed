//! A text that is read line by line, and printed as its lines are carried out.
//!
//! ```text
//! octets -> lines of at most LONGEST_LINE octets (LineText) -> what each prints, and what is printed behind the last
//!        -> lines of at most 4,096 octets -> what each that is no remark does (TalkText) -> what it prints
//! ```
//!
//! [`print_lines`] reads a source and writes what its lines print, each when it has ended, for every [`LineText`]: which text
//! lines have, and the code that reads one line of it. It has the line ends, the longest line and the numbers of the
//! lines, once, and keeps one line (`specs/LineTexts.antt`).
//!
//! [`print_talk`] does so for every [`TalkText`]: the rules of a text, and the code that carries out one line of it, which is no
//! remark. The rules are a relation by which a line has one outcome (`specs/Talks.antt`), or a function as one
//! (`by_function`); then `specs/Lines.antt` says what is printed, a function from the octets of the input and the rules.
//! [`print_explained`] does so for every text that [`Explains`] its faults: the same octets and the same fault, which brings
//! the lines that explain it along ([`Explained`], `specs/Explaining.antt`).
//!
//! [`find_flaw`] tells of a line that can't be read which octet besides its words is at fault (`specs/Flaws.antt`).
//! [`is_passed_over`] is for a [`LineText`] with remarks.
//!
//! This crate knows no text.
#![tactic(auto)]

mod explained;
mod explaining;
mod flaw;
mod line_reader;
mod line_text;
mod lines;
mod talk_text;
mod talking;
mod text;

pub use explained::Explained;
pub use explaining::{Explains, print_explained};
pub use flaw::{LineFlaw, find_flaw};
pub use line_text::LineText;
pub use lines::is_passed_over;
pub use talk_text::TalkText;
pub use text::{print_lines, print_talk};
