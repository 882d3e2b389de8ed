//! Laws that speak of definitions alone.
ghost use Rattle.terminal_text.specs.Answers.{AsManyGoOut};
ghost use Rattle.terminal_text.specs.Reasons.{EveryFaultIsTold, EveryReasonIsSo};
ghost use Rattle.terminal_text.specs.Text.{HasText, terminal_rules};
ghost use Rattle.text_lines.specs.Talks.{HaveOneOutcome, HasOneText};

/// A law: an input has a text, and since a line has one outcome, one alone: what is printed is a function of what is read.
pub fn one_terminal_text()
    ensures outcome { HaveOneOutcome terminal_rules }
    ensures text { HasOneText terminal_rules }
    ensures there { HasText }
{}

/// A law: as many octets go out as came.
pub fn as_many_octets_go_out()
    ensures { AsManyGoOut }
{}

/// Of every end and every line that is refused there, something is told.
pub fn every_fault_is_told()
    ensures { EveryFaultIsTold }
{}

/// What is told of a set or a link is so: a first line told as wide is one that could open a set of the wide profile, and
/// a line that is told to ask for no link of the set asks for one that the set hasn't.
pub fn every_reason_is_so()
    ensures { EveryReasonIsSo }
{}
